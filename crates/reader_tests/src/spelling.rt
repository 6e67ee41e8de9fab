//! How trees are spelled in tests: `(KIND PART ..)` for each node, but for variables, which are spelled as they are written.

use po_base::{List, Memory, Op, Text};
use po_tree::{Declarator, Exp, Specifier, Suffix, TypeName};

/// Writes bytes.
fn put(out: &mut Vec<u8>, bytes: &[u8]) -> Result<(), Memory> {
    out.extend_from_slice(bytes)?;
    Ok(())
}

/// Begins a node.
fn begin(out: &mut Vec<u8>, kind: &[u8]) -> Result<(), Memory> {
    put(out, b"(")?;
    put(out, kind)
}

/// Writes a text as a part of a node.
fn part(out: &mut Vec<u8>, text: &Text) -> Result<(), Memory> {
    put(out, b" ")?;
    put(out, text.bytes())
}

/// Ends a node.
fn end(out: &mut Vec<u8>) -> Result<(), Memory> {
    put(out, b")")
}

/// A node whose part is a text.
fn leaf(out: &mut Vec<u8>, kind: &[u8], text: &Text) -> Result<(), Memory> {
    begin(out, kind)?;
    last_text(out, text)
}

/// A node whose parts are texts.
fn texts(out: &mut Vec<u8>, kind: &[u8], list: &List<Text>) -> Result<(), Memory> {
    begin(out, kind)?;
    for text in list.as_slice() {
        part(out, text)?;
    }
    end(out)
}

/// A binary operator as it is written.
fn operator(op: Op) -> &'static [u8] {
    match op {
        Op::Add => b"+",
        Op::Sub => b"-",
        Op::Mul => b"*",
        Op::Div => b"/",
        Op::Rem => b"%",
        Op::And => b"&",
        Op::Or => b"|",
        Op::Xor => b"^",
        Op::Shl => b"<<",
        Op::Shr => b">>",
        Op::Eq => b"==",
        Op::Ne => b"!=",
        Op::Lt => b"<",
        Op::Le => b"<=",
        Op::Gt => b">",
        Op::Ge => b">=",
    }
}

/// An assignment as it is written.
fn assignment(op: Option<Op>) -> &'static [u8] {
    match op {
        None => b"=",
        Some(Op::Mul) => b"*=",
        Some(Op::Div) => b"/=",
        Some(Op::Rem) => b"%=",
        Some(Op::Add) => b"+=",
        Some(Op::Sub) => b"-=",
        Some(Op::Shl) => b"<<=",
        Some(Op::Shr) => b">>=",
        Some(Op::And) => b"&=",
        Some(Op::Xor) => b"^=",
        Some(Op::Or) => b"|=",
        _ => b"(unknown)",
    }
}

/// Ends a node with a text.
fn last_text(out: &mut Vec<u8>, text: &Text) -> Result<(), Memory> {
    part(out, text)?;
    end(out)
}

/// An expression as a part of a node.
#[cycle(spelling)]
fn item(out: &mut Vec<u8>, x: &Exp) -> Result<(), Memory> {
    put(out, b" ")?;
    spell(out, x)
}

/// Begins a node with its first part.
#[cycle(spelling)]
fn first(out: &mut Vec<u8>, kind: &[u8], x: &Exp) -> Result<(), Memory> {
    begin(out, kind)?;
    item(out, x)
}

/// Ends a node with its last part.
#[cycle(spelling)]
fn last(out: &mut Vec<u8>, x: &Exp) -> Result<(), Memory> {
    item(out, x)?;
    end(out)
}

/// Ends a node with these parts.
#[cycle(spelling)]
fn rest(out: &mut Vec<u8>, xs: &[Exp]) -> Result<(), Memory> {
    for x in xs {
        item(out, x)?;
    }
    end(out)
}

/// A node of one expression.
#[cycle(spelling)]
fn one(out: &mut Vec<u8>, kind: &[u8], x: &Exp) -> Result<(), Memory> {
    first(out, kind, x)?;
    end(out)
}

/// The size of a type.
#[cycle(spelling)]
fn size(out: &mut Vec<u8>, name: &TypeName) -> Result<(), Memory> {
    begin(out, b"sizeof ")?;
    type_name(out, name)?;
    end(out)
}

/// An expression.
#[cycle(spelling)]
pub(crate) fn spell(out: &mut Vec<u8>, x: &Exp) -> Result<(), Memory> {
    match x {
        Exp::Var(name) => put(out, name.bytes()),
        Exp::Num(text) => leaf(out, b"num", text),
        Exp::Chr(text) => leaf(out, b"chr", text),
        Exp::Str(list) => texts(out, b"str", list),
        Exp::Paren(x) => one(out, b"paren", x.get()),
        Exp::PostInc(x) => one(out, b"post++", x.get()),
        Exp::PostDec(x) => one(out, b"post--", x.get()),
        Exp::PreInc(x) => one(out, b"++", x.get()),
        Exp::PreDec(x) => one(out, b"--", x.get()),
        Exp::Addr(x) => one(out, b"&", x.get()),
        Exp::Deref(x) => one(out, b"*", x.get()),
        Exp::Plus(x) => one(out, b"+", x.get()),
        Exp::Minus(x) => one(out, b"-", x.get()),
        Exp::Compl(x) => one(out, b"~", x.get()),
        Exp::Not(x) => one(out, b"!", x.get()),
        Exp::SizeExp(x) => one(out, b"sizeof", x.get()),
        Exp::SizeType(name) => size(out, name.get()),
        _ => spell_further(out, x),
    }
}

/// The same of subscripts, calls, members, casts and conditional expressions.
#[cycle(spelling)]
fn spell_further(out: &mut Vec<u8>, x: &Exp) -> Result<(), Memory> {
    match x {
        Exp::Index(x, y) => {
            first(out, b"index", x.get())?;
            last(out, y.get())
        }
        Exp::Call(x, xs) => {
            first(out, b"call", x.get())?;
            rest(out, xs.as_slice())
        }
        Exp::Dot(x, name) => {
            first(out, b".", x.get())?;
            last_text(out, name)
        }
        Exp::Arrow(x, name) => {
            first(out, b"->", x.get())?;
            last_text(out, name)
        }
        Exp::Cast(name, x) => {
            begin(out, b"cast ")?;
            type_name(out, name.get())?;
            last(out, x.get())
        }
        Exp::Cond(x, y, z) => {
            first(out, b"?", x.get())?;
            item(out, y.get())?;
            last(out, z.get())
        }
        _ => spell_joined(out, x),
    }
}

/// The same of two operands with an operator between them.
#[cycle(spelling)]
fn spell_joined(out: &mut Vec<u8>, x: &Exp) -> Result<(), Memory> {
    match x {
        Exp::Binary(op, x, y) => {
            first(out, operator(*op), x.get())?;
            last(out, y.get())
        }
        Exp::LogAnd(x, y) => {
            first(out, b"&&", x.get())?;
            last(out, y.get())
        }
        Exp::LogOr(x, y) => {
            first(out, b"||", x.get())?;
            last(out, y.get())
        }
        Exp::Assign(op, x, y) => {
            first(out, assignment(*op), x.get())?;
            last(out, y.get())
        }
        Exp::Comma(x, y) => {
            first(out, b",", x.get())?;
            last(out, y.get())
        }
        _ => put(out, b"(unknown)"),
    }
}

/// A specifier. What no type name has is marked.
fn specifier(out: &mut Vec<u8>, spec: &Specifier) -> Result<(), Memory> {
    match spec {
        Specifier::Word(text) => put(out, text.bytes()),
        Specifier::Named(name) => leaf(out, b"named", name),
        Specifier::Struct(Some(tag), None) => leaf(out, b"struct", tag),
        Specifier::Enum(Some(tag), None, false) => leaf(out, b"enum", tag),
        _ => put(out, b"(with-body)"),
    }
}

/// The sizes of arrays, `-` where there is none.
#[cycle(spelling)]
fn arrays(out: &mut Vec<u8>, sizes: &[Option<Exp>]) -> Result<(), Memory> {
    put(out, b" ")?;
    begin(out, b"arrays")?;
    for size in sizes {
        match size {
            Some(x) => item(out, x)?,
            None => put(out, b" -")?,
        }
    }
    end(out)
}

/// What stands behind the stars of a declarator. What no type name has is marked.
#[cycle(spelling)]
fn suffix(out: &mut Vec<u8>, suffix: &Suffix) -> Result<(), Memory> {
    match suffix {
        Suffix::Plain => Ok(()),
        Suffix::Arrays(sizes) => arrays(out, sizes.as_slice()),
        Suffix::Params(_, _) => put(out, b" (params)"),
    }
}

/// The stars of a declarator, and what stands behind them.
#[cycle(spelling)]
fn declarator(out: &mut Vec<u8>, declarator: &Declarator) -> Result<(), Memory> {
    for words in declarator.stars.as_slice() {
        put(out, b" ")?;
        texts(out, b"*", words)?;
    }
    if let Some(name) = &declarator.name {
        part(out, name)?;
    }
    suffix(out, &declarator.suffix)
}

/// A type name.
#[cycle(spelling)]
fn type_name(out: &mut Vec<u8>, name: &TypeName) -> Result<(), Memory> {
    begin(out, b"type")?;
    for spec in name.specs.as_slice() {
        put(out, b" ")?;
        specifier(out, spec)?;
    }
    declarator(out, &name.declarator)?;
    end(out)
}
