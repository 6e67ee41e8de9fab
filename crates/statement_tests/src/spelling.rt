//! How expressions and type names are spelled: `(KIND PART ..)` for each node, but for variables and numbers, which are spelled as they are written.

use crate::writing::put;
use po_base::{List, Memory, Op, Text};
use po_tree::{Declarator, Exp, Specifier, Suffix, TypeName};

/// Begins a node.
pub(crate) fn begin(out: &mut Vec<u8>, kind: &[u8]) -> Result<(), Memory> {
    put(out, b"(")?;
    put(out, kind)
}

/// Writes a text as a part of a node.
pub(crate) fn part(out: &mut Vec<u8>, text: &Text) -> Result<(), Memory> {
    put(out, b" ")?;
    put(out, text.bytes())
}

/// Ends a node.
pub(crate) fn end(out: &mut Vec<u8>) -> Result<(), Memory> {
    put(out, b")")
}

/// A node whose part is a text.
pub(crate) fn leaf(out: &mut Vec<u8>, kind: &[u8], text: &Text) -> Result<(), Memory> {
    begin(out, kind)?;
    part(out, text)?;
    end(out)
}

/// A binary operator as it is written; those that no case has are marked.
fn operator(op: Op) -> &'static [u8] {
    match op {
        Op::Add => b"+",
        Op::Sub => b"-",
        Op::Mul => b"*",
        Op::Lt => b"<",
        Op::Eq => b"==",
        _ => b"operator",
    }
}

/// A specifier without a body.
pub(crate) fn specifier(out: &mut Vec<u8>, spec: &Specifier) -> Result<(), Memory> {
    match spec {
        Specifier::Word(text) => put(out, text.bytes()),
        Specifier::Named(name) => leaf(out, b"named", name),
        Specifier::Struct(Some(tag), None) => leaf(out, b"struct", tag),
        Specifier::Enum(Some(tag), None, false) => leaf(out, b"enum", tag),
        _ => put(out, b"(body)"),
    }
}

/// Stars, each with its qualifiers, as parts of a node.
pub(crate) fn stars(out: &mut Vec<u8>, stars: &List<List<Text>>) -> Result<(), Memory> {
    for words in stars.as_slice() {
        put(out, b" *")?;
        for word in words.as_slice() {
            part(out, word)?;
        }
    }
    Ok(())
}

/// An expression as a part of a node.
#[cycle(spelling)]
pub(crate) fn item(out: &mut Vec<u8>, x: &Exp) -> Result<(), Memory> {
    put(out, b" ")?;
    spell(out, x)
}

/// Begins a node with its first expression.
#[cycle(spelling)]
fn first(out: &mut Vec<u8>, kind: &[u8], x: &Exp) -> Result<(), Memory> {
    begin(out, kind)?;
    item(out, x)
}

/// Ends a node with its last expression.
#[cycle(spelling)]
fn last(out: &mut Vec<u8>, x: &Exp) -> Result<(), Memory> {
    item(out, x)?;
    end(out)
}

/// A node of one expression.
#[cycle(spelling)]
fn one(out: &mut Vec<u8>, kind: &[u8], x: &Exp) -> Result<(), Memory> {
    first(out, kind, x)?;
    end(out)
}

/// Ends a node with these expressions.
#[cycle(spelling)]
fn rest(out: &mut Vec<u8>, xs: &[Exp]) -> Result<(), Memory> {
    for x in xs {
        item(out, x)?;
    }
    end(out)
}

/// Begins a node with a type name.
#[cycle(spelling)]
fn typed(out: &mut Vec<u8>, kind: &[u8], name: &TypeName) -> Result<(), Memory> {
    begin(out, kind)?;
    put(out, b" ")?;
    type_name(out, name)
}

/// An expression; the forms that no case has are marked.
#[cycle(spelling)]
pub(crate) fn spell(out: &mut Vec<u8>, x: &Exp) -> Result<(), Memory> {
    match x {
        Exp::Var(name) => put(out, name.bytes()),
        Exp::Num(text) => put(out, text.bytes()),
        Exp::Paren(x) => one(out, b"paren", x.get()),
        Exp::PostInc(x) => one(out, b"post++", x.get()),
        Exp::Addr(x) => one(out, b"&", x.get()),
        Exp::Deref(x) => one(out, b"*", x.get()),
        Exp::Minus(x) => one(out, b"-", x.get()),
        Exp::SizeExp(x) => one(out, b"sizeof", x.get()),
        Exp::SizeType(name) => {
            typed(out, b"sizeof", name.get())?;
            end(out)
        }
        _ => spell_further(out, x),
    }
}

/// The same of forms with several parts.
#[cycle(spelling)]
fn spell_further(out: &mut Vec<u8>, x: &Exp) -> Result<(), Memory> {
    match x {
        Exp::Call(x, xs) => {
            first(out, b"call", x.get())?;
            rest(out, xs.as_slice())
        }
        Exp::Cast(name, x) => {
            typed(out, b"cast", name.get())?;
            last(out, x.get())
        }
        Exp::Cond(x, y, z) => {
            first(out, b"?", x.get())?;
            item(out, y.get())?;
            last(out, z.get())
        }
        Exp::Binary(op, x, y) => {
            first(out, operator(*op), x.get())?;
            last(out, y.get())
        }
        Exp::Assign(None, x, y) => {
            first(out, b"=", x.get())?;
            last(out, y.get())
        }
        Exp::Comma(x, y) => {
            first(out, b",", x.get())?;
            last(out, y.get())
        }
        _ => put(out, b"(form)"),
    }
}

/// The sizes of arrays, `-` where there is none.
#[cycle(spelling)]
pub(crate) fn arrays(out: &mut Vec<u8>, sizes: &[Option<Exp>]) -> Result<(), Memory> {
    put(out, b" ")?;
    begin(out, b"arrays")?;
    for size in sizes {
        match size {
            Some(x) => item(out, x)?,
            None => put(out, b" -")?,
        }
    }
    end(out)
}

/// What stands behind the stars of a declarator; parameters are marked.
#[cycle(spelling)]
fn suffix(out: &mut Vec<u8>, suffix: &Suffix) -> Result<(), Memory> {
    match suffix {
        Suffix::Plain => Ok(()),
        Suffix::Arrays(sizes) => arrays(out, sizes.as_slice()),
        Suffix::Params(_, _) => put(out, b" (params)"),
    }
}

/// A declarator whose parameters aren't spelled.
#[cycle(spelling)]
pub(crate) fn plain_declarator(out: &mut Vec<u8>, declarator: &Declarator) -> Result<(), Memory> {
    stars(out, &declarator.stars)?;
    if let Some(name) = &declarator.name {
        part(out, name)?;
    }
    suffix(out, &declarator.suffix)
}

/// A type name.
#[cycle(spelling)]
fn type_name(out: &mut Vec<u8>, name: &TypeName) -> Result<(), Memory> {
    begin(out, b"type")?;
    for spec in name.specs.as_slice() {
        put(out, b" ")?;
        specifier(out, spec)?;
    }
    plain_declarator(out, &name.declarator)?;
    end(out)
}
