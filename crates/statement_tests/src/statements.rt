//! How statements are spelled: `(KIND PART ..)` for each, so that each nested statement stands in parentheses of its own.

use crate::declarations::declaration;
use crate::spelling::{begin, end, item, leaf, part};
use crate::writing::put;
use po_base::{Boxed, Memory, Text};
use po_tree::{Exp, First, Stmt};

/// An expression as a part of a node, `-` where there is none.
fn optional(out: &mut Vec<u8>, x: &Option<Exp>) -> Result<(), Memory> {
    match x {
        Some(x) => item(out, x),
        None => put(out, b" -"),
    }
}

/// Begins a node with an expression.
fn begin_with(out: &mut Vec<u8>, kind: &[u8], x: &Exp) -> Result<(), Memory> {
    begin(out, kind)?;
    item(out, x)
}

/// What stands first in a `for`, as a part of a node.
fn first(out: &mut Vec<u8>, first: &First) -> Result<(), Memory> {
    match first {
        First::Nothing => put(out, b" -"),
        First::Value(x) => item(out, x),
        First::Variables(d) => {
            put(out, b" ")?;
            declaration(out, d)
        }
    }
}

/// A statement in which there is no other.
fn simple(out: &mut Vec<u8>, s: &Stmt) -> Result<(), Memory> {
    match s {
        Stmt::Declare(d) => declaration(out, d),
        Stmt::ExpS(x) => {
            begin_with(out, b"exp", x)?;
            end(out)
        }
        Stmt::Empty => put(out, b"(empty)"),
        Stmt::Goto(name) => leaf(out, b"goto", name),
        Stmt::Break => put(out, b"(break)"),
        Stmt::Continue => put(out, b"(continue)"),
        Stmt::Return(Some(x)) => {
            begin_with(out, b"return", x)?;
            end(out)
        }
        Stmt::Return(None) => put(out, b"(return)"),
        _ => put(out, b"(form)"),
    }
}

/// Begins a node with a label's name.
fn begin_label(out: &mut Vec<u8>, name: &Text) -> Result<(), Memory> {
    begin(out, b"label")?;
    part(out, name)
}

/// Begins a node with the three parts of a `for`.
fn begin_for(
    out: &mut Vec<u8>,
    one: &First,
    test: &Option<Exp>,
    step: &Option<Exp>,
) -> Result<(), Memory> {
    begin(out, b"for")?;
    first(out, one)?;
    optional(out, test)?;
    optional(out, step)
}

/// The last statement of a node.
#[cycle(statements)]
fn last(out: &mut Vec<u8>, s: &Stmt) -> Result<(), Memory> {
    nested(out, s)?;
    end(out)
}

/// A statement as a part of a node.
#[cycle(statements)]
fn nested(out: &mut Vec<u8>, s: &Stmt) -> Result<(), Memory> {
    put(out, b" ")?;
    statement(out, s)
}

/// Ends a node with the statement behind `else`, where there is one.
#[cycle(statements)]
fn branch(out: &mut Vec<u8>, other: &Option<Boxed<Stmt>>) -> Result<(), Memory> {
    if let Some(other) = other {
        nested(out, other.get())?;
    }
    end(out)
}

/// A `do` with its statement and its test.
#[cycle(statements)]
fn repeated(out: &mut Vec<u8>, s: &Stmt, x: &Exp) -> Result<(), Memory> {
    begin(out, b"do ")?;
    statement(out, s)?;
    item(out, x)?;
    end(out)
}

/// The items of a block or of a body, as parts of a node.
#[cycle(statements)]
pub(crate) fn items(out: &mut Vec<u8>, xs: &[Stmt]) -> Result<(), Memory> {
    for x in xs {
        nested(out, x)?;
    }
    Ok(())
}

/// A block.
#[cycle(statements)]
fn block(out: &mut Vec<u8>, xs: &[Stmt]) -> Result<(), Memory> {
    begin(out, b"block")?;
    items(out, xs)?;
    end(out)
}

/// A statement.
#[cycle(statements)]
fn statement(out: &mut Vec<u8>, s: &Stmt) -> Result<(), Memory> {
    match s {
        Stmt::Block(xs) => block(out, xs.as_slice()),
        Stmt::If(x, s, other) => {
            begin_with(out, b"if", x)?;
            nested(out, s.get())?;
            branch(out, other)
        }
        Stmt::While(x, s) => {
            begin_with(out, b"while", x)?;
            last(out, s.get())
        }
        Stmt::Do(s, x) => repeated(out, s.get(), x),
        Stmt::For(one, test, step, s) => {
            begin_for(out, one, test, step)?;
            last(out, s.get())
        }
        Stmt::Switch(x, s) => {
            begin_with(out, b"switch", x)?;
            last(out, s.get())
        }
        _ => labelled(out, s),
    }
}

/// The same of a statement behind a label, and of those with no other inside.
#[cycle(statements)]
fn labelled(out: &mut Vec<u8>, s: &Stmt) -> Result<(), Memory> {
    match s {
        Stmt::Case(x, s) => {
            begin_with(out, b"case", x)?;
            last(out, s.get())
        }
        Stmt::Default(s) => {
            begin(out, b"default")?;
            last(out, s.get())
        }
        Stmt::Label(name, s) => {
            begin_label(out, name)?;
            last(out, s.get())
        }
        _ => simple(out, s),
    }
}
