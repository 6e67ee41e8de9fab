// Statements (C99 6.8).
use crate::declaration::Decl;
use crate::expression::Exp;
use po_base::{Boxed, List, Text};

/// What stands first in the head of a `for` (C99 6.8.5.3).
#[derive(Drop)]
pub enum First {
    Nothing,
    Value(Exp),
    Variables(Decl),
}

/// A statement, or a declaration in a block (C99 6.8).
#[derive(Drop)]
pub enum Stmt {
    Block(List<Stmt>),
    Declare(Decl),
    /// `x;`
    ExpS(Exp),
    /// `;`
    Empty,
    If(Exp, Boxed<Stmt>, Option<Boxed<Stmt>>),
    While(Exp, Boxed<Stmt>),
    Do(Boxed<Stmt>, Exp),
    /// What stands first, the condition, the step, and the body.
    For(First, Option<Exp>, Option<Exp>, Boxed<Stmt>),
    Switch(Exp, Boxed<Stmt>),
    Case(Exp, Boxed<Stmt>),
    Default(Boxed<Stmt>),
    Label(Text, Boxed<Stmt>),
    Goto(Text),
    Break,
    Continue,
    Return(Option<Exp>),
}
