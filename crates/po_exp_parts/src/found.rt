// What was found at a place.
use po_base::{List, Text};
use po_tree::{Exp, Infix, Postfix, Selector};

/// What was found at a place.
#[derive(Drop)]
pub struct Found<T> {
    /// What it is.
    pub value: T,
    /// The most expressions on a path from the root to a leaf.
    pub height: u32,
    /// The place behind it.
    pub end: usize,
}

/// An expression, with its level (C99 6.5.1 to 6.5.4).
#[derive(Drop)]
pub struct Leveled {
    /// The expression.
    pub value: Exp,
    /// 15 for primary and postfix expressions, 14 for unary ones, 13 for casts.
    pub level: u8,
}

/// What stands behind the token that goes on with an operand (C99 6.5.2, 6.5.5 to 6.5.17).
#[derive(Drop)]
pub enum Tail {
    /// The right operand.
    Joined(Infix, Exp),
    /// The second and the third operand of `?:`.
    Chosen(Exp, Exp),
    /// The subscript, with its `]`.
    Indexed(Exp),
    /// The arguments of a call, with the `)`.
    Called(List<Exp>),
    /// The name of a member.
    Selected(Selector, Text),
    /// Nothing.
    Stepped(Postfix),
}
