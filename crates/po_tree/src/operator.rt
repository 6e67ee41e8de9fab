// Operators (C99 6.5).
use po_base::Op;

/// An operator between two operands (C99 6.5.5 to 6.5.14, 6.5.16 and 6.5.17).
#[derive(Clone, Copy, Debug)]
pub enum Infix {
    /// One of the binary operators of the graph.
    Plain(Op),
    /// `&&`
    And,
    /// `||`
    Or,
    /// `=` where there is no operator, else `+=` and the like.
    Set(Option<Op>),
    /// `,`
    Comma,
}

/// An operator before its operand (C99 6.5.3).
#[derive(Clone, Copy, Debug)]
pub enum Prefix {
    /// `++`
    Increment,
    /// `--`
    Decrement,
    /// `&`
    Address,
    /// `*`
    Indirection,
    /// `+`
    Plus,
    /// `-`
    Minus,
    /// `~`
    Complement,
    /// `!`
    Not,
    /// `sizeof`
    Size,
}

/// An operator behind its operand that has no other part (C99 6.5.2.4).
#[derive(Clone, Copy, Debug)]
pub enum Postfix {
    /// `++`
    Increment,
    /// `--`
    Decrement,
}

/// What takes a member of its operand (C99 6.5.2.3).
#[derive(Clone, Copy, Debug)]
pub enum Selector {
    /// `.`
    Dot,
    /// `->`
    Arrow,
}
