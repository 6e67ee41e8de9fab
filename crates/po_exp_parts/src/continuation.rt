// What goes on with an operand.
use po_tree::{Infix, Postfix, Selector};

/// What goes on with an operand, by the token that stands behind it (C99 6.5.2, 6.5.5 to 6.5.17).
#[derive(Clone, Copy, Debug)]
pub enum Continuation {
    /// An operator between two operands.
    Infix(Infix),
    /// The `?` of a conditional expression.
    Question,
    /// The `[` of a subscript.
    Bracket,
    /// The `(` of a call.
    Parenthesis,
    /// `.` or `->`
    Select(Selector),
    /// `++` or `--`
    Step(Postfix),
}
