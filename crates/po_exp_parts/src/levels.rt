// The levels of expressions.
ghost use Rattle.std.specs.Prelude.{◌≡◌, ◌≤◌};
ghost use Rattle.po_exp_parts.specs.Levels as levels;

/// Which expressions may stand at a place.
#[derive(Clone, Copy, Debug, PartialEq, Eq)]
pub enum Level {
    /// Any expression (C99 6.5.17).
    Any,
    /// An assignment expression, as an argument or an initialiser is (C99 6.5.16).
    Assignment,
    /// A conditional expression, as a constant expression is (C99 6.5.15, 6.6).
    Conditional,
}

impl Level {
    /// The least level of these expressions.
    pub fn least_of(self) -> u8
        ensures value { result ≡ levels.least_of self }
        ensures low { result ≤ 2 }
    {
        match self {
            Level::Any => COMMA,
            Level::Assignment => ASSIGNMENT,
            Level::Conditional => CONDITIONAL,
        }
    }
}

/// The level of `,`, the least one (C99 6.5.17).
pub const COMMA: u8 = 0;

/// The level of an assignment (C99 6.5.16).
pub const ASSIGNMENT: u8 = 1;

/// The level of a conditional expression (C99 6.5.15).
pub const CONDITIONAL: u8 = 2;

/// The level of `||` (C99 6.5.14).
pub const LOGICAL_OR: u8 = 3;

/// The level of `&&` (C99 6.5.13).
pub const LOGICAL_AND: u8 = 4;

/// The level of `|` (C99 6.5.12).
pub const INCLUSIVE_OR: u8 = 5;

/// The level of `^` (C99 6.5.11).
pub const EXCLUSIVE_OR: u8 = 6;

/// The level of `&` between two operands (C99 6.5.10).
pub const BITWISE_AND: u8 = 7;

/// The level of `==` and `!=` (C99 6.5.9).
pub const EQUALITY: u8 = 8;

/// The level of `<`, `>`, `<=` and `>=` (C99 6.5.8).
pub const RELATIONAL: u8 = 9;

/// The level of `<<` and `>>` (C99 6.5.7).
pub const SHIFT: u8 = 10;

/// The level of `+` and `-` between two operands (C99 6.5.6).
pub const ADDITIVE: u8 = 11;

/// The level of `*`, `/` and `%` (C99 6.5.5).
pub const MULTIPLICATIVE: u8 = 12;

/// The level of a cast (C99 6.5.4).
pub const CAST: u8 = 13;

/// The level of unary expressions (C99 6.5.3).
pub const UNARY: u8 = 14;

/// The level of postfix and primary expressions (C99 6.5.1, 6.5.2).
pub const POSTFIX: u8 = 15;
