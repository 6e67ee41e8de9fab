ghost use Rattle.std.specs.Prelude.{ℕ, ◌≡◌, ◌<◌, ◌^◌, map, sum};
ghost use Rattle.std.specs.Prelude.{List as Sequence};
ghost use Rattle.po_straight.specs.declared.expression.Expression.{Expression as Tree};
ghost use Rattle.po_straight.specs.declared.lexeme.Lexeme.{Lexeme};
ghost use Rattle.po_straight.specs.Scopes.{Scope, NamesDiffer};
ghost use Rattle.po_straight.specs.Expressions.{Prints};
ghost use Rattle.po_straight.specs.Definitions.{operations as operations_in};

use po_base::{Boxed, List, Op};

/// The tree of an expression over int parameters, constants and functions (C99 6.5).
#[derive(Debug, Drop)]
pub enum Expression {
    /// A parameter, by its place in the parameter list.
    Parameter(u32),
    /// A decimal constant.
    Constant(u32),
    /// An expression in parentheses.
    Paren(Boxed<Expression>),
    /// A call: the place of the called function among the definitions of the file, from 0; the line of the
    /// opening parenthesis, from 1; and the arguments.
    Call(u32, u32, List<Expression>),
    /// One of `+ - * / %`, the line of its operator, from 1, and its operands.
    Binary(Op, u32, Boxed<Expression>, Boxed<Expression>),
}

impl Expression {
    /// How many operators and calls the expression has. Time is linear in its nodes; the recursion is as deep as
    /// the expression is high.
    pub fn operations(&self) -> u32
        requires { operations_in self.now < 2 ^ 32 }
        ensures { result ≡ operations_in self.now }
    {
        match self {
            Expression::Parameter(_) => 0,
            Expression::Constant(_) => 0,
            Expression::Paren(inner) => inner.get().operations(),
            Expression::Call(_, _, arguments) => {
                let mut count = 1u32;
                for argument in arguments.as_slice() {
                    count += argument.operations();
                }
                count
            }
            Expression::Binary(_, _, left, right) => {
                left.get().operations() + right.get().operations() + 1
            }
        }
    }
}

/// Signs are those of one expression at most, which has one level, where no two parameters and no two functions
/// have the same name.
pub fn one_expression()
    ensures { (scope : Scope) (m k : ℕ) (x y : Tree) (signs : Sequence Lexeme) → NamesDiffer scope → Prints scope m x signs → Prints scope k y signs → (x ≡ y) × (m ≡ k) }
{}
