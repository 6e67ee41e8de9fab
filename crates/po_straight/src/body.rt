ghost use Rattle.std.specs.Prelude.{ℕ, ◌≡◌, ◌≤◌, ◌<◌, ◌+◌, ◌-◌, ◌*◌, ◌^◌, ◌↔◌, ◌∷◌, [], IsTrue, All, length, drop, take, IfOk, IfSome, IfNone};
ghost use Rattle.std.specs.Prelude.{List as Sequence};
ghost use Rattle.po_straight.specs.declared.lexeme.Sign.TheVariants as s;
ghost use Rattle.po_straight.specs.declared.lexeme.Lexeme.{Lexeme as Placed};
ghost use Rattle.po_straight.specs.declared.expression.Expression.{Expression as Tree};
ghost use Rattle.po_straight.specs.Scopes.{NamesDiffer};
ghost use Rattle.po_straight.specs.Expressions.{IsExpression};
ghost use Rattle.po_straight.specs.Definitions.{operations, nodes_times_registers};
ghost use Rattle.po_straight.specs.Outline.{Begins, IsBody, IsOpen};

use crate::expression::Expression;
use crate::heading::stands;
use crate::lexeme::{Lexeme, Sign};
use crate::read_expression::read_expression;
use crate::scope::Scope;
use po_base::Memory;
use std::alloc::Global;

/// The most nodes times registers of a function that is served.
const MOST_GRAPH_SIZE: u64 = 1 << 22;

/// What stands between the heading of a definition and its end.
#[derive(Drop)]
pub(crate) struct Body {
    /// The line of the keyword `return`, counted from 1.
    pub line: u32,
    pub value: Expression,
    /// The place behind the body.
    pub end: usize,
}

/// The place of the first semicolon from `start` on, or the number of signs where there is none. Time linear
/// in the signs up to it.
fn semicolon_from(lexemes: &[Lexeme], start: usize) -> usize
    requires { start ≤ length lexemes.now }
    ensures after { start ≤ result }
    ensures within { result ≤ length lexemes.now }
    ensures before { All IsOpen (take (result - start) (drop start lexemes.now)) }
    ensures here { result < length lexemes.now → Begins s.Semicolon (drop result lexemes.now) }
{
    let mut at = start;
    while at < lexemes.len() {
        if stands(lexemes, at, &Sign::Semicolon) {
            return at;
        }
        at += 1;
    }
    at
}

/// How many nodes times registers the graph of a function has.
pub(crate) fn graph_size_of(parameters: usize, value: &Expression) -> u64
    requires few { parameters ≤ 2 ^ 24 }
    requires short { operations value.now ≤ 2 ^ 24 }
    ensures { result ≡ nodes_times_registers parameters value.now }
{
    let operations = u64::from(value.operations());
    (operations + 1) * (parameters as u64 + operations)
}

/// The body `return EXPRESSION;}` at a place. Time linear in its signs but for the logarithm of the number of
/// names in the scope.
pub(crate) fn body_at(
    alloc: Global,
    lexemes: &[Lexeme],
    at: usize,
    scope: &Scope<'_>,
) -> Result<Option<Body>, Memory>
    requires short { length lexemes.now ≤ 2 ^ 24 }
    requires few { length scope.now.parameters ≤ 2 ^ 24 }
    requires differ { NamesDiffer scope.now }
    ensures found { IfOk result (λ found. IfSome found (λ body. IsBody scope.now body.line body.value (drop at lexemes.now) (drop body.end lexemes.now))) }
    ensures within { IfOk result (λ found. IfSome found (λ body. (at < body.end) × (body.end ≤ length lexemes.now))) }
    ensures none { IfOk result (λ found. IfNone found ((line : ℕ) (value : Tree) (left : Sequence Placed) → IsBody scope.now line value (drop at lexemes.now) left → ⊥)) }
{
    if !stands(lexemes, at, &Sign::Return) {
        return Ok(None);
    }
    let line = lexemes[at].line;
    let start = at + 1;
    let stop = semicolon_from(lexemes, start);
    if !stands(lexemes, stop, &Sign::Semicolon) {
        return Ok(None);
    }
    if !stands(lexemes, stop + 1, &Sign::CloseBrace) {
        return Ok(None);
    }
    let range = &lexemes[start..stop];
    let Some(value) = read_expression(alloc, range, scope)? else {
        return Ok(None);
    };
    if graph_size_of(scope.parameters(), &value) > MOST_GRAPH_SIZE {
        return Ok(None);
    }
    Ok(Some(Body {
        line,
        value,
        end: stop + 2,
    }))
}
