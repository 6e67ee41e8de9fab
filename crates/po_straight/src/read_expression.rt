ghost use Rattle.std.specs.Prelude.{ℕ, ◌≡◌, ◌≤◌, ◌<◌, ◌+◌, ◌^◌, max, Contains, length, drop, IfOk, IfSome, IfNone, MatchOption};
ghost use Rattle.po_straight.specs.declared.lexeme.Sign.TheVariants as s;
ghost use Rattle.po_straight.specs.declared.expression.Expression.{Expression as Tree};
ghost use Rattle.po_straight.specs.declared.expression.Expression.TheVariants as e;
ghost use Rattle.po_straight.specs.Expressions.{IsExpression, IsOperator};
ghost use Rattle.po_straight.specs.Definitions.{operations};
ghost use Rattle.po_straight.specs.Scopes.{NamesDiffer};
ghost use Rattle.po_straight.specs.Reading.{Reads, Operand, Arguments as ArgumentsOf, Items, GoesOn};
ghost use Rattle.po_straight.specs.Outline.{Begins};
ghost use Rattle.po_straight.specs.Places.{GoesOnBy, IsFound, AreFound, Closed};

use crate::expression::Expression;
use crate::heading::stands;
use crate::lexeme::{Lexeme, Sign};
use crate::scope::{Called, Scope};
use po_base::{Boxed, List, Memory, Op, Text};
use std::alloc::Global;

/// The most expressions on a path from the root of a tree to a leaf.
const MOST_NESTED: u32 = 256;

/// The level of operands, above those of the operations.
const OPERAND: u8 = 2;

/// An expression that was read.
#[derive(Drop)]
struct Found {
    value: Expression,
    /// The most expressions on a path from the root to a leaf.
    height: u32,
    /// The place behind it.
    end: usize,
}

/// The arguments of a call, which were read with the closing parenthesis.
#[derive(Drop)]
struct Arguments {
    values: List<Expression>,
    /// The most expressions on a path from the called name or the root of an argument to a leaf.
    height: u32,
    /// The place behind the closing parenthesis.
    end: usize,
}

/// A binary operator where it stands.
#[derive(Clone, Copy)]
struct Operator {
    op: Op,
    /// 0 for sums, 1 for products.
    level: u8,
    line: u32,
}

/// The operator of a sign, with its level.
fn operator_of(sign: &Sign) -> Option<(Op, u8)>
    ensures { MatchOption result ((o : _) (k : ℕ) → IsOperator o sign.now k → ⊥) (λ p. IsOperator p.0 sign.now p.1) }
{
    match sign {
        Sign::Plus => Some((Op::Add, 0)),
        Sign::Minus => Some((Op::Sub, 0)),
        Sign::Star => Some((Op::Mul, 1)),
        Sign::Slash => Some((Op::Div, 1)),
        Sign::Percent => Some((Op::Rem, 1)),
        _ => None,
    }
}

/// The operator at a place, where there is one of a level from `low` to `high`.
fn operator_at(lexemes: &[Lexeme], at: usize, low: u8, high: u8) -> Option<Operator>
    ensures within { IfSome result (λ _. at < length lexemes.now) }
    ensures value { MatchOption result (GoesOn low high (drop at lexemes.now) → ⊥) (λ operator. GoesOnBy low high operator (drop at lexemes.now)) }
{
    if at >= lexemes.len() {
        return None;
    }
    let lexeme = &lexemes[at];
    let (op, level) = operator_of(&lexeme.sign)?;
    if level < low || high < level {
        return None;
    }
    Some(Operator {
        op,
        level,
        line: lexeme.line,
    })
}

/// The operand of one sign at a place.
fn leaf(value: Expression, at: usize) -> Found
    requires { at < 2 ^ 63 }
    ensures { (result.value ≡ value) × (result.height ≡ 1) × (result.end ≡ at + 1) }
{
    Found {
        value,
        height: 1,
        end: at + 1,
    }
}

/// An expression in parentheses.
fn enclose(alloc: Global, inner: Found) -> Result<Found, Memory>
    requires { inner.height < 2 ^ 31 }
    ensures { IfOk result (λ found. (found.value ≡ e.Paren inner.value) × (found.height ≡ inner.height + 1) × (found.end ≡ inner.end)) }
{
    Ok(Found {
        value: Expression::Paren(Boxed::new(alloc, inner.value)?),
        height: inner.height + 1,
        end: inner.end,
    })
}

/// A call of a function with these arguments.
fn call(function: Called, line: u32, arguments: Arguments) -> Found
    requires { arguments.height < 2 ^ 31 }
    ensures { (result.value ≡ e.Call function.place line arguments.values) × (result.height ≡ arguments.height + 1) × (result.end ≡ arguments.end) }
{
    Found {
        value: Expression::Call(function.place, line, arguments.values),
        height: arguments.height + 1,
        end: arguments.end,
    }
}

/// An operand, an operator and the operand on its right, as one expression.
fn join(alloc: Global, left: Found, operator: Operator, right: Found) -> Result<Found, Memory>
    requires { left.height + right.height < 2 ^ 31 }
    ensures { IfOk result (λ found. (found.value ≡ e.Binary operator.op operator.line left.value right.value) × (found.height ≡ max left.height right.height + 1) × (found.end ≡ right.end)) }
{
    let height = left.height.max(right.height) + 1;
    let left = Boxed::new(alloc, left.value)?;
    let end = right.end;
    let right = Boxed::new(alloc, right.value)?;
    Ok(Found {
        value: Expression::Binary(operator.op, operator.line, left, right),
        height,
        end,
    })
}

/// The expression of level `level` or a higher one that stands at a place, where there is one of a height of
/// at most `depth`: its first operand, and the operations that go on with it.
#[cycle(reader)]
fn expression(
    alloc: Global,
    lexemes: &[Lexeme],
    scope: &Scope<'_>,
    at: usize,
    level: u8,
    depth: u32,
) -> Result<Option<Found>, Memory>
    requires shallow { depth < 2 ^ 16 }
    requires differ { NamesDiffer scope.now }
    ensures { IfOk result (λ found. IsFound (Reads scope.now level) depth at lexemes.now found) }
{
    let Some(mut found) = operand(alloc, lexemes, scope, at, depth)? else {
        return Ok(None);
    };
    let mut own = OPERAND;
    while let Some(operator) = operator_at(lexemes, found.end, level, own) {
        if found.height >= depth {
            return Ok(None);
        }
        let next = found.end + 1;
        let Some(right) = expression(alloc, lexemes, scope, next, operator.level + 1, depth - 1)?
        else {
            return Ok(None);
        };
        found = join(alloc, found, operator, right)?;
        own = operator.level;
    }
    Ok(Some(found))
}

/// The operand that stands at a place, where there is one of a height of at most `depth`.
#[cycle(reader)]
fn operand(
    alloc: Global,
    lexemes: &[Lexeme],
    scope: &Scope<'_>,
    at: usize,
    depth: u32,
) -> Result<Option<Found>, Memory>
    requires shallow { depth < 2 ^ 16 }
    requires differ { NamesDiffer scope.now }
    ensures { IfOk result (λ found. IsFound (Operand scope.now) depth at lexemes.now found) }
{
    if depth == 0 || at >= lexemes.len() {
        return Ok(None);
    }
    match &lexemes[at].sign {
        Sign::Name(name) => match scope.parameter(name) {
            Some(n) => Ok(Some(leaf(Expression::Parameter(n), at))),
            None => call_at(alloc, lexemes, scope, name, at, depth),
        },
        Sign::Constant(value) => Ok(Some(leaf(Expression::Constant(*value), at))),
        Sign::Open => match closed(alloc, lexemes, scope, at + 1, depth - 1)? {
            Some(inner) => Ok(Some(enclose(alloc, inner)?)),
            None => Ok(None),
        },
        _ => Ok(None),
    }
}

/// The expression that stands at a place with a closing parenthesis behind it, where there is one of a height
/// of at most `depth`. It ends behind the parenthesis.
#[cycle(reader)]
fn closed(
    alloc: Global,
    lexemes: &[Lexeme],
    scope: &Scope<'_>,
    at: usize,
    depth: u32,
) -> Result<Option<Found>, Memory>
    requires shallow { depth < 2 ^ 16 }
    requires differ { NamesDiffer scope.now }
    ensures { IfOk result (λ found. IsFound (Closed scope.now) depth at lexemes.now found) }
{
    let Some(inner) = expression(alloc, lexemes, scope, at, 0, depth)? else {
        return Ok(None);
    };
    if !stands(lexemes, inner.end, &Sign::Close) {
        return Ok(None);
    }
    Ok(Some(Found {
        value: inner.value,
        height: inner.height,
        end: inner.end + 1,
    }))
}

/// The call that stands at a place with this name, which is no parameter, where there is one of a height of at
/// most `depth`.
#[cycle(reader)]
fn call_at(
    alloc: Global,
    lexemes: &[Lexeme],
    scope: &Scope<'_>,
    name: &Text,
    at: usize,
    depth: u32,
) -> Result<Option<Found>, Memory>
    requires shallow { depth < 2 ^ 16 }
    requires differ { NamesDiffer scope.now }
    requires some { 0 < depth }
    requires named { Begins (s.Name name.now) (drop at lexemes.now) }
    requires called { Contains scope.now.parameters name.now → ⊥ }
    ensures { IfOk result (λ found. IsFound (Operand scope.now) depth at lexemes.now found) }
{
    let Some(function) = scope.function(name) else {
        return Ok(None);
    };
    let open = at + 1;
    if !stands(lexemes, open, &Sign::Open) {
        return Ok(None);
    }
    let Some(arguments) = arguments_at(alloc, lexemes, scope, open + 1, depth - 1)? else {
        return Ok(None);
    };
    if arguments.values.len() != function.count as usize {
        return Ok(None);
    }
    Ok(Some(call(function, lexemes[open].line, arguments)))
}

/// The arguments that stand at a place with the closing parenthesis behind them, where neither they nor the
/// called name are higher than `depth`.
#[cycle(reader)]
fn arguments_at(
    alloc: Global,
    lexemes: &[Lexeme],
    scope: &Scope<'_>,
    at: usize,
    depth: u32,
) -> Result<Option<Arguments>, Memory>
    requires shallow { depth < 2 ^ 16 }
    requires differ { NamesDiffer scope.now }
    ensures { IfOk result (λ found. AreFound (ArgumentsOf scope.now) depth at lexemes.now found) }
{
    if depth == 0 {
        return Ok(None);
    }
    if stands(lexemes, at, &Sign::Close) {
        return Ok(Some(Arguments {
            values: List::new(alloc),
            height: 1,
            end: at + 1,
        }));
    }
    items_at(alloc, lexemes, scope, at, depth)
}

/// The same of one argument or more.
#[cycle(reader)]
fn items_at(
    alloc: Global,
    lexemes: &[Lexeme],
    scope: &Scope<'_>,
    at: usize,
    depth: u32,
) -> Result<Option<Arguments>, Memory>
    requires shallow { depth < 2 ^ 16 }
    requires differ { NamesDiffer scope.now }
    requires some { 0 < depth }
    ensures { IfOk result (λ found. AreFound (Items scope.now) depth at lexemes.now found) }
{
    let mut values = List::new(alloc);
    let mut height = 1u32;
    let mut next = at;
    loop {
        let Some(argument) = expression(alloc, lexemes, scope, next, 0, depth)? else {
            return Ok(None);
        };
        height = height.max(argument.height);
        values.push(argument.value)?;
        next = argument.end + 1;
        if stands(lexemes, argument.end, &Sign::Close) {
            return Ok(Some(Arguments {
                values,
                height,
                end: next,
            }));
        }
        if !stands(lexemes, argument.end, &Sign::Comma) {
            return Ok(None);
        }
    }
}

/// The expression that the signs are, where they are one: a whole expression over the names of this scope, on none
/// of whose paths from the root to a leaf stand more than 256 expressions. There is one at most.
///
/// Time is linear in the signs, apart from the search for each name in the scope. The stack is that of 256 nested
/// expressions at most, however many parentheses there are.
pub(crate) fn read_expression(
    alloc: Global,
    lexemes: &[Lexeme],
    scope: &Scope<'_>,
) -> Result<Option<Expression>, Memory>
    requires { NamesDiffer scope.now }
    ensures found { IfOk result (λ found. IfSome found (λ x. IsExpression scope.now x lexemes.now)) }
    ensures few { IfOk result (λ found. IfSome found (λ x. operations x < length lexemes.now)) }
    ensures none { IfOk result (λ found. IfNone found ((x : Tree) → IsExpression scope.now x lexemes.now → ⊥)) }
{
    let Some(found) = expression(alloc, lexemes, scope, 0, 0, MOST_NESTED)? else {
        return Ok(None);
    };
    if found.end != lexemes.len() {
        return Ok(None);
    }
    Ok(Some(found.value))
}
