// What binary operators and compound assignments make of two operands.
ghost use Rattle.std.specs.Prelude.{◌≡◌, IfOk, Contains};
ghost use Rattle.po_types.specs.declared.ctype.CType.TheVariants as c;
ghost use Rattle.po_typed.specs.Operands.{equality_operators};
ghost use Rattle.po_constants.specs.Found.{Finds};
ghost use Rattle.po_choices.specs.Answering.{IsWhether};
ghost use Rattle.po_type_parts.specs.Joining as joining;
ghost use Rattle.po_type_parts.specs.Joining.{JoinsTo, Compounds, Converts, WithZero, ComparesWithZero};

use po_arith::IntType;
use po_base::{Memory, Op};
use po_choices::is_null;
use po_operands::{Combined, combines};
use po_scopes::Context;
use po_tree::Exp;
use po_types::CType;
use std::alloc::Global;

/// Whether an operator is `==` or `!=`.
fn is_equality(op: Op) -> bool
    ensures { IsWhether (Contains equality_operators op) result }
{
    match op {
        Op::Eq => true,
        Op::Ne => true,
        _ => false,
    }
}

/// Whether an operator stands in a compound assignment (C99 6.5.16).
fn is_compound(op: Op) -> bool
    ensures { result ≡ joining.is_compound op }
{
    match op {
        Op::Add => true,
        Op::Sub => true,
        Op::Mul => true,
        Op::Div => true,
        Op::Rem => true,
        Op::And => true,
        Op::Or => true,
        Op::Xor => true,
        Op::Shl => true,
        Op::Shr => true,
        Op::Eq => false,
        Op::Ne => false,
        Op::Lt => false,
        Op::Le => false,
        Op::Gt => false,
        Op::Ge => false,
    }
}

/// What a pointer `t` and a number `x` are compared as: the pointer, where the number is the constant 0 (C99 6.5.9p2, p5).
fn with_zero(
    alloc: Global,
    context: &Context<'_>,
    x: &Exp,
    t: &CType,
) -> Result<Option<Combined>, Memory>
    ensures { IfOk result (Finds (WithZero context.now x.now t.now)) }
{
    if !is_null(alloc, context, x)? {
        return Ok(None);
    }
    Ok(Some(Combined {
        result: CType::Int(IntType::INT),
        left: t.share()?,
        right: t.share()?,
    }))
}

/// What a pointer and a number are compared as where they are compared for equality.
fn compares_with_zero(
    alloc: Global,
    context: &Context<'_>,
    x: &Exp,
    u: &CType,
    y: &Exp,
    v: &CType,
) -> Result<Option<Combined>, Memory>
    ensures { IfOk result (Finds (ComparesWithZero context.now x.now u.now y.now v.now)) }
{
    match u {
        CType::Ptr(_) => match v {
            CType::Int(_) => with_zero(alloc, context, y, u),
            _ => Ok(None),
        },
        CType::Int(_) => match v {
            CType::Ptr(_) => with_zero(alloc, context, x, v),
            _ => Ok(None),
        },
        _ => Ok(None),
    }
}

/// What a binary operator gives of the operands `x`, a value of type `u`, and `y`, a value of type `v`, and what they are converted to (C99 6.5.5 to 6.5.12): also of a
/// pointer and the constant 0 that are compared for equality. None exactly where it takes no such operands. Time as for `combines`, and for `is_null`.
pub fn joins(
    alloc: Global,
    context: &Context<'_>,
    op: Op,
    x: &Exp,
    u: &CType,
    y: &Exp,
    v: &CType,
) -> Result<Option<Combined>, Memory>
    ensures { IfOk result (Finds (JoinsTo context.now op x.now u.now y.now v.now)) }
{
    match combines(context, op, u, v)? {
        Some(combined) => return Ok(Some(combined)),
        None => {}
    }
    if !is_equality(op) {
        return Ok(None);
    }
    compares_with_zero(alloc, context, x, u, y, v)
}

/// What a binary operator converts values of two types to.
fn converted(
    context: &Context<'_>,
    op: Op,
    t: &CType,
    v: &CType,
) -> Result<Option<(CType, CType)>, Memory>
    ensures { IfOk result (Finds (Converts context.now op t.now v.now)) }
{
    match combines(context, op, t, v)? {
        None => Ok(None),
        Some(combined) => Ok(Some((combined.left, combined.right))),
    }
}

/// What a compound assignment converts for its operator: the object of type `t`, and the value of type `v` (C99 6.5.16.2). None exactly where it takes no such operands.
/// Takes time in the number of arrays that the object points to.
pub fn compounds(
    context: &Context<'_>,
    op: Op,
    t: &CType,
    v: &CType,
) -> Result<Option<(CType, CType)>, Memory>
    ensures { IfOk result (Finds (λ p. Compounds context.now op t.now v.now p.0 p.1)) }
{
    if !is_compound(op) {
        return Ok(None);
    }
    match v {
        CType::Int(_) => converted(context, op, t, v),
        _ => Ok(None),
    }
}
