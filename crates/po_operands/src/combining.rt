// What binary operators make of the types of their operands (C99 6.5.5 to 6.5.12).
ghost use Rattle.std.specs.Prelude.{◌≡◌, ◌≢◌, IfOk};
ghost use Rattle.po_base.specs.declared.operators.Op.TheVariants as o;
ghost use Rattle.po_types.specs.declared.ctype.CType.TheVariants as c;
ghost use Rattle.po_typed.specs.Scopes.{Context as Scope};
ghost use Rattle.po_typed.specs.Operands.{compared_as};
ghost use Rattle.po_constants.specs.Found.{Finds};
ghost use Rattle.po_operands.specs.Combining as combining;
ghost use Rattle.po_operands.specs.Combining.{CombinesTo};

use crate::values::is_complete;
use po_arith::IntType;
use po_base::{Memory, Op};
use po_scopes::Context;
use po_types::{CType, common, difference_type, is_void, promoted, same};

/// What an operator gives, and what its operands are converted to.
#[derive(Drop)]
pub struct Combined {
    pub result: CType,
    pub left: CType,
    pub right: CType,
}

/// The binary operators by what they do with two numbers.
#[derive(Clone, Copy)]
enum Class {
    Arithmetic,
    Shift,
    Comparison,
}

/// What an operator does with two numbers.
fn class_of(op: Op) -> Class
    ensures { result ≡ combining.class_of op }
{
    match op {
        Op::Add => Class::Arithmetic,
        Op::Sub => Class::Arithmetic,
        Op::Mul => Class::Arithmetic,
        Op::Div => Class::Arithmetic,
        Op::Rem => Class::Arithmetic,
        Op::And => Class::Arithmetic,
        Op::Or => Class::Arithmetic,
        Op::Xor => Class::Arithmetic,
        Op::Shl => Class::Shift,
        Op::Shr => Class::Shift,
        Op::Eq => Class::Comparison,
        Op::Ne => Class::Comparison,
        Op::Lt => Class::Comparison,
        Op::Le => Class::Comparison,
        Op::Gt => Class::Comparison,
        Op::Ge => Class::Comparison,
    }
}

/// Two numbers: each operator takes them (C99 6.5.5 to 6.5.12).
fn numbers(op: Op, s: IntType, t: IntType) -> Combined
    ensures { (scope : Scope) → CombinesTo scope op (c.Int s) (c.Int t) result }
{
    match class_of(op) {
        Class::Arithmetic => Combined {
            result: CType::Int(common(s, t)),
            left: CType::Int(common(s, t)),
            right: CType::Int(common(s, t)),
        },
        Class::Shift => Combined {
            result: CType::Int(promoted(s)),
            left: CType::Int(promoted(s)),
            right: CType::Int(promoted(t)),
        },
        Class::Comparison => Combined {
            result: CType::Int(IntType::INT),
            left: CType::Int(common(s, t)),
            right: CType::Int(common(s, t)),
        },
    }
}

/// A pointer that a number moves: the same pointer type (C99 6.5.6p2, p3, p8).
fn moved(t: &CType, s: IntType) -> Result<Combined, Memory>
    ensures { IfOk result (λ p. (p.result ≡ t.now) × (p.left ≡ t.now) × (p.right ≡ c.Int s)) }
{
    Ok(Combined {
        result: t.share()?,
        left: t.share()?,
        right: CType::Int(s),
    })
}

/// The pointer `t` to `to` and a number: what is added or subtracted moves it (C99 6.5.6p2, p3, p8).
fn pointer_and_number(
    context: &Context<'_>,
    op: Op,
    t: &CType,
    to: &CType,
    s: IntType,
) -> Result<Option<Combined>, Memory>
    requires { t.now ≡ c.Ptr to.now }
    ensures { IfOk result (Finds (CombinesTo context.now op t.now (c.Int s))) }
{
    if !is_complete(context, to) {
        return Ok(None);
    }
    match op {
        Op::Add => Ok(Some(moved(t, s)?)),
        Op::Sub => Ok(Some(moved(t, s)?)),
        _ => Ok(None),
    }
}

/// A number and the pointer `t` to `to`: it is added (C99 6.5.6p2, p8).
fn number_and_pointer(
    context: &Context<'_>,
    op: Op,
    s: IntType,
    t: &CType,
    to: &CType,
) -> Result<Option<Combined>, Memory>
    requires { t.now ≡ c.Ptr to.now }
    ensures { IfOk result (Finds (CombinesTo context.now op (c.Int s) t.now)) }
{
    if !is_complete(context, to) {
        return Ok(None);
    }
    match op {
        Op::Add => Ok(Some(Combined {
            result: t.share()?,
            left: CType::Int(s),
            right: t.share()?,
        })),
        _ => Ok(None),
    }
}

/// The difference of the pointers `t` to `to` and `u` to `other` (C99 6.5.6p3, p9).
fn difference(
    context: &Context<'_>,
    t: &CType,
    to: &CType,
    u: &CType,
    other: &CType,
) -> Result<Option<Combined>, Memory>
    requires t { t.now ≡ c.Ptr to.now }
    requires u { u.now ≡ c.Ptr other.now }
    ensures { IfOk result (Finds (CombinesTo context.now o.Sub t.now u.now)) }
{
    if !same(to, other) {
        return Ok(None);
    }
    if !is_complete(context, to) {
        return Ok(None);
    }
    Ok(Some(Combined {
        result: CType::Int(difference_type(context.target())),
        left: t.share()?,
        right: u.share()?,
    }))
}

/// What the pointers `t` to `to` and `u` to `other` are converted to where they are compared (C99 6.5.8p2, 6.5.9p5).
fn compared(t: &CType, to: &CType, u: &CType, other: &CType) -> Result<CType, Memory>
    requires t { t.now ≡ c.Ptr to.now }
    requires u { u.now ≡ c.Ptr other.now }
    ensures { IfOk result (λ p. p ≡ c.Ptr (compared_as to.now other.now)) }
{
    if is_void(other) { u.share() } else { t.share() }
}

/// The pointers `t` to `to` and `u` to `other`: they are compared, or their difference is taken (C99 6.5.6p3, 6.5.8p2, 6.5.9p2).
fn pointers(
    context: &Context<'_>,
    op: Op,
    t: &CType,
    to: &CType,
    u: &CType,
    other: &CType,
) -> Result<Option<Combined>, Memory>
    requires t { t.now ≡ c.Ptr to.now }
    requires u { u.now ≡ c.Ptr other.now }
    ensures { IfOk result (Finds (CombinesTo context.now op t.now u.now)) }
{
    match class_of(op) {
        Class::Comparison => Ok(Some(Combined {
            result: CType::Int(IntType::INT),
            left: compared(t, to, u, other)?,
            right: compared(t, to, u, other)?,
        })),
        _ => match op {
            Op::Sub => difference(context, t, to, u, other),
            _ => Ok(None),
        },
    }
}

/// What a binary operator gives of values of two types, and what they are converted to (C99 6.5.5 to 6.5.12). None exactly where it takes no such values.
/// Takes time in the length of the shorter type, and in the number of arrays that a pointer points to.
pub fn combines(
    context: &Context<'_>,
    op: Op,
    t: &CType,
    u: &CType,
) -> Result<Option<Combined>, Memory>
    ensures { IfOk result (Finds (CombinesTo context.now op t.now u.now)) }
{
    match t {
        CType::Int(s) => match u {
            CType::Int(r) => Ok(Some(numbers(op, *s, *r))),
            CType::Ptr(to) => number_and_pointer(context, op, *s, u, to.get()),
            _ => Ok(None),
        },
        CType::Ptr(to) => match u {
            CType::Int(s) => pointer_and_number(context, op, t, to.get(), *s),
            CType::Ptr(other) => pointers(context, op, t, to.get(), u, other.get()),
            _ => Ok(None),
        },
        _ => Ok(None),
    }
}
