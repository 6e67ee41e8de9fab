// What a value is converted to where it is assigned or cast.
ghost use Rattle.std.specs.Prelude.{◌≡◌, ◌↔◌, IsTrue, IfOk};
ghost use Rattle.po_tree.specs.declared.expression.Exp.{Exp as Tree};
ghost use Rattle.po_types.specs.Integers as integers;
ghost use Rattle.po_types.specs.declared.ctype.CType.TheVariants as c;
ghost use Rattle.po_typed.specs.Scopes.{Context as Scope};
ghost use Rattle.po_constants.specs.Found.{Finds};
ghost use Rattle.po_choices.specs.Answering.{IsWhether};
ghost use Rattle.po_type_parts.specs.Converting.{Assigns, Casts, CastsAsAssigned};

use po_arith::IntType;
use po_base::Memory;
use po_choices::is_null;
use po_scopes::Context;
use po_tree::Exp;
use po_types::{BOOL, CType};
use std::alloc::Global;

/// Whether an integer type is `_Bool`.
fn is_bool(t: IntType) -> bool
    ensures { IsTrue result ↔ (t ≡ integers.bool_type) }
{
    t == BOOL
}

/// Whether a value may be assigned to a number (C99 6.5.16.1p1).
fn fits_number(v: &CType, t: IntType) -> bool
    ensures { (scope : Scope) (x : Tree) → IsWhether (Assigns scope x v.now (c.Int t)) result }
{
    match v {
        CType::Int(_) => true,
        CType::Ptr(_) => is_bool(t),
        _ => false,
    }
}

/// Whether a value may be assigned to the pointer `t` to `to` (C99 6.5.16.1p1, 6.3.2.3p3).
fn fits_pointer(
    alloc: Global,
    context: &Context<'_>,
    x: &Exp,
    v: &CType,
    to: &CType,
) -> Result<bool, Memory>
    ensures { IfOk result (IsWhether (Assigns context.now x.now v.now (c.Ptr to.now))) }
{
    match v {
        CType::Int(_) => is_null(alloc, context, x),
        CType::Ptr(_) => Ok(true),
        _ => Ok(false),
    }
}

/// Whether a value may be assigned to the struct of a number (C99 6.5.16.1p1).
fn fits_struct(v: &CType, n: u32) -> bool
    ensures { (scope : Scope) (x : Tree) → IsWhether (Assigns scope x v.now (c.Struct n)) result }
{
    match v {
        CType::Struct(m) => *m == n,
        _ => false,
    }
}

/// Whether the operand `x`, a value of type `v`, may be assigned to an object of the type `t`, as an argument to its parameter and a result too (C99 6.5.16.1p1). Takes
/// constant time, but for a number that is assigned to a pointer, where it is that of `is_null`.
pub fn assigns(
    alloc: Global,
    context: &Context<'_>,
    x: &Exp,
    v: &CType,
    t: &CType,
) -> Result<bool, Memory>
    ensures { IfOk result (IsWhether (Assigns context.now x.now v.now t.now)) }
{
    match t {
        CType::Int(number) => Ok(fits_number(v, *number)),
        CType::Ptr(to) => fits_pointer(alloc, context, x, v, to.get()),
        CType::Struct(n) => Ok(fits_struct(v, *n)),
        _ => Ok(false),
    }
}

/// What is cast to a number or a pointer: the value as it is, where it may be assigned.
fn scalar_cast(
    alloc: Global,
    context: &Context<'_>,
    x: &Exp,
    v: &CType,
    t: &CType,
) -> Result<Option<CType>, Memory>
    ensures { IfOk result (Finds (CastsAsAssigned context.now x.now v.now t.now)) }
{
    if !assigns(alloc, context, x, v, t)? {
        return Ok(None);
    }
    Ok(Some(v.share()?))
}

/// What the operand `x`, a value of type `v`, is converted to before it is cast to the type `t` (C99 6.5.4). None exactly where it can't be cast to it. Time as
/// for `assigns`.
pub fn casts(
    alloc: Global,
    context: &Context<'_>,
    x: &Exp,
    v: &CType,
    t: &CType,
) -> Result<Option<CType>, Memory>
    ensures { IfOk result (Finds (Casts context.now x.now v.now t.now)) }
{
    match t {
        CType::Void => Ok(Some(CType::Void)),
        CType::Int(_) => scalar_cast(alloc, context, x, v, t),
        CType::Ptr(_) => scalar_cast(alloc, context, x, v, t),
        _ => Ok(None),
    }
}
