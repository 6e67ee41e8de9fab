// What `? :` makes of two values, by their types and forms.
ghost use Rattle.std.specs.Prelude.{◌≡◌, IfOk};
ghost use Rattle.po_tree.specs.declared.expression.Exp.{Exp as Tree};
ghost use Rattle.po_types.specs.Types as types;
ghost use Rattle.po_types.specs.declared.ctype.CType.TheVariants as c;
ghost use Rattle.po_typed.specs.Scopes.{Context as Scope};
ghost use Rattle.po_typed.specs.Expressions.{Chooses};
ghost use Rattle.po_constants.specs.Found.{Finds};
ghost use Rattle.po_choices.specs.Choosing.{BesideZero, BesideVoid};

use crate::nulls::{is_null, is_null_pointer};
use po_base::Memory;
use po_operands::agree;
use po_scopes::Context;
use po_tree::Exp;
use po_types::{CType, Shared, common, composite, is_void};
use std::alloc::Global;

/// What two structs become: nothing where they differ (C99 6.5.15p5).
fn structs(m: u32, n: u32) -> Option<CType>
    ensures { (scope : Scope) (y z : Tree) → Finds (Chooses scope y (c.Struct m) z (c.Struct n)) result }
{
    if m != n {
        return None;
    }
    Some(CType::Struct(n))
}

/// What a number `x` and a pointer become: nothing where `x` isn't the constant 0 (C99 6.5.15p6).
fn beside_zero(
    alloc: Global,
    context: &Context<'_>,
    x: &Exp,
    to: &Shared<CType>,
) -> Result<Option<CType>, Memory>
    ensures { IfOk result (Finds (BesideZero context.now x.now to.now)) }
{
    if !is_null(alloc, context, x)? {
        return Ok(None);
    }
    Ok(Some(CType::Ptr(to.share()?)))
}

/// What a pointer and a pointer to void `x` become (C99 6.5.15p6).
fn beside_void(
    alloc: Global,
    context: &Context<'_>,
    x: &Exp,
    to: &Shared<CType>,
) -> Result<CType, Memory>
    ensures { IfOk result (BesideVoid context.now x.now to.now) }
{
    if is_null_pointer(alloc, context, x)? {
        return Ok(CType::Ptr(to.share()?));
    }
    Ok(CType::Ptr(Shared::new(alloc, CType::Void)?))
}

/// What pointers become to what agrees: the pointer to what both declarations say (C99 6.5.15p6).
fn pointer_to_both(alloc: Global, to: &CType, other: &CType) -> Result<CType, Memory>
    ensures { IfOk result (λ t. t ≡ c.Ptr (types.composite to.now other.now)) }
{
    let both = composite(to, other)?;
    Ok(CType::Ptr(Shared::new(alloc, both)?))
}

/// What the pointers `y` to `to` and `z` to `other` become (C99 6.5.15p6).
fn pointers(
    alloc: Global,
    context: &Context<'_>,
    y: &Exp,
    to: &Shared<CType>,
    z: &Exp,
    other: &Shared<CType>,
) -> Result<Option<CType>, Memory>
    ensures { IfOk result (Finds (Chooses context.now y.now (c.Ptr to.now) z.now (c.Ptr other.now))) }
{
    let first = to.get();
    let second = other.get();
    if agree(first, second) {
        return Ok(Some(pointer_to_both(alloc, first, second)?));
    }
    if is_void(second) {
        return Ok(Some(beside_void(alloc, context, z, to)?));
    }
    if is_void(first) {
        return Ok(Some(beside_void(alloc, context, y, other)?));
    }
    Ok(None)
}

/// What `? :` makes of the values `y` of type `u` and `z` of type `v`: the type that both are converted to (C99 6.5.15p3, p5, p6). None exactly where it takes no such
/// values. Takes time in the length of the shorter type, and as for `is_null` in the operands.
pub fn chooses(
    alloc: Global,
    context: &Context<'_>,
    y: &Exp,
    u: &CType,
    z: &Exp,
    v: &CType,
) -> Result<Option<CType>, Memory>
    ensures { IfOk result (Finds (Chooses context.now y.now u.now z.now v.now)) }
{
    match u {
        CType::Void => match v {
            CType::Void => Ok(Some(CType::Void)),
            _ => Ok(None),
        },
        CType::Int(s) => match v {
            CType::Int(t) => Ok(Some(CType::Int(common(*s, *t)))),
            CType::Ptr(to) => beside_zero(alloc, context, y, to),
            _ => Ok(None),
        },
        CType::Ptr(to) => match v {
            CType::Int(_) => beside_zero(alloc, context, z, to),
            CType::Ptr(other) => pointers(alloc, context, y, to, z, other),
            _ => Ok(None),
        },
        CType::Struct(m) => match v {
            CType::Struct(n) => Ok(structs(*m, *n)),
            _ => Ok(None),
        },
        _ => Ok(None),
    }
}
