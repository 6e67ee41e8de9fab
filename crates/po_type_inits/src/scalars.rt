// Initialisers of scalars.
ghost use Rattle.std.specs.Prelude.{IfOk};
ghost use Rattle.po_typed.specs.Initialisers.{IsScalar};
ghost use Rattle.po_choices.specs.Answering.{IsWhether};
ghost use Rattle.po_type_inits.specs.Initialising.{InitialisesScalar};

use po_base::Memory;
use po_scopes::Context;
use po_tree::Exp;
use po_type_parts::assigns;
use po_types::CType;
use std::alloc::Global;

/// Whether objects of a type have one value: numbers and pointers (C99 6.2.5p21). Constant time.
pub fn is_scalar(t: &CType) -> bool
    ensures { IsWhether (IsScalar t.now) result }
{
    match t {
        CType::Int(_) => true,
        CType::Ptr(_) => true,
        _ => false,
    }
}

/// Whether the operand `x`, a value of type `v`, initialises an object of the type `t`, a scalar (C99 6.7.8p11). False exactly where `t` is no scalar, or the value may not
/// be assigned to it. Takes the time of `assigns`.
pub fn initialises_scalar(
    alloc: Global,
    context: &Context<'_>,
    x: &Exp,
    v: &CType,
    t: &CType,
) -> Result<bool, Memory>
    ensures { IfOk result (IsWhether (InitialisesScalar context.now x.now v.now t.now)) }
{
    if !is_scalar(t) {
        return Ok(false);
    }
    assigns(alloc, context, x, v, t)
}
