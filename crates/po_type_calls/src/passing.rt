// Arguments and parameters.
ghost use Rattle.std.specs.Prelude.{IfOk};
ghost use Rattle.po_choices.specs.Answering.{IsWhether};
ghost use Rattle.po_type_calls.specs.Calling.{PassesAs};

use po_base::Memory;
use po_scopes::Context;
use po_tree::Exp;
use po_type_parts::assigns;
use po_types::CType;
use std::alloc::Global;

/// Whether the arguments `xs`, values of the types `vs`, may be passed to parameters of the types `ts`: as many, and each to its parameter (C99 6.5.2.2p2, p7). Takes the
/// time of `assigns` for each.
pub fn passes(
    alloc: Global,
    context: &Context<'_>,
    xs: &[Exp],
    vs: &[CType],
    ts: &[CType],
) -> Result<bool, Memory>
    ensures { IfOk result (IsWhether (PassesAs context.now xs.now vs.now ts.now)) }
{
    if xs.len() != ts.len() {
        return Ok(false);
    }
    if vs.len() != ts.len() {
        return Ok(false);
    }
    for i in 0..ts.len() {
        if !assigns(alloc, context, &xs[i], &vs[i], &ts[i])? {
            return Ok(false);
        }
    }
    Ok(true)
}
