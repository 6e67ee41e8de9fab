// Arguments that a format reads.
ghost use Rattle.std.specs.Prelude.{IfOk};
ghost use Rattle.po_constants.specs.Found.{Finds};
ghost use Rattle.po_type_calls.specs.Calling.{PrintsAll};

use po_arith::Target;
use po_base::{List, Memory};
use po_type_parts::prints_as;
use po_types::{CType, Spec};
use std::alloc::Global;

/// What values of the types `vs` are converted to where these conversions of a `printf` format read them, one by one (C99 7.19.6.1p2, p9). None exactly where there are
/// more of one than of the other, or a conversion doesn't take its value. Takes time in their number.
pub fn prints(
    alloc: Global,
    target: Target,
    specs: &[Spec],
    vs: &[CType],
) -> Result<Option<List<CType>>, Memory>
    ensures { IfOk result (Finds (PrintsAll target specs.now vs.now)) }
{
    if vs.len() != specs.len() {
        return Ok(None);
    }
    let mut conversions = List::new(alloc);
    for i in 0..specs.len() {
        match prints_as(target, specs[i], &vs[i])? {
            None => return Ok(None),
            Some(conversion) => conversions.push(conversion)?,
        }
    }
    Ok(Some(conversions))
}
