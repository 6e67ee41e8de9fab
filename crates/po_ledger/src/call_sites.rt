// The call sites of functions, asked for once.
ghost use Rattle.std.specs.Prelude.{◌≡◌, ◌<◌, List, Some, slice_get, IfOk};
ghost use Rattle.po_base.specs.declared.numbers.FunNo.{FunNo};
ghost use Rattle.po_base.specs.declared.numbers.NodeNo.{NodeNo};
ghost use Rattle.po_ledger.specs.Made.{HasTable};
ghost use Rattle.po_ledger.specs.Parts.{AreCallSites};

use crate::per_function::PerFunction;
use po_base::{FunNo, List, Memory, NodeNo};
use po_core::Rulebook;
use std::alloc::Global;

/// The call sites of functions that were asked for.
pub(crate) type CallSites = PerFunction<List<(FunNo, NodeNo)>>;

/// The call sites of a function at its place.
pub(crate) fn call_sites_at<'k, R: Rulebook>(
    book: &R,
    kept: &'k CallSites,
    f: FunNo,
    at: usize,
) -> &'k List<(FunNo, NodeNo)>
    requires right { AreCallSites (R.meaning book.now) kept.now }
    requires found { (sites : List (FunNo × NodeNo)) × (slice_get kept.now at ≡ Some (f, sites)) }
    ensures { result.now ≡ (R.meaning book.now).call_sites f }
{
    let _book = book;
    kept.value(at)
}

/// The place of a function's call sites, for which the rulebook is asked where they aren't kept.
pub(crate) fn call_sites_place<R: Rulebook>(
    alloc: Global,
    book: &R,
    kept: &mut CallSites,
    f: FunNo,
) -> Result<usize, Memory>
    requires there { f.0 < (R.meaning book.now).functions }
    requires right { AreCallSites (R.meaning book.now) kept.old }
    ensures right { AreCallSites (R.meaning book.now) kept.new }
    ensures found { IfOk result (λ at. (sites : List (FunNo × NodeNo)) × (slice_get kept.new at ≡ Some (f, sites))) }
{
    match kept.place(f) {
        Some(at) => Ok(at),
        None => ask_call_sites(alloc, book, kept, f),
    }
}

/// Asks for a function's call sites, which aren't kept, and tells their place.
fn ask_call_sites<R: Rulebook>(
    alloc: Global,
    book: &R,
    kept: &mut CallSites,
    f: FunNo,
) -> Result<usize, Memory>
    requires there { f.0 < (R.meaning book.now).functions }
    requires right { AreCallSites (R.meaning book.now) kept.old }
    requires none { ¬ HasTable kept.old f }
    ensures right { AreCallSites (R.meaning book.now) kept.new }
    ensures found { IfOk result (λ at. (sites : List (FunNo × NodeNo)) × (slice_get kept.new at ≡ Some (f, sites))) }
{
    let sites = book.call_sites(alloc, f)?;
    let at = kept.len();
    kept.put(f, sites)?;
    Ok(at)
}
