// The predicates that are assumed of functions.
ghost use Rattle.std.specs.Prelude.{◌≡◌, ◌++◌, ◌↔◌, ◌<◌, [], ◌∷◌, map, IsTrue, IfOk, OnOk, OnErr};
ghost use Rattle.std.specs.List.{Contains};
ghost use Rattle.indexmap.specs.IndexSet.{spare};
ghost use Rattle.po_base.specs.declared.numbers.FunNo.{FunNo};
ghost use Rattle.po_base.specs.declared.numbers.NodeNo.{NodeNo};
ghost use Rattle.po_core.specs.Core.{AreApart};
ghost use Rattle.po_core.specs.declared.obl.Obl.{Obl};
ghost use Rattle.po_ledger.specs.Parts.{AddsEach, AddsItem, AreCallSites, HasKey, supports_of};
ghost use Rattle.po_marks.specs.Waiting.{AreWaiting, KeepsHolds};

use crate::call_sites::{CallSites, call_sites_at, call_sites_place};
use indexmap::IndexSet;
use po_base::{FunNo, Memory};
use po_core::Rulebook;
use po_marks::{Marks, add_supports};
use std::alloc::Global;
use std::hash::Hash;

/// Assumed predicates of functions, none twice, in the order in which they were assumed.
pub(crate) type Assumptions<P> = IndexSet<(FunNo, P)>;

/// Assumes a predicate of a function, unless it is assumed: each call of the function has its supporting obligation afterwards.
/// After `Memory` nothing has changed. Time: constant where it is assumed, and else the number of the calls, on the average.
pub(crate) fn assume<R: Rulebook>(
    alloc: Global,
    book: &R,
    marks: &mut Marks<R::Pred, R::Rule>,
    assumed: &mut Assumptions<R::Pred>,
    kept: &mut CallSites,
    f: FunNo,
    q: R::Pred,
) -> Result<(), Memory>
    requires there { f.0 < (R.meaning book.now).functions }
    requires callers { (g : FunNo) (n : NodeNo) → Contains ((R.meaning book.now).call_sites f) (g, n) → g.0 < (R.meaning book.now).functions }
    requires waiting { AreWaiting (R.meaning book.now) marks.old }
    requires apart { AreApart (map (λ e. e.0) marks.old.items) }
    requires supported { Contains assumed.old.keys (f, q) → (o : Obl R.Pred) → Contains (supports_of q ((R.meaning book.now).call_sites f)) o → HasKey marks.old.items o }
    requires sites { AreCallSites (R.meaning book.now) kept.old }
    ensures waiting { AreWaiting (R.meaning book.now) marks.new }
    ensures holds { KeepsHolds marks.old.queues marks.new.queues }
    ensures marks { OnOk result (AddsEach (supports_of q ((R.meaning book.now).call_sites f)) marks.old.items marks.new.items) }
    ensures assumed { OnOk result (AddsItem assumed.old.keys assumed.new.keys (f, q)) }
    ensures same_marks { OnErr result (marks.new ≡ marks.old) }
    ensures same_assumed { OnErr result (assumed.new.keys ≡ assumed.old.keys) }
    ensures sites { AreCallSites (R.meaning book.now) kept.new }
{
    if is_assumed(book, assumed, f, q) {
        return Ok(());
    }
    reserve_one(assumed)?;
    let at = call_sites_place(alloc, book, kept, f)?;
    let sites = call_sites_at(book, kept, f, at);
    add_supports(book, marks, sites.as_slice(), q)?;
    insert_new(book, assumed, f, q);
    Ok(())
}

/// Whether a predicate of a function is assumed, in constant time on the average.
fn is_assumed<R: Rulebook>(book: &R, assumed: &Assumptions<R::Pred>, f: FunNo, q: R::Pred) -> bool
    ensures { IsTrue result ↔ Contains assumed.now.keys (f, q) }
{
    let _book = book;
    assumed.contains(&(f, q))
}

/// Makes room for one more assumption. They are the same, also after `Memory`.
fn reserve_one<P: Copy + Eq + Hash>(assumed: &mut Assumptions<P>) -> Result<(), Memory>
    ensures keys { assumed.new.keys ≡ assumed.old.keys }
    ensures room { OnOk result (0 < spare assumed.new) }
{
    assumed.reserve(1)?;
    Ok(())
}

/// Puts a new assumption to the end, where there is room for it. It takes no memory.
fn insert_new<R: Rulebook>(book: &R, assumed: &mut Assumptions<R::Pred>, f: FunNo, q: R::Pred)
    requires new { ¬ Contains assumed.old.keys (f, q) }
    requires room { 0 < spare assumed.old }
    ensures { assumed.new.keys ≡ assumed.old.keys ++ (f, q) ∷ [] }
{
    let _book = book;
    match assumed.insert((f, q)) {
        Ok(_) => {}
        Err(_) => unreachable!(),
    }
}
