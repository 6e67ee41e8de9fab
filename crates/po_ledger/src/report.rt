// The report of a ledger, in its order.
ghost use Rattle.std.specs.Prelude.{◌≡◌, ◌↔◌, ◌<◌, ◌+◌, map, IfOk, OnOk, IsTrue};
ghost use Rattle.std.specs.List.{Contains, AllPairs};
ghost use Rattle.std.specs.declared.cmp.Ordering.TheVariants.{Less};
ghost use Rattle.po_core.specs.Core.{AreApart};
ghost use Rattle.po_core.specs.Order.{assumption_cmp, obl_cmp};
ghost use Rattle.po_ledger.specs.Parts.{AddsLine, AreLines, AreSame, AreSorted, ListsVerdicts};

use po_base::{FunNo, List, Memory};
use po_core::{Mark, Obl, Rulebook, Verdict};
use po_marks::{Entries, entry_at};
use std::alloc::Global;
use std::hash::Hash;

/// A line of a report: an obligation with its verdict.
type Line<P, N> = (Obl<P>, Verdict<P, N>);

/// Whether one of two counts isn't 0.
pub(crate) fn is_some_left(held: u32, untaken: u64) -> bool
    ensures { IsTrue result ↔ (0 < held + untaken) }
{
    held > 0 || untaken > 0
}

/// The settled obligations with their verdicts, in the order of obligations. Time: that of sorting them.
pub(crate) fn ascending_lines<R: Rulebook>(
    alloc: Global,
    book: &R,
    marks: &Entries<R::Pred, R::Rule>,
) -> Result<List<Line<R::Pred, R::Rule>>, Memory>
    requires { AreApart (map (λ e. e.0) marks.now.entries) }
    ensures all { IfOk result (ListsVerdicts marks.now.entries) }
    ensures ascend { IfOk result (AllPairs (λ x y. obl_cmp R.Pred.cmp x.0 y.0 ≡ Less)) }
{
    let _book = book;
    let mut lines = settled_lines(alloc, marks)?;
    sort_by_first(&mut lines);
    Ok(List::from_vec(lines))
}

/// The settled obligations with their verdicts. Time: the number of known obligations.
fn settled_lines<P: Copy + Eq + Hash, N: Copy>(
    alloc: Global,
    marks: &Entries<P, N>,
) -> Result<Vec<Line<P, N>>, Memory>
    requires { AreApart (map (λ e. e.0) marks.now.entries) }
    ensures { IfOk result (λ lines. AreLines marks.now.entries lines.items) }
{
    let mut lines = Vec::new(alloc);
    for i in 0..marks.len() {
        let entry = entry_at(marks, i);
        add_line(&mut lines, &entry)?;
    }
    Ok(lines)
}

/// Sorts pairs by the first of each. It takes no memory. Time: their number times its logarithm.
fn sort_by_first<K: Copy + Ord + Drop, V: Copy>(pairs: &mut Vec<(K, V)>)
    ensures { AreSorted K.cmp pairs.old.items pairs.new.items }
{
    pairs.sort_unstable_by_key(|pair| pair.0);
}

/// Adds a line for an obligation that is settled.
fn add_line<P: Copy, N: Copy>(
    lines: &mut Vec<Line<P, N>>,
    entry: &(Obl<P>, Mark<P, N>),
) -> Result<(), Memory>
    ensures { OnOk result (AddsLine entry.now lines.old.items lines.new.items) }
{
    match entry.1 {
        Mark::Settled(verdict) => match lines.push((entry.0, verdict)) {
            Ok(()) => Ok(()),
            Err(_) => Err(Memory),
        },
        _ => Ok(()),
    }
}

/// Assumptions in the order of functions, and of predicates within one. Time: that of sorting them.
pub(crate) fn ascending_assumptions<R: Rulebook>(
    alloc: Global,
    book: &R,
    assumed: &[(FunNo, R::Pred)],
) -> Result<List<(FunNo, R::Pred)>, Memory>
    requires { AreApart assumed.now }
    ensures all { IfOk result (AreSame assumed.now) }
    ensures ascend { IfOk result (AllPairs (λ x y. assumption_cmp R.Pred.cmp x y ≡ Less)) }
{
    let _book = book;
    let mut assumptions = Vec::from_slice(alloc, assumed)?;
    assumptions.sort_unstable();
    Ok(List::from_vec(assumptions))
}
