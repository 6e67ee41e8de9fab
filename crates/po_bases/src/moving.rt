// Bases of pointers that are moved.
ghost use Rattle.std.specs.Prelude.{◌≡◌, IfOk};
ghost use Rattle.po_bases.specs.Base as base;
ghost use Rattle.po_bases.specs.Bases as bases;
ghost use Rattle.po_bases.specs.Bases.{EndFits, SumsFit, CanMove};
ghost use Rattle.std.specs.List.{All};

use crate::base::Base;
use crate::bases::Bases;
use crate::entry::Entry;
use po_arith::Interval;
use po_base::{List, Memory, SharedList};
use std::alloc::Global;

fn is_null(b: Base) -> bool
    ensures { result ≡ base.is_null b }
{
    match b {
        Base::Null => true,
        _ => false,
    }
}

fn sum(a: Option<i128>, b: Option<i128>) -> Option<i128>
    requires { EndFits (bases.sum a b) }
    ensures { result ≡ bases.sum a b }
{
    match a {
        None => None,
        Some(x) => match b {
            None => None,
            Some(y) => Some(x + y),
        },
    }
}

fn moved_entry(entry: &Entry, by: &Interval, grain: u8) -> Entry
    requires { SumsFit entry.now.off by.now }
    ensures { result ≡ bases.moved_entry by.now grain entry.now }
{
    Entry {
        base: entry.base,
        off: Interval {
            lo: sum(entry.off.lo, by.lo),
            hi: sum(entry.off.hi, by.hi),
        },
        grain: entry.grain.min(grain),
    }
}

fn moved_entries(
    alloc: Global,
    entries: &[Entry],
    by: &Interval,
    grain: u8,
) -> Result<List<Entry>, Memory>
    requires { All (λ e. SumsFit e.off by.now) entries.now }
    ensures { IfOk result (λ list. list ≡ bases.moved_entries by.now grain entries.now) }
{
    let mut moved = List::new(alloc);
    for entry in entries {
        if !is_null(entry.base) {
            moved.push(moved_entry(entry, by, grain))?;
        }
    }
    Ok(moved)
}

fn some_known(entries: List<Entry>) -> Result<Option<Bases>, Memory>
    ensures { IfOk result (λ b. b ≡ bases.some_known entries) }
{
    if entries.is_empty() {
        return Ok(None);
    }
    Ok(Some(Bases::Known(SharedList::from_list(entries)?)))
}

/// The bases of a pointer that is moved by a number of `by` times the factor whose power of two `grain` is, at most
/// 16: each offset moves, and the lesser grain stays. Null isn't moved and is left out; `None` where there is no
/// other base.
pub fn move_bases(
    alloc: Global,
    a: &Bases,
    by: &Interval,
    grain: u8,
) -> Result<Option<Bases>, Memory>
    requires { CanMove a.now by.now }
    ensures { IfOk result (λ moved. moved ≡ bases.move_bases a.now by.now grain) }
{
    match a {
        Bases::Unknown => Ok(Some(Bases::Unknown)),
        Bases::Known(entries) => some_known(moved_entries(alloc, entries.as_slice(), by, grain)?),
    }
}
