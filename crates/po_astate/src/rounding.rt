// States rounded to thresholds.
ghost use Rattle.std.specs.Prelude.{◌≡◌, map, IfOk};
ghost use Rattle.po_astate.specs.Rounding as rounding;

use crate::rel::bounded_rel;
use crate::state::AState;
use crate::value::AValue;
use po_arith::Interval;
use po_base::{List, Memory, NodeNo, SharedList};
use po_bases::{Bases, Entry, HeapFact};
use po_interval::{Thresholds, round, rounding_widens};
use std::alloc::Global;

fn round_rel(rel: &Option<(u32, Interval)>, th: &Thresholds, head: bool) -> Option<(u32, Interval)>
    ensures { result ≡ rounding.round_rel th.now head rel.now }
{
    match rel {
        None => None,
        Some((argument, by)) => bounded_rel(*argument, round(by, th, head)),
    }
}

fn round_entries(
    alloc: Global,
    entries: &[Entry],
    th: &Thresholds,
    head: bool,
) -> Result<List<Entry>, Memory>
    ensures { IfOk result (λ rounded. rounded ≡ map (rounding.round_entry th.now head) entries.now) }
{
    let mut rounded = List::new(alloc);
    for entry in entries {
        rounded.push(Entry {
            base: entry.base,
            off: round(&entry.off, th, head),
            grain: entry.grain,
        })?;
    }
    Ok(rounded)
}

fn round_bases(alloc: Global, bases: &Bases, th: &Thresholds, head: bool) -> Result<Bases, Memory>
    ensures { IfOk result (λ rounded. rounded ≡ rounding.round_bases th.now head bases.now) }
{
    match bases {
        Bases::Unknown => Ok(Bases::Unknown),
        Bases::Known(entries) => {
            let rounded = round_entries(alloc, entries.as_slice(), th, head)?;
            Ok(Bases::Known(SharedList::from_list(rounded)?))
        }
    }
}

fn round_value(alloc: Global, value: &AValue, th: &Thresholds, head: bool) -> Result<AValue, Memory>
    ensures { IfOk result (λ rounded. rounded ≡ rounding.round_value th.now head value.now) }
{
    Ok(AValue {
        set: value.set,
        nonzero: value.nonzero,
        range: round(&value.range, th, head),
        members: value.members.share()?,
        rel: round_rel(&value.rel, th, head),
        bases: round_bases(alloc, &value.bases, th, head)?,
    })
}

fn round_regs(
    alloc: Global,
    regs: &[AValue],
    th: &Thresholds,
    head: bool,
) -> Result<List<AValue>, Memory>
    ensures { IfOk result (λ rounded. rounded ≡ map (rounding.round_value th.now head) regs.now) }
{
    let mut rounded = List::new(alloc);
    for value in regs {
        rounded.push(round_value(alloc, value, th, head)?)?;
    }
    Ok(rounded)
}

/// The greatest threshold that isn't above a size.
fn round_size(size: u64, th: &Thresholds, head: bool) -> u64
    ensures { result ≡ rounding.round_size th.now head size }
{
    rounding_widens();
    let sizes = Interval {
        lo: Some(size as i128),
        hi: None,
    };
    match round(&sizes, th, head).lo {
        None => 0,
        Some(low) => {
            if low < 0 {
                return 0;
            }
            low as u64
        }
    }
}

fn round_heap(
    alloc: Global,
    heap: &[(NodeNo, HeapFact)],
    th: &Thresholds,
    head: bool,
) -> Result<List<(NodeNo, HeapFact)>, Memory>
    ensures { IfOk result (λ rounded. rounded ≡ map (rounding.round_heap_entry th.now head) heap.now) }
{
    let mut rounded = List::new(alloc);
    for (node, fact) in heap {
        let fact = HeapFact {
            alive: fact.alive,
            size: round_size(fact.size, th, head),
            filled: fact.filled.share()?,
        };
        rounded.push((*node, fact))?;
    }
    Ok(rounded)
}

/// The state with its ends rounded to the nearest threshold: ranges, relations to arguments and offsets outwards, sizes
/// of blocks downwards. At a head of a loop the thresholds are the coarse ones, elsewhere also -65,536..65,536.
pub fn round_state(alloc: Global, a: &AState, th: &Thresholds, head: bool) -> Result<AState, Memory>
    ensures { IfOk result (λ rounded. rounded ≡ rounding.round_state a.now th.now head) }
{
    match a {
        AState::Bottom => Ok(AState::Bottom),
        AState::At {
            regs,
            slots,
            heap,
            freed,
            wrote,
        } => {
            let regs = round_regs(alloc, regs.as_slice(), th, head)?;
            let heap = round_heap(alloc, heap.as_slice(), th, head)?;
            Ok(AState::At {
                regs: SharedList::from_list(regs)?,
                slots: slots.share()?,
                heap: SharedList::from_list(heap)?,
                freed: *freed,
                wrote: *wrote,
            })
        }
    }
}
