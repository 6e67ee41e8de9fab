ghost use Rattle.std.specs.Prelude.{◌≡◌, [], ◌∷◌, IfOk};
ghost use Rattle.po_astate.specs.Values.{IsValue, IsRel};
ghost use Rattle.po_astate.specs.States.{IsState};
ghost use Rattle.po_bases.specs.General.{IfThere};
ghost use Rattle.po_bases.specs.Filled.{IsFilled, IsHeap};

use po_arith::Interval;
use po_astate::{AState, AValue};
use po_base::{List, Memory, NodeNo, SharedList};
use po_bases::{Base, Bases, Entry, Filled, HeapFact};
use po_interval::Members;
use std::alloc::Global;

pub(crate) fn between(lo: i128, hi: i128) -> Interval
    ensures { result ≡ record { lo = Some lo; hi = Some hi } }
{
    Interval {
        lo: Some(lo),
        hi: Some(hi),
    }
}

pub(crate) fn entry(base: Base, lo: i128, hi: i128, grain: u8) -> Entry
    ensures { result ≡ record { base = base; off = record { lo = Some lo; hi = Some hi }; grain = grain } }
{
    Entry {
        base,
        off: between(lo, hi),
        grain,
    }
}

/// These bases; no entries stand for unknown ones.
pub(crate) fn bases_of(alloc: Global, entries: &[Entry]) -> Result<Bases, Memory> {
    if entries.is_empty() {
        return Ok(Bases::Unknown);
    }
    Ok(Bases::Known(SharedList::from_slice(alloc, entries)?))
}

pub(crate) fn bytes(alloc: Global, numbers: &[u16]) -> Result<Filled, Memory> {
    Ok(Filled::Bytes(SharedList::from_slice(alloc, numbers)?))
}

/// The top of a type, set, with a relation to an argument.
pub(crate) fn related(rel: Option<(u32, Interval)>) -> AValue
    ensures { IsRel rel → IsValue result }
{
    AValue {
        set: true,
        nonzero: false,
        range: Interval { lo: None, hi: None },
        members: Members::Any,
        rel,
        bases: Bases::Unknown,
    }
}

/// A list of one item.
pub(crate) fn one<T: Drop>(alloc: Global, item: T) -> Result<SharedList<T>, Memory>
    ensures { IfOk result (λ list. list ≡ item ∷ []) }
{
    let mut list = List::new(alloc);
    list.push(item)?;
    SharedList::from_list(list)
}

/// A state of one register and one slot.
pub(crate) fn state_of(
    alloc: Global,
    value: AValue,
    slot: Option<Filled>,
    heap: SharedList<(NodeNo, HeapFact)>,
    freed: bool,
) -> Result<AState, Memory>
    ensures { IsValue value → IfThere IsFilled slot → IsHeap heap → IfOk result (IsState 1 1) }
{
    let regs = one(alloc, value)?;
    let slots = one(alloc, slot)?;
    Ok(AState::At {
        regs,
        slots,
        heap,
        freed,
        wrote: false,
    })
}

/// What is known of one block that is wholly filled: its node, whether it is alive, and its size.
pub(crate) fn one_block(
    alloc: Global,
    block: (u32, bool, u64),
) -> Result<SharedList<(NodeNo, HeapFact)>, Memory>
    ensures { IfOk result IsHeap }
{
    let fact = HeapFact {
        alive: block.1,
        size: block.2,
        filled: Filled::All,
    };
    let heap = one(alloc, (NodeNo(block.0), fact))?;
    Ok(heap)
}
