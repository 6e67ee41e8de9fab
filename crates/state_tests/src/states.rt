ghost use Rattle.std.specs.Prelude.{IfOk};
ghost use Rattle.po_astate.specs.Values.{IsRel};
ghost use Rattle.po_astate.specs.States.{IsState};
ghost use Rattle.po_bases.specs.General.{IfThere};
ghost use Rattle.po_bases.specs.Filled.{IsFilled, IsHeap};

use crate::sample::{bases_of, entry, one_block, related, state_of};
use po_arith::Interval;
use po_astate::{AState, AValue, below_state, join_state};
use po_base::{List, Memory, NodeNo, SharedList};
use po_bases::{Base, Entry, Filled, HeapFact};
use po_interval::Members;
use std::alloc::Global;
use std::test::Fail;

/// A relation to an argument.
#[derive(Clone, Copy)]
enum Rel {
    No,
    /// By 0..1.
    Near(u32),
    /// By 5 and more.
    Far(u32),
    /// By 0 and more.
    Hull(u32),
    /// By 3 and less.
    Low(u32),
}

/// What a state of one register, one slot and one block tells.
#[derive(Clone, Copy)]
struct Told {
    rel: Rel,
    /// Whether the slot is wholly filled; none where it isn't entered.
    slot: Option<bool>,
    /// The block's node, whether it is alive, and its size.
    block: Option<(u32, bool, u64)>,
    freed: bool,
}

fn rel_of(rel: Rel) -> Option<(u32, Interval)>
    ensures { IsRel result }
{
    match rel {
        Rel::No => None,
        Rel::Near(argument) => Some((
            argument,
            Interval {
                lo: Some(0),
                hi: Some(1),
            },
        )),
        Rel::Far(argument) => Some((
            argument,
            Interval {
                lo: Some(5),
                hi: None,
            },
        )),
        Rel::Hull(argument) => Some((
            argument,
            Interval {
                lo: Some(0),
                hi: None,
            },
        )),
        Rel::Low(argument) => Some((
            argument,
            Interval {
                lo: None,
                hi: Some(3),
            },
        )),
    }
}

fn slot_of(alloc: Global, slot: Option<bool>) -> Result<Option<Filled>, Memory>
    ensures { IfOk result (IfThere IsFilled) }
{
    match slot {
        None => Ok(None),
        Some(whole) => {
            if whole {
                return Ok(Some(Filled::All));
            }
            let none = SharedList::from_list(List::new(alloc))?;
            Ok(Some(Filled::Bytes(none)))
        }
    }
}

fn heap_of(
    alloc: Global,
    block: Option<(u32, bool, u64)>,
) -> Result<SharedList<(NodeNo, HeapFact)>, Memory>
    ensures { IfOk result IsHeap }
{
    match block {
        None => {
            let none = SharedList::from_list(List::new(alloc))?;
            Ok(none)
        }
        Some(block) => one_block(alloc, block),
    }
}

/// The state that tells this; none stands for a node that isn't reached.
fn state(alloc: Global, told: &Option<Told>) -> Result<AState, Memory>
    ensures { IfOk result (IsState 1 1) }
{
    match told {
        None => Ok(AState::Bottom),
        Some(told) => {
            let value = related(rel_of(told.rel));
            let slot = slot_of(alloc, told.slot)?;
            let heap = heap_of(alloc, told.block)?;
            state_of(alloc, value, slot, heap, told.freed)
        }
    }
}

/// These members; no numbers stand for any.
fn members_of(alloc: Global, numbers: &[i128]) -> Result<Members, Memory> {
    if numbers.is_empty() {
        return Ok(Members::Any);
    }
    Ok(Members::Few(SharedList::from_slice(alloc, numbers)?))
}

/// The join is this one, which is above both, and the first isn't above it.
fn joins_to(
    alloc: Global,
    a: &Option<Told>,
    b: &Option<Told>,
    want: &Option<Told>,
) -> Result<bool, Memory> {
    let first = state(alloc, a)?;
    let second = state(alloc, b)?;
    let whole = state(alloc, want)?;
    let joined = join_state(alloc, &first, &second)?;
    Ok(
        joined == whole
            && below_state(&first, &whole)
            && below_state(&second, &whole)
            && !below_state(&whole, &first),
    )
}

fn row(rel: Rel, slot: Option<bool>, block: Option<(u32, bool, u64)>, freed: bool) -> Option<Told> {
    Some(Told {
        rel,
        slot,
        block,
        freed,
    })
}

#[test]
fn states_are_joined(rt: HostRuntime) -> Result<(), Fail> {
    let empty = row(Rel::No, None, None, false);
    let live = row(Rel::No, None, Some((5, true, 8)), false);
    let lesser = row(Rel::No, None, Some((5, true, 7)), false);
    let dead = row(Rel::No, None, Some((5, false, 8)), false);
    let near = row(Rel::Near(0), None, None, false);
    let far = row(Rel::Far(0), None, None, false);
    let whole = row(Rel::No, Some(true), None, false);
    let part = row(Rel::No, Some(false), None, false);
    let freed = row(Rel::No, None, None, true);
    let rows = [
        (None, empty, empty),
        (empty, freed, freed),
        (near, far, row(Rel::Hull(0), None, None, false)),
        (near, row(Rel::Near(1), None, None, false), empty),
        (far, row(Rel::Low(0), None, None, false), empty),
        (near, empty, empty),
        (empty, whole, whole),
        (whole, part, part),
        (empty, live, live),
        (live, lesser, lesser),
        (live, dead, dead),
        (
            live,
            whole,
            row(Rel::No, Some(true), Some((5, true, 8)), false),
        ),
        (
            live,
            row(Rel::No, None, Some((5, false, 9)), true),
            row(Rel::No, None, Some((5, false, 8)), true),
        ),
    ];
    for (a, b, want) in rows.iter() {
        assert!(rt; joins_to(rt.alloc(), a, b, want)?);
    }
    Ok(())
}

/// Whether a register that tells one of these is below one that tells nothing, and not the other way.
fn is_less(
    alloc: Global,
    set: bool,
    nonzero: bool,
    members: &[i128],
    bases: &[Entry],
) -> Result<bool, Memory> {
    let value = AValue {
        set,
        nonzero,
        range: Interval { lo: None, hi: None },
        members: members_of(alloc, members)?,
        rel: None,
        bases: bases_of(alloc, bases)?,
    };
    let mut top = related(None);
    top.set = false;
    let less = state_of(alloc, value, None, heap_of(alloc, None)?, false)?;
    let top = state_of(alloc, top, None, heap_of(alloc, None)?, false)?;
    Ok(below_state(&less, &top) && !below_state(&top, &less))
}

#[test]
fn parts_of_values_are_compared(rt: HostRuntime) -> Result<(), Fail> {
    let place = [entry(Base::Param(0), 0, 0, 16)];
    let rows: [(bool, bool, &[i128], &[Entry]); 4] = [
        (true, false, &[], &[]),
        (false, true, &[], &[]),
        (false, false, &[1, 2, 3, 4, 5, 6, 7, 8], &[]),
        (false, false, &[], &place),
    ];
    for (set, nonzero, members, bases) in rows.iter() {
        assert!(rt; is_less(rt.alloc(), *set, *nonzero, *members, *bases)?);
    }
    Ok(())
}

#[test]
fn a_register_takes_at_most_256_bytes(rt: HostRuntime) {
    assert!(rt; std::mem::size_of::<AValue>() <= 256);
}
