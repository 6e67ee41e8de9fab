// The order and joins of states.
ghost use Rattle.std.specs.Prelude.{◌≡◌, length, IfOk};
ghost use Rattle.std.specs.List.{All};
ghost use Rattle.po_bases.specs.General.{IfThere, each_join};
ghost use Rattle.po_bases.specs.Filled.{IsFilled};
ghost use Rattle.po_bases.specs.Filled as filled;
ghost use Rattle.po_astate.specs.Values.{IsValue, join_values};
ghost use Rattle.po_astate.specs.States as states;
ghost use Rattle.po_astate.specs.States.{AreAlike};

use crate::heap::heap_within;
use crate::parts::{each_within, join_each};
use crate::state::AState;
use crate::value::AValue;
use po_base::{Memory, NodeNo, SharedList};
use po_bases::{Filled, HeapFact, merge};
use po_interval::{join_of_members_is_least, members_are_ordered};
use std::alloc::Global;

/// Whether the state `b` tells nothing more than `a`, part by part. `Bottom` is below all. In linear time, without
/// asking for memory.
pub fn below_state(a: &AState, b: &AState) -> bool
    ensures { result ≡ states.below_state a.now b.now }
{
    match a {
        AState::Bottom => true,
        AState::At {
            regs,
            slots,
            heap,
            freed,
            wrote,
        } => match b {
            AState::Bottom => false,
            AState::At {
                regs: more_regs,
                slots: more_slots,
                heap: more_heap,
                freed: more_freed,
                wrote: more_wrote,
            } => {
                (!*freed || *more_freed)
                    && (!*wrote || *more_wrote)
                    && each_within(regs.as_slice(), more_regs.as_slice())
                    && each_within(slots.as_slice(), more_slots.as_slice())
                    && heap_within(heap.as_slice(), more_heap.as_slice())
            }
        },
    }
}

fn join_regs(alloc: Global, a: &[AValue], b: &[AValue]) -> Result<SharedList<AValue>, Memory>
    requires same { length a.now ≡ length b.now }
    requires first { All IsValue a.now }
    requires second { All IsValue b.now }
    ensures { IfOk result (λ joined. joined ≡ each_join join_values a.now b.now) }
{
    SharedList::from_list(join_each(alloc, a, b)?)
}

fn join_slots(
    alloc: Global,
    a: &[Option<Filled>],
    b: &[Option<Filled>],
) -> Result<SharedList<Option<Filled>>, Memory>
    requires same { length a.now ≡ length b.now }
    requires first { All (IfThere IsFilled) a.now }
    requires second { All (IfThere IsFilled) b.now }
    ensures { IfOk result (λ joined. joined ≡ each_join states.join_slots a.now b.now) }
{
    SharedList::from_list(join_each(alloc, a, b)?)
}

fn join_heap(
    alloc: Global,
    a: &[(NodeNo, HeapFact)],
    b: &[(NodeNo, HeapFact)],
) -> Result<SharedList<(NodeNo, HeapFact)>, Memory>
    ensures { IfOk result (λ joined. joined ≡ filled.join_heap a.now b.now) }
{
    SharedList::from_list(merge(alloc, a, b)?)
}

fn join_parts(alloc: Global, a: &AState, b: &AState) -> Result<AState, Memory>
    requires { AreAlike a.now b.now }
    ensures { IfOk result (λ joined. joined ≡ states.join_state a.now b.now) }
{
    match a {
        AState::Bottom => b.share(),
        AState::At {
            regs,
            slots,
            heap,
            freed,
            wrote,
        } => match b {
            AState::Bottom => a.share(),
            AState::At {
                regs: more_regs,
                slots: more_slots,
                heap: more_heap,
                freed: more_freed,
                wrote: more_wrote,
            } => Ok(AState::At {
                regs: join_regs(alloc, regs.as_slice(), more_regs.as_slice())?,
                slots: join_slots(alloc, slots.as_slice(), more_slots.as_slice())?,
                heap: join_heap(alloc, heap.as_slice(), more_heap.as_slice())?,
                freed: *freed || *more_freed,
                wrote: *wrote || *more_wrote,
            }),
        },
    }
}

/// What two states of one function both tell, part by part: their least upper bound. It asks for no memory where this
/// is one of the two.
pub fn join_state(alloc: Global, a: &AState, b: &AState) -> Result<AState, Memory>
    requires { AreAlike a.now b.now }
    ensures { IfOk result (λ joined. joined ≡ states.join_state a.now b.now) }
{
    members_are_ordered();
    join_of_members_is_least();
    if below_state(a, b) {
        return b.share();
    }
    if below_state(b, a) {
        return a.share();
    }
    join_parts(alloc, a, b)
}
