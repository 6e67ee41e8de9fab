// The journal of a ledger, with room made before it is needed.
ghost use Rattle.std.specs.Prelude.{◌≡◌, ◌<◌, ◌≤◌, ◌+◌, ◌++◌, [], ◌∷◌, OnOk, OnErr};

use po_base::{List, Memory};
use po_core::Event;
use std::alloc::Global;
use std::marker::Model;

/// The events of a ledger so far, and for how many more room was made. Room stays until an event takes it, so what
/// room was made for can be written down later without memory.
#[derive(Drop)]
pub(crate) struct Log<P, N> {
    events: Vec<Event<P, N>>,
    spare: usize,
}

impl<P, N> Model for Log<P, N> {
    ghost use Rattle.std.specs.Prelude.{◌≤◌, ◌-◌};
    ghost use Rattle.std.specs.Vec.{vec_len, vec_capacity};
    ghost use Rattle.po_base.specs.Room.{Room};
    ghost use Rattle.po_core.specs.declared.event.Event.{Event};

    ghost Value = { Room (Event P N) };

    ghost view = { λ l. record { items = l.events.items; spare = l.spare } };

    ghost invariant = { λ l. l.spare ≤ vec_capacity l.events - vec_len l.events };
}

/// No events yet, and no room. It takes no memory.
pub(crate) fn no_events<P, N>(alloc: Global) -> Log<P, N>
    ensures { result.items ≡ [] }
{
    Log {
        events: Vec::new(alloc),
        spare: 0,
    }
}

/// Makes room for so many more events than there was room for. After `Memory` there is as much room as before. In
/// constant time on the average.
pub(crate) fn make_room<P, N>(
    journal: &mut Log<P, N>,
    more: usize,
    besides: usize,
) -> Result<(), Memory>
    ensures items { journal.new.items ≡ journal.old.items }
    ensures ok { OnOk result (journal.new.spare ≡ journal.old.spare + (more + besides)) }
    ensures err { OnErr result (journal.new.spare ≡ journal.old.spare) }
{
    let Some(added) = more.checked_add(besides) else {
        return Err(Memory);
    };
    let Some(wanted) = journal.spare.checked_add(added) else {
        return Err(Memory);
    };
    journal.events.reserve(wanted)?;
    journal.spare = wanted;
    Ok(())
}

/// Takes the room of one event away.
pub(crate) fn take_room<P, N>(journal: &mut Log<P, N>)
    requires { 0 < journal.old.spare }
    ensures items { journal.new.items ≡ journal.old.items }
    ensures room { journal.old.spare ≡ journal.new.spare + 1 }
{
    journal.spare -= 1;
}

/// Puts an event to the end of a journal that has room for it.
pub(crate) fn append<P, N>(journal: &mut Log<P, N>, event: Event<P, N>)
    requires { 0 < journal.old.spare }
    ensures items { journal.new.items ≡ journal.old.items ++ event ∷ [] }
    ensures room { journal.old.spare ≤ journal.new.spare + 1 }
{
    journal.events.push_reserved(event);
    journal.spare -= 1;
}

/// The events, without a copy.
pub(crate) fn into_events<P, N>(journal: Log<P, N>) -> List<Event<P, N>>
    ensures { result ≡ journal.items }
{
    let Log { events, .. } = journal;
    List::from_vec(events)
}
