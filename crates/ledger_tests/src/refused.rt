ghost use Rattle.std.specs.Prelude.{◌<◌, length};
ghost use Rattle.ledger_tests.specs.Rows.{calls};
ghost use Rattle.po_ledger.specs.Calls.{CanPost};

use crate::row::Row;
use po_base::{FileNo, Memory};
use po_core::Verdict;
use po_ledger::{Ledger, Naming, Next, ReportFail, Ticket};
use std::alloc::Global;
use std::test::Fail;

/// Three functions in one file that call each other in a circle, each at two nodes, and all of which ask.
const CALLS: Row = Row {
    functions: 3,
    more_files: 0,
    is_circle: true,
    is_twice: true,
    silent: 0,
    open_at: 9,
};

/// The name of their book.
struct OfCalls;

impl Naming<u8, u8, u32> for OfCalls {
    ghost use Rattle.ledger_tests.specs.Rows.{calls};

    ghost book = { calls };
}

/// What a ledger shows: how much is known, whether its file is held, whether all is done, and how much is left.
fn shown(alloc: Global, ledger: &Ledger<'_, Row, OfCalls>) -> (usize, bool, bool, u32, u64) {
    let (held, untaken) = match ledger.report(alloc) {
        Err(ReportFail::NotQuiet { held, untaken }) => (held, untaken),
        _ => (0, 0),
    };
    (
        ledger.known().len(),
        ledger.held(FileNo(0)),
        ledger.quiet(),
        held,
        untaken,
    )
}

/// Whether a post for the first item of a ticket is carried out, or is refused and leaves the ledger as it was, and is carried out then.
fn stands(
    alloc: Global,
    ledger: &mut Ledger<'_, Row, OfCalls>,
    t: &mut Ticket<Row, OfCalls>,
    q: u8,
) -> bool
    requires within { 0 < length t.old.hand }
    requires can { CanPost calls ledger.old.state t.old 0 q }
{
    let before = shown(alloc, ledger);
    match ledger.post(alloc, t, 0, &q) {
        Ok(()) => true,
        Err(Memory) => { shown(alloc, ledger) == before && ledger.post(alloc, t, 0, &q).is_ok() }
    }
}

/// Whether a ledger stands a post, and has the events of one take and of one post afterwards.
fn stands_a_post(alloc: Global) -> Result<bool, Memory> {
    let mut ledger: Ledger<'_, Row, OfCalls> = Ledger::new(alloc, &CALLS)?;
    let Next::Ticket(ticket) = ledger.take(alloc, 1)? else {
        return Ok(false);
    };
    let mut ticket = ticket;
    let verdict = ticket.verdict(alloc, &CALLS, 0)?;
    let Verdict::Delegated(q) = verdict else {
        return Ok(false);
    };
    let is = stands(alloc, &mut ledger, &mut ticket, q);
    Ok(is && ledger.known().len() == 11 && ledger.close().len() == 2)
}

// Nine obligations are asked, and the first of them is passed on to the two nodes that call its function. This is tried with each request
// for memory refused, outside the gate.
#[test]
fn a_refused_post_changes_nothing(rt: HostRuntime) -> Result<(), Fail> {
    assert!(rt; stands_a_post(rt.alloc())?);
    Ok(())
}
