// The round of a worker.
ghost use Rattle.std.specs.Prelude.{◌≡◌, length, true, IfOk, IfSome, IfNone, OnOk};
ghost use Rattle.po_ledger.specs.Hands.{AreVerdicts, IsSettledUpTo};
ghost use Rattle.po_worker.specs.Work.{IsToldDone};

use crate::gate::{Gate, Moment};
use crate::locked::{give_or_put_back, put_back_if_held, settle_or_put_back, take_file};
use crate::shared::Shared;
use crate::verdicts::verdicts_of;
use po_base::{FileNo, Memory};
use po_core::{Rulebook, Verdict};
use po_ledger::{Naming, Next, Ticket};
use std::alloc::Global;
use std::sync::Wait;

/// Works until all is done: takes a file, works out its verdicts without the lock, settles them in one taking of the lock,
/// and gives the file free. Where there is no file to take, it waits for the bell. It ends with `Ok` only after the ledger
/// told it that all is done. Before `Memory` it puts its file back.
pub fn work<T: Wait, R: Rulebook, J: Naming<R::Pred, R::Rule, R::Table>, G: Gate>(
    rt: &T,
    alloc: Global,
    shared: &Shared<'_, R, J>,
    worker: u8,
    gate: &G,
) -> Result<(), Memory>
    ensures { OnOk result (IsToldDone J.book worker) }
{
    let book = shared.ledger.lock(rt).book();
    for _ in rt.forever() {
        match take_or_wait(rt, alloc, shared, worker)? {
            Some(ticket) => {
                gate.at(worker, Moment::Taken);
                do_ticket(rt, alloc, shared, book, gate, ticket)?;
            }
            None => return Ok(()),
        }
    }
    unreachable!()
}

/// A ticket, as soon as there is one; or none, where all is done. It sleeps until the bell is rung.
fn take_or_wait<T: Wait, R: Rulebook, J: Naming<R::Pred, R::Rule, R::Table>>(
    rt: &T,
    alloc: Global,
    shared: &Shared<'_, R, J>,
    worker: u8,
) -> Result<Option<Ticket<R, J>>, Memory>
    ensures open { IfOk result (λ found. IfSome found (λ t. IsSettledUpTo t.hand 0)) }
    ensures done { IfOk result (λ found. IfNone found (IsToldDone J.book worker)) }
{
    let mut ledger = shared.ledger.lock(rt);
    for _ in rt.forever() {
        match take_file(alloc, &mut *ledger, worker)? {
            Next::Ticket(ticket) => return Ok(Some(ticket)),
            Next::Wait => {
                ledger = shared.bell.wait(rt, ledger);
            }
            Next::Done => return Ok(None),
        }
    }
    unreachable!()
}

/// Does the work of a ticket, of which nothing is settled yet. Where the ticket turns out not to fit any more, its file is
/// put back and left to who takes it next.
fn do_ticket<T: Wait, R: Rulebook, J: Naming<R::Pred, R::Rule, R::Table>, G: Gate>(
    rt: &T,
    alloc: Global,
    shared: &Shared<'_, R, J>,
    book: &R,
    gate: &G,
    ticket: Ticket<R, J>,
) -> Result<(), Memory>
    requires same_book { R.meaning book.now ≡ J.book }
    requires open { IsSettledUpTo ticket.hand 0 }
{
    let mut ticket = ticket;
    match verdicts_of(alloc, book, &mut ticket) {
        Ok(verdicts) => {
            if settle(rt, alloc, shared, &mut ticket, &verdicts)? {
                gate.at(ticket.worker(), Moment::Giving);
                give(rt, shared, ticket);
            }
            Ok(())
        }
        Err(Memory) => {
            put_back(rt, shared, ticket.file());
            Err(Memory)
        }
    }
}

/// Settles all of a ticket in one taking of the lock, and rings the bell. False: the ticket doesn't fit any more.
fn settle<T: Wait, R: Rulebook, J: Naming<R::Pred, R::Rule, R::Table>>(
    rt: &T,
    alloc: Global,
    shared: &Shared<'_, R, J>,
    t: &mut Ticket<R, J>,
    verdicts: &[Verdict<R::Pred, R::Rule>],
) -> Result<bool, Memory>
    requires open { IsSettledUpTo t.old.hand 0 }
    requires verdicts { AreVerdicts J.book t.old.hand verdicts.now }
    ensures { IfOk result (λ fits. fits ≡ true → IsSettledUpTo t.new.hand (length t.new.hand)) }
{
    let mut ledger = shared.ledger.lock(rt);
    let fits = settle_or_put_back(alloc, &mut *ledger, t, verdicts);
    shared.bell.notify_all();
    fits
}

/// Gives a ticket's file free, and rings the bell.
fn give<T: Wait, R: Rulebook, J: Naming<R::Pred, R::Rule, R::Table>>(
    rt: &T,
    shared: &Shared<'_, R, J>,
    ticket: Ticket<R, J>,
)
    requires { IsSettledUpTo ticket.hand (length ticket.hand) }
{
    let mut ledger = shared.ledger.lock(rt);
    give_or_put_back(&mut *ledger, ticket);
    shared.bell.notify_all();
}

/// Puts a file back, and rings the bell.
fn put_back<T: Wait, R: Rulebook, J: Naming<R::Pred, R::Rule, R::Table>>(
    rt: &T,
    shared: &Shared<'_, R, J>,
    file: FileNo,
) {
    let mut ledger = shared.ledger.lock(rt);
    put_back_if_held(&mut *ledger, file);
    shared.bell.notify_all();
}
