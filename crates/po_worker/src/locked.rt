// Calls of a ledger that is locked.
ghost use Rattle.std.specs.Prelude.{◌≡◌, length, true, false, IfOk, OnErr};
ghost use Rattle.po_core.specs.Core.{IsHeld};
ghost use Rattle.po_core.specs.declared.event.Event.TheVariants.{Give};
ghost use Rattle.po_ledger.specs.Calls.{Does};
ghost use Rattle.po_ledger.specs.Hands.{AreVerdicts, IsSettledUpTo, SettlesHand};
ghost use Rattle.po_ledger.specs.View.{Fits};
ghost use Rattle.po_worker.specs.Alone.{NoneHeld};
ghost use Rattle.po_worker.specs.Asked.{Tells};
ghost use Rattle.po_worker.specs.Work.{HoldsNoMore};

use po_base::{FileNo, Memory};
use po_core::{Rulebook, Verdict};
use po_ledger::{Ledger, Naming, Next, Ticket, settle_hand};
use std::alloc::Global;

/// Asks for work as a worker. Where all is done the ledger's journal says so.
pub(crate) fn take_file<R: Rulebook, J: Naming<R::Pred, R::Rule, R::Table>>(
    alloc: Global,
    ledger: &mut Ledger<'_, R, J>,
    worker: u8,
) -> Result<Next<R, J>, Memory>
    ensures { IfOk result (Tells J.book worker) }
{
    let next = ledger.take(alloc, worker)?;
    ledger.keeps_its_facts();
    Ok(next)
}

/// Puts a file back where it is held. It takes no memory.
pub(crate) fn put_back_if_held<R: Rulebook, J: Naming<R::Pred, R::Rule, R::Table>>(
    ledger: &mut Ledger<'_, R, J>,
    file: FileNo,
)
    ensures free { ¬ IsHeld ledger.new.state file }
    ensures others { HoldsNoMore ledger.old.state ledger.new.state }
{
    if ledger.held(file) {
        ledger.put_back(file);
    }
}

/// Puts back every file that is held, as has to be done before `solve_alone` where workers ended early. It takes no memory.
/// Time: the number of files, and for each that is held the number of the obligations in its hand.
pub fn put_back_all<R: Rulebook, J: Naming<R::Pred, R::Rule, R::Table>>(
    ledger: &mut Ledger<'_, R, J>,
)
    ensures { NoneHeld ledger.new.state }
{
    let book = ledger.book();
    for number in 0..book.files() {
        put_back_if_held(ledger, FileNo(number));
    }
    ledger.keeps_its_hands();
}

/// Settles the whole hand of a ticket that fits, and says so; or puts its file back where the ticket doesn't fit. After
/// `Memory` the file is put back.
pub(crate) fn settle_or_put_back<R: Rulebook, J: Naming<R::Pred, R::Rule, R::Table>>(
    alloc: Global,
    ledger: &mut Ledger<'_, R, J>,
    t: &mut Ticket<R, J>,
    verdicts: &[Verdict<R::Pred, R::Rule>],
) -> Result<bool, Memory>
    requires open { IsSettledUpTo t.old.hand 0 }
    requires verdicts { AreVerdicts J.book t.old.hand verdicts.now }
    ensures settled { IfOk result (λ fits. fits ≡ true → SettlesHand J.book t.old t.new ledger.old ledger.new) }
    ensures fits { IfOk result (λ fits. fits ≡ true → Fits ledger.new.state t.new) }
    ensures stale { IfOk result (λ fits. fits ≡ false → ¬ Fits ledger.old.state t.old) }
    ensures free { IfOk result (λ fits. fits ≡ false → ¬ IsHeld ledger.new.state t.old.file) }
    ensures err { OnErr result (¬ IsHeld ledger.new.state t.old.file) }
{
    let file = t.file();
    if !ledger.fits(t) {
        put_back_if_held(ledger, file);
        return Ok(false);
    }
    match settle_hand(alloc, ledger, t, verdicts) {
        Ok(()) => Ok(true),
        Err(Memory) => {
            put_back_if_held(ledger, file);
            Err(Memory)
        }
    }
}

/// Gives a ticket's file free, all of which is settled; or puts it back where the ticket doesn't fit. It takes no memory.
pub(crate) fn give_or_put_back<R: Rulebook, J: Naming<R::Pred, R::Rule, R::Table>>(
    ledger: &mut Ledger<'_, R, J>,
    t: Ticket<R, J>,
)
    requires { IsSettledUpTo t.hand (length t.hand) }
    ensures gives { Fits ledger.old.state t → Does J.book (Give t.worker t.file) ledger.old ledger.new }
    ensures free { ¬ IsHeld ledger.new.state t.file }
{
    if ledger.fits(&t) {
        ledger.give(t);
        return;
    }
    put_back_if_held(ledger, t.file());
}
