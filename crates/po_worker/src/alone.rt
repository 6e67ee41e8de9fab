// The rest of a ledger, done by one worker alone.
ghost use Rattle.std.specs.Prelude.{◌≡◌, ◌<◌, true, false, length, IfOk, OnOk, OnErr};
ghost use Rattle.po_core.specs.Core.{IsQuiet};
ghost use Rattle.po_ledger.specs.Hands.{Extends, IsSettledUpTo, SettlesHand};
ghost use Rattle.po_worker.specs.Alone.{NoneHeld, HoldsOnly, Advances};

use crate::verdicts::verdicts_of;
use po_base::Memory;
use po_core::{Rulebook, settles_are_bounded};
use po_ledger::{Ledger, Naming, Next, Ticket, settle_hand};
use std::alloc::Global;

/// The number of the worker that works alone.
const ALONE: u8 = 0;

/// Does all that is left to do of a ledger of which nobody holds a file: all is done afterwards. It waits for nobody,
/// and ends, since no more can be settled than the rulebook can ask. After `Memory` nobody holds a file, and what was
/// settled stays settled. The journal is the old one with more events behind it. Time: for each file that is taken what a
/// take takes; for each obligation its verdict; and for each that delegates what a post takes.
pub fn solve_alone<R: Rulebook, J: Naming<R::Pred, R::Rule, R::Table>>(
    alloc: Global,
    ledger: &mut Ledger<'_, R, J>,
) -> Result<(), Memory>
    requires { NoneHeld ledger.old.state }
    ensures ok { OnOk result (IsQuiet ledger.new.state) }
    ensures err { OnErr result (NoneHeld ledger.new.state) }
    ensures journal { Extends ledger.old.journal ledger.new.journal }
{
    while solve_file(alloc, ledger)? {}
    Ok(())
}

/// Takes some file and settles all that is untaken in it, where there is one, and says whether there was one.
fn solve_file<R: Rulebook, J: Naming<R::Pred, R::Rule, R::Table>>(
    alloc: Global,
    ledger: &mut Ledger<'_, R, J>,
) -> Result<bool, Memory>
    requires { NoneHeld ledger.old.state }
    ensures more { IfOk result (λ more. more ≡ true → NoneHeld ledger.new.state × Advances J.book ledger.old ledger.new) }
    ensures done { IfOk result (λ more. more ≡ false → IsQuiet ledger.new.state) }
    ensures err { OnErr result (NoneHeld ledger.new.state) }
    ensures journal { Extends ledger.old.journal ledger.new.journal }
{
    match ledger.take(alloc, ALONE)? {
        Next::Ticket(ticket) => {
            solve_ticket(alloc, ledger, ticket)?;
            Ok(true)
        }
        Next::Wait => unreachable!(),
        Next::Done => Ok(false),
    }
}

/// Settles all of a ticket and gives its file free. After `Memory` the file is put back.
fn solve_ticket<R: Rulebook, J: Naming<R::Pred, R::Rule, R::Table>>(
    alloc: Global,
    ledger: &mut Ledger<'_, R, J>,
    ticket: Ticket<R, J>,
) -> Result<(), Memory>
    requires holds { HoldsOnly ledger.old.state ticket }
    requires open { IsSettledUpTo ticket.hand 0 }
    requires some { 0 < length ticket.hand }
    ensures ok { OnOk result (NoneHeld ledger.new.state × Advances J.book ledger.old ledger.new) }
    ensures err { OnErr result (NoneHeld ledger.new.state) }
    ensures journal { Extends ledger.old.journal ledger.new.journal }
{
    let mut ticket = ticket;
    match settle_ticket(alloc, ledger, &mut ticket) {
        Ok(()) => {
            ledger.give(ticket);
            ledger.keeps_its_facts();
            settles_are_bounded(ledger.book());
            Ok(())
        }
        Err(Memory) => {
            ledger.put_back(ticket.file());
            Err(Memory)
        }
    }
}

/// Works out the verdicts of a ticket, of which nothing is settled yet, and settles its hand.
fn settle_ticket<R: Rulebook, J: Naming<R::Pred, R::Rule, R::Table>>(
    alloc: Global,
    ledger: &mut Ledger<'_, R, J>,
    t: &mut Ticket<R, J>,
) -> Result<(), Memory>
    requires holds { HoldsOnly ledger.old.state t.old }
    requires open { IsSettledUpTo t.old.hand 0 }
    ensures ok { OnOk result (SettlesHand J.book t.old t.new ledger.old ledger.new) }
    ensures holds { HoldsOnly ledger.new.state t.new }
    ensures journal { Extends ledger.old.journal ledger.new.journal }
{
    let verdicts = verdicts_of(alloc, ledger.book(), t)?;
    settle_hand(alloc, ledger, t, verdicts.as_slice())
}
