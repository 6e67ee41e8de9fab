ghost use Rattle.std.specs.Prelude.{◌≡◌, ◌<◌, length, OnOk, OnErr, IfOk};
ghost use Rattle.po_core.specs.Least.{IsLeastReport};
ghost use Rattle.po_ledger.specs.Hands.{IsDue, IsSettledUpTo, PostsBefore, SettlesHand, SettlesPlace};
ghost use Rattle.po_ledger.specs.View.{Fits};

use crate::ledger::{ListLedger, ListNext};
use crate::ticket::ListTicket;
use po_base::Memory;
use po_core::{Report, Rulebook, Verdict};
use po_ledger::{Naming, ReportFail};
use std::alloc::Global;
use std::marker::Brand;

/// The number of the worker that works alone.
const ALONE: u8 = 0;

/// The most files that are taken.
const ROUNDS: u32 = 10_000;

/// The least report of a rulebook, by one worker over a ledger of plain lists.
pub fn solve_book_by_lists<R: Rulebook>(
    alloc: Global,
    book: &R,
) -> Result<Report<R::Pred, R::Rule>, ReportFail>
    ensures { IfOk result (IsLeastReport R.Pred.cmp (R.meaning book.now)) }
{
    solve_lists::<R, Brand>(alloc, book)
}

/// The least report of the rulebook that a type names.
fn solve_lists<R: Rulebook, J: Naming<R::Pred, R::Rule, R::Table>>(
    alloc: Global,
    book: &R,
) -> Result<Report<R::Pred, R::Rule>, ReportFail>
    requires { R.meaning book.now ≡ J.book }
    ensures { IfOk result (IsLeastReport R.Pred.cmp J.book) }
{
    let mut ledger: ListLedger<'_, R, J> = ListLedger::new(alloc, book)?;
    for _round in 0..ROUNDS {
        if !solve_file(alloc, &mut ledger)? {
            break;
        }
    }
    ledger.report(alloc)
}

/// Takes some file and settles all that is untaken in it, where there is one, and says whether there was one.
fn solve_file<R: Rulebook, J: Naming<R::Pred, R::Rule, R::Table>>(
    alloc: Global,
    ledger: &mut ListLedger<'_, R, J>,
) -> Result<bool, Memory> {
    match ledger.take(alloc, ALONE)? {
        ListNext::Ticket(ticket) => {
            let mut ticket = ticket;
            settle_ticket(alloc, ledger, &mut ticket)?;
            ledger.give(ticket);
            Ok(true)
        }
        ListNext::Wait => Ok(false),
        ListNext::Done => Ok(false),
    }
}

/// Settles the whole hand of a ticket that fits, of which nothing is settled yet, in its order.
fn settle_ticket<R: Rulebook, J: Naming<R::Pred, R::Rule, R::Table>>(
    alloc: Global,
    ledger: &mut ListLedger<'_, R, J>,
    t: &mut ListTicket<R, J>,
) -> Result<(), Memory>
    requires fits { Fits ledger.old.state t.old }
    requires open { IsSettledUpTo t.old.hand 0 }
    ensures ok { OnOk result (SettlesHand J.book t.old t.new ledger.old ledger.new) }
    ensures fits { OnOk result (Fits ledger.new.state t.new) }
{
    for k in 0..t.len() {
        let verdict = t.verdict(alloc, ledger.book(), k)?;
        settle_item(alloc, ledger, t, k, verdict)?;
    }
    Ok(())
}

/// Settles an item of a ticket with its verdict, which is posted before where it delegates. After `Memory` nothing has
/// changed.
fn settle_item<R: Rulebook, J: Naming<R::Pred, R::Rule, R::Table>>(
    alloc: Global,
    ledger: &mut ListLedger<'_, R, J>,
    t: &mut ListTicket<R, J>,
    k: usize,
    verdict: Verdict<R::Pred, R::Rule>,
) -> Result<(), Memory>
    requires within { k < length t.old.hand }
    requires fits { Fits ledger.old.state t.old }
    requires due { IsDue J.book t.old k verdict }
    ensures ok { OnOk result (SettlesPlace J.book k t.old t.new ledger.old ledger.new) }
    ensures err { OnErr result (ledger.new ≡ ledger.old) }
    ensures same { OnErr result (t.new ≡ t.old) }
{
    post_before(alloc, ledger, t, k, verdict)?;
    ledger.settle(t, k, verdict);
    Ok(())
}

/// Posts the predicate to which an item's verdict delegates, where it does, so that the item can be settled. After `Memory`
/// nothing has changed.
fn post_before<R: Rulebook, J: Naming<R::Pred, R::Rule, R::Table>>(
    alloc: Global,
    ledger: &mut ListLedger<'_, R, J>,
    t: &mut ListTicket<R, J>,
    k: usize,
    verdict: Verdict<R::Pred, R::Rule>,
) -> Result<(), Memory>
    requires within { k < length t.old.hand }
    requires fits { Fits ledger.old.state t.old }
    requires due { IsDue J.book t.old k verdict }
    ensures ok { OnOk result (PostsBefore J.book k verdict t.old ledger.old ledger.new) }
    ensures err { OnErr result (ledger.new ≡ ledger.old) }
    ensures ticket { t.new ≡ t.old }
{
    match verdict {
        Verdict::Delegated(q) => ledger.post(alloc, t, k, &q),
        _ => Ok(()),
    }
}
