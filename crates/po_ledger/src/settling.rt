// The whole hand of a ticket, settled.
ghost use Rattle.std.specs.Prelude.{◌≡◌, ◌<◌, length, OnOk, OnErr};
ghost use Rattle.po_core.specs.Core.{KeepsHands};
ghost use Rattle.po_ledger.specs.Hands.{AreVerdicts, Extends, IsDue, IsSettledUpTo, KeepsItems, PostsBefore, SettlesHand, SettlesPlace};
ghost use Rattle.po_ledger.specs.View.{Fits};

use crate::{Ledger, Naming, Ticket};
use po_base::Memory;
use po_core::{Rulebook, Verdict};
use std::alloc::Global;

/// Settles the whole hand of a ticket that fits, of which nothing is settled yet, in its order: each item with its verdict,
/// and before it the predicate is posted to which the verdict delegates. The ticket fits afterwards, and no file is held that
/// wasn't and none is free that was held. After `Memory` some items at the hand's front are settled. Time: for each item
/// that of `settle`, and for each that delegates that of `post`.
pub fn settle_hand<R: Rulebook, J: Naming<R::Pred, R::Rule, R::Table>>(
    alloc: Global,
    ledger: &mut Ledger<'_, R, J>,
    t: &mut Ticket<R, J>,
    verdicts: &[Verdict<R::Pred, R::Rule>],
) -> Result<(), Memory>
    requires fits { Fits ledger.old.state t.old }
    requires open { IsSettledUpTo t.old.hand 0 }
    requires verdicts { AreVerdicts J.book t.old.hand verdicts.now }
    ensures ok { OnOk result (SettlesHand J.book t.old t.new ledger.old ledger.new) }
    ensures fits { Fits ledger.new.state t.new }
    ensures hands { KeepsHands ledger.old.state ledger.new.state }
    ensures ticket { KeepsItems t.old t.new }
    ensures journal { Extends ledger.old.journal ledger.new.journal }
{
    for k in 0..t.len() {
        settle_item(alloc, ledger, t, k, verdicts[k])?;
    }
    Ok(())
}

/// Settles an item of a ticket with its verdict, which is posted before where it delegates. After `Memory` nothing has
/// changed.
fn settle_item<R: Rulebook, J: Naming<R::Pred, R::Rule, R::Table>>(
    alloc: Global,
    ledger: &mut Ledger<'_, R, J>,
    t: &mut Ticket<R, J>,
    k: usize,
    verdict: Verdict<R::Pred, R::Rule>,
) -> Result<(), Memory>
    requires within { k < length t.old.hand }
    requires fits { Fits ledger.old.state t.old }
    requires due { IsDue J.book t.old k verdict }
    ensures ok { OnOk result (SettlesPlace J.book k t.old t.new ledger.old ledger.new) }
    ensures err { OnErr result (ledger.new ≡ ledger.old) }
    ensures same { OnErr result (t.new ≡ t.old) }
{
    post_before(alloc, ledger, t, k, verdict)?;
    ledger.settle(t, k, verdict);
    Ok(())
}

/// Posts the predicate to which an item's verdict delegates, where it does, so that the item can be settled. After `Memory`
/// nothing has changed.
fn post_before<R: Rulebook, J: Naming<R::Pred, R::Rule, R::Table>>(
    alloc: Global,
    ledger: &mut Ledger<'_, R, J>,
    t: &mut Ticket<R, J>,
    k: usize,
    verdict: Verdict<R::Pred, R::Rule>,
) -> Result<(), Memory>
    requires within { k < length t.old.hand }
    requires fits { Fits ledger.old.state t.old }
    requires due { IsDue J.book t.old k verdict }
    ensures ok { OnOk result (PostsBefore J.book k verdict t.old ledger.old ledger.new) }
    ensures err { OnErr result (ledger.new ≡ ledger.old) }
    ensures ticket { t.new ≡ t.old }
{
    match verdict {
        Verdict::Delegated(q) => ledger.post(alloc, t, k, &q),
        _ => Ok(()),
    }
}
