// The verdicts of a ticket, worked out without the lock.
ghost use Rattle.std.specs.Prelude.{◌≡◌, IfOk};
ghost use Rattle.po_ledger.specs.Calls.{KeepsTicket};
ghost use Rattle.po_ledger.specs.Hands.{AreVerdicts};

use po_base::Memory;
use po_core::{Rulebook, Verdict};
use po_ledger::{Naming, Ticket};
use std::alloc::Global;

/// The verdicts of a ticket's hand, in its order. This is the long part of a worker's round, and it asks no ledger. Time:
/// that of each item's verdict.
pub(crate) fn verdicts_of<R: Rulebook, J: Naming<R::Pred, R::Rule, R::Table>>(
    alloc: Global,
    book: &R,
    t: &mut Ticket<R, J>,
) -> Result<Vec<Verdict<R::Pred, R::Rule>>, Memory>
    requires { R.meaning book.now ≡ J.book }
    ensures same { KeepsTicket t.old t.new }
    ensures verdicts { IfOk result (λ verdicts. AreVerdicts J.book t.old.hand verdicts.items) }
{
    let mut verdicts = Vec::new(alloc);
    for k in 0..t.len() {
        let verdict = t.verdict(alloc, book, k)?;
        match verdicts.push(verdict) {
            Ok(()) => {}
            Err(_) => return Err(Memory),
        }
    }
    Ok(verdicts)
}
