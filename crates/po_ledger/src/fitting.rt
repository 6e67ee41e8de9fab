// Whether a ticket is one that the ledger has handed out and still keeps.
ghost use Rattle.std.specs.Prelude.{◌≡◌, ◌↔◌, map, IsTrue};
ghost use Rattle.po_core.specs.Core.{AreApart};
ghost use Rattle.po_ledger.specs.Parts.{HasVerdict, AgreesOn, IsHandOf};
ghost use Rattle.po_ledger.specs.View.{items_of};

use crate::same::is_same;
use po_core::{Hand, Obl, Rulebook};
use po_marks::{Entries, has_verdict};

/// Whether a hand that the ledger keeps is that of a worker's ticket. Time: the number of the ticket's obligations, on the average.
pub(crate) fn is_hand_of<R: Rulebook>(
    book: &R,
    marks: &Entries<R::Pred, R::Rule>,
    hand: &Hand<R::Pred>,
    worker: u8,
    own: &[(Obl<R::Pred>, bool)],
) -> bool
    requires { AreApart (map (λ e. e.0) marks.now.entries) }
    ensures { IsTrue result ↔ IsHandOf marks.now.entries hand.now worker own.now }
{
    if hand.worker == worker {
        if are_items(book, hand.items.as_slice(), own) {
            return agree_on(book, marks, own);
        }
    }
    false
}

/// Whether obligations are those of a hand, in this order. Time: their number.
fn are_items<R: Rulebook>(book: &R, items: &[Obl<R::Pred>], own: &[(Obl<R::Pred>, bool)]) -> bool
    ensures { IsTrue result ↔ (items.now ≡ items_of own.now) }
{
    if items.len() != own.len() {
        return false;
    }
    for at in 0..items.len() {
        if !is_item(book, &items[at], &own[at]) {
            return false;
        }
    }
    true
}

/// Whether an obligation is that of an entry of a hand.
fn is_item<R: Rulebook>(book: &R, item: &Obl<R::Pred>, entry: &(Obl<R::Pred>, bool)) -> bool
    ensures { IsTrue result ↔ (item.now ≡ entry.now.0) }
{
    is_same(book, item, &entry.0)
}

/// Whether each settled item of a hand has a verdict, and each other has none.
fn agree_on<R: Rulebook>(
    book: &R,
    marks: &Entries<R::Pred, R::Rule>,
    own: &[(Obl<R::Pred>, bool)],
) -> bool
    requires { AreApart (map (λ e. e.0) marks.now.entries) }
    ensures { IsTrue result ↔ AgreesOn marks.now.entries own.now }
{
    for at in 0..own.len() {
        if !agrees(book, marks, &own[at]) {
            return false;
        }
    }
    true
}

/// Whether an item is settled just where it has a verdict.
fn agrees<R: Rulebook>(
    book: &R,
    marks: &Entries<R::Pred, R::Rule>,
    entry: &(Obl<R::Pred>, bool),
) -> bool
    requires { AreApart (map (λ e. e.0) marks.now.entries) }
    ensures { IsTrue result ↔ (IsTrue entry.now.1 ↔ HasVerdict marks.now.entries entry.now.0) }
{
    entry.1 == has_verdict(book, marks, &entry.0)
}
