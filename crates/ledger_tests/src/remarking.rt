ghost use Rattle.std.specs.Prelude.{◌≡◌, ◌↔◌, IsTrue};
ghost use Rattle.std.specs.List.{Contains};
ghost use Rattle.ledger_tests.specs.Walks.{IsMarkAfter, mark_before};
ghost use Rattle.po_core.specs.declared.event.Mark.TheVariants.{Taken, Settled};
ghost use Rattle.po_ledger.specs.Parts.{AreRemarked};

use crate::known::{Marks, is_same};
use po_core::{Mark, Obl, Rulebook, Verdict};

/// Whether an obligation is among others. Time: their number.
fn is_among<R: Rulebook>(book: &R, items: &[Obl<R::Pred>], o: &Obl<R::Pred>) -> bool
    ensures { IsTrue result ↔ Contains items.now o.now }
{
    for item in items {
        if is_same(book, item, o) {
            return true;
        }
    }
    false
}

/// Whether a mark says that an obligation is taken, or else that it is untaken.
fn is_before<P: Copy, N: Copy>(taken: bool, mark: Mark<P, N>) -> bool
    ensures { IsTrue result ↔ (mark ≡ mark_before taken) }
{
    match (taken, mark) {
        (true, Mark::Taken) => true,
        (false, Mark::Untaken) => true,
        _ => false,
    }
}

/// What becomes of an obligation's mark.
fn mark_after<R: Rulebook>(
    book: &R,
    items: &[Obl<R::Pred>],
    taken: bool,
    to: Mark<R::Pred, R::Rule>,
    entry: &(Obl<R::Pred>, Mark<R::Pred, R::Rule>),
) -> Mark<R::Pred, R::Rule>
    ensures { IsMarkAfter (λ o. Contains items.now o) (mark_before taken) to entry.now.0 entry.now.1 result }
{
    if is_before(taken, entry.1) {
        if is_among(book, items, &entry.0) {
            return to;
        }
    }
    entry.1
}

/// Gives a mark to those of some obligations that are taken, or else to those that are untaken. It takes no memory. Time: the number
/// of known obligations times that of these.
pub(crate) fn remark<R: Rulebook>(
    book: &R,
    marks: &mut Marks<R::Pred, R::Rule>,
    items: &[Obl<R::Pred>],
    taken: bool,
    to: Mark<R::Pred, R::Rule>,
)
    ensures { AreRemarked (λ o. Contains items.now o) (mark_before taken) to marks.old.items marks.new.items }
{
    remark_each(book, marks.as_mut_slice(), items, taken, to);
}

/// The same of marks in a slice.
fn remark_each<R: Rulebook>(
    book: &R,
    marks: &mut [(Obl<R::Pred>, Mark<R::Pred, R::Rule>)],
    items: &[Obl<R::Pred>],
    taken: bool,
    to: Mark<R::Pred, R::Rule>,
)
    ensures { AreRemarked (λ o. Contains items.now o) (mark_before taken) to marks.old marks.new }
{
    for i in 0..marks.len() {
        let entry = marks[i];
        marks[i] = (entry.0, mark_after(book, items, taken, to, &entry));
    }
}

/// What becomes of an obligation's mark where another one, that is taken, is settled.
fn settled_after<R: Rulebook>(
    book: &R,
    o: &Obl<R::Pred>,
    v: Verdict<R::Pred, R::Rule>,
    entry: &(Obl<R::Pred>, Mark<R::Pred, R::Rule>),
) -> Mark<R::Pred, R::Rule>
    ensures { IsMarkAfter (λ p. p ≡ o.now) Taken (Settled v) entry.now.0 entry.now.1 result }
{
    if is_before(true, entry.1) {
        if is_same(book, &entry.0, o) {
            return Mark::Settled(v);
        }
    }
    entry.1
}

/// Settles an obligation that is taken. It takes no memory. Time: the number of known obligations.
pub(crate) fn settle_mark<R: Rulebook>(
    book: &R,
    marks: &mut Marks<R::Pred, R::Rule>,
    o: Obl<R::Pred>,
    v: Verdict<R::Pred, R::Rule>,
)
    ensures { AreRemarked (λ p. p ≡ o) Taken (Settled v) marks.old.items marks.new.items }
{
    settle_each(book, marks.as_mut_slice(), o, v);
}

/// The same of marks in a slice.
fn settle_each<R: Rulebook>(
    book: &R,
    marks: &mut [(Obl<R::Pred>, Mark<R::Pred, R::Rule>)],
    o: Obl<R::Pred>,
    v: Verdict<R::Pred, R::Rule>,
)
    ensures { AreRemarked (λ p. p ≡ o) Taken (Settled v) marks.old marks.new }
{
    for i in 0..marks.len() {
        let entry = marks[i];
        marks[i] = (entry.0, settled_after(book, &o, v, &entry));
    }
}
