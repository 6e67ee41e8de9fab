ghost use Rattle.std.specs.Prelude.{◌≡◌, ◌↔◌, ◌<◌, false, map, IsTrue, IfOk, OnOk, IfSome, IfNone};
ghost use Rattle.std.specs.List.{Contains};
ghost use Rattle.ledger_tests.specs.Walks.{NoneTakeable, PushesUntaken};
ghost use Rattle.po_core.specs.Book.{file_of_obl};
ghost use Rattle.po_core.specs.Core.{AreApart};
ghost use Rattle.po_core.specs.declared.event.Mark.TheVariants.{Untaken};
ghost use Rattle.po_core.specs.declared.obl.Obl.{Obl};
ghost use Rattle.po_ledger.specs.Parts.{HasKey, HandAt, TakesFrom};

use crate::hands::is_held;
use po_base::{FileNo, List, Memory};
use po_core::{Hand, Mark, Obl, Rulebook};
use std::alloc::Global;

/// Whether a mark says that an obligation is untaken.
pub(crate) fn is_untaken<P: Copy, N: Copy>(mark: Mark<P, N>) -> bool
    ensures { IsTrue result ↔ (mark ≡ Untaken) }
{
    match mark {
        Mark::Untaken => true,
        _ => false,
    }
}

/// The file of an obligation, where it is untaken and its file isn't held.
fn takeable_file<R: Rulebook>(
    book: &R,
    hands: &[Option<Hand<R::Pred>>],
    entry: &(Obl<R::Pred>, Mark<R::Pred, R::Rule>),
) -> Option<FileNo>
    requires { entry.now.0.fun.0 < (R.meaning book.now).functions }
    ensures some { IfSome result (λ file. (entry.now.1 ≡ Untaken) × (file_of_obl (R.meaning book.now) entry.now.0 ≡ file) × ¬ HandAt hands.now file) }
    ensures none { IfNone result (entry.now.1 ≡ Untaken → HandAt hands.now (file_of_obl (R.meaning book.now) entry.now.0)) }
{
    if is_untaken(entry.1) {
        let file = book.file_of(entry.0.fun);
        if is_held(hands, file) {
            return None;
        }
        return Some(file);
    }
    None
}

/// A file that can be taken, where there is one. Time: the number of known obligations.
pub(crate) fn takeable<R: Rulebook>(
    book: &R,
    marks: &[(Obl<R::Pred>, Mark<R::Pred, R::Rule>)],
    hands: &[Option<Hand<R::Pred>>],
) -> Option<FileNo>
    requires { (o : Obl R.Pred) → HasKey marks.now o → o.fun.0 < (R.meaning book.now).functions }
    ensures some { IfSome result (λ file. (¬ HandAt hands.now file) × ((o : Obl R.Pred) × Contains marks.now (o, Untaken) × (file_of_obl (R.meaning book.now) o ≡ file))) }
    ensures none { IfNone result (NoneTakeable (R.meaning book.now) marks.now hands.now) }
{
    for i in 0..marks.len() {
        let entry = marks[i];
        if let Some(file) = takeable_file(book, hands, &entry) {
            return Some(file);
        }
    }
    None
}

/// Whether an obligation is untaken and of a file.
fn is_untaken_in<R: Rulebook>(
    book: &R,
    entry: &(Obl<R::Pred>, Mark<R::Pred, R::Rule>),
    file: FileNo,
) -> bool
    requires { entry.now.0.fun.0 < (R.meaning book.now).functions }
    ensures { IsTrue result ↔ ((entry.now.1 ≡ Untaken) × (file_of_obl (R.meaning book.now) entry.now.0 ≡ file)) }
{
    if is_untaken(entry.1) {
        return book.file_of(entry.0.fun) == file;
    }
    false
}

/// Puts an obligation to others, where it is untaken and of a file.
fn push_untaken<R: Rulebook>(
    book: &R,
    items: &mut List<Obl<R::Pred>>,
    entry: &(Obl<R::Pred>, Mark<R::Pred, R::Rule>),
    file: FileNo,
) -> Result<(), Memory>
    requires { entry.now.0.fun.0 < (R.meaning book.now).functions }
    ensures { OnOk result (PushesUntaken (R.meaning book.now) file entry.now items.old items.new) }
{
    if is_untaken_in(book, entry, file) {
        return items.push(entry.0);
    }
    Ok(())
}

/// The untaken obligations of a file. Time: the number of known obligations.
pub(crate) fn untaken_of<R: Rulebook>(
    alloc: Global,
    book: &R,
    marks: &[(Obl<R::Pred>, Mark<R::Pred, R::Rule>)],
    file: FileNo,
) -> Result<List<Obl<R::Pred>>, Memory>
    requires there { (o : Obl R.Pred) → HasKey marks.now o → o.fun.0 < (R.meaning book.now).functions }
    requires apart { AreApart (map (λ e. e.0) marks.now) }
    ensures { IfOk result (λ items. TakesFrom (R.meaning book.now) marks.now file items) }
{
    let mut items = List::new(alloc);
    for i in 0..marks.len() {
        let entry = marks[i];
        push_untaken(book, &mut items, &entry, file)?;
    }
    Ok(items)
}

/// A hand of obligations, none of them settled.
pub(crate) fn all_open<P: Copy>(
    alloc: Global,
    items: &[Obl<P>],
) -> Result<List<(Obl<P>, bool)>, Memory>
    ensures { IfOk result (λ hand. hand ≡ map (λ o. (o, false)) items.now) }
{
    let mut hand = List::new(alloc);
    for item in items {
        hand.push((*item, false))?;
    }
    Ok(hand)
}
