// Obligations that are settled, and files that are freed.
ghost use Rattle.std.specs.Prelude.{◌≡◌, ◌↔◌, ◌<◌, true, false, IsTrue, length, map, slice_get, Some};
ghost use Rattle.std.specs.List.{Contains};
ghost use Rattle.po_core.specs.Book.{file_of_obl};
ghost use Rattle.po_core.specs.Core.{AreApart};
ghost use Rattle.po_core.specs.declared.event.Mark.TheVariants.{Untaken, Taken, Settled};
ghost use Rattle.po_core.specs.declared.obl.Obl.{Obl};
ghost use Rattle.po_marks.specs.Known.{AreRemarked};
ghost use Rattle.po_marks.specs.Waiting.{AreWaiting, SetsHold};
ghost use Rattle.po_marks.specs.declared.queue.Queue.{Queue};

use crate::entries::{Entries, is_in_hand, set_each, set_mark};
use crate::line::line_up;
use crate::marks::{Marks, counted};
use crate::queue::{free_queue, is_ready, put_to_back, queue_at};
use po_base::{FileNo, List};
use po_core::{Mark, Obl, Rulebook, Verdict};

/// Those of some obligations that are taken, in their order. It takes no memory. Time: their number, on the average.
fn only_taken<R: Rulebook>(
    book: &R,
    known: &Entries<R::Pred, R::Rule>,
    items: List<Obl<R::Pred>>,
) -> List<Obl<R::Pred>>
    requires { AreApart (map (λ e. e.0) known.now.entries) }
    ensures all { (o : Obl R.Pred) → Contains result o ↔ (Contains items o × Contains known.now.entries (o, Taken)) }
    ensures once { AreApart items → AreApart result }
{
    let mut taken = items.into_vec();
    taken.retain(
        |o|
            requires { AreApart (map (λ e. e.0) known.now.entries) }
            ensures { IsTrue result ↔ Contains known.entry.now.entries (o.now, Taken) }
        { is_in_hand(book, known, o) },
    );
    List::from_vec(taken)
}

/// Frees a file that was held: what is taken of its hand's obligations is untaken and waits in the file, which stands in line from
/// then on where something waits in it. It takes no memory. Time: the number of the hand's obligations, on the average.
pub fn put_back<R: Rulebook>(
    book: &R,
    marks: &mut Marks<R::Pred, R::Rule>,
    file: FileNo,
    items: List<Obl<R::Pred>>,
)
    requires apart { AreApart (map (λ e. e.0) marks.old.items) }
    requires waiting { AreWaiting (R.meaning book.now) marks.old }
    requires there { file.0 < length marks.old.queues }
    requires of_file { (o : Obl R.Pred) → Contains items o → file_of_obl (R.meaning book.now) o ≡ file }
    requires once { AreApart items }
    requires held { (q : Queue R.Pred) → slice_get marks.old.queues file.0 ≡ Some q → q.is_held ≡ true }
    ensures marks { AreRemarked (λ o. Contains items o) Taken Untaken marks.old.items marks.new.items }
    ensures waiting { AreWaiting (R.meaning book.now) marks.new }
    ensures holds { SetsHold file false marks.old.queues marks.new.queues }
{
    let taken = only_taken(book, &marks.known, items);
    set_each(book, &mut marks.known, taken.as_slice(), Mark::Untaken);
    marks.untaken = counted(marks.untaken, taken.len(), marks.known.len());
    put_to_back(&mut marks.queues, file, taken);
    let now = is_ready(queue_at(&marks.queues, file));
    line_up(&mut marks.line, file, false, now);
}

/// Frees a file that was held and of whose hand nothing is taken any more: it stands in line from then on where something waits in
/// it. It takes no memory, and constant time.
pub fn free<R: Rulebook>(book: &R, marks: &mut Marks<R::Pred, R::Rule>, file: FileNo)
    requires waiting { AreWaiting (R.meaning book.now) marks.old }
    requires there { file.0 < length marks.old.queues }
    requires held { (q : Queue R.Pred) → slice_get marks.old.queues file.0 ≡ Some q → q.is_held ≡ true }
    ensures marks { marks.new.items ≡ marks.old.items }
    ensures waiting { AreWaiting (R.meaning book.now) marks.new }
    ensures holds { SetsHold file false marks.old.queues marks.new.queues }
{
    let _book = book;
    free_queue(&mut marks.queues, file);
    let now = is_ready(queue_at(&marks.queues, file));
    line_up(&mut marks.line, file, false, now);
}

/// Settles an obligation that is taken. It takes no memory, and constant time on the average.
pub fn settle<R: Rulebook>(
    book: &R,
    marks: &mut Marks<R::Pred, R::Rule>,
    o: Obl<R::Pred>,
    v: Verdict<R::Pred, R::Rule>,
)
    requires taken { Contains marks.old.items (o, Taken) }
    requires apart { AreApart (map (λ e. e.0) marks.old.items) }
    requires waiting { AreWaiting (R.meaning book.now) marks.old }
    ensures marks { AreRemarked (λ p. p ≡ o) Taken (Settled v) marks.old.items marks.new.items }
    ensures waiting { AreWaiting (R.meaning book.now) marks.new }
    ensures queues { marks.new.queues ≡ marks.old.queues }
{
    set_mark(book, &mut marks.known, o, Mark::Settled(v));
}
