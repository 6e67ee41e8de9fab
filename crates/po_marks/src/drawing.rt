// All that waits in the first file in line, drawn at once.
ghost use Rattle.std.specs.Prelude.{◌≡◌, ◌+◌, ◌<◌, ◌≤◌, ◌++◌, [], ◌∷◌, List, true, false, length, map, slice_get, Some, IfOk};
ghost use Rattle.po_base.specs.declared.numbers.FileNo.{FileNo};
ghost use Rattle.po_core.specs.Book.{file_of_obl};
ghost use Rattle.po_core.specs.Core.{AreApart};
ghost use Rattle.po_core.specs.declared.event.Mark.TheVariants.{Untaken, Taken};
ghost use Rattle.po_marks.specs.Known.{AreRemarked};
ghost use Rattle.po_marks.specs.Waiting.{AreWaiting, IsOpenHand, SetsHold, TakesFrom, queue_len};
ghost use Rattle.po_marks.specs.declared.queue.Queue.{Queue};

use crate::entries::set_each;
use crate::line::leave_front;
use crate::marks::Marks;
use crate::queue::{empty_queue, swap_queue};
use po_base::{FileNo, Memory, Roomy};
use po_core::{Mark, Obl, Rulebook};
use std::alloc::Global;
use std::hash::Hash;

/// Obligations that are drawn from a queue, and a hand of them of which nothing is settled.
#[derive(Drop)]
pub struct Drawn<P> {
    pub items: Roomy<Obl<P>>,
    pub hand: Roomy<(Obl<P>, bool)>,
}

/// Nothing drawn, with room for so many.
fn with_room<P: Copy>(alloc: Global, count: usize) -> Result<Drawn<P>, Memory>
    ensures none { IfOk result (λ drawn. (drawn.items.items ≡ []) × (drawn.hand.items ≡ [])) }
    ensures room { IfOk result (λ drawn. (count ≤ drawn.items.spare) × (count ≤ drawn.hand.spare)) }
{
    let mut items = Roomy::new(alloc);
    items.reserve(count)?;
    let mut hand = Roomy::new(alloc);
    hand.reserve(count)?;
    Ok(Drawn { items, hand })
}

/// Nothing drawn, with room for all that a file's queue has, and the number of that.
pub fn room_to_draw<P: Copy + Eq + Hash, N: Copy>(
    alloc: Global,
    marks: &Marks<P, N>,
    file: FileNo,
) -> Result<(usize, Drawn<P>), Memory>
    requires { file.0 < length marks.now.queues }
    ensures none { IfOk result (λ r. (r.1.items.items ≡ []) × (r.1.hand.items ≡ [])) }
    ensures count { IfOk result (λ r. (q : Queue P) → slice_get marks.now.queues file.0 ≡ Some q → queue_len q ≡ r.0) }
    ensures room { IfOk result (λ r. (r.0 ≤ r.1.items.spare) × (r.0 ≤ r.1.hand.spare)) }
{
    let queue = &marks.queues[file.0 as usize];
    let Some(count) = queue.back.len().checked_add(queue.fresh.len()) else {
        return Err(Memory);
    };
    Ok((count, with_room(alloc, count)?))
}

/// Puts an obligation to those drawn.
fn keep<P: Copy>(drawn: &mut Drawn<P>, o: Obl<P>)
    requires items { 0 < drawn.old.items.spare }
    requires hand { 0 < drawn.old.hand.spare }
    ensures items { drawn.new.items.items ≡ drawn.old.items.items ++ o ∷ [] }
    ensures hand { drawn.new.hand.items ≡ drawn.old.hand.items ++ (o, false) ∷ [] }
    ensures room { drawn.old.items.spare ≤ drawn.new.items.spare + 1 }
    ensures hand_room { drawn.old.hand.spare ≤ drawn.new.hand.spare + 1 }
{
    drawn.items.push(o).unwrap();
    drawn.hand.push((o, false)).unwrap();
}

/// Puts each of some obligations to those drawn. Time: their number.
fn keep_each<P: Copy>(drawn: &mut Drawn<P>, waiting: &[Obl<P>])
    requires items { length waiting.now ≤ drawn.old.items.spare }
    requires hand { length waiting.now ≤ drawn.old.hand.spare }
    requires open { IsOpenHand drawn.old.hand.items drawn.old.items.items }
    ensures items { drawn.new.items.items ≡ drawn.old.items.items ++ waiting.now }
    ensures open { IsOpenHand drawn.new.hand.items drawn.new.items.items }
    ensures room { drawn.old.items.spare ≤ drawn.new.items.spare + length waiting.now }
    ensures hand_room { drawn.old.hand.spare ≤ drawn.new.hand.spare + length waiting.now }
{
    for o in waiting {
        keep(drawn, *o);
    }
}

/// Takes all that is untaken in the file that stands first in line: it is the items that are drawn, nothing waits in the file any
/// more, and it is held. It takes no memory. Time: the number of the items, on the average.
pub fn draw<R: Rulebook>(
    alloc: Global,
    book: &R,
    marks: &mut Marks<R::Pred, R::Rule>,
    file: FileNo,
    drawn: &mut Drawn<R::Pred>,
)
    requires apart { AreApart (map (λ e. e.0) marks.old.items) }
    requires waiting { AreWaiting (R.meaning book.now) marks.old }
    requires there { file.0 < length marks.old.queues }
    requires first { (rest : List FileNo) × (marks.old.line ≡ file ∷ rest) }
    requires none { (drawn.old.items.items ≡ []) × (drawn.old.hand.items ≡ []) }
    requires items { (q : Queue R.Pred) → slice_get marks.old.queues file.0 ≡ Some q → queue_len q ≤ drawn.old.items.spare }
    requires hand { (q : Queue R.Pred) → slice_get marks.old.queues file.0 ≡ Some q → queue_len q ≤ drawn.old.hand.spare }
    ensures takes { TakesFrom (R.meaning book.now) marks.old.items file drawn.new.items.items }
    ensures open { IsOpenHand drawn.new.hand.items drawn.new.items.items }
    ensures count { (q : Queue R.Pred) → slice_get marks.old.queues file.0 ≡ Some q → length drawn.new.items.items ≡ queue_len q }
    ensures marks { AreRemarked (λ o. file_of_obl (R.meaning book.now) o ≡ file) Untaken Taken marks.old.items marks.new.items }
    ensures waiting { AreWaiting (R.meaning book.now) marks.new }
    ensures holds { SetsHold file true marks.old.queues marks.new.queues }
{
    leave_front(&mut marks.line);
    let queue = swap_queue(&mut marks.queues, file, empty_queue(alloc, true));
    keep_each(drawn, queue.back.as_slice());
    keep_each(drawn, queue.fresh.as_slice());
    set_each(book, &mut marks.known, drawn.items.as_slice(), Mark::Taken);
    marks.untaken -= drawn.items.len();
}
