// Obligations that were added last, taken out again.
ghost use Rattle.std.specs.Prelude.{◌≡◌, ℕ, length};
ghost use Rattle.po_core.specs.declared.obl.Obl.{Obl};
ghost use Rattle.po_marks.specs.Waiting.{AddsInTurn, AddsNew, Marking};

use crate::entries::pop_last;
use crate::line::leave_line;
use crate::marks::Marks;
use crate::queue::{is_ready, pop_fresh, queue_at};
use po_core::Rulebook;

/// Takes the obligation that became known last out again, as if it had never been added. It takes no memory, and constant time on
/// the average.
fn forget_last<R: Rulebook>(book: &R, marks: &mut Marks<R::Pred, R::Rule>)
    requires { (m : Marking R.Pred R.Rule) × (o : Obl R.Pred) × AddsNew (R.meaning book.now) o m marks.old }
    ensures { (m : Marking R.Pred R.Rule) (o : Obl R.Pred) → AddsNew (R.meaning book.now) o m marks.old → marks.new ≡ m }
{
    let o = pop_last(&mut marks.known);
    let file = book.file_of(o.fun);
    let now = is_ready(queue_at(&marks.queues, file));
    pop_fresh(&mut marks.queues, file);
    let before = is_ready(queue_at(&marks.queues, file));
    leave_line(&mut marks.line, before, now);
    marks.untaken -= 1;
}

/// Takes all obligations but the first so many out again, the others having become known one after the other. It takes no memory.
/// Time: how many it takes out, on the average.
pub(crate) fn forget<R: Rulebook>(book: &R, marks: &mut Marks<R::Pred, R::Rule>, count: usize)
    requires { (m : Marking R.Pred R.Rule) × (n : ℕ) × AddsInTurn (R.meaning book.now) n m marks.old × (length m.items ≡ count) }
    ensures { (m : Marking R.Pred R.Rule) (n : ℕ) → AddsInTurn (R.meaning book.now) n m marks.old → length m.items ≡ count → marks.new ≡ m }
{
    for _left in count..marks.known.len() {
        forget_last(book, marks);
    }
}
