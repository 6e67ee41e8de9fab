// The first obligation at a node that doesn't hold.
ghost use Rattle.std.specs.Prelude.{◌≡◌, MatchOption};
ghost use Rattle.po_step.specs.Checking.{AllOf, IsFirstFailing};

use po_core::Obl;
use po_holds::holds;
use po_memory::{Frame, Memory2};
use po_pred::Pred;

/// The place of the first obligation that doesn't hold.
pub(crate) fn first_failing(list: &[(Obl<Pred>, Pred)], frame: &Frame, m: &Memory2) -> Option<usize>
    ensures { MatchOption result (AllOf frame.now m.now.blocks list.now) (IsFirstFailing frame.now m.now.blocks list.now) }
{
    for place in 0..list.len() {
        if !holds(&list[place].1, frame, m) {
            return Some(place);
        }
    }
    None
}
