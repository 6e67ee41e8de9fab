// Weights of predicates.
ghost use Rattle.std.specs.Prelude.{◌≡◌, ◌≤◌};
ghost use Rattle.po_pred.specs.Weight as weights;

use crate::pred::{Place, Pred};
use crate::view::view_of;

fn range_weight(place: &Place) -> u32
    ensures weight { result ≡ weights.range_weight place.now.lo place.now.hi }
    ensures bound { result ≤ 2 }
{
    if place.lo == place.hi { 1 } else { 2 }
}

fn offset_weight(place: &Place) -> u32
    ensures weight { result ≡ weights.offset_weight place.now.lo place.now.hi }
    ensures bound { result ≤ 5 }
{
    if place.lo != place.hi {
        return 5;
    }
    if place.lo == 0 { 3 } else { 4 }
}

fn place_weight(place: &Place) -> u32
    ensures weight { result ≡ weights.place_weight place.now }
    ensures bound { result ≤ 5 }
{
    match place.atom {
        None => range_weight(place),
        Some(_) => offset_weight(place),
    }
}

fn optional_weight(place: &Option<Place>) -> u32
    ensures weight { result ≡ weights.optional_weight place.now }
    ensures bound { result ≤ 5 }
{
    match place {
        None => 0,
        Some(place) => place_weight(place),
    }
}

/// The weight of a predicate: 1, and for each place 1 for a number, 2 for a range of numbers, 3 for a parameter or
/// register, 4 for one with a single offset, 5 for one with a range of offsets. In constant time.
pub fn weight(predicate: &Pred) -> u32
    ensures { result ≡ weights.weight_of predicate.now }
{
    let view = view_of(predicate);
    1 + optional_weight(&view.first) + optional_weight(&view.second) + optional_weight(&view.third)
}
