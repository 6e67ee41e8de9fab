ghost use Rattle.std.specs.Prelude.{◌≡◌};
ghost use Rattle.po_app.specs.Discharge.{range_of as range_of_place, second_range as range_of_second, is_closed as is_closed_by_ranges};
ghost use Rattle.po_app.specs.Ranges.{IsSmallPlace, IsSmallSecond, IsSmallPredicate};

use crate::range::{has, stays};
use po_arith::Range;
use po_pred::{Place, Pred};

/// The numbers that a place may have: its own, or every int moved by them.
pub(crate) fn range_of(place: &Place) -> Range
    requires { IsSmallPlace place.now }
    ensures { result ≡ range_of_place place.now }
{
    match place.atom {
        None => Range {
            lo: place.lo,
            hi: place.hi,
        },
        Some(_) => Range {
            lo: -2_147_483_648 + place.lo,
            hi: 2_147_483_647 + place.hi,
        },
    }
}

/// The numbers of a second operand, 0 where an operator has none.
fn second_range(place: &Option<Place>) -> Range
    requires { IsSmallSecond place.now }
    ensures { result ≡ range_of_second place.now }
{
    match place {
        None => Range { lo: 0, hi: 0 },
        Some(place) => range_of(place),
    }
}

/// Whether a predicate is closed by the ranges of its places. In constant time.
pub(crate) fn is_closed(predicate: &Pred) -> bool
    requires { IsSmallPredicate predicate.now }
    ensures { result ≡ is_closed_by_ranges predicate.now }
{
    match predicate {
        Pred::Nonzero { x } => !has(&range_of(x), 0),
        Pred::NoOver { op, bits, a, b } => {
            let first = range_of(a);
            let second = second_range(b);
            stays(*op, *bits, &first, &second)
        }
        _ => false,
    }
}
