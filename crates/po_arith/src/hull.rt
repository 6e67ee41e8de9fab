// The least interval that holds two.
ghost use Rattle.std.specs.Prelude.{◌≡◌};
ghost use Rattle.po_arith.specs.Hull as hull;
ghost use Rattle.po_arith.specs.Hull.{IsHull, IsInhabited};

use crate::interval::Interval;

fn lower(a: Option<i128>, b: Option<i128>) -> Option<i128>
    ensures { result ≡ hull.lower a b }
{
    match (a, b) {
        (Some(x), Some(y)) => Some(x.min(y)),
        _ => None,
    }
}

fn upper(a: Option<i128>, b: Option<i128>) -> Option<i128>
    ensures { result ≡ hull.upper a b }
{
    match (a, b) {
        (Some(x), Some(y)) => Some(x.max(y)),
        _ => None,
    }
}

/// The hull: the least interval that holds both. Where an interval is empty, its ends count all the same.
pub fn join_interval(a: &Interval, b: &Interval) -> Interval
    ensures ends { result ≡ hull.hull a.now b.now }
    ensures least { IsInhabited a.now → IsInhabited b.now → IsHull a.now b.now result }
{
    Interval {
        lo: lower(a.lo, b.lo),
        hi: upper(a.hi, b.hi),
    }
}
