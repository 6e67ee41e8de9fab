// Intervals rounded outwards to thresholds.
ghost use Rattle.std.specs.Prelude.{◌≡◌};
ghost use Rattle.po_interval.specs.Rounding as rounding;

use crate::thresholds::Thresholds;
use po_arith::Interval;
use po_base::OrdList;

/// The ends of the fine thresholds, which hold every number between them.
const LEAST_FINE: i128 = -65_536;

const GREATEST_FINE: i128 = 65_536;

fn greater_of(a: Option<i128>, b: Option<i128>) -> Option<i128>
    ensures { result ≡ rounding.greater_of a b }
{
    match a {
        None => b,
        Some(x) => match b {
            None => Some(x),
            Some(y) => Some(x.max(y)),
        },
    }
}

fn lesser_of(a: Option<i128>, b: Option<i128>) -> Option<i128>
    ensures { result ≡ rounding.lesser_of a b }
{
    match a {
        None => b,
        Some(x) => match b {
            None => Some(x),
            Some(y) => Some(x.min(y)),
        },
    }
}

/// The greatest of some numbers that isn't above `v`.
fn greatest_to(numbers: &OrdList<i128>, v: i128) -> Option<i128>
    ensures { result ≡ rounding.greatest_to numbers.now v }
{
    match numbers.range(..=v).next_back() {
        Some(x) => Some(*x),
        None => None,
    }
}

/// The least of some numbers that isn't below `v`.
fn least_from(numbers: &OrdList<i128>, v: i128) -> Option<i128>
    ensures { result ≡ rounding.least_from numbers.now v }
{
    match numbers.range(v..).next() {
        Some(x) => Some(*x),
        None => None,
    }
}

fn fine_to(v: i128) -> Option<i128>
    ensures { result ≡ rounding.fine_to v }
{
    if LEAST_FINE <= v {
        Some(v.min(GREATEST_FINE))
    } else {
        None
    }
}

fn fine_from(v: i128) -> Option<i128>
    ensures { result ≡ rounding.fine_from v }
{
    if v <= GREATEST_FINE {
        Some(v.max(LEAST_FINE))
    } else {
        None
    }
}

fn round_down(th: &Thresholds, head: bool, v: i128) -> Option<i128>
    ensures { result ≡ rounding.round_down th.now head v }
{
    let coarse = greatest_to(&th.coarse, v);
    if head {
        coarse
    } else {
        greater_of(fine_to(v), coarse)
    }
}

fn round_up(th: &Thresholds, head: bool, v: i128) -> Option<i128>
    ensures { result ≡ rounding.round_up th.now head v }
{
    let coarse = least_from(&th.coarse, v);
    if head {
        coarse
    } else {
        lesser_of(fine_from(v), coarse)
    }
}

fn low_end(th: &Thresholds, head: bool, end: Option<i128>) -> Option<i128>
    ensures { result ≡ rounding.low_end th.now head end }
{
    match end {
        None => None,
        Some(v) => round_down(th, head, v),
    }
}

fn high_end(th: &Thresholds, head: bool, end: Option<i128>) -> Option<i128>
    ensures { result ≡ rounding.high_end th.now head end }
{
    match end {
        None => None,
        Some(v) => round_up(th, head, v),
    }
}

/// The interval with both ends moved outwards to the nearest threshold; an end past all thresholds is missing
/// then. At a head the thresholds are the coarse ones, elsewhere also -65,536..65,536. It takes time in the logarithm of the coarse
/// thresholds' number.
pub fn round(a: &Interval, th: &Thresholds, head: bool) -> Interval
    ensures { result ≡ rounding.round a.now th.now head }
{
    Interval {
        lo: low_end(th, head, a.lo),
        hi: high_end(th, head, a.hi),
    }
}
