// Intervals of the results of conversions (C99 6.3.1.3).
ghost use Rattle.std.specs.Prelude.{◌≡◌, ◌≤ℤ◌, IfSome};
ghost use Rattle.po_arith.specs.Types.{IsIntType};
ghost use Rattle.po_interval.specs.Ranges as ranges;
ghost use Rattle.po_arith.specs.Ranges as arith;
ghost use Rattle.po_arith.specs.Ranges.{IsShort};

use crate::within::interval_within;
use po_arith::{IntType, Interval, Range, limits};

fn low_cut(low: i128, end: Option<i128>) -> i128
    ensures value { result ≡ ranges.low_cut low end }
    ensures inside { low ≤ℤ result }
{
    match end {
        None => low,
        Some(v) => v.max(low),
    }
}

fn high_cut(high: i128, end: Option<i128>) -> i128
    ensures value { result ≡ ranges.high_cut high end }
    ensures inside { result ≤ℤ high }
{
    match end {
        None => high,
        Some(v) => v.min(high),
    }
}

/// The numbers between two, where there are some.
fn some_range(lo: i128, hi: i128) -> Option<Range>
    ensures value { result ≡ arith.some_range lo hi }
    ensures ends { IfSome result (λ r. (r.lo ≡ lo) × (r.hi ≡ hi) × (lo ≤ℤ hi)) }
{
    if lo <= hi {
        Some(Range { lo, hi })
    } else {
        None
    }
}

/// The numbers from `low` to `high` that lie in an interval.
pub(crate) fn cut(low: i128, high: i128, a: &Interval) -> Option<Range>
    ensures value { result ≡ ranges.cut low high a.now }
    ensures inside { IfSome result (λ r. (low ≤ℤ r.lo) × (r.lo ≤ℤ r.hi) × (r.hi ≤ℤ high)) }
{
    some_range(low_cut(low, a.lo), high_cut(high, a.hi))
}

/// The numbers of a type that lie in an interval.
pub(crate) fn part(t: IntType, a: &Interval) -> Option<Range>
    requires { IsIntType t }
    ensures value { result ≡ ranges.part t a.now }
    ensures short { IfSome result IsShort }
{
    let range = limits(t);
    cut(range.lo, range.hi, a)
}

/// The interval of all numbers of a type.
fn whole(t: IntType) -> Interval
    requires { IsIntType t }
    ensures { result ≡ ranges.whole t }
{
    let range = limits(t);
    Interval {
        lo: Some(range.lo),
        hi: Some(range.hi),
    }
}

fn as_interval(range: Option<Range>) -> Option<Interval>
    ensures { result ≡ ranges.as_interval range }
{
    match range {
        None => None,
        Some(r) => Some(Interval {
            lo: Some(r.lo),
            hi: Some(r.hi),
        }),
    }
}

/// What a conversion of a number of `a` to the type may give (C99 6.3.1.3): for a signed type the numbers of `a` that fit,
/// since a conversion of others isn't allowed to happen, and `None` where there are none; for an unsigned type `a` where all fit,
/// else all numbers of the type.
pub fn conv_interval(t: IntType, a: &Interval) -> Option<Interval>
    requires { IsIntType t }
    ensures { result ≡ ranges.conv_interval t a.now }
{
    if t.signed {
        return as_interval(part(t, a));
    }
    let whole = whole(t);
    if interval_within(a, &whole) {
        Some(*a)
    } else {
        Some(whole)
    }
}

/// What the type makes of the outcomes of an operation.
pub(crate) fn settled(t: IntType, outcomes: Option<Range>) -> Option<Interval>
    requires { IsIntType t }
    ensures { result ≡ ranges.settled t outcomes }
{
    match outcomes {
        None => None,
        Some(r) => conv_interval(
            t,
            &Interval {
                lo: Some(r.lo),
                hi: Some(r.hi),
            },
        ),
    }
}
