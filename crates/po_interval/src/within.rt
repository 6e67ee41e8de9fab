// Whether one interval lies in another.
ghost use Rattle.std.specs.Prelude.{◌≡◌};
ghost use Rattle.po_interval.specs.Within as within;

use po_arith::Interval;

/// Whether a lower end is at most another one, where a missing end is below all.
fn is_lower(a: Option<i128>, b: Option<i128>) -> bool
    ensures { result ≡ within.is_lower a b }
{
    match a {
        None => true,
        Some(x) => match b {
            None => false,
            Some(y) => x <= y,
        },
    }
}

/// Whether an upper end is at least another one, where a missing end is above all.
fn is_upper(a: Option<i128>, b: Option<i128>) -> bool
    ensures { result ≡ within.is_upper a b }
{
    match a {
        None => true,
        Some(x) => match b {
            None => false,
            Some(y) => y <= x,
        },
    }
}

/// Whether the ends of `a` lie between those of `b`: where `a` isn't empty, whether each number of `a` is one
/// of `b`.
pub fn interval_within(a: &Interval, b: &Interval) -> bool
    ensures { result ≡ within.interval_within a.now b.now }
{
    is_lower(b.lo, a.lo) && is_upper(b.hi, a.hi)
}
