// The order and joins of relations to arguments.
ghost use Rattle.std.specs.Prelude.{◌≡◌};
ghost use Rattle.po_astate.specs.Values as values;

use po_arith::{Interval, join_interval};
use po_interval::interval_within;

/// The relation to an argument, where at least one end is there.
pub fn bounded_rel(argument: u32, by: Interval) -> Option<(u32, Interval)>
    ensures { result ≡ values.bounded_rel argument by }
{
    if by.lo.is_some() || by.hi.is_some() {
        return Some((argument, by));
    }
    None
}

/// The hull where both are of one argument and the hull has an end.
pub fn join_rel(a: &Option<(u32, Interval)>, b: &Option<(u32, Interval)>) -> Option<(u32, Interval)>
    ensures { result ≡ values.join_rel a.now b.now }
{
    match a {
        None => None,
        Some((i, p)) => match b {
            None => None,
            Some((j, q)) => {
                if *i == *j {
                    return bounded_rel(*i, join_interval(p, q));
                }
                None
            }
        },
    }
}

/// Whether `b` tells nothing more than `a`.
pub fn rel_within(a: &Option<(u32, Interval)>, b: &Option<(u32, Interval)>) -> bool
    ensures { result ≡ values.rel_within a.now b.now }
{
    match b {
        None => true,
        Some((j, q)) => match a {
            None => false,
            Some((i, p)) => *i == *j && interval_within(p, q),
        },
    }
}
