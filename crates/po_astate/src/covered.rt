// Whether each entry of one map is below one of another.
ghost use Rattle.std.specs.Prelude.{◌≡◌, ◌≤◌, ◌<◌, ◌+◌, drop, false, length, IfSome, IfNone};
ghost use Rattle.po_bases.specs.Maps.{covered};

use po_bases::Keyed;
use std::cmp::Ordering;

/// An entry of a map, of whose keys each has an order of what stands there.
pub trait Ordered: Keyed {
    ghost use Rattle.std.specs.Prelude.{Bool};

    /// Whether one entry is below another one of its key.
    ghost within: { Self → Self → Bool };

    /// Whether one entry is below another one of its key.
    fn is_within(&self, other: &Self) -> bool
        ensures { result ≡ within self.now other.now };
}

/// The places at which the comparison of two maps goes on; none where the first has an entry that isn't below one of
/// the second.
fn next<E: Ordered>(xs: &[E], i: usize, ys: &[E], j: usize) -> Option<(usize, usize)>
    requires first { i < length xs.now }
    requires second { j < length ys.now }
    ensures within { IfSome result (λ at. (at.0 ≤ length xs.now) × (at.1 ≤ length ys.now) × (i + j < at.0 + at.1)) }
    ensures goes_on { IfSome result (λ at.
        covered E.key_order E.within (drop i xs.now) (drop j ys.now)
        ≡ covered E.key_order E.within (drop at.0 xs.now) (drop at.1 ys.now)) }
    ensures ends { IfNone result (covered E.key_order E.within (drop i xs.now) (drop j ys.now) ≡ false) }
{
    let x = &xs[i];
    let y = &ys[j];
    match x.cmp_key(y) {
        Ordering::Less => None,
        Ordering::Equal => {
            if x.is_within(y) {
                return Some((i + 1, j + 1));
            }
            None
        }
        Ordering::Greater => Some((i, j + 1)),
    }
}

/// Whether each entry of the first map is below one of the second. In linear time, without asking for memory.
pub fn is_covered<E: Ordered>(xs: &[E], ys: &[E]) -> bool
    ensures { result ≡ covered E.key_order E.within xs.now ys.now }
{
    let mut i = 0;
    let mut j = 0;
    while i < xs.len() && j < ys.len() {
        match next(xs, i, ys, j) {
            Some((x, y)) => {
                i = x;
                j = y;
            }
            None => return false,
        }
    }
    i == xs.len()
}
