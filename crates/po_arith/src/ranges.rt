// The ranges in which results of numbers of two ranges lie.
ghost use Rattle.std.specs.Prelude.{◌≡◌, ◌^◌, ◌≤ℤ◌, ◌<ℤ◌, pos, ◌⊎◌, Some};
ghost use Rattle.po_arith.specs.Ranges as ranges;
ghost use Rattle.po_arith.specs.Ranges.{IsShort};

use crate::range::Range;

/// From the least to the greatest of four numbers.
pub fn corners(p: i128, q: i128, u: i128, v: i128) -> Range
    ensures { result ≡ ranges.corners p q u v }
{
    Range {
        lo: p.min(q).min(u.min(v)),
        hi: p.max(q).max(u.max(v)),
    }
}

/// The sums of numbers of two ranges.
pub fn sums(r: &Range, s: &Range) -> Range
    requires r { IsShort r.now }
    requires s { IsShort s.now }
    ensures { result ≡ ranges.sums r.now s.now }
{
    Range {
        lo: r.lo + s.lo,
        hi: r.hi + s.hi,
    }
}

/// The differences of numbers of two ranges.
pub fn differences(r: &Range, s: &Range) -> Range
    requires r { IsShort r.now }
    requires s { IsShort s.now }
    ensures { result ≡ ranges.differences r.now s.now }
{
    Range {
        lo: r.lo - s.hi,
        hi: r.hi - s.lo,
    }
}

fn both(a: Option<Range>, b: Option<Range>) -> Option<Range>
    ensures { result ≡ ranges.both a b }
{
    match a {
        None => b,
        Some(r) => match b {
            None => Some(r),
            Some(s) => Some(Range {
                lo: r.lo.min(s.lo),
                hi: r.hi.max(s.hi),
            }),
        },
    }
}

/// The quotients at the corners, by divisors of one sign.
fn quotients_by(r: &Range, s: &Range) -> Range
    requires r { IsShort r.now }
    requires low { (s.now.lo <ℤ pos 0) ⊎ (pos 0 <ℤ s.now.lo) }
    requires high { (s.now.hi <ℤ pos 0) ⊎ (pos 0 <ℤ s.now.hi) }
    ensures { Some result ≡ ranges.over r.now (Some s.now) }
{
    corners(r.lo / s.lo, r.lo / s.hi, r.hi / s.lo, r.hi / s.hi)
}

fn by_negatives(r: &Range, s: &Range) -> Option<Range>
    requires r { IsShort r.now }
    ensures { result ≡ ranges.over r.now (ranges.negatives s.now) }
{
    let hi = s.hi.min(-1);
    if s.lo <= hi {
        Some(quotients_by(r, &Range { lo: s.lo, hi }))
    } else {
        None
    }
}

fn by_positives(r: &Range, s: &Range) -> Option<Range>
    requires r { IsShort r.now }
    ensures { result ≡ ranges.over r.now (ranges.positives s.now) }
{
    let lo = s.lo.max(1);
    if lo <= s.hi {
        Some(quotients_by(r, &Range { lo, hi: s.hi }))
    } else {
        None
    }
}

/// The quotients, of which there are none where only 0 divides.
pub fn quotients(r: &Range, s: &Range) -> Option<Range>
    requires r { IsShort r.now }
    ensures { result ≡ ranges.quotients r.now s.now }
{
    both(by_negatives(r, s), by_positives(r, s))
}

/// The greatest size of a divisor, less 1.
fn most_left(s: &Range) -> i128
    requires { IsShort s.now }
    ensures value { result ≡ ranges.most_left s.now }
    ensures short { result <ℤ pos (2 ^ 64) }
{
    (-s.lo).max(s.hi) - 1
}

fn least_left(lo: i128, most: i128) -> i128
    requires low { pos 0 ≤ℤ most }
    ensures { result ≡ ranges.least_left lo most }
{
    if 0 <= lo { 0 } else { lo.max(-most) }
}

fn greatest_left(hi: i128, most: i128) -> i128
    ensures { result ≡ ranges.greatest_left hi most }
{
    if hi <= 0 { 0 } else { hi.min(most) }
}

/// The remainders, of which there are none where only 0 divides.
pub fn remainders(r: &Range, s: &Range) -> Option<Range>
    requires { IsShort s.now }
    ensures { result ≡ ranges.remainders r.now s.now }
{
    let most = most_left(s);
    if 0 <= most {
        Some(Range {
            lo: least_left(r.lo, most),
            hi: greatest_left(r.hi, most),
        })
    } else {
        None
    }
}
