// Shifts of numbers and of their ranges (C99 6.5.7).
ghost use Rattle.std.specs.Prelude.{◌≡◌, ◌≤ℤ◌, ◌<ℤ◌, ◌^◌, pos};
ghost use Rattle.po_arith.specs.Types.{IsSmall};
ghost use Rattle.po_arith.specs.Ranges as ranges;
ghost use Rattle.po_arith.specs.Ranges.{IsShort, IsCount};
ghost use Rattle.po_arith.specs.Shifts.{IsShiftedRight, shifted_left};

use crate::range::Range;
use crate::ranges::corners;

/// `v` times 2 to the `n`, where that is at most 2^120 in size.
pub fn shift_left(v: i128, n: u8) -> i128
    requires { IsSmall (shifted_left v n) }
    ensures { result ≡ shifted_left v n }
{
    if v == 0 {
        return 0;
    }
    v * (1 << n)
}

/// `v` over 2 to the `n`, rounded down.
pub fn shift_right(v: i128, n: u8) -> i128
    ensures { IsShiftedRight v n result }
{
    v >> n.min(127)
}

/// `v` times 2 to the `n`, for a number from 0 up to 2^64 and less than 64 places.
pub fn shifted_up(v: i128, n: i128) -> i128
    requires low { pos 0 ≤ℤ v }
    requires high { v <ℤ pos (2 ^ 64) }
    requires count { pos 0 ≤ℤ n }
    requires far { n <ℤ pos 64 }
    ensures { result ≡ ranges.shifted_up v n }
{
    v * (1 << (n as u32))
}

/// The numbers that aren't negative, shifted to the left.
pub fn shifts_up(r: &Range, s: &Range) -> Option<Range>
    requires r { IsShort r.now }
    requires s { IsCount s.now }
    ensures { result ≡ ranges.shifts_up r.now s.now }
{
    if r.hi < 0 {
        return None;
    }
    Some(Range {
        lo: shifted_up(r.lo.max(0), s.lo),
        hi: shifted_up(r.hi, s.hi),
    })
}

/// `v` over 2 to the `n`, rounded down, for less than 64 places.
pub fn shifted_down(v: i128, n: i128) -> i128
    requires low { pos 0 ≤ℤ n }
    requires high { n <ℤ pos 64 }
    ensures { result ≡ ranges.shifted_down v n }
{
    v >> (n as u32)
}

/// The numbers shifted to the right, rounded down.
pub fn shifts_down(r: &Range, s: &Range) -> Range
    requires { IsCount s.now }
    ensures { result ≡ ranges.shifts_down r.now s.now }
{
    corners(
        shifted_down(r.lo, s.lo),
        shifted_down(r.lo, s.hi),
        shifted_down(r.hi, s.lo),
        shifted_down(r.hi, s.hi),
    )
}
