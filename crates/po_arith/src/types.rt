// The numbers of an integer type: limits, what fits, and wrapping (C99 6.2.6.2, 6.3.1.3).
ghost use Rattle.std.specs.Prelude.{◌≡◌, ◌^◌, ◌≤◌, ◌↔◌, IsTrue, pos};
ghost use Rattle.po_arith.specs.Types as types;
ghost use Rattle.po_arith.specs.Types.{IsIntType, IsOfType, IsWrapped};

use crate::int_type::IntType;
use crate::range::Range;

/// 2 to a number of bits.
fn power(bits: u8) -> i128
    requires { bits ≤ 64 }
    ensures { result ≡ pos (2 ^ bits) }
{
    1 << bits
}

/// The numbers of an integer type, from the least to the greatest (C99 6.2.6.2).
pub fn limits(t: IntType) -> Range
    requires { IsIntType t }
    ensures least { result.lo ≡ types.least t }
    ensures greatest { result.hi ≡ types.greatest t }
{
    if t.signed {
        let half = power(t.bits - 1);
        return Range {
            lo: -half,
            hi: half - 1,
        };
    }
    Range {
        lo: 0,
        hi: power(t.bits) - 1,
    }
}

/// Whether a number is one of the type.
pub fn fits(v: i128, t: IntType) -> bool
    requires { IsIntType t }
    ensures { IsTrue result ↔ IsOfType t v }
{
    let range = limits(t);
    range.lo <= v && v <= range.hi
}

/// The one number of the type that is congruent to `v` modulo 2 to the type's width (C99 6.3.1.3p2).
pub fn wrap(v: i128, t: IntType) -> i128
    requires { IsIntType t }
    ensures { IsWrapped t v result }
{
    let count = power(t.bits);
    let rest = v.rem_euclid(count);
    if rest <= limits(t).hi {
        return rest;
    }
    rest - count
}
