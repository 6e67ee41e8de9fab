// Intervals of the results of bitwise operators (C99 6.5.10 to 6.5.12).
ghost use Rattle.std.specs.Prelude.{◌≡◌};
ghost use Rattle.po_arith.specs.Types.{IsIntType};
ghost use Rattle.po_arith.specs.Ranges.{IsShort};
ghost use Rattle.po_interval.specs.Ranges as ranges;

use po_arith::{IntType, Range, filled, limits};

/// The results of `&` (C99 6.5.10).
pub(crate) fn conjunctions(t: IntType, r: &Range, s: &Range) -> Range
    requires { IsIntType t }
    ensures { result ≡ ranges.conjunctions t r.now s.now }
{
    if 0 <= r.lo {
        let hi = if 0 <= s.lo { r.hi.min(s.hi) } else { r.hi };
        return Range { lo: 0, hi };
    }
    if 0 <= s.lo {
        return Range { lo: 0, hi: s.hi };
    }
    limits(t)
}

/// The results of `|` and of `^` (C99 6.5.11, 6.5.12).
pub(crate) fn disjunctions(t: IntType, r: &Range, s: &Range) -> Range
    requires t { IsIntType t }
    requires r { IsShort r.now }
    requires s { IsShort s.now }
    ensures { result ≡ ranges.disjunctions t r.now s.now }
{
    if 0 <= r.lo && 0 <= s.lo {
        return Range {
            lo: 0,
            hi: filled(r.hi.max(s.hi)),
        };
    }
    limits(t)
}
