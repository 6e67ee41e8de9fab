// Intervals of the results of operations.
ghost use Rattle.std.specs.Prelude.{◌≡◌, ◌^◌, ◌≤ℤ◌, ◌<ℤ◌, pos, negsuc, Some, false, IfSome};
ghost use Rattle.po_arith.specs.Types.{IsIntType};
ghost use Rattle.po_arith.specs.Ranges as arith;
ghost use Rattle.po_arith.specs.Ranges.{IsShort, IsCount};
ghost use Rattle.po_interval.specs.Ranges as ranges;
ghost use Rattle.po_interval.specs.Ranges.{EndsAlike};

use crate::bits::{conjunctions, disjunctions};
use crate::conversion::{cut, part, settled};
use po_arith::{
    IntType, Interval, Range, corners, differences, limits, quotients, remainders, shifts_down,
    shifts_up, sums,
};
use po_base::{Op, UnOp};

/// What a comparison gives.
const TRUTH: Range = Range { lo: 0, hi: 1 };

/// The numbers of an interval by which a number of the type may be shifted.
fn counts(t: IntType, b: &Interval) -> Option<Range>
    requires { IsIntType t }
    ensures value { result ≡ ranges.counts t b.now }
    ensures inside { IfSome result IsCount }
{
    cut(0, (t.bits - 1) as i128, b)
}

/// The products, as far as the types reach: those of two unsigned numbers of 64 bits may pass 128 bits.
fn products(r: &Range, s: &Range) -> Range
    ensures { EndsAlike result (arith.products r.now s.now) }
{
    corners(
        r.lo.saturating_mul(s.lo),
        r.lo.saturating_mul(s.hi),
        r.hi.saturating_mul(s.lo),
        r.hi.saturating_mul(s.hi),
    )
}

/// What the type makes of all products.
fn settled_products(t: IntType, r: &Range, s: &Range) -> Option<Interval>
    requires { IsIntType t }
    ensures { result ≡ ranges.settled t (Some (arith.products r.now s.now)) }
{
    settled(t, Some(products(r, s)))
}

/// What an operation other than a shift gives of numbers of the type that lie in two intervals.
fn of_numbers(op: Op, t: IntType, r: &Range, s: &Range) -> Option<Interval>
    requires t { IsIntType t }
    requires r { IsShort r.now }
    requires s { IsShort s.now }
    ensures { ranges.takes_count op ≡ false → result ≡ ranges.settled t (ranges.outcomes op t r.now s.now) }
{
    match op {
        Op::Add => settled(t, Some(sums(r, s))),
        Op::Sub => settled(t, Some(differences(r, s))),
        Op::Mul => settled_products(t, r, s),
        Op::Div => settled(t, quotients(r, s)),
        Op::Rem => settled(t, remainders(r, s)),
        Op::And => settled(t, Some(conjunctions(t, r, s))),
        Op::Or => settled(t, Some(disjunctions(t, r, s))),
        Op::Xor => settled(t, Some(disjunctions(t, r, s))),
        Op::Shl => None,
        Op::Shr => None,
        Op::Eq => settled(t, Some(TRUTH)),
        Op::Ne => settled(t, Some(TRUTH)),
        Op::Lt => settled(t, Some(TRUTH)),
        Op::Le => settled(t, Some(TRUTH)),
        Op::Gt => settled(t, Some(TRUTH)),
        Op::Ge => settled(t, Some(TRUTH)),
    }
}

/// The shifts to the left of numbers of the type that lie in an interval, by counts of another.
fn left(t: IntType, r: Option<Range>, b: &Interval) -> Option<Interval>
    requires t { IsIntType t }
    requires r { IfSome r IsShort }
    ensures { result ≡ ranges.of_parts Op.Shl t r (ranges.counts t b.now) }
{
    match r {
        None => None,
        Some(r) => match counts(t, b) {
            None => None,
            Some(s) => settled(t, shifts_up(&r, &s)),
        },
    }
}

/// The same to the right.
fn right(t: IntType, r: Option<Range>, b: &Interval) -> Option<Interval>
    requires t { IsIntType t }
    requires r { IfSome r IsShort }
    ensures { result ≡ ranges.of_parts Op.Shr t r (ranges.counts t b.now) }
{
    match r {
        None => None,
        Some(r) => match counts(t, b) {
            None => None,
            Some(s) => settled(t, Some(shifts_down(&r, &s))),
        },
    }
}

/// Operations other than shifts.
fn numbers(op: Op, t: IntType, r: Option<Range>, s: Option<Range>) -> Option<Interval>
    requires t { IsIntType t }
    requires r { IfSome r IsShort }
    requires s { IfSome s IsShort }
    ensures { ranges.takes_count op ≡ false → result ≡ ranges.of_parts op t r s }
{
    match r {
        None => None,
        Some(r) => match s {
            None => None,
            Some(s) => of_numbers(op, t, &r, &s),
        },
    }
}

/// The interval of what `a op b` may give for numbers of the type in `a` and `b`, where nothing happens that C99 leaves
/// undefined (6.5.5 to 6.5.12). The second operand of a shift needn't be of the type. `None` where there is no result.
pub fn bin_interval(op: Op, t: IntType, a: &Interval, b: &Interval) -> Option<Interval>
    requires { IsIntType t }
    ensures { result ≡ ranges.bin_interval op t a.now b.now }
{
    match op {
        Op::Shl => left(t, part(t, a), b),
        Op::Shr => right(t, part(t, a), b),
        _ => numbers(op, t, part(t, a), part(t, b)),
    }
}

/// From where the complement is counted down (C99 6.5.3.3p4).
pub(crate) fn complement_from(t: IntType) -> i128
    requires { IsIntType t }
    ensures value { result ≡ ranges.complement_from t }
    ensures low { negsuc 0 ≤ℤ result }
    ensures high { result <ℤ pos (2 ^ 64) }
{
    if t.signed { -1 } else { limits(t).hi }
}

fn un_outcomes(op: UnOp, t: IntType, r: &Range) -> Range
    requires t { IsIntType t }
    requires r { IsShort r.now }
    ensures { result ≡ ranges.un_outcomes op t r.now }
{
    match op {
        UnOp::Neg => Range {
            lo: -r.hi,
            hi: -r.lo,
        },
        UnOp::Not => {
            let from = complement_from(t);
            Range {
                lo: from - r.hi,
                hi: from - r.lo,
            }
        }
    }
}

/// The interval of what `-a` or `~a` may give for numbers of the type in `a` (C99 6.5.3.3). `None` where there is no result.
pub fn un_interval(op: UnOp, t: IntType, a: &Interval) -> Option<Interval>
    requires { IsIntType t }
    ensures { result ≡ ranges.un_interval op t a.now }
{
    match part(t, a) {
        None => None,
        Some(r) => settled(t, Some(un_outcomes(op, t, &r))),
    }
}
