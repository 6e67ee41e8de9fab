// What operators make of constants (C99 6.5).
ghost use Rattle.std.specs.Prelude.{ℕ, ◌≡◌, ◌<◌, ◌≤◌, ◌^◌, ◌≢◌, true, false, pos, ◌*ℤ◌, MatchBool};
ghost use Rattle.std.specs.Int.{int_rem_euclid};
ghost use Rattle.po_arith.specs.Types.{IsIntType, IsOfType};
ghost use Rattle.po_arith.specs.Shifts.{shifted_left};
ghost use Rattle.po_base.specs.declared.operators.Op.TheVariants as op;
ghost use Rattle.po_typed.specs.Constants as constants;
ghost use Rattle.po_typed.specs.Constants.{Kept, Computes, Shifts, Compares, Holds};
ghost use Rattle.po_constants.specs.Found.{Finds};

use crate::converting::kept;
use po_arith::{
    IntType, bits_and, bits_or, bits_xor, div_trunc, limits, rem_trunc, shift_right, wrap,
};
use po_base::Op;

/// What is left of a product modulo 2 to the type's width. The product may pass the signed 128 bits.
fn product_modulo(t: IntType, v: u128, w: u128) -> i128
    requires t { IsIntType t }
    requires v { v < 2 ^ 64 }
    requires w { w < 2 ^ 64 }
    ensures { result ≡ int_rem_euclid (pos v *ℤ pos w) (pos (2 ^ t.bits)) }
{
    (v * w % (1 << t.bits)) as i128
}

fn product(t: IntType, v: i128, w: i128) -> Option<i128>
    requires t { IsIntType t }
    requires v { IsOfType t v }
    requires w { IsOfType t w }
    ensures { Finds (Kept t (v *ℤ w)) result }
{
    if t.signed {
        kept(t, v * w)
    } else {
        Some(product_modulo(t, v.unsigned_abs(), w.unsigned_abs()))
    }
}

fn quotient(t: IntType, v: i128, w: i128) -> Option<i128>
    requires t { IsIntType t }
    requires v { IsOfType t v }
    ensures { Finds (Computes op.Div t v w) result }
{
    if w == 0 {
        return None;
    }
    kept(t, div_trunc(v, w))
}

/// A remainder is none where the quotient is none (C99 6.5.5p6).
fn remainder(t: IntType, v: i128, w: i128) -> Option<i128>
    requires t { IsIntType t }
    requires v { IsOfType t v }
    ensures { Finds (Computes op.Rem t v w) result }
{
    match quotient(t, v, w) {
        None => None,
        Some(_) => kept(t, rem_trunc(v, w)),
    }
}

/// What an operator makes of two numbers of the type, exactly (C99 6.5.5 to 6.5.12): None where it divides by 0, where a result of a signed
/// type doesn't fit, and for other operators. Constant time.
pub fn computes(op: Op, t: IntType, v: i128, w: i128) -> Option<i128>
    requires t { IsIntType t }
    requires v { IsOfType t v }
    requires w { IsOfType t w }
    ensures { Finds (Computes op t v w) result }
{
    match op {
        Op::Add => kept(t, v + w),
        Op::Sub => kept(t, v - w),
        Op::Mul => product(t, v, w),
        Op::Div => quotient(t, v, w),
        Op::Rem => remainder(t, v, w),
        Op::And => Some(bits_and(v, w)),
        Op::Or => Some(bits_or(v, w)),
        Op::Xor => Some(bits_xor(v, w)),
        _ => None,
    }
}

/// All bits of a number of the type inverted (C99 6.5.3.3p4). Constant time.
pub fn complemented(t: IntType, v: i128) -> i128
    requires t { IsIntType t }
    requires v { IsOfType t v }
    ensures value { result ≡ constants.complemented t v }
    ensures of_type { IsOfType t result }
{
    if t.signed { -1 - v } else { limits(t).hi - v }
}

/// 2 to a number below 64.
fn power(n: u8) -> i128
    requires { n < 64 }
    ensures { result ≡ pos (2 ^ n) }
{
    1 << n
}

/// A number of the type shifted to the left by less than the width: 128 bits hold the result.
fn to_the_left(t: IntType, v: i128, n: u8) -> i128
    requires t { IsIntType t }
    requires v { IsOfType t v }
    requires n { n < t.bits }
    ensures { result ≡ shifted_left v n }
{
    v * power(n)
}

/// A shift of a number of the type (C99 6.5.7): None where the count isn't less than the width, where a result of a signed type doesn't fit, and for
/// other operators. Constant time.
pub fn shifts(op: Op, t: IntType, v: i128, n: u64) -> Option<i128>
    requires t { IsIntType t }
    requires v { IsOfType t v }
    ensures { Finds (Shifts op t v n) result }
{
    if n >= u64::from(t.bits) {
        return None;
    }
    let count = n as u8;
    match op {
        Op::Shl => kept(t, to_the_left(t, v, count)),
        Op::Shr => Some(shift_right(v, count)),
        _ => None,
    }
}

/// Whether a comparison holds (C99 6.5.8p6, 6.5.9p3); of other operators none does.
fn holds(op: Op, v: i128, w: i128) -> bool
    ensures { MatchBool result (Holds op v w) (Holds op v w → ⊥) }
{
    match op {
        Op::Eq => v == w,
        Op::Ne => v != w,
        Op::Lt => v < w,
        Op::Le => v <= w,
        Op::Gt => v > w,
        Op::Ge => v >= w,
        _ => false,
    }
}

/// What a comparison gives: 1 where it holds, else 0 (C99 6.5.8p6, 6.5.9p3). Constant time.
pub fn compares(op: Op, v: i128, w: i128) -> i128
    ensures { Compares op v w result }
{
    if holds(op, v, w) { 1 } else { 0 }
}
