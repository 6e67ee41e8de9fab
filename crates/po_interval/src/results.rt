// The results of operations on numbers of a type (C99 6.5).
ghost use Rattle.std.specs.Prelude.{◌≡◌, ◌<◌, ◌^◌, ◌*ℤ◌, ◌+ℤ◌, ◌-ℤ◌, ◌≢◌, pos, false, true, int_div, int_rem};
ghost use Rattle.po_arith.specs.Types.{IsIntType, IsOfType};
ghost use Rattle.po_interval.specs.Ranges.{takes_count};
ghost use Rattle.po_interval.specs.Results as results;

use crate::operations::complement_from;
use po_arith::{IntType, div_trunc, limits, rem_trunc, shifted_down, shifted_up, wrap};
use po_base::{Op, UnOp};

fn is_between(low: i128, high: i128, v: i128) -> bool
    ensures { result ≡ results.is_between low high v }
{
    low <= v && v <= high
}

/// A number where it is allowed.
fn given(allowed: bool, v: i128) -> Option<i128>
    ensures { result ≡ results.given allowed v }
{
    if allowed { Some(v) } else { None }
}

/// A conversion to an unsigned type (C99 6.3.1.3p2).
fn modulo(t: IntType, v: i128) -> i128
    requires t { IsIntType t }
    requires unsigned { t.signed ≡ false }
    ensures { result ≡ results.modulo t v }
{
    wrap(v, t)
}

/// What a conversion to the type gives: to a signed one the number where it fits, to an unsigned one the
/// number modulo 2 to its width (C99 6.3.1.3).
pub fn conv(t: IntType, v: i128) -> Option<i128>
    requires { IsIntType t }
    ensures { result ≡ results.conv t v }
{
    if t.signed {
        let range = limits(t);
        given(is_between(range.lo, range.hi, v), v)
    } else {
        Some(modulo(t, v))
    }
}

/// A product of numbers of 64 bits, modulo 2 to the type's width. It may pass the signed 128 bits.
fn product_modulo(t: IntType, v: u128, w: u128) -> i128
    requires t { IsIntType t }
    requires v { v < 2 ^ 64 }
    requires w { w < 2 ^ 64 }
    ensures { result ≡ results.modulo t (pos v *ℤ pos w) }
{
    (v * w % (1 << t.bits)) as i128
}

fn sum(t: IntType, v: i128, w: i128) -> Option<i128>
    requires t { IsIntType t }
    requires v { IsOfType t v }
    requires w { IsOfType t w }
    ensures { result ≡ results.conv t (v +ℤ w) }
{
    conv(t, v + w)
}

fn difference(t: IntType, v: i128, w: i128) -> Option<i128>
    requires t { IsIntType t }
    requires v { IsOfType t v }
    requires w { IsOfType t w }
    ensures { result ≡ results.conv t (v -ℤ w) }
{
    conv(t, v - w)
}

fn product(t: IntType, v: i128, w: i128) -> Option<i128>
    requires t { IsIntType t }
    requires v { IsOfType t v }
    requires w { IsOfType t w }
    ensures { result ≡ results.conv t (v *ℤ w) }
{
    if t.signed {
        conv(t, v * w)
    } else {
        Some(product_modulo(t, v.unsigned_abs(), w.unsigned_abs()))
    }
}

/// Whether the quotient is a number that the type has (C99 6.5.5p5, p6).
fn can_divide(t: IntType, v: i128, w: i128) -> bool
    requires { IsIntType t }
    ensures { result ≡ results.can_divide t v w }
{
    w != 0 && !(t.signed && (v == limits(t).lo && w == -1))
}

fn quotient(t: IntType, v: i128, w: i128) -> Option<i128>
    requires t { IsIntType t }
    requires v { IsOfType t v }
    ensures { result ≡ results.binary Op.Div t v w }
{
    if can_divide(t, v, w) {
        conv(t, div_trunc(v, w))
    } else {
        None
    }
}

fn remainder(t: IntType, v: i128, w: i128) -> Option<i128>
    requires t { IsIntType t }
    requires v { IsOfType t v }
    ensures { result ≡ results.binary Op.Rem t v w }
{
    if can_divide(t, v, w) {
        conv(t, rem_trunc(v, w))
    } else {
        None
    }
}

/// Whether a number of the type may be shifted so far (C99 6.5.7p3).
fn is_count(t: IntType, n: i128) -> bool
    requires { IsIntType t }
    ensures { result ≡ results.is_count t n }
{
    is_between(0, (t.bits - 1) as i128, n)
}

fn left(t: IntType, v: i128, n: i128) -> Option<i128>
    requires t { IsIntType t }
    requires v { IsOfType t v }
    ensures { result ≡ results.binary Op.Shl t v n }
{
    if is_count(t, n) && 0 <= v {
        conv(t, shifted_up(v, n))
    } else {
        None
    }
}

fn right(t: IntType, v: i128, n: i128) -> Option<i128>
    requires { IsIntType t }
    ensures { result ≡ results.binary Op.Shr t v n }
{
    if is_count(t, n) {
        conv(t, shifted_down(v, n))
    } else {
        None
    }
}

/// What a comparison gives (C99 6.5.8p6, 6.5.9p3).
fn compared(t: IntType, holds: bool) -> Option<i128>
    requires { IsIntType t }
    ensures { result ≡ results.conv t (results.truth holds) }
{
    conv(t, if holds { 1 } else { 0 })
}

/// What `v op w` gives of numbers of the type, and `None` where C99 leaves it undefined (6.5.5 to 6.5.12). How
/// far to shift is any number.
pub fn binary(op: Op, t: IntType, v: i128, w: i128) -> Option<i128>
    requires t { IsIntType t }
    requires v { IsOfType t v }
    requires w { takes_count op ≡ false → IsOfType t w }
    ensures { result ≡ results.binary op t v w }
{
    match op {
        Op::Add => sum(t, v, w),
        Op::Sub => difference(t, v, w),
        Op::Mul => product(t, v, w),
        Op::Div => quotient(t, v, w),
        Op::Rem => remainder(t, v, w),
        Op::And => conv(t, v & w),
        Op::Or => conv(t, v | w),
        Op::Xor => conv(t, v ^ w),
        Op::Shl => left(t, v, w),
        Op::Shr => right(t, v, w),
        Op::Eq => compared(t, v == w),
        Op::Ne => compared(t, v != w),
        Op::Lt => compared(t, v < w),
        Op::Le => compared(t, v <= w),
        Op::Gt => compared(t, v > w),
        Op::Ge => compared(t, v >= w),
    }
}

fn un_exact(op: UnOp, t: IntType, v: i128) -> i128
    requires t { IsIntType t }
    requires v { IsOfType t v }
    ensures { result ≡ results.un_exact op t v }
{
    match op {
        UnOp::Neg => -v,
        UnOp::Not => complement_from(t) - v,
    }
}

/// What `-v` or `~v` gives of a number of the type, and `None` where C99 leaves it undefined (6.5.3.3).
pub fn unary(op: UnOp, t: IntType, v: i128) -> Option<i128>
    requires t { IsIntType t }
    requires v { IsOfType t v }
    ensures { result ≡ results.unary op t v }
{
    conv(t, un_exact(op, t, v))
}
