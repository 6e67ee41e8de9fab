// Whether results stay within a type.
ghost use Rattle.std.specs.Prelude.{ℕ, ℤ, ◌≡◌, ◌≢◌, ◌↔◌, ◌≤◌, ◌-◌, ◌^◌, ◌≤ℤ◌, ◌<ℤ◌, ◌+ℤ◌, ◌-ℤ◌, ◌*ℤ◌, neg_ℤ, pos, negsuc, IsTrue};
ghost use Rattle.po_memory.specs.Blocks.{IsOfWidth, IsShifted, StaysIn, half};
ghost use Rattle.po_memory.specs.Values.{EachNumber, EachSecond};
ghost use Rattle.po_pred.specs.declared.pred.Over.TheVariants as over;
ghost use Rattle.po_holds.specs.Choosing.{AreSome, IsOneOf, greatest, least};
ghost use Rattle.po_holds.specs.Over.{EachOne, EachStays, EndsStay, EachTwo, IsPower, sum_of};

use crate::choosing::{Numbers, numbers_of, second_of};
use crate::exact::is_negative;
use po_memory::Frame;
use po_pred::{Over, Place};

/// The sum of `a` times `w`, `b` times `x`, `c` times `y` and `d` times `z`.
#[derive(Clone, Copy, Debug)]
struct Sum {
    a: i128,
    w: i128,
    b: i128,
    x: i128,
    c: i128,
    y: i128,
    d: i128,
    z: i128,
}

/// Less a power of 2, as the sum of `first` and `more`, each times `second`.
#[derive(Clone, Copy, Debug)]
struct Power {
    first: i128,
    more: i128,
    second: i128,
}

fn two_to(n: u8) -> i128
    requires { n ≤ 126 }
    ensures { result ≡ pos (2 ^ n) }
{
    1 << n
}

fn power_of(n: u8) -> Power
    requires { n ≤ 254 }
    ensures { IsPower n result }
{
    if n <= 126 {
        return Power {
            first: -1,
            more: 0,
            second: two_to(n),
        };
    }
    if n == 254 {
        return Power {
            first: i128::MIN,
            more: i128::MIN,
            second: two_to(126),
        };
    }
    Power {
        first: i128::MIN,
        more: 0,
        second: two_to(n - 127),
    }
}

/// Whether the sum of four products is a number of the signed type of this width.
fn is_of_width(bits: u8, sum: &Sum) -> bool
    ensures { IsTrue result ↔ IsOfWidth bits (sum_of sum.now) }
{
    let half = power_of(bits.saturating_sub(1));
    if is_negative(&[
        (sum.a, sum.w),
        (sum.b, sum.x),
        (sum.c, sum.y),
        (sum.d, sum.z),
        (half.first, -half.second),
        (half.more, -half.second),
    ]) {
        return false;
    }
    is_negative(&[
        (sum.a, sum.w),
        (sum.b, sum.x),
        (sum.c, sum.y),
        (sum.d, sum.z),
        (half.first, half.second),
        (half.more, half.second),
    ])
}

fn sums_stay(bits: u8, v: &Numbers, w: &Numbers) -> bool
    requires v { AreSome v.now }
    requires w { AreSome w.now }
    ensures { IsTrue result ↔ EachStays over.Add bits v.now w.now }
{
    if !is_of_width(
        bits,
        &Sum {
            a: 1,
            w: v.base,
            b: 1,
            x: v.lo,
            c: 1,
            y: w.base,
            d: 1,
            z: w.lo,
        },
    ) {
        return false;
    }
    is_of_width(
        bits,
        &Sum {
            a: 1,
            w: v.base,
            b: 1,
            x: v.hi,
            c: 1,
            y: w.base,
            d: 1,
            z: w.hi,
        },
    )
}

fn differences_stay(bits: u8, v: &Numbers, w: &Numbers) -> bool
    requires v { AreSome v.now }
    requires w { AreSome w.now }
    ensures { IsTrue result ↔ EachStays over.Sub bits v.now w.now }
{
    if !is_of_width(
        bits,
        &Sum {
            a: 1,
            w: v.base,
            b: 1,
            x: v.lo,
            c: -1,
            y: w.base,
            d: -1,
            z: w.hi,
        },
    ) {
        return false;
    }
    is_of_width(
        bits,
        &Sum {
            a: 1,
            w: v.base,
            b: 1,
            x: v.hi,
            c: -1,
            y: w.base,
            d: -1,
            z: w.lo,
        },
    )
}

/// Whether the product of a number of the one and a number of the other is of this width.
fn product_stays(bits: u8, v: &Numbers, x: &i128, w: &Numbers, y: &i128) -> bool
    ensures { IsTrue result ↔ IsOfWidth bits ((v.now.base +ℤ x.now) *ℤ (w.now.base +ℤ y.now)) }
{
    is_of_width(
        bits,
        &Sum {
            a: v.base,
            w: w.base,
            b: v.base,
            x: *y,
            c: *x,
            y: w.base,
            d: *x,
            z: *y,
        },
    )
}

/// Whether the products of one number with both ends of the others are of this width.
fn products_of_stay(bits: u8, v: &Numbers, x: &i128, w: &Numbers) -> bool
    ensures { IsTrue result ↔ EndsStay bits (v.now.base +ℤ x.now) w.now }
{
    if !product_stays(bits, v, x, w, &w.lo) {
        return false;
    }
    product_stays(bits, v, x, w, &w.hi)
}

fn products_stay(bits: u8, v: &Numbers, w: &Numbers) -> bool
    requires v { AreSome v.now }
    requires w { AreSome w.now }
    ensures { IsTrue result ↔ EachStays over.Mul bits v.now w.now }
{
    if !products_of_stay(bits, v, &v.lo, w) {
        return false;
    }
    products_of_stay(bits, v, &v.hi, w)
}

fn negations_stay(bits: u8, v: &Numbers) -> bool
    requires { AreSome v.now }
    ensures { IsTrue result ↔ EachOne v.now (λ x. IsOfWidth bits (neg_ℤ x)) }
{
    if !is_of_width(
        bits,
        &Sum {
            a: -1,
            w: v.base,
            b: -1,
            x: v.lo,
            c: 0,
            y: 0,
            d: 0,
            z: 0,
        },
    ) {
        return false;
    }
    is_of_width(
        bits,
        &Sum {
            a: -1,
            w: v.base,
            b: -1,
            x: v.hi,
            c: 0,
            y: 0,
            d: 0,
            z: 0,
        },
    )
}

/// Whether the least number of the signed type of this width is one of these.
fn have_least(bits: u8, v: &Numbers) -> bool
    ensures { IsTrue result ↔ IsOneOf v.now (neg_ℤ (pos (half bits))) }
{
    let half = power_of(bits.saturating_sub(1));
    if is_negative(&[
        (-1, v.base),
        (-1, v.lo),
        (half.first, half.second),
        (half.more, half.second),
    ]) {
        return false;
    }
    !is_negative(&[
        (1, v.base),
        (1, v.hi),
        (half.first, -half.second),
        (half.more, -half.second),
    ])
}

/// Whether -1 is one of these.
fn have_minus_one(w: &Numbers) -> bool
    ensures { IsTrue result ↔ IsOneOf w.now (negsuc 0) }
{
    if is_negative(&[(-1, w.base), (-1, w.lo), (-1, 1)]) {
        return false;
    }
    !is_negative(&[(1, w.base), (1, w.hi), (1, 1)])
}

/// Whether the least number of this width is never divided by -1.
fn quotients_stay(bits: u8, v: &Numbers, w: &Numbers) -> bool
    ensures { IsTrue result ↔ EachStays over.Div bits v.now w.now }
{
    if have_least(bits, v) {
        return !have_minus_one(w);
    }
    true
}

/// How many bits are left of a width, less its sign, by a shift of these.
fn room(bits: u8, w: &Numbers) -> u8
    requires { pos 0 ≤ℤ greatest w.now }
    ensures left { (n : ℕ) → greatest w.now ≡ pos n → result ≡ bits - 1 - n }
    ensures few { result ≤ 254 }
{
    let all = bits.saturating_sub(1);
    match w.base.checked_add(w.hi) {
        None => 0,
        Some(count) => {
            if all as i128 <= count {
                return 0;
            }
            all - count as u8
        }
    }
}

/// Whether all these are less than 2 to the n-th.
fn are_below(n: u8, v: &Numbers) -> bool
    requires { n ≤ 254 }
    ensures { IsTrue result ↔ (greatest v.now <ℤ pos (2 ^ n)) }
{
    let power = power_of(n);
    is_negative(&[
        (1, v.base),
        (1, v.hi),
        (power.first, power.second),
        (power.more, power.second),
    ])
}

fn shifts_stay(bits: u8, v: &Numbers, w: &Numbers) -> bool
    requires v { AreSome v.now }
    requires w { AreSome w.now }
    ensures { IsTrue result ↔ EachStays over.Shl bits v.now w.now }
{
    if is_negative(&[(1, v.base), (1, v.lo)]) {
        return false;
    }
    if is_negative(&[(1, w.base), (1, w.lo)]) {
        return false;
    }
    are_below(room(bits, w), v)
}

fn stays_in(op: Over, bits: u8, v: &Numbers, w: &Numbers) -> bool
    requires v { AreSome v.now }
    requires w { AreSome w.now }
    ensures { IsTrue result ↔ EachStays op bits v.now w.now }
{
    match op {
        Over::Add => sums_stay(bits, v, w),
        Over::Sub => differences_stay(bits, v, w),
        Over::Mul => products_stay(bits, v, w),
        Over::Div => quotients_stay(bits, v, w),
        Over::Rem => quotients_stay(bits, v, w),
        Over::Shl => shifts_stay(bits, v, w),
        Over::Neg => negations_stay(bits, v),
    }
}

/// Whether no result of the operator leaves the signed type of this width.
pub(crate) fn no_over(f: &Frame, op: Over, bits: u8, a: &Place, b: &Option<Place>) -> bool
    ensures { IsTrue result ↔ EachNumber f.now a.now (λ v. EachSecond f.now b.now (λ w. StaysIn op bits v w)) }
{
    match numbers_of(f, a) {
        Err(answer) => answer,
        Ok(v) => match second_of(f, b) {
            Err(answer) => answer,
            Ok(w) => stays_in(op, bits, &v, &w),
        },
    }
}

/// Whether all numbers are less than 0, or all greater.
fn miss_zero(r: &Numbers) -> bool
    requires { AreSome r.now }
    ensures { IsTrue result ↔ EachOne r.now (λ z. z ≢ pos 0) }
{
    if is_negative(&[(1, r.base), (1, r.hi)]) {
        return true;
    }
    is_negative(&[(-1, r.base), (-1, r.lo)])
}

pub(crate) fn nonzero(f: &Frame, x: &Place) -> bool
    ensures { IsTrue result ↔ EachNumber f.now x.now (λ z. z ≢ pos 0) }
{
    match numbers_of(f, x) {
        Err(answer) => answer,
        Ok(r) => miss_zero(&r),
    }
}

/// Whether all numbers lie between two.
fn lie_in(r: &Numbers, lo: &i128, hi: &i128) -> bool
    requires { AreSome r.now }
    ensures { IsTrue result ↔ EachOne r.now (λ z. (lo.now ≤ℤ z) × (z ≤ℤ hi.now)) }
{
    if is_negative(&[(1, r.base), (1, r.lo), (-1, *lo)]) {
        return false;
    }
    !is_negative(&[(1, *hi), (-1, r.base), (-1, r.hi)])
}

pub(crate) fn int_in(f: &Frame, x: &Place, lo: &i128, hi: &i128) -> bool
    ensures { IsTrue result ↔ EachNumber f.now x.now (λ z. (lo.now ≤ℤ z) × (z ≤ℤ hi.now)) }
{
    match numbers_of(f, x) {
        Err(answer) => answer,
        Ok(r) => lie_in(&r, lo, hi),
    }
}
