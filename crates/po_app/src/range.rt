ghost use Rattle.std.specs.Prelude.{◌≡◌, ◌&&◌, ◌*ℤ◌, pos, ℤ};
ghost use Rattle.po_app.specs.Predicates.{half as half_of};
ghost use Rattle.po_app.specs.Corners.{sums, differences, products};
ghost use Rattle.po_app.specs.Discharge.{has as has_number, of_type, ends_fit, stays as stays_over};
ghost use Rattle.po_app.specs.Ranges.{IsCounted, IsWidth};

use po_arith::Range;
use po_pred::Over;

/// Whether a number is between the ends.
pub(crate) fn has(range: &Range, v: i128) -> bool
    ensures { result ≡ has_number range.now v }
{
    range.lo <= v && v <= range.hi
}

/// Half of the numbers of the integer types of this width.
fn half(bits: u8) -> i128
    requires { IsWidth bits }
    ensures { result ≡ pos (half_of bits) }
{
    if bits == 64 {
        9_223_372_036_854_775_808
    } else {
        2_147_483_648
    }
}

/// Whether a number is of the signed type of this width.
fn is_of_type(bits: u8, v: i128) -> bool
    requires { IsWidth bits }
    ensures { result ≡ of_type bits v }
{
    let half = half(bits);
    -half <= v && v < half
}

/// The same of a result: one that 128 bits don't hold isn't of the type.
fn fits(bits: u8, counted: Option<i128>) -> bool
    requires { IsWidth bits }
    ensures { (z : ℤ) → IsCounted counted z → result ≡ of_type bits z }
{
    match counted {
        None => false,
        Some(v) => is_of_type(bits, v),
    }
}

fn sums_fit(bits: u8, a: &Range, b: &Range) -> bool
    requires { IsWidth bits }
    ensures { result ≡ ends_fit bits (sums a.now b.now) }
{
    fits(bits, a.lo.checked_add(b.lo)) && fits(bits, a.hi.checked_add(b.hi))
}

fn differences_fit(bits: u8, a: &Range, b: &Range) -> bool
    requires { IsWidth bits }
    ensures { result ≡ ends_fit bits (differences a.now b.now) }
{
    fits(bits, a.lo.checked_sub(b.hi)) && fits(bits, a.hi.checked_sub(b.lo))
}

/// Whether both ends times a number are of the type.
fn ends_times_fit(bits: u8, a: &Range, k: i128) -> bool
    requires { IsWidth bits }
    ensures { result ≡ (of_type bits (a.now.lo *ℤ k) && of_type bits (a.now.hi *ℤ k)) }
{
    fits(bits, a.lo.checked_mul(k)) && fits(bits, a.hi.checked_mul(k))
}

fn products_fit(bits: u8, a: &Range, b: &Range) -> bool
    requires { IsWidth bits }
    ensures { result ≡ ends_fit bits (products a.now b.now) }
{
    let low = ends_times_fit(bits, a, b.lo);
    let high = ends_times_fit(bits, a, b.hi);
    low && high
}

/// Whether the least number is never divided by -1.
fn never_least_by_minus_one(bits: u8, a: &Range, b: &Range) -> bool
    requires { IsWidth bits }
    ensures div { result ≡ stays_over Over.Div bits a.now b.now }
    ensures rem { result ≡ stays_over Over.Rem bits a.now b.now }
{
    !(has(a, -half(bits)) && has(b, -1))
}

/// Whether no result of numbers of the two ranges leaves the signed type of this width. In constant time.
pub(crate) fn stays(op: Over, bits: u8, a: &Range, b: &Range) -> bool
    requires { IsWidth bits }
    ensures { result ≡ stays_over op bits a.now b.now }
{
    match op {
        Over::Add => sums_fit(bits, a, b),
        Over::Sub => differences_fit(bits, a, b),
        Over::Mul => products_fit(bits, a, b),
        Over::Div => never_least_by_minus_one(bits, a, b),
        Over::Rem => never_least_by_minus_one(bits, a, b),
        Over::Shl | Over::Neg => false,
    }
}
