// Whether numbers are values of a type.
ghost use Rattle.std.specs.Prelude.{◌≡◌, ◌&&◌, nat_lt, int_le, pos, neg_ℤ, ◌^◌, ◌-◌};
ghost use Rattle.po_lowering.specs.Types as types;

use po_arith::IntType;

/// Whether a number is below a power of 2.
fn is_below_power(n: u128, exponent: u8) -> bool
    ensures { result ≡ nat_lt n (2 ^ exponent) }
{
    if exponent >= 128 {
        return true;
    }
    n >> exponent == 0
}

/// Whether a number is one of an unsigned type of so many bits.
fn fits_unsigned(bits: u8, n: i128) -> bool
    ensures { result ≡ (int_le (pos 0) n && int_le n (pos (2 ^ bits - 1))) }
{
    if n < 0 {
        return false;
    }
    is_below_power(n as u128, bits)
}

/// Whether a number is one of a signed type of so many bits.
fn fits_signed(bits: u8, n: i128) -> bool
    ensures { result ≡ (int_le (neg_ℤ (pos (2 ^ (bits - 1)))) n && int_le n (pos (2 ^ (bits - 1) - 1))) }
{
    let exponent = bits.saturating_sub(1);
    if n < 0 {
        return is_below_power(-(n + 1) as u128, exponent);
    }
    is_below_power(n as u128, exponent)
}

/// Whether a number is a value of a type (C99 6.2.6.2), whatever its width. In constant time.
pub fn fits(t: IntType, n: i128) -> bool
    ensures { result ≡ types.fits t n }
{
    if t.signed {
        return fits_signed(t.bits, n);
    }
    fits_unsigned(t.bits, n)
}

/// Whether every value of the first type is one of the second (C99 6.3.1.3p1), by their widths and signs.
pub fn is_kept(s: IntType, t: IntType) -> bool
    ensures { result ≡ types.is_kept s t }
{
    if s.signed {
        if t.signed {
            return s.bits <= t.bits;
        }
        return false;
    }
    if t.signed {
        return s.bits < t.bits;
    }
    s.bits <= t.bits
}
