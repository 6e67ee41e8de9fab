// Quotients and remainders (C99 6.5.5).
ghost use Rattle.std.specs.Prelude.{◌≡◌, ◌≢◌, pos};
ghost use Rattle.std.specs.Int.RustNames.{int_div, int_rem};
ghost use Rattle.po_arith.specs.Types.{IsSmall};

/// The quotient without its fraction (C99 6.5.5p6). `a` is at most 2^120 in size and `b` isn't 0.
pub fn div_trunc(a: i128, b: i128) -> i128
    requires a { IsSmall a }
    requires b { b ≢ pos 0 }
    ensures { result ≡ int_div a b }
{
    a / b
}

/// The remainder, which has the sign of `a` or is 0 (C99 6.5.5p6). `a` is at most 2^120 in size and `b` isn't 0.
pub fn rem_trunc(a: i128, b: i128) -> i128
    requires a { IsSmall a }
    requires b { b ≢ pos 0 }
    ensures { result ≡ int_rem a b }
{
    a % b
}
