// What the bitwise operators make of numbers (C99 6.5.10 to 6.5.12).
ghost use Rattle.std.specs.Prelude.{◌≡◌, ◌≤ℤ◌, ◌<ℤ◌, ◌^◌, pos};
ghost use Rattle.po_arith.specs.Bits as bits;
ghost use Rattle.po_arith.specs.Bits.{IsAnd, IsOr, IsXor};

/// Bit by bit, 1 where both have 1, in two's complement (C99 6.5.10).
pub fn bits_and(a: i128, b: i128) -> i128
    ensures { IsAnd a b result }
{
    a & b
}

/// Bit by bit, 1 where one or both have 1, in two's complement (C99 6.5.12).
pub fn bits_or(a: i128, b: i128) -> i128
    ensures { IsOr a b result }
{
    a | b
}

/// Bit by bit, 1 where just one has 1, in two's complement (C99 6.5.11).
pub fn bits_xor(a: i128, b: i128) -> i128
    ensures { IsXor a b result }
{
    a ^ b
}

/// The greatest number of as many bits as `v` needs, which is below 2^64 and not negative.
pub fn filled(v: i128) -> i128
    requires low { pos 0 ≤ℤ v }
    requires high { v <ℤ pos (2 ^ 64) }
    ensures { result ≡ bits.filled v }
{
    (1 << (128 - v.leading_zeros())) - 1
}
