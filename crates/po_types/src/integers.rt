// The integer types of a target, their sizes, promotions and usual conversions (C99 6.2.5, 6.3.1).
ghost use Rattle.std.specs.Prelude.{◌≡◌, ◌≤◌, ◌<◌};
ghost use Rattle.po_arith.specs.Types.{IsIntType};
ghost use Rattle.po_types.specs.Integers as integers;

use po_arith::{IntType, Target};

/// The bytes of a long, of a pointer and of `size_t`, which are their alignment too.
pub fn word_bytes(target: Target) -> u64
    ensures { result ≡ integers.word_bytes target }
{
    match target {
        Target::L64 => 8,
    }
}

/// The type `_Bool`.
pub const BOOL: IntType = IntType {
    bits: 1,
    signed: false,
};

/// The type `char`.
pub const CHAR: IntType = IntType {
    bits: 8,
    signed: true,
};

/// The type of `sizeof` (C99 7.17).
pub fn size_type(target: Target) -> IntType
    ensures { result ≡ integers.size_type target }
{
    match target {
        Target::L64 => IntType {
            bits: 64,
            signed: false,
        },
    }
}

/// The type of the difference of two pointers (C99 7.17).
pub fn difference_type(target: Target) -> IntType
    ensures { result ≡ integers.difference_type target }
{
    match target {
        Target::L64 => IntType {
            bits: 64,
            signed: true,
        },
    }
}

/// The greatest number of `ptrdiff_t`: no object has more bytes.
pub fn most_bytes(target: Target) -> u64
    ensures { result ≡ integers.most_bytes target }
{
    match target {
        Target::L64 => i64::MAX as u64,
    }
}

/// How many bytes a number of the type takes.
pub fn int_bytes(t: IntType) -> u64
    ensures { result ≡ integers.int_bytes t }
{
    (t.bits as u64 + 7) / 8
}

/// Integer promotion (C99 6.3.1.1p2).
pub fn promoted(t: IntType) -> IntType
    ensures { result ≡ integers.promoted t }
{
    if t.bits < 32 { IntType::INT } else { t }
}

/// The type to which the usual arithmetic conversions bring two integer types (C99 6.3.1.8).
pub fn common(a: IntType, b: IntType) -> IntType
    ensures { result ≡ integers.common a b }
{
    balanced(promoted(a), promoted(b))
}

/// The same of two promoted types.
fn balanced(a: IntType, b: IntType) -> IntType
    ensures { result ≡ integers.balanced a b }
{
    if a.signed {
        return if b.signed {
            greater_rank(a, b)
        } else {
            of_two_signs(b, a)
        };
    }
    if b.signed {
        return of_two_signs(a, b);
    }
    greater_rank(a, b)
}

/// Of two types of one sign the one of the greater rank.
fn greater_rank(a: IntType, b: IntType) -> IntType
    ensures { result ≡ integers.greater_rank a b }
{
    if a.bits < b.bits { b } else { a }
}

/// The same of an unsigned and a signed one.
fn of_two_signs(u: IntType, s: IntType) -> IntType
    ensures { result ≡ integers.of_two_signs u s }
{
    if u.bits < s.bits { s } else { u }
}
