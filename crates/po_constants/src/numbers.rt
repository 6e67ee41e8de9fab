// Types and values of integer constants (C99 6.4.4.1).
ghost use Rattle.std.specs.Prelude.{◌≡◌, ◌<◌, ◌≤◌, IfSome, pos};
ghost use Rattle.po_arith.specs.Types.{IsIntType, IsOfType};
ghost use Rattle.po_types.specs.Integers as integers;
ghost use Rattle.po_typed.specs.Constants.{IsNumber};
ghost use Rattle.po_constants.specs.Found.{Finds};

use crate::integer::integer;
use crate::suffix::suffix;
use po_arith::{IntType, Target};
use po_types::word_bytes;

/// Whether the type holds the number.
fn holds(t: IntType, value: u64) -> bool
    requires low { 1 ≤ t.bits }
    requires high { t.bits ≤ 64 }
    ensures { result ≡ integers.holds t value }
{
    let bits = if t.signed { t.bits - 1 } else { t.bits };
    bits == 64 || value < 1 << bits
}

/// Of the types of a width that a constant may have, the first that holds it.
fn of_width(bits: u8, unsigned: bool, decimal: bool, value: u64) -> Option<IntType>
    requires low { 1 ≤ bits }
    requires high { bits ≤ 64 }
    ensures { result ≡ integers.first_to_hold value (integers.of_width unsigned decimal bits) }
{
    let signed_type = IntType { bits, signed: true };
    let unsigned_type = IntType {
        bits,
        signed: false,
    };
    if !unsigned && holds(signed_type, value) {
        return Some(signed_type);
    }
    if (unsigned || !decimal) && holds(unsigned_type, value) {
        return Some(unsigned_type);
    }
    None
}

/// The type of an integer constant of this value, with the `u` and the count of `l` of its suffix (C99 6.4.4.1p5).
fn constant_type(
    target: Target,
    unsigned: bool,
    decimal: bool,
    longs: usize,
    value: u64,
) -> Option<IntType>
    ensures { result ≡ integers.constant_type target unsigned decimal longs value }
{
    let widths = [32, 8 * word_bytes(target) as u8, 64];
    for bits in &widths[longs.min(3)..] {
        if let Some(t) = of_width(*bits, unsigned, decimal, value) {
            return Some(t);
        }
    }
    None
}

/// The type and the value of an integer constant (C99 6.4.4.1); None exactly where the text is no integer constant, or has a value that no type
/// holds which it may have. Time linear in the text.
pub fn number(text: &[u8], target: Target) -> Option<(IntType, u64)>
    ensures exact { Finds (λ p. IsNumber target text.now p.0 p.1) result }
    ensures of_type { IfSome result (λ p. IsIntType p.0 × IsOfType p.0 (pos p.1)) }
{
    let integer = integer(text)?;
    let suffix = suffix(&text[integer.row.end..])?;
    let value = integer.row.value?;
    let t = constant_type(
        target,
        suffix.unsigned,
        integer.decimal,
        suffix.longs,
        value,
    )?;
    Some((t, value))
}
