// The digits of integer constants (C99 6.4.4.1).
ghost use Rattle.std.specs.Prelude.{◌≡◌, ◌≤◌, ◌+◌, ◌<◌, ◌∷◌, MatchOption, MatchBool, Some, None, length, drop};
ghost use Rattle.po_tree.specs.Literals.{behind_zero, behind_integer, behind_digits};
ghost use Rattle.po_typed.specs.Constants.{integer_value, is_decimal, digits_value};
ghost use Rattle.po_constants.specs.Digits.{IsIn64};
ghost use Rattle.po_constants.specs.Integers.{IsHexadecimal};

use crate::digits::{DigitRow, digits};
use po_exp_parts::characters::digit;

/// The digits of an integer constant, and whether they are decimal.
#[derive(Clone, Copy)]
pub(crate) struct IntegerDigits {
    pub row: DigitRow,
    pub decimal: bool,
}

/// Whether a text begins with `0x` and a hexadecimal digit.
fn is_hexadecimal(text: &[u8]) -> bool
    ensures { MatchBool result (IsHexadecimal text.now) (IsHexadecimal text.now → ⊥) }
{
    if text.len() < 3 || text[0] != b'0' {
        return false;
    }
    if text[1] != b'x' && text[1] != b'X' {
        return false;
    }
    digit(text[2]) < 16
}

/// The digits of an integer constant, where a text begins with one: hexadecimal, octal or decimal (C99 6.4.4.1p3, p4).
/// Time linear in their number.
pub(crate) fn integer(text: &[u8]) -> Option<IntegerDigits>
    ensures behind { MatchOption result (behind_integer text.now ≡ None) (λ i. (i.row.end ≤ length text.now) × (behind_integer text.now ≡ Some (drop i.row.end text.now))) }
    ensures value { MatchOption result (behind_integer text.now ≡ None) (λ i. IsIn64 i.row.value (integer_value text.now) × (i.decimal ≡ is_decimal text.now)) }
{
    if text.is_empty() {
        return None;
    }
    if is_hexadecimal(text) {
        return Some(IntegerDigits {
            row: digits(text, 2, 16),
            decimal: false,
        });
    }
    if text[0] == b'0' {
        return Some(IntegerDigits {
            row: digits(text, 0, 8),
            decimal: false,
        });
    }
    if digit(text[0]) < 10 {
        return Some(IntegerDigits {
            row: digits(text, 0, 10),
            decimal: true,
        });
    }
    None
}
