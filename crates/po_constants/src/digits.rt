// Rows of digits and their values.
ghost use Rattle.std.specs.Prelude.{ℕ, ◌≡◌, ◌≤◌, ◌+◌, ◌*◌, length, drop};
ghost use Rattle.po_tree.specs.Literals.{behind_digits};
ghost use Rattle.po_typed.specs.Constants.{digits_value};
ghost use Rattle.po_constants.specs.Digits.{IsIn64};

use po_exp_parts::characters::digit;

/// A row of digits in a text: its value, where 64 bits hold it, and where the row ends.
#[derive(Clone, Copy)]
pub(crate) struct DigitRow {
    pub value: Option<u64>,
    pub end: usize,
}

/// A value with one digit more behind it.
fn with_digit(value: Option<u64>, base: u8, digit: u8) -> Option<u64>
    requires { 1 ≤ base }
    ensures { (n : ℕ) → IsIn64 value n → IsIn64 result (base * n + digit) }
{
    match value {
        None => None,
        Some(value) => match value.checked_mul(u64::from(base)) {
            None => None,
            Some(product) => product.checked_add(u64::from(digit)),
        },
    }
}

/// The digits from `at` on. Time linear in their number.
pub(crate) fn digits(text: &[u8], at: usize, base: u8) -> DigitRow
    requires place { at ≤ length text.now }
    requires base { 1 ≤ base }
    ensures within { result.end ≤ length text.now }
    ensures behind { drop result.end text.now ≡ behind_digits base (drop at text.now) }
    ensures value { IsIn64 result.value (digits_value base 0 (drop at text.now)) }
{
    let mut value = Some(0);
    let mut end = at;
    while end < text.len() && digit(text[end]) < base {
        value = with_digit(value, base, digit(text[end]));
        end += 1;
    }
    DigitRow { value, end }
}
