ghost use Rattle.std.specs.Prelude.{ℕ, ◌≡◌, ◌≤◌, ◌<◌, ◌+◌, ◌-◌, ◌↔◌, IsTrue, All, length, take, drop, ◌∷◌, [], MatchOption};
ghost use Rattle.po_straight.specs.Spelling.{IsBlank, IsDigit, IsNondigit, IsWordByte, newlines, BeginsWithWordByte};

/// Whether a byte is a space, a tab or a newline.
pub(crate) fn is_blank(byte: u8) -> bool
    ensures { IsTrue result ↔ IsBlank byte }
{
    byte == b' ' || byte == b'\t' || byte == b'\n'
}

/// Whether a byte is a letter or `_`.
pub(crate) fn is_nondigit(byte: u8) -> bool
    ensures { IsTrue result ↔ IsNondigit byte }
{
    byte.is_ascii_alphabetic() || byte == b'_'
}

/// Whether a byte may stand in a name, a keyword or a constant.
pub(crate) fn is_word_byte(byte: u8) -> bool
    ensures { IsTrue result ↔ IsWordByte byte }
{
    byte.is_ascii_digit() || is_nondigit(byte)
}

/// The digit that a byte writes.
pub(crate) fn digit(byte: u8) -> Option<u64>
    ensures { MatchOption result (IsDigit byte → ⊥) (λ d. (d < 10) × (byte ≡ 48 + d)) }
{
    if byte.is_ascii_digit() {
        Some(u64::from(byte - b'0'))
    } else {
        None
    }
}

/// How many lines a byte ends: 1 for a newline, 0 for any other.
pub(crate) fn lines_ended(byte: u8) -> u32
    ensures { result ≡ newlines (byte ∷ []) }
{
    if byte == b'\n' { 1 } else { 0 }
}

/// Where the word bytes from `at` on end. Time linear in their number.
pub(crate) fn word_end(bytes: &[u8], at: usize) -> usize
    requires { at ≤ length bytes.now }
    ensures after { at ≤ result }
    ensures within { result ≤ length bytes.now }
    ensures word { All IsWordByte (take (result - at) (drop at bytes.now)) }
    ensures ended { BeginsWithWordByte (drop result bytes.now) → ⊥ }
{
    let mut end = at;
    while end < bytes.len() && is_word_byte(bytes[end]) {
        end += 1;
    }
    end
}
