// Characters of character constants and string literals, with their values.
ghost use Rattle.std.specs.Prelude.{ℕ, List, ◌≡◌, ◌≤◌, ◌<◌, ◌+◌, ◌*◌, SomeIff, IfSome, MatchBool, length, drop, ◌∷◌, [], ◌↔◌, IsTrue};
ghost use Rattle.po_tree.specs.Literals as literals;
ghost use Rattle.po_exp_parts.specs.Remains.{read_at};

/// The value of a digit (C99 6.4.4.1); 16 where the byte is none.
pub fn digit(byte: u8) -> u8
    ensures { result ≡ literals.digit byte }
{
    match byte {
        b'0'..=b'9' => byte - b'0',
        b'a'..=b'f' => byte - b'a' + 10,
        b'A'..=b'F' => byte - b'A' + 10,
        _ => 16,
    }
}

/// A character of a literal (C99 6.4.4.4, 6.4.5).
#[derive(Clone, Copy)]
pub struct FirstCharacter {
    /// Its value.
    pub value: u8,
    /// The place behind it.
    pub end: usize,
}

/// The value of a simple escape, by the byte behind the backslash (C99 6.4.4.4p3).
fn simple(byte: u8) -> Option<u8>
    ensures { result ≡ literals.simple byte }
{
    match byte {
        b'\'' | b'"' | b'?' | b'\\' => Some(byte),
        b'a' => Some(7),
        b'b' => Some(8),
        b't' => Some(9),
        b'n' => Some(10),
        b'v' => Some(11),
        b'f' => Some(12),
        b'r' => Some(13),
        _ => None,
    }
}

/// The value of an escape with one digit more; None where it passes 255 (C99 6.4.4.4p9).
fn longer(value: u8, base: u8, digit: u8) -> Option<u8>
    ensures { SomeIff result (base * value + digit ≤ 255) (base * value + digit) }
{
    value.checked_mul(base)?.checked_add(digit)
}

/// The row of at most `most` digits from `at` on; None where its value passes 255. Time linear in the row.
fn row(text: &[u8], at: usize, base: u8, most: usize) -> Option<FirstCharacter>
    requires { at ≤ length text.now }
    ensures within { IfSome result (λ c. (at ≤ c.end) × (c.end ≤ length text.now)) }
    ensures exact { read_at text.now result ≡ literals.row base most 0 (drop at text.now) }
{
    let mut value = 0u8;
    let mut left = most;
    let mut end = at;
    while left > 0 && end < text.len() && digit(text[end]) < base {
        value = longer(value, base, digit(text[end]))?;
        left -= 1;
        end += 1;
    }
    Some(FirstCharacter { value, end })
}

/// The escape whose backslash stands before `at` (C99 6.4.4.4).
fn escape(text: &[u8], at: usize) -> Option<FirstCharacter>
    requires { at ≤ length text.now }
    ensures within { IfSome result (λ c. (at ≤ c.end) × (c.end ≤ length text.now)) }
    ensures exact { read_at text.now result ≡ literals.escape (drop at text.now) }
{
    if at >= text.len() {
        return None;
    }
    if digit(text[at]) < 8 {
        return row(text, at, 8, 3);
    }
    if text[at] == b'x' {
        return hexadecimal(text, at + 1);
    }
    match simple(text[at]) {
        None => None,
        Some(value) => Some(FirstCharacter { value, end: at + 1 }),
    }
}

/// The hexadecimal digits behind `\x`, one at least.
fn hexadecimal(text: &[u8], at: usize) -> Option<FirstCharacter>
    requires { at ≤ length text.now }
    ensures within { IfSome result (λ c. (at ≤ c.end) × (c.end ≤ length text.now)) }
    ensures exact { read_at text.now result ≡ literals.hexadecimal (drop at text.now) }
{
    if at >= text.len() {
        return None;
    }
    if digit(text[at]) < 16 {
        return row(text, at, 16, text.len() - at);
    }
    None
}

/// The character at `at` of a literal with this quote (C99 6.4.4.4, 6.4.5); None where none stands there.
pub fn first_character(text: &[u8], at: usize, quote: u8) -> Option<FirstCharacter>
    requires { at ≤ length text.now }
    ensures within { IfSome result (λ c. (at < c.end) × (c.end ≤ length text.now)) }
    ensures exact { read_at text.now result ≡ literals.first_character quote (drop at text.now) }
{
    if at >= text.len() {
        return None;
    }
    if text[at] == b'\\' {
        return escape(text, at + 1);
    }
    if text[at] == quote || text[at] == b'\n' {
        return None;
    }
    Some(FirstCharacter {
        value: text[at],
        end: at + 1,
    })
}

/// Whether a text begins with this quote (C99 6.4.4.4, 6.4.5).
pub fn begins(text: &[u8], quote: u8) -> bool
    ensures some { IsTrue result → 0 < length text.now }
    ensures front { MatchBool result (text.now ≡ quote ∷ drop 1 text.now) ((rest : List ℕ) → text.now ≡ quote ∷ rest → ⊥) }
{
    if text.is_empty() {
        return false;
    }
    text[0] == quote
}

/// Whether the quote is all that stands from `at` on (C99 6.4.4.4, 6.4.5).
pub fn is_closed(text: &[u8], at: usize, quote: u8) -> bool
    requires { at ≤ length text.now }
    ensures { IsTrue result ↔ drop at text.now ≡ quote ∷ [] }
{
    if text.len() - at != 1 {
        return false;
    }
    text[at] == quote
}
