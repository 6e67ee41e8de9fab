// Integer constants, character constants and string literals.
ghost use Rattle.std.specs.Prelude.{◌≡◌, ◌≤◌, ◌+◌, ◌↔◌, IsTrue, Contains, if◌then◌else◌, IfSome, length, drop};
ghost use Rattle.po_tree.specs.Literals.{behind_digits, suffixes, behind_zero, behind_integer, IsInteger, IsCharacter, IsString};
ghost use Rattle.po_exp_parts.specs.Remains.{left_at};

use crate::characters::{begins, digit, first_character, is_closed};
use crate::words::is_among;

/// The suffixes of integer constants (C99 6.4.4.1).
const SUFFIXES: [&[u8]; 23] = [
    b"", b"u", b"U", b"l", b"L", b"ll", b"LL", b"ul", b"uL", b"ull", b"uLL", b"Ul", b"UL", b"Ull",
    b"ULL", b"lu", b"lU", b"Lu", b"LU", b"llu", b"llU", b"LLu", b"LLU",
];

/// Where the digits from `at` on end. Time linear in their number.
fn digits_end(text: &[u8], at: usize, base: u8) -> usize
    requires { at ≤ length text.now }
    ensures within { result ≤ length text.now }
    ensures behind { drop result text.now ≡ behind_digits base (drop at text.now) }
{
    let mut end = at;
    while end < text.len() && digit(text[end]) < base {
        end += 1;
    }
    end
}

/// Whether the digits of an integer constant that begins with `0` and goes on at `at` are hexadecimal.
fn is_hexadecimal(text: &[u8], at: usize) -> bool
    requires { at ≤ length text.now }
    ensures within { IsTrue result → at + 2 ≤ length text.now }
    ensures behind { behind_zero (drop at text.now) ≡ (if result then behind_digits 16 (drop (at + 2) text.now) else behind_digits 8 (drop at text.now)) }
{
    if text.len() - at < 2 {
        return false;
    }
    if text[at] != b'x' && text[at] != b'X' {
        return false;
    }
    digit(text[at + 1]) < 16
}

/// Where the digits of an integer constant that begins with `0` and goes on at `at` end.
fn zero_end(text: &[u8], at: usize) -> usize
    requires { at ≤ length text.now }
    ensures within { result ≤ length text.now }
    ensures behind { drop result text.now ≡ behind_zero (drop at text.now) }
{
    if is_hexadecimal(text, at) {
        digits_end(text, at + 2, 16)
    } else {
        digits_end(text, at, 8)
    }
}

/// Where the digits of an integer constant end, where the text begins with one.
fn integer_end(text: &[u8]) -> Option<usize>
    ensures within { IfSome result (λ end. end ≤ length text.now) }
    ensures behind { left_at text.now result ≡ behind_integer text.now }
{
    if text.is_empty() {
        return None;
    }
    if text[0] == b'0' {
        return Some(zero_end(text, 1));
    }
    if digit(text[0]) < 10 {
        return Some(digits_end(text, 1, 10));
    }
    None
}

/// Whether a text is a suffix of integer constants.
fn is_suffix(text: &[u8]) -> bool
    ensures { IsTrue result ↔ Contains suffixes text.now }
{
    is_among(text, &SUFFIXES)
}

/// Whether a text is an integer constant (C99 6.4.4.1). Time linear in the text.
pub fn is_integer(text: &[u8]) -> bool
    ensures { IsTrue result ↔ IsInteger text.now }
{
    match integer_end(text) {
        Some(end) => is_suffix(&text[end..]),
        None => false,
    }
}

/// Whether a text is a character constant of one character (C99 6.4.4.4). Time linear in the text.
pub fn is_character(text: &[u8]) -> bool
    ensures { IsTrue result ↔ IsCharacter text.now }
{
    if !begins(text, b'\'') {
        return false;
    }
    match first_character(text, 1, b'\'') {
        Some(character) => is_closed(text, character.end, b'\''),
        None => false,
    }
}

/// Whether a text is a string literal (C99 6.4.5). Time linear in the text.
pub fn is_string(text: &[u8]) -> bool
    ensures { IsTrue result ↔ IsString text.now }
{
    if !begins(text, b'"') {
        return false;
    }
    let mut end = 1;
    while let Some(character) = first_character(text, end, b'"') {
        end = character.end;
    }
    is_closed(text, end, b'"')
}
