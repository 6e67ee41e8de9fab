ghost use Rattle.std.specs.Prelude.{All, IfOk, length, ℕ, map, ◌≡◌, ◌≤◌, ◌<◌, ◌^◌, ◌↔◌, IsTrue, Contains, decimal, IfSome, IfNone};
ghost use Rattle.po_straight.specs.Spelling.{keywords, IsWordByte, IsSpelling};
ghost use Rattle.po_straight.specs.declared.lexeme.Sign.{Sign as Written};

use crate::letters::{digit, is_nondigit};
use crate::lexeme::Sign;
use po_base::{Memory, Text};
use std::alloc::Global;

/// The keywords of C99.
const KEYWORDS: [&[u8]; 37] = [
    b"auto",
    b"break",
    b"case",
    b"char",
    b"const",
    b"continue",
    b"default",
    b"do",
    b"double",
    b"else",
    b"enum",
    b"extern",
    b"float",
    b"for",
    b"goto",
    b"if",
    b"inline",
    b"int",
    b"long",
    b"register",
    b"restrict",
    b"return",
    b"short",
    b"signed",
    b"sizeof",
    b"static",
    b"struct",
    b"switch",
    b"typedef",
    b"union",
    b"unsigned",
    b"void",
    b"volatile",
    b"while",
    b"_Bool",
    b"_Complex",
    b"_Imaginary",
];

/// Whether a word stands among these words. Time linear in their number.
fn is_among(words: &[&[u8]], word: &[u8]) -> bool
    ensures { IsTrue result ↔ Contains (map (λ w. w.now) words.now) word.now }
{
    for other in words {
        if *other == word {
            return true;
        }
    }
    false
}

/// Whether a word is a keyword of C99.
pub(crate) fn is_keyword(word: &[u8]) -> bool
    ensures { IsTrue result ↔ Contains keywords word.now }
{
    is_among(&KEYWORDS, word)
}

/// The value of a decimal constant: digits without a leading zero, below 2^31. Time linear in the digits.
pub(crate) fn constant(word: &[u8]) -> Option<u32>
    ensures found { IfSome result (λ n. (n < 2 ^ 31) × (word.now ≡ decimal n)) }
    ensures none { IfNone result ((n : ℕ) → n < 2 ^ 31 → word.now ≡ decimal n → ⊥) }
{
    if word.is_empty() {
        return None;
    }
    if word.len() > 10 {
        return None;
    }
    let mut value = digit(word[0])?;
    for at in 1..word.len() {
        if value == 0 {
            return None;
        }
        value = 10 * value + digit(word[at])?;
    }
    if value < 1 << 31 {
        Some(value as u32)
    } else {
        None
    }
}

/// The sign that a word spells: a keyword of the served language, a name or a constant. Time linear in the word.
pub(crate) fn word_sign(alloc: Global, word: &[u8]) -> Result<Option<Sign>, Memory>
    requires some { 0 < length word.now }
    requires letters { All IsWordByte word.now }
    ensures found { IfOk result (λ found. IfSome found (λ x. IsSpelling x word.now)) }
    ensures none { IfOk result (λ found. IfNone found ((x : Written) → IsSpelling x word.now → ⊥)) }
{
    if word == b"int".as_slice() {
        return Ok(Some(Sign::Int));
    }
    if word == b"void".as_slice() {
        return Ok(Some(Sign::Void));
    }
    if word == b"return".as_slice() {
        return Ok(Some(Sign::Return));
    }
    if is_nondigit(word[0]) {
        if is_keyword(word) {
            return Ok(None);
        }
        return Ok(Some(Sign::Name(Text::new(alloc, word)?)));
    }
    match constant(word) {
        Some(value) => Ok(Some(Sign::Constant(value))),
        None => Ok(None),
    }
}
