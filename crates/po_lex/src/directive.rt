// What the lines of the preprocessor say: line markers, and lines that are skipped (C99 6.10).
ghost use Rattle.std.specs.Prelude.{◌≡◌, ◌≤◌, ◌<◌, ◌+◌, ◌*◌, ◌-◌, ◌^◌, ◌==◌, ◌||◌, ◌&&◌, not, ℕ, min, length, take, drop, false, true, codes, IfOk, IsTrue, ◌++◌, ◌∷◌, List as Bytes};
ghost use Rattle.std.specs.List.{list_any};
ghost use Rattle.po_lex.specs.Bytes.{is_digit};
ghost use Rattle.po_lex.specs.Rows.{skip};
ghost use Rattle.po_lex.specs.Directives.{begins_digit, begins_quote, is_end, is_word, named, number, numbered, next, plain, directive_effect, marker, solid, directive_effect_at};

use crate::bytes::is_digit;
use crate::effect::Effect;
use crate::row::{Row, row_end};
use po_base::{List, Memory, Text};
use std::alloc::Global;

/// The least number that is too large for a line.
const TOO_LARGE: u32 = 1 << 31;

/// Whether a digit stands at a place.
fn begins_digit(line: &[u8], at: usize) -> bool
    ensures { result ≡ begins_digit (drop at line.now) }
{
    at < line.len() && is_digit(line[at])
}

/// Whether a quote stands at a place.
fn begins_quote(line: &[u8], at: usize) -> bool
    ensures value { result ≡ begins_quote (drop at line.now) }
    ensures within { IsTrue result → at < length line.now }
{
    at < line.len() && line[at] == b'"'
}

/// Whether the line ends at a place.
fn is_end(line: &[u8], at: usize) -> bool
    ensures { result ≡ is_end (drop at line.now) }
{
    line.len() <= at
}

/// Ten times a number and a digit, or 2^31 where that isn't below 2^31.
fn with_digit(number: u32, digit: u8) -> u32
    requires few { number ≤ 2 ^ 31 }
    requires digit { is_digit digit ≡ true }
    ensures { result ≡ min (2 ^ 31) (10 * number + (digit - 48)) }
{
    let longer = 10 * u64::from(number) + u64::from(digit - b'0');
    if longer < u64::from(TOO_LARGE) {
        longer as u32
    } else {
        TOO_LARGE
    }
}

/// The decimal number at a place, or 2^31 where it isn't below that. Time linear in its digits.
fn number(line: &[u8], at: usize) -> u32
    requires { at ≤ length line.now }
    ensures { result ≡ number (drop at line.now) }
{
    let mut number = 0;
    let mut end = at;
    while end < line.len() && is_digit(line[end]) {
        number = with_digit(number, line[end]);
        end += 1;
    }
    number
}

/// Whether a byte is written with a backslash before it.
fn is_escaped(byte: u8) -> bool
    ensures { result ≡ (byte == 92) || (byte == 34) }
{
    byte == b'\\' || byte == b'"'
}

/// Puts the next byte of a written name at the end of the plain one, and says whether it is a backslash that is
/// still open; `taken` says whether one stands before it.
fn plain_byte(name: &mut List<u8>, taken: bool, byte: u8) -> Result<bool, Memory>
    ensures { IfOk result (λ open_now. (rest : Bytes ℕ) → name.new ++ plain open_now rest ≡ name.old ++ plain taken (byte ∷ rest)) }
{
    if taken {
        if !is_escaped(byte) {
            name.push(b'\\')?;
        }
        name.push(byte)?;
        return Ok(false);
    }
    if byte == b'\\' {
        return Ok(true);
    }
    name.push(byte)?;
    Ok(false)
}

/// A written name without its escapes. Time and memory linear in its bytes.
fn plain(alloc: Global, written: &[u8]) -> Result<List<u8>, Memory>
    ensures { IfOk result (λ name. name ≡ plain false written.now) }
{
    let mut name = List::new(alloc);
    let mut taken = false;
    for byte in written {
        taken = plain_byte(&mut name, taken, *byte)?;
    }
    if taken {
        name.push(b'\\')?;
    }
    Ok(name)
}

/// The bytes of a line between two places.
fn text_at(line: &Text, from: usize, to: usize) -> &[u8]
    requires ascending { from ≤ to }
    requires within { to ≤ length line.now }
    ensures { result.now ≡ take (to - from) (drop from line.now) }
{
    &line.bytes()[from..to]
}

/// Whether a backslash stands among the bytes. Time linear in them.
fn has_backslash(bytes: &[u8]) -> bool
    ensures { result ≡ list_any (λ c. c == 92) bytes.now }
{
    for byte in bytes {
        if *byte == b'\\' {
            return true;
        }
    }
    false
}

/// The name that is written between two places of a line, without its escapes. Where it has none it shares the line's
/// bytes; else time and memory are linear in its bytes.
fn plain_name(alloc: Global, line: &Text, from: usize, to: usize) -> Result<Text, Memory>
    requires ascending { from ≤ to }
    requires within { to ≤ length line.now }
    ensures { IfOk result (λ name. name ≡ plain false (take (to - from) (drop from line.now))) }
{
    let written = text_at(line, from, to);
    if has_backslash(written) {
        let name = plain(alloc, written)?;
        return Text::new(alloc, name.as_slice());
    }
    line.part(from, to)
}

/// The name between quotes at a place, after which nothing but the row `tail` stands, as the name of the lines
/// from `number` on. Time linear in the line.
fn named(
    alloc: Global,
    line: &Text,
    at: usize,
    number: u32,
    tail: Row,
) -> Result<Option<Effect>, Memory>
    requires { at ≤ length line.now }
    ensures { IfOk result (λ found. found ≡ named tail number (drop at line.now)) }
{
    let bytes = line.bytes();
    if !begins_quote(bytes, at) {
        return Ok(None);
    }
    let close = row_end(bytes, at + 1, Row::Literal(b'"'));
    if !begins_quote(bytes, close) {
        return Ok(None);
    }
    if !is_end(bytes, row_end(bytes, close + 1, tail)) {
        return Ok(None);
    }
    let name = plain_name(alloc, line, at + 1, close)?;
    Ok(Some(Effect::Named(number, name)))
}

/// Where the blanks after the digits at a place end. Time linear in them.
fn after_digits(line: &[u8], at: usize) -> usize
    requires { at ≤ length line.now }
    ensures within { result ≤ length line.now }
    ensures rest { drop result line.now ≡ solid (skip Row.Digits 0 (drop at line.now)) }
{
    row_end(line, row_end(line, at, Row::Digits), Row::Spaces)
}

/// Where the blanks after the word at a place end. Time linear in them.
fn after_word(line: &[u8], at: usize) -> usize
    requires { at ≤ length line.now }
    ensures within { result ≤ length line.now }
    ensures rest { drop result line.now ≡ next (drop at line.now) }
{
    row_end(line, row_end(line, at, Row::Word), Row::Spaces)
}

/// Whether this word stands at a place. Time linear in the word that stands there.
fn is_word(line: &[u8], at: usize, word: &[u8]) -> bool
    requires { at ≤ length line.now }
    ensures { result ≡ is_word word.now (drop at line.now) }
{
    let end = row_end(line, at, Row::Word);
    &line[at..end] == word
}

/// The line marker that begins at its number.
fn marker(alloc: Global, line: &Text, at: usize) -> Result<Option<Effect>, Memory>
    requires { at ≤ length line.now }
    ensures { IfOk result (λ found. found ≡ marker (drop at line.now)) }
{
    let bytes = line.bytes();
    named(
        alloc,
        line,
        after_digits(bytes, at),
        number(bytes, at),
        Row::Flags,
    )
}

/// The number of a line and its name, where one stands, after the word `line`.
fn numbered(alloc: Global, line: &Text, at: usize) -> Result<Option<Effect>, Memory>
    requires { at ≤ length line.now }
    ensures { IfOk result (λ found. found ≡ numbered (drop at line.now)) }
{
    let bytes = line.bytes();
    if !begins_digit(bytes, at) {
        return Ok(None);
    }
    let after = after_digits(bytes, at);
    let number = number(bytes, at);
    if is_end(bytes, after) {
        return Ok(Some(Effect::Line(number)));
    }
    named(alloc, line, after, number, Row::Spaces)
}

/// Whether the word `pragma` stands at a place, and the next word isn't `pack`.
fn is_skipped_pragma(line: &[u8], at: usize) -> bool
    requires { at ≤ length line.now }
    ensures { result ≡ is_word (codes "pragma") (drop at line.now) && not (is_word (codes "pack") (next (drop at line.now))) }
{
    is_word(line, at, b"pragma") && !is_word(line, after_word(line, at), b"pack")
}

/// What a line of the preprocessor says, from a place at which no blank stands.
fn directive_effect_at(alloc: Global, line: &Text, at: usize) -> Result<Option<Effect>, Memory>
    requires { at ≤ length line.now }
    ensures { IfOk result (λ found. found ≡ directive_effect_at (drop at line.now)) }
{
    let bytes = line.bytes();
    if is_end(bytes, at) {
        return Ok(Some(Effect::Silent));
    }
    if begins_digit(bytes, at) {
        return marker(alloc, line, at);
    }
    if is_word(bytes, at, b"line") {
        return numbered(alloc, line, after_word(bytes, at));
    }
    if is_word(bytes, at, b"ident") {
        return Ok(Some(Effect::Silent));
    }
    if is_skipped_pragma(bytes, at) {
        return Ok(Some(Effect::Silent));
    }
    Ok(None)
}

/// What a line of the preprocessor says, from behind its `#`; None where no such line is allowed. Time linear in the
/// line; no memory but for a name with escapes.
pub(crate) fn directive_effect(alloc: Global, line: &Text) -> Result<Option<Effect>, Memory>
    ensures { IfOk result (λ found. found ≡ directive_effect line.now) }
{
    directive_effect_at(alloc, line, row_end(line.bytes(), 0, Row::Spaces))
}
