// Formats of printf (C99 7.19.6.1).
ghost use Rattle.std.specs.Prelude.{◌≡◌, ◌≤◌, ◌+◌, ◌↔◌, ◌∷◌, [], codes, ⊤, IsTrue, MatchBool, IfOk, OnOk, ◌++◌, MatchOption, Contains, map, take, drop, length, List as Bytes, Option as Maybe, ℕ};
ghost use Rattle.std.specs.Option.{option_map};
ghost use Rattle.std.specs.List.{cons_option};
ghost use Rattle.po_types.specs.declared.format.Spec.{Spec as SpecOf};
ghost use Rattle.po_types.specs.Formats.{IsFormat, IsPiece, IsConversion, FlagsFit, IsDigit, flags, conversions};
ghost use Rattle.po_types.specs.FormatReading.{IsRun, first_row};

use po_arith::Target;
use po_base::{List, Memory};
use std::alloc::Global;

/// What a conversion of a `printf` format reads (C99 7.19.6.1).
#[derive(Clone, Copy, Debug, PartialEq, Eq)]
pub enum Spec {
    /// `d i u x c`
    Int,
    /// `ld li lu lx`
    Long,
    /// `zu`
    Size,
    /// `s`
    Text,
}

/// The flags.
const FLAGS: [u8; 5] = *b"-0+ #";

/// The letters of the conversions, and what these read.
const CONVERSIONS: [(&[u8], Spec); 11] = [
    (b"d", Spec::Int),
    (b"i", Spec::Int),
    (b"u", Spec::Int),
    (b"x", Spec::Int),
    (b"c", Spec::Int),
    (b"ld", Spec::Long),
    (b"li", Spec::Long),
    (b"lu", Spec::Long),
    (b"lx", Spec::Long),
    (b"zu", Spec::Size),
    (b"s", Spec::Text),
];

/// The first piece of a format: how many bytes it takes, and what it reads where it is a conversion.
#[derive(Clone, Copy)]
struct Piece {
    bytes: usize,
    reads: Option<Spec>,
}

/// What a `printf` format reads, in order (C99 7.19.6.1); None exactly where it is none of the formats that are read: plain bytes other
/// than 0, `%%`, and `%` with flags of `-0+ #`, a decimal width and a conversion. Takes time in the length of the format.
pub fn format_of(alloc: Global, format: &[u8], target: Target) -> Result<Option<List<Spec>>, Memory>
    ensures { IfOk result (λ found. MatchOption found ((specs : Bytes SpecOf) → IsFormat target format.now specs → ⊥) (λ specs. IsFormat target format.now specs)) }
{
    let mut specs = List::new(alloc);
    let mut rest = format;
    while !rest.is_empty() {
        match piece_of(rest) {
            None => return Ok(None),
            Some(piece) => {
                note(&mut specs, piece.reads)?;
                rest = &rest[piece.bytes..];
            }
        }
    }
    Ok(Some(specs))
}

/// Adds what a piece reads, where it reads something.
fn note(specs: &mut List<Spec>, read: Option<Spec>) -> Result<(), Memory>
    ensures { OnOk result (specs.new ≡ specs.old ++ cons_option read []) }
{
    match read {
        None => Ok(()),
        Some(spec) => specs.push(spec),
    }
}

/// The first piece of a format, where there is one.
fn piece_of(text: &[u8]) -> Option<Piece>
    ensures { MatchOption result ((read : Maybe SpecOf) (rest : Bytes ℕ) → IsPiece text.now read rest → ⊥) (λ p. (1 ≤ p.bytes) × (p.bytes ≤ length text.now) × IsPiece text.now p.reads (drop p.bytes text.now)) }
{
    if text.is_empty() {
        return None;
    }
    if !begins_with_percent(text) {
        if text[0] == 0 {
            return None;
        }
        return Some(Piece {
            bytes: 1,
            reads: None,
        });
    }
    let behind = &text[1..];
    if begins_with_percent(behind) {
        return Some(Piece {
            bytes: 2,
            reads: None,
        });
    }
    match conversion_of(behind) {
        None => None,
        Some((bytes, spec)) => Some(Piece {
            bytes: 1 + bytes,
            reads: Some(spec),
        }),
    }
}

/// Whether a text begins with `%`.
fn begins_with_percent(text: &[u8]) -> bool
    ensures { MatchBool result (text.now ≡ 37 ∷ drop 1 text.now) ((others : Bytes ℕ) → text.now ≡ 37 ∷ others → ⊥) }
{
    !text.is_empty() && text[0] == b'%'
}

/// How many bytes the conversion takes that stands first in a text, and what it reads.
fn conversion_of(text: &[u8]) -> Option<(usize, Spec)>
    ensures { MatchOption result ((spec : SpecOf) (rest : Bytes ℕ) → IsConversion text.now spec rest → ⊥) (λ p. (p.0 ≤ length text.now) × IsConversion text.now p.1 (drop p.0 text.now)) }
{
    let given = flags_length(text);
    let behind_flags = &text[given..];
    let width = digits_length(behind_flags);
    match letters_of(&CONVERSIONS, &behind_flags[width..]) {
        None => None,
        Some((letters, spec)) => {
            if !flags_fit(&text[..given], letters) {
                return None;
            }
            Some((given + width + letters.len(), spec))
        }
    }
}

/// How many flags stand first in a text.
fn flags_length(text: &[u8]) -> usize
    ensures within { result ≤ length text.now }
    ensures run { IsRun (Contains flags) (take result text.now) (drop result text.now) }
{
    let mut end = 0;
    while end < text.len() && is_flag(text[end]) {
        end += 1;
    }
    end
}

/// Whether a byte is a flag.
fn is_flag(byte: u8) -> bool
    ensures { IsTrue result ↔ Contains flags byte }
{
    FLAGS.contains(&byte)
}

/// How many digits stand first in a text.
fn digits_length(text: &[u8]) -> usize
    ensures within { result ≤ length text.now }
    ensures run { IsRun IsDigit (take result text.now) (drop result text.now) }
{
    let mut end = 0;
    while end < text.len() && is_digit(text[end]) {
        end += 1;
    }
    end
}

/// Whether a byte is a digit.
fn is_digit(byte: u8) -> bool
    ensures { IsTrue result ↔ IsDigit byte }
{
    b'0' <= byte && byte <= b'9'
}

/// The first of these letters with which a text begins, and what they read.
fn letters_of(rows: &[(&'static [u8], Spec)], text: &[u8]) -> Option<(&'static [u8], Spec)>
    ensures value { option_map (λ r. (r.0.now, r.1)) result ≡ first_row (map (λ r. (r.0.now, r.1)) rows.now) text.now }
    ensures within { MatchOption result ⊤ (λ r. length r.0.now ≤ length text.now) }
{
    for i in 0..rows.len() {
        let (letters, spec) = rows[i];
        if text.starts_with(letters) {
            return Some((letters, spec));
        }
    }
    None
}

/// Whether flags may stand with the letters of a conversion.
fn flags_fit(given: &[u8], letters: &[u8]) -> bool
    ensures { IsTrue result ↔ FlagsFit given.now letters.now }
{
    if given.contains(&b'#') && !is_hexadecimal(letters) {
        return false;
    }
    !(given.contains(&b'0') && is_no_number(letters))
}

/// Whether a conversion writes a number in hexadecimal.
fn is_hexadecimal(letters: &[u8]) -> bool
    ensures { IsTrue result ↔ Contains (codes "x" ∷ codes "lx" ∷ []) letters.now }
{
    letters == b"x".as_slice() || letters == b"lx".as_slice()
}

/// Whether a conversion writes a character or a text.
fn is_no_number(letters: &[u8]) -> bool
    ensures { IsTrue result ↔ Contains (codes "c" ∷ codes "s" ∷ []) letters.now }
{
    letters == b"c".as_slice() || letters == b"s".as_slice()
}
