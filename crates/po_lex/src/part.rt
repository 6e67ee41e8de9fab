// The part that stands at a place of a file: a blank, a comment, a directive or a token.
ghost use Rattle.std.specs.Prelude.{ℕ, ◌≡◌, ◌+◌, ◌-◌, ◌<◌, ◌≤◌, ◌++◌, ◌^◌, length, take, drop, slice_index, IfOk, IfSome, IfNone, IsTrue, false, List as Bytes, option_to_list};
ghost use Rattle.po_lex.specs.Bytes.{newlines};
ghost use Rattle.po_lex.specs.PartKinds.{part_kind_of, opening, row_of, closing, token_kind_of, lines};
ghost use Rattle.po_lex.specs.Rows.{skip};
ghost use Rattle.po_lex.specs.Division.{HasEffect, Stands, NoneStands};
ghost use Rattle.po_lex.specs.declared.effect.Effect.{Effect as Said};

use crate::directive::directive_effect;
use crate::effect::Effect;
use crate::part_kind::{PartKind, part_kind_at};
use crate::row::{Row, row_end, word_end};
use crate::sign::sign_length;
use po_base::{Memory, Text, TokenKind};
use std::alloc::Global;

/// A part that stands at a place of a file: what it is, where it ends, how many lines end in it, and what it says.
#[derive(Debug, Drop)]
pub(crate) struct FoundPart {
    pub part_kind: PartKind,
    pub end: usize,
    pub lines: u32,
    pub effect: Effect,
}

/// How many lines end in these bytes. Time linear in them.
fn newlines(text: &[u8]) -> u32
    requires { length text.now < 2 ^ 32 }
    ensures value { result ≡ newlines text.now }
    ensures few { result ≤ length text.now }
{
    let mut count = 0;
    for byte in text {
        if *byte == b'\n' {
            count += 1;
        }
    }
    count
}

impl PartKind {
    /// How many bytes stand before the row begins. Time linear in the table of punctuators.
    fn opening(self, bytes: &[u8]) -> usize
        ensures { result ≡ opening self bytes.now }
    {
        match self {
            PartKind::Splice | PartKind::Comment | PartKind::LineComment => 2,
            PartKind::Punctuator => sign_length(bytes),
            PartKind::Blank
            | PartKind::Word
            | PartKind::Number
            | PartKind::Char
            | PartKind::Str
            | PartKind::Directive => 1,
        }
    }

    /// The row that goes on behind the opening bytes.
    fn row_of(self) -> Row
        ensures { result ≡ row_of self }
    {
        match self {
            PartKind::Comment => Row::Comment,
            PartKind::LineComment | PartKind::Directive => Row::Line,
            PartKind::Word => Row::Word,
            PartKind::Number => Row::Number,
            PartKind::Char => Row::Literal(b'\''),
            PartKind::Str => Row::Literal(b'"'),
            PartKind::Blank | PartKind::Splice | PartKind::Punctuator => Row::Nothing,
        }
    }

    /// The byte that has to close it, where one has to.
    fn closing(self) -> Option<u8>
        ensures { option_to_list result ≡ closing self }
    {
        match self {
            PartKind::Comment => Some(b'/'),
            PartKind::Char => Some(b'\''),
            PartKind::Str => Some(b'"'),
            PartKind::Blank
            | PartKind::Splice
            | PartKind::LineComment
            | PartKind::Word
            | PartKind::Number
            | PartKind::Directive
            | PartKind::Punctuator => None,
        }
    }

    /// The kind of token that it is, where it is one.
    pub(crate) fn token_kind_of(self) -> Option<TokenKind>
        ensures { result ≡ token_kind_of self }
    {
        match self {
            PartKind::Word => Some(TokenKind::Word),
            PartKind::Number => Some(TokenKind::Number),
            PartKind::Char => Some(TokenKind::Char),
            PartKind::Str => Some(TokenKind::Str),
            PartKind::Punctuator => Some(TokenKind::Punct),
            PartKind::Blank
            | PartKind::Splice
            | PartKind::Comment
            | PartKind::LineComment
            | PartKind::Directive => None,
        }
    }
}

/// The byte at a place, or 0 behind the last one.
fn byte_at(bytes: &[u8], at: usize) -> u8
    ensures { result ≡ slice_index bytes.now at }
{
    if at < bytes.len() { bytes[at] } else { 0 }
}

/// What the bytes begin.
fn part_kind_of(bytes: &[u8]) -> PartKind
    ensures { result ≡ part_kind_of bytes.now }
{
    part_kind_at(byte_at(bytes, 0), byte_at(bytes, 1))
}

/// Whether this byte stands at a place.
fn stands(bytes: &[u8], at: usize, byte: u8) -> bool
    ensures yes { IsTrue result → (at < length bytes.now) × (slice_index bytes.now at ≡ byte) }
    ensures other { result ≡ false → at < length bytes.now → slice_index bytes.now at ≡ byte → ⊥ }
{
    at < bytes.len() && bytes[at] == byte
}

/// Where a row that begins behind `opening` bytes ends with its closing byte, where it has to have one; None where
/// that is missing. Time linear in the row.
fn closed_end(bytes: &[u8], opening: usize, row: Row, closing: Option<u8>) -> Option<usize>
    requires { opening ≤ length bytes.now }
    ensures found { IfSome result (λ end. skip row (0) (drop opening bytes.now) ≡ option_to_list closing ++ drop end bytes.now) }
    ensures ends { IfSome result (λ end. (opening ≤ end) × (end ≤ length bytes.now)) }
    ensures none { IfNone result ((rest : Bytes ℕ) → skip row (0) (drop opening bytes.now) ≡ option_to_list closing ++ rest → ⊥) }
{
    let end = row_end(bytes, opening, row);
    match closing {
        None => Some(end),
        Some(byte) => {
            if stands(bytes, end, byte) {
                Some(end + 1)
            } else {
                None
            }
        }
    }
}

/// Where the part ends that begins the bytes and whose row may need a closing byte; None where no part stands there.
/// Time linear in its bytes.
fn opened_end(bytes: &[u8], part_kind: PartKind) -> Option<usize>
    ensures begun { IfSome result (λ end. (0 < opening part_kind bytes.now) × (opening part_kind bytes.now ≤ length bytes.now)) }
    ensures ended { IfSome result (λ end. skip (row_of part_kind) 0 (drop (opening part_kind bytes.now) bytes.now) ≡ closing part_kind ++ drop end bytes.now) }
    ensures ends { IfSome result (λ end. (0 < end) × (end ≤ length bytes.now)) }
    ensures none { IfNone result ((rest : Bytes ℕ) → 0 < opening part_kind bytes.now → opening part_kind bytes.now ≤ length bytes.now → skip (row_of part_kind) 0 (drop (opening part_kind bytes.now) bytes.now) ≡ closing part_kind ++ rest → ⊥) }
{
    let opening = part_kind.opening(bytes);
    if opening == 0 {
        return None;
    }
    if bytes.len() < opening {
        return None;
    }
    closed_end(bytes, opening, part_kind.row_of(), part_kind.closing())
}

/// Where the punctuator that begins the bytes ends; None where none stands there.
fn sign_end(bytes: &[u8]) -> Option<usize>
    ensures begun { IfSome result (λ end. (0 < opening PartKind.Punctuator bytes.now) × (opening PartKind.Punctuator bytes.now ≤ length bytes.now)) }
    ensures ended { IfSome result (λ end. skip (row_of PartKind.Punctuator) 0 (drop (opening PartKind.Punctuator bytes.now) bytes.now) ≡ closing PartKind.Punctuator ++ drop end bytes.now) }
    ensures ends { IfSome result (λ end. (0 < end) × (end ≤ length bytes.now)) }
    ensures none { IfNone result ((rest : Bytes ℕ) → 0 < opening PartKind.Punctuator bytes.now → opening PartKind.Punctuator bytes.now ≤ length bytes.now → skip (row_of PartKind.Punctuator) 0 (drop (opening PartKind.Punctuator bytes.now) bytes.now) ≡ closing PartKind.Punctuator ++ rest → ⊥) }
{
    let end = sign_length(bytes);
    if end == 0 {
        return None;
    }
    Some(end)
}

/// Where the part that begins the bytes ends; None where no part stands there. Time linear in its bytes. Words and
/// punctuators, which most parts are, need no closing byte.
fn part_end(bytes: &[u8], part_kind: PartKind) -> Option<usize>
    requires { 0 < length bytes.now }
    ensures begun { IfSome result (λ end. (0 < opening part_kind bytes.now) × (opening part_kind bytes.now ≤ length bytes.now)) }
    ensures ended { IfSome result (λ end. skip (row_of part_kind) 0 (drop (opening part_kind bytes.now) bytes.now) ≡ closing part_kind ++ drop end bytes.now) }
    ensures ends { IfSome result (λ end. (0 < end) × (end ≤ length bytes.now)) }
    ensures none { IfNone result ((rest : Bytes ℕ) → 0 < opening part_kind bytes.now → opening part_kind bytes.now ≤ length bytes.now → skip (row_of part_kind) 0 (drop (opening part_kind bytes.now) bytes.now) ≡ closing part_kind ++ rest → ⊥) }
{
    match part_kind {
        PartKind::Word => Some(word_end(bytes, 1)),
        PartKind::Punctuator => sign_end(bytes),
        PartKind::Blank
        | PartKind::Splice
        | PartKind::Comment
        | PartKind::LineComment
        | PartKind::Number
        | PartKind::Char
        | PartKind::Str
        | PartKind::Directive => opened_end(bytes, part_kind),
    }
}

/// The bytes of a file from a place on.
pub(crate) fn rest_of(file: &Text, at: usize) -> &[u8]
    requires { at ≤ length file.now }
    ensures { result.now ≡ drop at file.now }
{
    &file.bytes()[at..]
}

/// What stands behind the first byte of a part of `end` bytes, which stands in the file from `at` on. It shares the file's
/// bytes. Constant time.
fn behind_first(file: &Text, at: usize, end: usize) -> Result<Text, Memory>
    requires short { length file.now < 2 ^ 32 }
    requires some { 0 < end }
    requires within { at + end ≤ length file.now }
    ensures { IfOk result (λ line. line ≡ drop 1 (take end (drop at file.now))) }
{
    file.part(at + 1, at + end)
}

/// What the directive says whose `end` bytes stand in the file from `at` on; None where it isn't allowed. Time linear in
/// its bytes.
fn directive(
    alloc: Global,
    fresh: bool,
    file: &Text,
    at: usize,
    end: usize,
) -> Result<Option<Effect>, Memory>
    requires short { length file.now < 2 ^ 32 }
    requires some { 0 < end }
    requires within { at + end ≤ length file.now }
    ensures part_effect { IfOk result (λ found. IfSome found (λ effect. HasEffect PartKind.Directive fresh (take end (drop at file.now)) effect)) }
    ensures none { IfOk result (λ found. IfNone found ((effect : Said) → HasEffect PartKind.Directive fresh (take end (drop at file.now)) effect → ⊥)) }
{
    if !fresh {
        return Ok(None);
    }
    let line = behind_first(file, at, end)?;
    match directive_effect(alloc, &line)? {
        Some(effect) => {
            if effect.is_proper() {
                Ok(Some(effect))
            } else {
                Ok(None)
            }
        }
        None => Ok(None),
    }
}

/// What the part says whose `end` bytes stand in the file from `at` on; None where it is a directive that isn't allowed.
/// Time linear in the bytes of a directive.
fn part_effect(
    alloc: Global,
    part_kind: PartKind,
    fresh: bool,
    file: &Text,
    at: usize,
    end: usize,
) -> Result<Option<Effect>, Memory>
    requires short { length file.now < 2 ^ 32 }
    requires some { 0 < end }
    requires within { at + end ≤ length file.now }
    ensures part_effect { IfOk result (λ found. IfSome found (λ effect. HasEffect part_kind fresh (take end (drop at file.now)) effect)) }
    ensures none { IfOk result (λ found. IfNone found ((effect : Said) → HasEffect part_kind fresh (take end (drop at file.now)) effect → ⊥)) }
{
    match part_kind {
        PartKind::Directive => directive(alloc, fresh, file, at, end),
        PartKind::Blank
        | PartKind::Splice
        | PartKind::Comment
        | PartKind::LineComment
        | PartKind::Word
        | PartKind::Number
        | PartKind::Char
        | PartKind::Str
        | PartKind::Punctuator => Ok(Some(Effect::Silent)),
    }
}

impl PartKind {
    /// How many lines end in a part with these bytes. Tokens and directives aren't read again for it.
    fn lines(self, text: &[u8]) -> u32
        requires { length text.now < 2 ^ 32 }
        ensures { result ≡ lines self text.now }
    {
        match self {
            PartKind::Word
            | PartKind::Number
            | PartKind::Char
            | PartKind::Str
            | PartKind::Directive
            | PartKind::Punctuator => 0,
            PartKind::Blank | PartKind::Splice | PartKind::Comment | PartKind::LineComment =>
                newlines(text),
        }
    }
}

/// The part that stands in the file from `at` on; None where no part stands there. Time linear in its bytes.
pub(crate) fn part_of(
    alloc: Global,
    file: &Text,
    at: usize,
    fresh: bool,
) -> Result<Option<FoundPart>, Memory>
    requires short { length file.now < 2 ^ 32 }
    requires within { at < length file.now }
    ensures found { IfOk result (λ found. IfSome found (λ p. Stands fresh (drop at file.now) (record { part_kind = p.part_kind; text = take p.end (drop at file.now); effect = p.effect }) (drop p.end (drop at file.now)))) }
    ensures ends { IfOk result (λ found. IfSome found (λ p. (0 < p.end) × (at + p.end ≤ length file.now))) }
    ensures lines { IfOk result (λ found. IfSome found (λ p. p.lines ≡ newlines (take p.end (drop at file.now)))) }
    ensures none { IfOk result (λ found. IfNone found (NoneStands fresh (drop at file.now))) }
{
    let bytes = rest_of(file, at);
    let part_kind = part_kind_of(bytes);
    let end = match part_end(bytes, part_kind) {
        Some(end) => end,
        None => return Ok(None),
    };
    match part_effect(alloc, part_kind, fresh, file, at, end)? {
        Some(effect) => Ok(Some(FoundPart {
            part_kind,
            end,
            lines: part_kind.lines(&bytes[..end]),
            effect,
        })),
        None => Ok(None),
    }
}
