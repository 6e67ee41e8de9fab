ghost use Rattle.std.specs.Prelude.{ℕ, List, ◌≡◌, ◌≤◌, ◌<◌, ◌^◌, [], ◌∷◌, length, drop, IfOk, IfSome, IfNone, MatchOption};
ghost use Rattle.po_straight.specs.declared.lexeme.Sign.{Sign as Written};
ghost use Rattle.po_straight.specs.declared.lexeme.Lexeme.{Lexeme as Placed};
ghost use Rattle.po_straight.specs.Spelling.{IsSpelling, IsWord, IsWordByte, Spells};
ghost use Rattle.po_straight.specs.Lexing.{Stands};

use crate::letters::{is_blank, is_word_byte, lines_ended, word_end};
use crate::lexeme::{Lexeme, Sign};
use crate::word::word_sign;
use po_base::{List, Memory};
use std::alloc::Global;

/// The mark that a byte spells, which is no word byte.
fn mark(byte: u8) -> Option<Sign>
    requires { IsWordByte byte → ⊥ }
    ensures { MatchOption result ((x : Written) (text : List ℕ) → IsSpelling x (byte ∷ text) → ⊥) (λ x. IsSpelling x (byte ∷ []) × (IsWord x → ⊥)) }
{
    match byte {
        b'+' => Some(Sign::Plus),
        b'-' => Some(Sign::Minus),
        b'*' => Some(Sign::Star),
        b'/' => Some(Sign::Slash),
        b'%' => Some(Sign::Percent),
        b'(' => Some(Sign::Open),
        b')' => Some(Sign::Close),
        b'{' => Some(Sign::OpenBrace),
        b'}' => Some(Sign::CloseBrace),
        b',' => Some(Sign::Comma),
        b';' => Some(Sign::Semicolon),
        _ => None,
    }
}

/// The sign that stands at `at`, and where it ends. Time linear in its bytes.
fn sign_at(alloc: Global, bytes: &[u8], at: usize) -> Result<Option<(Sign, usize)>, Memory>
    requires { at < length bytes.now }
    ensures found { IfOk result (λ found. IfSome found (λ p. Stands p.0 (drop at bytes.now) (drop p.1 bytes.now))) }
    ensures ends { IfOk result (λ found. IfSome found (λ p. (at < p.1) × (p.1 ≤ length bytes.now))) }
    ensures none { IfOk result (λ found. IfNone found ((x : Written) (left : List ℕ) → Stands x (drop at bytes.now) left → ⊥)) }
{
    if is_word_byte(bytes[at]) {
        let end = word_end(bytes, at);
        match word_sign(alloc, &bytes[at..end])? {
            Some(sign) => Ok(Some((sign, end))),
            None => Ok(None),
        }
    } else {
        match mark(bytes[at]) {
            Some(sign) => Ok(Some((sign, at + 1))),
            None => Ok(None),
        }
    }
}

/// The signs that the bytes spell, each with its line; None where they spell none. Time linear in the bytes.
pub(crate) fn lexemes(alloc: Global, bytes: &[u8]) -> Result<Option<List<Lexeme>>, Memory>
    requires { length bytes.now ≤ 2 ^ 24 }
    ensures found { IfOk result (λ found. IfSome found (λ xs. Spells 1 xs bytes.now)) }
    ensures none { IfOk result (λ found. IfNone found ((xs : List Placed) → Spells 1 xs bytes.now → ⊥)) }
{
    let mut lexemes = List::new(alloc);
    let mut line = 1u32;
    let mut at = 0usize;
    while at < bytes.len() {
        if is_blank(bytes[at]) {
            line += lines_ended(bytes[at]);
            at += 1;
            continue;
        }
        match sign_at(alloc, bytes, at)? {
            Some((sign, end)) => {
                lexemes.push(Lexeme { sign, line })?;
                at = end;
            }
            None => return Ok(None),
        }
    }
    Ok(Some(lexemes))
}

/// No bytes spell two lists of signs.
pub fn spell_one_list()
    ensures { (line : ℕ) (xs ys : List Placed) (bytes : List ℕ) → Spells line xs bytes → Spells line ys bytes → xs ≡ ys }
{}
