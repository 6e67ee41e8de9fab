// What stands at a place of a range of tokens: before the place `to`.
ghost use Rattle.std.specs.Prelude.{◌≡◌, ◌<◌, ◌+◌, ◌∷◌, [], ◌↔◌, IsTrue, length, MatchBool, MatchOption, OnSome};
ghost use Rattle.po_tree.specs.Signs.{sign_of, word, punct};
ghost use Rattle.po_tree.specs.Words.{IsName};
ghost use Rattle.po_exp_parts.specs.Places.{signs_between, IsEnd, Begins, BeginsWord, BeginsName, BeginsEnd};

use crate::places::{is_sign, word_of};
use crate::words::is_name;
use po_base::{Text, Token, TokenKind, Tokens};

/// The token at a place before `to`, where one stands there.
pub fn token_before(tokens: &Tokens, at: u32, to: u32) -> Option<&Token>
    ensures first { MatchOption result (signs_between tokens.now.list at to ≡ []) (λ token. signs_between tokens.now.list at to ≡ sign_of token.now ∷ signs_between tokens.now.list (at + 1) to) }
    ensures within { OnSome result ((at < to) × (at < length tokens.now.list)) }
{
    let all = tokens.list.as_slice();
    let place = at as usize;
    if at >= to {
        return None;
    }
    if place >= all.len() {
        return None;
    }
    Some(&all[place])
}

/// Whether a token is this punctuator.
fn is_punct(token: &Token, text: &[u8]) -> bool
    ensures { IsTrue result ↔ (sign_of token.now ≡ punct text.now) }
{
    is_sign(token, TokenKind::Punct, text)
}

/// Whether this punctuator stands at a place before `to` (C99 6.4.6).
pub fn stands(tokens: &Tokens, at: u32, to: u32, text: &[u8]) -> bool
    ensures first { IsTrue result ↔ Begins (punct text.now) (signs_between tokens.now.list at to) }
    ensures within { MatchBool result ((at < to) × (at < length tokens.now.list)) (Unit {0}) }
    ensures behind { MatchBool result (signs_between tokens.now.list at to ≡ punct text.now ∷ signs_between tokens.now.list (at + 1) to) (Unit {0}) }
{
    match token_before(tokens, at, to) {
        Some(token) => is_punct(token, text),
        None => false,
    }
}

/// Whether a token is an end, as a comma, a semicolon, a colon or a closing bracket is.
fn is_end(token: &Token) -> bool
    ensures { IsTrue result ↔ IsEnd (sign_of token.now) }
{
    if is_punct(token, b",") {
        return true;
    }
    if is_punct(token, b";") {
        return true;
    }
    if is_punct(token, b"]") {
        return true;
    }
    if is_punct(token, b"}") {
        return true;
    }
    if is_punct(token, b":") {
        return true;
    }
    is_punct(token, b")")
}

/// Whether such an end stands at a place before `to`, as behind an argument, an initialiser, a size or a constant.
pub fn ends(tokens: &Tokens, at: u32, to: u32) -> bool
    ensures first { IsTrue result ↔ BeginsEnd (signs_between tokens.now.list at to) }
    ensures within { MatchBool result ((at < to) × (at < length tokens.now.list)) (Unit {0}) }
{
    match token_before(tokens, at, to) {
        Some(token) => is_end(token),
        None => false,
    }
}

/// The word at a place before `to`, a keyword or a name, where one stands there (C99 6.4.1, 6.4.2).
pub fn word_at(tokens: &Tokens, at: u32, to: u32) -> Option<&Text>
    ensures first { MatchOption result (BeginsWord (signs_between tokens.now.list at to) → ⊥) (λ text. signs_between tokens.now.list at to ≡ word text.now ∷ signs_between tokens.now.list (at + 1) to) }
    ensures within { OnSome result ((at < to) × (at < length tokens.now.list)) }
{
    match token_before(tokens, at, to) {
        Some(token) => word_of(token),
        None => None,
    }
}

/// The name at a place before `to`, where one stands there (C99 6.4.2).
pub fn name_at(tokens: &Tokens, at: u32, to: u32) -> Option<&Text>
    ensures first { MatchOption result ((name : _) → BeginsName name (signs_between tokens.now.list at to) → ⊥) (λ name. IsName name.now × (signs_between tokens.now.list at to ≡ word name.now ∷ signs_between tokens.now.list (at + 1) to)) }
    ensures within { OnSome result ((at < to) × (at < length tokens.now.list)) }
{
    let Some(text) = word_at(tokens, at, to) else {
        return None;
    };
    if !is_name(text.bytes()) {
        return None;
    }
    Some(text)
}
