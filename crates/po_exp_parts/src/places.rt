// What stands at a place of tokens, up to their end.
ghost use Rattle.std.specs.Prelude.{◌≡◌, ◌↔◌, IsTrue, MatchOption};
ghost use Rattle.po_base.specs.declared.token.TokenKind.TheVariants as k;
ghost use Rattle.po_tree.specs.Signs.{sign_of, string, word};
ghost use Rattle.po_exp_parts.specs.Places.{Begins, BeginsWord, BeginsName, signs_from, BeginsString, BeginsLiteral};

use crate::literals::is_string;
use crate::words::is_name;
use po_base::{Text, Token, TokenKind};

/// Whether a token is of this kind and has these bytes.
pub(crate) fn is_sign(token: &Token, kind: TokenKind, text: &[u8]) -> bool
    ensures { IsTrue result ↔ (sign_of token.now ≡ record { kind = kind; text = text.now }) }
{
    if token.kind != kind {
        return false;
    }
    token.text.bytes() == text
}

/// Whether a token of this kind and these bytes stands at a place (C99 6.4).
pub fn stands(tokens: &[Token], at: usize, kind: TokenKind, text: &[u8]) -> bool
    ensures { IsTrue result ↔ Begins (record { kind = kind; text = text.now }) (signs_from tokens.now at) }
{
    match tokens.get(at) {
        Some(token) => is_sign(token, kind, text),
        None => false,
    }
}

/// The bytes of a token that is a word.
pub(crate) fn word_of(token: &Token) -> Option<&Text>
    ensures { MatchOption result (token.now.kind ≡ k.Word → ⊥) (λ text. sign_of token.now ≡ word text.now) }
{
    if token.kind != TokenKind::Word {
        return None;
    }
    Some(&token.text)
}

/// The word at a place, a keyword or a name, where one stands there (C99 6.4.1, 6.4.2).
pub fn word_at(tokens: &[Token], at: usize) -> Option<&Text>
    ensures { MatchOption result (BeginsWord (signs_from tokens.now at) → ⊥) (λ text. Begins (word text.now) (signs_from tokens.now at)) }
{
    match tokens.get(at) {
        Some(token) => word_of(token),
        None => None,
    }
}

/// The name at a place, where one stands there (C99 6.4.2).
pub fn name_at(tokens: &[Token], at: usize) -> Option<&Text>
    ensures { MatchOption result ((name : _) → BeginsName name (signs_from tokens.now at) → ⊥) (λ name. BeginsName name.now (signs_from tokens.now at)) }
{
    let text = word_at(tokens, at)?;
    if !is_name(text.bytes()) {
        return None;
    }
    Some(text)
}

/// The bytes of a token that is a string literal, well formed or not.
fn string_of(token: &Token) -> Option<&Text>
    ensures { MatchOption result (token.now.kind ≡ k.Str → ⊥) (λ text. sign_of token.now ≡ string text.now) }
{
    if token.kind != TokenKind::Str {
        return None;
    }
    Some(&token.text)
}

/// The string literal at a place, well formed or not, where one stands there.
fn any_string_at(tokens: &[Token], at: usize) -> Option<&Text>
    ensures { MatchOption result (BeginsString (signs_from tokens.now at) → ⊥) (λ text. Begins (string text.now) (signs_from tokens.now at)) }
{
    match tokens.get(at) {
        Some(token) => string_of(token),
        None => None,
    }
}

/// The well-formed string literal at a place, where one stands there (C99 6.4.5).
pub fn string_at(tokens: &[Token], at: usize) -> Option<&Text>
    ensures { MatchOption result ((text : _) → BeginsLiteral text (signs_from tokens.now at) → ⊥) (λ text. BeginsLiteral text.now (signs_from tokens.now at)) }
{
    let text = any_string_at(tokens, at)?;
    if !is_string(text.bytes()) {
        return None;
    }
    Some(text)
}
