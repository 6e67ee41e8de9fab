// Stars, each with the qualifiers behind it.
ghost use Rattle.std.specs.Prelude.{◌≡◌, ◌≤◌, ◌<◌, ◌+◌, ◌∷◌, max, length, Contains, IfOk, MatchOption, OnSome};
ghost use Rattle.po_tree.specs.Signs.{word};
ghost use Rattle.po_tree.specs.Words.{qualifiers};
ghost use Rattle.po_exp_parts.specs.Places.{signs_from, BeginsQualifier};
ghost use Rattle.po_exp_parts.specs.Stars.{QualifiersRead, StarsRead};

use crate::places::{stands, word_at};
use crate::words::is_qualifier;
use po_base::{List, Memory, Text, Token, TokenKind};
use std::alloc::Global;

/// The qualifier at a place, where one stands there.
fn qualifier_at(tokens: &[Token], at: usize) -> Option<&Text>
    ensures first { MatchOption result (BeginsQualifier (signs_from tokens.now at) → ⊥) (λ text. Contains qualifiers text.now × (signs_from tokens.now at ≡ word text.now ∷ signs_from tokens.now (at + 1))) }
    ensures within { OnSome result (at < length tokens.now) }
{
    let Some(text) = word_at(tokens, at) else {
        return None;
    };
    if !is_qualifier(text.bytes()) {
        return None;
    }
    Some(text)
}

/// All qualifiers at a place. Time is linear in them.
fn qualifiers_at(alloc: Global, tokens: &[Token], at: usize) -> Result<(List<Text>, usize), Memory>
    ensures found { IfOk result (λ p. QualifiersRead (signs_from tokens.now at) p.0 (signs_from tokens.now p.1)) }
    ensures after { IfOk result (λ p. at ≤ p.1) }
    ensures within { IfOk result (λ p. p.1 ≤ max at (length tokens.now)) }
{
    let mut words = List::new(alloc);
    let mut next = at;
    while let Some(text) = qualifier_at(tokens, next) {
        words.push(text.share()?)?;
        next += 1;
    }
    Ok((words, next))
}

/// All stars at a place, each with all qualifiers behind it (C99 6.7.5.1), and the place behind them. Time is linear in them. `Memory`
/// where memory is refused.
pub fn stars_at(
    alloc: Global,
    tokens: &[Token],
    at: usize,
) -> Result<(List<List<Text>>, usize), Memory>
    ensures found { IfOk result (λ p. StarsRead (signs_from tokens.now at) p.0 (signs_from tokens.now p.1)) }
    ensures after { IfOk result (λ p. at ≤ p.1) }
    ensures within { IfOk result (λ p. p.1 ≤ max at (length tokens.now)) }
{
    let mut stars = List::new(alloc);
    let mut next = at;
    while stands(tokens, next, TokenKind::Punct, b"*") {
        let (words, end) = qualifiers_at(alloc, tokens, next + 1)?;
        stars.push(words)?;
        next = end;
    }
    Ok((stars, next))
}
