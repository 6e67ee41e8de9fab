// Where the body of a definition opens.
ghost use Rattle.std.specs.Prelude.{◌≡◌, ◌<◌, ◌≤◌, ◌+◌, ◌∷◌, ◌↔◌, map, false, IsTrue, length, IfOk, IfSome, IfNone, MatchBool};
ghost use Rattle.po_tree.specs.Signs.{brace, sign_of};
ghost use Rattle.po_exp_parts.specs.Places.{Begins, signs_between};
ghost use Rattle.po_fun_heads.specs.Braces.{is_word, OpensBody};

use po_base::{List, Memory, Token, TokenKind, Tokens};
use po_exp_parts::ranges::{stands, token_before};
use std::alloc::Global;

/// Whether a token is a word.
fn is_word(token: &Token) -> bool
    ensures { result ≡ is_word (sign_of token.now) }
{
    match token.kind {
        TokenKind::Word => true,
        TokenKind::Number => false,
        TokenKind::Char => false,
        TokenKind::Str => false,
        TokenKind::Punct => false,
    }
}

/// The same token once more; its text is shared.
pub(crate) fn shared(token: &Token) -> Result<Token, Memory>
    ensures { IfOk result (λ copy. copy ≡ token.now) }
{
    Ok(Token {
        kind: token.kind,
        text: token.text.share()?,
        file: token.file,
        line: token.line,
        own_line: token.own_line,
    })
}

/// Whether a brace stands at a place that no word stands directly before, as the brace that opens a body.
fn opens(tokens: &Tokens, at: u32, to: u32, behind: bool) -> bool
    ensures first { IsTrue result ↔ ((behind ≡ false) × Begins brace (signs_between tokens.now.list at to)) }
    ensures rest { MatchBool result (signs_between tokens.now.list at to ≡ brace ∷ signs_between tokens.now.list (at + 1) to) (Unit {0}) }
{
    if behind {
        return false;
    }
    stands(tokens, at, to, b"{")
}

/// The tokens from a place on up to the brace that opens a body, and the place behind the brace; None exactly where no body opens.
pub(crate) fn head_tokens(
    alloc: Global,
    tokens: &Tokens,
    from: u32,
    to: u32,
) -> Result<Option<(List<Token>, u32)>, Memory>
    ensures found { IfOk result (λ found. IfSome found (λ p. OpensBody (signs_between tokens.now.list from to) (map sign_of p.0) (signs_between tokens.now.list p.1 to))) }
    ensures within { IfOk result (λ found. IfSome found (λ p. (from < p.1) × (p.1 ≤ to) × (p.1 ≤ length tokens.now.list))) }
    ensures counted { IfOk result (λ found. IfSome found (λ p. p.1 ≡ length p.0 + 1 + from)) }
    ensures none { IfOk result (λ found. IfNone found ((head : _) (left : _) → OpensBody (signs_between tokens.now.list from to) head left → ⊥)) }
{
    let mut head = List::new(alloc);
    let mut behind = false;
    let mut at = from;
    while let Some(token) = token_before(tokens, at, to) {
        if opens(tokens, at, to, behind) {
            return Ok(Some((head, at + 1)));
        }
        head.push(shared(token)?)?;
        behind = is_word(token);
        at = at + 1;
    }
    Ok(None)
}
