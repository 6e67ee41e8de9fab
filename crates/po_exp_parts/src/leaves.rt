// Operands of one token, string literals, and what goes on with an operand.
ghost use Rattle.std.specs.Prelude.{ℕ, ◌≡◌, ◌≤◌, ◌<◌, ◌+◌, ◌∷◌, ◌↔◌, IsTrue, Contains, length, IfOk, MatchOption};
ghost use Rattle.std.specs.Prelude.{List as Sequence};
ghost use Rattle.po_tree.specs.declared.expression.Exp.{Exp as Tree};
ghost use Rattle.po_tree.specs.Signs.{Sign, sign_of};
ghost use Rattle.po_tree.specs.Words.{IsName};
ghost use Rattle.po_tree.specs.Expressions.{IsLeaf};
ghost use Rattle.po_exp_parts.specs.declared.continuation.Continuation.{Continuation as Next};
ghost use Rattle.po_exp_parts.specs.declared.continuation.Continuation.TheVariants as c;
ghost use Rattle.po_exp_parts.specs.Continuing.{opens, tail_height};
ghost use Rattle.po_exp_parts.specs.Reading.{Follows};
ghost use Rattle.po_exp_parts.specs.Places.{signs_from, BeginsString, BeginsOtherwise};
ghost use Rattle.po_exp_parts.specs.Finding.{Finds, operand_height, StandsAsOperand, Continues};

use crate::continuation::Continuation;
use crate::found::{Found, Leveled, Tail};
use crate::levels::POSTFIX;
use crate::literals::{is_character, is_integer};
use crate::operators::{continuation_of, least_before, level_of};
use crate::places::{name_at, string_at};
use crate::words::is_name;
use po_base::{List, Memory, Text, Token, TokenKind};
use po_tree::{Exp, Names, Selector};
use std::alloc::Global;

/// The continuation that stands at a place, where there is one of level `low` or a higher one that takes an operand of
/// level `high` before it (C99 6.5.2, 6.5.5 to 6.5.17).
pub fn continuation_at(tokens: &[Token], at: usize, low: u8, high: u8) -> Option<Continuation>
    ensures { MatchOption result ((c : Next) (left : Sequence Sign) → Continues low high c → signs_from tokens.now at ≡ opens c ∷ left → ⊥) (λ c. Continues low high c × (signs_from tokens.now at ≡ opens c ∷ signs_from tokens.now (at + 1)) × (at < length tokens.now)) }
{
    if at >= tokens.len() {
        return None;
    }
    let next = continuation_of(&tokens[at])?;
    if level_of(next) < low {
        return None;
    }
    if least_before(next) > high {
        return None;
    }
    Some(next)
}

/// Whether a word is a name that is no typedef name.
fn is_variable(text: &Text, names: &Names) -> bool
    ensures { IsTrue result ↔ (IsName text.now × (Contains names.now.typedefs text.now → ⊥)) }
{
    if !is_name(text.bytes()) {
        return false;
    }
    !names.is_type(text)
}

/// The operand of one token.
fn leaf_of(token: &Token, names: &Names) -> Result<Option<Exp>, Memory>
    ensures { IfOk result (λ found. MatchOption found ((x : Tree) → IsLeaf names.now.typedefs x (sign_of token.now) → ⊥) (λ x. IsLeaf names.now.typedefs x (sign_of token.now))) }
{
    let text = &token.text;
    match token.kind {
        TokenKind::Word => {
            if !is_variable(text, names) {
                return Ok(None);
            }
            Ok(Some(Exp::Var(text.share()?)))
        }
        TokenKind::Number => {
            if !is_integer(text.bytes()) {
                return Ok(None);
            }
            Ok(Some(Exp::Num(text.share()?)))
        }
        TokenKind::Char => {
            if !is_character(text.bytes()) {
                return Ok(None);
            }
            Ok(Some(Exp::Chr(text.share()?)))
        }
        TokenKind::Str => Ok(None),
        TokenKind::Punct => Ok(None),
    }
}

/// The name, the number or the character at a place, as an operand (C99 6.5.1); None exactly where none stands there. `Memory` where
/// memory is refused.
pub fn leaf_at(tokens: &[Token], names: &Names, at: usize) -> Result<Option<Found<Leveled>>, Memory>
    requires inside { at < length tokens.now }
    requires plain { BeginsOtherwise (signs_from tokens.now at) }
    ensures { (least depth : ℕ) → least ≤ 15 → 1 ≤ depth → IfOk result (λ found. Finds operand_height (StandsAsOperand names.now.typedefs least (signs_from tokens.now at)) depth at tokens.now found) }
{
    match leaf_of(&tokens[at], names)? {
        Some(value) => Ok(Some(Found {
            value: Leveled {
                value,
                level: POSTFIX,
            },
            height: 1,
            end: at + 1,
        })),
        None => Ok(None),
    }
}

/// The member's name at a place (C99 6.5.2.3); None exactly where none stands there. `Memory` where memory is refused.
pub fn selected_at(tokens: &[Token], at: usize, s: Selector) -> Result<Option<Found<Tail>>, Memory>
    ensures { (types : Sequence (Sequence ℕ)) (depth : ℕ) → IfOk result (λ found. Finds tail_height (Follows types (c.Select s) (signs_from tokens.now at)) depth at tokens.now found) }
{
    match name_at(tokens, at) {
        Some(name) => Ok(Some(Found {
            value: Tail::Selected(s, name.share()?),
            height: 0,
            end: at + 1,
        })),
        None => Ok(None),
    }
}

/// The string literals side by side at a place, as an operand (C99 6.5.1, 6.4.5); None where none is well formed. Time linear in their bytes.
/// `Memory` where memory is refused.
pub fn strings_at(
    alloc: Global,
    tokens: &[Token],
    at: usize,
) -> Result<Option<Found<Leveled>>, Memory>
    requires inside { at < length tokens.now }
    requires string { BeginsString (signs_from tokens.now at) }
    ensures { (types : Sequence (Sequence ℕ)) (least depth : ℕ) → least ≤ 15 → 1 ≤ depth → IfOk result (λ found. Finds operand_height (StandsAsOperand types least (signs_from tokens.now at)) depth at tokens.now found) }
{
    let mut texts = List::new(alloc);
    let mut end = at;
    while let Some(text) = string_at(tokens, end) {
        texts.push(text.share()?)?;
        end += 1;
    }
    if texts.is_empty() {
        return Ok(None);
    }
    Ok(Some(Found {
        value: Leveled {
            value: Exp::Str(texts),
            level: POSTFIX,
        },
        height: 1,
        end,
    }))
}
