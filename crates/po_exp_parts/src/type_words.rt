// The words of a type name.
ghost use Rattle.std.specs.Prelude.{◌≤◌, ◌<◌, ◌+◌, ◌↔◌, length, IsTrue, Contains, IfOk, IfSome, IfNone};
ghost use Rattle.po_tree.specs.Words.{IsName};
ghost use Rattle.po_tree.specs.Expressions.{untyped};
ghost use Rattle.po_exp_parts.specs.TypeWords.{IsTypeStart, StartsType, SpecsRead};
ghost use Rattle.po_exp_parts.specs.OneSpecifier.{TagRead, StandsBehind, NoneBehind};
ghost use Rattle.po_exp_parts.specs.Places.{signs_from};

use crate::places::{name_at, word_at};
use crate::seen::{Seen, is_untyped, takes_word};
use crate::words::{is_name, is_qualifier, is_type_keyword, is_type_word};
use po_base::{List, Memory, Text, Token};
use po_tree::{Names, Specifier};
use std::alloc::Global;

/// Whether a word is a typedef name in force (C99 6.7.7).
pub fn is_type_name(text: &Text, names: &Names) -> bool
    ensures { IsTrue result ↔ (IsName text.now × Contains names.now.typedefs text.now) }
{
    if !is_name(text.bytes()) {
        return false;
    }
    names.is_type(text)
}

/// Whether a type name may begin with a word.
fn is_type_start(text: &Text, names: &Names) -> bool
    ensures { IsTrue result ↔ IsTypeStart names.now.typedefs text.now }
{
    if is_type_keyword(text.bytes()) {
        return true;
    }
    is_type_name(text, names)
}

/// Whether a type name may begin at a place (C99 6.7.6).
pub fn starts_type(tokens: &[Token], at: usize, names: &Names) -> bool
    ensures { IsTrue result ↔ StartsType names.now.typedefs (signs_from tokens.now at) }
{
    match word_at(tokens, at) {
        Some(text) => is_type_start(text, names),
        None => false,
    }
}

/// The struct or the enumeration that a word before a place begins, where the word is one of theirs and a tag stands at the place.
fn tag_at(tokens: &[Token], text: &Text, at: usize) -> Result<Option<Specifier>, Memory>
    ensures found { IfOk result (λ found. IfSome found (λ spec. TagRead text.now (signs_from tokens.now at) spec (signs_from tokens.now (at + 1)))) }
    ensures within { IfOk result (λ found. IfSome found (λ _. at < length tokens.now)) }
    ensures none { IfOk result (λ found. IfNone found ((spec : _) (left : _) → TagRead text.now (signs_from tokens.now at) spec left → ⊥)) }
{
    let Some(tag) = name_at(tokens, at) else {
        return Ok(None);
    };
    if text.bytes() == b"struct".as_slice() {
        return Ok(Some(Specifier::Struct(Some(tag.share()?), None)));
    }
    if text.bytes() == b"enum".as_slice() {
        return Ok(Some(Specifier::Enum(Some(tag.share()?), None, false)));
    }
    Ok(None)
}

/// The specifier that the word before a place begins, behind such specifiers; what is seen with it; and the place behind it.
fn spec_at(
    tokens: &[Token],
    text: &Text,
    at: usize,
    seen: Seen,
    names: &Names,
) -> Result<Option<(Specifier, Seen, usize)>, Memory>
    requires { at ≤ length tokens.now }
    ensures found { IfOk result (λ found. IfSome found (StandsBehind names.now.typedefs text.now tokens.now at seen)) }
    ensures within { IfOk result (λ found. IfSome found (λ spec. (at ≤ spec.2) × (spec.2 ≤ length tokens.now))) }
    ensures none { IfOk result (λ found. IfNone found (NoneBehind names.now.typedefs text.now tokens.now at seen)) }
{
    if is_qualifier(text.bytes()) {
        return Ok(Some((Specifier::Word(text.share()?), seen, at)));
    }
    if is_type_word(text.bytes()) {
        if !takes_word(seen) {
            return Ok(None);
        }
        return Ok(Some((Specifier::Word(text.share()?), Seen::Words, at)));
    }
    if !is_untyped(seen) {
        return Ok(None);
    }
    if is_type_name(text, names) {
        return Ok(Some((Specifier::Named(text.share()?), Seen::Name, at)));
    }
    match tag_at(tokens, text, at)? {
        Some(tag) => Ok(Some((tag, Seen::Name, at + 1))),
        None => Ok(None),
    }
}

/// All specifiers of a type name at a place (C99 6.7.6), up to the first token that is no word, where these words are specifiers of one.
/// Time is linear in them, apart from the search for each name. `Memory` where memory is refused.
pub fn specs_at(
    alloc: Global,
    tokens: &[Token],
    at: usize,
    names: &Names,
) -> Result<Option<(List<Specifier>, usize)>, Memory>
    requires { at ≤ length tokens.now }
    ensures found { IfOk result (λ found. IfSome found (λ p. SpecsRead names.now.typedefs untyped (signs_from tokens.now at) p.0 (signs_from tokens.now p.1))) }
    ensures within { IfOk result (λ found. IfSome found (λ p. (at ≤ p.1) × (p.1 ≤ length tokens.now))) }
    ensures none { IfOk result (λ found. IfNone found ((specs : _) (left : _) → SpecsRead names.now.typedefs untyped (signs_from tokens.now at) specs left → ⊥)) }
{
    let mut specs = List::new(alloc);
    let mut seen = Seen::Nothing;
    let mut next = at;
    while let Some(text) = word_at(tokens, next) {
        let Some((spec, now, end)) = spec_at(tokens, text, next + 1, seen, names)? else {
            return Ok(None);
        };
        specs.push(spec)?;
        seen = now;
        next = end;
    }
    Ok(Some((specs, next)))
}
