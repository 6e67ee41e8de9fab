// Specifiers, and the beginnings of structs' bodies (C99 6.7.1 to 6.7.4).
ghost use Rattle.std.specs.Prelude.{ℕ, Bool, ◌≡◌, ◌≤◌, ◌<◌, ◌+◌, ◌∷◌, ◌↔◌, codes, length, IsTrue, IfOk, IfSome, IfNone, MatchOption, OnSome, List as Sequence};
ghost use Rattle.po_tree.specs.declared.expression.Specifier.TheVariants as sp;
ghost use Rattle.po_tree.specs.Words.{IsName};
ghost use Rattle.po_tree.specs.Expressions.{untyped};
ghost use Rattle.po_tree.specs.NameSets.{AreSame};
ghost use Rattle.po_exp_parts.specs.Places.{signs_between, Begins};
ghost use Rattle.po_tree.specs.Signs.{word, brace};
ghost use Rattle.po_exp_parts.specs.Seen.{typed};
ghost use Rattle.po_decl_parts.specs.Specifiers.{TagRead, NoTag, Opens, SpecifierStands, IsSpecifierWord, FoundBehind, NoneBehind, NoSpecifier};

use crate::enumerators::enumerators_at;
use po_base::{Memory, Text, Tokens};
use po_exp_parts::ranges::{name_at, stands, word_at};
use po_exp_parts::seen::{Seen, is_untyped, takes_word};
use po_exp_parts::type_words::is_type_name;
use po_exp_parts::words::{is_qualifier, is_storage_class, is_type_word};
use po_tree::{Names, Specifier};
use std::alloc::Global;

/// A specifier that was found, and what may follow it.
#[derive(Drop)]
pub struct Found {
    pub specifier: Specifier,
    /// Whether a storage class may still come.
    pub free: bool,
    /// The type specifiers so far, with this one.
    pub seen: Seen,
    /// The place behind it.
    pub end: u32,
}

/// Whether a word is this keyword.
fn is_word(text: &Text, keyword: &[u8]) -> bool
    ensures { IsTrue result ↔ (text.now ≡ keyword.now) }
{
    text.bytes() == keyword
}

/// A specifier of one word.
fn of_word(text: &Text, free: bool, seen: Seen, end: u32) -> Result<Found, Memory>
    ensures { IfOk result (λ found. found ≡ record { specifier = sp.Word text.now; free = free; seen = seen; end = end }) }
{
    Ok(Found {
        specifier: Specifier::Word(text.share()?),
        free,
        seen,
        end,
    })
}

/// The tag at a place, where one is written, before the brace that opens a body, and the place behind the brace; None exactly where no
/// body opens.
fn tag_at(tokens: &Tokens, at: u32, to: u32) -> Result<Option<(Option<Text>, u32)>, Memory>
    ensures found { IfOk result (λ found. IfSome found (λ p. TagRead (signs_between tokens.now.list at to) p.0 (signs_between tokens.now.list p.1 to))) }
    ensures within { IfOk result (λ found. IfSome found (λ p. (at < p.1) × (p.1 ≤ to) × (p.1 ≤ length tokens.now.list))) }
    ensures none { IfOk result (λ found. IfNone found ((tag : _) (left : _) → TagRead (signs_between tokens.now.list at to) tag left → ⊥)) }
{
    if stands(tokens, at, to, b"{") {
        return Ok(Some((None, at + 1)));
    }
    let Some(tag) = name_at(tokens, at, to) else {
        return Ok(None);
    };
    let behind = at + 1;
    if !stands(tokens, behind, to, b"{") {
        return Ok(None);
    }
    Ok(Some((Some(tag.share()?), behind + 1)))
}

/// The beginning of a struct's body at a place, with its tag where one is written (C99 6.7.2.1), and the place behind its brace; None
/// exactly where none begins there.
pub fn opening_at(tokens: &Tokens, at: u32, to: u32) -> Result<Option<(Option<Text>, u32)>, Memory>
    ensures found { IfOk result (λ found. IfSome found (λ p. Opens (signs_between tokens.now.list at to) p.0 (signs_between tokens.now.list p.1 to))) }
    ensures within { IfOk result (λ found. IfSome found (λ p. (at < p.1) × (p.1 ≤ to) × (p.1 ≤ length tokens.now.list))) }
    ensures none { IfOk result (λ found. IfNone found ((tag : _) (left : _) → Opens (signs_between tokens.now.list at to) tag left → ⊥)) }
{
    let Some(text) = word_at(tokens, at, to) else {
        return Ok(None);
    };
    if !is_word(text, b"struct") {
        return Ok(None);
    }
    let Some((tag, end)) = tag_at(tokens, at + 1, to)? else {
        return Ok(None);
    };
    Ok(Some((tag, end)))
}

/// The tag at a place before something else than a brace.
fn lone_tag_at(tokens: &Tokens, at: u32, to: u32) -> Option<&Text>
    ensures first { MatchOption result (NoTag (signs_between tokens.now.list at to)) (λ tag. IsName tag.now × (signs_between tokens.now.list at to ≡ word tag.now ∷ signs_between tokens.now.list (at + 1) to) × (Begins brace (signs_between tokens.now.list (at + 1) to) → ⊥)) }
    ensures within { OnSome result ((at < to) × (at < length tokens.now.list)) }
{
    let Some(tag) = name_at(tokens, at, to) else {
        return None;
    };
    if stands(tokens, at + 1, to, b"{") {
        return None;
    }
    Some(tag)
}

/// The body of an enumeration, with its tag where one is written, that stands behind `enum`.
fn enum_body_at(
    alloc: Global,
    tokens: &Tokens,
    at: u32,
    to: u32,
    free: bool,
    names: &mut Names,
) -> Result<Option<Found>, Memory>
    ensures found { (outer : Bool) (types : Sequence (Sequence ℕ)) → AreSame types names.old.typedefs → IfOk result (λ found. IfSome found (λ f. FoundBehind outer (codes "enum") tokens.now.list at to free types untyped f names.new.typedefs)) }
    ensures kept { IfOk result (λ _. (names.new.tags ≡ names.old.tags) × (names.new.outer ≡ names.old.outer)) }
    ensures within { at ≤ to → at ≤ length tokens.now.list → IfOk result (λ found. IfSome found (λ f. (at ≤ f.end) × (f.end ≤ to) × (f.end ≤ length tokens.now.list))) }
    ensures none { (outer : Bool) (types : Sequence (Sequence ℕ)) → AreSame types names.old.typedefs → NoTag (signs_between tokens.now.list at to) → IfOk result (λ found. IfNone found (NoneBehind outer (codes "enum") (signs_between tokens.now.list at to) free types untyped)) }
{
    let Some((tag, inside)) = tag_at(tokens, at, to)? else {
        return Ok(None);
    };
    let Some(body) = enumerators_at(alloc, tokens, inside, to, names)? else {
        return Ok(None);
    };
    Ok(Some(Found {
        specifier: Specifier::Enum(tag, Some(body.items), body.more),
        free,
        seen: Seen::Name,
        end: body.end,
    }))
}

/// What stands behind `enum`: a tag alone, or a body with its tag where one is written.
fn enum_at(
    alloc: Global,
    tokens: &Tokens,
    at: u32,
    to: u32,
    free: bool,
    names: &mut Names,
) -> Result<Option<Found>, Memory>
    ensures found { (outer : Bool) (types : Sequence (Sequence ℕ)) → AreSame types names.old.typedefs → IfOk result (λ found. IfSome found (λ f. FoundBehind outer (codes "enum") tokens.now.list at to free types untyped f names.new.typedefs)) }
    ensures kept { IfOk result (λ _. (names.new.tags ≡ names.old.tags) × (names.new.outer ≡ names.old.outer)) }
    ensures within { at ≤ to → at ≤ length tokens.now.list → IfOk result (λ found. IfSome found (λ f. (at ≤ f.end) × (f.end ≤ to) × (f.end ≤ length tokens.now.list))) }
    ensures none { (outer : Bool) (types : Sequence (Sequence ℕ)) → AreSame types names.old.typedefs → IfOk result (λ found. IfNone found (NoneBehind outer (codes "enum") (signs_between tokens.now.list at to) free types untyped)) }
{
    let Some(tag) = lone_tag_at(tokens, at, to) else {
        return enum_body_at(alloc, tokens, at, to, free, names);
    };
    Ok(Some(Found {
        specifier: Specifier::Enum(Some(tag.share()?), None, false),
        free,
        seen: Seen::Name,
        end: at + 1,
    }))
}

/// The tag alone that stands behind `struct`.
fn struct_at(tokens: &Tokens, at: u32, to: u32, free: bool) -> Result<Option<Found>, Memory>
    ensures found { (outer : Bool) (types now : Sequence (Sequence ℕ)) → AreSame types now → IfOk result (λ found. IfSome found (λ f. FoundBehind outer (codes "struct") tokens.now.list at to free types untyped f now)) }
    ensures within { at ≤ to → at ≤ length tokens.now.list → IfOk result (λ found. IfSome found (λ f. (at ≤ f.end) × (f.end ≤ to) × (f.end ≤ length tokens.now.list))) }
    ensures none { (outer : Bool) (types : Sequence (Sequence ℕ)) → IfOk result (λ found. IfNone found (NoneBehind outer (codes "struct") (signs_between tokens.now.list at to) free types untyped)) }
{
    let Some(tag) = lone_tag_at(tokens, at, to) else {
        return Ok(None);
    };
    Ok(Some(Found {
        specifier: Specifier::Struct(Some(tag.share()?), None),
        free,
        seen: Seen::Name,
        end: at + 1,
    }))
}

/// The specifier that a word before a place begins where no type specifier came before it: a typedef name, a tag, or an enumeration.
fn first_type(
    alloc: Global,
    tokens: &Tokens,
    text: &Text,
    at: u32,
    to: u32,
    free: bool,
    names: &mut Names,
) -> Result<Option<Found>, Memory>
    ensures found { (outer : Bool) (types : Sequence (Sequence ℕ)) → AreSame types names.old.typedefs → IfOk result (λ found. IfSome found (λ f. FoundBehind outer text.now tokens.now.list at to free types untyped f names.new.typedefs)) }
    ensures kept { IfOk result (λ _. (names.new.tags ≡ names.old.tags) × (names.new.outer ≡ names.old.outer)) }
    ensures within { at ≤ to → at ≤ length tokens.now.list → IfOk result (λ found. IfSome found (λ f. (at ≤ f.end) × (f.end ≤ to) × (f.end ≤ length tokens.now.list))) }
    ensures none { (outer : Bool) (types : Sequence (Sequence ℕ)) → AreSame types names.old.typedefs → (IsSpecifierWord text.now → ⊥) → IfOk result (λ found. IfNone found (NoneBehind outer text.now (signs_between tokens.now.list at to) free types untyped)) }
{
    if is_word(text, b"enum") {
        return enum_at(alloc, tokens, at, to, free, names);
    }
    if is_word(text, b"struct") {
        return struct_at(tokens, at, to, free);
    }
    if !is_type_name(text, names) {
        return Ok(None);
    }
    Ok(Some(Found {
        specifier: Specifier::Named(text.share()?),
        free,
        seen: Seen::Name,
        end: at,
    }))
}

/// The specifier that a word before a place begins.
fn specifier_behind(
    alloc: Global,
    tokens: &Tokens,
    text: &Text,
    at: u32,
    to: u32,
    outer: bool,
    free: bool,
    seen: Seen,
    names: &mut Names,
) -> Result<Option<Found>, Memory>
    ensures found { (types : Sequence (Sequence ℕ)) → AreSame types names.old.typedefs → IfOk result (λ found. IfSome found (λ f. FoundBehind outer text.now tokens.now.list at to free types (typed seen) f names.new.typedefs)) }
    ensures kept { IfOk result (λ _. (names.new.tags ≡ names.old.tags) × (names.new.outer ≡ names.old.outer)) }
    ensures within { at ≤ to → at ≤ length tokens.now.list → IfOk result (λ found. IfSome found (λ f. (at ≤ f.end) × (f.end ≤ to) × (f.end ≤ length tokens.now.list))) }
    ensures none { (types : Sequence (Sequence ℕ)) → AreSame types names.old.typedefs → IfOk result (λ found. IfNone found (NoneBehind outer text.now (signs_between tokens.now.list at to) free types (typed seen))) }
{
    if is_qualifier(text.bytes()) {
        return Ok(Some(of_word(text, free, seen, at)?));
    }
    if is_storage_class(text.bytes()) {
        if !free {
            return Ok(None);
        }
        return Ok(Some(of_word(text, false, seen, at)?));
    }
    if is_word(text, b"inline") {
        if !outer {
            return Ok(None);
        }
        return Ok(Some(of_word(text, free, seen, at)?));
    }
    if is_type_word(text.bytes()) {
        if !takes_word(seen) {
            return Ok(None);
        }
        return Ok(Some(of_word(text, free, Seen::Words, at)?));
    }
    if !is_untyped(seen) {
        return Ok(None);
    }
    first_type(alloc, tokens, text, at, to, free, names)
}

/// The specifier that stands at a place, behind such specifiers: a word, a typedef name, a struct's tag alone, an enumeration's tag or its
/// whole body (C99 6.7.1 to 6.7.4); None exactly where none stands there. `outer` says that the place is not in a struct, where neither
/// a storage class nor `inline` stands; `free` says that a storage class may still come.
///
/// The names are those behind the specifier, since enumerators hide typedef names. After None and after `Memory` they are to be given up.
/// Time is linear in the tokens of the specifier, but for a logarithm.
pub fn specifier_at(
    alloc: Global,
    tokens: &Tokens,
    at: u32,
    to: u32,
    outer: bool,
    free: bool,
    seen: Seen,
    names: &mut Names,
) -> Result<Option<Found>, Memory>
    ensures found { (types : Sequence (Sequence ℕ)) → AreSame types names.old.typedefs → IfOk result (λ found. IfSome found (λ f. (behind : Sequence (Sequence ℕ)) × SpecifierStands outer free types (typed seen) (signs_between tokens.now.list at to) f.specifier f.free behind (typed f.seen) (signs_between tokens.now.list f.end to) × AreSame behind names.new.typedefs)) }
    ensures kept { IfOk result (λ _. (names.new.tags ≡ names.old.tags) × (names.new.outer ≡ names.old.outer)) }
    ensures within { IfOk result (λ found. IfSome found (λ f. (at < f.end) × (f.end ≤ to) × (f.end ≤ length tokens.now.list))) }
    ensures none { (types : Sequence (Sequence ℕ)) → AreSame types names.old.typedefs → IfOk result (λ found. IfNone found (NoSpecifier outer free types (typed seen) (signs_between tokens.now.list at to))) }
{
    let Some(text) = word_at(tokens, at, to) else {
        return Ok(None);
    };
    let next = at + 1;
    let Some(found) = specifier_behind(alloc, tokens, text, next, to, outer, free, seen, names)?
    else {
        return Ok(None);
    };
    Ok(Some(found))
}
