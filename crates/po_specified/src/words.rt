// Which words stand among specifiers.
ghost use Rattle.std.specs.Prelude.{ℕ, List as Bytes, ◌≡◌, ◌∷◌, MatchBool, MatchOption, Contains, All, map, codes, count_by, IsTrue, ◌↔◌};
ghost use Rattle.po_tree.specs.declared.expression.Specifier.TheVariants as sp;
ghost use Rattle.po_tree.specs.declared.expression.Specifier.{Specifier as SpecifierOf};
ghost use Rattle.po_typed.specs.BaseTypes.{HasWord, OnlyWords, IsPlainWord};
ghost use Rattle.po_specified.specs.Words.{says, IsSomeWord, Allows, IsTheOther};

use po_base::Text;
use po_tree::Specifier;

/// The storage classes and `inline` (C99 6.7.1, 6.7.4).
const CLASSES: [&[u8]; 6] = [
    b"inline",
    b"typedef",
    b"extern",
    b"static",
    b"auto",
    b"register",
];

/// The words of void and of the integer types (C99 6.7.2).
const TYPE_WORDS: [&[u8]; 8] = [
    b"void",
    b"char",
    b"short",
    b"int",
    b"long",
    b"signed",
    b"unsigned",
    b"_Bool",
];

/// Whether a specifier is a word, and which.
fn word_of(specifier: &Specifier) -> Option<&Text>
    ensures { MatchOption result (IsSomeWord specifier.now → ⊥) (λ text. specifier.now ≡ sp.Word text.now) }
{
    match specifier {
        Specifier::Word(text) => Some(text),
        Specifier::Named(_) => None,
        Specifier::Struct(_, _) => None,
        Specifier::Enum(_, _, _) => None,
    }
}

/// Whether a specifier is this word.
fn is_word(specifier: &Specifier, word: &[u8]) -> bool
    ensures test { result ≡ says word.now specifier.now }
    ensures is { MatchBool result (specifier.now ≡ sp.Word word.now) (specifier.now ≡ sp.Word word.now → ⊥) }
{
    match word_of(specifier) {
        None => false,
        Some(text) => text.bytes() == word,
    }
}

/// Whether a word stands among specifiers. Time linear in them.
pub fn has_word(specs: &[Specifier], word: &[u8]) -> bool
    ensures { MatchBool result (HasWord word.now specs.now) (HasWord word.now specs.now → ⊥) }
{
    for specifier in specs {
        if is_word(specifier, word) {
            return true;
        }
    }
    false
}

/// How many times a word stands among specifiers.
pub(crate) fn count(specs: &[Specifier], word: &[u8]) -> usize
    ensures { result ≡ count_by (says word.now) specs.now }
{
    let mut count = 0;
    for specifier in specs {
        if is_word(specifier, word) {
            count += 1;
        }
    }
    count
}

/// Whether all specifiers are words.
pub(crate) fn are_words(specs: &[Specifier]) -> bool
    ensures { MatchBool result (All IsSomeWord specs.now) (All IsSomeWord specs.now → ⊥) }
{
    for specifier in specs {
        match word_of(specifier) {
            None => return false,
            Some(_) => {}
        }
    }
    true
}

/// Whether a text is one of these words.
fn is_among(text: &[u8], words: &[&[u8]]) -> bool
    ensures { IsTrue result ↔ Contains (map (λ w. w.now) words.now) text.now }
{
    for word in words {
        if *word == text {
            return true;
        }
    }
    false
}

/// Whether a word stands among specifiers only where it is allowed.
fn is_allowed(specs: &[Specifier], word: &[u8], allowed: &[&[u8]]) -> bool
    ensures { MatchBool result (Allows (map (λ w. w.now) allowed.now) specs.now word.now) (Allows (map (λ w. w.now) allowed.now) specs.now word.now → ⊥) }
{
    if !has_word(specs, word) {
        return true;
    }
    is_among(word, allowed)
}

/// Whether each of some words stands among specifiers only where it is allowed.
fn only_among(specs: &[Specifier], words: &[&[u8]], allowed: &[&[u8]]) -> bool
    ensures { MatchBool result
        ((word : Bytes ℕ) → Contains (map (λ w. w.now) words.now) word → Allows (map (λ w. w.now) allowed.now) specs.now word)
        (((word : Bytes ℕ) → Contains (map (λ w. w.now) words.now) word → Allows (map (λ w. w.now) allowed.now) specs.now word) → ⊥) }
{
    for word in words {
        if !is_allowed(specs, word, allowed) {
            return false;
        }
    }
    true
}

/// Whether storage classes and `inline` stand among specifiers only where they are allowed (C99 6.7.1, 6.7.4). Time linear in the specifiers.
pub fn only_words(specs: &[Specifier], allowed: &[&[u8]]) -> bool
    ensures { MatchBool result (OnlyWords (map (λ w. w.now) allowed.now) specs.now) (OnlyWords (map (λ w. w.now) allowed.now) specs.now → ⊥) }
{
    only_among(specs, &CLASSES, allowed)
}

/// Whether a specifier is a storage class, a qualifier or `inline`.
pub fn is_plain_word(specifier: &Specifier) -> bool
    ensures { MatchBool result (IsPlainWord specifier.now) (IsPlainWord specifier.now → ⊥) }
{
    match word_of(specifier) {
        None => false,
        Some(text) => {
            if is_among(text.bytes(), &TYPE_WORDS) {
                return false;
            }
            true
        }
    }
}

/// Whether all specifiers are storage classes, qualifiers or `inline`.
fn are_plain_words(specs: &[Specifier]) -> bool
    ensures { MatchBool result (All IsPlainWord specs.now) (All IsPlainWord specs.now → ⊥) }
{
    for specifier in specs {
        if !is_plain_word(specifier) {
            return false;
        }
    }
    true
}

/// The one specifier that is no storage class, qualifier or `inline`; None exactly where there isn't just one. Time linear in the specifiers.
pub fn the_other(specs: &[Specifier]) -> Option<&Specifier>
    ensures { MatchOption result ((s : SpecifierOf) → IsTheOther specs.now s → ⊥) (λ s. IsTheOther specs.now s.now) }
{
    for i in 0..specs.len() {
        let specifier = &specs[i];
        if !is_plain_word(specifier) {
            if !are_plain_words(&specs[i + 1..]) {
                return None;
            }
            return Some(specifier);
        }
    }
    None
}
