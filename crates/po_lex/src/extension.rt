// The words of the compiler's own that are dropped or read as others.
ghost use Rattle.std.specs.Prelude.{◌≡◌, ◌∷◌, [], cond, map};
ghost use Rattle.po_lex.specs.Keeping.{extension_of, extension_word, is_among, is_one_of, telling, tells};

use crate::nesting::is_word;
use po_base::Token;

/// What a word of the compiler's own asks for.
#[derive(Clone, Copy, Debug, PartialEq, Eq)]
pub enum Extension {
    /// It is no such word.
    Other,
    /// It is dropped: `__extension__`, `__restrict` and `__restrict__`.
    Dropped,
    /// It begins an attribute: `__attribute__`.
    Attribute,
    /// It begins assembler code: `__asm__`.
    Assembler,
    /// It is read as `inline`: `__inline` and `__inline__`.
    Inline,
    /// It is read as `const`: `__const`.
    Const,
}

/// What a text is that may be this word.
fn one(text: &[u8], word: &[u8], extension: Extension) -> Extension
    ensures { result ≡ cond (is_among (word.now ∷ []) text.now) extension Extension.Other }
{
    if word == text {
        extension
    } else {
        Extension::Other
    }
}

/// What a text is that may be one of these two words.
fn one_of_two(
    text: &[u8],
    first: &[u8],
    one: Extension,
    second: &[u8],
    other: Extension,
) -> Extension
    ensures { result ≡ cond (is_among (first.now ∷ []) text.now) one (cond (is_among (second.now ∷ []) text.now) other Extension.Other) }
{
    if first == text {
        return one;
    }
    if second == text {
        other
    } else {
        Extension::Other
    }
}

/// The word of the compiler's own that a text is. Its length tells which words it may be.
fn extension_word(text: &[u8]) -> Extension
    ensures { result ≡ extension_word text.now }
{
    match text.len() {
        7 => one_of_two(
            text,
            b"__asm__",
            Extension::Assembler,
            b"__const",
            Extension::Const,
        ),
        8 => one(text, b"__inline", Extension::Inline),
        10 => one_of_two(
            text,
            b"__restrict",
            Extension::Dropped,
            b"__inline__",
            Extension::Inline,
        ),
        12 => one(text, b"__restrict__", Extension::Dropped),
        13 => one_of_two(
            text,
            b"__extension__",
            Extension::Dropped,
            b"__attribute__",
            Extension::Attribute,
        ),
        _ => Extension::Other,
    }
}

/// The word of the compiler's own that a token is. Constant time.
pub(crate) fn extension_of(token: &Token) -> Extension
    ensures { result ≡ extension_of token.now }
{
    if is_word(token.kind) {
        extension_word(token.text.bytes())
    } else {
        Extension::Other
    }
}

/// Whether a text is one of these words. Time linear in their number.
fn is_among(words: &[&[u8]], text: &[u8]) -> bool
    ensures { result ≡ is_among (map (λ w. w.now) words.now) text.now }
{
    for word in words {
        if *word == text {
            return true;
        }
    }
    false
}

/// Whether a text is a word for which an attribute stays. Its length tells which words it may be.
fn tells_text(text: &[u8]) -> bool
    ensures { result ≡ is_among telling text.now }
{
    match text.len() {
        4 => is_among(&[b"mode"], text),
        6 => is_among(&[b"packed"], text),
        7 => is_among(&[b"aligned", b"cleanup"], text),
        8 => is_among(&[b"__mode__"], text),
        10 => is_among(&[b"__packed__"], text),
        11 => is_among(&[b"vector_size", b"__aligned__", b"__cleanup__"], text),
        15 => is_among(&[b"__vector_size__"], text),
        _ => false,
    }
}

/// Whether a token is a word for which an attribute stays. Constant time.
fn is_telling(token: &Token) -> bool
    ensures { result ≡ is_one_of telling token.now }
{
    is_word(token.kind) && tells_text(token.text.bytes())
}

/// Whether one of the tokens is a word for which an attribute stays. Time linear in their number.
pub(crate) fn tells(tokens: &[Token]) -> bool
    ensures { result ≡ tells tokens.now }
{
    for token in tokens {
        if is_telling(token) {
            return true;
        }
    }
    false
}
