// Kinds of parts, as their first bytes tell them.
ghost use Rattle.std.specs.Prelude.{◌≡◌};
ghost use Rattle.po_lex.specs.PartKinds.{part_kind_at};

use crate::bytes::is_digit;

/// What stands at a place, as the first two bytes there tell.
#[derive(Clone, Copy, Debug, PartialEq, Eq)]
pub enum PartKind {
    /// A blank of one byte.
    Blank,
    /// A backslash and the newline after it.
    Splice,
    /// A comment between `/*` and `*/`.
    Comment,
    /// A comment from `//` to the end of the line.
    LineComment,
    Word,
    Number,
    Char,
    Str,
    /// A line of the preprocessor from its `#` on.
    Directive,
    /// A punctuator, or nothing.
    Punctuator,
}

/// What the first two bytes begin; `second` is 0 where there is no second. The first byte alone tells, but for a
/// backslash, `/` and `.`.
pub(crate) fn part_kind_at(first: u8, second: u8) -> PartKind
    ensures { result ≡ part_kind_at first second }
{
    match first {
        b'\t'..=b'\r' => PartKind::Blank,
        b' ' => PartKind::Blank,
        b'a'..=b'z' => PartKind::Word,
        b'A'..=b'Z' => PartKind::Word,
        b'_' => PartKind::Word,
        b'$' => PartKind::Word,
        b'0'..=b'9' => PartKind::Number,
        b'.' => after_dot(second),
        b'\'' => PartKind::Char,
        b'"' => PartKind::Str,
        b'#' => PartKind::Directive,
        b'\\' => after_backslash(second),
        b'/' => after_slash(second),
        _ => PartKind::Punctuator,
    }
}

/// What a `.` begins before this byte.
fn after_dot(second: u8) -> PartKind
    ensures { result ≡ part_kind_at 46 second }
{
    if is_digit(second) {
        return PartKind::Number;
    }
    PartKind::Punctuator
}

/// What a backslash begins before this byte.
fn after_backslash(second: u8) -> PartKind
    ensures { result ≡ part_kind_at 92 second }
{
    if second == b'\n' {
        return PartKind::Splice;
    }
    PartKind::Punctuator
}

/// What a `/` begins before this byte.
fn after_slash(second: u8) -> PartKind
    ensures { result ≡ part_kind_at 47 second }
{
    match second {
        b'*' => PartKind::Comment,
        b'/' => PartKind::LineComment,
        _ => PartKind::Punctuator,
    }
}
