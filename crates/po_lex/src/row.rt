// Rows of bytes: how far a word, a number, a comment or a literal goes on.
ghost use Rattle.std.specs.Prelude.{◌≡◌, ◌≤◌, ◌-◌, length, take, drop};
ghost use Rattle.po_lex.specs.Rows.{goes_on, behind, front, skip};

use crate::bytes::{are, is_digit, is_exponent, is_letter, is_space};

/// How bytes go on in a row.
#[derive(Clone, Copy, Debug, PartialEq, Eq)]
pub enum Row {
    /// No byte.
    Nothing,
    /// The bytes of a word: letters, digits, `_` and `$`.
    Word,
    /// The bytes of a number of the preprocessor, after its first.
    Number,
    /// The bytes up to a newline.
    Line,
    /// The bytes of a comment up to the `/` that closes it.
    Comment,
    /// The bytes of a literal up to this quote, or to a newline.
    Literal(u8),
    /// Blanks within a line.
    Spaces,
    /// Decimal digits.
    Digits,
    /// Blanks within a line and decimal digits.
    Flags,
}

/// Whether a number goes on with this byte after the byte `before`.
fn number_goes_on(before: u8, byte: u8) -> bool
    ensures { result ≡ goes_on Row.Number before byte }
{
    is_letter(byte)
        || is_digit(byte)
        || byte == b'.'
        || (byte == b'+' || byte == b'-') && is_exponent(before)
}

/// For each byte, whether a word goes on with it: whether it is a letter, a digit, `_` or `$`.
const WORD_BYTES: [bool; 256] = [
    false, false, false, false, false, false, false, false, false, false, false, false, false,
    false, false, false, false, false, false, false, false, false, false, false, false, false,
    false, false, false, false, false, false, false, false, false, false, true, false, false,
    false, false, false, false, false, false, false, false, false, true, true, true, true, true,
    true, true, true, true, true, false, false, false, false, false, false, false, true, true,
    true, true, true, true, true, true, true, true, true, true, true, true, true, true, true, true,
    true, true, true, true, true, true, true, true, false, false, false, false, true, false, true,
    true, true, true, true, true, true, true, true, true, true, true, true, true, true, true, true,
    true, true, true, true, true, true, true, true, true, false, false, false, false, false, false,
    false, false, false, false, false, false, false, false, false, false, false, false, false,
    false, false, false, false, false, false, false, false, false, false, false, false, false,
    false, false, false, false, false, false, false, false, false, false, false, false, false,
    false, false, false, false, false, false, false, false, false, false, false, false, false,
    false, false, false, false, false, false, false, false, false, false, false, false, false,
    false, false, false, false, false, false, false, false, false, false, false, false, false,
    false, false, false, false, false, false, false, false, false, false, false, false, false,
    false, false, false, false, false, false, false, false, false, false, false, false, false,
    false, false, false, false, false, false, false, false, false, false, false, false, false,
    false, false, false, false, false, false, false, false, false, false,
];

/// Whether a word goes on with this byte.
fn word_goes_on(byte: u8) -> bool
    ensures { result ≡ goes_on Row.Word (0) byte }
{
    WORD_BYTES[usize::from(byte)]
}

/// Whether the row goes on with this byte, where `before` is the byte to look back on.
fn goes_on(row: Row, before: u8, byte: u8) -> bool
    ensures { result ≡ goes_on row before byte }
{
    match row {
        Row::Nothing => false,
        Row::Word => word_goes_on(byte),
        Row::Number => number_goes_on(before, byte),
        Row::Line => byte != b'\n',
        Row::Comment => !are(before, byte, b'*', b'/'),
        Row::Literal(quote) => byte != b'\n' && (before == b'\\' || byte != quote),
        Row::Spaces => is_space(byte),
        Row::Digits => is_digit(byte),
        Row::Flags => is_space(byte) || is_digit(byte),
    }
}

/// What the next byte of the row looks back on.
fn behind(row: Row, before: u8, byte: u8) -> u8
    ensures { result ≡ behind row before byte }
{
    match row {
        Row::Literal(_) => { if before == b'\\' { 0 } else { byte } }
        _ => byte,
    }
}

/// Where the longest row from `at` on ends. Time linear in its bytes. The rows that most bytes stand
/// in have loops of their own.
pub(crate) fn row_end(bytes: &[u8], at: usize, row: Row) -> usize
    requires { at ≤ length bytes.now }
    ensures after { at ≤ result }
    ensures within { result ≤ length bytes.now }
    ensures front { take (result - at) (drop at bytes.now) ≡ front row (0) (drop at bytes.now) }
    ensures rest { drop result bytes.now ≡ skip row (0) (drop at bytes.now) }
{
    match row {
        Row::Word => word_end(bytes, at),
        Row::Line => line_end(bytes, at),
        Row::Literal(quote) => literal_end(bytes, at, quote),
        _ => end_of(bytes, at, row),
    }
}

/// Where the longest row from `at` on ends. Time linear in its bytes.
fn end_of(bytes: &[u8], at: usize, row: Row) -> usize
    requires { at ≤ length bytes.now }
    ensures after { at ≤ result }
    ensures within { result ≤ length bytes.now }
    ensures front { take (result - at) (drop at bytes.now) ≡ front row (0) (drop at bytes.now) }
    ensures rest { drop result bytes.now ≡ skip row (0) (drop at bytes.now) }
{
    let mut end = at;
    let mut before = 0;
    while end < bytes.len() {
        if !goes_on(row, before, bytes[end]) {
            return end;
        }
        before = behind(row, before, bytes[end]);
        end += 1;
    }
    end
}

/// Where the bytes of a word from `at` on end. Time linear in them.
pub(crate) fn word_end(bytes: &[u8], at: usize) -> usize
    requires { at ≤ length bytes.now }
    ensures after { at ≤ result }
    ensures within { result ≤ length bytes.now }
    ensures front { take (result - at) (drop at bytes.now) ≡ front Row.Word (0) (drop at bytes.now) }
    ensures rest { drop result bytes.now ≡ skip Row.Word (0) (drop at bytes.now) }
{
    let mut end = at;
    let mut before = 0;
    while end < bytes.len() {
        if !goes_on(Row::Word, before, bytes[end]) {
            return end;
        }
        before = behind(Row::Word, before, bytes[end]);
        end += 1;
    }
    end
}

/// Where the line ends that goes on at `at`. Time linear in its bytes.
fn line_end(bytes: &[u8], at: usize) -> usize
    requires { at ≤ length bytes.now }
    ensures after { at ≤ result }
    ensures within { result ≤ length bytes.now }
    ensures front { take (result - at) (drop at bytes.now) ≡ front Row.Line (0) (drop at bytes.now) }
    ensures rest { drop result bytes.now ≡ skip Row.Line (0) (drop at bytes.now) }
{
    let mut end = at;
    let mut before = 0;
    while end < bytes.len() {
        if !goes_on(Row::Line, before, bytes[end]) {
            return end;
        }
        before = behind(Row::Line, before, bytes[end]);
        end += 1;
    }
    end
}

/// Where the literal ends that goes on at `at`. Time linear in its bytes.
fn literal_end(bytes: &[u8], at: usize, quote: u8) -> usize
    requires { at ≤ length bytes.now }
    ensures after { at ≤ result }
    ensures within { result ≤ length bytes.now }
    ensures front { take (result - at) (drop at bytes.now) ≡ front (Row.Literal quote) (0) (drop at bytes.now) }
    ensures rest { drop result bytes.now ≡ skip (Row.Literal quote) (0) (drop at bytes.now) }
{
    let mut end = at;
    let mut before = 0;
    while end < bytes.len() {
        if !goes_on(Row::Literal(quote), before, bytes[end]) {
            return end;
        }
        before = behind(Row::Literal(quote), before, bytes[end]);
        end += 1;
    }
    end
}
