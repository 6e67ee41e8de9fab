// Kinds of bytes (C99 5.2.1, 6.4).
ghost use Rattle.std.specs.Prelude.{◌≡◌};
ghost use Rattle.po_lex.specs.Bytes.{is_blank, is_space, is_gap, is_digit, is_letter, is_exponent, are};

/// Whether a byte is a blank within a line: space, tab, vertical tab, form feed or carriage return.
pub(crate) fn is_space(byte: u8) -> bool
    ensures { result ≡ is_space byte }
{
    byte == b' ' || byte == b'\t' || byte == 11 || byte == 12 || byte == b'\r'
}

/// Whether a byte is a blank by itself.
pub(crate) fn is_blank(byte: u8) -> bool
    ensures { result ≡ is_blank byte }
{
    match byte {
        b'\t'..=b'\r' => true,
        b' ' => true,
        _ => false,
    }
}

/// Whether a byte is a space or a tab.
pub(crate) fn is_gap(byte: u8) -> bool
    ensures { result ≡ is_gap byte }
{
    byte == b' ' || byte == b'\t'
}

/// Whether a byte is a decimal digit.
pub(crate) fn is_digit(byte: u8) -> bool
    ensures { result ≡ is_digit byte }
{
    b'0' <= byte && byte <= b'9'
}

/// Whether a byte is a letter or `_`.
pub(crate) fn is_letter(byte: u8) -> bool
    ensures { result ≡ is_letter byte }
{
    b'a' <= byte && byte <= b'z' || b'A' <= byte && byte <= b'Z' || byte == b'_'
}

/// Whether a byte begins the exponent of a number.
pub(crate) fn is_exponent(byte: u8) -> bool
    ensures { result ≡ is_exponent byte }
{
    byte == b'e' || byte == b'E' || byte == b'p' || byte == b'P'
}

/// Whether two bytes are these.
pub(crate) fn are(first: u8, second: u8, one: u8, two: u8) -> bool
    ensures { result ≡ are first second one two }
{
    first == one && second == two
}
