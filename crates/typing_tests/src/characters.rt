use po_constants::character;

/// Whether a text is a character constant of this value; None stands for no constant.
fn is_character(text: &[u8], wanted: Option<i128>) -> bool {
    match character(text) {
        None => wanted.is_none(),
        Some(value) => match wanted {
            None => false,
            Some(other) => value == other,
        },
    }
}

#[test]
fn characters_are_signed_chars(rt: HostRuntime) {
    let rows: [(&[u8], i128); 28] = [
        (b"'a'", 97),
        (b"' '", 32),
        (b"'\"'", 34),
        (b"'\\n'", 10),
        (b"'\\t'", 9),
        (b"'\\r'", 13),
        (b"'\\a'", 7),
        (b"'\\b'", 8),
        (b"'\\f'", 12),
        (b"'\\v'", 11),
        (b"'\\''", 39),
        (b"'\\\"'", 34),
        (b"'\\?'", 63),
        (b"'\\\\'", 92),
        (b"'\\0'", 0),
        (b"'\\101'", 65),
        (b"'\\7'", 7),
        (b"'\\177'", 127),
        (b"'\\200'", -128),
        (b"'\\377'", -1),
        (b"'\\x41'", 65),
        (b"'\\x7f'", 127),
        (b"'\\x80'", -128),
        (b"'\\xFF'", -1),
        (b"'\\x00000041'", 65),
        (b"'?'", 63),
        (&[39, 200, 39], -56),
        (&[39, 255, 39], -1),
    ];
    for (text, value) in rows {
        assert!(rt; is_character(text, Some(value)));
    }
}

#[test]
fn several_characters_and_unknown_escapes_are_no_constant(rt: HostRuntime) {
    let texts: [&[u8]; 14] = [
        b"",
        b"'",
        b"''",
        b"'ab'",
        b"'a",
        b"a'",
        b"'\\400'",
        b"'\\x100'",
        b"'\\x'",
        b"'\\q'",
        b"'\\1234'",
        b"'\n'",
        b"\"a\"",
        b"L'a'",
    ];
    for text in texts {
        assert!(rt; is_character(text, None));
    }
}
