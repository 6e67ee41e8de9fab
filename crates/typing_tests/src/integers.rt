use po_arith::{IntType, Target};
use po_constants::number;

const INT: IntType = IntType {
    bits: 32,
    signed: true,
};

const UNSIGNED: IntType = IntType {
    bits: 32,
    signed: false,
};

const LONG: IntType = IntType {
    bits: 64,
    signed: true,
};

const UNSIGNED_LONG: IntType = IntType {
    bits: 64,
    signed: false,
};

/// Whether a text is a constant of this type and value; None stands for no constant.
fn is_number(text: &[u8], wanted: Option<(IntType, u64)>) -> bool {
    match number(text, Target::L64) {
        None => wanted.is_none(),
        Some((t, value)) => match wanted {
            None => false,
            Some((u, other)) => t == u && value == other,
        },
    }
}

#[test]
fn decimal_constants_have_the_first_signed_type_that_holds_them(rt: HostRuntime) {
    let rows: [(&[u8], IntType, u64); 6] = [
        (b"1", INT, 1),
        (b"2147483647", INT, 2147483647),
        (b"2147483648", LONG, 2147483648),
        (b"4294967295", LONG, 4294967295),
        (b"4294967296", LONG, 4294967296),
        (b"9223372036854775807", LONG, 9223372036854775807),
    ];
    for (text, t, value) in rows {
        assert!(rt; is_number(text, Some((t, value))));
    }
}

#[test]
fn octal_and_hexadecimal_constants_may_be_unsigned(rt: HostRuntime) {
    let rows: [(&[u8], IntType, u64); 18] = [
        (b"0", INT, 0),
        (b"0x0", INT, 0),
        (b"017777777777", INT, 2147483647),
        (b"020000000000", UNSIGNED, 2147483648),
        (b"037777777777", UNSIGNED, 4294967295),
        (b"040000000000", LONG, 4294967296),
        (b"0777777777777777777777", LONG, 9223372036854775807),
        (
            b"01000000000000000000000",
            UNSIGNED_LONG,
            9223372036854775808,
        ),
        (
            b"01777777777777777777777",
            UNSIGNED_LONG,
            18446744073709551615,
        ),
        (b"0x7fffffff", INT, 2147483647),
        (b"0X80000000", UNSIGNED, 2147483648),
        (b"0xFFFFffff", UNSIGNED, 4294967295),
        (b"0x100000000", LONG, 4294967296),
        (b"0x7fffffffffffffff", LONG, 9223372036854775807),
        (b"0x8000000000000000", UNSIGNED_LONG, 9223372036854775808),
        (b"0xffffffffffffffff", UNSIGNED_LONG, 18446744073709551615),
        (b"000000000000000000000000000010", INT, 8),
        (b"0x000000000000000000000000000010", INT, 16),
    ];
    for (text, t, value) in rows {
        assert!(rt; is_number(text, Some((t, value))));
    }
}

#[test]
fn suffixes_leave_out_narrower_types_and_signed_ones(rt: HostRuntime) {
    let rows: [(&[u8], IntType, u64); 22] = [
        (b"1u", UNSIGNED, 1),
        (b"4294967295U", UNSIGNED, 4294967295),
        (b"4294967296u", UNSIGNED_LONG, 4294967296),
        (
            b"18446744073709551615u",
            UNSIGNED_LONG,
            18446744073709551615,
        ),
        (b"0xffffffffu", UNSIGNED, 4294967295),
        (b"1l", LONG, 1),
        (b"2147483648L", LONG, 2147483648),
        (b"9223372036854775807l", LONG, 9223372036854775807),
        (b"0x7fffffffL", LONG, 2147483647),
        (b"0x8000000000000000l", UNSIGNED_LONG, 9223372036854775808),
        (b"1ll", LONG, 1),
        (b"9223372036854775807LL", LONG, 9223372036854775807),
        (b"01ll", LONG, 1),
        (b"0xffffffffffffffffLL", UNSIGNED_LONG, 18446744073709551615),
        (b"1ul", UNSIGNED_LONG, 1),
        (b"1uL", UNSIGNED_LONG, 1),
        (b"1Lu", UNSIGNED_LONG, 1),
        (b"1lU", UNSIGNED_LONG, 1),
        (b"1ull", UNSIGNED_LONG, 1),
        (b"1LLU", UNSIGNED_LONG, 1),
        (
            b"18446744073709551615LLu",
            UNSIGNED_LONG,
            18446744073709551615,
        ),
        (b"0xffUll", UNSIGNED_LONG, 255),
    ];
    for (text, t, value) in rows {
        assert!(rt; is_number(text, Some((t, value))));
    }
}

#[test]
fn what_no_type_holds_and_what_is_no_constant_has_no_value(rt: HostRuntime) {
    let texts: [&[u8]; 25] = [
        b"9223372036854775808",
        b"9223372036854775808l",
        b"9223372036854775808LL",
        b"18446744073709551616u",
        b"18446744073709551616ull",
        b"99999999999999999999999999999999999999999",
        b"02000000000000000000000",
        b"0x10000000000000000",
        b"0x10000000000000000ULL",
        b"0xfffffffffffffffffffffffffffffffffffff",
        b"",
        b"u",
        b"08",
        b"0x",
        b"0xg",
        b"0xu",
        b"1uu",
        b"1lL",
        b"1lll",
        b"1lul",
        b"1f",
        b"1.0",
        b"-1",
        b" 1",
        b"1 ",
    ];
    for text in texts {
        assert!(rt; is_number(text, None));
    }
}
