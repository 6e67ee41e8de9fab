use po_arith::{
    IntType, Interval, Range, bits_and, bits_or, bits_xor, div_trunc, fits, join_interval, limits,
    rem_trunc, shift_left, shift_right, wrap,
};

const BOOL: IntType = IntType {
    bits: 1,
    signed: false,
};

const CHAR: IntType = IntType {
    bits: 8,
    signed: true,
};

const BYTE: IntType = IntType {
    bits: 8,
    signed: false,
};

const LONG: IntType = IntType {
    bits: 64,
    signed: true,
};

const SIZE: IntType = IntType {
    bits: 64,
    signed: false,
};

#[test]
fn types_have_the_numbers_of_the_target(rt: HostRuntime) {
    let rows = [
        (limits(BOOL), 0, 1),
        (limits(CHAR), -128, 127),
        (limits(IntType::INT), -2_147_483_648, 2_147_483_647),
        (
            limits(LONG),
            -9_223_372_036_854_775_808,
            9_223_372_036_854_775_807,
        ),
        (limits(SIZE), 0, 18_446_744_073_709_551_615),
    ];
    for (found, lo, hi) in rows {
        assert!(rt; found == Range { lo, hi });
    }
    assert!(rt; fits(127, CHAR) && !fits(128, CHAR) && fits(-128, CHAR) && !fits(-129, CHAR));
    assert!(rt; fits(1, BOOL) && !fits(2, BOOL) && !fits(-1, BOOL));
}

/// Whether all of these are two times the same number.
fn are_equal(rows: &[(i128, i128)]) -> bool {
    rows.iter().all(|(found, wanted)| found == wanted)
}

#[test]
fn numbers_wrap_around(rt: HostRuntime) {
    let rows = [
        (wrap(300, BYTE), 44),
        (wrap(-1, BYTE), 255),
        (wrap(128, CHAR), -128),
        (wrap(-129, CHAR), 127),
        (wrap(3, BOOL), 1),
        (wrap(-2, BOOL), 0),
        (wrap(2_147_483_648, IntType::INT), -2_147_483_648),
        (wrap(-1, SIZE), 18_446_744_073_709_551_615),
    ];
    assert!(rt; are_equal(&rows));
}

#[test]
fn division_discards_the_fraction(rt: HostRuntime) {
    let rows = [
        (div_trunc(7, 2), 3),
        (rem_trunc(7, 2), 1),
        (div_trunc(-7, 2), -3),
        (rem_trunc(-7, 2), -1),
        (div_trunc(7, -2), -3),
        (rem_trunc(7, -2), 1),
        (div_trunc(-7, -2), 3),
        (rem_trunc(-7, -2), -1),
    ];
    assert!(rt; are_equal(&rows));
}

#[test]
fn shifts_and_bits_go_by_twos_complement(rt: HostRuntime) {
    let rows = [
        (shift_left(-3, 4), -48),
        (shift_left(0, 255), 0),
        (shift_right(-5, 1), -3),
        (shift_right(5, 1), 2),
        (shift_right(-1, 255), -1),
        (shift_right(1, 200), 0),
        (bits_and(-4, 6), 4),
        (bits_or(-4, 6), -2),
        (bits_xor(-4, 6), -6),
        (bits_and(12, 10), 8),
        (bits_or(12, 10), 14),
        (bits_xor(12, 10), 6),
    ];
    assert!(rt; are_equal(&rows));
}

#[test]
fn a_hull_reaches_from_end_to_end(rt: HostRuntime) {
    let low = Interval {
        lo: Some(-3),
        hi: Some(4),
    };
    let high = Interval {
        lo: Some(2),
        hi: None,
    };
    let both = Interval {
        lo: Some(-3),
        hi: None,
    };
    assert!(rt; join_interval(&low, &high) == both && join_interval(&high, &low) == both);
}
