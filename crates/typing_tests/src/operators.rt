ghost use Rattle.po_arith.specs.Types.{IsIntType};

use po_arith::{IntType, fits};
use po_base::Op;
use po_constants::{becomes, compares, complemented, computes, shifts};

const BOOL: IntType = IntType {
    bits: 1,
    signed: false,
};

const CHAR: IntType = IntType {
    bits: 8,
    signed: true,
};

const UNSIGNED_CHAR: IntType = IntType {
    bits: 8,
    signed: false,
};

const INT: IntType = IntType {
    bits: 32,
    signed: true,
};

const UNSIGNED: IntType = IntType {
    bits: 32,
    signed: false,
};

const LONG: IntType = IntType {
    bits: 64,
    signed: true,
};

const UNSIGNED_LONG: IntType = IntType {
    bits: 64,
    signed: false,
};

/// An operator, its operands, and what it gives; None stands for no result.
type Row = (Op, i128, i128, Option<i128>);

fn computed(t: IntType, row: &Row) -> Option<i128>
    requires { IsIntType t }
{
    if fits(row.1, t) && fits(row.2, t) {
        return computes(row.0, t, row.1, row.2);
    }
    None
}

fn shifted(t: IntType, row: &(Op, i128, u64, Option<i128>)) -> Option<i128>
    requires { IsIntType t }
{
    if fits(row.1, t) {
        return shifts(row.0, t, row.1, row.2);
    }
    None
}

fn inverted(t: IntType, v: i128) -> Option<i128>
    requires { IsIntType t }
{
    if fits(v, t) {
        return Some(complemented(t, v));
    }
    None
}

#[test]
fn signed_results_have_to_fit(rt: HostRuntime) {
    let rows: [Row; 24] = [
        (Op::Add, 2147483647, 1, None),
        (Op::Add, 2147483646, 1, Some(2147483647)),
        (Op::Add, -2147483648, -1, None),
        (Op::Sub, -2147483648, 1, None),
        (Op::Sub, 0, -2147483648, None),
        (Op::Sub, 0, 2147483647, Some(-2147483647)),
        (Op::Mul, 65536, 32768, None),
        (Op::Mul, 65536, -32768, Some(-2147483648)),
        (Op::Mul, 46341, 46341, None),
        (Op::Div, -2147483648, -1, None),
        (Op::Div, 7, 0, None),
        (Op::Div, -7, 2, Some(-3)),
        (Op::Div, 7, -2, Some(-3)),
        (Op::Rem, -2147483648, -1, None),
        (Op::Rem, 7, 0, None),
        (Op::Rem, -7, 2, Some(-1)),
        (Op::Rem, 7, -2, Some(1)),
        (Op::And, -1, 255, Some(255)),
        (Op::And, -4, 6, Some(4)),
        (Op::Or, -4, 1, Some(-3)),
        (Op::Xor, -1, 255, Some(-256)),
        (Op::Xor, 5, 3, Some(6)),
        (Op::Lt, 1, 2, None),
        (Op::Shl, 1, 2, None),
    ];
    for row in &rows {
        assert!(rt; computed(INT, row) == row.3);
    }
}

#[test]
fn unsigned_results_are_taken_modulo(rt: HostRuntime) {
    let narrow: [Row; 9] = [
        (Op::Add, 4294967295, 1, Some(0)),
        (Op::Sub, 0, 1, Some(4294967295)),
        (Op::Mul, 4294967295, 4294967295, Some(1)),
        (Op::Mul, 65536, 65536, Some(0)),
        (Op::Div, 4294967295, 2, Some(2147483647)),
        (Op::Div, 1, 0, None),
        (Op::Rem, 4294967295, 10, Some(5)),
        (Op::Rem, 1, 0, None),
        (Op::Xor, 4294967295, 1, Some(4294967294)),
    ];
    for row in &narrow {
        assert!(rt; computed(UNSIGNED, row) == row.3);
    }
    let wide: [Row; 5] = [
        (
            Op::Add,
            18446744073709551615,
            18446744073709551615,
            Some(18446744073709551614),
        ),
        (Op::Sub, 0, 18446744073709551615, Some(1)),
        (Op::Mul, 18446744073709551615, 18446744073709551615, Some(1)),
        (Op::Mul, 6000000000, 6000000000, Some(17553255926290448384)),
        (Op::Or, 9223372036854775808, 1, Some(9223372036854775809)),
    ];
    for row in &wide {
        assert!(rt; computed(UNSIGNED_LONG, row) == row.3);
    }
    let long: [Row; 4] = [
        (Op::Mul, 3037000500, 3037000500, None),
        (Op::Mul, 3037000499, 3037000499, Some(9223372030926249001)),
        (Op::Div, -9223372036854775808, -1, None),
        (Op::Mul, -9223372036854775808, -1, None),
    ];
    for row in &long {
        assert!(rt; computed(LONG, row) == row.3);
    }
}

#[test]
fn shifts_are_by_less_than_the_width(rt: HostRuntime) {
    let rows: [(Op, i128, u64, Option<i128>); 12] = [
        (Op::Shl, 1, 30, Some(1073741824)),
        (Op::Shl, 1, 31, None),
        (Op::Shl, 1, 32, None),
        (Op::Shl, -1, 2, Some(-4)),
        (Op::Shl, -1, 31, Some(-2147483648)),
        (Op::Shl, 0, 31, Some(0)),
        (Op::Shr, -1, 1, Some(-1)),
        (Op::Shr, -8, 1, Some(-4)),
        (Op::Shr, -7, 1, Some(-4)),
        (Op::Shr, 2147483647, 31, Some(0)),
        (Op::Shr, 1, 32, None),
        (Op::Add, 1, 1, None),
    ];
    for row in &rows {
        assert!(rt; shifted(INT, row) == row.3);
    }
    assert!(rt; shifted(UNSIGNED, &(Op::Shl, 1, 31, None)) == Some(2147483648));
    assert!(rt; shifted(UNSIGNED, &(Op::Shl, 3, 31, None)) == Some(2147483648));
    assert!(rt; shifted(UNSIGNED, &(Op::Shl, 1, 32, None)) == None);
    assert!(rt; shifted(UNSIGNED, &(Op::Shr, 4294967295, 31, None)) == Some(1));
    assert!(rt;
        shifted(UNSIGNED_LONG, &(Op::Shl, 18446744073709551615, 63, None))
            == Some(9223372036854775808)
    );
    assert!(rt; shifted(LONG, &(Op::Shl, 1, 63, None)) == None);
    assert!(rt; shifted(LONG, &(Op::Shr, 1, 18446744073709551615, None)) == None);
}

#[test]
fn complements_are_of_the_type(rt: HostRuntime) {
    assert!(rt; inverted(INT, 0) == Some(-1));
    assert!(rt; inverted(INT, -2147483648) == Some(2147483647));
    assert!(rt; inverted(UNSIGNED, 0) == Some(4294967295));
    assert!(rt; inverted(UNSIGNED_LONG, 1) == Some(18446744073709551614));
}

#[test]
fn conversions_to_signed_types_have_to_fit(rt: HostRuntime) {
    assert!(rt; becomes(CHAR, 127) == Some(127));
    assert!(rt; becomes(CHAR, 200) == None);
    assert!(rt; becomes(CHAR, -128) == Some(-128));
    assert!(rt; becomes(INT, 2147483648) == None);
    assert!(rt; becomes(UNSIGNED_CHAR, -1) == Some(255));
    assert!(rt; becomes(UNSIGNED_CHAR, 300) == Some(44));
    assert!(rt; becomes(UNSIGNED, -1) == Some(4294967295));
    assert!(rt; becomes(UNSIGNED_LONG, -1) == Some(18446744073709551615));
    assert!(rt; becomes(BOOL, 0) == Some(0));
    assert!(rt; becomes(BOOL, 5) == Some(1));
    assert!(rt; becomes(BOOL, 256) == Some(1));
    assert!(rt; becomes(BOOL, -1) == Some(1));
}

#[test]
fn comparisons_give_one_or_zero(rt: HostRuntime) {
    let rows: [(Op, i128, i128, i128); 18] = [
        (Op::Eq, 1, 1, 1),
        (Op::Eq, 1, 2, 0),
        (Op::Eq, -1, 1, 0),
        (Op::Ne, 1, 1, 0),
        (Op::Ne, 1, 2, 1),
        (Op::Lt, 1, 2, 1),
        (Op::Lt, 2, 2, 0),
        (Op::Lt, -2, 1, 1),
        (Op::Le, 2, 2, 1),
        (Op::Le, 3, 2, 0),
        (Op::Gt, 2, 1, 1),
        (Op::Gt, 2, 2, 0),
        (Op::Gt, -2, 1, 0),
        (Op::Ge, 2, 2, 1),
        (Op::Ge, 1, 2, 0),
        (Op::Lt, -1, 18446744073709551615, 1),
        (Op::Gt, 18446744073709551615, 9223372036854775807, 1),
        (Op::Ne, 0, 18446744073709551615, 1),
    ];
    for (op, v, w, wanted) in rows {
        assert!(rt; compares(op, v, w) == wanted);
    }
}
