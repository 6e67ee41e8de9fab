use po_arith::IntType;
use po_types::{common, promoted};

const fn unsigned(bits: u8) -> IntType {
    IntType {
        bits,
        signed: false,
    }
}

const fn signed(bits: u8) -> IntType {
    IntType { bits, signed: true }
}

/// Whether two types are converted to a third one, in either order.
fn meet(a: IntType, b: IntType, to: IntType) -> bool {
    common(a, b) == to && common(b, a) == to
}

#[test]
fn each_pair_of_promoted_types_meets_in_one(rt: HostRuntime) {
    let rows = [
        (signed(32), signed(32), signed(32)),
        (signed(32), unsigned(32), unsigned(32)),
        (signed(32), signed(64), signed(64)),
        (signed(32), unsigned(64), unsigned(64)),
        (unsigned(32), unsigned(32), unsigned(32)),
        (unsigned(32), signed(64), signed(64)),
        (unsigned(32), unsigned(64), unsigned(64)),
        (signed(64), signed(64), signed(64)),
        (signed(64), unsigned(64), unsigned(64)),
        (unsigned(64), unsigned(64), unsigned(64)),
    ];
    for (a, b, to) in rows {
        assert!(rt; meet(a, b, to));
    }
}

#[test]
fn narrow_types_are_promoted_to_int(rt: HostRuntime) {
    let wide = [signed(32), unsigned(32), signed(64), unsigned(64)];
    for narrow in [
        unsigned(1),
        signed(8),
        unsigned(8),
        signed(16),
        unsigned(16),
    ] {
        assert!(rt; promoted(narrow) == signed(32));
        assert!(rt; meet(narrow, narrow, signed(32)));
        for other in wide {
            assert!(rt; meet(narrow, other, other));
        }
    }
}
