use po_arith::{IntType, Target};
use po_base::{Memory, Op};
use po_operands::{Combined, combines};
use po_scopes::{Context, Scopes};
use po_types::{CType, Env, Shared, same};
use std::alloc::Global;
use std::test::Fail;

/// What an operator makes of values of two types where nothing is declared.
fn combined(alloc: Global, op: Op, t: &CType, u: &CType) -> Result<Option<Combined>, Memory> {
    let env = Env::new(alloc, Target::L64);
    let scopes = Scopes::new(alloc);
    combines(&Context::new(&env, &scopes), op, t, u)
}

/// An integer type.
fn number(bits: u8, signed: bool) -> CType {
    CType::Int(IntType { bits, signed })
}

/// A pointer to a type.
fn pointer(alloc: Global, to: CType) -> Result<CType, Memory> {
    Ok(CType::Ptr(Shared::new(alloc, to)?))
}

/// Whether an operator gives the first of these types, and converts its operands to the others.
fn gives(
    alloc: Global,
    op: Op,
    operands: [(u8, bool); 2],
    wanted: [(u8, bool); 3],
) -> Result<bool, Memory> {
    let [(m, left_signed), (n, right_signed)] = operands;
    let [result, left, right] = wanted;
    match combined(alloc, op, &number(m, left_signed), &number(n, right_signed))? {
        None => Ok(false),
        Some(found) => Ok(
            same(&found.result, &number(result.0, result.1))
                && same(&found.left, &number(left.0, left.1))
                && same(&found.right, &number(right.0, right.1)),
        ),
    }
}

#[test]
fn numbers_meet_in_the_type_of_the_usual_conversions(rt: HostRuntime) -> Result<(), Fail> {
    let int = (32, true);
    let unsigned = (32, false);
    let long = (64, true);
    let char = (8, true);
    let rows: [(Op, [(u8, bool); 2], [(u8, bool); 3]); 8] = [
        (Op::Add, [char, char], [int, int, int]),
        (Op::Mul, [unsigned, int], [unsigned, unsigned, unsigned]),
        (Op::Sub, [unsigned, long], [long, long, long]),
        (
            Op::Xor,
            [long, (64, false)],
            [(64, false), (64, false), (64, false)],
        ),
        (Op::Shl, [char, long], [int, int, long]),
        (
            Op::Shr,
            [(64, false), char],
            [(64, false), (64, false), int],
        ),
        (Op::Lt, [unsigned, char], [int, unsigned, unsigned]),
        (Op::Eq, [(1, false), (16, false)], [int, int, int]),
    ];
    for (op, operands, wanted) in rows {
        assert!(rt; gives(rt.alloc(), op, operands, wanted)?);
    }
    Ok(())
}

#[test]
fn pointers_are_moved_compared_and_subtracted(rt: HostRuntime) -> Result<(), Fail> {
    let alloc = rt.alloc();
    let int = number(32, true);
    let to_int = pointer(alloc, number(32, true))?;
    let to_void = pointer(alloc, CType::Void)?;
    match combined(alloc, Op::Add, &int, &to_int)? {
        Some(found) => assert!(rt; same(&found.result, &to_int) && same(&found.right, &to_int)),
        None => assert!(rt; false),
    }
    match combined(alloc, Op::Sub, &to_int, &to_int)? {
        Some(found) => assert!(rt; same(&found.result, &number(64, true))),
        None => assert!(rt; false),
    }
    match combined(alloc, Op::Lt, &to_int, &to_void)? {
        Some(found) => assert!(rt; same(&found.left, &to_void) && same(&found.right, &to_void)),
        None => assert!(rt; false),
    }
    assert!(rt; combined(alloc, Op::Sub, &int, &to_int)?.is_none());
    assert!(rt; combined(alloc, Op::Add, &to_int, &to_int)?.is_none());
    assert!(rt; combined(alloc, Op::Mul, &to_int, &int)?.is_none());
    assert!(rt; combined(alloc, Op::Add, &to_void, &int)?.is_none());
    assert!(rt; combined(alloc, Op::Sub, &to_int, &to_void)?.is_none());
    assert!(rt; combined(alloc, Op::Add, &CType::Struct(0), &int)?.is_none());
    Ok(())
}
