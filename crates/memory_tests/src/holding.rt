use po_base::{FunNo, List, NodeNo, RegNo};
use po_holds::holds;
use po_memory::{Block, Byte, Frame, Memory2, Value, alloc_block};
use po_pred::{Atom, Over, Place, Pred, Why};
use std::alloc::Global;
use std::test::Fail;

/// The numbers of two registers of these tests, whose values are 5 and the least int, and the places of pointers: to the
/// start of a string of two characters in eight bytes, of which the last four have no value; to the start of a dead block;
/// to the fourth byte of a heap block of four bytes without values, in which nothing may be written.
const UNSET: u32 = 0;

const FIVE: u32 = 1;

const LEAST: u32 = 2;

const NULL: u32 = 3;

const WILD: u32 = 4;

const STRING: u32 = 5;

const DEAD: u32 = 6;

const HEAP: u32 = 7;

fn at(block: u64, offset: i128) -> Option<Value> {
    Some(Value::Pointer { block, offset })
}

fn block(
    alloc: Global,
    bytes: [Byte; 8],
    size: usize,
    alive: bool,
    heap: bool,
) -> Result<Block, Fail> {
    let mut list = List::new(alloc);
    for byte in bytes {
        if list.len() < size {
            list.push(byte)?;
        }
    }
    Ok(Block {
        bytes: list,
        align: 8,
        alive,
        writable: !heap,
        heap,
    })
}

fn memory(alloc: Global) -> Result<Memory2, Fail> {
    let mut m = Memory2 {
        blocks: List::new(alloc),
    };
    let blank = Byte::Blank;
    let string = [
        Byte::Number(104),
        Byte::Number(105),
        Byte::Number(0),
        Byte::Number(7),
        blank,
        blank,
        blank,
        blank,
    ];
    alloc_block(&mut m, block(alloc, string, 8, true, false)?)?;
    alloc_block(&mut m, block(alloc, [blank; 8], 8, false, true)?)?;
    alloc_block(&mut m, block(alloc, [blank; 8], 4, true, true)?)?;
    Ok(m)
}

fn frame(alloc: Global) -> Result<Frame, Fail> {
    let values = [
        None,
        Some(Value::Number(5)),
        Some(Value::Number(-2_147_483_648)),
        Some(Value::Null),
        Some(Value::Wild),
        at(0, 0),
        at(1, 0),
        at(2, 4),
    ];
    let mut regs = List::new(alloc);
    for v in values {
        regs.push(v)?;
    }
    let mut args = List::new(alloc);
    args.push(Value::Pointer {
        block: 0,
        offset: -1,
    })?;
    Ok(Frame {
        function: FunNo(0),
        node: NodeNo(0),
        regs,
        slots: List::new(alloc),
        args,
    })
}

/// A register's value moved by numbers.
fn moved(register: u32, lo: i128, hi: i128) -> Place {
    Place {
        atom: Some(Atom::Reg(RegNo(register))),
        lo,
        hi,
    }
}

fn reg(register: u32) -> Place {
    moved(register, 0, 0)
}

fn numbers(lo: i128, hi: i128) -> Place {
    Place { atom: None, lo, hi }
}

fn one(n: i128) -> Place {
    numbers(n, n)
}

/// The first argument moved by a number.
fn argument(n: i128) -> Place {
    Place {
        atom: Some(Atom::Param(0)),
        lo: n,
        hi: n,
    }
}

fn span(p: Place, factor: i64, lo: Place, hi: Place) -> Pred {
    Pred::Span { p, factor, lo, hi }
}

fn filled(p: Place, factor: i64, lo: Place, hi: Place) -> Pred {
    Pred::Filled { p, factor, lo, hi }
}

fn over(op: Over, bits: u8, a: Place, b: Place) -> Pred {
    Pred::NoOver {
        op,
        bits,
        a,
        b: Some(b),
    }
}

#[test]
fn of_one_pointer(rt: HostRuntime) -> Result<(), Fail> {
    let alloc = rt.alloc();
    let f = frame(alloc)?;
    let m = memory(alloc)?;
    let rows = [
        (Pred::NotNull { p: reg(STRING) }, true),
        (Pred::NotNull { p: reg(NULL) }, false),
        (
            Pred::NotNull {
                p: moved(NULL, 3, 3),
            },
            false,
        ),
        (Pred::NotNull { p: reg(WILD) }, true),
        (Pred::NotNull { p: reg(UNSET) }, false),
        (Pred::NotNull { p: reg(FIVE) }, false),
        (Pred::NotNull { p: reg(99) }, false),
        (Pred::Live { p: reg(STRING) }, true),
        (Pred::Live { p: reg(DEAD) }, false),
        (Pred::Live { p: reg(NULL) }, true),
        (Pred::Live { p: reg(WILD) }, false),
        (Pred::Live { p: reg(UNSET) }, false),
        (Pred::Live { p: argument(-9) }, true),
        (Pred::Writable { p: reg(STRING) }, true),
        (Pred::Writable { p: reg(HEAP) }, false),
        (
            Pred::Aligned {
                p: reg(STRING),
                a: 8,
            },
            true,
        ),
        (
            Pred::Aligned {
                p: reg(STRING),
                a: 16,
            },
            false,
        ),
        (
            Pred::Aligned {
                p: moved(STRING, -8, -8),
                a: 8,
            },
            true,
        ),
        (
            Pred::Aligned {
                p: moved(STRING, 2, 2),
                a: 4,
            },
            false,
        ),
        (
            Pred::Aligned {
                p: moved(STRING, 0, 8),
                a: 8,
            },
            false,
        ),
        (
            Pred::Aligned {
                p: moved(STRING, 0, 8),
                a: 1,
            },
            true,
        ),
        (
            Pred::HeapStart {
                p: moved(HEAP, -4, -4),
            },
            true,
        ),
        (Pred::HeapStart { p: reg(HEAP) }, false),
        (
            Pred::HeapStart {
                p: moved(HEAP, -4, -3),
            },
            false,
        ),
        (Pred::HeapStart { p: reg(DEAD) }, false),
        (Pred::HeapStart { p: reg(STRING) }, false),
        (Pred::HeapStart { p: reg(NULL) }, true),
        (Pred::Terminated { p: reg(STRING) }, true),
        (
            Pred::Terminated {
                p: moved(STRING, 0, 2),
            },
            true,
        ),
        (
            Pred::Terminated {
                p: moved(STRING, 0, 3),
            },
            false,
        ),
        (Pred::Terminated { p: argument(0) }, false),
        (Pred::Terminated { p: argument(1) }, true),
        (
            Pred::Terminated {
                p: moved(STRING, 8, 8),
            },
            false,
        ),
        (Pred::RegSet { v: RegNo(FIVE) }, true),
        (Pred::RegSet { v: RegNo(UNSET) }, false),
        (Pred::RegSet { v: RegNo(99) }, false),
        (Pred::Never { why: Why::End }, false),
    ];
    for (p, wanted) in rows {
        assert_eq!(rt; holds(&p, &f, &m), wanted);
    }
    Ok(())
}

#[test]
fn of_bytes_of_a_block(rt: HostRuntime) -> Result<(), Fail> {
    let alloc = rt.alloc();
    let f = frame(alloc)?;
    let m = memory(alloc)?;
    let rows = [
        (span(reg(STRING), 1, one(0), one(8)), true),
        (span(reg(STRING), 1, one(0), one(9)), false),
        (span(reg(STRING), 1, one(-1), one(8)), false),
        (span(reg(STRING), 4, one(0), one(2)), true),
        (span(reg(STRING), 4, numbers(0, 1), numbers(1, 2)), true),
        (span(reg(STRING), 4, numbers(0, 1), numbers(1, 3)), false),
        (span(reg(STRING), 4, numbers(-1, 1), one(2)), false),
        (span(moved(STRING, 4, 8), -4, numbers(0, 1), one(0)), true),
        (span(moved(STRING, 4, 8), -4, numbers(0, 2), one(0)), false),
        (span(moved(STRING, 4, 8), -4, one(0), numbers(-1, 0)), false),
        (span(reg(STRING), 1, reg(FIVE), moved(FIVE, 0, 3)), true),
        (span(reg(STRING), 1, reg(UNSET), one(0)), false),
        (span(reg(STRING), 1, reg(NULL), one(0)), false),
        (span(reg(NULL), 1, reg(UNSET), one(0)), false),
        (span(reg(NULL), 1, one(-9), one(9)), true),
        (span(reg(WILD), 1, one(0), one(0)), false),
        (span(argument(0), 1, one(0), one(1)), false),
        (span(argument(0), 1, one(1), one(9)), true),
        (span(reg(DEAD), 1, one(0), one(8)), true),
        (filled(reg(STRING), 1, one(0), one(4)), true),
        (filled(reg(STRING), 1, one(0), one(5)), false),
        (filled(reg(STRING), 4, one(0), one(1)), true),
        (filled(reg(STRING), 4, one(1), one(0)), true),
        (filled(reg(STRING), -4, one(-1), one(-2)), false),
        (filled(reg(STRING), -1, one(-3), one(-5)), false),
        (filled(reg(STRING), 1, one(8), one(20)), true),
        (filled(reg(STRING), 1, one(-20), one(0)), true),
        (filled(moved(STRING, 0, 3), 1, one(0), one(1)), true),
        (filled(moved(STRING, 0, 4), 1, one(0), one(1)), false),
        (filled(moved(STRING, 0, 9), 1, one(0), one(0)), true),
        (filled(reg(STRING), 1, numbers(0, 3), numbers(0, 4)), true),
        (filled(reg(STRING), 1, numbers(0, 3), numbers(0, 5)), false),
    ];
    for (p, wanted) in rows {
        assert_eq!(rt; holds(&p, &f, &m), wanted);
    }
    Ok(())
}

#[test]
fn of_two_pointers(rt: HostRuntime) -> Result<(), Fail> {
    let alloc = rt.alloc();
    let f = frame(alloc)?;
    let m = memory(alloc)?;
    let rows = [
        (reg(STRING), argument(0), one(1), true, true, false),
        (reg(STRING), argument(0), one(2), true, false, false),
        (reg(STRING), argument(0), one(0), true, true, false),
        (reg(STRING), argument(0), one(-1), true, true, false),
        (argument(3), reg(STRING), numbers(0, 2), true, true, true),
        (argument(3), reg(STRING), numbers(0, 3), true, false, true),
        (argument(6), reg(STRING), one(1), true, true, true),
        (argument(7), reg(STRING), one(1), true, true, false),
        (moved(STRING, 0, 5), reg(STRING), one(0), true, true, true),
        (moved(STRING, 0, 6), reg(STRING), one(0), true, true, false),
        (reg(STRING), moved(STRING, 0, 2), one(0), true, true, true),
        (reg(STRING), moved(STRING, 0, 3), one(0), true, true, false),
        (
            moved(STRING, 0, 1),
            moved(STRING, 4, 6),
            one(3),
            true,
            true,
            false,
        ),
        (
            moved(STRING, 0, 2),
            moved(STRING, 4, 6),
            one(3),
            true,
            false,
            false,
        ),
        (reg(HEAP), reg(STRING), one(9), false, true, false),
        (moved(HEAP, -3, -3), reg(STRING), one(9), false, true, true),
        (reg(NULL), reg(STRING), one(9), true, true, true),
        (reg(STRING), reg(NULL), one(9), true, true, true),
        (reg(WILD), reg(STRING), one(9), false, true, false),
        (reg(WILD), reg(NULL), one(9), true, true, true),
        (reg(WILD), reg(FIVE), one(9), false, false, false),
        (reg(UNSET), reg(NULL), one(9), false, false, false),
    ];
    for (p, q, n, one_block, apart, room) in rows {
        assert_eq!(rt; holds(&Pred::SameBlock { p, q }, &f, &m), one_block);
        assert_eq!(rt; holds(&Pred::Apart { p, q, n }, &f, &m), apart);
        assert_eq!(rt; holds(&Pred::RoomFor { p, q }, &f, &m), room);
    }
    Ok(())
}

#[test]
fn of_numbers(rt: HostRuntime) -> Result<(), Fail> {
    let alloc = rt.alloc();
    let f = frame(alloc)?;
    let m = memory(alloc)?;
    let max = 2_147_483_647;
    let rows = [
        (Pred::Nonzero { x: reg(FIVE) }, true),
        (
            Pred::Nonzero {
                x: moved(FIVE, -6, -4),
            },
            false,
        ),
        (
            Pred::Nonzero {
                x: moved(FIVE, -9, -6),
            },
            true,
        ),
        (Pred::Nonzero { x: one(0) }, false),
        (Pred::Nonzero { x: reg(UNSET) }, false),
        (Pred::Nonzero { x: reg(NULL) }, false),
        (
            Pred::IntIn {
                x: reg(FIVE),
                lo: 5,
                hi: 5,
            },
            true,
        ),
        (
            Pred::IntIn {
                x: moved(FIVE, 0, 1),
                lo: 5,
                hi: 5,
            },
            false,
        ),
        (
            Pred::IntIn {
                x: moved(FIVE, -1, 0),
                lo: 5,
                hi: 5,
            },
            false,
        ),
        (over(Over::Add, 32, numbers(0, max), one(0)), true),
        (over(Over::Add, 32, numbers(0, max), numbers(0, 1)), false),
        (over(Over::Add, 32, reg(LEAST), one(-1)), false),
        (over(Over::Sub, 32, reg(LEAST), numbers(0, 1)), false),
        (over(Over::Sub, 32, one(-1), reg(LEAST)), true),
        (over(Over::Sub, 32, one(0), reg(LEAST)), false),
        (
            over(Over::Mul, 32, numbers(-65536, 65535), one(32768)),
            true,
        ),
        (
            over(Over::Mul, 32, numbers(-65536, 65536), one(32768)),
            false,
        ),
        (over(Over::Mul, 32, numbers(-65537, 0), one(32768)), false),
        (
            over(Over::Mul, 32, numbers(-46341, 0), numbers(-46341, 0)),
            false,
        ),
        (
            over(Over::Mul, 64, one(4_294_967_296), one(2_147_483_648)),
            false,
        ),
        (
            over(Over::Mul, 64, one(-4_294_967_296), one(2_147_483_648)),
            true,
        ),
        (over(Over::Div, 32, reg(LEAST), one(-1)), false),
        (over(Over::Div, 32, reg(LEAST), one(0)), true),
        (over(Over::Div, 32, moved(LEAST, 1, 9), one(-1)), true),
        (
            over(Over::Rem, 32, numbers(-3_000_000_000, 0), numbers(-2, 5)),
            false,
        ),
        (over(Over::Rem, 64, reg(LEAST), one(-1)), true),
        (over(Over::Shl, 32, one(1), numbers(0, 30)), true),
        (over(Over::Shl, 32, one(1), numbers(0, 31)), false),
        (over(Over::Shl, 32, one(0), numbers(0, 1000)), true),
        (over(Over::Shl, 32, one(-1), one(0)), false),
        (over(Over::Shl, 32, one(1), one(-1)), false),
        (over(Over::Shl, 64, one(3), one(61)), true),
        (over(Over::Add, 32, reg(FIVE), reg(UNSET)), false),
        (
            Pred::NoOver {
                op: Over::Neg,
                bits: 32,
                a: reg(LEAST),
                b: None,
            },
            false,
        ),
        (
            Pred::NoOver {
                op: Over::Neg,
                bits: 32,
                a: moved(LEAST, 1, 9),
                b: None,
            },
            true,
        ),
    ];
    for (p, wanted) in rows {
        assert_eq!(rt; holds(&p, &f, &m), wanted);
    }
    Ok(())
}
