ghost use Rattle.po_memory.specs.Bytes.{IsAccess};

use po_arith::IntType;
use po_base::{List, Memory};
use po_ir::{Access, Ty};
use po_memory::{Block, Byte, Memory2, Value, alloc_block, kill, load, store};
use std::alloc::Global;
use std::test::Fail;

/// The accesses of these tests.
#[derive(Clone, Copy)]
enum As {
    Bool,
    Char,
    Int,
    Pointer,
}

fn access(of: As) -> Access
    ensures { IsAccess result }
{
    match of {
        As::Bool => Access {
            ty: Ty::Int(IntType {
                bits: 1,
                signed: false,
            }),
            size: 1,
            align: 1,
        },
        As::Char => Access {
            ty: Ty::Int(IntType {
                bits: 8,
                signed: true,
            }),
            size: 1,
            align: 1,
        },
        As::Int => Access {
            ty: Ty::Int(IntType {
                bits: 32,
                signed: true,
            }),
            size: 4,
            align: 4,
        },
        As::Pointer => Access {
            ty: Ty::Ptr,
            size: 8,
            align: 8,
        },
    }
}

/// A step with a memory, and what is to come of it.
#[derive(Clone, Copy)]
enum Step {
    /// A load from this place gives this.
    Loads(Value, As, Option<Value>),
    /// This number or pointer is stored at this place, or isn't.
    Stores(Value, As, Value, bool),
    /// This byte stands at this place of block 0.
    Holds(usize, Byte),
    /// There is a block of this number, and its life ends.
    Ends(u64),
}

/// A block that is alive, of so many bytes, all like this one.
fn block(alloc: Global, size: u8, align: u64, byte: Byte, writable: bool) -> Result<Block, Memory> {
    let mut bytes = List::new(alloc);
    for _ in 0..size {
        bytes.push(byte)?;
    }
    Ok(Block {
        bytes,
        align,
        alive: true,
        writable,
        heap: false,
    })
}

/// A memory of one such block that may be written.
fn memory_of(alloc: Global, size: u8, align: u64, byte: Byte) -> Result<Memory2, Memory> {
    let mut m = Memory2 {
        blocks: List::new(alloc),
    };
    alloc_block(&mut m, block(alloc, size, align, byte, true)?)?;
    Ok(m)
}

/// So many bytes from the start of a block.
fn at(block: u64, offset: i128) -> Value {
    Value::Pointer { block, offset }
}

/// The byte at a place of the first block, which is blank where there is none.
fn byte_at(m: &Memory2, place: usize) -> Byte {
    match m.blocks.get(0) {
        None => Byte::Blank,
        Some(c) => match c.bytes.get(place) {
            None => Byte::Blank,
            Some(found) => *found,
        },
    }
}

/// Ends the life of a block, and says whether there is one.
fn ends(alloc: Global, m: &mut Memory2, block: u64) -> bool {
    if block < m.blocks.len() as u64 {
        kill(alloc, m, block);
        return true;
    }
    false
}

/// Whether a step comes to what it says.
fn comes(alloc: Global, m: &mut Memory2, step: &Step) -> bool {
    match step {
        Step::Loads(place, of, found) => load(m, place, access(*of)) == *found,
        Step::Stores(place, of, value, done) => store(alloc, m, place, access(*of), value) == *done,
        Step::Holds(place, byte) => byte_at(m, *place) == *byte,
        Step::Ends(block) => ends(alloc, m, *block),
    }
}

/// Whether all steps, one after the other, come to what they say.
fn all_come(alloc: Global, m: &mut Memory2, steps: &[Step]) -> bool {
    for step in steps {
        if !comes(alloc, m, step) {
            return false;
        }
    }
    true
}

#[test]
fn an_int_is_stored_and_loaded(rt: HostRuntime) -> Result<(), Fail> {
    let alloc = rt.alloc();
    let mut m = Memory2 {
        blocks: List::new(alloc),
    };
    let number = alloc_block(&mut m, block(alloc, 4, 4, Byte::Blank, true)?)?;
    assert!(rt; number == 0);
    let five = Value::Number(5);
    let steps = [
        Step::Loads(at(0, 0), As::Int, None),
        Step::Stores(at(0, 0), As::Int, five, true),
        Step::Loads(at(0, 0), As::Int, Some(five)),
        Step::Stores(at(0, 2), As::Int, Value::Number(7), false),
        Step::Loads(at(0, 0), As::Int, Some(five)),
        Step::Loads(Value::Null, As::Int, None),
        Step::Ends(0),
        Step::Loads(at(0, 0), As::Int, None),
        Step::Stores(at(0, 0), As::Int, five, false),
    ];
    assert!(rt; all_come(alloc, &mut m, &steps));
    Ok(())
}

#[test]
fn places_of_accesses_have_edges(rt: HostRuntime) -> Result<(), Fail> {
    let alloc = rt.alloc();
    let mut m = memory_of(alloc, 9, 4, Byte::Number(255))?;
    alloc_block(&mut m, block(alloc, 8, 8, Byte::Number(0), false)?)?;
    let one = Value::Number(-1);
    let all = Some(one);
    let rows = [
        (at(0, 0), As::Int, all, true),
        (at(0, 4), As::Int, all, true),
        (at(0, 5), As::Int, None, false),
        (at(0, 6), As::Int, None, false),
        (at(0, 8), As::Int, None, false),
        (at(0, -4), As::Int, None, false),
        (at(0, 8), As::Char, all, true),
        (at(0, 9), As::Char, None, false),
        (at(0, -1), As::Char, None, false),
        (at(0, 0), As::Pointer, None, false),
        (at(1, 0), As::Pointer, Some(Value::Null), false),
        (at(1, 4), As::Int, Some(Value::Number(0)), false),
        (at(2, 0), As::Char, None, false),
        (Value::Wild, As::Char, None, false),
        (Value::Number(0), As::Char, None, false),
    ];
    for (place, of, loaded, stored) in rows {
        let steps = [
            Step::Loads(place, of, loaded),
            Step::Stores(place, of, one, stored),
        ];
        assert!(rt; all_come(alloc, &mut m, &steps));
    }
    Ok(())
}

#[test]
fn numbers_are_twos_complement_low_byte_first(rt: HostRuntime) -> Result<(), Fail> {
    let alloc = rt.alloc();
    let mut m = memory_of(alloc, 4, 4, Byte::Number(0))?;
    let rows = [
        (0, [0, 0, 0, 0]),
        (1, [1, 0, 0, 0]),
        (-1, [255, 255, 255, 255]),
        (258, [2, 1, 0, 0]),
        (-2, [254, 255, 255, 255]),
        (2_147_483_647, [255, 255, 255, 127]),
        (-2_147_483_648, [0, 0, 0, 128]),
    ];
    for (number, bytes) in rows {
        let [first, second, third, fourth] = bytes;
        let steps = [
            Step::Stores(at(0, 0), As::Int, Value::Number(number), true),
            Step::Loads(at(0, 0), As::Int, Some(Value::Number(number))),
            Step::Holds(0, Byte::Number(first)),
            Step::Holds(1, Byte::Number(second)),
            Step::Holds(2, Byte::Number(third)),
            Step::Holds(3, Byte::Number(fourth)),
        ];
        assert!(rt; all_come(alloc, &mut m, &steps));
    }
    Ok(())
}

/// What is loaded as a pointer from a copy of these bytes of the first block.
fn loaded_copy(alloc: Global, m: &Memory2, places: [usize; 8]) -> Result<Option<Value>, Memory> {
    let mut bytes = List::new(alloc);
    for place in places {
        bytes.push(byte_at(m, place))?;
    }
    let copied = Block {
        bytes,
        align: 8,
        alive: true,
        writable: true,
        heap: false,
    };
    let mut second = Memory2 {
        blocks: List::new(alloc),
    };
    alloc_block(&mut second, copied)?;
    Ok(load(&second, &at(0, 0), access(As::Pointer)))
}

#[test]
fn bytes_of_pointers_are_copied_torn_and_mixed(rt: HostRuntime) -> Result<(), Fail> {
    let alloc = rt.alloc();
    let mut m = memory_of(alloc, 16, 8, Byte::Number(0))?;
    let steps = [
        Step::Stores(at(0, 0), As::Pointer, at(0, -3), true),
        Step::Loads(at(0, 0), As::Pointer, Some(at(0, -3))),
        Step::Loads(at(0, 8), As::Pointer, Some(Value::Null)),
        Step::Loads(at(0, 0), As::Int, Some(Value::Number(0))),
        Step::Stores(at(0, 8), As::Pointer, at(0, 9), true),
    ];
    assert!(rt; all_come(alloc, &mut m, &steps));
    let rows = [
        ([0, 1, 2, 3, 4, 5, 6, 7], at(0, -3)),
        ([8, 9, 10, 11, 12, 13, 14, 15], at(0, 9)),
        ([1, 0, 2, 3, 4, 5, 6, 7], Value::Wild),
        ([4, 5, 6, 7, 8, 9, 10, 11], Value::Wild),
        ([0, 1, 2, 3, 12, 13, 14, 15], Value::Wild),
        ([0, 0, 0, 0, 0, 0, 0, 0], Value::Wild),
    ];
    for (places, read) in rows {
        assert!(rt; loaded_copy(alloc, &m, places)? == Some(read));
    }
    Ok(())
}

#[test]
fn other_bytes_are_wild_and_booleans_stay_booleans(rt: HostRuntime) -> Result<(), Fail> {
    let alloc = rt.alloc();
    let mut m = memory_of(alloc, 8, 8, Byte::Number(7))?;
    let read = load(&m, &at(0, 0), access(As::Bool));
    assert!(rt; read == Some(Value::Number(0)) || read == Some(Value::Number(1)));
    let steps = [
        Step::Loads(at(0, 0), As::Pointer, Some(Value::Wild)),
        Step::Stores(at(0, 0), As::Pointer, Value::Null, true),
        Step::Loads(at(0, 0), As::Pointer, Some(Value::Null)),
        Step::Loads(at(0, 0), As::Bool, Some(Value::Number(0))),
        Step::Stores(at(0, 0), As::Pointer, Value::Wild, true),
        Step::Loads(at(0, 0), As::Pointer, Some(Value::Wild)),
    ];
    assert!(rt; all_come(alloc, &mut m, &steps));
    Ok(())
}
