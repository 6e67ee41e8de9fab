// Values written to memory (C99 6.2.6).
ghost use Rattle.std.specs.Prelude.{◌≡◌, ◌≤◌, ◌<◌, ◌+◌, ◌-◌, ◌↔◌, IsTrue, IsFalse, MatchOption, length, slice_get};
ghost use Rattle.po_memory.specs.Accesses.{Kills, StoreAllowed, Stores};
ghost use Rattle.po_memory.specs.Blocks.{OnBlock};
ghost use Rattle.po_memory.specs.Bytes.{IsAccess};
ghost use Rattle.po_memory.specs.Walking as walking;
ghost use Rattle.po_memory.specs.Walking.{AllowsStore, IsStorable, IsStoredAt, IsStoredIn, IsStretch, IsWordOf, IsWritten};

use crate::block::{Block, Stretch};
use crate::memory::Memory2;
use crate::value::{Byte, Value};
use po_arith::{IntType, wrap};
use po_base::List;
use po_ir::Access;
use std::alloc::Global;
use std::mem;

/// Eight bytes as a number.
const WORD: IntType = IntType {
    bits: 64,
    signed: false,
};

/// A value's number in a word.
fn word_of(v: &Value) -> u64
    ensures { IsWordOf v.now result }
{
    match v {
        Value::Number(n) => wrap(*n, WORD) as u64,
        Value::Null => 0,
        Value::Pointer { .. } => 0,
        Value::Wild => 0,
    }
}

/// The k-th byte of a value whose number, where it is one, stands in the word.
fn written_byte(v: &Value, word: u64, k: u8) -> Byte
    requires { k < 8 }
    ensures { result ≡ walking.written_byte v.now word k }
{
    match *v {
        Value::Number(_) => Byte::Number(((word >> (8 * k)) % 256) as u8),
        Value::Null => Byte::Number(0),
        Value::Pointer { block, offset } => Byte::Part { block, offset, k },
        Value::Wild => Byte::Number(255),
    }
}

/// Writes a value's bytes over those from the one place up to, not including, the other.
fn write(bytes: &mut List<Byte>, start: usize, end: usize, v: &Value)
    requires sorted { start ≤ end }
    requires room { end ≤ length bytes.old }
    requires few { end ≤ start + 8 }
    ensures { IsWritten v.now start (end - start) bytes.old bytes.new }
{
    let word = word_of(v);
    for place in start..end {
        bytes.set(place, written_byte(v, word, (place - start) as u8));
    }
}

fn is_storable(c: &Block, offset: i128, align: u64) -> bool
    ensures { IsTrue result ↔ IsStorable align offset c.now }
{
    if !c.alive {
        return false;
    }
    if !c.is_aligned_above(offset, align) {
        return false;
    }
    c.writable
}

/// The bytes that a store by the pointer writes to, exactly where what a store asks holds of the block and the place in it.
fn target(c: &Block, offset: i128, access: Access) -> Option<Stretch>
    ensures { MatchOption result (AllowsStore access offset c.now → ⊥) (λ s. AllowsStore access offset c.now × IsStretch offset access.size c.now s) }
{
    match c.stretch(offset, access.size) {
        None => None,
        Some(s) => {
            if !is_storable(c, offset, access.align) {
                return None;
            }
            Some(s)
        }
    }
}

fn store_in(c: &mut Block, offset: i128, access: Access, v: &Value) -> bool
    requires { IsAccess access }
    ensures allowed { IsTrue result ↔ AllowsStore access offset c.old }
    ensures refused { IsFalse result → c.new ≡ c.old }
    ensures stored { IsTrue result → IsStoredIn access offset v.now c.old c.new }
{
    match target(c, offset, access) {
        None => false,
        Some(s) => {
            write(&mut c.bytes, s.start, s.end, v);
            true
        }
    }
}

fn store_at(
    alloc: Global,
    all: &mut List<Block>,
    block: usize,
    offset: i128,
    access: Access,
    v: &Value,
) -> bool
    requires { IsAccess access }
    ensures allowed { IsTrue result ↔ OnBlock (AllowsStore access) offset (slice_get all.old block) }
    ensures refused { IsFalse result → all.new ≡ all.old }
    ensures stored { IsTrue result → IsStoredAt access block offset v.now all.old all.new }
{
    let mut blocks = mem::replace(all, List::new(alloc)).into_vec();
    if blocks.len() <= block {
        *all = List::from_vec(blocks);
        return false;
    }
    let done = store_in(&mut blocks[block], offset, access, v);
    *all = List::from_vec(blocks);
    done
}

/// Writes a value by a pointer: false, with nothing changed, exactly where what a store asks of it doesn't all hold. A wild
/// pointer is written as bytes of 255. Takes no memory, in constant time.
pub fn store(alloc: Global, m: &mut Memory2, at: &Value, access: Access, v: &Value) -> bool
    requires { IsAccess access }
    ensures allowed { IsTrue result ↔ StoreAllowed access m.old.blocks at.now }
    ensures refused { IsFalse result → m.new.blocks ≡ m.old.blocks }
    ensures stored { IsTrue result → Stores access m.old.blocks at.now v.now m.new.blocks }
{
    match *at {
        Value::Number(_) => false,
        Value::Null => false,
        Value::Pointer { block, offset } => store_at(
            alloc,
            &mut m.blocks,
            block as usize,
            offset,
            access,
            v,
        ),
        Value::Wild => false,
    }
}

/// Ends a block's lifetime. Takes no memory, in constant time.
pub fn kill(alloc: Global, m: &mut Memory2, block: u64)
    requires { block < length m.old.blocks }
    ensures { Kills m.old.blocks block m.new.blocks }
{
    let mut blocks = mem::replace(&mut m.blocks, List::new(alloc)).into_vec();
    blocks[block as usize].alive = false;
    m.blocks = List::from_vec(blocks);
}
