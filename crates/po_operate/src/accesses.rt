// Values stored, and bytes copied.
ghost use Rattle.std.specs.Prelude.{◌≡◌, ◌≤◌, ◌+◌, ℕ, IfOk, pos, length};
ghost use Rattle.po_ir.specs.declared.graph.Graph.{Graph};
ghost use Rattle.po_ir.specs.declared.instr.Instr.TheVariants as instr;
ghost use Rattle.po_ir.specs.declared.project.Project.{Project};
ghost use Rattle.po_memory.specs.Accesses.{Copies, StoreAllowed, Writes, pasted};
ghost use Rattle.po_memory.specs.Blocks.{OnPointer, Spans};
ghost use Rattle.po_memory.specs.Bytes.{AreCopied, IsAccess, IsCopied, zeros};
ghost use Rattle.po_memory.specs.declared.value.Value.TheVariants as value;
ghost use Rattle.po_meaning.specs.Local.{Local};
ghost use Rattle.po_operate.specs.Copying.{AreBytesAt, FindsRoom, HasRoom};
ghost use Rattle.po_operate.specs.Finding.{Changes, Follows};
ghost use Rattle.po_operate.specs.Ready.{OnOperand, OnSlot};

use crate::frames::{onward, slot_block};
use crate::operands::{pointer_value, value_at};
use po_base::{List, Memory, Opnd, SlotNo};
use po_ir::Access;
use po_memory::{Byte, Frame, Memory2, Value, store};
use std::alloc::Global;
use std::mem;

/// A place in a block.
#[derive(Clone, Copy, Debug)]
pub(crate) struct Room {
    pub(crate) block: u64,
    pub(crate) start: usize,
}

/// The value is written to memory there (C99 6.5.16).
pub(crate) fn store_value(
    alloc: Global,
    frame: &mut Frame,
    m: &mut Memory2,
    at: &Opnd,
    value: &Opnd,
    access: Access,
) -> Result<bool, Memory>
    requires access { IsAccess access }
    requires allowed { OnOperand frame.old at.now (StoreAllowed access m.old.blocks) }
    ensures { (p : Project) (g : Graph) → IfOk result (λ done. Follows done (Local p g (instr.Store at.now value.now access) frame.old m.old.blocks) frame.new m.new.blocks) }
{
    match pointer_value(frame, at) {
        None => Ok(false),
        Some(v) => match value_at(frame, access.ty, value) {
            None => Ok(false),
            Some(x) => {
                let done = store(alloc, m, &v, access, &x);
                onward(frame)?;
                Ok(done)
            }
        },
    }
}

/// What becomes of a byte onto which another is copied: 0 where one without a value is copied onto one with a value.
fn copied(from: &Byte, old: &Byte) -> Byte
    ensures { IsCopied from.now old.now result }
{
    match *from {
        Byte::Blank => match old {
            Byte::Blank => Byte::Blank,
            Byte::Number(_) => Byte::Number(0),
            Byte::Part { .. } => Byte::Number(0),
        },
        Byte::Number(n) => Byte::Number(n),
        Byte::Part { block, offset, k } => Byte::Part { block, offset, k },
    }
}

/// What becomes of bytes onto which as many others are copied.
fn copied_bytes(alloc: Global, source: &[Byte], old: &[Byte]) -> Result<List<Byte>, Memory>
    requires { length source.now ≡ length old.now }
    ensures { IfOk result (AreCopied source.now old.now) }
{
    let mut bytes = List::new(alloc);
    for i in 0..source.len() {
        bytes.push(copied(&source[i], &old[i]))?;
    }
    Ok(bytes)
}

/// Bytes are written over others from a place on.
fn write(bytes: &mut List<Byte>, start: usize, new: &[Byte])
    requires { start + length new.now ≤ length bytes.old }
    ensures { bytes.new ≡ pasted bytes.old start new.now }
{
    let _length = bytes.len();
    for i in 0..new.len() {
        bytes.set(start + i, new[i]);
    }
}

/// Bytes are written from a place of a block on.
fn overwrite(alloc: Global, m: &mut Memory2, room: Room, bytes: &[Byte])
    requires { HasRoom m.old.blocks room.block room.start (length bytes.now) }
    ensures { Writes m.old.blocks (value.Pointer room.block (pos room.start)) bytes.now m.new.blocks }
{
    let mut blocks = mem::replace(&mut m.blocks, List::new(alloc)).into_vec();
    write(&mut blocks[room.block as usize].bytes, room.start, bytes);
    m.blocks = List::from_vec(blocks);
}

/// So many bytes of a block from a place on.
fn bytes_at(m: &Memory2, room: Room, size: usize) -> &[Byte]
    requires { HasRoom m.now.blocks room.block room.start size }
    ensures { AreBytesAt m.now.blocks room.block room.start size result.now }
{
    &m.blocks.as_slice()[room.block as usize].bytes.as_slice()[room.start..room.start + size]
}

/// Where a pointer points to.
fn room_of(m: &Memory2, v: &Value, size: u64) -> Option<Room>
    requires { OnPointer (Spans (pos 0) (pos size)) m.now.blocks v.now }
    ensures { FindsRoom m.now.blocks v.now size result }
{
    match *v {
        Value::Number(_) => None,
        Value::Null => None,
        Value::Pointer { block, offset } => match m.blocks.get(block as usize) {
            None => None,
            Some(c) => {
                if offset < 0 || offset > c.bytes.len() as i128 {
                    return None;
                }
                let start = offset as usize;
                Some(Room { block, start })
            }
        },
        Value::Wild => None,
    }
}

/// So many bytes are copied from the one place onto the other.
fn copy_between(
    alloc: Global,
    m: &mut Memory2,
    to: Room,
    from: Room,
    size: usize,
) -> Result<(), Memory>
    requires to { HasRoom m.old.blocks to.block to.start size }
    requires from { HasRoom m.old.blocks from.block from.start size }
    ensures { IfOk result (λ _. Copies size m.old.blocks (value.Pointer to.block (pos to.start)) (value.Pointer from.block (pos from.start)) m.new.blocks) }
{
    let bytes = copied_bytes(alloc, bytes_at(m, from, size), bytes_at(m, to, size))?;
    overwrite(alloc, m, to, bytes.as_slice());
    Ok(())
}

/// So many bytes are copied, all at once, by two pointers.
fn copy(alloc: Global, m: &mut Memory2, to: &Value, from: &Value, size: u64) -> Result<bool, Memory>
    requires to { OnPointer (Spans (pos 0) (pos size)) m.old.blocks to.now }
    requires from { OnPointer (Spans (pos 0) (pos size)) m.old.blocks from.now }
    ensures { IfOk result (λ done. Changes done (Copies size m.old.blocks to.now from.now) m.new.blocks) }
{
    match room_of(m, to, size) {
        None => Ok(false),
        Some(target) => match room_of(m, from, size) {
            None => Ok(false),
            Some(source) => {
                copy_between(alloc, m, target, source, size as usize)?;
                Ok(true)
            }
        },
    }
}

/// `size` bytes are copied, all at once (C99 6.5.16.1).
pub(crate) fn copy_bytes(
    alloc: Global,
    frame: &mut Frame,
    m: &mut Memory2,
    to: &Opnd,
    from: &Opnd,
    size: u64,
) -> Result<bool, Memory>
    requires to { OnOperand frame.old to.now (OnPointer (Spans (pos 0) (pos size)) m.old.blocks) }
    requires from { OnOperand frame.old from.now (OnPointer (Spans (pos 0) (pos size)) m.old.blocks) }
    ensures { (p : Project) (g : Graph) (align : ℕ) → IfOk result (λ done. Follows done (Local p g (instr.CopyBytes to.now from.now size align) frame.old m.old.blocks) frame.new m.new.blocks) }
{
    match pointer_value(frame, to) {
        None => Ok(false),
        Some(v) => match pointer_value(frame, from) {
            None => Ok(false),
            Some(x) => {
                let done = copy(alloc, m, &v, &x, size)?;
                onward(frame)?;
                Ok(done)
            }
        },
    }
}

fn zero_bytes(alloc: Global, size: u64) -> Result<List<Byte>, Memory>
    ensures { IfOk result (λ bytes. bytes ≡ zeros size) }
{
    let mut bytes = List::new(alloc);
    for _ in 0..size {
        bytes.push(Byte::Number(0))?;
    }
    Ok(bytes)
}

/// The first bytes of the slot become 0 (C99 6.7.8p21).
pub(crate) fn fill_slot(
    alloc: Global,
    frame: &mut Frame,
    m: &mut Memory2,
    slot: SlotNo,
    size: u64,
) -> Result<bool, Memory>
    requires { OnSlot frame.old m.old.blocks slot (λ c. size ≤ length c.bytes) }
    ensures { (p : Project) (g : Graph) → IfOk result (λ done. Follows done (Local p g (instr.Fill slot size) frame.old m.old.blocks) frame.new m.new.blocks) }
{
    match slot_block(frame, slot) {
        None => Ok(false),
        Some(block) => {
            let bytes = zero_bytes(alloc, size)?;
            overwrite(alloc, m, Room { block, start: 0 }, bytes.as_slice());
            onward(frame)?;
            Ok(true)
        }
    }
}
