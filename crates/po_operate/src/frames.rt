// Frames that go on: registers, slots and the next node.
ghost use Rattle.std.specs.Prelude.{◌≡◌, ◌+◌, IfOk, OnOk, slice_set};
ghost use Rattle.po_meaning.specs.Operands as operands;
ghost use Rattle.po_operate.specs.Finding.{Puts};

use po_base::{Memory, NodeNo, RegNo, SlotNo};
use po_memory::{Frame, Value};

/// The next node; one that 32 bits don't count is want of memory.
fn next_node(n: NodeNo) -> Result<NodeNo, Memory>
    ensures { IfOk result (λ m. m.0 ≡ n.0 + 1) }
{
    if n.0 == u32::MAX {
        return Err(Memory);
    }
    Ok(NodeNo(n.0 + 1))
}

/// The frame goes to the next node.
pub(crate) fn onward(frame: &mut Frame) -> Result<(), Memory>
    ensures { OnOk result (frame.new ≡ operands.onward frame.old) }
{
    frame.node = next_node(frame.node)?;
    Ok(())
}

fn set_register(frame: &mut Frame, r: RegNo, v: Option<Value>)
    ensures { frame.new ≡ record frame.old { regs = slice_set frame.old.regs r.0 v } }
{
    let place = r.0 as usize;
    if place < frame.regs.len() {
        frame.regs.set(place, v);
    }
}

fn set_slot(frame: &mut Frame, s: SlotNo, block: Option<u64>)
    ensures { frame.new ≡ record frame.old { slots = slice_set frame.old.slots s.0 block } }
{
    let place = s.0 as usize;
    if place < frame.slots.len() {
        frame.slots.set(place, block);
    }
}

/// The register gets a value, and the next node follows.
pub(crate) fn put(frame: &mut Frame, to: RegNo, v: Value) -> Result<(), Memory>
    ensures { OnOk result (frame.new ≡ operands.put to v frame.old) }
{
    set_register(frame, to, Some(v));
    onward(frame)
}

/// A register gets a result, where both are there, and the next node follows (C99 6.8.6.4p3).
pub fn receive(frame: &mut Frame, to: Option<RegNo>, v: Option<Value>) -> Result<(), Memory>
    ensures { OnOk result (frame.new ≡ operands.receive to v frame.old) }
{
    match to {
        None => onward(frame),
        Some(to) => match v {
            None => onward(frame),
            Some(v) => put(frame, to, v),
        },
    }
}

/// The register has no value any more, and the next node follows.
pub(crate) fn without_value(frame: &mut Frame, r: RegNo) -> Result<(), Memory>
    ensures { OnOk result (frame.new ≡ operands.without_value r frame.old) }
{
    set_register(frame, r, None);
    onward(frame)
}

/// The slot has this block, or none, and the next node follows.
pub(crate) fn with_block(frame: &mut Frame, s: SlotNo, block: Option<u64>) -> Result<(), Memory>
    ensures { OnOk result (frame.new ≡ operands.with_block s block frame.old) }
{
    set_slot(frame, s, block);
    onward(frame)
}

/// The register gets the value that was found, and the next node follows; nothing changes where none was found.
pub(crate) fn put_found(frame: &mut Frame, to: RegNo, found: Option<Value>) -> Result<bool, Memory>
    ensures { IfOk result (Puts to found frame.old frame.new) }
{
    match found {
        None => Ok(false),
        Some(v) => {
            put(frame, to, v)?;
            Ok(true)
        }
    }
}

/// The block of a slot, where the slot is entered.
pub(crate) fn slot_block(frame: &Frame, s: SlotNo) -> Option<u64>
    ensures { result ≡ operands.slot_block frame.now s.0 }
{
    match frame.slots.get(s.0 as usize) {
        None => None,
        Some(block) => *block,
    }
}
