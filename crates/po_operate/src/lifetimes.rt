// Variables that come to be and end (C99 6.2.4).
ghost use Rattle.std.specs.Prelude.{◌≡◌, IfOk, replicate};
ghost use Rattle.po_ir.specs.declared.graph.Graph.{Graph as Body};
ghost use Rattle.po_ir.specs.declared.instr.Instr.TheVariants as instr;
ghost use Rattle.po_ir.specs.declared.instr.Local.TheVariants as variable;
ghost use Rattle.po_ir.specs.declared.project.Project.{Project};
ghost use Rattle.po_memory.specs.declared.value.Byte.TheVariants as byte;
ghost use Rattle.po_meaning.specs.Local.{IsNew, Local, Opens};
ghost use Rattle.po_operate.specs.Finding.{Follows};
ghost use Rattle.po_operate.specs.Ready.{OnSlot};

use crate::frames::{slot_block, with_block, without_value};
use po_base::{List, Memory, SlotNo};
use po_ir::{Graph, Local as Variable, Slot};
use po_memory::{Block, Byte, Frame, Memory2, alloc_block, kill};
use std::alloc::Global;

fn blank_bytes(alloc: Global, size: u64) -> Result<List<Byte>, Memory>
    ensures { IfOk result (λ bytes. bytes ≡ replicate size byte.Blank) }
{
    let mut bytes = List::new(alloc);
    for _ in 0..size {
        bytes.push(Byte::Blank)?;
    }
    Ok(bytes)
}

/// A block for a slot, without values yet (C99 6.2.4p5, 6.7.8p10).
fn new_block(alloc: Global, slot: &Slot) -> Result<Block, Memory>
    ensures { IfOk result (IsNew slot.now) }
{
    Ok(Block {
        bytes: blank_bytes(alloc, slot.size)?,
        align: slot.align,
        alive: true,
        writable: !slot.constant,
        heap: false,
    })
}

fn enter_slot(
    alloc: Global,
    g: &Graph,
    frame: &mut Frame,
    m: &mut Memory2,
    s: SlotNo,
) -> Result<bool, Memory>
    ensures { IfOk result (λ done. Follows done (Opens g.now (variable.Slot s) frame.old m.old.blocks) frame.new m.new.blocks) }
{
    match g.slots.get(s.0 as usize) {
        None => Ok(false),
        Some(slot) => {
            let block = alloc_block(m, new_block(alloc, slot)?)?;
            with_block(frame, s, Some(block))?;
            Ok(true)
        }
    }
}

/// The variable comes to be, without a value (C99 6.2.4p5).
pub(crate) fn enter(
    alloc: Global,
    g: &Graph,
    frame: &mut Frame,
    m: &mut Memory2,
    what: Variable,
) -> Result<bool, Memory>
    ensures { IfOk result (λ done. Follows done (Opens g.now what frame.old m.old.blocks) frame.new m.new.blocks) }
{
    match what {
        Variable::Reg(r) => {
            without_value(frame, r)?;
            Ok(true)
        }
        Variable::Slot(s) => enter_slot(alloc, g, frame, m, s),
    }
}

/// The slot's variable ends (C99 6.2.4p5).
pub(crate) fn leave(
    alloc: Global,
    frame: &mut Frame,
    m: &mut Memory2,
    slot: SlotNo,
) -> Result<bool, Memory>
    requires { OnSlot frame.old m.old.blocks slot (λ _. Unit {0}) }
    ensures { (p : Project) (g : Body) → IfOk result (λ done. Follows done (Local p g (instr.Leave slot) frame.old m.old.blocks) frame.new m.new.blocks) }
{
    match slot_block(frame, slot) {
        None => Ok(false),
        Some(block) => {
            kill(alloc, m, block);
            with_block(frame, slot, None)?;
            Ok(true)
        }
    }
}
