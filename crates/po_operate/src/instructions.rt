// An instruction that stays in its frame, carried out.
ghost use Rattle.std.specs.Prelude.{◌≡◌, ◌+◌, IfOk, pos, length};
ghost use Rattle.po_meaning.specs.Local as relation;
ghost use Rattle.po_memory.specs.declared.value.Value.TheVariants as value;
ghost use Rattle.po_operate.specs.Finding.{Branches, Follows};
ghost use Rattle.po_operate.specs.Ready.{IsReady};

use crate::accesses::{copy_bytes, fill_slot, store_value};
use crate::addresses::{distance, loaded, moved_by, slot_start};
use crate::arithmetic::{computed, constant, converted, negated, tested};
use crate::frames::put_found;
use crate::lifetimes::{enter, leave};
use crate::operands::register_value;
use po_base::{Memory, NodeNo, StrNo};
use po_ir::{Graph, Instr, Project};
use po_memory::{Frame, Memory2, Value};
use std::alloc::Global;

/// A pointer to the start of a block.
fn start_of(block: u64) -> Value
    ensures { result ≡ value.Pointer block (pos 0) }
{
    Value::Pointer { block, offset: 0 }
}

/// A pointer to the start of the literal (C99 6.4.5); a block that 64 bits don't count is want of memory.
fn literal(p: &Project, text: StrNo) -> Result<Value, Memory>
    ensures { IfOk result (λ v. v ≡ value.Pointer (length p.now.globals + text.0) (pos 0)) }
{
    match (p.globals.len() as u64).checked_add(text.0 as u64) {
        None => Err(Memory),
        Some(block) => Ok(start_of(block)),
    }
}

/// The frame goes to the one node where the test holds, and to the other where it doesn't; nowhere without a test.
fn branch(frame: &mut Frame, holds: Option<bool>, yes: NodeNo, no: NodeNo) -> bool
    ensures { Branches holds yes no frame.old frame.new result }
{
    match holds {
        None => false,
        Some(holds) => {
            frame.node = if holds { yes } else { no };
            true
        }
    }
}

/// The instruction is carried out in its frame, of the steps that it may take one that is fixed: false exactly where it
/// takes none. After `Memory` the frame and the blocks are to be given up. In time linear in the bytes that it touches.
pub fn local(
    alloc: Global,
    p: &Project,
    g: &Graph,
    instr: &Instr,
    frame: &mut Frame,
    m: &mut Memory2,
) -> Result<bool, Memory>
    requires { IsReady g.now instr.now frame.old m.old.blocks }
    ensures { IfOk result (λ done. Follows done (relation.Local p.now g.now instr.now frame.old m.old.blocks) frame.new m.new.blocks) }
{
    match instr {
        Instr::Const { to, value } => put_found(frame, *to, constant(g, *to, *value)),
        Instr::Copy { to, from } => put_found(frame, *to, register_value(frame, *from)),
        Instr::Bin { to, op, ty, a, b } => put_found(frame, *to, computed(*op, *ty, frame, a, b)),
        Instr::Un { to, op, ty, a } => put_found(frame, *to, negated(*op, *ty, frame, a)),
        Instr::Conv { to, from, ty, .. } => put_found(frame, *to, converted(*ty, frame, from)),
        Instr::AddrSlot { to, slot } => put_found(frame, *to, slot_start(frame, *slot)),
        Instr::AddrGlobal { to, global } => put_found(frame, *to, Some(start_of(global.0 as u64))),
        Instr::AddrStr { to, text } => put_found(frame, *to, Some(literal(p, *text)?)),
        Instr::PtrAdd {
            to,
            base,
            index,
            factor,
        } => { put_found(frame, *to, moved_by(frame, base, index, *factor)?) }
        Instr::PtrDiff { to, a, b, size } => {
            put_found(frame, *to, distance(g, *to, *size, frame, a, b)?)
        }
        Instr::Load { to, at, access } => put_found(frame, *to, loaded(frame, m, at, *access)),
        Instr::Store { at, value, access } => store_value(alloc, frame, m, at, value, *access),
        Instr::CopyBytes { to, from, size, .. } => copy_bytes(alloc, frame, m, to, from, *size),
        Instr::Fill { slot, size } => fill_slot(alloc, frame, m, *slot, *size),
        Instr::Enter { what } => enter(alloc, g, frame, m, *what),
        Instr::Leave { slot } => leave(alloc, frame, m, *slot),
        Instr::If {
            op,
            ty,
            a,
            b,
            yes,
            no,
        } => {
            let holds = tested(*op, *ty, frame, a, b);
            Ok(branch(frame, holds, *yes, *no))
        }
        Instr::Jump { next } => {
            frame.node = *next;
            Ok(true)
        }
        Instr::Call { .. } => Ok(false),
        Instr::Lib { .. } => Ok(false),
        Instr::Return { .. } => Ok(false),
        Instr::Never { .. } => Ok(false),
    }
}
