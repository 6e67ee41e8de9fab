// Whether a graph is valid.
ghost use Rattle.std.specs.Prelude.{◌≡◌, ◌<◌, ◌↔◌, IsTrue, All, length};
ghost use Rattle.po_ir.specs.Instructions.{operands, opened, entered, used};
ghost use Rattle.po_ir.specs.Instructions as instructions;
ghost use Rattle.po_ir.specs.Valid.{IsRegister, IsSlot, IsThere, AreRegisters, AreSlots, AreTargets, Ends, NamesParts, EndsLast, IsValid};

use crate::graph::{Graph, Node};
use crate::instr::{Instr, Local};
use po_base::{Opnd, RegNo};

/// The register that gets the instruction's result. In constant time.
pub fn written(instr: &Instr) -> Option<RegNo>
    ensures { result ≡ instructions.written instr.now }
{
    match instr {
        Instr::Const { to, .. }
        | Instr::Copy { to, .. }
        | Instr::Bin { to, .. }
        | Instr::Un { to, .. }
        | Instr::Conv { to, .. }
        | Instr::AddrSlot { to, .. }
        | Instr::AddrGlobal { to, .. }
        | Instr::AddrStr { to, .. }
        | Instr::PtrAdd { to, .. }
        | Instr::PtrDiff { to, .. }
        | Instr::Load { to, .. } => Some(*to),
        Instr::Call { to, .. } | Instr::Lib { to, .. } => *to,
        _ => None,
    }
}

fn is_there(registers: usize, operand: &Opnd) -> bool
    ensures { IsTrue result ↔ IsThere registers operand.now }
{
    match operand {
        Opnd::Reg(register) => (register.0 as usize) < registers,
        Opnd::Num(_) => true,
    }
}

fn are_there(registers: usize, operands: &[Opnd]) -> bool
    ensures { IsTrue result ↔ All (IsThere registers) operands.now }
{
    for operand in operands {
        if !is_there(registers, operand) {
            return false;
        }
    }
    true
}

fn result_is_there(registers: usize, instr: &Instr) -> bool
    ensures { IsTrue result ↔ IsRegister registers (instructions.written instr.now) }
{
    match written(instr) {
        Some(register) => (register.0 as usize) < registers,
        None => true,
    }
}

fn operands_are_there(registers: usize, instr: &Instr) -> bool
    ensures { IsTrue result ↔ All (IsThere registers) (operands instr.now) }
{
    match instr {
        Instr::Copy { from, .. } => are_there(registers, &[Opnd::Reg(*from)]),
        Instr::Un { a, .. } => are_there(registers, &[*a]),
        Instr::Conv { from, .. } => are_there(registers, &[*from]),
        Instr::Load { at, .. } => are_there(registers, &[*at]),
        Instr::Bin { a, b, .. } => are_there(registers, &[*a, *b]),
        Instr::If { a, b, .. } => are_there(registers, &[*a, *b]),
        Instr::PtrDiff { a, b, .. } => are_there(registers, &[*a, *b]),
        Instr::PtrAdd { base, index, .. } => are_there(registers, &[*base, *index]),
        Instr::Store { at, value, .. } => are_there(registers, &[*at, *value]),
        Instr::CopyBytes { to, from, .. } => are_there(registers, &[*to, *from]),
        Instr::Call { args, .. } => are_there(registers, args.as_slice()),
        Instr::Lib { args, .. } => are_there(registers, args.as_slice()),
        Instr::Return { value: Some(value) } => are_there(registers, &[*value]),
        _ => true,
    }
}

fn variable_is_there(registers: usize, instr: &Instr) -> bool
    ensures { IsTrue result ↔ IsRegister registers (opened instr.now) }
{
    match instr {
        Instr::Enter {
            what: Local::Reg(register),
        } => (register.0 as usize) < registers,
        _ => true,
    }
}

fn entered_is_there(slots: usize, instr: &Instr) -> bool
    ensures { IsTrue result ↔ IsSlot slots (entered instr.now) }
{
    match instr {
        Instr::Enter {
            what: Local::Slot(slot),
        } => (slot.0 as usize) < slots,
        _ => true,
    }
}

fn used_is_there(slots: usize, instr: &Instr) -> bool
    ensures { IsTrue result ↔ IsSlot slots (used instr.now) }
{
    match instr {
        Instr::AddrSlot { slot, .. } => (slot.0 as usize) < slots,
        Instr::Fill { slot, .. } => (slot.0 as usize) < slots,
        Instr::Leave { slot } => (slot.0 as usize) < slots,
        _ => true,
    }
}

fn targets_are_there(nodes: usize, instr: &Instr) -> bool
    ensures { IsTrue result ↔ AreTargets nodes instr.now }
{
    match instr {
        Instr::If { yes, no, .. } => (yes.0 as usize) < nodes && (no.0 as usize) < nodes,
        Instr::Jump { next } => (next.0 as usize) < nodes,
        _ => true,
    }
}

fn ends(instr: &Instr) -> bool
    ensures { IsTrue result ↔ Ends instr.now }
{
    match instr {
        Instr::If { .. } => true,
        Instr::Jump { .. } => true,
        Instr::Return { .. } => true,
        Instr::Never { .. } => true,
        _ => false,
    }
}

fn registers_are_there(registers: usize, instr: &Instr) -> bool
    ensures { IsTrue result ↔ AreRegisters registers instr.now }
{
    result_is_there(registers, instr)
        && operands_are_there(registers, instr)
        && variable_is_there(registers, instr)
}

fn slots_are_there(slots: usize, instr: &Instr) -> bool
    ensures { IsTrue result ↔ AreSlots slots instr.now }
{
    entered_is_there(slots, instr) && used_is_there(slots, instr)
}

fn names_parts(graph: &Graph, instr: &Instr) -> bool
    ensures { IsTrue result ↔ NamesParts graph.now instr.now }
{
    registers_are_there(graph.regs.len(), instr)
        && slots_are_there(graph.slots.len(), instr)
        && targets_are_there(graph.nodes.len(), instr)
}

fn all_name_parts(graph: &Graph) -> bool
    ensures { IsTrue result ↔ All (λ n. NamesParts graph.now n.instr) graph.now.nodes }
{
    for node in graph.nodes.as_slice() {
        if !names_parts(graph, &node.instr) {
            return false;
        }
    }
    true
}

/// Whether the last node is there and isn't followed by itself by the next.
fn ends_last(nodes: &[Node]) -> bool
    ensures { IsTrue result ↔ EndsLast nodes.now }
{
    match nodes {
        [.., last] => ends(&last.instr),
        [] => false,
    }
}

/// Whether the graph has a node, each register, slot and node that is named is there, and no last node falls through. In
/// time linear in the graph.
pub fn valid(graph: &Graph) -> bool
    ensures { IsTrue result ↔ IsValid graph.now }
{
    all_name_parts(graph) && ends_last(graph.nodes.as_slice())
}
