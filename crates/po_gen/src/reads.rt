// What is asked of the variables that an instruction reads.
ghost use Rattle.std.specs.Prelude.{◌≡◌, ◌∷◌, [], IfOk, OnOk};
ghost use Rattle.std.specs.Option.{option_copied};
ghost use Rattle.po_ir.specs.Instructions.{operands};
ghost use Rattle.po_gen.specs.Reads.{variable_in, variables_read};
ghost use Rattle.po_gen.specs.Reads as reading;
ghost use Rattle.po_gen.specs.Seen.{Goes};

use po_base::{List, Memory, Opnd, OrdList, RegNo};
use po_ir::{Graph, Instr, Reg};
use po_pred::Pred;
use std::alloc::Global;

fn is_variable(register: Option<&Reg>) -> bool
    ensures { result ≡ reading.is_variable (option_copied register.entry) }
{
    match register {
        Some(register) => !register.param && register.name.is_some(),
        None => false,
    }
}

/// Puts a register behind the others, where it isn't among them.
fn add_first(seen: &mut OrdList<u32>, list: &mut List<RegNo>, register: RegNo) -> Result<(), Memory>
    ensures { OnOk result (Goes (register ∷ []) seen.old list.old seen.new list.new) }
{
    if seen.insert(register.0)? {
        list.push(register)?;
    }
    Ok(())
}

/// Puts the operand's register behind the others, where it is a variable and isn't among them.
fn add_operand(
    g: &Graph,
    seen: &mut OrdList<u32>,
    list: &mut List<RegNo>,
    operand: &Opnd,
) -> Result<(), Memory>
    ensures { OnOk result (Goes (variable_in g.now operand.now) seen.old list.old seen.new list.new) }
{
    match *operand {
        Opnd::Reg(register) if is_variable(g.regs.get(register.0 as usize)) => {
            add_first(seen, list, register)
        }
        _ => Ok(()),
    }
}

/// The register variables among the operands, in their order, each once.
fn variables(alloc: Global, g: &Graph, operands: &[Opnd]) -> Result<List<RegNo>, Memory>
    ensures { IfOk result (λ list. list ≡ variables_read g.now operands.now) }
{
    let mut seen = OrdList::new(alloc);
    let mut list = List::new(alloc);
    for operand in operands {
        add_operand(g, &mut seen, &mut list, operand)?;
    }
    Ok(list)
}

fn variables_of(alloc: Global, g: &Graph, instr: &Instr) -> Result<List<RegNo>, Memory>
    ensures { IfOk result (λ list. list ≡ variables_read g.now (operands instr.now)) }
{
    match instr {
        Instr::Copy { from, .. } => variables(alloc, g, &[Opnd::Reg(*from)]),
        Instr::Un { a, .. } => variables(alloc, g, &[*a]),
        Instr::Conv { from, .. } => variables(alloc, g, &[*from]),
        Instr::Load { at, .. } => variables(alloc, g, &[*at]),
        Instr::Bin { a, b, .. } => variables(alloc, g, &[*a, *b]),
        Instr::If { a, b, .. } => variables(alloc, g, &[*a, *b]),
        Instr::PtrDiff { a, b, .. } => variables(alloc, g, &[*a, *b]),
        Instr::PtrAdd { base, index, .. } => variables(alloc, g, &[*base, *index]),
        Instr::Store { at, value, .. } => variables(alloc, g, &[*at, *value]),
        Instr::CopyBytes { to, from, .. } => variables(alloc, g, &[*to, *from]),
        Instr::Call { args, .. } => variables(alloc, g, args.as_slice()),
        Instr::Lib { args, .. } => variables(alloc, g, args.as_slice()),
        Instr::Return { value: Some(value) } => variables(alloc, g, &[*value]),
        _ => Ok(List::new(alloc)),
    }
}

/// That the register variables which the instruction reads have values. In time in the number of its operands times its
/// logarithm.
pub(crate) fn reads(alloc: Global, g: &Graph, instr: &Instr) -> Result<List<Pred>, Memory>
    ensures { IfOk result (λ list. list ≡ reading.reads g.now instr.now) }
{
    let variables = variables_of(alloc, g, instr)?;
    let mut list = List::new(alloc);
    for variable in variables.as_slice() {
        list.push(Pred::RegSet { v: *variable })?;
    }
    Ok(list)
}
