// Nodes at the beginnings and ends of blocks, and of the cases of a switch (C99 6.2.4, 6.8.4.2).
ghost use Rattle.std.specs.Prelude.{◌≡◌, ◌∷◌, [], length, map, Some, OnOk};
ghost use Rattle.po_ir.specs.declared.instr.Instr.TheVariants as ins;
ghost use Rattle.po_lowering.specs.Blocks.{leaves, case_tests as tests_of, enter_node};
ghost use Rattle.po_lowering.specs.Functions.{last_instr};
ghost use Rattle.po_lower_nodes.specs.Groups.{AddsNode, AddsRow, enter_nodes};
ghost use Rattle.po_lower_nodes.specs.Parameters.{KeepsParameter};

use crate::jumps::{Comparison, branch};
use crate::values::slot_address;
use po_base::{Memory, NodeNo, Op, Opnd, RegNo, SlotNo, Spot};
use po_draft::Draft;
use po_ir::{Access, Instr, Local, Reason, Ty};
use po_lowering::Var;
use std::alloc::Global;

/// One Enter.
fn enter_local(d: &mut Draft, spot: &Spot, what: Local) -> Result<(), Memory>
    ensures { OnOk result (AddsNode d.old d.new (λ g. ins.Enter what) spot.now) }
{
    d.push(Instr::Enter { what }, spot)?;
    Ok(())
}

/// One Enter for a variable, but for one that is a global.
fn enter_variable(d: &mut Draft, spot: &Spot, variable: Var) -> Result<(), Memory>
    ensures { OnOk result (AddsRow d.old d.new (λ g. enter_node (Some variable) spot.now)) }
{
    match variable {
        Var::Reg(r) => {
            enter_local(d, spot, Local::Reg(r))?;
            Ok(())
        }
        Var::Slot(k) => {
            enter_local(d, spot, Local::Slot(k))?;
            Ok(())
        }
        Var::Global(_) => Ok(()),
    }
}

/// One Enter for a variable that is kept in a register or in a slot.
fn enter(d: &mut Draft, spot: &Spot, kept: Option<Var>) -> Result<(), Memory>
    ensures { OnOk result (AddsRow d.old d.new (λ g. enter_node kept spot.now)) }
{
    match kept {
        Some(variable) => {
            enter_variable(d, spot, variable)?;
            Ok(())
        }
        None => Ok(()),
    }
}

/// One Enter for each variable that is kept in a register or in a slot, in order (C99 6.2.4p5). In time linear in their number.
pub fn enter_all(d: &mut Draft, variables: &[(Option<Var>, Spot)]) -> Result<(), Memory>
    ensures { OnOk result (AddsRow d.old d.new (λ g. enter_nodes variables.now)) }
{
    for variable in variables {
        enter(d, &variable.1, variable.0)?;
    }
    Ok(())
}

/// One Leave for a slot.
fn leave(d: &mut Draft, spot: &Spot, slot: SlotNo) -> Result<(), Memory>
    ensures { OnOk result (AddsNode d.old d.new (λ g. ins.Leave slot) spot.now) }
{
    d.push(Instr::Leave { slot }, spot)?;
    Ok(())
}

/// One Leave for each slot, in order (C99 6.2.4p5). In time linear in their number.
pub fn leave_all(d: &mut Draft, spot: &Spot, slots: &[SlotNo]) -> Result<(), Memory>
    ensures { OnOk result (AddsRow d.old d.new (λ g. leaves spot.now (map (λ slot. slot.0) slots.now))) }
{
    for slot in slots {
        leave(d, spot, *slot)?;
    }
    Ok(())
}

/// The test of one case.
fn case_test(
    d: &mut Draft,
    spot: &Spot,
    ty: Ty,
    v: Opnd,
    case: &(i128, NodeNo),
) -> Result<(), Memory>
    ensures { OnOk result (AddsRow d.old d.new (λ g. tests_of (length d.old.nodes) ty v spot.now ((case.now.0, g case.now.1.0) ∷ []))) }
{
    let at = d.here()?;
    let met = Comparison {
        op: Op::Eq,
        ty,
        a: v,
        b: Opnd::Num(case.0),
    };
    branch(d, spot, met, case.1, NodeNo(at.0 + 1))?;
    Ok(())
}

/// The tests of a switch: one `If Eq` for each case, in order; where a case isn't met, the next node follows (C99 6.8.4.2p5). The cases' nodes may be
/// labels. In time linear in the number of cases.
pub fn case_tests(
    d: &mut Draft,
    spot: &Spot,
    ty: Ty,
    v: Opnd,
    cases: &[(i128, NodeNo)],
) -> Result<(), Memory>
    ensures { OnOk result (AddsRow d.old d.new (λ g. tests_of (length d.old.nodes) ty v spot.now (map (λ x. (x.0, g x.1.0)) cases.now))) }
{
    for case in cases {
        case_test(d, spot, ty, v, case)?;
    }
    Ok(())
}

/// The instruction with which a body ends.
fn last(is_void: bool, is_main: bool) -> Instr
    ensures { result ≡ last_instr is_void is_main }
{
    if is_void {
        return Instr::Return { value: None };
    }
    if is_main {
        return Instr::Return {
            value: Some(Opnd::Num(0)),
        };
    }
    Instr::Never {
        reason: Reason::End,
    }
}

/// The last node of a body that completes: a Return for void, a Return of 0 for `main`, and otherwise a node that is never to be reached (C99 6.9.1p12,
/// 5.1.2.2.3). In constant time.
pub fn end_function(d: &mut Draft, spot: &Spot, is_void: bool, is_main: bool) -> Result<(), Memory>
    ensures { OnOk result (AddsNode d.old d.new (λ g. last_instr is_void is_main) spot.now) }
{
    d.push(last(is_void, is_main), spot)?;
    Ok(())
}

/// A parameter that is kept in a slot: the slot is entered and gets the value of the parameter's register, which is a full expression (C99 6.9.1p10). In
/// time linear in the number of the temporaries' types.
pub fn keep_parameter(
    alloc: Global,
    d: &mut Draft,
    spot: &Spot,
    slot: SlotNo,
    r: RegNo,
    access: Access,
) -> Result<(), Memory>
    ensures { OnOk result (KeepsParameter d.old d.new slot r.0 access spot.now) }
{
    d.begin();
    enter_local(d, spot, Local::Slot(slot))?;
    let at = slot_address(alloc, d, spot, slot)?;
    let instr = Instr::Store {
        at,
        value: Opnd::Reg(r),
        access,
    };
    d.push(instr, spot)?;
    Ok(())
}
