// Addresses, unary operators and calls (C99 6.5.2.2, 6.5.3).
ghost use Rattle.std.specs.Prelude.{◌≡◌, ◌+◌, ◌<◌, ◌∷◌, [], length, IfOk, OnOk, pos, Some, None};
ghost use Rattle.po_base.specs.declared.operators.Op.TheVariants as op_is;
ghost use Rattle.po_base.specs.declared.operand.Opnd.TheVariants as o;
ghost use Rattle.po_ir.specs.declared.instr.Ty.TheVariants as ty_is;
ghost use Rattle.po_ir.specs.declared.instr.Callee.TheVariants.{Extern};
ghost use Rattle.po_ir.specs.declared.instr.Instr.TheVariants as ins;
ghost use Rattle.po_lowering.specs.Temporaries.{reg};
ghost use Rattle.po_lower_nodes.specs.Groups.{AddsNode, AddsValue, AddsChoice};

use po_arith::IntType;
use po_base::{GlobalNo, List, Memory, NodeNo, Op, Opnd, SlotNo, Spot, StrNo, Text, UnOp};
use po_draft::Draft;
use po_ir::{Callee, Instr, Ty};
use std::alloc::Global;

/// The address of a slot (C99 6.5.3.2). In constant time.
pub fn slot_address(alloc: Global, d: &mut Draft, spot: &Spot, slot: SlotNo) -> Result<Opnd, Memory>
    ensures { IfOk result (λ v. AddsValue d.old d.new ty_is.Ptr (λ r. ins.AddrSlot (reg r) slot) spot.now v) }
{
    let r = d.take(alloc, Ty::Ptr)?;
    d.push(Instr::AddrSlot { to: r, slot }, spot)?;
    Ok(Opnd::Reg(r))
}

/// The address of a global (C99 6.5.3.2). In constant time.
pub fn global_address(
    alloc: Global,
    d: &mut Draft,
    spot: &Spot,
    global: GlobalNo,
) -> Result<Opnd, Memory>
    ensures { IfOk result (λ v. AddsValue d.old d.new ty_is.Ptr (λ r. ins.AddrGlobal (reg r) global) spot.now v) }
{
    let r = d.take(alloc, Ty::Ptr)?;
    d.push(Instr::AddrGlobal { to: r, global }, spot)?;
    Ok(Opnd::Reg(r))
}

/// The address of a literal (C99 6.4.5). In constant time.
pub fn text_address(alloc: Global, d: &mut Draft, spot: &Spot, text: StrNo) -> Result<Opnd, Memory>
    ensures { IfOk result (λ v. AddsValue d.old d.new ty_is.Ptr (λ r. ins.AddrStr (reg r) text) spot.now v) }
{
    let r = d.take(alloc, Ty::Ptr)?;
    d.push(Instr::AddrStr { to: r, text }, spot)?;
    Ok(Opnd::Reg(r))
}

/// `-` or `~` of an operand, computed in an integer type, in a temporary of a type (C99 6.5.3.3p3, p4). In constant time.
pub fn unary(
    alloc: Global,
    d: &mut Draft,
    spot: &Spot,
    held: Ty,
    op: UnOp,
    ty: IntType,
    a: Opnd,
) -> Result<Opnd, Memory>
    ensures { IfOk result (λ v. AddsValue d.old d.new held (λ r. ins.Un (reg r) op ty a) spot.now v) }
{
    let r = d.take(alloc, held)?;
    d.push(Instr::Un { to: r, op, ty, a }, spot)?;
    Ok(Opnd::Reg(r))
}

/// Whether an operand is 0, compared in a type, in a temporary of a type (C99 6.5.3.3p5). In constant time.
pub fn compare_with_zero(
    alloc: Global,
    d: &mut Draft,
    spot: &Spot,
    held: Ty,
    ty: Ty,
    a: Opnd,
) -> Result<Opnd, Memory>
    ensures { IfOk result (λ v. AddsValue d.old d.new held (λ r. ins.Bin (reg r) op_is.Eq ty a (o.Num (pos 0))) spot.now v) }
{
    let r = d.take(alloc, held)?;
    let instr = Instr::Bin {
        to: r,
        op: Op::Eq,
        ty,
        a,
        b: Opnd::Num(0),
    };
    d.push(instr, spot)?;
    Ok(Opnd::Reg(r))
}

/// A call of the function of this name, whose result is in a temporary of a type (C99 6.5.2.2). In constant time.
pub fn call(
    alloc: Global,
    d: &mut Draft,
    spot: &Spot,
    held: Ty,
    name: Text,
    args: List<Opnd>,
    strings: List<u32>,
) -> Result<Opnd, Memory>
    ensures { IfOk result (λ v. AddsValue d.old d.new held (λ r. ins.Call (Some (reg r)) (Extern name) args strings) spot.now v) }
{
    let r = d.take(alloc, held)?;
    let instr = Instr::Call {
        to: Some(r),
        callee: Callee::Extern(name),
        args,
        strings,
    };
    d.push(instr, spot)?;
    Ok(Opnd::Reg(r))
}

/// A call of the function of this name, without a result (C99 6.5.2.2). In constant time.
pub fn void_call(
    d: &mut Draft,
    spot: &Spot,
    name: Text,
    args: List<Opnd>,
    strings: List<u32>,
) -> Result<(), Memory>
    ensures { OnOk result (AddsNode d.old d.new (λ g. ins.Call None (Extern name) args strings) spot.now) }
{
    let instr = Instr::Call {
        to: None,
        callee: Callee::Extern(name),
        args,
        strings,
    };
    d.push(instr, spot)?;
    Ok(())
}

/// Behind a condition: 1 where it is entered at its first node, 0 where it is entered at its third, in a temporary of a type (C99 6.5.13p3, 6.5.14p3).
/// In constant time.
pub fn one_or_zero(alloc: Global, d: &mut Draft, spot: &Spot, held: Ty) -> Result<Opnd, Memory>
    ensures { IfOk result (λ v. AddsChoice d.old d.new held spot.now v) }
{
    let at = d.here()?;
    let r = d.take(alloc, held)?;
    d.push(Instr::Const { to: r, value: 1 }, spot)?;
    d.push(
        Instr::Jump {
            next: NodeNo(at.0 + 3),
        },
        spot,
    )?;
    d.push(Instr::Const { to: r, value: 0 }, spot)?;
    Ok(Opnd::Reg(r))
}
