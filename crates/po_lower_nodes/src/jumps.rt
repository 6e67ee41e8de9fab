// Branches, jumps and returns (C99 6.8.4, 6.8.6).
ghost use Rattle.std.specs.Prelude.{◌≡◌, OnOk, pos};
ghost use Rattle.po_base.specs.declared.operators.Op.TheVariants as op_is;
ghost use Rattle.po_base.specs.declared.operand.Opnd.TheVariants as o;
ghost use Rattle.po_ir.specs.declared.instr.Instr.TheVariants as ins;
ghost use Rattle.po_lowering.specs.Temporaries.{to};
ghost use Rattle.po_lower_nodes.specs.Groups.{AddsNode};

use po_base::{Memory, NodeNo, Op, Opnd, Spot};
use po_draft::Draft;
use po_ir::{Instr, Ty};

/// A comparison of two operands in a type.
#[derive(Clone, Copy, Debug, PartialEq, Eq)]
pub struct Comparison {
    pub op: Op,
    pub ty: Ty,
    pub a: Opnd,
    pub b: Opnd,
}

/// A comparison, which goes to the one node where it holds, and else to the other (C99 6.8.4.1p2). Both may be labels. In
/// constant time.
pub fn branch(
    d: &mut Draft,
    spot: &Spot,
    met: Comparison,
    hit: NodeNo,
    miss: NodeNo,
) -> Result<(), Memory>
    ensures { OnOk result (AddsNode d.old d.new (λ g. ins.If met.op met.ty met.a met.b (to (g hit.0)) (to (g miss.0))) spot.now) }
{
    let instr = Instr::If {
        op: met.op,
        ty: met.ty,
        a: met.a,
        b: met.b,
        yes: hit,
        no: miss,
    };
    d.push(instr, spot)?;
    Ok(())
}

/// A comparison of an operand with 0, which goes to the one node where they differ, and else to the other (C99 6.8.4.1p2). Both may be labels. In
/// constant time.
pub fn test(
    d: &mut Draft,
    spot: &Spot,
    ty: Ty,
    v: Opnd,
    hit: NodeNo,
    miss: NodeNo,
) -> Result<(), Memory>
    ensures { OnOk result (AddsNode d.old d.new (λ g. ins.If op_is.Ne ty v (o.Num (pos 0)) (to (g hit.0)) (to (g miss.0))) spot.now) }
{
    let met = Comparison {
        op: Op::Ne,
        ty,
        a: v,
        b: Opnd::Num(0),
    };
    branch(d, spot, met, hit, miss)?;
    Ok(())
}

/// A Jump to a node, which may be a label (C99 6.8.6). In constant time.
pub fn jump(d: &mut Draft, spot: &Spot, target: NodeNo) -> Result<(), Memory>
    ensures { OnOk result (AddsNode d.old d.new (λ g. ins.Jump (to (g target.0))) spot.now) }
{
    d.push(Instr::Jump { next: target }, spot)?;
    Ok(())
}

/// A Return, with a value or without one (C99 6.8.6.4). In constant time.
pub fn return_value(d: &mut Draft, spot: &Spot, value: Option<Opnd>) -> Result<(), Memory>
    ensures { OnOk result (AddsNode d.old d.new (λ g. ins.Return value) spot.now) }
{
    d.push(Instr::Return { value }, spot)?;
    Ok(())
}
