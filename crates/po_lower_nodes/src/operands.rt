// Operands that are held while later ones are evaluated, and registers that are written.
ghost use Rattle.std.specs.Prelude.{◌≡◌, true, Some, IfOk, OnOk};
ghost use Rattle.po_lowering.specs.Temporaries.{type_in, put as put_instr};
ghost use Rattle.po_base.specs.declared.operand.Opnd.TheVariants as o;
ghost use Rattle.po_lower_nodes.specs.Groups.{AddsNode, AddsHolding, AddsSaving, IsRegister};

use po_base::{Memory, Opnd, RegNo, Spot};
use po_draft::Draft;
use po_ir::{Instr, Ty};
use std::alloc::Global;

/// A Copy of a register in a temporary of its type.
fn copy(alloc: Global, d: &mut Draft, spot: &Spot, q: RegNo, ty: Ty) -> Result<Opnd, Memory>
    requires { type_in d.old.state q ≡ Some ty }
    ensures { IfOk result (λ w. AddsHolding d.old d.new spot.now (o.Reg q) true w) }
{
    let r = d.take(alloc, ty)?;
    d.push(Instr::Copy { to: r, from: q }, spot)?;
    Ok(Opnd::Reg(r))
}

/// A Copy of a register. A register that the draft doesn't have answers `Memory`.
fn copy_register(alloc: Global, d: &mut Draft, spot: &Spot, q: RegNo) -> Result<Opnd, Memory>
    ensures { IfOk result (λ w. AddsHolding d.old d.new spot.now (o.Reg q) true w) }
{
    match d.type_of(q) {
        Some(ty) => copy(alloc, d, spot, q, ty),
        None => Err(Memory),
    }
}

/// A Copy of an operand that is a register.
fn copy_operand(alloc: Global, d: &mut Draft, spot: &Spot, v: Opnd) -> Result<Opnd, Memory>
    requires { IsRegister v }
    ensures { IfOk result (λ w. AddsHolding d.old d.new spot.now v true w) }
{
    match v {
        Opnd::Reg(q) => copy_register(alloc, d, spot, q),
        Opnd::Num(_) => unreachable!(),
    }
}

/// What holds an operand while later ones are evaluated: itself, or, where one of them assigns it, a Copy of it in a temporary of its own type
/// (C99 6.5p2 leaves the order open; here operands have their values from left to right). In constant time. `Memory` is also the answer for a
/// register that the draft doesn't have.
pub fn hold(
    alloc: Global,
    d: &mut Draft,
    spot: &Spot,
    v: Opnd,
    changed: bool,
) -> Result<Opnd, Memory>
    requires { changed ≡ true → IsRegister v }
    ensures { IfOk result (λ w. AddsHolding d.old d.new spot.now v changed w) }
{
    if changed {
        return copy_operand(alloc, d, spot, v);
    }
    Ok(v)
}

/// A Copy of a register in a temporary of a type.
fn copy_saved(alloc: Global, d: &mut Draft, spot: &Spot, ty: Ty, q: RegNo) -> Result<Opnd, Memory>
    ensures { IfOk result (λ v. AddsSaving d.old d.new spot.now ty true q (Some v)) }
{
    let r = d.take(alloc, ty)?;
    d.push(Instr::Copy { to: r, from: q }, spot)?;
    Ok(Opnd::Reg(r))
}

/// A Copy of a register's value, where it is used (C99 6.5.2.4p2), in a temporary of the type. In constant time.
pub fn save(
    alloc: Global,
    d: &mut Draft,
    spot: &Spot,
    ty: Ty,
    used: bool,
    q: RegNo,
) -> Result<Option<Opnd>, Memory>
    ensures { IfOk result (λ v. AddsSaving d.old d.new spot.now ty used q v) }
{
    if used {
        return Ok(Some(copy_saved(alloc, d, spot, ty, q)?));
    }
    Ok(None)
}

/// The instruction by which a register gets an operand's value.
fn put_of(r: RegNo, v: Opnd) -> Instr
    ensures { result ≡ put_instr r.0 v }
{
    match v {
        Opnd::Num(value) => Instr::Const { to: r, value },
        Opnd::Reg(from) => Instr::Copy { to: r, from },
    }
}

/// A register gets an operand's value (C99 6.5.16.1): a Const or a Copy. In constant time.
pub fn put(d: &mut Draft, spot: &Spot, r: RegNo, v: Opnd) -> Result<(), Memory>
    ensures { OnOk result (AddsNode d.old d.new (λ g. put_instr r.0 v) spot.now) }
{
    d.push(put_of(r, v), spot)?;
    Ok(())
}
