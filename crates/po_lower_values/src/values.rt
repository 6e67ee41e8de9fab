// Nodes that combine, step, load and write values, by the types of C.
ghost use Rattle.std.specs.Prelude.{IfOk, OnOk};
ghost use Rattle.po_ir.specs.declared.instr.Instr.TheVariants as ins;
ghost use Rattle.po_lowering.specs.Typed.{Typed};
ghost use Rattle.po_lowering.specs.Types as types;
ghost use Rattle.po_lowering.specs.Conversions as conversions;
ghost use Rattle.po_lowering.specs.Temporaries.{reg};
ghost use Rattle.po_lower_types.specs.Measured.{IsMeasured};
ghost use Rattle.po_lower_nodes.specs.Groups.{AddsNode, AddsValue};

use po_base::{Memory, Op, Opnd, Spot};
use po_draft::Draft;
use po_ir::{Instr, Ty};
use po_lower_types::{access_of, combines, register_type, steps, store};
use po_types::{CType, Env};
use std::alloc::Global;

/// Two converted operands, with the types to which they are converted.
#[derive(Clone, Copy)]
pub struct Operands<'a> {
    pub left: Opnd,
    pub left_type: &'a CType,
    pub right: Opnd,
    pub right_type: &'a CType,
}

/// A binary operator over two operands, whose result is in a temporary of a type (C99 6.5.2.1, 6.5.5 to 6.5.14). Takes time in the number of arrays in the
/// types; `Memory` is the one other answer.
pub fn combine(
    alloc: Global,
    d: &mut Draft,
    env: &Env,
    spot: &Spot,
    held: Ty,
    operator: Op,
    x: Operands<'_>,
) -> Result<Opnd, Memory>
    ensures { IfOk result (λ v. (f : Typed) → IsMeasured env.now f → AddsValue d.old d.new held (λ r. conversions.combines f operator x.entry.left_type.now x.entry.right_type.now x.entry.left x.entry.right r) spot.now v) }
{
    let r = d.take(alloc, held)?;
    let instr = combines(env, operator, x.left_type, x.right_type, x.left, x.right, r);
    d.push(instr, spot)?;
    Ok(Opnd::Reg(r))
}

/// A value of a type with 1 added by `++` or subtracted by `--`, in a temporary of that type (C99 6.5.2.4, 6.5.3.1). Takes time in the number of the type's
/// arrays; `Memory` is the one other answer.
pub fn step(
    alloc: Global,
    d: &mut Draft,
    env: &Env,
    spot: &Spot,
    operator: Op,
    t: &CType,
    v: Opnd,
) -> Result<Opnd, Memory>
    ensures { IfOk result (λ w. (f : Typed) → IsMeasured env.now f → AddsValue d.old d.new (types.register_type t.now) (λ r. conversions.steps f operator t.now v r) spot.now w) }
{
    let r = d.take(alloc, register_type(t))?;
    let instr = steps(env, operator, t, v, r);
    d.push(instr, spot)?;
    Ok(Opnd::Reg(r))
}

/// The object of a scalar type at an address, in a temporary of that type (C99 6.3.2.1p2). Takes time in the number of the type's arrays; `Memory` is the
/// one other answer.
pub fn load(
    alloc: Global,
    d: &mut Draft,
    env: &Env,
    spot: &Spot,
    t: &CType,
    at: Opnd,
) -> Result<Opnd, Memory>
    ensures { IfOk result (λ w. (f : Typed) → IsMeasured env.now f → AddsValue d.old d.new (types.register_type t.now) (λ r. ins.Load (reg r) at (types.access_of f t.now)) spot.now w) }
{
    let r = d.take(alloc, register_type(t))?;
    let instr = Instr::Load {
        to: r,
        at,
        access: access_of(env, t),
    };
    d.push(instr, spot)?;
    Ok(Opnd::Reg(r))
}

/// A value is written to the object of a type at an address; a struct is copied from its address (C99 6.5.16.1). Takes time in the number of the type's
/// arrays; `Memory` is the one other answer.
pub fn write(
    d: &mut Draft,
    env: &Env,
    spot: &Spot,
    t: &CType,
    to: Opnd,
    v: Opnd,
) -> Result<(), Memory>
    ensures { OnOk result ((f : Typed) → IsMeasured env.now f → AddsNode d.old d.new (λ g. conversions.store f t.now to v) spot.now) }
{
    let instr = store(env, t, to, v);
    d.push(instr, spot)?;
    Ok(())
}

/// A value is written to the object of a scalar type at an address (C99 6.5.16.2). Takes time in the number of the type's arrays; `Memory` is the one other
/// answer.
pub fn store_scalar(
    d: &mut Draft,
    env: &Env,
    spot: &Spot,
    t: &CType,
    at: Opnd,
    value: Opnd,
) -> Result<(), Memory>
    ensures { OnOk result ((f : Typed) → IsMeasured env.now f → AddsNode d.old d.new (λ g. ins.Store at value (types.access_of f t.now)) spot.now) }
{
    let instr = Instr::Store {
        at,
        value,
        access: access_of(env, t),
    };
    d.push(instr, spot)?;
    Ok(())
}
