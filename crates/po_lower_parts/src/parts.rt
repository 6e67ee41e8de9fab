// Nodes that convert a value, read an object, and move an address to a member.
ghost use Rattle.std.specs.Prelude.{◌≡◌, length, pos, true, IfOk};
ghost use Rattle.po_base.specs.declared.operand.Opnd.TheVariants as o;
ghost use Rattle.po_ir.specs.declared.instr.Instr.TheVariants as ins;
ghost use Rattle.po_types.specs.declared.ctype.CType.{CType as TypeOf};
ghost use Rattle.po_lowering.specs.Types.{is_scalar as is_scalar_type};
ghost use Rattle.po_lowering.specs.Typed.{Typed};
ghost use Rattle.po_lowering.specs.Conversions.{Converts, change as meaning, comparison, conversion};
ghost use Rattle.po_lowering.specs.Expressions.{Moves, Reads};
ghost use Rattle.po_draft.specs.Making.{Makes};
ghost use Rattle.po_lower_types.specs.Measured.{IsMeasured};

use po_base::{Memory, Op, Opnd, RegNo, Spot};
use po_draft::Draft;
use po_ir::{Instr, Ty};
use po_lower_types::{Conversion, access_of, change, is_scalar, register_type};
use po_types::{CType, Env};
use std::alloc::Global;

/// A comparison of a value with 0, in a type.
fn convert_to_bool(
    alloc: Global,
    d: &mut Draft,
    spot: &Spot,
    to: &CType,
    ty: Ty,
    v: Opnd,
) -> Result<Opnd, Memory>
    ensures { IfOk result (λ w. (f : Typed) (from : TypeOf) → meaning f from to.now v ≡ comparison ty → Makes d.old d.new (λ final g. Converts f final d.old.state (length d.old.nodes) spot.now from to.now v w (length d.new.nodes) d.new.state)) }
{
    let r = d.take(alloc, register_type(to))?;
    let instr = Instr::Bin {
        to: r,
        op: Op::Ne,
        ty,
        a: v,
        b: Opnd::Num(0),
    };
    d.push(instr, spot)?;
    Ok(Opnd::Reg(r))
}

/// A Conv of a value to a type, at an alignment.
fn convert_at(
    alloc: Global,
    d: &mut Draft,
    spot: &Spot,
    to: &CType,
    ty: Ty,
    align: u64,
    v: Opnd,
) -> Result<Opnd, Memory>
    ensures { IfOk result (λ w. (f : Typed) (from : TypeOf) → meaning f from to.now v ≡ conversion ty align → Makes d.old d.new (λ final g. Converts f final d.old.state (length d.old.nodes) spot.now from to.now v w (length d.new.nodes) d.new.state)) }
{
    let r = d.take(alloc, register_type(to))?;
    let instr = Instr::Conv {
        to: r,
        from: v,
        ty,
        align,
    };
    d.push(instr, spot)?;
    Ok(Opnd::Reg(r))
}

/// Converts a value from one type to another (C99 6.3): no node where it stays as it is, a comparison with 0 to _Bool, and else a Conv. Gives what holds
/// the converted value. Takes time in the number of arrays in the types; `Memory` is the one other answer.
pub fn convert(
    alloc: Global,
    d: &mut Draft,
    env: &Env,
    spot: &Spot,
    from: &CType,
    to: &CType,
    v: Opnd,
) -> Result<Opnd, Memory>
    ensures { IfOk result (λ w. (f : Typed) → IsMeasured env.now f → Makes d.old d.new (λ final g. Converts f final d.old.state (length d.old.nodes) spot.now from.now to.now v w (length d.new.nodes) d.new.state)) }
{
    match change(env, from, to, v) {
        Conversion::Nothing => Ok(v),
        Conversion::Comparison(ty) => convert_to_bool(alloc, d, spot, to, ty, v),
        Conversion::Conv { ty, align } => convert_at(alloc, d, spot, to, ty, align, v),
    }
}

/// A Load of a scalar at an address.
fn load(
    alloc: Global,
    d: &mut Draft,
    env: &Env,
    spot: &Spot,
    t: &CType,
    v: Opnd,
) -> Result<Opnd, Memory>
    requires { is_scalar_type t.now ≡ true }
    ensures { IfOk result (λ w. (f : Typed) → IsMeasured env.now f → Makes d.old d.new (λ final g. Reads f final d.old.state (length d.old.nodes) spot.now t.now v w (length d.new.nodes) d.new.state)) }
{
    let r = d.take(alloc, register_type(t))?;
    let instr = Instr::Load {
        to: r,
        at: v,
        access: access_of(env, t),
    };
    d.push(instr, spot)?;
    Ok(Opnd::Reg(r))
}

/// Reads the object of a type at an address (C99 6.3.2.1p2): a scalar by a Load; the value of anything else is its address. Takes time in the number of
/// the type's arrays; `Memory` is the one other answer.
pub fn read(
    alloc: Global,
    d: &mut Draft,
    env: &Env,
    spot: &Spot,
    t: &CType,
    v: Opnd,
) -> Result<Opnd, Memory>
    ensures { IfOk result (λ w. (f : Typed) → IsMeasured env.now f → Makes d.old d.new (λ final g. Reads f final d.old.state (length d.old.nodes) spot.now t.now v w (length d.new.nodes) d.new.state)) }
{
    if is_scalar(t) {
        return load(alloc, d, env, spot, t, v);
    }
    Ok(v)
}

/// An address that is moved by so many bytes.
fn moved(r: RegNo, v: Opnd, offset: u64) -> Instr
    ensures { result ≡ ins.PtrAdd r v (o.Num (pos offset)) (pos 1) }
{
    Instr::PtrAdd {
        to: r,
        base: v,
        index: Opnd::Num(i128::from(offset)),
        factor: 1,
    }
}

/// Moves an address by the offset of a member, in bytes (C99 6.5.2.3): a PtrAdd, and no node for offset 0. In constant time; `Memory` is the one other
/// answer.
pub fn move_by(
    alloc: Global,
    d: &mut Draft,
    spot: &Spot,
    offset: u64,
    v: Opnd,
) -> Result<Opnd, Memory>
    ensures { IfOk result (λ w. Makes d.old d.new (λ final g. Moves final d.old.state (length d.old.nodes) spot.now offset v w (length d.new.nodes) d.new.state)) }
{
    if offset == 0 {
        return Ok(v);
    }
    let r = d.take(alloc, Ty::Ptr)?;
    let instr = moved(r, v, offset);
    d.push(instr, spot)?;
    Ok(Opnd::Reg(r))
}
