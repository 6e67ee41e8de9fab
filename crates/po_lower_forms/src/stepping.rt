// Values that are stepped: `++` and `--` (C99 6.5.2.4, 6.5.3.1).
ghost use Rattle.std.specs.Prelude.{ℕ, ◌≡◌, Some, None, IfOk};
ghost use Rattle.po_base.specs.declared.operand.Opnd.TheVariants as o;
ghost use Rattle.po_ir.specs.declared.instr.Instr.TheVariants as ins;
ghost use Rattle.po_tree.specs.declared.expression.Exp.{Exp, out-Exp};
ghost use Rattle.po_lowering.specs.Places.{Place};
ghost use Rattle.po_lowering.specs.Typed.{Typed};
ghost use Rattle.po_lowering.specs.Types as types;
ghost use Rattle.po_lowering.specs.Temporaries.{reg, saved_or as the_saved};
ghost use Rattle.po_lowering.specs.Naming.{Scope, register_of};
ghost use Rattle.po_draft.specs.Sketches.{Sketch};
ghost use Rattle.po_lower_types.specs.Measured.{IsMeasured};
ghost use Rattle.po_lower_nodes.specs.Groups.{AddsValue};
ghost use Rattle.po_lower_forms.specs.Made.{MakesAddress, MakesSteps};
ghost use Rattle.po_lower_forms.specs.Standing.{IsStepped};

use po_base::{Memory, Op, Opnd, RegNo, Spot};
use po_draft::Draft;
use po_ir::Instr;
use po_lower_nodes::{put, save};
use po_lower_parts::convert;
use po_lower_types::{access_of, register_type};
use po_lower_values::{step, store_scalar};
use po_types::{CType, Env};
use std::alloc::Global;

/// A step by `++` or `--`.
#[derive(Clone, Copy)]
pub struct Step<'a> {
    /// Add for `++`, Sub for `--`.
    pub operator: Op,
    /// Whether the value is the old one, and is used.
    pub old: bool,
    /// The type of what is stepped.
    pub ty: &'a CType,
    /// The type to which its value is converted for the step.
    pub conversion: &'a CType,
}

/// The old value where it was saved, else the new one.
fn saved_or(saved: Option<Opnd>, v: Opnd) -> Opnd
    ensures { result ≡ the_saved saved v }
{
    match saved {
        Some(w) => w,
        None => v,
    }
}

/// `++` and `--` of a variable that is a register (C99 6.5.2.4, 6.5.3.1): a Copy of the old value where that is used, the step, its conversion, and a Copy back.
/// Gives what holds the value. Takes time in the number of arrays in the types; `Memory` is the one other answer.
pub fn step_register(
    alloc: Global,
    d: &mut Draft,
    env: &Env,
    spot: &Spot,
    by: Step<'_>,
    r: RegNo,
) -> Result<Opnd, Memory>
    ensures { IfOk result (λ v. (f : Typed) (c : Scope) (y : Exp) (p h : Place) → IsMeasured env.now f → IsStepped f y p h by.entry.ty.now by.entry.conversion.now spot.now → register_of c y ≡ Some r.0 → MakesSteps f c d.old d.new y p h by.entry.operator by.entry.old v) }
{
    let saved = save(alloc, d, spot, register_type(by.ty), by.old, r)?;
    let next = step(
        alloc,
        d,
        env,
        spot,
        by.operator,
        by.conversion,
        Opnd::Reg(r),
    )?;
    let v = convert(alloc, d, env, spot, by.conversion, by.ty, next)?;
    put(d, spot, r, v)?;
    Ok(saved_or(saved, Opnd::Reg(r)))
}

/// A Load of a scalar, into a register of its own.
fn load_register(
    alloc: Global,
    d: &mut Draft,
    env: &Env,
    spot: &Spot,
    t: &CType,
    at: Opnd,
) -> Result<RegNo, Memory>
    ensures { IfOk result (λ q. (f : Typed) → IsMeasured env.now f → AddsValue d.old d.new (types.register_type t.now) (λ r. ins.Load (reg r) at (types.access_of f t.now)) spot.now (o.Reg q)) }
{
    let q = d.take(alloc, register_type(t))?;
    let instr = Instr::Load {
        to: q,
        at,
        access: access_of(env, t),
    };
    d.push(instr, spot)?;
    Ok(q)
}

/// `++` and `--` of an object in memory, whose address was made before (C99 6.5.2.4, 6.5.3.1): a Load, a Copy of the old value where that is used, the step,
/// its conversion, and a Store. Gives what holds the value. Takes time in the number of arrays in the types; `Memory` is the one other answer.
pub fn step_object(
    alloc: Global,
    d: &mut Draft,
    env: &Env,
    spot: &Spot,
    by: Step<'_>,
    at: Opnd,
) -> Result<Opnd, Memory>
    ensures { IfOk result (λ v. (f : Typed) (c : Scope) (before : Sketch) (y : Exp) (p h : Place) → IsMeasured env.now f → IsStepped f y p h by.entry.ty.now by.entry.conversion.now spot.now → register_of c y ≡ None → MakesAddress f c before d.old (out-Exp y) p at → MakesSteps f c before d.new y p h by.entry.operator by.entry.old v) }
{
    let q = load_register(alloc, d, env, spot, by.ty, at)?;
    let saved = save(alloc, d, spot, register_type(by.ty), by.old, q)?;
    let next = step(
        alloc,
        d,
        env,
        spot,
        by.operator,
        by.conversion,
        Opnd::Reg(q),
    )?;
    let v = convert(alloc, d, env, spot, by.conversion, by.ty, next)?;
    store_scalar(d, env, spot, by.ty, at, v)?;
    Ok(saved_or(saved, v))
}
