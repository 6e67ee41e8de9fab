// What a variable's name gives: its value, or its address (C99 6.5.1).
ghost use Rattle.std.specs.Prelude.{ℕ, ◌≡◌, List, IfOk};
ghost use Rattle.po_tree.specs.declared.expression.Exp.TheOpen.{Exp-F};
ghost use Rattle.po_lowering.specs.Places.{Place};
ghost use Rattle.po_lowering.specs.Typed.{Typed, type_at};
ghost use Rattle.po_lowering.specs.Naming.{Scope};
ghost use Rattle.po_lower_types.specs.Measured.{IsMeasured};
ghost use Rattle.po_lower_forms.specs.Made.{MakesAddress, MakesValue};
ghost use Rattle.po_lower_forms.specs.Standing.{NamesVariable, IsKeptInMemory};

use po_base::{Memory, Opnd, Spot};
use po_draft::Draft;
use po_lower_nodes::{global_address, slot_address};
use po_lower_parts::read;
use po_lowering::Var;
use po_types::{CType, Env};
use std::alloc::Global;

/// The address of a variable that is kept in memory (C99 6.5.3.2p3): one node. In constant time; `Memory` is the one other answer.
pub fn variable_address(
    alloc: Global,
    d: &mut Draft,
    spot: &Spot,
    variable: Var,
) -> Result<Opnd, Memory>
    requires { IsKeptInMemory variable }
    ensures { IfOk result (λ v. (f : Typed) (c : Scope) (name : List ℕ) (p : Place) → NamesVariable f c name p variable spot.now → MakesAddress f c d.old d.new (Exp-F.Var name) p v) }
{
    match variable {
        Var::Slot(k) => Ok(slot_address(alloc, d, spot, k)?),
        Var::Global(g) => Ok(global_address(alloc, d, spot, g)?),
        Var::Reg(_) => unreachable!(),
    }
}

/// The value of an object that is kept in memory: its address, and then what is read there.
fn memory_value(
    alloc: Global,
    d: &mut Draft,
    env: &Env,
    spot: &Spot,
    t: &CType,
    variable: Var,
) -> Result<Opnd, Memory>
    requires { IsKeptInMemory variable }
    ensures { IfOk result (λ v. (f : Typed) (c : Scope) (name : List ℕ) (p : Place) → IsMeasured env.now f → NamesVariable f c name p variable spot.now → t.now ≡ type_at f p → MakesValue f c d.old d.new (Exp-F.Var name) p v) }
{
    let at = variable_address(alloc, d, spot, variable)?;
    let v = read(alloc, d, env, spot, t, at)?;
    Ok(v)
}

/// The value of a name that names a variable (C99 6.5.1p2): a register variable stands for itself, and any other is read from memory. Takes time in the number
/// of the type's arrays; `Memory` is the one other answer.
pub fn variable_value(
    alloc: Global,
    d: &mut Draft,
    env: &Env,
    spot: &Spot,
    t: &CType,
    variable: Var,
) -> Result<Opnd, Memory>
    ensures { IfOk result (λ v. (f : Typed) (c : Scope) (name : List ℕ) (p : Place) → IsMeasured env.now f → NamesVariable f c name p variable spot.now → t.now ≡ type_at f p → MakesValue f c d.old d.new (Exp-F.Var name) p v) }
{
    match variable {
        Var::Reg(r) => Ok(Opnd::Reg(r)),
        Var::Slot(_) => Ok(memory_value(alloc, d, env, spot, t, variable)?),
        Var::Global(_) => Ok(memory_value(alloc, d, env, spot, t, variable)?),
    }
}
