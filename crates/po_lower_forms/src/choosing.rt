// The value of a condition (C99 6.5.13, 6.5.14).
ghost use Rattle.std.specs.Prelude.{◌≡◌, ◌≢◌, ◌<◌, ◌≤◌, length, IfOk};
ghost use Rattle.po_tree.specs.declared.expression.Exp.{Exp};
ghost use Rattle.po_tree.specs.declared.expression.Exp.TheOpen.{Exp-F};
ghost use Rattle.po_lowering.specs.Places.{Place};
ghost use Rattle.po_lowering.specs.Typed.{Typed};
ghost use Rattle.po_lowering.specs.Naming.{Scope};
ghost use Rattle.po_draft.specs.Sketches.{Sketch, first_label};
ghost use Rattle.po_lower_forms.specs.Made.{MakesCondition, MakesValue};
ghost use Rattle.po_lower_forms.specs.Standing.{IsChosen};

use po_base::{Memory, NodeNo, Opnd, Spot};
use po_draft::Draft;
use po_ir::Ty;
use po_lower_nodes::one_or_zero;
use std::alloc::Global;

/// The value of a condition by `&&` or `||` whose nodes begin at a place and go to two labels: 1 or 0, by the nodes behind it (C99 6.5.13, 6.5.14). In time linear in the
/// nodes that go to the labels; `Memory` is the one other answer.
pub fn condition_value(
    alloc: Global,
    d: &mut Draft,
    spot: &Spot,
    held: Ty,
    from: NodeNo,
    hit: NodeNo,
    miss: NodeNo,
) -> Result<Opnd, Memory>
    requires hit { first_label ≤ hit.0 }
    requires miss { first_label ≤ miss.0 }
    requires apart { hit.0 ≢ miss.0 }
    ensures and_value { IfOk result (λ v. (f : Typed) (c : Scope) (before : Sketch) (y z : Exp) (p : Place) → IsChosen f y p held spot.now → from.0 ≡ length before.nodes → MakesCondition f c before d.old (Exp-F.LogAnd y z) p hit.0 miss.0 → MakesValue f c before d.new (Exp-F.LogAnd y z) p v) }
    ensures or_value { IfOk result (λ v. (f : Typed) (c : Scope) (before : Sketch) (y z : Exp) (p : Place) → IsChosen f y p held spot.now → from.0 ≡ length before.nodes → MakesCondition f c before d.old (Exp-F.LogOr y z) p hit.0 miss.0 → MakesValue f c before d.new (Exp-F.LogOr y z) p v) }
{
    let i = d.here()?;
    d.fill(from, hit, i);
    d.fill(from, miss, NodeNo(i.0 + 2));
    let v = one_or_zero(alloc, d, spot, held)?;
    Ok(v)
}
