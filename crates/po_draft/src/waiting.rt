// What waits for each label.
ghost use Rattle.std.specs.Prelude.{ℕ, ◌≡◌, ◌+◌, ◌<◌, ◌≤◌, ◌++◌, ◌∷◌, [], length, Contains, OnOk, MatchOption};
ghost use Rattle.po_draft.specs.Sketches.{first_label};
ghost use Rattle.po_draft.specs.Waiting.{IsWaiting, AreBelow, IsRising, KeepsWaiting, kept_for};

use crate::filling::FIRST_LABEL;
use crate::vectors::push;
use po_base::{List, Memory, NodeNo};
use po_ir::Instr;

/// Makes room for a label's nodes.
fn make_room(waiting: &mut Vec<List<usize>>, k: usize) -> Result<(), Memory>
    ensures same { (j : ℕ) → kept_for waiting.new.items j ≡ kept_for waiting.old.items j }
    ensures room { OnOk result (k < length waiting.new.items) }
{
    while waiting.len() <= k {
        let alloc = *waiting.allocator();
        push(waiting, List::new(alloc))?;
    }
    Ok(())
}

/// Keeps a node for the k-th label.
fn keep_at(waiting: &mut Vec<List<usize>>, k: usize, i: usize) -> Result<(), Memory>
    ensures keeps { KeepsWaiting i waiting.old.items waiting.new.items }
    ensures kept { OnOk result (Contains (kept_for waiting.new.items k) i) }
{
    make_room(waiting, k)?;
    waiting[k].push(i)?;
    Ok(())
}

/// Keeps a node for what it goes to, if that is a label.
fn keep_for(waiting: &mut Vec<List<usize>>, target: NodeNo, i: usize) -> Result<(), Memory>
    ensures keeps { KeepsWaiting i waiting.old.items waiting.new.items }
    ensures kept { OnOk result ((k : ℕ) → target.0 ≡ k + first_label → Contains (kept_for waiting.new.items k) i) }
{
    if target.0 < FIRST_LABEL {
        return Ok(());
    }
    keep_at(waiting, (target.0 - FIRST_LABEL) as usize, i)?;
    Ok(())
}

/// Keeps a node for each label that it goes to.
pub(crate) fn keep(waiting: &mut Vec<List<usize>>, instr: &Instr, i: usize) -> Result<(), Memory>
    ensures keeps { KeepsWaiting i waiting.old.items waiting.new.items }
    ensures kept { OnOk result (IsWaiting i instr.now waiting.new.items) }
{
    match instr {
        Instr::If { yes, no, .. } => {
            keep_for(waiting, *yes, i)?;
            keep_for(waiting, *no, i)?;
            Ok(())
        }
        Instr::Jump { next } => {
            keep_for(waiting, *next, i)?;
            Ok(())
        }
        _ => Ok(()),
    }
}

/// Takes the last number away, unless it is below another.
pub(crate) fn take_last(numbers: &mut List<usize>, from: usize) -> Option<usize>
    ensures { (size : ℕ) → IsRising size numbers.old → MatchOption result (AreBelow from numbers.new × (numbers.new ≡ numbers.old)) (λ i. (numbers.old ≡ numbers.new ++ i ∷ []) × (from ≤ i)) }
{
    let count = numbers.len();
    if count == 0 {
        return None;
    }
    if numbers.as_slice()[count - 1] < from {
        return None;
    }
    numbers.pop()
}
