// The obligations at a node, in the order in which a run checks them.
ghost use Rattle.std.specs.Prelude.{◌≡◌, ◌++◌, length, IfOk, OnOk};
ghost use Rattle.po_ir.specs.IntTypes.{AreTypesOfTarget};
ghost use Rattle.po_meaning.specs.Checks.{asked_at, numbered as numbered_from, primaries as primaries_at};
ghost use Rattle.po_ir.specs.Whole.{IsWhole};
ghost use Rattle.po_step.specs.Supporting.{SupportsFit};

use crate::supporting::supports;
use po_base::{FunNo, List, Memory, NodeNo};
use po_core::{Cause, Obl, Report};
use po_gen::{Library, obligations};
use po_ir::Project;
use po_pred::{Pred, Rule};
use std::alloc::Global;

/// A place among the predicates of a node; one that 32 bits don't count is want of memory.
fn place(count: usize) -> Result<u32, Memory>
    ensures { IfOk result (λ k. k ≡ count) }
{
    if count > u32::MAX as usize {
        return Err(Memory);
    }
    Ok(count as u32)
}

fn numbered(
    alloc: Global,
    f: FunNo,
    n: NodeNo,
    predicates: &[Pred],
) -> Result<List<(Obl<Pred>, Pred)>, Memory>
    ensures { IfOk result (λ list. list ≡ numbered_from f n 0 predicates.now) }
{
    let mut list = List::new(alloc);
    for predicate in predicates {
        let cause = Cause::Primary(place(list.len())?);
        let fun = f;
        let node = n;
        list.push((Obl { fun, node, cause }, *predicate))?;
    }
    Ok(list)
}

fn add_all(list: &mut List<(Obl<Pred>, Pred)>, more: &[(Obl<Pred>, Pred)]) -> Result<(), Memory>
    ensures { OnOk result (list.new ≡ list.old ++ more.now) }
{
    for asked in more {
        list.push(*asked)?;
    }
    Ok(())
}

fn primaries<L: Library>(
    alloc: Global,
    library: &L,
    p: &Project,
    f: FunNo,
    n: NodeNo,
) -> Result<List<(Obl<Pred>, Pred)>, Memory>
    requires { AreTypesOfTarget p.now }
    ensures { IfOk result (λ list. list ≡ primaries_at (L.meaning library.now) p.now f n) }
{
    let predicates = obligations(alloc, library, p, f, n)?;
    numbered(alloc, f, n, predicates.as_slice())
}

/// The obligations at a node of a function, each with its predicate, in the order in which a run checks them: the primary
/// ones, then those that support what the called function assumes, as the report lists them there. In time in the
/// number of the node's operands times its logarithm, but for what the library takes, and linear in the report.
pub fn asked<L: Library>(
    alloc: Global,
    library: &L,
    p: &Project,
    report: &Report<Pred, Rule>,
    f: FunNo,
    n: NodeNo,
) -> Result<List<(Obl<Pred>, Pred)>, Memory>
    requires whole { (signatures : _) × IsWhole signatures p.now }
    requires supports { SupportsFit p.now report.now.lines }
    ensures { IfOk result (λ list. list ≡ asked_at (L.meaning library.now) p.now report.now f n) }
{
    let mut list = primaries(alloc, library, p, f, n)?;
    let more = supports(alloc, p, report, f, n)?;
    add_all(&mut list, more.as_slice())?;
    Ok(list)
}
