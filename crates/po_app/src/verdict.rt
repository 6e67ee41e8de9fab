ghost use Rattle.std.specs.Prelude.{◌≡◌, ◌<◌, ◌^◌, All, IfOk, Some, None, cond, length, slice_get};
ghost use Rattle.po_pred.specs.Subst.{put_in as put_in_predicate};
ghost use Rattle.po_app.specs.Obligations.{predicates as predicates_of};
ghost use Rattle.po_app.specs.Delegation.{is_assumable as is_assumable_predicate};
ghost use Rattle.po_app.specs.Verdicts.{supported as supported_at, caused as caused_at, node_in, judged as judged_in, predicate_of as predicate_asked, verdict_on as verdict_on_predicate, verdict_of as verdict_of_obligation};
ghost use Rattle.po_app.specs.Ranges.{IsSmallOperand, IsSmallInstr, IsSmallFunction, IsSmallPredicate, IsSmallProject};

use crate::delegation::{delegated, is_assumable};
use crate::discharge::is_closed;
use crate::primary::predicates;
use crate::rule::Rule;
use po_base::{List, Memory, Opnd};
use po_core::{Cause, Obl, Verdict};
use po_ir::{Function, Instr, Node, Project};
use po_pred::{Pred, subst};
use std::alloc::Global;

/// The verdict on a predicate of a function of so many parameters. In constant time.
pub(crate) fn verdict_on(params: u32, predicate: &Pred) -> Verdict<Pred, Rule>
    requires { IsSmallPredicate predicate.now }
    ensures { result ≡ verdict_on_predicate params predicate.now }
{
    if is_closed(predicate) {
        return Verdict::Closed(Rule::Range);
    }
    match delegated(params, predicate) {
        Some(entry) => Verdict::Delegated(entry),
        None => Verdict::Open,
    }
}

/// What supports that the called function is entered with a predicate, where it may be assumed of it.
fn supported_by(args: &List<Opnd>, assumption: &Pred) -> Option<Pred>
    requires few { length args.now < 2 ^ 32 }
    requires small { All IsSmallOperand args.now }
    ensures { result ≡ cond (is_assumable_predicate (length args.now) assumption.now) (Some (put_in_predicate assumption.now args.now)) None }
{
    if is_assumable(args.len() as u32, assumption) {
        return Some(subst(assumption, args.as_slice()));
    }
    None
}

fn supported(instr: &Instr, assumption: &Pred) -> Option<Pred>
    requires { IsSmallInstr instr.now }
    ensures { result ≡ supported_at instr.now assumption.now }
{
    match instr {
        Instr::Call { args, .. } => supported_by(args, assumption),
        _ => None,
    }
}

/// The predicate at this place among those that a node's operation asks for.
fn asked(alloc: Global, instr: &Instr, place: u32) -> Result<Option<Pred>, Memory>
    ensures { IfOk result (λ predicate. predicate ≡ slice_get (predicates_of instr.now) place) }
{
    let list = predicates(alloc, instr)?;
    match list.get(place as usize) {
        Some(predicate) => Ok(Some(*predicate)),
        None => Ok(None),
    }
}

fn caused(alloc: Global, node: &Node, cause: &Cause<Pred>) -> Result<Option<Pred>, Memory>
    requires { IsSmallInstr node.now.instr }
    ensures { IfOk result (λ predicate. predicate ≡ caused_at (Some node.now) cause.now) }
{
    match cause {
        Cause::Primary(place) => asked(alloc, &node.instr, *place),
        Cause::Support(assumption) => Ok(supported(&node.instr, assumption)),
    }
}

/// The predicate of an obligation of a function, where it is asked there.
fn predicate_in(alloc: Global, function: &Function, o: &Obl<Pred>) -> Result<Option<Pred>, Memory>
    requires { IsSmallFunction function.now }
    ensures { IfOk result (λ predicate. predicate ≡ caused_at (node_in (Some function.now) o.now.node.0) o.now.cause) }
{
    match function.graph.nodes.get(o.node.0 as usize) {
        None => Ok(None),
        Some(node) => caused(alloc, node, &o.cause),
    }
}

/// The predicate of an obligation: what its node's operation asks for at this place, or what supports an assumption.
/// In constant time.
pub(crate) fn predicate_of(
    alloc: Global,
    project: &Project,
    o: &Obl<Pred>,
) -> Result<Option<Pred>, Memory>
    requires { IsSmallProject project.now }
    ensures { IfOk result (λ predicate. predicate ≡ predicate_asked project.now o.now) }
{
    match project.functions.get(o.fun.0 as usize) {
        None => Ok(None),
        Some(function) => predicate_in(alloc, function, o),
    }
}

fn judged(alloc: Global, function: &Function, o: &Obl<Pred>) -> Result<Verdict<Pred, Rule>, Memory>
    requires { IsSmallFunction function.now }
    ensures { IfOk result (λ verdict. verdict ≡ judged_in (Some function.now) (caused_at (node_in (Some function.now) o.now.node.0) o.now.cause)) }
{
    match predicate_in(alloc, function, o)? {
        None => Ok(Verdict::Open),
        Some(predicate) => Ok(verdict_on(function.graph.params, &predicate)),
    }
}

/// The verdict of an obligation; what isn't asked in the project is open. In constant time.
pub(crate) fn verdict_of(
    alloc: Global,
    project: &Project,
    o: &Obl<Pred>,
) -> Result<Verdict<Pred, Rule>, Memory>
    requires { IsSmallProject project.now }
    ensures { IfOk result (λ verdict. verdict ≡ verdict_of_obligation project.now o.now) }
{
    match project.functions.get(o.fun.0 as usize) {
        None => Ok(Verdict::Open),
        Some(function) => judged(alloc, function, o),
    }
}
