// Obligations at a call for what the called function assumes.
ghost use Rattle.std.specs.Prelude.{◌≡◌, ◌++◌, [], All, Some, OnOk, IfOk, slice_get};
ghost use Rattle.std.specs.List.{cons_option};
ghost use Rattle.po_meaning.specs.Checks.{asked_by, supported_by as supported_by_call, supported_in as supported_in_function, supports as supports_at, supports_in};
ghost use Rattle.po_step.specs.Supporting.{Takes, TakesIn, TakesCause, TakesAll};

use po_base::{FunNo, List, Memory, NodeNo};
use po_core::{Cause, Obl, Report, Verdict};
use po_ir::{Callee, Function, Instr, Project};
use po_pred::{Pred, Rule, subst};
use std::alloc::Global;

/// What a called function assumes, with the arguments of the call put in; nothing at other instructions.
fn supported_by(instr: &Instr, q: &Pred) -> Option<Pred>
    requires { Takes instr.now q.now }
    ensures { cons_option result [] ≡ supported_by_call instr.now q.now }
{
    match instr {
        Instr::Call { callee, args, .. } => match callee {
            Callee::Fun(_) => Some(subst(q, args.as_slice())),
            Callee::Extern(_) => None,
        },
        _ => None,
    }
}

fn supported_in(f: &Function, n: NodeNo, q: &Pred) -> Option<Pred>
    requires { TakesIn (Some f.now) n q.now }
    ensures { cons_option result [] ≡ supported_in_function (Some f.now) n q.now }
{
    match f.graph.nodes.get(n.0 as usize) {
        None => None,
        Some(node) => supported_by(&node.instr, q),
    }
}

fn supported(p: &Project, o: &Obl<Pred>, q: &Pred) -> Option<Pred>
    requires { TakesIn (slice_get p.now.functions o.now.fun.0) o.now.node q.now }
    ensures { cons_option result [] ≡ supported_in_function (slice_get p.now.functions o.now.fun.0) o.now.node q.now }
{
    match p.functions.get(o.fun.0 as usize) {
        None => None,
        Some(f) => supported_in(f, o.node, q),
    }
}

/// Puts an obligation behind the others, with its predicate, where it is one that supports an assumption.
fn add_asked(list: &mut List<(Obl<Pred>, Pred)>, p: &Project, o: &Obl<Pred>) -> Result<(), Memory>
    requires { TakesCause p.now o.now o.now.cause }
    ensures { OnOk result (list.new ≡ list.old ++ asked_by p.now o.now o.now.cause) }
{
    match &o.cause {
        Cause::Primary(_) => Ok(()),
        Cause::Support(q) => match supported(p, o, q) {
            None => Ok(()),
            Some(asked) => list.push((*o, asked)),
        },
    }
}

fn add_line(
    list: &mut List<(Obl<Pred>, Pred)>,
    p: &Project,
    f: FunNo,
    n: NodeNo,
    line: &(Obl<Pred>, Verdict<Pred, Rule>),
) -> Result<(), Memory>
    requires { TakesCause p.now line.now.0 line.now.0.cause }
    ensures { OnOk result (list.new ≡ list.old ++ supports_in p.now f n line.now) }
{
    if line.0.fun.0 == f.0 && line.0.node.0 == n.0 {
        return add_asked(list, p, &line.0);
    }
    Ok(())
}

/// The supporting obligations that a report lists at a node, in its order.
pub(crate) fn supports(
    alloc: Global,
    p: &Project,
    report: &Report<Pred, Rule>,
    f: FunNo,
    n: NodeNo,
) -> Result<List<(Obl<Pred>, Pred)>, Memory>
    requires { TakesAll p.now report.now.lines }
    ensures { IfOk result (λ list. list ≡ supports_at p.now report.now f n) }
{
    let mut list = List::new(alloc);
    for line in report.lines.as_slice() {
        add_line(&mut list, p, f, n, line)?;
    }
    Ok(list)
}
