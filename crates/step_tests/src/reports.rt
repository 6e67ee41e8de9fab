ghost use Rattle.std.specs.Prelude.{◌≡◌, IfOk, [], OnOk};
ghost use Rattle.po_ir.specs.Whole.{IsWhole};
ghost use Rattle.po_step.specs.Supporting.{SupportsFit};
ghost use Rattle.step_tests.specs.Bare.{signatures};
ghost use Rattle.step_tests.specs.Supported.{AreOnParameter, IsOnParameter};

use crate::bodies::functions;
use crate::building::project;
use crate::quiet::Quiet;
use po_base::{FunNo, List, Memory, NodeNo, Out, Text};
use po_core::{Cause, Obl, Report, Verdict};
use po_ir::Project;
use po_pred::{Atom, Place, Pred, Rule, spell};
use po_step::asked;
use std::alloc::Global;
use std::test::Fail;

/// That the argument isn't 0.
const DIVISOR: Pred = Pred::Nonzero {
    x: Place {
        atom: Some(Atom::Param(0)),
        lo: 0,
        hi: 0,
    },
};

/// A report in which nothing is assumed.
pub(crate) fn empty(alloc: Global) -> Report<Pred, Rule>
    ensures { result.lines ≡ [] }
{
    Report {
        lines: List::new(alloc),
        assumptions: List::new(alloc),
    }
}

fn add_line(
    lines: &mut List<(Obl<Pred>, Verdict<Pred, Rule>)>,
    f: u32,
    n: u32,
    cause: Cause<Pred>,
    verdict: Verdict<Pred, Rule>,
) -> Result<(), Memory>
    requires { IsOnParameter cause }
    ensures { OnOk result (AreOnParameter lines.old → AreOnParameter lines.new) }
{
    let fun = FunNo(f);
    let node = NodeNo(n);
    lines.push((Obl { fun, node, cause }, verdict))?;
    Ok(())
}

/// The call at this node has to keep what function 2 assumes.
#[tactic(auto, using(crate::proofs::Supported::nonzero_over))]
fn add_support(
    lines: &mut List<(Obl<Pred>, Verdict<Pred, Rule>)>,
    f: u32,
    n: u32,
) -> Result<(), Memory>
    ensures { OnOk result (AreOnParameter lines.old → AreOnParameter lines.new) }
{
    add_line(lines, f, n, Cause::Support(DIVISOR), Verdict::Open)
}

/// A report in which function 2 assumes that its argument isn't 0, so that the three calls of it have to keep this.
pub(crate) fn assuming(alloc: Global) -> Result<Report<Pred, Rule>, Memory>
    ensures { IfOk result (λ r. AreOnParameter r.lines) }
{
    let mut lines = List::new(alloc);
    let delegated = Verdict::Delegated(DIVISOR);
    add_line(&mut lines, 2, 0, Cause::Primary(0), delegated)?;
    add_support(&mut lines, 13, 1)?;
    add_support(&mut lines, 14, 0)?;
    add_support(&mut lines, 15, 0)?;
    let mut assumptions = List::new(alloc);
    assumptions.push((FunNo(2), DIVISOR))?;
    Ok(Report { lines, assumptions })
}

/// The names of a function's registers.
fn names(alloc: Global) -> Result<List<Option<Text>>, Memory> {
    let mut names = List::new(alloc);
    names.push(None)?;
    names.push(Some(Text::new(alloc, b"v")?))?;
    names.push(Some(Text::new(alloc, b"p")?))?;
    Ok(names)
}

/// Writes a predicate.
fn tell(
    alloc: Global,
    out: &mut Out,
    names: &[Option<Text>],
    predicate: &Pred,
) -> Result<(), Memory> {
    let text = spell(alloc, predicate, names)?;
    out.add(text.bytes())
}

/// Writes an obligation's place, or what it supports, and its predicate.
fn tell_asked(
    alloc: Global,
    out: &mut Out,
    names: &[Option<Text>],
    o: &Obl<Pred>,
    predicate: &Pred,
) -> Result<(), Memory> {
    match &o.cause {
        Cause::Primary(place) => out.add_number(*place)?,
        Cause::Support(assumed) => tell(alloc, out, names, assumed)?,
    }
    out.add(b": ")?;
    tell(alloc, out, names, predicate)?;
    out.add(b"; ")
}

/// What is checked at a node, in its order.
fn listed(
    alloc: Global,
    p: &Project,
    report: &Report<Pred, Rule>,
    f: u32,
    n: u32,
) -> Result<Out, Memory>
    requires whole { IsWhole signatures p.now }
    requires supports { SupportsFit p.now report.now.lines }
{
    let list = asked(alloc, &Quiet, p, report, FunNo(f), NodeNo(n))?;
    let names = names(alloc)?;
    let mut out = Out::new(alloc);
    for (o, predicate) in list.as_slice() {
        tell_asked(alloc, &mut out, names.as_slice(), o, predicate)?;
    }
    Ok(out)
}

/// Whether this is checked at the node, where function 2 assumes that its argument isn't 0.
#[tactic(auto, using(crate::proofs::Supported::supports_fit))]
fn asks(alloc: Global, f: u32, n: u32, expected: &[u8]) -> Result<bool, Memory> {
    match project(alloc, functions(alloc)?, 16)? {
        None => Ok(false),
        Some(p) => Ok(listed(alloc, &p, &assuming(alloc)?, f, n)?.bytes() == expected),
    }
}

#[test]
fn at_a_call_what_supports_comes_last_with_the_argument_put_in(
    rt: HostRuntime,
) -> Result<(), Fail> {
    assert!(rt;
        asks(
            rt.alloc(),
            13,
            1,
            b"0: reg_set(v); nonzero($0): nonzero(v); "
        )?
    );
    assert!(rt; asks(rt.alloc(), 15, 0, b"nonzero($0): nonzero(0); ")?);
    Ok(())
}

#[test]
fn elsewhere_just_the_primary_obligations_are_listed(rt: HostRuntime) -> Result<(), Fail> {
    assert!(rt; asks(rt.alloc(), 13, 0, b"0: no_over(sub,%0,1); ")?);
    assert!(rt; asks(rt.alloc(), 2, 0, b"0: nonzero(%0); 1: no_over(div,1,%0); ")?);
    assert!(rt; asks(rt.alloc(), 13, 2, b"0: reg_set(v); ")?);
    let load =
        b"0: reg_set(p); 1: not_null(p); 2: live(p); 3: span(p,0,4); 4: aligned(p,4); 5: filled(p,0,4); ";
    assert!(rt; asks(rt.alloc(), 8, 2, load)?);
    Ok(())
}
