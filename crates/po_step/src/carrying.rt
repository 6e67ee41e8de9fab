// Instructions carried out.
ghost use Rattle.std.specs.Prelude.{◌≡◌, IfOk};
ghost use Rattle.po_ir.specs.declared.instr.Instr.TheVariants as variants;
ghost use Rattle.po_step.specs.Stepping.{Carries, IsReadyAt, Moved, MovedOrEnded, StaysInFrame, library_of, state_of};

use crate::calls::{enter, passed};
use crate::outcomes::Outcomes;
use crate::returns::return_from;
use crate::step::Step;
use po_base::{LibNo, List, Memory, Opnd, RegNo};
use po_ir::{Callee, Function, Instr, Project};
use po_meaning::{Ending, library_calls_pass, library_steps_stay, states_follow, steps_stay};
use po_memory::{Frame, Memory2};
use po_operate::{local, receive};
use std::alloc::Global;

/// An instruction that stays in its frame.
fn carry_local(
    alloc: Global,
    p: &Project,
    f: &Function,
    instr: &Instr,
    top: &mut Frame,
    waiting: &List<Frame>,
    m: &mut Memory2,
) -> Result<(), Memory>
    requires ready { (q : _) × (ls : _) × IsReadyAt q ls p.now f.now instr.now (state_of top.old waiting.now m.old.blocks) }
    requires stays { StaysInFrame instr.now }
    ensures { IfOk result (λ _. Moved p.now f.now instr.now (state_of top.old waiting.now m.old.blocks) (state_of top.new waiting.now m.new.blocks)) }
{
    states_follow();
    steps_stay();
    let done = local(alloc, p, &f.graph, instr, top, m)?;
    if !done {
        unreachable!();
    }
    Ok(())
}

/// A call of a function of the project; one that no file defines isn't reached.
fn carry_call(
    alloc: Global,
    p: &Project,
    f: &Function,
    instr: &Instr,
    callee: &Callee,
    args: &[Opnd],
    top: &mut Frame,
    waiting: &mut List<Frame>,
    m: &Memory2,
) -> Result<(), Memory>
    requires ready { (q : _) × (ls : _) × IsReadyAt q ls p.now f.now instr.now (state_of top.old waiting.old m.now.blocks) }
    requires call { (to : _) × (strings : _) × (instr.now ≡ variants.Call to callee.now args.now strings) }
    ensures { IfOk result (λ _. Moved p.now f.now instr.now (state_of top.old waiting.old m.now.blocks) (state_of top.new waiting.new m.now.blocks)) }
{
    states_follow();
    steps_stay();
    match callee {
        Callee::Extern(_) => unreachable!(),
        Callee::Fun(n) => enter(alloc, p, *n, args, top, waiting),
    }
}

/// A return, or the end of the run where no frame waits for it.
fn carry_return(
    alloc: Global,
    p: &Project,
    f: &Function,
    instr: &Instr,
    value: &Option<Opnd>,
    top: &mut Frame,
    waiting: &mut List<Frame>,
    m: &mut Memory2,
) -> Result<Step, Memory>
    requires ready { (q : _) × (ls : _) × IsReadyAt q ls p.now f.now instr.now (state_of top.old waiting.old m.old.blocks) }
    requires returning { instr.now ≡ variants.Return value.now }
    ensures { IfOk result (λ step. MovedOrEnded p.now f.now instr.now (state_of top.old waiting.old m.old.blocks) step (state_of top.new waiting.new m.new.blocks)) }
{
    states_follow();
    steps_stay();
    if return_from(alloc, p, f, value, top, waiting, m)? {
        return Ok(Step::Next);
    }
    Ok(Step::Ended)
}

/// A call of a library function, which may end the run (C99 7.20.4).
fn carry_library<L: Outcomes>(
    alloc: Global,
    library: &L,
    p: &Project,
    f: &Function,
    to: Option<RegNo>,
    lib: LibNo,
    args: &[Opnd],
    strings: &[u32],
    top: &mut Frame,
    waiting: &List<Frame>,
    m: &mut Memory2,
) -> Result<Step, Memory>
    requires { IsReadyAt (L.meaning library.now) (L.signatures library.now) p.now f.now (variants.Lib to lib args.now strings.now) (state_of top.old waiting.now m.old.blocks) }
    ensures { IfOk result (λ step. Carries (library_of (L.signatures library.now) (L.meaning library.now) (L.outcomes library.now)) p.now f.now (variants.Lib to lib args.now strings.now) (state_of top.old waiting.now m.old.blocks) step (state_of top.new waiting.now m.new.blocks)) }
{
    library_calls_pass();
    library_steps_stay();
    let values = passed(alloc, top, library.parameters(lib), args)?;
    match library.outcome(alloc, lib, values.as_slice(), m)? {
        Ending::Stop => Ok(Step::Ended),
        Ending::Next(v) => {
            receive(top, to, v)?;
            Ok(Step::Next)
        }
    }
}

/// The instruction is carried out where all its obligations hold.
pub(crate) fn carry<L: Outcomes>(
    alloc: Global,
    library: &L,
    p: &Project,
    f: &Function,
    instr: &Instr,
    top: &mut Frame,
    waiting: &mut List<Frame>,
    m: &mut Memory2,
) -> Result<Step, Memory>
    requires { IsReadyAt (L.meaning library.now) (L.signatures library.now) p.now f.now instr.now (state_of top.old waiting.old m.old.blocks) }
    ensures { IfOk result (λ step. Carries (library_of (L.signatures library.now) (L.meaning library.now) (L.outcomes library.now)) p.now f.now instr.now (state_of top.old waiting.old m.old.blocks) step (state_of top.new waiting.new m.new.blocks)) }
{
    match instr {
        Instr::Call { callee, args, .. } => {
            carry_call(alloc, p, f, instr, callee, args.as_slice(), top, waiting, m)?;
            Ok(Step::Next)
        }
        Instr::Lib {
            to,
            lib,
            args,
            strings,
        } => {
            let args = args.as_slice();
            let strings = strings.as_slice();
            carry_library(
                alloc, library, p, f, *to, *lib, args, strings, top, waiting, m,
            )
        }
        Instr::Return { value } => carry_return(alloc, p, f, instr, value, top, waiting, m),
        _ => {
            carry_local(alloc, p, f, instr, top, waiting, m)?;
            Ok(Step::Next)
        }
    }
}
