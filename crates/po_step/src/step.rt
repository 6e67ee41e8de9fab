// One step of a run.
ghost use Rattle.std.specs.Prelude.{◌≡◌, IfOk};
ghost use Rattle.po_ir.specs.Whole.{IsWhole};
ghost use Rattle.po_meaning.specs.Belongs.{Belongs};
ghost use Rattle.po_meaning.specs.Checks.{AllHold};
ghost use Rattle.po_step.specs.Stepping.{AnswersIn, IsStateOf, IsStep, library_of, state_of};
ghost use Rattle.po_step.specs.Supporting.{SupportsFit};

use crate::asking::asked;
use crate::carrying::carry;
use crate::checking::first_failing;
use crate::outcomes::Outcomes;
use po_base::{FunNo, List, Memory, NodeNo};
use po_core::Report;
use po_ir::{Project, counted, ways_stay_within};
use po_meaning::State;
use po_memory::{Frame, Memory2};
use po_pred::{Pred, Rule};
use std::alloc::Global;

/// What a step came to.
#[derive(Clone, Copy, Debug, PartialEq, Eq)]
pub enum Step {
    /// All obligations hold, and the state is now one that follows.
    Next,
    /// All obligations hold, and the run ends here.
    Ended,
    /// The obligation at this place, from 0, is the first at the node that doesn't hold.
    Violated {
        function: FunNo,
        node: NodeNo,
        index: u32,
    },
}

/// The instruction at which the frame stands is carried out.
fn move_on<L: Outcomes>(
    alloc: Global,
    library: &L,
    p: &Project,
    support: &Report<Pred, Rule>,
    top: &mut Frame,
    waiting: &mut List<Frame>,
    m: &mut Memory2,
) -> Result<Step, Memory>
    requires whole { IsWhole (L.signatures library.now) p.now }
    requires belongs { Belongs p.now (state_of top.old waiting.old m.old.blocks) }
    requires held { AllHold (L.meaning library.now) p.now support.now (state_of top.old waiting.old m.old.blocks) }
    ensures { IfOk result (λ step. AnswersIn (library_of (L.signatures library.now) (L.meaning library.now) (L.outcomes library.now)) p.now support.now (state_of top.old waiting.old m.old.blocks) step (state_of top.new waiting.new m.new.blocks)) }
{
    ways_stay_within();
    match p.functions.get(top.function.0 as usize) {
        None => unreachable!(),
        Some(f) => match f.graph.nodes.get(top.node.0 as usize) {
            None => unreachable!(),
            Some(node) => carry(alloc, library, p, f, &node.instr, top, waiting, m),
        },
    }
}

/// The obligations at the node are checked in their order, and where all hold the instruction is carried out.
fn step_from<L: Outcomes>(
    alloc: Global,
    library: &L,
    p: &Project,
    support: &Report<Pred, Rule>,
    top: &mut Frame,
    waiting: &mut List<Frame>,
    m: &mut Memory2,
) -> Result<Step, Memory>
    requires whole { IsWhole (L.signatures library.now) p.now }
    requires supports { SupportsFit p.now support.now.lines }
    requires belongs { Belongs p.now (state_of top.old waiting.old m.old.blocks) }
    ensures { IfOk result (λ step. AnswersIn (library_of (L.signatures library.now) (L.meaning library.now) (L.outcomes library.now)) p.now support.now (state_of top.old waiting.old m.old.blocks) step (state_of top.new waiting.new m.new.blocks)) }
{
    let list = asked(alloc, library, p, support, top.function, top.node)?;
    match first_failing(list.as_slice(), top, m) {
        None => move_on(alloc, library, p, support, top, waiting, m),
        Some(place) => {
            let index = counted(place)?;
            Ok(Step::Violated {
                function: top.function,
                node: top.node,
                index,
            })
        }
    }
}

/// Takes one step of a run, of those that may be taken one that is fixed; the report says what the called functions assume.
/// After `Violated` and `Ended` the state is as before; after `Memory` it is to be given up. A call takes the time of its
/// frame, and any other step that of what it touches, beside that of the report's length.
pub fn step_once<L: Outcomes>(
    alloc: Global,
    library: &L,
    p: &Project,
    support: &Report<Pred, Rule>,
    s: &mut State,
) -> Result<Step, Memory>
    requires whole { IsWhole (L.signatures library.now) p.now }
    requires supports { SupportsFit p.now support.now.lines }
    requires belongs { IsStateOf p.now s.old }
    ensures step { IfOk result (λ step. IsStep (library_of (L.signatures library.now) (L.meaning library.now) (L.outcomes library.now)) p.now support.now s.old step s.new) }
    ensures stays { IfOk result (λ _. IsStateOf p.now s.new) }
{
    match s.frames.pop() {
        None => unreachable!(),
        Some(running) => {
            let mut top = running;
            let step = step_from(
                alloc,
                library,
                p,
                support,
                &mut top,
                &mut s.frames,
                &mut s.memory,
            )?;
            s.frames.push(top)?;
            Ok(step)
        }
    }
}
