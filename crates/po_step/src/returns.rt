// Returns to the frame that waits (C99 6.8.6.4).
ghost use Rattle.std.specs.Prelude.{◌≡◌, ◌⊎◌, ◌<◌, ◌↔◌, IfOk, IsTrue, Some, [], ◌∷◌, length, reverse};
ghost use Rattle.po_ir.specs.declared.instr.Ty.TheVariants as kind;
ghost use Rattle.po_ir.specs.Types.{IsResultType};
ghost use Rattle.po_meaning.specs.Belongs.{Calls, Wait};
ghost use Rattle.po_meaning.specs.Steps.{KillsAll, Returned};
ghost use Rattle.po_step.specs.Passing.{CanReturn, HaveBlocks, IsCall, IsCallInto, Receives};
ghost use Rattle.po_step.specs.Stepping.{ReturnsOrEnds, state_of};

use po_base::{List, Memory, Opnd, RegNo, Text};
use po_ir::{Function, Instr, Project};
use po_memory::{Frame, Memory2, Value, kill};
use po_operate::{number_value, pointer_value, receive};
use std::alloc::Global;

/// The register that gets the result of a call.
fn call_receiver(instr: &Instr) -> Option<RegNo>
    requires { IsCall instr.now }
    ensures { IsCallInto instr.now result }
{
    match instr {
        Instr::Call { to, .. } => *to,
        _ => unreachable!(),
    }
}

/// The register that gets the result of the call at which the frame stands.
fn receiver(p: &Project, caller: &Frame) -> Option<RegNo>
    requires { (n : _) × Calls p.now caller.now n }
    ensures { Receives p.now caller.now result }
{
    match p.functions.get(caller.function.0 as usize) {
        None => unreachable!(),
        Some(f) => match f.graph.nodes.get(caller.node.0 as usize) {
            None => unreachable!(),
            Some(node) => call_receiver(&node.instr),
        },
    }
}

/// Whether this is the spelling of a pointer, which begins with `*`.
fn is_pointer(text: &Text) -> bool
    ensures { IsTrue result ↔ IsResultType text.now (Some kind.Ptr) }
{
    let bytes = text.bytes();
    if bytes.len() == 0 {
        return false;
    }
    bytes[0] == b'*'
}

/// What a function's frame returns, as a value of the result's type (C99 6.8.6.4p3).
fn returned(f: &Function, frame: &Frame, value: &Option<Opnd>) -> Option<Value>
    requires { CanReturn f.now frame.now value.now }
    ensures { Returned f.now frame.now value.now result }
{
    match value {
        None => None,
        Some(a) => {
            if is_pointer(&f.result.text) {
                return pointer_value(frame, a);
            }
            number_value(frame, a)
        }
    }
}

/// The block of a slot ends, where the slot is entered.
fn kill_slot(alloc: Global, slot: &Option<u64>, m: &mut Memory2)
    requires { (b : _) → slot.now ≡ Some b → b < length m.old.blocks }
    ensures { KillsAll (slot.now ∷ []) m.old.blocks m.new.blocks }
{
    match slot {
        None => {}
        Some(block) => kill(alloc, m, *block),
    }
}

/// The blocks of the slots that are entered end (C99 6.2.4p5).
fn kill_all(alloc: Global, slots: &[Option<u64>], m: &mut Memory2)
    requires { HaveBlocks slots.now m.old.blocks }
    ensures { KillsAll slots.now m.old.blocks m.new.blocks }
{
    for slot in slots {
        kill_slot(alloc, slot, m);
    }
}

/// A return to the frame that waits, whose register gets the value (C99 6.8.6.4p3); false, with nothing changed, where none
/// waits.
pub(crate) fn return_from(
    alloc: Global,
    p: &Project,
    f: &Function,
    value: &Option<Opnd>,
    top: &mut Frame,
    waiting: &mut List<Frame>,
    m: &mut Memory2,
) -> Result<bool, Memory>
    requires value { (reverse waiting.old ≡ []) ⊎ CanReturn f.now top.old value.now }
    requires blocks { HaveBlocks top.old.slots m.old.blocks }
    requires waits { Wait p.now top.old.function (reverse waiting.old) }
    ensures { IfOk result (λ done. ReturnsOrEnds done p.now f.now value.now (state_of top.old waiting.old m.old.blocks) (state_of top.new waiting.new m.new.blocks)) }
{
    match waiting.pop() {
        None => Ok(false),
        Some(caller) => {
            let to = receiver(p, &caller);
            let result = returned(f, top, value);
            kill_all(alloc, top.slots.as_slice(), m);
            *top = caller;
            receive(top, to, result)?;
            Ok(true)
        }
    }
}
