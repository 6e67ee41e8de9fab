// Calls: arguments passed, and frames begun (C99 6.5.2.2).
ghost use Rattle.std.specs.Prelude.{◌≡◌, ◌++◌, IfOk, OnOk, MatchOption, Some, None, length, map, replicate, slice_get, take};
ghost use Rattle.po_ir.specs.Whole.{parameter_types, type_of};
ghost use Rattle.po_meaning.specs.Operands.{ArePassed};
ghost use Rattle.po_meaning.specs.States as states;
ghost use Rattle.po_meaning.specs.Steps.{Enters};
ghost use Rattle.po_step.specs.Passing.{CanPass, IsPassedAs};
ghost use Rattle.po_step.specs.Stepping.{state_of};

use po_base::{FunNo, List, Memory, NodeNo, Opnd};
use po_ir::{Function, Project, Reg, Ty};
use po_memory::{Frame, Value};
use po_operate::{register_value, value_at};
use std::alloc::Global;
use std::mem;

/// The value of an operand of any type; a number that is passed stays a number.
fn untyped_value(frame: &Frame, a: &Opnd) -> Option<Value>
    ensures { MatchOption result ((v : _) → IsPassedAs frame.now None a.now v → ⊥) (IsPassedAs frame.now None a.now) }
{
    match *a {
        Opnd::Reg(r) => register_value(frame, r),
        Opnd::Num(n) => Some(Value::Number(n)),
    }
}

/// The value of an operand at the type of its parameter, where there is one.
fn passed_as(frame: &Frame, types: &[Ty], place: usize, a: &Opnd) -> Option<Value>
    ensures { MatchOption result ((v : _) → IsPassedAs frame.now (slice_get types.now place) a.now v → ⊥) (IsPassedAs frame.now (slice_get types.now place) a.now) }
{
    if place < types.len() {
        value_at(frame, types[place], a)
    } else {
        untyped_value(frame, a)
    }
}

/// The values of operands, at the types of the parameters; further ones are of any type.
pub(crate) fn passed(
    alloc: Global,
    frame: &Frame,
    types: &[Ty],
    args: &[Opnd],
) -> Result<List<Value>, Memory>
    requires { CanPass frame.now types.now args.now }
    ensures { IfOk result (ArePassed frame.now types.now args.now) }
{
    let mut values = List::new(alloc);
    for place in 0..args.len() {
        match passed_as(frame, types, place, &args[place]) {
            None => unreachable!(),
            Some(v) => values.push(v)?,
        }
    }
    Ok(values)
}

fn types_of(alloc: Global, registers: &[Reg]) -> Result<List<Ty>, Memory>
    ensures { IfOk result (λ types. types ≡ map type_of registers.now) }
{
    let mut types = List::new(alloc);
    for register in registers {
        types.push(register.ty)?;
    }
    Ok(types)
}

/// The first of some items.
fn first<T>(items: &[T], count: usize) -> &[T]
    ensures { result.now ≡ take count items.now }
{
    if count < items.len() {
        &items[..count]
    } else {
        items
    }
}

/// The types of a function's parameters, which are its first registers.
fn parameters(alloc: Global, f: &Function) -> Result<List<Ty>, Memory>
    ensures { IfOk result (λ types. types ≡ parameter_types f.now) }
{
    types_of(
        alloc,
        first(f.graph.regs.as_slice(), f.graph.params as usize),
    )
}

/// So many registers or slots without a value.
fn add_nones<T: Drop>(list: &mut List<Option<T>>, count: usize) -> Result<(), Memory>
    ensures { OnOk result (list.new ≡ list.old ++ replicate count None) }
{
    for _ in 0..count {
        list.push(None)?;
    }
    Ok(())
}

fn with_values(alloc: Global, values: &[Value]) -> Result<List<Option<Value>>, Memory>
    ensures { IfOk result (λ registers. registers ≡ map Some values.now) }
{
    let mut registers = List::new(alloc);
    for v in values {
        registers.push(Some(*v))?;
    }
    Ok(registers)
}

/// The arguments in the first registers, and no other values.
fn start_registers(
    alloc: Global,
    f: &Function,
    args: &[Value],
) -> Result<List<Option<Value>>, Memory>
    ensures { IfOk result (λ registers. registers ≡ states.start_registers f.now args.now) }
{
    let params = f.graph.params as usize;
    let mut registers = with_values(alloc, first(args, params))?;
    add_nones(&mut registers, f.graph.regs.len().saturating_sub(params))?;
    Ok(registers)
}

fn start_slots(alloc: Global, f: &Function) -> Result<List<Option<u64>>, Memory>
    ensures { IfOk result (λ slots. slots ≡ replicate (length f.now.graph.slots) None) }
{
    let mut slots = List::new(alloc);
    add_nones(&mut slots, f.graph.slots.len())?;
    Ok(slots)
}

/// A frame at node 0 of a function with these arguments (C99 6.5.2.2p4, 6.2.4p5).
fn start_frame(alloc: Global, n: FunNo, f: &Function, args: List<Value>) -> Result<Frame, Memory>
    ensures { IfOk result (λ frame. frame ≡ states.start_frame n f.now args) }
{
    let regs = start_registers(alloc, f, args.as_slice())?;
    let slots = start_slots(alloc, f)?;
    Ok(Frame {
        function: n,
        node: NodeNo(0),
        regs,
        slots,
        args,
    })
}

/// A call of a function: a new frame runs on the values of the arguments, and its caller waits (C99 6.5.2.2p4, p10).
pub(crate) fn enter(
    alloc: Global,
    p: &Project,
    n: FunNo,
    args: &[Opnd],
    top: &mut Frame,
    waiting: &mut List<Frame>,
) -> Result<(), Memory>
    requires { (callee : _) × (slice_get p.now.functions n.0 ≡ Some callee) × CanPass top.old (parameter_types callee) args.now }
    ensures { OnOk result ((m : _) → Enters p.now n args.now (state_of top.old waiting.old m) (state_of top.new waiting.new m)) }
{
    match p.functions.get(n.0 as usize) {
        None => unreachable!(),
        Some(callee) => {
            let types = parameters(alloc, callee)?;
            let values = passed(alloc, top, types.as_slice(), args)?;
            let frame = start_frame(alloc, n, callee, values)?;
            let caller = mem::replace(top, frame);
            waiting.push(caller)?;
            Ok(())
        }
    }
}
