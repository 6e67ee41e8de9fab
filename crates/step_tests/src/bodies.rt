ghost use Rattle.std.specs.Prelude.{All, IfOk, OnOk};
ghost use Rattle.step_tests.specs.Bare.{IsBareFunction};

use crate::building::{INT, N, P, V, add_function};
use po_base::{FunNo, List, Memory, NodeNo, Op, Opnd, RegNo, SlotNo, Spot, Text};
use po_ir::{Access, Callee, Function, Instr, Local, Node, Reason};
use std::alloc::Global;

/// The slot of a function.
const SLOT: SlotNo = SlotNo(0);

/// An int in memory.
const ACCESS: Access = Access {
    ty: INT,
    size: 4,
    align: 4,
};

/// Puts a node behind the others.
fn add_node(alloc: Global, nodes: &mut List<Node>, instr: Instr) -> Result<(), Memory> {
    let spot = Spot {
        file: Text::new(alloc, b"a.c")?,
        line: 1,
    };
    nodes.push(Node { instr, spot })
}

/// A call of a function with one argument.
fn call(alloc: Global, to: RegNo, n: u32, argument: Opnd) -> Result<Instr, Memory> {
    let mut args = List::new(alloc);
    args.push(argument)?;
    Ok(Instr::Call {
        to: Some(to),
        callee: Callee::Fun(FunNo(n)),
        args,
        strings: List::new(alloc),
    })
}

fn compute(to: RegNo, op: Op, a: Opnd, b: Opnd) -> Instr {
    Instr::Bin {
        to,
        op,
        ty: INT,
        a,
        b,
    }
}

/// Goes on at `yes` where the parameter is at least 1, and otherwise at `no`.
fn where_positive(yes: u32, no: u32) -> Instr {
    Instr::If {
        op: Op::Ge,
        ty: INT,
        a: Opnd::Reg(N),
        b: Opnd::Num(1),
        yes: NodeNo(yes),
        no: NodeNo(no),
    }
}

fn enter() -> Instr {
    Instr::Enter {
        what: Local::Slot(SLOT),
    }
}

/// The pointer gets the slot's address.
fn address() -> Instr {
    Instr::AddrSlot { to: P, slot: SLOT }
}

fn leave() -> Instr {
    Instr::Leave { slot: SLOT }
}

fn load(to: RegNo) -> Instr {
    Instr::Load {
        to,
        at: Opnd::Reg(P),
        access: ACCESS,
    }
}

/// Stores the parameter.
fn store() -> Instr {
    Instr::Store {
        at: Opnd::Reg(P),
        value: Opnd::Reg(N),
        access: ACCESS,
    }
}

fn give(r: RegNo) -> Instr {
    Instr::Return {
        value: Some(Opnd::Reg(r)),
    }
}

fn passing_on(alloc: Global, n: u32) -> Result<List<Node>, Memory> {
    let mut nodes = List::new(alloc);
    add_node(alloc, &mut nodes, call(alloc, N, n, Opnd::Reg(N))?)?;
    add_node(alloc, &mut nodes, give(N))?;
    Ok(nodes)
}

fn counting_down(alloc: Global) -> Result<List<Node>, Memory> {
    let mut nodes = List::new(alloc);
    add_node(alloc, &mut nodes, where_positive(1, 3))?;
    let less = compute(N, Op::Sub, Opnd::Reg(N), Opnd::Num(1));
    add_node(alloc, &mut nodes, less)?;
    add_node(alloc, &mut nodes, Instr::Jump { next: NodeNo(0) })?;
    add_node(alloc, &mut nodes, give(N))?;
    Ok(nodes)
}

fn dividing(alloc: Global) -> Result<List<Node>, Memory> {
    let mut nodes = List::new(alloc);
    let quotient = compute(N, Op::Div, Opnd::Num(1), Opnd::Reg(N));
    add_node(alloc, &mut nodes, quotient)?;
    add_node(alloc, &mut nodes, give(N))?;
    Ok(nodes)
}

fn ending(alloc: Global) -> Result<List<Node>, Memory> {
    let mut nodes = List::new(alloc);
    add_node(alloc, &mut nodes, Instr::Jump { next: NodeNo(1) })?;
    let reason = Reason::End;
    add_node(alloc, &mut nodes, Instr::Never { reason })?;
    Ok(nodes)
}

fn jumping_back(alloc: Global) -> Result<List<Node>, Memory> {
    let mut nodes = List::new(alloc);
    add_node(alloc, &mut nodes, Instr::Jump { next: NodeNo(0) })?;
    Ok(nodes)
}

fn counting_through_the_slot(alloc: Global) -> Result<List<Node>, Memory> {
    let mut nodes = List::new(alloc);
    add_node(alloc, &mut nodes, where_positive(1, 8))?;
    add_node(alloc, &mut nodes, enter())?;
    add_node(alloc, &mut nodes, address())?;
    add_node(alloc, &mut nodes, store())?;
    add_node(alloc, &mut nodes, load(V))?;
    add_node(alloc, &mut nodes, leave())?;
    let less = compute(N, Op::Sub, Opnd::Reg(V), Opnd::Num(1));
    add_node(alloc, &mut nodes, less)?;
    add_node(alloc, &mut nodes, Instr::Jump { next: NodeNo(0) })?;
    add_node(alloc, &mut nodes, give(N))?;
    Ok(nodes)
}

fn reading_before_a_store(alloc: Global) -> Result<List<Node>, Memory> {
    let mut nodes = List::new(alloc);
    add_node(alloc, &mut nodes, enter())?;
    add_node(alloc, &mut nodes, address())?;
    add_node(alloc, &mut nodes, load(V))?;
    add_node(alloc, &mut nodes, give(V))?;
    Ok(nodes)
}

fn reading_after_a_leave(alloc: Global) -> Result<List<Node>, Memory> {
    let mut nodes = List::new(alloc);
    add_node(alloc, &mut nodes, enter())?;
    add_node(alloc, &mut nodes, address())?;
    add_node(alloc, &mut nodes, store())?;
    add_node(alloc, &mut nodes, leave())?;
    add_node(alloc, &mut nodes, load(V))?;
    add_node(alloc, &mut nodes, give(V))?;
    Ok(nodes)
}

fn storing_to_a_slot_that_ended(alloc: Global) -> Result<List<Node>, Memory> {
    let mut nodes = List::new(alloc);
    add_node(alloc, &mut nodes, enter())?;
    add_node(alloc, &mut nodes, address())?;
    add_node(alloc, &mut nodes, leave())?;
    add_node(alloc, &mut nodes, enter())?;
    add_node(alloc, &mut nodes, store())?;
    add_node(alloc, &mut nodes, give(N))?;
    Ok(nodes)
}

fn keeping_the_parameter(alloc: Global, itself: u32) -> Result<List<Node>, Memory> {
    let mut nodes = List::new(alloc);
    add_node(alloc, &mut nodes, enter())?;
    add_node(alloc, &mut nodes, address())?;
    add_node(alloc, &mut nodes, store())?;
    add_node(alloc, &mut nodes, where_positive(4, 6))?;
    let less = compute(N, Op::Sub, Opnd::Reg(N), Opnd::Num(1));
    add_node(alloc, &mut nodes, less)?;
    add_node(alloc, &mut nodes, call(alloc, N, itself, Opnd::Reg(N))?)?;
    add_node(alloc, &mut nodes, load(N))?;
    add_node(alloc, &mut nodes, give(N))?;
    Ok(nodes)
}

fn reading_without_an_address(alloc: Global) -> Result<List<Node>, Memory> {
    let mut nodes = List::new(alloc);
    add_node(alloc, &mut nodes, load(V))?;
    add_node(alloc, &mut nodes, give(V))?;
    Ok(nodes)
}

fn calling_with_one_less(alloc: Global, n: u32) -> Result<List<Node>, Memory> {
    let mut nodes = List::new(alloc);
    let less = compute(V, Op::Sub, Opnd::Reg(N), Opnd::Num(1));
    add_node(alloc, &mut nodes, less)?;
    add_node(alloc, &mut nodes, call(alloc, V, n, Opnd::Reg(V))?)?;
    add_node(alloc, &mut nodes, give(V))?;
    Ok(nodes)
}

fn calling_with(alloc: Global, n: u32, argument: Opnd) -> Result<List<Node>, Memory> {
    let mut nodes = List::new(alloc);
    add_node(alloc, &mut nodes, call(alloc, V, n, argument)?)?;
    add_node(alloc, &mut nodes, give(V))?;
    Ok(nodes)
}

/// Function 0 gives what function 1 gives, which counts down to 0; function 2 divides 1 by its argument; function 3 jumps to where it
/// must not come, and function 4 back for ever; function 5 gives what function 0 gives.
fn plain_functions(alloc: Global) -> Result<List<Function>, Memory>
    ensures { IfOk result (λ list. All (IsBareFunction 16) list) }
{
    let mut functions = List::new(alloc);
    add_function(alloc, &mut functions, 16, b"", passing_on(alloc, 1)?)?;
    add_function(alloc, &mut functions, 16, b"", counting_down(alloc)?)?;
    add_function(alloc, &mut functions, 16, b"", dividing(alloc)?)?;
    add_function(alloc, &mut functions, 16, b"", ending(alloc)?)?;
    add_function(alloc, &mut functions, 16, b"", jumping_back(alloc)?)?;
    add_function(alloc, &mut functions, 16, b"", passing_on(alloc, 0)?)?;
    Ok(functions)
}

/// Function 6 gives what function 7 gives, which counts down through its slot, entered anew each time; function 8 reads its slot before a store, and
/// function 9 after a leave; function 10 stores through a pointer to a slot that ended; function 11 keeps its parameter in its slot while it calls
/// itself; function 12 reads through a pointer that was never set.
fn add_functions_of_slots(alloc: Global, functions: &mut List<Function>) -> Result<(), Memory>
    ensures { OnOk result (All (IsBareFunction 16) functions.old → All (IsBareFunction 16) functions.new) }
{
    add_function(alloc, functions, 16, b"", passing_on(alloc, 7)?)?;
    let counting = counting_through_the_slot(alloc)?;
    add_function(alloc, functions, 16, b"  ++++", counting)?;
    let before = reading_before_a_store(alloc)?;
    add_function(alloc, functions, 16, b" +++", before)?;
    let after = reading_after_a_leave(alloc)?;
    add_function(alloc, functions, 16, b" +++", after)?;
    let ended = storing_to_a_slot_that_ended(alloc)?;
    add_function(alloc, functions, 16, b" ++ ++", ended)?;
    let keeping = keeping_the_parameter(alloc, 11)?;
    add_function(alloc, functions, 16, b" +++++++", keeping)?;
    let unset = reading_without_an_address(alloc)?;
    add_function(alloc, functions, 16, b"", unset)?;
    Ok(())
}

/// Functions 13, 14 and 15 call function 2: with 1 less than their argument, with a variable that has no value, and with 0.
fn add_callers(alloc: Global, functions: &mut List<Function>) -> Result<(), Memory>
    ensures { OnOk result (All (IsBareFunction 16) functions.old → All (IsBareFunction 16) functions.new) }
{
    add_function(alloc, functions, 16, b"", calling_with_one_less(alloc, 2)?)?;
    let unset = calling_with(alloc, 2, Opnd::Reg(V))?;
    add_function(alloc, functions, 16, b"", unset)?;
    let zero = calling_with(alloc, 2, Opnd::Num(0))?;
    add_function(alloc, functions, 16, b"", zero)?;
    Ok(())
}

/// The sixteen functions of all runs.
pub(crate) fn functions(alloc: Global) -> Result<List<Function>, Memory>
    ensures { IfOk result (λ list. All (IsBareFunction 16) list) }
{
    let mut functions = plain_functions(alloc)?;
    add_functions_of_slots(alloc, &mut functions)?;
    add_callers(alloc, &mut functions)?;
    Ok(functions)
}
