ghost use Rattle.std.specs.Prelude.{◌≡◌, [], All, IfOk, IfSome, OnOk, length, true};
ghost use Rattle.po_arith.specs.Types.{IsOfType};
ghost use Rattle.po_ir.specs.Whole.{IsWhole};
ghost use Rattle.po_step.specs.Stepping.{IsStateOf};
ghost use Rattle.step_tests.specs.Bare.{signatures, int, three_registers, IsBareFunction, IsBareProject};

use crate::checking::{are_bare, are_marks};
use po_arith::{IntType, Target};
use po_base::{FileNo, FunNo, List, Memory, NodeNo, RegNo, Text};
use po_ir::{CTypeText, Function, Graph, Node, Project, Reg, Slot, Ty, function_effects, valid};
use po_meaning::State;
use po_memory::{Frame, Memory2, Value};
use std::alloc::Global;
use std::collections::BTreeMap;

/// The type int.
pub(crate) const INT: Ty = Ty::Int(IntType {
    bits: 32,
    signed: true,
});

/// The parameter.
pub(crate) const N: RegNo = RegNo(0);

/// The variable of type int.
pub(crate) const V: RegNo = RegNo(1);

/// The pointer.
pub(crate) const P: RegNo = RegNo(2);

fn registers(alloc: Global) -> Result<List<Reg>, Memory>
    ensures { IfOk result (λ list. list ≡ three_registers) }
{
    let v = Text::new(alloc, b"v")?;
    let p = Text::new(alloc, b"p")?;
    let mut list = List::new(alloc);
    list.push(Reg {
        name: None,
        ty: INT,
        param: true,
    })?;
    list.push(Reg {
        name: Some(v),
        ty: INT,
        param: false,
    })?;
    list.push(Reg {
        name: Some(p),
        ty: Ty::Ptr,
        param: false,
    })?;
    Ok(list)
}

/// Adds a function from int to int with these nodes, where they are bare ones among so many functions, and the marks are a `+` for
/// just those nodes where the slot is entered.
pub(crate) fn add_function(
    alloc: Global,
    functions: &mut List<Function>,
    count: usize,
    marks: &[u8],
    nodes: List<Node>,
) -> Result<(), Memory>
    ensures { OnOk result (All (IsBareFunction count) functions.old → All (IsBareFunction count) functions.new) }
{
    if !are_bare(nodes.as_slice(), count) {
        return Ok(());
    }
    if !are_marks(marks, nodes.as_slice()) {
        return Ok(());
    }
    let regs = registers(alloc)?;
    let mut slots = List::new(alloc);
    slots.push(Slot {
        size: 4,
        align: 4,
        constant: false,
    })?;
    let graph = Graph {
        nodes,
        regs,
        slots,
        params: 1,
    };
    if !valid(&graph) {
        return Ok(());
    }
    let text = Text::new(alloc, b"i32")?;
    functions.push(Function {
        file: FileNo(0),
        name: Text::new(alloc, b"f")?,
        local: false,
        result: CTypeText { text },
        graph,
    })?;
    Ok(())
}

fn are_counted(functions: &List<Function>, count: usize) -> bool
    ensures { result ≡ true → length functions.now ≡ count }
{
    functions.len() == count
}

/// A project of these functions and of nothing else, without their effects.
fn parts(alloc: Global, functions: List<Function>) -> Project
    ensures { (result.functions ≡ functions) × (result.globals ≡ []) × (result.texts ≡ []) }
{
    Project {
        files: List::new(alloc),
        opaque: List::new(alloc),
        functions,
        globals: List::new(alloc),
        texts: List::new(alloc),
        effects: List::new(alloc),
        target: Target::L64,
    }
}

/// A project of these functions, which are so many.
pub(crate) fn project(
    alloc: Global,
    functions: List<Function>,
    count: usize,
) -> Result<Option<Project>, Memory>
    requires { All (IsBareFunction count) functions }
    ensures { IfOk result (λ found. IfSome found (λ p. IsBareProject p × IsWhole signatures p)) }
{
    if !are_counted(&functions, count) {
        return Ok(None);
    }
    let mut project = parts(alloc, functions);
    let library = BTreeMap::new(alloc);
    let effects = function_effects(alloc, &library, &project)?;
    project.effects = effects;
    Ok(Some(project))
}

fn is_small(v: i128) -> bool
    ensures { result ≡ true → IsOfType int v }
{
    0 <= v && v <= 1000
}

/// The start of a run at a function with an argument from 0 to 1000.
pub(crate) fn start(
    alloc: Global,
    p: &Project,
    n: u32,
    argument: i128,
) -> Result<Option<State>, Memory>
    requires { IsBareProject p.now }
    ensures { IfOk result (λ found. IfSome found (IsStateOf p.now)) }
{
    if p.functions.len() <= n as usize || !is_small(argument) {
        return Ok(None);
    }
    let mut regs = List::new(alloc);
    regs.push(Some(Value::Number(argument)))?;
    regs.push(None)?;
    regs.push(None)?;
    let mut slots = List::new(alloc);
    slots.push(None)?;
    let mut args = List::new(alloc);
    args.push(Value::Number(argument))?;
    let mut frames = List::new(alloc);
    frames.push(Frame {
        function: FunNo(n),
        node: NodeNo(0),
        regs,
        slots,
        args,
    })?;
    let blocks = List::new(alloc);
    Ok(Some(State {
        frames,
        memory: Memory2 { blocks },
    }))
}
