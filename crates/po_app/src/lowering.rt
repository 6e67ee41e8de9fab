ghost use Rattle.std.specs.Prelude.{[], ◌≡◌, ◌+◌, ◌<◌, ◌^◌, ◌++◌, length, map, replicate, sum_by, All, Some, IfOk, OnOk, codes};
ghost use Rattle.po_straight.specs.Definitions.{operations};
ghost use Rattle.po_app.specs.Lowering.{int, node_at, parameter_register, temporary_register, IsFunction, IsGraph, IsProject};
ghost use Rattle.po_app.specs.Lowered.{Appends, AppendsAll, IsCounted, IsSmallGraph};
ghost use Rattle.po_app.specs.Ranges.{IsSmallFunction, IsSmallProject};

use po_arith::{IntType, Target};
use po_base::{FileNo, FunNo, List, Memory, Op, Opnd, RegNo, Spot, Text};
use po_ir::{CTypeText, Callee, Function, Graph, Instr, Node, Project, Reg, Ty};
use po_straight::{Definition, Expression};
use std::alloc::Global;

/// The node of an instruction that comes from this line of the file.
fn node(file: &Text, line: u32, instr: Instr) -> Result<Node, Memory>
    ensures { IfOk result (λ node. node ≡ node_at file.now line instr) }
{
    let spot = Spot {
        file: file.share()?,
        line,
    };
    Ok(Node { instr, spot })
}

/// The node of an operator on ints.
fn operation(file: &Text, line: u32, to: RegNo, op: Op, a: Opnd, b: Opnd) -> Result<Node, Memory>
    ensures { IfOk result (λ node. node ≡ node_at file.now line (Instr.Bin to op int a b)) }
{
    let ty = Ty::Int(IntType::INT);
    Ok(node(file, line, Instr::Bin { to, op, ty, a, b })?)
}

/// The node of a call of a function of the file. As many arguments as 32 bits don't count are want of memory: their
/// values alone take more than 2^36 bytes.
fn call(
    alloc: Global,
    file: &Text,
    line: u32,
    to: RegNo,
    function: u32,
    args: List<Opnd>,
) -> Result<Node, Memory>
    ensures node { IfOk result (λ node. node ≡ node_at file.now line (Instr.Call (Some to) (Callee.Fun (record { 0 = function })) args [])) }
    ensures few { OnOk result (length args < 2 ^ 32) }
{
    if args.len() > 4_294_967_295 {
        return Err(Memory);
    }
    let to = Some(to);
    let callee = Callee::Fun(FunNo(function));
    let strings = List::new(alloc);
    let instr = Instr::Call {
        to,
        callee,
        args,
        strings,
    };
    Ok(node(file, line, instr)?)
}

/// Appends the nodes of an expression and gives the operand that holds its value. In time linear in the
/// expression; the recursion is as deep as the expression is high.
#[cycle(lowering)]
fn lower_expression(
    alloc: Global,
    file: &Text,
    parameters: u32,
    x: &Expression,
    nodes: &mut List<Node>,
) -> Result<Opnd, Memory>
    requires { parameters + (length nodes.old + operations x.now) < 2 ^ 32 }
    ensures { IfOk result (Appends file.now parameters x.now nodes.old nodes.new) }
{
    match x {
        Expression::Parameter(place) => Ok(Opnd::Reg(RegNo(*place))),
        Expression::Constant(value) => Ok(Opnd::Num(i128::from(*value))),
        Expression::Paren(inner) => {
            Ok(lower_expression(alloc, file, parameters, inner.get(), nodes)?)
        }
        Expression::Binary(op, line, left, right) => {
            let a = lower_expression(alloc, file, parameters, left.get(), nodes)?;
            let b = lower_expression(alloc, file, parameters, right.get(), nodes)?;
            let to = RegNo(parameters + nodes.len() as u32);
            nodes.push(operation(file, *line, to, *op, a, b)?)?;
            Ok(Opnd::Reg(to))
        }
        Expression::Call(function, line, arguments) => {
            let values = lower_arguments(alloc, file, parameters, arguments.as_slice(), nodes)?;
            let to = RegNo(parameters + nodes.len() as u32);
            nodes.push(call(alloc, file, *line, to, *function, values)?)?;
            Ok(Opnd::Reg(to))
        }
    }
}

/// Appends the nodes of a call's arguments, from left to right, and gives their values.
#[cycle(lowering)]
fn lower_arguments(
    alloc: Global,
    file: &Text,
    parameters: u32,
    arguments: &[Expression],
    nodes: &mut List<Node>,
) -> Result<List<Opnd>, Memory>
    requires { parameters + (length nodes.old + sum_by operations arguments.now) < 2 ^ 32 }
    ensures { IfOk result (AppendsAll file.now parameters arguments.now nodes.old nodes.new) }
{
    let mut values = List::new(alloc);
    for argument in arguments {
        values.push(lower_expression(alloc, file, parameters, argument, nodes)?)?;
    }
    Ok(values)
}

/// A register for each parameter, by its name.
fn parameter_registers(alloc: Global, names: &List<Text>) -> Result<List<Reg>, Memory>
    ensures { IfOk result (λ regs. regs ≡ map parameter_register names.now) }
{
    let mut regs = List::new(alloc);
    for name in names.as_slice() {
        let name = Some(name.share()?);
        regs.push(Reg {
            name,
            ty: Ty::Int(IntType::INT),
            param: true,
        })?;
    }
    Ok(regs)
}

/// Adds registers without a name, in which the results of operators and calls are held.
fn add_temporaries(regs: &mut List<Reg>, count: usize) -> Result<(), Memory>
    ensures { OnOk result (regs.new ≡ regs.old ++ replicate count temporary_register) }
{
    for _taken in 0..count {
        regs.push(Reg {
            name: None,
            ty: Ty::Int(IntType::INT),
            param: false,
        })?;
    }
    Ok(())
}

/// The graph of a definition: the nodes of its value, and the return of it.
fn graph(alloc: Global, file: &Text, definition: &Definition) -> Result<Graph, Memory>
    requires { IsCounted definition.now }
    ensures graph { IfOk result (IsGraph file.now definition.now) }
    ensures small { IfOk result IsSmallGraph }
{
    let params = definition.parameters.len() as u32;
    let mut nodes = List::new(alloc);
    let value = lower_expression(alloc, file, params, &definition.value, &mut nodes)?;
    let mut regs = parameter_registers(alloc, &definition.parameters)?;
    add_temporaries(&mut regs, nodes.len())?;
    let value = Some(value);
    nodes.push(node(file, definition.line, Instr::Return { value })?)?;
    Ok(Graph {
        nodes,
        regs,
        slots: List::new(alloc),
        params,
    })
}

/// The function of a definition, whose result has the type that is spelled `int`.
fn function(
    alloc: Global,
    file: &Text,
    int: &Text,
    definition: &Definition,
) -> Result<Function, Memory>
    requires int { int.now ≡ codes "i32" }
    requires counted { IsCounted definition.now }
    ensures function { IfOk result (IsFunction file.now definition.now) }
    ensures small { IfOk result IsSmallFunction }
{
    let graph = graph(alloc, file, definition)?;
    Ok(Function {
        file: FileNo(0),
        name: definition.name.share()?,
        local: false,
        result: CTypeText { text: int.share()? },
        graph,
    })
}

/// The project of one file with these definitions, in time and memory linear in them.
pub(crate) fn project(
    alloc: Global,
    file: &Text,
    definitions: &List<Definition>,
) -> Result<Project, Memory>
    requires few { length definitions.now < 2 ^ 32 }
    requires counted { All IsCounted definitions.now }
    ensures project { IfOk result (IsProject file.now definitions.now) }
    ensures small { IfOk result IsSmallProject }
{
    let mut files = List::new(alloc);
    files.push(file.share()?)?;
    let int = Text::new(alloc, b"i32")?;
    let mut functions = List::new(alloc);
    functions.reserve(definitions.len())?;
    for definition in definitions.as_slice() {
        functions.push(function(alloc, file, &int, definition)?)?;
    }
    Ok(Project {
        files,
        opaque: List::new(alloc),
        functions,
        globals: List::new(alloc),
        texts: List::new(alloc),
        effects: List::new(alloc),
        target: Target::L64,
    })
}
