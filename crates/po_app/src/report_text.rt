ghost use Rattle.std.specs.Prelude.{◌≡◌, ◌++◌, ◌<◌, length, map, Some, IfOk, OnOk};
ghost use Rattle.std.specs.List.{flat_map};
ghost use Rattle.po_pred.specs.Spelling.{predicate_text};
ghost use Rattle.po_core.specs.declared.obl.Verdict.TheVariants.{Open};
ghost use Rattle.po_app.specs.ReportText as shown;
ghost use Rattle.po_app.specs.Ranges.{IsSmallProject};
ghost use Rattle.po_app.specs.Numbering.{StandInOrder, IsIndexAt, IsIndexBefore};

use crate::rule::Rule;
use crate::tally::{Line, Tally};
use crate::verdict::predicate_of;
use po_base::{FunNo, List, Memory, Out, Text};
use po_core::{Obl, Report, Verdict};
use po_ir::{Function, Node, Project};
use po_pred::{Pred, spell};
use std::alloc::Global;

/// The names of a function's registers, some without.
type Names = List<Option<Text>>;

/// The name of a register, where it has one.
fn shared(name: &Option<Text>) -> Result<Option<Text>, Memory>
    ensures { IfOk result (λ copy. copy ≡ name.now) }
{
    match name {
        None => Ok(None),
        Some(name) => Ok(Some(name.share()?)),
    }
}

fn names_in(alloc: Global, function: &Function) -> Result<Names, Memory>
    ensures { IfOk result (λ names. names ≡ shown.names_in function.now) }
{
    let mut names = List::new(alloc);
    for register in function.graph.regs.as_slice() {
        names.push(shared(&register.name)?)?;
    }
    Ok(names)
}

/// The names of the registers of each function.
fn names_of(alloc: Global, functions: &[Function]) -> Result<List<Names>, Memory>
    ensures { IfOk result (λ names. names ≡ map shown.names_in functions.now) }
{
    let mut names = List::new(alloc);
    for function in functions {
        names.push(names_in(alloc, function)?)?;
    }
    Ok(names)
}

fn add_predicate(
    alloc: Global,
    out: &mut Out,
    names: &[Option<Text>],
    predicate: &Pred,
) -> Result<(), Memory>
    ensures { OnOk result (out.new ≡ out.old ++ predicate_text names.now predicate.now) }
{
    let text = spell(alloc, predicate, names)?;
    out.add(text.bytes())
}

fn add_rule(out: &mut Out, rule: Rule) -> Result<(), Memory>
    ensures { OnOk result (out.new ≡ out.old ++ shown.rule_text rule) }
{
    match rule {
        Rule::Range => out.add(b"range"),
    }
}

fn add_verdict(
    alloc: Global,
    out: &mut Out,
    names: &[Option<Text>],
    verdict: &Verdict<Pred, Rule>,
) -> Result<(), Memory>
    ensures { OnOk result (out.new ≡ out.old ++ shown.verdict_text names.now verdict.now) }
{
    match verdict {
        Verdict::Closed(rule) => {
            out.add(b"closed ")?;
            add_rule(out, *rule)
        }
        Verdict::Delegated(predicate) => {
            out.add(b"delegated ")?;
            add_predicate(alloc, out, names, predicate)
        }
        Verdict::Open => out.add(b"open"),
    }
}

/// Adds where an obligation stands, and its place among those of its node.
fn add_obligation(
    out: &mut Out,
    function: &Function,
    node: &Node,
    obl: &Obl<Pred>,
    index: usize,
) -> Result<(), Memory>
    ensures { OnOk result (out.new ≡ out.old ++ shown.obligation_text function.now node.now obl.now index) }
{
    out.add(node.spot.file.bytes())?;
    out.add(b":")?;
    out.add_number(node.spot.line)?;
    out.add(b" ")?;
    out.add(function.name.bytes())?;
    out.add(b" ")?;
    out.add_number(obl.node.0)?;
    out.add(b".")?;
    out.add_count(index)
}

fn add_line(
    alloc: Global,
    out: &mut Out,
    function: &Function,
    names: &[Option<Text>],
    node: &Node,
    predicate: &Pred,
    index: usize,
    line: &Line,
) -> Result<(), Memory>
    requires { names.now ≡ shown.names_in function.now }
    ensures { OnOk result (out.new ≡ out.old ++ shown.line_text function.now node.now predicate.now index line.now) }
{
    add_obligation(out, function, node, &line.0, index)?;
    out.add(b" ")?;
    add_predicate(alloc, out, names, predicate)?;
    out.add(b" ")?;
    add_verdict(alloc, out, names, &line.1)?;
    out.add(b"\n")
}

/// Adds the line of an obligation of the project.
fn add_numbered(
    alloc: Global,
    out: &mut Out,
    project: &Project,
    names: &[Names],
    index: usize,
    line: &Line,
) -> Result<(), Memory>
    requires small { IsSmallProject project.now }
    requires names { names.now ≡ map shown.names_in project.now.functions }
    ensures { OnOk result (out.new ≡ out.old ++ shown.numbered_line project.now index line.now) }
{
    let fun = line.0.fun.0 as usize;
    let Some(function) = project.functions.get(fun) else {
        return Ok(());
    };
    let Some(node) = function.graph.nodes.get(line.0.node.0 as usize) else {
        return Ok(());
    };
    let Some(predicate) = predicate_of(alloc, project, &line.0)? else {
        return Ok(());
    };
    let names = names[fun].as_slice();
    add_line(alloc, out, function, names, node, &predicate, index, line)
}

/// Whether two obligations stand at one node.
fn share_node(o: &Obl<Pred>, p: &Obl<Pred>) -> bool
    ensures { result ≡ shown.at_node_of o.now (p.now, Open) }
{
    o.fun.0 == p.fun.0 && o.node.0 == p.node.0
}

/// The place of a line among those of its node, by the place of the line before it.
fn next_index(lines: &[Line], at: usize, before: usize) -> usize
    requires within { at < length lines.now }
    requires order { StandInOrder lines.now }
    requires before { IsIndexBefore lines.now at before }
    ensures { IsIndexAt lines.now at result }
{
    if at == 0 {
        return 0;
    }
    if share_node(&lines[at].0, &lines[at - 1].0) {
        return before + 1;
    }
    0
}

/// Adds the lines of obligations of the project. In time linear in the text.
fn add_lines(
    alloc: Global,
    out: &mut Out,
    project: &Project,
    names: &[Names],
    lines: &[Line],
) -> Result<(), Memory>
    requires small { IsSmallProject project.now }
    requires order { StandInOrder lines.now }
    requires names { names.now ≡ map shown.names_in project.now.functions }
    ensures { OnOk result (out.new ≡ out.old ++ shown.lines_text project.now lines.now) }
{
    let mut index = 0;
    for (at, line) in lines.iter().enumerate() {
        index = next_index(lines, at, index);
        add_numbered(alloc, out, project, names, index, line)?;
    }
    Ok(())
}

fn add_found_assumption(
    alloc: Global,
    out: &mut Out,
    file: &Text,
    function: &Function,
    names: &[Option<Text>],
    predicate: &Pred,
) -> Result<(), Memory>
    requires { names.now ≡ shown.names_in function.now }
    ensures { OnOk result (out.new ≡ out.old ++ shown.assuming_text (Some file.now) function.now predicate.now) }
{
    out.add(b"assume ")?;
    out.add(file.bytes())?;
    out.add(b" ")?;
    out.add(function.name.bytes())?;
    out.add(b" ")?;
    add_predicate(alloc, out, names, predicate)?;
    out.add(b"\n")
}

/// Adds the line of what is assumed of a function of the project.
fn add_assumption(
    alloc: Global,
    out: &mut Out,
    project: &Project,
    names: &[Names],
    assumption: &(FunNo, Pred),
) -> Result<(), Memory>
    requires { names.now ≡ map shown.names_in project.now.functions }
    ensures { OnOk result (out.new ≡ out.old ++ shown.assumption_text project.now assumption.now) }
{
    let fun = assumption.0.0 as usize;
    let Some(function) = project.functions.get(fun) else {
        return Ok(());
    };
    let Some(file) = project.files.get(function.file.0 as usize) else {
        return Ok(());
    };
    let names = names[fun].as_slice();
    add_found_assumption(alloc, out, file, function, names, &assumption.1)
}

/// Adds the lines of assumptions.
fn add_assumptions(
    alloc: Global,
    out: &mut Out,
    project: &Project,
    names: &[Names],
    assumptions: &[(FunNo, Pred)],
) -> Result<(), Memory>
    requires { names.now ≡ map shown.names_in project.now.functions }
    ensures { OnOk result (out.new ≡ out.old ++ flat_map (shown.assumption_text project.now) assumptions.now) }
{
    for assumption in assumptions {
        add_assumption(alloc, out, project, names, assumption)?;
    }
    Ok(())
}

fn add_counted(out: &mut Out, label: &[u8], count: usize) -> Result<(), Memory>
    ensures { OnOk result (out.new ≡ out.old ++ shown.counted_text label.now count) }
{
    out.add(label)?;
    out.add_count(count)
}

/// Adds the line of the totals.
fn add_total(out: &mut Out, lines: &[Line]) -> Result<(), Memory>
    ensures { OnOk result (out.new ≡ out.old ++ shown.total_text lines.now) }
{
    let tally = Tally::of(lines);
    add_counted(out, b"total ", lines.len())?;
    add_counted(out, b" closed ", tally.closed)?;
    add_counted(out, b" delegated ", tally.delegated)?;
    add_counted(out, b" open ", tally.left_open)?;
    out.add(b"\n")
}

/// The text of a report of the project: the lines of its obligations, those of its assumptions, and the totals. In
/// time linear in the text and in the registers of the project and, for the numbers of temporaries, in the
/// registers of each line's function.
pub(crate) fn report_text(
    alloc: Global,
    project: &Project,
    report: &Report<Pred, Rule>,
) -> Result<Vec<u8>, Memory>
    requires small { IsSmallProject project.now }
    requires order { StandInOrder report.now.lines }
    ensures { IfOk result (λ text. text.items ≡ shown.report_text project.now report.now) }
{
    let names = names_of(alloc, project.functions.as_slice())?;
    let names = names.as_slice();
    let lines = report.lines.as_slice();
    let assumptions = report.assumptions.as_slice();
    let mut out = Out::new(alloc);
    add_lines(alloc, &mut out, project, names, lines)?;
    add_assumptions(alloc, &mut out, project, names, assumptions)?;
    add_total(&mut out, lines)?;
    Ok(out.into_bytes())
}
