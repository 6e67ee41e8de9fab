ghost use Rattle.std.specs.Prelude.{◌≡◌, ◌<◌, IfOk, slice_index_or};
ghost use Rattle.flow_tests.specs.Sample.{two_exits};

use po_base::{List, Memory, NodeNo};
use po_flow::Flow;
use std::alloc::Global;
use std::cell::Cell;

/// What an edge of the sample answers.
#[derive(Clone, Copy, PartialEq, Eq)]
pub(crate) enum Fault {
    Never,
    Edge,
    Join,
}

/// A flow in small: states are numbers up to a cap, and an edge adds the gain of its source, up to the source's limit. A
/// node has two exits at most; what isn't a node is none. It counts the evaluations of its edges by itself.
#[derive(Drop)]
pub(crate) struct Sample<'a> {
    pub(crate) nodes: u32,
    pub(crate) exits: &'a [(u32, u32)],
    pub(crate) gains: &'a [u32],
    pub(crate) limits: &'a [u32],
    pub(crate) first: u32,
    pub(crate) cap: u32,
    pub(crate) fault: Fault,
    pub(crate) evaluated: Cell<u64>,
    ghost some: { 0 < nodes },
}

/// The number at a place, or another one where there is none.
fn number_at(numbers: &[u32], at: u32, other: u32) -> u32
    ensures { result ≡ slice_index_or numbers.now at other }
{
    match numbers.get(at as usize) {
        Some(number) => *number,
        None => other,
    }
}

/// The exits of a node, or twice a number that is none.
fn exits_at(exits: &[(u32, u32)], at: u32, none: u32) -> (u32, u32)
    ensures { result ≡ slice_index_or exits.now at (none, none) }
{
    match exits.get(at as usize) {
        Some(there) => *there,
        None => (none, none),
    }
}

/// Those of two numbers that are nodes, each once.
fn two_nodes(
    alloc: Global,
    first_in: bool,
    second_in: bool,
    same: bool,
    first: u32,
    second: u32,
) -> Result<List<NodeNo>, Memory>
    ensures { IfOk result (λ nodes. nodes ≡ two_exits first_in second_in same first second) }
{
    let mut nodes = List::new(alloc);
    if first_in {
        nodes.push(NodeNo(first))?;
        if second_in {
            if !same {
                nodes.push(NodeNo(second))?;
            }
        }
        return Ok(nodes);
    }
    if second_in {
        nodes.push(NodeNo(second))?;
    }
    Ok(nodes)
}

impl Flow for Sample<'_> {
    ghost use Rattle.flow_tests.specs.Sample.{sample, sample_lawful};
    ghost use Rattle.std.specs.Prelude.{◌≤◌};

    type State = u32;

    ghost meaning = { λ s. sample s.nodes s.exits.now s.gains.now s.limits.now s.first s.cap };

    ghost proper = { λ s v. v ≤ s.cap };

    fn nodes(&self) -> u32 {
        self.nodes
    }

    fn nexts(&self, alloc: Global, n: NodeNo) -> Result<List<NodeNo>, Memory> {
        let (first, second) = exits_at(self.exits, n.0, self.nodes);
        two_nodes(
            alloc,
            first < self.nodes,
            second < self.nodes,
            first == second,
            first,
            second,
        )
    }

    fn start(&self, _alloc: Global) -> Result<u32, Memory> {
        Ok(self.first.min(self.cap))
    }

    fn bottom(&self, _alloc: Global) -> Result<u32, Memory> {
        Ok(0)
    }

    fn edge(&self, _alloc: Global, n: NodeNo, _m: NodeNo, s: &u32) -> Result<u32, Memory> {
        self.evaluated.set(self.evaluated.get().saturating_add(1));
        if self.fault == Fault::Edge {
            return Err(Memory);
        }
        let gain = number_at(self.gains, n.0, 0);
        let limit = number_at(self.limits, n.0, self.cap);
        Ok(s.saturating_add(gain).min(limit).min(self.cap))
    }

    fn join(&self, _alloc: Global, a: &u32, b: &u32) -> Result<u32, Memory> {
        if self.fault == Fault::Join {
            return Err(Memory);
        }
        Ok((*a).max(*b))
    }

    fn below(&self, a: &u32, b: &u32) -> bool {
        *a <= *b
    }

    ghost lawful = { λ s. sample_lawful s.nodes s.exits.now s.gains.now s.limits.now s.first s.cap s.some };
}

/// A sample whose nodes are as many as there are pairs of exits; none where there are none or too many.
pub(crate) fn sample_of<'a>(
    exits: &'a [(u32, u32)],
    gains: &'a [u32],
    limits: &'a [u32],
    first: u32,
    cap: u32,
    fault: Fault,
) -> Option<Sample<'a>> {
    match u32::try_from(exits.len()) {
        Ok(nodes) if nodes > 0 => Some(Sample {
            nodes,
            exits,
            gains,
            limits,
            first,
            cap,
            fault,
            evaluated: Cell::new(0),
        }),
        _ => None,
    }
}
