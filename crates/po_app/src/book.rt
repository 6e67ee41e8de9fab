ghost use Rattle.std.specs.Prelude.{◌≡◌, ◌++◌, ◌<◌, ◌^◌, length, IfOk, OnOk};
ghost use Rattle.po_app.specs.Obligations.{each_from};
ghost use Rattle.po_app.specs.Book.{node_places};
ghost use Rattle.po_app.specs.Ranges.{IsSmallProject};

use crate::callers::{Sites, callers};
use crate::primary::predicates;
use crate::rule::Rule;
use crate::verdict::verdict_of;
use po_base::{FileNo, FunNo, List, Memory, NodeNo};
use po_core::{Obl, Rulebook, Verdict};
use po_ir::{Node, Project};
use po_pred::Pred;
use std::alloc::Global;
use std::marker::Model;

/// The rulebook of a project: what its operations ask, where its functions are called, and the verdicts by the ranges
/// of operands and by delegation.
///
/// It keeps the calls of each function, so that nobody has to look through the project for them.
#[derive(Drop)]
pub(crate) struct ProjectBook<'p> {
    project: &'p Project,
    callers: Vec<Sites>,
}

impl<'p> Model for ProjectBook<'p> {
    ghost use Rattle.po_ir.specs.declared.project.Project.{Project};

    ghost Value = { Project };

    ghost use Rattle.po_app.specs.Callers.{IsIndexed};

    ghost view = { λ b. b.project.now };

    ghost invariant = { λ b. IsIndexed b.project.now b.callers.items };
}

impl<'p> ProjectBook<'p> {
    /// The rulebook of a project. The time is linear in the project.
    pub(crate) fn new(alloc: Global, project: &'p Project) -> Result<ProjectBook<'p>, Memory>
        requires { IsSmallProject project.now }
        ensures { IfOk result (λ book. book ≡ project.now) }
    {
        let callers = callers(alloc, project)?;
        Ok(ProjectBook { project, callers })
    }
}

/// A place for each predicate that a node asks for.
fn add_places(
    alloc: Global,
    places: &mut List<(NodeNo, u32)>,
    at: NodeNo,
    node: &Node,
) -> Result<(), Memory>
    ensures { OnOk result (places.new ≡ places.old ++ node_places at.0 node.now) }
{
    let asked = predicates(alloc, &node.instr)?;
    let mut place = 0;
    for _ in asked.as_slice() {
        places.push((at, place))?;
        place += 1;
    }
    Ok(())
}

/// A place for each predicate that a function's nodes ask for, by node and place.
fn places_of(alloc: Global, nodes: &[Node]) -> Result<List<(NodeNo, u32)>, Memory>
    requires { length nodes.now < 2 ^ 32 }
    ensures { IfOk result (λ places. places ≡ each_from node_places 0 nodes.now) }
{
    let mut places = List::new(alloc);
    let mut at = 0;
    for node in nodes {
        add_places(alloc, &mut places, NodeNo(at), node)?;
        at += 1;
    }
    Ok(places)
}

impl<'p> Rulebook for ProjectBook<'p> {
    ghost use Rattle.po_app.specs.Book.{book};
    ghost use Rattle.po_app.specs.Lawful.{lawful};
    ghost use Rattle.po_pred.specs.OrderLaws.{equal_are_same};

    type Pred = Pred;

    type Rule = Rule;

    type Table = ();

    ghost meaning = { λ p. book p };

    fn files(&self) -> u32 {
        self.project.files.len() as u32
    }

    fn functions(&self) -> u32 {
        self.project.functions.len() as u32
    }

    fn file_of(&self, f: FunNo) -> FileNo {
        self.project.functions.as_slice()[f.0 as usize].file
    }

    fn primaries(&self, alloc: Global, f: FunNo) -> Result<List<(NodeNo, u32)>, Memory> {
        let function = &self.project.functions.as_slice()[f.0 as usize];
        places_of(alloc, function.graph.nodes.as_slice())
    }

    fn call_sites(&self, alloc: Global, f: FunNo) -> Result<List<(FunNo, NodeNo)>, Memory> {
        copied(alloc, &self.callers[f.0 as usize])
    }

    fn table(&self, _alloc: Global, _f: FunNo) -> Result<(), Memory> {
        Ok(())
    }

    fn verdict(
        &self,
        alloc: Global,
        o: &Obl<Pred>,
        _table: &(),
    ) -> Result<Verdict<Pred, Rule>, Memory> {
        verdict_of(alloc, self.project, o)
    }

    ghost lawful = { λ p. lawful _ equal_are_same p };
}

fn copied(alloc: Global, sites: &Sites) -> Result<Sites, Memory>
    ensures { IfOk result (λ copy. copy ≡ sites.now) }
{
    Ok(List::from_vec(Vec::from_slice(alloc, sites.as_slice())?))
}
