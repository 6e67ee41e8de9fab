// A graph while it is made.
ghost use Rattle.std.specs.Prelude.{◌≡◌, ◌+◌, ◌<◌, ◌≤◌, ◌++◌, ◌∷◌, [], length, IfOk, OnOk};
ghost use Rattle.po_lowering.specs.Temporaries.{Takes, fresh, type_in};
ghost use Rattle.po_lowering.specs.Statements.{one_more_declared, with_label, with_case, with_default};
ghost use Rattle.po_draft.specs.Sketches.{begun, with_node, first_label, IsFilled};

use crate::nodes::Nodes;
use crate::registers::Registers;
use po_base::{List, Memory, NodeNo, RegNo, Spot, Text};
use po_ir::{Instr, Node, Reg, Ty};
use std::alloc::Global;
use std::marker::Model;

/// A graph that is being made: the nodes so far, and what one part of a body passes on to the next.
///
/// A node may go to a label: a number from `FIRST_LABEL` on, which stands for a node that isn't known yet, until `fill` puts a node in its
/// place. After `Memory` a draft is to be given up.
#[derive(Drop)]
pub struct Draft {
    nodes: Nodes,
    registers: Registers,
    texts: List<Text>,
    declared: usize,
    labels: List<(Text, u32)>,
    cases: List<(i128, u32)>,
    default_case: Option<u32>,
}

impl Model for Draft {
    ghost use Rattle.po_draft.specs.Sketches.{Sketch};

    ghost Value = { Sketch };

    ghost view = { λ d. record { nodes = d.nodes; state = record { regs = d.registers.regs; taken = d.registers.taken; texts = d.texts; declared = d.declared; labels = d.labels; cases = d.cases; default_case = d.default_case } } };
}

/// The cases of a switch with their nodes, in their order, and its default's node.
#[derive(Drop)]
pub struct Cases {
    pub cases: List<(i128, u32)>,
    pub default_case: Option<u32>,
}

/// The nodes, registers and literals of a finished draft.
#[derive(Drop)]
pub struct Parts {
    pub nodes: List<Node>,
    pub regs: List<Reg>,
    /// Without the zero bytes at their ends.
    pub texts: List<Text>,
}

/// The same place once more.
fn same_spot(spot: &Spot) -> Result<Spot, Memory>
    ensures { IfOk result (λ same. same ≡ spot.now) }
{
    Ok(Spot {
        file: spot.file.share()?,
        line: spot.line,
    })
}

impl Draft {
    /// A draft with no registers and no nodes. It takes no memory yet.
    pub fn new(alloc: Global) -> Draft
        ensures { result ≡ begun [] }
    {
        Draft {
            nodes: Nodes::new(alloc),
            registers: Registers::new(alloc),
            texts: List::new(alloc),
            declared: 0,
            labels: List::new(alloc),
            cases: List::new(alloc),
            default_case: None,
        }
    }

    /// Puts a register behind all others: a parameter's or a variable's. In constant time.
    pub fn add_register(&mut self, alloc: Global, reg: Reg) -> Result<(), Memory>
        ensures { OnOk result (self.new ≡ record self.old { state = record self.old.state { regs = self.old.state.regs ++ reg ∷ [] } }) }
    {
        self.registers.add(alloc, reg)
    }

    /// The number of the next node, in constant time. Where there are so many that labels begin, `Memory` is answered.
    pub fn here(&self) -> Result<NodeNo, Memory>
        ensures { IfOk result (λ p. (p.0 ≡ length self.now.nodes) × (p.0 + 8 < first_label)) }
    {
        let count = self.nodes.len();
        if count > 2_000_000_000 {
            return Err(Memory);
        }
        Ok(NodeNo(count as u32))
    }

    /// Puts a node behind the others, in constant time.
    pub fn push(&mut self, instr: Instr, spot: &Spot) -> Result<(), Memory>
        ensures { OnOk result (self.new ≡ with_node instr spot.now self.old) }
    {
        let node = Node {
            instr,
            spot: same_spot(spot)?,
        };
        self.nodes.push(node)
    }

    /// Takes a temporary for a value: the least one of the type that the present full expression hasn't taken, and a new one where there is
    /// none. In constant time.
    pub fn take(&mut self, alloc: Global, ty: Ty) -> Result<RegNo, Memory>
        ensures takes { IfOk result (λ r. Takes ty self.old.state r.0 self.new.state) }
        ensures nodes { OnOk result (self.new.nodes ≡ self.old.nodes) }
    {
        self.registers.take(alloc, ty)
    }

    /// Begins a full expression: no temporary is taken. In time linear in the number of the temporaries' types.
    pub fn begin(&mut self)
        ensures { self.new ≡ record self.old { state = fresh self.old.state } }
    {
        self.registers.free();
    }

    /// The type of a register, in constant time.
    pub fn type_of(&self, r: RegNo) -> Option<Ty>
        ensures { result ≡ type_in self.now.state r }
    {
        self.registers.type_of(r)
    }

    /// How many literals there are, in constant time.
    pub fn text_count(&self) -> usize
        ensures { result ≡ length self.now.state.texts }
    {
        self.texts.len()
    }

    /// Puts a literal behind the others, in constant time. The zero byte at its end is left out.
    pub fn add_text(&mut self, text: Text) -> Result<(), Memory>
        ensures { OnOk result (self.new ≡ record self.old { state = record self.old.state { texts = self.old.state.texts ++ text ∷ [] } }) }
    {
        self.texts.push(text)
    }

    /// How many declarators of the body have been passed, in constant time.
    pub fn declared(&self) -> usize
        ensures { result ≡ self.now.state.declared }
    {
        self.declared
    }

    /// One declarator more has been passed, in constant time.
    pub fn pass_declarator(&mut self) -> Result<(), Memory>
        ensures { OnOk result (self.new ≡ record self.old { state = one_more_declared self.old.state }) }
    {
        match self.declared.checked_add(1) {
            Some(declared) => {
                self.declared = declared;
                Ok(())
            }
            None => Err(Memory),
        }
    }

    /// Gives a label of the source its node, in constant time.
    pub fn add_label(&mut self, name: &Text, place: NodeNo) -> Result<(), Memory>
        ensures { OnOk result (self.new ≡ record self.old { state = with_label name.now place.0 self.old.state }) }
    {
        self.labels.push((name.share()?, place.0))
    }

    /// Gives a case of the innermost switch its node, in constant time.
    pub fn add_case(&mut self, value: i128, place: NodeNo) -> Result<(), Memory>
        ensures { OnOk result (self.new ≡ record self.old { state = with_case value place.0 self.old.state }) }
    {
        self.cases.push((value, place.0))
    }

    /// Gives the default of the innermost switch its node, in constant time.
    pub fn set_default(&mut self, place: NodeNo)
        ensures { self.new ≡ record self.old { state = with_default place.0 self.old.state } }
    {
        self.default_case = Some(place.0);
    }

    /// The labels of the source that have been met, each with its node, in constant time.
    pub fn labels(&self) -> &[(Text, u32)]
        ensures { result.now ≡ self.now.state.labels }
    {
        self.labels.as_slice()
    }

    /// Goes on with other cases, as where a switch begins and where it ends, in constant time. Those so far are given back.
    pub fn replace_cases(&mut self, other: Cases) -> Cases
        ensures before { (result.cases ≡ self.old.state.cases) × (result.default_case ≡ self.old.state.default_case) }
        ensures after { self.new ≡ record self.old { state = record self.old.state { cases = other.cases; default_case = other.default_case } } }
    {
        let Cases {
            cases,
            default_case,
        } = other;
        let before = self.default_case;
        self.default_case = default_case;
        Cases {
            cases: std::mem::replace(&mut self.cases, cases),
            default_case: before,
        }
    }

    /// A label stands for a node, in each node from a place on. In time linear in the number of nodes that wait for the label from there on; it
    /// takes no memory.
    pub fn fill(&mut self, from: NodeNo, label: NodeNo, place: NodeNo)
        requires label { first_label ≤ label.0 }
        requires place { place.0 < first_label }
        ensures nodes { IsFilled from.0 label.0 place.0 self.old.nodes self.new.nodes }
        ensures state { self.new.state ≡ self.old.state }
    {
        self.nodes.fill(from, label, place);
    }

    /// What was made.
    pub fn into_parts(self) -> Parts
        ensures { (result.nodes ≡ self.nodes) × (result.regs ≡ self.state.regs) × (result.texts ≡ self.state.texts) }
    {
        Parts {
            nodes: self.nodes.into_list(),
            regs: self.registers.into_list(),
            texts: self.texts,
        }
    }
}
