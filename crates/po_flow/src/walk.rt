// The walk through a graph, depth first, by which its nodes are ordered.
use po_base::{List, Memory, NodeNo};
use std::alloc::Global;

/// The number of a node that the walk hasn't come to.
const FRESH: u64 = 0;

/// The number of a node that the walk has left for good.
const LEFT: u64 = u64::MAX;

/// How many steps a walk may take for each node and each edge. One pass over a graph takes about three, and each
/// level of loops one pass more over what is in them.
const STEPS_EACH: u64 = 256;

/// A node that the walk is in.
#[derive(Clone, Copy)]
struct Visit {
    node: NodeNo,
    /// The place among the node's nexts at which the walk goes on.
    at: usize,
    /// The least number to which the walk came back from here.
    head: u64,
    /// Whether it came back to one, so that a loop is here.
    loops: bool,
    /// Whether this is the second visit of a loop's head, which orders the inside of the loop.
    inside: bool,
}

impl Visit {
    /// The visit after the walk came from there to a node of this number.
    fn came_to(self, number: u64) -> Visit {
        if self.inside || self.head < number {
            return self;
        }
        Visit {
            node: self.node,
            at: self.at,
            head: number,
            loops: true,
            inside: false,
        }
    }

    /// The visit after one more of the node's nexts.
    fn past_next(self) -> Visit {
        Visit {
            node: self.node,
            at: self.at.saturating_add(1),
            head: self.head,
            loops: self.loops,
            inside: self.inside,
        }
    }

    /// The second visit of a loop's head.
    fn again(self) -> Visit {
        Visit {
            node: self.node,
            at: 0,
            head: self.head,
            loops: true,
            inside: true,
        }
    }
}

/// A walk in depth through a graph that finds its loops from the outermost inwards.
///
/// A node that the walk left without a loop, or a loop whose inside was walked again without its head, goes to the
/// end of `ends`; so read from its end it is a reverse postorder in which each loop stands together, its head first.
#[derive(Drop)]
struct Walk {
    numbers: Vec<u64>,
    last: u64,
    path: List<NodeNo>,
    visits: List<Visit>,
    root: u32,
    ends: List<NodeNo>,
}

impl Walk {
    fn new(alloc: Global, size: usize) -> Result<Walk, Memory> {
        Ok(Walk {
            numbers: vec![in alloc; FRESH; size]?,
            last: FRESH,
            path: List::new(alloc),
            visits: List::new(alloc),
            root: 0,
            ends: List::new(alloc),
        })
    }

    fn number(&self, n: NodeNo) -> u64 {
        match self.numbers.get(n.0 as usize) {
            Some(number) => *number,
            None => LEFT,
        }
    }

    /// Enters a node for the first time, or again inside a loop around it.
    fn enter(&mut self, node: NodeNo) -> Result<(), Memory> {
        self.last = self.last.saturating_add(1);
        let head = self.last;
        set_number(&mut self.numbers, node, head);
        self.path.push(node)?;
        self.visits.push(Visit {
            node,
            at: 0,
            head,
            loops: false,
            inside: false,
        })?;
        Ok(())
    }

    /// On to a next of the visited node: into it, or past it.
    fn go_on(&mut self, visit: Visit, next: NodeNo) -> Result<(), Memory> {
        let number = self.number(next);
        if number == FRESH {
            self.visits.push(visit)?;
            return self.enter(next);
        }
        self.visits.push(visit.came_to(number).past_next())?;
        Ok(())
    }

    /// Back from a node all of whose nexts were gone to.
    fn go_back(&mut self, visit: Visit) -> Result<(), Memory> {
        if visit.inside {
            return self.end(visit.node);
        }
        if visit.head < self.number(visit.node) {
            return self.tell(visit.head);
        }
        self.leave(visit)
    }

    /// The visit to which the walk goes back learns to which number it came from there.
    fn tell(&mut self, number: u64) -> Result<(), Memory> {
        if let Some(visit) = self.visits.pop() {
            self.visits.push(visit.came_to(number))?;
        }
        Ok(())
    }

    /// Leaves a node for good, and with it what is on the path behind it: the inside of its loop, which is walked again.
    fn leave(&mut self, visit: Visit) -> Result<(), Memory> {
        set_number(&mut self.numbers, visit.node, LEFT);
        while let Some(n) = self.path.pop() {
            if n.0 == visit.node.0 {
                break;
            }
            set_number(&mut self.numbers, n, FRESH);
        }
        if visit.loops {
            self.visits.push(visit.again())?;
            return Ok(());
        }
        self.end(visit.node)
    }

    fn end(&mut self, n: NodeNo) -> Result<(), Memory> {
        self.ends.push(n)
    }

    /// Goes to the next node that no walk came to yet; false where there is none.
    fn enter_root(&mut self) -> Result<bool, Memory> {
        let root = self.root;
        if root as usize >= self.numbers.len() {
            return Ok(false);
        }
        self.root = root.saturating_add(1);
        if self.number(NodeNo(root)) == FRESH {
            self.enter(NodeNo(root))?;
        }
        Ok(true)
    }

    /// One step; false where the walk is at its end.
    fn step(&mut self, graph: &[List<NodeNo>]) -> Result<bool, Memory> {
        let Some(visit) = self.visits.pop() else {
            return self.enter_root();
        };
        match next_at(graph, visit.node, visit.at) {
            Some(next) => self.go_on(visit, next)?,
            None => self.go_back(visit)?,
        }
        Ok(true)
    }

    fn into_ends(self) -> List<NodeNo> {
        let Walk {
            numbers: _,
            last: _,
            path: _,
            visits: _,
            root: _,
            ends,
        } = self;
        ends
    }
}

/// Gives a node a number.
fn set_number(numbers: &mut [u64], n: NodeNo, number: u64) {
    if (n.0 as usize) < numbers.len() {
        numbers[n.0 as usize] = number;
    }
}

/// The next of a node at a place among its nexts.
fn next_at(graph: &[List<NodeNo>], n: NodeNo, at: usize) -> Option<NodeNo> {
    match graph.get(n.0 as usize) {
        Some(nexts) => nexts.get(at).copied(),
        None => None,
    }
}

/// How many steps a walk may take.
fn most_steps(graph: &[List<NodeNo>]) -> u64 {
    let mut parts = graph.len() as u64;
    for nexts in graph {
        parts = parts.saturating_add(nexts.len() as u64);
    }
    parts.saturating_mul(STEPS_EACH)
}

/// The nodes in the order in which a walk from node 0, and then from each node that it didn't come to, has done with
/// them. Where loops are nested so deep that the walk would take too long, some nodes are left out. It recurses
/// nowhere.
pub(crate) fn ends_of(alloc: Global, graph: &[List<NodeNo>]) -> Result<List<NodeNo>, Memory> {
    let mut walk = Walk::new(alloc, graph.len())?;
    for _ in 0..most_steps(graph) {
        if !walk.step(graph)? {
            break;
        }
    }
    Ok(walk.into_ends())
}
