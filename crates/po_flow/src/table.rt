// Tables of a state for each node.
ghost use Rattle.std.specs.Prelude.{◌≡◌, [], ◌∷◌, ◌++◌, ◌<◌, length, Some, slice_get, slice_set, OnOk};

use po_base::{List, Memory, NodeNo};
use std::alloc::Global;
use std::marker::Model;

/// A state for each node, which contracts see as the list of the states in the order of the nodes.
#[derive(Drop)]
pub struct Table<S> {
    states: List<S>,
}

impl<S> Model for Table<S> {
    ghost use Rattle.std.specs.Prelude.{List};
    ghost use Rattle.std.specs.Coded.{coded_list};

    ghost Value = { List S };

    ghost coded = { coded_list S.code };

    ghost view = { λ table. table.states };
}

impl<S> Table<S> {
    /// The table of a list of states, without a copy.
    pub fn from_list(states: List<S>) -> Table<S>
        ensures { result ≡ states }
    {
        Table { states }
    }

    /// The list of a table's states, without a copy.
    pub fn into_list(self) -> List<S>
        ensures { result ≡ self }
    {
        let Table { states } = self;
        states
    }

    /// How many nodes the table has a state for.
    pub fn len(&self) -> usize
        ensures { result ≡ length self.now }
    {
        self.states.len()
    }

    /// The state of a node, in constant time.
    pub fn at(&self, n: NodeNo) -> &S
        requires { n.0 < length self.now }
        ensures { slice_get self.now n.0 ≡ Some result.now }
    {
        &self.states.as_slice()[n.0 as usize]
    }
}

impl<S: Drop> Table<S> {
    /// Replaces the state of a node, in constant time.
    pub(crate) fn set(&mut self, n: NodeNo, state: S)
        requires { n.0 < length self.old }
        ensures { self.new ≡ slice_set self.old n.0 state }
    {
        self.states.set(n.0 as usize, state);
    }
}
