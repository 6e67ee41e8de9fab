ghost use Rattle.std.specs.Prelude.{◌≡◌, ◌∷◌, [], ◌++◌, ◌<◌, ◌^◌, Some, MatchOption, Contains, slice_get, length, IfOk, OnErr, MatchBool};
ghost use Rattle.po_straight.specs.Distinct.{AllDiffer};

use po_base::{List, Memory, Text};
use std::alloc::Global;
use std::collections::BTreeMap;
use std::marker::Model;

/// Names without doubles in the order in which they were put in, which contracts see as the list of them.
/// Looking a name up takes time in the logarithm of their number.
#[derive(Drop)]
pub(crate) struct Names {
    names: List<Text>,
    places: BTreeMap<Text, u32>,
}

/// The names of a definition's parameters.
pub(crate) type Parameters = Names;

impl Model for Names {
    ghost use Rattle.std.specs.Prelude.{ℕ, List};
    ghost use Rattle.std.specs.BTreeMap.{get};
    ghost use Rattle.std.specs.Ordering.{nat_cmp};
    ghost use Rattle.std.specs.Cmp.Lexicographic.{slice_cmp};
    ghost use Rattle.po_straight.specs.Named.{ArePlaced};

    ghost Value = { List (List ℕ) };

    ghost view = { λ n. n.names };

    ghost invariant = { λ n. ArePlaced n.names (get (slice_cmp nat_cmp) n.places) };
}

impl Names {
    /// No names. It takes no memory yet.
    pub(crate) fn new(alloc: Global) -> Names
        ensures { result ≡ [] }
    {
        Names {
            names: List::new(alloc),
            places: BTreeMap::new(alloc),
        }
    }

    /// The place of a name, from 0, where it is there.
    pub(crate) fn place(&self, name: &Text) -> Option<u32>
        ensures { MatchOption result (Contains self.now name.now → ⊥) (λ n. slice_get self.now n ≡ Some name.now) }
    {
        self.places.get(name).copied()
    }

    /// Puts a name at the end and says so; where it is there already, nothing changes and the answer is false.
    /// After `Memory` nothing has changed.
    pub(crate) fn insert(&mut self, name: Text) -> Result<bool, Memory>
        requires { length self.old < 2 ^ 31 }
        ensures kept { OnErr result (self.new ≡ self.old) }
        ensures added { IfOk result (λ added. MatchBool added ((self.new ≡ self.old ++ name ∷ []) × (Contains self.old name → ⊥)) ((self.new ≡ self.old) × Contains self.old name)) }
    {
        let None = self.place(&name) else {
            return Ok(false);
        };
        let at = self.names.len() as u32;
        self.names.push(name.share()?)?;
        match self.places.insert(name, at) {
            Ok(_) => Ok(true),
            Err(_) => {
                let _ = self.names.pop();
                Err(Memory)
            }
        }
    }

    /// How many names there are.
    pub(crate) fn len(&self) -> usize
        ensures { result ≡ length self.now }
    {
        self.names.len()
    }

    /// The names in their order.
    pub(crate) fn into_names(self) -> List<Text>
        ensures names { result ≡ self }
        ensures differ { AllDiffer self }
    {
        let Names { names, places: _ } = self;
        names
    }
}
