ghost use Rattle.std.specs.Prelude.{◌≡◌, ◌∷◌, [], ◌++◌, ◌<◌, ◌^◌, Some, MatchOption, Contains, slice_get, length, map, IfOk, MatchBool};
ghost use Rattle.po_straight.specs.Scopes.{Signature};

use crate::names::{Names, Parameters};
use po_base::{List, Memory, Text};
use std::alloc::Global;
use std::marker::Model;

/// Functions in the order of their definitions, each with the number of its parameters; no two have the same
/// name. Contracts see the list of their signatures. Looking a name up takes time in the logarithm of their number.
#[derive(Drop)]
pub(crate) struct Functions {
    names: Names,
    counts: List<u32>,
}

impl Model for Functions {
    ghost use Rattle.std.specs.Prelude.{List, ◌≡◌, length};
    ghost use Rattle.po_straight.specs.Scopes.{Signature};
    ghost use Rattle.po_straight.specs.Named.{signatures};

    ghost Value = { List Signature };

    ghost view = { λ f. signatures f.names f.counts };

    ghost invariant = { λ f. length f.names ≡ length f.counts };
}

/// A function that a name calls.
#[derive(Clone, Copy)]
pub(crate) struct Called {
    /// Its place among the definitions, from 0.
    pub place: u32,
    /// The number of its parameters.
    pub count: u32,
}

impl Functions {
    /// No functions. It takes no memory yet.
    pub(crate) fn new(alloc: Global) -> Functions
        ensures { result ≡ [] }
    {
        Functions {
            names: Names::new(alloc),
            counts: List::new(alloc),
        }
    }

    /// The function of this name, where there is one.
    fn find(&self, name: &Text) -> Option<Called>
        ensures { MatchOption result (Contains (map (λ f. f.name) self.now) name.now → ⊥) (λ called. slice_get self.now called.place ≡ Some (record { name = name.now; count = called.count })) }
    {
        let Some(place) = self.names.place(name) else {
            return None;
        };
        Some(Called {
            place,
            count: self.counts.as_slice()[place as usize],
        })
    }

    /// Puts a function at the end and says so; where there is one of its name already, nothing changes and the
    /// answer is false. After `Memory` nothing has changed.
    pub(crate) fn insert(&mut self, name: Text, count: u32) -> Result<bool, Memory>
        requires { length self.old < 2 ^ 31 }
        ensures { IfOk result (λ added. MatchBool added ((self.new ≡ self.old ++ record { name = name; count = count } ∷ []) × (Contains (map (λ f. f.name) self.old) name → ⊥)) ((self.new ≡ self.old) × Contains (map (λ f. f.name) self.old) name)) }
    {
        self.counts.push(count)?;
        match self.names.insert(name) {
            Ok(true) => Ok(true),
            Ok(false) => {
                let _ = self.counts.pop();
                Ok(false)
            }
            Err(_) => {
                let _ = self.counts.pop();
                Err(Memory)
            }
        }
    }
}

/// What the names in the expression of a definition may mean.
#[derive(Drop)]
pub(crate) struct Scope<'a> {
    parameters: &'a Parameters,
    functions: &'a Functions,
}

impl<'a> Model for Scope<'a> {
    ghost use Rattle.po_straight.specs.Scopes.{Scope as Meaning};

    ghost Value = { Meaning };

    ghost view = { λ s. record { parameters = s.parameters.now; functions = s.functions.now } };
}

impl<'a> Scope<'a> {
    /// The scope of these parameters and functions.
    pub(crate) fn new(parameters: &'a Parameters, functions: &'a Functions) -> Scope<'a>
        ensures { result ≡ record { parameters = parameters.now; functions = functions.now } }
    {
        Scope {
            parameters,
            functions,
        }
    }

    /// The place of the parameter of this name, from 0, where there is one.
    pub(crate) fn parameter(&self, name: &Text) -> Option<u32>
        ensures { MatchOption result (Contains self.now.parameters name.now → ⊥) (λ n. slice_get self.now.parameters n ≡ Some name.now) }
    {
        self.parameters.place(name)
    }

    /// The function of this name, where there is one.
    pub(crate) fn function(&self, name: &Text) -> Option<Called>
        ensures { MatchOption result (Contains (map (λ f. f.name) self.now.functions) name.now → ⊥) (λ called. slice_get self.now.functions called.place ≡ Some (record { name = name.now; count = called.count })) }
    {
        self.functions.find(name)
    }

    /// How many parameters there are.
    pub(crate) fn parameters(&self) -> usize
        ensures { result ≡ length self.now.parameters }
    {
        self.parameters.len()
    }
}
