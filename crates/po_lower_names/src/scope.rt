// The variables that are in scope while a function is lowered (C99 6.2.1p4).
ghost use Rattle.std.specs.Prelude.{◌≡◌, ◌++◌, ◌∷◌, [], length, take, OnOk, OnErr};
ghost use Rattle.po_lowering.specs.Naming.{found as variable_found};

use crate::entries::{keep, last_of, shorten};
use po_base::{List, Memory, Text};
use po_lowering::Var;
use po_types::Table;
use std::alloc::Global;
use std::marker::Model;

/// The variables that are in scope at a place of a function (C99 6.2.1p4). Contracts see it as the list of names, each with its variable, in which the last
/// entry of a name is the one that counts; a name is found in constant time on the average.
#[derive(Drop)]
pub struct Scope {
    entries: List<(Text, Var)>,
    /// A number for each name that there ever was.
    numbers: Table<usize>,
    /// At the number of a name its variables, in the order of their entries.
    kept: Vec<List<Var>>,
}

impl Model for Scope {
    ghost use Rattle.std.specs.Prelude.{List, ℕ};
    ghost use Rattle.po_lowering.specs.declared.var.Var.{Var as Variable};

    ghost Value = { List (List ℕ × Variable) };

    ghost use Rattle.po_lower_names.specs.Indexed.{IsIndexed};

    ghost view = { λ s. s.entries };

    ghost invariant = { λ s. IsIndexed s.entries s.numbers s.kept.items };
}

impl Scope {
    /// No variables. It takes no memory yet.
    pub fn new(alloc: Global) -> Scope
        ensures { result ≡ [] }
    {
        Scope {
            entries: List::new(alloc),
            numbers: Table::new(alloc),
            kept: Vec::new(alloc),
        }
    }

    /// How many entries there are: a mark to go back to. In constant time.
    pub fn len(&self) -> usize
        ensures { result ≡ length self.now }
    {
        self.entries.len()
    }

    /// The variable that a name names, if it names one (C99 6.2.1p4). In constant time on the average.
    pub fn found(&self, name: &Text) -> Option<Var>
        ensures { result ≡ variable_found name.now self.now }
    {
        match self.numbers.find(name) {
            Some(k) => last_of(&self.kept[*k]),
            None => None,
        }
    }

    /// Puts a variable behind the others: from here on its name names it. In constant time on the average. After `Memory` the scope is the same.
    pub fn add(&mut self, alloc: Global, name: &Text, variable: Var) -> Result<(), Memory>
        ensures ok { OnOk result (self.new ≡ self.old ++ (name.now, variable) ∷ []) }
        ensures err { OnErr result (self.new ≡ self.old) }
    {
        self.entries.push((name.share()?, variable))?;
        match keep(alloc, &mut self.numbers, &mut self.kept, name, variable) {
            Ok(()) => Ok(()),
            Err(_) => {
                self.entries.pop();
                Err(Memory)
            }
        }
    }

    /// Goes back to a mark, as at the end of a block (C99 6.2.1p4): only so many of the first entries are left. In time linear in the number of those that go.
    pub fn back_to(&mut self, mark: usize)
        ensures { self.new ≡ take mark self.old }
    {
        shorten(&mut self.entries, &self.numbers, &mut self.kept, mark);
    }
}
