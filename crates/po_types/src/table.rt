// Tables by name, seen as lists.
ghost use Rattle.std.specs.Prelude.{◌≡◌, ◌<◌, [], ◌∷◌, ◌++◌, ℕ, List, length, take, get_or, nat_eq, None, Some, IsSome, IfOk, OnOk, OnErr};
ghost use Rattle.std.specs.Cmp.Lexicographic.{pointwise};
ghost use Rattle.std.specs.Map.{set_value};
ghost use Rattle.std.specs.Option.{option_copied};
ghost use Rattle.po_types.specs.Tables.{found};

use indexmap::IndexMap;
use po_base::{Memory, Text};
use std::alloc::Global;
use std::marker::Model;

/// What names stand for, which contracts see as the list of names and what each stands for, in the order in which they
/// were added. Each name stands in it once, and is found in constant time on the average.
#[derive(Drop)]
pub struct Table<V> {
    entries: IndexMap<Text, V>,
}

impl<V> Model for Table<V> {
    ghost use Rattle.std.specs.Prelude.{List, ℕ};

    ghost Value = { List (List ℕ × V) };

    ghost view = { λ t. t.entries.entries };
}

impl<V: Drop> Table<V> {
    /// No names yet.
    pub fn new(alloc: Global) -> Table<V>
        ensures { result ≡ [] }
    {
        Table {
            entries: IndexMap::new(alloc),
        }
    }

    /// What a name stands for, where it stands for something.
    pub fn find(&self, name: &Text) -> Option<&V>
        ensures { option_copied result ≡ found self.now name.now }
    {
        self.entries.get(name)
    }

    /// How many names there are.
    pub fn len(&self) -> usize
        ensures { result ≡ length self.now }
    {
        self.entries.len()
    }

    /// What the name at a place stands for, in the order in which the names were added, in constant time.
    pub fn value_at(&self, at: usize) -> &V
        requires { at < length self.now }
        ensures { (d : List ℕ × V) → result.now ≡ (get_or self.now at d).1 }
    {
        match self.entries.get_index(at) {
            Some((_, value)) => value,
            None => unreachable!(),
        }
    }

    /// Adds a name that isn't there yet.
    pub fn add(&mut self, name: Text, value: V) -> Result<(), Memory>
        requires { found self.old name ≡ None }
        ensures ok { OnOk result (self.new ≡ self.old ++ (name, value) ∷ []) }
        ensures err { OnErr result (self.new ≡ self.old) }
    {
        match self.entries.insert(name, value) {
            Ok(_) => Ok(()),
            Err(_) => Err(Memory),
        }
    }

    /// Replaces what a name that is there stands for, in constant time on the average, and gives what it stood for.
    pub fn replace(&mut self, name: Text, value: V) -> V
        requires { IsSome (found self.old name) }
        ensures old { found self.old name ≡ Some result }
        ensures replaced { self.new ≡ set_value (pointwise nat_eq name) self.old value }
    {
        match self.entries.insert(name, value) {
            Ok(Some(old)) => old,
            Ok(None) => unreachable!(),
            Err(_) => unreachable!(),
        }
    }

    /// Lets go of all names but the first `len`.
    pub fn truncate(&mut self, len: usize)
        ensures { self.new ≡ take len self.old }
    {
        self.entries.truncate(len);
    }
}
