// Values worked out of functions, by function.
ghost use Rattle.std.specs.Prelude.{◌≡◌, ◌++◌, [], ◌∷◌, IfSome, IfNone, OnOk, OnErr, Some, slice_get, length};
ghost use Rattle.po_base.specs.declared.numbers.FunNo.{FunNo};
ghost use Rattle.po_ledger.specs.Made.{HasTable};

use indexmap::IndexMap;
use po_base::{FunNo, Memory};
use std::alloc::Global;
use std::marker::Model;

/// What was worked out of functions, a value for each that has one, in the order in which they were. One is found by its
/// function's number, in constant time on the average.
#[derive(Drop)]
pub(crate) struct PerFunction<T: Drop> {
    values: IndexMap<FunNo, T>,
}

impl<T: Drop> Model for PerFunction<T> {
    ghost use Rattle.std.specs.Prelude.{List};
    ghost use Rattle.po_base.specs.declared.numbers.FunNo.{FunNo};

    ghost Value = { List (FunNo × T) };

    ghost view = { λ t. t.values.entries };
}

impl<T: Drop> PerFunction<T> {
    /// No values. It takes no memory.
    pub(crate) fn new(alloc: Global) -> PerFunction<T>
        ensures { result ≡ [] }
    {
        PerFunction {
            values: IndexMap::new(alloc),
        }
    }

    /// How many there are.
    pub(crate) fn len(&self) -> usize
        ensures { result ≡ length self.now }
    {
        self.values.len()
    }

    /// Where a function's value stands, where there is one.
    pub(crate) fn place(&self, f: FunNo) -> Option<usize>
        ensures found { IfSome result (λ at. (value : T) × (slice_get self.now at ≡ Some (f, value))) }
        ensures none { IfNone result (¬ HasTable self.now f) }
    {
        self.values.get_index_of(&f)
    }

    /// Puts a function's value to the end, where it has none. After `Memory` nothing has changed.
    pub(crate) fn put(&mut self, f: FunNo, value: T) -> Result<(), Memory>
        requires { ¬ HasTable self.old f }
        ensures ok { OnOk result (self.new ≡ self.old ++ (f, value) ∷ []) }
        ensures err { OnErr result (self.new ≡ self.old) }
    {
        match self.values.insert(f, value) {
            Ok(_) => Ok(()),
            Err(_) => Err(Memory),
        }
    }

    /// The value at a place.
    pub(crate) fn value(&self, at: usize) -> &T
        requires { (f : FunNo) × (value : T) × (slice_get self.now at ≡ Some (f, value)) }
        ensures { (f : FunNo) (value : T) → slice_get self.now at ≡ Some (f, value) → result.now ≡ value }
    {
        &self.values[at]
    }

    /// Lets go of all values.
    pub(crate) fn clear(&mut self)
        ensures { self.new ≡ [] }
    {
        self.values.clear();
    }
}
