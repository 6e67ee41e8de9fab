// Lists that never change and that many can hold.
ghost use Rattle.std.specs.Prelude.{◌≡◌, length, slice_get, ◌↔◌, IsTrue, IfOk, [], ◌<◌, OnSome};
ghost use Rattle.std.specs.Option.{option_copied};
ghost use Rattle.std.specs.Cmp.Lexicographic.{pointwise, slice_cmp, slice_partial_cmp, lists_equiv, lists_agrees, lists_total, lists_ties, lists_per, lists_po};

use crate::list::List;
use crate::memory::Memory;
use std::alloc::Global;
use std::cmp::Ordering;
use std::marker::Model;
use std::sync::ArcSlice;

/// Items that never change, which contracts see as the list of them.
///
/// They stand once in memory, however often the list is handed on by [`SharedList::share`], so a state of
/// an analysis that holds many lists is copied without asking for memory. A list takes 8 bytes where it stands.
#[derive(Debug, Drop)]
pub struct SharedList<T> {
    items: ArcSlice<T>,
}

impl<T> Model for SharedList<T> {
    ghost use Rattle.std.specs.Prelude.{List};
    ghost use Rattle.std.specs.Coded.{coded_list};
    ghost use Rattle.std.specs.Arc.{arc_slice_items};

    ghost Value = { List T };

    ghost coded = { coded_list T.code };

    ghost view = { λ s. arc_slice_items s.items };
}

impl<T: Drop> SharedList<T> {
    /// The list of a list's items, which aren't copied. After `Memory` they are dropped.
    pub fn from_list(items: List<T>) -> Result<SharedList<T>, Memory>
        ensures { IfOk result (λ shared. shared ≡ items) }
    {
        let items = ArcSlice::from_vec(items.into_vec())?;
        Ok(SharedList { items })
    }

    /// The same list once more, in constant time and without asking for memory. `Memory` where the count of
    /// its owners is full.
    pub fn share(&self) -> Result<SharedList<T>, Memory>
        ensures { IfOk result (λ shared. shared ≡ self.now) }
    {
        let items = self.items.clone()?;
        Ok(SharedList { items })
    }
}

impl<T: Copy> SharedList<T> {
    /// The list of a slice's items. Time and memory are those of one copy.
    pub fn from_slice(alloc: Global, items: &[T]) -> Result<SharedList<T>, Memory>
        ensures { IfOk result (λ shared. shared ≡ items.now) }
    {
        let items = ArcSlice::from_vec(Vec::from_slice(alloc, items)?)?;
        Ok(SharedList { items })
    }
}

impl<T> SharedList<T> {
    /// The items as a slice.
    pub fn as_slice(&self) -> &[T]
        ensures { result.now ≡ self.now }
    {
        &self.items
    }

    /// How many items there are.
    pub fn len(&self) -> usize
        ensures { result ≡ length self.now }
    {
        self.as_slice().len()
    }

    /// Whether there is no item.
    pub fn is_empty(&self) -> bool
        ensures { IsTrue result ↔ (self.now ≡ []) }
    {
        self.as_slice().is_empty()
    }

    /// The item at a place, where there is one, in constant time.
    pub fn get(&self, at: usize) -> Option<&T>
        ensures value { option_copied result ≡ slice_get self.now at }
        ensures within { OnSome result (at < length self.now) }
    {
        self.as_slice().get(at)
    }
}

impl<T: PartialEq> PartialEq for SharedList<T> {
    ghost eq = { pointwise T.eq };

    ghost laws = { lists_per T.laws };

    fn eq(&self, other: &SharedList<T>) -> bool {
        self.as_slice() == other.as_slice()
    }
}

impl<T: Eq> Eq for SharedList<T> {
    ghost laws = { lists_equiv T.Eq.laws };
}

impl<T: PartialOrd> PartialOrd for SharedList<T> {
    ghost partial_cmp = { slice_partial_cmp T.partial_cmp };

    ghost laws = { lists_po T.PartialOrd.laws };

    fn partial_cmp(&self, other: &SharedList<T>) -> Option<Ordering> {
        self.as_slice().partial_cmp(other.as_slice())
    }
}

impl<T: Ord> Ord for SharedList<T> {
    ghost cmp = { slice_cmp T.cmp };

    ghost total = { lists_total T.total };

    ghost matches_partial_cmp = { lists_agrees T.matches_partial_cmp };

    ghost matches_eq = { lists_ties T.cmp T.matches_eq };

    fn cmp(&self, other: &SharedList<T>) -> Ordering {
        self.as_slice().cmp(other.as_slice())
    }
}
