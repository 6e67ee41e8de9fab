// Ordered items without doubles, seen as the ascending list of them.
ghost use Rattle.std.specs.Prelude.{◌≡◌, ◌^◌, ◌<◌, [], length, not, IfOk, OnOk, OnErr};
ghost use Rattle.std.specs.List.{list_any};
ghost use Rattle.std.specs.List.Sorted.{IsStrictlySortedBy};
ghost use Rattle.std.specs.Map.Iter.{ShowsInOrder, ShowsInReverse, deref};
ghost use Rattle.std.specs.BTreeMap.{is_at};
ghost use Rattle.std.specs.BTreeMap.Range.{IsLeBy, IsLtBy};
ghost use Rattle.std.specs.BTreeSet as set;
ghost use Rattle.std.specs.Set.{remove_key};
ghost use Rattle.po_base.specs.Between.{IsBetween};

use crate::memory::Memory;
use std::alloc::Global;
use std::collections::BTreeSet;
use std::collections::btree_set::{Iter, Range};
use std::marker::Model;
use std::ops::RangeBounds;

/// Items without doubles in the order of their type, which contracts see as the ascending list of them.
/// Putting in and looking up take time in the logarithm of the items' number.
#[derive(Drop)]
pub struct OrdList<T: Ord> {
    items: BTreeSet<T>,
}

impl<T: Ord> Model for OrdList<T> {
    ghost use Rattle.std.specs.Prelude.{List};
    ghost use Rattle.std.specs.Coded.{coded_list};

    ghost Value = { List T };

    ghost coded = { coded_list T.code };

    ghost view = { λ o. o.items.keys };
}

impl<T: Ord + Drop> OrdList<T> {
    /// No items. It takes no memory yet.
    pub fn new(alloc: Global) -> OrdList<T>
        ensures { result ≡ [] }
    {
        OrdList {
            items: BTreeSet::new(alloc),
        }
    }

    /// Puts `x` at its place and says whether it was new. Where an equal item is there, nothing changes. After
    /// `Memory` nothing has changed.
    pub fn insert(&mut self, x: T) -> Result<bool, Memory>
        ensures ok { OnOk result (self.new ≡ set.insert_key T.cmp self.old x) }
        ensures added { IfOk result (λ added. added ≡ not (list_any (is_at (T.cmp x)) self.old)) }
        ensures err { OnErr result (self.new ≡ self.old) }
        ensures ascending { IsStrictlySortedBy T.cmp self.new }
    {
        match self.items.insert(x) {
            Ok(added) => Ok(added),
            Err(_) => Err(Memory),
        }
    }

    /// Takes the item equal to `x` away, and says whether there was one.
    pub fn remove(&mut self, x: &T) -> bool
        ensures items { self.new ≡ remove_key (is_at (T.cmp x.now)) self.old }
        ensures removed { result ≡ list_any (is_at (T.cmp x.now)) self.old }
        ensures ascending { IsStrictlySortedBy T.cmp self.new }
    {
        self.items.remove(x)
    }

    /// Whether an item equal to `x` is there.
    pub fn has(&self, x: &T) -> bool
        ensures { result ≡ list_any (is_at (T.cmp x.now)) self.now }
    {
        self.items.contains(x)
    }

    /// How many items there are.
    pub fn len(&self) -> usize
        ensures count { result ≡ length self.now }
        ensures ascending { IsStrictlySortedBy T.cmp self.now }
    {
        self.items.len()
    }

    /// The items one after the other, the least first.
    pub fn iter(&self) -> Iter<'_, T>
        ensures rest { result ≡ self.now }
        ensures runs { ShowsInOrder (deref {X = T}) }
        ensures ascending { IsStrictlySortedBy T.cmp self.now }
        ensures fits { length self.now < 2 ^ 63 }
    {
        self.items.iter()
    }

    /// The items between two bounds, the least first and the greatest from behind. Finding them takes time in the
    /// logarithm of the items' number.
    pub fn range<R: RangeBounds<T> + Drop>(&self, bounds: R) -> Range<'_, T>
        requires { R.is_forward bounds (IsLeBy T.cmp) (IsLtBy T.cmp) }
        ensures between { R.has_bounds bounds → IsBetween T.cmp (R.start_bound bounds) (R.end_bound bounds) self.now result }
        ensures runs { ShowsInOrder (deref {X = T}) }
        ensures runs_back { ShowsInReverse (deref {X = T}) }
        ensures ascending { IsStrictlySortedBy T.cmp self.now }
        ensures fits { length result < 2 ^ 63 }
    {
        self.items.range(bounds)
    }
}
