// Maps by name.
ghost use Rattle.std.specs.Prelude.{◌≡◌, ◌++◌, ◌∷◌, [], ℕ, List, Some, None, false, cond, bytes_eq, OnOk, option_map};
ghost use Rattle.std.specs.Option.{option_or};
ghost use Rattle.std.specs.Ordering.{is_eq};
ghost use Rattle.std.specs.BTreeMap as tree;
ghost use Rattle.po_symbols.specs.Names.{named, listed};

use po_base::{List, Memory, Text};
use std::alloc::Global;
use std::collections::BTreeMap;

/// A map whose keys are names.
pub type Named<V> = BTreeMap<Text, V>;

/// Puts a value under a key that has none yet. In time logarithmic in the number of keys.
pub fn note<K: Ord + Drop, V: Drop>(
    map: &mut BTreeMap<K, V>,
    key: K,
    value: V,
) -> Result<(), Memory>
    ensures { OnOk result ((q : _) → tree.get K.cmp map.new q ≡ option_or (tree.get K.cmp map.old q) (cond (is_eq (K.cmp key q)) (Some value) None)) }
{
    if map.contains_key(&key) {
        return Ok(());
    }
    match map.insert(key, value) {
        Ok(_) => Ok(()),
        Err(_) => Err(Memory),
    }
}

/// Puts a value under a name that has none yet. In time logarithmic in the number of names.
pub fn note_name<V: Drop>(map: &mut Named<V>, name: &Text, value: V) -> Result<(), Memory>
    ensures { OnOk result ((q : List ℕ) → named map.new q ≡ option_or (named map.old q) (cond (bytes_eq name.now q) (Some value) None)) }
{
    note(map, name.share()?, value)
}

/// Takes the list under a name out of the map; an empty one where there is none.
pub(crate) fn take_under<T: Drop>(alloc: Global, map: &mut Named<List<T>>, name: &Text) -> List<T>
    ensures items { result ≡ listed map.old name.now }
    ensures others { (q : List ℕ) → bytes_eq name.now q ≡ false → named map.new q ≡ named map.old q }
{
    match map.remove(name) {
        Some(items) => items,
        None => List::new(alloc),
    }
}

/// Puts a list under a name in place of what stood there.
pub(crate) fn put_under<T: Drop>(
    map: &mut Named<List<T>>,
    name: &Text,
    items: List<T>,
) -> Result<(), Memory>
    ensures { OnOk result ((q : List ℕ) → named map.new q ≡ cond (bytes_eq name.now q) (Some items) (named map.old q)) }
{
    match map.insert(name.share()?, items) {
        Ok(_) => Ok(()),
        Err(_) => Err(Memory),
    }
}

/// Puts an item at the end of the list under a name. In time logarithmic in the number of names.
pub fn add_under<T: Drop>(
    alloc: Global,
    map: &mut Named<List<T>>,
    name: &Text,
    item: T,
) -> Result<(), Memory>
    ensures { OnOk result ((q : List ℕ) → listed map.new q ≡ listed map.old q ++ cond (bytes_eq name.now q) (item ∷ []) []) }
{
    let mut items = take_under(alloc, map, name);
    items.push(item)?;
    put_under(map, name, items)
}
