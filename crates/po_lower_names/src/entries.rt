// Entries of a scope, found by their names.
ghost use Rattle.std.specs.Prelude.{◌≡◌, ◌-◌, ◌++◌, ◌∷◌, [], length, take, Some, IfOk, OnOk, OnErr};
ghost use Rattle.po_types.specs.Tables.{found as number_of};
ghost use Rattle.po_lower_names.specs.Indexed.{last_of as last, AreNumbered, IsIndexed, KeepsIndex, AddsToIndex, TakesFromIndex};

use po_base::{List, Memory, Text};
use po_lowering::Var;
use po_types::Table;
use std::alloc::Global;

/// The last of these variables.
pub(crate) fn last_of(variables: &List<Var>) -> Option<Var>
    ensures { result ≡ last variables.now }
{
    let count = variables.len();
    if count == 0 {
        return None;
    }
    Some(variables.as_slice()[count - 1])
}

/// Keeps no variables at one more number. After `Memory` nothing has changed.
fn add_number(alloc: Global, kept: &mut Vec<List<Var>>) -> Result<(), Memory>
    ensures ok { OnOk result (kept.new.items ≡ kept.old.items ++ [] ∷ []) }
    ensures err { OnErr result (kept.new.items ≡ kept.old.items) }
{
    match kept.push(List::new(alloc)) {
        Ok(()) => Ok(()),
        Err(_) => Err(Memory),
    }
}

/// The number of a name, which gets one where it has none yet.
fn number(
    alloc: Global,
    numbers: &mut Table<usize>,
    kept: &mut Vec<List<Var>>,
    name: &Text,
) -> Result<usize, Memory>
    ensures keeps { KeepsIndex numbers.old kept.old.items numbers.new kept.new.items }
    ensures there { IfOk result (λ k. number_of numbers.new name.now ≡ Some k) }
    ensures within { AreNumbered numbers.old kept.old.items → AreNumbered numbers.new kept.new.items }
{
    if let Some(k) = numbers.find(name) {
        return Ok(*k);
    }
    let k = kept.len();
    add_number(alloc, kept)?;
    numbers.add(name.share()?, k)?;
    Ok(k)
}

/// Keeps one more variable of a name.
pub(crate) fn keep(
    alloc: Global,
    numbers: &mut Table<usize>,
    kept: &mut Vec<List<Var>>,
    name: &Text,
    variable: Var,
) -> Result<(), Memory>
    requires { AreNumbered numbers.old kept.old.items }
    ensures ok { OnOk result (AddsToIndex name.now variable numbers.old kept.old.items numbers.new kept.new.items) }
    ensures err { OnErr result (KeepsIndex numbers.old kept.old.items numbers.new kept.new.items) }
{
    let k = number(alloc, numbers, kept, name)?;
    kept[k].push(variable)?;
    Ok(())
}

/// Lets go of the last variable of a name.
fn forget(numbers: &Table<usize>, kept: &mut Vec<List<Var>>, name: &Text)
    requires { AreNumbered numbers.now kept.old.items }
    ensures { TakesFromIndex name.now numbers.now kept.old.items kept.new.items }
{
    if let Some(k) = numbers.find(name) {
        kept[*k].pop();
    }
}

/// Lets go of the last entry, where there is one.
fn drop_last(entries: &mut List<(Text, Var)>, numbers: &Table<usize>, kept: &mut Vec<List<Var>>)
    requires { IsIndexed entries.old numbers.now kept.old.items }
    ensures index { IsIndexed entries.new numbers.now kept.new.items }
    ensures entries { entries.new ≡ take (length entries.old - 1) entries.old }
{
    if let Some((name, _)) = entries.pop() {
        forget(numbers, kept, &name);
    }
}

/// Lets go of all entries but the first ones.
pub(crate) fn shorten(
    entries: &mut List<(Text, Var)>,
    numbers: &Table<usize>,
    kept: &mut Vec<List<Var>>,
    count: usize,
)
    requires { IsIndexed entries.old numbers.now kept.old.items }
    ensures index { IsIndexed entries.new numbers.now kept.new.items }
    ensures entries { entries.new ≡ take count entries.old }
{
    while entries.len() > count {
        drop_last(entries, numbers, kept);
    }
}
