// The types that files give to names.
ghost use Rattle.std.specs.Prelude.{◌≡◌, ◌++◌, ℕ, List, false, cond, bytes_eq, IfOk, OnOk};
ghost use Rattle.po_symbols.specs.Names.{listed};
ghost use Rattle.po_symbols.specs.Said.{ends_with_file, with_type, typed_in, AreTypes};

use crate::names::{Named, put_under, take_under};
use crate::pairs::Typed;
use po_base::{List, Memory, Text};
use po_ir::{CTypeText, Unit, counted};
use std::alloc::Global;
use std::collections::BTreeMap;

/// The files that declare each name, and the types that it has in them.
pub(crate) type Types = Named<List<Typed>>;

fn ends_with(said: &List<Typed>, file: u32) -> bool
    ensures { result ≡ ends_with_file said.now file }
{
    match said.as_slice().last() {
        Some(last) => last.0 == file,
        None => false,
    }
}

fn add_type(said: &mut List<Typed>, file: u32, spelling: &Text) -> Result<(), Memory>
    ensures { OnOk result (said.new ≡ with_type said.old file spelling.now) }
{
    if ends_with(said, file) {
        return Ok(());
    }
    said.push((file, spelling.share()?))
}

fn note_type(
    alloc: Global,
    said: &mut Types,
    file: u32,
    declared: &(Text, CTypeText),
) -> Result<(), Memory>
    ensures { OnOk result ((q : List ℕ) → listed said.new q ≡ cond (bytes_eq declared.now.0 q) (with_type (listed said.old q) file declared.now.1.text) (listed said.old q)) }
{
    let mut types = take_under(alloc, said, &declared.0);
    add_type(&mut types, file, &declared.1.text)?;
    put_under(said, &declared.0, types)
}

fn note_types(
    alloc: Global,
    said: &mut Types,
    file: u32,
    declared: &[(Text, CTypeText)],
) -> Result<(), Memory>
    ensures { OnOk result ((q : List ℕ) → ends_with_file (listed said.old q) file ≡ false → listed said.new q ≡ listed said.old q ++ typed_in q file declared.now) }
{
    for one in declared {
        note_type(alloc, said, file, one)?;
    }
    Ok(())
}

/// The files that declare names, by name. In time linear in their declarations, but for the logarithm of the number of names.
pub(crate) fn all_types(alloc: Global, units: &[Unit]) -> Result<Types, Memory>
    ensures { IfOk result (AreTypes units.now) }
{
    let mut said = BTreeMap::new(alloc);
    for (place, unit) in units.iter().enumerate() {
        note_types(alloc, &mut said, counted(place)?, unit.declared.as_slice())?;
    }
    Ok(said)
}
