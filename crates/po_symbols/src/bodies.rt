// The files that give bodies to names.
ghost use Rattle.std.specs.Prelude.{◌≡◌, ◌++◌, ◌&&◌, not, ℕ, List, flat_map, IfOk, OnOk};
ghost use Rattle.po_symbols.specs.Names.{listed};
ghost use Rattle.po_symbols.specs.Linking.{bodies};
ghost use Rattle.po_symbols.specs.Said.{marks, function_marks, global_marks, AreBodies};

use crate::names::{Named, add_under};
use po_base::{List, Memory};
use po_ir::{Function, Global as Object, Unit, counted};
use std::alloc::Global;
use std::collections::BTreeMap;

/// The files that give a body to each name.
pub(crate) type Bodies = Named<List<u32>>;

fn note_function(
    alloc: Global,
    said: &mut Bodies,
    file: u32,
    function: &Function,
) -> Result<(), Memory>
    ensures { OnOk result ((q : List ℕ) → listed said.new q ≡ listed said.old q ++ function_marks q file function.now) }
{
    if function.local {
        return Ok(());
    }
    add_under(alloc, said, &function.name, file)
}

fn note_functions(
    alloc: Global,
    said: &mut Bodies,
    file: u32,
    functions: &[Function],
) -> Result<(), Memory>
    ensures { OnOk result ((q : List ℕ) → listed said.new q ≡ listed said.old q ++ flat_map (function_marks q file) functions.now) }
{
    for function in functions {
        note_function(alloc, said, file, function)?;
    }
    Ok(())
}

fn gives_body(global: &Object) -> bool
    ensures { result ≡ (not global.now.local && global.now.defined) }
{
    !global.local && global.defined
}

fn note_global(alloc: Global, said: &mut Bodies, file: u32, global: &Object) -> Result<(), Memory>
    ensures { OnOk result ((q : List ℕ) → listed said.new q ≡ listed said.old q ++ global_marks q file global.now) }
{
    if !gives_body(global) {
        return Ok(());
    }
    add_under(alloc, said, &global.name, file)
}

fn note_globals(
    alloc: Global,
    said: &mut Bodies,
    file: u32,
    globals: &[Object],
) -> Result<(), Memory>
    ensures { OnOk result ((q : List ℕ) → listed said.new q ≡ listed said.old q ++ flat_map (global_marks q file) globals.now) }
{
    for global in globals {
        note_global(alloc, said, file, global)?;
    }
    Ok(())
}

fn note_unit(alloc: Global, said: &mut Bodies, file: u32, unit: &Unit) -> Result<(), Memory>
    ensures { OnOk result ((q : List ℕ) → listed said.new q ≡ listed said.old q ++ marks q file (bodies unit.now)) }
{
    note_functions(alloc, said, file, unit.functions.as_slice())?;
    note_globals(alloc, said, file, unit.globals.as_slice())
}

/// The files that give bodies to names, by name. In time linear in their functions and globals, but for the logarithm of the
/// number of names.
pub(crate) fn all_bodies(alloc: Global, units: &[Unit]) -> Result<Bodies, Memory>
    ensures { IfOk result (AreBodies units.now) }
{
    let mut said = BTreeMap::new(alloc);
    for (place, unit) in units.iter().enumerate() {
        note_unit(alloc, &mut said, counted(place)?, unit)?;
    }
    Ok(said)
}
