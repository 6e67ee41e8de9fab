// The functions and library functions that files see of each other.
ghost use Rattle.std.specs.Prelude.{◌≡◌, ◌++◌, ◌+◌, ◌∷◌, [], List, flat_map, IfOk, OnOk};
ghost use Rattle.po_link.specs.Joined.{functions_of, libs_of};
ghost use Rattle.po_link.specs.Noted.{AreSeen, AreNoted};
ghost use Rattle.po_ir.specs.declared.project.Function.{Function as FunctionOf};
ghost use Rattle.po_ir.specs.declared.unit.LibUse.{LibUse as LibUseOf};

use po_base::Memory;
use po_ir::{Effects, Function, LibUse, Unit};
use po_symbols::{Named, note};
use std::alloc::Global;
use std::collections::BTreeMap;

/// The numbers of the functions that other files see, by their names.
#[derive(Drop)]
pub(crate) struct Seen {
    pub(crate) numbers: Named<u32>,
    /// How many functions there are so far.
    pub(crate) count: u32,
}

/// The number that follows. Past 32 bits it is want of memory: so many items take more than 2^36 bytes.
pub(crate) fn following(number: u32) -> Result<u32, Memory>
    ensures { IfOk result (λ next. next ≡ number + 1) }
{
    match number.checked_add(1) {
        Some(next) => Ok(next),
        None => Err(Memory),
    }
}

fn note_function(seen: &mut Seen, function: &Function) -> Result<(), Memory>
    ensures { (before : List FunctionOf) → AreSeen seen.old before → OnOk result (AreSeen seen.new (before ++ function.now ∷ [])) }
{
    let number = seen.count;
    seen.count = following(number)?;
    if function.local {
        return Ok(());
    }
    note(&mut seen.numbers, function.name.share()?, number)
}

fn note_functions(seen: &mut Seen, functions: &[Function]) -> Result<(), Memory>
    ensures { (before : List FunctionOf) → AreSeen seen.old before → OnOk result (AreSeen seen.new (before ++ functions.now)) }
{
    for function in functions {
        note_function(seen, function)?;
    }
    Ok(())
}

/// The functions of all files that other files see.
pub(crate) fn seen_functions(alloc: Global, units: &[Unit]) -> Result<Seen, Memory>
    ensures { IfOk result (λ seen. AreSeen seen (flat_map functions_of units.now)) }
{
    let mut seen = Seen {
        numbers: BTreeMap::new(alloc),
        count: 0,
    };
    for unit in units {
        note_functions(&mut seen, unit.functions.as_slice())?;
    }
    Ok(seen)
}

fn note_lib(noted: &mut BTreeMap<u32, Effects>, used: &LibUse) -> Result<(), Memory>
    ensures { (before : List LibUseOf) → AreNoted noted.old before → OnOk result (AreNoted noted.new (before ++ used.now ∷ [])) }
{
    note(noted, used.lib.0, used.effects)
}

fn note_libs(noted: &mut BTreeMap<u32, Effects>, libs: &[LibUse]) -> Result<(), Memory>
    ensures { (before : List LibUseOf) → AreNoted noted.old before → OnOk result (AreNoted noted.new (before ++ libs.now)) }
{
    for used in libs {
        note_lib(noted, used)?;
    }
    Ok(())
}

/// The effects of the library functions that the files call.
pub(crate) fn library(alloc: Global, units: &[Unit]) -> Result<BTreeMap<u32, Effects>, Memory>
    ensures { IfOk result (λ noted. AreNoted noted (flat_map libs_of units.now)) }
{
    let mut noted = BTreeMap::new(alloc);
    for unit in units {
        note_libs(&mut noted, unit.libs.as_slice())?;
    }
    Ok(noted)
}
