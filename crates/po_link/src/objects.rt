// The globals of a project.
ghost use Rattle.std.specs.Prelude.{◌≡◌, ◌≢◌, ◌++◌, ◌+◌, ◌∷◌, [], List, Some, cond, find, flat_map, option_copied, slice_get, length, IfOk, OnOk};
ghost use Rattle.std.specs.List.{list_any};
ghost use Rattle.po_symbols.specs.Names.{listed};
ghost use Rattle.po_link.specs.Joined.{globals_of, is_shared, joined};
ghost use Rattle.po_link.specs.Joined as joining;
ghost use Rattle.po_link.specs.Objects.{AreShared, AreObjects, AddsLocal, AddsFirst, AddsKnown};
ghost use Rattle.po_ir.specs.declared.project.Global.{Global as GlobalOf};

use po_base::{List, Memory};
use po_ir::{CTypeText, Global as Object, Unit, counted};
use po_symbols::{Named, add_under, note_name};
use std::alloc::Global;
use std::collections::BTreeMap;

/// The objects of globals, and the number of each global's object.
#[derive(Drop)]
pub(crate) struct Objects {
    /// The number of the object that other files see under a name.
    names: Named<u32>,
    pub(crate) numbers: List<u32>,
    pub(crate) globals: List<Object>,
}

/// The global once more. Its texts are shared.
fn copy(global: &Object) -> Result<Object, Memory>
    ensures { IfOk result (λ copied. copied ≡ global.now) }
{
    Ok(Object {
        name: global.name.share()?,
        size: global.size,
        align: global.align,
        constant: global.constant,
        local: global.local,
        defined: global.defined,
        ty: CTypeText {
            text: global.ty.text.share()?,
        },
    })
}

fn add_globals(all: &mut List<Object>, globals: &[Object]) -> Result<(), Memory>
    ensures { OnOk result (all.new ≡ all.old ++ globals.now) }
{
    for global in globals {
        all.push(copy(global)?)?;
    }
    Ok(())
}

/// The globals of all files, by file and then by place in it.
fn all_globals(alloc: Global, units: &[Unit]) -> Result<List<Object>, Memory>
    ensures { IfOk result (λ all. all ≡ flat_map globals_of units.now) }
{
    let mut all = List::new(alloc);
    for unit in units {
        add_globals(&mut all, unit.globals.as_slice())?;
    }
    Ok(all)
}

/// Puts a global that other files see to those of its name.
fn add_shared(
    alloc: Global,
    shared: &mut Named<List<Object>>,
    global: &Object,
) -> Result<(), Memory>
    ensures { (before : List GlobalOf) → AreShared before shared.old → OnOk result (AreShared (before ++ global.now ∷ []) shared.new) }
{
    if global.local {
        return Ok(());
    }
    add_under(alloc, shared, &global.name, copy(global)?)
}

/// The globals that other files see, by their names.
fn all_shared(alloc: Global, all: &[Object]) -> Result<Named<List<Object>>, Memory>
    ensures { IfOk result (AreShared all.now) }
{
    let mut shared = BTreeMap::new(alloc);
    for global in all {
        add_shared(alloc, &mut shared, global)?;
    }
    Ok(shared)
}

fn has_size(global: &Object) -> bool
    ensures { result ≡ joining.has_size global.now }
{
    global.size != 0
}

fn defines_size(global: &Object) -> bool
    ensures { result ≡ joining.defines_size global.now }
{
    global.defined && has_size(global)
}

fn first_defining(same: &[Object]) -> Option<&Object>
    ensures { option_copied result ≡ find joining.defines_size same.now }
{
    same.iter().find(|global| defines_size(global))
}

fn first_sized(same: &[Object]) -> Option<&Object>
    ensures { option_copied result ≡ find joining.has_size same.now }
{
    same.iter().find(|global| has_size(global))
}

/// The global whose size, alignment and type the object has.
fn shape_of<'a>(first: &'a Object, same: &'a [Object]) -> &'a Object
    ensures { result.now ≡ joining.shape_of first.now same.now }
{
    if let Some(global) = first_defining(same) {
        return global;
    }
    if let Some(global) = first_sized(same) {
        return global;
    }
    first
}

fn is_constant(same: &[Object]) -> bool
    ensures { result ≡ list_any (λ (global : GlobalOf). global.constant) same.now }
{
    same.iter().any(|global| global.constant)
}

fn is_defined(same: &[Object]) -> bool
    ensures { result ≡ list_any (λ (global : GlobalOf). global.defined) same.now }
{
    same.iter().any(|global| global.defined)
}

/// What all globals of one name say of its object.
fn join(first: &Object, same: &[Object]) -> Result<Object, Memory>
    ensures { IfOk result (λ object. object ≡ joined first.now same.now) }
{
    let shape = shape_of(first, same);
    Ok(Object {
        name: first.name.share()?,
        size: shape.size,
        align: shape.align,
        constant: is_constant(same),
        local: first.local,
        defined: is_defined(same),
        ty: CTypeText {
            text: shape.ty.text.share()?,
        },
    })
}

fn add_local(objects: &mut Objects, global: &Object) -> Result<(), Memory>
    ensures { OnOk result (AddsLocal objects.old objects.new global.now) }
{
    objects.numbers.push(counted(objects.globals.len())?)?;
    objects.globals.push(copy(global)?)
}

fn add_first(objects: &mut Objects, global: &Object, same: &[Object]) -> Result<(), Memory>
    ensures { OnOk result (AddsFirst objects.old objects.new global.now (joined global.now same.now)) }
{
    let number = counted(objects.globals.len())?;
    note_name(&mut objects.names, &global.name, number)?;
    objects.numbers.push(number)?;
    objects.globals.push(join(global, same)?)
}

fn add_known(objects: &mut Objects, number: u32) -> Result<(), Memory>
    ensures { OnOk result (AddsKnown objects.old objects.new number) }
{
    objects.numbers.push(number)
}

/// The globals under a name.
fn under<'a>(shared: &'a Named<List<Object>>, global: &Object) -> &'a [Object]
    ensures { result.now ≡ listed shared.now global.now.name }
{
    match shared.get(&global.name) {
        Some(same) => same.as_slice(),
        None => &[],
    }
}

/// Numbers one global more, and adds its object where it is the first of it.
fn add_global(
    objects: &mut Objects,
    shared: &Named<List<Object>>,
    global: &Object,
) -> Result<(), Memory>
    ensures { (all : List GlobalOf) (place : _) → AreShared all shared.now → slice_get all place ≡ Some global.now → AreObjects all place objects.old → OnOk result (AreObjects all (place + 1) objects.new) }
{
    if global.local {
        return add_local(objects, global);
    }
    if let Some(number) = objects.names.get(&global.name) {
        let known = *number;
        return add_known(objects, known);
    }
    add_first(objects, global, under(shared, global))
}

/// The objects of the globals of all files. In time linear in their number but for the logarithm of the number of names.
pub(crate) fn all_objects(alloc: Global, units: &[Unit]) -> Result<Objects, Memory>
    ensures { IfOk result (λ objects. AreObjects (flat_map globals_of units.now) (length (flat_map globals_of units.now)) objects) }
{
    let all = all_globals(alloc, units)?;
    let shared = all_shared(alloc, all.as_slice())?;
    let mut objects = Objects {
        names: BTreeMap::new(alloc),
        numbers: List::new(alloc),
        globals: List::new(alloc),
    };
    for global in all.as_slice() {
        add_global(&mut objects, &shared, global)?;
    }
    Ok(objects)
}
