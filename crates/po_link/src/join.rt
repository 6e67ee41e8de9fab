// The parts of a project, put together file by file.
ghost use Rattle.std.specs.Prelude.{◌≡◌, ◌++◌, ◌+◌, ℕ, List, flat_map, length, slice_get, unwrap_or, IfOk, OnOk};
ghost use Rattle.po_ir.specs.declared.unit.Unit.{Unit as UnitOf};
ghost use Rattle.po_ir.specs.General.{each_from};
ghost use Rattle.po_link.specs.Joined.{functions_of, globals_of, global_of, opaque_of, IsJoined, IsLinked};
ghost use Rattle.po_link.specs.Noted.{AreSeen};
ghost use Rattle.po_link.specs.Objects.{number_at};
ghost use Rattle.po_link.specs.Parted.{AreParts};

use crate::objects::{Objects, all_objects};
use crate::rename::join_functions;
use crate::scope::scope_of;
use crate::seen::{Seen, library, seen_functions};
use po_arith::Target;
use po_base::{FileNo, List, Memory, Spot, Text};
use po_ir::{Function, Piece3, Project, Unit, counted, function_effects};
use std::alloc::Global;

/// The parts of a project that stand by file and then by place in it.
#[derive(Drop)]
pub(crate) struct Parts {
    files: List<Text>,
    opaque: List<Spot>,
    functions: List<Function>,
    texts: List<Text>,
}

fn add_piece(opaque: &mut List<Spot>, piece: &Piece3) -> Result<(), Memory>
    ensures { OnOk result (opaque.new ≡ opaque.old ++ opaque_of piece.now) }
{
    match piece {
        Piece3::Opaque(spot) => opaque.push(Spot {
            file: spot.file.share()?,
            line: spot.line,
        }),
        _ => Ok(()),
    }
}

fn add_opaque(opaque: &mut List<Spot>, pieces: &[Piece3]) -> Result<(), Memory>
    ensures { OnOk result (opaque.new ≡ opaque.old ++ flat_map opaque_of pieces.now) }
{
    for piece in pieces {
        add_piece(opaque, piece)?;
    }
    Ok(())
}

fn add_texts(texts: &mut List<Text>, more: &[Text]) -> Result<(), Memory>
    ensures { OnOk result (texts.new ≡ texts.old ++ more.now) }
{
    for text in more {
        texts.push(text.share()?)?;
    }
    Ok(())
}

/// Adds the parts of a file whose globals have these numbers.
fn add_unit(
    alloc: Global,
    parts: &mut Parts,
    seen: &Seen,
    globals: &[u32],
    unit: Unit,
) -> Result<(), Memory>
    ensures { (units : List UnitOf) (file : ℕ) → slice_get units file ≡ Some unit → AreSeen seen.now (flat_map functions_of units) → ((place : ℕ) → unwrap_or (slice_get globals.now place) place ≡ global_of units file unit place) → AreParts units file parts.old → OnOk result (AreParts units (file + 1) parts.new) }
{
    let file = FileNo(counted(parts.files.len())?);
    let first = counted(parts.functions.len())?;
    let texts = counted(parts.texts.len())?;
    let scope = scope_of(alloc, seen, globals, first, texts, &unit)?;
    add_opaque(&mut parts.opaque, unit.pieces.as_slice())?;
    add_texts(&mut parts.texts, unit.texts.as_slice())?;
    parts.files.push(unit.name.share()?)?;
    let Unit { functions, .. } = unit;
    join_functions(alloc, &scope, file, functions, &mut parts.functions)
}

fn join_units(
    alloc: Global,
    units: List<Unit>,
    seen: &Seen,
    numbers: &[u32],
) -> Result<Parts, Memory>
    requires seen { AreSeen seen.now (flat_map functions_of units) }
    requires numbers { numbers.now ≡ each_from (number_at (flat_map globals_of units)) 0 (flat_map globals_of units) }
    ensures { IfOk result (AreParts units (length units)) }
{
    let mut parts = Parts {
        files: List::new(alloc),
        opaque: List::new(alloc),
        functions: List::new(alloc),
        texts: List::new(alloc),
    };
    let mut rest = numbers;
    for unit in units.into_vec() {
        let (globals, others) = rest.split_at(unit.globals.len());
        add_unit(alloc, &mut parts, seen, globals, unit)?;
        rest = others;
    }
    Ok(parts)
}

/// The project of these files without its effects.
fn join_parts(alloc: Global, units: List<Unit>, target: Target) -> Result<Project, Memory>
    ensures { IfOk result (IsJoined units target) }
{
    let seen = seen_functions(alloc, units.as_slice())?;
    let Objects {
        numbers,
        globals,
        ..
    } = all_objects(alloc, units.as_slice())?;
    let parts = join_units(alloc, units, &seen, numbers.as_slice())?;
    let Parts {
        files,
        opaque,
        functions,
        texts,
    } = parts;
    Ok(Project {
        files,
        opaque,
        functions,
        globals,
        texts,
        effects: List::new(alloc),
        target,
    })
}

/// The project of these files, where nothing keeps them from being joined: where no external name has two bodies or types that
/// differ. Memory is the one other answer. In time linear in the sizes of the files but for the logarithm of the number of names.
pub(crate) fn join_files(
    alloc: Global,
    units: List<Unit>,
    target: Target,
) -> Result<Project, Memory>
    ensures { IfOk result (IsLinked units target) }
{
    let library = library(alloc, units.as_slice())?;
    let mut project = join_parts(alloc, units, target)?;
    let effects = function_effects(alloc, &library, &project)?;
    project.effects = effects;
    Ok(project)
}
