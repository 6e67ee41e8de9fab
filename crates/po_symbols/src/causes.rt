// Why files can't be joined.
ghost use Rattle.std.specs.Prelude.{◌≡◌, List, IfOk, OnOk};
ghost use Rattle.std.specs.Result.{IfErr};
ghost use Rattle.po_ir.specs.declared.unit.Unit.{Unit as UnitOf};
ghost use Rattle.po_symbols.specs.Linking.{AreTwoBodies, AreClashing, NoCause, IsRefused};
ghost use Rattle.po_symbols.specs.Said.{AreBodies, AreTypes};
ghost use Rattle.po_symbols.specs.Causes.{IsFound};
ghost use Rattle.po_symbols.specs.Causes as causes;

use crate::bodies::{Bodies, all_bodies};
use crate::link_fail::LinkFail;
use crate::pairs::{first_clash, first_two};
use crate::types::{Types, all_types};
use po_base::{FileNo, Memory, Text};
use po_ir::Unit;
use std::alloc::Global;
use std::cmp::Ordering;

/// A name for which two files can't be joined.
#[derive(Drop)]
pub(crate) struct Cause {
    name: Text,
    a: FileNo,
    b: FileNo,
}

fn cause_of(name: &Text, pair: (u32, u32)) -> Result<Cause, Memory>
    ensures { IfOk result (λ c. (c.name ≡ name.now) × (c.a.0 ≡ pair.0) × (c.b.0 ≡ pair.1)) }
{
    Ok(Cause {
        name: name.share()?,
        a: FileNo(pair.0),
        b: FileNo(pair.1),
    })
}

/// The least name that two files give bodies.
fn least_of_bodies(said: &Bodies) -> Result<Option<Cause>, Memory>
    ensures { (units : List UnitOf) → AreBodies units said.now → IfOk result (IsFound (AreTwoBodies units)) }
{
    for (name, files) in said.iter() {
        if let Some(pair) = first_two(files.as_slice()) {
            return Ok(Some(cause_of(name, pair)?));
        }
    }
    Ok(None)
}

/// The least name that two files declare with types that differ.
fn least_of_types(said: &Types) -> Result<Option<Cause>, Memory>
    ensures { (units : List UnitOf) → AreTypes units said.now → IfOk result (IsFound (AreClashing units)) }
{
    for (name, files) in said.iter() {
        if let Some(pair) = first_clash(files.as_slice()) {
            return Ok(Some(cause_of(name, pair)?));
        }
    }
    Ok(None)
}

fn two_bodies(cause: Cause) -> LinkFail
    ensures { result ≡ causes.two_bodies cause }
{
    LinkFail::TwoBodies {
        name: cause.name,
        a: cause.a,
        b: cause.b,
    }
}

fn clash(cause: Cause) -> LinkFail
    ensures { result ≡ causes.clash cause }
{
    LinkFail::Clash {
        name: cause.name,
        a: cause.a,
        b: cause.b,
    }
}

/// The answer of the lesser name; that of two bodies where it is one.
fn lesser(bodies: Cause, types: Cause) -> LinkFail
    ensures { result ≡ causes.lesser bodies types }
{
    match types.name.cmp(&bodies.name) {
        Ordering::Less => clash(types),
        _ => two_bodies(bodies),
    }
}

/// Why the files can't be joined, of the least names of both causes.
fn answer(bodies: Option<Cause>, types: Option<Cause>) -> Option<LinkFail>
    ensures { result ≡ causes.answer bodies types }
{
    match bodies {
        Some(two) => match types {
            Some(differing) => Some(lesser(two, differing)),
            None => Some(two_bodies(two)),
        },
        None => match types {
            Some(differing) => Some(clash(differing)),
            None => None,
        },
    }
}

/// Looks for an external name for which two files can't be joined. In time linear in what the files say of names, but for
/// the logarithm of their number.
pub fn check_names(alloc: Global, units: &[Unit]) -> Result<(), LinkFail>
    ensures ok { OnOk result (NoCause units.now) }
    ensures err { IfErr result (IsRefused units.now) }
{
    let bodies = least_of_bodies(&all_bodies(alloc, units)?)?;
    let types = least_of_types(&all_types(alloc, units)?)?;
    match answer(bodies, types) {
        Some(fail) => Err(fail),
        None => Ok(()),
    }
}
