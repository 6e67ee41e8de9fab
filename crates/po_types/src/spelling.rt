// The spelling of types, by which those of two files are compared.
ghost use Rattle.std.specs.Prelude.{◌≡◌, ◌++◌, ◌∷◌, [], ◌≤◌, ◌<◌, length, codes, decimal, cond, map, get_or, IfOk, OnOk, MatchOption, IsTrue, ◌↔◌, Option as Maybe, None as Nothing, List as Bytes, ℕ};
ghost use Rattle.std.specs.Option.{option_copied};
ghost use Rattle.po_types.specs.declared.ctype.CType.TheVariants as c;
ghost use Rattle.po_types.specs.Spelling.{Spelled, AllSpelled, Writes, separator, integer_text, size_text, end_text};
ghost use Rattle.po_types.specs.Nesting.{IsWellFounded};

use crate::ctype::CType;
use crate::env::Env;
use crate::table::Table;
use po_arith::IntType;
use po_base::{Memory, Out, Text};
use po_ir::CTypeText;
use std::alloc::Global;

/// The spelling of a type, by which types of two files are compared. Takes time in the length of the spelling. A recursion goes only
/// into parameters, and into the members of structs without a tag.
pub fn spell_type(alloc: Global, t: &CType, env: &Env) -> Result<CTypeText, Memory>
    requires { IsWellFounded env.now }
    ensures { IfOk result (λ spelling. Spelled env.now t.now spelling.text) }
{
    let mut out = Out::new(alloc);
    spell(&mut out, t, env)?;
    let text = Text::new(alloc, out.bytes())?;
    Ok(CTypeText { text })
}

/// Writes a type.
#[cycle(spelling)]
fn spell(out: &mut Out, t: &CType, env: &Env) -> Result<(), Memory>
    requires { IsWellFounded env.now }
    ensures { OnOk result (Writes (Spelled env.now t.now) out.old out.new) }
{
    let mut inner = t;
    loop {
        match inner {
            CType::Void => return out.add(b"void"),
            CType::Int(number) => return spell_integer(out, *number),
            CType::Ptr(to) => {
                out.add(b"*")?;
                inner = to.get();
            }
            CType::Array(element, count) => {
                spell_size(out, *count)?;
                inner = element.get();
            }
            CType::Struct(n) => return spell_struct(out, *n, env),
            CType::Fun(to, params, more) => {
                out.add(b"(")?;
                spell_params(out, params.get().as_slice(), env)?;
                spell_end(out, *more)?;
                inner = to.get();
            }
        }
    }
}

/// Writes a struct: by its tag, or else by its members.
#[cycle(spelling)]
fn spell_struct(out: &mut Out, n: u32, env: &Env) -> Result<(), Memory>
    requires { IsWellFounded env.now }
    ensures { OnOk result (Writes (Spelled env.now (c.Struct n)) out.old out.new) }
{
    match tag_of(env.names.as_slice(), n) {
        Some(tag) => {
            out.add(b"struct ")?;
            out.add(tag.bytes())
        }
        None => {
            out.add(b"struct{")?;
            spell_members(out, n, env)?;
            out.add(b"}")
        }
    }
}

/// Writes the types of the members of a struct without a tag, with commas between them.
#[cycle(spelling)]
fn spell_members(out: &mut Out, n: u32, env: &Env) -> Result<(), Memory>
    requires founded { IsWellFounded env.now }
    requires untagged { get_or env.now.names n Nothing ≡ Nothing }
    ensures { OnOk result (Writes (AllSpelled env.now (map (λ m. m.1) (get_or env.now.members n []))) out.old out.new) }
{
    match members_of(env.members.as_slice(), n) {
        None => Ok(()),
        Some(members) => {
            for i in 0..members.len() {
                separate(out, i)?;
                spell(out, members.value_at(i), env)?;
            }
            Ok(())
        }
    }
}

/// Writes the types of parameters, with commas between them.
#[cycle(spelling)]
fn spell_params(out: &mut Out, params: &[CType], env: &Env) -> Result<(), Memory>
    requires { IsWellFounded env.now }
    ensures { OnOk result (Writes (AllSpelled env.now params.now) out.old out.new) }
{
    for i in 0..params.len() {
        separate(out, i)?;
        spell(out, &params[i], env)?;
    }
    Ok(())
}

/// Writes a comma before each item but the first.
fn separate(out: &mut Out, place: usize) -> Result<(), Memory>
    ensures { OnOk result (out.new ≡ out.old ++ separator place) }
{
    if place == 0 {
        return Ok(());
    }
    out.add(b",")
}

/// Writes an integer type: `i` or `u`, and its bits.
fn spell_integer(out: &mut Out, t: IntType) -> Result<(), Memory>
    ensures { OnOk result (out.new ≡ out.old ++ integer_text t) }
{
    if t.signed {
        out.add(b"i")?;
    } else {
        out.add(b"u")?;
    }
    out.add_number(u32::from(t.bits))
}

/// Writes the size of an array in brackets.
fn spell_size(out: &mut Out, count: Option<u64>) -> Result<(), Memory>
    ensures { OnOk result (out.new ≡ out.old ++ size_text count) }
{
    match count {
        None => out.add(b"[]"),
        Some(count) => {
            out.add(b"[")?;
            out.add_count(count as usize)?;
            out.add(b"]")
        }
    }
}

/// Writes the end of a list of parameters.
fn spell_end(out: &mut Out, more: bool) -> Result<(), Memory>
    ensures { OnOk result (out.new ≡ out.old ++ end_text more) }
{
    if more {
        out.add(b",...)")
    } else {
        out.add(b")")
    }
}

/// The tag of a struct by its number, where it has one.
fn tag_of(names: &[Option<Text>], n: u32) -> Option<&Text>
    ensures { option_copied result ≡ get_or names.now n Nothing }
{
    match names.get(n as usize) {
        None => None,
        Some(tag) => tag.as_ref(),
    }
}

/// The members of a struct by its number; None where there is no such struct.
fn members_of(members: &[Table<CType>], n: u32) -> Option<&Table<CType>>
    ensures { MatchOption result (get_or members.now n [] ≡ []) (λ table. table.now ≡ get_or members.now n []) }
{
    members.get(n as usize)
}
