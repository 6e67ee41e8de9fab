//! Cases of definitions of functions.

ghost use Rattle.std.specs.Prelude.{◌≤◌, ◌^◌, length};

use crate::declarations::{declarator, specifiers};
use crate::lexing::{names, put_fail, read};
use crate::spelling::{begin, end};
use crate::statements::items;
use crate::writing::{put, put_number};
use po_base::{Memory, Tokens};
use po_fun_read::read_fun;
use po_tree::FunTree;
use std::alloc::Global;

/// The definition that all tokens are.
fn whole(alloc: Global, tokens: &Tokens) -> Result<Option<FunTree>, Memory>
    requires { length tokens.now.list ≤ 2 ^ 22 }
{
    read_fun(
        alloc,
        tokens,
        0,
        tokens.list.len() as u32,
        &mut names(alloc)?,
    )
}

/// A definition.
fn spell_definition(out: &mut Vec<u8>, g: &FunTree) -> Result<(), Memory> {
    begin(out, b"function")?;
    specifiers(out, g.specs.as_slice())?;
    put(out, b" ")?;
    begin(out, b"word")?;
    declarator(out, &g.declarator)?;
    end(out)?;
    items(out, g.body.as_slice())?;
    end(out)
}

/// The definition that a text is.
pub(crate) fn show_definition(alloc: Global, out: &mut Vec<u8>, text: &[u8]) -> Result<(), Memory> {
    match read(alloc, text) {
        Ok(found) => match whole(alloc, &found)? {
            Some(g) => spell_definition(out, &g),
            None => put(out, b"none"),
        },
        Err(fail) => put_fail(alloc, out, fail),
    }
}

/// Whether a text is a definition.
pub(crate) fn show_kind(alloc: Global, out: &mut Vec<u8>, text: &[u8]) -> Result<(), Memory> {
    match read(alloc, text) {
        Ok(found) => match whole(alloc, &found)? {
            Some(_) => put(out, b"function"),
            None => put(out, b"none"),
        },
        Err(fail) => put_fail(alloc, out, fail),
    }
}

/// Writes the place of the file's name and the line of each token, and then the names.
fn put_marks(alloc: Global, out: &mut Vec<u8>, g: &FunTree) -> Result<(), Memory> {
    put(out, b"marks")?;
    for mark in g.marks.as_slice() {
        put(out, b" ")?;
        put_number(alloc, out, mark.0 as u64)?;
        put(out, b":")?;
        put_number(alloc, out, mark.1 as u64)?;
    }
    for name in g.names.as_slice() {
        put(out, b" ")?;
        put(out, name.bytes())?;
    }
    Ok(())
}

/// The marks of the definition that a text is.
pub(crate) fn show_marks(alloc: Global, out: &mut Vec<u8>, text: &[u8]) -> Result<(), Memory> {
    match read(alloc, text) {
        Ok(found) => match whole(alloc, &found)? {
            Some(g) => put_marks(alloc, out, &g),
            None => put(out, b"none"),
        },
        Err(fail) => put_fail(alloc, out, fail),
    }
}
