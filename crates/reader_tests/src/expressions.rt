//! Cases of expressions.

use crate::lexing::{put_fail, read};
use crate::spelling::spell;
use crate::writing::{put_named, put_number};
use po_base::{Memory, Text, Tokens};
use po_exp_read::read_exp;
use po_tree::Names;
use std::alloc::Global;
use std::str;

/// The names in force: `T` is a typedef name.
fn names(alloc: Global) -> Result<Names, Memory> {
    let mut names = Names::new(alloc);
    names.declare_type(&Text::new(alloc, b"T")?)?;
    Ok(names)
}

/// Writes where the longest expression ends that begins at a place, and its tree; 0 where none stands there.
fn put_expression(
    alloc: Global,
    out: &mut Vec<u8>,
    tokens: &Tokens,
    from: u32,
    to: u32,
) -> Result<(), Memory> {
    match read_exp(alloc, tokens, from, to, &names(alloc)?)? {
        Some((x, end)) => {
            put_number(alloc, out, end as u64)?;
            spell(out, &x)
        }
        None => put_number(alloc, out, 0),
    }
}

/// The longest expression in a range of the tokens of a text.
pub(crate) fn show_expression(
    alloc: Global,
    out: &mut Vec<u8>,
    text: &[u8],
    from: u32,
    to: u32,
) -> Result<(), Memory> {
    match read(alloc, text) {
        Ok(found) => put_expression(alloc, out, &found, from, to),
        Err(fail) => put_fail(alloc, out, fail),
    }
}

/// Where the longest expression of a text ends, and how many tokens the text has.
pub(crate) fn show_end(alloc: Global, out: &mut Vec<u8>, text: &[u8]) -> Result<(), Memory> {
    match read(alloc, text) {
        Ok(found) => {
            match read_exp(alloc, &found, 0, u32::MAX, &names(alloc)?)? {
                Some((_, end)) => put_number(alloc, out, end as u64)?,
                None => put_number(alloc, out, 0)?,
            }
            put_named(alloc, out, b"tokens ", found.list.len() as u64)
        }
        Err(fail) => put_fail(alloc, out, fail),
    }
}

/// The longest expression in a range, where the text begins with the two ends of the range.
pub(crate) fn show_range(alloc: Global, out: &mut Vec<u8>, text: &[u8]) -> Result<(), Memory> {
    if let Ok(text) = str::from_utf8(text)
        && let Some((from, rest)) = text.split_once(' ')
        && let Some((to, rest)) = rest.split_once(' ')
    {
        let from = from.parse::<u32>().unwrap_or(0);
        let to = to.parse::<u32>().unwrap_or(0);
        return show_expression(alloc, out, rest.as_bytes(), from, to);
    }
    Ok(())
}
