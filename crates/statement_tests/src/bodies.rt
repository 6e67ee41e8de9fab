//! Cases of bodies of functions.

use crate::lexing::{names, put_fail, read};
use crate::statements::items;
use crate::writing::{put, put_number};
use po_base::{Memory, Tokens};
use po_stmt_read::read_body;
use std::alloc::Global;

/// Writes where the body at the front of tokens ends, and what stands in it.
fn put_body(alloc: Global, out: &mut Vec<u8>, tokens: &Tokens) -> Result<(), Memory> {
    match read_body(alloc, tokens, 0, u32::MAX, &mut names(alloc)?)? {
        Some((xs, end)) => {
            put_number(alloc, out, end as u64)?;
            items(out, xs.as_slice())
        }
        None => put(out, b"none"),
    }
}

/// The body of a text, which begins behind its opening brace.
pub(crate) fn show_body(alloc: Global, out: &mut Vec<u8>, text: &[u8]) -> Result<(), Memory> {
    match read(alloc, text) {
        Ok(found) => put_body(alloc, out, &found),
        Err(fail) => put_fail(alloc, out, fail),
    }
}

/// Whether a text is a body, whose brackets are all closed, up to its end.
pub(crate) fn show_end(alloc: Global, out: &mut Vec<u8>, text: &[u8]) -> Result<(), Memory> {
    match read(alloc, text) {
        Ok(found) => match read_body(alloc, &found, 0, u32::MAX, &mut names(alloc)?)? {
            Some((_, end)) => put_number(alloc, out, end as u64),
            None => put(out, b"none"),
        },
        Err(fail) => put_fail(alloc, out, fail),
    }
}
