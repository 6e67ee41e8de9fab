//! Cases of files of straight integer functions.

use crate::writing::{put, put_named, put_number};
use po_base::Memory;
use po_straight::{Definition, Expression, read_definitions};
use std::alloc::Global;

/// Writes what stands outermost: parentheses, a parameter or a constant, or the line of a call or an operator.
fn put_top(alloc: Global, out: &mut Vec<u8>, value: &Expression) -> Result<(), Memory> {
    match value {
        Expression::Parameter(n) => put_named(alloc, out, b"parameter ", *n as u64),
        Expression::Constant(n) => put_named(alloc, out, b"constant ", *n as u64),
        Expression::Paren(_) => put(out, b"parentheses"),
        Expression::Call(_, line, _) => put_named(alloc, out, b"line ", *line as u64),
        Expression::Binary(_, line, _, _) => put_named(alloc, out, b"line ", *line as u64),
    }
}

/// Writes how many definitions there are, and the line of the last one's `return`.
fn put_last(alloc: Global, out: &mut Vec<u8>, list: &[Definition]) -> Result<(), Memory> {
    put_number(alloc, out, list.len() as u64)?;
    match list.last() {
        Some(last) => put_number(alloc, out, last.line as u64),
        None => put_number(alloc, out, 0),
    }
}

/// The definitions of a file.
pub(crate) fn show_definitions(
    alloc: Global,
    out: &mut Vec<u8>,
    text: &[u8],
) -> Result<(), Memory> {
    if text.len() > 1 << 24 {
        return Ok(());
    }
    match read_definitions(alloc, text)? {
        Some(list) => put_last(alloc, out, list.as_slice()),
        None => put(out, b"none"),
    }
}

/// What the last definition of a file returns.
pub(crate) fn show_value(alloc: Global, out: &mut Vec<u8>, text: &[u8]) -> Result<(), Memory> {
    if text.len() > 1 << 24 {
        return Ok(());
    }
    match read_definitions(alloc, text)? {
        Some(list) => match list.as_slice().last() {
            Some(last) => put_top(alloc, out, &last.value),
            None => Ok(()),
        },
        None => put(out, b"none"),
    }
}
