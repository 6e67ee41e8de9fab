//! Answers, piece by piece.

use po_base::Memory;
use std::alloc::Global;

/// Writes bytes.
pub(crate) fn put(out: &mut Vec<u8>, bytes: &[u8]) -> Result<(), Memory> {
    out.extend_from_slice(bytes)?;
    Ok(())
}

/// Writes a number.
pub(crate) fn put_number(alloc: Global, out: &mut Vec<u8>, number: u64) -> Result<(), Memory> {
    let text = format!(in alloc; "{number}")?;
    put(out, text.as_bytes())
}

/// Writes a word and a number.
pub(crate) fn put_named(
    alloc: Global,
    out: &mut Vec<u8>,
    word: &[u8],
    number: u64,
) -> Result<(), Memory> {
    put(out, word)?;
    put_number(alloc, out, number)
}
