//! Files, piece by piece.

use crate::texts::tokens_of;
use po_base::{List, Memory, Tokens};
use po_decl_read::read_decl;
use po_lex::{Piece, ShapeFail, kept, pieces};
use po_tree::Names;
use std::alloc::Global;

/// The letter of a piece: `b` where it has a body, `d` where it is a declaration, which is then declared, else `-`.
fn letter(alloc: Global, tokens: &Tokens, piece: &Piece, names: &mut Names) -> Result<u8, Memory> {
    if piece.body {
        return Ok(b'b');
    }
    let Some(d) = read_decl(alloc, tokens, piece.from, piece.to, names)? else {
        return Ok(b'-');
    };
    names.declare(alloc, &d)?;
    Ok(b'd')
}

/// The letters of pieces, each under the names in force behind those before it.
fn letters_of(alloc: Global, tokens: &Tokens, list: &[Piece]) -> Result<List<u8>, Memory> {
    let mut names = Names::new(alloc);
    let mut out = List::new(alloc);
    for piece in list {
        out.push(letter(alloc, tokens, piece, &mut names)?)?;
    }
    Ok(out)
}

/// The letters of the pieces of a file; none where it has no pieces.
pub(crate) fn letters(alloc: Global, text: &[u8]) -> Result<List<u8>, Memory> {
    let Some(tokens) = tokens_of(alloc, text)? else {
        return Ok(List::new(alloc));
    };
    let tokens = kept(alloc, &tokens)?;
    match pieces(alloc, &tokens) {
        Ok(list) => letters_of(alloc, &tokens, list.as_slice()),
        Err(ShapeFail::Memory) => Err(Memory),
        Err(_) => Ok(List::new(alloc)),
    }
}
