//! Cases of tokens, kept tokens and pieces.

ghost use Rattle.std.specs.Prelude.{◌≤◌, ◌^◌, length, IfOk};

use crate::writing::{put, put_named, put_number};
use po_base::{List, Memory, Text, Token, Tokens};
use po_lex::{LexFail, Piece, ShapeFail, kept, pieces, tokens};
use std::alloc::Global;

/// The tokens of a file named `main.c`.
pub(crate) fn read(alloc: Global, text: &[u8]) -> Result<Tokens, LexFail>
    ensures { IfOk result (λ tokens. length tokens.list ≤ 2 ^ 22) }
{
    if text.len() > 1 << 24 {
        return Err(LexFail::TooMany);
    }
    let name = Text::new(alloc, b"main.c")?;
    tokens(alloc, &name, text)
}

/// Writes a failure.
pub(crate) fn put_fail(alloc: Global, out: &mut Vec<u8>, fail: LexFail) -> Result<(), Memory> {
    match fail {
        LexFail::Lex { line } => put_named(alloc, out, b"lex ", line as u64),
        LexFail::Directive { line } => put_named(alloc, out, b"directive ", line as u64),
        LexFail::TooMany => put(out, b"too many"),
        LexFail::Memory => Err(Memory),
    }
}

/// Writes texts with a blank behind each.
fn put_texts(out: &mut Vec<u8>, list: &List<Token>) -> Result<(), Memory> {
    for token in list.as_slice() {
        put(out, token.text.bytes())?;
        put(out, b" ")?;
    }
    Ok(())
}

/// The tokens of a text.
pub(crate) fn show_tokens(alloc: Global, out: &mut Vec<u8>, text: &[u8]) -> Result<(), Memory> {
    match read(alloc, text) {
        Ok(found) => put_texts(out, &found.list),
        Err(fail) => put_fail(alloc, out, fail),
    }
}

/// Writes the place of each token, and then the names of files.
fn put_marks(alloc: Global, out: &mut Vec<u8>, found: &Tokens) -> Result<(), Memory> {
    for token in found.list.as_slice() {
        put_number(alloc, out, token.file as u64)?;
        put_number(alloc, out, token.line as u64)?;
        put_named(alloc, out, b"own ", token.own_line as u64)?;
    }
    for name in found.names.as_slice() {
        put(out, name.bytes())?;
        put(out, b" ")?;
    }
    Ok(())
}

/// The places of the tokens of a text.
pub(crate) fn show_marks(alloc: Global, out: &mut Vec<u8>, text: &[u8]) -> Result<(), Memory> {
    match read(alloc, text) {
        Ok(found) => put_marks(alloc, out, &found),
        Err(fail) => put_fail(alloc, out, fail),
    }
}

/// The kept tokens of a text.
pub(crate) fn show_kept(alloc: Global, out: &mut Vec<u8>, text: &[u8]) -> Result<(), Memory> {
    match read(alloc, text) {
        Ok(found) => put_texts(out, &kept(alloc, &found)?.list),
        Err(fail) => put_fail(alloc, out, fail),
    }
}

/// Writes pieces: where each begins and ends, and whether it has a body.
fn put_pieces(alloc: Global, out: &mut Vec<u8>, list: &[Piece]) -> Result<(), Memory> {
    for piece in list {
        put_number(alloc, out, piece.from as u64)?;
        put_number(alloc, out, piece.to as u64)?;
        if piece.body {
            put(out, b"body ")?;
        }
    }
    Ok(())
}

/// Writes the failure of a division into pieces.
fn put_shape(alloc: Global, out: &mut Vec<u8>, fail: ShapeFail) -> Result<(), Memory> {
    match fail {
        ShapeFail::Shape { line } => put_named(alloc, out, b"shape ", line as u64),
        ShapeFail::Memory => Err(Memory),
    }
}

/// The pieces of the tokens of a text.
pub(crate) fn show_pieces(alloc: Global, out: &mut Vec<u8>, text: &[u8]) -> Result<(), Memory> {
    match read(alloc, text) {
        Ok(found) => match pieces(alloc, &found) {
            Ok(list) => put_pieces(alloc, out, list.as_slice()),
            Err(fail) => put_shape(alloc, out, fail),
        },
        Err(fail) => put_fail(alloc, out, fail),
    }
}

/// How many pieces have bodies.
fn bodies(list: &[Piece]) -> u64 {
    let mut count = 0;
    for piece in list {
        if piece.body {
            count = u64::wrapping_add(count, 1);
        }
    }
    count
}

/// Writes how many tokens and names there are, how many tokens are kept, and into how many pieces they divide.
fn put_counts(alloc: Global, out: &mut Vec<u8>, found: &Tokens) -> Result<(), Memory>
    requires { length found.now.list ≤ 2 ^ 22 }
{
    put_named(alloc, out, b"tokens ", found.list.len() as u64)?;
    put_named(alloc, out, b"names ", found.names.len() as u64)?;
    let left = kept(alloc, found)?;
    put_named(alloc, out, b"kept ", left.list.len() as u64)?;
    match pieces(alloc, &left) {
        Ok(list) => {
            put_named(alloc, out, b"pieces ", list.len() as u64)?;
            put_named(alloc, out, b"bodies ", bodies(list.as_slice()))
        }
        Err(fail) => put_shape(alloc, out, fail),
    }
}

/// How many tokens, names, kept tokens and pieces a text has.
pub(crate) fn show_counts(alloc: Global, out: &mut Vec<u8>, text: &[u8]) -> Result<(), Memory> {
    match read(alloc, text) {
        Ok(found) => put_counts(alloc, out, &found),
        Err(fail) => put_fail(alloc, out, fail),
    }
}
