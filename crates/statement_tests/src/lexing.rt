//! The tokens of cases.

ghost use Rattle.std.specs.Prelude.{◌≤◌, ◌^◌, length, IfOk};

use crate::writing::{put, put_named};
use po_base::{Memory, Text, Tokens};
use po_lex::{LexFail, tokens};
use po_tree::Names;
use std::alloc::Global;

/// The tokens of a file named `main.c`.
pub(crate) fn read(alloc: Global, text: &[u8]) -> Result<Tokens, LexFail>
    ensures { IfOk result (λ tokens. length tokens.list ≤ 2 ^ 22) }
{
    if text.len() > 1 << 24 {
        return Err(LexFail::TooMany);
    }
    let name = Text::new(alloc, b"main.c")?;
    tokens(alloc, &name, text)
}

/// Writes a failure.
pub(crate) fn put_fail(alloc: Global, out: &mut Vec<u8>, fail: LexFail) -> Result<(), Memory> {
    match fail {
        LexFail::Lex { line } => put_named(alloc, out, b"lex ", line as u64),
        LexFail::Directive { line } => put_named(alloc, out, b"directive ", line as u64),
        LexFail::TooMany => put(out, b"too many"),
        LexFail::Memory => Err(Memory),
    }
}

/// The names in force: `T` is a typedef name.
pub(crate) fn names(alloc: Global) -> Result<Names, Memory> {
    let mut names = Names::new(alloc);
    names.declare_type(&Text::new(alloc, b"T")?)?;
    Ok(names)
}
