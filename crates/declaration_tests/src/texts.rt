//! Texts as tokens.

ghost use Rattle.std.specs.Prelude.{◌≤◌, ◌^◌, length, IfOk, IfSome};

#[cfg(test)]
use po_base::List;
use po_base::{Memory, Text, Tokens};
use po_lex::{LexFail, tokens};
#[cfg(test)]
use po_tree::Names;
use std::alloc::Global;

/// The tokens of a text of a file; none where it has none.
pub(crate) fn tokens_of(alloc: Global, text: &[u8]) -> Result<Option<Tokens>, Memory>
    ensures { IfOk result (λ found. IfSome found (λ tokens. length tokens.list ≤ 2 ^ 22)) }
{
    if text.len() > 1 << 24 {
        return Ok(None);
    }
    match tokens(alloc, &Text::new(alloc, b"main.c")?, text) {
        Ok(found) => Ok(Some(found)),
        Err(LexFail::Memory) => Err(Memory),
        Err(_) => Ok(None),
    }
}

/// Puts a text at the end, so many times.
#[cfg(test)]
fn put(out: &mut List<u8>, text: &[u8], times: u32) -> Result<(), Memory> {
    for _ in 0..times {
        for byte in text {
            out.push(*byte)?;
        }
    }
    Ok(())
}

/// A text in which each second part between `@` stands so many times.
#[cfg(test)]
pub(crate) fn expanded(alloc: Global, text: &[u8], times: u32) -> Result<List<u8>, Memory> {
    let mut out = List::new(alloc);
    let mut repeated = false;
    for part in text.split(|byte| *byte == b'@') {
        let count = if repeated { times } else { 1 };
        put(&mut out, part, count)?;
        repeated = !repeated;
    }
    Ok(out)
}

/// The names in force where `T` is a typedef name.
#[cfg(test)]
pub(crate) fn names(alloc: Global) -> Result<Names, Memory> {
    let mut names = Names::new(alloc);
    names.declare_type(&Text::new(alloc, b"T")?)?;
    Ok(names)
}
