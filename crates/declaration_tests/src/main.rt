//! Reads a preprocessed file from the input, and writes a letter for each of its pieces: `d` where it is a declaration under the names in force behind
//! those before it, `b` where it has a body, and else `-`.
//!
//! Its tests are those of the readers of declarations: whole declarations (`po_decl_read`), initialisers (`po_init_read`), the parts that hold no
//! declaration themselves (`po_decl_parts`), and names in scopes (`po_tree`).
#![tactic(auto)]

#[cfg(test)]
mod declarations;
mod files;
#[cfg(test)]
mod initialisers;
#[cfg(test)]
mod names;
#[cfg(test)]
mod parts;
mod texts;

use files::letters;
use po_base::{List, Memory};
use std::{io, str};

/// A line of the output.
fn printed(letters: &Result<List<u8>, Memory>) -> &str {
    match letters {
        Ok(bytes) => str::from_utf8(bytes.as_slice()).unwrap_or("bytes"),
        Err(_) => "memory",
    }
}

fn main(rt: HostRuntime) -> io::Result<()> {
    let mut text = Vec::new(rt.alloc());
    for line in rt.lines(rt.alloc()) {
        text.extend_from_slice(line?.as_str().as_bytes())?;
        text.extend_from_slice(b"\n")?;
    }
    println!(rt; "{}", printed(&letters(rt.alloc(), &text)))?;
    Ok(())
}
