//! Texts of cases as they are meant.

use po_base::Memory;
use std::alloc::Global;

/// The byte that a backquote and this letter stand for.
fn meant(letter: u8) -> u8 {
    match letter {
        b'n' => b'\n',
        b't' => b'\t',
        b'v' => 11,
        b'f' => 12,
        b'r' => b'\r',
        b'z' => 0,
        b'h' => 0x80,
        b'x' => 0xff,
        b'a' => b'@',
        _ => letter,
    }
}

/// Puts a part of a text at the end.
fn put(out: &mut Vec<u8>, part: &[u8]) -> Result<(), Memory> {
    let mut quoted = false;
    for byte in part {
        if quoted {
            out.extend_from_slice(&[meant(*byte)])?;
            quoted = false;
        } else if *byte == b'`' {
            quoted = true;
        } else {
            out.extend_from_slice(&[*byte])?;
        }
    }
    Ok(())
}

/// The text of a case: each second part between `@` stands so many times.
pub(crate) fn expanded(alloc: Global, times: u32, text: &[u8]) -> Result<Vec<u8>, Memory> {
    let mut out = Vec::new(alloc);
    let mut repeated = false;
    for part in text.split(|byte| *byte == b'@') {
        let count = if repeated { times } else { 1 };
        for _ in 0..count {
            put(&mut out, part)?;
        }
        repeated = !repeated;
    }
    Ok(out)
}
