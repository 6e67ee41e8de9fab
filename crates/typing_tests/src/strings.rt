use po_base::{List, Memory, Text};
use po_constants::{string_length, strings};
use std::alloc::Global;
use std::test::Fail;

/// The texts of literals.
fn texts_of(alloc: Global, literals: &[&[u8]]) -> Result<List<Text>, Memory> {
    let mut texts = List::new(alloc);
    for literal in literals {
        texts.push(Text::new(alloc, literal)?)?;
    }
    Ok(texts)
}

/// Whether literals side by side have these characters, and as many; None stands for what isn't read.
fn have(alloc: Global, literals: &[&[u8]], wanted: Option<&[u8]>) -> Result<bool, Memory> {
    let texts = texts_of(alloc, literals)?;
    let length = string_length(texts.as_slice());
    match strings(alloc, texts.as_slice())? {
        None => Ok(wanted.is_none() && length.is_none()),
        Some(bytes) => match wanted {
            None => Ok(false),
            Some(wanted) => {
                Ok(bytes.as_slice() == wanted && length == Some(wanted.len() as u128))
            }
        },
    }
}

#[test]
fn literals_side_by_side_are_joined(rt: HostRuntime) -> Result<(), Fail> {
    let rows: [(&[&[u8]], &[u8]); 7] = [
        (&[b"\"\""], b""),
        (&[b"\"abc\""], b"abc"),
        (&[b"\"ab\"", b"\"\"", b"\"c\""], b"abc"),
        (&[b"\"\\x1\"", b"\"2\""], &[1, 50]),
        (&[b"\"\\0\\01a'\\'\\\"\""], &[0, 1, 97, 39, 39, 34]),
        (&[b"\"\\377\\1234\""], &[255, 83, 52]),
        (&[], b""),
    ];
    for (literals, wanted) in rows {
        assert!(rt; have(rt.alloc(), literals, Some(wanted))?);
    }
    Ok(())
}

#[test]
fn other_texts_are_not_joined(rt: HostRuntime) -> Result<(), Fail> {
    let rows: [&[&[u8]]; 7] = [
        &[b"\"abc"],
        &[b"abc\""],
        &[b"\"a\"b\""],
        &[b"\"\\q\""],
        &[b"\"\\400\""],
        &[b"\"a\"", b"'a'"],
        &[b"\"a\nb\""],
    ];
    for literals in rows {
        assert!(rt; have(rt.alloc(), literals, None)?);
    }
    Ok(())
}
