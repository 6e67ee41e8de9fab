use po_arith::{IntType, Target};
use po_base::{List, Memory, Text};
use po_specified::word_type;
use po_tree::Specifier;
use po_types::{integer, is_void};
use std::alloc::Global;
use std::test::Fail;

/// Specifiers that are these words.
fn specifiers(alloc: Global, words: &[&[u8]]) -> Result<List<Specifier>, Memory> {
    let mut specs = List::new(alloc);
    for word in words {
        specs.push(Specifier::Word(Text::new(alloc, word)?))?;
    }
    Ok(specs)
}

/// The integer type that words say, where they say one.
fn said(alloc: Global, words: &[&[u8]]) -> Result<Option<IntType>, Memory> {
    let specs = specifiers(alloc, words)?;
    match word_type(specs.as_slice(), Target::L64) {
        None => Ok(None),
        Some(t) => Ok(integer(&t)),
    }
}

/// Whether words say void.
fn say_void(alloc: Global, words: &[&[u8]]) -> Result<bool, Memory> {
    let specs = specifiers(alloc, words)?;
    match word_type(specs.as_slice(), Target::L64) {
        None => Ok(false),
        Some(t) => Ok(is_void(&t)),
    }
}

#[test]
fn words_say_the_type_of_their_row_in_any_order(rt: HostRuntime) -> Result<(), Fail> {
    let rows: [(&[&[u8]], u8, bool); 20] = [
        (&[b"char"], 8, true),
        (&[b"char", b"signed"], 8, true),
        (&[b"const", b"char", b"unsigned"], 8, false),
        (&[b"short"], 16, true),
        (&[b"int", b"static", b"short"], 16, true),
        (&[b"short", b"signed", b"int"], 16, true),
        (&[b"int", b"unsigned", b"short"], 16, false),
        (&[b"signed"], 32, true),
        (&[b"int", b"signed"], 32, true),
        (&[b"unsigned"], 32, false),
        (&[b"int", b"unsigned", b"const"], 32, false),
        (&[b"long"], 64, true),
        (&[b"int", b"long"], 64, true),
        (&[b"int", b"signed", b"long"], 64, true),
        (&[b"long", b"unsigned"], 64, false),
        (&[b"long", b"unsigned", b"int"], 64, false),
        (&[b"long", b"int", b"long"], 64, true),
        (&[b"long", b"signed", b"long"], 64, true),
        (&[b"long", b"int", b"unsigned", b"long"], 64, false),
        (&[b"extern", b"_Bool"], 1, false),
    ];
    for (words, bits, signed) in rows {
        assert!(rt; said(rt.alloc(), words)? == Some(IntType { bits, signed }));
    }
    assert!(rt; say_void(rt.alloc(), &[b"const", b"void"])?);
    Ok(())
}

#[test]
fn other_words_say_no_type(rt: HostRuntime) -> Result<(), Fail> {
    let rows: [&[&[u8]]; 12] = [
        &[],
        &[b"const"],
        &[b"long", b"char"],
        &[b"unsigned", b"_Bool"],
        &[b"short", b"short"],
        &[b"int", b"int"],
        &[b"signed", b"unsigned"],
        &[b"short", b"long"],
        &[b"long", b"long", b"long"],
        &[b"void", b"int"],
        &[b"char", b"int"],
        &[b"signed", b"void"],
    ];
    for words in rows {
        assert!(rt; said(rt.alloc(), words)? == None);
    }
    Ok(())
}
