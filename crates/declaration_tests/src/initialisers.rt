// Tests of initialisers.
use crate::texts::{expanded, tokens_of};
use po_base::{List, Memory};
use po_init_read::read_init;
use po_tree::{Init, InitParts, Names};
use std::alloc::Global;
use std::test::Fail;

/// The initialiser at the front of a text, and the place of its end.
fn found(alloc: Global, text: &[u8]) -> Result<Option<(Init, u32)>, Memory> {
    match tokens_of(alloc, text)? {
        Some(tokens) => read_init(alloc, &tokens, 0, u32::MAX, &Names::new(alloc)),
        None => Ok(None),
    }
}

/// Writes items: `x` for an expression, and for braces the number of their items.
fn put_items(out: &mut List<u8>, items: &List<Init>) -> Result<(), Memory> {
    for item in items.as_slice() {
        match item {
            Init::One(_) => out.push(b'x')?,
            Init::Many(inside, _) => out.push((inside.len() % 10) as u8 + b'0')?,
        }
    }
    Ok(())
}

/// How an initialiser is made: `x` for an expression; for braces their items, and a comma where one stands behind the last.
fn shape(alloc: Global, x: Init) -> Result<List<u8>, Memory> {
    let mut out = List::new(alloc);
    match x.into_parts() {
        InitParts::Value(_) => out.push(b'x')?,
        InitParts::Braces(items, more) => {
            out.push(b'{')?;
            put_items(&mut out, &items)?;
            if more {
                out.push(b',')?;
            }
            out.push(b'}')?;
        }
    }
    Ok(out)
}

/// Whether an initialiser of this shape stands at the front of a text, with its end at this place.
fn is_read(alloc: Global, text: &[u8], wanted: &[u8], end: u32) -> Result<bool, Memory> {
    match found(alloc, text)? {
        Some((x, at)) => Ok(at == end && shape(alloc, x)?.as_slice() == wanted),
        None => Ok(false),
    }
}

#[test]
fn initialisers_end_before_a_comma_a_semicolon_or_a_closing_bracket(
    rt: HostRuntime,
) -> Result<(), Fail> {
    let rows: [(&[u8], &[u8], u32); 16] = [
        (b"1;", b"x", 1),
        (b"a,b;", b"x", 1),
        (b"a=b,c;", b"x", 3),
        (b"a?b,c:d,y;", b"x", 7),
        (b"f(a,b);", b"x", 6),
        (b"\"ab\" \"c\";", b"x", 2),
        (b"1)", b"x", 1),
        (b"{1};", b"{x}", 3),
        (b"{1,};", b"{x,}", 4),
        (b"{1,2},y;", b"{xx}", 5),
        (b"{{1},2};", b"{1x}", 7),
        (b"{{1,2,},{{3}},};", b"{21,}", 15),
        (b"{\"ab\",{1}};", b"{x1}", 7),
        (b"{a=1,b};", b"{xx}", 7),
        (b"{{{{1}}}}}", b"{1}", 9),
        (b"{(a,b)}]", b"{x}", 7),
    ];
    for (text, wanted, end) in rows {
        assert!(rt; is_read(rt.alloc(), text, wanted, end)?);
    }
    Ok(())
}

#[test]
fn no_initialiser_stands_where_the_grammar_has_none(rt: HostRuntime) -> Result<(), Fail> {
    let texts: [&[u8]; 17] = [
        b"", b";", b"1", b"1 2;", b"{};", b"{,};", b"{1 2};", b"{1,2", b"{1", b"{", b"{1,,2};",
        b"{1,,};", b"}", b"{1}+2;", b"{1]", b"{1;}", b"{.a=1};",
    ];
    for text in texts {
        assert!(rt; found(rt.alloc(), text)?.is_none());
    }
    Ok(())
}

#[test]
fn a_million_braces_are_read_and_let_go(rt: HostRuntime) -> Result<(), Fail> {
    let text = expanded(rt.alloc(), b"@{@1@}@;", 1_000_000)?;
    assert!(rt; is_read(rt.alloc(), text.as_slice(), b"{1}", 2_000_001)?);
    let open = expanded(rt.alloc(), b"@{@{1,2}@)@;", 1_000_000)?;
    assert!(rt; found(rt.alloc(), open.as_slice())?.is_none());
    Ok(())
}

#[test]
fn expressions_are_read_to_the_depth_of_256(rt: HostRuntime) -> Result<(), Fail> {
    let deepest = expanded(rt.alloc(), b"@(@1@)@;", 255)?;
    assert!(rt; is_read(rt.alloc(), deepest.as_slice(), b"x", 511)?);
    let deeper = expanded(rt.alloc(), b"@(@1@)@;", 256)?;
    assert!(rt; found(rt.alloc(), deeper.as_slice())?.is_none());
    Ok(())
}
