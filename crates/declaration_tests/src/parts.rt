// Tests of the parts of declarations.
use crate::texts::{names, tokens_of};
use po_base::Memory;
use po_decl_parts::{
    Seen, constant_at, enumerators_at, opening_at, sizes_at, specifier_at, stars_at,
};
use std::alloc::Global;
use std::test::Fail;

/// How many stars stand at the front of a text, and where they end.
fn stars(alloc: Global, text: &[u8]) -> Result<(usize, u32), Memory> {
    let Some(tokens) = tokens_of(alloc, text)? else {
        return Ok((0, u32::MAX));
    };
    let (stars, end) = stars_at(alloc, &tokens, 0, u32::MAX)?;
    Ok((stars.len(), end))
}

#[test]
fn all_stars_with_all_their_qualifiers_are_read(rt: HostRuntime) -> Result<(), Fail> {
    let rows: [(&[u8], usize, u32); 7] = [
        (b"", 0, 0),
        (b"x", 0, 0),
        (b"const x", 0, 0),
        (b"* x", 1, 1),
        (b"* const restrict x", 1, 3),
        (b"* const * * restrict", 3, 5),
        (b"* volatile", 1, 1),
    ];
    for (text, count, end) in rows {
        assert!(rt; stars(rt.alloc(), text)? == (count, end));
    }
    Ok(())
}

/// Where the constant at the front of a text ends.
fn constant(alloc: Global, text: &[u8]) -> Result<Option<u32>, Memory> {
    let Some(tokens) = tokens_of(alloc, text)? else {
        return Ok(None);
    };
    match constant_at(alloc, &tokens, 0, u32::MAX, &names(alloc)?)? {
        Some((_, end)) => Ok(Some(end)),
        None => Ok(None),
    }
}

#[test]
fn a_constant_is_a_conditional_expression_before_an_end(rt: HostRuntime) -> Result<(), Fail> {
    let rows: [(&[u8], Option<u32>); 7] = [
        (b"1]", Some(1)),
        (b"a ? b : c, d", Some(5)),
        (b"(a = 1)}", Some(5)),
        (b"a = 1]", None),
        (b"1", None),
        (b"]", None),
        (b"T]", None),
    ];
    for (text, end) in rows {
        assert!(rt; constant(rt.alloc(), text)? == end);
    }
    Ok(())
}

/// How many sizes stand at the front of a text, and where they end.
fn sizes(alloc: Global, text: &[u8]) -> Result<Option<(usize, u32)>, Memory> {
    let Some(tokens) = tokens_of(alloc, text)? else {
        return Ok(None);
    };
    match sizes_at(alloc, &tokens, 0, u32::MAX, &names(alloc)?)? {
        Some((sizes, end)) => Ok(Some((sizes.len(), end))),
        None => Ok(None),
    }
}

#[test]
fn all_sizes_are_read(rt: HostRuntime) -> Result<(), Fail> {
    let rows: [(&[u8], Option<(usize, u32)>); 8] = [
        (b";", Some((0, 0))),
        (b"[];", Some((1, 2))),
        (b"[1][sizeof(T)] =", Some((2, 9))),
        (b"[a,b]", None),
        (b"[a = 1]", None),
        (b"[const]", None),
        (b"[*]", None),
        (b"[1", None),
    ];
    for (text, found) in rows {
        assert!(rt; sizes(rt.alloc(), text)? == found);
    }
    Ok(())
}

/// How many enumerators stand at the front of a text, whether a comma stands behind the last, and where their brace ends.
fn enumerators(alloc: Global, text: &[u8]) -> Result<Option<(usize, bool, u32)>, Memory> {
    let Some(tokens) = tokens_of(alloc, text)? else {
        return Ok(None);
    };
    match enumerators_at(alloc, &tokens, 0, u32::MAX, &mut names(alloc)?)? {
        Some(found) => Ok(Some((found.items.len(), found.more, found.end))),
        None => Ok(None),
    }
}

#[test]
fn an_enumerator_is_in_force_from_its_own_end_on(rt: HostRuntime) -> Result<(), Fail> {
    let rows: [(&[u8], Option<(usize, bool, u32)>); 9] = [
        (b"A}", Some((1, false, 2))),
        (b"A, B = A + 1,} x", Some((2, true, 9))),
        (b"T = sizeof(T)}", Some((1, false, 7))),
        (b"T, B = T}", Some((2, false, 6))),
        (b"B = T}", None),
        (b"}", None),
        (b",}", None),
        (b"A B}", None),
        (b"A = 1", None),
    ];
    for (text, found) in rows {
        assert!(rt; enumerators(rt.alloc(), text)? == found);
    }
    Ok(())
}

/// Where the specifier at the front of a text ends.
fn specifier(
    alloc: Global,
    text: &[u8],
    outer: bool,
    free: bool,
    seen: Seen,
) -> Result<Option<u32>, Memory> {
    let Some(tokens) = tokens_of(alloc, text)? else {
        return Ok(None);
    };
    let names = &mut names(alloc)?;
    match specifier_at(alloc, &tokens, 0, u32::MAX, outer, free, seen, names)? {
        Some(found) => Ok(Some(found.end)),
        None => Ok(None),
    }
}

#[test]
fn a_specifier_stands_behind_those_that_it_may_follow(rt: HostRuntime) -> Result<(), Fail> {
    let rows: [(&[u8], bool, bool, Seen, Option<u32>); 20] = [
        (b"const", false, false, Seen::Name, Some(1)),
        (b"volatile", true, true, Seen::Nothing, None),
        (b"static", true, true, Seen::Words, Some(1)),
        (b"static", true, false, Seen::Nothing, None),
        (b"inline", true, false, Seen::Name, Some(1)),
        (b"inline", false, false, Seen::Nothing, None),
        (b"int", true, true, Seen::Words, Some(1)),
        (b"int", true, true, Seen::Name, None),
        (b"T x", true, true, Seen::Nothing, Some(1)),
        (b"T x", true, true, Seen::Words, None),
        (b"x", true, true, Seen::Nothing, None),
        (b"struct S x", true, true, Seen::Nothing, Some(2)),
        (b"struct S x", true, true, Seen::Words, None),
        (b"struct S{int x;}", true, true, Seen::Nothing, None),
        (b"union U", true, true, Seen::Nothing, None),
        (b"enum E x", true, true, Seen::Nothing, Some(2)),
        (b"enum E{A,B} x", true, true, Seen::Nothing, Some(7)),
        (b"enum{T=sizeof(T)}", false, false, Seen::Nothing, Some(9)),
        (b"enum{}", true, true, Seen::Nothing, None),
        (b"enum x{", true, true, Seen::Nothing, None),
    ];
    for (text, outer, free, seen, end) in rows {
        assert!(rt; specifier(rt.alloc(), text, outer, free, seen)? == end);
    }
    Ok(())
}

/// Where the beginning of a struct's body at the front of a text ends, and whether it has a tag.
fn opening(alloc: Global, text: &[u8]) -> Result<Option<(bool, u32)>, Memory> {
    let Some(tokens) = tokens_of(alloc, text)? else {
        return Ok(None);
    };
    match opening_at(&tokens, 0, u32::MAX)? {
        Some((tag, end)) => Ok(Some((tag.is_some(), end))),
        None => Ok(None),
    }
}

#[test]
fn a_body_opens_behind_struct(rt: HostRuntime) -> Result<(), Fail> {
    let rows: [(&[u8], Option<(bool, u32)>); 6] = [
        (b"struct{", Some((false, 2))),
        (b"struct T{int x;}", Some((true, 3))),
        (b"struct S x", None),
        (b"enum E{", None),
        (b"struct int{", None),
        (b"S{", None),
    ];
    for (text, found) in rows {
        assert!(rt; opening(rt.alloc(), text)? == found);
    }
    Ok(())
}
