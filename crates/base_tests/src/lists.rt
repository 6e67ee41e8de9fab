use po_base::{Boxed, List, Memory, OrdList, Roomy, Text};
use std::alloc::Global;
use std::cmp::Ordering;
use std::test::Fail;

/// A type of C in small, which holds itself in a `Boxed` and in a `List`.
#[derive(Drop, PartialEq, Eq)]
enum Shape {
    Number(u8),
    Function(Boxed<Shape>, List<Shape>),
}

/// The list of these numbers.
fn numbers(alloc: Global, items: &[u32]) -> Result<List<u32>, Fail> {
    let mut list = List::new(alloc);
    list.reserve(items.len())?;
    for item in items {
        list.push(*item)?;
    }
    Ok(list)
}

#[test]
fn a_list_is_pushed_set_and_popped(rt: HostRuntime) -> Result<(), Fail> {
    let mut list = numbers(rt.alloc(), &[4, 5, 6])?;
    assert!(rt; list.len() == 3);
    list.set(1, 9);
    assert!(rt; list.as_slice() == [4, 9, 6].as_slice());
    assert!(rt; list.get(1).copied() == Some(9) && list.get(3).copied() == None);
    assert!(rt; list.pop() == Some(6) && list.len() == 2 && !list.is_empty());
    assert!(rt; list.into_vec().as_slice() == [4, 9].as_slice());
    Ok(())
}

/// Whether lists of these numbers are ordered so, and equal just where their order says it.
fn lists_are(alloc: Global, left: &[u32], right: &[u32], order: Ordering) -> Result<bool, Fail> {
    let (left, right) = (numbers(alloc, left)?, numbers(alloc, right)?);
    Ok(left.cmp(&right) == order && (left == right) == order.is_eq())
}

#[test]
fn lists_are_ordered_item_by_item(rt: HostRuntime) -> Result<(), Fail> {
    let ascending: [&[u32]; 5] = [&[], &[1], &[1, 0], &[1, 7], &[2]];
    for (at, left) in ascending.iter().enumerate() {
        for (place, right) in ascending.iter().enumerate() {
            assert!(rt; lists_are(rt.alloc(), *left, *right, at.cmp(&place))?);
        }
    }
    Ok(())
}

#[test]
fn a_tree_holds_itself(rt: HostRuntime) -> Result<(), Fail> {
    let mut parameters = List::new(rt.alloc());
    parameters.push(Shape::Number(32))?;
    let gives = Boxed::new(rt.alloc(), Shape::Number(64))?;
    let function = Shape::Function(gives, parameters);
    assert!(rt; function == function && function != Shape::Number(64));
    let Shape::Function(gives, mut parameters) = Boxed::new(rt.alloc(), function)?.into_inner()
    else {
        return Err("no function".into());
    };
    assert!(rt; gives.get() == &Shape::Number(64) && parameters.pop() == Some(Shape::Number(32)));
    Ok(())
}

/// Whether texts of these bytes are ordered so, and equal just where their order says it; the first is shared.
fn texts_are(alloc: Global, left: &[u8], right: &[u8], order: Ordering) -> Result<bool, Memory> {
    let (text, other) = (Text::new(alloc, left)?, Text::new(alloc, right)?);
    let shared = text.share()?;
    Ok(shared.bytes() == left && text.cmp(&other) == order && (text == other) == order.is_eq())
}

#[test]
fn texts_are_ordered_byte_by_byte_and_shared(rt: HostRuntime) -> Result<(), Fail> {
    let ascending: [&[u8]; 8] = [b"", &[0], &[0, 255], b"A", b"a", b"ab", &[128], &[255]];
    for (at, left) in ascending.iter().enumerate() {
        for (place, right) in ascending.iter().enumerate() {
            assert!(rt; texts_are(rt.alloc(), *left, *right, at.cmp(&place))?);
        }
    }
    Ok(())
}

#[test]
fn an_ordered_list_has_no_doubles(rt: HostRuntime) -> Result<(), Fail> {
    let mut list = OrdList::new(rt.alloc());
    for (item, is_new) in [(5, true), (1, true), (5, false), (3, true), (1, false)] {
        assert!(rt; list.insert(item)? == is_new);
    }
    for (item, is_there) in [(1, true), (2, false), (3, true), (5, true), (6, false)] {
        assert!(rt; list.has(&item) == is_there);
    }
    let mut seen: List<i32> = List::new(rt.alloc());
    for item in list.iter() {
        seen.push(*item)?;
    }
    assert!(rt; seen.as_slice() == [1, 3, 5].as_slice());
    Ok(())
}

#[test]
fn a_roomy_list_has_room(rt: HostRuntime) -> Result<(), Fail> {
    let mut roomy = Roomy::new(rt.alloc());
    roomy.reserve(3)?;
    for item in [7_u64, 8, 9] {
        assert!(rt; roomy.push(item).is_ok());
    }
    assert!(rt; roomy.len() == 3 && roomy.pop() == Some(9));
    assert!(rt; roomy.into_list().as_slice() == [7, 8].as_slice());
    Ok(())
}
