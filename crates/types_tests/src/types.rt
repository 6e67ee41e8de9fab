use po_arith::{IntType, Target};
use po_base::{List, Memory, Text};
use po_types::{CType, Layout, Shared, Table, align_of, composite, decayed, same, size_of};
use std::alloc::Global;
use std::test::Fail;

/// An array of a type.
fn array(alloc: Global, element: CType, count: Option<u64>) -> Result<CType, Memory> {
    Ok(CType::Array(Shared::new(alloc, element)?, count))
}

/// A pointer to a pointer, and so on, to int.
pub(crate) fn stars(alloc: Global, count: u32) -> Result<CType, Memory> {
    let mut t = CType::Int(IntType::INT);
    for _star in 0..count {
        t = CType::Ptr(Shared::new(alloc, t)?);
    }
    Ok(t)
}

/// Arrays of arrays of a type, the innermost first.
pub(crate) fn arrays(
    alloc: Global,
    element: CType,
    counts: &[Option<u64>],
) -> Result<CType, Memory> {
    let mut t = element;
    for count in counts {
        t = array(alloc, t, *count)?;
    }
    Ok(t)
}

/// Whether a type has this size and this alignment, where no struct is complete.
fn measures(alloc: Global, t: &CType, size: Option<u64>, align: u64) -> bool {
    let structs: List<Option<Layout>> = List::new(alloc);
    size_of(Target::L64, structs.as_slice(), t) == size
        && align_of(Target::L64, structs.as_slice(), t) == align
}

#[test]
fn types_have_their_sizes_and_alignments(rt: HostRuntime) -> Result<(), Fail> {
    assert!(rt; measures(rt.alloc(), &CType::Void, None, 1));
    assert!(rt; measures(rt.alloc(), &CType::Struct(1), None, 1));
    let most = 9223372036854775807;
    let rows: [(u8, &[Option<u64>], Option<u64>, u64); 8] = [
        (32, &[], Some(4), 4),
        (1, &[], Some(1), 1),
        (32, &[Some(5), Some(3)], Some(60), 4),
        (64, &[Some(2), None], None, 8),
        (8, &[Some(0)], None, 1),
        (8, &[Some(most)], Some(most), 1),
        (8, &[Some(most + 1)], None, 1),
        (16, &[Some(most), Some(most)], None, 2),
    ];
    for (bits, counts, size, align) in rows {
        let number = CType::Int(IntType {
            bits,
            signed: false,
        });
        let t = arrays(rt.alloc(), number, counts)?;
        assert!(rt; measures(rt.alloc(), &t, size, align));
    }
    Ok(())
}

/// Whether types with so many stars are the same, however they are shared.
fn stars_are_the_same(alloc: Global, left: u32, right: u32) -> Result<bool, Memory> {
    let t = stars(alloc, left)?;
    let u = stars(alloc, right)?;
    Ok(same(&t, &u))
}

#[test]
fn types_with_many_stars_are_compared_and_dropped(rt: HostRuntime) -> Result<(), Fail> {
    assert!(rt; stars_are_the_same(rt.alloc(), 300000, 300000)?);
    assert!(rt; !stars_are_the_same(rt.alloc(), 300000, 299999)?);
    Ok(())
}

/// Whether an array of ints decays to a pointer, and the same array without a size takes it from this one.
fn decays_and_completes(alloc: Global) -> Result<bool, Memory> {
    let bare = array(alloc, CType::Int(IntType::INT), None)?;
    let sized = array(alloc, CType::Int(IntType::INT), Some(3))?;
    let pointer = decayed(&sized)?;
    let both = composite(&bare, &sized)?;
    Ok(same(&pointer, &stars(alloc, 1)?) && same(&both, &sized))
}

#[test]
fn an_array_decays_and_takes_its_size_from_another_declaration(
    rt: HostRuntime,
) -> Result<(), Fail> {
    assert!(rt; decays_and_completes(rt.alloc())?);
    Ok(())
}

/// Adds a name unless it is there; false where it was.
fn declare(table: &mut Table<i128>, name: Text, value: i128) -> Result<bool, Memory> {
    if table.find(&name).is_some() {
        return Ok(false);
    }
    table.add(name, value)?;
    Ok(true)
}

#[test]
fn names_are_found_in_a_table(rt: HostRuntime) -> Result<(), Fail> {
    let mut table: Table<i128> = Table::new(rt.alloc());
    let rows: [(&[u8], i128, bool); 3] = [(b"A", 5, true), (b"B", -1, true), (b"A", 7, false)];
    for (name, value, added) in rows {
        let name = Text::new(rt.alloc(), name)?;
        assert!(rt; declare(&mut table, name, value)? == added);
    }
    let found: [(&[u8], Option<i128>); 3] = [(b"A", Some(5)), (b"B", Some(-1)), (b"C", None)];
    for (name, value) in found {
        let name = Text::new(rt.alloc(), name)?;
        assert!(rt; table.find(&name).copied() == value);
    }
    Ok(())
}
