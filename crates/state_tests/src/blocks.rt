use crate::sample::bytes;
use po_base::Memory;
use po_bases::{Filled, HeapFact, fact_within, filled_within, join_facts, join_filled};
use std::alloc::Global;
use std::test::Fail;

/// The bytes of both are these, and each of the two has them all.
fn joins_to(alloc: Global, a: &Filled, b: &Filled, want: &Filled) -> Result<bool, Memory> {
    let joined = join_filled(alloc, a, b)?;
    Ok(&joined == want && filled_within(a, want) && filled_within(b, want))
}

fn lists_join_to(alloc: Global, a: &[u16], b: &[u16], want: &[u16]) -> Result<bool, Memory> {
    let a = bytes(alloc, a)?;
    let b = bytes(alloc, b)?;
    Ok(
        joins_to(alloc, &a, &b, &bytes(alloc, want)?)?
            && joins_to(alloc, &a, &Filled::All, &a)?
            && joins_to(alloc, &Filled::All, &b, &b)?
            && !filled_within(&a, &Filled::All),
    )
}

#[test]
fn filled_bytes_are_those_of_both(rt: HostRuntime) -> Result<(), Fail> {
    let rows: [(&[u16], &[u16], &[u16]); 6] = [
        (&[0, 1, 2, 3], &[2, 3, 4], &[2, 3]),
        (&[0, 4095], &[1, 4095], &[4095]),
        (&[4094, 4095], &[4094], &[4094]),
        (&[0, 2, 4], &[1, 3, 5], &[]),
        (&[], &[7], &[]),
        (&[7], &[], &[]),
    ];
    for (a, b, want) in rows.iter() {
        assert!(rt; lists_join_to(rt.alloc(), *a, *b, *want)?);
    }
    Ok(())
}

#[test]
fn all_bytes_are_more_than_the_first_4096(rt: HostRuntime) -> Result<(), Fail> {
    let alloc = rt.alloc();
    let mut numbers = Vec::new(alloc);
    for number in 0..4096u16 {
        numbers.push(number)?;
    }
    let ends: &[u16] = &[0, 4095];
    assert!(rt; lists_join_to(alloc, numbers.as_slice(), ends, ends)?);
    Ok(())
}

#[test]
fn blocks_are_joined(rt: HostRuntime) -> Result<(), Fail> {
    let alloc = rt.alloc();
    let first = HeapFact {
        alive: true,
        size: 8,
        filled: Filled::All,
    };
    let second = HeapFact {
        alive: false,
        size: 16,
        filled: bytes(alloc, &[3])?,
    };
    let joined = join_facts(alloc, &first, &second)?;
    assert!(rt; !joined.alive && joined.size == 8 && joined.filled == second.filled);
    assert!(rt; fact_within(&first, &joined) && fact_within(&second, &joined));
    assert!(rt; !fact_within(&joined, &first) && !fact_within(&first, &second));
    Ok(())
}
