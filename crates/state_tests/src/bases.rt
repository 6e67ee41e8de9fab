use crate::sample::{bases_of, between, entry};
use po_arith::Interval;
use po_base::{GlobalNo, Memory, NodeNo, SharedList, SlotNo};
use po_bases::{Base, Bases, Entry, join_bases, move_bases};
use std::alloc::Global;
use std::test::Fail;

fn joins_to(alloc: Global, a: &[Entry], b: &[Entry], want: &[Entry]) -> Result<bool, Memory> {
    let joined = join_bases(alloc, &bases_of(alloc, a)?, &bases_of(alloc, b)?)?;
    Ok(joined == bases_of(alloc, want)?)
}

#[test]
fn bases_are_joined(rt: HostRuntime) -> Result<(), Fail> {
    let p0 = entry(Base::Param(0), 0, 4, 16);
    let lower = entry(Base::Param(0), -8, 0, 4);
    let hull = entry(Base::Param(0), -8, 4, 4);
    let open = Entry {
        base: Base::Param(0),
        off: Interval {
            lo: Some(0),
            hi: None,
        },
        grain: 1,
    };
    let open_hull = Entry {
        base: Base::Param(0),
        off: Interval {
            lo: Some(-8),
            hi: None,
        },
        grain: 1,
    };
    let p1 = entry(Base::Param(1), 0, 0, 16);
    let s0 = entry(Base::Slot(SlotNo(0)), 0, 0, 16);
    let g0 = entry(Base::Global(GlobalNo(0)), 0, 0, 2);
    let h0 = entry(Base::Heap(NodeNo(0)), 8, 8, 8);
    let null = entry(Base::Null, 0, 0, 16);
    // no entries stand for unknown bases
    let rows: [(&[Entry], &[Entry], &[Entry]); 8] = [
        (&[p0, s0], &[lower, null], &[hull, s0, null]),
        (&[lower, null], &[p0, s0], &[hull, s0, null]),
        (&[p0, s0], &[p0, s0], &[p0, s0]),
        (&[p0, g0], &[p1, h0], &[p0, p1, g0, h0]),
        (&[p0, p1, g0, h0], &[null], &[]),
        (&[p0, p1, g0, h0], &[p0, g0], &[p0, p1, g0, h0]),
        (&[p0], &[], &[]),
        (&[lower], &[open], &[open_hull]),
    ];
    for (a, b, want) in rows.iter() {
        assert!(rt; joins_to(rt.alloc(), *a, *b, *want)?);
    }
    Ok(())
}

fn moved(alloc: Global, base: Base) -> Result<Option<Bases>, Memory> {
    let known = Bases::Known(SharedList::from_slice(alloc, &[entry(base, 0, 4, 16)])?);
    move_bases(alloc, &known, &between(-8, 8), 8)
}

#[test]
fn bases_are_moved(rt: HostRuntime) -> Result<(), Fail> {
    let alloc = rt.alloc();
    let want = bases_of(alloc, &[entry(Base::Param(0), -8, 12, 8)])?;
    assert!(rt; moved(alloc, Base::Param(0))? == Some(want));
    assert!(rt; moved(alloc, Base::Null)? == None);
    let unknown = move_bases(alloc, &Bases::Unknown, &between(1, 2), 1)?;
    assert!(rt; unknown == Some(Bases::Unknown));
    Ok(())
}
