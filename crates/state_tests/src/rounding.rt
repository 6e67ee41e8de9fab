use crate::sample::{bases_of, between, one_block, state_of};
use po_arith::Interval;
use po_astate::{AState, AValue, below_state, round_state};
use po_base::{Memory, OrdList};
use po_bases::{Base, Entry};
use po_interval::{Members, Thresholds};
use std::alloc::Global;
use std::test::Fail;

/// The ends -100, -1, 0, 1, 10 and 100,000.
fn thresholds(alloc: Global) -> Result<Thresholds, Memory> {
    let mut coarse = OrdList::new(alloc);
    for number in [-100, -1, 0, 1, 10, 100_000] {
        coarse.insert(number)?;
    }
    Ok(Thresholds { coarse })
}

/// A state with a range, a relation and offsets of these ends, and a block of this size; no relation without ends.
fn state(alloc: Global, ends: Interval, size: u64) -> Result<AState, Memory> {
    let open = Interval { lo: None, hi: None };
    let rel = if ends == open { None } else { Some((2, ends)) };
    let value = AValue {
        set: true,
        nonzero: false,
        range: ends,
        members: Members::Any,
        rel,
        bases: bases_of(
            alloc,
            &[Entry {
                base: Base::Param(0),
                off: ends,
                grain: 1,
            }],
        )?,
    };
    state_of(
        alloc,
        value,
        None,
        one_block(alloc, (3, true, size))?,
        false,
    )
}

/// The rounded state has these ends, and is above the state.
fn rounds_to(
    alloc: Global,
    ends: (Interval, u64),
    head: bool,
    want: (Interval, u64),
) -> Result<bool, Memory> {
    let before = state(alloc, ends.0, ends.1)?;
    let rounded = round_state(alloc, &before, &thresholds(alloc)?, head)?;
    Ok(rounded == state(alloc, want.0, want.1)? && below_state(&before, &rounded))
}

#[test]
fn ends_are_rounded(rt: HostRuntime) -> Result<(), Fail> {
    let open = Interval { lo: None, hi: None };
    let high = Interval {
        lo: None,
        hi: Some(100_000),
    };
    let rows = [
        // at a head: outwards to the coarse ones, sizes downwards
        (
            (between(-7, 11), 99_999),
            true,
            (between(-100, 100_000), 10),
        ),
        ((between(0, 10), 100_000), true, (between(0, 10), 100_000)),
        ((between(5, 6), 9), true, (between(1, 10), 1)),
        // elsewhere each number of -65,536..65,536 is a threshold
        ((between(-7, 11), 65_535), false, (between(-7, 11), 65_535)),
        (
            (between(-65_536, 65_536), 65_536),
            false,
            (between(-65_536, 65_536), 65_536),
        ),
        ((between(-65_537, 65_537), 70_000), false, (high, 65_536)),
        // past all of them an end is missing, and so is a relation without ends
        ((between(-101, 100_001), 100_001), true, (open, 100_000)),
    ];
    for (ends, head, want) in rows.iter() {
        assert!(rt; rounds_to(rt.alloc(), *ends, *head, *want)?);
    }
    Ok(())
}

#[test]
fn a_node_that_is_not_reached_stays(rt: HostRuntime) -> Result<(), Fail> {
    let alloc = rt.alloc();
    let rounded = round_state(alloc, &AState::Bottom, &thresholds(alloc)?, true)?;
    assert!(rt; rounded == AState::Bottom);
    Ok(())
}
