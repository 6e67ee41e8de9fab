use crate::sample::{Fault, sample_of};
use po_base::{List, Memory, NodeNo};
use po_flow::{Steps, least_table, least_table_counted};
use std::alloc::Global;
use std::test::Fail as Failed;

/// What isn't a node.
const NONE: u32 = u32::MAX;

/// Evaluations of edges.
struct Evaluations;

/// A flow and its least table, which was written down by hand.
#[derive(Drop)]
struct Row {
    exits: &'static [(u32, u32)],
    gains: &'static [u32],
    first: u32,
    cap: u32,
    states: &'static [u32],
    /// At most so many evaluations: one for each edge, and one more for each rise of its source.
    steps: u64,
}

#[test]
fn least_tables(rt: HostRuntime) -> Result<(), Failed> {
    let alloc = rt.alloc();
    let rows = [
        // One node, without an edge.
        Row {
            exits: &[(NONE, NONE)],
            gains: &[3],
            first: 2,
            cap: 9,
            states: &[2],
            steps: 0,
        },
        // Straight on.
        Row {
            exits: &[(1, NONE), (2, NONE), (NONE, NONE)],
            gains: &[1, 2, 3],
            first: 0,
            cap: 9,
            states: &[0, 1, 3],
            steps: 2,
        },
        // A diamond.
        Row {
            exits: &[(1, 2), (3, NONE), (3, NONE), (NONE, NONE)],
            gains: &[1, 5, 2, 0],
            first: 0,
            cap: 9,
            states: &[0, 1, 1, 6],
            steps: 4,
        },
        // A loop of nodes 1 and 2, which leaves at its head.
        Row {
            exits: &[(1, NONE), (2, 3), (1, NONE), (4, NONE), (NONE, NONE)],
            gains: &[0, 0, 1, 2, 0],
            first: 0,
            cap: 4,
            states: &[0, 4, 4, 4, 4],
            steps: 17,
        },
        // A loop of nodes 2 and 3 in a loop of nodes 1 to 4.
        Row {
            exits: &[
                (1, NONE),
                (2, 5),
                (3, 4),
                (2, NONE),
                (1, NONE),
                (NONE, NONE),
            ],
            gains: &[0, 0, 0, 0, 1, 0],
            first: 0,
            cap: 3,
            states: &[0, 3, 3, 3, 3, 3],
            steps: 25,
        },
        // Nodes 2 and 3 can't be reached. Their states are the least that their own edges allow.
        Row {
            exits: &[(1, NONE), (NONE, NONE), (1, 3), (NONE, NONE)],
            gains: &[1, 0, 3, 0],
            first: 0,
            cap: 9,
            states: &[0, 3, 0, 3],
            steps: 3,
        },
        // A circle that can't be reached, and makes nothing of the least state.
        Row {
            exits: &[(1, NONE), (NONE, NONE), (3, 1), (2, NONE)],
            gains: &[1, 0, 0, 0],
            first: 5,
            cap: 9,
            states: &[5, 6, 0, 0],
            steps: 4,
        },
        // An edge from the start to itself that makes more of its state.
        Row {
            exits: &[(0, 1), (NONE, NONE)],
            gains: &[2, 0],
            first: 1,
            cap: 7,
            states: &[7, 7],
            steps: 8,
        },
        // An edge from a node to itself that makes nothing of its state.
        Row {
            exits: &[(1, NONE), (1, 2), (NONE, NONE)],
            gains: &[1, 0, 0],
            first: 1,
            cap: 7,
            states: &[1, 2, 2],
            steps: 3,
        },
    ];
    for row in &rows {
        let flow = sample_of(row.exits, row.gains, &[], row.first, row.cap, Fault::Never).ok_or(
            "row",
        )?;
        let table = least_table(alloc, &flow)?;
        assert_eq!(rt; table.into_list().as_slice(), row.states);
        let before = flow.evaluated.get();
        let mut steps = Steps::<Evaluations>::new();
        let counted = least_table_counted(alloc, &flow, &mut steps)?;
        assert_eq!(rt; counted.table.into_list().as_slice(), row.states);
        assert_eq!(rt; counted.rises.len(), row.states.len());
        assert!(rt; steps.count() <= row.steps);
        assert_eq!(rt; before, steps.count());
        assert_eq!(rt; flow.evaluated.get(), before.saturating_add(steps.count()));
    }
    Ok(())
}

/// The edges from 0 to 999, from 999 to 998, and so on down to 1.
fn descending(alloc: Global) -> Result<List<(u32, u32)>, Memory> {
    let mut exits = List::new(alloc);
    exits.push((999, NONE))?;
    exits.push((NONE, NONE))?;
    for n in 1..999 {
        exits.push((n, NONE))?;
    }
    Ok(exits)
}

#[test]
fn descends_in_one_pass(rt: HostRuntime) -> Result<(), Failed> {
    let alloc = rt.alloc();
    let exits = descending(alloc)?;
    let flow = sample_of(exits.as_slice(), &[1], &[], 0, 1, Fault::Never).ok_or("no nodes")?;
    let mut steps = Steps::<Evaluations>::new();
    let counted = least_table_counted(alloc, &flow, &mut steps)?;
    assert!(rt; steps.count() <= 2997);
    assert_eq!(rt; steps.count(), 999, "each edge once");
    assert_eq!(rt; flow.evaluated.get(), steps.count());
    let mut reached = 0u32;
    for state in counted.table.into_list().as_slice() {
        reached = reached.saturating_add(*state);
    }
    assert_eq!(rt; reached, 999, "all nodes but the first");
    Ok(())
}

#[test]
fn rises_and_states_are_told(rt: HostRuntime) -> Result<(), Failed> {
    let alloc = rt.alloc();
    let exits = [(0, 1), (NONE, NONE)];
    let flow = sample_of(&exits, &[2], &[], 1, 7, Fault::Never).ok_or("no nodes")?;
    let mut steps = Steps::<Evaluations>::new();
    steps.tick();
    let counted = least_table_counted(alloc, &flow, &mut steps)?;
    assert_eq!(rt; counted.rises.as_slice(), [3, 2].as_slice());
    assert_eq!(rt; steps.count(), 9, "one before, and two edges four times");
    assert_eq!(rt; counted.table.len(), 2);
    if counted.table.len() == 2 {
        assert_eq!(rt; *counted.table.at(NodeNo(0)), 7);
    }
    Ok(())
}

#[test]
fn want_of_memory_is_told(rt: HostRuntime) -> Result<(), Failed> {
    let alloc = rt.alloc();
    let exits = [(1, NONE), (NONE, NONE)];
    for fault in [Fault::Edge, Fault::Join] {
        let flow = sample_of(&exits, &[1], &[], 0, 3, fault).ok_or("no nodes")?;
        let mut steps = Steps::<Evaluations>::new();
        assert!(rt; least_table(alloc, &flow).is_err());
        assert!(rt; least_table_counted(alloc, &flow, &mut steps).is_err());
        assert_eq!(rt; steps.count(), 0);
    }
    Ok(())
}
