//! How a sweep uses its store, which calls it makes, and what a fault says.

use crate::worked::{Row, hold_others, sweeps_to};
use horizontal::SweepFault;
use i_tree::Refusal;
use std::alloc::Global;
use std::test::Fail;
use test_kit::watched::{Call, Calls, Watched};

// Sweeps over a store that has handles for so many levels, with how many it is to be given.
static ROWS: [(usize, u64, Row); 3] = [
    (
        0,
        1,
        Row {
            name: "a store without a handle",
            segments: &[(0, 1, 7)],
            points: &[(0, 7)],
            wanted: Err(SweepFault::Refused(Refusal::NoHandle)),
        },
    ),
    (
        0,
        0,
        Row {
            name: "a segment that covers nothing is not stored",
            segments: &[(1, 0, 7)],
            points: &[(0, 7)],
            wanted: Ok(&[None]),
        },
    ),
    (
        usize::MAX,
        3,
        Row {
            name: "once a segment, and once a point",
            segments: &[(0, 10, 5), (2, 6, 8), (6, 9, 3)],
            points: &[(0, 5), (6, 7), (11, 9), (-1, 9)],
            wanted: Ok(&[Some(5), Some(5), None, None]),
        },
    ),
];

// Whether the store was cleared first and last, and given so many levels and at most so many searches.
fn are_within(calls: &Calls, inserts: u64, searches: usize) -> bool {
    calls.first.get() == Some(Call::Clear)
        && calls.last.get() == Some(Call::Clear)
        && calls.clears.get() == 2
        && calls.inserts.get() == inserts
        && calls.looks.get() == 0
        && calls.searches.get() <= searches as u64
}

// Whether the sweep is as it is wanted, makes no more calls than it may, and leaves the store empty.
fn is_so(alloc: Global, most: usize, inserts: u64, row: &Row) -> Result<bool, Fail> {
    let mut store = Watched::new(alloc, usize::MAX)?;
    hold_others(&mut store)?;
    store.restart(most);
    let is_wanted = sweeps_to(alloc, &mut store, row)?;
    let is_within = are_within(store.calls(), inserts, row.points.len());
    Ok(is_wanted && is_within && store.stored() == 0)
}

#[test]
fn makes_few_calls_of_its_store(rt: HostRuntime) -> Result<(), Fail> {
    for (most, inserts, row) in &ROWS {
        assert!(rt; is_so(rt.alloc(), *most, *inserts, row)?, "{}", row.name);
    }
    Ok(())
}

#[test]
fn a_fault_says_why(rt: HostRuntime) -> Result<(), Fail> {
    for (fault, said) in [
        (
            SweepFault::Overlap(12),
            "the segment at place 12 overlaps an earlier one",
        ),
        (
            SweepFault::from(Refusal::NoHandle),
            "every handle is in use",
        ),
    ] {
        assert!(rt; fault.to_string(rt.alloc())?.as_str() == said);
    }
    Ok(())
}
