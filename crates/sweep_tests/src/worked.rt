//! Worked sweeps over both kinds of store.

use horizontal::{Level, Point, Segment, SweepFault, below};
use i_tree::Refusal;
use i_tree::key::exp::KeyExpCollection;
use i_tree::key::list::KeyExpList;
use i_tree::key::tree::KeyExpTree;
use std::alloc::Global;
use std::cmp::Ordering;
use std::test::Fail;

/// A sweep, and what it is to answer.
#[derive(Clone, Copy)]
pub struct Row {
    pub name: &'static str,
    /// Each by its `x0`, `x1` and `y`.
    pub segments: &'static [(i32, i32, i32)],
    pub points: &'static [(i32, i32)],
    pub wanted: Result<&'static [Option<i32>], SweepFault>,
}

const LEAST: i32 = i32::MIN;

const MOST: i32 = i32::MAX;

static ROWS: [Row; 7] = [
    Row {
        name: "nine points of three segments",
        segments: &[(0, 10, 5), (2, 6, 8), (6, 9, 3)],
        points: &[
            (0, 5),
            (2, 9),
            (6, 7),
            (6, 3),
            (6, 9),
            (7, 9),
            (10, 4),
            (11, 9),
            (-1, 9),
        ],
        wanted: Ok(&[
            Some(5),
            Some(8),
            Some(5),
            Some(3),
            Some(8),
            Some(5),
            None,
            None,
            None,
        ]),
    },
    Row {
        name: "one ends as the other begins",
        segments: &[(0, 5, 1), (5, 9, 1)],
        points: &[],
        wanted: Err(SweepFault::Overlap(1)),
    },
    Row {
        name: "the first overlap is that which begins first",
        segments: &[(0, 9, 1), (8, 9, 1), (3, 4, 1)],
        points: &[],
        wanted: Err(SweepFault::Overlap(2)),
    },
    Row {
        name: "a segment that ends before it begins covers nothing",
        segments: &[(0, 9, 1), (5, 3, 1)],
        points: &[(4, 1)],
        wanted: Ok(&[Some(1)]),
    },
    Row {
        name: "an overlap past the last point",
        segments: &[(0, 1, 7), (50, 60, 2), (55, 56, 2)],
        points: &[(0, 7)],
        wanted: Err(SweepFault::Overlap(2)),
    },
    Row {
        name: "of segments that begin together the first place comes first",
        segments: &[(4, 4, 1), (4, 9, 1), (4, 5, 1)],
        points: &[],
        wanted: Err(SweepFault::Overlap(1)),
    },
    Row {
        name: "from end to end of the numbers",
        segments: &[(LEAST, MOST, LEAST), (MOST, MOST, MOST)],
        points: &[(LEAST, LEAST), (MOST, MOST), (MOST, 0), (LEAST, MOST)],
        wanted: Ok(&[Some(LEAST), Some(MOST), Some(LEAST), Some(LEAST)]),
    },
];

/// The answer that stands in `out` before a sweep.
pub const EARLIER: Option<i32> = Some(77);

/// Stores levels that a sweep would answer, and one that its segments would overlap, if they stayed.
pub fn hold_others<C: KeyExpCollection<Level, i32, Option<i32>>>(
    store: &mut C,
) -> Result<(), Refusal> {
    for y in [LEAST, 1, 4] {
        store.insert_new(Level { y, last: MOST }, Some(y), LEAST)?;
    }
    Ok(())
}

/// Whether nothing is stored, not even what has ended.
pub fn is_empty<C: KeyExpCollection<Level, i32, Option<i32>>>(store: &mut C) -> bool {
    store
        .first_greater_by(LEAST, None, |_| Ordering::Greater)
        .is_none()
}

// Whether the first is the earlier answer, and the others are those.
fn has_joined(out: &[Option<i32>], answers: &[Option<i32>]) -> bool {
    match out {
        [first, rest @ ..] => *first == EARLIER && rest == answers,
        [] => false,
    }
}

/// Whether the outcome of a sweep, and what it left in `out` behind the earlier answer, are those that are wanted.
pub fn is_wanted(
    wanted: Result<&[Option<i32>], SweepFault>,
    outcome: Result<(), SweepFault>,
    out: &[Option<i32>],
) -> bool {
    match wanted {
        Ok(answers) => outcome == Ok(()) && has_joined(out, answers),
        Err(fault) => outcome == Err(fault) && has_joined(out, &[]),
    }
}

// The segments of a row.
fn segments_of(alloc: Global, row: &Row) -> Result<Vec<Segment>, Fail> {
    let mut segments = Vec::new(alloc);
    for (x0, x1, y) in row.segments.iter().copied() {
        segments.push(Segment { x0, x1, y })?;
    }
    Ok(segments)
}

// The points of a row.
fn points_of(alloc: Global, row: &Row) -> Result<Vec<Point>, Fail> {
    let mut points = Vec::new(alloc);
    for (x, y) in row.points.iter().copied() {
        points.push(Point { x, y })?;
    }
    Ok(points)
}

/// Sweeps into an `out` that has an answer. Tells whether all is as it is wanted.
pub fn sweeps_to<C: KeyExpCollection<Level, i32, Option<i32>>>(
    alloc: Global,
    store: &mut C,
    row: &Row,
) -> Result<bool, Fail> {
    let segments = segments_of(alloc, row)?;
    let points = points_of(alloc, row)?;
    let mut out = vec![in alloc; EARLIER]?;
    let outcome = below(store, &segments, &points, &mut out);
    Ok(is_wanted(row.wanted, outcome, &out))
}

// Sweeps over a store that holds others. Tells whether all is as it is wanted, and the store is empty.
fn sweeps_over<C: KeyExpCollection<Level, i32, Option<i32>>>(
    alloc: Global,
    store: &mut C,
    row: &Row,
) -> Result<bool, Fail> {
    hold_others(store)?;
    Ok(sweeps_to(alloc, store, row)? && is_empty(store))
}

// A function that goes over a table is dear to prove if it names the table.
fn rows() -> &'static [Row] {
    &ROWS
}

#[test]
fn sweeps_over_a_list_answer_as_worked_by_hand(rt: HostRuntime) -> Result<(), Fail> {
    let mut list = KeyExpList::new(rt.alloc(), 0)?;
    for row in rows() {
        assert!(rt; sweeps_over(rt.alloc(), &mut list, row)?, "{}", row.name);
    }
    Ok(())
}

#[test]
fn sweeps_over_a_tree_answer_as_worked_by_hand(rt: HostRuntime) -> Result<(), Fail> {
    let mut tree = KeyExpTree::new(rt.alloc(), 0)?;
    for row in rows() {
        assert!(rt; sweeps_over(rt.alloc(), &mut tree, row)?, "{}", row.name);
    }
    Ok(())
}
