//! Worked sets of edges and points, over a status that is a list and then a tree. What holds of one holds by the same clauses of
//! each.

use crate::edges::{Ends, edge, edges_of, turned};
use i_tree::Refusal;
use i_tree::status::exp::StatusCollection;
use plane::edge::Edge;
use plane::locate::{ActiveEdge, LocateFault, Point, locate};
use plane::sweep_line::GrowingStatus;
use std::alloc::Global;
use std::cmp::Ordering;
use std::test::Fail;

/// The answers that a call gives, or its fault.
pub type Wanted<'a> = Result<&'a [Option<usize>], LocateFault>;

// Edges and points, and what is wanted.
struct Row {
    name: &'static str,
    edges: &'static [Ends],
    points: &'static [(i32, i32)],
    wanted: Wanted<'static>,
}

const LEAST: i32 = i32::MIN;

const MOST: i32 = i32::MAX;

static ROWS: [Row; 13] = [
    Row {
        name: "the edge straight below",
        edges: &[[0, 0, 10, 10]],
        points: &[(5, 5), (5, 6), (5, 4), (10, 10), (0, 0), (-1, 9)],
        wanted: Ok(&[Some(0), Some(0), None, None, Some(0), None]),
    },
    Row {
        // At x 5 the one of the chain ends, and the other covers it.
        name: "one edge of a chain covers where they meet",
        edges: &[[0, 0, 5, 5], [5, 5, 10, 0], [0, -3, 10, -3]],
        points: &[(5, 6), (5, 5), (5, 4), (5, -3), (5, -4), (4, 4), (6, 4)],
        wanted: Ok(&[Some(1), Some(1), Some(2), Some(2), None, Some(0), Some(1)]),
    },
    Row {
        name: "an upright edge and a point above a level one",
        edges: &[[5, 0, 5, 9], [5, 3, 5, 3], [0, 1, 10, 1]],
        points: &[(5, 9), (5, 3), (5, 0)],
        wanted: Ok(&[Some(2), Some(2), None]),
    },
    Row {
        name: "edges that touch do not cross",
        edges: &[[0, 0, 10, 10], [5, 5, 9, 0]],
        points: &[(6, 7), (6, 4), (6, 3)],
        wanted: Ok(&[Some(0), Some(1), None]),
    },
    Row {
        name: "two that cross",
        edges: &[[0, 0, 10, 10], [0, 10, 10, 0]],
        points: &[(5, 6)],
        wanted: Err(LocateFault::Cross(0, 1)),
    },
    // The level one lies between the two others up to x 4; they cross at x 5.
    Row {
        name: "two that cross behind the end of the one between",
        edges: &[[0, 0, 10, 10], [0, 5, 4, 5], [0, 10, 10, 0]],
        points: &[(0, 6)],
        wanted: Err(LocateFault::Cross(0, 2)),
    },
    Row {
        name: "the one that begins last crosses the one above it",
        edges: &[[0, 0, 10, 0], [0, 10, 10, 10], [1, 5, 9, 15]],
        points: &[],
        wanted: Err(LocateFault::Cross(1, 2)),
    },
    Row {
        name: "a crossing past the last point",
        edges: &[[0, 0, 1, 0], [50, 0, 60, 10], [50, 10, 60, 0]],
        points: &[(0, 1)],
        wanted: Err(LocateFault::Cross(1, 2)),
    },
    Row {
        name: "the diagonals of the whole plane",
        edges: &[[LEAST, LEAST, MOST, MOST], [LEAST, MOST, MOST, LEAST]],
        points: &[],
        wanted: Err(LocateFault::Cross(0, 1)),
    },
    Row {
        // At x 0 the second is half below 0.
        name: "a diagonal of the whole plane, and one beside it",
        edges: &[[LEAST, LEAST, MOST, MOST], [LEAST, LEAST, MOST, MOST - 1]],
        points: &[(0, 0), (0, -1), (MOST - 1, MOST - 1), (MOST, MOST)],
        wanted: Ok(&[Some(0), None, Some(0), None]),
    },
    Row {
        name: "level ones over the whole plane",
        edges: &[
            [LEAST, LEAST, MOST, LEAST],
            [LEAST, MOST, MOST, MOST],
            [LEAST, 0, MOST, 0],
        ],
        points: &[
            (LEAST, MOST),
            (MOST - 1, MOST - 1),
            (0, 0),
            (0, -1),
            (LEAST, LEAST),
            (MOST, 0),
        ],
        wanted: Ok(&[Some(1), Some(2), Some(2), Some(0), Some(0), None]),
    },
    Row {
        // Three end at the corner, which they don't cover, and two begin there.
        name: "edges that end at a corner are not told there",
        edges: &[
            [-5, 9, 0, 0],
            [-5, 0, 0, 0],
            [0, 0, 10, -3],
            [-5, -9, 0, 0],
            [0, 0, 10, -2],
        ],
        points: &[(0, 0), (-1, 0), (-1, 1), (-1, 2)],
        wanted: Ok(&[Some(4), Some(1), Some(1), Some(0)]),
    },
    Row {
        name: "points between two heights that are no whole numbers",
        edges: &[[0, 0, 3, 1], [0, 1, 3, 2]],
        points: &[(1, 0), (1, 1), (2, 1), (2, 2)],
        wanted: Ok(&[None, Some(0), Some(0), Some(1)]),
    },
];

/// The answer that stands in `out` before a call.
pub const EARLIER: Option<usize> = Some(77);

// Stores two level edges over the whole plane, that a call would answer, or find to cross others, if they stayed.
fn hold_others<C: StatusCollection<ActiveEdge, i64, ()>>(status: &mut C) -> Result<(), Refusal> {
    for y in [-4, 1] {
        let edge = Edge {
            x0: LEAST,
            y0: y,
            x1: MOST,
            y1: y,
        };
        let stands = |other: ActiveEdge| -> Ordering { other.edge.y0.cmp(&y) };
        let _ = status.insert_by(0, stands, ActiveEdge { edge, place: 5 }, ())?;
    }
    Ok(())
}

/// Whether nothing is stored, not even what has ended.
pub fn is_empty<C: StatusCollection<ActiveEdge, i64, ()>>(status: &mut C) -> bool {
    let (below, above) = status.neighbours_by(i64::MIN, |_| Ordering::Greater);
    below.is_none() && above.is_none()
}

// Whether the first is the earlier answer, and the others are those.
fn has_joined(out: &[Option<usize>], answers: &[Option<usize>]) -> bool {
    match out {
        [first, rest @ ..] => *first == EARLIER && rest == answers,
        [] => false,
    }
}

/// Whether the outcome of a call, and what it left in `out` behind the earlier answer, are those that are wanted.
pub fn is_wanted(wanted: Wanted, outcome: Result<(), LocateFault>, out: &[Option<usize>]) -> bool {
    match wanted {
        Ok(answers) => outcome == Ok(()) && has_joined(out, answers),
        Err(fault) => outcome == Err(fault) && has_joined(out, &[]),
    }
}

// Locates over a status that holds others, into an `out` that has an answer. Tells whether all is as it is wanted, and the
// status is empty.
fn locates_to<C: StatusCollection<ActiveEdge, i64, ()>>(
    alloc: Global,
    status: &mut C,
    edges: &[Edge],
    points: &[Point],
    wanted: Wanted,
) -> Result<bool, Fail> {
    hold_others(status)?;
    let mut out = vec![in alloc; EARLIER]?;
    let outcome = locate(status, edges, points, &mut out);
    Ok(is_wanted(wanted, outcome, &out) && is_empty(status))
}

fn locates_by_growing(
    alloc: Global,
    edges: &[Edge],
    points: &[Point],
    wanted: Wanted,
) -> Result<bool, Fail> {
    locates_to(
        alloc,
        &mut GrowingStatus::new(alloc)?,
        edges,
        points,
        wanted,
    )
}

fn points_of(alloc: Global, places: &[(i32, i32)]) -> Result<Vec<Point>, Fail> {
    let mut points = Vec::new(alloc);
    for (x, y) in places.iter().copied() {
        points.push(Point { x, y })?;
    }
    Ok(points)
}

// The ends of edges that go the other way.
fn all_turned(alloc: Global, edges: &[Ends]) -> Result<Vec<Ends>, Fail> {
    let mut others = Vec::new(alloc);
    for ends in edges {
        others.push(turned(*ends))?;
    }
    Ok(others)
}

// Locates the edges as they are, and each turned round.
fn locates_so(
    alloc: Global,
    edges: &[Ends],
    places: &[(i32, i32)],
    wanted: Wanted,
) -> Result<bool, Fail> {
    let points = points_of(alloc, places)?;
    let others = edges_of(alloc, &all_turned(alloc, edges)?)?;
    let is_turned_told = locates_by_growing(alloc, &others, &points, wanted)?;
    let edges = edges_of(alloc, edges)?;
    Ok(locates_by_growing(alloc, &edges, &points, wanted)? && is_turned_told)
}

// A function that goes over a table is dear to prove if it names the table.
fn rows() -> &'static [Row] {
    &ROWS
}

#[test]
fn locates_as_worked_by_hand(rt: HostRuntime) -> Result<(), Fail> {
    for row in rows() {
        assert!(rt;
            locates_so(rt.alloc(), row.edges, row.points, row.wanted)?,
            "{}",
            row.name
        );
    }
    Ok(())
}

// So many edges above one another, which begin in no order of their heights, a point on each, and a point on none. Then two that
// begin behind them, and a point on each of these.
fn push_stack(
    count: u8,
    edges: &mut Vec<Edge>,
    points: &mut Vec<Point>,
    answers: &mut Vec<Option<usize>>,
) -> Result<(), Fail> {
    for place in 0..count {
        let y = place as i32 * 37 % 101;
        edges.push(edge([0, y, 30, y]))?;
        points.push(Point { x: 25, y })?;
        answers.push(Some(place as usize))?;
    }
    points.push(Point { x: 35, y: 200 })?;
    answers.push(None)?;
    for place in 0..2u8 {
        let y = place as i32;
        edges.push(edge([40, y, 70, y]))?;
        points.push(Point { x: 50, y })?;
        answers.push(Some(count as usize + place as usize))?;
    }
    Ok(())
}

// Locates in such a stack.
fn locates_stack<C: StatusCollection<ActiveEdge, i64, ()>>(
    alloc: Global,
    status: &mut C,
    count: u8,
) -> Result<bool, Fail> {
    let mut edges = Vec::new(alloc);
    let mut points = Vec::new(alloc);
    let mut answers = Vec::new(alloc);
    push_stack(count, &mut edges, &mut points, &mut answers)?;
    locates_to(alloc, status, &edges, &points, Ok(&answers))
}

#[test]
fn a_status_serves_few_many_and_few_again(rt: HostRuntime) -> Result<(), Fail> {
    let mut status = GrowingStatus::new(rt.alloc())?;
    for count in [3, 100, 3, 64, 65, 3] {
        assert!(rt;
            locates_stack(rt.alloc(), &mut status, count)?,
            "{count} edges"
        );
    }
    Ok(())
}

#[test]
fn a_fault_says_why(rt: HostRuntime) -> Result<(), Fail> {
    for (fault, said) in [
        (
            LocateFault::Cross(3, 12),
            "the edges at places 3 and 12 cross",
        ),
        (
            LocateFault::from(Refusal::NoHandle),
            "every handle is in use",
        ),
    ] {
        assert!(rt; fault.to_string(rt.alloc())?.as_str() == said);
    }
    Ok(())
}
