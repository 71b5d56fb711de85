//! Closed edges and their rings, as worked by hand, and each request for memory refused in turn.
//!
//! Which ring comes first, and at which of its points it begins, may change with the code.

ghost use Rattle.std.specs.Prelude.{IfOk};
ghost use Rattle.noding.specs.Windings.{IsClosed};

use crate::walks::{edges_of, push_walk};
use i_tree::Refusal;
use overlay::contours::{contours, outlines};
use plane::edge::Edge;
use plane::point::Point;
use std::alloc::Global;
use std::test::Fail;
use test_kit::Refusing;
use test_kit::in_turn::{Trial, refuse_in_turn};

const LEAST: i32 = i32::MIN;

const MOST: i32 = i32::MAX;

// Closed edges by the walks that they make, each back to its first point; whether their rings are told without points on straight
// lines; the points of all rings one after another, and where each ring stops.
struct Row {
    name: &'static str,
    walks: &'static [&'static [[i32; 2]]],
    are_outlines: bool,
    points: &'static [[i32; 2]],
    ends: &'static [usize],
}

static ROWS: [Row; 17] = [
    Row {
        name: "no edge",
        walks: &[],
        points: &[],
        are_outlines: false,
        ends: &[],
    },
    Row {
        name: "a square",
        walks: &[&[[0, 0], [2, 0], [2, 2], [0, 2]]],
        points: &[[0, 0], [2, 0], [2, 2], [0, 2]],
        are_outlines: false,
        ends: &[4],
    },
    Row {
        name: "two squares that touch at a corner",
        walks: &[
            &[[0, 0], [1, 0], [1, 1], [0, 1]],
            &[[1, 1], [2, 1], [2, 2], [1, 2]],
        ],
        points: &[
            [0, 0],
            [1, 0],
            [1, 1],
            [0, 1],
            [1, 1],
            [2, 1],
            [2, 2],
            [1, 2],
        ],
        are_outlines: false,
        ends: &[4, 8],
    },
    Row {
        name: "a bow-tie that is cut where it crosses itself",
        walks: &[&[[0, 0], [1, 1], [2, 2], [2, 0], [1, 1], [0, 2]]],
        points: &[[0, 0], [1, 1], [0, 2], [1, 1], [2, 2], [2, 0]],
        are_outlines: false,
        ends: &[3, 6],
    },
    // The walk comes to the hole before it is round the square, and leaves it as a ring of its own.
    Row {
        name: "a hole that touches its outer ring",
        walks: &[
            &[[0, 0], [4, 0], [4, 2], [4, 4], [0, 4]],
            &[[4, 2], [2, 1], [2, 3]],
        ],
        points: &[
            [4, 2],
            [2, 1],
            [2, 3],
            [0, 0],
            [4, 0],
            [4, 2],
            [4, 4],
            [0, 4],
        ],
        are_outlines: false,
        ends: &[3, 8],
    },
    Row {
        name: "a hole that touches its outer ring where the walk begins",
        walks: &[&[[0, 0], [4, 0], [4, 4], [0, 4]], &[[0, 0], [1, 2], [2, 1]]],
        points: &[[0, 0], [4, 0], [4, 4], [0, 4], [0, 0], [1, 2], [2, 1]],
        are_outlines: false,
        ends: &[4, 7],
    },
    Row {
        name: "a ring of one point",
        walks: &[&[[5, 5]]],
        points: &[[5, 5]],
        are_outlines: false,
        ends: &[1],
    },
    Row {
        name: "a ring of two points",
        walks: &[&[[0, 0], [3, 1]]],
        points: &[[0, 0], [3, 1]],
        are_outlines: false,
        ends: &[2],
    },
    Row {
        name: "one ring twice",
        walks: &[&[[0, 0], [2, 0], [0, 2]], &[[0, 0], [2, 0], [0, 2]]],
        points: &[[0, 0], [2, 0], [0, 2], [0, 0], [2, 0], [0, 2]],
        are_outlines: false,
        ends: &[3, 6],
    },
    // Nothing turns further left than the way straight back.
    Row {
        name: "there and back along one line",
        walks: &[&[[0, 0], [1, 0], [2, 0], [1, 0]]],
        points: &[[0, 0], [1, 0], [1, 0], [2, 0]],
        are_outlines: false,
        ends: &[2, 4],
    },
    Row {
        name: "four squares around a hole",
        walks: &[
            &[[1, 0], [2, 0], [2, 1], [1, 1]],
            &[[0, 1], [1, 1], [1, 2], [0, 2]],
            &[[2, 1], [3, 1], [3, 2], [2, 2]],
            &[[1, 2], [2, 2], [2, 3], [1, 3]],
        ],
        points: &[
            [0, 1],
            [1, 1],
            [1, 2],
            [0, 2],
            [1, 0],
            [2, 0],
            [2, 1],
            [1, 1],
            [1, 2],
            [2, 2],
            [2, 3],
            [1, 3],
            [2, 1],
            [3, 1],
            [3, 2],
            [2, 2],
        ],
        are_outlines: false,
        ends: &[4, 8, 12, 16],
    },
    // The edge that is a point turns nowhere, so the walk goes on as if it weren't there.
    Row {
        name: "a point where two squares touch",
        walks: &[
            &[[0, 0], [1, 0], [1, 1], [0, 1]],
            &[[1, 1]],
            &[[1, 1], [2, 1], [2, 2], [1, 2]],
        ],
        points: &[
            [0, 0],
            [1, 0],
            [1, 1],
            [0, 1],
            [1, 1],
            [1, 1],
            [2, 1],
            [2, 2],
            [1, 2],
        ],
        are_outlines: false,
        ends: &[4, 5, 9],
    },
    Row {
        name: "from corner to corner",
        walks: &[
            &[[LEAST, LEAST], [MOST, LEAST], [MOST, MOST]],
            &[[LEAST, LEAST], [MOST, MOST], [LEAST, MOST]],
        ],
        points: &[
            [LEAST, LEAST],
            [MOST, LEAST],
            [MOST, MOST],
            [LEAST, LEAST],
            [MOST, MOST],
            [LEAST, MOST],
        ],
        are_outlines: false,
        ends: &[3, 6],
    },
    Row {
        name: "no edge",
        walks: &[],
        points: &[],
        are_outlines: true,
        ends: &[],
    },
    // The ring begins in the middle of a side.
    Row {
        name: "a square with points along its sides",
        walks: &[&[
            [0, 1],
            [0, 0],
            [1, 0],
            [2, 0],
            [3, 0],
            [3, 3],
            [1, 3],
            [0, 3],
            [0, 2],
        ]],
        points: &[[0, 0], [3, 0], [3, 3], [0, 3]],
        are_outlines: true,
        ends: &[4],
    },
    Row {
        name: "a square beside a square with a point along its side",
        walks: &[
            &[[0, 0], [1, 0], [1, 1], [0, 1]],
            &[[1, 1], [2, 1], [3, 1], [2, 2]],
        ],
        points: &[[0, 0], [1, 0], [1, 1], [0, 1], [1, 1], [3, 1], [2, 2]],
        are_outlines: true,
        ends: &[4, 7],
    },
    // It turns back at both points, and goes straight on at none.
    Row {
        name: "a ring of two points, and one of one",
        walks: &[&[[0, 0], [3, 1]], &[[5, 5]]],
        points: &[[0, 0], [3, 1], [5, 5]],
        are_outlines: true,
        ends: &[2, 3],
    },
];

fn points_of(alloc: Global, row: &Row) -> Result<Vec<Point>, Fail> {
    let mut points = Vec::new(alloc);
    for [x, y] in row.points {
        points.push(Point { x: *x, y: *y })?;
    }
    Ok(points)
}

// Appends the rings of the edges, or their outlines.
fn trace(
    edges: &[Edge],
    are_outlines: bool,
    points: &mut Vec<Point>,
    ends: &mut Vec<usize>,
) -> Result<(), Refusal>
    requires { IsClosed edges.now }
{
    if are_outlines {
        return outlines(edges, points, ends);
    }
    contours(edges, points, ends)
}

// Whether the edges have these rings.
fn has_rings(alloc: Global, row: &Row) -> Result<bool, Fail> {
    let edges = edges_of(alloc, row.walks)?;
    let mut points = Vec::new(alloc);
    let mut ends = Vec::new(alloc);
    let outcome = trace(&edges, row.are_outlines, &mut points, &mut ends);
    let same_points = points == points_of(alloc, row)?;
    Ok(outcome == Ok(()) && same_points && ends.as_slice() == row.ends)
}

#[test]
fn edges_have_the_rings_worked_by_hand(rt: HostRuntime) -> Result<(), Fail> {
    for row in &ROWS {
        assert!(rt; has_rings(rt.alloc(), row)?, "{}", row.name);
    }
    Ok(())
}

// The rings behind what was there.
#[derive(Drop)]
struct Contoured<'a> {
    points: Vec<Point, &'a Refusing<Global>>,
    ends: Vec<usize, &'a Refusing<Global>>,
    outcome: Result<(), Refusal>,
}

#[derive(Drop)]
struct Contouring<'a> {
    memory: &'a Refusing<Global>,
    edges: Vec<Edge>,
    ghost closed: { IsClosed edges.items },
}

impl<'a> Trial for Contouring<'a> {
    type State = Contoured<'a>;

    fn begin(&self) -> Option<Contoured<'a>> {
        let mut points = Vec::new(self.memory);
        points.push(Point { x: 7, y: 8 }).ok()?;
        let mut ends = Vec::new(self.memory);
        ends.push(1).ok()?;
        Some(Contoured {
            points,
            ends,
            outcome: Ok(()),
        })
    }

    fn call(&self, contoured: &mut Contoured<'a>) {
        contoured.outcome = contours(&self.edges, &mut contoured.points, &mut contoured.ends);
    }

    // Where room for all was asked in advance and refused, the call may still have found room for each.
    fn is_refused(&self, contoured: &mut Contoured<'a>, _nth: u64) -> bool {
        let done = self.is_done(contoured);
        if done {
            contoured.points.truncate(1);
            contoured.ends.truncate(1);
        }
        let refused = contoured.outcome == Err(Refusal::OutOfMemory);
        let kept = contoured.points.len() == 1 && contoured.ends.as_slice() == [1].as_slice();
        (done || refused) && kept
    }

    // Each of twelve squares is a ring.
    fn is_done(&self, contoured: &mut Contoured<'a>) -> bool {
        contoured.outcome == Ok(()) && contoured.points.len() == 49 && contoured.ends.len() == 13
    }
}

// The edges of twelve squares, each of which touches the next one at a corner.
fn squares(alloc: Global) -> Result<Vec<Edge>, Fail>
    ensures { IfOk result (λ edges. IsClosed edges.items) }
{
    let mut edges = Vec::new(alloc);
    for k in 0..12 {
        push_walk(
            &mut edges,
            &[[k, k], [k + 1, k], [k + 1, k + 1], [k, k + 1]],
        )?;
    }
    Ok(edges)
}

#[test]
fn keeps_points_and_ring_ends_at_each_refusal(rt: HostRuntime) -> Result<(), Fail> {
    let memory = Refusing::new(rt.alloc());
    let edges = squares(rt.alloc())?;
    let contouring = Contouring {
        memory: &memory,
        edges,
    };
    assert!(rt; refuse_in_turn(&memory, &contouring).is_ok_and(|requests| requests > 5));
    Ok(())
}
