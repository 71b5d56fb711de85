//! Rings and the boundary of what an operation makes of them, as worked by hand, and each request for memory refused in turn.

use crate::filled::{DIFFERENCE, EVEN_ODD, INTERSECTION, UNION, XOR};
use crate::walks::{Regions, bound_walks};
use i_tree::Refusal;
use i_tree::status::tree::StatusTree;
use overlay::fill::Choice;
use plane::point::Point;
use plane::sweep_line::ActiveEdge;
use std::alloc::{AllocError, Global};
use std::test::Fail;
use test_kit::Refusing;
use test_kit::in_turn::{Trial, refuse_in_turn};

// Rings by their points, which aren't cut where they cross, and the rings that bound the result: each begins at its least point
// by x and then by y, and they are in the order of these.
struct Row {
    name: &'static str,
    subject: &'static [&'static [[i32; 2]]],
    clip: &'static [&'static [[i32; 2]]],
    choice: Choice,
    points: &'static [[i32; 2]],
    ends: &'static [usize],
}

const SQUARE: &[[i32; 2]] = &[[0, 0], [2, 0], [2, 2], [0, 2]];

const SQUARE_ASIDE: &[[i32; 2]] = &[[1, 1], [3, 1], [3, 3], [1, 3]];

static ROWS: [Row; 6] = [
    Row {
        name: "two squares that overlap, Union",
        subject: &[SQUARE],
        clip: &[SQUARE_ASIDE],
        choice: UNION,
        points: &[
            [0, 0],
            [2, 0],
            [2, 1],
            [3, 1],
            [3, 3],
            [1, 3],
            [1, 2],
            [0, 2],
        ],
        ends: &[8],
    },
    Row {
        name: "two squares that overlap, Intersection",
        subject: &[SQUARE],
        clip: &[SQUARE_ASIDE],
        choice: INTERSECTION,
        points: &[[1, 1], [2, 1], [2, 2], [1, 2]],
        ends: &[4],
    },
    Row {
        name: "two squares that overlap, Difference",
        subject: &[SQUARE],
        clip: &[SQUARE_ASIDE],
        choice: DIFFERENCE,
        points: &[[0, 0], [2, 0], [2, 1], [1, 1], [1, 2], [0, 2]],
        ends: &[6],
    },
    Row {
        name: "two squares that overlap, Xor",
        subject: &[SQUARE],
        clip: &[SQUARE_ASIDE],
        choice: XOR,
        points: &[
            [0, 0],
            [2, 0],
            [2, 1],
            [1, 1],
            [1, 2],
            [0, 2],
            [1, 2],
            [2, 2],
            [2, 1],
            [3, 1],
            [3, 3],
            [1, 3],
        ],
        ends: &[6, 12],
    },
    // The two edges cross in (3/2, 1/2), which rounds to (2, 1).
    Row {
        name: "a bow-tie whose crossing isn't whole",
        subject: &[&[[0, 0], [3, 1], [3, 0], [0, 1]]],
        clip: &[],
        choice: EVEN_ODD,
        points: &[[0, 0], [2, 1], [0, 1], [2, 1], [3, 0], [3, 1]],
        ends: &[3, 6],
    },
    Row {
        name: "nothing",
        subject: &[],
        clip: &[],
        choice: UNION,
        points: &[],
        ends: &[],
    },
];

fn points_of(alloc: Global, list: &[[i32; 2]]) -> Result<Vec<Point>, AllocError> {
    let mut points = Vec::new(alloc);
    for [x, y] in list {
        points.push(Point { x: *x, y: *y })?;
    }
    Ok(points)
}

fn is_bounded(alloc: Global, row: &Row) -> Result<bool, Fail> {
    let mut status = StatusTree::new(alloc, 0)?;
    let mut points = Vec::new(alloc);
    let mut ends = Vec::new(alloc);
    let regions = Regions {
        subject: row.subject,
        clip: row.clip,
        choice: row.choice,
    };
    let outcome = bound_walks(alloc, regions, &mut status, &mut points, &mut ends)?;
    let same_points = points == points_of(alloc, row.points)?;
    Ok(outcome == Ok(()) && same_points && ends.as_slice() == row.ends)
}

#[test]
fn rings_are_bounded_as_worked_by_hand(rt: HostRuntime) -> Result<(), Fail> {
    for row in &ROWS {
        assert!(rt; is_bounded(rt.alloc(), row)?, "{}", row.name);
    }
    Ok(())
}

// The rings behind what was there.
#[derive(Drop)]
struct Bounded<'a> {
    status: StatusTree<ActiveEdge, i64, (), &'a Refusing<Global>>,
    points: Vec<Point, &'a Refusing<Global>>,
    ends: Vec<usize, &'a Refusing<Global>>,
    outcome: Option<Result<(), Refusal>>,
}

#[derive(Drop)]
struct Bounding<'a> {
    memory: &'a Refusing<Global>,
    alloc: Global,
}

const TWO_SQUARES: Regions = Regions {
    subject: &[SQUARE],
    clip: &[SQUARE_ASIDE],
    choice: XOR,
};

impl<'a> Trial for Bounding<'a> {
    type State = Bounded<'a>;

    fn begin(&self) -> Option<Bounded<'a>> {
        let status = StatusTree::new(self.memory, 0).ok()?;
        let mut points = Vec::new(self.memory);
        points.push(Point { x: 7, y: 8 }).ok()?;
        let mut ends = Vec::new(self.memory);
        ends.push(1).ok()?;
        Some(Bounded {
            status,
            points,
            ends,
            outcome: None,
        })
    }

    fn call(&self, bounded: &mut Bounded<'a>) {
        let Bounded {
            status,
            points,
            ends,
            outcome,
        } = bounded;
        *outcome = bound_walks(self.alloc, TWO_SQUARES, status, points, ends).ok();
    }

    // Where room for all was asked in advance and refused, the call may still have found room for each.
    fn is_refused(&self, bounded: &mut Bounded<'a>, _nth: u64) -> bool {
        let done = self.is_done(bounded);
        if done {
            bounded.points.truncate(1);
            bounded.ends.truncate(1);
        }
        let refused = bounded.outcome == Some(Err(Refusal::OutOfMemory));
        let kept = bounded.points.len() == 1 && bounded.ends.as_slice() == [1].as_slice();
        (done || refused) && kept
    }

    fn is_done(&self, bounded: &mut Bounded<'a>) -> bool {
        bounded.outcome == Some(Ok(())) && bounded.points.len() == 13 && bounded.ends.len() == 3
    }
}

#[test]
fn keeps_what_was_there_at_each_refusal(rt: HostRuntime) -> Result<(), Fail> {
    let memory = Refusing::new(rt.alloc());
    let bounding = Bounding {
        memory: &memory,
        alloc: rt.alloc(),
    };
    assert!(rt; refuse_in_turn(&memory, &bounding).is_ok_and(|requests| requests > 10));
    Ok(())
}
