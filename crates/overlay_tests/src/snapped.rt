//! Edges and their chains, with each request for memory refused in turn. Worked chains are over the program (`process_tests`).

use i_tree::Refusal;
use noding::{node, snap};
use plane::edge::Edge;
use plane::point::Point;
use std::alloc::{Allocator, Global};
use std::test::Fail;
use test_kit::Refusing;
use test_kit::in_turn::{Trial, refuse_in_turn};

// The first two cross at (30/13, 3/13). The first passes (8, 1), and so moves the fourth, which crosses none. The fifth passes
// (2, 6), which no moved edge passes.
const MOVED: [[i32; 4]; 6] = [
    [0, 0, 10, 1],
    [0, 1, 3, 0],
    [8, 1, 8, 1],
    [6, 2, 9, 1],
    [0, 5, 4, 6],
    [2, 6, 2, 6],
];

// Which call breaks the edges.
#[derive(Clone, Copy)]
enum Call {
    Snap,
    Node,
}

fn break_edges<A: Allocator + Copy>(
    call: Call,
    edges: &[Edge],
    points: &mut Vec<Point, A>,
    ends: &mut Vec<usize, A>,
) -> Result<(), Refusal> {
    match call {
        Call::Snap => snap(edges, points, ends),
        Call::Node => node(edges, points, ends),
    }
}

fn edge(ends: [i32; 4]) -> Edge {
    let [x0, y0, x1, y1] = ends;
    Edge { x0, y0, x1, y1 }
}

// The chains behind what was there.
#[derive(Drop)]
struct Snapped<'a> {
    points: Vec<Point, &'a Refusing<Global>>,
    ends: Vec<usize, &'a Refusing<Global>>,
    outcome: Result<(), Refusal>,
}

#[derive(Drop)]
struct Snapping<'a> {
    memory: &'a Refusing<Global>,
    call: Call,
    edges: Vec<Edge>,
    // How many points stand there in the end.
    points: usize,
}

impl<'a> Trial for Snapping<'a> {
    type State = Snapped<'a>;

    fn begin(&self) -> Option<Snapped<'a>> {
        let mut points = Vec::new(self.memory);
        points.push(Point { x: 7, y: 8 }).ok()?;
        let mut ends = Vec::new(self.memory);
        ends.push(1).ok()?;
        Some(Snapped {
            points,
            ends,
            outcome: Ok(()),
        })
    }

    fn call(&self, snapped: &mut Snapped<'a>) {
        snapped.outcome = break_edges(
            self.call,
            &self.edges,
            &mut snapped.points,
            &mut snapped.ends,
        );
    }

    // Where room for all was asked in advance and refused, the call may still have found room for each.
    fn is_refused(&self, snapped: &mut Snapped<'a>, _nth: u64) -> bool {
        let done = self.is_done(snapped);
        if done {
            snapped.points.truncate(1);
            snapped.ends.truncate(1);
        }
        let refused = snapped.outcome == Err(Refusal::OutOfMemory);
        (done || refused) && snapped.points.len() == 1 && snapped.ends.as_slice() == [1].as_slice()
    }

    fn is_done(&self, snapped: &mut Snapped<'a>) -> bool {
        snapped.outcome == Ok(())
            && snapped.points.len() == self.points
            && snapped.ends.len() == self.edges.len() + 1
    }
}

#[test]
fn keeps_points_and_ends_at_each_refusal(rt: HostRuntime) -> Result<(), Fail> {
    let memory = Refusing::new(rt.alloc());
    let mut edges = Vec::new(rt.alloc());
    for place in 0..12 {
        edges.push(edge([0, place, 11, place]))?;
        edges.push(edge([place, 0, place, 11]))?;
    }
    // Each level edge goes through twelve upright ones, at two of them by its ends, and each upright one through twelve.
    let snapping = Snapping {
        memory: &memory,
        call: Call::Snap,
        edges,
        points: 289,
    };
    assert!(rt; refuse_in_turn(&memory, &snapping).is_ok_and(|requests| requests > 10));
    let mut moved = Vec::new(rt.alloc());
    for ends in MOVED {
        moved.push(edge(ends))?;
    }
    let noding = Snapping {
        memory: &memory,
        call: Call::Node,
        edges: moved,
        points: 17,
    };
    assert!(rt; refuse_in_turn(&memory, &noding).is_ok_and(|requests| requests > 10));
    Ok(())
}
