//! Worked sets of edges that cross, and that reach what is asked at a column; and each request for memory refused in turn.

use crate::edges::{Ends, edge, edges_of};
use i_tree::Refusal;
use i_tree::steps::Uncounted;
use plane::columns::{Asked, find_by_columns, find_by_columns_counted};
use plane::edge::Edge;
use std::alloc::Global;
use std::test::Fail;
use test_kit::Refusing;
use test_kit::in_turn::{Trial, refuse_in_turn};

const LEAST: i32 = i32::MIN;

const MOST: i32 = i32::MAX;

// A set, what is asked by its x and two heights, the pairs of places that cross, and those of an edge and of what it reaches, in
// rising order.
struct Row {
    name: &'static str,
    edges: &'static [Ends],
    asked: &'static [[i32; 3]],
    crossed: &'static [(usize, usize)],
    met: &'static [(usize, usize)],
}

static ROWS: [Row; 5] = [
    Row {
        // The upright one crosses and reaches nothing.
        name: "two at a column",
        edges: &[[0, 0, 10, 10], [10, 0, 0, 10], [5, -3, 5, 9]],
        asked: &[[3, 3, 7], [3, 4, 7], [3, 8, 9], [10, 0, 10], [5, 5, 5]],
        crossed: &[(0, 1)],
        met: &[(0, 0), (0, 4), (1, 0), (1, 1), (1, 4)],
    },
    Row {
        name: "three through one point between two columns",
        edges: &[[0, 0, 3, 3], [0, 3, 3, 0], [0, 1, 3, 2]],
        asked: &[[1, 1, 2], [2, 2, 9]],
        crossed: &[(0, 1), (0, 2), (1, 2)],
        met: &[(0, 0), (0, 1), (1, 0), (2, 0)],
    },
    Row {
        name: "along one line, and from one end on",
        edges: &[[0, 0, 4, 0], [2, 0, 6, 0], [4, 0, 8, 4]],
        asked: &[[3, 0, 0], [4, 0, 0], [8, 0, 4]],
        crossed: &[],
        met: &[(0, 0), (1, 0), (1, 1), (2, 1)],
    },
    Row {
        // At each column between, the first two are as high as at the one before that.
        name: "crossed again and again",
        edges: &[[0, 0, 6, 0], [0, 1, 2, -1], [2, -1, 4, 1], [4, 1, 6, -1]],
        asked: &[],
        crossed: &[(0, 1), (0, 2), (0, 3)],
        met: &[],
    },
    Row {
        name: "at the ends of the numbers",
        edges: &[[LEAST, LEAST, MOST, MOST], [LEAST, MOST, MOST, LEAST]],
        asked: &[[0, -1, 0], [LEAST, LEAST, MOST], [MOST, LEAST, MOST]],
        crossed: &[(0, 1)],
        met: &[(0, 0), (0, 1), (1, 0), (1, 1)],
    },
];

// A function that goes over a table is dear to prove if it names the table.
fn rows() -> &'static [Row] {
    &ROWS
}

fn asked_of(alloc: Global, rows: &[[i32; 3]]) -> Result<Vec<Asked>, Fail> {
    let mut asked = Vec::new(alloc);
    for [x, low, high] in rows {
        asked.push(Asked {
            x: *x,
            low: *low,
            high: *high,
        })?;
    }
    Ok(asked)
}

fn is_found(alloc: Global, row: &Row) -> Result<bool, Fail> {
    let edges = edges_of(alloc, row.edges)?;
    let asked = asked_of(alloc, row.asked)?;
    let mut found = find_by_columns_counted(alloc, &mut Uncounted, &edges, &asked)?;
    found.crossed.sort_unstable();
    found.met.sort_unstable();
    Ok(found.crossed.as_slice() == row.crossed && found.met.as_slice() == row.met)
}

#[test]
fn finds_as_worked_by_hand(rt: HostRuntime) -> Result<(), Fail> {
    for row in rows() {
        assert!(rt; is_found(rt.alloc(), row)?, "{}", row.name);
    }
    Ok(())
}

// How many pairs of both kinds were found.
#[derive(Drop)]
struct Counted {
    outcome: Result<(usize, usize), Refusal>,
}

#[derive(Drop)]
struct Finding<'a> {
    memory: &'a Refusing<Global>,
    edges: Vec<Edge>,
    asked: Vec<Asked>,
}

impl<'a> Trial for Finding<'a> {
    type State = Counted;

    fn begin(&self) -> Option<Counted> {
        Some(Counted {
            outcome: Ok((0, 0)),
        })
    }

    fn call(&self, counted: &mut Counted) {
        counted.outcome = match find_by_columns(self.memory, &self.edges, &self.asked) {
            Ok(found) => Ok((found.crossed.len(), found.met.len())),
            Err(cause) => Err(cause),
        };
    }

    fn is_refused(&self, counted: &mut Counted, _nth: u64) -> bool {
        counted.outcome == Err(Refusal::OutOfMemory)
    }

    fn is_done(&self, counted: &mut Counted) -> bool {
        counted.outcome == Ok((144, 12))
    }
}

#[test]
fn finds_nothing_at_each_refusal(rt: HostRuntime) -> Result<(), Fail> {
    let memory = Refusing::new(rt.alloc());
    // Each edge that rises crosses each one that falls.
    let mut edges = Vec::new(rt.alloc());
    let mut asked = Vec::new(rt.alloc());
    for place in 0..12 {
        edges.push(edge([0, place, 40, 60 + place]))?;
        edges.push(edge([0, 60 + place, 40, place]))?;
        asked.push(Asked {
            x: 0,
            low: place,
            high: place,
        })?;
    }
    let finding = Finding {
        memory: &memory,
        edges,
        asked,
    };
    assert!(rt; refuse_in_turn(&memory, &finding).is_ok_and(|requests| requests > 10));
    Ok(())
}
