//! Worked edges and points that lie on them.

ghost use Rattle.std.specs.Prelude.{◌≡◌};
ghost use Rattle.plane.specs.Meet.Boxes.{bounds_of};
ghost use Rattle.plane.specs.Meet.Edges.{Meet};

use crate::edges::{Ends, edges_of};
use i_tree::Refusal;
use plane::edge::Edge;
use plane::meet::meet;
use plane::pairs::items::{Bounds, Boxed, Meets};
use plane::pairs::pairs_with_points;
use std::alloc::{Allocator, Global};
use std::test::Fail;

const LEAST: i32 = i32::MIN;

const MOST: i32 = i32::MAX;

/// A point, which is an edge from itself to itself.
#[derive(Clone, Copy)]
pub struct Dot {
    pub x: i32,
    pub y: i32,
}

impl Dot {
    fn edge(self) -> Edge
        ensures { result ≡ record { x0 = self.x; y0 = self.y; x1 = self.x; y1 = self.y } }
    {
        Edge {
            x0: self.x,
            y0: self.y,
            x1: self.x,
            y1: self.y,
        }
    }
}

impl Boxed for Dot {
    ghost bounds = { λ dot. bounds_of (record { x0 = dot.x; y0 = dot.y; x1 = dot.x; y1 = dot.y }) };

    fn bounds(self) -> Bounds {
        self.edge().bounds()
    }
}

impl Meets<Dot> for Edge {
    ghost Meeting = { λ edge dot. Meet edge (record { x0 = dot.x; y0 = dot.y; x1 = dot.x; y1 = dot.y }) };

    fn meets(self, other: Dot) -> bool {
        meet(self, other.edge())
    }
}

// Edges, points, and the pairs of places whose point lies on the edge, in rising order.
struct Row {
    name: &'static str,
    edges: &'static [Ends],
    points: &'static [(i32, i32)],
    pairs: &'static [(usize, usize)],
}

static ROWS: [Row; 4] = [
    Row {
        name: "at the ends, between them, beside and beyond",
        edges: &[[0, 0, 4, 2]],
        points: &[(4, 2), (6, 3), (2, 1), (2, 2), (0, 0), (-2, -1)],
        pairs: &[(0, 0), (0, 2), (0, 4)],
    },
    Row {
        name: "points in two places, at a corner and apart",
        edges: &[[0, 0, 4, 0], [4, 4, 4, 0]],
        points: &[(4, 0), (0, 0), (4, 0), (4, 3), (0, 4)],
        pairs: &[(0, 0), (0, 1), (0, 2), (1, 0), (1, 2), (1, 3)],
    },
    Row {
        name: "a tall edge among points above one another",
        edges: &[[3, -1000, 3, 1000]],
        points: &[(3, 32), (3, -1000), (2, 0), (3, 31), (3, 1001), (3, 1000)],
        pairs: &[(0, 0), (0, 1), (0, 3), (0, 5)],
    },
    Row {
        // The diagonals cross at (-1/2, -1/2).
        name: "at the ends of the numbers",
        edges: &[[LEAST, LEAST, MOST, MOST], [LEAST, MOST, MOST, LEAST]],
        points: &[(MOST, MOST), (LEAST, LEAST), (0, 0), (-1, 0), (MOST, LEAST)],
        pairs: &[(0, 0), (0, 1), (0, 2), (1, 3), (1, 4)],
    },
];

/// Appends the pairs of places whose point lies on the edge.
pub fn points_on<A: Allocator + Copy>(
    edges: &[Edge],
    dots: &[Dot],
    out: &mut Vec<(usize, usize), A>,
) -> Result<(), Refusal> {
    pairs_with_points(edges, dots, out)
}

fn is_told(alloc: Global, row: &Row) -> Result<bool, Fail> {
    let edges = edges_of(alloc, row.edges)?;
    let mut dots = Vec::new(alloc);
    for (x, y) in row.points {
        dots.push(Dot { x: *x, y: *y })?;
    }
    let mut pairs = Vec::new(alloc);
    points_on(&edges, &dots, &mut pairs)?;
    pairs.sort_unstable();
    Ok(pairs.as_slice() == row.pairs)
}

#[test]
fn points_lie_on_edges_as_worked_by_hand(rt: HostRuntime) -> Result<(), Fail> {
    for row in &ROWS {
        assert!(rt; is_told(rt.alloc(), row)?, "{}", row.name);
    }
    Ok(())
}
