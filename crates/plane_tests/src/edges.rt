//! Edges by their coordinates, as tables have them.

use plane::edge::Edge;
use std::alloc::Global;
use std::test::Fail;

/// An edge by its coordinates.
pub type Ends = [i32; 4];

/// The edge from one point to another.
pub fn edge(ends: Ends) -> Edge {
    let [x0, y0, x1, y1] = ends;
    Edge { x0, y0, x1, y1 }
}

/// The edge from its end to its start.
pub fn turned(ends: Ends) -> Ends {
    let [x0, y0, x1, y1] = ends;
    [x1, y1, x0, y0]
}

/// The edges with these ends, in order.
pub fn edges_of(alloc: Global, ends: &[Ends]) -> Result<Vec<Edge>, Fail> {
    let mut edges = Vec::new(alloc);
    for one in ends {
        edges.push(edge(*one))?;
    }
    Ok(edges)
}
