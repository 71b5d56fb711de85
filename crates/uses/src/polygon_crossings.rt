//! Which edges of two polygons meet, exactly.

use i_tree::Refusal;
use plane::edge::Edge;
use plane::meet::meetings_between;
use std::alloc::Global;

/// A corner of a polygon.
#[derive(Clone, Copy)]
pub struct Corner {
    pub x: i32,
    pub y: i32,
}

// Appends the edges of the polygon, from each corner to the next one, and from the last to the first.
fn push_edges(edges: &mut Vec<Edge>, corners: &[Corner]) -> Result<(), Refusal> {
    let Some(last) = corners.last() else {
        return Ok(());
    };
    let mut before = *last;
    for corner in corners {
        edges.push(Edge {
            x0: before.x,
            y0: before.y,
            x1: corner.x,
            y1: corner.y,
        })?;
        before = *corner;
    }
    Ok(())
}

/// Which edge of the first polygon meets which of the second one, each pair once. An edge has the place of the corner
/// where it ends.
pub fn crossings(
    alloc: Global,
    first: &[Corner],
    second: &[Corner],
) -> Result<Vec<(usize, usize)>, Refusal> {
    let mut edges = Vec::new(alloc);
    push_edges(&mut edges, first)?;
    let mut others = Vec::new(alloc);
    push_edges(&mut others, second)?;
    let mut crossings = Vec::new(alloc);
    meetings_between(&edges, &others, &mut crossings)?;
    Ok(crossings)
}
