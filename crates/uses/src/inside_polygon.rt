//! Which points lie inside a polygon, by the edge straight below each.

use i_tree::status::tree::StatusTree;
use plane::edge::Edge;
use plane::locate::{LocateFault, Point, locate};
use std::alloc::Global;

// The edges of the polygon, from each corner to the next one, and from the last to the first.
fn edges_between(alloc: Global, corners: &[Point]) -> Result<Vec<Edge>, LocateFault> {
    let mut edges = Vec::new(alloc);
    let Some(last) = corners.last() else {
        return Ok(edges);
    };
    let mut before = *last;
    for corner in corners {
        edges.push(Edge {
            x0: before.x,
            y0: before.y,
            x1: corner.x,
            y1: corner.y,
        })?;
        before = *corner;
    }
    Ok(edges)
}

// Whether the edge at the place is there and goes to the right: then what is above it lies on its left.
fn goes_right(edges: &[Edge], place: Option<usize>) -> bool {
    let Some(place) = place else {
        return false;
    };
    match edges.get(place) {
        Some(edge) => edge.x0 < edge.x1,
        None => false,
    }
}

/// Which of the points lie inside the polygon whose corners these are, counterclockwise where y goes upwards.
///
/// Two edges that cross are told by the places of the corners where they end. A point on an edge that isn't upright is
/// inside where that edge goes to the right, and not where it goes to the left.
pub fn are_inside(
    alloc: Global,
    corners: &[Point],
    points: &[Point],
) -> Result<Vec<bool>, LocateFault> {
    let edges = edges_between(alloc, corners)?;
    let mut status = StatusTree::new(alloc, 0)?;
    let mut places = Vec::new(alloc);
    locate(&mut status, &edges, points, &mut places)?;
    let mut inside = Vec::new(alloc);
    for place in &places {
        inside.push(goes_right(&edges, *place))?;
    }
    Ok(inside)
}
