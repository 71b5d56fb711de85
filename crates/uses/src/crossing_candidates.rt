//! Pairs of edges that may cross, by a sweep over a tree of segments.

use i_tree::seg::exp::{SegExpCollection, SegRange};
use i_tree::seg::tree::SegExpTree;
use i_tree::{ExpiredVal, Refusal};
use std::alloc::Global;

/// An edge of the plane: its name and its box.
#[derive(Clone, Copy)]
pub struct Edge {
    pub name: u32,
    pub left: i32,
    pub right: i32,
    pub heights: SegRange<i32>,
}

impl ExpiredVal<i32> for Edge {
    ghost expiration = { λ edge. edge.right };

    fn expiration(&self) -> i32 {
        self.right
    }
}

/// Each pair of edges whose boxes meet, once, and some that lie near each other: the candidates for a crossing. `None` where
/// an edge begins left of the one before it, or lies outside the range, or that has no layout.
pub fn candidates(
    alloc: Global,
    edges: &[Edge],
    range: SegRange<i32>,
) -> Result<Option<Vec<(u32, u32)>>, Refusal> {
    let Some(mut active) = SegExpTree::new(alloc, range)? else {
        return Ok(None);
    };
    let mut pairs = Vec::new(alloc);
    let mut near: Vec<Edge> = Vec::new(alloc);
    for place in 0..edges.len() {
        let edge = edges[place];
        if !active.accepts(edge.heights) || !active.is_in_time(edge.left) {
            return Ok(None);
        }
        active.collect_by_range(edge.heights, edge.left, &mut near)?;
        active.insert_by_range(edge.heights, edge)?;
        for other in &near {
            pairs.push((other.name, edge.name))?;
        }
        near.clear();
    }
    Ok(Some(pairs))
}
