//! What is seen straight below each of some points: the sweep of `horizontal` over a tree of its caller's.

use horizontal::{Point, Segment, SweepFault, below};
use i_tree::key::tree::KeyExpTree;
use std::alloc::Global;

/// The height of the first of the segments that is met from each point straight downwards, if one is met.
pub fn seen_below(
    alloc: Global,
    segments: &[Segment],
    points: &[Point],
) -> Result<Vec<Option<i32>>, SweepFault> {
    let mut levels = KeyExpTree::new(alloc, 0)?;
    let mut seen = Vec::new(alloc);
    below(&mut levels, segments, points, &mut seen)?;
    Ok(seen)
}
