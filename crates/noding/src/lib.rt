//! Snap rounding: each edge becomes a chain of pieces with whole ends, which lies within half a unit of it, and no two pieces
//! meet but at common ends, or they are the same.
//!
//! All is told in whole numbers, and what is rounded is rounded exactly.
#![tactic(auto)]

ghost use Rattle.std.specs.Prelude.{◌≡◌, ◌++◌, List, OnOk, OnErr, IfErr, length};
ghost use Rattle.std.specs.List.{flat_map};
ghost use Rattle.i_tree.specs.declared.Refusal.TheVariants.{OutOfMemory};
ghost use Rattle.plane.specs.declared.point.Point.{Point};
ghost use Rattle.noding.specs.Chains.{AreChains};
ghost use Rattle.noding.specs.Offsets.{offsets};

use chains::append_chains;
use i_tree::Refusal;
use plane::edge::Edge;
use plane::point::Point;
use std::alloc::Allocator;
use stops::stops_in_order;

mod beside;
mod chains;
mod close;
mod columns;
mod crossing;
mod crossings;
mod distinct;
mod local;
mod moved;
mod passing;
pub mod pieces;
pub mod sample;
mod sections;
pub mod stops;

pub use local::{node, nodes_in_order};

/// Appends the chain of each edge in turn to `points`, and to `ends` where each chain stops among these.
///
/// A point rounds to the whole point that is nearest on each axis, a half upwards. Hot points are all ends of the edges, and
/// what the points round to in which two edges that aren't parallel meet. The chain of an edge is the hot points that some
/// point of the edge rounds to, once each, in the order along it. So it begins and ends as the edge does. Its pieces go from
/// each of its points to the next; an edge that is a point has none.
///
/// It is refused for want of memory alone, and leaves `points` and `ends` as they were then. The memory is that of their
/// allocator. The rule is that of Hobby, and of Guibas and Marimont.
pub fn snap<A: Allocator + Copy>(
    edges: &[Edge],
    points: &mut Vec<Point, A>,
    ends: &mut Vec<usize, A>,
) -> Result<(), Refusal>
    ensures ok { OnOk result ((chains : List (List Point)) × AreChains edges.now chains
        × (points.new.items ≡ points.old.items ++ flat_map (λ chain. chain) chains)
        × (ends.new.items ≡ ends.old.items ++ offsets (length points.old.items) chains)) }
    ensures err { OnErr result ((points.new.items ≡ points.old.items) × (ends.new.items ≡ ends.old.items)) }
    ensures refused { IfErr result (λ cause. cause ≡ OutOfMemory) }
{
    let stops = stops_in_order(*points.allocator(), edges)?;
    append_chains(edges, &stops, points, ends)?;
    Ok(())
}
