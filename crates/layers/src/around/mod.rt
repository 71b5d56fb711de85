//! Which points lie in which shapes.

ghost use Rattle.std.specs.Prelude.{◌≡◌, ◌++◌, ℕ, List, map, OnOk, OnErr};
ghost use Rattle.plane.specs.Pairs.Points.{Gains};
ghost use Rattle.layers.specs.Around.{ArePairsIn, halved};
ghost use Rattle.layers.specs.Chains.{AreApart, AreInOrder, LiesInChains};
ghost use Rattle.layers.specs.Shapes.{HasShapes, edges_of_each};

pub use extents::twice;
pub use half_point::HalfPoint;

mod chains;
mod extents;
mod few;
mod half_point;
mod narrowing;
mod placed;
mod turns;

use crate::points::Border;
use crate::shapes::Shapes;
use chains::{Chain, chains_of};
use extents::extent_of;
use few::append_of_few;
use narrowing::narrowed;
use overlay::fill::FillRule;
use placed::{Placed, placed_points};
use std::alloc::{AllocError, Allocator};

/// Appends the pairs of places of a point and of a shape in which it lies: each once, by point, and then by shape.
///
/// The shapes' ends have to be right, as `are_shapes` tells. It is refused for want of memory alone, and leaves `out` as it was
/// then.
pub fn append_pairs_in<A: Allocator + Copy>(
    points: &[HalfPoint],
    shapes: Shapes,
    rule: FillRule,
    border: Border,
    out: &mut Vec<(usize, usize), A>,
) -> Result<(), AllocError>
    requires { HasShapes shapes }
    ensures ok { OnOk result ((pairs : List (ℕ × ℕ)) × (out.new.items ≡ out.old.items ++ pairs)
        × ArePairsIn rule border (map halved points.now) (edges_of_each shapes.entry) pairs) }
    ensures err { OnErr result (out.new.items ≡ out.old.items) }
{
    let alloc = *out.allocator();
    let group = placed_points(alloc, points)?;
    let chains = chains_of(alloc, shapes)?;
    let mut pairs = Vec::new(alloc);
    append_of_group(&group, &chains, rule, border, &mut pairs)?;
    pairs.sort_unstable();
    out.extend_from_slice(&pairs)
}

// A group of so many points isn't halved any more.
const FEW_POINTS: usize = 8;

// Appends the pairs of places of a point of the group and of a shape with some of these chains in which it lies.
fn append_of_group<A: Allocator + Copy>(
    group: &[Placed],
    chains: &[Chain],
    rule: FillRule,
    border: Border,
    pairs: &mut Vec<(usize, usize), A>,
) -> Result<(), AllocError>
    requires order { AreInOrder chains.now }
    requires apart { AreApart group.now }
    ensures { OnOk result (Gains (LiesInChains rule border group.now chains.now) pairs.old.items pairs.new.items) }
{
    let near = narrowed(*pairs.allocator(), chains, extent_of(group))?;
    if group.len() <= FEW_POINTS || near.is_empty() {
        return append_of_few(group, &near, rule, border, pairs);
    }
    let (first, second) = group.split_at(group.len() / 2);
    append_of_group(first, &near, rule, border, pairs)?;
    append_of_group(second, &near, rule, border, pairs)
}
