//! `points_in`: which points lie in which shapes.

ghost use Rattle.std.specs.Prelude.{◌≡◌, ◌↔◌, ◌⊎◌, ◌++◌, ◌*ℤ◌, ℕ, pos, List, map, IfErr, IfOk, OnOk, OnErr};
ghost use Rattle.std.specs.List.{AllZip};
ghost use Rattle.i_tree.specs.declared.Refusal.TheVariants.{OutOfMemory};
ghost use Rattle.layers.specs.declared.fault.LayerFault.TheVariants.{Refused, Lengths};
ghost use Rattle.layers.specs.Around.{ArePairsIn, whole};
ghost use Rattle.layers.specs.Shapes.{HasShapes, edges_of_each};

use crate::around::{HalfPoint, append_pairs_in, twice};
use crate::fault::LayerFault;
use crate::shapes::{Shapes, are_shapes};
use overlay::fill::FillRule;
use plane::point::Point;
use std::alloc::{AllocError, Allocator};

/// Whether a point on an edge of a shape is in it.
#[derive(Clone, Copy, Debug, PartialEq, Eq)]
pub enum Border {
    /// It is.
    Closed,
    /// It isn't.
    Open,
    /// The edges' winding number around it says it, as around any other point. Of a polygon a left or lower border is in it, and
    /// a right or upper one isn't. So each point is in just one of some cells that cover the plane side by side.
    HalfOpen,
}

/// Appends the pairs of places of a point and of a shape in which it lies: each once, by point, and then by shape.
///
/// `Lengths` where a ring or a shape stops before it begins or behind the last of what it is made of; else `Refused`, for want of
/// memory alone. Then `out` is left as it was.
pub fn points_in<A: Allocator + Copy>(
    points: &[Point],
    shapes: Shapes,
    rule: FillRule,
    border: Border,
    out: &mut Vec<(usize, usize), A>,
) -> Result<(), LayerFault>
    ensures ok { OnOk result ((pairs : List (ℕ × ℕ)) × (out.new.items ≡ out.old.items ++ pairs)
        × ArePairsIn rule border (map whole points.now) (edges_of_each shapes.entry) pairs) }
    ensures err { OnErr result (out.new.items ≡ out.old.items) }
    ensures lengths { (result ≡ Err Lengths) ↔ ¬ (HasShapes shapes.entry) }
    ensures refused { IfErr result (λ fault. (fault ≡ Lengths) ⊎ (fault ≡ Refused OutOfMemory)) }
{
    if !are_shapes(shapes) {
        return Err(LayerFault::Lengths);
    }
    let halves = half_points_of(*out.allocator(), points)?;
    append_pairs_in(&halves, shapes, rule, border, out)?;
    Ok(())
}

// The points, by twice their coordinates.
fn half_points_of<A: Allocator>(alloc: A, points: &[Point]) -> Result<Vec<HalfPoint, A>, AllocError>
    ensures { IfOk result (λ halves. AllZip
        (λ point half. (half.twice_x ≡ pos 2 *ℤ point.x) × (half.twice_y ≡ pos 2 *ℤ point.y)) points.now halves.items) }
{
    let mut halves = Vec::with_capacity(alloc, points.len())?;
    for point in points {
        halves.push(HalfPoint {
            twice_x: twice(point.x),
            twice_y: twice(point.y),
        })?;
    }
    Ok(halves)
}
