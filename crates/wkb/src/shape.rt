//! The rings of a shape, as points of a grid.

ghost use Rattle.std.specs.Prelude.{◌≡◌, length, IfErr, OnOk};
ghost use Rattle.std.specs.List.{AllByRecursion};
ghost use Rattle.grid.specs.Grid.{IsGrid};
ghost use Rattle.wkb.specs.Format.{LiesWithin};
ghost use Rattle.wkb.specs.Reading.{AppendsRings, AppendsShape, IfFlawed, IsRingsFlaw, IsShapeFlaw};

use crate::fault::LayoutFault;
use crate::reading::Shapes;
use crate::ring_points::append_points;
use crate::structure::{RingAt, layout};
use grid::Position;
use grid::units::Grid;
use plane::point::Point;
use std::alloc::Allocator;

/// Room to work in, which is written over for each shape.
#[derive(Drop)]
pub struct Scratch<A: Allocator> {
    /// Where the rings of the shape lie among its bytes.
    pub rings: Vec<RingAt, A>,
    /// The positions of one of these rings.
    pub positions: Vec<Position, A>,
    /// The points that tell them, turned the way that the ring has to run.
    pub told: Vec<Point, A>,
}

/// Appends the points of the rings in `scratch`, and where each stops among all points.
fn append_rings<A: Allocator>(
    bytes: &[u8],
    grid: &Grid,
    scratch: &mut Scratch<A>,
    points: &mut Vec<Point, A>,
    ends: &mut Vec<usize, A>,
) -> Result<(), LayoutFault>
    requires grid { IsGrid grid.now }
    requires lie { AllByRecursion (λ ring. LiesWithin ring (length bytes.now)) scratch.old.rings.items }
    ensures ok { OnOk result (AppendsRings grid.now bytes.now scratch.old.rings.items points.old.items points.new.items ends.old.items ends.new.items) }
    ensures fault { IfErr result (λ e. IfFlawed e (λ flaw. IsRingsFlaw grid.now bytes.now scratch.old.rings.items flaw)) }
{
    for ring in &scratch.rings {
        append_points(
            bytes,
            ring,
            grid,
            &mut scratch.positions,
            &mut scratch.told,
            points,
        )?;
        let all = points.as_slice();
        ends.push(all.len())?;
    }
    Ok(())
}

/// Appends the points of a shape's rings, and where each ring stops among all points.
///
/// At an `Err` for a flaw, the bytes are no shape, or a position of a ring has no point; the points and where rings stop are open
/// then, and where memory is refused.
pub fn append_shape<A: Allocator>(
    bytes: &[u8],
    most_nested: usize,
    grid: &Grid,
    scratch: &mut Scratch<A>,
    shapes: &mut Shapes<A>,
) -> Result<(), LayoutFault>
    requires { IsGrid grid.now }
    ensures ok { OnOk result (AppendsShape grid.now most_nested bytes.now shapes.old.points.items shapes.new.points.items shapes.old.ring_ends.items shapes.new.ring_ends.items) }
    ensures shape_ends { shapes.new.shape_ends ≡ shapes.old.shape_ends }
    ensures fault { IfErr result (λ e. IfFlawed e (λ flaw. IsShapeFlaw grid.now most_nested bytes.now flaw)) }
{
    layout(bytes, most_nested, &mut scratch.rings)?;
    append_rings(
        bytes,
        grid,
        scratch,
        &mut shapes.points,
        &mut shapes.ring_ends,
    )?;
    Ok(())
}
