//! What is of rectangles and of no mask, exactly.

ghost use Rattle.std.specs.Prelude.{◌≡◌, ◌≢◌, [], Err, IfOk, List, map};
ghost use Rattle.std.specs.List.{flat_map};
ghost use Rattle.plane.specs.declared.point.Point.{Point};
ghost use Rattle.noding.specs.Offsets.{offsets};
ghost use Rattle.overlay.specs.Polygons.{AreAppended};
ghost use Rattle.uses.specs.Masks.{AreFree, corners};

use overlay::{FillRule, Operation, OverlayFault, Point, Polygons, Rings, overlay};
use std::alloc::{AllocError, Global};

/// A rectangle along the axes, by its sides: from the left one on and before the right one, and from the low one on and before
/// the high one. It has no points where its sides are the wrong way round.
#[derive(Clone, Copy)]
pub struct Rectangle {
    pub left: i32,
    pub low: i32,
    pub right: i32,
    pub high: i32,
}

impl Rectangle {
    // Its corners, counterclockwise, or as a line where it has no points.
    fn corners(self) -> [Point; 4]
        ensures { result ≡ corners self }
    {
        let (left, low) = (self.left, self.low);
        let right = left.max(self.right);
        let high = low.max(self.high);
        [
            Point { x: left, y: low },
            Point { x: right, y: low },
            Point { x: right, y: high },
            Point { x: left, y: high },
        ]
    }
}

/// What is of some rectangle and of no mask, as polygons with holes. They wind once around each of its points, and not at all
/// around any other. Memory that is refused is the only error.
pub fn free_of_masks(
    alloc: Global,
    rectangles: &[Rectangle],
    masks: &[Rectangle],
) -> Result<Polygons<Global>, OverlayFault>
    ensures free { IfOk result (λ free. (polygons : List (List (List Point)))
        × AreFree rectangles.now masks.now polygons
        × AreAppended polygons [] free.points.items [] free.ring_ends.items [] free.polygon_ends.items) }
    ensures refused { result ≢ Err OverlayFault.Lengths }
{
    let (points, ends) = rings_of(alloc, rectangles)?;
    let (mask_points, mask_ends) = rings_of(alloc, masks)?;
    let subject = Rings {
        points: &points,
        ends: &ends,
    };
    let clip = Rings {
        points: &mask_points,
        ends: &mask_ends,
    };
    let mut free = Polygons::new(alloc);
    overlay(
        subject,
        clip,
        FillRule::NonZero,
        Operation::Difference,
        &mut free,
    )?;
    Ok(free)
}

// The corners of each rectangle, and where they stop.
fn rings_of(alloc: Global, rectangles: &[Rectangle]) -> Result<(Vec<Point>, Vec<usize>), AllocError>
    ensures points { IfOk result (λ rings. rings.0.items ≡ flat_map corners rectangles.now) }
    ensures ends { IfOk result (λ rings. rings.1.items ≡ offsets 0 (map corners rectangles.now)) }
{
    let mut points = Vec::new(alloc);
    let mut ends = Vec::new(alloc);
    for rectangle in rectangles {
        points.extend_from_slice(&rectangle.corners())?;
        ends.push(points.len())?;
    }
    Ok((points, ends))
}
