//! Pairs of shapes whose boxes share a point.

ghost use Rattle.std.specs.Prelude.{◌≡◌, ◌++◌, ◌↔◌, ◌<◌, ◌≤◌, ◌⊎◌, [], ℕ, All, Err, IfErr, IfOk, List, MatchOption, OnErr, OnOk, drop, length, map, take};
ghost use Rattle.i_tree.specs.declared.Refusal.TheVariants.{OutOfMemory};
ghost use Rattle.plane.specs.Pairs.Bounds.{IsBox};
ghost use Rattle.plane.specs.Pairs.Pairs.{ArePairsBetween};
ghost use Rattle.layers.specs.Boxed.{AreBoxes, box_at, grown, place_in};
ghost use Rattle.layers.specs.Boxes.{BoxesMeet, IsBoxOf};
ghost use Rattle.layers.specs.Shapes.{HasShapes, shapes_of};

use crate::fault::LayerFault;
use crate::shape_box::ShapeBox;
use crate::shapes::{Shapes, are_shapes, points_at};
use plane::pairs::items::Bounds;
use plane::pairs::pairs_between;
use plane::point::Point;
use std::alloc::{AllocError, Allocator};

/// Appends each pair of places `(i, j)` where the box of the shape at i of the first list and that of the shape at j of the second
/// one share a point, once. The order of the pairs is open.
///
/// The box of a shape is that of the points of all its rings, and its sides are of it: boxes that only touch share a point. A shape
/// without points has no box, and is in no pair.
///
/// `Lengths` comes where a ring or a shape stops before it begins or behind the last of what it is made of, and nothing else is done
/// then. `Refused` comes where memory was refused. After any fault `out` is as it was. The memory is that of `out`.
pub fn box_pairs<A: Allocator + Copy>(
    shapes: Shapes,
    others: Shapes,
    out: &mut Vec<(usize, usize), A>,
) -> Result<(), LayerFault>
    ensures ok { OnOk result ((pairs : List (ℕ × ℕ)) × (out.new.items ≡ out.old.items ++ pairs)
        × ArePairsBetween BoxesMeet (shapes_of shapes.entry) (shapes_of others.entry) pairs) }
    ensures err { OnErr result (out.new.items ≡ out.old.items) }
    ensures lengths { (result ≡ Err LayerFault.Lengths) ↔ ¬ (HasShapes shapes.entry × HasShapes others.entry) }
    ensures refused { IfErr result (λ fault. (fault ≡ LayerFault.Lengths) ⊎ (fault ≡ LayerFault.Refused OutOfMemory)) }
{
    if !are_shapes(shapes) || !are_shapes(others) {
        return Err(LayerFault::Lengths);
    }
    let alloc = *out.allocator();
    let boxes = boxes_of(alloc, shapes)?;
    let other_boxes = boxes_of(alloc, others)?;
    let start = out.len();
    pairs_between(&boxes, &other_boxes, out)?;
    name_pairs(out, start, &boxes, &other_boxes);
    Ok(())
}

// The boxes of those of the shapes that have points.
fn boxes_of<A: Allocator>(alloc: A, shapes: Shapes) -> Result<Vec<ShapeBox, A>, AllocError>
    requires { HasShapes shapes }
    ensures { IfOk result (λ boxes. AreBoxes (shapes_of shapes.entry) boxes.items) }
{
    let mut boxes = Vec::new(alloc);
    // The shapes before this one that have points have a box, once each and in order.
    for place in 0..shapes.shape_ends.len() {
        if let Some(bounds) = box_of(points_at(shapes, place)) {
            boxes.push(ShapeBox { place, bounds })?;
        }
    }
    Ok(boxes)
}

// The box of the points, if there are any.
fn box_of(points: &[Point]) -> Option<Bounds>
    ensures { MatchOption result (points.now ≡ []) (λ bounds. IsBoxOf points.now bounds × IsBox bounds) }
{
    if points.is_empty() {
        return None;
    }
    let mut bounds = box_at(points[0]);
    for point in points {
        bounds = grown(bounds, *point);
    }
    Some(bounds)
}

// The box of a single point.
pub(crate) fn box_at(point: Point) -> Bounds
    ensures { result ≡ box_at point }
{
    Bounds {
        left: point.x,
        right: point.x,
        low: point.y,
        high: point.y,
    }
}

// The least box that has this one and the point.
pub(crate) fn grown(bounds: Bounds, point: Point) -> Bounds
    ensures { result ≡ grown bounds point }
{
    Bounds {
        left: bounds.left.min(point.x),
        right: bounds.right.max(point.x),
        low: bounds.low.min(point.y),
        high: bounds.high.max(point.y),
    }
}

// Names the shapes of pairs of boxes by their places, from the start on.
fn name_pairs(pairs: &mut [(usize, usize)], start: usize, boxes: &[ShapeBox], others: &[ShapeBox])
    requires start { start ≤ length pairs.old }
    requires within { All (λ pair. (pair.0 < length boxes.now) × (pair.1 < length others.now)) (drop start pairs.old) }
    ensures { pairs.new ≡ take start pairs.old
        ++ map (λ pair. (place_in boxes.now pair.0, place_in others.now pair.1)) (drop start pairs.old) }
{
    name_places(&mut pairs[start..], boxes, others);
}

// Names the shapes of all these pairs.
fn name_places(pairs: &mut [(usize, usize)], boxes: &[ShapeBox], others: &[ShapeBox])
    requires { All (λ pair. (pair.0 < length boxes.now) × (pair.1 < length others.now)) pairs.old }
    ensures { pairs.new ≡ map (λ pair. (place_in boxes.now pair.0, place_in others.now pair.1)) pairs.old }
{
    for pair in pairs.iter_mut() {
        *pair = places_of(*pair, boxes, others);
    }
}

// The places of the shapes of two boxes.
fn places_of(pair: (usize, usize), boxes: &[ShapeBox], others: &[ShapeBox]) -> (usize, usize)
    requires first { pair.0 < length boxes.now }
    requires second { pair.1 < length others.now }
    ensures { result ≡ (place_in boxes.now pair.0, place_in others.now pair.1) }
{
    (boxes[pair.0].place, others[pair.1].place)
}
