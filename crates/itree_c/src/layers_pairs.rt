//! `itree_box_pairs` and `itree_points_in`: which shapes of two lists have boxes that share a point, and which points lie in which
//! shapes; behind the handle that pairs have.

ghost use Rattle.std.specs.Prelude.{◌≡◌, ◌↔◌, Option, Err, IfOk};
ghost use Rattle.std.specs.Borrow.{sem};
ghost use Rattle.layers.specs.Shapes.{HasShapes, edges_of_each, shapes_of};
ghost use Rattle.layers.specs.declared.fault.LayerFault.TheVariants.{Lengths};
ghost use Rattle.itree_c.specs.Handle.{owns_pairs};
ghost use Rattle.itree_c.specs.Layers.{AnswersBoxPairs, AnswersPointsIn, AreAllBoxPairs, AreAllPointsIn};
ghost use Rattle.itree_c.specs.declared.pairs.Pairs.{Pairs as Held};

use crate::choices::{border_of, rule_of};
use crate::handle::Handle;
use crate::pairs::{Pairs, boxed_pairs};
use crate::raw::Raw;
use crate::status::{ANSWERED, CHOICE, LENGTHS, REFUSED};
use layers::{Border, FillRule, LayerFault, Point, Shapes, box_pairs, points_in};
use std::alloc::Global;

/// Writes a handle of the pairs of a shape of the first list and one of the second whose boxes share a point, each once and in no
/// particular order, or null. The first place of a pair is of the first list, and the second of the second.
///
/// The status is `ANSWERED` (0), and then the caller owns the handle and gives it to `itree_pairs_free` once; or
/// `REFUSED` (1) where memory was refused, `LENGTHS` (3) where a ring or a shape stops before it begins or behind the points or the
/// rings: then null is written, and all memory has been given back. What a box is, is said at `box_pairs` of `layers`.
#[unsafe(no_mangle)]
pub unsafe extern "C" fn itree_box_pairs<'a>(
    alloc: Global,
    points: &'a [Point],
    ring_ends: &'a [usize],
    shape_ends: &'a [usize],
    other_points: &'a [Point],
    other_ring_ends: &'a [usize],
    other_shape_ends: &'a [usize],
    pairs: &mut *mut Handle,
) -> i32
    ensures* made { ∃ₛ (λ (made : Option Held).
        ⌜ AnswersBoxPairs
        (record { points = points.entry; ring_ends = ring_ends.entry; shape_ends = shape_ends.entry })
        (record { points = other_points.entry; ring_ends = other_ring_ends.entry; shape_ends = other_shape_ends.entry })
        result made ⌝
        ∗ sem 𝓛 (owns_pairs pairs.new made)) }
{
    let (status, Raw { at, alloc: _ }) = all_box_pairs(
        alloc,
        Shapes {
            points,
            ring_ends,
            shape_ends,
        },
        Shapes {
            points: other_points,
            ring_ends: other_ring_ends,
            shape_ends: other_shape_ends,
        },
    );
    *pairs = at as *mut Handle;
    status
}

/// Writes a handle of the pairs of a point and a shape that it lies in, by the place of the point and then by that of the shape, or
/// null. The first place of a pair is that of the point.
///
/// The status is `ANSWERED` (0), and then the caller owns the handle and gives it to `itree_pairs_free` once; or
/// `REFUSED` (1) where memory was refused, `LENGTHS` (3) where a ring or a shape stops before it begins or behind the points or the
/// rings, `CHOICE` (5) where no rule has the number, or nothing that becomes of a border has it: then null is written, and all memory
/// has been given back. At `CHOICE` the ends aren't looked at. Which points lie in a shape is said at `points_in` of `layers`.
#[unsafe(no_mangle)]
pub unsafe extern "C" fn itree_points_in<'a>(
    alloc: Global,
    points: &'a [Point],
    shape_points: &'a [Point],
    ring_ends: &'a [usize],
    shape_ends: &'a [usize],
    rule: i32,
    border: i32,
    pairs: &mut *mut Handle,
) -> i32
    ensures* made { ∃ₛ (λ (made : Option Held).
        ⌜ AnswersPointsIn points.now
        (record { points = shape_points.entry; ring_ends = ring_ends.entry; shape_ends = shape_ends.entry })
        rule border result made ⌝
        ∗ sem 𝓛 (owns_pairs pairs.new made)) }
{
    let (status, Raw { at, alloc: _ }) = all_points_in(
        alloc,
        points,
        Shapes {
            points: shape_points,
            ring_ends,
            shape_ends,
        },
        rule,
        border,
    );
    *pairs = at as *mut Handle;
    status
}

// The status of the call, and the pairs or null.
fn all_box_pairs<'a>(
    alloc: Global,
    shapes: Shapes<'a>,
    others: Shapes<'a>,
) -> (i32, Raw<Pairs, Global>)
    ensures { AnswersBoxPairs shapes.entry others.entry result.0 result.1.value }
{
    match boxed_box_pairs(alloc, shapes, others) {
        Ok(pairs) => (ANSWERED, Raw::of(pairs)),
        Err(LayerFault::Lengths) => (LENGTHS, Raw::null(alloc)),
        Err(_) => (REFUSED, Raw::null(alloc)),
    }
}

// The pairs of shapes whose boxes share a point, on the heap.
fn boxed_box_pairs(
    alloc: Global,
    shapes: Shapes,
    others: Shapes,
) -> Result<Box<Pairs, Global>, LayerFault>
    ensures ok { IfOk result (λ pairs. AreAllBoxPairs (shapes_of shapes.entry) (shapes_of others.entry) pairs.value) }
    ensures lengths { (result ≡ Err Lengths) ↔ ¬ (HasShapes shapes.entry × HasShapes others.entry) }
{
    let mut places = Vec::new(alloc);
    box_pairs(shapes, others, &mut places)?;
    Ok(boxed_pairs(alloc, places)?)
}

// The status of the call, and the pairs or null.
fn all_points_in<'a>(
    alloc: Global,
    points: &'a [Point],
    shapes: Shapes<'a>,
    rule: i32,
    border: i32,
) -> (i32, Raw<Pairs, Global>)
    ensures { AnswersPointsIn points.now shapes.entry rule border result.0 result.1.value }
{
    let (Some(rule), Some(border)) = (rule_of(rule), border_of(border)) else {
        return (CHOICE, Raw::null(alloc));
    };
    match boxed_points_in(alloc, points, shapes, rule, border) {
        Ok(pairs) => (ANSWERED, Raw::of(pairs)),
        Err(LayerFault::Lengths) => (LENGTHS, Raw::null(alloc)),
        Err(_) => (REFUSED, Raw::null(alloc)),
    }
}

// The pairs of a point and a shape that it lies in, on the heap.
fn boxed_points_in(
    alloc: Global,
    points: &[Point],
    shapes: Shapes,
    rule: FillRule,
    border: Border,
) -> Result<Box<Pairs, Global>, LayerFault>
    ensures ok { IfOk result (λ pairs. AreAllPointsIn rule border points.now (edges_of_each shapes.entry) pairs.value) }
    ensures lengths { (result ≡ Err Lengths) ↔ ¬ (HasShapes shapes.entry) }
{
    let mut places = Vec::new(alloc);
    points_in(points, shapes, rule, border, &mut places)?;
    // They are written from the last on.
    places.reverse();
    Ok(boxed_pairs(alloc, places)?)
}
