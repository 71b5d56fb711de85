//! `itree_overlay_in`: the polygons of an overlay within a window, behind the handle that polygons have.

ghost use Rattle.std.specs.Prelude.{◌≡◌, ◌↔◌, Option, Err, IfErr, IfOk};
ghost use Rattle.std.specs.Borrow.{sem};
ghost use Rattle.overlay.specs.Rings.{HasEnds, edges_of};
ghost use Rattle.tiles.specs.Tile.{IsTileFault};
ghost use Rattle.tiles.specs.Window.{CanCropTo};
ghost use Rattle.tiles.specs.declared.tile_fault.TileFault.TheVariants.{Lengths};
ghost use Rattle.itree_c.specs.Overlay.{owns_polygons};
ghost use Rattle.itree_c.specs.Tiles.{AnswersTile, AreAllOfTile};
ghost use Rattle.itree_c.specs.declared.polygon_lists.PolygonLists.{PolygonLists as Held};

use crate::choices::{operation_of, rule_of};
use crate::handle::Handle;
use crate::polygon_lists::{PolygonLists, offset_lists};
use crate::raw::Raw;
use crate::status::{ANSWERED, CHOICE, LENGTHS, REFUSED, WINDOW};
use overlay::{FillRule, Operation, Point, Polygons, Rings};
use std::alloc::Global;
use tiles::{TileFault, Window, overlay_in};

/// Writes a handle of the polygons of what of `itree_overlay`'s result lies in the window, or null.
///
/// The status is `ANSWERED` (0), and then the caller owns the handle and gives it to `itree_polygons_free` once; or
/// `REFUSED` (1) where memory was refused, `LENGTHS` (3) where a ring of the subject or of the clip stops before it begins
/// or behind the points, `CHOICE` (5) where no rule or no operation has the number, `WINDOW` (10) where no point lies in the window
/// or a side of it is less than 2 away from what 32 bits hold: then null is written, and all memory has been given back. At
/// `CHOICE` nothing else is looked at, and at `LENGTHS` the window isn't. What the polygons are is said at `overlay_in` of `tiles`.
#[unsafe(no_mangle)]
pub unsafe extern "C" fn itree_overlay_in<'a>(
    alloc: Global,
    window: &'a Window,
    subject: &'a [Point],
    subject_ends: &'a [usize],
    clip: &'a [Point],
    clip_ends: &'a [usize],
    rule: i32,
    operation: i32,
    polygons: &mut *mut Handle,
) -> i32
    ensures* made { ∃ₛ (λ (made : Option Held).
        ⌜ AnswersTile window.now subject.now subject_ends.now clip.now clip_ends.now rule operation result made ⌝
        ∗ sem 𝓛 (owns_polygons polygons.new made)) }
{
    let (status, Raw { at, alloc: _ }) = all_of_tile(
        alloc,
        window,
        Rings {
            points: subject,
            ends: subject_ends,
        },
        Rings {
            points: clip,
            ends: clip_ends,
        },
        rule,
        operation,
    );
    *polygons = at as *mut Handle;
    status
}

// The status of the call, and the polygons or null.
fn all_of_tile<'a>(
    alloc: Global,
    window: &'a Window,
    subject: Rings<'a>,
    clip: Rings<'a>,
    rule: i32,
    operation: i32,
) -> (i32, Raw<PolygonLists, Global>)
    ensures { AnswersTile window.now subject.entry.points.now subject.entry.ends.now clip.entry.points.now clip.entry.ends.now
        rule operation result.0 result.1.value }
{
    let (Some(rule), Some(operation)) = (rule_of(rule), operation_of(operation)) else {
        return (CHOICE, Raw::null(alloc));
    };
    match boxed_tile(alloc, *window, subject, clip, rule, operation) {
        Ok(polygons) => (ANSWERED, Raw::of(polygons)),
        Err(TileFault::Lengths) => (LENGTHS, Raw::null(alloc)),
        Err(TileFault::Empty) => (WINDOW, Raw::null(alloc)),
        Err(TileFault::Margin) => (WINDOW, Raw::null(alloc)),
        Err(TileFault::OutOfMemory) => (REFUSED, Raw::null(alloc)),
    }
}

// The polygons within the window, on the heap.
fn boxed_tile(
    alloc: Global,
    window: Window,
    subject: Rings,
    clip: Rings,
    rule: FillRule,
    operation: Operation,
) -> Result<Box<PolygonLists, Global>, TileFault>
    ensures ok { IfOk result (λ polygons. CanCropTo window
        × AreAllOfTile window rule operation (edges_of subject.entry) (edges_of clip.entry) polygons.value) }
    ensures lengths { (result ≡ Err Lengths) ↔ ¬ (HasEnds subject.entry × HasEnds clip.entry) }
    ensures fault { IfErr result (IsTileFault window) }
{
    let mut made = Polygons::new(alloc);
    overlay_in(window, subject, clip, rule, operation, &mut made)?;
    match offset_lists(alloc, made) {
        Ok(polygons) => Ok(polygons),
        Err(_) => Err(TileFault::OutOfMemory),
    }
}
