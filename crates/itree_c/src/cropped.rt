//! `itree_crop`: what rings become for a window, behind the handle that chains have.

ghost use Rattle.std.specs.Prelude.{◌≡◌, ◌↔◌, ◌∷◌, Option, Err, IfErr, IfOk};
ghost use Rattle.std.specs.Borrow.{sem};
ghost use Rattle.overlay.specs.Rings.{HasEnds, rings_of};
ghost use Rattle.tiles.specs.Tile.{IsTileFault};
ghost use Rattle.tiles.specs.Window.{CanCropTo, IsFault};
ghost use Rattle.tiles.specs.declared.tile_fault.TileFault.TheVariants.{Lengths};
ghost use Rattle.itree_c.specs.Chains.{owns_chains};
ghost use Rattle.itree_c.specs.Tiles.{AnswersCrop, AreAllCropped, AreCropped};
ghost use Rattle.itree_c.specs.declared.chains.Chains.{Chains as Held};

use crate::chains::{Chains, boxed_chains};
use crate::handle::Handle;
use crate::raw::Raw;
use crate::status::{ANSWERED, LENGTHS, REFUSED, WINDOW};
use overlay::rings::{are_ends, ring_at};
use overlay::{Point, Rings};
use std::alloc::Global;
use tiles::{CropFault, TileFault, Window, crop};

/// Writes a handle of what each ring becomes for the window, or null: a chain for each ring, in their order, without its first
/// point once more; an empty one where all of its points lie beyond one side of the window, widened by 2, or on the line along it.
///
/// The status is `ANSWERED` (0), and then the caller owns the handle and gives it to `itree_chains_free` once; or
/// `REFUSED` (1) where memory was refused, `LENGTHS` (3) where a ring stops before it begins or behind the points, `WINDOW` (10)
/// where no point lies in the window or a side of it is less than 2 away from what 32 bits hold: then null is written, and all
/// memory has been given back. At `LENGTHS` the window isn't looked at. What a ring becomes is said at `crop` of `tiles`.
#[unsafe(no_mangle)]
pub unsafe extern "C" fn itree_crop<'a>(
    alloc: Global,
    window: &'a Window,
    points: &'a [Point],
    ring_ends: &'a [usize],
    cropped: &mut *mut Handle,
) -> i32
    ensures* made { ∃ₛ (λ (made : Option Held).
        ⌜ AnswersCrop window.now points.now ring_ends.now result made ⌝
        ∗ sem 𝓛 (owns_chains cropped.new made)) }
{
    let (status, Raw { at, alloc: _ }) = all_cropped(alloc, window, points, ring_ends);
    *cropped = at as *mut Handle;
    status
}

// The status of the call, and the chains or null.
fn all_cropped<'a>(
    alloc: Global,
    window: &'a Window,
    points: &'a [Point],
    ends: &'a [usize],
) -> (i32, Raw<Chains, Global>)
    ensures { AnswersCrop window.now points.now ends.now result.0 result.1.value }
{
    match boxed_cropped(alloc, *window, Rings { points, ends }) {
        Ok(chains) => (ANSWERED, Raw::of(chains)),
        Err(TileFault::Lengths) => (LENGTHS, Raw::null(alloc)),
        Err(TileFault::Empty) => (WINDOW, Raw::null(alloc)),
        Err(TileFault::Margin) => (WINDOW, Raw::null(alloc)),
        Err(TileFault::OutOfMemory) => (REFUSED, Raw::null(alloc)),
    }
}

// What the rings become, on the heap.
fn boxed_cropped(
    alloc: Global,
    window: Window,
    rings: Rings,
) -> Result<Box<Chains, Global>, TileFault>
    ensures ok { IfOk result (λ chains. CanCropTo window
        × AreAllCropped window (rings_of rings.entry.points.now 0 rings.entry.ends.now) chains.value) }
    ensures lengths { (result ≡ Err Lengths) ↔ ¬ (HasEnds rings.entry) }
    ensures fault { IfErr result (IsTileFault window) }
{
    if !are_ends(rings) {
        return Err(TileFault::Lengths);
    }
    let (points, offsets) = cropped_rings(alloc, window, rings)?;
    match boxed_chains(alloc, points, offsets) {
        Ok(chains) => Ok(chains),
        Err(_) => Err(TileFault::OutOfMemory),
    }
}

// The points of what the rings become, one after the other, and 0 and where each stops.
fn cropped_rings(
    alloc: Global,
    window: Window,
    rings: Rings,
) -> Result<(Vec<Point, Global>, Vec<usize, Global>), CropFault>
    requires { HasEnds rings }
    ensures ok { IfOk result (λ told. CanCropTo window
        × AreCropped window (rings_of rings.entry.points.now 0 rings.entry.ends.now) told.0.items told.1.items) }
    ensures fault { IfErr result (IsFault window) }
{
    let mut points = Vec::new(alloc);
    let mut offsets = Vec::new(alloc);
    // Nothing is cropped: the window is looked at where there is no ring, too.
    crop(&rings.points[..0], window, &mut points)?;
    offsets.push(0)?;
    // The rings before this one are cropped.
    for ring in 0..rings.ends.len() {
        crop(ring_at(rings.points, rings.ends, ring), window, &mut points)?;
        offsets.push(points.len())?;
    }
    Ok((points, offsets))
}
