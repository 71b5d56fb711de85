//! `itree_polygon_parents`: which polygon lies in a hole of which.

ghost use Rattle.std.specs.Prelude.{◌≡◌, ◌≢◌, ◌↔◌, Err, IfOk, length, map};
ghost use Rattle.layers.specs.Parents.{AreParents};
ghost use Rattle.layers.specs.Shapes.{HasShapes, shapes_of};
ghost use Rattle.layers.specs.declared.fault.LayerFault.TheVariants.{Lengths};
ghost use Rattle.itree_c.specs.Layers.{IsParentsStatus, WritesParents, written_parent};
ghost use Rattle.itree_c.specs.declared.status.TheConstants.{ANSWERED, LENGTHS};

use crate::status::{ANSWERED, LENGTHS, REFUSED};
use layers::parents::parents;
use layers::{LayerFault, Point, Shapes};
use std::alloc::Global;

/// What is written for a polygon around which no other goes. `itree.h` has it as SIZE_MAX.
pub const NO_PARENT: usize = usize::MAX;

/// Writes for each of the polygons, in order, the place of the polygon in whose hole it lies, or `NO_PARENT`.
///
/// The status is `ANSWERED` (0), and the parents are written; `REFUSED` (1) where memory was refused; `LENGTHS` (3) where there are
/// not as many parents as polygons, or where a ring or a polygon stops before it begins or behind the points or the rings. Which
/// polygon lies in a hole of which is said at `parents` of `layers`.
#[unsafe(no_mangle)]
pub extern "C" fn itree_polygon_parents<'a>(
    alloc: Global,
    points: &'a [Point],
    ring_ends: &'a [usize],
    polygon_ends: &'a [usize],
    parents: &mut [usize],
) -> i32
    ensures answered { result ≡ ANSWERED → WritesParents
        (shapes_of (record { points = points.entry; ring_ends = ring_ends.entry; shape_ends = polygon_ends.entry })) parents.new }
    ensures lengths { (result ≡ LENGTHS)
        ↔ ¬ (HasShapes (record { points = points.entry; ring_ends = ring_ends.entry; shape_ends = polygon_ends.entry })
        × (length parents.old ≡ length polygon_ends.now)) }
    ensures kept { result ≢ ANSWERED → parents.new ≡ parents.old }
    ensures status { IsParentsStatus result }
{
    if parents.len() != polygon_ends.len() {
        return LENGTHS;
    }
    let polygons = Shapes {
        points,
        ring_ends,
        shape_ends: polygon_ends,
    };
    match all_parents(alloc, polygons) {
        Ok(found) => {
            write_parents(&found, parents);
            ANSWERED
        }
        Err(LayerFault::Lengths) => LENGTHS,
        Err(_) => REFUSED,
    }
}

// The parents of all polygons.
fn all_parents(alloc: Global, polygons: Shapes) -> Result<Vec<Option<usize>>, LayerFault>
    ensures ok { IfOk result (λ found. AreParents (shapes_of polygons.entry) found.items) }
    ensures lengths { (result ≡ Err Lengths) ↔ ¬ (HasShapes polygons.entry) }
{
    let mut found = Vec::new(alloc);
    parents(polygons, &mut found)?;
    Ok(found)
}

// Writes each parent at its place.
fn write_parents(found: &[Option<usize>], parents: &mut [usize])
    requires { length found.now ≡ length parents.old }
    ensures { parents.new ≡ map written_parent found.now }
{
    for (place, parent) in found.iter().enumerate() {
        parents[place] = written(*parent);
    }
}

// A parent as it is written.
fn written(parent: Option<usize>) -> usize
    ensures { result ≡ written_parent parent }
{
    match parent {
        Some(place) => place,
        None => NO_PARENT,
    }
}
