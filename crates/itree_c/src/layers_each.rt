//! `itree_overlay_each`: an overlay for each of many groups of shapes, in one call.

ghost use Rattle.std.specs.Prelude.{◌≡◌, ◌↔◌, Option, Err, IfOk, OnErr, length};
ghost use Rattle.std.specs.Borrow.{sem};
ghost use Rattle.layers.specs.Each.{HaveLengths, HaveShapes};
ghost use Rattle.layers.specs.Shapes.{edges_of_groups};
ghost use Rattle.layers.specs.declared.fault.LayerFault.TheVariants.{Lengths, NoShape};
ghost use Rattle.itree_c.specs.Overlay.{owns_polygons};
ghost use Rattle.itree_c.specs.Layers.{AnswersEach, AreAllOfEach};
ghost use Rattle.itree_c.specs.declared.polygon_lists.PolygonLists.{PolygonLists as Held};

use crate::choices::{operation_of, rule_of};
use crate::handle::Handle;
use crate::polygon_lists::{PolygonLists, boxed_lists};
use crate::raw::Raw;
use crate::status::{ANSWERED, CHOICE, LENGTHS, REFUSED};
use layers::{
    FillRule, GroupedShapes, Groups, LayerFault, Operation, Point, Polygons, Shapes, overlay_each,
};
use std::alloc::Global;

/// Writes a handle of the polygons of what the operation makes of each group of the subject's shapes and the clip's group at the same
/// place, one group after another, or null; and where the polygons of each group stop among all.
///
/// The status is `ANSWERED` (0), and then the caller owns the handle and gives it to `itree_polygons_free` once; or
/// `REFUSED` (1) where memory was refused, `LENGTHS` (3) where a ring, a shape or a group stops before it begins or behind the last
/// of what it is made of, where a group names the place of a shape that there isn't, or where there is not one end for each group
/// of both sides, `CHOICE` (5) where no rule or no operation has the number: then null is written, the ends stay as they were, and
/// all memory has been given back. At `CHOICE` nothing else is looked at. What the polygons are is said at `overlay_each` of
/// `layers`.
#[unsafe(no_mangle)]
pub unsafe extern "C" fn itree_overlay_each<'a>(
    alloc: Global,
    subjects: &'a [Point],
    subject_ring_ends: &'a [usize],
    subject_shape_ends: &'a [usize],
    subject_places: &'a [usize],
    subject_group_ends: &'a [usize],
    clips: &'a [Point],
    clip_ring_ends: &'a [usize],
    clip_shape_ends: &'a [usize],
    clip_places: &'a [usize],
    clip_group_ends: &'a [usize],
    rule: i32,
    operation: i32,
    ends: &mut [usize],
    polygons: &mut *mut Handle,
) -> i32
    ensures* made { ∃ₛ (λ (made : Option Held).
        ⌜ AnswersEach
        (record { points = subjects.entry; ring_ends = subject_ring_ends.entry; shape_ends = subject_shape_ends.entry })
        (record { places = subject_places.entry; ends = subject_group_ends.entry })
        (record { points = clips.entry; ring_ends = clip_ring_ends.entry; shape_ends = clip_shape_ends.entry })
        (record { places = clip_places.entry; ends = clip_group_ends.entry })
        rule operation ends.old ends.new result made ⌝
        ∗ sem 𝓛 (owns_polygons polygons.new made)) }
{
    let (status, Raw { at, alloc: _ }) = all_each(
        alloc,
        GroupedShapes {
            shapes: Shapes {
                points: subjects,
                ring_ends: subject_ring_ends,
                shape_ends: subject_shape_ends,
            },
            groups: Groups {
                places: subject_places,
                ends: subject_group_ends,
            },
        },
        GroupedShapes {
            shapes: Shapes {
                points: clips,
                ring_ends: clip_ring_ends,
                shape_ends: clip_shape_ends,
            },
            groups: Groups {
                places: clip_places,
                ends: clip_group_ends,
            },
        },
        rule,
        operation,
        ends,
    );
    *polygons = at as *mut Handle;
    status
}

// The status of the call, and the polygons or null.
fn all_each<'a>(
    alloc: Global,
    subject: GroupedShapes<'a>,
    clip: GroupedShapes<'a>,
    rule: i32,
    operation: i32,
    ends: &mut [usize],
) -> (i32, Raw<PolygonLists, Global>)
    ensures { AnswersEach subject.entry.shapes subject.entry.groups clip.entry.shapes clip.entry.groups
        rule operation ends.old ends.new result.0 result.1.value }
{
    let (Some(rule), Some(operation)) = (rule_of(rule), operation_of(operation)) else {
        return (CHOICE, Raw::null(alloc));
    };
    if ends.len() != subject.groups.ends.len() {
        return (LENGTHS, Raw::null(alloc));
    }
    match boxed_each(alloc, subject, clip, rule, operation, ends) {
        Ok(polygons) => (ANSWERED, Raw::of(polygons)),
        Err(LayerFault::Refused(_)) => (REFUSED, Raw::null(alloc)),
        Err(LayerFault::Lengths) => (LENGTHS, Raw::null(alloc)),
        Err(LayerFault::NoShape) => (LENGTHS, Raw::null(alloc)),
    }
}

// The polygons of all groups, on the heap. Where those of each stop is written.
fn boxed_each(
    alloc: Global,
    subject: GroupedShapes,
    clip: GroupedShapes,
    rule: FillRule,
    operation: Operation,
    ends: &mut [usize],
) -> Result<Box<PolygonLists, Global>, LayerFault>
    requires { length ends.old ≡ length subject.groups.ends.now }
    ensures ok { IfOk result (λ polygons. AreAllOfEach rule operation
        (edges_of_groups subject.entry.shapes subject.entry.groups) (edges_of_groups clip.entry.shapes clip.entry.groups)
        ends.new polygons.value) }
    ensures err { OnErr result (ends.new ≡ ends.old) }
    ensures lengths { (result ≡ Err Lengths)
        ↔ ¬ (HaveLengths subject.entry.shapes subject.entry.groups clip.entry.shapes clip.entry.groups) }
    ensures no_shape { (result ≡ Err NoShape)
        ↔ (HaveLengths subject.entry.shapes subject.entry.groups clip.entry.shapes clip.entry.groups
        × (¬ (HaveShapes subject.entry.shapes subject.entry.groups clip.entry.shapes clip.entry.groups))) }
{
    let mut made = Polygons::new(alloc);
    let mut found = Vec::new(alloc);
    overlay_each(subject, clip, rule, operation, &mut made, &mut found)?;
    made.ring_ends.insert(0, 0)?;
    made.polygon_ends.insert(0, 0)?;
    let lists = boxed_lists(alloc, made)?;
    ends.copy_from_slice(&found);
    Ok(lists)
}
