//! Overlays of groups of shapes, one for each two groups, in one call.

ghost use Rattle.std.specs.Prelude.{◌≡◌, ◌++◌, ◌↔◌, ◌⊎◌, ◌<◌, [], List, IfErr, IsTrue, OnErr, OnOk, Err, get_or, length};
ghost use Rattle.std.specs.List.{flat_map};
ghost use Rattle.i_tree.specs.declared.Refusal.TheVariants.{OutOfMemory};
ghost use Rattle.plane.specs.declared.point.Point.{Point};
ghost use Rattle.plane.specs.Lists.{Extends};
ghost use Rattle.noding.specs.Offsets.{offsets};
ghost use Rattle.overlay.specs.Polygons.{Appends, AreAsBefore, AreExtended};
ghost use Rattle.layers.specs.Each.{AreOverlays, HaveLengths, HaveShapes};
ghost use Rattle.layers.specs.Gathered.{HasGroup, group_rings};
ghost use Rattle.layers.specs.Overlaid.{AppendsOverlay, HasPair};
ghost use Rattle.layers.specs.Shapes.{AreNamed, HasGroups, HasShapes, edges_of_groups, groups_of, rings_at};

use crate::append::append_polygons;
use crate::fault::LayerFault;
use crate::gathered::{Group, GroupPair, gathered, point_count};
use crate::shapes::{GroupedShapes, are_groups, are_named, are_shapes, list_at};
use bumpalo::Bump;
use i_tree::Refusal;
use monotone_chains::overlay;
use overlay::fill::{FillRule, Operation};
use overlay::{OverlayFault, Polygons};
use std::alloc::Allocator;

// Two groups with so many points together, or fewer, take their working lists from the arena, which keeps what lists gave back
// until the groups are done: about two kilobytes for each point, so some megabytes at most, where not many more edges cross than
// there are. What more points take is asked for list by list, and given back.
const FEW_POINTS: usize = 4096;

/// Appends, for each two groups at one place, the polygons of what the operation makes of the subjects of the one and the clips of
/// the other, and where these polygons stop among all polygons.
///
/// All rings of a group's shapes are taken together, as one set of rings. What the polygons of two sets are is said at
/// `overlay::overlay`. So a pair of shapes is two groups of one place each. Groups without clips and the union join the shapes of
/// each group. A subject and all clips that touch it, by the difference, leave what none of these covers.
///
/// `Lengths` comes where a ring, a shape or a group stops before it begins or behind the last of what it is made of, or where there
/// are not as many groups on both sides. `NoShape` comes where these are right, and a group names the place of no shape. Nothing else
/// is done then. `Refused` comes where memory was refused, and for no other cause. After any fault `out` and `ends` are as they
/// were.
///
/// The memory is that of `out` and `ends`. What an overlay works with is asked of it once for all groups, but for groups of many
/// points.
pub fn overlay_each<A: Allocator + Copy>(
    subjects: GroupedShapes,
    clips: GroupedShapes,
    rule: FillRule,
    operation: Operation,
    out: &mut Polygons<A>,
    ends: &mut Vec<usize, A>,
) -> Result<(), LayerFault>
    ensures ok { OnOk result ((each : List (List (List (List Point))))
        × AreOverlays rule operation (edges_of_groups subjects.entry.shapes subjects.entry.groups) (edges_of_groups clips.entry.shapes clips.entry.groups) each
        × Appends (flat_map (λ polygons. polygons) each) out.old out.new
        × (ends.new.items ≡ ends.old.items ++ offsets (length out.old.polygon_ends.items) each)) }
    ensures err { OnErr result (AreAsBefore out.old out.new × (ends.new.items ≡ ends.old.items)) }
    ensures lengths { (result ≡ Err LayerFault.Lengths)
        ↔ ¬ (HaveLengths subjects.entry.shapes subjects.entry.groups clips.entry.shapes clips.entry.groups) }
    ensures no_shape { (result ≡ Err LayerFault.NoShape)
        ↔ (HaveLengths subjects.entry.shapes subjects.entry.groups clips.entry.shapes clips.entry.groups
        × (¬ (HaveShapes subjects.entry.shapes subjects.entry.groups clips.entry.shapes clips.entry.groups))) }
    ensures refused { IfErr result (λ fault.
        (fault ≡ LayerFault.Lengths) ⊎ ((fault ≡ LayerFault.NoShape) ⊎ (fault ≡ LayerFault.Refused OutOfMemory))) }
{
    if !have_lengths(subjects, clips) {
        return Err(LayerFault::Lengths);
    }
    if !have_shapes(subjects, clips) {
        return Err(LayerFault::NoShape);
    }
    let points = out.points.len();
    let rings = out.ring_ends.len();
    let polygons = out.polygon_ends.len();
    let groups = ends.len();
    let outcome = append_each(subjects, clips, rule, operation, out, ends);
    if let Err(cause) = outcome {
        out.points.truncate(points);
        out.ring_ends.truncate(rings);
        out.polygon_ends.truncate(polygons);
        ends.truncate(groups);
        return Err(LayerFault::Refused(cause));
    }
    Ok(())
}

// Whether the ends of shapes and groups are right, and there are as many groups on both sides.
fn have_lengths(subjects: GroupedShapes, clips: GroupedShapes) -> bool
    ensures { IsTrue result ↔ HaveLengths subjects.entry.shapes subjects.entry.groups clips.entry.shapes clips.entry.groups }
{
    are_shapes(subjects.shapes)
        && are_shapes(clips.shapes)
        && are_groups(subjects.groups)
        && are_groups(clips.groups)
        && subjects.groups.ends.len() == clips.groups.ends.len()
}

// Whether each place is that of a shape.
fn have_shapes(subjects: GroupedShapes, clips: GroupedShapes) -> bool
    ensures { IsTrue result ↔ HaveShapes subjects.entry.shapes subjects.entry.groups clips.entry.shapes clips.entry.groups }
{
    are_named(subjects.groups, subjects.shapes.shape_ends.len())
        && are_named(clips.groups, clips.shapes.shape_ends.len())
}

// As `overlay_each`, from right lengths and places on. It is refused for want of memory alone, and may have appended something.
fn append_each<A: Allocator + Copy>(
    subjects: GroupedShapes,
    clips: GroupedShapes,
    rule: FillRule,
    operation: Operation,
    out: &mut Polygons<A>,
    ends: &mut Vec<usize, A>,
) -> Result<(), Refusal>
    requires lengths { HaveLengths subjects.shapes subjects.groups clips.shapes clips.groups }
    requires shapes { HaveShapes subjects.shapes subjects.groups clips.shapes clips.groups }
    ensures ok { OnOk result ((each : List (List (List (List Point))))
        × AreOverlays rule operation (edges_of_groups subjects.entry.shapes subjects.entry.groups) (edges_of_groups clips.entry.shapes clips.entry.groups) each
        × Appends (flat_map (λ polygons. polygons) each) out.old out.new
        × (ends.new.items ≡ ends.old.items ++ offsets (length out.old.polygon_ends.items) each)) }
    ensures err { OnErr result (AreExtended out.old out.new × Extends ends.old.items ends.new.items) }
    ensures refused { IfErr result (λ cause. cause ≡ OutOfMemory) }
{
    let mut arena = Bump::new(*out.points.allocator());
    // The overlays of the groups before this place are appended, and no list stands in the arena.
    for at in 0..subjects.groups.ends.len() {
        let pair = GroupPair {
            subject: group_at(subjects, at),
            clip: group_at(clips, at),
            rule,
            operation,
        };
        append_pair(pair, &mut arena, out)?;
        ends.push(out.polygon_ends.len())?;
    }
    Ok(())
}

// The shapes of the group at the place.
fn group_at(grouped: GroupedShapes, at: usize) -> Group
    requires shapes { HasShapes grouped.shapes }
    requires groups { HasGroups grouped.groups }
    requires named { AreNamed (length grouped.shapes.shape_ends.now) grouped.groups }
    requires at { at < length grouped.groups.ends.now }
    ensures group { HasGroup result }
    ensures rings { group_rings result ≡ rings_at grouped.entry.shapes (get_or (groups_of grouped.entry.groups) at []) }
{
    Group {
        shapes: grouped.shapes,
        places: list_at(grouped.groups.places, grouped.groups.ends, at),
    }
}

// Appends the overlay of two groups: from lists in the arena, where they have few points. It is refused for want of memory alone.
fn append_pair<A: Allocator + Copy>(
    pair: GroupPair,
    arena: &mut Bump<A>,
    out: &mut Polygons<A>,
) -> Result<(), Refusal>
    requires { HasPair pair }
    ensures ok { OnOk result (AppendsOverlay pair.entry out.old out.new) }
    ensures err { OnErr result (AreExtended out.old out.new) }
    ensures refused { IfErr result (λ cause. cause ≡ OutOfMemory) }
{
    let points = point_count(pair.subject).saturating_add(point_count(pair.clip));
    if FEW_POINTS < points {
        return append_overlay(pair, out);
    }
    let outcome = append_by_arena(pair, arena, out);
    // No list stands in the arena any more, so it is reset. If it weren't, it would only grow until all groups are done.
    let _ = arena.reset();
    outcome
}

// As `append_pair`, from lists in the arena.
fn append_by_arena<A: Allocator + Copy>(
    pair: GroupPair,
    arena: &Bump<A>,
    out: &mut Polygons<A>,
) -> Result<(), Refusal>
    requires { HasPair pair }
    ensures ok { OnOk result (AppendsOverlay pair.entry out.old out.new) }
    ensures err { OnErr result (AreExtended out.old out.new) }
    ensures refused { IfErr result (λ cause. cause ≡ OutOfMemory) }
{
    let mut made = Polygons::new(arena);
    append_overlay(pair, &mut made)?;
    append_polygons(&made, out)?;
    Ok(())
}

// As `append_pair`, from lists of the polygons' allocator.
fn append_overlay<A: Allocator + Copy>(
    pair: GroupPair,
    out: &mut Polygons<A>,
) -> Result<(), Refusal>
    requires { HasPair pair }
    ensures ok { OnOk result (AppendsOverlay pair.entry out.old out.new) }
    ensures err { OnErr result (AreAsBefore out.old out.new) }
    ensures refused { IfErr result (λ cause. cause ≡ OutOfMemory) }
{
    let alloc = *out.points.allocator();
    let subject = gathered(alloc, pair.subject)?;
    let clip = gathered(alloc, pair.clip)?;
    match overlay(
        subject.rings(),
        clip.rings(),
        pair.rule,
        pair.operation,
        out,
    ) {
        Ok(()) => Ok(()),
        Err(OverlayFault::Refused(cause)) => Err(cause),
        // Rings that were gathered stop where they can.
        Err(OverlayFault::Lengths) => unreachable!(),
    }
}
