//! `GatheredRings`: the rings of a group of shapes, in one list.

ghost use Rattle.std.specs.Prelude.{◌≡◌, ◌<◌, [], IfOk, OnOk, get_or, length};
ghost use Rattle.noding.specs.Offsets.{AreJoined};
ghost use Rattle.layers.specs.Gathered.{AreGathered, HasGroup, group_rings};
ghost use Rattle.layers.specs.Shapes.{HasShapes, shapes_of};

use crate::shapes::{Shapes, list_at, points_at, range_at};
use overlay::Rings;
use overlay::fill::{FillRule, Operation};
use plane::point::Point;
use std::alloc::{AllocError, Allocator};

/// The shapes at these places.
#[derive(Clone, Copy)]
pub struct Group<'a> {
    pub shapes: Shapes<'a>,
    pub places: &'a [usize],
}

/// Two groups, and what is made of them.
#[derive(Clone, Copy)]
pub struct GroupPair<'a> {
    pub subject: Group<'a>,
    pub clip: Group<'a>,
    pub rule: FillRule,
    pub operation: Operation,
}

/// Rings, in lists of their own.
#[derive(Drop)]
pub struct GatheredRings<A: Allocator> {
    pub points: Vec<Point, A>,
    pub ends: Vec<usize, A>,
}

impl<A: Allocator> GatheredRings<A> {
    /// The rings, lent.
    pub fn rings(&self) -> Rings
        ensures points { result.points.now ≡ self.now.points.items }
        ensures ends { result.ends.now ≡ self.now.ends.items }
    {
        Rings {
            points: &self.points,
            ends: &self.ends,
        }
    }
}

/// The rings of the group's shapes, one shape after another.
pub fn gathered<A: Allocator + Copy>(alloc: A, group: Group) -> Result<GatheredRings<A>, AllocError>
    requires { HasGroup group }
    ensures { IfOk result (λ all. AreJoined (group_rings group.entry) all.points.items all.ends.items) }
{
    let mut points = Vec::with_capacity(alloc, point_count(group))?;
    let mut ends = Vec::new(alloc);
    // The rings of the shapes so far are gathered.
    for place in group.places {
        append_shape(group.shapes, *place, &mut points, &mut ends)?;
    }
    Ok(GatheredRings { points, ends })
}

/// How many points the shapes of the group have, or the most that has room.
pub fn point_count(group: Group) -> usize
    requires { HasGroup group }
{
    let mut count = 0usize;
    for place in group.places {
        count = count.saturating_add(points_at(group.shapes, *place).len());
    }
    count
}

// Appends the rings of the shape at the place.
fn append_shape<A: Allocator>(
    shapes: Shapes,
    place: usize,
    points: &mut Vec<Point, A>,
    ends: &mut Vec<usize, A>,
) -> Result<(), AllocError>
    requires shapes { HasShapes shapes }
    requires place { place < length shapes.shape_ends.now }
    ensures { OnOk result (AreGathered (get_or (shapes_of shapes.entry) place [])
        points.old.items points.new.items ends.old.items ends.new.items) }
{
    let (first, behind) = range_at(shapes.shape_ends, place);
    // The rings of the shape before this one are gathered.
    for ring in first..behind {
        points.extend_from_slice(list_at(shapes.points, shapes.ring_ends, ring))?;
        ends.push(points.len())?;
    }
    Ok(())
}
