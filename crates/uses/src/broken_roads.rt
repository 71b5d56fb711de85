//! Roads that are broken where they meet, so that no two pieces cross.

ghost use Rattle.std.specs.Prelude.{Contains, IfOk};
ghost use Rattle.plane.specs.Meet.Edges.{RationalPoint, IsOf};
ghost use Rattle.plane.specs.declared.edge.Edge.{Edge};
ghost use Rattle.noding.specs.Meeting.{MeetAtEnds};

use i_tree::Refusal;
use noding::pieces::pieces_of;
use noding::snap;
use plane::edge::Edge;
use std::alloc::Global;

/// The pieces of all roads, road by road, each within half a unit of its road. A point that two of them have is an end of both,
/// or they are one stretch that two roads share.
pub fn broken_roads(alloc: Global, roads: &[Edge]) -> Result<Vec<Edge>, Refusal>
    ensures noded { IfOk result (λ edges. (one other : Edge) (point : RationalPoint) →
        Contains edges.items one → Contains edges.items other →
        IsOf one point → IsOf other point → MeetAtEnds one other point) }
{
    let mut points = Vec::new(alloc);
    let mut ends = Vec::new(alloc);
    snap(roads, &mut points, &mut ends)?;
    Ok(pieces_of(alloc, &points, &ends)?)
}
