//! The events of the sweep among edges, in the order in which they are served.

ghost use Rattle.std.specs.Prelude.{◌≡◌, IfOk};
ghost use Rattle.plane.specs.Locate.Events.{IsQueue, begin_x, end_x};

use crate::edge::Edge;
use crate::point::Point;
use crate::sweep_line::heights::turn_rightwards;
use event_queue::{Event, events_in_order};
use std::alloc::{AllocError, Allocator};

/// The events of all edges that cover something, and of all points, in order.
pub fn events_of<A: Allocator>(
    alloc: A,
    edges: &[Edge],
    points: &[Point],
) -> Result<Vec<Event, A>, AllocError>
    ensures { IfOk result (λ events. IsQueue edges.now points.now events.items) }
{
    events_in_order(
        alloc,
        edges,
        points,
        end_x,
        begin_x,
        |point: Point| Some(point.x),
    )
}

/// Where the edge ends, if it covers something.
pub(crate) fn end_x(edge: Edge) -> Option<i32>
    ensures { result ≡ end_x edge }
{
    let right = turn_rightwards(edge);
    if right.x0 < right.x1 {
        Some(right.x1)
    } else {
        None
    }
}

/// Where the edge begins, if it covers something.
pub(crate) fn begin_x(edge: Edge) -> Option<i32>
    ensures { result ≡ begin_x edge }
{
    let right = turn_rightwards(edge);
    if right.x0 < right.x1 {
        Some(right.x0)
    } else {
        None
    }
}
