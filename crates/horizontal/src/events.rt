//! The events of a sweep, in the order in which they are served.

ghost use Rattle.std.specs.Prelude.{◌≡◌, IfOk};
ghost use Rattle.horizontal.specs.Events.{IsQueue, begin_x};

use crate::{Point, Segment};
use event_queue::{Event, events_in_order};
use std::alloc::{AllocError, Allocator};

/// The events of all segments that cover something, and of all points, in order. A level expires behind its segment, so
/// that no event ends one.
pub fn events_of<A: Allocator>(
    alloc: A,
    segments: &[Segment],
    points: &[Point],
) -> Result<Vec<Event, A>, AllocError>
    ensures { IfOk result (λ events. IsQueue segments.now points.now events.items) }
{
    let never = |_segment: Segment| None;
    events_in_order(
        alloc,
        segments,
        points,
        never,
        begin_x,
        |point: Point| Some(point.x),
    )
}

/// Where the segment begins, if it covers something.
fn begin_x(segment: Segment) -> Option<i32>
    ensures { result ≡ begin_x segment }
{
    if segment.x1 < segment.x0 {
        None
    } else {
        Some(segment.x0)
    }
}
