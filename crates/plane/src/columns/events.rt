//! The events of the sweep by columns, in the order in which they are served, and the moment of each.

ghost use Rattle.std.specs.Prelude.{◌≡◌, IfOk};
ghost use Rattle.plane.specs.Columns.Sweep.{IsQueue, moment_of};

use super::Asked;
use crate::edge::Edge;
use crate::locate::events::{begin_x, end_x};
use event_queue::{Event, Task, events_in_order};
use std::alloc::{AllocError, Allocator};

/// The events of all edges that cover something, and of all that is asked, in order.
pub fn events_of<A: Allocator>(
    alloc: A,
    edges: &[Edge],
    asked: &[Asked],
) -> Result<Vec<Event, A>, AllocError>
    ensures { IfOk result (λ events. IsQueue edges.now asked.now events.items) }
{
    events_in_order(
        alloc,
        edges,
        asked,
        end_x,
        begin_x,
        |asked: Asked| Some(asked.x),
    )
}

/// The moment of the event: an end is at its column, all else just behind it.
pub fn moment_of(event: Event) -> i64
    ensures { result ≡ moment_of event }
{
    let column = 2 * event.x as i64;
    match event.task {
        Task::End => column,
        _ => column + 1,
    }
}
