//! `ReadAhead`: a read-ahead buffer of the events' payloads, the edges and points that they are about.

ghost use Rattle.std.specs.Prelude.{◌≡◌, ◌<◌, [], length, IfOk, OnOk};
ghost use Rattle.plane.specs.Locate.Payloads.{IsPayloadAt, HasItem, IsReadAhead, IsPayloadOf};
ghost use Rattle.plane.specs.Locate.Events.{IsQueue};

use crate::edge::Edge;
use crate::point::Point;
use crate::sweep_line::active::{ActiveEdge, active_edge_of};
use event_queue::{Event, Task};
use std::alloc::{AllocError, Allocator};

// The payloads of so many events are read at a time.
const RUN: usize = 256;

// The edges and points of fewer events lie near enough: they are read as they are asked for.
const MANY: usize = 65536;

/// The payload of an event: the edge that ends or begins, or the point that asks for its answer, and its place.
#[derive(Clone, Copy)]
pub enum Payload {
    Ends(ActiveEdge),
    Begins(ActiveEdge),
    Asks(usize, Point),
}

/// The payloads of a run of events, the first of which is at the place `from`.
///
/// Events stand in another order than edges and points, so that most reads of these wait for memory. In a loop that
/// does nothing else they wait together.
#[derive(Drop)]
pub struct ReadAhead<A: Allocator> {
    from: usize,
    payloads: Vec<Payload, A>,
}

impl<A: Allocator> ReadAhead<A> {
    /// Nothing is read so far.
    pub fn new(alloc: A) -> ReadAhead<A>
        ensures { result.payloads.items ≡ [] }
    {
        ReadAhead {
            from: 0,
            payloads: Vec::new(alloc),
        }
    }

    /// The payload of the event at this place. Where there are many events and it isn't read yet, it is read with those
    /// behind it.
    pub fn at(
        &mut self,
        edges: &[Edge],
        points: &[Point],
        events: &[Event],
        place: usize,
    ) -> Result<Payload, AllocError>
        requires queue { IsQueue edges.now points.now events.now }
        requires inside { place < length events.now }
        requires ahead { IsReadAhead edges.now points.now events.now self.old.from self.old.payloads.items }
        ensures value { IfOk result (IsPayloadAt edges.now points.now events.now place) }
        ensures ahead { OnOk result (
            IsReadAhead edges.now points.now events.now self.new.from self.new.payloads.items) }
    {
        if events.len() < MANY {
            return Ok(payload_of(edges, points, events[place]));
        }
        if self.from <= place && place - self.from < self.payloads.len() {
            return Ok(self.payloads[place - self.from]);
        }
        self.read(edges, points, events, place)?;
        Ok(self.payloads[0])
    }

    // Reads the payloads of the events from this place on.
    fn read(
        &mut self,
        edges: &[Edge],
        points: &[Point],
        events: &[Event],
        from: usize,
    ) -> Result<(), AllocError>
        requires queue { IsQueue edges.now points.now events.now }
        requires inside { from < length events.now }
        ensures { OnOk result (
            (0 < length self.new.payloads.items) × (self.new.from ≡ from)
            × IsReadAhead edges.now points.now events.now from self.new.payloads.items) }
    {
        self.from = from;
        self.payloads.clear();
        let end = events.len().min(from.saturating_add(RUN));
        // The payloads of the events up to this one are read.
        for place in from..end {
            self.payloads
                .push(payload_of(edges, points, events[place]))?;
        }
        Ok(())
    }
}

// The payload of the event.
fn payload_of(edges: &[Edge], points: &[Point], event: Event) -> Payload
    requires { HasItem edges.now points.now event }
    ensures { IsPayloadOf edges.now points.now event result }
{
    let place = event.place;
    match event.task {
        Task::End => Payload::Ends(active_edge_of(edges[place], place)),
        Task::Begin => Payload::Begins(active_edge_of(edges[place], place)),
        Task::Answer => Payload::Asks(place, points[place]),
    }
}
