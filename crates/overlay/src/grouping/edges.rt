//! The edges of a ring, one by one.

ghost use Rattle.std.specs.Prelude.{◌≡◌, ◌<◌, ◌+◌, drop, length};
ghost use Rattle.overlay.specs.Contours.Outlines.{next_or, ring_point};
ghost use Rattle.plane.specs.Ends.{edge_between};

use crate::contours::next_in;
use plane::edge::{Edge, edge_between};
use plane::point::Point;

/// The edge from the point at this place of the ring to the next one, or from the last one to the first.
pub fn edge_at(ring: &[Point], place: usize) -> Edge
    requires { place < length ring.now }
    ensures { result ≡ edge_between (ring_point ring.now place) (next_or (drop (place + 1) ring.now) (ring_point ring.now 0)) }
{
    edge_between(ring[place], next_in(ring, place))
}
