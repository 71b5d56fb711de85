//! `Fault`: what is wrong with polygons.

use plane::edge::Edge;
use plane::point::Point;

/// What is wrong with polygons that aren't valid, and where.
///
/// Rings and polygons are told by their places among those given, and edges as they are in rings that run the way they should.
#[derive(Clone, Copy, Debug, PartialEq, Eq)]
pub enum Fault {
    /// The ring has fewer than three points, those left out that are the next one again.
    FewPoints {
        ring: usize,
    },
    /// The ring crosses or touches itself, or visits a point twice: these two of its edges meet otherwise than one behind the
    /// other.
    MeetsItself {
        ring: usize,
        one: Edge,
        other: Edge,
    },
    /// Two edges cross, or share more than one point. Those of one ring are told as `MeetsItself`.
    RingsCross {
        one: Edge,
        other: Edge,
    },
    /// A hole of the polygon lies outside of its outer ring, or in another hole.
    HolesOutside {
        polygon: usize,
        point: Point,
    },
    /// Two polygons overlap.
    PolygonsOverlap {
        point: Point,
    },
    /// The inside of the polygon is no one piece: its rings touch along a circle, on which this ring of it touches another one in
    /// the point.
    Disconnected {
        polygon: usize,
        ring: usize,
        point: Point,
    },
}
