//! The lines of edges and points, and the replies to points.

ghost use Rattle.std.specs.Prelude.{◌≡◌, ◌∷◌, codes, map, IfSome, IsNone};
ghost use Rattle.itree.specs.LocateLines.{SaysLocateLine, SaysNoLocateLine, edge_in, point_in};
ghost use Rattle.itree.specs.Replies.{edge_words};

use super::meetings::parse_edge;
use super::{LineCommand, LineReply, two_numbers};
use plane::edge::Edge;
use plane::locate::Point;
use std::alloc::{AllocError, Allocator};

/// What a line of edges and points says.
#[derive(Clone, Copy, Debug, PartialEq, Eq)]
pub enum LocateLine {
    /// An edge.
    Edge(Edge),
    /// A point, which is answered.
    Point(Point),
}

impl LocateLine {
    /// The edge, where one is said.
    pub fn edge(&self) -> Option<Edge>
        ensures { result ≡ edge_in self.now }
    {
        match self {
            LocateLine::Edge(edge) => Some(*edge),
            LocateLine::Point(_) => None,
        }
    }

    /// The point, where one is said.
    pub fn point(&self) -> Option<Point>
        ensures { result ≡ point_in self.now }
    {
        match self {
            LocateLine::Edge(_) => None,
            LocateLine::Point(point) => Some(*point),
        }
    }
}

impl LineCommand for LocateLine {
    ghost says = { SaysLocateLine };

    fn from_words(words: &[&str]) -> Option<Self> {
        let (name, rest) = words.split_first()?;
        match *name {
            "edge" => edge_line(rest),
            "point" => point_line(rest),
            _ => None,
        }
    }
}

// The edge whose words follow its name.
fn edge_line(words: &[&str]) -> Option<LocateLine>
    ensures said { IfSome result (SaysLocateLine (codes "edge" ∷ map (λ word. word.now) words.now)) }
    ensures unsaid { IsNone result → SaysNoLocateLine (codes "edge" ∷ map (λ word. word.now) words.now) }
{
    Some(LocateLine::Edge(parse_edge(words)?))
}

// The point whose words follow its name.
fn point_line(words: &[&str]) -> Option<LocateLine>
    ensures said { IfSome result (SaysLocateLine (codes "point" ∷ map (λ word. word.now) words.now)) }
    ensures unsaid { IsNone result → SaysNoLocateLine (codes "point" ∷ map (λ word. word.now) words.now) }
{
    let (x, y) = two_numbers(words)?;
    Some(LocateLine::Point(Point { x, y }))
}

/// The words of the reply to a point.
impl LineReply for Option<usize> {
    ghost words = { edge_words };

    fn push_words<A: Allocator>(&self, text: &mut String<A>) -> Result<(), AllocError> {
        match self {
            Some(number) => write!(text, "edge {number}"),
            None => text.push_str("none"),
        }
    }
}
