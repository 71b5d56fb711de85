//! The lines of edges and ranges, and the replies to them.

ghost use Rattle.std.specs.Prelude.{◌≡◌, ◌∷◌, codes, length, map, IfOk, IfSome, IsNone, string_bytes};
ghost use Rattle.itree.specs.CrossingsLines.{SaysCrossingsLine, SaysNoCrossingsLine};
ghost use Rattle.itree.specs.CrossingsLines.{edge_or_point as edge_in, range_or_none as range_in};
ghost use Rattle.itree.specs.Replies.{crossing_lines, crossing_word};
ghost use Rattle.itree.specs.Told.{lists_of};

use super::meetings::{MetLines, parse_edge, push_numbers};
use super::{LineCommand, three_numbers};
use plane::columns::Asked;
use plane::edge::Edge;
use std::alloc::{AllocError, Allocator};

/// What a line of edges and ranges says.
#[derive(Clone, Copy, Debug, PartialEq, Eq)]
pub enum CrossingsLine {
    /// An edge.
    Edge(Edge),
    /// A range of heights at a column.
    Range(Asked),
}

impl CrossingsLine {
    /// The edge, where one is said, and else a point, which crosses and reaches nothing.
    pub fn edge_or_point(&self) -> Edge
        ensures { result ≡ edge_in self.now }
    {
        match self {
            CrossingsLine::Edge(edge) => *edge,
            CrossingsLine::Range(_) => Edge {
                x0: 0,
                y0: 0,
                x1: 0,
                y1: 0,
            },
        }
    }

    /// The range, where one is said, and else one without heights, behind all edges.
    pub fn range_or_none(&self) -> Asked
        ensures { result ≡ range_in self.now }
    {
        match self {
            CrossingsLine::Edge(_) => Asked {
                x: i32::MAX,
                low: 1,
                high: 0,
            },
            CrossingsLine::Range(range) => *range,
        }
    }

    // The word of the reply.
    fn word(&self) -> &'static str
        ensures { result.now ≡ crossing_word self.now }
    {
        match self {
            CrossingsLine::Edge(_) => "crosses",
            CrossingsLine::Range(_) => "reached",
        }
    }
}

impl LineCommand for CrossingsLine {
    ghost says = { SaysCrossingsLine };

    fn from_words(words: &[&str]) -> Option<Self> {
        let (name, rest) = words.split_first()?;
        match *name {
            "edge" => edge_line(rest),
            "range" => range_line(rest),
            _ => None,
        }
    }
}

// The edge whose words follow its name.
fn edge_line(words: &[&str]) -> Option<CrossingsLine>
    ensures said { IfSome result (SaysCrossingsLine (codes "edge" ∷ map (λ word. word.now) words.now)) }
    ensures unsaid { IsNone result → SaysNoCrossingsLine (codes "edge" ∷ map (λ word. word.now) words.now) }
{
    Some(CrossingsLine::Edge(parse_edge(words)?))
}

// The range whose words follow its name.
fn range_line(words: &[&str]) -> Option<CrossingsLine>
    ensures said { IfSome result (SaysCrossingsLine (codes "range" ∷ map (λ word. word.now) words.now)) }
    ensures unsaid { IsNone result → SaysNoCrossingsLine (codes "range" ∷ map (λ word. word.now) words.now) }
{
    let (x, low, high) = three_numbers(words)?;
    Some(CrossingsLine::Range(Asked { x, low, high }))
}

/// One line for each reply, in order: the word of the line that it replies to, the numbers that it lists, and a line feed.
pub fn crossings_text<A: Allocator, B: Allocator>(
    alloc: A,
    said: &[CrossingsLine],
    replies: &[MetLines<B>],
) -> Result<String<A>, AllocError>
    requires { length replies.now ≡ length said.now }
    ensures { IfOk result (λ text. string_bytes text ≡ crossing_lines said.now (lists_of replies.now)) }
{
    let mut text = String::new(alloc);
    // The replies before this place have their lines.
    for place in 0..said.len() {
        push_numbers(&mut text, said[place].word(), &replies[place].numbers)?;
        text.push_str("\n")?;
    }
    Ok(text)
}
