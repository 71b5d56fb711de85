//! The lines of edges, and the replies to them.

ghost use Rattle.std.specs.Prelude.{◌≡◌, ◌∷◌, ◌++◌, codes, map, IfSome, IsNone, OnOk, string_bytes};
ghost use Rattle.itree.specs.MeetingsLines.{SaysEdge, SaysNoEdge};
ghost use Rattle.itree.specs.Replies.{met_words, number_words};

use super::{LineCommand, LineReply, number, three_numbers};
use plane::edge::Edge;
use std::alloc::{AllocError, Allocator};

impl LineCommand for Edge {
    ghost says = { SaysEdge };

    fn from_words(words: &[&str]) -> Option<Self> {
        let (name, rest) = words.split_first()?;
        match *name {
            "edge" => parse_edge(rest),
            _ => None,
        }
    }
}

/// The edge whose words follow its name.
pub fn parse_edge(words: &[&str]) -> Option<Edge>
    ensures said { IfSome result (SaysEdge (codes "edge" ∷ map (λ word. word.now) words.now)) }
    ensures unsaid { IsNone result → SaysNoEdge (codes "edge" ∷ map (λ word. word.now) words.now) }
{
    let (first, rest) = words.split_first()?;
    let x0 = number(first)?;
    let (y0, x1, y1) = three_numbers(rest)?;
    Some(Edge { x0, y0, x1, y1 })
}

/// The reply to an edge: the numbers of the lines that say the earlier edges which it meets.
#[derive(Drop)]
pub struct MetLines<A: Allocator> {
    pub numbers: Vec<usize, A>,
}

/// The words of the reply's line.
impl<B: Allocator> LineReply for MetLines<B> {
    ghost words = { λ reply. met_words reply.numbers.items };

    fn push_words<A: Allocator>(&self, text: &mut String<A>) -> Result<(), AllocError> {
        push_numbers(text, "meets", &self.numbers)
    }
}

/// Appends the name, and the numbers, each after one space.
pub fn push_numbers<A: Allocator>(
    text: &mut String<A>,
    name: &str,
    numbers: &[usize],
) -> Result<(), AllocError>
    ensures { OnOk result (string_bytes text.new ≡ string_bytes text.old ++ number_words name.now numbers.now) }
{
    text.push_str(name)?;
    for number in numbers {
        write!(text, " {number}")?;
    }
    Ok(())
}
