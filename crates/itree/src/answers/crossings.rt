//! What the program answers to edges and to ranges that they may reach.

ghost use Rattle.std.specs.Prelude.{◌≡◌, IfErr, IfOk, map, string_bytes};
ghost use Rattle.itree.specs.Answers.{AnswersCrossings};
ghost use Rattle.itree.specs.CrossingsLines.{SaysCrossingsLine, edge_or_point, range_or_none};
ghost use Rattle.itree.specs.Grammar.{lines_of, LinesSay};
ghost use Rattle.itree.specs.Told.{AreOrderedCrossings};

use super::meetings::{tell, unmet};
use crate::fault::Fault;
use crate::lines::{CrossingsLine, command_lines, crossings_text};
use i_tree::Refusal;
use plane::columns::{Asked, Found, find_by_columns};
use plane::edge::Edge;
use std::alloc::{AllocError, Allocator};

/// The text of the replies to the edges and ranges that the lines of the text say.
pub fn answer_crossings<A: Allocator + Copy>(
    alloc: A,
    text: &[u8],
    said: &[CrossingsLine],
) -> Result<String<A>, Fault>
    requires { LinesSay SaysCrossingsLine (lines_of text.now) said.now }
    ensures answered { IfOk result (λ output. AnswersCrossings (lines_of text.now) said.now (string_bytes output)) }
    ensures err { IfErr result (λ fault. fault ≡ Fault.Memory) }
{
    let numbers = command_lines(alloc, text)?;
    let pairs = ordered_crossings(alloc, said)?;
    let mut replies = unmet(alloc, said.len())?;
    tell(&mut replies, &pairs, &numbers)?;
    Ok(crossings_text(alloc, said, &replies)?)
}

// The pairs of places of lines of which the first is told in the reply to the second, by rising first place.
//
// Each line stands at its own place among the edges and among what is asked: as what no other crosses or reaches, where it says
// the other of the two.
fn ordered_crossings<A: Allocator + Copy>(
    alloc: A,
    said: &[CrossingsLine],
) -> Result<Vec<(usize, usize), A>, Refusal>
    ensures { IfOk result (λ pairs. AreOrderedCrossings said.now pairs.items) }
{
    let edges = edges_in(alloc, said)?;
    let ranges = ranges_in(alloc, said)?;
    let Found {
        crossed: mut pairs,
        met,
    } = find_by_columns(alloc, &edges, &ranges)?;
    pairs.extend_from_slice(&met)?;
    pairs.sort_unstable_by_key(|pair| pair.0);
    Ok(pairs)
}

// The edges that are said, and a point for each range.
fn edges_in<A: Allocator>(alloc: A, said: &[CrossingsLine]) -> Result<Vec<Edge, A>, AllocError>
    ensures { IfOk result (λ edges. edges.items ≡ map edge_or_point said.now) }
{
    said.iter().map(CrossingsLine::edge_or_point).collect(alloc)
}

// The ranges that are said, and for each edge one that none reaches.
fn ranges_in<A: Allocator>(alloc: A, said: &[CrossingsLine]) -> Result<Vec<Asked, A>, AllocError>
    ensures { IfOk result (λ ranges. ranges.items ≡ map range_or_none said.now) }
{
    said.iter().map(CrossingsLine::range_or_none).collect(alloc)
}
