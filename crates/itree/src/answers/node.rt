//! What the program answers to edges that are broken where they meet, and moved only where they must be.

ghost use Rattle.std.specs.Prelude.{◌≡◌, IfErr, IfOk, string_bytes};
ghost use Rattle.itree.specs.Answers.{AnswersNode};

use crate::fault::Fault;
use crate::lines::chain_text;
use noding::node;
use plane::edge::Edge;
use std::alloc::Allocator;

/// The text of the replies to the edges.
pub fn answer_node<A: Allocator + Copy>(alloc: A, edges: &[Edge]) -> Result<String<A>, Fault>
    ensures answered { IfOk result (λ output. AnswersNode edges.now (string_bytes output)) }
    ensures err { IfErr result (λ fault. fault ≡ Fault.Memory) }
{
    let mut points = Vec::new(alloc);
    let mut ends = Vec::new(alloc);
    node(edges, &mut points, &mut ends)?;
    Ok(chain_text(alloc, &points, &ends)?)
}
