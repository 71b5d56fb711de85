//! What the program answers to edges that are snapped.

ghost use Rattle.std.specs.Prelude.{◌≡◌, IfErr, IfOk, string_bytes};
ghost use Rattle.itree.specs.Answers.{AnswersSnap};

use crate::fault::Fault;
use crate::lines::chain_text;
use noding::snap;
use plane::edge::Edge;
use std::alloc::Allocator;

/// The text of the replies to the edges.
pub fn answer_snap<A: Allocator + Copy>(alloc: A, edges: &[Edge]) -> Result<String<A>, Fault>
    ensures answered { IfOk result (λ output. AnswersSnap edges.now (string_bytes output)) }
    ensures err { IfErr result (λ fault. fault ≡ Fault.Memory) }
{
    let mut points = Vec::new(alloc);
    let mut ends = Vec::new(alloc);
    snap(edges, &mut points, &mut ends)?;
    Ok(chain_text(alloc, &points, &ends)?)
}
