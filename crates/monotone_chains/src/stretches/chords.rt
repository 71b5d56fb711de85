//! The chords of stretches.

ghost use Rattle.std.specs.Prelude.{◌≡◌, IfOk, map};
ghost use Rattle.monotone_chains.specs.Stretches.{chord};
ghost use Rattle.monotone_chains.specs.Stretches.Cut.{way};

use super::parts::Part;
use plane::edge::{Edge, edge_between};
use std::alloc::{AllocError, Allocator};

/// The chords of stretches.
///
/// Memory that is refused is the only error.
pub fn chords_of<A: Allocator>(alloc: A, parts: &[Part]) -> Result<Vec<Edge, A>, AllocError>
    ensures { IfOk result (λ chords. chords.items ≡ map chord (map way parts.entry.now)) }
{
    let mut chords = Vec::with_capacity(alloc, parts.len())?;
    for part in parts {
        chords.push(chord_of_part(*part))?;
    }
    Ok(chords)
}

/// The edge from the part's first point to its last.
pub fn chord_of_part(part: Part) -> Edge
    ensures { result ≡ chord (way part.entry) }
{
    edge_between(part.from, part.to)
}
