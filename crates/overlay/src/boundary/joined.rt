//! Edges of subject and clip joined, before anything else looks at them.

ghost use Rattle.std.specs.Prelude.{◌≤◌, IfOk, IfSome, drop, length, take};
ghost use Rattle.overlay.specs.Joined.{AreJoinedEdges};

use super::lines::{changes_of, sort_changes, stretches_of};
use super::overlaps::count_overlaps;
use crate::fill::pieces::Piece;
use plane::edge::Edge;
use std::alloc::{AllocError, Allocator};

// Fewer edges than these are taken as they stand: joining some of them would save nothing.
const FEW: usize = 64;

// Where so many edges of a sample overlap it is taken that edges often do.
const ENOUGH_OVERLAPS: usize = 3;

/// The edges of subject and clip joined, or nothing where hardly any are equal or overlap along an axis, as a sample tells. The
/// first `count` of the edges are the subject's.
///
/// Equal edges and those the other way round become one, with what they weigh together. Edges along an axis that overlap are cut
/// where any of them begins or ends, so that edges nested along one line don't make as many pieces as there are pairs of them. The
/// sample decides speed alone.
pub fn joined_edges<A: Allocator + Copy>(
    alloc: A,
    edges: &[Edge],
    count: usize,
) -> Result<Option<Vec<Piece, A>>, AllocError>
    requires { count ≤ length edges.now }
    ensures { IfOk result (λ found. IfSome found (λ stretches. AreJoinedEdges (take count edges.now) (drop count edges.now) stretches.items)) }
{
    if edges.len() < FEW {
        return Ok(None);
    }
    if count_overlaps(alloc, edges)? < ENOUGH_OVERLAPS {
        return Ok(None);
    }
    let stretches = all_joined(alloc, edges, count)?;
    Ok(Some(stretches))
}

// The edges of subject and clip joined.
fn all_joined<A: Allocator + Copy>(
    alloc: A,
    edges: &[Edge],
    count: usize,
) -> Result<Vec<Piece, A>, AllocError>
    requires { count ≤ length edges.now }
    ensures { IfOk result (λ stretches. AreJoinedEdges (take count edges.now) (drop count edges.now) stretches.items) }
{
    let mut changes = changes_of(alloc, edges, count)?;
    sort_changes(&mut changes);
    stretches_of(alloc, &changes)
}
