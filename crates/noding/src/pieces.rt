//! The pieces of chains.

ghost use Rattle.std.specs.Prelude.{◌≡◌, ◌++◌, List, IfOk, OnOk, length};
ghost use Rattle.std.specs.List.{flat_map};
ghost use Rattle.plane.specs.declared.point.Point.{Point};
ghost use Rattle.noding.specs.Offsets.{AreJoined};
ghost use Rattle.noding.specs.Windings.{pieces};

use crate::chains::chain_at;
use plane::edge::{Edge, edge_between};
use plane::point::Point;
use std::alloc::{AllocError, Allocator};

/// The pieces of chains, chain by chain: the edges from each point of a chain to the next. The points are those of all chains,
/// one chain after the other, and `ends` has where each stops, as `snap` appends them to nothing.
///
/// Memory that is refused is the only error.
pub fn pieces_of<A: Allocator>(
    alloc: A,
    points: &[Point],
    ends: &[usize],
) -> Result<Vec<Edge, A>, AllocError>
    requires { (chains : List (List Point)) × AreJoined chains points.now ends.now }
    ensures { IfOk result (λ edges. (chains : List (List Point)) → AreJoined chains points.now ends.now →
        edges.items ≡ flat_map pieces chains) }
{
    // A chain has one piece less than points.
    let mut edges = Vec::with_capacity(alloc, points.len().saturating_sub(ends.len()))?;
    let mut start = 0;
    // The pieces of the chains so far stand there, and this chain begins at `start`.
    for end in ends {
        push_pieces(chain_at(points, start, *end), &mut edges)?;
        start = *end;
    }
    Ok(edges)
}

// Appends the edges from each point of the chain to the next.
fn push_pieces<A: Allocator>(chain: &[Point], edges: &mut Vec<Edge, A>) -> Result<(), AllocError>
    ensures { OnOk result (edges.new.items ≡ edges.old.items ++ pieces chain.now) }
{
    // The pieces up to this pair of points stand there.
    for pair in chain.windows(2) {
        edges.push(edge_between(pair[0], pair[1]))?;
    }
    Ok(())
}
