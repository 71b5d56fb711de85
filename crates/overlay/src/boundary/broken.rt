//! The edges of subject and clip, broken together.

ghost use Rattle.std.specs.Prelude.{◌≡◌, ◌≤◌, ◌++◌, List, IfErr, IfOk, drop, length, take};
ghost use Rattle.std.specs.List.{flat_map};
ghost use Rattle.i_tree.specs.declared.Refusal.TheVariants.{OutOfMemory};
ghost use Rattle.plane.specs.declared.point.Point.{Point};
ghost use Rattle.overlay.specs.Boundary.{AllSome, AreBroken, StopSome};
ghost use Rattle.noding.specs.Offsets.{offsets};
ghost use Rattle.noding.specs.Windings.{pieces};

use i_tree::Refusal;
use noding::node;
use noding::pieces::pieces_of;
use plane::edge::Edge;
use std::alloc::{AllocError, Allocator};

/// The pieces of the subject's edges and then of the clip's, and how many of them are the subject's.
///
/// The edges of both are broken together where they meet, and moved only where they must be, as `node` does it. They needn't be
/// closed. It is refused for want of memory alone.
pub fn broken<A: Allocator + Copy>(
    alloc: A,
    subject: &[Edge],
    clip: &[Edge],
) -> Result<(Vec<Edge, A>, usize), Refusal>
    ensures ok { IfOk result (λ told. (told.1 ≤ length told.0.items)
        × AreBroken subject.now clip.now (take told.1 told.0.items) (drop told.1 told.0.items)) }
    ensures refused { IfErr result (λ cause. cause ≡ OutOfMemory) }
{
    let edges = all_edges(alloc, subject, clip)?;
    // A chain has two points at least, but that of a point.
    let mut points = Vec::with_capacity(alloc, edges.len().saturating_add(edges.len()))?;
    let mut ends = Vec::with_capacity(alloc, edges.len())?;
    node(&edges, &mut points, &mut ends)?;
    let pieces = pieces_of(alloc, &points, &ends)?;
    let count = count_pieces(&ends, subject.len());
    Ok((pieces, count))
}

// The subject's edges and then the clip's.
fn all_edges<A: Allocator>(
    alloc: A,
    subject: &[Edge],
    clip: &[Edge],
) -> Result<Vec<Edge, A>, AllocError>
    ensures { IfOk result (λ edges. edges.items ≡ subject.now ++ clip.now) }
{
    let mut edges = Vec::with_capacity(alloc, subject.len().saturating_add(clip.len()))?;
    edges.extend_from_slice(subject)?;
    edges.extend_from_slice(clip)?;
    Ok(edges)
}

/// How many pieces the first so many chains have: each has one less than it has points.
pub fn count_pieces(ends: &[usize], chains: usize) -> usize
    requires { StopSome ends.now chains }
    ensures { (lists : List (List Point)) → ends.now ≡ offsets 0 lists → AllSome lists
        → chains ≤ length lists → result ≡ length (flat_map pieces (take chains lists)) }
{
    if chains == 0 {
        return 0;
    }
    ends[chains - 1] - chains
}
