//! Closed edges as rings, where each begins where the one before it ends: so the chords of their chains can stand for them.

ghost use Rattle.std.specs.Bool.{OnTrue};
ghost use Rattle.std.specs.Prelude.{◌≡◌, ◌<◌, ◌≤◌, ◌++◌, [], IfOk, IfSome, OnOk, length, map};
ghost use Rattle.std.specs.List.{between};
ghost use Rattle.plane.specs.Ends.{start_of};
ghost use Rattle.noding.specs.Windings.{IsClosed};
ghost use Rattle.overlay.specs.Boundary.{AppendsBoundary};
ghost use Rattle.offset.specs.Chained.{AreOfRings, GoesOn, IsRound};

use crate::raw::differ;
use i_tree::Refusal;
use i_tree::status::exp::StatusCollection;
use monotone_chains::call::ByChains;
use overlay::boundary::boundary;
use overlay::call::Bounding;
use overlay::fill::Choice;
use overlay::rings::{Operands, Rings};
use plane::edge::{Edge, end_of, start_of};
use plane::point::Point;
use plane::sweep_line::ActiveEdge;
use std::alloc::{AllocError, Allocator};

/// Appends rings that bound what the operation makes of closed edges, and where each stops: as `boundary` of the crate `overlay`
/// does, but by the chords of monotone chains where the edges are those of rings and that pays. It is refused as that is, and then
/// something may have been appended.
pub fn append_boundary_of<C, A>(
    edges: &[Edge],
    choice: Choice,
    status: &mut C,
    points: &mut Vec<Point, A>,
    ends: &mut Vec<usize, A>,
) -> Result<(), Refusal>
where
    C: StatusCollection<ActiveEdge, i64, ()>,
    A: Allocator + Copy,
    requires { IsClosed edges.now }
    ensures ok { OnOk result (AppendsBoundary choice.rule choice.operation edges.now []
        points.old.items points.new.items ends.old.items ends.new.items) }
    ensures empty { OnOk result (C.stored status.new ≡ []) }
{
    let alloc = *points.allocator();
    let Some((corners, stops)) = rings_along(alloc, edges)? else {
        return boundary(edges, edges.len(), choice, status, points, ends);
    };
    let operands = Operands {
        subject: Rings {
            points: &corners,
            ends: &stops,
        },
        clip: Rings {
            points: &[],
            ends: &[],
        },
    };
    ByChains.append_boundary(operands, choice, status, points, ends)
}

// Rings whose edges are these, in their order: their points, and where each stops; or nothing where the edges don't follow each
// other so.
fn rings_along<A: Allocator + Copy>(
    alloc: A,
    edges: &[Edge],
) -> Result<Option<(Vec<Point, A>, Vec<usize, A>)>, AllocError>
    ensures { IfOk result (λ found. IfSome found (λ rings. AreOfRings edges.now rings.0.items rings.1.items)) }
{
    let mut points = Vec::with_capacity(alloc, edges.len())?;
    let mut ends = Vec::new(alloc);
    let mut next = 0;
    // The edges up to `next` are those of the rings so far.
    while next < edges.len() {
        let Some(end) = round_end(edges, next) else {
            return Ok(None);
        };
        push_starts(&edges[next..end], &mut points)?;
        ends.push(points.len())?;
        next = end;
    }
    Ok(Some((points, ends)))
}

// Where the edges from this place on come back to where they begin, if each begins where the one before it ends.
fn round_end(edges: &[Edge], from: usize) -> Option<usize>
    requires { from < length edges.now }
    ensures some { IfSome result (λ end. from < end) }
    ensures within { IfSome result (λ end. end ≤ length edges.now) }
    ensures round { IfSome result (λ end. IsRound (between from end edges.now)) }
{
    let first = start_of(edges[from]);
    let mut at = first;
    for index in from..edges.len() {
        let edge = edges[index];
        if !goes_on(at, edge) {
            return None;
        }
        at = end_of(edge);
        if at == first {
            return Some(index + 1);
        }
    }
    None
}

// Whether the edge begins at the point, and ends at another one.
fn goes_on(at: Point, edge: Edge) -> bool
    ensures { OnTrue result (GoesOn at edge) }
{
    start_of(edge) == at && differ(start_of(edge), end_of(edge))
}

// Pushes where the edges begin.
fn push_starts<A: Allocator>(edges: &[Edge], points: &mut Vec<Point, A>) -> Result<(), AllocError>
    ensures { OnOk result (points.new.items ≡ points.old.items ++ map start_of edges.now) }
{
    for edge in edges {
        points.push(start_of(*edge))?;
    }
    Ok(())
}
