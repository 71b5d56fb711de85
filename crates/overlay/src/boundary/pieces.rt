//! From the stops of edges to the pieces of a fill, with no list of chains or of broken edges between.

ghost use Rattle.std.specs.Prelude.{◌≡◌, ◌∷◌, ◌++◌, ◌+◌, ◌*◌, ◌≤◌, ◌<◌, ◌^◌, [], List, IfErr, IfOk, OnOk, drop, length, map, take, true};
ghost use Rattle.std.specs.List.{flat_map};
ghost use Rattle.i_tree.specs.declared.Refusal.TheVariants.{OutOfMemory};
ghost use Rattle.plane.specs.declared.edge.Edge.{Edge};
ghost use Rattle.plane.specs.declared.point.Point.{Point};
ghost use Rattle.overlay.specs.declared.fill.pieces.Operand.TheVariants.{Subject, Clip};
ghost use Rattle.overlay.specs.Boundary.{AreBroken, GoesOnToEnd, chain_pieces};
ghost use Rattle.overlay.specs.Fill.Turned.{AreSloped, StandFor, turned};
ghost use Rattle.overlay.specs.Joined.{weighed, weighed_pieces};
ghost use Rattle.noding.specs.Local.{AreNodeChains};
ghost use Rattle.plane.specs.Ends.{edge_between, end_of, start_of};
ghost use Rattle.noding.specs.Offsets.{between};
ghost use Rattle.noding.specs.Stops.{AreAt, AreNodeStops, GoesToEnd, point_of};
ghost use Rattle.noding.specs.Windings.{pieces};

use super::joined::joined_edges;
use crate::fill::pieces::{Operand, Piece, countable, is_sloped, piece_of, room_for};
use i_tree::Refusal;
use noding::nodes_in_order;
use noding::stops::{Stop, point_of};
use plane::edge::{Edge, edge_between, end_of, start_of};
use plane::point::Point;
use std::alloc::{AllocError, Allocator};

/// Pieces that stand for edges, and whether it is known that none of these edges is vertical.
#[derive(Drop)]
pub struct Standing<A: Allocator> {
    pub pieces: Vec<Piece, A>,
    pub are_sloped: bool,
}

/// What stands for the pieces of the subject's edges and of the clip's, which are broken together where they meet, and moved only
/// where they must be, as `broken` does it: those that aren't vertical, turned rightwards. The first `count` of the edges are the
/// subject's.
///
/// Where many edges are equal, or overlap along a line along an axis, they are joined before they are broken (`joined_edges`), so
/// that there are no more pieces than the edges that are left have. No list of chains or of broken edges is made. It is refused for
/// want of memory alone.
pub fn standing_pieces<A: Allocator + Copy>(
    alloc: A,
    edges: &[Edge],
    count: usize,
) -> Result<Standing<A>, Refusal>
    requires { count ≤ length edges.now }
    ensures ok { IfOk result (λ out. (broken broken_clip : List Edge)
        × AreBroken (take count edges.now) (drop count edges.now) broken broken_clip
        × StandFor broken broken_clip out.pieces.items
        × (out.are_sloped ≡ true → AreSloped broken × AreSloped broken_clip)) }
    ensures refused { IfErr result (λ cause. cause ≡ OutOfMemory) }
{
    match joined_edges(alloc, edges, count)? {
        Some(stretches) => Ok(Standing {
            pieces: pieces_of_stretches(alloc, &stretches, edges.len())?,
            are_sloped: false,
        }),
        None => broken_pieces(alloc, edges, count),
    }
}

// The pieces of stretches that are broken together, with the weights of these. It is refused, too, if they are so many that weights
// of at most so much may have a sum of more than 63 bits.
fn pieces_of_stretches<A: Allocator + Copy>(
    alloc: A,
    stretches: &[Piece],
    most: usize,
) -> Result<Vec<Piece, A>, Refusal>
    ensures ok { IfOk result (λ out. (chains : List (List Point))
        × AreNodeChains (map (λ stretch. stretch.edge) stretches.now) chains
        × (out.items ≡ weighed_pieces stretches.now chains)
        × (most * length out.items < 2 ^ 63)) }
    ensures refused { IfErr result (λ cause. cause ≡ OutOfMemory) }
{
    let edges = edges_of(alloc, stretches)?;
    let stops = nodes_in_order(alloc, &edges)?;
    let mut out = Vec::with_capacity(alloc, room_for(&edges, &stops)?)?;
    append_weighed(stretches, &stops, &mut out)?;
    countable(most, out.len())?;
    Ok(out)
}

// The edges of the stretches.
fn edges_of<A: Allocator>(alloc: A, stretches: &[Piece]) -> Result<Vec<Edge, A>, AllocError>
    ensures { IfOk result (λ edges. edges.items ≡ map (λ stretch. stretch.edge) stretches.now) }
{
    stretches.iter().map(|stretch| stretch.edge).collect(alloc)
}

// Appends the pieces of the chain of each stretch in turn, with its weights.
fn append_weighed<A: Allocator>(
    stretches: &[Piece],
    stops: &[Stop],
    out: &mut Vec<Piece, A>,
) -> Result<(), AllocError>
    requires { AreNodeStops (map (λ stretch. stretch.edge) stretches.now) stops.now }
    ensures { OnOk result ((chains : List (List Point))
        × AreNodeChains (map (λ stretch. stretch.edge) stretches.now) chains
        × (out.new.items ≡ out.old.items ++ weighed_pieces stretches.now chains)) }
{
    let mut next = 0;
    // The stretches so far have their pieces, and the stops before `next` are theirs.
    for (place, stretch) in stretches.iter().enumerate() {
        let first = out.len();
        next = append_pieces_of(stretch.edge, place, Operand::Subject, stops, next, out)?;
        weigh(&mut out[first..], *stretch);
    }
    Ok(())
}

// Gives the pieces the weights of the stretch that they are of.
fn weigh(pieces: &mut [Piece], stretch: Piece)
    ensures { pieces.new ≡ map (weighed stretch) pieces.old }
{
    for piece in pieces.iter_mut() {
        piece.subject = stretch.subject;
        piece.clip = stretch.clip;
    }
}

/// The pieces of the subject's edges and then of the clip's, which are broken together where they meet, and moved only where they
/// must be, as `broken` does it: those that aren't vertical, turned rightwards. The first `count` of the edges are the subject's.
///
/// No list of chains or of broken edges is made. It is refused for want of memory alone.
pub fn broken_pieces<A: Allocator + Copy>(
    alloc: A,
    edges: &[Edge],
    count: usize,
) -> Result<Standing<A>, Refusal>
    requires { count ≤ length edges.now }
    ensures ok { IfOk result (λ out. (broken broken_clip : List Edge)
        × AreBroken (take count edges.now) (drop count edges.now) broken broken_clip
        × (out.pieces.items ≡ turned Subject broken ++ turned Clip broken_clip)
        × (length broken + length broken_clip < 2 ^ 63)
        × (out.are_sloped ≡ true → AreSloped broken × AreSloped broken_clip)) }
    ensures refused { IfErr result (λ cause. cause ≡ OutOfMemory) }
{
    let stops = nodes_in_order(alloc, edges)?;
    let most = room_for(edges, &stops)?;
    let mut pieces = Vec::with_capacity(alloc, most)?;
    append_pieces(edges, &stops, count, &mut pieces)?;
    // There are no more pieces than this, vertical ones among them, and those alone were left out.
    let are_sloped = pieces.len() == most;
    Ok(Standing { pieces, are_sloped })
}

// Appends the pieces of the chain of each edge in turn. There is at most one for each stop, and one more for each edge.
fn append_pieces<A: Allocator>(
    edges: &[Edge],
    stops: &[Stop],
    count: usize,
    out: &mut Vec<Piece, A>,
) -> Result<(), AllocError>
    requires { AreNodeStops edges.now stops.now }
    ensures { OnOk result ((chains : List (List Point)) × AreNodeChains edges.now chains
        × (out.new.items ≡ out.old.items ++ chain_pieces count chains)
        × (length (flat_map pieces chains) ≤ length edges.now + length stops.now)) }
{
    let mut next = 0;
    // The edges so far have their pieces, and the stops before `next` are theirs.
    for (place, edge) in edges.iter().enumerate() {
        next = append_pieces_of(*edge, place, operand_at(place, count), stops, next, out)?;
    }
    Ok(())
}

// Of which of the two the edge at this place is.
fn operand_at(place: usize, count: usize) -> Operand
    ensures subject { place < count → result ≡ Subject }
    ensures clip { count ≤ place → result ≡ Clip }
{
    if place < count {
        Operand::Subject
    } else {
        Operand::Clip
    }
}

// Appends the pieces of the chain of the edge at this place: from its start over the points of its stops, from the first one of
// them on, to its end. It answers where the stops end.
#[inline]
fn append_pieces_of<A: Allocator>(
    edge: Edge,
    place: usize,
    operand: Operand,
    stops: &[Stop],
    first: usize,
    out: &mut Vec<Piece, A>,
) -> Result<usize, AllocError>
    requires { first ≤ length stops.now }
    ensures { IfOk result (λ end. AreAt place first end stops.now × ((chain : List Point)
        × GoesToEnd edge (start_of edge ∷ map (point_of edge) (between first end stops.now)) chain
        × (out.new.items ≡ out.old.items ++ turned operand (pieces chain)))) }
{
    if first < stops.len() && stops[first].place == place {
        return append_broken(edge, place, operand, stops, first, out);
    }
    push_last_piece(edge, start_of(edge), operand, out)?;
    Ok(first)
}

// As `append_pieces_of`, which calls it where there is a stop. Most edges have none, and are soon done.
#[inline(never)]
fn append_broken<A: Allocator>(
    edge: Edge,
    place: usize,
    operand: Operand,
    stops: &[Stop],
    first: usize,
    out: &mut Vec<Piece, A>,
) -> Result<usize, AllocError>
    requires { first ≤ length stops.now }
    ensures { IfOk result (λ end. AreAt place first end stops.now × ((chain : List Point)
        × GoesToEnd edge (start_of edge ∷ map (point_of edge) (between first end stops.now)) chain
        × (out.new.items ≡ out.old.items ++ turned operand (pieces chain)))) }
{
    let mut from = start_of(edge);
    let mut next = first;
    // The chain has come to `from` by the stops before `next`, and its pieces upto there are appended.
    while next < stops.len() && stops[next].place == place {
        let to = point_of(edge, stops[next]);
        push_piece(from, to, operand, out)?;
        from = to;
        next += 1;
    }
    push_last_piece(edge, from, operand, out)?;
    Ok(next)
}

// Appends the piece from this point to the edge's end, if the edge isn't a point.
fn push_last_piece<A: Allocator>(
    edge: Edge,
    from: Point,
    operand: Operand,
    out: &mut Vec<Piece, A>,
) -> Result<(), AllocError>
    ensures { OnOk result (GoesOnToEnd operand edge from out.old.items out.new.items) }
{
    if edge.x0 == edge.x1 && edge.y0 == edge.y1 {
        return Ok(());
    }
    push_piece(from, end_of(edge), operand, out)
}

// Appends the piece from the one point to the other, if it isn't vertical.
fn push_piece<A: Allocator>(
    from: Point,
    to: Point,
    operand: Operand,
    out: &mut Vec<Piece, A>,
) -> Result<(), AllocError>
    ensures { OnOk result (out.new.items ≡ out.old.items ++ turned operand (edge_between from to ∷ [])) }
{
    let edge = edge_between(from, to);
    if is_sloped(edge) {
        out.push(piece_of(edge, operand))?;
    }
    Ok(())
}
