//! Roads that are clipped to polygons: the pieces of them that lie inside.

ghost use Rattle.std.specs.Prelude.{◌≡◌, ◌+ℤ◌, IfOk, map};
ghost use Rattle.overlay.specs.Rings.{edges_of};
ghost use Rattle.uses.specs.Roads.{AreClipped, double, goes_rightwards, kept, twice_middle};

use i_tree::Refusal;
use i_tree::status::tree::StatusTree;
use overlay::boundary::broken::broken;
use overlay::fill::fill;
use overlay::rings::{are_ends, edges_of};
use overlay::{FillRule, Operation, Rings};
use plane::edge::Edge;
use plane::locate::{LocateFault, Point, locate};
use std::alloc::{AllocError, Global};
use thiserror::Error;

/// Why there are no pieces.
#[derive(Debug, Drop, Error)]
pub enum ClipFault {
    /// A ring stops before it begins, or behind the points.
    #[error("a ring stops before it begins, or behind the points")]
    Lengths,
    /// A piece ends 2^30 or more from 0 on an axis.
    #[error("a piece ends 2^30 or more from 0")]
    Far,
    /// The edges were refused room, or the status was.
    #[error("the edges: {0}")]
    Refused(#[from] Refusal),
    /// A list was refused room.
    #[error("a list: {0}")]
    Memory(#[from(alloc)] AllocError),
}

/// The pieces of the roads that lie inside of the rings, road by road. Inside are the points around which the rings wind.
///
/// Roads and rings are broken together where they meet, and their pieces have whole ends again, within half a unit of them. A
/// piece along a side is inside where the inside lies above it, or to the right of it where it is upright.
///
/// `Lengths` comes as `overlay` has it, and `Far` where the ends of a piece that counts have no room at twice their places.
/// Else it is refused where memory or the status has no room.
pub fn clipped_roads(alloc: Global, roads: &[Edge], rings: Rings) -> Result<Vec<Edge>, ClipFault>
    ensures ok { IfOk result (λ inside. AreClipped roads.now (edges_of rings.entry) inside.items) }
{
    if !are_ends(rings) {
        return Err(ClipFault::Lengths);
    }
    let ring_edges = edges_of(alloc, rings)?;
    let (pieces, count) = broken(alloc, roads, &ring_edges)?;
    // what of the rings falls together when they are broken bounds nothing
    let mut status = StatusTree::new(alloc, 0)?;
    let mut bounds = Vec::new(alloc);
    fill(
        &pieces[count..],
        &[],
        FillRule::NonZero,
        Operation::Union,
        &mut status,
        &mut bounds,
    )?;
    let of_roads = &pieces[..count];
    let doubled = doubled_edges(alloc, &bounds)?;
    let middles = twice_middles(alloc, of_roads)?;
    let mut places = Vec::new(alloc);
    match locate(&mut status, &doubled, &middles, &mut places) {
        Ok(()) => Ok(kept_pieces(alloc, &bounds, of_roads, &places)?),
        Err(LocateFault::Refused(cause)) => Err(ClipFault::Refused(cause)),
        // edges that meet only at common ends don't cross
        Err(LocateFault::Cross(_, _)) => unreachable!(),
    }
}

// The edges at twice their places.
fn doubled_edges(alloc: Global, edges: &[Edge]) -> Result<Vec<Edge>, ClipFault>
    ensures { IfOk result (λ doubled. doubled.items ≡ map double edges.now) }
{
    let mut doubled = Vec::new(alloc);
    for edge in edges {
        doubled.push(double(*edge)?)?;
    }
    Ok(doubled)
}

// The middles of the edges, at twice their places: so they are whole.
fn twice_middles(alloc: Global, edges: &[Edge]) -> Result<Vec<Point>, ClipFault>
    ensures { IfOk result (λ middles. middles.items ≡ map twice_middle edges.now) }
{
    let mut middles = Vec::new(alloc);
    for edge in edges {
        middles.push(twice_middle(*edge)?)?;
    }
    Ok(middles)
}

// The edge at twice its place.
fn double(edge: Edge) -> Result<Edge, ClipFault>
    ensures { IfOk result (λ doubled. doubled ≡ double edge) }
{
    let (x0, y0) = (sum(edge.x0, edge.x0)?, sum(edge.y0, edge.y0)?);
    let (x1, y1) = (sum(edge.x1, edge.x1)?, sum(edge.y1, edge.y1)?);
    Ok(Edge { x0, y0, x1, y1 })
}

// The middle of the edge, at twice its place.
fn twice_middle(edge: Edge) -> Result<Point, ClipFault>
    ensures { IfOk result (λ middle. middle ≡ twice_middle edge) }
{
    let (x, y) = (sum(edge.x0, edge.x1)?, sum(edge.y0, edge.y1)?);
    Ok(Point { x, y })
}

// The sum, where there is room for it.
fn sum(one: i32, other: i32) -> Result<i32, ClipFault>
    ensures { IfOk result (λ sum. sum ≡ one +ℤ other) }
{
    one.checked_add(other).ok_or(ClipFault::Far)
}

// The pieces below which an edge goes rightwards.
fn kept_pieces(
    alloc: Global,
    bounds: &[Edge],
    pieces: &[Edge],
    places: &[Option<usize>],
) -> Result<Vec<Edge>, AllocError>
    ensures { IfOk result (λ inside. inside.items ≡ kept bounds.now pieces.now places.now) }
{
    let mut inside = Vec::new(alloc);
    for (piece, place) in pieces.iter().zip(places) {
        if goes_rightwards(bounds, *place) {
            inside.push(*piece)?;
        }
    }
    Ok(inside)
}

// Whether the edge at the place is there and goes rightwards.
fn goes_rightwards(edges: &[Edge], place: Option<usize>) -> bool
    ensures { result ≡ goes_rightwards edges.now place }
{
    match place.and_then(|place| edges.get(place)) {
        Some(edge) => edge.x0 < edge.x1,
        None => false,
    }
}
