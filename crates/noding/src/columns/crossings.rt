//! Crossings of edges by a sweep over columns, which is asked about points, too: on which edges do they lie?

ghost use Rattle.std.specs.Prelude.{◌≡◌, ◌<◌, ◌++◌, All, IfErr, IfOk, MatchBool, OnOk, length, map};
ghost use Rattle.std.specs.Int.{int_max, int_min};
ghost use Rattle.i_tree.specs.declared.Refusal.TheVariants.{OutOfMemory};
ghost use Rattle.noding.specs.Columns.Ends.{AreDealt, Deals, HaveAllOn, asked_at};
ghost use Rattle.noding.specs.Columns.Uprights.{AppendsIfUpright, AreAsked, IsPairAbout, IsUpright, asked_about};
ghost use Rattle.noding.specs.Crossings.{AreAllCrossed, HaveAllCrossed};
ghost use Rattle.plane.specs.Gains.{GainsThese, IsOfSome};

use crate::crossings::{Crossing, crossings_of_pairs};
use i_tree::Refusal;
use plane::columns::{Asked, Found, find_by_columns};
use plane::edge::Edge;
use plane::point::Point;
use std::alloc::{AllocError, Allocator};

// The places of upright edges, and what is asked about each.
#[derive(Drop)]
struct Uprights<A: Allocator> {
    places: Vec<usize, A>,
    asked: Vec<Asked, A>,
}

/// Crossings of edges, and pairs of places of an edge and of a point that lies on it, or may do so.
#[derive(Drop)]
pub struct CrossingsAndPoints<A: Allocator> {
    pub crossings: Vec<Crossing, A>,
    pub on: Vec<(usize, usize), A>,
}

// Pairs of places of edges that cross, and those of an edge and of a point.
#[derive(Drop)]
struct PairsAndPoints<A: Allocator> {
    crossed: Vec<(usize, usize), A>,
    on: Vec<(usize, usize), A>,
}

// What is told of the upright edges, by their places among these, and of the points.
#[derive(Drop)]
struct Dealt<A: Allocator> {
    about: Vec<(usize, usize), A>,
    on: Vec<(usize, usize), A>,
}

/// Crossings of the edges, among them all at points that are an end of neither edge. It is refused for want of memory alone.
pub fn crossings_by_columns<A: Allocator + Copy>(
    alloc: A,
    edges: &[Edge],
) -> Result<Vec<Crossing, A>, Refusal>
    ensures ok { IfOk result (λ crossings. AreAllCrossed edges.now crossings.items) }
    ensures refused { IfErr result (λ cause. cause ≡ OutOfMemory) }
{
    let none = Vec::new(alloc);
    let CrossingsAndPoints { crossings, .. } = crossings_and_points(alloc, edges, &none)?;
    Ok(crossings)
}

/// The same, and pairs of places of an edge and of one of these points, among them all where the edge isn't upright and the point
/// lies on it between its ends.
///
/// The sweep tells which edges cross of those that aren't upright, and which of them reach an upright one at its column, or a
/// point. Two upright edges are parallel. It is refused for want of memory alone.
pub fn crossings_and_points<A: Allocator + Copy>(
    alloc: A,
    edges: &[Edge],
    points: &[Point],
) -> Result<CrossingsAndPoints<A>, Refusal>
    ensures ok { IfOk result (λ told. AreAllCrossed edges.now told.crossings.items) }
    ensures on { IfOk result (λ told. HaveAllOn edges.now points.now told.on.items) }
    ensures within { IfOk result (λ told. All (λ pair. (pair.0 < length edges.now) × (pair.1 < length points.now)) told.on.items) }
    ensures refused { IfErr result (λ cause. cause ≡ OutOfMemory) }
{
    let PairsAndPoints { crossed, on } = pairs_by_columns(alloc, edges, points)?;
    let crossings = crossings_of_pairs(alloc, edges, &crossed)?;
    Ok(CrossingsAndPoints { crossings, on })
}

// Pairs of places of edges, among them all that cross at a point that is an end of neither; and of an edge and a point.
fn pairs_by_columns<A: Allocator + Copy>(
    alloc: A,
    edges: &[Edge],
    points: &[Point],
) -> Result<PairsAndPoints<A>, Refusal>
    ensures ok { IfOk result (λ pairs. HaveAllCrossed edges.now pairs.crossed.items) }
    ensures within { IfOk result (λ pairs. All (λ pair. (pair.0 < length edges.now) × (pair.1 < length edges.now)) pairs.crossed.items) }
    ensures on { IfOk result (λ pairs. HaveAllOn edges.now points.now pairs.on.items) }
    ensures on_within { IfOk result (λ pairs. All (λ pair. (pair.0 < length edges.now) × (pair.1 < length points.now)) pairs.on.items) }
    ensures refused { IfErr result (λ cause. cause ≡ OutOfMemory) }
{
    let Uprights { places, mut asked } = uprights_of(alloc, edges)?;
    ask_at(points, &mut asked)?;
    let Found { mut crossed, met } = find_by_columns(alloc, edges, &asked)?;
    let Dealt { about, on } = deal_out(alloc, &met, places.len())?;
    append_met(&about, &places, &mut crossed)?;
    Ok(PairsAndPoints { crossed, on })
}

// Asks about each of the points, too.
fn ask_at<A: Allocator>(points: &[Point], asked: &mut Vec<Asked, A>) -> Result<(), AllocError>
    ensures { OnOk result (asked.new.items ≡ asked.old.items ++ map asked_at points.now) }
{
    for point in points {
        asked.push(asked_at(*point))?;
    }
    Ok(())
}

// What is asked of a point: which edges have its height there.
fn asked_at(point: Point) -> Asked
    ensures { result ≡ asked_at point }
{
    Asked {
        x: point.x,
        low: point.y,
        high: point.y,
    }
}

// The pairs of an edge and of what is asked: those of the first so many that are asked, and of the points behind these.
fn deal_out<A: Allocator + Copy>(
    alloc: A,
    met: &[(usize, usize)],
    count: usize,
) -> Result<Dealt<A>, AllocError>
    ensures { IfOk result (λ dealt. AreDealt count met.now dealt.about.items dealt.on.items) }
{
    let mut dealt = Dealt {
        about: Vec::new(alloc),
        on: Vec::new(alloc),
    };
    for pair in met {
        deal(*pair, count, &mut dealt)?;
    }
    Ok(dealt)
}

// Deals out one pair.
fn deal<A: Allocator>(
    pair: (usize, usize),
    count: usize,
    dealt: &mut Dealt<A>,
) -> Result<(), AllocError>
    ensures { OnOk result (Deals count pair dealt.old.about.items dealt.old.on.items dealt.new.about.items dealt.new.on.items) }
{
    if pair.1 < count {
        dealt.about.push(pair)?;
    } else {
        dealt.on.push((pair.0, pair.1 - count))?;
    }
    Ok(())
}

// The upright edges, and what is asked about them.
fn uprights_of<A: Allocator + Copy>(alloc: A, edges: &[Edge]) -> Result<Uprights<A>, AllocError>
    ensures { IfOk result (λ uprights. AreAsked edges.now uprights.places.items uprights.asked.items) }
{
    let mut uprights = Uprights {
        places: Vec::new(alloc),
        asked: Vec::new(alloc),
    };
    for (place, edge) in edges.iter().enumerate() {
        push_if_upright(place, *edge, &mut uprights)?;
    }
    Ok(uprights)
}

// Appends the edge, which is at this place, if it is upright.
fn push_if_upright<A: Allocator>(
    place: usize,
    edge: Edge,
    uprights: &mut Uprights<A>,
) -> Result<(), AllocError>
    ensures { OnOk result (AppendsIfUpright place edge uprights.old.places.items uprights.old.asked.items
        uprights.new.places.items uprights.new.asked.items) }
{
    if is_upright(edge) {
        uprights.places.push(place)?;
        uprights.asked.push(asked_about(edge))?;
    }
    Ok(())
}

// Whether the edge runs up or down, and is no point.
fn is_upright(edge: Edge) -> bool
    ensures { MatchBool result (IsUpright edge) (¬ (IsUpright edge)) }
{
    edge.x0 == edge.x1 && edge.y0 != edge.y1
}

// What is asked of an upright edge: which edges have a height between its ends there.
fn asked_about(edge: Edge) -> Asked
    ensures { result ≡ asked_about edge }
{
    Asked {
        x: edge.x0,
        low: edge.y0.min(edge.y1),
        high: edge.y0.max(edge.y1),
    }
}

// Appends the pairs of an edge and of an upright one, which is at one of these places, for those of an edge and of what is asked.
fn append_met<A: Allocator>(
    met: &[(usize, usize)],
    places: &[usize],
    pairs: &mut Vec<(usize, usize), A>,
) -> Result<(), AllocError>
    requires { All (λ pair. pair.1 < length places.now) met.now }
    ensures { OnOk result (GainsThese (IsOfSome (IsPairAbout places.now) met.now) pairs.old.items pairs.new.items) }
{
    for pair in met {
        pairs.push((pair.0, places[pair.1]))?;
    }
    Ok(())
}
