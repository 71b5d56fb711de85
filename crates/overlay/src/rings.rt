//! Rings and polygons, as points and where each ring and each polygon stops.

ghost use Rattle.std.specs.Prelude.{◌≡◌, ◌++◌, ◌∷◌, [], ◌<◌, ◌≤◌, IfOk, MatchBool, OnOk, drop, get_or, length, take};
ghost use Rattle.overlay.specs.Contours.Rings.{ring_edges};
ghost use Rattle.plane.specs.Ends.{edge_between};
ghost use Rattle.overlay.specs.Rings.{AreEnds, HasEnds, edges_of, real_edges, rings_of};

use plane::edge::{Edge, edge_between};
use plane::point::Point;
use std::alloc::{AllocError, Allocator};

/// Rings: the points of all of them, one ring after another, and where each stops among these. So `ends` are the offsets of
/// Arrow and GeoArrow without the first, which is 0. Points behind the last end are of no ring.
///
/// A ring goes from each of its points to the next one, and from the last to the first. It may end with its first point again,
/// run either way, cross itself, and have one point or none.
#[derive(Clone, Copy, Debug)]
pub struct Rings<'a> {
    pub points: &'a [Point],
    pub ends: &'a [usize],
}

/// Two sets of rings that an overlay makes one of.
#[derive(Clone, Copy, Debug)]
pub struct Operands<'a> {
    pub subject: Rings<'a>,
    pub clip: Rings<'a>,
}

/// Polygons: the points of all rings, where each ring stops among the points, and where each polygon stops among the rings.
///
/// The first ring of a polygon is the outer one, which runs counterclockwise. Those behind it are its holes, and run clockwise.
#[derive(Drop)]
pub struct Polygons<A: Allocator> {
    pub points: Vec<Point, A>,
    pub ring_ends: Vec<usize, A>,
    pub polygon_ends: Vec<usize, A>,
}

impl<A: Allocator + Copy> Polygons<A> {
    ghost use Rattle.std.specs.Prelude.{◌≡◌, []};

    /// No polygons.
    pub fn new(alloc: A) -> Polygons<A>
        ensures points { result.points.items ≡ [] }
        ensures ring_ends { result.ring_ends.items ≡ [] }
        ensures polygon_ends { result.polygon_ends.items ≡ [] }
    {
        Polygons {
            points: Vec::new(alloc),
            ring_ends: Vec::new(alloc),
            polygon_ends: Vec::new(alloc),
        }
    }
}

/// Whether each ring stops where it begins or later, and none behind the points.
pub fn are_ends(rings: Rings) -> bool
    ensures { MatchBool result (HasEnds rings.entry) (¬ (HasEnds rings.entry)) }
{
    let mut start = 0;
    for end in rings.ends {
        if *end < start || rings.points.len() < *end {
            return false;
        }
        start = *end;
    }
    true
}

/// The points of the ring of this number.
#[tactic(auto, using(crate::proofs::EachRing::ends_rise, crate::proofs::EachRing::ends_within, crate::proofs::EachRing::ring_between))]
pub fn ring_at<'a>(points: &'a [Point], ends: &[usize], ring: usize) -> &'a [Point]
    requires ends { AreEnds 0 ends.now (length points.now) }
    requires inside { ring < length ends.now }
    ensures { result.now ≡ get_or (rings_of points.now 0 ends.now) ring [] }
{
    &points[start_of(ends, ring)..ends[ring]]
}

// Where the ring begins: where the one before it stops.
fn start_of(ends: &[usize], ring: usize) -> usize
    requires { ring < length ends.now }
    ensures { result ≡ get_or (0 ∷ ends.now) ring 0 }
{
    if ring == 0 { 0 } else { ends[ring - 1] }
}

/// The edges of all rings, ring by ring: from each point to the next, and from the last one to the first.
///
/// Memory that is refused is the only error.
#[tactic(auto, using(crate::proofs::EachRing::rings_all))]
pub fn edges_of<A: Allocator>(alloc: A, rings: Rings) -> Result<Vec<Edge, A>, AllocError>
    requires { HasEnds rings }
    ensures { IfOk result (λ edges. edges.items ≡ edges_of rings.entry) }
{
    let mut edges = Vec::with_capacity(alloc, rings.points.len())?;
    for ring in 0..rings.ends.len() {
        append_edges(ring_at(rings.points, rings.ends, ring), &mut edges)?;
    }
    Ok(edges)
}

/// The edges of the subject and then of the clip, and how many of them are the subject's. Those from a point to itself, which wind
/// around nothing, are left out.
///
/// Memory that is refused is the only error.
pub fn real_edges_of<A: Allocator>(
    alloc: A,
    subject: Rings,
    clip: Rings,
) -> Result<(Vec<Edge, A>, usize), AllocError>
    requires ends { HasEnds subject }
    requires clip_ends { HasEnds clip }
    ensures count { IfOk result (λ told. told.1 ≤ length told.0.items) }
    ensures subject { IfOk result (λ told. take told.1 told.0.items ≡ real_edges (edges_of subject.entry)) }
    ensures clip { IfOk result (λ told. drop told.1 told.0.items ≡ real_edges (edges_of clip.entry)) }
{
    let most = subject.points.len().saturating_add(clip.points.len());
    let mut edges = Vec::with_capacity(alloc, most)?;
    append_real_edges(subject, &mut edges)?;
    let count = edges.len();
    append_real_edges(clip, &mut edges)?;
    Ok((edges, count))
}

// Appends the edges of all rings but those from a point to itself.
#[tactic(auto, using(crate::proofs::EachRing::real_more, crate::proofs::EachRing::rings_all))]
fn append_real_edges<A: Allocator>(rings: Rings, edges: &mut Vec<Edge, A>) -> Result<(), AllocError>
    requires { HasEnds rings }
    ensures { OnOk result (edges.new.items ≡ edges.old.items ++ real_edges (edges_of rings.entry)) }
{
    for ring in 0..rings.ends.len() {
        append_real_ones(ring_at(rings.points, rings.ends, ring), edges)?;
    }
    Ok(())
}

/// Appends the edges of the ring but those from a point to itself.
///
/// Memory that is refused is the only error, and then some may have been appended.
pub fn append_real_ones<A: Allocator>(
    ring: &[Point],
    edges: &mut Vec<Edge, A>,
) -> Result<(), AllocError>
    ensures { OnOk result (edges.new.items ≡ edges.old.items ++ real_edges (ring_edges ring.now)) }
{
    if ring.is_empty() {
        return Ok(());
    }
    let last = ring[ring.len() - 1];
    for pair in ring.windows(2) {
        push_real(pair[0], pair[1], edges)?;
    }
    push_real(last, ring[0], edges)
}

/// Appends the edge from the one point to the other, where they are two.
///
/// Memory that is refused is the only error, and then none is appended.
pub fn push_real<A: Allocator>(
    from: Point,
    to: Point,
    edges: &mut Vec<Edge, A>,
) -> Result<(), AllocError>
    ensures { OnOk result (edges.new.items ≡ edges.old.items ++ real_edges (edge_between from to ∷ [])) }
{
    if from.x != to.x || from.y != to.y {
        edges.push(edge_between(from, to))?;
    }
    Ok(())
}

// Appends the edges of the ring.
fn append_edges<A: Allocator>(ring: &[Point], edges: &mut Vec<Edge, A>) -> Result<(), AllocError>
    ensures { OnOk result (edges.new.items ≡ edges.old.items ++ ring_edges ring.now) }
{
    if ring.is_empty() {
        return Ok(());
    }
    let last = ring[ring.len() - 1];
    for pair in ring.windows(2) {
        edges.push(edge_between(pair[0], pair[1]))?;
    }
    edges.push(edge_between(last, ring[0]))?;
    Ok(())
}
