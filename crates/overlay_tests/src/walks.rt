//! What a fill asks of its edges: closed ones by their walks, and a test whether edges are noded.

ghost use Rattle.std.specs.Prelude.{◌≡◌, ◌≤◌, ◌++◌, ◌∷◌, [], true, All, IfOk, OnOk, drop, length, take};
ghost use Rattle.plane.specs.declared.point.Point.{Point};
ghost use Rattle.overlay.specs.Fill.Filled.{AreNoded};
ghost use Rattle.plane.specs.Ends.{edge_between};
ghost use Rattle.noding.specs.Windings.{IsClosed};
ghost use Rattle.overlay_tests.specs.Walks.{IsEndAt, MeetAtEndsAlone};

use i_tree::Refusal;
use i_tree::status::exp::StatusCollection;
use overlay::boundary::boundary;
use overlay::fill::{Choice, fill};
use plane::edge::{Edge, reverse};
use plane::meet::{Meeting, how_they_meet};
use plane::point::Point;
use plane::sweep_line::ActiveEdge;
use std::alloc::{AllocError, Allocator, Global};

/// Walks of the subject and of the clip, each by the points that it goes over, and by what they are filled.
#[derive(Clone, Copy)]
pub struct Regions {
    pub subject: &'static [&'static [[i32; 2]]],
    pub clip: &'static [&'static [[i32; 2]]],
    pub choice: Choice,
}

/// What a fill of the walks' edges answers, or none where these aren't noded.
pub fn fill_walks<C, A>(
    alloc: Global,
    regions: Regions,
    status: &mut C,
    out: &mut Vec<Edge, A>,
) -> Result<Option<Result<(), Refusal>>, AllocError>
where
    C: StatusCollection<ActiveEdge, i64, ()>,
    A: Allocator + Copy,
{
    let subject = edges_of(alloc, regions.subject)?;
    let clip = edges_of(alloc, regions.clip)?;
    let both = joined(alloc, &subject, &clip)?;
    if !are_noded(&both) {
        return Ok(None);
    }
    let outcome = fill(
        &subject,
        &clip,
        regions.choice.rule,
        regions.choice.operation,
        status,
        out,
    );
    Ok(Some(outcome))
}

/// Appends the rings that bound what is made of the walks' edges.
pub fn bound_walks<C, A>(
    alloc: Global,
    regions: Regions,
    status: &mut C,
    points: &mut Vec<Point, A>,
    ends: &mut Vec<usize, A>,
) -> Result<Result<(), Refusal>, AllocError>
where
    C: StatusCollection<ActiveEdge, i64, ()>,
    A: Allocator + Copy,
{
    let (edges, count) = edges_of_both(alloc, regions.subject, regions.clip)?;
    Ok(boundary(&edges, count, regions.choice, status, points, ends))
}

fn joined(alloc: Global, edges: &[Edge], others: &[Edge]) -> Result<Vec<Edge>, AllocError>
    ensures { IfOk result (λ both. both.items ≡ edges.now ++ others.now) }
{
    let mut both = Vec::new(alloc);
    both.extend_from_slice(edges)?;
    both.extend_from_slice(others)?;
    Ok(both)
}

// The edges of the subject's walks and then of the clip's, and how many of them are the subject's.
fn edges_of_both(
    alloc: Global,
    subject: &[&[[i32; 2]]],
    clip: &[&[[i32; 2]]],
) -> Result<(Vec<Edge>, usize), AllocError>
    ensures count { IfOk result (λ told. told.1 ≤ length told.0.items) }
    ensures closed { IfOk result (λ told. IsClosed (take told.1 told.0.items)) }
    ensures clip_closed { IfOk result (λ told. IsClosed (drop told.1 told.0.items)) }
{
    let first = edges_of(alloc, subject)?;
    let others = edges_of(alloc, clip)?;
    let both = joined(alloc, &first, &others)?;
    Ok((both, first.len()))
}

/// The edges of each walk, from each of its points to the next and from the last back to the first.
pub fn edges_of(alloc: Global, walks: &[&[[i32; 2]]]) -> Result<Vec<Edge>, AllocError>
    ensures { IfOk result (λ edges. IsClosed edges.items) }
{
    let mut edges = Vec::new(alloc);
    for walk in walks {
        push_walk(&mut edges, walk)?;
    }
    Ok(edges)
}

/// Appends the edges of a walk.
pub fn push_walk(edges: &mut Vec<Edge>, walk: &[[i32; 2]]) -> Result<(), AllocError>
    requires { IsClosed edges.old.items }
    ensures { OnOk result (IsClosed edges.new.items) }
{
    let Some((start, others)) = walk.split_first() else {
        return Ok(())
    };
    let first = point(*start);
    let mut last = first;
    for other in others {
        let next = point(*other);
        push_edge(edges, last, next)?;
        last = next;
    }
    push_edge(edges, last, first)
}

fn point(at: [i32; 2]) -> Point {
    let [x, y] = at;
    Point { x, y }
}

// Appends the edge from the one point to the other.
fn push_edge(edges: &mut Vec<Edge>, from: Point, to: Point) -> Result<(), AllocError>
    ensures { OnOk result (edges.new.items ≡ edges.old.items ++ edge_between from to ∷ []) }
{
    edges.push(Edge {
        x0: from.x,
        y0: from.y,
        x1: to.x,
        y1: to.y,
    })?;
    Ok(())
}

// Whether each point of two of the edges is an end of both, or the two have the same ends.
fn are_noded(edges: &[Edge]) -> bool
    ensures { result ≡ true → AreNoded edges.now }
{
    for edge in edges {
        if !meets_each(*edge, edges) {
            return false;
        }
    }
    true
}

// Whether it is so of this edge and each of the others.
fn meets_each(edge: Edge, others: &[Edge]) -> bool
    ensures { result ≡ true → All (MeetAtEndsAlone edge) others.now }
{
    for other in others {
        if !meet_at_ends(edge, *other) {
            return false;
        }
    }
    true
}

// Whether it is so of the two.
fn meet_at_ends(one: Edge, other: Edge) -> bool
    ensures { result ≡ true → MeetAtEndsAlone one other }
{
    if is_same(one, other) {
        return true;
    }
    if is_same(one, reverse(other)) {
        return true;
    }
    match how_they_meet(one, other) {
        Meeting::Apart => true,
        Meeting::Touch => have_common_end(one, other),
        _ => false,
    }
}

fn is_same(one: Edge, other: Edge) -> bool
    ensures { result ≡ true → one ≡ other }
{
    one == other
}

// Whether an end of the one is an end of the other.
fn have_common_end(one: Edge, other: Edge) -> bool
    ensures { result ≡ true → (common : Point) × IsEndAt one common × IsEndAt other common }
{
    let start = Point {
        x: one.x0,
        y: one.y0,
    };
    if is_end(other, start) {
        return true;
    }
    let end = Point {
        x: one.x1,
        y: one.y1,
    };
    is_end(other, end)
}

fn is_end(edge: Edge, at: Point) -> bool
    ensures { result ≡ true → IsEndAt edge at }
{
    if at.x == edge.x0 && at.y == edge.y0 {
        return true;
    }
    at.x == edge.x1 && at.y == edge.y1
}
