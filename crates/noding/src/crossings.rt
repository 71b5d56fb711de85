//! What the points in which two edges cross round to.

ghost use Rattle.std.specs.Prelude.{◌≡◌, ◌⊎◌, ◌<◌, All, length, IfOk, MatchBool, OnOk};
ghost use Rattle.noding.specs.Chains.{IsEnd};
ghost use Rattle.noding.specs.Crossings.{AreCrossed, ArePointsInside, IsCrossedAt, IsPointInside};
ghost use Rattle.plane.specs.Gains.{GainsThese, HaveSame, IsOfSome};
ghost use Rattle.plane.specs.declared.point.Point.{Point};

use crate::crossing::crossing;
use crate::passing::is_end;
use event_queue::buckets::sort_in_buckets;
use plane::edge::Edge;
use plane::point::{Point, number_at};
use std::alloc::{AllocError, Allocator};
use std::cmp::Ordering;

/// Two edges that aren't parallel and meet: their places among all, and what their common point rounds to.
#[derive(Clone, Copy, Debug)]
pub struct Crossing {
    pub one: usize,
    pub other: usize,
    pub point: Point,
}

/// The crossings of the edges at these pairs, in their order.
pub fn crossings_of_pairs<A: Allocator>(
    alloc: A,
    edges: &[Edge],
    pairs: &[(usize, usize)],
) -> Result<Vec<Crossing, A>, AllocError>
    requires { All (λ pair. (pair.0 < length edges.now) × (pair.1 < length edges.now)) pairs.now }
    ensures { IfOk result (λ crossings. AreCrossed edges.now pairs.now crossings.items) }
{
    let mut crossings = Vec::new(alloc);
    for pair in pairs {
        push_crossing(edges, *pair, &mut crossings)?;
    }
    Ok(crossings)
}

// Appends the crossing of the edges at this pair, if they cross.
fn push_crossing<A: Allocator>(
    edges: &[Edge],
    pair: (usize, usize),
    crossings: &mut Vec<Crossing, A>,
) -> Result<(), AllocError>
    requires within { (pair.0 < length edges.now) × (pair.1 < length edges.now) }
    ensures { OnOk result (GainsThese (IsCrossedAt edges.now pair) crossings.old.items crossings.new.items) }
{
    if let Some(point) = crossing(edges[pair.0], edges[pair.1]) {
        crossings.push(Crossing {
            one: pair.0,
            other: pair.1,
            point,
        })?;
    }
    Ok(())
}

/// The points of these crossings, each once, but for those that are an end of one of the two edges.
pub fn points_inside<A: Allocator + Copy>(
    alloc: A,
    edges: &[Edge],
    crossings: &[Crossing],
) -> Result<Vec<Point, A>, AllocError>
    requires { All (λ crossing. (crossing.one < length edges.now) × (crossing.other < length edges.now)) crossings.now }
    ensures { IfOk result (λ points. ArePointsInside edges.now crossings.now points.items) }
{
    let mut points = Vec::new(alloc);
    push_points_inside(edges, crossings, &mut points)?;
    sort_points(&mut points)?;
    Ok(points)
}

/// Puts points in order, each once.
pub fn sort_points<A: Allocator + Copy>(points: &mut Vec<Point, A>) -> Result<(), AllocError>
    ensures { OnOk result (HaveSame points.old.items points.new.items) }
{
    sort_in_buckets(
        points,
        |point| number_at(point.x, point.y),
        |one: &Point, other: &Point| -> Ordering { one.cmp(other) },
    )?;
    points.dedup();
    Ok(())
}

// Appends the points of these crossings, but for ends of the two edges.
fn push_points_inside<A: Allocator>(
    edges: &[Edge],
    crossings: &[Crossing],
    points: &mut Vec<Point, A>,
) -> Result<(), AllocError>
    requires { All (λ crossing. (crossing.one < length edges.now) × (crossing.other < length edges.now)) crossings.now }
    ensures { OnOk result (GainsThese (IsOfSome (IsPointInside edges.now) crossings.now) points.old.items points.new.items) }
{
    for crossing in crossings {
        push_point_inside(edges, *crossing, points)?;
    }
    Ok(())
}

// Appends the crossing's point, if it is no end of the two edges.
fn push_point_inside<A: Allocator>(
    edges: &[Edge],
    crossing: Crossing,
    points: &mut Vec<Point, A>,
) -> Result<(), AllocError>
    requires within { (crossing.one < length edges.now) × (crossing.other < length edges.now) }
    ensures { OnOk result (GainsThese (IsPointInside edges.now crossing) points.old.items points.new.items) }
{
    if is_end_of_one(edges[crossing.one], edges[crossing.other], crossing.point) {
        return Ok(());
    }
    points.push(crossing.point)?;
    Ok(())
}

/// Whether the point is an end of one of the edges.
pub fn is_end_of_one(one: Edge, other: Edge, point: Point) -> bool
    ensures { let end = IsEnd one point.x point.y ⊎ IsEnd other point.x point.y in MatchBool result end (¬ end) }
{
    is_end(one, point.x, point.y) || is_end(other, point.x, point.y)
}
