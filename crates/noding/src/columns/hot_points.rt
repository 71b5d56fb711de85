//! The hot points of edges, as a list.

ghost use Rattle.std.specs.Prelude.{◌≡◌, IfOk, OnOk};
ghost use Rattle.noding.specs.Columns.Ends.{AreEnds};
ghost use Rattle.noding.specs.Crossings.{AreAllCrossed, AreHot, IsEndOf, IsPointOf};
ghost use Rattle.plane.specs.Gains.{GainsThese, IsOfSome};

use crate::crossings::{Crossing, sort_points};
use plane::edge::{Edge, end_of, start_of};
use plane::point::Point;
use std::alloc::{AllocError, Allocator};

/// The hot points of the edges in order, each once, where these are their crossings: all ends of edges, and the points of the
/// crossings. Memory that is refused is the only error.
pub fn hot_points<A: Allocator + Copy>(
    alloc: A,
    edges: &[Edge],
    crossings: &[Crossing],
) -> Result<Vec<Point, A>, AllocError>
    requires { AreAllCrossed edges.now crossings.now }
    ensures { IfOk result (λ points. AreHot edges.now points.items) }
{
    let mut points = Vec::new(alloc);
    push_ends(edges, &mut points)?;
    push_points(crossings, &mut points)?;
    sort_points(&mut points)?;
    Ok(points)
}

/// The ends of the edges in order, each once. Memory that is refused is the only error.
pub fn ends_in_order<A: Allocator + Copy>(
    alloc: A,
    edges: &[Edge],
) -> Result<Vec<Point, A>, AllocError>
    ensures { IfOk result (λ points. AreEnds edges.now points.items) }
{
    let mut points = Vec::new(alloc);
    push_ends(edges, &mut points)?;
    sort_points(&mut points)?;
    Ok(points)
}

// Appends the ends of the edges.
fn push_ends<A: Allocator>(edges: &[Edge], points: &mut Vec<Point, A>) -> Result<(), AllocError>
    ensures { OnOk result (GainsThese (IsOfSome IsEndOf edges.now) points.old.items points.new.items) }
{
    for edge in edges {
        push_both_ends(*edge, points)?;
    }
    Ok(())
}

/// Appends the two ends of the edge.
pub(super) fn push_both_ends<A: Allocator>(
    edge: Edge,
    points: &mut Vec<Point, A>,
) -> Result<(), AllocError>
    ensures { OnOk result (GainsThese (IsEndOf edge) points.old.items points.new.items) }
{
    points.push(start_of(edge))?;
    points.push(end_of(edge))?;
    Ok(())
}

/// Appends the points of the crossings.
pub(super) fn push_points<A: Allocator>(
    crossings: &[Crossing],
    points: &mut Vec<Point, A>,
) -> Result<(), AllocError>
    ensures { OnOk result (GainsThese (IsOfSome IsPointOf crossings.now) points.old.items points.new.items) }
{
    for crossing in crossings {
        points.push(crossing.point)?;
    }
    Ok(())
}
