//! The stops of edges at their hot points by a sweep over columns.

ghost use Rattle.std.specs.Prelude.{◌≡◌, IfErr, IfOk};
ghost use Rattle.i_tree.specs.declared.Refusal.TheVariants.{OutOfMemory};
ghost use Rattle.noding.specs.Crossings.{AreAllCrossed};
ghost use Rattle.noding.specs.Stops.{AreStops};

use crate::columns::hot_points::hot_points;
use crate::columns::passing::pairs_passed_by_columns;
use crate::crossings::Crossing;
use crate::stops::{Stop, push_stops, sort_stops};
use i_tree::Refusal;
use plane::edge::Edge;
use std::alloc::Allocator;

/// The stops of the edges between their ends, in order, as `stops_in_order` has them, where these are their crossings. It is
/// refused for want of memory alone.
pub fn stops_by_columns<A: Allocator + Copy>(
    alloc: A,
    edges: &[Edge],
    crossings: &[Crossing],
) -> Result<Vec<Stop, A>, Refusal>
    requires { AreAllCrossed edges.now crossings.now }
    ensures ok { IfOk result (λ stops. AreStops edges.now stops.items) }
    ensures refused { IfErr result (λ cause. cause ≡ OutOfMemory) }
{
    let points = hot_points(alloc, edges, crossings)?;
    let passes = pairs_passed_by_columns(alloc, edges, &points)?;
    let mut stops = Vec::new(alloc);
    push_stops(edges, &points, &passes, &mut stops)?;
    sort_stops(&mut stops)?;
    Ok(stops)
}
