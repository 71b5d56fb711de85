//! Moments of the sweep, and how two edges stand to each other at them.

ghost use Rattle.std.specs.Prelude.{◌≡◌, ◌^◌, ◌-ℤ◌, ◌*ℤ◌, ◌<ℤ◌, ◌≤ℤ◌, ℤ, pos, MatchBool, MatchOption};
ghost use Rattle.plane.specs.Columns.Moments.{IsAbove, IsFirstAbove, IsSteeper, Overcomes, at_column, behind_column, first_common, last_common};
ghost use Rattle.plane.specs.Columns.Status.{StandsBelow};
ghost use Rattle.plane.specs.Meet.Crosses.{IsWithin};
ghost use Rattle.plane.specs.SweepLine.Heights.{rise_by_run};
ghost use Rattle.plane.specs.SweepLine.Heights.{height_by_runs as height_of};

use crate::edge::{Edge, end_of, start_of};
use crate::point::Point;
use crate::sweep_line::ActiveEdge;
use crate::sweep_line::heights::{compare_ends, compare_slopes, compare_to_point};
use crate::vectors::{cross_product, difference, product, vector_between};
use std::cmp::Ordering;

/// The first moment from this one on, while both live, at which the one edge, which stands below the other, is above it. Mostly
/// there is none, which their heights where the first of them ends tell, without a division.
pub fn first_above(below: Edge, above: Edge, from: i64) -> Option<i64>
    requires right { below.x0 <ℤ below.x1 }
    requires above_right { above.x0 <ℤ above.x1 }
    requires common { (first_common below above ≤ℤ from) × (from ≤ℤ last_common below above) }
    requires steeper { IsAbove below above from → IsSteeper below above }
    ensures { MatchOption result
        ((moment : ℤ) → from ≤ℤ moment → moment ≤ℤ last_common below above → ¬ (IsAbove below above moment))
        (λ moment. IsFirstAbove below above from moment) }
{
    if compare_ends(below, above) != Ordering::Greater {
        return None;
    }
    let x = column_of(from);
    let gap = gap_at(below, above, x);
    if gap < 0 {
        return Some(from);
    }
    Some(2 * x as i64 + moments_until(gap, gain_by_column(below, above)))
}

/// The column of a moment: that at which it is, or just behind which.
fn column_of(moment: i64) -> i32
    requires from { (pos 0 -ℤ pos (2 ^ 32)) ≤ℤ moment }
    requires upto { moment <ℤ pos (2 ^ 32) }
    ensures from { at_column result ≤ℤ moment }
    ensures upto { moment ≤ℤ behind_column result }
{
    moment.div_euclid(2) as i32
}

/// By how many moments a gap, of which so much is gained from each column to the next, is overcome: just behind a column at
/// which nothing of it is left, or at the first one behind it.
fn moments_until(gap: i128, gain: i128) -> i64
    requires gap { pos 0 ≤ℤ gap }
    requires gain { pos 0 <ℤ gain }
    requires near { gap <ℤ (pos (2 ^ 32) *ℤ gain) }
    ensures { (columns : ℤ) × (pos 0 ≤ℤ columns) × (columns <ℤ pos (2 ^ 32)) × Overcomes gap gain columns result }
{
    let columns = (gap / gain) as i64;
    if gap % gain == 0 {
        return 2 * columns + 1;
    }
    2 * columns + 2
}

/// How far the one edge is below the other at an x, times both runs.
fn gap_at(below: Edge, above: Edge, x: i32) -> i128
    ensures { result ≡ height_of above below x -ℤ height_of below above x }
{
    height_by_runs(above, below, x) - height_by_runs(below, above, x)
}

/// The height of the edge at an x, times its run and the other's. Its height times its run is the cross product of the vectors
/// to its end and to its start from the point of the axis below.
fn height_by_runs(edge: Edge, other: Edge, x: i32) -> i128
    ensures value { result ≡ height_of edge other x }
    ensures within { IsWithin (2 ^ 97) result }
{
    let foot = Point { x, y: 0 };
    let to_start = vector_between(foot, start_of(edge));
    let to_end = vector_between(foot, end_of(edge));
    cross_product(to_end, to_start) * difference(other.x0, other.x1) as i128
}

/// How much of that gap the one gains from one column to the next.
fn gain_by_column(below: Edge, above: Edge) -> i128
    ensures { result ≡ rise_by_run below above -ℤ rise_by_run above below }
{
    let rise = product(
        difference(below.y0, below.y1),
        difference(above.x0, above.x1),
    );
    let other_rise = product(
        difference(above.y0, above.y1),
        difference(below.x0, below.x1),
    );
    rise - other_rise
}

/// Whether an active edge stands below one that begins.
pub fn stands_below(other: ActiveEdge, beginning: ActiveEdge) -> bool
    requires right { other.edge.x0 <ℤ other.edge.x1 }
    requires beginning_right { beginning.edge.x0 <ℤ beginning.edge.x1 }
    ensures { MatchBool result (StandsBelow beginning other) (¬ (StandsBelow beginning other)) }
{
    match compare_to_point(other.edge, start_of(beginning.edge)) {
        Ordering::Less => true,
        Ordering::Equal => compare_slopes(other.edge, beginning.edge) != Ordering::Greater,
        Ordering::Greater => false,
    }
}
