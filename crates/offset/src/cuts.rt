//! The raw curve of a ring, cut at corners where that is safe.

ghost use Rattle.std.specs.Bool.{OnTrue};
ghost use Rattle.std.specs.Prelude.{◌≡◌, ◌<◌, ◌+◌, ◌++◌, true, Bool, List, IfErr, IfOk, OnOk, get_or, length};
ghost use Rattle.plane.specs.declared.edge.Edge.{Edge};
ghost use Rattle.plane.specs.Ends.{edge_between, end_of, start_of};
ghost use Rattle.overlay.specs.Contours.Rings.{has_two_ends};
ghost use Rattle.offset.specs.Cuts.{IsCurveOfRing, IsGentle, IsSafe, IsSafeBack, IsSafeOn, LieLeft, LieRight, curve_of_two, edge_at, end_spoke, moved_by_furthest, moved_edges, start_spoke, tips_of};
ghost use Rattle.offset.specs.Faults.{IsRawFault};
ghost use Rattle.offset.specs.Raw.{joint, nowhere, raw_of_ring, raw_of_two};
ghost use Rattle.offset.specs.Shape.{IsConvexAroundOrigin, neighbours, sides};

use crate::fault::MinkowskiFault;
use crate::raw::{append_fan, corner_behind, differ, place_near, push_moved};
use crate::shape::{next_place, side_at, turn};
use plane::edge::{Edge, edge_between, end_of, height_over, start_of};
use plane::point::Point;
use std::alloc::Allocator;

// So many edges before a corner, and behind it, are looked at.
const MOST_STEPS: usize = 1024;

/// The corners of what is cut off at the end of an edge: that end, and where it is moved by the edge's furthest corner and by that
/// of the next edge.
#[derive(Clone, Copy)]
pub struct Tips {
    pub at: Point,
    pub from: Point,
    pub to: Point,
}

/// Appends the raw curve of the ring, cut at corners that are safe.
pub fn append_curve_of_ring<A: Allocator + Copy>(
    corners: &[Point],
    ring: &[Point],
    edges: &mut Vec<Edge, A>,
) -> Result<(), MinkowskiFault>
    requires { IsConvexAroundOrigin corners.now }
    ensures ok { OnOk result ((curve : List Edge) × IsCurveOfRing corners.now ring.now curve
        × (edges.new.items ≡ edges.old.items ++ curve)) }
    ensures fault { IfErr result (IsRawFault (raw_of_ring corners.now ring.now)) }
{
    let moved = moved_edges(*edges.allocator(), corners, ring)?;
    for index in 0..ring.len() {
        append_curve_at(corners, ring, &moved, index, edges)?;
    }
    Ok(())
}

// The edges of the ring, each moved by its furthest corner.
fn moved_edges<A: Allocator>(
    alloc: A,
    corners: &[Point],
    ring: &[Point],
) -> Result<Vec<Edge, A>, MinkowskiFault>
    requires { IsConvexAroundOrigin corners.now }
    ensures ok { IfOk result (λ moved. moved.items ≡ moved_edges corners.now (sides ring.now)) }
    ensures fault { IfErr result (IsRawFault (raw_of_ring corners.now ring.now)) }
{
    let mut moved = Vec::with_capacity(alloc, ring.len())?;
    let mut near = 0;
    for index in 0..ring.len() {
        let edge = side_at(ring, index);
        near = place_near(corners, edge, near);
        push_moved(corner_behind(corners, near), edge, &mut moved)?;
    }
    Ok(moved)
}

// Appends the curve of the edge at this place and the next one.
fn append_curve_at<A: Allocator>(
    corners: &[Point],
    ring: &[Point],
    moved: &[Edge],
    index: usize,
    edges: &mut Vec<Edge, A>,
) -> Result<(), MinkowskiFault>
    requires shape { IsConvexAroundOrigin corners.now }
    requires moved { moved.now ≡ moved_edges corners.now (sides ring.now) }
    requires within { index < length ring.now }
    ensures ok { OnOk result ((is_cut : Bool) × (is_cut ≡ true → IsSafe corners.now (sides ring.now) index)
        × (edges.new.items ≡ edges.old.items
        ++ curve_of_two corners.now (get_or (neighbours (sides ring.now)) index (nowhere, nowhere), is_cut))) }
    ensures fault { IfErr result (IsRawFault (raw_of_two corners.now
        (get_or (neighbours (sides ring.now)) index (nowhere, nowhere)))) }
{
    let next = next_place(index, ring.len());
    let from = moved[index];
    let to = moved[next];
    edges.push(from)?;
    if !differ(end_of(from), start_of(to)) {
        return Ok(());
    }
    if is_safe(corners, ring, moved, index) {
        edges.push(edge_between(end_of(from), start_of(to)))?;
        return Ok(());
    }
    append_joint_of(
        corners,
        side_at(ring, index),
        side_at(ring, next),
        from,
        to,
        edges,
    )
}

// Appends what joins the edge with the next one, where these are both moved, by two corners.
fn append_joint_of<A: Allocator>(
    corners: &[Point],
    edge: Edge,
    next: Edge,
    from: Edge,
    to: Edge,
    edges: &mut Vec<Edge, A>,
) -> Result<(), MinkowskiFault>
    requires from { from ≡ moved_by_furthest corners.now edge }
    requires to { to ≡ moved_by_furthest corners.now next }
    requires joined { end_of edge ≡ start_of next }
    requires apart { has_two_ends (edge_between (end_of from) (start_of to)) ≡ true }
    ensures ok { OnOk result (edges.new.items ≡ edges.old.items ++ joint corners.now edge next) }
    ensures fault { IfErr result (IsRawFault (joint corners.now edge next)) }
{
    if turn(edge, next) > 0 {
        return append_fan(corners, edge, next, edges);
    }
    edges.push(edge_between(end_of(from), end_of(edge)))?;
    edges.push(edge_between(end_of(edge), start_of(to)))?;
    Ok(())
}

// Whether the corner behind the edge at this place may be cut off, as far as that is looked for.
fn is_safe(corners: &[Point], ring: &[Point], moved: &[Edge], index: usize) -> bool
    requires moved { moved.now ≡ moved_edges corners.now (sides ring.now) }
    requires within { index < length ring.now }
    ensures { OnTrue result (IsSafe corners.now (sides ring.now) index) }
{
    let next = index + 1;
    if next == ring.len() {
        return false;
    }
    if turn(side_at(ring, index), side_at(ring, next)) > 0 {
        return false;
    }
    let from = end_spoke(corners, ring, moved, index);
    let to = start_spoke(corners, ring, moved, next);
    if turn(from, to) >= 0 {
        return false;
    }
    if !is_gentle(corners, ring, moved, index) {
        return false;
    }
    let tips = Tips {
        at: start_of(from),
        from: end_of(from),
        to: end_of(to),
    };
    if !is_safe_back(corners, ring, moved, index, tips) {
        return false;
    }
    is_safe_on(corners, ring, moved, index, tips)
}

// Whether back from the corner behind the edge at this place there is, before long, an edge whose start the points lie ahead of.
fn is_safe_back(corners: &[Point], ring: &[Point], moved: &[Edge], index: usize, tips: Tips) -> bool
    requires moved { moved.now ≡ moved_edges corners.now (sides ring.now) }
    requires within { index < length ring.now }
    ensures { OnTrue result (IsSafeBack corners.now (sides ring.now) index (tips_of tips)) }
{
    for step in 0..MOST_STEPS {
        let place = index - step;
        if !lie_right(side_at(ring, place), tips) {
            return false;
        }
        if lie_left(start_spoke(corners, ring, moved, place), tips) {
            return true;
        }
        if place == 0 {
            return false;
        }
        if !is_gentle(corners, ring, moved, place - 1) {
            return false;
        }
    }
    false
}

// Whether on from that corner there is, before long, an edge whose end the points don't lie ahead of.
fn is_safe_on(corners: &[Point], ring: &[Point], moved: &[Edge], index: usize, tips: Tips) -> bool
    requires moved { moved.now ≡ moved_edges corners.now (sides ring.now) }
    requires within { index + 1 < length ring.now }
    ensures { OnTrue result (IsSafeOn corners.now (sides ring.now) index (tips_of tips)) }
{
    for step in 0..MOST_STEPS {
        let place = index + 1 + step;
        if !lie_right(side_at(ring, place), tips) {
            return false;
        }
        if lie_right(end_spoke(corners, ring, moved, place), tips) {
            return true;
        }
        if place + 1 == ring.len() {
            return false;
        }
        if !is_gentle(corners, ring, moved, place) {
            return false;
        }
    }
    false
}

// Whether the corner behind the edge at this place, which isn't the last one, is gentle.
fn is_gentle(corners: &[Point], ring: &[Point], moved: &[Edge], place: usize) -> bool
    requires moved { moved.now ≡ moved_edges corners.now (sides ring.now) }
    requires within { place + 1 < length ring.now }
    ensures { OnTrue result (IsGentle corners.now (edge_at (sides ring.now) place) (edge_at (sides ring.now) (place + 1))) }
{
    let from = end_spoke(corners, ring, moved, place);
    let to = start_spoke(corners, ring, moved, place + 1);
    if turn(from, to) > 0 {
        return false;
    }
    if turn(to, side_at(ring, place)) < 0 {
        return false;
    }
    if turn(from, side_at(ring, place + 1)) < 0 {
        return false;
    }
    true
}

// From the start of the edge at this place to where that is moved.
fn start_spoke(corners: &[Point], ring: &[Point], moved: &[Edge], place: usize) -> Edge
    requires moved { moved.now ≡ moved_edges corners.now (sides ring.now) }
    requires within { place < length ring.now }
    ensures { result ≡ start_spoke corners.now (edge_at (sides ring.now) place) }
{
    edge_between(start_of(side_at(ring, place)), start_of(moved[place]))
}

// From its end to where that is moved.
fn end_spoke(corners: &[Point], ring: &[Point], moved: &[Edge], place: usize) -> Edge
    requires moved { moved.now ≡ moved_edges corners.now (sides ring.now) }
    requires within { place < length ring.now }
    ensures { result ≡ end_spoke corners.now (edge_at (sides ring.now) place) }
{
    edge_between(end_of(side_at(ring, place)), end_of(moved[place]))
}

// Whether none of the points lies left of the line.
fn lie_right(line: Edge, tips: Tips) -> bool
    ensures { OnTrue result (LieRight line (tips_of tips)) }
{
    if height_over(line, tips.at) > 0 {
        return false;
    }
    if height_over(line, tips.from) > 0 {
        return false;
    }
    if height_over(line, tips.to) > 0 {
        return false;
    }
    true
}

// Whether none of the points lies right of it.
fn lie_left(line: Edge, tips: Tips) -> bool
    ensures { OnTrue result (LieLeft line (tips_of tips)) }
{
    if height_over(line, tips.at) < 0 {
        return false;
    }
    if height_over(line, tips.from) < 0 {
        return false;
    }
    if height_over(line, tips.to) < 0 {
        return false;
    }
    true
}
