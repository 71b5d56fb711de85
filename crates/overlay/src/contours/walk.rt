//! Walks along edges, until each edge is walked.

ghost use Rattle.std.specs.Prelude.{◌≡◌, ◌≢◌, ◌++◌, ◌∷◌, ◌<◌, [], true, false, IsPermutation, List, OnErr, OnOk, get_or, length, slice_set};
ghost use Rattle.std.specs.List.{flat_map};
ghost use Rattle.plane.specs.declared.point.Point.{Point};
ghost use Rattle.overlay.specs.Contours.Ends.{AreCornersOfEnds};
ghost use Rattle.overlay.specs.Contours.Fans.{AreFans};
ghost use Rattle.overlay.specs.Contours.Order.{AreInOrder, IsFirstFrom, point_at};
ghost use Rattle.overlay.specs.Contours.Rings.{ring_edges};
ghost use Rattle.overlay.specs.Contours.Walks.{AreAppended, ArePairs, Keeps, unwalked};
ghost use Rattle.overlay.specs.Sides.{AreBorders, KeepSides};
ghost use Rattle.plane.specs.Ends.{end_of, start_of};
ghost use Rattle.plane.specs.Lists.{Extends};
ghost use Rattle.noding.specs.Windings.{IsClosed};

use super::cutting::cut_loop;
use super::ends::{corners_of_ends, next_from};
use super::fans::{Fans, fans_of, links_of, next_edge};
use super::turns::starts_at;
use plane::edge::{Edge, end_of, start_of};
use plane::point::Point;
use std::alloc::{AllocError, Allocator};

/// Appends the rings of closed edges that are in order.
pub fn append_rings<A: Allocator + Copy>(
    alloc: A,
    sorted: &[Edge],
    points: &mut Vec<Point, A>,
    ring_ends: &mut Vec<usize, A>,
) -> Result<(), AllocError>
    requires closed { IsClosed sorted.now }
    requires order { AreInOrder sorted.now }
    ensures ok { OnOk result ((rings : List (List Point))
        × AreAppended rings points.old.items points.new.items ring_ends.old.items ring_ends.new.items
        × IsPermutation (flat_map ring_edges rings) sorted.now
        × (AreBorders sorted.now → KeepSides sorted.now rings)) }
    ensures err { OnErr result (Extends points.old.items points.new.items
        × Extends ring_ends.old.items ring_ends.new.items) }
{
    let corners = corners_of_ends(alloc, sorted)?;
    let used = vec![in alloc; false; sorted.len()]?;
    let marks = vec![in alloc; 0; sorted.len()]?;
    let fans = fans_of(alloc, sorted)?;
    let mut walk = Walk {
        used,
        marks,
        links: links_of(alloc, &fans)?,
        stack: Vec::new(alloc),
        corner: 0,
    };
    walk_all(sorted, &corners, &fans, &mut walk, points, ring_ends)
}

// How far walks have come along edges in order: which edges are walked, over which corners the last walk is now, and at which
// corner it stands. For each corner the mark is its place among these, where the walk is over it. The links are those of fans.
#[derive(Drop)]
struct Walk<A: Allocator> {
    used: Vec<bool, A>,
    marks: Vec<usize, A>,
    links: Vec<usize, A>,
    stack: Vec<usize, A>,
    corner: usize,
}

// Walks along all edges, of which none is walked yet.
fn walk_all<A: Allocator>(
    sorted: &[Edge],
    corners: &[usize],
    fans: &Fans<A>,
    walk: &mut Walk<A>,
    points: &mut Vec<Point, A>,
    ring_ends: &mut Vec<usize, A>,
) -> Result<(), AllocError>
    requires closed { IsClosed sorted.now }
    requires order { AreInOrder sorted.now }
    requires corners { AreCornersOfEnds sorted.now corners.now }
    requires fans { AreFans sorted.now fans.now.spokes.items fans.now.fans.items }
    requires used_size { length walk.old.used.items ≡ length sorted.now }
    requires marks_size { length walk.old.marks.items ≡ length sorted.now }
    requires all { unwalked sorted.now walk.old.used.items ≡ sorted.now }
    requires begins { walk.old.stack.items ≡ [] }
    ensures ok { OnOk result ((rings : List (List Point))
        × AreAppended rings points.old.items points.new.items ring_ends.old.items ring_ends.new.items
        × IsPermutation (flat_map ring_edges rings) sorted.now
        × (AreBorders sorted.now → KeepSides sorted.now rings)) }
    ensures err { OnErr result (Extends points.old.items points.new.items
        × Extends ring_ends.old.items ring_ends.new.items) }
{
    let mut corner = 0;
    // The edges before `first` are walked, and what is walked is of rings.
    for first in 0..sorted.len() {
        if walk.used[first] {
            continue;
        }
        corner = next_from(sorted, corner, start_of(sorted[first]));
        walk.corner = corner;
        walk_from(sorted, corners, fans, first, walk, points, ring_ends)?;
    }
    Ok(())
}

// Walks from the edge at this place on, until no edge is left to go on along: then the walk is back where it began. The walk
// stands at the corner where that edge starts.
fn walk_from<A: Allocator>(
    sorted: &[Edge],
    corners: &[usize],
    fans: &Fans<A>,
    first: usize,
    walk: &mut Walk<A>,
    points: &mut Vec<Point, A>,
    ring_ends: &mut Vec<usize, A>,
) -> Result<(), AllocError>
    requires closed { IsClosed sorted.now }
    requires order { AreInOrder sorted.now }
    requires corners { AreCornersOfEnds sorted.now corners.now }
    requires fans { AreFans sorted.now fans.now.spokes.items fans.now.fans.items }
    requires inside { first < length sorted.now }
    requires from { IsFirstFrom sorted.now (point_at sorted.now first) walk.old.corner }
    requires unused { get_or walk.old.used.items first true ≡ false }
    requires used_size { length walk.old.used.items ≡ length sorted.now }
    requires marks_size { length walk.old.marks.items ≡ length sorted.now }
    requires rest { IsClosed (unwalked sorted.now walk.old.used.items) }
    requires begins { walk.old.stack.items ≡ [] }
    ensures ok { OnOk result ((rings : List (List Point))
        × AreAppended rings points.old.items points.new.items ring_ends.old.items ring_ends.new.items
        × IsPermutation (flat_map ring_edges rings ++ unwalked sorted.now walk.new.used.items)
        (unwalked sorted.now walk.old.used.items)
        × (walk.new.stack.items ≡ [])
        × (AreBorders sorted.now → ArePairs sorted.now walk.old.used.items
        → KeepSides sorted.now rings × ArePairs sorted.now walk.new.used.items)) }
    ensures walked { OnOk result (get_or walk.new.used.items first true ≡ true) }
    ensures keeps { OnOk result (Keeps walk.old.used.items walk.new.used.items) }
    ensures used_size { OnOk result (length walk.new.used.items ≡ length walk.old.used.items) }
    ensures marks_size { OnOk result (length walk.new.marks.items ≡ length walk.old.marks.items) }
    ensures err { OnErr result (Extends points.old.items points.new.items
        × Extends ring_ends.old.items ring_ends.new.items) }
{
    let mut back = start_of(sorted[first]);
    let mut next = Some(first);
    // Each edge that wasn't walked before is of a ring, of the walk, or still not walked. The walk is over no corner twice.
    while let Some(place) = next {
        let edge = sorted[place];
        let at = end_of(edge);
        go_along(walk, place, corners[place])?;
        cut_loop(
            sorted,
            walk.corner,
            &walk.marks,
            &mut walk.stack,
            points,
            ring_ends,
        )?;
        back = behind(edge, back);
        next = next_edge(
            sorted,
            &walk.used,
            fans,
            &mut walk.links,
            back,
            at,
            walk.corner,
        );
    }
    Ok(())
}

// The point from which the walk comes by the edge: that at which it starts. Where it goes nowhere it is the one before.
fn behind(edge: Edge, before: Point) -> Point
    ensures { start_of edge ≢ end_of edge → result ≡ start_of edge }
{
    if starts_at(edge, end_of(edge)) {
        return before;
    }
    start_of(edge)
}

// Goes along the edge at this place, which ends at this corner.
fn go_along<A: Allocator>(walk: &mut Walk<A>, place: usize, end: usize) -> Result<(), AllocError>
    requires place { place < length walk.old.used.items }
    requires corner { walk.old.corner < length walk.old.marks.items }
    ensures used { OnOk result (walk.new.used.items ≡ slice_set walk.old.used.items place true) }
    ensures marks { OnOk result (walk.new.marks.items
        ≡ slice_set walk.old.marks.items walk.old.corner (length walk.old.stack.items)) }
    ensures stack { OnOk result (walk.new.stack.items ≡ walk.old.stack.items ++ walk.old.corner ∷ []) }
    ensures corner { OnOk result (walk.new.corner ≡ end) }
{
    walk.used[place] = true;
    walk.marks[walk.corner] = walk.stack.len();
    walk.stack.push(walk.corner)?;
    walk.corner = end;
    Ok(())
}
