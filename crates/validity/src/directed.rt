//! `DirectedRings`: rings of polygons without points that are the next one again, outer ones counterclockwise and holes clockwise.

ghost use Rattle.std.specs.Prelude.{◌≡◌, ◌++◌, ◌∷◌, ◌<◌, ◌≤◌, [], List, IfErr, IfOk, OnOk, get_or, length, map};
ghost use Rattle.std.specs.List.{between};
ghost use Rattle.plane.specs.Ends.{start_of};
ghost use Rattle.plane.specs.declared.point.Point.{Point};
ghost use Rattle.noding.specs.Offsets.{AreJoined};
ghost use Rattle.overlay.specs.Polygons.{rings_of};
ghost use Rattle.overlay.specs.Rings.{HasEnds};
ghost use Rattle.validity.specs.Given.{HasPolygons, corners_of, directed, polygons_of, rings_at, turned};
ghost use Rattle.validity.specs.declared.unchecked.Unchecked.TheVariants.{OutOfMemory};

use crate::given::{PolygonSet, range_at};
use crate::unchecked::Unchecked;
use overlay::Rings;
use overlay::areas::twice_area;
use overlay::rings::{append_real_ones, ring_at};
use plane::edge::{Edge, start_of};
use plane::point::Point;
use std::alloc::{AllocError, Allocator};

/// Rings, in lists of their own.
#[derive(Drop)]
pub(crate) struct DirectedRings<A: Allocator> {
    pub points: Vec<Point, A>,
    pub ends: Vec<usize, A>,
}

impl<A: Allocator + Copy> DirectedRings<A> {
    // No rings.
    pub(crate) fn new(alloc: A) -> DirectedRings<A>
        ensures { AreJoined [] result.points.items result.ends.items }
    {
        DirectedRings {
            points: Vec::new(alloc),
            ends: Vec::new(alloc),
        }
    }

    // The rings, lent.
    pub(crate) fn rings(&self) -> Rings
        ensures points { result.points.now ≡ self.now.points.items }
        ensures ends { result.ends.now ≡ self.now.ends.items }
    {
        Rings {
            points: &self.points,
            ends: &self.ends,
        }
    }

    // Appends the corners of the ring, counterclockwise if it is an outer one, else clockwise.
    fn append_ring(&mut self, ring: &[Point], is_outer: bool) -> Result<(), AllocError>
        ensures { (rings : List (List Point)) → AreJoined rings self.old.points.items self.old.ends.items →
            OnOk result (AreJoined (rings ++ turned is_outer ring.now ∷ []) self.new.points.items self.new.ends.items) }
    {
        let corners = turned_corners(*self.points.allocator(), ring, is_outer)?;
        self.points.extend_from_slice(&corners)?;
        self.ends.push(self.points.len())?;
        Ok(())
    }

    // Appends those of the polygon whose rings are those from the one place on, up to the other.
    pub(crate) fn append_polygon(
        &mut self,
        rings: Rings,
        first: usize,
        behind: usize,
    ) -> Result<(), AllocError>
        requires rings { HasEnds rings }
        requires onwards { first ≤ behind }
        requires within { behind ≤ length rings.ends.now }
        ensures { (before : List (List Point)) → AreJoined before self.old.points.items self.old.ends.items →
            OnOk result (AreJoined (before ++ directed (between first behind (rings_at rings.entry))) self.new.points.items self.new.ends.items) }
    {
        // Those of the rings before this one are appended.
        for ring in first..behind {
            self.append_ring(ring_at(rings.points, rings.ends, ring), ring == first)?;
        }
        Ok(())
    }
}

// The corners of the ring, counterclockwise if it is an outer one, else clockwise.
fn turned_corners<A: Allocator + Copy>(
    alloc: A,
    ring: &[Point],
    is_outer: bool,
) -> Result<Vec<Point, A>, AllocError>
    ensures { IfOk result (λ corners. corners.items ≡ turned is_outer ring.now) }
{
    let mut corners = corners_of(alloc, ring)?;
    let area = twice_area(&corners);
    if is_outer {
        if area < 0 {
            corners.reverse();
        }
    } else if 0 < area {
        corners.reverse();
    }
    Ok(corners)
}

// The points at which the edges of the ring start, but for edges from a point to itself.
fn corners_of<A: Allocator + Copy>(alloc: A, ring: &[Point]) -> Result<Vec<Point, A>, AllocError>
    ensures { IfOk result (λ corners. corners.items ≡ corners_of ring.now) }
{
    let mut edges = Vec::new(alloc);
    append_real_ones(ring, &mut edges)?;
    let corners = starts_of(alloc, &edges)?;
    Ok(corners)
}

// The points at which the edges start.
#[tactic(auto, using(std::proofs::lemmas::List::map_more, std::proofs::lemmas::List::take_all))]
fn starts_of<A: Allocator>(alloc: A, edges: &[Edge]) -> Result<Vec<Point, A>, AllocError>
    ensures { IfOk result (λ starts. starts.items ≡ map start_of edges.now) }
{
    let mut starts = Vec::with_capacity(alloc, edges.len())?;
    // Those of the edges so far are there.
    for edge in edges {
        starts.push(start_of(*edge))?;
    }
    Ok(starts)
}

// The rings of all polygons, directed.
pub(crate) fn directed_rings<A: Allocator + Copy>(
    alloc: A,
    set: PolygonSet,
) -> Result<DirectedRings<A>, Unchecked>
    requires { HasPolygons set }
    ensures ok { IfOk result (λ all. AreJoined (rings_of (map directed (polygons_of set.entry))) all.points.items all.ends.items) }
    ensures fault { IfErr result (λ cause. cause ≡ OutOfMemory) }
{
    let mut all = DirectedRings::new(alloc);
    // Those of the polygons before this one are there.
    for polygon in 0..set.polygon_ends.len() {
        let (first, behind) = range_at(set.polygon_ends, polygon);
        all.append_polygon(set.rings, first, behind)?;
    }
    Ok(all)
}

// The rings of the polygon at this place, directed.
pub(crate) fn directed_polygon<A: Allocator + Copy>(
    alloc: A,
    set: PolygonSet,
    polygon: usize,
) -> Result<DirectedRings<A>, Unchecked>
    requires set { HasPolygons set }
    requires polygon { polygon < length set.polygon_ends.now }
    ensures ok { IfOk result (λ own. AreJoined (directed (get_or (polygons_of set.entry) polygon [])) own.points.items own.ends.items) }
    ensures fault { IfErr result (λ cause. cause ≡ OutOfMemory) }
{
    let mut own = DirectedRings::new(alloc);
    let (first, behind) = range_at(set.polygon_ends, polygon);
    own.append_polygon(set.rings, first, behind)?;
    Ok(own)
}
