//! `NearRings`: rings that do near a window in the place of others.

ghost use Rattle.std.specs.Prelude.{◌≡◌, ◌++◌, ◌∷◌, [], List, IfErr, IfOk, OnOk};
ghost use Rattle.std.specs.List.{flat_map};
ghost use Rattle.plane.specs.declared.point.Point.{Point};
ghost use Rattle.noding.specs.Offsets.{AreJoined};
ghost use Rattle.overlay.specs.Contours.Rings.{ring_edges};
ghost use Rattle.overlay.specs.Rings.{HasEnds, edges_of};
ghost use Rattle.tiles.specs.Tile.{AreInPlace, border, turned_border};
ghost use Rattle.tiles.specs.Window.{CanCropTo, IsFault};

use crate::cropping::crop;
use crate::fault::CropFault;
use crate::window::Window;
use overlay::Rings;
use overlay::rings::ring_at;
use plane::edge::{Edge, edge_between};
use plane::point::Point;
use std::alloc::{AllocError, Allocator};

/// Rings, in lists of their own.
#[derive(Drop)]
pub(crate) struct NearRings<A: Allocator> {
    pub points: Vec<Point, A>,
    pub ends: Vec<usize, A>,
}

impl<A: Allocator> NearRings<A> {
    // The rings, lent.
    pub(crate) fn rings(&self) -> Rings
        ensures points { result.points.now ≡ self.now.points.items }
        ensures ends { result.ends.now ≡ self.now.ends.items }
    {
        Rings {
            points: &self.points,
            ends: &self.ends,
        }
    }

    // Appends the border of the window, counterclockwise.
    pub(crate) fn append_border(&mut self, window: Window) -> Result<(), AllocError>
        ensures { (rings : List (List Point)) → AreJoined rings self.old.points.items self.old.ends.items →
            OnOk result (AreJoined (rings ++ border window ∷ []) self.new.points.items self.new.ends.items) }
    {
        self.append_four(
            corner(window.left, window.low),
            corner(window.right, window.low),
            corner(window.right, window.high),
            corner(window.left, window.high),
        )
    }

    // Appends it the other way round.
    pub(crate) fn append_turned_border(&mut self, window: Window) -> Result<(), AllocError>
        ensures { (rings : List (List Point)) → AreJoined rings self.old.points.items self.old.ends.items →
            OnOk result (AreJoined (rings ++ turned_border window ∷ []) self.new.points.items self.new.ends.items) }
    {
        self.append_four(
            corner(window.left, window.low),
            corner(window.left, window.high),
            corner(window.right, window.high),
            corner(window.right, window.low),
        )
    }

    // Appends a ring of four points.
    fn append_four(
        &mut self,
        first: Point,
        second: Point,
        third: Point,
        fourth: Point,
    ) -> Result<(), AllocError>
        ensures { (rings : List (List Point)) → AreJoined rings self.old.points.items self.old.ends.items →
            OnOk result (AreJoined (rings ++ (first ∷ second ∷ third ∷ fourth ∷ []) ∷ []) self.new.points.items self.new.ends.items) }
    {
        self.points.push(first)?;
        self.points.push(second)?;
        self.points.push(third)?;
        self.points.push(fourth)?;
        self.ends.push(self.points.len())?;
        Ok(())
    }
}

// The point with these coordinates.
fn corner(x: i32, y: i32) -> Point
    ensures { result ≡ record { x = x; y = y } }
{
    Point { x, y }
}

// Appends the edges of the window's border, counterclockwise.
pub(crate) fn append_sides<A: Allocator>(
    window: Window,
    edges: &mut Vec<Edge, A>,
) -> Result<(), AllocError>
    ensures { OnOk result (edges.new.items ≡ edges.old.items ++ ring_edges (border window)) }
{
    append_edges_of_four(
        corner(window.left, window.low),
        corner(window.right, window.low),
        corner(window.right, window.high),
        corner(window.left, window.high),
        edges,
    )
}

// Appends the edges of a ring of four points.
fn append_edges_of_four<A: Allocator>(
    first: Point,
    second: Point,
    third: Point,
    fourth: Point,
    edges: &mut Vec<Edge, A>,
) -> Result<(), AllocError>
    ensures { OnOk result (edges.new.items ≡ edges.old.items ++ ring_edges (first ∷ second ∷ third ∷ fourth ∷ [])) }
{
    edges.push(edge_between(first, second))?;
    edges.push(edge_between(second, third))?;
    edges.push(edge_between(third, fourth))?;
    edges.push(edge_between(fourth, first))?;
    Ok(())
}

// What the rings become for the window, each cropped.
pub(crate) fn near_rings<A: Allocator + Copy>(
    alloc: A,
    rings: Rings,
    window: Window,
) -> Result<NearRings<A>, CropFault>
    requires ends { HasEnds rings }
    requires window { CanCropTo window }
    ensures ok { IfOk result (λ near. (cropped : List (List Point)) × AreJoined cropped near.points.items near.ends.items
        × AreInPlace window (edges_of rings.entry) (flat_map ring_edges cropped)) }
    ensures fault { IfErr result (IsFault window) }
{
    let mut points = Vec::new(alloc);
    let mut ends = Vec::new(alloc);
    // The rings before this one are cropped.
    for ring in 0..rings.ends.len() {
        crop(ring_at(rings.points, rings.ends, ring), window, &mut points)?;
        ends.push(points.len())?;
    }
    Ok(NearRings { points, ends })
}
