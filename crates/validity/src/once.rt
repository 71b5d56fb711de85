//! Whether rings wind once around each point or not at all.

ghost use Rattle.std.specs.Int.{int_max, int_min};
ghost use Rattle.std.specs.Prelude.{◌≡◌, ◌≢◌, ◌≤ℤ◌, pos, [], ◌++◌, ◌∷◌, All, List, IfErr, IfOk, MatchOption, OnOk, length};
ghost use Rattle.noding.specs.Offsets.{AreJoined};
ghost use Rattle.overlay.specs.declared.fill.rules.Operation.TheVariants.{Union};
ghost use Rattle.overlay.specs.Overlay.{IsOverlay};
ghost use Rattle.overlay.specs.Polygons.{Appends};
ghost use Rattle.overlay.specs.Rings.{HasEnds, edges_in, edges_of};
ghost use Rattle.plane.specs.declared.point.Point.{Point};
ghost use Rattle.plane.specs.Meet.Edges.{RationalPoint};
ghost use Rattle.noding.specs.Windings.{winding};
ghost use Rattle.tiles.specs.Tile.{turned_border};
ghost use Rattle.tiles.specs.Window.{HasPoints, IsWithin};
ghost use Rattle.tiles.proofs.JoinWinds.{AreUncrossed};
ghost use Rattle.validity.specs.Validity.{WindOnce, WindOtherwise};
ghost use Rattle.validity.specs.declared.unchecked.Unchecked.TheVariants.{OutOfMemory};

use crate::directed::DirectedRings;
use crate::unchecked::Unchecked;
use monotone_chains::simplify;
use overlay::{FillRule, OverlayFault, Polygons, Rings};
use plane::point::Point;
use std::alloc::{AllocError, Allocator};
use tiles::Window;

// A point about which the rings wind less than not at all, if there is any, where they wind once at most.
pub(crate) fn first_below<A: Allocator + Copy>(
    alloc: A,
    directed: DirectedRings<A>,
) -> Result<Option<Point>, Unchecked>
    requires joined { (rings : List (List Point)) × AreJoined rings directed.points.items directed.ends.items }
    requires uncrossed { AreUncrossed (edges_in directed.points.items directed.ends.items) }
    requires most { (point : RationalPoint) → winding (edges_in directed.points.items directed.ends.items) point ≤ℤ pos 1 }
    ensures ok { IfOk result (λ found. MatchOption found (WindOnce (edges_in directed.points.items directed.ends.items))
        (λ _. WindOtherwise (edges_in directed.points.items directed.ends.items))) }
    ensures fault { IfErr result (λ cause. cause ≡ OutOfMemory) }
{
    let found = first_inside(alloc, directed.rings(), FillRule::Negative)?;
    Ok(found)
}

// A point about which the rings wind more than once, if there is any, where they wind not at all at least.
pub(crate) fn first_above<A: Allocator + Copy>(
    alloc: A,
    mut directed: DirectedRings<A>,
) -> Result<Option<Point>, Unchecked>
    requires joined { (rings : List (List Point)) × AreJoined rings directed.points.items directed.ends.items }
    requires uncrossed { AreUncrossed (edges_in directed.points.items directed.ends.items) }
    requires least { (point : RationalPoint) → pos 0 ≤ℤ winding (edges_in directed.points.items directed.ends.items) point }
    ensures ok { IfOk result (λ found. MatchOption found (WindOnce (edges_in directed.points.items directed.ends.items))
        (λ _. WindOtherwise (edges_in directed.points.items directed.ends.items))) }
    ensures fault { IfErr result (λ cause. cause ≡ OutOfMemory) }
{
    let window = window_around(&directed.points);
    append_border(window, &mut directed)?;
    let found = first_inside(alloc, directed.rings(), FillRule::Positive)?;
    Ok(found)
}

// Appends the border of the window, clockwise.
fn append_border<A: Allocator>(
    window: Window,
    directed: &mut DirectedRings<A>,
) -> Result<(), AllocError>
    ensures { (rings : List (List Point)) → AreJoined rings directed.old.points.items directed.old.ends.items →
        OnOk result (AreJoined (rings ++ turned_border window ∷ []) directed.new.points.items directed.new.ends.items) }
{
    append_four(
        corner(window.left, window.low),
        corner(window.left, window.high),
        corner(window.right, window.high),
        corner(window.right, window.low),
        directed,
    )
}

// Appends a ring of four points.
fn append_four<A: Allocator>(
    first: Point,
    second: Point,
    third: Point,
    fourth: Point,
    directed: &mut DirectedRings<A>,
) -> Result<(), AllocError>
    ensures { (rings : List (List Point)) → AreJoined rings directed.old.points.items directed.old.ends.items →
        OnOk result (AreJoined (rings ++ (first ∷ second ∷ third ∷ fourth ∷ []) ∷ []) directed.new.points.items directed.new.ends.items) }
{
    directed.points.push(first)?;
    directed.points.push(second)?;
    directed.points.push(third)?;
    directed.points.push(fourth)?;
    directed.ends.push(directed.points.len())?;
    Ok(())
}

// The point with these coordinates.
fn corner(x: i32, y: i32) -> Point
    ensures { result ≡ record { x = x; y = y } }
{
    Point { x, y }
}

// The first point of the polygons of what is inside of the rings by the rule, if there are any.
fn first_inside<A: Allocator + Copy>(
    alloc: A,
    rings: Rings,
    rule: FillRule,
) -> Result<Option<Point>, Unchecked>
    requires { HasEnds rings }
    ensures ok { IfOk result (λ found. (polygons : List (List (List Point)))
        × IsOverlay rule Union (edges_of rings.entry) [] polygons
        × MatchOption found (polygons ≡ []) (λ _. polygons ≢ [])) }
    ensures fault { IfErr result (λ cause. cause ≡ OutOfMemory) }
{
    let mut inside = Polygons::new(alloc);
    append_inside(rings, rule, &mut inside)?;
    if inside.polygon_ends.is_empty() {
        return Ok(None);
    }
    Ok(Some(first_of(&inside.points)))
}

// The first of the points, if there are any.
fn first_of(points: &[Point]) -> Point {
    if points.is_empty() {
        return Point { x: 0, y: 0 };
    }
    points[0]
}

// Appends the polygons of what is inside of the rings by the rule, from right ends on.
fn append_inside<A: Allocator + Copy>(
    rings: Rings,
    rule: FillRule,
    out: &mut Polygons<A>,
) -> Result<(), Unchecked>
    requires { HasEnds rings }
    ensures ok { OnOk result ((polygons : List (List (List Point)))
        × IsOverlay rule Union (edges_of rings.entry) [] polygons
        × Appends polygons out.old out.new) }
    ensures fault { IfErr result (λ cause. cause ≡ OutOfMemory) }
{
    match simplify(rings, rule, out) {
        Ok(()) => Ok(()),
        Err(OverlayFault::Refused(_)) => Err(Unchecked::OutOfMemory),
        // The ends are right.
        Err(OverlayFault::Lengths) => unreachable!(),
    }
}

// A window that has points, and all of these in it or on its sides.
fn window_around(points: &[Point]) -> Window
    ensures some { HasPoints result }
    ensures all { All (IsWithin result) points.now }
{
    let mut window = Window {
        left: 0,
        low: 0,
        right: 1,
        high: 1,
    };
    // It has those so far.
    for point in points {
        window = widened_to(window, *point);
    }
    window
}

// The window widened to the point.
fn widened_to(window: Window, point: Point) -> Window
    ensures { result ≡ record {
      left = int_min window.left point.x;
      low = int_min window.low point.y;
      right = int_max window.right point.x;
      high = int_max window.high point.y;
    } }
{
    Window {
        left: window.left.min(point.x),
        low: window.low.min(point.y),
        right: window.right.max(point.x),
        high: window.high.max(point.y),
    }
}
