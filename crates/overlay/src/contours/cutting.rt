//! Loops of a walk, cut off as rings.

ghost use Rattle.std.specs.Prelude.{◌≡◌, ◌++◌, ◌∷◌, [], ◌+◌, ◌<◌, All, IsPermutation, List, OnErr, OnOk, drop, get_or, length, map};
ghost use Rattle.std.specs.List.{flat_map};
ghost use Rattle.plane.specs.declared.point.Point.{Point};
ghost use Rattle.overlay.specs.Contours.Order.{IsCorner, point_at};
ghost use Rattle.overlay.specs.Contours.Rings.{ring_edges};
ghost use Rattle.overlay.specs.Contours.Walks.{AreAppended, IsMarked, IsOff, path};
ghost use Rattle.plane.specs.Lists.{Extends};

use plane::edge::{Edge, start_of};
use plane::point::Point;
use std::alloc::{AllocError, Allocator};

/// Where the walk is back at one of its corners, appends the loop from there on as a ring, and takes it off the walk.
pub fn cut_loop<A: Allocator>(
    sorted: &[Edge],
    corner: usize,
    marks: &[usize],
    stack: &mut Vec<usize, A>,
    points: &mut Vec<Point, A>,
    ring_ends: &mut Vec<usize, A>,
) -> Result<(), AllocError>
    requires walk { IsMarked sorted.now marks.now stack.old.items }
    requires at { IsCorner sorted.now corner }
    ensures ok { OnOk result ((rings : List (List Point))
        × AreAppended rings points.old.items points.new.items ring_ends.old.items ring_ends.new.items
        × IsPermutation (flat_map ring_edges rings ++ path sorted.now stack.new.items corner)
        (path sorted.now stack.old.items corner)
        × IsMarked sorted.now marks.now stack.new.items × IsOff stack.new.items corner
        × (get_or (stack.new.items ++ corner ∷ []) 0 0 ≡ get_or (stack.old.items ++ corner ∷ []) 0 0)) }
    ensures err { OnErr result (Extends points.old.items points.new.items
        × Extends ring_ends.old.items ring_ends.new.items) }
{
    let mark = marks[corner];
    if mark < stack.len() && stack[mark] == corner {
        append_ring(sorted, &stack[mark..], points, ring_ends)?;
        stack.truncate(mark);
    }
    Ok(())
}

// Appends the points of these corners, and where they stop.
fn append_ring<A: Allocator>(
    sorted: &[Edge],
    corners: &[usize],
    points: &mut Vec<Point, A>,
    ring_ends: &mut Vec<usize, A>,
) -> Result<(), AllocError>
    requires { All (λ corner. corner < length sorted.now) corners.now }
    ensures ok { OnOk result ((points.new.items ≡ points.old.items ++ map (point_at sorted.now) corners.now)
        × (ring_ends.new.items ≡ ring_ends.old.items ++ (length points.old.items + length corners.now) ∷ [])) }
    ensures err { OnErr result (Extends points.old.items points.new.items
        × Extends ring_ends.old.items ring_ends.new.items) }
{
    for corner in corners {
        points.push(start_of(sorted[*corner]))?;
    }
    ring_ends.push(points.len())?;
    Ok(())
}
