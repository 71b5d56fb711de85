//! Rings that are cropped to a window.

ghost use Rattle.std.specs.Prelude.{◌≡◌, ◌≢◌, ◌++◌, ◌≤◌, List, IfErr, MatchBool, OnErr, OnOk, length};
ghost use Rattle.plane.specs.declared.point.Point.{Point};
ghost use Rattle.plane.specs.Lists.{Extends};
ghost use Rattle.tiles.specs.Crop.{IsCropped};
ghost use Rattle.tiles.specs.declared.window.Window.{Window};
ghost use Rattle.tiles.specs.Pushing.{GoesOn, GoesOver, HasSides, IsClosedUp, IsPushed, IsShortened};
ghost use Rattle.tiles.specs.Window.{CanCropTo, IsFault, LiesBeyond, widened};

use crate::extent::lies_beyond;
use crate::fault::CropFault;
use crate::window::Window;
use plane::point::Point;
use std::alloc::{AllocError, Allocator};

/// Appends to `out` what the ring becomes for the window: around each point of the window it winds as the ring does, and its edges
/// that are near such a point are edges of the ring.
///
/// An edge both ends of which lie beyond one side of the window, widened by 2, goes to its ends clamped into that. Each other edge
/// stays as it is. Points that repeat go, and so does a point between two others along one side of the widened window. So a ring
/// that goes round the window becomes its four corners. (No clause says that points along a side go.)
///
/// A ring all points of which lie beyond one side of the widened window, or on the line along it, becomes nothing. It costs its
/// reading alone.
///
/// Where it is refused `out` is left as it was.
pub fn crop<A: Allocator>(
    ring: &[Point],
    window: Window,
    out: &mut Vec<Point, A>,
) -> Result<(), CropFault>
    ensures ok { OnOk result (CanCropTo window × ((cropped : List Point) × IsCropped window ring.now cropped
        × (out.new.items ≡ out.old.items ++ cropped))) }
    ensures gone { OnOk result (LiesBeyond (widened window) ring.now → out.new.items ≡ out.old.items) }
    ensures err { OnErr result (out.new.items ≡ out.old.items) }
    ensures fault { IfErr result (IsFault window) }
{
    let wide = window.widened()?;
    if lies_beyond(ring, wide) {
        return Ok(());
    }
    let start = out.len();
    let outcome = append_cropped(ring, wide, out);
    if outcome.is_err() {
        out.truncate(start);
    }
    outcome?;
    Ok(())
}

// The same for a window that is widened, but where memory has no room some points may stay appended.
fn append_cropped<A: Allocator>(
    ring: &[Point],
    wide: Window,
    out: &mut Vec<Point, A>,
) -> Result<(), AllocError>
    requires { HasSides wide }
    ensures ok { (window : Window) → wide ≡ widened window →
        OnOk result ((cropped : List Point) × IsCropped window ring.now cropped × (out.new.items ≡ out.old.items ++ cropped)) }
    ensures err { OnErr result (Extends out.old.items out.new.items) }
{
    if ring.is_empty() {
        return Ok(());
    }
    let start = out.len();
    let last = ring[ring.len() - 1];
    // The edges up to this pair of points are gone over.
    for pair in ring.windows(2) {
        go_over(pair[0], pair[1], wide, start, out)?;
    }
    go_over(last, ring[0], wide, start, out)?;
    close_up(start, out);
    Ok(())
}

// Goes on over what the edge from the one point to the other goes to, with the chain that begins at `start`.
fn go_over<A: Allocator>(
    from: Point,
    to: Point,
    wide: Window,
    start: usize,
    out: &mut Vec<Point, A>,
) -> Result<(), AllocError>
    requires { start ≤ length out.old.items }
    ensures ok { (before chain : List Point) → out.old.items ≡ before ++ chain → length before ≡ start →
        OnOk result ((after : List Point) × GoesOver wide from to chain after × (out.new.items ≡ before ++ after)) }
    ensures err { (before chain : List Point) → out.old.items ≡ before ++ chain → length before ≡ start →
        OnErr result (Extends before out.new.items) }
    ensures long { OnOk result (start ≤ length out.new.items) }
{
    let (first, second) = wide.fit(from, to);
    go_on(first, wide, start, out)?;
    go_on(second, wide, start, out)
}

// Goes on to the point, with the chain that begins at `start`.
fn go_on<A: Allocator>(
    point: Point,
    wide: Window,
    start: usize,
    out: &mut Vec<Point, A>,
) -> Result<(), AllocError>
    requires { start ≤ length out.old.items }
    ensures ok { (before chain : List Point) → out.old.items ≡ before ++ chain → length before ≡ start →
        OnOk result ((after : List Point) × GoesOn wide point chain after × (out.new.items ≡ before ++ after)) }
    ensures err { (before chain : List Point) → out.old.items ≡ before ++ chain → length before ≡ start →
        OnErr result (Extends before out.new.items) }
    ensures long { OnOk result (start ≤ length out.new.items) }
{
    shorten(point, wide, start, out);
    push_other(point, start, out)
}

// Takes the last point out, if it stands between the one before it and the next one along one side.
fn shorten<A: Allocator>(next: Point, wide: Window, start: usize, out: &mut Vec<Point, A>)
    requires { start ≤ length out.old.items }
    ensures shortened { (before chain : List Point) → out.old.items ≡ before ++ chain → length before ≡ start →
        (kept : List Point) × IsShortened wide next chain kept × (out.new.items ≡ before ++ kept) }
    ensures long { start ≤ length out.new.items }
{
    let count = out.len();
    if count - start < 2 {
        return;
    }
    if wide.is_between(out[count - 2], out[count - 1], next) {
        out.truncate(count - 1);
    }
}

// Pushes the point, unless it is the last one.
fn push_other<A: Allocator>(
    point: Point,
    start: usize,
    out: &mut Vec<Point, A>,
) -> Result<(), AllocError>
    requires { start ≤ length out.old.items }
    ensures ok { (before chain : List Point) → out.old.items ≡ before ++ chain → length before ≡ start →
        OnOk result ((after : List Point) × IsPushed point chain after × (out.new.items ≡ before ++ after)) }
    ensures err { OnErr result (out.new.items ≡ out.old.items) }
    ensures long { OnOk result (start ≤ length out.new.items) }
{
    let count = out.len();
    if start < count && are_same(out[count - 1], point) {
        return Ok(());
    }
    out.push(point)?;
    Ok(())
}

// Takes the last point out, if it is the first one.
fn close_up<A: Allocator>(start: usize, out: &mut Vec<Point, A>)
    requires { start ≤ length out.old.items }
    ensures { (before chain : List Point) → out.old.items ≡ before ++ chain → length before ≡ start →
        (ring : List Point) × IsClosedUp chain ring × (out.new.items ≡ before ++ ring) }
{
    let count = out.len();
    if start < count && are_same(out[start], out[count - 1]) {
        out.truncate(count - 1);
    }
}

// Whether the two points are one.
fn are_same(one: Point, other: Point) -> bool
    ensures { MatchBool result (one ≡ other) (one ≢ other) }
{
    one.x == other.x && one.y == other.y
}
