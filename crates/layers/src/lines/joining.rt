//! The runs of kept edges of each line, as pieces.

ghost use Rattle.std.specs.Prelude.{◌≡◌, ◌≢◌, ◌<◌, ◌≤◌, ◌++◌, Bool, List, All, OnErr, OnOk, get_or, length, map};
ghost use Rattle.std.specs.List.{AllWithin, flat_map};
ghost use Rattle.plane.specs.declared.point.Point.{Point};
ghost use Rattle.plane.specs.Lists.{Extends};
ghost use Rattle.plane.specs.Ends.{end_of};
ghost use Rattle.noding.specs.Offsets.{offsets};
ghost use Rattle.overlay.specs.Rings.{AreEnds};
ghost use Rattle.layers.specs.LineParts.{AreRunsBy, AreRunsOfEach, IsPath, points_along};
ghost use Rattle.layers.specs.Lines.{Appends, AreExtended};
ghost use Rattle.layers.specs.Shapes.{lists_of};

use super::Pieces;
use crate::shapes::list_at;
use plane::edge::{Edge, end_of, start_of};
use plane::point::Point;
use std::alloc::{AllocError, Allocator};

/// Appends the runs of kept edges of each line as pieces. The ends tell where the edges of each line stop.
pub fn append_pieces<A: Allocator>(
    edges: &[Edge],
    ends: &[usize],
    kept: &[bool],
    out: &mut Pieces<A>,
) -> Result<(), AllocError>
    requires flags { length kept.now ≡ length edges.now }
    requires ends { AreEnds 0 ends.now (length edges.now) }
    requires paths { All IsPath (lists_of edges.now 0 ends.now) }
    ensures ok { OnOk result ((clipped : List (List (List Point))) × Appends clipped out.old out.new
        × AreRunsOfEach kept.now edges.now ends.now clipped) }
    ensures err { OnErr result (AreExtended out.old out.new) }
{
    // The runs of the lines before this one are appended, and where those of each stop.
    for line in 0..ends.len() {
        append_runs(
            list_at(edges, ends, line),
            list_at(kept, ends, line),
            &mut out.points,
            &mut out.piece_ends,
        )?;
        out.line_ends.push(out.piece_ends.len())?;
    }
    Ok(())
}

// Appends the runs of kept edges: the points of each, and where these stop.
fn append_runs<A: Allocator>(
    edges: &[Edge],
    kept: &[bool],
    points: &mut Vec<Point, A>,
    ends: &mut Vec<usize, A>,
) -> Result<(), AllocError>
    requires flags { length kept.now ≡ length edges.now }
    requires path { IsPath edges.now }
    ensures ok { OnOk result ((runs : List (List Point)) × AreRunsBy kept.now edges.now runs
        × (points.new.items ≡ points.old.items ++ flat_map (λ run. run) runs)
        × (ends.new.items ≡ ends.old.items ++ offsets (length points.old.items) runs)) }
    ensures err { OnErr result (Extends points.old.items points.new.items × Extends ends.old.items ends.new.items) }
{
    let mut next = place_of(kept, true, 0);
    // The runs before `next` are appended, and there one begins, if there are more.
    while next < edges.len() {
        let end = place_of(kept, false, next);
        append_points(&edges[next..end], points)?;
        ends.push(points.len())?;
        next = place_of(kept, true, end);
    }
    Ok(())
}

// The first place from the start on where this flag stands, or how many flags there are.
fn place_of(flags: &[bool], flag: bool, start: usize) -> usize
    requires { start ≤ length flags.now }
    ensures from { start ≤ result }
    ensures within { result ≤ length flags.now }
    ensures others { AllWithin (λ other. other ≢ flag) flags.now start result }
    ensures found { (default : Bool) → result < length flags.now → get_or flags.now result default ≡ flag }
{
    let mut place = start;
    // From the start up to this place the flag doesn't stand.
    while place < flags.len() && flags[place] != flag {
        place += 1;
    }
    place
}

// Appends the points along edges that follow each other: where the first begins, and where each ends.
fn append_points<A: Allocator>(edges: &[Edge], points: &mut Vec<Point, A>) -> Result<(), AllocError>
    ensures ok { OnOk result (points.new.items ≡ points.old.items ++ points_along edges.now) }
    ensures err { OnErr result (Extends points.old.items points.new.items) }
{
    if edges.is_empty() {
        return Ok(());
    }
    points.push(start_of(edges[0]))?;
    append_ends(edges, points)
}

// Appends the points where the edges end.
fn append_ends<A: Allocator>(edges: &[Edge], points: &mut Vec<Point, A>) -> Result<(), AllocError>
    ensures ok { OnOk result (points.new.items ≡ points.old.items ++ map end_of edges.now) }
    ensures err { OnErr result (Extends points.old.items points.new.items) }
{
    for edge in edges {
        points.push(end_of(*edge))?;
    }
    Ok(())
}
