//! Rings cut into parts, whose points follow each other along x.

ghost use Rattle.std.specs.Bool.{OnTrue};
ghost use Rattle.std.specs.Prelude.{◌≡◌, ◌<◌, ◌≤◌, ◌+◌, ◌<ℤ◌, suc, IfOk, OnOk, IsTrue, MatchBool, length};
ghost use Rattle.std.specs.List.{between};
ghost use Rattle.overlay.specs.Contours.Rings.{real_edges, ring_edges};
ghost use Rattle.noding.specs.Windings.{pieces};
ghost use Rattle.monotone_chains.specs.Stretches.{Falls, IsStretch, Rises};
ghost use Rattle.monotone_chains.specs.Stretches.Cut.{AppendsParts, IsCutInParts, IsPart, IsPoint, way};

use super::parts::{Part, count_edges, part_between, part_within};
use plane::point::Point;
use std::alloc::{AllocError, Allocator};

/// How many edges a run has at least that isn't cut into single edges.
const SHORTEST: usize = 4;

/// Appends parts of the ring's edges, each of so many edges at most, and tells whether these are all. It gives up where there would
/// be more parts than so many. An edge from a point to itself is in no part.
///
/// Points along which x rises, or falls, are a run. Where a ring turns back, the last edge of one run and the first one of the next
/// lie near each other: so both stand alone, and what lies between them is cut.
///
/// Memory that is refused is the only error.
pub fn append_parts<'a, A: Allocator>(
    ring: &'a [Point],
    most: usize,
    limit: usize,
    parts: &mut Vec<Part<'a>, A>,
) -> Result<bool, AllocError>
    requires { 0 < most }
    ensures { IfOk result (λ are_all. IsTrue are_all
        → AppendsParts (real_edges (ring_edges ring.now)) parts.old.items parts.new.items) }
{
    if ring.is_empty() {
        return Ok(true);
    }
    if !append_runs(ring, most, limit, parts)? {
        return Ok(false);
    }
    let closing = Part {
        from: ring[ring.len() - 1],
        inner: &[],
        to: ring[0],
    };
    append_run(closing, most, parts)?;
    Ok(true)
}

// Appends parts of the edges from each point to the next.
fn append_runs<'a, A: Allocator>(
    points: &'a [Point],
    most: usize,
    limit: usize,
    parts: &mut Vec<Part<'a>, A>,
) -> Result<bool, AllocError>
    requires some { 0 < length points.now }
    requires most { 0 < most }
    ensures { IfOk result (λ are_all. IsTrue are_all
        → AppendsParts (real_edges (pieces points.now)) parts.old.items parts.new.items) }
{
    let last = points.len() - 1;
    let mut next = 0;
    // The parts are of the edges up to `next`, where a run begins.
    while next < last {
        if parts.len() > limit {
            return Ok(false);
        }
        let end = run_end(points, next);
        append_run(part_between(points, next, end), most, parts)?;
        next = end;
    }
    Ok(true)
}

// Where the run that begins at this place stops.
fn run_end(points: &[Point], from: usize) -> usize
    requires { suc from < length points.now }
    ensures some { from < result }
    ensures within { result < length points.now }
    ensures run { IsStretch (between from (result + 1) points.now) }
{
    let first = points[from].x;
    let second = points[from + 1].x;
    if first < second {
        return rise_end(points, from);
    }
    if second < first {
        return fall_end(points, from);
    }
    from + 1
}

// Where x, which rises from this place to the next, rises no more.
fn rise_end(points: &[Point], from: usize) -> usize
    requires within { suc from < length points.now }
    requires rises { Rises (between from (from + 2) points.now) }
    ensures some { from < result }
    ensures within { result < length points.now }
    ensures rises { Rises (between from (result + 1) points.now) }
{
    let mut end = from + 1;
    // Up to `end` x rises.
    while end + 1 < points.len() && points[end].x < points[end + 1].x {
        end += 1;
    }
    end
}

// Where x, which falls from this place to the next, falls no more.
fn fall_end(points: &[Point], from: usize) -> usize
    requires within { suc from < length points.now }
    requires falls { Falls (between from (from + 2) points.now) }
    ensures some { from < result }
    ensures within { result < length points.now }
    ensures falls { Falls (between from (result + 1) points.now) }
{
    let mut end = from + 1;
    // Up to `end` x falls.
    while end + 1 < points.len() && points[end + 1].x < points[end].x {
        end += 1;
    }
    end
}

// Appends parts of a run, if it isn't an edge from a point to itself.
fn append_run<'a, A: Allocator>(
    run: Part<'a>,
    most: usize,
    parts: &mut Vec<Part<'a>, A>,
) -> Result<(), AllocError>
    requires run { IsPart run }
    requires most { 0 < most }
    ensures { OnOk result (AppendsParts (real_edges (pieces (way run.entry))) parts.old.items parts.new.items) }
{
    if is_point(run) {
        return Ok(());
    }
    cut_run(run, most, parts)
}

// Whether the part is an edge from a point to itself.
fn is_point(part: Part) -> bool
    ensures { MatchBool result (IsPoint part.entry) (¬ (IsPoint part.entry)) }
{
    part.inner.is_empty() && part.from == part.to
}

// Appends parts of a run: its first edge and its last one stand alone, and so do all of a short one.
fn cut_run<'a, A: Allocator>(
    run: Part<'a>,
    most: usize,
    parts: &mut Vec<Part<'a>, A>,
) -> Result<(), AllocError>
    requires run { IsPart run }
    requires most { 0 < most }
    ensures { OnOk result (AppendsParts (pieces (way run.entry)) parts.old.items parts.new.items) }
{
    let edges = count_edges(run);
    if edges < SHORTEST {
        return cut_part(run, 0, edges, 1, parts);
    }
    cut_part(run, 0, 1, 1, parts)?;
    cut_part(run, 1, edges - 1, most, parts)?;
    cut_part(run, edges - 1, edges, 1, parts)
}

/// Appends parts of so many edges of a part, from the point at the one place up to that at the other.
pub fn cut_part<'a, A: Allocator>(
    part: Part<'a>,
    from: usize,
    upto: usize,
    most: usize,
    parts: &mut Vec<Part<'a>, A>,
) -> Result<(), AllocError>
    requires part { IsPart part }
    requires order { from < upto }
    requires within { upto ≤ suc (length part.inner.now) }
    requires most { 0 < most }
    ensures { OnOk result (IsCutInParts (between from (upto + 1) (way part.entry)) most parts.old.items parts.new.items) }
{
    let mut next = from;
    // Up to `next` the part is cut.
    while next < upto {
        let end = part_end(next, upto, most);
        parts.push(part_within(part, next, end))?;
        next = end;
    }
    Ok(())
}

// Where a part of so many edges stops, or before the other place.
fn part_end(from: usize, upto: usize, most: usize) -> usize
    requires order { from < upto }
    requires some { 0 < most }
    ensures some { from < result }
    ensures within { result ≤ upto }
    ensures few { result ≤ from + most }
{
    if upto - from < most {
        return upto;
    }
    from + most
}
