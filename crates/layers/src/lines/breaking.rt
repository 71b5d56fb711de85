//! The edges of lines and of rings, broken together.

ghost use Rattle.std.specs.Prelude.{◌≡◌, ◌≤◌, ◌++◌, ◌∷◌, ◌-◌, [], All, IfErr, IfOk, List, OnOk, length, map, take};
ghost use Rattle.std.specs.List.{flat_map};
ghost use Rattle.i_tree.specs.declared.Refusal.TheVariants.{OutOfMemory};
ghost use Rattle.plane.specs.declared.point.Point.{Point};
ghost use Rattle.overlay.specs.Boundary.{AllSome, StopSome};
ghost use Rattle.noding.specs.Offsets.{offsets};
ghost use Rattle.noding.specs.Windings.{pieces};
ghost use Rattle.overlay.specs.Rings.{HasEnds, rings_of};
ghost use Rattle.layers.specs.LineParts.{AreBrokenEdges, AreGathered, real_ring};
ghost use Rattle.layers.specs.Lines.{HasLines, line_edges, lines_of};

use super::Lines;
use crate::shapes::list_at;
use i_tree::Refusal;
use noding::pieces::pieces_of;
use noding::snap;
use overlay::Rings;
use overlay::boundary::broken::count_pieces;
use overlay::rings::{append_real_ones, push_real, ring_at};
use plane::edge::Edge;
use plane::point::Point;
use std::alloc::{AllocError, Allocator};

/// What the edges of lines and of rings are broken into: those of each line, one line after another, and then those of each ring;
/// how many are the lines'; where those of each line stop; and where those of each ring stop among the rings'.
#[derive(Drop)]
pub struct BrokenEdges<A: Allocator> {
    pub edges: Vec<Edge, A>,
    pub count: usize,
    pub line_ends: Vec<usize, A>,
    pub ring_ends: Vec<usize, A>,
}

/// Breaks the edges of the lines and of the rings together.
pub fn broken_edges<A: Allocator + Copy>(
    alloc: A,
    lines: Lines,
    rings: Rings,
) -> Result<BrokenEdges<A>, Refusal>
    requires lines_end { HasLines lines }
    requires rings_end { HasEnds rings }
    ensures ok { IfOk result (λ broken. AreBrokenEdges (lines_of lines.entry) (rings_of rings.entry.points.now 0 rings.entry.ends.now)
        broken.edges.items broken.count broken.line_ends.items broken.ring_ends.items) }
    ensures refused { IfErr result (λ cause. cause ≡ OutOfMemory) }
{
    let most = lines.points.len().saturating_add(rings.points.len());
    let mut edges = Vec::with_capacity(alloc, most)?;
    let mut line_ends = Vec::with_capacity(alloc, lines.ends.len())?;
    append_lines(lines, &mut edges, &mut line_ends)?;
    let count = edges.len();
    let mut ring_ends = Vec::with_capacity(alloc, rings.ends.len())?;
    append_rings(rings, &mut edges, &mut ring_ends)?;
    broken_of(alloc, &edges, count, &line_ends, &ring_ends)
}

// The same of edges in one list, of which the first `count` are the lines', by where those of each line and of each ring stop.
fn broken_of<A: Allocator + Copy>(
    alloc: A,
    edges: &[Edge],
    count: usize,
    line_ends: &[usize],
    ring_ends: &[usize],
) -> Result<BrokenEdges<A>, Refusal>
    requires { (lines : List (List Point)) × (rings : List (List Point)) × AreGathered lines rings edges.now line_ends.now ring_ends.now
        × (count ≡ length (flat_map line_edges lines)) }
    ensures ok { IfOk result (λ broken. (lines rings : List (List Point)) → AreGathered lines rings edges.now line_ends.now ring_ends.now
        → count ≡ length (flat_map line_edges lines)
        → AreBrokenEdges lines rings broken.edges.items broken.count broken.line_ends.items broken.ring_ends.items) }
    ensures refused { IfErr result (λ cause. cause ≡ OutOfMemory) }
{
    // A chain has two points at least.
    let mut points = Vec::with_capacity(alloc, edges.len().saturating_add(edges.len()))?;
    let mut ends = Vec::with_capacity(alloc, edges.len())?;
    snap(edges, &mut points, &mut ends)?;
    let pieces = pieces_of(alloc, &points, &ends)?;
    let count = count_pieces(&ends, count);
    let of_lines = counts_of(alloc, &ends, line_ends)?;
    let of_rings = counts_of(alloc, &ends, ring_ends)?;
    Ok(BrokenEdges {
        edges: pieces,
        count,
        line_ends: of_lines,
        ring_ends: moved_back(alloc, &of_rings, count)?,
    })
}

// Appends the edges of each line, and where they stop.
fn append_lines<A: Allocator>(
    lines: Lines,
    edges: &mut Vec<Edge, A>,
    ends: &mut Vec<usize, A>,
) -> Result<(), AllocError>
    requires { HasLines lines }
    ensures edges { OnOk result (edges.new.items ≡ edges.old.items ++ flat_map line_edges (lines_of lines.entry)) }
    ensures ends { OnOk result (ends.new.items ≡ ends.old.items ++ offsets (length edges.old.items) (map line_edges (lines_of lines.entry))) }
{
    // The edges of the lines before this one are appended, and where those of each stop.
    for line in 0..lines.ends.len() {
        append_line(list_at(lines.points, lines.ends, line), edges)?;
        ends.push(edges.len())?;
    }
    Ok(())
}

// Appends the edges of each ring that go from one point to another, and where they stop.
fn append_rings<A: Allocator>(
    rings: Rings,
    edges: &mut Vec<Edge, A>,
    ends: &mut Vec<usize, A>,
) -> Result<(), AllocError>
    requires { HasEnds rings }
    ensures edges { OnOk result (edges.new.items ≡ edges.old.items ++ flat_map real_ring (rings_of rings.entry.points.now 0 rings.entry.ends.now)) }
    ensures ends { OnOk result (ends.new.items ≡ ends.old.items
        ++ offsets (length edges.old.items) (map real_ring (rings_of rings.entry.points.now 0 rings.entry.ends.now))) }
{
    // The edges of the rings before this one are appended, and where those of each stop.
    for ring in 0..rings.ends.len() {
        append_real_ones(ring_at(rings.points, rings.ends, ring), edges)?;
        ends.push(edges.len())?;
    }
    Ok(())
}

// Appends the edges of the line.
fn append_line<A: Allocator>(line: &[Point], edges: &mut Vec<Edge, A>) -> Result<(), AllocError>
    ensures { OnOk result (edges.new.items ≡ edges.old.items ++ line_edges line.now) }
{
    // The edges so far that go from one point to another are appended.
    for pair in line.windows(2) {
        push_real(pair[0], pair[1], edges)?;
    }
    Ok(())
}

// How many pieces the first so many chains have, for each of these numbers.
fn counts_of<A: Allocator>(
    alloc: A,
    chain_ends: &[usize],
    numbers: &[usize],
) -> Result<Vec<usize, A>, AllocError>
    requires { All (StopSome chain_ends.now) numbers.now }
    ensures { IfOk result (λ counts. (chains : List (List Point)) → chain_ends.now ≡ offsets 0 chains → AllSome chains
        → counts.items ≡ map (λ number. length (flat_map pieces (take number chains))) numbers.now) }
{
    let mut counts = Vec::with_capacity(alloc, numbers.len())?;
    for number in numbers {
        counts.push(count_pieces(chain_ends, *number))?;
    }
    Ok(counts)
}

// The ends of lists, without so many items before the first.
fn moved_back<A: Allocator>(
    alloc: A,
    ends: &[usize],
    by: usize,
) -> Result<Vec<usize, A>, AllocError>
    requires { All (λ end. by ≤ end) ends.now }
    ensures { IfOk result (λ moved. moved.items ≡ map (λ end. end - by) ends.now) }
{
    ends.iter().map(|end| *end - by).collect(alloc)
}
