//! Rings with the points of stretches in place of their chords.

ghost use Rattle.std.specs.Prelude.{◌≡◌, ◌≢◌, ◌++◌, ◌∷◌, [], ◌<◌, List, All, Contains, IfOk, MatchOption, OnOk, get_or, length, map, reverse};
ghost use Rattle.std.specs.List.{AllZip, flat_map};
ghost use Rattle.plane.specs.declared.point.Point.{Point};
ghost use Rattle.plane.specs.Ends.{edge_between};
ghost use Rattle.plane.specs.SweepLine.Heights.{rightwards};
ghost use Rattle.noding.specs.Offsets.{AreJoined, offsets};
ghost use Rattle.monotone_chains.specs.Stretches.{GoesAlong, IsLong, IsWidened, but_last};
ghost use Rattle.monotone_chains.specs.Stretches.Cut.{IsPart, way};
ghost use Rattle.monotone_chains.specs.Stretches.Widening.{AreInOrder, HasLong, IsTable, entry_of};

use super::chords::chord_of_part;
use super::parts::Part;
use overlay::contours::next_in;
use overlay::rings::ring_at;
use plane::edge::{Edge, edge_between};
use plane::point::Point;
use plane::sweep_line::heights::turn_rightwards;
use std::alloc::{AllocError, Allocator};

/// A stretch of several edges: its chord, turned rightwards, and its place among all stretches. They are in order by their chords.
#[derive(Clone, Copy, Debug)]
pub struct LongStretch {
    pub chord: Edge,
    pub place: usize,
}

/// Appends each ring with the points of stretches in place of their chords, and where it stops. The points of the rings stand one
/// after another, and each ring stops at its end. A stretch of a single edge is its chord.
///
/// Memory that is refused is the only error, and then something may have been appended.
pub fn append_widened<A: Allocator + Copy>(
    parts: &[Part],
    ring_points: &[Point],
    ring_ends: &[usize],
    points: &mut Vec<Point, A>,
    ends: &mut Vec<usize, A>,
) -> Result<(), AllocError>
    requires parts { All IsPart parts.now }
    requires rings { (rings : List (List Point)) × AreJoined rings ring_points.now ring_ends.now }
    ensures { (rings : List (List Point)) → AreJoined rings ring_points.now ring_ends.now → OnOk result (
        (widened : List (List Point)) × AllZip (IsWidened (map way parts.entry.now)) rings widened
        × (points.new.items ≡ points.old.items ++ flat_map (λ ring. ring) widened)
        × (ends.new.items ≡ ends.old.items ++ offsets (length points.old.items) widened)) }
{
    let table = table_of(*points.allocator(), parts)?;
    // The rings before this one stand there, widened, and where each stops.
    for ring in 0..ring_ends.len() {
        append_ring(parts, &table, ring_at(ring_points, ring_ends, ring), points)?;
        ends.push(points.len())?;
    }
    Ok(())
}

// Appends the ring with the points of stretches in place of their chords.
fn append_ring<A: Allocator>(
    parts: &[Part],
    table: &[LongStretch],
    ring: &[Point],
    points: &mut Vec<Point, A>,
) -> Result<(), AllocError>
    requires { IsTable parts.now table.now }
    ensures { OnOk result ((widened : List Point) × IsWidened (map way parts.entry.now) ring.now widened
        × (points.new.items ≡ points.old.items ++ widened)) }
{
    // The points along the edges before this place are appended, of each edge all but its end.
    for (place, at) in ring.iter().enumerate() {
        append_way(parts, table, *at, next_in(ring, place), points)?;
    }
    Ok(())
}

// Appends the points along which the edge from the one point to the other goes, but the last.
fn append_way<A: Allocator>(
    parts: &[Part],
    table: &[LongStretch],
    from: Point,
    to: Point,
    points: &mut Vec<Point, A>,
) -> Result<(), AllocError>
    requires { IsTable parts.now table.now }
    ensures { OnOk result ((along : List Point) × GoesAlong (map way parts.entry.now) (edge_between from to) along
        × (points.new.items ≡ points.old.items ++ but_last along)) }
{
    match stretch_between(table, from, to) {
        Some(stretch) => append_stretch(parts[stretch.place], from, points),
        None => {
            points.push(from)?;
            Ok(())
        }
    }
}

// The stretch whose chord goes from the one point to the other, or back.
fn stretch_between(table: &[LongStretch], from: Point, to: Point) -> Option<LongStretch>
    requires { AreInOrder table.now }
    ensures { MatchOption result
        (from.x ≢ to.x → (entry : LongStretch) → Contains table.now entry → entry.chord ≢ rightwards (edge_between from to))
        (λ entry. (from.x ≢ to.x) × Contains table.now entry × (entry.chord ≡ rightwards (edge_between from to))) }
{
    if from.x == to.x {
        return None;
    }
    with_chord(table, turn_rightwards(edge_between(from, to)))
}

// The stretch with this chord.
fn with_chord(table: &[LongStretch], chord: Edge) -> Option<LongStretch>
    requires { AreInOrder table.now }
    ensures { MatchOption result ((entry : LongStretch) → Contains table.now entry → entry.chord ≢ chord)
        (λ entry. Contains table.now entry × (entry.chord ≡ chord)) }
{
    match table.binary_search_by_key(&chord, |stretch| stretch.chord) {
        Ok(place) => Some(table[place]),
        Err(_) => None,
    }
}

// Appends the points along which the part goes but the last, or back along it where it doesn't begin at this x.
fn append_stretch<A: Allocator>(
    part: Part,
    from: Point,
    points: &mut Vec<Point, A>,
) -> Result<(), AllocError>
    ensures along { part.entry.from.x ≡ from.x → OnOk result (
        points.new.items ≡ points.old.items ++ but_last (way part.entry)) }
    ensures back { part.entry.from.x ≢ from.x → OnOk result (
        points.new.items ≡ points.old.items ++ but_last (reverse (way part.entry))) }
{
    if part.from.x == from.x {
        points.push(part.from)?;
        points.extend_from_slice(part.inner)?;
        return Ok(());
    }
    points.push(part.to)?;
    append_back(part.inner, points)
}

// Appends the points from the last one back to the first.
fn append_back<A: Allocator>(inner: &[Point], points: &mut Vec<Point, A>) -> Result<(), AllocError>
    ensures { OnOk result (points.new.items ≡ points.old.items ++ reverse inner.now) }
{
    for point in inner.iter().rev() {
        points.push(*point)?;
    }
    Ok(())
}

// The stretches of several edges, in the order of their chords.
fn table_of<A: Allocator>(alloc: A, parts: &[Part]) -> Result<Vec<LongStretch, A>, AllocError>
    requires { All IsPart parts.now }
    ensures { IfOk result (λ table. IsTable parts.entry.now table.items) }
{
    let mut table = Vec::new(alloc);
    push_long(parts, &mut table)?;
    table.sort_unstable_by_key(|stretch| stretch.chord);
    Ok(table)
}

// Appends the stretches of several edges.
fn push_long<A: Allocator>(
    parts: &[Part],
    table: &mut Vec<LongStretch, A>,
) -> Result<(), AllocError>
    requires none { table.old.items ≡ [] }
    ensures { OnOk result (HasLong parts.entry.now (length parts.entry.now) table.new.items) }
{
    // The table has the long ones before this place.
    for (place, part) in parts.iter().enumerate() {
        push_if_long(*part, place, table)?;
    }
    Ok(())
}

// Appends the stretch at this place, if it has several edges.
fn push_if_long<A: Allocator>(
    part: Part,
    place: usize,
    table: &mut Vec<LongStretch, A>,
) -> Result<(), AllocError>
    ensures long { IsLong (way part.entry) → OnOk result (
        table.new.items ≡ table.old.items ++ entry_of place part.entry ∷ []) }
    ensures short { ¬ (IsLong (way part.entry)) → OnOk result (table.new.items ≡ table.old.items) }
{
    if !part.inner.is_empty() {
        let chord = turn_rightwards(chord_of_part(part));
        table.push(LongStretch { chord, place })?;
    }
    Ok(())
}
