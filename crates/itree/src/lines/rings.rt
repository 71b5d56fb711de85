//! The lines of rings, of a shape and of paths, and the replies to them: polygons.

ghost use Rattle.std.specs.Prelude.{◌≡◌, ◌≢◌, ◌≤◌, ◌<◌, ◌⊎◌, ◌++◌, [], ◌∷◌, true, false, ℕ, List, Option, IfErr, IfOk, OnOk, flat_map, get_or, length, map, string_bytes, take};
ghost use Rattle.std.specs.List.{between};
ghost use Rattle.std.specs.Option.{option_to_list};
ghost use Rattle.itree.specs.Grammar.{ReadsAll, LineSays, IsFaulty, lines_of, LinesSay, IsFirstFaulty};
ghost use Rattle.itree.specs.Replies.{polygon_lines, ring_line};
ghost use Rattle.itree.specs.RingLines.{RingLine, SaysRing, coordinates, Holds, HoldsSaid, other_name, subject_name};
ghost use Rattle.noding.specs.Offsets.{AreJoined, offsets};
ghost use Rattle.plane.specs.declared.point.Point.{Point};
ghost use Rattle.overlay.specs.Polygons.{rings_of};

use super::points::{points_between, push_points};
use super::{ascii_text, cut_line, line_words, two_numbers};
use crate::fault::Fault;
use overlay::{Polygons, Rings};
use plane::point::Point;
use std::alloc::{AllocError, Allocator};

/// Rings: the points of all of them, one ring after another, and where each stops among these.
#[derive(Drop)]
pub struct RingList<A: Allocator> {
    pub points: Vec<Point, A>,
    pub ends: Vec<usize, A>,
}

/// Which rings the lines of a text say.
#[derive(Clone, Copy, Debug, PartialEq, Eq)]
pub enum RingKind {
    /// Those of a subject and of a clip.
    Overlay,
    /// Those of a subject, and the corners of a shape.
    Growth,
    /// Paths, which are no rings, and the corners of a shape.
    Paths,
}

impl RingKind {
    // The word that begins a line of the subject.
    fn subject(self) -> &'static str
        ensures { result.now ≡ subject_name self }
    {
        match self {
            RingKind::Overlay | RingKind::Growth => "subject",
            RingKind::Paths => "line",
        }
    }

    // The word that begins a line of what is taken with it.
    fn other(self) -> &'static str
        ensures { result.now ≡ other_name self }
    {
        match self {
            RingKind::Overlay => "clip",
            RingKind::Growth | RingKind::Paths => "shape",
        }
    }
}

/// The rings that lines say: those of the subject, and the others, of the clip or of a shape.
#[derive(Drop)]
pub struct SaidRings<A: Allocator> {
    pub subject: RingList<A>,
    pub other: RingList<A>,
}

impl<A: Allocator + Copy> RingList<A> {
    /// No rings.
    fn new(alloc: A) -> RingList<A>
        ensures { Holds result [] }
    {
        RingList {
            points: Vec::new(alloc),
            ends: Vec::new(alloc),
        }
    }
}

impl<A: Allocator> RingList<A> {
    /// The rings, for a call.
    pub fn rings(&self) -> Rings<'_>
        ensures points { result.points.now ≡ self.now.points.items }
        ensures ends { result.ends.now ≡ self.now.ends.items }
    {
        Rings {
            points: &self.points,
            ends: &self.ends,
        }
    }

    // Takes the ring behind the others whose points the words say, each by its x and its y, and tells whether they say one.
    fn take_ring(&mut self, words: &[&str]) -> Result<bool, AllocError>
        ensures taken { IfOk result (λ is_ring. is_ring ≡ true → (ring : List Point)
            × ReadsAll (map (λ word. word.now) words.now) (coordinates ring)
            × ((rings : List (List Point)) → Holds self.old rings → Holds self.new (rings ++ ring ∷ []))) }
        ensures untaken { IfOk result (λ is_ring. is_ring ≡ false → (ring : List Point) →
            ¬ (ReadsAll (map (λ word. word.now) words.now) (coordinates ring))) }
    {
        // The points of the words before are appended.
        for pair in words.chunks(2) {
            let Some((x, y)) = two_numbers(pair) else {
                return Ok(false);
            };
            self.points.push(Point { x, y })?;
        }
        self.ends.push(self.points.len())?;
        Ok(true)
    }
}

impl<A: Allocator> SaidRings<A> {
    // Takes the ring that the words of a line say, and tells whether they say one.
    fn take_words(&mut self, kind: RingKind, words: &[&str]) -> Result<bool, AllocError>
        ensures taken { IfOk result (λ is_ring. is_ring ≡ true → (ring : RingLine)
            × SaysRing kind (map (λ word. word.now) words.now) ring
            × ((said : List RingLine) → HoldsSaid self.old said → HoldsSaid self.new (said ++ ring ∷ []))) }
        ensures untaken { IfOk result (λ is_ring. is_ring ≡ false → (ring : RingLine) →
            ¬ (SaysRing kind (map (λ word. word.now) words.now) ring)) }
    {
        let Some((name, rest)) = words.split_first() else {
            return Ok(false);
        };
        if *name == kind.subject() {
            return self.subject.take_ring(rest);
        }
        if *name == kind.other() {
            return self.other.take_ring(rest);
        }
        Ok(false)
    }
}

/// The rings of this kind that the lines of a text say, as `parse_commands` reads lines.
pub fn parse_rings<A: Allocator + Copy>(
    alloc: A,
    kind: RingKind,
    text: &[u8],
) -> Result<SaidRings<A>, Fault>
    ensures said { IfOk result (λ rings. (said : List RingLine) × LinesSay (SaysRing kind) (lines_of text.now) said
        × HoldsSaid rings said) }
    ensures faulty { (number : ℕ) → result ≡ Err (Fault.Line number) →
        IsFirstFaulty (SaysRing kind) (lines_of text.now) number }
    ensures err { IfErr result (λ fault. (fault ≡ Fault.Memory) ⊎ ((number : ℕ) × (fault ≡ Fault.Line number))) }
{
    let mut rings = SaidRings {
        subject: RingList::new(alloc),
        other: RingList::new(alloc),
    };
    let mut number = 0;
    let mut rest = Some(text);
    // The rings are those of the first `number` lines, and `rest` has the others.
    'lines: while let Some(left) = rest {
        let (line, after) = cut_line(left);
        number += 1;
        take_line(alloc, kind, number, line, &mut rings)?;
        rest = after;
    }
    Ok(rings)
}

// Takes the ring that the line of this number says, where it has words.
fn take_line<A: Allocator + Copy>(
    alloc: A,
    kind: RingKind,
    number: usize,
    line: &[u8],
    rings: &mut SaidRings<A>,
) -> Result<(), Fault>
    ensures said { OnOk result ((ring : Option RingLine) × LineSays (SaysRing kind) line.now ring
        × ((said : List RingLine) → HoldsSaid rings.old said → HoldsSaid rings.new (said ++ option_to_list ring))) }
    ensures faulty { result ≡ Err (Fault.Line number) → IsFaulty (SaysRing kind) line.now }
    ensures err { IfErr result (λ fault. (fault ≡ Fault.Line number) ⊎ (fault ≡ Fault.Memory)) }
{
    let text = ascii_text(line).ok_or(Fault::Line(number))?;
    let words = line_words(alloc, text)?;
    if words.is_empty() {
        return Ok(());
    }
    if !rings.take_words(kind, &words)? {
        return Err(Fault::Line(number));
    }
    Ok(())
}

/// The lines of the polygons: for each its outer ring, and behind it its holes.
pub fn polygon_text<A: Allocator + Copy>(
    alloc: A,
    polygons: &Polygons<A>,
) -> Result<String<A>, AllocError>
    requires { (all : List (List (List Point))) × AreJoined (rings_of all) polygons.now.points.items polygons.now.ring_ends.items
        × AreJoined all (rings_of all) polygons.now.polygon_ends.items }
    ensures { IfOk result (λ text. (all : List (List (List Point))) →
        AreJoined (rings_of all) polygons.now.points.items polygons.now.ring_ends.items →
        AreJoined all (rings_of all) polygons.now.polygon_ends.items → string_bytes text ≡ flat_map polygon_lines all) }
{
    let mut text = String::new(alloc);
    let mut first = 0;
    // The text has the polygons before, whose rings stop at `first`.
    for end in &polygons.polygon_ends {
        push_polygon(
            &mut text,
            &polygons.points,
            &polygons.ring_ends,
            first,
            *end,
        )?;
        first = *end;
    }
    Ok(text)
}

// Appends the lines of the polygon whose rings are those from the one place on, and before the other.
fn push_polygon<A: Allocator>(
    text: &mut String<A>,
    points: &[Point],
    ends: &[usize],
    first: usize,
    end: usize,
) -> Result<(), AllocError>
    requires { (rings : List (List Point)) × AreJoined rings points.now ends.now × (first ≤ end) × (end ≤ length ends.now) }
    ensures { OnOk result ((rings : List (List Point)) → AreJoined rings points.now ends.now →
        string_bytes text.new ≡ string_bytes text.old ++ polygon_lines (between first end rings)) }
{
    // The text has the rings of the polygon before this one.
    for place in first..end {
        push_ring(text, place == first, ring_at(points, ends, place))?;
    }
    Ok(())
}

// Appends the line of a ring, which is the outer one of its polygon, or a hole.
fn push_ring<A: Allocator>(
    text: &mut String<A>,
    is_outer: bool,
    points: &[Point],
) -> Result<(), AllocError>
    ensures { OnOk result (string_bytes text.new ≡ string_bytes text.old ++ ring_line is_outer points.now) }
{
    if is_outer {
        push_points(text, "polygon", points)?;
    } else {
        push_points(text, "hole", points)?;
    }
    text.push_str("\n")
}

// The points of the ring at this place.
fn ring_at<'a>(points: &'a [Point], ends: &[usize], place: usize) -> &'a [Point]
    requires { (rings : List (List Point)) × AreJoined rings points.now ends.now × (place < length ends.now) }
    ensures { (rings : List (List Point)) → AreJoined rings points.now ends.now → result.now ≡ get_or rings place [] }
{
    points_between(points, ring_start(ends, place), ends[place])
}

// Where the ring at this place begins.
fn ring_start(ends: &[usize], place: usize) -> usize
    requires { place ≤ length ends.now }
    ensures { (rings : List (List Point)) → ends.now ≡ offsets 0 rings →
        result ≡ length (flat_map (λ ring. ring) (take place rings)) }
{
    if place == 0 {
        return 0;
    }
    ends[place - 1]
}
