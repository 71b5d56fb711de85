//! Edges along one line, cut where any of them begins or ends.

ghost use Rattle.std.specs.Prelude.{◌≡◌, ◌++◌, ◌*◌, ◌<◌, ◌≤◌, ◌^◌, ◌-ℤ◌, ◌≤ℤ◌, ◌<ℤ◌, pos, All, IfOk, IsPermutation, OnOk, drop, length, take};
ghost use Rattle.overlay.specs.declared.fill.pieces.Operand.TheVariants.{Subject, Clip};
ghost use Rattle.overlay.specs.Joined.{onwards};
ghost use Rattle.overlay.specs.Lines.{AppendsTold, AreInOrder, Fit, IsSmallChange, IsSmallRun, TellAs, all_stretches, change_at, changes_of, end_place, is_level, is_upright, line_of, longer, no_run, piece_between, plus, point_at, run_changes, run_end, run_start, start_place, stretch_between};

use crate::fill::pieces::{Operand, Piece, countable, is_same, room_for, sum, weight};
use plane::edge::{Edge, edge_between, end_of, reverse, start_of};
use plane::point::Point;
use plane::sweep_line::heights::turn_rightwards;
use std::alloc::{AllocError, Allocator};
use std::cmp::Ordering;

// A run has at most so many edges, so that their count has room in a byte.
const LONGEST_RUN: i8 = 127;

/// A place on a line. Of an edge along an axis the line is the longest one along it, and the place is told by its coordinate
/// there. Any other edge is a line of its own, which starts at 0 and ends at 1.
#[derive(Clone, Copy, Debug, PartialEq, Eq, PartialOrd, Ord)]
pub struct Place {
    pub line: Edge,
    pub along: i32,
}

/// What begins at a place, less what ends there: how many edges, and what they weigh in subject and clip.
#[derive(Clone, Copy, Debug)]
pub struct Change {
    pub place: Place,
    pub count: i8,
    pub subject: i8,
    pub clip: i8,
}

/// Edges that follow each other and are one edge onwards: this edge, how many they are, and what they weigh.
#[derive(Clone, Copy, Debug)]
pub struct Run {
    pub edge: Edge,
    pub count: i8,
    pub weight: i8,
}

/// How many edges there are at a place, and what they weigh in subject and clip.
#[derive(Clone, Copy, Debug)]
pub struct Sums {
    pub count: i64,
    pub subject: i64,
    pub clip: i64,
}

/// The changes that the edges make: each begins somewhere and ends somewhere. The first `count` of them are the subject's. Where
/// edges of one of the two follow each other and are one edge, a change stands for many of them. It is refused, too, if the changes
/// are so many that a sum of them may have more than 63 bits.
pub fn changes_of<A: Allocator>(
    alloc: A,
    edges: &[Edge],
    count: usize,
) -> Result<Vec<Change, A>, AllocError>
    requires { count ≤ length edges.now }
    ensures tell { IfOk result (λ changes. TellAs changes.items (changes_of Subject (take count edges.now) ++ changes_of Clip (drop count edges.now))) }
    ensures small { IfOk result (λ changes. All IsSmallChange changes.items) }
    ensures few { IfOk result (λ changes. 127 * length changes.items < 2 ^ 63) }
{
    let mut changes = Vec::with_capacity(alloc, room_for(edges, edges)?)?;
    append_changes(&edges[..count], Operand::Subject, &mut changes)?;
    append_changes(&edges[count..], Operand::Clip, &mut changes)?;
    countable(LONGEST_RUN as usize, changes.len())?;
    Ok(changes)
}

// Appends the two changes of each run of edges.
fn append_changes<A: Allocator>(
    edges: &[Edge],
    operand: Operand,
    changes: &mut Vec<Change, A>,
) -> Result<(), AllocError>
    ensures { OnOk result (AppendsTold operand edges.now changes.old.items changes.new.items) }
{
    let mut run = no_run(Edge {
        x0: 0,
        y0: 0,
        x1: 0,
        y1: 0,
    });
    // The last of the edges so far are the run, and the changes of those before are appended.
    for edge in edges {
        let line = onwards(*edge);
        if run.count == LONGEST_RUN || !is_same(line, run.edge) {
            push_run(run, operand, changes)?;
            run = no_run(line);
        }
        run = longer(run, *edge);
    }
    push_run(run, operand, changes)
}

// A run of this edge that has none yet.
fn no_run(line: Edge) -> Run
    ensures { result ≡ no_run line }
{
    Run {
        edge: line,
        count: 0,
        weight: 0,
    }
}

// The run with one edge more.
fn longer(run: Run, edge: Edge) -> Run
    requires small { IsSmallRun run }
    requires room { run.count <ℤ pos 127 }
    ensures { result ≡ longer run edge }
{
    Run {
        edge: run.edge,
        count: run.count + 1,
        weight: run.weight + small(weight(edge)),
    }
}

// Appends what changes where the run begins and where it ends, if it has an edge.
fn push_run<A: Allocator>(
    run: Run,
    operand: Operand,
    changes: &mut Vec<Change, A>,
) -> Result<(), AllocError>
    requires { IsSmallRun run }
    ensures { OnOk result (changes.new.items ≡ changes.old.items ++ run_changes operand run) }
{
    if run.count == 0 {
        return Ok(());
    }
    changes.push(run_start(run, operand))?;
    changes.push(run_end(run, operand))?;
    Ok(())
}

// What changes where the run begins.
fn run_start(run: Run, operand: Operand) -> Change
    ensures { result ≡ run_start operand run }
{
    change_at(start_place(run.edge), operand, run.count, run.weight)
}

// What changes where the run ends.
fn run_end(run: Run, operand: Operand) -> Change
    requires { IsSmallRun run }
    ensures { result ≡ run_end operand run }
{
    change_at(end_place(run.edge), operand, 0 - run.count, 0 - run.weight)
}

// So many edges of the operand begin at the place, and weigh so much.
fn change_at(place: Place, operand: Operand, count: i8, weight: i8) -> Change
    ensures { result ≡ change_at operand place count weight }
{
    match operand {
        Operand::Subject => Change {
            place,
            count,
            subject: weight,
            clip: 0,
        },
        Operand::Clip => Change {
            place,
            count,
            subject: 0,
            clip: weight,
        },
    }
}

// A weight of one edge in a byte.
fn small(weight: i64) -> i8
    requires from { (pos 0 -ℤ pos 1) ≤ℤ weight }
    requires upto { weight ≤ℤ pos 1 }
    ensures { result ≡ weight }
{
    weight as i8
}

/// The edge from its lesser end along x to its greater one; a vertical one from its lower end upwards.
pub fn onwards(edge: Edge) -> Edge
    ensures { result ≡ onwards edge }
{
    if edge.x0 != edge.x1 {
        return turn_rightwards(edge);
    }
    if edge.y1 < edge.y0 {
        return reverse(edge);
    }
    edge
}

/// Where an edge starts that goes onwards.
pub fn start_place(edge: Edge) -> Place
    ensures { result ≡ start_place edge }
{
    let line = line_of(edge);
    if is_level(edge) {
        return Place {
            line,
            along: edge.x0,
        };
    }
    if is_upright(edge) {
        return Place {
            line,
            along: edge.y0,
        };
    }
    Place { line, along: 0 }
}

/// Where an edge ends that goes onwards.
pub fn end_place(edge: Edge) -> Place
    ensures { result ≡ end_place edge }
{
    let line = line_of(edge);
    if is_level(edge) {
        return Place {
            line,
            along: edge.x1,
        };
    }
    if is_upright(edge) {
        return Place {
            line,
            along: edge.y1,
        };
    }
    Place { line, along: 1 }
}

// The longest edge along the axis that the edge runs along, or else the edge.
fn line_of(edge: Edge) -> Edge
    ensures { result ≡ line_of edge }
{
    if is_level(edge) {
        return Edge {
            x0: i32::MIN,
            y0: edge.y0,
            x1: i32::MAX,
            y1: edge.y0,
        };
    }
    if is_upright(edge) {
        return Edge {
            x0: edge.x0,
            y0: i32::MIN,
            x1: edge.x0,
            y1: i32::MAX,
        };
    }
    edge
}

// Whether the edge runs along x. A point doesn't.
fn is_level(edge: Edge) -> bool
    ensures { result ≡ is_level edge }
{
    edge.y0 == edge.y1 && edge.x0 != edge.x1
}

// Whether the edge runs along y.
fn is_upright(edge: Edge) -> bool
    ensures { result ≡ is_upright edge }
{
    edge.x0 == edge.x1 && edge.y0 != edge.y1
}

/// Puts the changes in the order of their places: those of one line one after another, along it.
pub fn sort_changes(changes: &mut [Change])
    ensures same { IsPermutation changes.old changes.new }
    ensures order { AreInOrder changes.new }
{
    changes.sort_unstable_by(|one: &Change, other: &Change| -> Ordering {
        one.place.cmp(&other.place)
    });
}

/// The stretches between places at which something changes and the next ones: those that some edge goes over, with what all of
/// these weigh.
pub fn stretches_of<A: Allocator>(alloc: A, changes: &[Change]) -> Result<Vec<Piece, A>, AllocError>
    requires small { All IsSmallChange changes.now }
    requires few { 127 * length changes.now < 2 ^ 63 }
    ensures { IfOk result (λ stretches. stretches.items ≡ all_stretches changes.now) }
{
    let mut stretches = Vec::with_capacity(alloc, changes.len())?;
    if changes.is_empty() {
        return Ok(stretches);
    }
    let mut from = changes[0].place;
    let mut sums = Sums {
        count: 0,
        subject: 0,
        clip: 0,
    };
    // Of the edges that begin upto `from` the sums are those that don't end there.
    for change in changes {
        push_stretch(from, change.place, sums, &mut stretches)?;
        sums = plus(sums, *change);
        from = change.place;
    }
    Ok(stretches)
}

// Appends the stretch from the one place to the next one, if it is one, and some edge goes over it.
fn push_stretch<A: Allocator>(
    from: Place,
    to: Place,
    sums: Sums,
    stretches: &mut Vec<Piece, A>,
) -> Result<(), AllocError>
    ensures { OnOk result (stretches.new.items ≡ stretches.old.items ++ stretch_between from to sums) }
{
    if sums.count == 0 || from == to {
        return Ok(());
    }
    stretches.push(piece_between(from, to, sums))?;
    Ok(())
}

// The stretch as a piece.
fn piece_between(from: Place, to: Place, sums: Sums) -> Piece
    ensures { result ≡ piece_between from to sums }
{
    Piece {
        edge: edge_between(point_at(from), point_at(to)),
        subject: sums.subject,
        clip: sums.clip,
    }
}

// The point at a place.
fn point_at(place: Place) -> Point
    ensures { result ≡ point_at place }
{
    if is_level(place.line) {
        return Point {
            x: place.along,
            y: place.line.y0,
        };
    }
    if is_upright(place.line) {
        return Point {
            x: place.line.x0,
            y: place.along,
        };
    }
    if place.along == 0 {
        return start_of(place.line);
    }
    end_of(place.line)
}

// The sums behind a place at which something changes.
fn plus(sums: Sums, change: Change) -> Sums
    requires { Fit sums change }
    ensures { result ≡ plus sums change }
{
    Sums {
        count: sum(sums.count, change.count as i64),
        subject: sum(sums.subject, change.subject as i64),
        clip: sum(sums.clip, change.clip as i64),
    }
}
