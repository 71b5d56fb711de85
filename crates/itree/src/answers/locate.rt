//! What the program answers to points among edges.

ghost use Rattle.std.specs.Prelude.{◌≡◌, ◌⊎◌, ◌<◌, ℕ, IfErr, IfOk, get_or, length, map, string_bytes};
ghost use Rattle.itree.specs.Answers.{AnswersLocate};
ghost use Rattle.itree.specs.Grammar.{lines_of, LinesSay};
ghost use Rattle.itree.specs.LocateLines.{SaysLocateLine, edges_of, points_of, AreCrossingLines};
ghost use Rattle.itree.specs.LocateLines.{edge_lines as lines_of_edges, edge_numbers as numbers_of_edges};
ghost use Rattle.itree.specs.Told.{number_at as told_at};

use crate::fault::Fault;
use crate::lines::{LocateLine, command_lines, reply_text};
use i_tree::status::exp::StatusCollection;
use plane::edge::Edge;
use plane::locate::{ActiveEdge, LocateFault, Point, locate};
use std::alloc::{AllocError, Allocator};

/// The text of the replies to the points that the lines of the text say, among the edges that they say.
///
/// The answer is `Fault::Cross` with the numbers of two lines that say edges which cross, or `Fault::Memory` where memory
/// was refused.
pub fn answer_locate<A: Allocator + Copy, C: StatusCollection<ActiveEdge, i64, ()>>(
    alloc: A,
    status: &mut C,
    text: &[u8],
    said: &[LocateLine],
) -> Result<String<A>, Fault>
    requires { LinesSay SaysLocateLine (lines_of text.now) said.now }
    ensures answered { IfOk result (λ output. AnswersLocate (lines_of text.now) said.now (string_bytes output)) }
    ensures crossing { (first second : ℕ) → result ≡ Err (Fault.Cross first second) →
        AreCrossingLines (lines_of text.now) first second }
    ensures err { IfErr result (λ fault. (fault ≡ Fault.Memory)
        ⊎ ((first : ℕ) × (second : ℕ) × (fault ≡ Fault.Cross first second))) }
{
    let edges = edges_in(alloc, said)?;
    let points = points_in(alloc, said)?;
    let numbers = edge_lines(alloc, text, said)?;
    let mut places = Vec::new(alloc);
    match locate(status, &edges, &points, &mut places) {
        Ok(()) => {
            let replies = numbers_at(alloc, &places, &numbers)?;
            Ok(reply_text(alloc, &replies)?)
        }
        Err(LocateFault::Refused(_)) => Err(Fault::Memory),
        Err(LocateFault::Cross(one, other)) => Err(crossing(&numbers, one, other)),
    }
}

// The fault that the edges at these places cross, where the lines that say edges have these numbers.
fn crossing(numbers: &[usize], one: usize, other: usize) -> Fault
    requires { (one < length numbers.now) × (other < length numbers.now) }
    ensures { result ≡ Fault.Cross (get_or numbers.now one 0) (get_or numbers.now other 0) }
{
    Fault::Cross(numbers[one], numbers[other])
}

// The edges that are said, in order.
fn edges_in<A: Allocator>(alloc: A, said: &[LocateLine]) -> Result<Vec<Edge, A>, AllocError>
    ensures { IfOk result (λ edges. edges.items ≡ edges_of said.now) }
{
    said.iter().filter_map(LocateLine::edge).collect(alloc)
}

// The points that are said, in order.
fn points_in<A: Allocator>(alloc: A, said: &[LocateLine]) -> Result<Vec<Point, A>, AllocError>
    ensures { IfOk result (λ points. points.items ≡ points_of said.now) }
{
    said.iter().filter_map(LocateLine::point).collect(alloc)
}

// The numbers of the lines that say edges, in order.
fn edge_lines<A: Allocator + Copy>(
    alloc: A,
    text: &[u8],
    said: &[LocateLine],
) -> Result<Vec<usize, A>, AllocError>
    requires { LinesSay SaysLocateLine (lines_of text.now) said.now }
    ensures { IfOk result (λ numbers. numbers.items ≡ lines_of_edges (lines_of text.now) said.now) }
{
    let numbers = command_lines(alloc, text)?;
    edge_numbers(alloc, said, &numbers)
}

// Of lines that say these and have these numbers, the numbers of those that say edges.
fn edge_numbers<A: Allocator>(
    alloc: A,
    said: &[LocateLine],
    numbers: &[usize],
) -> Result<Vec<usize, A>, AllocError>
    requires { length numbers.now ≡ length said.now }
    ensures { IfOk result (λ kept. kept.items ≡ numbers_of_edges said.now numbers.now) }
{
    let mut kept = Vec::new(alloc);
    // The numbers of the lines before that say edges are kept.
    for place in 0..said.len() {
        if said[place].edge().is_some() {
            kept.push(numbers[place])?;
        }
    }
    Ok(kept)
}

// The numbers at the places, where there are any.
fn numbers_at<A: Allocator>(
    alloc: A,
    places: &[Option<usize>],
    numbers: &[usize],
) -> Result<Vec<Option<usize>, A>, AllocError>
    ensures { IfOk result (λ found. found.items ≡ map (told_at numbers.now) places.now) }
{
    let mut found = Vec::new(alloc);
    for place in places {
        found.push(number_at(numbers, *place))?;
    }
    Ok(found)
}

// The number at a place, where there are both.
fn number_at(numbers: &[usize], place: Option<usize>) -> Option<usize>
    ensures { result ≡ told_at numbers.now place }
{
    numbers.get(place?).copied()
}
