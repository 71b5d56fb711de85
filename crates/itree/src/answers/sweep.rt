//! What the program answers in a sweep over horizontal segments.

ghost use Rattle.std.specs.Prelude.{◌≡◌, ◌⊎◌, ℕ, IfErr, IfOk, string_bytes};
ghost use Rattle.itree.specs.Grammar.{lines_of, LinesSay};
ghost use Rattle.itree.specs.SweepLines.{SaysSweepLine, segments_of, points_of, IsOverlapLine};
ghost use Rattle.itree.specs.Answers.{AnswersSweep};

use crate::fault::Fault;
use crate::lines::{SweepLine, reply_text, segment_line};
use horizontal::{Level, Point, Segment, SweepFault, below};
use i_tree::key::exp::KeyExpCollection;
use std::alloc::{AllocError, Allocator};

/// The text of the replies to the points that the lines of the text say, over the segments that they say.
///
/// The answer is `Fault::Overlap` with the number of the line that says the first segment that overlaps, or
/// `Fault::Memory` where memory was refused.
pub fn answer_sweep<A: Allocator + Copy, C: KeyExpCollection<Level, i32, Option<i32>>>(
    alloc: A,
    store: &mut C,
    text: &[u8],
    said: &[SweepLine],
) -> Result<String<A>, Fault>
    requires { LinesSay SaysSweepLine (lines_of text.now) said.now }
    ensures answered { IfOk result (λ output. AnswersSweep said.now (string_bytes output)) }
    ensures overlap { (number : ℕ) → result ≡ Err (Fault.Overlap number) → IsOverlapLine (lines_of text.now) number }
    ensures err { IfErr result (λ fault. (fault ≡ Fault.Memory) ⊎ ((number : ℕ) × (fault ≡ Fault.Overlap number))) }
{
    let segments = segments_in(alloc, said)?;
    let points = points_in(alloc, said)?;
    let mut answers = Vec::new(alloc);
    match below(store, &segments, &points, &mut answers) {
        Ok(()) => Ok(reply_text(alloc, &answers)?),
        Err(SweepFault::Refused(_)) => Err(Fault::Memory),
        Err(SweepFault::Overlap(place)) => Err(Fault::Overlap(segment_line(text, place))),
    }
}

// The segments that are said, in order.
fn segments_in<A: Allocator>(alloc: A, said: &[SweepLine]) -> Result<Vec<Segment, A>, AllocError>
    ensures { IfOk result (λ segments. segments.items ≡ segments_of said.now) }
{
    said.iter().filter_map(SweepLine::segment).collect(alloc)
}

// The points that are said, in order.
fn points_in<A: Allocator>(alloc: A, said: &[SweepLine]) -> Result<Vec<Point, A>, AllocError>
    ensures { IfOk result (λ points. points.items ≡ points_of said.now) }
{
    said.iter().filter_map(SweepLine::point).collect(alloc)
}
