//! Parts cut anew, where others come to them: one round after another.

ghost use Rattle.std.specs.Prelude.{◌≡◌, ◌<◌, ◌≤◌, ◌++◌, ◌∷◌, [], true, false, List, All, IfErr, IfOk, OnOk, length, take};
ghost use Rattle.std.specs.List.{AllZip, flat_map};
ghost use Rattle.i_tree.specs.declared.Refusal.TheVariants.{OutOfMemory};
ghost use Rattle.monotone_chains.specs.declared.stretches.parts.Part.{Part};
ghost use Rattle.monotone_chains.specs.Stretches.Cut.{IsCutInto, IsPart, IsRound, IsShort, way};
ghost use Rattle.monotone_chains.specs.Stretches.Spans.{IsSpan};

use super::cutting::cut_part;
use super::marking::busy_of;
use super::parts::{Part, count_edges};
use super::spans::{Span, append_spans};
use i_tree::Refusal;
use std::alloc::{AllocError, Allocator};

/// Parts, where each lies, and how many of them are the subject's, which stand first.
#[derive(Drop)]
pub struct Refined<'a, A: Allocator> {
    pub parts: Vec<Part<'a>, A>,
    pub spans: Vec<Span, A>,
    pub count: usize,
}

/// One round of refining: each part to which others come is cut into parts of `most` edges at most, and the others stay as they
/// are and where they lie. The first `count` are the subject's. Where more pairs of parts come near each other than `limit`, all
/// are cut.
///
/// It is refused for want of memory alone.
pub fn refine<'a, A: Allocator + Copy>(
    alloc: A,
    parts: &[Part<'a>],
    spans: &[Span],
    count: usize,
    most: usize,
    limit: usize,
) -> Result<Refined<'a, A>, Refusal>
    requires parts { All IsPart parts.now }
    requires spans { AllZip IsSpan parts.now spans.now }
    requires count { count ≤ length parts.now }
    requires most { 0 < most }
    ensures ok { IfOk result (λ refined. (groups : List (List Part)) × IsRound most parts.entry.now groups
        × (refined.parts.items ≡ flat_map (λ group. group) groups)
        × (refined.count ≡ length (flat_map (λ group. group) (take count groups)))) }
    ensures spans { IfOk result (λ refined. AllZip IsSpan refined.parts.items refined.spans.items) }
    ensures refused { IfErr result (λ cause. cause ≡ OutOfMemory) }
{
    let busy = busy_of(alloc, parts, spans, limit)?;
    let mut refined = Refined {
        parts: Vec::with_capacity(alloc, parts.len())?,
        spans: Vec::with_capacity(alloc, parts.len())?,
        count: 0,
    };
    let mut subject_count = 0;
    // What the parts before this place are cut into stands there, and is counted where they are the subject's.
    for (place, part) in parts.iter().enumerate() {
        refine_part(*part, spans[place], busy[place], most, &mut refined)?;
        if place < count {
            subject_count = refined.parts.len();
        }
    }
    refined.count = subject_count;
    Ok(refined)
}

// Appends the part that lies there, or if it is busy its parts.
fn refine_part<'a, A: Allocator>(
    part: Part<'a>,
    span: Span,
    busy: bool,
    most: usize,
    refined: &mut Refined<'a, A>,
) -> Result<(), AllocError>
    requires part { IsPart part }
    requires span { IsSpan part span }
    requires most { 0 < most }
    requires so_far { AllZip IsSpan refined.old.parts.items refined.old.spans.items }
    ensures ok { OnOk result ((group : List Part) × IsCutInto (way part.entry) group
        × (busy ≡ false → group ≡ part.entry ∷ [])
        × (busy ≡ true → All (IsShort most) group)
        × (refined.new.parts.items ≡ refined.old.parts.items ++ group)) }
    ensures spans { OnOk result (AllZip IsSpan refined.new.parts.items refined.new.spans.items) }
{
    if busy {
        let start = refined.parts.len();
        cut_part(part, 0, count_edges(part), most, &mut refined.parts)?;
        return append_spans(&refined.parts[start..], &mut refined.spans);
    }
    refined.parts.push(part)?;
    refined.spans.push(span)?;
    Ok(())
}
