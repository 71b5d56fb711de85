//! Rings cut into stretches: points along which x rises, or falls, where no other edges come to them.

ghost use Rattle.std.specs.Prelude.{◌≡◌, ◌<◌, ◌≤◌, All, IfErr, IfOk, drop, length, take};
ghost use Rattle.i_tree.specs.declared.Refusal.TheVariants.{OutOfMemory};
ghost use Rattle.monotone_chains.specs.Stretches.Cut.{AreCut, IsPart, edges_along};

use i_tree::Refusal;
use parts::Part;
use plane::point::Point;
use refining::refine;
use spans::spans_of;
use std::alloc::Allocator;

pub mod chords;
pub mod cutting;
mod lines;
mod marking;
pub mod parts;
mod refining;
mod spans;
pub mod widening;

/// How many edges a part has at most before others come to it. Of fewer edges than many, each part lies nearer to others.
const LONGEST: usize = 64;

const MANY: usize = 262_144;

/// How many edges it has at most once some do.
const SHORTER: usize = 8;

/// Stretches, and how many of them are the subject's, which stand first.
#[derive(Drop)]
pub struct Stretches<'a, A: Allocator> {
    pub parts: Vec<Part<'a>, A>,
    pub count: usize,
}

/// The parts as stretches. The first `count` are the subject's, and the others the clip's.
///
/// The boxes of the parts are swept. A part whose box another one's meets, where no line along one of them keeps their points
/// apart, is cut into shorter parts, and in the end into single edges. Where more pairs of boxes meet than `limit`, all parts
/// are.
///
/// It is refused for want of memory alone.
pub fn stretches_of<'a, A: Allocator + Copy>(
    alloc: A,
    parts: &[Part<'a>],
    count: usize,
    limit: usize,
) -> Result<Stretches<'a, A>, Refusal>
    requires parts { All IsPart parts.now }
    requires count { count ≤ length parts.now }
    ensures ok { IfOk result (λ told.
        AreCut (edges_along (take count parts.entry.now)) (edges_along (drop count parts.entry.now)) told.parts.items told.count) }
    ensures refused { IfErr result (λ cause. cause ≡ OutOfMemory) }
{
    let spans = spans_of(alloc, parts)?;
    let shorter = refine(alloc, parts, &spans, count, SHORTER, limit)?;
    let clear = refine(
        alloc,
        &shorter.parts,
        &shorter.spans,
        shorter.count,
        1,
        limit,
    )?;
    Ok(Stretches {
        parts: clear.parts,
        count: clear.count,
    })
}

/// How many edges a part has at most at first, of so many edges.
pub fn longest_of(count: usize) -> usize
    ensures { 0 < result }
{
    if count < MANY { LONGEST / 2 } else { LONGEST }
}
