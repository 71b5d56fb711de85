//! Rings as stretches, where that pays.

ghost use Rattle.std.specs.Prelude.{◌≡◌, ◌<◌, ◌≤◌, IfErr, IfOk, IfSome, IsTrue, length};
ghost use Rattle.i_tree.specs.declared.Refusal.TheVariants.{OutOfMemory};
ghost use Rattle.monotone_chains.specs.Stretches.Cut.{AppendsParts, AreCut};
ghost use Rattle.overlay.specs.Rings.{HasEnds, edges_of, real_edges};

use crate::stretches::cutting::append_parts;
use crate::stretches::parts::Part;
use crate::stretches::{Stretches, longest_of, stretches_of};
use i_tree::Refusal;
use overlay::rings::{Rings, ring_at};
use plane::point::Point;
use std::alloc::{AllocError, Allocator};

/// At how many places, all along subject and clip, a few points are looked at before rings are cut, to tell whether x turns back
/// often along them. It is a prime number, so that places seldom fall in step with rings that have as many points each.
const PLACES: usize = 31;

/// How many points are looked at in one place.
const AT_EACH: usize = 8;

/// Of no more points than these all edges are swept as they are, since cutting rings takes longer than it could save.
const FEW_POINTS: usize = 64;

/// The real edges of subject and clip as stretches, or nothing where few would have several edges.
///
/// It is refused for want of memory alone.
pub(crate) fn stretches_along<'a, A: Allocator + Copy>(
    alloc: A,
    subject: Rings<'a>,
    clip: Rings<'a>,
) -> Result<Option<Stretches<'a, A>>, Refusal>
    requires ends { HasEnds subject }
    requires clip_ends { HasEnds clip }
    ensures ok { IfOk result (λ found. IfSome found (λ told.
        AreCut (real_edges (edges_of subject.entry)) (real_edges (edges_of clip.entry)) told.parts.items told.count)) }
    ensures refused { IfErr result (λ cause. cause ≡ OutOfMemory) }
{
    let edges = subject.points.len().saturating_add(clip.points.len());
    if edges <= FEW_POINTS || turn_often(subject.points, clip.points) {
        return Ok(None);
    }
    let most = longest_of(edges);
    let mut parts = Vec::new(alloc);
    if !append_rings(subject, most, edges / 6, &mut parts)? {
        return Ok(None);
    }
    let count = parts.len();
    if !append_rings(clip, most, edges / 6, &mut parts)? {
        return Ok(None);
    }
    let stretches = stretches_of(alloc, &parts, count, edges)?;
    if stretches.parts.len() >= edges / 2 {
        return Ok(None);
    }
    Ok(Some(stretches))
}

// Whether x turns back at more than one in twelve of the points that are looked at in both.
fn turn_often(subject: &[Point], clip: &[Point]) -> bool {
    let most = PLACES * AT_EACH;
    let looked_at = subject.len().min(most) + clip.len().min(most);
    looked_at / 12 < count_turns(subject).saturating_add(count_turns(clip))
}

// How often x turns back at the points that are looked at. Where a long ring is steep, points that follow one another may have
// one x: so no place tells of the whole ring.
fn count_turns(points: &[Point]) -> usize {
    let apart = (points.len() / PLACES).max(AT_EACH + 2);
    let mut turns: usize = 0;
    for some in points.chunks(apart) {
        turns = turns.saturating_add(count_first_turns(some));
    }
    turns
}

// How often x turns back at the first points.
fn count_first_turns(points: &[Point]) -> usize {
    let mut turns: usize = 0;
    for three in points.windows(3).take(AT_EACH) {
        if !goes_on(three[0].x, three[1].x, three[2].x) {
            turns = turns.saturating_add(1);
        }
    }
    turns
}

// Whether the numbers rise, or fall.
fn goes_on(first: i32, second: i32, third: i32) -> bool {
    (first < second && second < third) || (third < second && second < first)
}

// Appends parts of the real edges of all rings, each of so many edges at most, and tells whether these are all.
#[tactic(auto, using(overlay::proofs::EachRing::rings_all))]
fn append_rings<'a, A: Allocator>(
    rings: Rings<'a>,
    most: usize,
    limit: usize,
    parts: &mut Vec<Part<'a>, A>,
) -> Result<bool, AllocError>
    requires ends { HasEnds rings }
    requires most { 0 < most }
    ensures { IfOk result (λ are_all. IsTrue are_all
        → AppendsParts (real_edges (edges_of rings.entry)) parts.old.items parts.new.items) }
{
    // The parts are of the real edges of the rings before this one.
    for ring in 0..rings.ends.len() {
        let points = ring_at(rings.points, rings.ends, ring);
        if !append_parts(points, most, limit, parts)? {
            return Ok(false);
        }
    }
    Ok(true)
}
