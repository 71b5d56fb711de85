//! `itree_below`: what lies straight below points, by a sweep over horizontal segments.

ghost use Rattle.std.specs.Prelude.{◌≡◌, ◌≢◌, ◌↔◌, ℕ, length, map, IfOk};
ghost use Rattle.std.specs.List.{AllZip};
ghost use Rattle.horizontal.specs.Heights.{IsHeightBelow, NoneCollide, IsFirstOverlap};
ghost use Rattle.itree_c.specs.Heights.{AreHeights, height_of};
ghost use Rattle.itree_c.specs.Status.{IsStatus};
ghost use Rattle.itree_c.specs.declared.status.TheConstants.{ANSWERED, REFUSED, OVERLAP, LENGTHS};

use crate::status::{ANSWERED, LENGTHS, OVERLAP, REFUSED};
use horizontal::{Point, Segment, SweepFault, below};
use i_tree::key::tree::KeyExpTree;
use std::alloc::Global;

/// What lies straight below a point: `found` is 1 and `y` a height, or both are 0 where nothing does.
#[repr(C)]
#[derive(Clone, Copy)]
pub struct Height {
    pub found: i32,
    pub y: i32,
}

/// Writes for each of the points, in order, the greatest height at most its own among the segments that cover its x.
///
/// The status is `ANSWERED` (0), and no two segments collide; `REFUSED` (1) where memory was refused, or where more
/// segments than there are handles are met at once; `OVERLAP` (2) where two collide, and then `overlap` is the place of
/// the first segment, in the order of `x0` and then of place, that collides with one before it; `LENGTHS` (3) where
/// there are not as many heights as points. Only at `ANSWERED` are heights written, and only at `OVERLAP` the place.
/// Which segments collide, and what a sweep costs, is said at `below` of `horizontal`.
#[unsafe(no_mangle)]
pub extern "C" fn itree_below(
    alloc: Global,
    segments: &[Segment],
    points: &[Point],
    heights: &mut [Height],
    overlap: &mut usize,
) -> i32
    ensures answered { result ≡ ANSWERED → NoneCollide segments.now × AreHeights segments.now points.now heights.new }
    ensures overlap { result ≡ OVERLAP → IsFirstOverlap segments.now overlap.new }
    ensures lengths { (result ≡ LENGTHS) ↔ (length heights.old ≢ length points.now) }
    ensures kept { result ≢ ANSWERED → heights.new ≡ heights.old }
    ensures place { result ≢ OVERLAP → overlap.new ≡ overlap.old }
    ensures status { IsStatus OVERLAP result }
{
    if heights.len() != points.len() {
        return LENGTHS;
    }
    match heights_below(alloc, segments, points) {
        Ok(found) => {
            write_heights(&found, heights);
            ANSWERED
        }
        Err(SweepFault::Refused(_)) => REFUSED,
        Err(SweepFault::Overlap(place)) => {
            *overlap = place;
            OVERLAP
        }
    }
}

// The sweep's own answers, over a tree that is made for it.
fn heights_below(
    alloc: Global,
    segments: &[Segment],
    points: &[Point],
) -> Result<Vec<Option<i32>>, SweepFault>
    ensures ok { IfOk result (λ found.
        NoneCollide segments.now × AllZip (IsHeightBelow segments.now) points.now found.items) }
    ensures overlap { (place : ℕ) → result ≡ Err (SweepFault.Overlap place) → IsFirstOverlap segments.now place }
{
    let mut levels = KeyExpTree::new(alloc, 0)?;
    let mut found = Vec::new(alloc);
    below(&mut levels, segments, points, &mut found)?;
    Ok(found)
}

// Writes each answer at its place.
fn write_heights(found: &[Option<i32>], heights: &mut [Height])
    requires { length found.now ≡ length heights.old }
    ensures { heights.new ≡ map height_of found.now }
{
    for (place, answer) in found.iter().enumerate() {
        heights[place] = written(*answer);
    }
}

// A height as it is written.
fn written(answer: Option<i32>) -> Height
    ensures { result ≡ height_of answer }
{
    match answer {
        Some(y) => Height { found: 1, y },
        None => Height { found: 0, y: 0 },
    }
}
