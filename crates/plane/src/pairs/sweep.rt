//! The sweep from left to right in each strip, over the items that are live at an x.

ghost use Rattle.std.specs.Bool.{OnTrue};
ghost use Rattle.std.specs.Int.{int_max};
ghost use Rattle.std.specs.Prelude.{◌≡◌, ◌≢◌, ◌⊎◌, ◌-◌, ◌^◌, ◌≤ℤ◌, true, false, [], All, MatchBool, OnOk, OnErr, IfErr, IfOk};
ghost use Rattle.std.specs.Ordering.{int_cmp};
ghost use Rattle.std.specs.declared.option.Option.TheVariants.{Some};
ghost use Rattle.i_tree.specs.declared.Refusal.TheVariants.{OutOfMemory};
ghost use Rattle.i_tree.specs.Seg.Members.{NotBefore};
ghost use Rattle.plane.specs.Pairs.Bounds.{MeetInBoxes};
ghost use Rattle.plane.specs.Pairs.Live.{IsIn, held};
ghost use Rattle.plane.specs.Pairs.Pairs.{GainsAll};
ghost use Rattle.plane.specs.Pairs.Parts.{AreParts};
ghost use Rattle.plane.specs.Pairs.Strips.{Reaches, IsOverStrip, range_in, strip_at};
ghost use Rattle.plane.specs.Lists.{Extends};
ghost use Rattle.plane.specs.Pairs.Sweep.{IsTold, GainsPair, GainsPairs, Asks, Serves};

use super::budget::{Budget, LOOKS_PER_TEST};
use super::items::{Boxed, Meets};
use super::live::Live;
use super::parts::Part;
use super::read_ahead::ReadAhead;
use super::strips::Strips;
use i_tree::seg::exp::{SegExpCollection, SegRange};
use i_tree::{ExpiredVal, Refusal};
use std::alloc::{AllocError, Allocator};

/// An item and its place among all items. It is live up to its greatest x.
#[derive(Clone, Copy)]
pub struct Placed<T> {
    pub item: T,
    pub place: usize,
}

impl<T: Boxed> ExpiredVal<i32> for Placed<T> {
    ghost expiration = { λ placed. (T.bounds placed.item).right };

    fn expiration(&self) -> i32 {
        self.item.bounds().right
    }
}

/// Appends the pairs of places whose items meet. It stops behind an item where it has more than `most`, and gives up behind
/// one where it has tested more often than the budget allows: it answers whether it came to an end before that.
pub fn append_pairs<T: Meets<T>, A: Allocator + Copy>(
    items: &[T],
    most: usize,
    budget: Budget,
    strips: Strips,
    parts: &[Part],
    out: &mut Vec<(usize, usize), A>,
) -> Result<bool, Refusal>
    requires boxed { MeetInBoxes T.bounds T.Meeting }
    requires base { All (λ item. strips.base ≤ℤ (T.bounds item).low) items.now }
    requires parts { AreParts T.bounds strips items.now parts.now }
    ensures ok { IfOk result (λ is_done. MatchBool is_done
        (GainsAll T.Meeting items.now most out.old.items out.new.items) (Extends out.old.items out.new.items)) }
    ensures unlimited { budget.tests ≡ 2 ^ 64 - 1 → IfOk result (λ is_done. is_done ≡ true) }
    ensures err { OnErr result (Extends out.old.items out.new.items) }
    ensures refused { IfErr result (λ cause. cause ≡ OutOfMemory) }
{
    let start = out.len();
    let limit = start.saturating_add(most);
    let alloc = *out.allocator();
    let mut live = Live::new(alloc, strips)?;
    let mut strip = 0;
    let mut ahead = ReadAhead::new(alloc);
    let pace = budget.at_pace(parts.len());
    let mut looks = 0usize;
    // The pairs that the parts so far tell stand there; the items of those in the strip are live, but for some that have ended.
    for (next, part) in parts.iter().enumerate() {
        enter(&mut live, strip, part.strip);
        strip = part.strip;
        let place = part.place;
        let item = ahead.at(items, parts, next)?;
        let asked = serve(strips, strip, Placed { item, place }, &mut live, out)?;
        if out.len() > limit {
            return Ok(true);
        }
        looks = looks.saturating_add(asked);
        if pace.is_passed(looks, next, out.len() - start) {
            return Ok(false);
        }
    }
    Ok(true)
}

// Goes on from one strip to the next one, or stays in the same.
fn enter<T: Boxed, A: Allocator + Copy>(live: &mut Live<T, A>, strip: u32, next: u32)
    ensures stays { next ≡ strip → live.new ≡ live.old }
    ensures few { next ≢ strip → live.new.is_few ≡ true }
    ensures empty { next ≢ strip → live.new.few.items ≡ [] }
    ensures buckets { live.new.tree.buckets ≡ live.old.tree.buckets }
{
    if next != strip {
        live.clear();
    }
}

// Appends the pairs of the item with those before it in the strip, and puts it among them. It answers how many looks that took.
fn serve<T: Meets<T>, A: Allocator + Copy>(
    strips: Strips,
    strip: u32,
    placed: Placed<T>,
    live: &mut Live<T, A>,
    out: &mut Vec<(usize, usize), A>,
) -> Result<usize, Refusal>
    requires boxed { MeetInBoxes T.bounds T.Meeting }
    requires base { strips.base ≤ℤ (T.bounds placed.item).low }
    requires reaches { Reaches strips (T.bounds placed.item) strip }
    requires within { All (λ member. IsIn T.bounds strips strip member.value) (held T.bounds strips strip live.old).members }
    requires over { IsOverStrip strips live.old.tree.buckets }
    requires in_time { NotBefore int_cmp (held T.bounds strips strip live.old).latest (T.bounds placed.item).left }
    ensures ok { OnOk result (Serves T.bounds T.Meeting strips strip placed live.old.tree.buckets
        (held T.bounds strips strip live.old).members (held T.bounds strips strip live.new).members
        out.old.items out.new.items) }
    ensures err { OnErr result (Extends out.old.items out.new.items) }
    ensures refused { IfErr result (λ cause. cause ≡ OutOfMemory) }
    ensures latest { let new = (held T.bounds strips strip live.new).latest in
        (new ≡ (held T.bounds strips strip live.old).latest) ⊎ (new ≡ Some (T.bounds placed.item).left) }
    ensures buckets { live.new.tree.buckets ≡ live.old.tree.buckets }
{
    let range = strips.range_in(strip, placed.item.bounds());
    let asked = ask(strips, strip, placed, range, live, out)?;
    live.join(strips, strip, placed, range)?;
    Ok(asked)
}

// Appends the pairs of the item with those before it in the strip, over its range there. It answers how many looks that took.
fn ask<T: Meets<T>, A: Allocator + Copy>(
    strips: Strips,
    strip: u32,
    placed: Placed<T>,
    range: SegRange<u32>,
    live: &mut Live<T, A>,
    out: &mut Vec<(usize, usize), A>,
) -> Result<usize, Refusal>
    requires boxed { MeetInBoxes T.bounds T.Meeting }
    requires base { strips.base ≤ℤ (T.bounds placed.item).low }
    requires reaches { Reaches strips (T.bounds placed.item) strip }
    requires range { range ≡ range_in strips strip (T.bounds placed.item) }
    requires over { IsOverStrip strips live.old.tree.buckets }
    requires in_time { NotBefore int_cmp (held T.bounds strips strip live.old).latest (T.bounds placed.item).left }
    ensures ok { OnOk result (Asks T.bounds T.Meeting strips strip placed live.old.tree.buckets
        (held T.bounds strips strip live.old).members (held T.bounds strips strip live.new).members
        out.old.items out.new.items) }
    ensures err { OnErr result (Extends out.old.items out.new.items) }
    ensures refused { IfErr result (λ cause. cause ≡ OutOfMemory) }
    ensures latest { let new = (held T.bounds strips strip live.new).latest in
        (new ≡ (held T.bounds strips strip live.old).latest) ⊎ (new ≡ Some (T.bounds placed.item).left) }
    ensures buckets { live.new.tree.buckets ≡ live.old.tree.buckets }
{
    if live.is_few {
        return ask_few(strips, strip, placed, live, out);
    }
    live.near.clear();
    live.tree
        .collect_by_range(range, placed.item.bounds().left, &mut live.near)?;
    Ok(append_told(strips, strip, placed, &live.near, out)?)
}

// The same where few are live: all of them are gone over, but for those that have expired, which leave.
fn ask_few<T: Meets<T>, A: Allocator + Copy>(
    strips: Strips,
    strip: u32,
    placed: Placed<T>,
    live: &mut Live<T, A>,
    out: &mut Vec<(usize, usize), A>,
) -> Result<usize, Refusal>
    requires boxed { MeetInBoxes T.bounds T.Meeting }
    requires base { strips.base ≤ℤ (T.bounds placed.item).low }
    requires few { live.old.is_few ≡ true }
    ensures ok { OnOk result (Asks T.bounds T.Meeting strips strip placed live.old.tree.buckets
        (held T.bounds strips strip live.old).members (held T.bounds strips strip live.new).members
        out.old.items out.new.items) }
    ensures err { OnErr result (Extends out.old.items out.new.items) }
    ensures refused { IfErr result (λ cause. cause ≡ OutOfMemory) }
    ensures few { live.new.is_few ≡ true }
    ensures tree { live.new.tree ≡ live.old.tree }
{
    live.drop_expired(placed.item.bounds().left);
    Ok(append_told(strips, strip, placed, &live.few, out)?)
}

// Appends the pairs of the item with those of the others that it meets, where this strip is the one to tell them. It answers how
// many looks that took: one at each, and those that a test counts.
fn append_told<T: Meets<T>, A: Allocator>(
    strips: Strips,
    strip: u32,
    placed: Placed<T>,
    others: &[Placed<T>],
    out: &mut Vec<(usize, usize), A>,
) -> Result<usize, AllocError>
    requires boxed { MeetInBoxes T.bounds T.Meeting }
    requires base { strips.base ≤ℤ (T.bounds placed.item).low }
    ensures ok { OnOk result (GainsPairs T.bounds T.Meeting strips strip placed others.now
        out.old.items out.new.items) }
    ensures err { OnErr result (Extends out.old.items out.new.items) }
{
    let mut looks = others.len();
    for other in others {
        looks = looks.saturating_add(append_if_told(strips, strip, placed, *other, out)?);
    }
    Ok(looks)
}

// Appends the pair of the two items where they are told in this strip. It answers how many looks a test took, or 0 where none was
// made.
fn append_if_told<T: Meets<T>, A: Allocator>(
    strips: Strips,
    strip: u32,
    placed: Placed<T>,
    other: Placed<T>,
    out: &mut Vec<(usize, usize), A>,
) -> Result<usize, AllocError>
    requires boxed { MeetInBoxes T.bounds T.Meeting }
    requires base { strips.base ≤ℤ (T.bounds placed.item).low }
    ensures ok { OnOk result (GainsPair T.bounds T.Meeting strips strip placed other
        out.old.items out.new.items) }
    ensures err { OnErr result (out.new.items ≡ out.old.items) }
{
    if !may_be_told(strips, strip, placed.item, other.item) {
        return Ok(0);
    }
    if placed.item.meets(other.item) {
        let first = placed.place.min(other.place);
        let second = placed.place.max(other.place);
        out.push((first, second))?;
    }
    Ok(LOOKS_PER_TEST)
}

// Whether the heights of the items meet, and the greater of their lower sides lies in the strip. Items that meet have heights that
// do.
fn may_be_told<T: Meets<T>>(strips: Strips, strip: u32, one: T, other: T) -> bool
    requires boxed { MeetInBoxes T.bounds T.Meeting }
    requires base { strips.base ≤ℤ (T.bounds one).low }
    ensures here { OnTrue result (strip_at strips (int_max (T.bounds one).low (T.bounds other).low) ≡ strip) }
    ensures apart { result ≡ false → ¬ (IsTold T.bounds T.Meeting strips strip one other) }
{
    let first = one.bounds();
    let second = other.bounds();
    let low = first.low.max(second.low);
    let high = first.high.min(second.high);
    // Both comparisons are made, since a branch between them would be guessed wrongly often.
    (low <= high) & (strips.strip_at(low) == strip)
}
