//! Pairs of few items: each is compared with all others, which is sooner done than a sweep is set up.

ghost use Rattle.std.specs.Prelude.{◌≡◌, ◌<◌, ◌≤◌, IfOk, MatchBool, OnOk, OnErr, length, map};
ghost use Rattle.plane.specs.Lists.{Extends};
ghost use Rattle.plane.specs.Pairs.Bounds.{IsFromUpto, MeetInBoxes};
ghost use Rattle.plane.specs.Pairs.Pairs.{PairAt, PairBetween};
ghost use Rattle.plane.specs.Pairs.Points.{Gains, MeetsAt};

use super::boxes::boxes_meet;
use super::budget::Budget;
use super::items::{Bounds, Boxed, Meets};
use super::runs::{append_pairs_by_runs, runs_of};
use std::alloc::{AllocError, Allocator};

// So many items are few. A comparison of two boxes takes about a fiftieth of what a sweep takes for each item.
const FEW_ITEMS: usize = 64;

// Fewer items are compared one by one, without boxes around runs of them.
const FEWEST_IN_RUNS: usize = 24;

// So many points are few. An item that looks for points in rows takes as long as one that is compared with so many.
const FEW_POINTS: usize = 8;

/// Whether the items are so few that a comparison of all of them finds their pairs soonest.
pub fn are_few<T>(items: &[T]) -> bool {
    items.len() <= FEW_ITEMS
}

/// Whether the points are so few that items are soonest compared with all of them.
pub fn are_few_points<T>(points: &[T]) -> bool {
    points.len() <= FEW_POINTS
}

/// Appends the pairs of places whose items meet, the lesser place first.
pub fn append_pairs_of_few<T: Meets<T>, A: Allocator + Copy>(
    items: &[T],
    out: &mut Vec<(usize, usize), A>,
) -> Result<(), AllocError>
    requires { MeetInBoxes T.bounds T.Meeting }
    ensures ok { OnOk result (Gains (PairAt T.Meeting items.now) out.old.items out.new.items) }
    ensures err { OnErr result (Extends out.old.items out.new.items) }
{
    let alloc = *out.allocator();
    let boxes = boxes_of(alloc, items)?;
    if items.len() < FEWEST_IN_RUNS {
        return append_pairs_of_each(items, &boxes, out);
    }
    let runs = runs_of(alloc, &boxes)?;
    append_pairs_by_runs(items, &boxes, &runs, Budget::unlimited(), out)?;
    Ok(())
}

// Appends the pairs of all items, each with those before it.
fn append_pairs_of_each<T: Meets<T>, A: Allocator>(
    items: &[T],
    boxes: &[Bounds],
    out: &mut Vec<(usize, usize), A>,
) -> Result<(), AllocError>
    requires boxed { MeetInBoxes T.bounds T.Meeting }
    requires boxes { boxes.now ≡ map T.bounds items.now }
    ensures ok { OnOk result (Gains (PairAt T.Meeting items.now) out.old.items out.new.items) }
    ensures err { OnErr result (Extends out.old.items out.new.items) }
{
    // The pairs of the items so far stand there.
    for second in 0..items.len() {
        append_pairs_before(items, boxes, second, out)?;
    }
    Ok(())
}

/// Appends the pairs of the item at the place with those from the one place up to the other that stand before it.
pub fn append_pairs_within<T: Meets<T>, A: Allocator>(
    items: &[T],
    boxes: &[Bounds],
    from: usize,
    to: usize,
    second: usize,
    out: &mut Vec<(usize, usize), A>,
) -> Result<(), AllocError>
    requires boxed { MeetInBoxes T.bounds T.Meeting }
    requires boxes { boxes.now ≡ map T.bounds items.now }
    requires inside { second < length items.now }
    ensures ok { OnOk result (Gains (λ i j. IsFromUpto from to i × (j ≡ second) × PairAt T.Meeting items.now i j)
        out.old.items out.new.items) }
    ensures err { OnErr result (Extends out.old.items out.new.items) }
{
    // The pairs with the items of the run so far stand there.
    for first in from..to.min(second) {
        append_if_they_meet(items, boxes, first, second, out)?;
    }
    Ok(())
}

/// The boxes of the items, in their order, so that each is made once.
pub fn boxes_of<T: Boxed, A: Allocator>(alloc: A, items: &[T]) -> Result<Vec<Bounds, A>, AllocError>
    ensures { IfOk result (λ boxes. boxes.items ≡ map T.bounds items.now) }
{
    items.iter().map(|item| item.bounds()).collect(alloc)
}

// Appends the pairs of the item at the place with those before it.
fn append_pairs_before<T: Meets<T>, A: Allocator>(
    items: &[T],
    boxes: &[Bounds],
    second: usize,
    out: &mut Vec<(usize, usize), A>,
) -> Result<(), AllocError>
    requires boxed { MeetInBoxes T.bounds T.Meeting }
    requires boxes { boxes.now ≡ map T.bounds items.now }
    requires inside { second < length items.now }
    ensures ok { OnOk result (Gains (λ i j. (j ≡ second) × PairAt T.Meeting items.now i j) out.old.items out.new.items) }
    ensures err { OnErr result (Extends out.old.items out.new.items) }
{
    // The pairs with the items so far stand there.
    for first in 0..second {
        append_if_they_meet(items, boxes, first, second, out)?;
    }
    Ok(())
}

// Appends the pair of these places where their items meet.
fn append_if_they_meet<T: Meets<T>, A: Allocator>(
    items: &[T],
    boxes: &[Bounds],
    first: usize,
    second: usize,
    out: &mut Vec<(usize, usize), A>,
) -> Result<(), AllocError>
    requires boxed { MeetInBoxes T.bounds T.Meeting }
    requires boxes { boxes.now ≡ map T.bounds items.now }
    requires rising { first < second }
    requires inside { second < length items.now }
    ensures ok { OnOk result (Gains (λ i j. (i ≡ first) × (j ≡ second) × PairAt T.Meeting items.now i j) out.old.items out.new.items) }
    ensures err { OnErr result (out.new.items ≡ out.old.items) }
{
    if they_meet(items, boxes, first, second) {
        out.push((first, second))?;
    }
    Ok(())
}

// Whether the items at these places meet. Most often their boxes don't, which is sooner told.
fn they_meet<T: Meets<T>>(items: &[T], boxes: &[Bounds], first: usize, second: usize) -> bool
    requires boxed { MeetInBoxes T.bounds T.Meeting }
    requires boxes { boxes.now ≡ map T.bounds items.now }
    requires rising { first < second }
    requires inside { second < length items.now }
    ensures { let met = PairAt T.Meeting items.now first second in MatchBool result met (¬ met) }
{
    boxes_meet(boxes[first], boxes[second]) && items[first].meets(items[second])
}

/// Appends the pairs of places where the item meets the point.
pub fn append_pairs_with_few<X: Meets<Y>, Y: Boxed, A: Allocator>(
    items: &[X],
    points: &[Y],
    out: &mut Vec<(usize, usize), A>,
) -> Result<(), AllocError>
    ensures ok { OnOk result (Gains (PairBetween X.Meeting items.now points.now) out.old.items out.new.items) }
    ensures err { OnErr result (Extends out.old.items out.new.items) }
{
    // The pairs of the items so far stand there.
    for place in 0..items.len() {
        append_pairs_of_item(items[place], place, points, out)?;
    }
    Ok(())
}

// Appends the pairs of the item at a place with the points that it meets.
fn append_pairs_of_item<X: Meets<Y>, Y: Boxed, A: Allocator>(
    item: X,
    place: usize,
    points: &[Y],
    out: &mut Vec<(usize, usize), A>,
) -> Result<(), AllocError>
    ensures ok { OnOk result (Gains (λ i j. (i ≡ place) × MeetsAt (X.Meeting item) points.now j) out.old.items out.new.items) }
    ensures err { OnErr result (Extends out.old.items out.new.items) }
{
    // The pairs with the points so far stand there.
    for other in 0..points.len() {
        append_if_it_meets(item, place, points[other], other, out)?;
    }
    Ok(())
}

// Appends the pair of the places of the item and of the point where the item meets it.
fn append_if_it_meets<X: Meets<Y>, Y: Boxed, A: Allocator>(
    item: X,
    place: usize,
    point: Y,
    other: usize,
    out: &mut Vec<(usize, usize), A>,
) -> Result<(), AllocError>
    ensures ok { OnOk result (Gains (λ i j. (i ≡ place) × (j ≡ other) × X.Meeting item point) out.old.items out.new.items) }
    ensures err { OnErr result (out.new.items ≡ out.old.items) }
{
    if item.meets(point) {
        out.push((place, other))?;
    }
    Ok(())
}
