//! Pairs of items by runs: items that follow each other make a run, and two runs are looked at where the boxes around them meet.

ghost use Rattle.std.specs.Prelude.{◌≡◌, ◌-◌, ◌^◌, ◌<◌, ◌≤◌, ◌+◌, ◌*◌, true, length, map, IfOk, IfSome, MatchBool, MatchOption, OnOk, OnErr};
ghost use Rattle.plane.specs.Pairs.Bounds.{IsAroundThese, IsFromUpto, MeetInBoxes};
ghost use Rattle.plane.specs.Pairs.Pairs.{PairAt};
ghost use Rattle.plane.specs.Pairs.Points.{Gains};
ghost use Rattle.plane.specs.Pairs.Runs.{AreRuns};
ghost use Rattle.plane.specs.declared.pairs.items.Bounds.{Bounds};
ghost use Rattle.plane.specs.Lists.{Extends};

use super::boxes::{boxes_meet, join_boxes};
use super::budget::Budget;
use super::extents::{Extents, extents_of};
use super::few::{append_pairs_within, boxes_of};
use super::items::{Bounds, Boxed, Meets};
use super::sampled::is_told_spent;
use super::strips::Strips;
use std::alloc::{AllocError, Allocator};

// So many items that follow each other make a run. Edges that follow each other lie near each other.
const RUN: usize = 8;

// Of more items a sweep finds the pairs sooner.
const MOST: usize = 2_048;

// Where not all pairs are wanted, a sweep of more items may stop sooner.
const MOST_OF_SOME: usize = 256;

// The narrowest strips: a sample looks at items as far apart as they are wide.
const BY_HEIGHTS: Strips = Strips { base: 0, bits: 5 };

// Two runs that meet take so many tests of two boxes.
const TESTS_OF_TWO: u128 = (RUN * (RUN + 1)) as u128;

// A sweep takes as long for an item as so many tests of two boxes.
const TESTS_PER_ITEM: u128 = 32;

// And for a pair whose boxes meet as so many.
const TESTS_PER_PAIR: u128 = 16;

/// Items that follow each other: from the one place up to the other, with a box around them.
#[derive(Clone, Copy)]
pub struct Run {
    pub from: usize,
    pub to: usize,
    pub around: Bounds,
}

impl Boxed for Run {
    ghost bounds = { λ it. it.around };

    fn bounds(self) -> Bounds {
        self.around
    }
}

/// The runs of items that have these boxes, in their order.
pub fn runs_of<A: Allocator>(alloc: A, boxes: &[Bounds]) -> Result<Vec<Run, A>, AllocError>
    ensures { IfOk result (λ runs. AreRuns boxes.now runs.items) }
{
    let mut runs = Vec::with_capacity(alloc, boxes.len() / RUN + 1)?;
    let mut from = 0;
    // The boxes before `from` stand in runs.
    while from < boxes.len() {
        let around = box_around(boxes, from, boxes.len().min(from + RUN));
        let to = from + RUN;
        runs.push(Run { from, to, around })?;
        from = to;
    }
    Ok(runs)
}

/// Appends the pairs of places whose items meet, the lesser place first, where runs tell them sooner than a sweep; else it answers
/// nothing. It gives up where it has tested more often than the budget allows, or is likely to, and answers whether it didn't.
pub fn append_pairs_if_runs_pay<T: Meets<T>, A: Allocator + Copy>(
    items: &[T],
    most: usize,
    budget: Budget,
    out: &mut Vec<(usize, usize), A>,
) -> Result<Option<bool>, AllocError>
    requires { MeetInBoxes T.bounds T.Meeting }
    ensures ok { IfOk result (λ found. MatchOption found (out.new.items ≡ out.old.items) (λ is_done. MatchBool is_done
        (Gains (PairAt T.Meeting items.now) out.old.items out.new.items) (Extends out.old.items out.new.items))) }
    ensures unlimited { budget.tests ≡ 2 ^ 64 - 1 → IfOk result (λ found. IfSome found (λ is_done. is_done ≡ true)) }
    ensures err { OnErr result (Extends out.old.items out.new.items) }
{
    if MOST < items.len() || (most < usize::MAX && MOST_OF_SOME < items.len()) {
        return Ok(None);
    }
    let alloc = *out.allocator();
    let boxes = boxes_of(alloc, items)?;
    let runs = runs_of(alloc, &boxes)?;
    if !runs_pay(items, &runs) {
        return Ok(None);
    }
    if is_told_spent(alloc, items, BY_HEIGHTS, budget)? {
        return Ok(Some(false));
    }
    Ok(Some(append_pairs_by_runs(items, &boxes, &runs, budget, out)?))
}

// Whether the pairs of items with these runs are sooner found by the runs than by a sweep. It says nothing but what is quicker.
//
// By runs each two are looked at, and of two whose boxes meet the items. A sweep takes some time for each item, and for each pair
// whose boxes meet. How many there are is told by the mean boxes, as if all lay anywhere; and then how many runs meet is counted.
fn runs_pay<T: Boxed>(items: &[T], runs: &[Run]) -> bool {
    let pairs = pairs_likely(extents_of(items), items.len());
    let swept = (items.len() as u128)
        .saturating_mul(TESTS_PER_ITEM)
        .saturating_add(pairs.saturating_mul(TESTS_PER_PAIR));
    let most = swept / TESTS_OF_TWO;
    pairs_likely(extents_of(runs), runs.len()) <= most && u128::from(count_meeting(runs)) <= most
}

// How many pairs of so many items that reach so far have boxes that meet, where they lie anywhere.
fn pairs_likely(all: Extents, count: usize) -> u128 {
    let wide = u128::from(all.right.abs_diff(all.left)).max(1);
    let tall = u128::from(all.high.abs_diff(all.low)).max(1);
    let across = u128::from(all.widths).saturating_mul(2) / wide;
    let up = u128::from(all.heights).saturating_mul(2) / tall;
    let most = (count as u128).saturating_mul(count as u128);
    across.saturating_mul(up).min(most) / 2
}

// How many runs meet others behind them, each with each, or itself.
fn count_meeting(runs: &[Run]) -> u64 {
    let mut count = 0u64;
    for place in 0..runs.len() {
        count = count.saturating_add(count_meeting_behind(&runs[place..], runs[place].around));
    }
    count
}

// How many of these runs meet the box.
fn count_meeting_behind(runs: &[Run], around: Bounds) -> u64 {
    let mut count = 0u64;
    for run in runs {
        count = count.saturating_add(u64::from(boxes_meet(run.around, around)));
    }
    count
}

/// As `append_pairs_if_runs_pay`, by these runs. It gives up behind a run where it has tested more often
/// than the budget allows, and answers whether it came to an end before that.
pub fn append_pairs_by_runs<T: Meets<T>, A: Allocator>(
    items: &[T],
    boxes: &[Bounds],
    runs: &[Run],
    budget: Budget,
    out: &mut Vec<(usize, usize), A>,
) -> Result<bool, AllocError>
    requires boxed { MeetInBoxes T.bounds T.Meeting }
    requires boxes { boxes.now ≡ map T.bounds items.now }
    requires runs { AreRuns boxes.now runs.now }
    ensures ok { IfOk result (λ is_done. MatchBool is_done
        (Gains (PairAt T.Meeting items.now) out.old.items out.new.items) (Extends out.old.items out.new.items)) }
    ensures unlimited { budget.tests ≡ 2 ^ 64 - 1 → IfOk result (λ is_done. is_done ≡ true) }
    ensures err { OnErr result (Extends out.old.items out.new.items) }
{
    let start = out.len();
    let mut tests = 0usize;
    // The pairs of the runs so far with what is behind them stand there.
    for place in 0..runs.len() {
        let more = append_pairs_of_run(items, boxes, runs, place, out)?;
        tests = tests.saturating_add(more);
        if budget.is_spent(tests, out.len() - start) {
            return Ok(false);
        }
    }
    Ok(true)
}

// Appends the pairs of the items of the run at the place with those behind each, and tells how many tests that took.
fn append_pairs_of_run<T: Meets<T>, A: Allocator>(
    items: &[T],
    boxes: &[Bounds],
    runs: &[Run],
    place: usize,
    out: &mut Vec<(usize, usize), A>,
) -> Result<usize, AllocError>
    requires boxed { MeetInBoxes T.bounds T.Meeting }
    requires boxes { boxes.now ≡ map T.bounds items.now }
    requires runs { AreRuns boxes.now runs.now }
    requires inside { place < length runs.now }
    ensures ok { OnOk result (Gains (λ i j. IsFromUpto (place * 8) (place * 8 + 8) i × PairAt T.Meeting items.now i j)
        out.old.items out.new.items) }
    ensures err { OnErr result (Extends out.old.items out.new.items) }
{
    let mut tests = 0usize;
    // The pairs of the run with the items of those so far stand there.
    for other in place..runs.len() {
        let more = append_pairs_of_two(items, boxes, runs[place], runs[other], out)?;
        tests = tests.saturating_add(more);
    }
    Ok(tests)
}

// Appends the pairs of the items of the one run with those of the other one that stand behind them, and tells how many tests that
// took: none, where the boxes around them don't meet.
fn append_pairs_of_two<T: Meets<T>, A: Allocator>(
    items: &[T],
    boxes: &[Bounds],
    one: Run,
    other: Run,
    out: &mut Vec<(usize, usize), A>,
) -> Result<usize, AllocError>
    requires boxed { MeetInBoxes T.bounds T.Meeting }
    requires boxes { boxes.now ≡ map T.bounds items.now }
    requires around { IsAroundThese one.from one.to boxes.now one.around }
    requires other_around { IsAroundThese other.from other.to boxes.now other.around }
    ensures ok { OnOk result (Gains
        (λ i j. IsFromUpto one.from one.to i × IsFromUpto other.from other.to j × PairAt T.Meeting items.now i j)
        out.old.items out.new.items) }
    ensures err { OnErr result (Extends out.old.items out.new.items) }
{
    if !boxes_meet(one.around, other.around) {
        return Ok(0);
    }
    let mut tests = 0usize;
    // The pairs of the one run with the items of the other one so far stand there.
    for second in other.from..other.to.min(items.len()) {
        let more = append_pairs_near(items, boxes, one, second, out)?;
        tests = tests.saturating_add(more);
    }
    Ok(tests)
}

// Appends the pairs of the item at the place with those of the run that stand before it, and tells how many tests that took: none,
// where its box doesn't meet the one around these.
fn append_pairs_near<T: Meets<T>, A: Allocator>(
    items: &[T],
    boxes: &[Bounds],
    run: Run,
    second: usize,
    out: &mut Vec<(usize, usize), A>,
) -> Result<usize, AllocError>
    requires boxed { MeetInBoxes T.bounds T.Meeting }
    requires boxes { boxes.now ≡ map T.bounds items.now }
    requires around { IsAroundThese run.from run.to boxes.now run.around }
    requires inside { second < length items.now }
    ensures ok { OnOk result (Gains (λ i j. IsFromUpto run.from run.to i × (j ≡ second) × PairAt T.Meeting items.now i j)
        out.old.items out.new.items) }
    ensures err { OnErr result (Extends out.old.items out.new.items) }
{
    if !boxes_meet(run.around, boxes[second]) {
        return Ok(0);
    }
    append_pairs_within(items, boxes, run.from, run.to, second, out)?;
    Ok(run.to.min(second).saturating_sub(run.from))
}

// A box around those from the one place up to the other.
fn box_around(boxes: &[Bounds], from: usize, to: usize) -> Bounds
    requires run { from < to }
    requires inside { to ≤ length boxes.now }
    ensures { IsAroundThese from to boxes.now result }
{
    let mut around = boxes[from];
    // It has the boxes so far within it.
    for place in from + 1..to {
        around = join_boxes(around, boxes[place]);
    }
    around
}
