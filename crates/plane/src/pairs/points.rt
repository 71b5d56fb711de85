//! Pairs of items and of points.

ghost use Rattle.std.specs.Prelude.{◌≡◌, ◌⊎◌, ◌++◌, ◌<◌, ◌≤◌, ◌+◌, ◌-◌, ◌^◌, ◌<ℤ◌, ◌≤ℤ◌, ℕ, true, List, All, AllPairs, MatchBool, Some, drop, length, slice_get, OnOk, OnErr, IfErr, IfOk};
ghost use Rattle.i_tree.specs.declared.Refusal.TheVariants.{OutOfMemory};
ghost use Rattle.plane.specs.Pairs.Bounds.{IsPoint, MeetInBoxesAcross};
ghost use Rattle.plane.specs.Pairs.Pairs.{ArePairsBetween, PairBetween};
ghost use Rattle.plane.specs.Pairs.Parts.{NotBehind};
ghost use Rattle.plane.specs.Pairs.Points.{ArePointsOf, AreRows, AreStarts, BeginAs, Gains, IsFirstFrom, IsStart, MeetsAt, MeetsPart};
ghost use Rattle.plane.specs.Lists.{Extends};

use super::budget::{Budget, LOOKS_PER_TEST};
use super::few::{append_pairs_with_few, are_few_points};
use super::items::{Boxed, Meets};
use super::parts::{Part, parts};
use super::rows::rows_for;
use super::strips::Strips;
use i_tree::Refusal;
use std::alloc::{AllocError, Allocator};

/// Appends each pair of places `(i, j)` where the item at i meets the point at j, once. The order of the pairs is open.
///
/// It is refused for want of memory alone, and leaves `out` as it was then. The memory is that of `out`'s allocator.
///
/// It is `pairs_between` for a second list of points, most often in less time: heights are cut into rows, the points are
/// sorted by row and x, and each item looks at the points of its rows from its left side to its right one. With few points
/// each item is compared with all.
pub fn pairs_with_points<X: Meets<Y>, Y: Boxed, A: Allocator + Copy>(
    items: &[X],
    points: &[Y],
    out: &mut Vec<(usize, usize), A>,
) -> Result<(), Refusal>
    requires boxed { MeetInBoxesAcross X.bounds Y.bounds X.Meeting }
    requires points { All (λ point. IsPoint (Y.bounds point)) points.now }
    ensures ok { OnOk result ((pairs : List (ℕ × ℕ))
        × (out.new.items ≡ out.old.items ++ pairs) × ArePairsBetween X.Meeting items.now points.now pairs) }
    ensures within { OnOk result (All (λ pair. (pair.0 < length items.now) × (pair.1 < length points.now))
        (drop (length out.old.items) out.new.items)) }
    ensures err { OnErr result (out.new.items ≡ out.old.items) }
    ensures refused { IfErr result (λ cause. cause ≡ OutOfMemory) }
{
    pairs_with_points_within_budget(items, points, Budget::unlimited(), out)?;
    Ok(())
}

/// As `pairs_with_points`, but it gives up once it has tested more often than the budget allows, and answers whether all pairs
/// are there. Where it gave up, `out` is as it was.
///
/// It looks at the points of an item's rows from its left side to its right one, and each row that it reaches counts as a look too.
/// Eight looks count as a test. They are counted behind each item, so those of the last one may be more than the budget allows.
/// Into which rows heights are cut tells how many there are, and so when it gives up is open.
pub fn pairs_with_points_within_budget<X: Meets<Y>, Y: Boxed, A: Allocator + Copy>(
    items: &[X],
    points: &[Y],
    budget: Budget,
    out: &mut Vec<(usize, usize), A>,
) -> Result<bool, Refusal>
    requires boxed { MeetInBoxesAcross X.bounds Y.bounds X.Meeting }
    requires points { All (λ point. IsPoint (Y.bounds point)) points.now }
    ensures ok { IfOk result (λ are_all. MatchBool are_all ((pairs : List (ℕ × ℕ))
        × (out.new.items ≡ out.old.items ++ pairs) × ArePairsBetween X.Meeting items.now points.now pairs)
        (out.new.items ≡ out.old.items)) }
    ensures within { OnOk result (All (λ pair. (pair.0 < length items.now) × (pair.1 < length points.now))
        (drop (length out.old.items) out.new.items)) }
    ensures unlimited { budget.tests ≡ 2 ^ 64 - 1 → IfOk result (λ are_all. are_all ≡ true) }
    ensures err { OnErr result (out.new.items ≡ out.old.items) }
    ensures refused { IfErr result (λ cause. cause ≡ OutOfMemory) }
{
    if points.is_empty() {
        return Ok(true);
    }
    let start = out.len();
    let outcome = append_all(items, points, budget, out);
    if !matches!(outcome, Ok(true)) {
        out.truncate(start);
    }
    outcome
}

// Points in rows: their parts in order by row and x, where each row begins among these, and the points in the order of
// their parts.
#[derive(Drop)]
struct PointRows<'a, Y> {
    points: &'a [Y],
    rows: Strips,
    parts: &'a [Part],
    starts: &'a [usize],
    ordered: &'a [Y],
}

// As `pairs_with_points_within_budget`, but where it gives up or is refused, it may have appended some pairs.
fn append_all<X: Meets<Y>, Y: Boxed, A: Allocator + Copy>(
    items: &[X],
    points: &[Y],
    budget: Budget,
    out: &mut Vec<(usize, usize), A>,
) -> Result<bool, Refusal>
    requires boxed { MeetInBoxesAcross X.bounds Y.bounds X.Meeting }
    requires points { All (λ point. IsPoint (Y.bounds point)) points.now }
    ensures ok { IfOk result (λ is_done. MatchBool is_done
        (Gains (PairBetween X.Meeting items.now points.now) out.old.items out.new.items)
        (Extends out.old.items out.new.items)) }
    ensures unlimited { budget.tests ≡ 2 ^ 64 - 1 → IfOk result (λ is_done. is_done ≡ true) }
    ensures err { OnErr result (Extends out.old.items out.new.items) }
    ensures refused { IfErr result (λ cause. cause ≡ OutOfMemory) }
{
    if are_few_points(points) {
        append_pairs_with_few(items, points, out)?;
        return Ok(true);
    }
    let alloc = *out.allocator();
    let rows = rows_for(items, points);
    let parts = parts(alloc, points, rows)?;
    let starts = starts_of(alloc, &parts)?;
    let ordered = points_of(alloc, points, &parts)?;
    let table = PointRows {
        points,
        rows,
        parts: &parts,
        starts: &starts,
        ordered: &ordered,
    };
    let start = out.len();
    let mut looks = 0usize;
    for place in 0..items.len() {
        let asked = append_of_item(items[place], place, &table, out)?;
        looks = looks.saturating_add(asked);
        if budget.is_spent(looks / LOOKS_PER_TEST, out.len() - start) {
            return Ok(false);
        }
    }
    Ok(true)
}

// The points of the parts, in the order of these.
fn points_of<Y: Copy, A: Allocator>(
    alloc: A,
    points: &[Y],
    parts: &[Part],
) -> Result<Vec<Y, A>, AllocError>
    requires { All (λ part. part.place < length points.now) parts.now }
    ensures { IfOk result (λ ordered. ArePointsOf points.now parts.now (length parts.now) ordered.items) }
{
    let mut ordered = Vec::with_capacity(alloc, parts.len())?;
    for part in parts {
        ordered.push(points[part.place])?;
    }
    Ok(ordered)
}

// Where each row up to the last one that has a point begins among the parts of points.
fn starts_of<A: Allocator>(alloc: A, parts: &[Part]) -> Result<Vec<usize, A>, AllocError>
    requires { AllPairs NotBehind parts.now }
    ensures { IfOk result (λ starts. AreStarts parts.now (length parts.now) starts.items) }
{
    let mut starts = Vec::new(alloc);
    // The rows up to those of the parts so far have their starts.
    for place in 0..parts.len() {
        begin_rows(&mut starts, parts, place)?;
    }
    Ok(starts)
}

// Appends where the rows up to that of the part at a place begin, which is there.
fn begin_rows<A: Allocator>(
    starts: &mut Vec<usize, A>,
    parts: &[Part],
    place: usize,
) -> Result<(), AllocError>
    requires in_order { AllPairs NotBehind parts.now }
    requires inside { place < length parts.now }
    requires before { AreStarts parts.now place starts.old.items }
    ensures { OnOk result (AreStarts parts.now (place + 1) starts.new.items) }
{
    let end = parts[place].strip as usize + 1;
    // The rows so far begin at the place or before it, and no part before it stands in a row behind them.
    for row in starts.len()..end {
        starts.push(place)?;
    }
    Ok(())
}

// Where a row begins among the parts.
fn start_of(starts: &[usize], parts: &[Part], row: usize) -> usize
    requires { AreStarts parts.now (length parts.now) starts.now }
    ensures { IsStart parts.now row result }
{
    if row < starts.len() {
        starts[row]
    } else {
        parts.len()
    }
}

// Appends the pairs of the item at a place, row by row. It answers how many points it was tested with and rows it reaches.
fn append_of_item<X: Meets<Y>, Y: Boxed, A: Allocator>(
    item: X,
    place: usize,
    table: &PointRows<'_, Y>,
    out: &mut Vec<(usize, usize), A>,
) -> Result<usize, AllocError>
    requires boxed { MeetInBoxesAcross X.bounds Y.bounds X.Meeting }
    requires rows { AreRows Y.bounds table.now.rows table.now.points.now table.now.parts.now table.now.starts.now
        table.now.ordered.now }
    ensures ok { OnOk result (Gains (λ i j. (i ≡ place) × MeetsAt (X.Meeting item) table.now.points.now j)
        out.old.items out.new.items) }
    ensures err { OnErr result (Extends out.old.items out.new.items) }
{
    let bounds = item.bounds();
    let rows = table.rows;
    let first = rows.strip_at(bounds.low.max(rows.base)) as usize;
    let last = rows.strip_at(bounds.high.max(rows.base)) as usize;
    let end = table.starts.len().min(last + 1);
    let mut tests = end.saturating_sub(first);
    // The pairs with the points of the rows so far stand there.
    for row in first..end {
        tests = tests.saturating_add(append_in_row(item, place, table, row, out)?);
    }
    Ok(tests)
}

// Appends the pairs of the item at a place with the points of a row. It answers how many of these it was tested with.
fn append_in_row<X: Meets<Y>, Y: Boxed, A: Allocator>(
    item: X,
    place: usize,
    table: &PointRows<'_, Y>,
    row: usize,
    out: &mut Vec<(usize, usize), A>,
) -> Result<usize, AllocError>
    requires boxed { MeetInBoxesAcross X.bounds Y.bounds X.Meeting }
    requires rows { AreRows Y.bounds table.now.rows table.now.points.now table.now.parts.now table.now.starts.now
        table.now.ordered.now }
    requires reached { row < length table.now.starts.now }
    ensures ok { OnOk result (Gains
        (λ i j. (i ≡ place) × MeetsPart (X.Meeting item) table.now.points.now table.now.parts.now
        (λ _ part. part.strip ≡ row) j) out.old.items out.new.items) }
    ensures err { OnErr result (Extends out.old.items out.new.items) }
{
    let bounds = item.bounds();
    let from = first_from(table.parts, table.starts, table.ordered, row, bounds.left);
    let end = start_of(table.starts, table.parts, row + 1);
    // The pairs with the points of the row so far stand there. What stands in it before `from` lies left of the item.
    for next in from..end {
        let point = table.ordered[next];
        if is_past(point, bounds.right) {
            return Ok(next - from);
        }
        append_if_met(item, place, point, &table.parts[next], out)?;
    }
    Ok(end.saturating_sub(from))
}

// Appends the pair of the item and the point of the part where they meet.
fn append_if_met<X: Meets<Y>, Y: Boxed, A: Allocator>(
    item: X,
    place: usize,
    point: Y,
    part: &Part,
    out: &mut Vec<(usize, usize), A>,
) -> Result<(), AllocError>
    ensures ok { OnOk result (Gains (λ i j. (i ≡ place) × (j ≡ part.now.place) × X.Meeting item point)
        out.old.items out.new.items) }
    ensures err { OnErr result (out.new.items ≡ out.old.items) }
{
    if item.meets(point) {
        out.push((place, part.place))?;
    }
    Ok(())
}

// The place of the first part in the row from the x on, or in a row above, by halves of what stands in the row. Every
// other comparison there would be guessed wrongly, so no branch depends on one.
fn first_from<Y: Boxed>(
    parts: &[Part],
    starts: &[usize],
    ordered: &[Y],
    row: usize,
    left: i32,
) -> usize
    requires in_order { AllPairs NotBehind parts.now }
    requires starts { AreStarts parts.now (length parts.now) starts.now }
    requires reached { row < length starts.now }
    requires begin { BeginAs Y.bounds parts.now ordered.now }
    ensures { IsFirstFrom parts.now row left result }
{
    let start = start_of(starts, parts, row);
    let end = start_of(starts, parts, row + 1);
    let mut first = start;
    let mut size = end - start;
    // Parts before `first` stand before the x, and those from `first + size` on do not.
    while size > 1 {
        let half = size / 2;
        let middle = first + half;
        first += half * count_before(ordered[middle], left);
        size -= half;
    }
    if size == 1 {
        first += count_before(ordered[first], left);
    }
    first
}

// How many of this one point stand before the x: one or none, by the difference.
fn count_before<Y: Boxed>(point: Y, left: i32) -> usize
    ensures { let at = (Y.bounds point).left in ((result ≡ 1) × (at <ℤ left)) ⊎ ((result ≡ 0) × (left ≤ℤ at)) }
{
    let above = (left as i64 - point.bounds().left as i64 + 0xffff_ffff) as u64;
    (above / 0x1_0000_0000) as usize
}

// Whether the point stands beyond the x.
fn is_past<Y: Boxed>(point: Y, right: i32) -> bool
    ensures { let at = (Y.bounds point).left in MatchBool result (right <ℤ at) (at ≤ℤ right) }
{
    right < point.bounds().left
}
