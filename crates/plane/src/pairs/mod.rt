//! Pairs of items that meet, among those whose boxes do.

ghost use Rattle.std.specs.Prelude.{◌≡◌, ◌++◌, ◌-◌, ◌^◌, ◌<◌, ◌≤◌, ℕ, true, List, All, drop, length, IfSome, MatchBool, MatchOption, OnOk, OnErr, IfErr, IfOk};
ghost use Rattle.i_tree.specs.declared.Refusal.TheVariants.{OutOfMemory};
ghost use Rattle.plane.specs.Pairs.Bounds.{MeetInBoxes};
ghost use Rattle.plane.specs.Pairs.Pairs.{PairAt, ArePairs, AreMoreThan, GainsAll};
ghost use Rattle.plane.specs.Lists.{Extends};

pub use between::pairs_between;
pub use budget::Budget;
use cut::{strips_for, wanted_for};
use few::{append_pairs_of_few, are_few};
use i_tree::Refusal;
use items::Meets;
use parts::parts;
pub use points::{pairs_with_points, pairs_with_points_within_budget};
use runs::append_pairs_if_runs_pay;
use sampled::is_likely_spent;
use std::alloc::Allocator;
use sweep::append_pairs;

mod between;
pub mod boxes;
mod budget;
mod cut;
mod extents;
mod few;
pub mod items;
mod live;
mod parts;
mod points;
mod read_ahead;
mod rows;
mod runs;
mod sampled;
mod strips;
mod sweep;
mod two;

/// Appends each pair of places `(i, j)` whose items meet, i below j, once. The order of the pairs is open.
///
/// It is refused for want of memory alone, and leaves `out` as it was then. The memory is that of `out`'s allocator.
///
/// It is the textbook's sweep line over the boxes of the items, from left to right, with a segment tree over their
/// heights as its status, and with a test of each pair that lies near each other. Where many items are live at once,
/// their heights are cut into strips, each with a sweep of its own. While few are live in a strip, a list is its status.
/// Few items are compared with one another, and some more where boxes around those that follow each other tell that most lie apart.
pub fn pairs_among<T: Meets<T>, A: Allocator + Copy>(
    items: &[T],
    out: &mut Vec<(usize, usize), A>,
) -> Result<(), Refusal>
    requires { MeetInBoxes T.bounds T.Meeting }
    ensures ok { OnOk result ((pairs : List (ℕ × ℕ))
        × (out.new.items ≡ out.old.items ++ pairs) × ArePairs T.Meeting items.now pairs) }
    ensures within { OnOk result (All (λ pair. (pair.0 < pair.1) × (pair.1 < length items.now))
        (drop (length out.old.items) out.new.items)) }
    ensures err { OnErr result (out.new.items ≡ out.old.items) }
    ensures refused { IfErr result (λ cause. cause ≡ OutOfMemory) }
{
    pairs_within_budget(items, Budget::unlimited(), out)?;
    Ok(())
}

/// As `pairs_among`, but it gives up once it has tested more often than the budget allows, and answers whether all pairs are
/// there. Where it gave up, `out` is as it was.
///
/// It tests each pair of items that are live at once and whose heights meet. Where these are many though few meet, another way
/// takes less time. To look at a pair whose heights don't meet counts as an eighth of a test. The sweep counts them behind each
/// item, so the last item's tests may be more than the budget allows; and it gives up at less, where the first items take so many
/// that all will be too many. Into which strips heights are cut tells how many tests are made, and so when it gives up is open.
pub fn pairs_within_budget<T: Meets<T>, A: Allocator + Copy>(
    items: &[T],
    budget: Budget,
    out: &mut Vec<(usize, usize), A>,
) -> Result<bool, Refusal>
    requires { MeetInBoxes T.bounds T.Meeting }
    ensures ok { IfOk result (λ are_all. MatchBool are_all
        ((pairs : List (ℕ × ℕ)) × (out.new.items ≡ out.old.items ++ pairs) × ArePairs T.Meeting items.now pairs)
        (out.new.items ≡ out.old.items)) }
    ensures within { OnOk result (All (λ pair. (pair.0 < pair.1) × (pair.1 < length items.now))
        (drop (length out.old.items) out.new.items)) }
    ensures unlimited { budget.tests ≡ 2 ^ 64 - 1 → IfOk result (λ are_all. are_all ≡ true) }
    ensures err { OnErr result (out.new.items ≡ out.old.items) }
    ensures refused { IfErr result (λ cause. cause ≡ OutOfMemory) }
{
    gain_pairs(items, usize::MAX, budget, out)
}

/// As `pairs_among`, but it gives up once it has more than `most` pairs, and answers whether all are there.
///
/// All are there exactly where they are at most so many. The sweep counts them behind each item, so where it gives up,
/// all pairs of the last item with those before it are appended. Of few items all pairs are appended.
pub fn pairs_upto<T: Meets<T>, A: Allocator + Copy>(
    items: &[T],
    most: usize,
    out: &mut Vec<(usize, usize), A>,
) -> Result<bool, Refusal>
    requires { MeetInBoxes T.bounds T.Meeting }
    ensures ok { IfOk result (λ are_all. (pairs : List (ℕ × ℕ)) × (out.new.items ≡ out.old.items ++ pairs)
        × MatchBool are_all (ArePairs T.Meeting items.now pairs × (length pairs ≤ most))
        (AreMoreThan T.Meeting items.now most pairs)) }
    ensures within { OnOk result (All (λ pair. (pair.0 < pair.1) × (pair.1 < length items.now))
        (drop (length out.old.items) out.new.items)) }
    ensures err { OnErr result (out.new.items ≡ out.old.items) }
    ensures refused { IfErr result (λ cause. cause ≡ OutOfMemory) }
{
    let start = out.len();
    gain_pairs(items, most, Budget::unlimited(), out)?;
    Ok(out.len() - start <= most)
}

/// Some pair of places whose items meet, the lesser place first, or none exactly where no two items do. It is refused
/// for want of memory alone.
///
/// The sweep stops at the first item that meets others before it. Few items are all compared.
pub fn first_pair<T: Meets<T>, A: Allocator + Copy>(
    alloc: A,
    items: &[T],
) -> Result<Option<(usize, usize)>, Refusal>
    requires { MeetInBoxes T.bounds T.Meeting }
    ensures ok { IfOk result (λ found. MatchOption found ((i j : ℕ) → ¬ (PairAt T.Meeting items.now i j))
        (λ pair. PairAt T.Meeting items.now pair.0 pair.1)) }
    ensures within { IfOk result (λ found. IfSome found (λ pair. (pair.0 < pair.1) × (pair.1 < length items.now))) }
    ensures refused { IfErr result (λ cause. cause ≡ OutOfMemory) }
{
    let mut found = Vec::new(alloc);
    sweep_over(items, 0, Budget::unlimited(), &mut found)?;
    Ok(found.first().copied())
}

// As `pairs_within_budget`, but it stops once it has more than `most` pairs.
fn gain_pairs<T: Meets<T>, A: Allocator + Copy>(
    items: &[T],
    most: usize,
    budget: Budget,
    out: &mut Vec<(usize, usize), A>,
) -> Result<bool, Refusal>
    requires { MeetInBoxes T.bounds T.Meeting }
    ensures ok { IfOk result (λ is_done. MatchBool is_done
        (GainsAll T.Meeting items.now most out.old.items out.new.items) (out.new.items ≡ out.old.items)) }
    ensures within { OnOk result (All (λ pair. (pair.0 < pair.1) × (pair.1 < length items.now))
        (drop (length out.old.items) out.new.items)) }
    ensures unlimited { budget.tests ≡ 2 ^ 64 - 1 → IfOk result (λ is_done. is_done ≡ true) }
    ensures err { OnErr result (out.new.items ≡ out.old.items) }
    ensures refused { IfErr result (λ cause. cause ≡ OutOfMemory) }
{
    let start = out.len();
    let outcome = sweep_over(items, most, budget, out);
    if !matches!(outcome, Ok(true)) {
        out.truncate(start);
    }
    outcome
}

// As `gain_pairs`, but where it gives up or is refused, it may have appended some pairs.
fn sweep_over<T: Meets<T>, A: Allocator + Copy>(
    items: &[T],
    most: usize,
    budget: Budget,
    out: &mut Vec<(usize, usize), A>,
) -> Result<bool, Refusal>
    requires { MeetInBoxes T.bounds T.Meeting }
    ensures ok { IfOk result (λ is_done. MatchBool is_done
        (GainsAll T.Meeting items.now most out.old.items out.new.items) (Extends out.old.items out.new.items)) }
    ensures unlimited { budget.tests ≡ 2 ^ 64 - 1 → IfOk result (λ is_done. is_done ≡ true) }
    ensures err { OnErr result (Extends out.old.items out.new.items) }
    ensures refused { IfErr result (λ cause. cause ≡ OutOfMemory) }
{
    if are_few(items) {
        append_pairs_of_few(items, out)?;
        return Ok(true);
    }
    if let Some(is_done) = append_pairs_if_runs_pay(items, most, budget, out)? {
        return Ok(is_done);
    }
    let alloc = *out.allocator();
    let strips = strips_for(items, wanted_for(items));
    if is_likely_spent(alloc, items, strips, budget)? {
        return Ok(false);
    }
    let parts = parts(alloc, items, strips)?;
    append_pairs(items, most, budget, strips, &parts, out)
}
