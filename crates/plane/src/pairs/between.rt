//! Pairs of items of two lists.

ghost use Rattle.std.specs.Prelude.{◌≡◌, ◌++◌, ◌-◌, ◌<◌, ◌≤◌, ℕ, List, All, drop, length, map, take, OnOk, OnErr, IfErr};
ghost use Rattle.i_tree.specs.declared.Refusal.TheVariants.{OutOfMemory};
ghost use Rattle.plane.specs.Pairs.Bounds.{MeetInBoxesAcross};
ghost use Rattle.plane.specs.Pairs.Pairs.{ArePairsBetween};

use super::items::{Boxed, Meets};
use super::pairs_among;
use super::two::both;
use i_tree::Refusal;
use std::alloc::Allocator;

/// Appends each pair of places `(i, j)` where the item at i of the first list meets that at j of the second one, once.
/// The order of the pairs is open.
///
/// It is refused for want of memory alone, and leaves `out` as it was then. The memory is that of `out`'s allocator.
/// It is one sweep over both lists together, as `pairs_among` does it.
pub fn pairs_between<X: Meets<Y>, Y: Boxed, A: Allocator + Copy>(
    items: &[X],
    others: &[Y],
    out: &mut Vec<(usize, usize), A>,
) -> Result<(), Refusal>
    requires { MeetInBoxesAcross X.bounds Y.bounds X.Meeting }
    ensures ok { OnOk result ((pairs : List (ℕ × ℕ))
        × (out.new.items ≡ out.old.items ++ pairs) × ArePairsBetween X.Meeting items.now others.now pairs) }
    ensures within { OnOk result (All (λ pair. (pair.0 < length items.now) × (pair.1 < length others.now))
        (drop (length out.old.items) out.new.items)) }
    ensures err { OnErr result (out.new.items ≡ out.old.items) }
    ensures refused { IfErr result (λ cause. cause ≡ OutOfMemory) }
{
    let start = out.len();
    let both = both(*out.allocator(), items, others)?;
    pairs_among(&both, out)?;
    number_others(out, start, items.len());
    Ok(())
}

// Numbers the second places of the pairs from the start on anew: what was at so many is at 0.
fn number_others(pairs: &mut [(usize, usize)], start: usize, count: usize)
    requires start { start ≤ length pairs.old }
    requires others { All (λ pair. count ≤ pair.1) (drop start pairs.old) }
    ensures { pairs.new ≡ take start pairs.old ++ map (λ pair. (pair.0, pair.1 - count)) (drop start pairs.old) }
{
    subtract_from_all(&mut pairs[start..], count);
}

// Takes the count from each second place.
fn subtract_from_all(pairs: &mut [(usize, usize)], count: usize)
    requires { All (λ pair. count ≤ pair.1) pairs.old }
    ensures { pairs.new ≡ map (λ pair. (pair.0, pair.1 - count)) pairs.old }
{
    for pair in pairs.iter_mut() {
        pair.1 -= count;
    }
}
