//! `Live`: what is live in a strip.

ghost use Rattle.std.specs.Prelude.{◌≡◌, ◌∷◌, ℤ, ◌≤ℤ◌, true, false, [], All, IsPermutation, OnOk, IfOk, IfErr};
ghost use Rattle.std.specs.declared.option.Option.TheVariants.{None, Some};
ghost use Rattle.i_tree.specs.declared.Refusal.TheVariants.{OutOfMemory};
ghost use Rattle.plane.specs.Pairs.Bounds.{IsBox};
ghost use Rattle.plane.specs.Pairs.Live.{IsIn, held, live_items, members_in};
ghost use Rattle.plane.specs.Pairs.Strips.{IsOverStrip, range_in};
ghost use Rattle.plane.specs.Pairs.Sweep.{member_in};

use super::items::Boxed;
use super::strips::Strips;
use super::sweep::Placed;
use i_tree::Refusal;
use i_tree::seg::exp::{SegExpCollection, SegRange};
use i_tree::seg::tree::SegExpTree;
use std::alloc::Allocator;

// So many items stand in a list at most. One goes over a shorter one faster than one asks the tree, mostly.
const FEW: usize = 32;

/// The items that have joined in a strip and are live: in a list while they are few, and from then on in a segment tree
/// over their heights, to the end of the strip.
#[derive(Drop)]
pub struct Live<T: Boxed, A: Allocator + Copy> {
    pub is_few: bool,
    pub few: Vec<Placed<T>, A>,
    pub tree: SegExpTree<u32, i32, Placed<T>, A>,
    // Room for what the tree answers.
    pub near: Vec<Placed<T>, A>,
}

impl<T: Boxed, A: Allocator + Copy> Live<T, A> {
    /// Nothing is live, in any of these strips.
    pub fn new(alloc: A, strips: Strips) -> Result<Live<T, A>, Refusal>
        ensures over { IfOk result (λ live. IsOverStrip strips live.tree.buckets) }
        ensures few { IfOk result (λ live. live.is_few ≡ true) }
        ensures empty { IfOk result (λ live. live.few.items ≡ []) }
        ensures refused { IfErr result (λ cause. cause ≡ OutOfMemory) }
    {
        // A strip is wide enough for a layout.
        let tree = SegExpTree::new(alloc, strips.heights())?.unwrap();
        Ok(Live {
            is_few: true,
            few: Vec::new(alloc),
            tree,
            near: Vec::new(alloc),
        })
    }

    /// Nothing is live in a strip that is entered.
    pub fn clear(&mut self)
        ensures few { self.new.is_few ≡ true }
        ensures empty { self.new.few.items ≡ [] }
        ensures buckets { self.new.tree.buckets ≡ self.old.tree.buckets }
    {
        self.is_few = true;
        self.few.clear();
    }

    /// Drops the items of the list that have expired at the time.
    pub fn drop_expired(&mut self, time: i32)
        ensures few { self.new.is_few ≡ self.old.is_few }
        ensures live { self.new.few.items ≡ live_items T.bounds time self.old.few.items }
        ensures tree { self.new.tree ≡ self.old.tree }
    {
        self.few.retain(|placed| placed.item.bounds().right >= time);
    }

    /// The item joins, over its range in the strip. Where it is one too many for the list, all go over into the tree.
    pub fn join(
        &mut self,
        strips: Strips,
        strip: u32,
        placed: Placed<T>,
        range: SegRange<u32>,
    ) -> Result<(), Refusal>
        requires proper { (item : T) → IsBox (T.bounds item) }
        requires reaches { IsIn T.bounds strips strip placed }
        requires within { All (λ member. IsIn T.bounds strips strip member.value) (held T.bounds strips strip self.old).members }
        requires range { range ≡ range_in strips strip (T.bounds placed.item) }
        requires over { IsOverStrip strips self.old.tree.buckets }
        requires in_time { (time : ℤ) → (held T.bounds strips strip self.old).latest ≡ Some time
            → time ≤ℤ (T.bounds placed.item).left }
        ensures ok { OnOk result (IsPermutation
            (member_in T.bounds strips strip self.old.tree.buckets placed ∷ (held T.bounds strips strip self.old).members)
            (held T.bounds strips strip self.new).members) }
        ensures refused { IfErr result (λ cause. cause ≡ OutOfMemory) }
        ensures latest { (held T.bounds strips strip self.new).latest ≡ (held T.bounds strips strip self.old).latest }
        ensures buckets { self.new.tree.buckets ≡ self.old.tree.buckets }
    {
        if !self.is_few {
            return self.tree.insert_by_range(range, placed);
        }
        if self.few.len() < FEW {
            self.few.push(placed)?;
            return Ok(());
        }
        self.move_over(strips, strip)?;
        self.tree.insert_by_range(range, placed)
    }

    // All items of the list go over into the tree, over their ranges in the strip.
    fn move_over(&mut self, strips: Strips, strip: u32) -> Result<(), Refusal>
        requires few { self.old.is_few ≡ true }
        requires proper { (item : T) → IsBox (T.bounds item) }
        requires within { All (λ placed. IsIn T.bounds strips strip placed) self.old.few.items }
        requires over { IsOverStrip strips self.old.tree.buckets }
        ensures many { self.new.is_few ≡ false }
        ensures ok { OnOk result (IsPermutation (held T.bounds strips strip self.old).members self.new.tree.members) }
        ensures refused { IfErr result (λ cause. cause ≡ OutOfMemory) }
        ensures latest { self.new.tree.latest ≡ None }
        ensures buckets { self.new.tree.buckets ≡ self.old.tree.buckets }
    {
        self.is_few = false;
        self.tree.clear();
        insert_all(&mut self.tree, strips, strip, &self.few)
    }
}

// Inserts the items, each over its range in the strip, into a tree that is empty.
fn insert_all<T: Boxed, A: Allocator + Copy>(
    tree: &mut SegExpTree<u32, i32, Placed<T>, A>,
    strips: Strips,
    strip: u32,
    items: &[Placed<T>],
) -> Result<(), Refusal>
    requires proper { (item : T) → IsBox (T.bounds item) }
    requires within { All (λ placed. IsIn T.bounds strips strip placed) items.now }
    requires over { IsOverStrip strips tree.old.buckets }
    requires empty { tree.old.members ≡ [] }
    requires unasked { tree.old.latest ≡ None }
    ensures ok { OnOk result (IsPermutation (members_in T.bounds strips strip tree.old.buckets items.now)
        tree.new.members) }
    ensures refused { IfErr result (λ cause. cause ≡ OutOfMemory) }
    ensures latest { tree.new.latest ≡ None }
    ensures buckets { tree.new.buckets ≡ tree.old.buckets }
{
    for placed in items {
        let range = strips.range_in(strip, placed.item.bounds());
        tree.insert_by_range(range, *placed)?;
    }
    Ok(())
}
