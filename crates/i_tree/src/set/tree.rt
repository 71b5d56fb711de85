//! `SetTree`: an ordered set in a red-black tree over the core.

ghost use Rattle.std.specs.Prelude.{◌≡◌, ◌≢◌, ◌<◌, ◌+◌, ◌++◌, ◌∷◌, ℕ, List, All, length, IsOk, OnOk, OnErr, IfErr, IsErrAnd, max};
ghost use Rattle.std.specs.Borrow.{Bor};
ghost use Rattle.std.specs.Fn.{FnReturnsAt};
ghost use Rattle.std.specs.declared.cmp.Ordering.{Ordering};
ghost use Rattle.std.specs.declared.cmp.Ordering.TheVariants.{Equal, Less};
ghost use Rattle.i_tree.specs.Root.Descent.{Searches};
ghost use Rattle.i_tree.specs.Root.Steps.{OnlyRotates};
ghost use Rattle.i_tree.specs.Rb.RbTree.{slots, slots_with_room};
ghost use Rattle.i_tree.specs.Rb.Capacity.{MakesEmpty, TakesSlot};
ghost use Rattle.i_tree.specs.Rb.Removal.{LosesAt};
ghost use Rattle.i_tree.specs.Set.Insertion.{IfAbsent, IfPresent};
ghost use Rattle.i_tree.specs.Set.Pairs.{HasHandle, HoldsKey, IsOrdered, LacksKey, TakesKeys, IsFound};
ghost use Rattle.i_tree.specs.Set.SetTree.{JoinsWithHandle, SetTreeInserts};
ghost use Rattle.i_tree.specs.Rb.Place.{IsPlaceBetween, place_below};
ghost use Rattle.i_tree.specs.Rb.Balance.{IsCore};
ghost use Rattle.i_tree.specs.Rb.Shape.{entries, occurs, IsHandle, last_handle};

use super::sort::{KeyValue, SetCollection};
use crate::rb::RbTree;
use crate::rb::place::place_below;
use crate::rb::search::{SearchEnd, search_down};
use crate::steps::{Counter, Uncounted};
use crate::{EMPTY_REF, Refusal, Refused};
use std::alloc::Allocator;
use std::cmp::Ordering;
use std::marker::{Model, PhantomData};

/// Values in the order of their keys, in a red-black tree. Each value keeps its handle until it is removed.
///
/// Contracts see it as its core: the shape of the tree and the free slots. It is the `SetTree` of the Rust crate `i_tree`.
#[derive(Drop)]
pub struct SetTree<K, V, A: Allocator + Copy> {
    core: RbTree<V, A>,
    keys: PhantomData<K>,
}

impl<K, V, A: Allocator + Copy> Model for SetTree<K, V, A> {
    ghost use Rattle.i_tree.specs.Rb.RbTree.{Contents, contents_code};

    ghost Value = { Contents V };

    ghost coded = { contents_code V.code };

    ghost view = { λ set. set.core };
}

impl<K: Ord, V: KeyValue<K> + Drop, A: Allocator + Copy> SetTree<K, V, A> {
    /// An empty set of exactly `max(capacity, 8)` slots, one of them reserved.
    ///
    /// It is refused with `NoHandle` exactly where `capacity` is above `EMPTY_REF`, before memory is asked for, and else
    /// only where the allocator refuses the slots. That it takes an allocator and may be refused is our own.
    pub fn new(alloc: A, capacity: usize) -> Result<Self, Refusal>
        ensures makes { MakesEmpty capacity result }
    {
        Ok(SetTree {
            core: RbTree::new(alloc, capacity)?,
            keys: PhantomData,
        })
    }

    /// How many slots are free: for so many insertions there is room. It is our own.
    pub fn spare(&self) -> usize
        ensures value { result ≡ self.now.spare }
        ensures core { IsCore self.now.shape }
    {
        self.core.spare()
    }

    /// The tree that holds the values. It is our own.
    pub fn core(&self) -> &RbTree<V, A>
        ensures { result.now ≡ self.now }
    {
        &self.core
    }

    /// `insert`, with its steps counted.
    ///
    /// The value joins the others directly at the place of its key, with a handle that no value had, and all handles
    /// stay. Where a slot is free it succeeds. Else the slots double, up to `EMPTY_REF` of them: it is refused with
    /// `NoHandle` exactly where all of these are in use, and with `OutOfMemory` only where the growth was refused. A
    /// refusal changes nothing and hands the value back; the comparisons were made. The counts and the refusals are our
    /// own.
    pub fn insert_counted<C: Counter>(&mut self, steps: &mut C, val: V) -> Result<(), Refused<V>>
        requires in_order { IsOrdered V.key_of K.cmp (entries self.old.shape) }
        requires absent { LacksKey V.key_of K.cmp (entries self.old.shape) (V.key_of val) }
        ensures joins { OnOk result ((front : List (ℕ × V)) × (handle : ℕ) × (back : List (ℕ × V))
            × (entries self.old.shape ≡ front ++ back) × (entries self.new.shape ≡ front ++ (handle, val) ∷ back)
            × (occurs handle self.old.shape ≡ 0)) }
        ensures keeps { (handle : ℕ) → HasHandle (entries self.old.shape) handle →
            HasHandle (entries self.new.shape) handle }
        ensures in_order { IsOrdered V.key_of K.cmp (entries self.new.shape) }
        ensures takes { TakesSlot val self.old self.new result }
        ensures steps { Searches C.made steps.old steps.new (length (entries self.old.shape)) 0 2 }
        ensures err_steps { OnErr result (Searches C.made steps.old steps.new (length (entries self.old.shape)) 0 0) }
        ensures core { IsCore self.new.shape }
    {
        let ended = self.search_key(steps, val.key());
        self.put(steps, ended, val)
    }

    /// `insert_new`, with its steps counted.
    ///
    /// The value is put as by `insert_counted`, unless a value of the set has its key: then it comes back, and the set is
    /// as it was. The comparisons were made in either case.
    pub fn insert_new_counted<C: Counter>(
        &mut self,
        steps: &mut C,
        val: V,
    ) -> Result<Option<V>, Refused<V>>
        requires { IsOrdered V.key_of K.cmp (entries self.old.shape) }
        ensures present { IfPresent result (λ given. (given ≡ val)
            × HoldsKey V.key_of K.cmp (entries self.old.shape) (V.key_of val) × (self.new ≡ self.old)) }
        ensures absent { IfAbsent result (λ _. LacksKey V.key_of K.cmp (entries self.old.shape) (V.key_of val)) }
        ensures inserts { IfAbsent result (λ insertion. SetTreeInserts val self.old insertion self.new) }
        ensures handed { IfErr result (λ refused. refused.value ≡ val) }
        ensures in_order { IsOrdered V.key_of K.cmp (entries self.new.shape) }
        ensures steps { Searches C.made steps.old steps.new (length (entries self.old.shape)) 0 2 }
        ensures present_steps { IfPresent result (λ _.
            Searches C.made steps.old steps.new (length (entries self.old.shape)) 0 0) }
        ensures err_steps { OnErr result (Searches C.made steps.old steps.new (length (entries self.old.shape)) 0 0) }
        ensures core { IsCore self.new.shape }
    {
        let ended = self.search_key(steps, val.key());
        if ended.said.is_eq() {
            return Ok(Some(val));
        }
        self.put(steps, ended, val)?;
        Ok(None)
    }

    // Goes down the tree to the place of the key. What it ended behind was called Equal where a value of the set has the key.
    fn search_key<C: Counter>(&self, steps: &mut C, key: &K) -> SearchEnd
        requires { IsOrdered V.key_of K.cmp (entries self.now.shape) }
        ensures present { result.said ≡ Equal → HoldsKey V.key_of K.cmp (entries self.now.shape) key.now }
        ensures absent { result.said ≢ Equal → LacksKey V.key_of K.cmp (entries self.now.shape) key.now }
        ensures place { result.said ≢ Equal → (front : List (ℕ × V)) × (back : List (ℕ × V))
            × IsPlaceBetween self.now.shape front back (place_below result.above result.on_right)
            × All (λ pair. K.cmp (V.key_of pair.1) key.now ≡ Less) front
            × All (λ pair. K.cmp key.now (V.key_of pair.1) ≡ Less) back }
        ensures core { IsCore self.now.shape }
        ensures steps { Searches C.made steps.old steps.new (length (entries self.now.shape)) 0 0 }
    {
        let stands = |value: &V| -> Ordering
            ensures { result ≡ K.cmp (V.key_of value.entry.now) key.entry.now }
        { value.key().cmp(key) };
        search_down(&self.core, steps, &stands)
    }

    // Puts the value where the search for its key has ended, a key that no value of the set has.
    fn put<C: Counter>(&mut self, steps: &mut C, ended: SearchEnd, val: V) -> Result<(), Refused<V>>
        requires in_order { IsOrdered V.key_of K.cmp (entries self.old.shape) }
        requires place { (front : List (ℕ × V)) × (back : List (ℕ × V))
            × IsPlaceBetween self.old.shape front back (place_below ended.above ended.on_right)
            × All (λ pair. K.cmp (V.key_of pair.1) (V.key_of val) ≡ Less) front
            × All (λ pair. K.cmp (V.key_of val) (V.key_of pair.1) ≡ Less) back }
        ensures joins { OnOk result (JoinsWithHandle val self.old.shape self.new.shape) }
        ensures keeps { (handle : ℕ) → HasHandle (entries self.old.shape) handle →
            HasHandle (entries self.new.shape) handle }
        ensures in_order { IsOrdered V.key_of K.cmp (entries self.new.shape) }
        ensures takes { TakesSlot val self.old self.new result }
        ensures steps { OnlyRotates C.made steps.old steps.new 2 }
        ensures err_steps { OnErr result (steps.new ≡ steps.old) }
        ensures core { IsCore self.new.shape }
    {
        self.core
            .insert_at(steps, place_below(ended.above, ended.on_right), val)?;
        Ok(())
    }

    /// `first_index_less_by`, with its steps counted: each comparison is one call of `f`. The counts are our own.
    pub fn first_index_less_by_counted<C: Counter, F: Fn(&K) -> Ordering>(
        &self,
        steps: &mut C,
        f: F,
    ) -> u32
        requires in_order { IsOrdered V.key_of K.cmp (entries self.now.shape) }
        requires callable { TakesKeys V.key_of (λ key. F.pre f key) (entries self.now.shape) }
        ensures value { IsFound V.key_of K.cmp (λ key answer. FnReturnsAt F.Fn f key answer)
            (entries self.now.shape) result }
        ensures live { result ≢ EMPTY_REF → HasHandle (entries self.now.shape) result }
        ensures core { IsCore self.now.shape }
        ensures steps { Searches C.made steps.old steps.new (length (entries self.now.shape)) 0 0 }
    {
        let stands = |value: &V| -> Ordering
            requires { (key : Bor K) → key.now ≡ V.key_of value.now → F.pre f key }
            ensures { FnReturnsAt F.Fn f (V.key_of value.entry.now) result }
        { f(value.key()) };
        search_down(&self.core, steps, &stands).found
    }

    // The key of the value at the handle.
    fn key_at(&self, handle: u32) -> &K
        requires { IsHandle self.now.shape handle }
        ensures { (front : List (ℕ × V)) (value : V) (back : List (ℕ × V)) →
            entries self.now.shape ≡ front ++ (handle, value) ∷ back → result.now ≡ V.key_of value }
    {
        self.core.item(handle).key()
    }

    // The handle of the last value, or `EMPTY_REF` where there is none.
    fn last(&self) -> u32
        ensures { result ≡ last_handle (entries self.now.shape) }
    {
        let mut last = EMPTY_REF;
        let mut here = self.core.root();
        // `last` stands directly in front of the subtree at `here`, behind which nothing stands.
        while here != EMPTY_REF {
            last = here;
            here = self.core.right(here);
        }
        last
    }
}

impl<K: Ord, V: KeyValue<K> + Drop, A: Allocator + Copy> SetCollection<K, V> for SetTree<K, V, A> {
    ghost use Rattle.i_tree.specs.Rb.Shape.{entries, with_item};
    ghost use Rattle.i_tree.specs.Set.SetTree.{SetTreeInserts, SetTreeDeletes};
    ghost use Rattle.i_tree.specs.Laws.TreePairs.{with_value-entries};

    ghost pairs = { λ set. entries set.shape };

    ghost room = { λ set. length (entries set.shape) + set.spare };

    ghost put = { λ set handle value. record set { shape = with_item handle value set.shape } };

    ghost inserts = { λ val old result new. SetTreeInserts val old result new };

    ghost deletes = { λ index old new. SetTreeDeletes index old new };

    ghost put_pairs = { λ set handle value. with_value-entries handle value set.shape };

    /// Puts the value at the place of its key, with a handle that no value had. All handles stay.
    ///
    /// Where a slot is free it succeeds. Else the slots double, up to `EMPTY_REF` of them: it is refused with `NoHandle`
    /// exactly where all of these are in use, and with `OutOfMemory` only where the growth was refused. A refusal changes
    /// nothing and hands the value back. The rule is that of the Rust crate `i_tree`, and the refusals are our own.
    fn insert(&mut self, val: V) -> Result<(), Refused<V>> {
        self.insert_counted(&mut Uncounted, val)
    }

    /// Puts the value at the place of its key, as `insert` does, unless a value of the set has it: then the value comes back.
    fn insert_new(&mut self, val: V) -> Result<Option<V>, Refused<V>> {
        self.insert_new_counted(&mut Uncounted, val)
    }

    /// Removes the value at the handle, and drops it. Every other value keeps its handle, or the next one alone has this
    /// handle now.
    ///
    /// It takes no memory: the slot is free for an insertion. Where the Rust crate `i_tree` clones the next value into its
    /// place, this one moves it.
    fn delete_by_index(&mut self, index: u32) {
        self.core.remove(&mut Uncounted, index);
    }

    fn len(&self) -> usize {
        self.core.len()
    }

    fn first_index(&self) -> u32 {
        self.core.first()
    }

    fn index_after(&self, index: u32) -> u32 {
        self.core.after(index)
    }

    fn index_before(&self, index: u32) -> u32 {
        self.core.before(index)
    }

    fn first_index_less_by<F: Fn(&K) -> Ordering>(&self, f: F) -> u32 {
        self.first_index_less_by_counted(&mut Uncounted, f)
    }

    fn value_by_index(&self, index: u32) -> &V {
        self.core.item(index)
    }

    fn value_by_index_mut(&mut self, index: u32) -> &mut V {
        self.core.item_mut(index)
    }

    fn has_index(&self, index: u32) -> bool {
        self.core.has(index)
    }

    fn is_ordered(&self) -> bool {
        let mut here = self.last();
        // The keys rise from `here` on.
        for _ in 1..self.core.len() {
            let before = self.core.before(here);
            match self.key_at(before).cmp(self.key_at(here)) {
                Ordering::Less => here = before,
                _ => return false,
            }
        }
        true
    }
}
