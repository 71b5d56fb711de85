//! `StatusTree`: the status of a sweep line, in a red-black tree over the core.

ghost use Rattle.std.specs.Prelude.{◌≡◌, ◌<◌, ◌+◌, false, All, length, is_some, IsOk, IfOk, OnErr};
ghost use Rattle.i_tree.specs.Root.Along.{AboveAlongBy, AreNeighboursBy, AtMostAlongBy, NoneEqualBy};
ghost use Rattle.i_tree.specs.Root.Change.{Without};
ghost use Rattle.i_tree.specs.Root.Live.{is_live};
ghost use Rattle.i_tree.specs.Expiring.Insertion.{TellsNeighbours, has_joined};
ghost use Rattle.i_tree.specs.Expiring.Live.{IsExpired};
ghost use Rattle.i_tree.specs.Expiring.Tree.{items, live_in, TreeDescends};
ghost use Rattle.i_tree.specs.Rb.RbTree.{slots};
ghost use Rattle.i_tree.specs.Rb.Capacity.{MakesEmpty, Reserves};
ghost use Rattle.i_tree.specs.Rb.Balance.{IsCore};
ghost use Rattle.i_tree.specs.Status.Insertion.{IsNew};
ghost use Rattle.i_tree.specs.Status.StatusTree.{StatusTreeInserts, StatusTreeJoins};

use super::exp::StatusCollection;
use crate::expiring::descent::{descend, pair_at, value_at};
use crate::expiring::insertion::{has_joined, insert_between, pairs_beside};
use crate::expiring::live::{ByVal, LiveAt};
use crate::rb::RbTree;
use crate::steps::{Counter, Uncounted};
use crate::{Expiration, ExpiredVal, Refusal};
use std::alloc::Allocator;
use std::cmp::Ordering;
use std::marker::{Model, PhantomData};

/// The status of a sweep line, in a red-black tree.
///
/// Contracts see it as its core: the shape of the tree, whose items in order are the stored pairs along the line, and the
/// free slots. As in a `KeyExpTree`, a query or an insertion removes each expired entry that it meets on its descent, and goes
/// on from there; expired entries off its way stay stored. It is our own, and not of the Rust crate.
#[derive(Drop)]
pub struct StatusTree<K: ExpiredVal<E>, E: Expiration, V: Copy, A: Allocator + Copy> {
    core: RbTree<(K, V), A>,
    times: PhantomData<E>,
}

impl<K: ExpiredVal<E>, E: Expiration, V: Copy, A: Allocator + Copy> Model
    for StatusTree<K, E, V, A> {
    ghost use Rattle.i_tree.specs.Rb.RbTree.{Contents, contents_code};
    ghost use Rattle.std.specs.Coded.{coded×};

    ghost Value = { Contents (K × V) };

    ghost coded = { contents_code (coded× K.code V.code) };

    ghost view = { λ tree. tree.core };
}

impl<K: ExpiredVal<E>, E: Expiration, V: Copy, A: Allocator + Copy> StatusTree<K, E, V, A> {
    /// An empty status of exactly `max(capacity, 8)` slots, one of them reserved.
    ///
    /// It is refused with `NoHandle` exactly where `capacity` is above `EMPTY_REF`, before memory is asked for, and else
    /// only where the allocator refuses the slots.
    pub fn new(alloc: A, capacity: usize) -> Result<Self, Refusal>
        ensures makes { MakesEmpty capacity result }
    {
        Ok(StatusTree {
            core: RbTree::new(alloc, capacity)?,
            times: PhantomData,
        })
    }

    /// Makes so many slots in all, where there are fewer. A refusal changes nothing.
    ///
    /// It is refused with `NoHandle` exactly where `capacity` is above `EMPTY_REF`, before memory is asked for, and else
    /// only where the allocator refuses the growth.
    pub fn reserve_capacity(&mut self, capacity: usize) -> Result<(), Refusal>
        ensures reserves { Reserves capacity self.old self.new result }
        ensures core { IsCore self.new.shape }
    {
        self.core.reserve(capacity)
    }

    /// How many pairs are stored, expired ones among them.
    pub fn stored(&self) -> usize
        ensures value { result ≡ length (items self.now.shape) }
        ensures core { IsCore self.now.shape }
    {
        self.core.len()
    }

    /// How many slots are free: for so many insertions there is room.
    pub fn spare(&self) -> usize
        ensures value { result ≡ self.now.spare }
        ensures core { IsCore self.now.shape }
    {
        self.core.spare()
    }

    /// The tree that holds the pairs: its items in order are what is stored.
    pub fn core(&self) -> &RbTree<(K, V), A>
        ensures { result.now ≡ self.now }
    {
        &self.core
    }

    /// `insert_by`, with its steps counted: those of one descent, whether the pair joins or not. Each comparison is one call of
    /// `f`.
    ///
    /// It goes down to the place of the key, and removes each expired entry that it meets on its search path. Where `f` calls a
    /// live key Equal it then answers false. Else, where no slot is free, the slots are doubled, up to `EMPTY_REF` of them: it
    /// is refused with `NoHandle` exactly where all of these are in use then, and with `OutOfMemory` only where the growth was
    /// refused. So a refusal means that each entry on the way to the place is live and no slot was free, and it changes
    /// nothing; the comparisons and tests were made.
    pub fn insert_by_counted<C: Counter, F: Fn(K) -> Ordering>(
        &mut self,
        steps: &mut C,
        time: E,
        f: F,
        key: K,
        val: V,
    ) -> Result<bool, Refusal>
        requires { All (λ pair. F.pre f pair.0) (live_in K.expiration E.cmp time self.old) }
        ensures cases { IfOk result (λ is_new. IsNew (F.post f) is_new (live_in K.expiration E.cmp time self.old)) }
        ensures ok { IfOk result (λ is_new. StatusTreeJoins (is_live K.expiration E.cmp time) (F.post f) is_new
            (key, val) self.old self.new) }
        ensures err { OnErr result (self.new ≡ self.old) }
        ensures err_new { OnErr result (NoneEqualBy (F.post f) (live_in K.expiration E.cmp time self.old)) }
        ensures core { IsCore self.new.shape }

        // Slots and refusals.
        ensures inserts { StatusTreeInserts (is_live K.expiration E.cmp time) (F.post f) self.old result self.new }
        ensures with_spare { 0 < self.old.spare → IsOk result }

        // What was counted.
        ensures steps { IfOk result (λ is_new. TreeDescends C.made steps.old steps.new self.old self.new is_new) }
        ensures err_steps { OnErr result (TreeDescends C.made steps.old steps.new self.old self.new false) }
    {
        let pair = (key, val);
        let lives = LiveAt { time, by: ByVal };
        has_joined(insert_between(&mut self.core, steps, &lives, &f, pair))
    }

    /// `insert_between`, with its steps counted: those of one descent, whether the pair joins or not. Each comparison is one
    /// call of `f`.
    ///
    /// It goes down and is refused as `insert_by_counted`, and reads both neighbours where the descent has come to.
    pub fn insert_between_counted<C: Counter, F: Fn(K) -> Ordering>(
        &mut self,
        steps: &mut C,
        time: E,
        f: F,
        key: K,
        val: V,
    ) -> Result<Option<(Option<(K, V)>, Option<(K, V)>)>, Refusal>
        requires { All (λ pair. F.pre f pair.0) (live_in K.expiration E.cmp time self.old) }
        ensures cases { IfOk result (λ told.
            IsNew (F.post f) (is_some told) (live_in K.expiration E.cmp time self.old)) }
        ensures ok { IfOk result (λ told. StatusTreeJoins (is_live K.expiration E.cmp time) (F.post f) (is_some told)
            (key, val) self.old self.new) }
        ensures neighbours { IfOk result (TellsNeighbours (F.post f) (live_in K.expiration E.cmp time self.old)) }
        ensures err { OnErr result (self.new ≡ self.old) }
        ensures err_new { OnErr result (NoneEqualBy (F.post f) (live_in K.expiration E.cmp time self.old)) }
        ensures core { IsCore self.new.shape }

        // Slots and refusals.
        ensures inserts { StatusTreeInserts (is_live K.expiration E.cmp time) (F.post f)
            self.old (has_joined result) self.new }
        ensures with_spare { 0 < self.old.spare → IsOk result }

        // What was counted.
        ensures steps { IfOk result (λ told. TreeDescends C.made steps.old steps.new self.old self.new (is_some told)) }
        ensures err_steps { OnErr result (TreeDescends C.made steps.old steps.new self.old self.new false) }
    {
        let pair = (key, val);
        let lives = LiveAt { time, by: ByVal };
        let told = insert_between(&mut self.core, steps, &lives, &f, pair)?;
        Ok(pairs_beside(&self.core, told))
    }

    /// `first_less_or_equal_by`, with its steps counted: each comparison is one call of `f`.
    pub fn first_less_or_equal_by_counted<C: Counter, F: Fn(K) -> Ordering>(
        &mut self,
        steps: &mut C,
        time: E,
        default: V,
        f: F,
    ) -> V
        requires { All (λ pair. F.pre f pair.0) (live_in K.expiration E.cmp time self.old) }
        ensures value { AtMostAlongBy (F.post f) (live_in K.expiration E.cmp time self.old) default result }
        ensures kept { Without (IsExpired K.expiration E.cmp time) (items self.old.shape) (items self.new.shape) }
        ensures core { IsCore self.new.shape }

        // The slots, and what was counted.
        ensures slots { slots self.new ≡ slots self.old }
        ensures steps { TreeDescends C.made steps.old steps.new self.old self.new false }
    {
        let end = descend(&mut self.core, steps, &LiveAt { time, by: ByVal }, &f);
        value_at(&self.core, end.last, default)
    }

    /// `first_greater_by`, with its steps counted: each comparison is one call of `f`.
    pub fn first_greater_by_counted<C: Counter, F: Fn(K) -> Ordering>(
        &mut self,
        steps: &mut C,
        time: E,
        default: V,
        f: F,
    ) -> V
        requires { All (λ pair. F.pre f pair.0) (live_in K.expiration E.cmp time self.old) }
        ensures value { AboveAlongBy (F.post f) (live_in K.expiration E.cmp time self.old) default result }
        ensures kept { Without (IsExpired K.expiration E.cmp time) (items self.old.shape) (items self.new.shape) }
        ensures core { IsCore self.new.shape }

        // The slots, and what was counted.
        ensures slots { slots self.new ≡ slots self.old }
        ensures steps { TreeDescends C.made steps.old steps.new self.old self.new false }
    {
        let end = descend(&mut self.core, steps, &LiveAt { time, by: ByVal }, &f);
        value_at(&self.core, end.next, default)
    }

    /// `neighbours_by`, with its steps counted: those of one descent, which finds both. Each comparison is one call of `f`.
    pub fn neighbours_by_counted<C: Counter, F: Fn(K) -> Ordering>(
        &mut self,
        steps: &mut C,
        time: E,
        f: F,
    ) -> (Option<(K, V)>, Option<(K, V)>)
        requires { All (λ pair. F.pre f pair.0) (live_in K.expiration E.cmp time self.old) }
        ensures value { AreNeighboursBy (F.post f) (live_in K.expiration E.cmp time self.old) result }
        ensures kept { Without (IsExpired K.expiration E.cmp time) (items self.old.shape) (items self.new.shape) }
        ensures core { IsCore self.new.shape }

        // The slots, and what was counted.
        ensures slots { slots self.new ≡ slots self.old }
        ensures steps { TreeDescends C.made steps.old steps.new self.old self.new false }
    {
        let end = descend(&mut self.core, steps, &LiveAt { time, by: ByVal }, &f);
        (pair_at(&self.core, end.last), pair_at(&self.core, end.next))
    }
}

impl<K: ExpiredVal<E>, E: Expiration, V: Copy, A: Allocator + Copy> StatusCollection<K, E, V>
    for StatusTree<K, E, V, A> {
    ghost use Rattle.i_tree.specs.Expiring.Tree.{TreeLeaves, TreeClears};
    ghost use Rattle.i_tree.specs.Status.StatusTree.{StatusTreeInserts};
    ghost use Rattle.i_tree.specs.declared.TheConstants.{EMPTY_REF};

    ghost stored = { λ tree. items tree.shape };

    ghost room = { λ tree. length (items tree.shape) + tree.spare };

    ghost has_handles = { λ count. count < EMPTY_REF };

    ghost inserts = { λ may_answer key val time old result new.
        StatusTreeInserts (is_live K.expiration E.cmp time) may_answer old result new };

    ghost leaves = { λ time old new. TreeLeaves old new };

    ghost clears = { λ old new. TreeClears old new };

    /// Goes down to the place of the key, removes each expired entry that it meets on its search path, and stores the pair
    /// unless `f` calls a live key Equal: one descent says so and finds the place.
    ///
    /// Where a slot is free after that it succeeds. Else the slots double, up to `EMPTY_REF` of them: it is refused with
    /// `NoHandle` exactly where all of these are in use, and with `OutOfMemory` only where the growth was refused. A refusal
    /// changes nothing at all.
    fn insert_by<F: Fn(K) -> Ordering>(
        &mut self,
        time: E,
        f: F,
        key: K,
        val: V,
    ) -> Result<bool, Refusal> {
        self.insert_by_counted(&mut Uncounted, time, f, key, val)
    }

    /// Goes down, stores the pair and is refused as `insert_by`: the descent that finds the place ends between both
    /// neighbours.
    fn insert_between<F: Fn(K) -> Ordering>(
        &mut self,
        time: E,
        f: F,
        key: K,
        val: V,
    ) -> Result<Option<(Option<(K, V)>, Option<(K, V)>)>, Refusal> {
        self.insert_between_counted(&mut Uncounted, time, f, key, val)
    }

    /// Answers by `f`, which is asked about the live keys on the search path alone. Each expired entry on the search path is
    /// removed, and its slot is free.
    fn first_less_or_equal_by<F: Fn(K) -> Ordering>(&mut self, time: E, default: V, f: F) -> V {
        self.first_less_or_equal_by_counted(&mut Uncounted, time, default, f)
    }

    /// Answers by `f`, which is asked about the live keys on the search path alone. Each expired entry on the search path is
    /// removed, and its slot is free.
    fn first_greater_by<F: Fn(K) -> Ordering>(&mut self, time: E, default: V, f: F) -> V {
        self.first_greater_by_counted(&mut Uncounted, time, default, f)
    }

    /// Answers by `f`, which is asked about the live keys on the search path alone, in one descent. Each expired entry on the
    /// search path is removed, and its slot is free.
    fn neighbours_by<F: Fn(K) -> Ordering>(
        &mut self,
        time: E,
        f: F,
    ) -> (Option<(K, V)>, Option<(K, V)>) {
        self.neighbours_by_counted(&mut Uncounted, time, f)
    }

    /// Removes every pair, and keeps the slots. It asks for no memory.
    fn clear(&mut self) {
        self.core.clear();
    }
}
