//! `KeyExpTree`: keys that expire, in a red-black tree over the core.

ghost use Rattle.std.specs.Prelude.{◌≡◌, ◌≢◌, ◌<◌, ◌+◌, All, length, IsOk, OnOk, OnErr, IfOk, IsErr, MatchBool, true, false, if◌then◌else◌};
ghost use Rattle.std.specs.Ordering.{is_lt};
ghost use Rattle.std.specs.declared.cmp.Ordering.{Ordering};
ghost use Rattle.std.specs.declared.cmp.Ordering.TheVariants.{Less, Greater};
ghost use Rattle.i_tree.specs.Root.Causes.{RefusedFor};
ghost use Rattle.i_tree.specs.Root.Answer.{Below, AtMostBy, AboveBy};
ghost use Rattle.i_tree.specs.Root.Change.{GainsOrLoses, Without};
ghost use Rattle.i_tree.specs.Root.Descent.{SearchesFor};
ghost use Rattle.i_tree.specs.Expiring.Tree.{items, live_in, DoublesIfFull, TreeDescends, TreeGains};
ghost use Rattle.i_tree.specs.Key.KeyExpTree.{IsPathLive, KeyTreeInsertsNew};
ghost use Rattle.i_tree.specs.Expiring.Live.{IsExpired};
ghost use Rattle.i_tree.specs.Root.Pairs.{HasKey, NoKey, IsNewKey, IsRising};
ghost use Rattle.i_tree.specs.Rb.RbTree.{slots};
ghost use Rattle.i_tree.specs.Rb.Capacity.{MakesEmpty, Reserves};
ghost use Rattle.i_tree.specs.Rb.Balance.{IsCore};

use super::exp::KeyExpCollection;
use crate::expiring::descent::{below_or_not, descend, value_at};
use crate::expiring::insertion::{has_joined, insert_between};
use crate::expiring::live::{ByKey, LiveAt, is_live};
use crate::rb::RbTree;
use crate::rb::search::search_down;
use crate::steps::{Counter, Uncounted};
use crate::{EMPTY_REF, Expiration, ExpiredKey, Refusal};
use std::alloc::Allocator;
use std::cmp::Ordering;
use std::marker::{Model, PhantomData};

/// A red-black tree of keys that expire, each with a value.
///
/// Contracts see it as its core: the shape of the tree, whose items in order are the stored pairs, and the free slots. As
/// in the Rust crate `i_tree`, a query or an insertion removes each expired entry that it meets on its descent, and goes
/// on from there; expired entries off its way stay stored.
#[derive(Drop)]
pub struct KeyExpTree<K: ExpiredKey<E>, E: Expiration, V: Copy, A: Allocator + Copy> {
    core: RbTree<(K, V), A>,
    times: PhantomData<E>,
}

impl<K: ExpiredKey<E>, E: Expiration, V: Copy, A: Allocator + Copy> Model
    for KeyExpTree<K, E, V, A> {
    ghost use Rattle.i_tree.specs.Expiring.Tree.{items};
    ghost use Rattle.i_tree.specs.Root.Pairs.{IsRising};
    ghost use Rattle.i_tree.specs.Rb.RbTree.{Contents, contents_code};
    ghost use Rattle.std.specs.Coded.{coded×};

    ghost Value = { Contents (K × V) };

    ghost coded = { contents_code (coded× K.code V.code) };

    ghost view = { λ tree. tree.core };

    ghost invariant = { λ tree. IsRising K.cmp (items tree.core.shape) };
}

impl<K: ExpiredKey<E>, E: Expiration, V: Copy, A: Allocator + Copy> KeyExpTree<K, E, V, A> {
    /// An empty tree of exactly `max(capacity, 8)` slots, one of them reserved.
    ///
    /// It is refused with `NoHandle` exactly where `capacity` is above `EMPTY_REF`, before memory is asked for, and else
    /// only where the allocator refuses the slots. That it takes an allocator and may be refused is our own.
    pub fn new(alloc: A, capacity: usize) -> Result<Self, Refusal>
        ensures makes { MakesEmpty capacity result }
    {
        Ok(KeyExpTree {
            core: RbTree::new(alloc, capacity)?,
            times: PhantomData,
        })
    }

    /// Makes so many slots in all, where there are fewer. A refusal changes nothing.
    ///
    /// It is refused with `NoHandle` exactly where `capacity` is above `EMPTY_REF`, before memory is asked for, and else
    /// only where the allocator refuses the growth. The refusals are our own.
    pub fn reserve_capacity(&mut self, capacity: usize) -> Result<(), Refusal>
        ensures reserves { Reserves capacity self.old self.new result }
        ensures core { IsCore self.new.shape }
    {
        self.core.reserve(capacity)
    }

    /// How many pairs are stored, expired ones among them. It is our own.
    pub fn stored(&self) -> usize
        ensures value { result ≡ length (items self.now.shape) }
        ensures core { IsCore self.now.shape }
    {
        self.core.len()
    }

    /// How many slots are free: for so many insertions there is room. It is our own.
    pub fn spare(&self) -> usize
        ensures value { result ≡ self.now.spare }
        ensures core { IsCore self.now.shape }
    {
        self.core.spare()
    }

    /// The tree that holds the pairs: its items in order are what is stored. It is our own.
    pub fn core(&self) -> &RbTree<(K, V), A>
        ensures value { result.now ≡ self.now }
        ensures rising { IsRising K.cmp (items self.now.shape) }
    {
        &self.core
    }

    /// `insert`, with its steps counted.
    ///
    /// It goes down to the place of the key, and removes each expired entry that it meets on its search path. Only then, where no
    /// slot is free, are the slots doubled, up to `EMPTY_REF` of them: it is refused with `NoHandle` exactly where all of
    /// these are in use then, and with `OutOfMemory` only where the growth was refused. So a refusal means that each entry on
    /// the way to the key's place is live and no slot was free, and it changes nothing; the comparisons and tests were made.
    /// The counts and the refusals are our own.
    pub fn insert_counted<C: Counter>(
        &mut self,
        steps: &mut C,
        key: K,
        val: V,
        time: E,
    ) -> Result<(), Refusal>
        requires { NoKey K.cmp (live_in K.expiration E.cmp time self.old) key }
        ensures ok { OnOk result (TreeGains K.expiration E.cmp time (key, val) self.old self.new) }
        ensures err { OnErr result (self.new ≡ self.old) }
        ensures rising { IsRising K.cmp (items self.new.shape) }
        ensures core { IsCore self.new.shape }

        // Slots and refusals.
        ensures slots { OnOk result (DoublesIfFull self.old self.new) }
        ensures with_spare { 0 < self.old.spare → IsOk result }
        ensures err_way { OnErr result (IsPathLive K.expiration K.cmp E.cmp key time self.old) }
        ensures full { self.old.spare ≡ 0 → slots self.old ≡ EMPTY_REF
            → IsPathLive K.expiration K.cmp E.cmp key time self.old → IsErr result }
        ensures no_handle { slots self.old ≡ EMPTY_REF → RefusedFor Refusal.NoHandle result }
        ensures refused { slots self.old ≢ EMPTY_REF → RefusedFor Refusal.OutOfMemory result }

        // What was counted.
        ensures steps { OnOk result (TreeDescends C.made steps.old steps.new self.old self.new true) }
        ensures err_steps { OnErr result (TreeDescends C.made steps.old steps.new self.old self.new false) }
    {
        let stands = |other: K| -> Ordering
            ensures { result ≡ (if is_lt (K.cmp other key) then Less else Greater) }
        { below_or_not(&other, &key) };
        let pair = (key, val);
        if let Err(cause) = insert_between(
            &mut self.core,
            steps,
            &LiveAt { time, by: ByKey },
            &stands,
            pair,
        ) {
            return Err(cause);
        }
        Ok(())
    }

    /// `insert_new`, with its steps counted: those of one descent, whether the key is new or not.
    ///
    /// It goes down to the place of the key, and removes each expired entry that it meets on its search path. Where a live key
    /// compares Equal it then answers false. Else it stores the pair and is refused as `insert_counted`. The call and the
    /// counts are our own.
    pub fn insert_new_counted<C: Counter>(
        &mut self,
        steps: &mut C,
        key: K,
        val: V,
        time: E,
    ) -> Result<bool, Refusal>
        ensures cases { IfOk result (λ is_new. IsNewKey K.cmp (live_in K.expiration E.cmp time self.old) key is_new) }
        ensures ok { IfOk result (λ is_new. GainsOrLoses (IsExpired K.expiration E.cmp time) is_new
            (key, val) (items self.old.shape) (items self.new.shape)) }
        ensures err { OnErr result (self.new ≡ self.old) }
        ensures err_new { OnErr result (NoKey K.cmp (live_in K.expiration E.cmp time self.old) key) }
        ensures rising { IsRising K.cmp (items self.new.shape) }

        // The slots, and when it is refused: as `insert_counted` where the key is new, and else as a query.
        ensures inserts { KeyTreeInsertsNew K.expiration K.cmp E.cmp key time self.old result self.new }
        ensures with_spare { 0 < self.old.spare → IsOk result }
        ensures core { IsCore self.new.shape }

        // What was counted.
        ensures steps { IfOk result (λ is_new. TreeDescends C.made steps.old steps.new self.old self.new is_new) }
        ensures err_steps { OnErr result (TreeDescends C.made steps.old steps.new self.old self.new false) }
    {
        let stands = |other: K| -> Ordering
            ensures { result ≡ K.cmp other key }
        { other.cmp(&key) };
        let pair = (key, val);
        has_joined(insert_between(
            &mut self.core,
            steps,
            &LiveAt { time, by: ByKey },
            &stands,
            pair,
        ))
    }

    /// `first_less`, with its steps counted. The counts are our own.
    pub fn first_less_counted<C: Counter>(
        &mut self,
        steps: &mut C,
        time: E,
        default: V,
        key: K,
    ) -> V
        ensures value { Below K.cmp (live_in K.expiration E.cmp time self.old) key default result }
        ensures kept { Without (IsExpired K.expiration E.cmp time) (items self.old.shape) (items self.new.shape) }
        ensures rising { IsRising K.cmp (items self.new.shape) }
        ensures core { IsCore self.new.shape }

        // The slots, and what was counted.
        ensures slots { slots self.new ≡ slots self.old }
        ensures steps { TreeDescends C.made steps.old steps.new self.old self.new false }
    {
        let stands = |other: K| -> Ordering
            ensures { result ≡ (if is_lt (K.cmp other key) then Less else Greater) }
        { below_or_not(&other, &key) };
        let end = descend(&mut self.core, steps, &LiveAt { time, by: ByKey }, &stands);
        value_at(&self.core, end.last, default)
    }

    /// `first_less_or_equal_by`, with its steps counted: each comparison is one call of `f`. The counts are our own.
    pub fn first_less_or_equal_by_counted<C: Counter, F: Fn(K) -> Ordering>(
        &mut self,
        steps: &mut C,
        time: E,
        default: V,
        f: F,
    ) -> V
        requires { All (λ pair. F.pre f pair.0) (live_in K.expiration E.cmp time self.old) }
        ensures value { AtMostBy K.cmp (F.post f) (live_in K.expiration E.cmp time self.old) default result }
        ensures kept { Without (IsExpired K.expiration E.cmp time) (items self.old.shape) (items self.new.shape) }
        ensures rising { IsRising K.cmp (items self.new.shape) }
        ensures core { IsCore self.new.shape }

        // The slots, and what was counted.
        ensures slots { slots self.new ≡ slots self.old }
        ensures steps { TreeDescends C.made steps.old steps.new self.old self.new false }
    {
        let end = descend(&mut self.core, steps, &LiveAt { time, by: ByKey }, &f);
        value_at(&self.core, end.last, default)
    }

    /// `first_greater_by`, with its steps counted: each comparison is one call of `f`. The call and the counts are our own.
    pub fn first_greater_by_counted<C: Counter, F: Fn(K) -> Ordering>(
        &mut self,
        steps: &mut C,
        time: E,
        default: V,
        f: F,
    ) -> V
        requires { All (λ pair. F.pre f pair.0) (live_in K.expiration E.cmp time self.old) }
        ensures value { AboveBy K.cmp (F.post f) (live_in K.expiration E.cmp time self.old) default result }
        ensures kept { Without (IsExpired K.expiration E.cmp time) (items self.old.shape) (items self.new.shape) }
        ensures rising { IsRising K.cmp (items self.new.shape) }
        ensures core { IsCore self.new.shape }

        // The slots, and what was counted.
        ensures slots { slots self.new ≡ slots self.old }
        ensures steps { TreeDescends C.made steps.old steps.new self.old self.new false }
    {
        let end = descend(&mut self.core, steps, &LiveAt { time, by: ByKey }, &f);
        value_at(&self.core, end.next, default)
    }

    /// `contains_key`, with its steps counted. Expired entries are compared too, and one alone is tested: that whose key
    /// compares Equal, live or not, if there is one. The counts are our own.
    pub fn contains_key_counted<C: Counter>(&self, steps: &mut C, time: E, key: K) -> bool
        ensures cases { MatchBool result
            (HasKey K.cmp (live_in K.expiration E.cmp time self.now) key)
            (NoKey K.cmp (live_in K.expiration E.cmp time self.now) key) }
        ensures rising { IsRising K.cmp (items self.now.shape) }
        ensures steps { SearchesFor C.made steps.old steps.new (length (items self.now.shape))
            (HasKey K.cmp (items self.now.shape) key) (NoKey K.cmp (items self.now.shape) key) }
        ensures core { IsCore self.now.shape }
    {
        let stands = |pair: &(K, V)| -> Ordering
            ensures { result ≡ K.cmp pair.entry.now.0 key }
        { pair.0.cmp(&key) };
        let ended = search_down(&self.core, steps, &stands);
        if !ended.said.is_eq() {
            return false;
        }
        steps.add_test();
        is_live::<ByKey, K, E>(&self.core.item(ended.found).0, time)
    }
}

impl<K: ExpiredKey<E>, E: Expiration, V: Copy, A: Allocator + Copy> KeyExpCollection<K, E, V>
    for KeyExpTree<K, E, V, A> {
    ghost use Rattle.i_tree.specs.Expiring.Tree.{TreeLeaves, TreeClears};
    ghost use Rattle.i_tree.specs.Key.KeyExpTree.{KeyTreeInserts};
    ghost use Rattle.i_tree.specs.declared.TheConstants.{EMPTY_REF};

    ghost stored = { λ tree. items tree.shape };

    ghost room = { λ tree. length (items tree.shape) + tree.spare };

    ghost has_handles = { λ count. count < EMPTY_REF };

    ghost inserts = { λ key val time old result new. KeyTreeInserts K.expiration K.cmp E.cmp key time old result new };

    ghost leaves = { λ time old new. TreeLeaves old new };

    ghost clears = { λ old new. TreeClears old new };

    /// Goes down to the place of the key, removes each expired entry that it meets on its search path, and stores the pair.
    ///
    /// Where a slot is free after that it succeeds. Else the slots double, up to `EMPTY_REF` of them: it is refused with
    /// `NoHandle` exactly where all of these are in use, and with `OutOfMemory` only where the growth was refused. A refusal
    /// changes nothing at all.
    fn insert(&mut self, key: K, val: V, time: E) -> Result<(), Refusal> {
        self.insert_counted(&mut Uncounted, key, val, time)
    }

    /// Goes down to the place of the key, removes each expired entry that it meets on its search path, and stores the pair unless
    /// a live key compares Equal: one descent says so and finds the place.
    ///
    /// Where it answers false, the slots of what it removed are free, and no memory is asked for. Else the slots and the
    /// refusals are those of `insert`.
    fn insert_new(&mut self, key: K, val: V, time: E) -> Result<bool, Refusal> {
        self.insert_new_counted(&mut Uncounted, key, val, time)
    }

    /// Answers the value of the greatest live key below `key`, or `default` where none is below it. Each expired entry on
    /// the way is removed, and its slot is free.
    fn first_less(&mut self, time: E, default: V, key: K) -> V {
        self.first_less_counted(&mut Uncounted, time, default, key)
    }

    /// Answers by `f`, which is asked about the live keys on the search path alone. Each expired entry on the search path is removed, and
    /// its slot is free.
    fn first_less_or_equal_by<F: Fn(K) -> Ordering>(&mut self, time: E, default: V, f: F) -> V {
        self.first_less_or_equal_by_counted(&mut Uncounted, time, default, f)
    }

    /// Answers the value of the first live key that `f` calls Greater, or `default`; `f` is asked about the live keys on the search path
    /// alone. Each expired entry on the search path is removed, and its slot is free.
    fn first_greater_by<F: Fn(K) -> Ordering>(&mut self, time: E, default: V, f: F) -> V {
        self.first_greater_by_counted(&mut Uncounted, time, default, f)
    }

    fn contains_key(&self, time: E, key: K) -> bool {
        self.contains_key_counted(&mut Uncounted, time, key)
    }

    /// Removes every pair, and keeps the slots. It asks for no memory.
    fn clear(&mut self) {
        self.core.clear();
    }
}
