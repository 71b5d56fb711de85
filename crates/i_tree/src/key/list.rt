//! `KeyExpList`: keys that expire, in a sorted vector.

ghost use Rattle.std.specs.Prelude.{◌≡◌, ◌≢◌, ◌<◌, ◌≤◌, ◌+◌, [], length, IsOk, OnOk, OnErr, IfOk};
ghost use Rattle.std.specs.List.{insert};
ghost use Rattle.std.specs.List.Sorted.{IsPartitionPoint};
ghost use Rattle.std.specs.declared.cmp.Ordering.TheVariants.{Less};
ghost use Rattle.i_tree.specs.Root.Causes.{RefusedFor};
ghost use Rattle.i_tree.specs.Root.Change.{Without};
ghost use Rattle.i_tree.specs.Expiring.List.{ListLeaves};
ghost use Rattle.i_tree.specs.Expiring.Live.{IsExpired};
ghost use Rattle.i_tree.specs.Root.Pairs.{IsRising, NoKey};

use super::exp::KeyExpCollection;
use super::sorted::{has_key_at, has_live_key, place_of, value_above, value_at_most, value_below};
use crate::expiring::list::ExpiringList;
use crate::expiring::live::ByKey;
use crate::{Expiration, ExpiredKey, Refusal};
use std::alloc::{AllocError, Allocator};
use std::cmp::Ordering;
use std::marker::Model;

/// A sorted vector of keys that expire, each with a value.
///
/// Contracts see the stored pairs by rising key, and `spare`, for how many more there is room. As in the Rust crate
/// `i_tree`, an insertion or a query first removes all that is expired at its time.
#[derive(Drop)]
pub struct KeyExpList<K: ExpiredKey<E>, E: Expiration, V: Copy, A: Allocator + Copy> {
    held: ExpiringList<ByKey, K, E, V, A>,
}

impl<K: ExpiredKey<E>, E: Expiration, V: Copy, A: Allocator + Copy> Model
    for KeyExpList<K, E, V, A> {
    ghost use Rattle.i_tree.specs.Expiring.List.{Contents};
    ghost use Rattle.i_tree.specs.Root.Pairs.{IsRising};

    ghost Value = { Contents K V };

    ghost view = { λ list. list.held };

    ghost invariant = { λ list. IsRising K.cmp list.held.pairs };
}

impl<K: ExpiredKey<E>, E: Expiration, V: Copy, A: Allocator + Copy> KeyExpList<K, E, V, A> {
    /// An empty list with room for at least `capacity` pairs, refused where the allocator refuses that room.
    pub fn new(alloc: A, capacity: usize) -> Result<Self, Refusal>
        ensures empty { IfOk result (λ list. list.pairs ≡ []) }
        ensures room { IfOk result (λ list. capacity ≤ list.spare) }
        ensures refused { RefusedFor Refusal.OutOfMemory result }
        ensures takes_none { capacity ≡ 0 → IsOk result }
    {
        Ok(KeyExpList {
            held: ExpiringList::new(alloc, capacity)?,
        })
    }

    /// Makes room for `capacity` pairs in all, those that are stored among them. A refusal changes nothing.
    pub fn reserve_capacity(&mut self, capacity: usize) -> Result<(), Refusal>
        ensures pairs { self.new.pairs ≡ self.old.pairs }
        ensures room { OnOk result (capacity ≤ length self.new.pairs + self.new.spare) }
        ensures kept { self.old.spare ≤ self.new.spare }
        ensures err { OnErr result (self.new ≡ self.old) }
        ensures refused { RefusedFor Refusal.OutOfMemory result }
        ensures with_room { capacity ≤ length self.old.pairs + self.old.spare → IsOk result }
    {
        self.held.reserve_capacity(capacity)
    }

    /// How many pairs are stored, expired ones among them.
    pub fn stored(&self) -> usize
        ensures { result ≡ length self.now.pairs }
    {
        self.held.stored()
    }

    /// For how many more pairs there is room.
    pub fn spare(&self) -> usize
        ensures { result ≡ self.now.spare }
    {
        self.held.spare()
    }

    // The pairs that are stored.
    fn pairs(&self) -> &[(K, V)]
        ensures value { result.now ≡ self.now.pairs }
        ensures rising { IsRising K.cmp self.now.pairs }
    {
        self.held.pairs()
    }

    // Puts the pair at the place of its key, which no stored key compares Equal to.
    fn put(&mut self, place: usize, key: K, val: V) -> Result<(), Refusal>
        requires within { place ≤ length self.old.pairs }
        requires splits { IsPartitionPoint
            (λ pair. K.cmp pair.0 key ≡ Less) (λ pair. K.cmp pair.0 key ≢ Less) self.old.pairs place }
        requires free { NoKey K.cmp self.old.pairs key }
        ensures ok { OnOk result (self.new.pairs ≡ insert self.old.pairs place (key, val)) }
        ensures err { OnErr result (self.new ≡ self.old) }
        ensures rising { IsRising K.cmp self.new.pairs }
        ensures refused { RefusedFor Refusal.OutOfMemory result }
        ensures with_spare { 0 < self.old.spare → IsOk result }
        ensures room { length self.old.pairs + self.old.spare ≤ length self.new.pairs + self.new.spare }
    {
        self.held.put(place, key, val)
    }

    // Removes what is expired at `time`.
    fn remove_expired(&mut self, time: E)
        ensures kept { Without (IsExpired K.expiration E.cmp time) self.old.pairs self.new.pairs }
        ensures rising { IsRising K.cmp self.new.pairs }
        ensures leaves { ListLeaves K.expiration E.cmp time self.old self.new }
    {
        self.held.remove_expired(time);
    }
}

impl<K: ExpiredKey<E>, E: Expiration, V: Copy, A: Allocator + Copy> KeyExpCollection<K, E, V>
    for KeyExpList<K, E, V, A> {
    ghost use Rattle.std.specs.Prelude.{⊤};
    ghost use Rattle.i_tree.specs.Expiring.List.{ListLeaves, ListClears};
    ghost use Rattle.i_tree.specs.Key.KeyExpList.{KeyListInserts};

    ghost stored = { λ list. list.pairs };

    ghost room = { λ list. length list.pairs + list.spare };

    ghost has_handles = { λ _. ⊤ };

    ghost inserts = { λ key val time old result new. KeyListInserts K.expiration E.cmp (key, val) time old result new };

    ghost leaves = { λ time old new. ListLeaves K.expiration E.cmp time old new };

    ghost clears = { λ old new. ListClears old new };

    /// Removes what is expired at `time`, and then stores the pair.
    ///
    /// It is refused for want of memory alone: never while there is room, nor where an expired pair makes room.
    /// A refusal changes nothing at all.
    fn insert(&mut self, key: K, val: V, time: E) -> Result<(), Refusal> {
        self.remove_expired(time);
        let place = place_of(self.pairs(), &key);
        self.put(place, key, val)
    }

    /// Removes what is expired at `time`, and then stores the pair unless a key that is left compares Equal: one search says so
    /// and finds the place.
    ///
    /// It asks for memory only where the key is new, and is refused then as `insert` is.
    fn insert_new(&mut self, key: K, val: V, time: E) -> Result<bool, Refusal> {
        self.remove_expired(time);
        let place = place_of(self.pairs(), &key);
        if has_key_at(self.pairs(), place, &key) {
            return Ok(false);
        }
        if let Err(cause) = self.put(place, key, val) {
            return Err(cause);
        }
        Ok(true)
    }

    /// Removes what is expired at `time`, and answers the value of the greatest key below `key`, or `default`
    /// where none is below it.
    fn first_less(&mut self, time: E, default: V, key: K) -> V {
        self.remove_expired(time);
        value_below(self.pairs(), &key, default)
    }

    /// Removes what is expired at `time`, and answers by `f`, which is asked about what is left alone.
    fn first_less_or_equal_by<F: Fn(K) -> Ordering>(&mut self, time: E, default: V, f: F) -> V {
        self.remove_expired(time);
        value_at_most(self.pairs(), f, default)
    }

    /// Removes what is expired at `time`, and answers by `f`, which is asked about what is left alone.
    fn first_greater_by<F: Fn(K) -> Ordering>(&mut self, time: E, default: V, f: F) -> V {
        self.remove_expired(time);
        value_above(self.pairs(), f, default)
    }

    fn contains_key(&self, time: E, key: K) -> bool {
        has_live_key(self.pairs(), time, &key)
    }

    /// Removes every pair, and keeps the room.
    fn clear(&mut self) {
        self.held.clear();
    }
}

impl<K: ExpiredKey<E>, E: Expiration, V: Copy, A: Allocator + Copy> Clone
    for KeyExpList<K, E, V, A> {
    // A clone stores the same pairs.
    ghost is_clone = { λ list clone. clone.pairs ≡ list.pairs };

    /// Copies the pairs, which asks nothing of the clones of keys and values. A refusal leaves nothing behind.
    fn clone(&self) -> Result<Self, AllocError> {
        Ok(KeyExpList {
            held: self.held.copy()?,
        })
    }
}
