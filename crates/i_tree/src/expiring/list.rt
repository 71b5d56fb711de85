//! `ExpiringList`: pairs whose keys expire, in a vector. Both lists stand on it.

ghost use Rattle.std.specs.Prelude.{◌≡◌, ◌<◌, ◌≤◌, ◌+◌, [], length, IsOk, OnOk, OnErr, IfOk, IfSome};
ghost use Rattle.std.specs.List.{insert};
ghost use Rattle.i_tree.specs.Root.Causes.{RefusedFor};
ghost use Rattle.i_tree.specs.Root.Change.{Without};
ghost use Rattle.i_tree.specs.Expiring.List.{ListLeaves};
ghost use Rattle.i_tree.specs.Expiring.Live.{IsExpired};

use super::live::{Expires, keep_live};
use crate::list_insertion::insert_at;
use crate::{Expiration, Refusal};
use std::alloc::{AllocError, Allocator};
use std::marker::{Model, PhantomData};

/// Pairs whose keys expire, in a vector, in the order in which they were put. `X` says when a key expires.
#[derive(Drop)]
pub struct ExpiringList<X: Expires<K, E>, K: Copy, E: Expiration, V: Copy, A: Allocator + Copy> {
    pairs: Vec<(K, V), A>,
    // No stored key expires before it, so up to this time all of them are live.
    earliest: E,
    by: PhantomData<X>,
}

impl<X: Expires<K, E>, K: Copy, E: Expiration, V: Copy, A: Allocator + Copy> Model
    for ExpiringList<X, K, E, V, A> {
    ghost use Rattle.std.specs.Prelude.{◌-◌, vec_len, vec_capacity};
    ghost use Rattle.i_tree.specs.Expiring.List.{Contents};
    ghost use Rattle.i_tree.specs.Expiring.Live.{NoneExpiresBefore};

    ghost Value = { Contents K V };

    ghost view = { λ list. record {
      pairs = list.pairs.items;
      spare = vec_capacity list.pairs - vec_len list.pairs;
    } };

    ghost invariant = { λ list. NoneExpiresBefore X.expiration E.cmp list.earliest list.pairs.items };
}

impl<X: Expires<K, E>, K: Copy, E: Expiration, V: Copy, A: Allocator + Copy> ExpiringList<
    X,
    K,
    E,
    V,
    A,
> {
    /// An empty list with room for at least `capacity` pairs, refused where the allocator refuses that room.
    pub fn new(alloc: A, capacity: usize) -> Result<Self, Refusal>
        ensures empty { IfOk result (λ list. list.pairs ≡ []) }
        ensures room { IfOk result (λ list. capacity ≤ list.spare) }
        ensures refused { RefusedFor Refusal.OutOfMemory result }
        ensures takes_none { capacity ≡ 0 → IsOk result }
    {
        Ok(ExpiringList {
            pairs: Vec::with_capacity(alloc, capacity)?,
            earliest: E::max_expiration(),
            by: PhantomData,
        })
    }

    /// Makes room for `capacity` pairs in all, those that are stored among them. A refusal changes nothing.
    pub fn reserve_capacity(&mut self, capacity: usize) -> Result<(), Refusal>
        ensures pairs { self.new.pairs ≡ self.old.pairs }
        ensures room { OnOk result (capacity ≤ length self.new.pairs + self.new.spare) }
        ensures kept { self.old.spare ≤ self.new.spare }
        ensures err { OnErr result (self.new ≡ self.old) }
        ensures refused { RefusedFor Refusal.OutOfMemory result }
        ensures with_room { capacity ≤ length self.old.pairs + self.old.spare → IsOk result }
    {
        self.pairs
            .reserve(capacity.saturating_sub(self.pairs.len()))?;
        Ok(())
    }

    /// How many pairs are stored, expired ones among them.
    pub fn stored(&self) -> usize
        ensures { result ≡ length self.now.pairs }
    {
        self.pairs.len()
    }

    /// For how many more pairs there is room.
    pub fn spare(&self) -> usize
        ensures { result ≡ self.now.spare }
    {
        self.pairs.capacity() - self.pairs.len()
    }

    /// The pairs that are stored, expired ones among them.
    pub fn pairs(&self) -> &[(K, V)]
        ensures { result.now ≡ self.now.pairs }
    {
        &self.pairs
    }

    /// Removes what is expired at `time`, unless the bound says that nothing is. Where something is, it tells how many of those
    /// that are left stood before the last that went: a guess, on which no answer depends.
    pub fn remove_expired(&mut self, time: E) -> Option<usize>
        ensures kept { Without (IsExpired X.expiration E.cmp time) self.old.pairs self.new.pairs }
        ensures leaves { ListLeaves X.expiration E.cmp time self.old self.new }
    {
        if self.earliest >= time {
            return None;
        }
        let left = keep_live::<X, K, E, V, A>(&mut self.pairs, time);
        self.earliest = left.earliest;
        Some(left.gap)
    }

    /// Puts the pair at the place. A refusal changes nothing, and is for want of memory alone, never while there is room.
    pub fn put(&mut self, place: usize, key: K, val: V) -> Result<(), Refusal>
        requires { place ≤ length self.old.pairs }
        ensures ok { OnOk result (self.new.pairs ≡ insert self.old.pairs place (key, val)) }
        ensures err { OnErr result (self.new ≡ self.old) }
        ensures refused { RefusedFor Refusal.OutOfMemory result }
        ensures with_spare { 0 < self.old.spare → IsOk result }
        ensures room { length self.old.pairs + self.old.spare ≤ length self.new.pairs + self.new.spare }
    {
        self.pairs.reserve(1)?;
        insert_at(&mut self.pairs, place, (key, val));
        self.earliest = self.earliest.min(X::expiration(&key));
        Ok(())
    }

    /// Removes every pair, and keeps the room.
    pub fn clear(&mut self)
        ensures empty { self.new.pairs ≡ [] }
        ensures room { self.new.spare ≡ length self.old.pairs + self.old.spare }
    {
        self.pairs.clear();
        self.earliest = E::max_expiration();
    }

    /// A list of the same pairs, in the same memory. A refusal leaves nothing behind.
    pub fn copy(&self) -> Result<Self, AllocError>
        ensures { IfOk result (λ copied. copied.pairs ≡ self.now.pairs) }
    {
        Ok(ExpiringList {
            pairs: Vec::from_slice(*self.pairs.allocator(), &self.pairs)?,
            earliest: self.earliest,
            by: PhantomData,
        })
    }
}
