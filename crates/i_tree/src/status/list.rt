//! `StatusList`: the status of a sweep line, in a vector sorted along it.

ghost use Rattle.std.specs.Prelude.{◌≡◌, ◌≤◌, ◌<◌, ◌+◌, [], All, is_some, length, IsOk, OnOk, OnErr, IfOk};
ghost use Rattle.i_tree.specs.Expiring.Insertion.{has_joined, TellsNeighbours};
ghost use Rattle.i_tree.specs.Expiring.Live.{live_pairs};
ghost use Rattle.i_tree.specs.Root.Along.{NoneEqualBy};
ghost use Rattle.i_tree.specs.Root.Causes.{RefusedFor};
ghost use Rattle.i_tree.specs.Root.Live.{is_live};
ghost use Rattle.i_tree.specs.Status.Insertion.{IsNew, JoinsOrLeaves};
ghost use Rattle.i_tree.specs.Status.StatusList.{StatusListInserts};

use super::exp::StatusCollection;
use crate::expiring::along::{beside, neighbours, place_near, value_above, value_at_most};
use crate::expiring::insertion::has_joined;
use crate::expiring::list::ExpiringList;
use crate::expiring::live::ByVal;
use crate::{Expiration, ExpiredVal, Refusal};
use std::alloc::Allocator;
use std::cmp::Ordering;
use std::marker::Model;

/// The status of a sweep line, in a vector sorted along it.
///
/// Contracts see the stored pairs in their order along the line, and `spare`, for how many more there is room. An insertion
/// or a query first removes all that is expired at its time, as a `KeyExpList` does. It is our own, and not of the Rust
/// crate.
#[derive(Drop)]
pub struct StatusList<K: ExpiredVal<E>, E: Expiration, V: Copy, A: Allocator + Copy> {
    held: ExpiringList<ByVal, K, E, V, A>,
}

impl<K: ExpiredVal<E>, E: Expiration, V: Copy, A: Allocator + Copy> Model
    for StatusList<K, E, V, A> {
    ghost use Rattle.i_tree.specs.Expiring.List.{Contents};

    ghost Value = { Contents K V };

    ghost view = { λ list. list.held };
}

impl<K: ExpiredVal<E>, E: Expiration, V: Copy, A: Allocator + Copy> StatusList<K, E, V, A> {
    /// An empty status with room for at least `capacity` pairs, refused where the allocator refuses that room.
    pub fn new(alloc: A, capacity: usize) -> Result<Self, Refusal>
        ensures empty { IfOk result (λ list. list.pairs ≡ []) }
        ensures room { IfOk result (λ list. capacity ≤ list.spare) }
        ensures refused { RefusedFor Refusal.OutOfMemory result }
        ensures takes_none { capacity ≡ 0 → IsOk result }
    {
        Ok(StatusList {
            held: ExpiringList::new(alloc, capacity)?,
        })
    }

    /// Makes room for `capacity` pairs in all, those that are stored among them. A refusal changes nothing.
    pub fn reserve_capacity(&mut self, capacity: usize) -> Result<(), Refusal>
        ensures pairs { self.new.pairs ≡ self.old.pairs }
        ensures room { OnOk result (capacity ≤ length self.new.pairs + self.new.spare) }
        ensures kept { self.old.spare ≤ self.new.spare }
        ensures err { OnErr result (self.new ≡ self.old) }
        ensures refused { RefusedFor Refusal.OutOfMemory result }
        ensures with_room { capacity ≤ length self.old.pairs + self.old.spare → IsOk result }
    {
        self.held.reserve_capacity(capacity)
    }

    /// How many pairs are stored, expired ones among them.
    pub fn stored(&self) -> usize
        ensures { result ≡ length self.now.pairs }
    {
        self.held.stored()
    }

    /// For how many more pairs there is room.
    pub fn spare(&self) -> usize
        ensures { result ≡ self.now.spare }
    {
        self.held.spare()
    }

    /// The pairs that are stored, in their order along the line, expired ones among them.
    pub fn pairs(&self) -> &[(K, V)]
        ensures { result.now ≡ self.now.pairs }
    {
        self.held.pairs()
    }

    /// As `insert_between` of the trait, and with a guess of the place, which it tries first: where something expires, the place
    /// where that stood, else `near`. Two questions tell whether the guess is right. Of a wrong one these two are all that is
    /// lost, and of one past the end nothing.
    ///
    /// Afterwards `near` is the place right behind the pair, so that pairs that come one behind another find their places. No
    /// answer depends on it.
    pub fn insert_near<F: Fn(K) -> Ordering>(
        &mut self,
        time: E,
        near: &mut usize,
        f: F,
        key: K,
        val: V,
    ) -> Result<Option<(Option<(K, V)>, Option<(K, V)>)>, Refusal>
        requires { All (λ pair. F.pre f pair.0) (live_pairs K.expiration E.cmp time self.old.pairs) }
        ensures cases { IfOk result (λ told.
            IsNew (F.post f) (is_some told) (live_pairs K.expiration E.cmp time self.old.pairs)) }
        ensures ok { IfOk result (λ told. JoinsOrLeaves (is_live K.expiration E.cmp time) (F.post f) (is_some told)
            (key, val) self.old.pairs self.new.pairs) }
        ensures neighbours { IfOk result
            (TellsNeighbours (F.post f) (live_pairs K.expiration E.cmp time self.old.pairs)) }
        ensures err { OnErr result (self.new ≡ self.old) }
        ensures err_new { OnErr result (NoneEqualBy (F.post f) (live_pairs K.expiration E.cmp time self.old.pairs)) }

        // When it is refused, and what room there is.
        ensures with_spare { 0 < self.old.spare → IsOk result }
        ensures refused { RefusedFor Refusal.OutOfMemory result }
        ensures room { length self.old.pairs + self.old.spare ≤ length self.new.pairs + self.new.spare }
        ensures inserts { StatusListInserts K.expiration E.cmp (key, val) time self.old (has_joined result) self.new }
    {
        *near = self.held.remove_expired(time).unwrap_or(*near);
        let Some(place) = place_near(self.held.pairs(), *near, f) else {
            return Ok(None);
        };
        let neighbours = beside(self.held.pairs(), place);
        self.held.put(place, key, val)?;
        *near = place.wrapping_add(1);
        Ok(Some(neighbours))
    }
}

impl<K: ExpiredVal<E>, E: Expiration, V: Copy, A: Allocator + Copy> StatusCollection<K, E, V>
    for StatusList<K, E, V, A> {
    ghost use Rattle.std.specs.Prelude.{⊤};
    ghost use Rattle.i_tree.specs.Expiring.List.{ListLeaves, ListClears};

    ghost stored = { λ list. list.pairs };

    ghost room = { λ list. length list.pairs + list.spare };

    ghost has_handles = { λ _. ⊤ };

    ghost inserts = { λ may_answer key val time old result new.
        StatusListInserts K.expiration E.cmp (key, val) time old result new };

    ghost leaves = { λ time old new. ListLeaves K.expiration E.cmp time old new };

    ghost clears = { λ old new. ListClears old new };

    /// Removes what is expired at `time`, and then stores the pair unless `f` calls a key that is left Equal.
    ///
    /// It is refused for want of memory alone: never while there is room, nor where an expired pair makes room. A refusal
    /// changes nothing at all.
    fn insert_by<F: Fn(K) -> Ordering>(
        &mut self,
        time: E,
        f: F,
        key: K,
        val: V,
    ) -> Result<bool, Refusal> {
        has_joined(self.insert_between(time, f, key, val))
    }

    /// Removes what is expired at `time`, and then stores the pair unless `f` calls a key that is left Equal. Its neighbours are
    /// the pairs beside its place.
    ///
    /// It is refused as `insert_by`.
    fn insert_between<F: Fn(K) -> Ordering>(
        &mut self,
        time: E,
        f: F,
        key: K,
        val: V,
    ) -> Result<Option<(Option<(K, V)>, Option<(K, V)>)>, Refusal> {
        self.insert_near(time, &mut usize::MAX, f, key, val)
    }

    /// Removes what is expired at `time`, and answers by `f`, which is asked about what is left alone.
    fn first_less_or_equal_by<F: Fn(K) -> Ordering>(&mut self, time: E, default: V, f: F) -> V {
        self.held.remove_expired(time);
        value_at_most(self.held.pairs(), f, default)
    }

    /// Removes what is expired at `time`, and answers by `f`, which is asked about what is left alone.
    fn first_greater_by<F: Fn(K) -> Ordering>(&mut self, time: E, default: V, f: F) -> V {
        self.held.remove_expired(time);
        value_above(self.held.pairs(), f, default)
    }

    /// Removes what is expired at `time`, and answers by `f`, which is asked about what is left alone.
    fn neighbours_by<F: Fn(K) -> Ordering>(
        &mut self,
        time: E,
        f: F,
    ) -> (Option<(K, V)>, Option<(K, V)>) {
        self.held.remove_expired(time);
        neighbours(self.held.pairs(), f)
    }

    /// Removes every pair, and keeps the room.
    fn clear(&mut self) {
        self.held.clear();
    }
}
