//! `SetList`: an ordered set in a sorted vector.

ghost use Rattle.std.specs.Prelude.{◌≡◌, ◌≤◌, ◌<◌, ◌-◌, ◌+◌, [], length, not, IsOk, IfOk, IfErr, MatchBool, min};
ghost use Rattle.std.specs.Borrow.{Bor};
ghost use Rattle.std.specs.Fn.{FnReturnsAt};
ghost use Rattle.std.specs.Ordering.{is_gt, is_lt};
ghost use Rattle.std.specs.declared.cmp.Ordering.{Ordering};
ghost use Rattle.i_tree.specs.Set.Pairs.{AreApart, HoldsKey, IsOrdered, LacksKey};
ghost use Rattle.i_tree.specs.Set.SetList.{numbered, IsPlaceFor, SetListInserts};
ghost use Rattle.i_tree.specs.Root.Causes.{RefusedFor};

use super::sort::{KeyValue, SetCollection};
use crate::binary_search::count_passing;
use crate::list_deletion::delete_at;
use crate::list_insertion::insert_at;
use crate::{EMPTY_REF, Refusal, Refused};
use std::alloc::Allocator;
use std::cmp::Ordering;
use std::marker::Model;

/// Values in the order of their keys, in a vector. The handle of a value is its position, so it changes as others come
/// and go in front.
///
/// Contracts see the values in order, and `spare`, for how many more there is room. No more than `EMPTY_REF` are stored,
/// so each position is a handle. It is the `SetList` of the Rust crate `i_tree`.
#[derive(Drop)]
pub struct SetList<V, A: Allocator + Copy> {
    values: Vec<V, A>,
}

impl<V, A: Allocator + Copy> Model for SetList<V, A> {
    ghost use Rattle.std.specs.Prelude.{◌-◌, ◌≤◌, length, vec_len, vec_capacity};
    ghost use Rattle.i_tree.specs.Set.SetList.{Contents};
    ghost use Rattle.i_tree.specs.declared.TheConstants.{EMPTY_REF};

    ghost Value = { Contents V };

    ghost view = { λ list. record {
      values = list.values.items;
      spare = vec_capacity list.values - vec_len list.values;
    } };

    ghost invariant = { λ list. length list.values.items ≤ EMPTY_REF };
}

// The place of `key`: the values before it have keys below it, and no others.
fn place_of<K: Ord, V: KeyValue<K>>(values: &[V], key: &K) -> usize
    requires { IsOrdered V.key_of K.cmp (numbered values.now) }
    ensures within { result ≤ length values.now }
    ensures splits { IsPlaceFor V.key_of K.cmp key.now values.now result }
{
    let is_below = |value: &V| -> bool
        ensures { result ≡ is_lt (K.cmp (V.key_of value.entry.now) key.entry.now) }
    { *value.key() < *key };
    count_passing(values, is_below)
}

// Whether the value at the place of `key` has it, as no other may.
fn has_key_at<K: Ord, V: KeyValue<K>>(values: &[V], place: usize, key: &K) -> bool
    requires in_order { IsOrdered V.key_of K.cmp (numbered values.now) }
    requires within { place ≤ length values.now }
    requires place { IsPlaceFor V.key_of K.cmp key.now values.now place }
    ensures { MatchBool result (HoldsKey V.key_of K.cmp (numbered values.now) key.now)
        (LacksKey V.key_of K.cmp (numbered values.now) key.now) }
{
    match values.get(place) {
        Some(value) => value.key().cmp(key).is_eq(),
        None => false,
    }
}

// The position before this one, or `EMPTY_REF` where it is the first.
fn position_before(position: u32) -> u32
    ensures first { position ≡ 0 → result ≡ EMPTY_REF }
    ensures later { 0 < position → result ≡ position - 1 }
{
    position.checked_sub(1).unwrap_or(EMPTY_REF)
}

// Whether the keys rise from each value to the next.
fn keys_rise<K: Ord, V: KeyValue<K>>(values: &[V]) -> bool
    ensures { MatchBool result
        (IsOrdered V.key_of K.cmp (numbered values.now)) (¬ (IsOrdered V.key_of K.cmp (numbered values.now))) }
{
    for next in 1..values.len() {
        if *values[next - 1].key() >= *values[next].key() {
            return false;
        }
    }
    true
}

impl<V, A: Allocator + Copy> SetList<V, A> {
    /// An empty list with room for at least `capacity` values, refused where the allocator refuses that room.
    ///
    /// That it takes an allocator and may be refused is our own.
    pub fn new(alloc: A, capacity: usize) -> Result<Self, Refusal>
        ensures empty { IfOk result (λ list. list.values ≡ []) }
        ensures room { IfOk result (λ list. capacity ≤ list.spare) }
        ensures refused { RefusedFor Refusal.OutOfMemory result }
        ensures takes_none { capacity ≡ 0 → IsOk result }
        ensures handles { IfOk result (λ list. AreApart (numbered list.values)) }
    {
        Ok(SetList {
            values: Vec::with_capacity(alloc, capacity)?,
        })
    }

    /// For how many more values there is room. It is our own.
    pub fn spare(&self) -> usize
        ensures value { result ≡ self.now.spare }
        ensures handles { AreApart (numbered self.now.values) }
    {
        self.values.capacity() - self.values.len()
    }

    // Puts the value at the place of its key, which is this one. It is refused as `insert` is.
    fn put<K: Ord>(&mut self, place: usize, val: V) -> Result<(), Refused<V>>
    where
        V: KeyValue<K>,
        requires within { place ≤ length self.old.values }
        requires place { IsPlaceFor V.key_of K.cmp (V.key_of val) self.old.values place }
        ensures inserts { SetListInserts V.key_of K.cmp val self.old result self.new }
        ensures handed { IfErr result (λ refused. refused.value ≡ val) }
        ensures handles { AreApart (numbered self.new.values) }
    {
        if self.values.len() >= EMPTY_REF as usize {
            return Err(Refused {
                value: val,
                cause: Refusal::NoHandle,
            });
        }
        if let Err(refused) = self.values.reserve(1) {
            return Err(Refused {
                value: val,
                cause: refused.into(),
            });
        }
        insert_at(&mut self.values, place, val);
        Ok(())
    }
}

impl<K: Ord, V: KeyValue<K> + Drop, A: Allocator + Copy> SetCollection<K, V> for SetList<V, A> {
    ghost use Rattle.i_tree.specs.declared.TheConstants.{EMPTY_REF};
    ghost use Rattle.i_tree.specs.Set.SetList.{numbered, value_put, SetListInserts, SetListDeletes};
    ghost use Rattle.i_tree.specs.Laws.ListPairs.{with_value-numbered};

    ghost pairs = { λ list. numbered list.values };

    ghost room = { λ list. min EMPTY_REF (length list.values + list.spare) };

    ghost put = { λ list handle value. value_put list handle value };

    ghost inserts = { λ val old result new. SetListInserts V.key_of K.cmp val old result new };

    ghost deletes = { λ index old new. SetListDeletes index old new };

    ghost put_pairs = { λ list handle value. with_value-numbered handle value list.values };

    /// Puts the value at the place of its key. The handles of those behind it rise by one.
    ///
    /// It is refused with `NoHandle` exactly where `EMPTY_REF` values are stored, before memory is asked for, and with
    /// `OutOfMemory` only where there was no room and the growth was refused. A refusal changes nothing and hands the
    /// value back. The place is that of the Rust crate `i_tree`, and the refusals are our own.
    fn insert(&mut self, val: V) -> Result<(), Refused<V>> {
        let place = place_of(&self.values, val.key());
        self.put(place, val)
    }

    /// Puts the value at the place of its key, as `insert` does, unless a value there has it: then the value comes back.
    fn insert_new(&mut self, val: V) -> Result<Option<V>, Refused<V>> {
        let place = place_of(&self.values, val.key());
        if has_key_at(&self.values, place, val.key()) {
            return Ok(Some(val));
        }
        self.put(place, val)?;
        Ok(None)
    }

    /// Removes the value at the position, and drops it. The handles of those behind it fall by one.
    ///
    /// It takes no memory. The rule is that of the Rust crate `i_tree`.
    fn delete_by_index(&mut self, index: u32) {
        delete_at(&mut self.values, index as usize);
    }

    fn len(&self) -> usize {
        self.values.len()
    }

    /// The position of the first value, which is 0, or `EMPTY_REF` where there is none.
    fn first_index(&self) -> u32 {
        if self.values.is_empty() { EMPTY_REF } else { 0 }
    }

    /// The position after, or `EMPTY_REF` where the index is that of the last value.
    fn index_after(&self, index: u32) -> u32 {
        let count = self.values.len();
        let next = index + 1;
        if (next as usize) < count {
            next
        } else {
            EMPTY_REF
        }
    }

    /// The position before, or `EMPTY_REF` where the index is 0.
    ///
    /// The Rust crate goes wrong at 0. The answer there is our own.
    fn index_before(&self, index: u32) -> u32 {
        // That the list is short enough for its handles is known once a field is read.
        let _values = &self.values;
        position_before(index)
    }

    /// The position of a value whose key `f` calls Equal; where there is none, of the last whose key it calls Less; where
    /// there is none of these either, `EMPTY_REF`.
    fn first_index_less_by<F: Fn(&K) -> Ordering>(&self, f: F) -> u32 {
        let is_at_most = |value: &V| -> bool
            requires { (key : Bor K) → key.now ≡ V.key_of value.now → F.pre f key }
            ensures { (answer : Ordering) × FnReturnsAt F.Fn f (V.key_of value.now) answer
                × (result ≡ not (is_gt answer)) }
        { f(value.key()) != Ordering::Greater };
        position_before(count_passing(&self.values, is_at_most) as u32)
    }

    fn value_by_index(&self, index: u32) -> &V {
        &self.values[index as usize]
    }

    fn value_by_index_mut(&mut self, index: u32) -> &mut V {
        &mut self.values[index as usize]
    }

    fn has_index(&self, index: u32) -> bool {
        (index as usize) < self.values.len()
    }

    fn is_ordered(&self) -> bool {
        keys_rise(&self.values)
    }
}
