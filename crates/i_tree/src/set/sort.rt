//! The traits of values that have a key, and of ordered sets of them.

ghost use Rattle.std.specs.Prelude.{◌≡◌, ◌≢◌, ◌≤◌, ◌<◌, ◌++◌, ◌∷◌, ℕ, List, Result, ⊤, length, IsOk, IfErr, MatchBool, OnErr, OnOk};
ghost use Rattle.std.specs.Borrow.{Lends, sem};
ghost use Rattle.std.specs.Fn.{FnReturnsAt};
ghost use Rattle.std.specs.declared.cmp.Ordering.{Ordering};
ghost use Rattle.i_tree.specs.Root.Change.{Joins};
ghost use Rattle.i_tree.specs.Set.Pairs.{values, AreApart, HasHandle, LacksHandle, with_value, IsOrdered, HoldsKey, LacksKey, TakesKeys, IsFound};
ghost use Rattle.i_tree.specs.Set.Insertion.{IfAbsent, IfPresent};
ghost use Rattle.i_tree.specs.Set.Iterating.{values_left, CanYield, WalksInOrder};
ghost use Rattle.i_tree.specs.Rb.Shape.{first_handle, last_handle};
ghost use Rattle.i_tree.specs.declared.Refused.{Refused};

use super::iterator::SetIterator;
use crate::{EMPTY_REF, Refused};
use std::cmp::Ordering;
use std::marker::PhantomData;

/// A value that has a key. The name is that of the Rust crate `i_tree`.
pub trait KeyValue<K> {
    /// The key of the value. It depends on the value alone.
    ghost key_of: { Self → K };

    /// The key of the value. It depends on the value alone.
    fn key(&self) -> &K
        ensures { result.now ≡ key_of self.now };
}

/// Values in the order of their keys, each with a handle of its own, which is never `EMPTY_REF`. No two of them have keys
/// that compare Equal.
///
/// A value may be changed in its place by `value_by_index_mut`, its key too. Where that leaves the keys in another order,
/// or two of them Equal, `insert` and `first_index_less_by` may not be called until they are in order again:
/// `is_ordered` is the test.
///
/// Each condition has a test: `contains_key`, `has_index` and `is_ordered`. These three are our own; the other names and
/// rules are those of the Rust crate `i_tree`, which does not test its conditions.
pub trait SetCollection<K: Ord, V: KeyValue<K> + Drop> {
    /// The values in order, each behind its handle.
    ghost pairs: { Self → List (ℕ × V) };

    /// The collection with this value at the handle.
    ghost put: { Self → ℕ → V → Self };

    /// For how many values in all there is room, those that are there among them. The default promises none.
    ghost room: { Self → ℕ } = { λ _. 0 };

    /// What each kind promises beyond these clauses of an insertion that gave this result. The default promises nothing.
    ghost inserts: { V → Self → Result ⊤ (Refused V) → Self → Type 0 } = { λ _ _ _ _. ⊤ };

    /// What each kind promises beyond these clauses of the deletion at this handle. The default promises nothing.
    ghost deletes: { ℕ → Self → Self → Type 0 } = { λ _ _ _. ⊤ };

    /// Puts the value at the place of its key. No key of the collection may compare Equal to it: `contains_key` is the test.
    ///
    /// Which handles the values then have is said by each collection. It is refused where the collection gets no room
    /// for one value more, and never while there are fewer than there is room for. That leaves all as it was, and hands
    /// the value back.
    fn insert(&mut self, val: V) -> Result<(), Refused<V>>
        requires in_order { IsOrdered V.key_of K.cmp (pairs self.old) }
        requires absent { LacksKey V.key_of K.cmp (pairs self.old) (V.key_of val) }

        // The value joins the others, or nothing has changed.
        ensures ok { OnOk result (Joins val (values (pairs self.old)) (values (pairs self.new))) }
        ensures err { OnErr result (pairs self.new ≡ pairs self.old) }
        ensures handed { IfErr result (λ refused. refused.value ≡ val) }
        ensures in_order { IsOrdered V.key_of K.cmp (pairs self.new) }
        ensures handles { AreApart (pairs self.new) }

        // When it is never refused, and what each kind adds.
        ensures with_room { length (pairs self.old) < room self.old → IsOk result }
        ensures room { room self.old ≤ room self.new }
        ensures inserts { inserts val self.old result self.new };

    /// Puts the value at the place of its key, unless a key of the collection compares Equal to it: then the value comes
    /// back. One search serves both.
    ///
    /// It answers `None` where the value was stored, and `Some` with the value that was given where its key is there; the
    /// collection is as it was then, and no memory was asked for. It is refused as `insert` is, and only where the key is
    /// absent. std's `BTreeSet::insert` answers a `bool` in place of it, and drops the value. The call is our own.
    fn insert_new(&mut self, val: V) -> Result<Option<V>, Refused<V>>
        requires { IsOrdered V.key_of K.cmp (pairs self.old) }

        // The key is there, and nothing has changed.
        ensures present { IfPresent result (λ given. (given ≡ val)
            × HoldsKey V.key_of K.cmp (pairs self.old) (V.key_of val) × (self.new ≡ self.old)) }

        // Else it is an insertion of a key that is absent.
        ensures absent { IfAbsent result (λ _. LacksKey V.key_of K.cmp (pairs self.old) (V.key_of val)) }
        ensures ok { IfAbsent result (λ insertion.
            OnOk insertion (Joins val (values (pairs self.old)) (values (pairs self.new)))) }
        ensures err { OnErr result (pairs self.new ≡ pairs self.old) }
        ensures handed { IfErr result (λ refused. refused.value ≡ val) }
        ensures in_order { IsOrdered V.key_of K.cmp (pairs self.new) }
        ensures handles { AreApart (pairs self.new) }
        ensures with_room { length (pairs self.old) < room self.old → IsOk result }
        ensures room { room self.old ≤ room self.new }
        ensures inserts { IfAbsent result (λ insertion. inserts val self.old insertion self.new) };

    /// Removes the value at the handle, and drops it.
    ///
    /// Which handles the others then have is said by each collection. It takes no memory.
    fn delete_by_index(&mut self, index: u32)
        requires { HasHandle (pairs self.old) index }
        ensures value { (front : List (ℕ × V)) (value : V) (back : List (ℕ × V))
            → pairs self.old ≡ front ++ (index, value) ∷ back → values (pairs self.new) ≡ values front ++ values back }
        ensures in_order { IsOrdered V.key_of K.cmp (pairs self.old) → IsOrdered V.key_of K.cmp (pairs self.new) }
        ensures handles { AreApart (pairs self.new) }
        ensures room { room self.old ≤ room self.new }
        ensures deletes { deletes index self.old self.new };

    /// How many values there are. It is our own.
    fn len(&self) -> usize
        ensures value { result ≡ length (pairs self.now) }
        ensures handles { AreApart (pairs self.now) };

    /// The handle of the first value, or `EMPTY_REF` where there is none. It is our own.
    fn first_index(&self) -> u32
        ensures value { result ≡ first_handle (pairs self.now) }
        ensures live { result ≢ EMPTY_REF → HasHandle (pairs self.now) result }
        ensures handles { AreApart (pairs self.now) };

    /// The handle of the value after this one, or `EMPTY_REF` where it is the last. It is our own.
    fn index_after(&self, index: u32) -> u32
        requires { HasHandle (pairs self.now) index }
        ensures value { (front : List (ℕ × V)) (value : V) (back : List (ℕ × V))
            → pairs self.now ≡ front ++ (index, value) ∷ back → result ≡ first_handle back }
        ensures live { result ≢ EMPTY_REF → HasHandle (pairs self.now) result }
        ensures handles { AreApart (pairs self.now) };

    /// The handle of the value before this one, or `EMPTY_REF` where it is the first.
    ///
    /// The Rust crate goes wrong at the first one. The answer there is our own.
    fn index_before(&self, index: u32) -> u32
        requires { HasHandle (pairs self.now) index }
        ensures value { (front : List (ℕ × V)) (value : V) (back : List (ℕ × V))
            → pairs self.now ≡ front ++ (index, value) ∷ back → result ≡ last_handle front }
        ensures live { result ≢ EMPTY_REF → HasHandle (pairs self.now) result }
        ensures handles { AreApart (pairs self.now) };

    /// The handle of a value whose key `f` calls Equal; where there is none, of the last whose key it calls Less; where
    /// there is none of these either, `EMPTY_REF`.
    ///
    /// `f` says how a key stands to what is sought. It is asked about keys of the collection alone, and on these it is
    /// to be monotone: it never answers a lower key by a later of Less, Equal, Greater than a higher one. Which of several
    /// Equal keys is answered is open.
    fn first_index_less_by<F: Fn(&K) -> Ordering>(&self, f: F) -> u32
        requires in_order { IsOrdered V.key_of K.cmp (pairs self.now) }
        requires callable { TakesKeys V.key_of (λ key. F.pre f key) (pairs self.now) }
        ensures value { IsFound V.key_of K.cmp (λ key answer. FnReturnsAt F.Fn f key answer) (pairs self.now) result }
        ensures live { result ≢ EMPTY_REF → HasHandle (pairs self.now) result }
        ensures handles { AreApart (pairs self.now) };

    /// The values in order, one after another. It takes no memory, and is our own.
    fn iter(&self) -> SetIterator<'_, K, V, Self>
    where
        Self: Sized,
        // All values are still to come, and it yields them in order.
        ensures rest { values_left pairs result ≡ values (pairs self.now) }
        ensures can { CanYield pairs result }
        ensures len { result.left ≡ length (pairs self.now) }
        ensures runs { WalksInOrder K pairs }
        ensures handles { AreApart (pairs self.now) }
    {
        SetIterator {
            set: self,
            next: self.first_index(),
            left: self.len(),
            types: PhantomData,
        }
    }

    /// The value at the handle.
    fn value_by_index(&self, index: u32) -> &V
        requires { HasHandle (pairs self.now) index }
        ensures value { (front : List (ℕ × V)) (value : V) (back : List (ℕ × V))
            → pairs self.now ≡ front ++ (index, value) ∷ back → result.now ≡ value }
        ensures handles { AreApart (pairs self.now) };

    /// The value at the handle, for writing. No other value changes, and no handle does.
    fn value_by_index_mut(&mut self, index: u32) -> &mut V
        requires { HasHandle (pairs self.old) index }
        ensures* writes_back { sem 𝓛 (Lends Self.row V.row self.entry result (put self.old index)) }
        ensures value { (front : List (ℕ × V)) (value : V) (back : List (ℕ × V))
            → pairs self.old ≡ front ++ (index, value) ∷ back → result.now ≡ value }
        ensures handles { AreApart (pairs self.old) };

    /// Whether a value's key compares Equal to `key`. It is our own.
    fn contains_key(&self, key: &K) -> bool
        requires in_order { IsOrdered V.key_of K.cmp (pairs self.now) }
        ensures cases { MatchBool result
            (HoldsKey V.key_of K.cmp (pairs self.now) key.now) (LacksKey V.key_of K.cmp (pairs self.now) key.now) }
        ensures in_order { IsOrdered V.key_of K.cmp (pairs self.now) }
        ensures handles { AreApart (pairs self.now) }
    {
        let stands = |other: &K| -> Ordering
            ensures { result ≡ K.cmp other.entry.now key.entry.now }
        { other.cmp(key) };
        let found = self.first_index_less_by(stands);
        if found == EMPTY_REF {
            return false;
        }
        self.value_by_index(found).key().cmp(key).is_eq()
    }

    /// Whether a value has the handle.
    fn has_index(&self, index: u32) -> bool
        ensures cases { MatchBool result (HasHandle (pairs self.now) index) (LacksHandle (pairs self.now) index) }
        ensures handles { AreApart (pairs self.now) };

    /// Whether the keys rise from each value to the next.
    fn is_ordered(&self) -> bool
        ensures cases { MatchBool result
            (IsOrdered V.key_of K.cmp (pairs self.now)) (¬ (IsOrdered V.key_of K.cmp (pairs self.now))) }
        ensures handles { AreApart (pairs self.now) };

    /// A value that is put at a handle takes the place of the one there.
    ghost put_pairs: { (collection : Self) (handle : ℕ) (value : V)
        → pairs (put collection handle value) ≡ with_value handle value (pairs collection) };
}
