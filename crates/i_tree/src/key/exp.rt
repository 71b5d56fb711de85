//! The trait of collections of keys that expire: what each of them promises.

ghost use Rattle.std.specs.Prelude.{◌≡◌, ◌≤◌, ◌<◌, ◌+◌, ℕ, List, [], All, Result, ⊤, length, IsOk, IfOk, OnOk, OnErr, MatchBool};
ghost use Rattle.std.specs.declared.cmp.Ordering.{Ordering};
ghost use Rattle.i_tree.specs.declared.Refusal.{Refusal};
ghost use Rattle.i_tree.specs.Expiring.Insertion.{InsertsOrLeaves};
ghost use Rattle.i_tree.specs.Expiring.Live.{live_pairs, IsExpired};
ghost use Rattle.i_tree.specs.Root.Causes.{RefusedFor};
ghost use Rattle.i_tree.specs.Root.Pairs.{HasKey, NoKey, IsNewKey, IsRising};
ghost use Rattle.i_tree.specs.Root.Answer.{Below, AtMostBy, AboveBy};
ghost use Rattle.i_tree.specs.Root.Change.{Without, Gains, GainsOrLoses};

use crate::{Expiration, ExpiredKey, Refusal};
use std::cmp::Ordering;

/// A collection of keys that expire, each with a value.
///
/// A key is live at each time up to its expiration, and still at the equal moment. A call removes expired keys only, and
/// answers from the live ones. Each call stands for itself: times may go back.
///
/// The calls are those of the Rust crate `i_tree`, but for `insert_new`, `contains_key` and `first_greater_by`, which are our own,
/// and for the condition of `insert`. In that crate a key is expired at the equal moment.
pub trait KeyExpCollection<K: ExpiredKey<E>, E: Expiration, V: Copy> {
    /// The pairs that are stored, expired ones among them.
    ghost stored: { Self → List (K × V) };

    /// For how many pairs in all there is room, the stored ones among them. The default promises none.
    ghost room: { Self → ℕ } = { λ _. 0 };

    /// Whether there are handles for so many pairs in all: then an insertion that would make so many is refused for want of
    /// memory alone. The default promises none.
    ghost has_handles: { ℕ → Type 0 } = { λ count. count ≡ 0 };

    /// What each kind promises beyond these clauses of an insertion that gave this result. The default promises nothing.
    ghost inserts: { K → V → E → Self → Result ⊤ Refusal → Self → Type 0 } = { λ _ _ _ _ _ _. ⊤ };

    /// What each kind promises beyond these clauses of a query at this time. The default promises nothing.
    ghost leaves: { E → Self → Self → Type 0 } = { λ _ _ _. ⊤ };

    /// What each kind promises beyond these clauses of `clear`. The default promises nothing.
    ghost clears: { Self → Self → Type 0 } = { λ _ _. ⊤ };

    /// Stores the pair, whatever its expiration.
    ///
    /// `contains_key` is the test of the condition: no key that is live at `time` compares Equal. It is refused where
    /// the collection gets no room for the pair, never while fewer are stored than there is room, and that leaves what is
    /// stored as it was.
    fn insert(&mut self, key: K, val: V, time: E) -> Result<(), Refusal>
        requires { NoKey K.cmp (live_pairs K.expiration E.cmp time (stored self.old)) key }
        ensures ok { OnOk result
            (Gains (IsExpired K.expiration E.cmp time) (key, val) (stored self.old) (stored self.new)) }
        ensures err { OnErr result (stored self.new ≡ stored self.old) }
        ensures rising { IsRising K.cmp (stored self.new) }

        // When it is refused, and what each kind adds.
        ensures with_room { length (stored self.old) < room self.old → IsOk result }
        ensures refused { has_handles (length (stored self.old) + 1) → RefusedFor Refusal.OutOfMemory result }
        ensures room { room self.old ≤ room self.new }
        ensures inserts { inserts key val time self.old result self.new };

    /// Stores the pair unless a live key compares Equal, whatever its expiration, and says whether it did.
    ///
    /// True: the pair is stored, as by `insert`. False: a key that is live at `time` compares Equal, and nothing is stored;
    /// expired pairs may have gone. It is refused as `insert` is, and then no live key compares Equal. There is no condition:
    /// one call stands for `contains_key` and `insert`. It is our own, and answers as std's `BTreeSet::insert`.
    fn insert_new(&mut self, key: K, val: V, time: E) -> Result<bool, Refusal>
        ensures cases { IfOk result (λ is_new.
            IsNewKey K.cmp (live_pairs K.expiration E.cmp time (stored self.old)) key is_new) }
        ensures ok { IfOk result (λ is_new. GainsOrLoses (IsExpired K.expiration E.cmp time) is_new
            (key, val) (stored self.old) (stored self.new)) }
        ensures err { OnErr result (stored self.new ≡ stored self.old) }
        ensures err_new { OnErr result (NoKey K.cmp (live_pairs K.expiration E.cmp time (stored self.old)) key) }
        ensures rising { IsRising K.cmp (stored self.new) }

        // When it is refused, and what each kind adds: of an insertion, or where the key isn't new of a query.
        ensures with_room { length (stored self.old) < room self.old → IsOk result }
        ensures refused { has_handles (length (stored self.old) + 1) → RefusedFor Refusal.OutOfMemory result }
        ensures room { room self.old ≤ room self.new }
        ensures inserts { InsertsOrLeaves (λ done. inserts key val time self.old done self.new)
            (leaves time self.old self.new) result };

    /// The value of the greatest live key below `key`, or `default` where no live key is below it.
    fn first_less(&mut self, time: E, default: V, key: K) -> V
        ensures value { Below K.cmp (live_pairs K.expiration E.cmp time (stored self.old)) key default result }
        ensures kept { Without (IsExpired K.expiration E.cmp time) (stored self.old) (stored self.new) }
        ensures rising { IsRising K.cmp (stored self.new) }
        ensures room { room self.old ≤ room self.new }
        ensures leaves { leaves time self.old self.new };

    /// The value of a live key that `f` calls Equal; where there is none, of the greatest live key that it calls
    /// Less; where there is none of these either, `default`.
    ///
    /// `f` says how a key stands to what is sought. It is asked about live keys alone, and on these it is to be
    /// monotone: it never answers a lower key by a later of Less, Equal, Greater than a higher one. Which of several
    /// Equal keys is answered is open.
    fn first_less_or_equal_by<F: Fn(K) -> Ordering>(&mut self, time: E, default: V, f: F) -> V
        requires { All (λ pair. F.pre f pair.0) (live_pairs K.expiration E.cmp time (stored self.old)) }
        ensures value { AtMostBy K.cmp (F.post f)
            (live_pairs K.expiration E.cmp time (stored self.old)) default result }
        ensures kept { Without (IsExpired K.expiration E.cmp time) (stored self.old) (stored self.new) }
        ensures rising { IsRising K.cmp (stored self.new) }
        ensures room { room self.old ≤ room self.new }
        ensures leaves { leaves time self.old self.new };

    /// The value of the first live key that `f` calls Greater, or `default` where it calls no live key so.
    ///
    /// `f` is asked as by `first_less_or_equal_by`.
    fn first_greater_by<F: Fn(K) -> Ordering>(&mut self, time: E, default: V, f: F) -> V
        requires { All (λ pair. F.pre f pair.0) (live_pairs K.expiration E.cmp time (stored self.old)) }
        ensures value { AboveBy K.cmp (F.post f) (live_pairs K.expiration E.cmp time (stored self.old)) default result }
        ensures kept { Without (IsExpired K.expiration E.cmp time) (stored self.old) (stored self.new) }
        ensures rising { IsRising K.cmp (stored self.new) }
        ensures room { room self.old ≤ room self.new }
        ensures leaves { leaves time self.old self.new };

    /// Whether a key that is live at `time` compares Equal to `key`. It removes nothing.
    fn contains_key(&self, time: E, key: K) -> bool
        ensures cases { MatchBool result
            (HasKey K.cmp (live_pairs K.expiration E.cmp time (stored self.now)) key)
            (NoKey K.cmp (live_pairs K.expiration E.cmp time (stored self.now)) key) }
        ensures rising { IsRising K.cmp (stored self.now) };

    /// Removes every pair.
    fn clear(&mut self)
        ensures empty { stored self.new ≡ [] }
        ensures room { room self.old ≤ room self.new }
        ensures clears { clears self.old self.new };
}
