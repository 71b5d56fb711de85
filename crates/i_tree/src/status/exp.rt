//! The trait of statuses of a sweep line: what each of them promises.

ghost use Rattle.std.specs.Prelude.{◌≡◌, ◌≤◌, ◌<◌, ◌+◌, ℕ, Bool, List, [], All, Option, Result, ⊤, length, is_some, IsOk, IfOk, OnErr};
ghost use Rattle.std.specs.declared.cmp.Ordering.{Ordering};
ghost use Rattle.i_tree.specs.declared.Refusal.{Refusal};
ghost use Rattle.i_tree.specs.Expiring.Insertion.{has_joined, TellsNeighbours};
ghost use Rattle.i_tree.specs.Expiring.Live.{live_pairs, IsExpired};
ghost use Rattle.i_tree.specs.Root.Causes.{RefusedFor};
ghost use Rattle.i_tree.specs.Root.Along.{AboveAlongBy, AreNeighboursBy, AtMostAlongBy, NoneEqualBy};
ghost use Rattle.i_tree.specs.Root.Change.{Without};
ghost use Rattle.i_tree.specs.Root.Live.{is_live};
ghost use Rattle.i_tree.specs.Status.Insertion.{JoinsOrLeaves, IsNew};

use crate::{Expiration, ExpiredVal, Refusal};
use std::cmp::Ordering;

/// The status of a sweep line: keys that stand along it and expire, each with a value.
///
/// 'Status' is the word of the literature on sweeps for what the line meets now, in order. The keys have no order of their
/// own: each call takes a closure that says how a live key stands to what is looked for, as 'which segment is above at the
/// line' does. It is asked about live keys alone. What a call promises beyond that only expired pairs go holds by each order
/// that the closure's answers follow and that is monotone along the live pairs: of two, the earlier one never answers by a
/// later of Less, Equal, Greater. By no such order a call still returns.
///
/// A key is live at each time up to its expiration, and still at the equal moment. A call removes expired pairs only, and
/// keeps the others in their order. Each call stands for itself: times may go back. The collection is our own, and not of
/// the Rust crate.
pub trait StatusCollection<K: ExpiredVal<E>, E: Expiration, V: Copy> {
    /// The pairs that are stored, in their order along the line, expired ones among them.
    ghost stored: { Self → List (K × V) };

    /// For how many pairs in all there is room, the stored ones among them. The default promises none.
    ghost room: { Self → ℕ } = { λ _. 0 };

    /// Whether there are handles for so many pairs in all: then an insertion that would make so many is refused for want of
    /// memory alone. The default promises none.
    ghost has_handles: { ℕ → Type 0 } = { λ count. count ≡ 0 };

    /// What each kind promises beyond these clauses of an insertion, by what the closure may answer, where this result says
    /// whether the pair joined. The default promises nothing.
    ghost inserts: { (K → Ordering → Type 0) → K → V → E → Self → Result Bool Refusal → Self → Type 0 } = { λ _ _ _ _ _ _ _. ⊤ };

    /// What each kind promises beyond these clauses of a query at this time. The default promises nothing.
    ghost leaves: { E → Self → Self → Type 0 } = { λ _ _ _. ⊤ };

    /// What each kind promises beyond these clauses of `clear`. The default promises nothing.
    ghost clears: { Self → Self → Type 0 } = { λ _ _. ⊤ };

    /// Stores the pair unless `f` calls a live key Equal, whatever its expiration, and says whether it did.
    ///
    /// `f` says how a live key stands to the new one. True: it calls none Equal, and the pair stands behind all live ones that
    /// it calls Less and before all that it calls Greater. False: it calls a live key Equal, and nothing joins; expired pairs
    /// may have gone. It is refused where the collection gets no room for the pair, never while fewer are stored than there
    /// is room; then what is stored stays as it was, and `f` calls no live key Equal.
    fn insert_by<F: Fn(K) -> Ordering>(
        &mut self,
        time: E,
        f: F,
        key: K,
        val: V,
    ) -> Result<bool, Refusal>
        requires { All (λ pair. F.pre f pair.0) (live_pairs K.expiration E.cmp time (stored self.old)) }
        ensures cases { IfOk result (λ is_new.
            IsNew (F.post f) is_new (live_pairs K.expiration E.cmp time (stored self.old))) }
        ensures ok { IfOk result (λ is_new. JoinsOrLeaves (is_live K.expiration E.cmp time) (F.post f) is_new
            (key, val) (stored self.old) (stored self.new)) }
        ensures err { OnErr result (stored self.new ≡ stored self.old) }
        ensures err_new { OnErr result (NoneEqualBy (F.post f) (live_pairs K.expiration E.cmp time (stored self.old))) }

        // When it is refused, and what each kind adds.
        ensures with_room { length (stored self.old) < room self.old → IsOk result }
        ensures refused { has_handles (length (stored self.old) + 1) → RefusedFor Refusal.OutOfMemory result }
        ensures room { room self.old ≤ room self.new }
        ensures inserts { inserts (F.post f) key val time self.old result self.new };

    /// As `insert_by`, and where the pair joins, tells the two live ones between which it stands then: the last that `f` calls
    /// Less and the first that it calls Greater. One search finds the place and both. `None`: `f` calls a live key Equal, and
    /// nothing joins; expired pairs may have gone.
    ///
    /// `f` is asked, and the call refused, as by `insert_by`.
    fn insert_between<F: Fn(K) -> Ordering>(
        &mut self,
        time: E,
        f: F,
        key: K,
        val: V,
    ) -> Result<Option<(Option<(K, V)>, Option<(K, V)>)>, Refusal>
        requires { All (λ pair. F.pre f pair.0) (live_pairs K.expiration E.cmp time (stored self.old)) }
        ensures cases { IfOk result (λ told.
            IsNew (F.post f) (is_some told) (live_pairs K.expiration E.cmp time (stored self.old))) }
        ensures ok { IfOk result (λ told. JoinsOrLeaves (is_live K.expiration E.cmp time) (F.post f) (is_some told)
            (key, val) (stored self.old) (stored self.new)) }
        ensures neighbours { IfOk result
            (TellsNeighbours (F.post f) (live_pairs K.expiration E.cmp time (stored self.old))) }
        ensures err { OnErr result (stored self.new ≡ stored self.old) }
        ensures err_new { OnErr result (NoneEqualBy (F.post f) (live_pairs K.expiration E.cmp time (stored self.old))) }

        // When it is refused, and what each kind adds.
        ensures with_room { length (stored self.old) < room self.old → IsOk result }
        ensures refused { has_handles (length (stored self.old) + 1) → RefusedFor Refusal.OutOfMemory result }
        ensures room { room self.old ≤ room self.new }
        ensures inserts { inserts (F.post f) key val time self.old (has_joined result) self.new };

    /// The value of a live key that `f` calls Equal; where there is none, of the last live key along the line that it calls
    /// Less; where there is none of these either, `default`.
    ///
    /// `f` says how a live key stands to what is sought. Which of several Equal keys is answered is open.
    fn first_less_or_equal_by<F: Fn(K) -> Ordering>(&mut self, time: E, default: V, f: F) -> V
        requires { All (λ pair. F.pre f pair.0) (live_pairs K.expiration E.cmp time (stored self.old)) }
        ensures value { AtMostAlongBy (F.post f) (live_pairs K.expiration E.cmp time (stored self.old)) default result }
        ensures kept { Without (IsExpired K.expiration E.cmp time) (stored self.old) (stored self.new) }
        ensures room { room self.old ≤ room self.new }
        ensures leaves { leaves time self.old self.new };

    /// The value of the first live key along the line that `f` calls Greater, or `default` where it calls no live key so.
    ///
    /// `f` is asked as by `first_less_or_equal_by`.
    fn first_greater_by<F: Fn(K) -> Ordering>(&mut self, time: E, default: V, f: F) -> V
        requires { All (λ pair. F.pre f pair.0) (live_pairs K.expiration E.cmp time (stored self.old)) }
        ensures value { AboveAlongBy (F.post f) (live_pairs K.expiration E.cmp time (stored self.old)) default result }
        ensures kept { Without (IsExpired K.expiration E.cmp time) (stored self.old) (stored self.new) }
        ensures room { room self.old ≤ room self.new }
        ensures leaves { leaves time self.old self.new };

    /// The last live pair along the line that `f` doesn't call Greater, and the first that it does: the two between which what
    /// is sought would stand. One search finds both.
    ///
    /// `f` is asked as by `first_less_or_equal_by`.
    fn neighbours_by<F: Fn(K) -> Ordering>(
        &mut self,
        time: E,
        f: F,
    ) -> (Option<(K, V)>, Option<(K, V)>)
        requires { All (λ pair. F.pre f pair.0) (live_pairs K.expiration E.cmp time (stored self.old)) }
        ensures value { AreNeighboursBy (F.post f) (live_pairs K.expiration E.cmp time (stored self.old)) result }
        ensures kept { Without (IsExpired K.expiration E.cmp time) (stored self.old) (stored self.new) }
        ensures room { room self.old ≤ room self.new }
        ensures leaves { leaves time self.old self.new };

    /// Removes every pair.
    fn clear(&mut self)
        ensures empty { stored self.new ≡ [] }
        ensures room { room self.old ≤ room self.new }
        ensures clears { clears self.old self.new };
}
