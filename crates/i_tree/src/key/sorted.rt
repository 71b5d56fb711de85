//! Searches in pairs that stand by rising key.

ghost use Rattle.std.specs.Prelude.{◌≡◌, ◌≢◌, ◌≤◌, All, length, MatchBool};
ghost use Rattle.std.specs.Ordering.{is_lt};
ghost use Rattle.std.specs.List.Sorted.{IsPartitionPoint};
ghost use Rattle.std.specs.declared.cmp.Ordering.TheVariants.{Less};
ghost use Rattle.i_tree.specs.Root.Answer.{Below, AtMostBy, AboveBy};
ghost use Rattle.i_tree.specs.Expiring.Live.{live_pairs};
ghost use Rattle.i_tree.specs.Root.Pairs.{HasKey, NoKey, IsRising};

use crate::binary_search::count_passing;
use crate::expiring::along::{self, last_pair, value_or};
use crate::expiring::live::{ByKey, is_live};
use crate::{Expiration, ExpiredKey};
use std::cmp::Ordering;

// The place of `key`: the keys before it are below `key`, and no others.
pub(super) fn place_of<K: Ord + Copy, V>(pairs: &[(K, V)], key: &K) -> usize
    requires { IsRising K.cmp pairs.now }
    ensures within { result ≤ length pairs.now }
    ensures splits { IsPartitionPoint
        (λ pair. K.cmp pair.0 key.now ≡ Less) (λ pair. K.cmp pair.0 key.now ≢ Less) pairs.now result }
{
    let is_below = |pair: &(K, V)| -> bool
        ensures { result ≡ is_lt (K.cmp pair.entry.now.0 key.entry.now) }
    { pair.0 < *key };
    count_passing(pairs, is_below)
}

// The value of the greatest key below `key`, or `default` where no key is below it.
pub(super) fn value_below<K: Ord + Copy, V: Copy>(pairs: &[(K, V)], key: &K, default: V) -> V
    requires { IsRising K.cmp pairs.now }
    ensures { Below K.cmp pairs.now key.now default result }
{
    value_or(default, last_pair(pairs, place_of(pairs, key)))
}

// The value of a key that `f` calls Equal, else of the greatest that it calls Less, or `default`.
pub(super) fn value_at_most<K: Ord + Copy, V: Copy, F: Fn(K) -> Ordering>(
    pairs: &[(K, V)],
    f: F,
    default: V,
) -> V
    requires rising { IsRising K.cmp pairs.now }
    requires callable { All (λ pair. F.pre f pair.0) pairs.now }
    ensures { AtMostBy K.cmp (F.post f) pairs.now default result }
{
    along::value_at_most(pairs, f, default)
}

// The value of the first key that `f` calls Greater, or `default`.
pub(super) fn value_above<K: Ord + Copy, V: Copy, F: Fn(K) -> Ordering>(
    pairs: &[(K, V)],
    f: F,
    default: V,
) -> V
    requires rising { IsRising K.cmp pairs.now }
    requires callable { All (λ pair. F.pre f pair.0) pairs.now }
    ensures { AboveBy K.cmp (F.post f) pairs.now default result }
{
    along::value_above(pairs, f, default)
}

// Whether a key compares Equal to `key`, whose place is `place`.
pub(super) fn has_key_at<K: Ord + Copy, V>(pairs: &[(K, V)], place: usize, key: &K) -> bool
    requires rising { IsRising K.cmp pairs.now }
    requires splits { IsPartitionPoint
        (λ pair. K.cmp pair.0 key.now ≡ Less) (λ pair. K.cmp pair.0 key.now ≢ Less) pairs.now place }
    ensures { MatchBool result (HasKey K.cmp pairs.now key.now) (NoKey K.cmp pairs.now key.now) }
{
    match pairs.get(place) {
        Some(pair) => pair.0 == *key,
        None => false,
    }
}

// Whether a key that is live at `time` compares Equal to `key`.
pub(super) fn has_live_key<K: ExpiredKey<E>, E: Expiration, V>(
    pairs: &[(K, V)],
    time: E,
    key: &K,
) -> bool
    requires { IsRising K.cmp pairs.now }
    ensures { MatchBool result
        (HasKey K.cmp (live_pairs K.expiration E.cmp time pairs.now) key.now)
        (NoKey K.cmp (live_pairs K.expiration E.cmp time pairs.now) key.now) }
{
    match pairs.get(place_of(pairs, key)) {
        Some(pair) => pair.0 == *key && is_live::<ByKey, K, E>(&pair.0, time),
        None => false,
    }
}
