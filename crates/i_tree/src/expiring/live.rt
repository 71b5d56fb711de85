//! Which keys are live at a time.

ghost use Rattle.std.specs.Prelude.{◌≡◌, Bool, take, vec_capacity};
ghost use Rattle.i_tree.specs.Expiring.Live.{live_pairs, NoneExpiresBefore};
ghost use Rattle.i_tree.specs.Root.Live.{is_live};

use crate::select::select;
use crate::{Expiration, ExpiredKey, ExpiredVal};
use std::alloc::Allocator;

/// Where a collection reads until when a key is live.
pub trait Expires<K, E: Expiration> {
    /// The last time at which the key is live. It depends on the key alone.
    ghost expiration: { K → E };

    /// The last time at which the key is live.
    fn expiration(key: &K) -> E
        ensures { result ≡ expiration key.now };
}

/// Keys that have an order and an expiration.
#[derive(Clone, Copy)]
pub struct ByKey;

impl<K: ExpiredKey<E>, E: Expiration> Expires<K, E> for ByKey {
    ghost expiration = { K.expiration };

    fn expiration(key: &K) -> E {
        key.expiration()
    }
}

/// Keys that have an expiration, and no order.
#[derive(Clone, Copy)]
pub struct ByVal;

impl<K: ExpiredVal<E>, E: Expiration> Expires<K, E> for ByVal {
    ghost expiration = { K.expiration };

    fn expiration(key: &K) -> E {
        key.expiration()
    }
}

/// Whether the key is live at `time`: the one rule. `pack_live` goes by it too, and asks a key once for its expiration.
pub fn is_live<X: Expires<K, E>, K, E: Expiration>(key: &K, time: E) -> bool
    ensures { result ≡ is_live X.expiration E.cmp time key.now }
{
    X::expiration(key) >= time
}

/// Which keys a descent takes for live.
pub trait Liveness<K> {
    /// Whether the key is live.
    ghost live: { Self → K → Bool };

    /// Whether the key is live.
    fn is_live(&self, key: &K) -> bool
        ensures { result ≡ live self.now key.now };
}

/// The keys that are live at a time, by where `X` reads until when they are.
#[derive(Drop)]
pub struct LiveAt<X, E: Expiration> {
    pub time: E,
    pub by: X,
}

impl<X: Expires<K, E>, K, E: Expiration> Liveness<K> for LiveAt<X, E> {
    ghost use Rattle.i_tree.specs.Root.Live.{is_live};

    ghost live = { λ at key. is_live X.expiration E.cmp at.time key };

    fn is_live(&self, key: &K) -> bool {
        is_live::<X, K, E>(key, self.time)
    }
}

/// What is left of pairs once those that are expired at a time are gone.
#[derive(Clone, Copy)]
pub struct Left<E: Expiration> {
    /// How many pairs are left.
    pub count: usize,
    /// No pair that is left expires before it.
    pub earliest: E,
    /// How many of them stood before the last one that is gone, or all where none is.
    pub gap: usize,
}

/// Removes the pairs that are expired at `time`, in one pass. No promise is made about the gap, on which no answer depends.
pub fn keep_live<X: Expires<K, E>, K: Copy, E: Expiration, V: Copy, A: Allocator>(
    pairs: &mut Vec<(K, V), A>,
    time: E,
) -> Left<E>
    ensures live { pairs.new.items ≡ live_pairs X.expiration E.cmp time pairs.old.items }
    ensures capacity { vec_capacity pairs.new ≡ vec_capacity pairs.old }
    ensures earliest { NoneExpiresBefore X.expiration E.cmp result.earliest pairs.new.items }
{
    let left = pack_live::<X, K, E, V>(pairs, time);
    pairs.truncate(left.count);
    left
}

// Moves the pairs that are live at `time` to the front, in their order. Each key is asked once when it expires.
//
// Which pairs are live follows no pattern that the processor could guess, so each turn goes on by selections alone.
fn pack_live<X: Expires<K, E>, K: Copy, E: Expiration, V: Copy>(
    pairs: &mut [(K, V)],
    time: E,
) -> Left<E>
    ensures live { take result.count pairs.new ≡ live_pairs X.expiration E.cmp time pairs.old }
    ensures earliest { NoneExpiresBefore X.expiration E.cmp result.earliest (take result.count pairs.new) }
{
    let mut count: usize = 0;
    let mut earliest = E::max_expiration();
    let mut gap = pairs.len();
    // The first `count` pairs are the live ones of those so far, none of which expires before `earliest`. Those from `place` on are
    // as they were.
    for place in 0..pairs.len() {
        let pair = pairs[place];
        let expiration = X::expiration(&pair.0);
        let stays = expiration >= time;
        pairs[count] = pair;
        gap = select(stays, gap, count);
        earliest = select(stays, earliest.min(expiration), earliest);
        count += usize::from(stays);
    }
    Left {
        count,
        earliest,
        gap,
    }
}
