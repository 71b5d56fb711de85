//! Searches by a closure in pairs that stand along a line.

ghost use Rattle.std.specs.Prelude.{◌≡◌, ◌≤◌, ◌<◌, ◌-◌, true, false, not, All, drop, length, slice_get, take, IfSome, MatchOption};
ghost use Rattle.std.specs.Ordering.{is_eq, is_gt};
ghost use Rattle.std.specs.List.Sorted.{IsPartitionPoint};
ghost use Rattle.std.specs.declared.cmp.Ordering.{Ordering};
ghost use Rattle.std.specs.declared.cmp.Ordering.TheVariants.{Less, Greater};
ghost use Rattle.i_tree.specs.Root.Along.{AboveAlongBy, AreNeighboursBy, AtMostAlongBy, ByEachOrder, HasEqual, value_or};
ghost use Rattle.i_tree.specs.Root.Ends.{FirstFinds, LastFinds};

use crate::binary_search::count_passing;
use std::cmp::Ordering;

/// How many keys `f` doesn't call Greater: these stand in front.
pub fn count_at_most<K: Copy, V, F: Fn(K) -> Ordering>(pairs: &[(K, V)], f: &F) -> usize
    requires { All (λ pair. F.pre f.now pair.0) pairs.now }
    ensures within { result ≤ length pairs.now }
    ensures splits { ByEachOrder (F.post f.now) pairs.now (λ order. IsPartitionPoint
        (λ pair. not (is_gt (order pair.0)) ≡ true) (λ pair. not (is_gt (order pair.0)) ≡ false)
        pairs.now result) }
{
    let is_at_most = |pair: &(K, V)| -> bool
        requires { F.pre f.now pair.now.0 }
        ensures { (answer : Ordering) × F.post f.entry.now pair.now.0 answer × (result ≡ not (is_gt answer)) }
    { f(pair.0) != Ordering::Greater };
    count_passing(pairs, is_at_most)
}

/// The last of the first `count` pairs, if there is one.
pub fn last_pair<K: Copy, V: Copy>(pairs: &[(K, V)], count: usize) -> Option<(K, V)>
    requires { count ≤ length pairs.now }
    ensures none { count ≡ 0 → result ≡ None }
    ensures last { 0 < count → (pair : K × V) × (slice_get pairs.now (count - 1) ≡ Some pair) × (result ≡ Some pair) }
{
    match pairs[..count].last() {
        Some(pair) => Some(*pair),
        None => None,
    }
}

// The first of the pairs behind the first `count`, if there is one.
fn next_pair<K: Copy, V: Copy>(pairs: &[(K, V)], count: usize) -> Option<(K, V)>
    ensures none { length pairs.now ≤ count → result ≡ None }
    ensures next { count < length pairs.now
        → (pair : K × V) × (slice_get pairs.now count ≡ Some pair) × (result ≡ Some pair) }
{
    match pairs.get(count) {
        Some(pair) => Some(*pair),
        None => None,
    }
}

/// The value of the pair, or `default` where there is none.
pub fn value_or<K: Copy, V: Copy>(default: V, pair: Option<(K, V)>) -> V
    ensures { result ≡ value_or default pair }
{
    match pair {
        Some(pair) => pair.1,
        None => default,
    }
}

/// The value of a key that `f` calls Equal, else of the last that it calls Less, or `default`.
pub fn value_at_most<K: Copy, V: Copy, F: Fn(K) -> Ordering>(
    pairs: &[(K, V)],
    f: F,
    default: V,
) -> V
    requires { All (λ pair. F.pre f pair.0) pairs.now }
    ensures { AtMostAlongBy (F.post f) pairs.now default result }
{
    value_or(default, last_pair(pairs, count_at_most(pairs, &f)))
}

/// The value of the first key that `f` calls Greater, or `default`.
pub fn value_above<K: Copy, V: Copy, F: Fn(K) -> Ordering>(pairs: &[(K, V)], f: F, default: V) -> V
    requires { All (λ pair. F.pre f pair.0) pairs.now }
    ensures { AboveAlongBy (F.post f) pairs.now default result }
{
    value_or(default, next_pair(pairs, count_at_most(pairs, &f)))
}

/// The last of the first `count` pairs and the first behind them, if there are such.
pub fn beside<K: Copy, V: Copy>(pairs: &[(K, V)], count: usize) -> (Option<(K, V)>, Option<(K, V)>)
    requires { count ≤ length pairs.now }
    ensures before { LastFinds (λ pair found. found ≡ Some pair) None (take count pairs.now) result.0 }
    ensures behind { FirstFinds (λ pair found. found ≡ Some pair) None (drop count pairs.now) result.1 }
{
    (last_pair(pairs, count), next_pair(pairs, count))
}

/// The last pair that `f` doesn't call Greater, and the first that it does.
pub fn neighbours<K: Copy, V: Copy, F: Fn(K) -> Ordering>(
    pairs: &[(K, V)],
    f: F,
) -> (Option<(K, V)>, Option<(K, V)>)
    requires { All (λ pair. F.pre f pair.0) pairs.now }
    ensures { AreNeighboursBy (F.post f) pairs.now result }
{
    beside(pairs, count_at_most(pairs, &f))
}

// Whether `f` calls the pair Equal, if there is one.
fn is_called_equal<K: Copy, V: Copy, F: Fn(K) -> Ordering>(pair: Option<(K, V)>, f: &F) -> bool
    requires { IfSome pair (λ pair. F.pre f.now pair.0) }
    ensures { MatchOption pair (result ≡ false)
        (λ pair. (answer : Ordering) × F.post f.now pair.0 answer × (result ≡ is_eq answer)) }
{
    match pair {
        Some(pair) => f(pair.0) == Ordering::Equal,
        None => false,
    }
}

/// The place behind all keys that `f` calls Less and before all that it calls Greater; none where it calls one Equal.
pub fn place_by<K: Copy, V: Copy, F: Fn(K) -> Ordering>(pairs: &[(K, V)], f: F) -> Option<usize>
    requires { All (λ pair. F.pre f pair.0) pairs.now }
    ensures within { IfSome result (λ place. place ≤ length pairs.now) }
    ensures place { ByEachOrder (F.post f) pairs.now (λ order. MatchOption result (HasEqual order pairs.now)
        (λ place. All (λ pair. order pair.0 ≡ Less) (take place pairs.now)
        × All (λ pair. order pair.0 ≡ Greater) (drop place pairs.now))) }
{
    let place = count_at_most(pairs, &f);
    if is_called_equal(last_pair(pairs, place), &f) {
        return None;
    }
    Some(place)
}

// Whether `f` calls the pair Less, or there is none.
fn is_less_or_none<K: Copy, V: Copy, F: Fn(K) -> Ordering>(pair: Option<(K, V)>, f: &F) -> bool
    requires { IfSome pair (λ pair. F.pre f.now pair.0) }
    ensures { result ≡ true → IfSome pair (λ pair. F.post f.now pair.0 Less) }
{
    match pair {
        Some(pair) => f(pair.0) == Ordering::Less,
        None => true,
    }
}

// Whether `f` calls the pair Greater, or there is none.
fn is_greater_or_none<K: Copy, V: Copy, F: Fn(K) -> Ordering>(pair: Option<(K, V)>, f: &F) -> bool
    requires { IfSome pair (λ pair. F.pre f.now pair.0) }
    ensures { result ≡ true → IfSome pair (λ pair. F.post f.now pair.0 Greater) }
{
    match pair {
        Some(pair) => f(pair.0) == Ordering::Greater,
        None => true,
    }
}

// Whether `f` calls all pairs before the place Less and all behind it Greater: the pairs beside it tell.
#[inline(always)]
fn parts_at<K: Copy, V: Copy, F: Fn(K) -> Ordering>(pairs: &[(K, V)], place: usize, f: &F) -> bool
    requires callable { All (λ pair. F.pre f.now pair.0) pairs.now }
    requires within { place ≤ length pairs.now }
    ensures { result ≡ true → ByEachOrder (F.post f.now) pairs.now (λ order.
        All (λ pair. order pair.0 ≡ Less) (take place pairs.now)
        × All (λ pair. order pair.0 ≡ Greater) (drop place pairs.now)) }
{
    let (last, next) = beside(pairs, place);
    is_less_or_none(last, f) && is_greater_or_none(next, f)
}

/// As `place_by`, and sooner where `near` is the place: two questions tell so. Of another guess these two are all that is lost.
#[inline(always)]
pub fn place_near<K: Copy, V: Copy, F: Fn(K) -> Ordering>(
    pairs: &[(K, V)],
    near: usize,
    f: F,
) -> Option<usize>
    requires { All (λ pair. F.pre f pair.0) pairs.now }
    ensures within { IfSome result (λ place. place ≤ length pairs.now) }
    ensures place { ByEachOrder (F.post f) pairs.now (λ order. MatchOption result (HasEqual order pairs.now)
        (λ place. All (λ pair. order pair.0 ≡ Less) (take place pairs.now)
        × All (λ pair. order pair.0 ≡ Greater) (drop place pairs.now))) }
{
    if near <= pairs.len() && parts_at(pairs, near, &f) {
        return Some(near);
    }
    place_by(pairs, f)
}
