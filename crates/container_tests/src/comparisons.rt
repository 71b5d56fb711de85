//! How often lists of keys and sets in lists compare, by keys that count, in a thousand insertions and a thousand queries. A
//! tree's clauses say it.

use i_tree::key::exp::KeyExpCollection;
use i_tree::key::list::KeyExpList;
use i_tree::set::list::SetList;
use i_tree::set::sort::SetCollection;
use i_tree::{EMPTY_REF, Refusal};
use std::alloc::{Allocator, Global};
use test_kit::counted_key::{CountedKey, Tally, counted_key};

type CountedList<'a, A> = KeyExpList<CountedKey<'a>, i32, i32, A>;

// The most tests of a search among so many. Each test leaves half, rounded up, until one is left, which is tested too: one
// test more than the least h with count <= 2^h.
fn most_tests(count: usize) -> u64 {
    if count == 0 {
        return 0;
    }
    let halvings = usize::BITS.saturating_sub(count.saturating_sub(1).leading_zeros());
    (halvings as u64).saturating_add(1)
}

// Whether so many comparisons at most were made among so many, and some where there are any. The key that is found is compared
// once more. Then none are counted yet.
fn compared(tally: &Tally, count: usize, finds: bool) -> bool {
    let comparisons = tally.take().0;
    comparisons <= most_tests(count).saturating_add(u64::from(finds))
        && (comparisons > 0 || count == 0)
}

// The number from 1 to 1000 that comes at the place, in no order: as 377 and 1000 have no divisor in common, each comes once.
fn scattered(place: i32) -> i32 {
    (place.saturating_mul(377) % 1000).saturating_add(1)
}

// Inserts a key that is not there among so many, and then tries to insert it again.
fn inserts_key<'a, A: Allocator + Copy>(
    keys: &mut CountedList<'a, A>,
    tally: &'a Tally,
    number: i32,
    count: usize,
) -> bool {
    let key = counted_key(number, tally);
    tally.take();
    if keys.contains_key(0, key) || !compared(tally, count, true) {
        return false;
    }
    if keys.insert(key, number, 0).is_err() || !compared(tally, count, false) {
        return false;
    }
    let more = count.saturating_add(1);
    matches!(keys.insert_new(key, 0, 0), Ok(false)) && compared(tally, more, true)
}

// Inserts the numbers from 1 to 1000, and then looks below each of them and one more.
fn compares_keys<'a, A: Allocator + Copy>(keys: &mut CountedList<'a, A>, tally: &'a Tally) -> bool {
    for (place, count) in (0..1000).zip(0usize..) {
        if !inserts_key(keys, tally, scattered(place), count) {
            return false;
        }
    }
    for number in 1..=1001 {
        let below = keys.first_less(0, 0, counted_key(number, tally));
        if below != number.saturating_sub(1) || !compared(tally, 1000, false) {
            return false;
        }
    }
    true
}

#[test]
fn a_list_of_keys_compares_within_the_bounds(rt: HostRuntime) {
    let tally = Tally::new();
    let made: Result<KeyExpList<CountedKey, i32, i32, Global>, Refusal> = KeyExpList::new(
        rt.alloc(),
        0,
    );
    let mut list = made.ok().expect(&rt, "no memory");
    assert!(rt; compares_keys(&mut list, &tally));
}

// Inserts a key that is not there among so many, and then tries to insert it again.
fn inserts_value<'a, C: SetCollection<CountedKey<'a>, CountedKey<'a>>>(
    set: &mut C,
    tally: &'a Tally,
    number: i32,
    count: usize,
) -> bool {
    let key = counted_key(number, tally);
    if !set.is_ordered() || set.contains_key(&key) {
        return false;
    }
    tally.take();
    let is_inserted = set.insert(key).is_ok() && compared(tally, count, false);
    let more = count.saturating_add(1);
    let is_present = matches!(set.insert_new(key), Ok(Some(_))) && compared(tally, more, true);
    is_inserted && is_present
}

// Searches for a number among those from 1 to 1000, and answers the one that is found, or 0.
fn finds_value<'a, C: SetCollection<CountedKey<'a>, CountedKey<'a>>>(
    set: &C,
    tally: &'a Tally,
    number: i32,
) -> Option<i32> {
    let key = counted_key(number, tally);
    if !set.is_ordered() {
        return None;
    }
    tally.take();
    let found = set.first_index_less_by(|other| other.cmp(&key));
    if !compared(tally, 1000, false) {
        return None;
    }
    if !set.has_index(found) {
        return (found == EMPTY_REF).then_some(0);
    }
    Some(set.value_by_index(found).number)
}

// Inserts the numbers from 1 to 1000, searches for each and for one below and one above them, and deletes the first without a
// comparison.
fn compares_values<'a, C: SetCollection<CountedKey<'a>, CountedKey<'a>>>(
    set: &mut C,
    tally: &'a Tally,
) -> bool {
    for (place, count) in (0..1000).zip(0usize..) {
        if !inserts_value(set, tally, scattered(place), count) {
            return false;
        }
    }
    for number in 0..=1001 {
        if finds_value(set, tally, number) != Some(number.min(1000)) {
            return false;
        }
    }
    tally.take();
    let first = set.first_index();
    if set.has_index(first) {
        set.delete_by_index(first);
    }
    set.len() == 999 && tally.take() == (0, 0)
}

#[test]
fn a_set_in_a_list_compares_within_the_bounds(rt: HostRuntime) {
    let tally = Tally::new();
    let made: Result<SetList<CountedKey, Global>, Refusal> = SetList::new(rt.alloc(), 0);
    let mut set = made.ok().expect(&rt, "no memory");
    assert!(rt; compares_values(&mut set, &tally));
}

// A time of a query, and how many expirations it asks for at most among a thousand keys, of which even ones expire at 8 and odd
// ones at 4. Where some have passed, each key is asked once.
static LIVES: [(i32, u64); 8] = [
    (4, 0),
    (5, 1000),
    (5, 0),
    (6, 0),
    (8, 0),
    (5, 0),
    (9, 500),
    (9, 0),
];

// Whether queries ask as seldom.
fn asks_as_seldom<'a, A: Allocator + Copy>(
    keys: &mut CountedList<'a, A>,
    tally: &'a Tally,
) -> Option<bool> {
    for number in 0..1000 {
        let mut key = counted_key(number, tally);
        key.expiration = if number % 2 == 0 { 8 } else { 4 };
        keys.insert_new(key, number, 0).ok()?;
    }
    for (time, most) in &LIVES {
        tally.take();
        keys.first_less(*time, -1, counted_key(500, tally));
        if tally.take().1 > *most {
            return Some(false);
        }
    }
    Some(true)
}

#[test]
fn a_list_asks_for_expirations_only_once_some_have_passed(rt: HostRuntime) {
    let tally = Tally::new();
    let made: Result<KeyExpList<CountedKey, i32, i32, Global>, Refusal> = KeyExpList::new(
        rt.alloc(),
        0,
    );
    let mut list = made.ok().expect(&rt, "no memory");
    assert!(rt; asks_as_seldom(&mut list, &tally) == Some(true));
}
