//! The values of a set, one after another.

ghost use Rattle.std.specs.Iterator.{YieldsFirstRef, at_most};
ghost use Rattle.i_tree.specs.Set.Iterating.{values_left, CanYield};

use super::sort::{KeyValue, SetCollection};
use std::iter::FusedIterator;
use std::marker::PhantomData;

/// The values of a set in order, one after another. `iter` of `SetCollection` makes it.
///
/// It lends the set, and knows how many values are left. `next` may be called again after `None`, and answers `None` then.
#[derive(Drop)]
pub struct SetIterator<'a, K, V, C> {
    pub(super) set: &'a C,
    // The handle of the next value, where one is left.
    pub(super) next: u32,
    // How many values are left.
    pub(super) left: usize,
    pub(super) types: PhantomData<(K, V)>,
}

impl<'a, K: Ord, V: KeyValue<K> + Drop + 'a, C: SetCollection<K, V>> Iterator
    for SetIterator<'a, K, V, C> {
    type Item = &'a V;

    ghost can_next = { CanYield C.pairs };

    ghost next_gives = { YieldsFirstRef (values_left C.pairs) };

    ghost remaining = { λ walk. at_most walk.left };

    fn next(&mut self) -> Option<&'a V> {
        if self.left == 0 {
            return None;
        }
        let set = self.set;
        let value = set.value_by_index(self.next);
        self.next = set.index_after(self.next);
        self.left -= 1;
        Some(value)
    }

    fn size_hint(&self) -> (usize, Option<usize>) {
        (self.left, Some(self.left))
    }
}

impl<'a, K: Ord, V: KeyValue<K> + Drop + 'a, C: SetCollection<K, V>> ExactSizeIterator
    for SetIterator<'a, K, V, C> {
    fn len(&self) -> usize {
        self.left
    }
}

impl<'a, K: Ord, V: KeyValue<K> + Drop + 'a, C: SetCollection<K, V>> FusedIterator
    for SetIterator<'a, K, V, C> {}
