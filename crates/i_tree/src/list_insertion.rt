//! Insertion into a vector that has room.

ghost use Rattle.std.specs.Prelude.{◌≡◌, ◌≤◌, ◌<◌, length, vec_len, vec_capacity};
ghost use Rattle.std.specs.List.{insert};

use std::alloc::Allocator;

// Puts the item at its place. The items from there on move one place back, all at once.
pub fn insert_at<T, A: Allocator>(items: &mut Vec<T, A>, place: usize, item: T)
    requires within { place ≤ length items.old.items }
    requires room { vec_len items.old < vec_capacity items.old }
    ensures items { items.new.items ≡ insert items.old.items place item }
    ensures capacity { vec_capacity items.new ≡ vec_capacity items.old }
{
    items.push_reserved(item);
    items[place..].rotate_right(1);
}
