//! Deletion from a vector.

ghost use Rattle.std.specs.Prelude.{◌≡◌, ◌<◌, ◌+◌, length, vec_len, vec_capacity};
ghost use Rattle.std.specs.List.{remove};

use std::alloc::Allocator;
use std::mem::size_of_val;

// So many bytes are moved to the front at once. Of a longer run std moves all but the last part by a loop, which takes
// longer.
const BLOCK_BYTES: usize = 2048;

// Takes the item at its place out, and drops it. The items behind it move one place to the front, block by block.
pub fn delete_at<T: Drop, A: Allocator>(items: &mut Vec<T, A>, place: usize)
    requires { place < vec_len items.old }
    ensures items { items.new.items ≡ remove items.old.items place }
    ensures len { vec_len items.new + 1 ≡ vec_len items.old }
    ensures capacity { vec_capacity items.new ≡ vec_capacity items.old }
{
    let block = (BLOCK_BYTES / size_of_val(&items[..1]).max(1)).max(1);
    let mut gone = place;
    // Without the item at `gone` the list is what is to be left.
    while items.len() - gone > block {
        items[gone..=gone + block].rotate_left(1);
        gone += block;
    }
    items.remove(gone);
}
