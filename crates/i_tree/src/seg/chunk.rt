//! Chunks of copies, one for each node of the heap from node 0 on. A copy is a mask and a value.

ghost use Rattle.std.specs.Prelude.{◌≡◌, ◌<◌, ◌^◌, [], All, length, map, replicate, IfOk, OnOk, IsOk};
ghost use Rattle.i_tree.specs.Seg.Copies.{PlacesCopies, HasRoom, copies_in};

use super::nodes::Nodes;
use std::alloc::{AllocError, Allocator};

// So many chunks without copies.
pub fn empty_chunks<V: Copy, A: Allocator + Copy>(
    alloc: A,
    count: usize,
) -> Result<Vec<Vec<(u64, V), A>, A>, AllocError>
    ensures { IfOk result (λ chunks. copies_in chunks.items ≡ replicate count []) }
{
    let mut chunks = Vec::with_capacity(alloc, count)?;
    for _ in 0..count {
        chunks.push_reserved(Vec::new(alloc));
    }
    Ok(chunks)
}

// Makes room for one more copy at each node of the mask. No copy changes, also where it is refused.
pub fn make_room<V: Copy, A: Allocator>(
    chunks: &mut [Vec<(u64, V), A>],
    mask: u64,
) -> Result<(), AllocError>
    requires { mask < 2 ^ length chunks.old }
    ensures copies { copies_in chunks.new ≡ copies_in chunks.old }
    ensures room { OnOk result (HasRoom mask chunks.new) }
{
    for node in Nodes::new(mask) {
        chunks[node].reserve(1)?;
    }
    Ok(())
}

// Puts a copy of the value at each node of the mask, where there is room for it.
pub fn place_copies<V: Copy, A: Allocator>(chunks: &mut [Vec<(u64, V), A>], mask: u64, value: V)
    requires { HasRoom mask chunks.old }
    ensures { PlacesCopies mask value (copies_in chunks.old) (copies_in chunks.new) }
{
    for node in Nodes::new(mask) {
        chunks[node].push_reserved((mask, value));
    }
}

// Removes every copy.
pub fn clear_chunks<V: Copy, A: Allocator>(chunks: &mut [Vec<(u64, V), A>])
    ensures { copies_in chunks.new ≡ replicate (length chunks.old) [] }
{
    for chunk in chunks {
        chunk.clear();
    }
}
