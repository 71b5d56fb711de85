//! The nodes of a mask, one after the other.

ghost use Rattle.std.specs.Prelude.{◌≡◌, ◌<◌};
ghost use Rattle.std.specs.Iterator.{YieldsFirst, item_count};
ghost use Rattle.i_tree.specs.Seg.Nodes.{nodes_of, lowest, IsLowest};

// The lowest node of a mask, or 64 where it has none.
pub fn lowest_node(mask: u64) -> usize
    ensures value { result ≡ lowest mask }
    ensures lowest { 0 < mask → IsLowest mask result }
{
    mask.trailing_zeros() as usize
}

/// The nodes of a mask, in ascending order.
#[derive(Drop)]
pub struct Nodes {
    mask: u64,
}

impl Nodes {
    // All nodes of the mask are still to come.
    pub fn new(mask: u64) -> Self
        ensures { result.mask ≡ mask }
    {
        Nodes { mask }
    }
}

impl Iterator for Nodes {
    type Item = usize;

    ghost next_gives = { YieldsFirst (λ nodes. nodes_of nodes.mask) };

    ghost remaining = { item_count (λ nodes. nodes_of nodes.mask) };

    fn next(&mut self) -> Option<usize> {
        if self.mask == 0 {
            return None;
        }
        let node = lowest_node(self.mask);
        self.mask &= !(1 << node);
        Some(node)
    }
}
