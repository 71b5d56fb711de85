//! What a slot holds: a colour, links and an item; how links are read and set.

ghost use Rattle.std.specs.Prelude.{◌≡◌, Some, IsSome};
ghost use Rattle.std.specs.Borrow.{sem, Lends};
ghost use Rattle.i_tree.specs.Rb.Context.{other_side};
ghost use Rattle.i_tree.specs.Rb.Slots.{IsUsed, Relinks, child_link, with_child_link, with_child_tie, with_parent_link, with_colour, hung_links, links_of, slot_links, slot_item, with_slot_item};

/// The colour of a node, by which the tree keeps its balance.
#[derive(Clone, Copy, PartialEq, Eq)]
pub enum Colour {
    Red,
    Black,
}

/// One of the two sides of a node.
#[derive(Clone, Copy, PartialEq, Eq)]
pub enum Side {
    Left,
    Right,
}

impl Side {
    pub fn other(self) -> Side
        ensures { result ≡ other_side self }
    {
        match self {
            Side::Left => Side::Right,
            Side::Right => Side::Left,
        }
    }
}

/// What a node is tied to: the handles of its parent and of the tops of its subtrees, or `EMPTY_REF`, and its colour.
#[derive(Clone, Copy)]
pub struct Links {
    pub parent: u32,
    pub left: u32,
    pub right: u32,
    pub colour: Colour,
}

impl Links {
    pub fn child(self, side: Side) -> u32
        ensures { result ≡ child_link side self }
    {
        match side {
            Side::Left => self.left,
            Side::Right => self.right,
        }
    }
}

/// The handles among a node's links. Its colour lies beside the slot's tag, where it takes no room of its own.
#[derive(Clone, Copy)]
pub struct Ties {
    pub parent: u32,
    pub left: u32,
    pub right: u32,
}

impl Ties {
    pub fn set_child(&mut self, side: Side, child: u32)
        ensures { self.new ≡ with_child_tie side child self.old }
    {
        match side {
            Side::Left => self.left = child,
            Side::Right => self.right = child,
        }
    }
}

/// A slot of the arena: free, with the number of the next free one, or in use by a node.
#[derive(Drop)]
pub enum Slot<T> {
    Free(u32),
    Used(Colour, Ties, T),
}

// In a large tree each step waits for the memory of a slot, so all but the item takes 16 bytes.
const _: () = prove!(size_of::<Slot<[u64; 3]>>() == 40);

impl<T> Slot<T> {
    ghost use Rattle.i_tree.specs.contracts.rb.links.Slot.{the_row};

    /// The item of the node in the slot, to change it.
    pub fn item_mut(&mut self) -> &mut T
        requires { IsSome (slot_links (Some self.old)) }
        ensures* lends { sem 𝓛 (Lends (the_row T.row) T.row self.entry result (with_slot_item self.entry.now)) }
        ensures value { slot_item self.old ≡ Some result.now }
    {
        match self {
            Slot::Used(_, _, item) => item,
            Slot::Free(_) => unreachable!(),
        }
    }
}

/// The links of the node in this slot.
pub fn links_at<T>(slots: &[Slot<T>], handle: u32) -> Links
    requires { IsUsed slots.now handle }
    ensures { links_of slots.now handle ≡ Some result }
{
    match &slots[handle as usize] {
        Slot::Used(colour, ties, _) => Links {
            parent: ties.parent,
            left: ties.left,
            right: ties.right,
            colour: *colour,
        },
        Slot::Free(_) => unreachable!(),
    }
}

/// Gives the node in this slot another parent.
pub fn write_parent<T>(slots: &mut [Slot<T>], handle: u32, parent: u32)
    requires { IsUsed slots.old handle }
    ensures { Relinks slots.old slots.new handle (with_parent_link parent) }
{
    match &mut slots[handle as usize] {
        Slot::Used(_, ties, _) => ties.parent = parent,
        Slot::Free(_) => {}
    }
}

/// Gives the node in this slot another subtree on the side.
pub fn write_child<T>(slots: &mut [Slot<T>], handle: u32, side: Side, child: u32)
    requires { IsUsed slots.old handle }
    ensures { Relinks slots.old slots.new handle (with_child_link side child) }
{
    match &mut slots[handle as usize] {
        Slot::Used(_, ties, _) => ties.set_child(side, child),
        Slot::Free(_) => {}
    }
}

/// Gives the node in this slot the colour.
pub fn write_colour<T>(slots: &mut [Slot<T>], handle: u32, colour: Colour)
    requires { IsUsed slots.old handle }
    ensures { Relinks slots.old slots.new handle (with_colour colour) }
{
    match &mut slots[handle as usize] {
        Slot::Used(shade, _, _) => *shade = colour,
        Slot::Free(_) => {}
    }
}

/// Hangs the node in this slot below another parent, in another colour, with another subtree on the side.
pub fn hang<T>(
    slots: &mut [Slot<T>],
    handle: u32,
    parent: u32,
    colour: Colour,
    side: Side,
    child: u32,
)
    requires { IsUsed slots.old handle }
    ensures { Relinks slots.old slots.new handle (hung_links parent colour side child) }
{
    match &mut slots[handle as usize] {
        Slot::Used(shade, ties, _) => {
            ties.set_child(side, child);
            ties.parent = parent;
            *shade = colour;
        }
        Slot::Free(_) => {}
    }
}
