//! `Arena`: nodes in slots, tied by handles to a tree; free slots, growth and rotation.

ghost use Rattle.std.specs.Prelude.{⊤, ◌≡◌, ◌≢◌, ◌≤◌, ◌<◌, ◌+◌, ◌-◌, ℕ, List, length, Some, slice_get, OnOk, MatchBool, IsTrue, max, vec_len, vec_capacity};
ghost use Rattle.std.specs.Borrow.{sem};
ghost use Rattle.i_tree.specs.declared.rb.links.Links.{Links};
ghost use Rattle.i_tree.specs.Rb.Balance.{is_black};
ghost use Rattle.i_tree.specs.Rb.Capacity.{MakesEmpty, Reserves, TakesSlotBy};
ghost use Rattle.i_tree.specs.Rb.Context.{Frame, fork_on, plug, hole_parent, Replaces, HasOneSubtree, HasRoomOn};
ghost use Rattle.i_tree.specs.Rb.ArenaLends.{lends_item};
ghost use Rattle.i_tree.specs.Rb.RbTree.{slots};
ghost use Rattle.i_tree.specs.Rb.FreeSlots.{IsFree, Keeps, with_numbers};
ghost use Rattle.i_tree.specs.Rb.Shape.{Shape, leaf, fork, top, entries, IsHandle, AreHandles, occurs};
ghost use Rattle.i_tree.specs.Rb.Slots.{IsChain, IsSound, IsUsed, node_slot};
ghost use Rattle.i_tree.specs.Root.Steps.{one_rotation};
ghost use Rattle.i_tree.specs.Rb.Rotation.{Rotation, unrotated, rotated, CanRotation, HoldsRotation, Rehangs, Reparents};

use super::links::{
    Colour, Side, Slot, Ties, hang, links_at, write_child, write_colour, write_parent,
};
use crate::steps::Counter;
use crate::{EMPTY_REF, Refusal};
use std::alloc::Allocator;
use std::marker::Model;
use std::mem;

// The fewest slots that an arena has.
const LEAST_SLOTS: usize = 8;

/// Nodes in slots, tied by handles to a tree. It knows nothing of balance.
///
/// A handle is a slot's number. Slot 0 is reserved: it is never a handle. A free slot holds the number of the next one.
#[derive(Drop)]
pub struct Arena<T, A: Allocator + Copy> {
    slots: Vec<Slot<T>, A>,
    root: u32,
    first_free: u32,
    // How many slots are free.
    free: u32,
}

impl<T, A: Allocator + Copy> Model for Arena<T, A> {
    ghost use Rattle.std.specs.Prelude.{length};
    ghost use Rattle.i_tree.specs.Rb.RbTree.{Contents, contents_code};

    ghost Value = { Contents T };

    ghost coded = { contents_code T.code };

    ghost use Rattle.i_tree.specs.Rb.Slots.{IsSound, read_tree};

    ghost view = { λ arena. record {
      shape = read_tree arena.slots.items (length arena.slots.items) arena.root;
      spare = arena.free;
    } };

    ghost invariant = { λ arena. IsSound arena.slots.items arena.root arena.first_free arena.free (read_tree arena.slots.items (length arena.slots.items) arena.root) };
}

// Adds free slots up to `count`, for which there is room, at the front of the chain, and answers the first free one.
fn add_slots<T, A: Allocator + Copy>(
    slots: &mut Vec<Slot<T>, A>,
    first_free: u32,
    count: u32,
) -> u32
    requires room { count ≤ vec_capacity slots.old }
    requires fewer { vec_len slots.old ≤ count }
    ensures kept { Keeps slots.old.items slots.new.items }
    ensures linked { (chain : List ℕ) → IsChain slots.old.items first_free chain →
        IsChain slots.new.items result (with_numbers (vec_len slots.old) (count - vec_len slots.old) chain) }
    ensures len { vec_len slots.new ≡ count }
{
    let mut first = first_free;
    // The slots up to this number are there, and the new ones stand in the chain before the old ones.
    for number in slots.len() as u32..count {
        slots.push_reserved(Slot::Free(first));
        first = number;
    }
    first
}

// Puts a node without subtrees into the first free slot, and answers its number.
fn take_slot<T>(
    slots: &mut [Slot<T>],
    first_free: &mut u32,
    parent: u32,
    colour: Colour,
    item: T,
) -> u32
    requires { IsFree slots.old first_free.old }
    ensures handle { result ≡ first_free.old }
    ensures next { slice_get slots.old result ≡ Some (Slot.Free first_free.new) }
    ensures used { slice_get slots.new result ≡ Some
        (node_slot (record { parent = parent; left = EMPTY_REF; right = EMPTY_REF; colour = colour }) item) }
    ensures others { (other : ℕ) → other ≢ result → slice_get slots.new other ≡ slice_get slots.old other }
{
    let handle = *first_free;
    let node = Slot::Used(
        colour,
        Ties {
            parent,
            left: EMPTY_REF,
            right: EMPTY_REF,
        },
        item,
    );
    match mem::replace(&mut slots[handle as usize], node) {
        Slot::Free(next) => *first_free = next,
        Slot::Used(_, _, _) => unreachable!(),
    }
    handle
}

// Puts the slot of a node before the free ones, and answers its item.
fn free_slot<T>(slots: &mut [Slot<T>], first_free: u32, handle: u32) -> T
    requires { IsUsed slots.old handle }
    ensures item { (links : Links) (item : T) → slice_get slots.old handle ≡ Some (node_slot links item) →
        result ≡ item }
    ensures freed { slice_get slots.new handle ≡ Some (Slot.Free first_free) }
    ensures others { (other : ℕ) → other ≢ handle → slice_get slots.new other ≡ slice_get slots.old other }
{
    match mem::replace(&mut slots[handle as usize], Slot::Free(first_free)) {
        Slot::Used(_, _, item) => item,
        Slot::Free(_) => unreachable!(),
    }
}

// Puts another handle where the parent, or the root, had this one.
fn replace_child<T>(slots: &mut [Slot<T>], root: &mut u32, parent: u32, old: u32, new: u32)
    requires { parent ≢ EMPTY_REF → IsUsed slots.old parent }
    ensures { Rehangs slots.old slots.new root.old root.new parent old new }
{
    if parent == EMPTY_REF {
        *root = new;
        return;
    }
    if links_at(slots, parent).left == old {
        write_child(slots, parent, Side::Left, new);
    } else {
        write_child(slots, parent, Side::Right, new);
    }
}

// Gives the node, where the handle is that of one, another parent.
fn set_parent<T>(slots: &mut [Slot<T>], handle: u32, parent: u32)
    requires { handle ≢ EMPTY_REF → IsUsed slots.old handle }
    ensures { Reparents slots.old slots.new handle parent }
{
    if handle != EMPTY_REF {
        write_parent(slots, handle, parent);
    }
}

// Rotates the node down to the side, and its subtree's top on the other side up to its place. The two change colours.
fn rotate_slots<T>(slots: &mut [Slot<T>], root: &mut u32, handle: u32, side: Side)
    requires { HoldsRotation slots.old root.old handle side }
    ensures { (rotation : Rotation T handle side) (first_free : ℕ) (free : ℕ) →
        IsSound slots.old root.old first_free free (plug rotation.around (unrotated rotation)) →
        IsSound slots.new root.new first_free free (plug rotation.around (rotated rotation)) }
{
    let links = links_at(slots, handle);
    let raised = links.child(side.other());
    let raised_links = links_at(slots, raised);
    let inner = raised_links.child(side);
    replace_child(slots, root, links.parent, handle, raised);
    hang(
        slots,
        handle,
        raised,
        raised_links.colour,
        side.other(),
        inner,
    );
    hang(slots, raised, links.parent, links.colour, side, handle);
    set_parent(slots, inner, handle);
}

impl<T, A: Allocator + Copy> Arena<T, A> {
    ghost use Rattle.i_tree.specs.Rb.ArenaLends.{lends_item};

    /// No node, and `max(capacity, 8)` slots.
    pub fn new(alloc: A, capacity: usize) -> Result<Self, Refusal>
        ensures makes { MakesEmpty capacity result }
    {
        let count = capacity.max(LEAST_SLOTS);
        if count > EMPTY_REF as usize {
            return Err(Refusal::NoHandle);
        }
        let mut slots = Vec::with_capacity(alloc, count)?;
        slots.push_reserved(Slot::Free(EMPTY_REF));
        let first_free = add_slots(&mut slots, EMPTY_REF, count as u32);
        Ok(Arena {
            slots,
            root: EMPTY_REF,
            first_free,
            free: count as u32 - 1,
        })
    }

    /// Makes so many slots in all, where there are fewer. A refusal changes nothing.
    pub fn reserve(&mut self, capacity: usize) -> Result<(), Refusal>
        ensures reserves { Reserves capacity self.old self.new result }
    {
        let before = self.slots.len();
        if capacity > EMPTY_REF as usize {
            return Err(Refusal::NoHandle);
        }
        if capacity > before {
            self.slots.reserve_exact(capacity - before)?;
            self.first_free = add_slots(&mut self.slots, self.first_free, capacity as u32);
            self.free += (capacity - before) as u32;
        }
        Ok(())
    }

    /// Makes sure that a slot is free: where none is, the slots double, up to `EMPTY_REF` of them.
    #[inline]
    pub fn make_room(&mut self) -> Result<(), Refusal>
        ensures shape { self.new.shape ≡ self.old.shape }
        ensures room { OnOk result (0 < self.new.spare) }
        ensures takes { TakesSlotBy (λ cause. cause) (λ _. ⊤) self.old self.new result }
    {
        if self.free > 0 {
            return Ok(());
        }
        self.grow()
    }

    // Doubles the slots, none of which is free. It stands apart, since most insertions find a free slot.
    #[cold]
    #[inline(never)]
    fn grow(&mut self) -> Result<(), Refusal>
        requires { self.old.spare ≡ 0 }
        ensures shape { self.new.shape ≡ self.old.shape }
        ensures room { OnOk result (0 < self.new.spare) }
        ensures takes { TakesSlotBy (λ cause. cause) (λ _. ⊤) self.old self.new result }
    {
        let count = self.slots.len();
        if count >= EMPTY_REF as usize {
            return Err(Refusal::NoHandle);
        }
        self.reserve((2 * count).min(EMPTY_REF as usize))
    }

    /// How many nodes there are.
    pub fn len(&self) -> usize
        ensures { result ≡ length (entries self.now.shape) }
    {
        self.slots.len() - 1 - self.free as usize
    }

    /// How many slots are free.
    pub fn spare(&self) -> usize
        ensures { result ≡ self.now.spare }
    {
        self.free as usize
    }

    /// Whether a node has the handle.
    pub fn has(&self, handle: u32) -> bool
        ensures { MatchBool result (IsHandle self.now.shape handle) (occurs handle self.now.shape ≡ 0) }
    {
        match self.slots.get(handle as usize) {
            Some(Slot::Used(_, _, _)) => true,
            Some(Slot::Free(_)) => false,
            None => false,
        }
    }

    /// The top of the tree.
    pub fn root(&self) -> u32
        ensures value { result ≡ top self.now.shape }
        ensures handles { AreHandles self.now.shape }
    {
        self.root
    }

    /// The handle around the node's subtree.
    pub fn parent(&self, handle: u32) -> u32
        requires { IsHandle self.now.shape handle }
        ensures value { (around : List (Frame T)) (subtree : Shape T) → self.now.shape ≡ plug around subtree →
            top subtree ≡ handle → result ≡ hole_parent around }
        ensures handles { AreHandles self.now.shape }
    {
        links_at(&self.slots, handle).parent
    }

    /// The top of the node's subtree on the side.
    pub fn child(&self, handle: u32, side: Side) -> u32
        requires { IsHandle self.now.shape handle }
        ensures { (around : List (Frame T)) (colour : Colour) (near : Shape T) (item : T) (far : Shape T) →
            self.now.shape ≡ plug around (fork_on side colour near handle item far) → result ≡ top near }
    {
        links_at(&self.slots, handle).child(side)
    }

    /// Whether the node is black, as an empty subtree is.
    pub fn is_black(&self, handle: u32) -> bool
        requires { handle ≢ EMPTY_REF → IsHandle self.now.shape handle }
        ensures value { (around : List (Frame T)) (subtree : Shape T) → self.now.shape ≡ plug around subtree →
            top subtree ≡ handle → result ≡ is_black subtree }
        ensures empty { handle ≡ EMPTY_REF → IsTrue result }
    {
        handle == EMPTY_REF || links_at(&self.slots, handle).colour == Colour::Black
    }

    /// The item of the node.
    pub fn item(&self, handle: u32) -> &T
        requires { IsHandle self.now.shape handle }
        ensures { (around : List (Frame T)) (colour : Colour) (before : Shape T) (item : T) (after : Shape T) →
            self.now.shape ≡ plug around (fork colour before handle item after) → result.now ≡ item }
    {
        match &self.slots[handle as usize] {
            Slot::Used(_, _, item) => item,
            Slot::Free(_) => unreachable!(),
        }
    }

    /// The item of the node, to be written. Nothing else changes.
    pub fn item_mut(&mut self, handle: u32) -> &mut T
        requires { IsHandle self.old.shape handle }
        ensures* writes_back { sem 𝓛 (lends_item T.row A.row A.Allocator self.entry handle result) }
        ensures value { (around : List (Frame T)) (colour : Colour) (before : Shape T) (item : T)
            (after : Shape T) → self.old.shape ≡ plug around (fork colour before handle item after) →
            result.now ≡ item }
    {
        self.slots[handle as usize].item_mut()
    }

    /// Gives the node the colour.
    pub fn paint(&mut self, handle: u32, colour: Colour)
        requires { IsHandle self.old.shape handle }
        ensures shape { (before : Shape T) (item : T) (after : Shape T) (was : Colour) →
            Replaces self.old.shape self.new.shape (fork was before handle item after)
            (fork colour before handle item after) }
        ensures spare { self.new.spare ≡ self.old.spare }
        ensures handles { AreHandles self.new.shape }
    {
        write_colour(&mut self.slots, handle, colour);
    }

    /// Rotates the node down to the side, and its subtree's top on the other side up to its place. The two change colours.
    #[inline]
    pub fn rotate<C: Counter>(&mut self, steps: &mut C, handle: u32, side: Side)
        requires { CanRotation self.old.shape handle side }
        ensures shape { (rotation : Rotation T handle side) →
            self.old.shape ≡ plug rotation.around (unrotated rotation) →
            self.new.shape ≡ plug rotation.around (rotated rotation) }
        ensures spare { self.new.spare ≡ self.old.spare }
        ensures handles { AreHandles self.new.shape }
        ensures steps { C.made steps.old steps.new one_rotation }
    {
        rotate_slots(&mut self.slots, &mut self.root, handle, side);
        steps.add_rotation();
    }

    /// Puts a red node on the side of the parent, where it has no subtree, and answers its handle.
    pub fn attach(&mut self, parent: u32, side: Side, item: T) -> u32
        requires room { HasRoomOn self.old.shape parent side }
        requires spare { 0 < self.old.spare }
        ensures shape { (colour : Colour) (at : T) (far : Shape T) →
            Replaces self.old.shape self.new.shape (fork_on side colour leaf parent at far)
            (fork_on side colour (fork Colour.Red leaf result item leaf) parent at far) }
        ensures fresh { occurs result self.old.shape ≡ 0 }
        ensures spare { self.old.spare ≡ self.new.spare + 1 }
        ensures handles { AreHandles self.new.shape }
    {
        let handle = take_slot(
            &mut self.slots,
            &mut self.first_free,
            parent,
            Colour::Red,
            item,
        );
        self.free -= 1;
        write_child(&mut self.slots, parent, side, handle);
        handle
    }

    /// Puts a black node into the empty tree, and answers its handle.
    pub fn attach_root(&mut self, item: T) -> u32
        requires empty { self.old.shape ≡ leaf }
        requires spare { 0 < self.old.spare }
        ensures shape { self.new.shape ≡ fork Colour.Black leaf result item leaf }
        ensures spare { self.old.spare ≡ self.new.spare + 1 }
        ensures handles { AreHandles self.new.shape }
    {
        let handle = take_slot(
            &mut self.slots,
            &mut self.first_free,
            EMPTY_REF,
            Colour::Black,
            item,
        );
        self.free -= 1;
        self.root = handle;
        handle
    }

    /// Takes the node out, which has an empty subtree on some side: its other subtree takes its place. Its slot is free then.
    pub fn detach(&mut self, handle: u32) -> T
        requires { HasOneSubtree self.old.shape handle }
        ensures shape { (side : Side) (colour : Colour) (subtree : Shape T) (item : T) →
            Replaces self.old.shape self.new.shape (fork_on side colour subtree handle item leaf) subtree }
        ensures item { (around : List (Frame T)) (colour : Colour) (before : Shape T) (item : T) (after : Shape T) →
            self.old.shape ≡ plug around (fork colour before handle item after) → result ≡ item }
        ensures spare { self.new.spare ≡ self.old.spare + 1 }
        ensures handles { AreHandles self.new.shape }
    {
        let links = links_at(&self.slots, handle);
        let subtree = if links.left == EMPTY_REF {
            links.right
        } else {
            links.left
        };
        replace_child(
            &mut self.slots,
            &mut self.root,
            links.parent,
            handle,
            subtree,
        );
        set_parent(&mut self.slots, subtree, links.parent);
        let item = free_slot(&mut self.slots, self.first_free, handle);
        self.first_free = handle;
        self.free += 1;
        item
    }
}
