//! `GrowingStatus`: the status of a sweep line, a list while few pairs are stored, and a tree once more are.

ghost use Rattle.std.specs.Prelude.{◌≡◌, ◌∷◌, ◌++◌, ◌<◌, ◌≤◌, ◌+◌, [], true, All, is_some, length, IfOk, OnOk, OnErr};
ghost use Rattle.std.specs.declared.cmp.Ordering.TheVariants.{Less};
ghost use Rattle.i_tree.specs.Expiring.Insertion.{TellsNeighbours};
ghost use Rattle.i_tree.specs.Expiring.Live.{live_pairs, AllLive};
ghost use Rattle.i_tree.specs.Expiring.Tree.{items};
ghost use Rattle.i_tree.specs.Root.Causes.{RefusedFor};
ghost use Rattle.i_tree.specs.Root.Live.{is_live};
ghost use Rattle.i_tree.specs.Status.Insertion.{IsNew, JoinsOrLeaves};
ghost use Rattle.i_tree.specs.declared.TheConstants.{EMPTY_REF};
ghost use Rattle.plane.specs.SweepLine.Growing.{AreHeldByOne};

use i_tree::status::exp::StatusCollection;
use i_tree::status::list::StatusList;
use i_tree::status::tree::StatusTree;
use i_tree::{Expiration, ExpiredVal, Refusal};
use std::alloc::Allocator;
use std::cmp::Ordering;
use std::marker::Model;

// So many pairs stay in the list, however often some expire.
const FEW: usize = 128;

// So many stay there yet while some expire seldom: a list of so many is shifted as soon as a tree of them is searched, but each time
// that some expire all are passed over.
const MOST: usize = 1_024;

// An insertion at which some expire is made up for by so many at which none does.
const PASS: usize = 16;

// Eight such insertions are too many.
const MOST_PASSES: usize = 128;

/// The status of a sweep line: a sorted list while few pairs are stored, and a tree once more are.
///
/// Contracts see the stored pairs in their order along the line. Where only few are live at once, a list is quicker than a
/// tree; where many are, it shifts all behind a place for each that comes. So all pairs go over into the tree when an insertion
/// leaves more than 128 of them, or more than 1,024 while some expire seldom. They stay there until `clear`. For this no
/// insertion is refused: where the tree gets no room, they stay in the list. Nor is one refused for want of handles: where the
/// tree has none left, all live pairs go back into the list, which needs none. It is our own, and not of the Rust crate.
#[derive(Drop)]
pub struct GrowingStatus<K: ExpiredVal<E>, E: Expiration, V: Copy, A: Allocator + Copy> {
    few: StatusList<K, E, V, A>,
    many: StatusTree<K, E, V, A>,
    are_many: bool,
    // The place behind the pair that the list took last, which the next one tries first. No answer depends on it.
    near: usize,
    // What the insertions count at which some expired, less how many others there were since. No answer depends on it.
    passes: usize,
}

impl<K: ExpiredVal<E>, E: Expiration, V: Copy, A: Allocator + Copy> Model
    for GrowingStatus<K, E, V, A> {
    ghost use Rattle.std.specs.Prelude.{◌≡◌, [], List, MatchBool, if◌then◌else◌};
    ghost use Rattle.i_tree.specs.Expiring.Tree.{items};

    ghost Value = { List (K × V) };

    ghost view = { λ status. if status.are_many then items status.many.shape else status.few.pairs };

    ghost invariant = { λ status.
        MatchBool status.are_many (status.few.pairs ≡ []) (items status.many.shape ≡ []) };
}

impl<K: ExpiredVal<E>, E: Expiration, V: Copy, A: Allocator + Copy> GrowingStatus<K, E, V, A> {
    /// An empty status. It is refused where the allocator refuses the tree's first slots.
    pub fn new(alloc: A) -> Result<Self, Refusal>
        ensures empty { IfOk result (λ status. status ≡ []) }
        ensures refused { RefusedFor Refusal.OutOfMemory result }
    {
        Ok(GrowingStatus {
            few: StatusList::new(alloc, 0)?,
            many: StatusTree::new(alloc, 0)?,
            are_many: false,
            near: 0,
            passes: 0,
        })
    }
}

impl<K: ExpiredVal<E>, E: Expiration, V: Copy, A: Allocator + Copy> StatusCollection<K, E, V>
    for GrowingStatus<K, E, V, A> {
    ghost use Rattle.std.specs.Prelude.{⊤};

    ghost stored = { λ status. status };

    ghost has_handles = { λ _. ⊤ };

    /// Stores the pair in whichever holds the others. It is refused for want of memory alone.
    #[inline(always)]
    fn insert_by<F: Fn(K) -> Ordering>(
        &mut self,
        time: E,
        f: F,
        key: K,
        val: V,
    ) -> Result<bool, Refusal> {
        Ok(self.insert_between(time, f, key, val)?.is_some())
    }

    /// Stores the pair in whichever holds the others, and in the list where the tree has no handle left. It is refused for want of
    /// memory alone.
    #[inline(always)]
    fn insert_between<F: Fn(K) -> Ordering>(
        &mut self,
        time: E,
        f: F,
        key: K,
        val: V,
    ) -> Result<Option<(Option<(K, V)>, Option<(K, V)>)>, Refusal> {
        if self.are_many {
            let asked = |other: K| -> Ordering
                requires { F.pre f other }
                ensures { F.post f other result }
            { f(other) };
            match self.many.insert_between(time, asked, key, val) {
                Ok(told) => return Ok(told),
                Err(Refusal::OutOfMemory) => return Err(Refusal::OutOfMemory),
                Err(Refusal::NoHandle) => {
                    let told = insert_back(&mut self.few, &mut self.many, time, f, key, val)?;
                    self.are_many = false;
                    return Ok(told);
                }
            }
        }
        let stored = self.few.stored();
        let told = self.few.insert_near(time, &mut self.near, f, key, val)?;
        let is_pass = self.few.stored() <= stored;
        self.passes = count_pass(self.passes, is_pass);
        self.are_many = go_over_if_many(&mut self.few, &mut self.many, time, key, self.passes);
        Ok(told)
    }

    /// Answers by whichever holds the pairs.
    #[inline(always)]
    fn first_less_or_equal_by<F: Fn(K) -> Ordering>(&mut self, time: E, default: V, f: F) -> V {
        if self.are_many {
            return self.many.first_less_or_equal_by(time, default, f);
        }
        self.few.first_less_or_equal_by(time, default, f)
    }

    /// Answers by whichever holds the pairs.
    #[inline(always)]
    fn first_greater_by<F: Fn(K) -> Ordering>(&mut self, time: E, default: V, f: F) -> V {
        if self.are_many {
            return self.many.first_greater_by(time, default, f);
        }
        self.few.first_greater_by(time, default, f)
    }

    /// Answers by whichever holds the pairs.
    #[inline(always)]
    fn neighbours_by<F: Fn(K) -> Ordering>(
        &mut self,
        time: E,
        f: F,
    ) -> (Option<(K, V)>, Option<(K, V)>) {
        if self.are_many {
            return self.many.neighbours_by(time, f);
        }
        self.few.neighbours_by(time, f)
    }

    /// Removes every pair, and keeps the memory. What comes next is few again.
    fn clear(&mut self) {
        self.few.clear();
        self.many.clear();
        self.are_many = false;
        self.passes = 0;
    }
}

// What passes count after one more insertion. It never is so much that the next few make no difference.
#[inline(always)]
fn count_pass(passes: usize, is_pass: bool) -> usize {
    if is_pass {
        passes.saturating_add(PASS).min(2 * MOST_PASSES)
    } else {
        passes.saturating_sub(1)
    }
}

// Whether so many pairs are too many for a list, which was passed over so often.
#[inline(always)]
fn are_too_many(stored: usize, passes: usize) -> bool {
    stored > FEW && (passes > MOST_PASSES || stored > MOST)
}

/// Whether all pairs have gone over from the list into the empty tree, which they do where they are many. The others are live, so
/// that all are where this key is.
#[inline(always)]
fn go_over_if_many<K: ExpiredVal<E>, E: Expiration, V: Copy, A: Allocator + Copy>(
    few: &mut StatusList<K, E, V, A>,
    many: &mut StatusTree<K, E, V, A>,
    time: E,
    key: K,
    passes: usize,
) -> bool
    requires live { is_live K.expiration E.cmp time key ≡ true → AllLive K.expiration E.cmp time few.old.pairs }
    requires empty { items many.old.shape ≡ [] }
    ensures gone { AreHeldByOne result few.new.pairs (items many.new.shape) few.old.pairs }
{
    if are_too_many(few.stored(), passes) && key.expiration() >= time {
        return go_over(few, many, time);
    }
    false
}

/// Whether all pairs have gone over from the list into the empty tree. Where the tree gets no room for them, they stay.
#[cold]
#[inline(never)]
fn go_over<K: ExpiredVal<E>, E: Expiration, V: Copy, A: Allocator + Copy>(
    few: &mut StatusList<K, E, V, A>,
    many: &mut StatusTree<K, E, V, A>,
    time: E,
) -> bool
    requires live { AllLive K.expiration E.cmp time few.old.pairs }
    requires empty { items many.old.shape ≡ [] }
    ensures gone { AreHeldByOne result few.new.pairs (items many.new.shape) few.old.pairs }
{
    match append_all(many, few.pairs(), time) {
        Ok(()) => {
            few.clear();
            true
        }
        Err(_) => {
            many.clear();
            false
        }
    }
}

/// Puts the pairs into the empty tree, in their order. Where it is refused, some may stand there.
fn append_all<K: ExpiredVal<E>, E: Expiration, V: Copy, A: Allocator + Copy>(
    tree: &mut StatusTree<K, E, V, A>,
    pairs: &[(K, V)],
    time: E,
) -> Result<(), Refusal>
    requires live { AllLive K.expiration E.cmp time pairs.now }
    requires empty { items tree.old.shape ≡ [] }
    ensures ok { OnOk result (items tree.new.shape ≡ pairs.now) }
{
    tree.reserve_capacity(pairs.len())?;
    // The pairs so far stand in the tree, in their order.
    for pair in pairs {
        append(tree, *pair, time)?;
    }
    Ok(())
}

/// Puts the pair behind all that are stored.
fn append<K: ExpiredVal<E>, E: Expiration, V: Copy, C: StatusCollection<K, E, V>>(
    status: &mut C,
    pair: (K, V),
    time: E,
) -> Result<(), Refusal>
    requires live { AllLive K.expiration E.cmp time (C.stored status.old) }
    ensures ok { OnOk result (C.stored status.new ≡ C.stored status.old ++ pair ∷ []) }
    ensures refused { C.has_handles (length (C.stored status.old) + 1) → RefusedFor Refusal.OutOfMemory result }
    ensures room { C.room status.old ≤ C.room status.new }
{
    let is_before = |_: K| -> Ordering
        ensures { result ≡ Less }
    { Ordering::Less };
    status.insert_by(time, is_before, pair.0, pair.1)?;
    Ok(())
}

/// Stores the pair in the list, into which all live pairs of the tree go back first. For a tree that has no handle left. Refused,
/// the list is empty and the tree as it was.
#[cold]
#[inline(never)]
fn insert_back<K: ExpiredVal<E>, E: Expiration, V: Copy, A: Allocator + Copy, F: Fn(K) -> Ordering>(
    few: &mut StatusList<K, E, V, A>,
    many: &mut StatusTree<K, E, V, A>,
    time: E,
    f: F,
    key: K,
    val: V,
) -> Result<Option<(Option<(K, V)>, Option<(K, V)>)>, Refusal>
    requires asked { All (λ pair. F.pre f pair.0) (live_pairs K.expiration E.cmp time (items many.old.shape)) }
    requires empty { few.old.pairs ≡ [] }
    requires handles { length (items many.old.shape) < EMPTY_REF }
    ensures cases { IfOk result (λ told.
        IsNew (F.post f) (is_some told) (live_pairs K.expiration E.cmp time (items many.old.shape))) }
    ensures ok { IfOk result (λ told. JoinsOrLeaves (is_live K.expiration E.cmp time) (F.post f) (is_some told)
        (key, val) (items many.old.shape) few.new.pairs) }
    ensures neighbours { IfOk result
        (TellsNeighbours (F.post f) (live_pairs K.expiration E.cmp time (items many.old.shape))) }
    ensures gone { OnOk result (items many.new.shape ≡ []) }
    ensures stays { OnErr result (few.new.pairs ≡ []) }
    ensures err { OnErr result (items many.new.shape ≡ items many.old.shape) }
    ensures refused { RefusedFor Refusal.OutOfMemory result }
{
    go_back(few, many, time)?;
    few.insert_between(time, f, key, val)
}

/// Puts the live pairs of the tree back into the empty list, with room for one more there, and empties the tree. A refusal
/// leaves the list empty and the tree as it was.
fn go_back<K: ExpiredVal<E>, E: Expiration, V: Copy, A: Allocator + Copy>(
    few: &mut StatusList<K, E, V, A>,
    many: &mut StatusTree<K, E, V, A>,
    time: E,
) -> Result<(), Refusal>
    requires empty { few.old.pairs ≡ [] }
    requires handles { length (items many.old.shape) < EMPTY_REF }
    ensures ok { OnOk result (few.new.pairs ≡ live_pairs K.expiration E.cmp time (items many.old.shape)) }
    ensures room { OnOk result (0 < few.new.spare) }
    ensures gone { OnOk result (items many.new.shape ≡ []) }
    ensures stays { OnErr result (few.new.pairs ≡ []) }
    ensures err { OnErr result (items many.new.shape ≡ items many.old.shape) }
    ensures refused { RefusedFor Refusal.OutOfMemory result }
{
    few.reserve_capacity(many.stored() + 1)?;
    if let Err(cause) = append_live(few, many, time) {
        few.clear();
        return Err(cause);
    }
    many.clear();
    Ok(())
}

/// Puts the live pairs of the tree into the empty list, in their order. Where it is refused, some may stand there.
fn append_live<K: ExpiredVal<E>, E: Expiration, V: Copy, A: Allocator + Copy>(
    few: &mut StatusList<K, E, V, A>,
    many: &StatusTree<K, E, V, A>,
    time: E,
) -> Result<(), Refusal>
    requires empty { few.old.pairs ≡ [] }
    ensures ok { OnOk result (few.new.pairs ≡ live_pairs K.expiration E.cmp time (items many.now.shape)) }
    ensures room { length few.old.pairs + few.old.spare ≤ length few.new.pairs + few.new.spare }
    ensures refused { RefusedFor Refusal.OutOfMemory result }
{
    let tree = many.core();
    let mut here = tree.first();
    // The live ones of the pairs so far stand in the list, in their order, and the handle is that of the next pair.
    for _ in 0..tree.len() {
        append_if_live(few, *tree.item(here), time)?;
        here = tree.after(here);
    }
    Ok(())
}

/// Puts the pair behind all that the list stores, where it is live.
fn append_if_live<K: ExpiredVal<E>, E: Expiration, V: Copy, A: Allocator + Copy>(
    few: &mut StatusList<K, E, V, A>,
    pair: (K, V),
    time: E,
) -> Result<(), Refusal>
    requires live { AllLive K.expiration E.cmp time few.old.pairs }
    ensures ok { OnOk result (few.new.pairs ≡ few.old.pairs ++ live_pairs K.expiration E.cmp time (pair ∷ [])) }
    ensures room { length few.old.pairs + few.old.spare ≤ length few.new.pairs + few.new.spare }
    ensures refused { RefusedFor Refusal.OutOfMemory result }
{
    if pair.0.expiration() < time {
        return Ok(());
    }
    append(few, pair, time)
}
