//! Which edges come close to each other: what the sweep for pairs asks of edges.

ghost use Rattle.std.specs.Bool.{OnTrue};
ghost use Rattle.std.specs.Prelude.{◌≡◌, ◌⊎◌, ◌<◌, ◌^◌, true, All, IfErr, IfOk, IfSome, IsTrue, MatchBool, length, map};
ghost use Rattle.i_tree.specs.declared.Refusal.TheVariants.{OutOfMemory};
ghost use Rattle.plane.specs.Meet.Boxes.{bounds_of};
ghost use Rattle.plane.specs.Pairs.Pairs.{ArePairs};
ghost use Rattle.plane.specs.Pairs.Bounds.{BoundsMeet};
ghost use Rattle.plane.specs.Meet.Crosses.{IsWithin};
ghost use Rattle.noding.specs.Close.{ComeClose, HaveOnePoint, HoldsEnd, LieApart, LieBeyond, PassesEnd, ShareEnd, item_of};

use crate::passing::{is_end, is_in_box, may_pass_inside, passes_inside};
use i_tree::Refusal;
use plane::edge::{Edge, margin_of};
use plane::pairs::boxes::boxes_meet;
use plane::pairs::items::{Bounds, Boxed, Meets};
use plane::pairs::{Budget, pairs_within_budget};
use plane::vectors::{cross_product, vector_along, vector_between_starts};
use std::alloc::{AllocError, Allocator};

/// An edge as an item that meets those that come close to it. Of edges by themselves the sweep asks which share a point.
#[derive(Clone, Copy)]
pub struct CloseEdge {
    pub edge: Edge,
}

impl Boxed for CloseEdge {
    ghost bounds = { λ it. bounds_of it.edge };

    fn bounds(self) -> Bounds {
        self.edge.bounds()
    }
}

impl Meets<CloseEdge> for CloseEdge {
    ghost Meeting = { λ it other. ComeClose it.edge other.edge };

    fn meets(self, other: CloseEdge) -> bool {
        come_close(self.edge, other.edge)
    }
}

/// The pairs of places `(i, j)` of edges that come close, i below j, each once; or nothing where the sweep over their boxes takes
/// more tests than edges mostly need. Then edges are noded by columns.
pub fn close_pairs<A: Allocator + Copy>(
    alloc: A,
    edges: &[Edge],
) -> Result<Option<Vec<(usize, usize), A>>, Refusal>
    ensures ok { IfOk result (λ found. IfSome found (λ pairs. ArePairs ComeClose edges.now pairs.items)) }
    ensures within { IfOk result (λ found. IfSome found (λ pairs.
        All (λ pair. (pair.0 < length edges.now) × (pair.1 < length edges.now)) pairs.items)) }
    ensures refused { IfErr result (λ cause. cause ≡ OutOfMemory) }
{
    let items = items_of(alloc, edges)?;
    let mut pairs = Vec::new(alloc);
    let are_all = pairs_within_budget(&items, Budget::for_items(edges.len()), &mut pairs)?;
    Ok(are_all.then_some(pairs))
}

fn items_of<A: Allocator>(alloc: A, edges: &[Edge]) -> Result<Vec<CloseEdge, A>, AllocError>
    ensures { IfOk result (λ items. items.items ≡ map item_of edges.now) }
{
    edges
        .iter()
        .map(|edge| CloseEdge { edge: *edge })
        .collect(alloc)
}

// Whether the edges come close. Edges that follow each other share an end, which is no stop of either.
fn come_close(one: Edge, other: Edge) -> bool
    ensures { MatchBool result (ComeClose one other) (¬ (ComeClose one other)) }
{
    if share_end(one, other) {
        return pass_beside(one, other);
    }
    if !boxes_meet(one.bounds(), other.bounds()) {
        return false;
    }
    !lie_apart(one, other)
}

// Whether one of the edges lies so far to one side of the other's line that there is no whole point that both pass. Most edges
// whose boxes meet and that don't meet themselves lie so.
#[inline(always)]
fn lie_apart(one: Edge, other: Edge) -> bool
    ensures { MatchBool result (LieApart one other) (¬ (LieApart one other)) }
{
    let one_way = vector_along(one);
    let other_way = vector_along(other);
    let between = vector_between_starts(one, other);
    let whole = cross_product(one_way, other_way);
    let first = cross_product(between, other_way);
    if lie_beyond(first, first - whole, margin_of(other)) {
        return true;
    }
    let second = cross_product(between, one_way);
    lie_beyond(second, second - whole, margin_of(one))
}

// Whether two heights over a line lie on the same side of it, and both beyond its margin. All comparisons are made, since a branch
// between them would be guessed wrongly often.
fn lie_beyond(start: i128, end: i128, margin: i128) -> bool
    requires start { IsWithin (2 ^ 67) start }
    requires end { IsWithin (2 ^ 67) end }
    requires margin { IsWithin (2 ^ 33) margin }
    ensures { MatchBool result (LieBeyond start end margin) (¬ (LieBeyond start end margin)) }
{
    let above = (margin < start) & (margin < end);
    let below = (start + margin < 0) & (end + margin < 0);
    above | below
}

// Of edges that share an end, whether one of them passes an end of the other between its own ends. Most often their boxes have
// nothing in common but that end, which is told sooner.
fn pass_beside(one: Edge, other: Edge) -> bool
    requires { ShareEnd one other }
    ensures { let passes = PassesEnd one other ⊎ PassesEnd other one in MatchBool result passes (¬ passes) }
{
    if have_one_point(one.bounds(), other.bounds()) {
        return false;
    }
    if part_widely(one, other) {
        return false;
    }
    one_passes_end(one, other)
}

// Whether edges that share an end go so far apart that neither passes an end of the other one. Either's far end lies as far from the
// other's line, by one cross product.
#[inline(always)]
fn part_widely(one: Edge, other: Edge) -> bool
    requires { ShareEnd one other }
    ensures { result ≡ true → ¬ (PassesEnd one other ⊎ PassesEnd other one) }
{
    let apart = cross_product(vector_along(one), vector_along(other));
    let most = margin_of(one) + margin_of(other);
    (most < apart + apart) | (apart + apart + most < 0)
}

// Whether the boxes have one point in common at most. All comparisons are made, since a branch between them would be guessed
// wrongly often.
fn have_one_point(first: Bounds, second: Bounds) -> bool
    ensures { OnTrue result (HaveOnePoint first second) }
{
    let across = first.left.max(second.left) >= first.right.min(second.right);
    let up = first.low.max(second.low) >= first.high.min(second.high);
    across & up
}

// Whether some point is an end of both edges.
fn share_end(one: Edge, other: Edge) -> bool
    ensures { MatchBool result (ShareEnd one other) (¬ (ShareEnd one other)) }
{
    is_end(one, other.x0, other.y0) || is_end(one, other.x1, other.y1)
}

// Whether one of the edges passes an end of the other between its own ends. It is asked seldom.
#[inline(never)]
fn one_passes_end(one: Edge, other: Edge) -> bool
    ensures { let passes = PassesEnd one other ⊎ PassesEnd other one in MatchBool result passes (¬ passes) }
{
    passes_end(one, other) || passes_end(other, one)
}

// Whether the edge passes an end of the other one between its own ends. Most often it can't, which is told where it is asked.
#[inline(always)]
fn passes_end(edge: Edge, other: Edge) -> bool
    ensures { MatchBool result (PassesEnd edge other) (¬ (PassesEnd edge other)) }
{
    may_pass_end(edge, other) && passes_end_held(edge, other)
}

// Whether the edge may do so: an end of the other one lies in its box, and one beside its line.
#[inline(always)]
fn may_pass_end(edge: Edge, other: Edge) -> bool
    ensures { PassesEnd edge other → IsTrue result }
{
    if !holds_end(edge, other) {
        return false;
    }
    may_pass_inside(edge, other.x0, other.y0) | may_pass_inside(edge, other.x1, other.y1)
}

// Whether an end of the other edge lies in the edge's box. Both are looked for, since a branch between them would be guessed wrongly
// often.
#[inline(always)]
fn holds_end(edge: Edge, other: Edge) -> bool
    ensures { MatchBool result (HoldsEnd edge other) (¬ (HoldsEnd edge other)) }
{
    is_in_box(edge, other.x0, other.y0) | is_in_box(edge, other.x1, other.y1)
}

// As `passes_end`, which asks it where it may be so.
#[inline(never)]
fn passes_end_held(edge: Edge, other: Edge) -> bool
    ensures { MatchBool result (PassesEnd edge other) (¬ (PassesEnd edge other)) }
{
    passes_inside(edge, other.x0, other.y0) || passes_inside(edge, other.x1, other.y1)
}
