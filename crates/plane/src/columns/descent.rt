//! Descents of the status, each to the place behind all edges that stand in front of what is sought.

ghost use Rattle.std.specs.Prelude.{◌≡◌, ◌<ℤ◌, List, All, MatchBool, length};
ghost use Rattle.i_tree.specs.Rb.Balance.{IsCore};
ghost use Rattle.i_tree.specs.Rb.Items.{items_of};
ghost use Rattle.i_tree.specs.Rb.Shape.{entries};
ghost use Rattle.i_tree.specs.Root.Descent.{Searches};
ghost use Rattle.plane.specs.declared.sweep_line.active.ActiveEdge.{ActiveEdge};
ghost use Rattle.plane.specs.Columns.Asked.{IsBelowAsked};
ghost use Rattle.plane.specs.Columns.Descent.{DescendsTo, GoesRight, IsPartedBy, IsUptoAsked, StandsInFront};

use super::Asked;
use super::moments::stands_below;
use crate::edge::Edge;
use crate::point::Point;
use crate::sweep_line::ActiveEdge;
use crate::sweep_line::heights::compare_to_point;
use i_tree::EMPTY_REF;
use i_tree::rb::RbTree;
use i_tree::steps::Counter;
use std::alloc::Allocator;

/// What is sought along the line: where an edge goes that begins, or the first edge that isn't below what is asked.
#[derive(Clone, Copy)]
pub enum Sought {
    Beginning(ActiveEdge),
    Within(Asked),
}

/// Where a descent has ended: on a side of the handle `above` without a subtree, or at the root where that is `EMPTY_REF`. The
/// handle of the last edge in front of that place is `last`, or that is `EMPTY_REF` where there is none.
#[derive(Clone, Copy)]
pub struct DescentEnd {
    pub last: u32,
    pub above: u32,
    pub on_right: bool,
}

/// Goes down to the place behind all edges that stand in front of what is sought. It compares each edge on its way once, and counts
/// that.
pub fn descend<A: Allocator + Copy, C: Counter>(
    tree: &RbTree<ActiveEdge, A>,
    steps: &mut C,
    sought: Sought,
) -> DescentEnd
    requires right { All (λ other. other.edge.x0 <ℤ other.edge.x1) (items_of (entries tree.now.shape)) }
    requires sought_right { GoesRight sought }
    requires parted { (front : List ActiveEdge) × (back : List ActiveEdge)
        × IsPartedBy sought (items_of (entries tree.now.shape)) front back }
    ensures end { DescendsTo sought tree.now.shape result }
    ensures steps { Searches C.made steps.old steps.new (length (entries tree.now.shape)) 0 0 }
    ensures core { IsCore tree.now.shape }
{
    let mut last = EMPTY_REF;
    let mut above = EMPTY_REF;
    let mut on_right = false;
    let mut here = tree.root();
    // `last` is that of the last edge in front of the subtree at `here`, and the first behind that doesn't stand in front.
    while here != EMPTY_REF {
        steps.add_comparison();
        above = here;
        on_right = stands_in_front(*tree.item(here), sought);
        if on_right {
            last = here;
        }
        here = if on_right {
            tree.right(here)
        } else {
            tree.left(here)
        };
    }
    DescentEnd {
        last,
        above,
        on_right,
    }
}

/// Whether the edge stands in front of what is sought.
fn stands_in_front(other: ActiveEdge, sought: Sought) -> bool
    requires right { other.edge.x0 <ℤ other.edge.x1 }
    requires sought_right { GoesRight sought }
    ensures { MatchBool result (StandsInFront sought other) (¬ (StandsInFront sought other)) }
{
    match sought {
        Sought::Beginning(beginning) => stands_below(other, beginning),
        Sought::Within(asked) => is_below_asked(other.edge, asked),
    }
}

/// Whether an edge that goes to the right is below what is asked.
fn is_below_asked(edge: Edge, asked: Asked) -> bool
    ensures { MatchBool result (IsBelowAsked asked edge) (¬ (IsBelowAsked asked edge)) }
{
    let lowest = Point {
        x: asked.x,
        y: asked.low,
    };
    compare_to_point(edge, lowest).is_lt()
}

/// Whether an edge that goes to the right is at most as high as what is asked.
pub fn is_upto_asked(edge: Edge, asked: Asked) -> bool
    ensures { MatchBool result (IsUptoAsked asked edge) (¬ (IsUptoAsked asked edge)) }
{
    let highest = Point {
        x: asked.x,
        y: asked.high,
    };
    compare_to_point(edge, highest).is_le()
}
