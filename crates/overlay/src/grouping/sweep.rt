//! Which side is just below the beginning of each hole, by a sweep over all sides: where most of them go over many holes.

ghost use Rattle.std.specs.Prelude.{◌≡◌, ◌<◌, [], All, IfErr, IfSome, List, OnOk, length};
ghost use Rattle.std.specs.List.{flat_map};
ghost use Rattle.i_tree.specs.declared.Refusal.TheVariants.{OutOfMemory};
ghost use Rattle.i_tree.specs.Root.Handles.{HasAllHandles};
ghost use Rattle.plane.specs.declared.point.Point.{Point};
ghost use Rattle.overlay.specs.Contours.Rings.{ring_edges};
ghost use Rattle.overlay.specs.Fill.Filled.{AreDistinct, AreNoded};
ghost use Rattle.overlay.specs.Fill.Sweep.{AreFillPieces};
ghost use Rattle.overlay.specs.Grouping.{AreFirsts, AreSides, AreTold, IsUntold, firsts_of, pieces_of, side_found};

use super::holes::Hole;
use super::sides::Side;
use crate::fill::pieces::is_same;
use i_tree::Refusal;
use i_tree::status::exp::StatusCollection;
use plane::sweep_line::{ActiveEdge, insert_beginning};

/// Finds the highest side of all rings below each hole. The holes begin in the order in which their first sides do.
///
/// It is refused where the status refused a side: for want of memory alone if it has handles for any number.
pub fn sweep_sides<C>(status: &mut C, sides: &[Side], holes: &mut [Hole]) -> Result<(), Refusal>
where
    C: StatusCollection<ActiveEdge, i64, ()>,
    requires empty { C.stored status.old ≡ [] }
    requires pieces { AreFillPieces (pieces_of sides.now) }
    ensures told { OnOk result ((rings : List (List Point)) → AreSides rings sides.now → AreNoded (flat_map ring_edges rings)
        → AreDistinct (flat_map ring_edges rings) → AreFirsts rings (firsts_of holes.old) → All IsUntold holes.old
        → AreTold rings (firsts_of holes.old) holes.new) }
    ensures refused { HasAllHandles C.has_handles → IfErr result (λ cause. cause ≡ OutOfMemory) }
{
    let mut next = 0;
    // The side just below each of the first `next` holes is found. The others begin with later sides.
    for (place, side) in sides.iter().enumerate() {
        let edge = side.piece.edge;
        let (below, _) = insert_beginning(status, ActiveEdge { edge, place })?;
        if next < holes.len() && is_same(holes[next].first.piece.edge, edge) {
            holes[next].below = side_below(sides, below);
            next += 1;
        }
    }
    Ok(())
}

// The side of an entry of the status.
fn side_below(sides: &[Side], below: Option<(ActiveEdge, ())>) -> Option<Side>
    requires { IfSome below (λ entry. entry.0.place < length sides.now) }
    ensures { result ≡ side_found sides.now below }
{
    match below {
        Some((active, _)) => Some(sides[active.place]),
        None => None,
    }
}
