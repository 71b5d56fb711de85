//! Polygons appended to others.

ghost use Rattle.std.specs.Prelude.{◌≡◌, ◌++◌, ◌+◌, ◌^◌, ◌<◌, ◌≤◌, All, OnErr, OnOk, length, map};
ghost use Rattle.plane.specs.Lists.{Extends};
ghost use Rattle.overlay.specs.Polygons.{AreExtended};

use overlay::Polygons;
use std::alloc::{AllocError, Allocator};

/// Appends polygons that stand in lists of their own.
pub fn append_polygons<A: Allocator, B: Allocator>(
    made: &Polygons<B>,
    out: &mut Polygons<A>,
) -> Result<(), AllocError>
    requires ring_ends { All (λ end. end ≤ length made.now.points.items) made.now.ring_ends.items }
    requires polygon_ends { All (λ end. end ≤ length made.now.ring_ends.items) made.now.polygon_ends.items }
    ensures points { OnOk result (out.new.points.items ≡ out.old.points.items ++ made.now.points.items) }
    ensures rings { OnOk result (out.new.ring_ends.items
        ≡ out.old.ring_ends.items ++ map (λ end. length out.old.points.items + end) made.now.ring_ends.items) }
    ensures polygons { OnOk result (out.new.polygon_ends.items
        ≡ out.old.polygon_ends.items ++ map (λ end. length out.old.ring_ends.items + end) made.now.polygon_ends.items) }
    ensures err { OnErr result (AreExtended out.old out.new) }
{
    let points = out.points.len();
    let rings = out.ring_ends.len();
    out.points.extend_from_slice(&made.points)?;
    append_moved(&made.ring_ends, points, &mut out.ring_ends)?;
    append_moved(&made.polygon_ends, rings, &mut out.polygon_ends)
}

// Appends the ends, each moved on by so many.
fn append_moved<A: Allocator>(
    ends: &[usize],
    by: usize,
    out: &mut Vec<usize, A>,
) -> Result<(), AllocError>
    requires { All (λ end. by + end < 2 ^ 64) ends.now }
    ensures ok { OnOk result (out.new.items ≡ out.old.items ++ map (λ end. by + end) ends.now) }
    ensures err { OnErr result (Extends out.old.items out.new.items) }
{
    for end in ends {
        out.push(by + *end)?;
    }
    Ok(())
}
