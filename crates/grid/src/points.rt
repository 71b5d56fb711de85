//! Many positions as points of a grid, and back.

ghost use Rattle.std.specs.Prelude.{◌≡◌, ◌<◌, ℕ, OnOk, IfOk, IfErr, length};
ghost use Rattle.grid.specs.Grid.{IsGrid, IsTold, IsToldAt, IsWrittenAt, IsFaultAt, IsFaultOf};

use crate::position::Position;
use crate::straight::straight_point;
use crate::units::{CoordinateFault, Grid, point_of, position_of};
use plane::point::Point;

/// Writes the nearest point of each position to its place.
///
/// At an `Err` it is told which position is the first that has no point, and why. The points before that place are written.
pub fn points_of(
    grid: &Grid,
    positions: &[Position],
    points: &mut [Point],
) -> Result<(), (usize, CoordinateFault)>
    requires grid { IsGrid grid.now }
    requires lengths { length positions.now ≡ length points.old }
    ensures length { length points.new ≡ length points.old }
    ensures ok { OnOk result ((k : ℕ) → k < length positions.now → IsToldAt grid.now positions.now points.new k) }
    ensures fault { IfErr result (λ at. IsFaultAt grid.now positions.now at.0 at.1) }
    ensures before { IfErr result (λ at. (k : ℕ) → k < at.0 → IsToldAt grid.now positions.now points.new k) }
{
    // A copy: else each point that is written could be a part of the grid, as far as the compiler knows.
    let own = *grid;
    for (i, position) in positions.iter().enumerate() {
        if let Some(Point { x, y }) = straight_point(&own, *position) {
            // Each coordinate is stored by itself: to put both into one word first takes longer.
            points[i] = Point { x, y };
            continue;
        }
        match other_point(&own, *position) {
            Ok(point) => points[i] = point,
            Err(fault) => return Err((i, fault)),
        }
    }
    Ok(())
}

/// What `point_of` answers, out of the way of the loop.
#[cold]
fn other_point(grid: &Grid, position: Position) -> Result<Point, CoordinateFault>
    requires { IsGrid grid.now }
    ensures nearest { IfOk result (λ point. IsTold grid.now position point) }
    ensures fault { IfErr result (λ fault. IsFaultOf grid.now position fault) }
{
    point_of(grid, position)
}

/// Writes the position of each point to its place, exactly.
pub fn positions_of(grid: &Grid, points: &[Point], positions: &mut [Position])
    requires grid { IsGrid grid.now }
    requires lengths { length points.now ≡ length positions.old }
    ensures length { length positions.new ≡ length positions.old }
    ensures written { (k : ℕ) → k < length points.now → IsWrittenAt grid.now points.now positions.new k }
{
    for (i, point) in points.iter().enumerate() {
        positions[i] = position_of(grid, *point);
    }
}
