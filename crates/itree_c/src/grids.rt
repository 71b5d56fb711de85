//! `itree_grid_fit`, `itree_grid_round` and `itree_grid_positions`: doubles as points of a grid, and back.

ghost use Rattle.std.specs.Prelude.{◌≡◌, ◌≢◌, ◌↔◌, ◌⊎◌, ◌<◌, ℕ, length};
ghost use Rattle.grid.specs.Fit.{IsFit, IsFirstInfinite, IsTooFar};
ghost use Rattle.grid.specs.Grid.{IsGrid, IsToldAt, IsWrittenAt, IsFaultAt};
ghost use Rattle.grid.specs.declared.units.CoordinateFault.{CoordinateFault};
ghost use Rattle.itree_c.specs.Grids.{IsRoundStatus, IsPositionsStatus};
ghost use Rattle.itree_c.specs.declared.status.TheConstants.{ANSWERED, CHOICE, FAULTY, LENGTHS};

use crate::status::{ANSWERED, CHOICE, FAULTY, LENGTHS};
use grid::fit::fit;
use grid::points::{points_of, positions_of};
use grid::units::is_grid;
use grid::{FitFault, Grid, Position};
use plane::point::Point;

/// Writes the grid of the finest unit that fits the positions.
///
/// The status is `ANSWERED` (0), and the grid is written; or `FAULTY` (8): then `fault` is the place of the first position that
/// isn't finite, or how many there are where no unit is coarse enough. Which unit is the finest is said at `fit` of `grid`.
#[unsafe(no_mangle)]
pub extern "C" fn itree_grid_fit(positions: &[Position], grid: &mut Grid, fault: &mut usize) -> i32
    ensures fit { result ≡ ANSWERED → IsFit positions.now grid.new }
    ensures grid { result ≡ ANSWERED → IsGrid grid.new }
    ensures faulty { result ≡ FAULTY → IsFirstInfinite positions.now fault.new
        ⊎ ((fault.new ≡ length positions.now) × IsTooFar positions.now) }
    ensures kept { result ≢ ANSWERED → grid.new ≡ grid.old }
    ensures place { result ≢ FAULTY → fault.new ≡ fault.old }
    ensures status { (result ≡ ANSWERED) ⊎ (result ≡ FAULTY) }
{
    match fit(positions) {
        Ok(found) => {
            *grid = found;
            ANSWERED
        }
        Err(FitFault::NotFinite(place)) => {
            *fault = place;
            FAULTY
        }
        Err(FitFault::TooFar) => {
            *fault = positions.len();
            FAULTY
        }
    }
}

/// Writes for each position, in order, the point of the grid that is nearest.
///
/// The status is `ANSWERED` (0), and the points are written; `CHOICE` (5) where the grid is none; `LENGTHS` (3) where there
/// are not as many points as positions; `FAULTY` (8) where a position isn't finite or off the grid: then `fault` is the place
/// of the first, and only points before it are written. Which point is nearest is said at `points_of` of `grid`.
#[unsafe(no_mangle)]
pub extern "C" fn itree_grid_round(
    grid: &Grid,
    positions: &[Position],
    points: &mut [Point],
    fault: &mut usize,
) -> i32
    ensures answered { result ≡ ANSWERED → (k : ℕ) → k < length positions.now → IsToldAt grid.now positions.now points.new k }
    ensures faulty { result ≡ FAULTY → (kind : CoordinateFault) × IsFaultAt grid.now positions.now fault.new kind }
    ensures before { result ≡ FAULTY → (k : ℕ) → k < fault.new → IsToldAt grid.now positions.now points.new k }
    ensures choice { (result ≡ CHOICE) ↔ ¬ (IsGrid grid.now) }
    ensures lengths { (result ≡ LENGTHS) ↔ (IsGrid grid.now × (length points.old ≢ length positions.now)) }
    ensures place { result ≢ FAULTY → fault.new ≡ fault.old }
    ensures status { IsRoundStatus result }
{
    if !is_grid(grid) {
        return CHOICE;
    }
    if points.len() != positions.len() {
        return LENGTHS;
    }
    match points_of(grid, positions, points) {
        Ok(()) => ANSWERED,
        Err((place, _)) => {
            *fault = place;
            FAULTY
        }
    }
}

/// Writes for each point of the grid, in order, its position, exactly.
///
/// The status is `ANSWERED` (0), and the positions are written; `CHOICE` (5) where the grid is none; `LENGTHS` (3) where there
/// are not as many positions as points.
#[unsafe(no_mangle)]
pub extern "C" fn itree_grid_positions(
    grid: &Grid,
    points: &[Point],
    positions: &mut [Position],
) -> i32
    ensures answered { result ≡ ANSWERED → (k : ℕ) → k < length points.now → IsWrittenAt grid.now points.now positions.new k }
    ensures choice { (result ≡ CHOICE) ↔ ¬ (IsGrid grid.now) }
    ensures lengths { (result ≡ LENGTHS) ↔ (IsGrid grid.now × (length positions.old ≢ length points.now)) }
    ensures kept { result ≢ ANSWERED → positions.new ≡ positions.old }
    ensures status { IsPositionsStatus result }
{
    if !is_grid(grid) {
        return CHOICE;
    }
    if positions.len() != points.len() {
        return LENGTHS;
    }
    positions_of(grid, points, positions);
    ANSWERED
}
