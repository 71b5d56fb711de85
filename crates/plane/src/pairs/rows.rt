//! Into which rows the heights of points are cut.

ghost use Rattle.std.specs.Prelude.{◌≤ℤ◌, All};
ghost use Rattle.plane.specs.Pairs.Bounds.{IsBox};

use super::cut::{Wanted, strips_for};
use super::extents::extents_of;
use super::items::Boxed;
use super::strips::Strips;

// How many bits the rows are narrower than strips would be: a point stands in one row however narrow.
const NARROWER: u32 = 1;

// So many points at most are to stand in a row from the left side of an item to its right one.
const BESIDE: u128 = 128;

/// Rows of heights from the lowest point on.
///
/// They are cut as the strips of items, or of points where these are wider, but narrower. So there are few rows for each
/// point, and few that an item reaches. Where many points would stand beside each other, rows are narrower still: an item
/// reaches more of them then, but the points that it looks at in each are hardly more than those in its box.
pub fn rows_for<X: Boxed, Y: Boxed>(items: &[X], points: &[Y]) -> Strips
    requires items { (item : X) → IsBox (X.bounds item) }
    requires points { (point : Y) → IsBox (Y.bounds point) }
    ensures { All (λ point. result.base ≤ℤ (Y.bounds point).low) points.now }
{
    let wanted = Wanted {
        strips: u64::MAX,
        are_crowded: false,
    };
    let strips = strips_for(points, wanted);
    let narrower = strips
        .bits
        .max(strips_for(items, wanted).bits)
        .saturating_sub(NARROWER);
    Strips {
        base: strips.base,
        bits: narrower.min(bits_at_most(items, points)).max(5),
    }
}

// How many bits rows may take for few points to stand beside each other within an item of mean width, where points stand
// as densely everywhere. Where there are no more points than items, any.
fn bits_at_most<X: Boxed, Y: Boxed>(items: &[X], points: &[Y]) -> u32 {
    if points.len() <= items.len() {
        return u32::MAX;
    }
    let all = extents_of(points);
    let wide = all.right.abs_diff(all.left) as u128;
    let tall = all.high.abs_diff(all.low) as u128;
    let reach = mean_width(items).min(wide);
    let area = BESIDE.saturating_mul(wide).saturating_mul(tall);
    match area.checked_div(reach.saturating_mul(points.len() as u128)) {
        Some(height) => height.checked_ilog2().unwrap_or(0),
        None => u32::MAX,
    }
}

// How wide items are on average.
fn mean_width<T: Boxed>(items: &[T]) -> u128 {
    let widths = u128::from(extents_of(items).widths);
    widths.checked_div(items.len() as u128).unwrap_or(0)
}
