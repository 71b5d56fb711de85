//! Into which strips the heights of items are cut.

ghost use Rattle.std.specs.Bool.{OnTrue};
ghost use Rattle.std.specs.Prelude.{◌≤◌, ◌<◌, ◌≤ℤ◌, All};
ghost use Rattle.plane.specs.Pairs.Bounds.{IsBox};
ghost use Rattle.plane.specs.Pairs.Strips.{IsWideEnough, ReachFew};

use super::extents::extents_of;
use super::items::Boxed;
use super::strips::Strips;

/// How many strips items call for at most, and whether so many stand beside each other that short lists of live ones would
/// take strips which cut most items.
#[derive(Clone, Copy)]
pub struct Wanted {
    pub strips: u64,
    pub are_crowded: bool,
}

// How many items there are, from the lowest to the highest of which it is the span, and what their own heights sum up to.
#[derive(Clone, Copy)]
struct Heights {
    count: u64,
    span: u32,
    sum: u128,
}

/// Strips from the lowest of the items on, as many as these call for.
///
/// The narrower strips are, the fewer items are live beside each other, and the more items reach several strips. So
/// strips are halved while they are no more than wanted, while there are 16 items for each at least, and while items reach
/// about a quarter more strips at most than there are items, or a sixteenth more where they are crowded. How many strips
/// items reach is only estimated; but never do they reach more than three each, taken together.
pub fn strips_for<T: Boxed>(items: &[T], wanted: Wanted) -> Strips
    requires proper { (item : T) → IsBox (T.bounds item) }
    ensures base { All (λ item. result.base ≤ℤ (T.bounds item).low) items.now }
    ensures few { ReachFew T.bounds result items.now }
{
    let mut base = i32::MAX;
    let mut top = i32::MIN;
    let mut heights = 0u128;
    // The items so far lie between the base and the top, and their heights are summed up.
    for item in items {
        let bounds = item.bounds();
        base = base.min(bounds.low);
        top = top.max(bounds.high);
        heights += bounds.high.abs_diff(bounds.low) as u128;
    }
    let told = Heights {
        count: items.len() as u64,
        span: top.abs_diff(base),
        sum: heights,
    };
    Strips {
        base,
        bits: bits_for(told, wanted),
    }
}

/// What items call for that are swept by strips: four strips for each item that is live at once. More have nothing in them.
pub fn wanted_for<T: Boxed>(items: &[T]) -> Wanted {
    let all = extents_of(items);
    let wide = u64::from(all.right.abs_diff(all.left));
    let tall = u128::from(all.high.abs_diff(all.low));
    let live = all.widths / wide.max(1);
    let beside = u128::from(all.heights).saturating_mul(u128::from(live));
    Wanted {
        strips: live.saturating_mul(4),
        are_crowded: beside > (items.len() as u128).saturating_mul(3 * tall),
    }
}

// How many bits the width of strips takes.
fn bits_for(heights: Heights, wanted: Wanted) -> u32
    ensures wide { 5 ≤ result }
    ensures fits { result < 32 }
    ensures few { IsWideEnough heights.count heights.span heights.sum result }
{
    let mut bits = 31;
    // The strips of so many bits are called for.
    while bits > 5 && calls_for(heights, wanted, bits - 1) {
        bits -= 1;
    }
    bits
}

// Whether the items call for strips of so many bits: one strip has room for all, or the strips are no more than wanted, with 16
// items for each, and what the items reach beyond their first strips is a fraction of them.
fn calls_for(heights: Heights, wanted: Wanted, bits: u32) -> bool
    requires { bits < 32 }
    ensures { OnTrue result (IsWideEnough heights.count heights.span heights.sum bits) }
{
    let strips = u64::from(heights.span >> bits);
    let reached = heights.sum >> bits;
    let fraction = if wanted.are_crowded { 16 } else { 4 };
    let is_wanted = strips <= wanted.strips.min(heights.count / 16);
    strips == 0 || (is_wanted && reached <= u128::from(heights.count / fraction))
}
