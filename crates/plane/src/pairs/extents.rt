//! How far items reach, taken together.

use super::items::Boxed;

/// The box of all items, and their widths and their heights summed up, or the most that has room.
#[derive(Clone, Copy)]
pub struct Extents {
    pub left: i32,
    pub right: i32,
    pub low: i32,
    pub high: i32,
    pub widths: u64,
    pub heights: u64,
}

/// How far the items reach.
pub fn extents_of<T: Boxed>(items: &[T]) -> Extents {
    let mut all = Extents {
        left: i32::MAX,
        right: i32::MIN,
        low: i32::MAX,
        high: i32::MIN,
        widths: 0,
        heights: 0,
    };
    for item in items {
        let bounds = item.bounds();
        let width = bounds.right.abs_diff(bounds.left);
        let height = bounds.high.abs_diff(bounds.low);
        all.left = all.left.min(bounds.left);
        all.right = all.right.max(bounds.right);
        all.low = all.low.min(bounds.low);
        all.high = all.high.max(bounds.high);
        all.widths = all.widths.saturating_add(u64::from(width));
        all.heights = all.heights.saturating_add(u64::from(height));
    }
    all
}
