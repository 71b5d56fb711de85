//! `Point`: a point of the plane.

/// A whole point. Points are in order by x, and then by y.
#[repr(C)]
#[derive(Clone, Copy, Debug, PartialEq, Eq, PartialOrd, Ord)]
pub struct Point {
    pub x: i32,
    pub y: i32,
}

/// A number by which points are in order: by x, and then by y.
pub fn number_at(x: i32, y: i32) -> u64 {
    (u64::from(x.abs_diff(i32::MIN)) << 32) + u64::from(y.abs_diff(i32::MIN))
}
