//! Points among those of a list, and in a reply.

ghost use Rattle.std.specs.Prelude.{◌≡◌, ◌≤◌, ◌++◌, OnOk, length, string_bytes};
ghost use Rattle.std.specs.List.{between};
ghost use Rattle.itree.specs.Replies.{point_words};

use plane::point::Point;
use std::alloc::{AllocError, Allocator};

/// The points from the one place on, and before the other.
pub fn points_between(points: &[Point], start: usize, end: usize) -> &[Point]
    requires { (start ≤ end) × (end ≤ length points.now) }
    ensures { result.now ≡ between start end points.now }
{
    &points[start..end]
}

/// Appends the name, and of each point its x and its y, each after one space.
pub fn push_points<A: Allocator>(
    text: &mut String<A>,
    name: &str,
    points: &[Point],
) -> Result<(), AllocError>
    ensures { OnOk result (string_bytes text.new ≡ string_bytes text.old ++ point_words name.now points.now) }
{
    text.push_str(name)?;
    for point in points {
        let Point { x, y } = *point;
        write!(text, " {x} {y}")?;
    }
    Ok(())
}
