//! Areas of rings, exactly.

ghost use Rattle.std.specs.Prelude.{◌≡◌, ◌*◌, ◌^◌, length};
ghost use Rattle.plane.specs.Meet.Crosses.{IsWithin};
ghost use Rattle.plane.specs.Ends.{edge_between};
ghost use Rattle.overlay.specs.Areas.{swept, twice_area};

use plane::point::Point;
use plane::vectors::product;

/// Twice the area of the ring, which goes from each point to the next one, and from the last to the first: above 0 where it runs
/// counterclockwise, below 0 where it runs clockwise. Around what a ring winds more often, it counts as often.
///
/// It is exact, by the shoelace formula. So the area of polygons is the sum of those of all their rings, which 128 bits have room
/// for, by `within`.
pub fn twice_area(ring: &[Point]) -> i128
    ensures value { result ≡ twice_area ring.now }
    ensures within { IsWithin (length ring.now * 2 ^ 63) result }
{
    if ring.is_empty() {
        return 0;
    }
    let mut sum = 0;
    let mut from = ring[ring.len() - 1];
    for to in ring {
        sum += swept(from, *to);
        from = *to;
    }
    sum
}

// Twice the area between the origin and the edge from the one point to the other.
fn swept(from: Point, to: Point) -> i128
    ensures value { result ≡ swept (edge_between from to) }
    ensures within { IsWithin (2 ^ 63) result }
{
    product(from.x as i64, to.y as i64) - product(from.y as i64, to.x as i64)
}
