//! The replies to edges that are snapped.

ghost use Rattle.std.specs.Prelude.{◌≡◌, List, IfOk, string_bytes};
ghost use Rattle.itree.specs.Replies.{chain_words, reply_lines};
ghost use Rattle.noding.specs.Offsets.{AreJoined};
ghost use Rattle.plane.specs.declared.point.Point.{Point};

use super::points::{points_between, push_points};
use plane::point::Point;
use std::alloc::{AllocError, Allocator};

/// One line for each chain, in order. The points are those of all chains, one chain after the other, and `ends` has where
/// each stops.
pub fn chain_text<A: Allocator>(
    alloc: A,
    points: &[Point],
    ends: &[usize],
) -> Result<String<A>, AllocError>
    requires { (chains : List (List Point)) × AreJoined chains points.now ends.now }
    ensures { IfOk result (λ text. (chains : List (List Point)) → AreJoined chains points.now ends.now →
        string_bytes text ≡ reply_lines chain_words chains) }
{
    let mut text = String::new(alloc);
    let mut start = 0;
    // The text has the chains before, whose points stop at `start`.
    for end in ends {
        push_points(&mut text, "chain", points_between(points, start, *end))?;
        text.push_str("\n")?;
        start = *end;
    }
    Ok(text)
}
