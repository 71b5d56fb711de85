//! `itree_clip_lines`: the pieces of lines that lie inside of rings, or outside, behind the handle that polygons have.

ghost use Rattle.std.specs.Prelude.{◌≡◌, ◌↔◌, Option, Err, IfOk};
ghost use Rattle.std.specs.Borrow.{sem};
ghost use Rattle.layers.specs.Lines.{HasLines, lines_of};
ghost use Rattle.layers.specs.declared.fault.LayerFault.TheVariants.{Lengths};
ghost use Rattle.overlay.specs.Rings.{HasEnds, edges_of};
ghost use Rattle.itree_c.specs.Overlay.{owns_polygons};
ghost use Rattle.itree_c.specs.Layers.{AnswersPieces, AreAllPieces};
ghost use Rattle.itree_c.specs.declared.polygon_lists.PolygonLists.{PolygonLists as Held};

use crate::choices::{keep_of, rule_of};
use crate::handle::Handle;
use crate::polygon_lists::{PolygonLists, boxed_lists};
use crate::raw::Raw;
use crate::status::{ANSWERED, CHOICE, LENGTHS, REFUSED};
use layers::{FillRule, Keep, LayerFault, Lines, Pieces, Point, Polygons, Rings, clip_lines};
use std::alloc::Global;

/// Writes a handle of the pieces of the lines that lie inside of the rings, or of those that lie outside, or null: as that of
/// `itree_overlay`, but for rings pieces, and for each polygon's end where the pieces of a line stop.
///
/// The status is `ANSWERED` (0), and then the caller owns the handle and gives it to `itree_polygons_free` once; or
/// `REFUSED` (1) where memory was refused, `LENGTHS` (3) where a line or a ring stops before it begins or behind the points,
/// `CHOICE` (5) where no rule or no side has the number: then null is written, and all memory has been given back. At `CHOICE` the
/// ends aren't looked at. What the pieces are is said at `clip_lines` of `layers`.
#[unsafe(no_mangle)]
pub unsafe extern "C" fn itree_clip_lines<'a>(
    alloc: Global,
    line_points: &'a [Point],
    line_ends: &'a [usize],
    points: &'a [Point],
    ring_ends: &'a [usize],
    rule: i32,
    side: i32,
    pieces: &mut *mut Handle,
) -> i32
    ensures* made { ∃ₛ (λ (made : Option Held).
        ⌜ AnswersPieces
        (record { points = line_points.entry; ends = line_ends.entry })
        (record { points = points.entry; ends = ring_ends.entry })
        rule side result made ⌝
        ∗ sem 𝓛 (owns_polygons pieces.new made)) }
{
    let (status, Raw { at, alloc: _ }) = all_pieces(
        alloc,
        Lines {
            points: line_points,
            ends: line_ends,
        },
        Rings {
            points,
            ends: ring_ends,
        },
        rule,
        side,
    );
    *pieces = at as *mut Handle;
    status
}

// The status of the call, and the pieces or null.
fn all_pieces<'a>(
    alloc: Global,
    lines: Lines<'a>,
    rings: Rings<'a>,
    rule: i32,
    side: i32,
) -> (i32, Raw<PolygonLists, Global>)
    ensures { AnswersPieces lines.entry rings.entry rule side result.0 result.1.value }
{
    let (Some(rule), Some(keep)) = (rule_of(rule), keep_of(side)) else {
        return (CHOICE, Raw::null(alloc));
    };
    match boxed_pieces(alloc, lines, rings, rule, keep) {
        Ok(pieces) => (ANSWERED, Raw::of(pieces)),
        Err(LayerFault::Lengths) => (LENGTHS, Raw::null(alloc)),
        Err(_) => (REFUSED, Raw::null(alloc)),
    }
}

// The pieces of the lines, on the heap.
fn boxed_pieces(
    alloc: Global,
    lines: Lines,
    rings: Rings,
    rule: FillRule,
    keep: Keep,
) -> Result<Box<PolygonLists, Global>, LayerFault>
    ensures ok { IfOk result (λ pieces.
        AreAllPieces rule keep (lines_of lines.entry) (edges_of rings.entry) pieces.value) }
    ensures lengths { (result ≡ Err Lengths) ↔ ¬ (HasLines lines.entry × HasEnds rings.entry) }
{
    let mut clipped = Pieces::new(alloc);
    clip_lines(lines, rings, rule, keep, &mut clipped)?;
    clipped.piece_ends.insert(0, 0)?;
    clipped.line_ends.insert(0, 0)?;
    let Pieces {
        points,
        piece_ends: ring_ends,
        line_ends: polygon_ends,
    } = clipped;
    let lists = Polygons {
        points,
        ring_ends,
        polygon_ends,
    };
    Ok(boxed_lists(alloc, lists)?)
}
