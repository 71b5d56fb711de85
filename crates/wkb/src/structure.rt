//! Where the rings of a shape lie among its bytes.

ghost use Rattle.std.specs.Prelude.{◌≡◌, ◌≤◌, ◌+◌, ◌*◌, ◌<◌, [], false, length, IfOk, OnErr, OnOk};
ghost use Rattle.std.specs.List.{AllByRecursion};
ghost use Rattle.wkb.specs.Format.{LiesWithin};
ghost use Rattle.wkb.specs.Format.{Gives, with_front, ring_at, rings_at, polygon_at, part_at, parts_at, areas_at, geometry_at, layout_of};

use crate::fault::{FaultKind, Flaw, LayoutFault};
use crate::header::{COLLECTION, Header, POLYGON, header_at, kind_of, stride_of};
use crate::number::word_at;
use std::alloc::Allocator;

/// Where the positions of a ring lie among the bytes.
#[derive(Clone, Copy, Debug, PartialEq, Eq)]
pub struct RingAt {
    /// The place of the first position.
    pub start: usize,
    /// How many positions there are.
    pub count: u32,
    /// How many bytes lie from one position to the next.
    pub stride: usize,
    /// Whether the highest byte of a number is its first.
    pub is_big_endian: bool,
    /// Whether it is a hole of its polygon, and not the outer ring.
    pub is_hole: bool,
}

/// The ring that begins at a place: its count, and that many positions.
#[tactic(auto, unfolding(crate::specs::Format::ring_at))]
fn ring_at(
    header: &Header,
    is_hole: bool,
    bytes: &[u8],
    place: usize,
) -> Result<RingAt, LayoutFault>
    requires { place ≤ length bytes.now }
    ensures found { Gives (λ ring. ring) result (ring_at header.now is_hole bytes.now place) }
    ensures within { IfOk result (λ ring. ring.start + ring.count * ring.stride ≤ length bytes.now) }
{
    let count = word_at(header.is_big_endian, bytes, place)?;
    let stride = stride_of(header.code);
    let start = place + 4;
    if bytes.len() - start < count as usize * stride {
        return Err(LayoutFault::Flawed(Flaw {
            kind: FaultKind::Short,
            byte: start,
        }));
    }
    Ok(RingAt {
        start,
        count,
        stride,
        is_big_endian: header.is_big_endian,
        is_hole,
    })
}

/// Appends the rings of a polygon, of which only the first is no hole. Answers the place behind them.
fn rings_at<A: Allocator>(
    header: &Header,
    count: u32,
    bytes: &[u8],
    place: usize,
    rings: &mut Vec<RingAt, A>,
) -> Result<usize, LayoutFault>
    requires { place ≤ length bytes.now }
    ensures found { Gives (λ end. (rings.new.items, end)) result (with_front rings.old.items (rings_at header.now false count bytes.now place)) }
    ensures within { IfOk result (λ end. end ≤ length bytes.now) }
{
    let mut end = place;
    // `end` is where the ring before stops, within the bytes.
    for index in 0..count {
        let ring = ring_at(header, 0 < index, bytes, end)?;
        end = ring.start + ring.count as usize * ring.stride;
        rings.push(ring)?;
    }
    Ok(end)
}

/// Appends the rings of a polygon whose head was read. Answers the place behind it.
#[tactic(auto, unfolding(crate::specs::Format::polygon_at))]
fn polygon_at<A: Allocator>(
    header: &Header,
    bytes: &[u8],
    rings: &mut Vec<RingAt, A>,
) -> Result<usize, LayoutFault>
    requires { header.now.end ≤ length bytes.now }
    ensures found { Gives (λ end. (rings.new.items, end)) result (with_front rings.old.items (polygon_at header.now bytes.now)) }
    ensures within { IfOk result (λ end. end ≤ length bytes.now) }
{
    let count = word_at(header.is_big_endian, bytes, header.end)?;
    rings_at(header, count, bytes, header.end + 4, rings)
}

/// Appends the rings of the polygon that begins at a place. Answers the place behind it.
#[tactic(auto, unfolding(crate::specs::Format::part_at))]
fn part_at<A: Allocator>(
    bytes: &[u8],
    place: usize,
    rings: &mut Vec<RingAt, A>,
) -> Result<usize, LayoutFault>
    requires { place ≤ length bytes.now }
    ensures found { Gives (λ end. (rings.new.items, end)) result (with_front rings.old.items (part_at bytes.now place)) }
    ensures within { IfOk result (λ end. end ≤ length bytes.now) }
{
    let header = header_at(bytes, place)?;
    if kind_of(header.code) != POLYGON {
        return Err(LayoutFault::Flawed(Flaw {
            kind: FaultKind::Kind,
            byte: place + 1,
        }));
    }
    polygon_at(&header, bytes, rings)
}

/// Appends the rings of polygons, one after the other. Answers the place behind them.
fn parts_at<A: Allocator>(
    count: u32,
    bytes: &[u8],
    place: usize,
    rings: &mut Vec<RingAt, A>,
) -> Result<usize, LayoutFault>
    requires { place ≤ length bytes.now }
    ensures found { Gives (λ end. (rings.new.items, end)) result (with_front rings.old.items (parts_at (part_at bytes.now) count place)) }
    ensures within { IfOk result (λ end. end ≤ length bytes.now) }
{
    let mut end = place;
    // `end` is where the part before stops, within the bytes.
    for _ in 0..count {
        end = part_at(bytes, end, rings)?;
    }
    Ok(end)
}

/// Appends the rings of a polygon or a multipolygon whose head was read. Answers the place behind it.
#[tactic(auto, unfolding(crate::specs::Format::areas_at, crate::specs::Format::counted_at))]
fn areas_at<A: Allocator>(
    header: &Header,
    bytes: &[u8],
    rings: &mut Vec<RingAt, A>,
) -> Result<usize, LayoutFault>
    requires { header.now.end ≤ length bytes.now }
    ensures found { Gives (λ end. (rings.new.items, end)) result (with_front rings.old.items (areas_at header.now bytes.now)) }
    ensures within { IfOk result (λ end. end ≤ length bytes.now) }
{
    if kind_of(header.code) == POLYGON {
        return polygon_at(header, bytes, rings);
    }
    let count = word_at(header.is_big_endian, bytes, header.end)?;
    parts_at(count, bytes, header.end + 4, rings)
}

/// Appends the rings of the geometry that begins at a place, which is nested at most so deep. Answers the place behind it.
fn geometry_at<A: Allocator>(
    bytes: &[u8],
    place: usize,
    most_nested: usize,
    rings: &mut Vec<RingAt, A>,
) -> Result<usize, LayoutFault>
    requires { place ≤ length bytes.now }
    ensures found { Gives (λ end. (rings.new.items, end)) result (with_front rings.old.items (geometry_at most_nested bytes.now place)) }
    ensures within { IfOk result (λ end. end ≤ length bytes.now) }
{
    let header = header_at(bytes, place)?;
    if kind_of(header.code) != COLLECTION {
        return areas_at(&header, bytes, rings);
    }
    if most_nested == 0 {
        return Err(LayoutFault::Flawed(Flaw {
            kind: FaultKind::Nested,
            byte: place,
        }));
    }
    let count = word_at(header.is_big_endian, bytes, header.end)?;
    let mut end = header.end + 4;
    // `end` is where the geometry before stops, within the bytes.
    for _ in 0..count {
        end = geometry_at(bytes, end, most_nested - 1, rings)?;
    }
    Ok(end)
}

/// Where the rings of a shape lie among its bytes, in their order. What `rings` held before is gone; at an `Err` it is empty.
///
/// A shape is a polygon, a multipolygon or a collection of these, in which collections are nested at most `most_nested` deep: at 0
/// the shape itself may be none. All of the bytes are the shape's. No memory is taken for a count that the bytes don't bear out.
pub fn layout<A: Allocator>(
    bytes: &[u8],
    most_nested: usize,
    rings: &mut Vec<RingAt, A>,
) -> Result<(), LayoutFault>
    ensures found { Gives (λ _. rings.new.items) result (layout_of most_nested bytes.now) }
    ensures lies { OnOk result (AllByRecursion (λ ring. LiesWithin ring (length bytes.now)) rings.new.items) }
    ensures err { OnErr result (rings.new.items ≡ []) }
{
    rings.clear();
    let found = whole(bytes, most_nested, rings);
    if found.is_err() {
        rings.clear();
    }
    found
}

/// Appends the rings of a shape that takes all of the bytes.
#[tactic(auto, unfolding(crate::specs::Format::layout_of))]
fn whole<A: Allocator>(
    bytes: &[u8],
    most_nested: usize,
    rings: &mut Vec<RingAt, A>,
) -> Result<(), LayoutFault>
    requires { rings.old.items ≡ [] }
    ensures { Gives (λ _. rings.new.items) result (layout_of most_nested bytes.now) }
{
    let end = geometry_at(bytes, 0, most_nested, rings)?;
    if end != bytes.len() {
        return Err(LayoutFault::Flawed(Flaw {
            kind: FaultKind::LeftOver,
            byte: end,
        }));
    }
    Ok(())
}
