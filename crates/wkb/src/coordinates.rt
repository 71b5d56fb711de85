//! The positions of a ring.

ghost use Rattle.std.specs.Prelude.{◌≡◌, ◌≤◌, ◌+◌, ◌*◌, ◌<◌, ◌++◌, length, IsTrue, OnOk};
ghost use Rattle.wkb.specs.Format.{LiesWithin};
ghost use Rattle.wkb.specs.Coordinates.{double, is_closed, is_same_number, is_same_position, open_count, position, positions_of};

use crate::structure::RingAt;
use grid::Position;
use std::alloc::{AllocError, Allocator};

/// The double that the eight bytes at a place say.
#[tactic(auto, unfolding(crate::specs::Coordinates::double))]
fn double(is_big_endian: bool, bytes: &[u8], place: usize) -> u64
    requires { place + 8 ≤ length bytes.now }
    ensures { result ≡ double is_big_endian bytes.now place }
{
    let eight = [
        bytes[place],
        bytes[place + 1],
        bytes[place + 2],
        bytes[place + 3],
        bytes[place + 4],
        bytes[place + 5],
        bytes[place + 6],
        bytes[place + 7],
    ];
    if is_big_endian {
        u64::from_be_bytes(eight)
    } else {
        u64::from_le_bytes(eight)
    }
}

/// The place of a position among the bytes.
#[tactic(auto, using(crate::proofs::Places::lies))]
pub(crate) fn place_of(ring: &RingAt, index: usize, size: usize) -> usize
    requires lies { LiesWithin ring.now size }
    requires below { index < ring.now.count }
    ensures value { result ≡ ring.now.start + index * ring.now.stride }
    ensures within { result + 16 ≤ size }
{
    ring.start + index * ring.stride
}

/// A position of a ring.
#[tactic(auto, unfolding(crate::specs::Coordinates::position))]
fn position(bytes: &[u8], ring: &RingAt, index: usize) -> Position
    requires lies { LiesWithin ring.now (length bytes.now) }
    requires below { index < ring.now.count }
    ensures { result ≡ position bytes.now ring.now index }
{
    let place = place_of(ring, index, bytes.len());
    Position {
        x: double(ring.is_big_endian, bytes, place),
        y: double(ring.is_big_endian, bytes, place + 8),
    }
}

/// Whether two doubles are the same number: 0 and -0 are, and they alone differ by their bits.
fn is_same_number(a: u64, b: u64) -> bool
    ensures { result ≡ is_same_number a b }
{
    a == b || (a % 9223372036854775808 == 0 && b % 9223372036854775808 == 0)
}

/// Whether two positions have the same numbers.
fn is_same_position(p: Position, q: Position) -> bool
    ensures { result ≡ is_same_position p q }
{
    is_same_number(p.x, q.x) && is_same_number(p.y, q.y)
}

/// Whether a ring of more than one position ends with its first one again.
#[tactic(auto, unfolding(crate::specs::Coordinates::is_closed))]
fn is_closed(bytes: &[u8], ring: &RingAt) -> bool
    requires { LiesWithin ring.now (length bytes.now) }
    ensures value { result ≡ is_closed bytes.now ring.now }
    ensures more { IsTrue result → 1 < ring.now.count }
{
    if ring.count <= 1 {
        return false;
    }
    is_same_position(
        position(bytes, ring, 0),
        position(bytes, ring, ring.count as usize - 1),
    )
}

/// How many positions a ring has, where one that closes it doesn't count.
fn open_count(bytes: &[u8], ring: &RingAt) -> usize
    requires { LiesWithin ring.now (length bytes.now) }
    ensures value { result ≡ open_count bytes.now ring.now }
    ensures most { result ≤ ring.now.count }
{
    if is_closed(bytes, ring) {
        ring.count as usize - 1
    } else {
        ring.count as usize
    }
}

/// Appends the positions of a ring. The one that closes it is left out.
///
/// Memory that is refused is the only error. The positions before stay at the front.
#[tactic(auto, unfolding(crate::specs::Coordinates::positions_of))]
pub fn append_positions<A: Allocator>(
    bytes: &[u8],
    ring: &RingAt,
    positions: &mut Vec<Position, A>,
) -> Result<(), AllocError>
    requires { LiesWithin ring.now (length bytes.now) }
    ensures { OnOk result (positions.new.items ≡ positions.old.items ++ positions_of bytes.now ring.now) }
{
    let count = open_count(bytes, ring);
    positions.reserve(count)?;
    for index in 0..count {
        positions.push(position(bytes, ring, index))?;
    }
    Ok(())
}
