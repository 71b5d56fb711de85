//! The head of a geometry: its byte order and its type.

ghost use Rattle.std.specs.Prelude.{◌≡◌, ◌≤◌, ◌+◌, ◌<◌, ◌↔◌, length, IfErr, IfOk, IsTrue};
ghost use Rattle.wkb.specs.Format.{Gives, IsFlaw, kind_of, has_srid, has_z, has_m, stride_of, is_known, order_at, header_at};

use crate::fault::{FaultKind, Flaw, LayoutFault};
use crate::number::word_at;

/// A polygon: a count of rings, and the rings.
pub(crate) const POLYGON: u32 = 3;
/// A multipolygon: a count of polygons, and the polygons, each with a head of its own.
pub(crate) const MULTIPOLYGON: u32 = 6;
/// A collection: a count of geometries, and the geometries.
pub(crate) const COLLECTION: u32 = 7;

/// The head of a geometry.
#[derive(Clone, Copy, Debug)]
pub struct Header {
    /// Whether the highest byte of a number is its first.
    pub is_big_endian: bool,
    /// The type: what the geometry is, and which numbers it has.
    pub code: u32,
    /// The place behind the head.
    pub end: usize,
}

/// What the geometry is, without its flags and thousands.
pub(crate) fn kind_of(code: u32) -> u32
    ensures { result ≡ kind_of code }
{
    code % 536870912 % 1000
}

/// Whether four bytes behind the type tell a reference system.
pub(crate) fn has_srid(code: u32) -> bool
    ensures { result ≡ has_srid code }
{
    code / 536870912 % 2 == 1
}

/// Whether positions have a z.
fn has_z(code: u32) -> bool
    ensures { result ≡ has_z code }
{
    let thousands = code % 536870912 / 1000;
    code / 2147483648 % 2 == 1 || thousands == 1 || thousands == 3
}

/// Whether positions have an m.
fn has_m(code: u32) -> bool
    ensures { result ≡ has_m code }
{
    let thousands = code % 536870912 / 1000;
    code / 1073741824 % 2 == 1 || thousands == 2 || thousands == 3
}

/// How many bytes a position takes: 8 for each of x, y, and of z and m where they are told.
#[tactic(auto, unfolding(crate::specs::Format::stride_of))]
pub(crate) fn stride_of(code: u32) -> usize
    ensures value { result ≡ stride_of code }
    ensures most { result ≤ 32 }
{
    let z = if has_z(code) { 8 } else { 0 };
    let m = if has_m(code) { 8 } else { 0 };
    16 + z + m
}

/// Whether it is a polygon, a multipolygon or a collection.
fn is_known(code: u32) -> bool
    ensures { result ≡ is_known code }
{
    let kind = kind_of(code);
    code % 536870912 / 1000 < 4 && (kind == POLYGON || kind == MULTIPOLYGON || kind == COLLECTION)
}

/// The byte order that is told at a place: whether the highest byte of a number is its first.
#[tactic(auto, unfolding(crate::specs::Format::order_at))]
fn order_at(bytes: &[u8], place: usize) -> Result<bool, LayoutFault>
    requires { place ≤ length bytes.now }
    ensures found { Gives (λ order. order) result (order_at bytes.now place) }
    ensures within { IfOk result (λ _. place + 1 ≤ length bytes.now) }
    ensures flawed { IfErr result (λ e. IsFlaw e) }
{
    if bytes.len() - place < 1 {
        return Err(LayoutFault::Flawed(Flaw {
            kind: FaultKind::Short,
            byte: place,
        }));
    }
    match bytes[place] {
        0 => Ok(true),
        1 => Ok(false),
        _ => Err(LayoutFault::Flawed(Flaw {
            kind: FaultKind::ByteOrder,
            byte: place,
        })),
    }
}

/// The head of the geometry that begins at a place.
#[tactic(auto, unfolding(crate::specs::Format::header_at))]
pub(crate) fn header_at(bytes: &[u8], place: usize) -> Result<Header, LayoutFault>
    requires { place ≤ length bytes.now }
    ensures found { Gives (λ header. header) result (header_at bytes.now place) }
    ensures within { IfOk result (λ header. header.end ≤ length bytes.now) }
    ensures least { IfOk result (λ _. place + 5 ≤ length bytes.now) }
    ensures flawed { IfErr result (λ e. IsFlaw e) }
{
    let is_big_endian = order_at(bytes, place)?;
    let code = word_at(is_big_endian, bytes, place + 1)?;
    if !is_known(code) {
        return Err(LayoutFault::Flawed(Flaw {
            kind: FaultKind::Kind,
            byte: place + 1,
        }));
    }
    if !has_srid(code) {
        return Ok(Header {
            is_big_endian,
            code,
            end: place + 5,
        });
    }
    let _srid = word_at(is_big_endian, bytes, place + 5)?;
    Ok(Header {
        is_big_endian,
        code,
        end: place + 9,
    })
}
