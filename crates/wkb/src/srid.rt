//! The reference system of a shape.

ghost use Rattle.std.specs.Prelude.{◌≡◌, ◌≤◌, length};
ghost use Rattle.wkb.specs.Format.{srid_behind, srid_of};

use crate::header::{Header, has_srid, header_at};
use crate::number::word_at;

/// The number that tells a shape's reference system (EWKB's SRID), by the head of the shape. 0 where none is told, and where the bytes
/// begin with no head.
#[tactic(auto, using(crate::proofs::Srids::none_read))]
pub fn srid_of(bytes: &[u8]) -> u32
    ensures { result ≡ srid_of bytes.now }
{
    match header_at(bytes, 0) {
        Ok(header) => srid_behind(bytes, &header),
        Err(_) => 0,
    }
}

/// The number behind the type, where the type has the flag for it.
#[tactic(auto, unfolding(crate::specs::Format::srid_behind), using(crate::proofs::Srids::no_number))]
fn srid_behind(bytes: &[u8], header: &Header) -> u32
    requires { 5 ≤ length bytes.now }
    ensures { result ≡ srid_behind bytes.now header.now }
{
    if !has_srid(header.code) {
        return 0;
    }
    match word_at(header.is_big_endian, bytes, 5) {
        Ok(srid) => srid,
        Err(_) => 0,
    }
}
