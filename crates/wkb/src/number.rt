//! Numbers of four bytes.

ghost use Rattle.std.specs.Prelude.{◌≡◌, ◌≤◌, ◌+◌, ◌<◌, length, IfErr, IfOk};
ghost use Rattle.wkb.specs.Format.{Gives, IsFlaw, word, word_at};

use crate::fault::{FaultKind, Flaw, LayoutFault};

/// The number that four bytes say.
#[tactic(auto, unfolding(crate::specs::Format::word))]
fn word(is_big_endian: bool, bytes: &[u8], place: usize) -> u32
    requires { place + 4 ≤ length bytes.now }
    ensures { result ≡ word is_big_endian bytes.now place }
{
    let four = [
        bytes[place],
        bytes[place + 1],
        bytes[place + 2],
        bytes[place + 3],
    ];
    if is_big_endian {
        u32::from_be_bytes(four)
    } else {
        u32::from_le_bytes(four)
    }
}

/// The number that begins at a place, or that the bytes end before it does.
#[tactic(auto, unfolding(crate::specs::Format::word_at))]
pub(crate) fn word_at(is_big_endian: bool, bytes: &[u8], place: usize) -> Result<u32, LayoutFault>
    requires { place ≤ length bytes.now }
    ensures found { Gives (λ number. number) result (word_at is_big_endian bytes.now place) }
    ensures within { IfOk result (λ _. place + 4 ≤ length bytes.now) }
    ensures flawed { IfErr result (λ e. IsFlaw e) }
{
    if bytes.len() - place < 4 {
        return Err(LayoutFault::Flawed(Flaw {
            kind: FaultKind::Short,
            byte: place,
        }));
    }
    Ok(word(is_big_endian, bytes, place))
}
