//! Places by chance, for a sample of a list.

ghost use Rattle.std.specs.Prelude.{◌<◌};

// A factor that mixes the bits of a number.
const MIXING: u64 = 0x9E37_79B9_7F4A_7C15;

/// One of so many places, for this number of a sample. Places at even steps would miss copies that stand at other steps, or in
/// runs.
pub fn place_by_chance(index: usize, count: usize) -> usize
    requires { 0 < count }
    ensures { result < count }
{
    let number = (index as u64).wrapping_mul(MIXING);
    let mixed = (number ^ (number >> 32)).wrapping_mul(MIXING);
    (mixed >> 32) as usize % count
}
