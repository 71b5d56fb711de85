//! A choice between two values that is no branch.

ghost use Rattle.std.specs.Prelude.{◌≡◌, true, false};

/// The first value where the test is true, else the other one.
///
/// In a loop of a search the machine's code moves one of the two, where an `if` as a value would be a branch that is guessed
/// wrongly half of the time. (`inline(always)` would make it such a branch: it is to be inlined as a selection.)
#[inline]
pub fn select<T: Copy>(takes_first: bool, first: T, other: T) -> T
    ensures first { takes_first ≡ true → result ≡ first }
    ensures other { takes_first ≡ false → result ≡ other }
{
    if takes_first { first } else { other }
}
