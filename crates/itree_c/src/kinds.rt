//! `itree_how_they_meet`: how two edges of the plane meet.

ghost use Rattle.std.specs.Prelude.{◌≡◌};
ghost use Rattle.itree_c.specs.Kinds.{IsNumberOfKind, number_of};
ghost use Rattle.itree_c.specs.declared.status.TheConstants.{ANSWERED};

use crate::status::ANSWERED;
use plane::edge::Edge;
use plane::meet::{Meeting, how_they_meet};

/// Two edges share no point.
pub const APART: i32 = 0;

/// They share one point alone, and it is an end of one of them or of both.
pub const TOUCH: i32 = 1;

/// They share one point alone, and it is an end of neither.
pub const CROSS: i32 = 2;

/// They share more than one point: a whole stretch of a line.
pub const SHARE: i32 = 3;

// `itree.h` has these numbers.
const _: () = prove!(APART == 0 && TOUCH == 1 && CROSS == 2 && SHARE == 3);

/// Writes how the two edges meet: `APART` (0), `TOUCH` (1), `CROSS` (2) or `SHARE` (3).
///
/// The status is `ANSWERED` (0). It takes no memory, and nothing is rounded.
#[unsafe(no_mangle)]
pub extern "C" fn itree_how_they_meet(one: &Edge, other: &Edge, kind: &mut i32) -> i32
    ensures answered { IsNumberOfKind one.now other.now kind.new }
    ensures status { result ≡ ANSWERED }
{
    *kind = number_of(how_they_meet(*one, *other));
    ANSWERED
}

// The number by which C knows the kind.
fn number_of(kind: Meeting) -> i32
    ensures { result ≡ number_of kind }
{
    match kind {
        Meeting::Apart => APART,
        Meeting::Touch => TOUCH,
        Meeting::Cross => CROSS,
        Meeting::Share => SHARE,
    }
}
