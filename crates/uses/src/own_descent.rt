//! Numbers in a tree of the core by their order, each at the place that a descent of one's own finds.

ghost use Rattle.std.specs.Prelude.{◌≡◌};
ghost use Rattle.i_tree.specs.Rb.Shape.{IsHandle, leaf, left_at, right_at};

use i_tree::rb::RbTree;
use i_tree::steps::Uncounted;
use i_tree::{EMPTY_REF, Refusal};
use std::alloc::Global;
use std::cmp::Ordering;

// The last handle on the way down from `top` to the number, and how the number stands to the one there.
//
// A loop down a tree asks for a file, `Invariants.antt` of this function. It says that the handle that the loop has come to is
// live, and that the rank of the part there is the measure: `left` and `right` make it fall, by their clause `lower`.
fn descend(numbers: &RbTree<i32, Global>, top: u32, number: i32) -> (u32, Ordering)
    requires { IsHandle numbers.now.shape top }
    ensures live { IsHandle numbers.now.shape result.0 }
    ensures left { result.1 ≡ Ordering.Less → left_at result.0 numbers.now.shape ≡ leaf }
    ensures right { result.1 ≡ Ordering.Greater → right_at result.0 numbers.now.shape ≡ leaf }
{
    let mut here = top;
    loop {
        let side = number.cmp(numbers.item(here));
        let next = match side {
            Ordering::Less => numbers.left(here),
            Ordering::Equal => return (here, side),
            Ordering::Greater => numbers.right(here),
        };
        if next == EMPTY_REF {
            return (here, side);
        }
        here = next;
    }
}

/// Puts the number at its place, unless it is there.
pub fn insert(numbers: &mut RbTree<i32, Global>, number: i32) -> Result<(), Refusal> {
    let top = numbers.root();
    if top == EMPTY_REF {
        numbers.insert_root(&mut Uncounted, number)?;
        return Ok(());
    }
    let (above, side) = descend(numbers, top, number);
    match side {
        Ordering::Less => numbers.insert_left(&mut Uncounted, above, number)?,
        Ordering::Equal => above,
        Ordering::Greater => numbers.insert_right(&mut Uncounted, above, number)?,
    };
    Ok(())
}

/// Whether the number is there.
pub fn contains(numbers: &RbTree<i32, Global>, number: i32) -> bool {
    let top = numbers.root();
    top != EMPTY_REF && descend(numbers, top, number).1.is_eq()
}
