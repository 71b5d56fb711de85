//! What the calls on polygons that grow and shrink, and on lines that grow, share: the status of what was made.

ghost use Rattle.std.specs.Prelude.{◌≡◌, Some, None, IfErr, IfOk};
ghost use Rattle.itree_c.specs.Offsets.{status_of};
ghost use Rattle.itree_c.specs.declared.status.TheConstants.{ANSWERED};

use crate::polygon_lists::PolygonLists;
use crate::raw::Raw;
use crate::status::{ANSWERED, LENGTHS, RANGE, REFUSED, SHAPE};
use offset::MinkowskiFault;
use std::alloc::Global;

// The status of what was made, or of why it wasn't, and the polygons or null.
pub(crate) fn offered(
    alloc: Global,
    made: Result<Box<PolygonLists, Global>, MinkowskiFault>,
) -> (i32, Raw<PolygonLists, Global>)
    ensures ok { IfOk made (λ lists. (result.0 ≡ ANSWERED) × (result.1.value ≡ Some lists.value)) }
    ensures fault { IfErr made (λ fault. (result.0 ≡ status_of fault) × (result.1.value ≡ None)) }
{
    match made {
        Ok(lists) => (ANSWERED, Raw::of(lists)),
        Err(MinkowskiFault::Lengths) => (LENGTHS, Raw::null(alloc)),
        Err(MinkowskiFault::Shape) => (SHAPE, Raw::null(alloc)),
        Err(MinkowskiFault::Range) => (RANGE, Raw::null(alloc)),
        Err(MinkowskiFault::OutOfMemory) => (REFUSED, Raw::null(alloc)),
    }
}
