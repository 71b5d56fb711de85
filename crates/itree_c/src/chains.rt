//! Chains on the heap, which edges have become.

ghost use Rattle.std.specs.Prelude.{◌≡◌, IfOk};
ghost use Rattle.std.specs.Vec.{vec_ptr, vec_len};
ghost use Rattle.std.specs.Option.{IsSome};
ghost use denote.Param.Send.{IsSend};

use crate::raw::Raw;
use plane::point::Point;
use std::alloc::{AllocError, Global};

/// The points of chains, one chain behind the other, and at which places among them each chain begins and stops; and where
/// the first of each lies. C reads them there.
#[derive(Drop)]
pub struct Chains {
    pub(crate) points: *const Point,
    pub(crate) point_count: usize,
    pub(crate) offsets: *const usize,
    pub(crate) offset_count: usize,
    pub(crate) held_points: Vec<Point, Global>,
    pub(crate) held_offsets: Vec<usize, Global>,
    ghost points_told: { (points ≡ vec_ptr held_points) × (point_count ≡ vec_len held_points) },
    ghost offsets_told: { (offsets ≡ vec_ptr held_offsets) × (offset_count ≡ vec_len held_offsets) },
}

// The pointers lead into memory that is the chains' own.
unsafe impl Send for Chains {}

// Another thread may take them over.
fn may_be_sent(chains: Box<Chains, Global>) {
    take_over(chains);
}

fn take_over<T: Send + Drop>(_value: T)
    requires { IsSend T.row }
{}

// Chains of these points and offsets, on the heap, with where the first of each lies.
pub(crate) fn boxed_chains(
    alloc: Global,
    held_points: Vec<Point, Global>,
    held_offsets: Vec<usize, Global>,
) -> Result<Box<Chains, Global>, AllocError>
    ensures { IfOk result (λ chains. (chains.value.held_points.items ≡ held_points.items)
        × (chains.value.held_offsets.items ≡ held_offsets.items)) }
{
    let points = held_points.as_ptr();
    let point_count = held_points.len();
    let offsets = held_offsets.as_ptr();
    let offset_count = held_offsets.len();
    Ok(Box::new(
        alloc,
        Chains {
            points,
            point_count,
            offsets,
            offset_count,
            held_points,
            held_offsets,
        },
    )?)
}

// Gives back all memory of the chains.
pub(crate) fn drop_chains(chains: Raw<Chains, Global>)
    requires { IsSome chains.value }
{
    drop(chains.into_box());
}
