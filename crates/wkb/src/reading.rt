//! Many shapes in well-known binary, as points of a grid.

ghost use Rattle.std.specs.Prelude.{◌≡◌, ◌+◌, ◌<◌, ◌++◌, ◌∷◌, [], length, IfErr, IfOk, OnOk};
ghost use Rattle.grid.specs.Grid.{IsGrid};
ghost use Rattle.wkb.specs.Reading.{AppendsShape, AreShapes, IfFaulty, IsFaulty, fault_among, shape_bytes};

use crate::fault::{Fault, FaultKind, LayoutFault, ReadFault};
use crate::shape::{Scratch, append_shape};
use grid::units::Grid;
use plane::point::Point;
use std::alloc::Allocator;

/// Shapes: the points of all rings, where each ring stops among the points, and where each shape stops among the rings.
#[derive(Drop)]
pub struct Shapes<A: Allocator> {
    pub points: Vec<Point, A>,
    pub ring_ends: Vec<usize, A>,
    pub shape_ends: Vec<usize, A>,
}

/// Shapes as Arrow has them, in a binary array: a shape's bytes go from its offset to the next one.
#[derive(Clone, Copy)]
pub(crate) struct BinaryArray<'a> {
    pub bytes: &'a [u8],
    pub offsets: &'a [usize],
}

/// The fault of one shape, as one of many.
pub(crate) fn fault_among(fault: LayoutFault, shape: usize, start: usize) -> ReadFault
    ensures { result ≡ fault_among fault shape start }
{
    match fault {
        LayoutFault::Refused(refusal) => ReadFault::Refused(refusal),
        LayoutFault::Flawed(flaw) => ReadFault::Faulty(Fault {
            kind: flaw.kind,
            shape,
            byte: start.saturating_add(flaw.byte),
        }),
    }
}

/// Appends the rings of a shape, and where it stops among all rings.
fn append_next<A: Allocator>(
    array: BinaryArray<'_>,
    shape: usize,
    most_nested: usize,
    grid: &Grid,
    scratch: &mut Scratch<A>,
    shapes: &mut Shapes<A>,
) -> Result<(), ReadFault>
    requires grid { IsGrid grid.now }
    requires shape { shape + 1 < length array.offsets.now }
    ensures ok { OnOk result (AppendsShape grid.now most_nested (shape_bytes array.entry.bytes.now array.entry.offsets.now shape) shapes.old.points.items shapes.new.points.items shapes.old.ring_ends.items shapes.new.ring_ends.items) }
    ensures shape_ends { OnOk result (shapes.new.shape_ends.items ≡ shapes.old.shape_ends.items ++ length shapes.new.ring_ends.items ∷ []) }
    ensures fault { IfErr result (λ e. IfFaulty e (λ fault. IsFaulty grid.now most_nested array.entry.bytes.now array.entry.offsets.now fault)) }
{
    let start = array.offsets[shape];
    let end = array.offsets[shape + 1];
    if end < start || array.bytes.len() < end {
        return Err(ReadFault::Faulty(Fault {
            kind: FaultKind::Offsets,
            shape,
            byte: start,
        }));
    }
    let found = append_shape(&array.bytes[start..end], most_nested, grid, scratch, shapes);
    match found {
        Ok(()) => {}
        Err(fault) => return Err(fault_among(fault, shape, start)),
    }
    let all = shapes.ring_ends.as_slice();
    shapes.shape_ends.push(all.len())?;
    Ok(())
}

/// Reads shapes: polygons, multipolygons and collections of these, nested at most `most_nested` deep, as points of a grid.
///
/// `offsets` are those of Arrow: one more than shapes, or none. A shape's bytes go from its offset to the next one, and all of them
/// are the shape's. Outer rings run counterclockwise and holes clockwise: those that don't are turned. A position that closes a
/// ring is left out.
pub fn read<A: Allocator + Copy>(
    alloc: A,
    bytes: &[u8],
    offsets: &[usize],
    most_nested: usize,
    grid: &Grid,
) -> Result<Shapes<A>, ReadFault>
    requires { IsGrid grid.now }
    ensures ok { IfOk result (λ shapes. AreShapes grid.now most_nested bytes.now offsets.now shapes.points.items shapes.ring_ends.items shapes.shape_ends.items) }
    ensures fault { IfErr result (λ e. IfFaulty e (λ fault. IsFaulty grid.now most_nested bytes.now offsets.now fault)) }
{
    let mut shapes = Shapes {
        points: Vec::new(alloc),
        ring_ends: Vec::new(alloc),
        shape_ends: Vec::new(alloc),
    };
    let mut scratch = Scratch {
        rings: Vec::new(alloc),
        positions: Vec::new(alloc),
        told: Vec::new(alloc),
    };
    let array = BinaryArray { bytes, offsets };
    for shape in 0..offsets.len().saturating_sub(1) {
        append_next(array, shape, most_nested, grid, &mut scratch, &mut shapes)?;
    }
    Ok(shapes)
}
