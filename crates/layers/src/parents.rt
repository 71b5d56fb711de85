//! `parents`: which polygon lies in a hole of which.

ghost use Rattle.std.specs.Prelude.{◌≡◌, ◌↔◌, ◌⊎◌, ◌++◌, ◌∷◌, ◌<◌, ◌+ℤ◌, [], ℕ, All, Err, IfErr, IfOk, IfSome, IsSomeAnd, List, MatchBool, OnErr, OnOk, Option, get_or, length};
ghost use Rattle.std.specs.Option.{ForSome};
ghost use Rattle.i_tree.specs.declared.Refusal.TheVariants.{OutOfMemory};
ghost use Rattle.layers.specs.Around.{halved};
ghost use Rattle.layers.specs.Parents.{AreBest, AreDepths, AreOuters, AreParents, AreWithin, IsNoBetter, middle_of, outer_of};
ghost use Rattle.layers.specs.Shapes.{HasShapes, shapes_of};
ghost use Rattle.layers.specs.declared.around.half_point.HalfPoint.{HalfPoint as HalfPointValue};
ghost use Rattle.layers.specs.declared.fault.LayerFault.TheVariants.{Lengths, Refused};

use crate::around::{HalfPoint, append_pairs_in};
use crate::fault::LayerFault;
use crate::points::Border;
use crate::shapes::{Shapes, are_shapes, list_at, range_at};
use overlay::fill::FillRule;
use plane::point::Point;
use std::alloc::{AllocError, Allocator};

/// Twice a number that is greater than all of 32 bits.
const FAR: i64 = 0x1_0000_0000;

/// Appends for each polygon the place of the one in whose hole it lies, the nearest around it; or none, where no other goes round
/// it.
///
/// The shapes are polygons as an overlay makes them: the first ring of each is its outer one. A polygon goes round another where
/// its outer ring winds around the middle of the first edge of the other's outer ring. As the outer rings of an overlay don't
/// cross, the other then lies in one of its holes. Of those that go round a polygon the nearest is the deepest: that around which
/// the most others go; and of several that are as deep the first. So it is told for all other shapes too. A polygon whose outer
/// ring has no point goes round none.
///
/// `Lengths` comes where a ring or a shape stops before it begins or behind the points or the rings, and nothing else is done then.
/// `Refused` comes for want of memory alone. After any fault `out` is as it was. The memory is that of `out`.
pub fn parents<A: Allocator + Copy>(
    polygons: Shapes,
    out: &mut Vec<Option<usize>, A>,
) -> Result<(), LayerFault>
    ensures ok { OnOk result ((found : List (Option ℕ)) × AreParents (shapes_of polygons.entry) found
        × (out.new.items ≡ out.old.items ++ found)) }
    ensures err { OnErr result (out.new.items ≡ out.old.items) }
    ensures lengths { (result ≡ Err Lengths) ↔ ¬ (HasShapes polygons.entry) }
    ensures refused { IfErr result (λ fault. (fault ≡ Lengths) ⊎ (fault ≡ Refused OutOfMemory)) }
{
    if !are_shapes(polygons) {
        return Err(LayerFault::Lengths);
    }
    let found = parents_of(*out.allocator(), polygons)?;
    out.extend_from_slice(&found)?;
    Ok(())
}

// The parent of each polygon.
fn parents_of<A: Allocator + Copy>(
    alloc: A,
    polygons: Shapes,
) -> Result<Vec<Option<usize>, A>, AllocError>
    requires { HasShapes polygons }
    ensures { IfOk result (λ found. AreParents (shapes_of polygons.entry) found.items) }
{
    let outers = outers_of(alloc, polygons)?;
    let rings = Shapes {
        points: &outers.points,
        ring_ends: &outers.ring_ends,
        shape_ends: &outers.shape_ends,
    };
    let mut pairs = Vec::new(alloc);
    append_pairs_in(
        &outers.middles,
        rings,
        FillRule::NonZero,
        Border::HalfOpen,
        &mut pairs,
    )?;
    let depths = depths_of(alloc, polygons.shape_ends.len(), &pairs)?;
    best_of(alloc, &pairs, &depths)
}

// The outer ring of each polygon as a shape of its own, and where the polygon is looked for.
#[derive(Drop)]
struct Outers<A: Allocator> {
    points: Vec<Point, A>,
    ring_ends: Vec<usize, A>,
    shape_ends: Vec<usize, A>,
    middles: Vec<HalfPoint, A>,
}

fn outers_of<A: Allocator + Copy>(alloc: A, polygons: Shapes) -> Result<Outers<A>, AllocError>
    requires { HasShapes polygons }
    ensures { IfOk result (λ outers. AreOuters (shapes_of polygons.entry)
        outers.points.items outers.ring_ends.items outers.shape_ends.items outers.middles.items) }
{
    let mut outers = Outers {
        points: Vec::new(alloc),
        ring_ends: Vec::new(alloc),
        shape_ends: Vec::new(alloc),
        middles: Vec::new(alloc),
    };
    // The outer rings of the polygons before this one stand there, each as a shape.
    for place in 0..polygons.shape_ends.len() {
        push_outer(outer_ring(polygons, place), &mut outers)?;
    }
    Ok(outers)
}

// The outer ring of the polygon at this place, which is its first.
fn outer_ring<'a>(polygons: Shapes<'a>, place: usize) -> &'a [Point]
    requires shapes { HasShapes polygons }
    requires place { place < length polygons.shape_ends.now }
    ensures { result.now ≡ outer_of (get_or (shapes_of polygons.entry) place []) }
{
    let (first, behind) = range_at(polygons.shape_ends, place);
    if first == behind {
        return &[];
    }
    list_at(polygons.points, polygons.ring_ends, first)
}

// Appends the ring as a shape of its own.
fn push_outer<A: Allocator>(outer: &[Point], outers: &mut Outers<A>) -> Result<(), AllocError>
    ensures points { OnOk result (outers.new.points.items ≡ outers.old.points.items ++ outer.now) }
    ensures rings { OnOk result (outers.new.ring_ends.items ≡ outers.old.ring_ends.items ++ length outers.new.points.items ∷ []) }
    ensures shapes { OnOk result (outers.new.shape_ends.items ≡ outers.old.shape_ends.items ++ length outers.new.ring_ends.items ∷ []) }
    ensures middles { OnOk result ((middle : HalfPointValue) × (halved middle ≡ middle_of outer.now)
        × (outers.new.middles.items ≡ outers.old.middles.items ++ middle ∷ [])) }
{
    outers.points.extend_from_slice(outer)?;
    outers.ring_ends.push(outers.points.len())?;
    outers.shape_ends.push(outers.ring_ends.len())?;
    outers.middles.push(middle_of(outer))?;
    Ok(())
}

// Where a polygon with this outer ring is looked for.
fn middle_of(outer: &[Point]) -> HalfPoint
    ensures { halved result ≡ middle_of outer.now }
{
    if outer.is_empty() {
        return HalfPoint {
            twice_x: FAR,
            twice_y: 0,
        };
    }
    let next = if outer.len() > 1 { 1 } else { 0 };
    middle_between(outer[0], outer[next])
}

// The middle between two points.
fn middle_between(one: Point, other: Point) -> HalfPoint
    ensures x { result.twice_x ≡ one.x +ℤ other.x }
    ensures y { result.twice_y ≡ one.y +ℤ other.y }
{
    HalfPoint {
        twice_x: one.x as i64 + other.x as i64,
        twice_y: one.y as i64 + other.y as i64,
    }
}

// With how many others each of so many stands in a pair.
fn depths_of<A: Allocator + Copy>(
    alloc: A,
    count: usize,
    pairs: &[(usize, usize)],
) -> Result<Vec<usize, A>, AllocError>
    requires { AreWithin count pairs.now }
    ensures { IfOk result (λ depths. AreDepths count pairs.now depths.items) }
{
    let mut depths = vec![in alloc; 0; count]?;
    // Each place has the number of others with which it stands in one of the pairs so far.
    for (place, around) in pairs {
        if *place != *around {
            depths[*place] += 1;
        }
    }
    Ok(depths)
}

// Of those with which each stands in a pair the deepest, and of several the first; or none.
fn best_of<A: Allocator + Copy>(
    alloc: A,
    pairs: &[(usize, usize)],
    depths: &[usize],
) -> Result<Vec<Option<usize>, A>, AllocError>
    requires { AreWithin (length depths.now) pairs.now }
    ensures { IfOk result (λ found. AreBest depths.now pairs.now found.items) }
{
    let mut found = vec![in alloc; None; depths.len()]?;
    // Each place has the best of the pairs so far, if it stands in one.
    for (place, around) in pairs {
        if *place != *around && is_better(depths, *around, found[*place]) {
            found[*place] = Some(*around);
        }
    }
    Ok(found)
}

// Whether the one place is nearer than the best so far: deeper, or as deep and before it.
fn is_better(depths: &[usize], place: usize, best: Option<usize>) -> bool
    requires place { place < length depths.now }
    requires best { ForSome best (λ other. other < length depths.now) }
    ensures { MatchBool result (IfSome best (λ other. IsNoBetter depths.now other place))
        (IsSomeAnd best (λ other. IsNoBetter depths.now place other)) }
{
    match best {
        Some(other) => {
            depths[other] < depths[place] || depths[other] == depths[place] && place < other
        }
        None => true,
    }
}
