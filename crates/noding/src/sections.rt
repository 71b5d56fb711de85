//! Sections of edges, each with a box of its own: a long edge passes few of the points that lie in its whole box.

ghost use Rattle.std.specs.Prelude.{◌≡◌, ◌<◌, ◌≤◌, All, IfErr, IfOk, IfSome, OnOk, length};
ghost use Rattle.i_tree.specs.declared.Refusal.TheVariants.{OutOfMemory};
ghost use Rattle.plane.specs.Meet.Boxes.{bounds_of};
ghost use Rattle.plane.specs.Pairs.Pairs.{ArePairsBetween};
ghost use Rattle.noding.specs.Sections.{AreSections, GainsParts, IsPartOf, PassesHere};

use crate::crossing::round_mean;
use crate::passing::{is_in_box, may_pass_inside, passes_inside};
use i_tree::Refusal;
use plane::edge::{Edge, edge_between};
use plane::pairs::items::{Bounds, Boxed, Meets};
use plane::pairs::{Budget, pairs_with_points_within_budget};
use plane::point::Point;
use std::alloc::{AllocError, Allocator};

// An edge is cut into two to the power of so many sections at most.
const MOST_BITS: u32 = 6;

// An edge whose box is likely to have fewer than two to the power of so many points isn't cut. With as many, the sections take as
// long as the whole.
const LEAST_BITS: u32 = 6;

// With so many bits of likely points fewer there are as many sections as points in each. A section takes as long as some four
// points.
const BITS_LESS: u32 = 2;

/// A section of the edge at this place: what of it lies in the box of the chord.
#[derive(Clone, Copy)]
pub struct Section {
    pub place: usize,
    pub edge: Edge,
    pub chord: Edge,
}

impl Boxed for Section {
    ghost bounds = { λ it. bounds_of it.chord };

    fn bounds(self) -> Bounds {
        self.chord.bounds()
    }
}

impl Meets<Point> for Section {
    ghost Meeting = { PassesHere };

    fn meets(self, other: Point) -> bool {
        if !is_in_box(self.chord, other.x, other.y) {
            return false;
        }
        if !may_pass_inside(self.edge, other.x, other.y) {
            return false;
        }
        passes_inside(self.edge, other.x, other.y)
    }
}

/// Sections of all edges, in which all lies that each of them passes. The longer an edge is, and the closer the points lie, the
/// more sections it has.
pub fn sections_of<A: Allocator>(
    alloc: A,
    edges: &[Edge],
    points: &[Point],
) -> Result<Vec<Section, A>, AllocError>
    ensures { IfOk result (λ sections. AreSections edges.now (length edges.now) sections.items) }
{
    let spread = spread_of(points);
    let most = bits_in(points.len());
    let mut sections = Vec::with_capacity(alloc, edges.len())?;
    // The edges so far have their sections.
    for (place, edge) in edges.iter().enumerate() {
        push_sections(place, *edge, count_for(*edge, spread, most), &mut sections)?;
    }
    Ok(sections)
}

// How many bits the size of the points' box takes, less those of their number.
fn spread_of(points: &[Point]) -> u32 {
    let mut all = Bounds {
        left: i32::MAX,
        right: i32::MIN,
        low: i32::MAX,
        high: i32::MIN,
    };
    for point in points {
        all.left = all.left.min(point.x);
        all.right = all.right.max(point.x);
        all.low = all.low.min(point.y);
        all.high = all.high.max(point.y);
    }
    bits_of(all).saturating_sub(bits_in(points.len()))
}

// How many bits the number takes.
fn bits_in(count: usize) -> u32 {
    64 - (count as u64).leading_zeros()
}

// How many bits the size of the box takes.
fn bits_of(bounds: Bounds) -> u32 {
    let wide = bounds.right.abs_diff(bounds.left);
    let tall = bounds.high.abs_diff(bounds.low);
    (32 - wide.leading_zeros()) + (32 - tall.leading_zeros())
}

// Into how many sections the edge is cut: about as many as the square root of how many points are likely to lie in its box. These
// are no more than all, which take so many bits at most.
fn count_for(edge: Edge, spread: u32, most: u32) -> usize
    ensures { 0 < result }
{
    let likely = bits_of(edge.bounds()).saturating_sub(spread).min(most);
    if likely < LEAST_BITS {
        return 1;
    }
    let bits = (likely.saturating_sub(BITS_LESS) / 2).min(MOST_BITS);
    (1usize << bits).max(1)
}

// Appends so many sections of the edge, which is at this place. Of one that isn't cut the edge itself is the chord.
fn push_sections<A: Allocator>(
    place: usize,
    edge: Edge,
    count: usize,
    sections: &mut Vec<Section, A>,
) -> Result<(), AllocError>
    requires { 0 < count }
    ensures { OnOk result (GainsParts place edge count count sections.old.items sections.new.items) }
{
    if count == 1 {
        let chord = edge;
        sections.push(Section { place, edge, chord })?;
        return Ok(());
    }
    let mut from = point_along(edge, 0, count);
    // The sections of the parts so far stand there, and this part begins at `from`.
    for part in 0..count {
        let to = point_along(edge, part + 1, count);
        let chord = edge_between(from, to);
        sections.push(Section { place, edge, chord })?;
        from = to;
    }
    Ok(())
}

// What the point rounds to that lies so many of all parts of the way along the edge.
fn point_along(edge: Edge, part: usize, all: usize) -> Point
    requires some { 0 < all }
    requires upto { part ≤ all }
    ensures { IsPartOf edge part all result }
{
    Point {
        x: round_mean(edge.x0, edge.x1, all as i128, part as i128),
        y: round_mean(edge.y0, edge.y1, all as i128, part as i128),
    }
}

/// The pairs of places `(i, j)` where the point at j lies in the section at i and its edge passes it between its ends; or nothing
/// where the search takes more tests than edges mostly need.
pub fn pairs_passed_here<A: Allocator + Copy>(
    alloc: A,
    sections: &[Section],
    points: &[Point],
) -> Result<Option<Vec<(usize, usize), A>>, Refusal>
    ensures ok { IfOk result (λ found. IfSome found (λ pairs.
        ArePairsBetween PassesHere sections.now points.now pairs.items)) }
    ensures within { IfOk result (λ found. IfSome found (λ pairs.
        All (λ pair. (pair.0 < length sections.now) × (pair.1 < length points.now)) pairs.items)) }
    ensures refused { IfErr result (λ cause. cause ≡ OutOfMemory) }
{
    let mut pairs = Vec::new(alloc);
    let budget = Budget::for_items(sections.len());
    let are_all = pairs_with_points_within_budget(sections, points, budget, &mut pairs)?;
    Ok(are_all.then_some(pairs))
}
