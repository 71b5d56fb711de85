//! Where parts of rings lie, and whether two of them come to each other.

ghost use Rattle.std.specs.Prelude.{◌≡◌, ◌⊎◌, pos, ◌+ℤ◌, ◌<ℤ◌, All, IfOk, OnOk, MatchBool, length};
ghost use Rattle.std.specs.Bool.{OnTrue};
ghost use Rattle.std.specs.List.{AllZip};
ghost use Rattle.overlay.specs.Contours.Outlines.{ring_point};
ghost use Rattle.monotone_chains.specs.Stretches.Cut.{IsPart, way};
ghost use Rattle.monotone_chains.specs.Stretches.Spans.{AppendsSpans, AreFar, AreSeveral, ComeNear, HasHeights, IsSpan, LeadsTo, SpansMeet, beside, bounds_of_span, box_of, expanded};

use super::parts::Part;
use plane::edge::Edge;
use plane::pairs::boxes::boxes_meet;
use plane::pairs::items::{Bounds, Boxed, Meets};
use plane::point::Point;
use std::alloc::{AllocError, Allocator};

/// Where a part of a ring lies: its leftmost and its rightmost point, and its least and its greatest y. Whether its other
/// points are more than a unit from the leftmost one along x, and from the rightmost one; and whether it has several edges.
#[derive(Clone, Copy)]
pub struct Span {
    pub left: Point,
    pub right: Point,
    pub low: i32,
    pub high: i32,
    pub opens: bool,
    pub closes: bool,
    pub several: bool,
}

/// The least and the greatest y of some points.
#[derive(Clone, Copy)]
pub struct Heights {
    pub low: i32,
    pub high: i32,
}

impl Boxed for Span {
    ghost bounds = { bounds_of_span };

    fn bounds(self) -> Bounds {
        expanded(box_of(self))
    }
}

// The least box that has the part's points.
fn box_of(span: Span) -> Bounds
    ensures { result ≡ box_of span }
{
    let corners = Edge {
        x0: span.left.x,
        y0: span.low,
        x1: span.right.x,
        y1: span.high,
    };
    corners.bounds()
}

// The box, a unit wider and higher.
fn expanded(bounds: Bounds) -> Bounds
    ensures { result ≡ expanded bounds }
{
    Bounds {
        left: bounds.left,
        right: beside(bounds.right),
        low: bounds.low,
        high: beside(bounds.high),
    }
}

// The next number, or the last one.
fn beside(side: i32) -> i32
    ensures { result ≡ beside side }
{
    if side < i32::MAX { side + 1 } else { side }
}

impl Meets<Span> for Span {
    ghost Meeting = { SpansMeet };

    fn meets(self, other: Span) -> bool {
        if !come_near(self, other) {
            return false;
        }
        !adjoin(self, other)
    }
}

// Whether one of the parts has several edges, and their boxes share a point.
fn come_near(one: Span, other: Span) -> bool
    ensures { MatchBool result (ComeNear one other) (¬ (ComeNear one other)) }
{
    if !are_several(one, other) {
        return false;
    }
    boxes_meet(one.bounds(), other.bounds())
}

// Whether one of the parts has several edges.
fn are_several(one: Span, other: Span) -> bool
    ensures { MatchBool result (AreSeveral one other) (¬ (AreSeveral one other)) }
{
    one.several || other.several
}

// Whether one of the parts goes on as the other.
fn adjoin(one: Span, other: Span) -> bool
    ensures { let adjoin = LeadsTo one other ⊎ LeadsTo other one in MatchBool result adjoin (¬ adjoin) }
{
    leads_to(one, other) || leads_to(other, one)
}

// Whether the other part begins where the one ends, and both have no other points near there.
fn leads_to(one: Span, other: Span) -> bool
    ensures { MatchBool result (LeadsTo one other) (¬ (LeadsTo one other)) }
{
    one.closes && other.opens && one.right == other.left
}

/// Where each part lies.
pub fn spans_of<A: Allocator>(alloc: A, parts: &[Part]) -> Result<Vec<Span, A>, AllocError>
    requires { All IsPart parts.now }
    ensures { IfOk result (λ spans. AllZip IsSpan parts.entry.now spans.items) }
{
    let mut spans = Vec::with_capacity(alloc, parts.len())?;
    append_spans(parts, &mut spans)?;
    Ok(spans)
}

/// Appends where each of the parts lies.
pub fn append_spans<A: Allocator>(
    parts: &[Part],
    spans: &mut Vec<Span, A>,
) -> Result<(), AllocError>
    requires { All IsPart parts.now }
    ensures { OnOk result (AppendsSpans parts.entry.now spans.old.items spans.new.items) }
{
    for part in parts {
        spans.push(span_of(*part))?;
    }
    Ok(())
}

// Where the part lies.
fn span_of(part: Part) -> Span
    requires { IsPart part }
    ensures { IsSpan part.entry result }
{
    let heights = heights_of(part);
    let low = heights.low;
    let high = heights.high;
    let several = !part.inner.is_empty();
    let opens = are_far(part.from, second_of(part));
    let closes = are_far(before_last(part), part.to);
    if part.from.x <= part.to.x {
        Span {
            left: part.from,
            right: part.to,
            low,
            high,
            opens,
            closes,
            several,
        }
    } else {
        Span {
            left: part.to,
            right: part.from,
            low,
            high,
            opens: closes,
            closes: opens,
            several,
        }
    }
}

// The part's second point.
fn second_of(part: Part) -> Point
    ensures { result ≡ ring_point (way part.entry) 1 }
{
    if part.inner.is_empty() {
        return part.to;
    }
    part.inner[0]
}

// The part's last point but one.
fn before_last(part: Part) -> Point
    ensures { result ≡ ring_point (way part.entry) (length part.entry.inner.now) }
{
    if part.inner.is_empty() {
        return part.from;
    }
    part.inner[part.inner.len() - 1]
}

// Whether the points are more than a unit apart along x.
fn are_far(one: Point, other: Point) -> bool
    ensures { OnTrue result (AreFar one other) }
{
    if lies_far(one, other) {
        return true;
    }
    lies_far(other, one)
}

// Whether the other point lies to the right of the one by more than a unit.
fn lies_far(one: Point, other: Point) -> bool
    ensures { OnTrue result ((one.x +ℤ pos 1) <ℤ other.x) }
{
    (one.x as i64) + 1 < other.x as i64
}

// The least and the greatest y of the part's points.
fn heights_of(part: Part) -> Heights
    ensures { All (HasHeights result) (way part.entry) }
{
    let mut low = part.from.y.min(part.to.y);
    let mut high = part.from.y.max(part.to.y);
    for point in part.inner {
        low = low.min(point.y);
        high = high.max(point.y);
    }
    Heights { low, high }
}
