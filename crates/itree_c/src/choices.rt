//! The numbers by which C names a fill rule, an operation, a form of well-known binary, what becomes of a border, which side of
//! polygons is kept, and how corners are joined.

ghost use Rattle.itree_c.specs.Choices.{IsBorder, IsForm, IsJoin, IsKeep, IsOperation, IsRule};

use layers::{Border, Keep};
use offset::Join;
use overlay::{FillRule, Operation};
use wkb::writing::Form;

/// Inside are the points with an odd winding number.
pub const EVEN_ODD: i32 = 0;

/// Inside are the points with any winding number but 0.
pub const NON_ZERO: i32 = 1;

/// Inside are the points with a winding number above 0.
pub const POSITIVE: i32 = 2;

/// Inside are the points with a winding number below 0.
pub const NEGATIVE: i32 = 3;

/// The points of either.
pub const UNION: i32 = 0;

/// The points of both.
pub const INTERSECTION: i32 = 1;

/// The points of the subject that aren't of the clip.
pub const DIFFERENCE: i32 = 2;

/// The points of just one of the two.
pub const XOR: i32 = 3;

/// One multipolygon.
pub const MULTIPOLYGON: i32 = 0;

/// Each polygon by itself.
pub const EACH_POLYGON: i32 = 1;

/// A point on an edge of a shape is in it.
pub const CLOSED: i32 = 0;

/// A point on an edge of a shape isn't in it.
pub const OPEN: i32 = 1;

/// A point on a lower or a left border of a shape is in it, and one on an upper or a right border isn't.
pub const HALF_OPEN: i32 = 2;

/// What lies inside is kept.
pub const INSIDE: i32 = 0;

/// What lies outside is kept.
pub const OUTSIDE: i32 = 1;

/// A corner is joined by the sides of the shape.
pub const ROUND: i32 = 0;

/// A corner is joined by one straight line.
pub const BEVEL: i32 = 1;

/// A corner is joined by the moved edges, carried on to where they cross.
pub const MITRE: i32 = 2;

// `itree.h` has these numbers.
const _: () = prove!(EVEN_ODD == 0 && NON_ZERO == 1 && POSITIVE == 2 && NEGATIVE == 3);

const _: () = prove!(MULTIPOLYGON == 0 && EACH_POLYGON == 1);

const _: () = prove!(CLOSED == 0 && OPEN == 1 && HALF_OPEN == 2 && INSIDE == 0 && OUTSIDE == 1);

const _: () = prove!(ROUND == 0 && BEVEL == 1 && MITRE == 2);

const _: () = prove!(UNION == 0 && INTERSECTION == 1 && DIFFERENCE == 2 && XOR == 3);

// The rule that has the number, or none.
pub(crate) fn rule_of(number: i32) -> Option<FillRule>
    ensures { IsRule number result }
{
    match number {
        EVEN_ODD => Some(FillRule::EvenOdd),
        NON_ZERO => Some(FillRule::NonZero),
        POSITIVE => Some(FillRule::Positive),
        NEGATIVE => Some(FillRule::Negative),
        _ => None,
    }
}

// The operation that has the number, or none.
pub(crate) fn operation_of(number: i32) -> Option<Operation>
    ensures { IsOperation number result }
{
    match number {
        UNION => Some(Operation::Union),
        INTERSECTION => Some(Operation::Intersection),
        DIFFERENCE => Some(Operation::Difference),
        XOR => Some(Operation::Xor),
        _ => None,
    }
}

// The form that has the number, or none.
pub(crate) fn form_of(number: i32) -> Option<Form>
    ensures { IsForm number result }
{
    match number {
        MULTIPOLYGON => Some(Form::MultiPolygon),
        EACH_POLYGON => Some(Form::EachPolygon),
        _ => None,
    }
}

// What becomes of a border, by its number, or none.
pub(crate) fn border_of(number: i32) -> Option<Border>
    ensures { IsBorder number result }
{
    match number {
        CLOSED => Some(Border::Closed),
        OPEN => Some(Border::Open),
        HALF_OPEN => Some(Border::HalfOpen),
        _ => None,
    }
}

// The side that has the number, or none.
pub(crate) fn keep_of(number: i32) -> Option<Keep>
    ensures { IsKeep number result }
{
    match number {
        INSIDE => Some(Keep::Inside),
        OUTSIDE => Some(Keep::Outside),
        _ => None,
    }
}

// How corners are joined, by its number and for mitres the limit, or none.
pub(crate) fn join_of(number: i32, limit: u32) -> Option<Join>
    ensures { IsJoin number limit result }
{
    match number {
        ROUND => Some(Join::Round),
        BEVEL => Some(Join::Bevel),
        MITRE => Some(Join::Mitre(limit)),
        _ => None,
    }
}
