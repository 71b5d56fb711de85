//! What the program answers to rings that grow and shrink by a shape, and to paths that grow.

ghost use Rattle.std.specs.Prelude.{◌≡◌, ◌≢◌, ◌⊎◌, List, IfErr, IfOk, string_bytes};
ghost use Rattle.itree.specs.Answers.{AnswersGrown, AnswersPaths, AnswersShrunk, IsUnfitGrown, IsUnfitPaths, IsUnfitShrunk, fault_of};
ghost use Rattle.itree.specs.RingLines.{RingLine, HoldsSaid};
ghost use Rattle.itree.specs.declared.fault.Unfit.{Unfit};

use crate::fault::{Fault, Unfit};
use crate::lines::{SaidRings, polygon_text};
use offset::{MinkowskiFault, erode, grow_lines, minkowski};
use overlay::Polygons;
use overlay::fill::FillRule;
use std::alloc::Allocator;

/// The text of the polygons that what is inside of the rings by the rule becomes where it grows by the shape.
pub fn answer_grown<A: Allocator + Copy>(
    alloc: A,
    rule: FillRule,
    rings: &SaidRings<A>,
) -> Result<String<A>, Fault>
    requires { (said : List RingLine) × HoldsSaid rings.now said }
    ensures answered { IfOk result (λ output. (said : List RingLine) → HoldsSaid rings.now said →
        AnswersGrown rule said (string_bytes output)) }
    ensures unfit { (why : Unfit) → result ≡ Err (Fault.Unfit why) → (said : List RingLine) → HoldsSaid rings.now said →
        IsUnfitGrown rule said why }
    ensures err { IfErr result (λ fault. (fault ≡ Fault.Memory) ⊎ ((why : Unfit) × (fault ≡ Fault.Unfit why))) }
{
    let mut polygons = Polygons::new(alloc);
    let (subject, shape) = (rings.subject.rings(), rings.other.points.as_slice());
    match minkowski(subject, rule, shape, &mut polygons) {
        Ok(()) => Ok(polygon_text(alloc, &polygons)?),
        Err(fault) => Err(fault_of(fault)),
    }
}

/// The text of the polygons of what is left of the inside where the shape is taken along outside.
pub fn answer_shrunk<A: Allocator + Copy>(
    alloc: A,
    rule: FillRule,
    rings: &SaidRings<A>,
) -> Result<String<A>, Fault>
    requires { (said : List RingLine) × HoldsSaid rings.now said }
    ensures answered { IfOk result (λ output. (said : List RingLine) → HoldsSaid rings.now said →
        AnswersShrunk rule said (string_bytes output)) }
    ensures unfit { (why : Unfit) → result ≡ Err (Fault.Unfit why) → (said : List RingLine) → HoldsSaid rings.now said →
        IsUnfitShrunk rule said why }
    ensures err { IfErr result (λ fault. (fault ≡ Fault.Memory) ⊎ ((why : Unfit) × (fault ≡ Fault.Unfit why))) }
{
    let mut polygons = Polygons::new(alloc);
    let (subject, shape) = (rings.subject.rings(), rings.other.points.as_slice());
    match erode(subject, rule, shape, &mut polygons) {
        Ok(()) => Ok(polygon_text(alloc, &polygons)?),
        Err(fault) => Err(fault_of(fault)),
    }
}

/// The text of the polygons that the paths become where they grow by the shape.
pub fn answer_paths<A: Allocator + Copy>(alloc: A, rings: &SaidRings<A>) -> Result<String<A>, Fault>
    requires { (said : List RingLine) × HoldsSaid rings.now said }
    ensures answered { IfOk result (λ output. (said : List RingLine) → HoldsSaid rings.now said →
        AnswersPaths said (string_bytes output)) }
    ensures unfit { (why : Unfit) → result ≡ Err (Fault.Unfit why) → (said : List RingLine) → HoldsSaid rings.now said →
        IsUnfitPaths said why }
    ensures err { IfErr result (λ fault. (fault ≡ Fault.Memory) ⊎ ((why : Unfit) × (fault ≡ Fault.Unfit why))) }
{
    let mut polygons = Polygons::new(alloc);
    let (paths, shape) = (rings.subject.rings(), rings.other.points.as_slice());
    match grow_lines(paths, shape, &mut polygons) {
        Ok(()) => Ok(polygon_text(alloc, &polygons)?),
        Err(fault) => Err(fault_of(fault)),
    }
}

// Why there is no answer, where the ends of what grows are right.
fn fault_of(fault: MinkowskiFault) -> Fault
    requires { fault ≢ MinkowskiFault.Lengths }
    ensures { result ≡ fault_of fault }
{
    match fault {
        MinkowskiFault::Shape => Fault::Unfit(Unfit::Shape),
        MinkowskiFault::Range => Fault::Unfit(Unfit::Range),
        MinkowskiFault::OutOfMemory => Fault::Memory,
        MinkowskiFault::Lengths => unreachable!(),
    }
}
