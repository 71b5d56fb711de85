//! What the program answers to rings: the polygons of an overlay.

ghost use Rattle.std.specs.Prelude.{◌≡◌, List, IfErr, IfOk, string_bytes};
ghost use Rattle.itree.specs.Answers.{AnswersOverlay, AnswersTile};
ghost use Rattle.itree.specs.RingLines.{RingLine, HoldsSaid};
ghost use Rattle.tiles.specs.Window.{CanCropTo};

use crate::fault::Fault;
use crate::lines::{SaidRings, polygon_text};
use monotone_chains::overlay;
use overlay::fill::{FillRule, Operation};
use overlay::{OverlayFault, Polygons};
use std::alloc::Allocator;
use tiles::{TileFault, Window, overlay_in};

/// The text of the polygons that the operation makes of what is inside of the rings by the rule.
pub fn answer_rings<A: Allocator + Copy>(
    alloc: A,
    operation: Operation,
    rule: FillRule,
    rings: &SaidRings<A>,
) -> Result<String<A>, Fault>
    requires { (said : List RingLine) × HoldsSaid rings.now said }
    ensures answered { IfOk result (λ output. (said : List RingLine) → HoldsSaid rings.now said →
        AnswersOverlay operation rule said (string_bytes output)) }
    ensures err { IfErr result (λ fault. fault ≡ Fault.Memory) }
{
    let mut polygons = Polygons::new(alloc);
    let (subject, clip) = (rings.subject.rings(), rings.other.rings());
    match overlay(subject, clip, rule, operation, &mut polygons) {
        Ok(()) => Ok(polygon_text(alloc, &polygons)?),
        Err(OverlayFault::Refused(_)) => Err(Fault::Memory),
        Err(OverlayFault::Lengths) => unreachable!(),
    }
}

/// The text of the polygons of what of them lies in the window.
pub fn answer_tile<A: Allocator + Copy>(
    alloc: A,
    window: Window,
    operation: Operation,
    rule: FillRule,
    rings: &SaidRings<A>,
) -> Result<String<A>, Fault>
    requires said { (said : List RingLine) × HoldsSaid rings.now said }
    requires window { CanCropTo window }
    ensures answered { IfOk result (λ output. (said : List RingLine) → HoldsSaid rings.now said →
        AnswersTile window operation rule said (string_bytes output)) }
    ensures err { IfErr result (λ fault. fault ≡ Fault.Memory) }
{
    let mut polygons = Polygons::new(alloc);
    let (subject, clip) = (rings.subject.rings(), rings.other.rings());
    match overlay_in(window, subject, clip, rule, operation, &mut polygons) {
        Ok(()) => Ok(polygon_text(alloc, &polygons)?),
        Err(TileFault::OutOfMemory) => Err(Fault::Memory),
        // The ends are right, and so is the window.
        Err(TileFault::Lengths) => unreachable!(),
        Err(TileFault::Empty) => unreachable!(),
        Err(TileFault::Margin) => unreachable!(),
    }
}
