//! The winding numbers that a fill counts, and which edges it keeps by them.

ghost use Rattle.std.specs.Prelude.{◌≡◌, ◌++◌, [], OnOk, OnErr};
ghost use Rattle.overlay.specs.Fill.Counts.{kept_edge};
ghost use Rattle.overlay.specs.Fill.Rules.{is_result};
ghost use Rattle.overlay.specs.Fill.Sweep.{Fits, plus};

use super::pieces::{Piece, sum};
use super::rules::Choice;
use plane::edge::{Edge, reverse};
use std::alloc::{AllocError, Allocator};

/// The winding numbers of the subject and of the clip, just below or just above a piece.
#[derive(Clone, Copy, Debug)]
pub struct Counts {
    pub subject: i64,
    pub clip: i64,
}

/// Whether points with these winding numbers are of the result.
pub fn is_result(choice: Choice, counts: Counts) -> bool
    ensures { result ≡ is_result choice.rule choice.operation counts.subject counts.clip }
{
    let Choice { rule, operation } = choice;
    operation.operate(rule.is_inside(counts.subject), rule.is_inside(counts.clip))
}

/// What is above the piece, where this is below it.
pub fn plus(below: Counts, piece: Piece) -> Counts
    requires { Fits below piece }
    ensures { result ≡ plus below piece }
{
    Counts {
        subject: sum(below.subject, piece.subject),
        clip: sum(below.clip, piece.clip),
    }
}

/// Appends the edge of a piece that has the result on one side alone: with it on its left.
pub fn keep<A: Allocator>(
    out: &mut Vec<Edge, A>,
    edge: Edge,
    is_below: bool,
    is_above: bool,
) -> Result<(), AllocError>
    ensures ok { OnOk result (out.new.items ≡ out.old.items ++ kept_edge is_below is_above edge []) }
    ensures err { OnErr result (out.new.items ≡ out.old.items) }
{
    if is_below == is_above {
        return Ok(());
    }
    let bounding = if is_above { edge } else { reverse(edge) };
    out.push(bounding)?;
    Ok(())
}
