//! The fill of few pieces: each is compared with those that have begun before it and go on.

ghost use Rattle.std.specs.Prelude.{◌≡◌, ◌≢◌, ◌++◌, ◌<◌, ◌^◌, ◌≤ℤ◌, pos, true, false, ℕ, All, AllPairs, OnOk, OnErr, take};
ghost use Rattle.std.specs.List.{filter};
ghost use Rattle.overlay.specs.Fill.Few.{AreActive, LastBeginsAt, counts_upto, goes_on, is_upto};
ghost use Rattle.overlay.specs.Fill.Rules.{is_result};
ghost use Rattle.overlay.specs.Fill.Sweep.{AreFillPieces, Fits, WeighUpto, kept_of, no_piece, plus};
ghost use Rattle.plane.specs.Lists.{Extends};

use super::counts::{Counts, is_result, keep, plus};
use super::pieces::Piece;
use super::rules::Choice;
use plane::edge::{Edge, start_of};
use plane::point::Point;
use plane::sweep_line::heights::compare_to_point;
use std::alloc::{AllocError, Allocator};
use std::cmp::Ordering;

/// Appends the edges kept of these pieces, as `append_kept` does: for few pieces, since each is compared with all that have begun
/// before it and go on.
///
/// What is below a piece is counted over these. It is refused for want of memory alone.
pub fn append_by_comparing<A: Allocator + Copy>(
    pieces: &[Piece],
    choice: Choice,
    out: &mut Vec<Edge, A>,
) -> Result<(), AllocError>
    requires { AreFillPieces pieces.now }
    ensures ok { OnOk result (out.new.items ≡ out.old.items
        ++ kept_of (λ counts. is_result choice.rule choice.operation counts.subject counts.clip) pieces.now pieces.now) }
    ensures err { OnErr result (Extends out.old.items out.new.items) }
{
    let mut active = Vec::with_capacity(*out.allocator(), pieces.len())?;
    let mut above = Counts {
        subject: 0,
        clip: 0,
    };
    // The pieces so far have begun, those of them that go on are active, and the counts are those above the last one.
    for place in 0..pieces.len() {
        let piece = pieces[place];
        let below = counts_below(&pieces[..place], &mut active, above, start_of(piece.edge));
        active.push(piece)?;
        above = plus(below, piece);
        let is_below = is_result(choice, below);
        let is_above = is_result(choice, above);
        keep(out, piece.edge, is_below, is_above)?;
    }
    Ok(())
}

// As `counts_upto`, where the active pieces are those that go on, and some that have ended by the point's x. These are taken away.
// Where the last piece begins at the point, too, it is what is above that piece, and no piece is looked at.
fn counts_below<A: Allocator>(
    begun: &[Piece],
    active: &mut Vec<Piece, A>,
    above: Counts,
    point: Point,
) -> Counts
    requires begun { All (λ piece. piece.edge.x0 ≤ℤ point.x) begun.now }
    requires apart { AllPairs (λ one other. one.edge ≢ other.edge) begun.now }
    requires weigh { (most : ℕ) × (most < 2 ^ 63) × WeighUpto most begun.now }
    requires active { AreActive point.x begun.now active.old.items }
    requires above { LastBeginsAt point begun.now → above ≡ counts_upto point begun.now }
    ensures counts { result ≡ counts_upto point begun.now }
    ensures active { AreActive point.x begun.now active.new.items }
{
    if last_begins_at(begun, point) {
        return above;
    }
    let (counts, kept) = counts_of_active(active, point);
    active.truncate(kept);
    counts
}

// What those of the pieces weigh that go on behind the point's x and aren't above the point, and how many go on. These are moved
// to the front, in their order. No branch depends on either, since it would be guessed wrongly often.
fn counts_of_active(active: &mut [Piece], point: Point) -> (Counts, usize)
    requires begun { All (λ piece. piece.edge.x0 ≤ℤ point.x) active.old }
    requires weigh { (most : ℕ) × (most < 2 ^ 63) × ((count : ℕ) → WeighUpto most (take count active.old)) }
    ensures counts { result.0 ≡ counts_upto point active.old }
    ensures kept { take result.1 active.new ≡ filter (goes_on point.x) active.old }
{
    let mut counts = Counts {
        subject: 0,
        clip: 0,
    };
    let mut kept = 0;
    // Of those so far the ones that go on stand in front, and what is counted is what they weigh. The others are as they were.
    for at in 0..active.len() {
        let piece = active[at];
        let stays = point.x < piece.edge.x1;
        active[kept] = piece;
        kept += usize::from(stays);
        counts = plus_if_upto(counts, piece, point);
    }
    (counts, kept)
}

/// Whether the last of the pieces begins at the point.
pub fn last_begins_at(pieces: &[Piece], point: Point) -> bool
    ensures { result ≡ true → LastBeginsAt point pieces.now }
{
    match pieces.last() {
        Some(last) => last.edge.x0 == point.x && last.edge.y0 == point.y,
        None => false,
    }
}

/// What those of the pieces weigh that go on behind the point's x and aren't above the point.
pub fn counts_upto(begun: &[Piece], point: Point) -> Counts
    requires begun { All (λ piece. piece.edge.x0 ≤ℤ point.x) begun.now }
    requires weigh { (most : ℕ) × (most < 2 ^ 63) × ((count : ℕ) → WeighUpto most (take count begun.now)) }
    ensures { result ≡ counts_upto point begun.now }
{
    let mut counts = Counts {
        subject: 0,
        clip: 0,
    };
    for piece in begun {
        counts = plus_if_upto(counts, *piece, point);
    }
    counts
}

// What the piece adds to the counts, unless it has ended by the point's x or is above the point. No branch depends on that, since
// it would be guessed wrongly often.
fn plus_if_upto(counts: Counts, piece: Piece, point: Point) -> Counts
    requires begun { piece.edge.x0 ≤ℤ point.x }
    requires within { Fits counts no_piece }
    requires fits { is_upto point piece.edge ≡ true → Fits counts piece }
    ensures upto { is_upto point piece.edge ≡ true → result ≡ plus counts piece }
    ensures above { is_upto point piece.edge ≡ false → result ≡ counts }
{
    let is_upto = (point.x < piece.edge.x1)
        & (compare_to_point(piece.edge, point) != Ordering::Greater);
    plus(counts, weighed(piece, is_upto))
}

// The piece, or one that weighs nothing where it isn't counted.
fn weighed(piece: Piece, is_counted: bool) -> Piece
    ensures counted { is_counted ≡ true → result ≡ piece }
    ensures left { is_counted ≡ false → (result.subject ≡ pos 0) × (result.clip ≡ pos 0) }
{
    Piece {
        edge: piece.edge,
        subject: weight_if(is_counted, piece.subject),
        clip: weight_if(is_counted, piece.clip),
    }
}

// The weight of what is counted, or 0.
fn weight_if(is_counted: bool, weight: i64) -> i64
    ensures counted { is_counted ≡ true → result ≡ weight }
    ensures left { is_counted ≡ false → result ≡ pos 0 }
{
    if is_counted { weight } else { 0 }
}
