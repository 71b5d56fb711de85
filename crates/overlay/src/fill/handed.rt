//! The fill of pieces most of which begin where others end: what was below the lowest one that ends is below the lowest one that
//! begins, and in a column the difference between both sides stays from one point to the next.

ghost use Rattle.std.specs.Prelude.{◌≡◌, ◌≢◌, ◌++◌, ◌-◌, ◌<◌, ◌^◌, ◌+ℤ◌, ◌-ℤ◌, ◌≤ℤ◌, ◌<ℤ◌, pos, ℕ, true, All, AllPairs, IfOk, IfSome, OnOk, OnErr, get_or, length};
ghost use Rattle.std.specs.List.{filter};
ghost use Rattle.overlay.specs.Fill.Few.{LastBeginsAt, counts_upto, goes_on};
ghost use Rattle.overlay.specs.Fill.Handed.{AreEnds, HasLooked, IsCarriedBy, IsHandedBy, carried};
ghost use Rattle.overlay.specs.Fill.Rules.{is_result};
ghost use Rattle.overlay.specs.Fill.Sweep.{AreFillPieces, Fits, WeighUpto, kept_of, no_piece, nothing};
ghost use Rattle.plane.specs.Ends.{end_of, start_of};
ghost use Rattle.plane.specs.Lists.{Extends};

use super::counts::{Counts, is_result, keep, plus};
use super::ends::count_before;
use super::few::{counts_upto, last_begins_at};
use super::pieces::Piece;
use super::rules::Choice;
use plane::edge::{Edge, start_of};
use plane::point::Point;
use plane::sweep_line::ActiveEdge;
use std::alloc::{AllocError, Allocator};

// So many looks at a piece, for each piece there is, take about as long as the status does.
const LOOKS_PER_PIECE: usize = 16;

// The pieces that are looked at where what is below is counted: of the first `count` ones those that go on.
#[derive(Drop)]
struct Looked<A: Allocator> {
    live: Vec<Piece, A>,
    count: usize,
}

/// Whether a sweep that hands counts on has to look at few pieces, for as many as there are. It says nothing but what is quicker.
pub fn are_few_looks(pieces: &[Piece], ends: &[ActiveEdge]) -> bool {
    let most = LOOKS_PER_PIECE.saturating_mul(pieces.len());
    let mut looks: usize = 0;
    let mut next_end = 0;
    for place in 0..pieces.len() {
        let point = start_of(pieces[place].edge);
        next_end = count_before(ends, next_end, point);
        looks = looks.saturating_add(looks_at(&pieces[..place], ends, next_end, point));
        if most < looks {
            return false;
        }
    }
    true
}

// At how many pieces the sweep looks where one begins at the point: none, or those that have begun and not ended.
fn looks_at(begun: &[Piece], ends: &[ActiveEdge], next_end: usize, point: Point) -> usize {
    if last_begins_at(begun, point)
        || handed_by(begun, ends, next_end, point).is_some()
        || carried_by(begun, ends, next_end, point).is_some()
    {
        return 0;
    }
    begun.len().saturating_sub(next_end)
}

/// Appends the edges kept of these pieces, as `append_kept` does, where `ends` are the pieces as they end.
///
/// What is below a piece that begins where others end is known by what was below the lowest of these. Where nothing ends there, or
/// where pieces end or begin below in its column without the other, it is counted over those that go on. It is refused for want of
/// memory alone.
pub fn append_by_handing<A: Allocator + Copy>(
    pieces: &[Piece],
    ends: &[ActiveEdge],
    choice: Choice,
    out: &mut Vec<Edge, A>,
) -> Result<(), AllocError>
    requires pieces { AreFillPieces pieces.now }
    requires ends { AreEnds pieces.now ends.now }
    ensures ok { OnOk result (out.new.items ≡ out.old.items
        ++ kept_of (λ counts. is_result choice.rule choice.operation counts.subject counts.clip) pieces.now pieces.now) }
    ensures err { OnErr result (Extends out.old.items out.new.items) }
{
    let alloc = *out.allocator();
    let mut below = Vec::with_capacity(alloc, pieces.len())?;
    let mut looked = Looked {
        live: Vec::new(alloc),
        count: 0,
    };
    let mut above = Counts {
        subject: 0,
        clip: 0,
    };
    let mut next_end = 0;
    // The pieces so far have begun, `below` has the counts below each, and `above` is what is above the last one.
    for place in 0..pieces.len() {
        let piece = pieces[place];
        let begun = &pieces[..place];
        let point = start_of(piece.edge);
        next_end = count_before(ends, next_end, point);
        let known = known_below(begun, ends, next_end, &below, above, point);
        let counts = counts_below(known, &mut looked, begun, point)?;
        below.push(counts)?;
        above = plus(counts, piece);
        let is_below = is_result(choice, counts);
        let is_above = is_result(choice, above);
        keep(out, piece.edge, is_below, is_above)?;
    }
    Ok(())
}

// What is below a piece that begins at the point, where that is known: it is above the last piece, which begins there too, or was
// below one that ends there; or at the point below in the column it is known what is above on both sides.
fn known_below(
    begun: &[Piece],
    ends: &[ActiveEdge],
    next_end: usize,
    below: &[Counts],
    above: Counts,
    point: Point,
) -> Option<Counts>
    requires above { LastBeginsAt point begun.now → above ≡ counts_upto point begun.now }
    requires below { (place : ℕ) → IsHandedBy begun.now ends.now next_end point place
        → (place < length below.now) × (get_or below.now place nothing ≡ counts_upto point begun.now) }
    requires carried { (place other : ℕ) → IsCarriedBy begun.now ends.now next_end point place other
        → (place < length below.now) × (other < length begun.now) × (other < length below.now)
        × (carried (get_or below.now place nothing) above (get_or below.now other nothing) (get_or begun.now other no_piece) ≡ counts_upto point begun.now) }
    requires within { Fits (counts_upto point begun.now) no_piece }
    ensures { IfSome result (λ counts. counts ≡ counts_upto point begun.now) }
{
    if last_begins_at(begun, point) {
        return Some(above);
    }
    if let Some(place) = handed_by(begun, ends, next_end, point) {
        return Some(below[place]);
    }
    match carried_by(begun, ends, next_end, point) {
        Some((place, other)) => Some(carried(below[place], above, below[other], begun[other])),
        None => None,
    }
}

// The place of the piece that hands on what is below it, where the next of the ends is at the point, and neither an end nor a
// beginning is below the point in its column.
fn handed_by(begun: &[Piece], ends: &[ActiveEdge], next_end: usize, point: Point) -> Option<usize>
    ensures { IfSome result (λ place. IsHandedBy begun.now ends.now next_end point place) }
{
    if ends.len() <= next_end || !begins_before(begun, point) {
        return None;
    }
    if 0 < next_end && point.x <= ends[next_end - 1].edge.x1 {
        return None;
    }
    let next = ends[next_end];
    if next.edge.x1 == point.x && next.edge.y1 == point.y {
        Some(next.place)
    } else {
        None
    }
}

// The places of the piece that ends at the point, and of the last one that ended at the point below in its column, where the last
// piece has begun at that point below.
fn carried_by(
    begun: &[Piece],
    ends: &[ActiveEdge],
    next_end: usize,
    point: Point,
) -> Option<(usize, usize)>
    ensures { IfSome result (λ both. IsCarriedBy begun.now ends.now next_end point both.0 both.1) }
{
    if next_end == 0 || ends.len() <= next_end || begun.is_empty() {
        return None;
    }
    let next = ends[next_end];
    let before = ends[next_end - 1];
    let last = begun[begun.len() - 1];
    if ends_at(next.edge, point)
        && is_below(last.edge, point)
        && ends_at(before.edge, start_of(last.edge))
    {
        Some((next.place, before.place))
    } else {
        None
    }
}

// Whether the edge ends at the point.
fn ends_at(edge: Edge, point: Point) -> bool
    ensures { result ≡ true → end_of edge ≡ point }
{
    edge.x1 == point.x && edge.y1 == point.y
}

// Whether the edge begins below the point in its column.
fn is_below(edge: Edge, point: Point) -> bool
    ensures { result ≡ true → (edge.x0 ≡ point.x) × (edge.y0 <ℤ point.y) }
{
    edge.x0 == point.x && edge.y0 < point.y
}

// What was below one piece, with what is above a second one, less what was above a third one.
fn carried(below: Counts, above: Counts, other: Counts, ended: Piece) -> Counts
    requires { Fits (carried below above other ended) no_piece }
    ensures { result ≡ carried below above other ended }
{
    Counts {
        subject: sum_less(below.subject, above.subject, other.subject, ended.subject),
        clip: sum_less(below.clip, above.clip, other.clip, ended.clip),
    }
}

// The sum of two numbers less that of two others, where it is a number of 64 bits.
fn sum_less(one: i64, two: i64, less: i64, less_too: i64) -> i64
    requires from { (pos 0 -ℤ pos (2 ^ 63)) ≤ℤ ((one +ℤ two) -ℤ (less +ℤ less_too)) }
    requires below { ((one +ℤ two) -ℤ (less +ℤ less_too)) <ℤ pos (2 ^ 63) }
    ensures { result ≡ (one +ℤ two) -ℤ (less +ℤ less_too) }
{
    difference(wide_sum(one, two), wide_sum(less, less_too))
}

// The sum of two numbers, which may have more than 64 bits.
fn wide_sum(one: i64, two: i64) -> i128
    ensures { result ≡ one +ℤ two }
{
    one as i128 + two as i128
}

// The difference, where it is a number of 64 bits.
fn difference(one: i128, two: i128) -> i64
    requires from { (pos 0 -ℤ pos (2 ^ 63)) ≤ℤ (one -ℤ two) }
    requires below { (one -ℤ two) <ℤ pos (2 ^ 63) }
    ensures { result ≡ one -ℤ two }
{
    (one - two) as i64
}

// Whether the last of the pieces begins before the point's column, or there is none.
fn begins_before(begun: &[Piece], point: Point) -> bool
    ensures { result ≡ true → 0 < length begun.now → (get_or begun.now (length begun.now - 1) no_piece).edge.x0 <ℤ point.x }
{
    match begun.last() {
        Some(last) => last.edge.x0 < point.x,
        None => true,
    }
}

// The counts that are known, or else those of the pieces that go on: of these it takes note.
fn counts_below<A: Allocator>(
    known: Option<Counts>,
    looked: &mut Looked<A>,
    begun: &[Piece],
    point: Point,
) -> Result<Counts, AllocError>
    requires known { IfSome known (λ counts. counts ≡ counts_upto point begun.now) }
    requires begun { All (λ piece. piece.edge.x0 ≤ℤ point.x) begun.now }
    requires apart { AllPairs (λ one other. one.edge ≢ other.edge) begun.now }
    requires weigh { (most : ℕ) × (most < 2 ^ 63) × WeighUpto most begun.now }
    requires looked { HasLooked point.x begun.now looked.old.count looked.old.live.items }
    ensures counts { IfOk result (λ counts. counts ≡ counts_upto point begun.now) }
    ensures looked { OnOk result (HasLooked point.x begun.now looked.new.count looked.new.live.items) }
{
    if let Some(counts) = known {
        return Ok(counts);
    }
    look(&mut looked.live, &begun[looked.count..], point)?;
    looked.count = begun.len();
    Ok(counts_upto(&looked.live, point))
}

// Of the pieces that went on, and of those that have begun since, leaves those that go on behind the point's x.
fn look<A: Allocator>(
    live: &mut Vec<Piece, A>,
    since: &[Piece],
    point: Point,
) -> Result<(), AllocError>
    ensures { OnOk result (live.new.items ≡ filter (goes_on point.x) (live.old.items ++ since.now)) }
{
    live.retain(|piece| point.x < piece.edge.x1);
    append_going_on(live, since, point)
}

// Appends those of the pieces that go on behind the point's x.
fn append_going_on<A: Allocator>(
    live: &mut Vec<Piece, A>,
    since: &[Piece],
    point: Point,
) -> Result<(), AllocError>
    ensures { OnOk result (live.new.items ≡ live.old.items ++ filter (goes_on point.x) since.now) }
{
    for piece in since {
        if point.x < piece.edge.x1 {
            live.push(*piece)?;
        }
    }
    Ok(())
}
