//! The pieces of a fill: edges that aren't vertical, turned rightwards, those with the same ends joined.

ghost use Rattle.std.specs.Prelude.{◌≡◌, ◌≢◌, ◌++◌, ◌+◌, ◌≤◌, ◌<◌, ◌*◌, ◌^◌, ℕ, ◌+ℤ◌, ◌-ℤ◌, ◌≤ℤ◌, ◌<ℤ◌, pos, All, List, drop, length, take, IfOk, MatchBool, OnOk};
ghost use Rattle.plane.specs.declared.edge.Edge.{Edge};
ghost use Rattle.plane.specs.SweepLine.Heights.{rise};
ghost use Rattle.overlay.specs.Fill.Begins.{cmp_begins, steps, BeginInOrder};
ghost use Rattle.overlay.specs.declared.fill.pieces.Operand.TheVariants.{Subject, Clip};
ghost use Rattle.overlay.specs.Fill.Pieces.{ArePieces, weight};
ghost use Rattle.overlay.specs.Fill.Sweep.{WeighUpto};
ghost use Rattle.overlay.specs.Fill.Turned.{Adds, AreJoinOf, AreUnjoined, BeginApart, EndIn, Fit, IsSmall, piece_of, sum_of, turned};

use event_queue::buckets::sort_in_buckets;
use plane::edge::Edge;
use plane::point::number_at;
use plane::sweep_line::heights::turn_rightwards;
use plane::vectors::product;
use std::alloc::{AllocError, Allocator};
use std::cmp::Ordering;

/// An edge that goes rightwards, and how often it stands in the subject and in the clip: rightward ones less leftward ones.
#[derive(Clone, Copy, Debug)]
pub struct Piece {
    pub edge: Edge,
    pub subject: i64,
    pub clip: i64,
}

/// Which of the two an edge is of.
#[derive(Clone, Copy, Debug, PartialEq, Eq)]
pub enum Operand {
    Subject,
    Clip,
}

/// The edges of both that aren't vertical, turned rightwards: the subject's, and then the clip's.
pub(crate) fn turned_pieces<A: Allocator>(
    alloc: A,
    subject: &[Edge],
    clip: &[Edge],
) -> Result<Vec<Piece, A>, AllocError>
    ensures turned { IfOk result (λ pieces. pieces.items ≡ turned Subject subject.now ++ turned Clip clip.now) }
    ensures countable { IfOk result (λ _. length subject.now + length clip.now < 2 ^ 63) }
{
    let mut pieces = Vec::with_capacity(alloc, room_for(subject, clip)?)?;
    append_turned(&mut pieces, subject, Operand::Subject)?;
    append_turned(&mut pieces, clip, Operand::Clip)?;
    Ok(pieces)
}

/// Puts the pieces in the order in which they begin, and joins those of one edge.
pub(crate) fn join_in_order<A: Allocator + Copy>(
    pieces: &mut Vec<Piece, A>,
) -> Result<(), AllocError>
    requires { (subject clip : List Edge) × AreUnjoined subject clip pieces.old.items }
    ensures pieces { OnOk result ((subject clip : List Edge) → AreUnjoined subject clip pieces.old.items
        → ArePieces subject clip pieces.new.items) }
    ensures weigh { OnOk result ((most : ℕ) → All (IsSmall most) pieces.old.items
        → WeighUpto (most * length pieces.old.items) pieces.new.items) }
    ensures order { OnOk result (BeginInOrder pieces.new.items) }
    ensures few { OnOk result (length pieces.new.items ≤ length pieces.old.items) }
{
    sort_in_buckets(
        pieces,
        |piece| number_at(piece.edge.x0, piece.edge.y0),
        |one: &Piece, other: &Piece| -> Ordering { compare_begins(one.edge, other.edge) },
    )?;
    join(pieces);
    Ok(())
}

/// How many items both have. More than `i64` counts have no room in any memory.
pub fn room_for<X, Y>(some: &[X], others: &[Y]) -> Result<usize, AllocError>
    ensures { IfOk result (λ all. (all ≡ length some.now + length others.now) × (all < 2 ^ 63)) }
{
    let all = some.len().saturating_add(others.len());
    if all > i64::MAX as usize {
        return Err(AllocError);
    }
    Ok(all)
}

/// Nothing, where so many weights of at most so much have a sum of 63 bits.
pub(crate) fn countable(most: usize, count: usize) -> Result<(), AllocError>
    ensures { OnOk result (most * count < 2 ^ 63) }
{
    if most.saturating_mul(count) > i64::MAX as usize {
        return Err(AllocError);
    }
    Ok(())
}

// Appends the piece of each edge that isn't vertical.
fn append_turned<A: Allocator>(
    pieces: &mut Vec<Piece, A>,
    edges: &[Edge],
    operand: Operand,
) -> Result<(), AllocError>
    ensures { OnOk result (pieces.new.items ≡ pieces.old.items ++ turned operand edges.now) }
{
    for edge in edges {
        if is_sloped(*edge) {
            pieces.push(piece_of(*edge, operand))?;
        }
    }
    Ok(())
}

/// Whether the edge isn't vertical.
pub fn is_sloped(edge: Edge) -> bool
    ensures { MatchBool result (edge.x0 ≢ edge.x1) (edge.x0 ≡ edge.x1) }
{
    edge.x0 != edge.x1
}

/// The edge alone as a piece.
pub fn piece_of(edge: Edge, operand: Operand) -> Piece
    ensures { result ≡ piece_of operand edge }
{
    let right = turn_rightwards(edge);
    match operand {
        Operand::Subject => Piece {
            edge: right,
            subject: weight(edge),
            clip: 0,
        },
        Operand::Clip => Piece {
            edge: right,
            subject: 0,
            clip: weight(edge),
        },
    }
}

/// 1 for an edge that goes rightwards, -1 for one that goes leftwards, 0 for a vertical one.
pub(crate) fn weight(edge: Edge) -> i64
    ensures { result ≡ weight edge }
{
    if edge.x0 < edge.x1 {
        return 1;
    }
    if edge.x1 < edge.x0 {
        return -1;
    }
    0
}

/// In which order two edges begin that go rightwards: by x, by y, and of those that begin at one point the flatter one first.
pub fn compare_begins(one: Edge, other: Edge) -> Ordering
    ensures { result ≡ cmp_begins one other }
{
    let across = one.x0.cmp(&other.x0);
    if across != Ordering::Equal {
        return across;
    }
    let up = one.y0.cmp(&other.y0);
    if up != Ordering::Equal {
        return up;
    }
    product(rise(one), steps(other)).cmp(&product(rise(other), steps(one)))
}

/// How far the edge goes up.
pub(crate) fn rise(edge: Edge) -> i64
    ensures { result ≡ rise edge }
{
    edge.y1 as i64 - edge.y0 as i64
}

/// How far the edge goes along x, and 1 where it goes nowhere, so that all are in one order.
pub(crate) fn steps(edge: Edge) -> i64
    ensures { result ≡ steps edge }
{
    (edge.x1 as i64 - edge.x0 as i64).max(1)
}

// Joins pieces of one edge to one. They stand one after another.
fn join<A: Allocator>(pieces: &mut Vec<Piece, A>)
    requires order { BeginInOrder pieces.old.items }
    requires apart { BeginApart pieces.old.items }
    requires countable { (most : ℕ) × All (IsSmall most) pieces.old.items × (most * length pieces.old.items < 2 ^ 63) }
    ensures { AreJoinOf pieces.old.items pieces.new.items }
{
    let mut kept = 0;
    for place in 0..pieces.len() {
        let piece = pieces[place];
        kept = add(pieces, kept, piece);
    }
    pieces.truncate(kept);
}

// Adds the piece to the last of the first so many, where that is of the same edge, or else puts it behind them. The answer is
// how many they are then.
fn add(pieces: &mut [Piece], kept: usize, piece: Piece) -> usize
    requires room { kept < length pieces.old }
    requires fit { All (λ last. Fit last piece) (take kept pieces.old) }
    ensures adds { Adds piece (take kept pieces.old) (take result pieces.new) }
    ensures few { result ≤ kept + 1 }
    ensures rest { drop (kept + 1) pieces.new ≡ drop (kept + 1) pieces.old }
{
    if !end_in(&pieces[..kept], piece.edge) {
        pieces[kept] = piece;
        return kept + 1;
    }
    let last = kept - 1;
    pieces[last] = sum_of(pieces[last], piece);
    kept
}

// Whether the last of the pieces is of this edge.
fn end_in(pieces: &[Piece], edge: Edge) -> bool
    ensures { MatchBool result (EndIn pieces.now edge) (¬ (EndIn pieces.now edge)) }
{
    match pieces.last() {
        Some(last) => is_same(last.edge, edge),
        None => false,
    }
}

/// Whether they are one edge.
pub fn is_same(one: Edge, other: Edge) -> bool
    ensures { MatchBool result (one ≡ other) (one ≢ other) }
{
    one == other
}

// Two pieces of one edge as one.
fn sum_of(one: Piece, other: Piece) -> Piece
    requires { Fit one other }
    ensures { result ≡ sum_of one other }
{
    Piece {
        edge: one.edge,
        subject: sum(one.subject, other.subject),
        clip: sum(one.clip, other.clip),
    }
}

/// The sum, where it is a number of 64 bits.
pub fn sum(one: i64, other: i64) -> i64
    requires from { (pos 0 -ℤ pos (2 ^ 63)) ≤ℤ (one +ℤ other) }
    requires below { (one +ℤ other) <ℤ pos (2 ^ 63) }
    ensures { result ≡ one +ℤ other }
{
    one + other
}
