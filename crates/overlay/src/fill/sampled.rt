//! Whether it may pay to hand on what is below pieces, by some of them. It decides how long a fill takes, and nothing else.

use super::pieces::Piece;
use plane::edge::{Edge, end_of};
use plane::point::Point;

// So many pieces are tried.
const SAMPLES: usize = 64;

// Of these at most so many times the pieces that are live at once may end where none begins: with more there are too many looks.
const MOST_STOPS: u64 = 1_024;

// With fewer pieces live at once, and many in columns, a status takes each beside the one before it, which is as quick.
const FEW_IN_COLUMNS: u64 = 256;

/// Whether it may be quicker than with a status: where most pieces end at a point at which others begin, or few are live at once.
pub fn may_pay(pieces: &[Piece]) -> bool {
    let step = pieces.len() / SAMPLES;
    let live = mean_live(pieces);
    let mut stops: u64 = 0;
    let mut shared: usize = 0;
    for sample in 0..SAMPLES {
        let place = sample.saturating_mul(step);
        stops = stops.saturating_add(u64::from(stops_at(pieces, place)));
        shared = shared.saturating_add(usize::from(is_in_column(pieces, place)));
    }
    let is_quick = shared > SAMPLES / 4 && live < FEW_IN_COLUMNS;
    !is_quick && stops.saturating_mul(live) <= MOST_STOPS
}

// How many pieces are live at an x, in the mean.
fn mean_live(pieces: &[Piece]) -> u64 {
    let mut sum: u64 = 0;
    for piece in pieces {
        sum = sum.saturating_add(u64::from(piece.edge.x0.abs_diff(piece.edge.x1)));
    }
    sum / width_of(pieces).max(1)
}

// How far apart along x the first and the last of them begin.
fn width_of(pieces: &[Piece]) -> u64 {
    match (pieces.first(), pieces.last()) {
        (Some(first), Some(last)) => u64::from(first.edge.x0.abs_diff(last.edge.x0)),
        _ => 0,
    }
}

// Whether no piece begins where the one at this place ends.
fn stops_at(pieces: &[Piece], place: usize) -> bool {
    match pieces.get(place) {
        Some(piece) => !begins_at(pieces, end_of(piece.edge)),
        None => false,
    }
}

// Whether one of the pieces, which stand in the order in which they begin, begins at the point.
fn begins_at(pieces: &[Piece], point: Point) -> bool {
    let first = pieces.partition_point(|piece| begins_before(piece.edge, point));
    match pieces.get(first) {
        Some(piece) => piece.edge.x0 == point.x && piece.edge.y0 == point.y,
        None => false,
    }
}

// Whether the edge begins before the point, by x and then by y.
fn begins_before(edge: Edge, point: Point) -> bool {
    edge.x0 < point.x || edge.x0 == point.x && edge.y0 < point.y
}

// Whether the piece before the one at this place begins elsewhere in its column.
fn is_in_column(pieces: &[Piece], place: usize) -> bool {
    match (pieces.get(place.saturating_sub(1)), pieces.get(place)) {
        (Some(before), Some(piece)) => before.edge.x0 == piece.edge.x0
            && before.edge.y0 != piece.edge.y0,
        _ => false,
    }
}
