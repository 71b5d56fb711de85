//! A sweep over horizontal segments: for each point the greatest height at or below its own.
//!
//! None of this is of the Rust crate `i_tree`.
#![tactic(auto)]

ghost use Rattle.std.specs.Prelude.{◌≡◌, ◌<◌, ◌+◌, ◌++◌, [], ℤ, ℕ, List, Option, length, OnOk, OnErr};
ghost use Rattle.std.specs.List.{AllZip};
ghost use Rattle.std.specs.Ordering.{int_cmp};
ghost use Rattle.i_tree.specs.Root.Answer.{AtMost};
ghost use Rattle.i_tree.specs.Root.Change.{Gains, Without};
ghost use Rattle.i_tree.specs.Root.Handles.{HasHandlesFor};
ghost use Rattle.i_tree.specs.Root.Pairs.{HasKey, NoKey};
ghost use Rattle.horizontal.specs.Levels.{cmp_levels, entry_of, level_of, live_entries, HasEnded};
ghost use Rattle.horizontal.specs.Events.{IsQueue};
ghost use Rattle.horizontal.specs.Heights.{IsHeightBelow, NoneCollide, IsFirstOverlap};
ghost use Rattle.horizontal.specs.declared.SweepFault.TheVariants.{Refused};
ghost use Rattle.i_tree.specs.declared.Refusal.{Refusal};
ghost use Rattle.i_tree.specs.declared.Refusal.TheVariants.{OutOfMemory};

use event_queue::{Event, Task};
use events::events_of;
use i_tree::key::exp::KeyExpCollection;
use i_tree::{ExpiredKey, Refusal};
use std::alloc::{AllocError, AllocFailed, Allocator};
use std::cmp::Ordering;
use std::error::Error;
use std::fmt::{self, Display, Formatter};

mod events;

/// A horizontal segment at the height `y`, from `x0` to `x1`, both of which it covers. One with `x1 < x0` covers nothing.
#[repr(C)]
#[derive(Clone, Copy, Debug, PartialEq, Eq)]
pub struct Segment {
    pub x0: i32,
    pub x1: i32,
    pub y: i32,
}

/// A point, for which the sweep answers.
#[repr(C)]
#[derive(Clone, Copy, Debug, PartialEq, Eq)]
pub struct Point {
    pub x: i32,
    pub y: i32,
}

/// The height of a segment, as a key that expires behind its end. Levels are compared by `y` alone.
#[derive(Clone, Copy, Debug)]
#[derive_where(PartialEq, Eq, PartialOrd, Ord)]
pub struct Level {
    pub y: i32,
    /// The last x at which the level is live.
    #[derive_where(skip(EqHashOrd))]
    pub last: i32,
}

impl ExpiredKey<i32> for Level {
    ghost expiration = { λ level. level.last };

    fn expiration(&self) -> i32 {
        self.last
    }
}

/// Why a sweep has no answers.
#[derive(Clone, Copy, Debug, PartialEq, Eq)]
pub enum SweepFault {
    /// Memory was refused, or the store refused a level.
    Refused(Refusal),
    /// The segment at this place overlaps an earlier one, and is the first that does.
    Overlap(usize),
}

impl From<Refusal> for SweepFault {
    ghost from_gives = { λ refusal fault. fault ≡ Refused refusal };

    fn from(refusal: Refusal) -> SweepFault {
        SweepFault::Refused(refusal)
    }
}

impl From<AllocError> for SweepFault {
    ghost from_gives = { λ _ fault. fault ≡ Refused OutOfMemory };

    fn from(_refused: AllocError) -> SweepFault {
        SweepFault::Refused(Refusal::OutOfMemory)
    }
}

impl<T: Drop> From<AllocFailed<T>> for SweepFault {
    ghost from_gives = { λ _ fault. fault ≡ Refused OutOfMemory };

    fn from(_refused: AllocFailed<T>) -> SweepFault {
        SweepFault::Refused(Refusal::OutOfMemory)
    }
}

/// Says why, in a program's own error: the refusal's own text, or the place among the segments, counted from 0.
impl Display for SweepFault {
    fn fmt<W: fmt::Write>(&self, f: &mut Formatter<W>) -> fmt::Result {
        match self {
            SweepFault::Refused(cause) => write!(f, "{}", cause),
            SweepFault::Overlap(place) => {
                write!(f, "the segment at place {} overlaps an earlier one", place)
            }
        }
    }
}

impl Error for SweepFault {}

/// Appends to `out`, for each of the points in order, the greatest height at most the point's among the segments that cover
/// its x, or `None` where there is none.
///
/// Two segments collide where they have one height and both cover some x. Where two collide, the answer is `Overlap`, which
/// tells the first segment, in the order of `x0` and then of place, that collides with one before it in this order.
/// `Refused` comes where memory for the sweep was refused, or where the store refused a level, whose cause it tells; it may
/// come where segments collide, too. Where the store has handles for as many as there are segments, as a `KeyExpList` always
/// has, the cause is always `OutOfMemory`. After any fault `out` is as it was. What the store holds is removed before and
/// after the sweep, in every case. The memory is that of `out`.
///
/// For s segments and p points it compares O((s + p) log (s + p)) times beside the calls of the store, which are at most
/// one for each segment and one for each point. The sweep is our own, and not of the Rust crate; it is the textbook's sweep
/// line, whose status the store is.
pub fn below<C, A>(
    store: &mut C,
    segments: &[Segment],
    points: &[Point],
    out: &mut Vec<Option<i32>, A>,
) -> Result<(), SweepFault>
where
    C: KeyExpCollection<Level, i32, Option<i32>>,
    A: Allocator + Copy,
    ensures ok { OnOk result (
        NoneCollide segments.now
        × (answers : List (Option ℤ)) × (out.new.items ≡ out.old.items ++ answers)
        × AllZip (IsHeightBelow segments.now) points.now answers) }
    ensures overlap { (place : ℕ) → result ≡ Err (SweepFault.Overlap place) → IsFirstOverlap segments.now place }
    ensures within { (place : ℕ) → result ≡ Err (SweepFault.Overlap place) → place < length segments.now }
    ensures err { OnErr result (out.new.items ≡ out.old.items) }
    ensures refused { HasHandlesFor C.has_handles (length segments.now) → (cause : Refusal) →
        result ≡ Err (SweepFault.Refused cause) → cause ≡ OutOfMemory }
    ensures empty { C.stored store.new ≡ [] }
{
    store.clear();
    let outcome = append_answers(store, segments, points, out);
    store.clear();
    outcome
}

// As `below`, from an empty store on, and leaves in the store what it may.
fn append_answers<C, A>(
    store: &mut C,
    segments: &[Segment],
    points: &[Point],
    out: &mut Vec<Option<i32>, A>,
) -> Result<(), SweepFault>
where
    C: KeyExpCollection<Level, i32, Option<i32>>,
    A: Allocator + Copy,
    requires { C.stored store.old ≡ [] }
    ensures ok { OnOk result (
        NoneCollide segments.now
        × (answers : List (Option ℤ)) × (out.new.items ≡ out.old.items ++ answers)
        × AllZip (IsHeightBelow segments.now) points.now answers) }
    ensures overlap { (place : ℕ) → result ≡ Err (SweepFault.Overlap place) → IsFirstOverlap segments.now place }
    ensures err { OnErr result (out.new.items ≡ out.old.items) }
    ensures refused { HasHandlesFor C.has_handles (length segments.now) → (cause : Refusal) →
        result ≡ Err (SweepFault.Refused cause) → cause ≡ OutOfMemory }
{
    let alloc = *out.allocator();
    let events = events_of(alloc, segments, points)?;
    let mut answers = Vec::new(alloc);
    answers.resize(points.len(), None)?;
    serve_all(store, segments, points, &events, &mut answers)?;
    out.extend_from_slice(&answers)?;
    Ok(())
}

// Serves the events in order, and puts each point's answer at its place.
fn serve_all<C: KeyExpCollection<Level, i32, Option<i32>>>(
    store: &mut C,
    segments: &[Segment],
    points: &[Point],
    events: &[Event],
    answers: &mut [Option<i32>],
) -> Result<(), SweepFault>
    requires empty { C.stored store.old ≡ [] }
    requires queue { IsQueue segments.now points.now events.now }
    requires room { length answers.old ≡ length points.now }
    ensures ok { OnOk result (NoneCollide segments.now × AllZip (IsHeightBelow segments.now) points.now answers.new) }
    ensures overlap { (place : ℕ) → result ≡ Err (SweepFault.Overlap place) → IsFirstOverlap segments.now place }
    ensures refused { HasHandlesFor C.has_handles (length segments.now) → (cause : Refusal) →
        result ≡ Err (SweepFault.Refused cause) → cause ≡ OutOfMemory }
{
    // Stored are the levels that are live at the line, none twice, and no more than have begun; and the points that it has passed
    // have their answers.
    for event in events {
        match event.task {
            Task::End => {}
            Task::Begin => begin(store, event.place, segments[event.place])?,
            Task::Answer => answers[event.place] = height_below(store, points[event.place]),
        }
    }
    Ok(())
}

// Stores the level of the segment, unless one of its height is live where it begins.
fn begin<C: KeyExpCollection<Level, i32, Option<i32>>>(
    store: &mut C,
    place: usize,
    segment: Segment,
) -> Result<(), SweepFault>
    ensures ok { OnOk result (
        NoKey cmp_levels (live_entries segment.x0 (C.stored store.old)) (level_of segment)
        × Gains (HasEnded segment.x0) (entry_of segment) (C.stored store.old) (C.stored store.new)) }
    ensures overlap { (other : ℕ) → result ≡ Err (SweepFault.Overlap other) →
        (other ≡ place) × HasKey cmp_levels (live_entries segment.x0 (C.stored store.old)) (level_of segment) }
    ensures refused { C.has_handles (length (C.stored store.old) + 1) → (cause : Refusal) →
        result ≡ Err (SweepFault.Refused cause) → cause ≡ OutOfMemory }
{
    let level = Level {
        y: segment.y,
        last: segment.x1,
    };
    if !store.insert_new(level, Some(segment.y), segment.x0)? {
        return Err(SweepFault::Overlap(place));
    }
    Ok(())
}

// The greatest height at most the point's of the levels that are live at its x.
fn height_below<C: KeyExpCollection<Level, i32, Option<i32>>>(
    store: &mut C,
    point: Point,
) -> Option<i32>
    ensures value { AtMost cmp_levels (live_entries point.x (C.stored store.old))
        (λ level. int_cmp level.y point.y) None result }
    ensures kept { Without (HasEnded point.x) (C.stored store.old) (C.stored store.new) }
{
    let stands = |level: Level| -> Ordering
        ensures { result ≡ int_cmp level.y point.y }
    { level.y.cmp(&point.y) };
    store.first_less_or_equal_by(point.x, None, stands)
}
