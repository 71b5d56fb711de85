//! The containers of a sweep line: keys that expire, statuses and ordered sets, each in a red-black tree and in a sorted
//! vector, and segments in a heap of buckets.
//!
//! A port of the Rust crate `i_tree` 0.20.0, whose names and rules these are. Each call is proved to answer from a plain
//! list.
#![tactic(auto)]

ghost use Rattle.std.specs.Prelude.{◌≡◌};
ghost use Rattle.i_tree.specs.declared.Refusal.TheVariants.{OutOfMemory};
ghost use Rattle.i_tree.specs.Root.Late.{is_late};

mod binary_search;
mod expiring;
pub mod key;
mod layout_number;
mod list_deletion;
mod list_insertion;
pub mod rb;
pub mod seg;
mod select;
pub mod set;
pub mod status;
pub mod steps;

pub use layout_number::{LayoutNumber, LayoutUInt};
use std::alloc::{AllocError, AllocFailed};
use std::error::Error;
use std::fmt::{self, Debug, Display, Formatter};

/// The handle that stands for no entry. It is never the handle of one.
pub const EMPTY_REF: u32 = u32::MAX;

/// Why a call that takes memory or a handle was refused.
#[derive(Clone, Copy, Debug, PartialEq, Eq)]
pub enum Refusal {
    /// A growth was refused by the allocator.
    OutOfMemory,
    /// Every handle is in use.
    NoHandle,
}

impl From<AllocError> for Refusal {
    ghost from_gives = { λ _ refusal. refusal ≡ OutOfMemory };

    fn from(_refused: AllocError) -> Refusal {
        Refusal::OutOfMemory
    }
}

impl<T: Drop> From<AllocFailed<T>> for Refusal {
    ghost from_gives = { λ _ refusal. refusal ≡ OutOfMemory };

    fn from(_refused: AllocFailed<T>) -> Refusal {
        Refusal::OutOfMemory
    }
}

/// Says which of the two it is, in a program's own error.
impl Display for Refusal {
    ghost use Rattle.std.specs.Prelude.{Some};
    ghost use Rattle.i_tree.specs.Root.Causes.{refusal_text};

    ghost output = { λ cause. Some (refusal_text cause) };

    fn fmt<W: fmt::Write>(&self, f: &mut Formatter<W>) -> fmt::Result {
        match self {
            Refusal::OutOfMemory => write!(f, "memory was refused"),
            Refusal::NoHandle => write!(f, "every handle is in use"),
        }
    }
}

impl Error for Refusal {}

/// A refusal that hands the refused value back. Where the value is not wanted, `?` makes a `Refusal` of it.
#[derive(Debug, Drop)]
pub struct Refused<V> {
    /// The value that was not taken.
    pub value: V,
    /// Why it was not taken.
    pub cause: Refusal,
}

/// The cause; the value is dropped.
impl<V: Drop> From<Refused<V>> for Refusal {
    ghost from_gives = { λ refused refusal. refusal ≡ refused.cause };

    fn from(refused: Refused<V>) -> Refusal {
        refused.cause
    }
}

/// Says why, and nothing of the value.
impl<V> Display for Refused<V> {
    fn fmt<W: fmt::Write>(&self, f: &mut Formatter<W>) -> fmt::Result {
        write!(f, "{}", self.cause)
    }
}

impl<V: Debug + Drop> Error for Refused<V> {}

/// A type of times, in the order of `Ord`.
pub trait Expiration: Copy + Ord {
    /// A time after which the caller lets nothing expire, as the greatest of the type.
    ///
    /// No answer depends on it: any value of the type will do.
    fn max_expiration() -> Self;
}

impl Expiration for u8 {
    fn max_expiration() -> Self
        ensures { result ≡ u8.MAX }
    {
        u8::MAX
    }
}

impl Expiration for i8 {
    fn max_expiration() -> Self
        ensures { result ≡ i8.MAX }
    {
        i8::MAX
    }
}

impl Expiration for u16 {
    fn max_expiration() -> Self
        ensures { result ≡ u16.MAX }
    {
        u16::MAX
    }
}

impl Expiration for i16 {
    fn max_expiration() -> Self
        ensures { result ≡ i16.MAX }
    {
        i16::MAX
    }
}

impl Expiration for u32 {
    fn max_expiration() -> Self
        ensures { result ≡ u32.MAX }
    {
        u32::MAX
    }
}

impl Expiration for i32 {
    fn max_expiration() -> Self
        ensures { result ≡ i32.MAX }
    {
        i32::MAX
    }
}

impl Expiration for u64 {
    fn max_expiration() -> Self
        ensures { result ≡ u64.MAX }
    {
        u64::MAX
    }
}

impl Expiration for i64 {
    fn max_expiration() -> Self
        ensures { result ≡ i64.MAX }
    {
        i64::MAX
    }
}

impl Expiration for usize {
    fn max_expiration() -> Self
        ensures { result ≡ usize.MAX }
    {
        usize::MAX
    }
}

/// Whether a time is late: before the last one, if there was one. It is our own.
pub fn is_late<E: Expiration>(last: Option<E>, time: E) -> bool
    ensures { result ≡ is_late E.cmp last time }
{
    match last {
        Some(last) => time < last,
        None => false,
    }
}

/// A key that expires. Keys that compare Equal are one place, whatever their expirations.
pub trait ExpiredKey<E: Expiration>: Copy + Ord {
    /// The last time at which the key is live. It depends on the key alone.
    ghost expiration: { Self → E };

    /// The last time at which the key is live.
    fn expiration(&self) -> E
        ensures { result ≡ expiration self.now };
}

/// A value that expires.
pub trait ExpiredVal<E: Expiration>: Copy {
    /// The last time at which the value is live. It depends on the value alone.
    ghost expiration: { Self → E };

    /// The last time at which the value is live.
    fn expiration(&self) -> E
        ensures { result ≡ expiration self.now };
}
