//! `ReadAhead`: a read-ahead buffer of the items whose parts are served next.

ghost use Rattle.std.specs.Prelude.{◌≡◌, ◌<◌, [], All, length, IfOk, OnOk};
ghost use Rattle.plane.specs.Pairs.Parts.{AreReadAhead, IsItemOf};

use super::parts::Part;
use std::alloc::{AllocError, Allocator};

// The items of so many parts are read at a time.
const RUN: usize = 256;

/// The items of a run of parts, the first of which is at the place `from`.
///
/// Parts stand in another order than items, so that most reads of these wait for memory. In a loop that does nothing
/// else they wait together.
#[derive(Drop)]
pub struct ReadAhead<T, A: Allocator> {
    from: usize,
    items: Vec<T, A>,
}

impl<T: Copy, A: Allocator> ReadAhead<T, A> {
    /// Nothing is read so far.
    pub fn new(alloc: A) -> ReadAhead<T, A>
        ensures { result.items.items ≡ [] }
    {
        ReadAhead {
            from: 0,
            items: Vec::new(alloc),
        }
    }

    /// The item of the part at this place. Where it isn't read yet, it is read with those behind it.
    pub fn at(&mut self, items: &[T], parts: &[Part], place: usize) -> Result<T, AllocError>
        requires within { All (λ part. part.place < length items.now) parts.now }
        requires inside { place < length parts.now }
        requires ahead { AreReadAhead items.now parts.now self.old.from self.old.items.items }
        ensures value { IfOk result (IsItemOf items.now parts.now place) }
        ensures ahead { OnOk result (AreReadAhead items.now parts.now self.new.from self.new.items.items) }
    {
        if self.from <= place && place - self.from < self.items.len() {
            return Ok(self.items[place - self.from]);
        }
        self.read(items, parts, place)?;
        Ok(self.items[0])
    }

    // Reads the items of the parts from this place on.
    fn read(&mut self, items: &[T], parts: &[Part], from: usize) -> Result<(), AllocError>
        requires within { All (λ part. part.place < length items.now) parts.now }
        requires inside { from < length parts.now }
        ensures { OnOk result (
            (0 < length self.new.items.items) × (self.new.from ≡ from)
            × AreReadAhead items.now parts.now from self.new.items.items) }
    {
        self.from = from;
        self.items.clear();
        let end = parts.len().min(from.saturating_add(RUN));
        // The items of the parts up to this one are read.
        for place in from..end {
            let part = parts[place];
            self.items.push(items[part.place])?;
        }
        Ok(())
    }
}
