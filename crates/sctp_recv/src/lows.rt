//! For each stream a lower bound of the indexes of its unordered chunks: by it a FORWARD-TSN finds the streams from which it discards something.
//! Under DATA only: an I-FORWARD-TSN names each stream of which it discards unordered messages, whose numbers it skips.
//!
//! A bound is lowered before a part of an unordered message is kept; after a FORWARD-TSN it is set, on the streams to which that went, to the
//! lowest index that stays. To note a part compares two numbers, unless it is below all that were noted on its stream: then it costs the height of the tree
//! (`places.rt`), and it never allocates. If messages were completed since their parts were noted, the first FORWARD-TSN past the bound
//! visits the stream in vain.

ghost use Rattle.std.specs.Prelude.{◌≡◌, ◌<◌, ◌≤◌, ℕ, IfOk};
ghost use Rattle.std.specs.List.{Contains};
ghost use Rattle.sctp_recv.specs.Lows.{IsMarked};

use crate::places::{Lows, gather, put};
use sctp_values::NoMemory;
use std::alloc::Global;

impl Lows {
    /// The bounds of `count` streams on which nothing was received.
    ///
    /// # Errors
    /// Allocation failed.
    pub(crate) fn new(alloc: Global, count: u16) -> Result<Lows, NoMemory>
        ensures { IfOk result (λ lows. lows.count ≡ count) }
    {
        let size = usize::from(count) * 2;
        let mut places = Vec::with_capacity(alloc, size).map_err(|_| NoMemory)?;
        for _ in 0..size {
            places.push(u64::MAX).map_err(|_| NoMemory)?;
        }
        Ok(Lows { count, places })
    }

    /// Lowers the bound of a stream for a chunk with this index.
    pub(crate) fn lower(&mut self, stream: u16, index: u64)
        ensures count { self.new.count ≡ self.old.count }
        ensures others { (s i : ℕ) → IsMarked self.old s i → IsMarked self.new s i }
        ensures marked { stream < self.old.count → IsMarked self.new stream index }
    {
        let place = usize::from(self.count) + usize::from(stream);
        if place < self.places.len() && index < self.places[place] {
            put(&mut self.places, place, index);
        }
    }

    /// Sets the bound of a stream: none of its chunks has an index below this one.
    pub(crate) fn set(&mut self, stream: u16, low: u64)
        ensures count { self.new.count ≡ self.old.count }
        ensures marked { (s i : ℕ) → IsMarked self.old s i → (s ≡ stream → low ≤ i) → IsMarked self.new s i }
    {
        let place = usize::from(self.count) + usize::from(stream);
        put(&mut self.places, place, low);
    }

    /// The streams on which a chunk may be kept with an index up to this one.
    ///
    /// # Errors
    /// Allocation failed.
    pub(crate) fn upto(&self, alloc: Global, index: u64) -> Result<Vec<u16>, NoMemory>
        ensures { IfOk result (λ streams. (s : ℕ) → IsMarked self.now s index → Contains streams.items s) }
    {
        let mut streams = Vec::new(alloc);
        gather(&self.places, self.count, 1, index, &mut streams)?;
        Ok(streams)
    }
}
