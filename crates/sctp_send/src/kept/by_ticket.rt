//! The order of the outstanding entries by their tickets. The first entries, as many as rise by ticket, are in it themselves, and have no pairs.

ghost use Rattle.std.specs.Prelude.{◌≡◌, ℕ, ◌+◌, ◌<◌, ◌≤◌, ◌%◌, ◌^◌, ◌++◌, ◌∷◌, [], List, length};
ghost use Rattle.sctp_send.specs.inner.TicketOrder.{offset_at, IsOrderOf};
ghost use Rattle.sctp_send.specs.inner.Stretching.{index_at};

use sctp_sequence::{Pair, Pairs};
use std::alloc::Global;

/// A pair for each entry after those that rise by ticket: its message's ticket and its own index, modulo 2^64.
///
/// If tickets rise with the indexes, as under DATA, there are none.
#[derive(Drop)]
pub(crate) struct ByTicket {
    pub(crate) pairs: Pairs,
    // the index of the first entry, modulo 2^64; offsets are counted from there
    first: u64,
    // while there are no pairs: no entry has a higher ticket
    last: u64,
}

impl ByTicket {
    /// That of no entry.
    pub(crate) fn new(alloc: Global) -> ByTicket
        ensures { IsOrderOf [] result }
    {
        ByTicket {
            pairs: Pairs::new(alloc),
            first: 0,
            last: 0,
        }
    }

    /// The index of the entry at an offset, modulo 2^32.
    pub(crate) fn index(&self, offset: usize) -> u32
        ensures { result ≡ index_at self.now.first offset }
    {
        (self.first.wrapping_add(offset as u64) % 0x1_0000_0000) as u32
    }

    /// The offset of the entry whose pair has this rank.
    pub(crate) fn offset(&self, rank: usize) -> usize
        requires { rank < length self.now.pairs.items }
        ensures { result ≡ offset_at self.now.first self.now.pairs.items rank }
    {
        self.pairs.get(rank).second.wrapping_sub(self.first) as usize
    }

    /// An entry of this ticket is added after the others, at this offset. It gets a pair if its ticket is lower than one of theirs, or if one of them
    /// has a pair.
    #[inline(always)]
    pub(crate) fn push(&mut self, ticket: u64, offset: usize)
        requires room { length self.old.pairs.items < self.old.pairs.capacity }
        ensures order { (tickets : List ℕ) → offset ≡ length tickets → IsOrderOf tickets self.old → IsOrderOf (tickets ++ ticket ∷ []) self.new }
        ensures capacity { self.old.pairs.capacity ≤ self.new.pairs.capacity }
        ensures first { self.new.first ≡ self.old.first }
    {
        if self.pairs.len() == 0 && self.last <= ticket {
            self.last = ticket;
        } else {
            self.pair(ticket, offset);
        }
    }

    /// An entry of this ticket is added after the others, at this offset, and gets a pair.
    #[inline(never)]
    fn pair(&mut self, ticket: u64, offset: usize)
        requires room { length self.old.pairs.items < self.old.pairs.capacity }
        ensures order { (tickets : List ℕ) → offset ≡ length tickets → IsOrderOf tickets self.old → IsOrderOf (tickets ++ ticket ∷ []) self.new }
        ensures capacity { self.old.pairs.capacity ≤ self.new.pairs.capacity }
        ensures first { self.new.first ≡ self.old.first }
    {
        self.pairs.insert_reserved(Pair {
            first: ticket,
            second: self.first.wrapping_add(offset as u64),
        });
    }

    /// The first entry is removed, which is of this ticket; so many are left.
    #[inline(always)]
    pub(crate) fn pop_front(&mut self, ticket: u64, left: usize)
        ensures order { (tickets : List ℕ) → left ≡ length tickets → IsOrderOf (ticket ∷ tickets) self.old → IsOrderOf tickets self.new }
        ensures capacity { self.new.pairs.capacity ≡ self.old.pairs.capacity }
        ensures first { self.new.first ≡ (self.old.first + 1) % 2 ^ 64 }
    {
        let index = self.first;
        self.first = index.wrapping_add(1);
        if self.pairs.len() > left {
            let _gone = self.pairs.remove(Pair {
                first: ticket,
                second: index,
            });
        }
    }

    /// All entries are removed.
    pub(crate) fn clear(&mut self)
        ensures order { (tickets : List ℕ) → IsOrderOf tickets self.old → IsOrderOf [] self.new }
        ensures capacity { self.new.pairs.capacity ≡ self.old.pairs.capacity }
    {
        self.pairs.clear();
        self.last = 0;
    }
}
