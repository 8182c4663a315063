//! Walks over the outstanding entries in the order of their tickets: those without a pair by their offsets, the others by the ranks of their pairs.

ghost use Rattle.std.specs.Prelude.{◌≡◌, ℕ, ◌+◌, ◌<◌, ◌≤◌, ◌^◌, length, slice_get, Some, true, false};
ghost use Rattle.sctp_send.specs.inner.TicketOrder.{tickets_of, AreRisingTo, IsOrderOf};
ghost use Rattle.sctp_send.specs.inner.TicketHeads.{AreHeads, AreAbove, IsFrontLower, IsLower, IsRankTo, IsOwn, offset_in};

use crate::kept::by_ticket::ByTicket;
use crate::kept::entry::Entry;
use std::collections::VecDeque;

/// Where a walk is: the offset of the next entry without a pair, and the rank of the next pair.
#[derive(Clone, Copy)]
pub(crate) struct Heads {
    pub(crate) front: usize,
    pub(crate) rank: usize,
}

/// An entry on a walk, by its offset, and where the walk is after it.
#[derive(Clone, Copy)]
pub(crate) struct Step {
    pub(crate) offset: usize,
    pub(crate) heads: Heads,
}

/// The entries of a message: `many` of them, the first `front` of which have no pairs and are side by side from the offset `from` on; the pairs of the
/// others are side by side from a rank on.
#[derive(Clone, Copy)]
pub(crate) struct OwnEntries {
    from: usize,
    front: usize,
    rank: usize,
    pub(crate) many: usize,
}

impl ByTicket {
    /// A walk over the entries of tickets above this one is there when it begins.
    pub(crate) fn heads_above(&self, entries: &VecDeque<Entry>, last: u64) -> Heads
        requires { IsOrderOf (tickets_of entries.now.items) self.now }
        ensures heads { AreHeads (tickets_of entries.now.items) self.now.pairs.items result }
        ensures above { AreAbove last (tickets_of entries.now.items) self.now.first self.now.pairs.items result }
    {
        let unpaired = entries.len() - self.pairs.len();
        Heads {
            front: front_upto(entries, unpaired, last),
            rank: self.pairs.rank_above(last),
        }
    }

    /// The entry of the lower ticket of the two that are next on a walk.
    pub(crate) fn lower(&self, entries: &VecDeque<Entry>, heads: Heads) -> Step
        requires order { IsOrderOf (tickets_of entries.now.items) self.now }
        requires heads { AreHeads (tickets_of entries.now.items) self.now.pairs.items heads }
        requires some { heads.front + heads.rank < length entries.now.items }
        ensures heads { AreHeads (tickets_of entries.now.items) self.now.pairs.items result.heads }
        ensures lower { IsLower (tickets_of entries.now.items) self.now.first self.now.pairs.items heads result }
    {
        if self.is_front_lower(entries, heads) {
            return Step {
                offset: heads.front,
                heads: Heads {
                    front: heads.front + 1,
                    rank: heads.rank,
                },
            };
        }
        Step {
            offset: self.offset(heads.rank),
            heads: Heads {
                front: heads.front,
                rank: heads.rank + 1,
            },
        }
    }

    /// Of the two entries that are next on a walk the one without a pair has the lower ticket, or the same one; or it is the only one.
    fn is_front_lower(&self, entries: &VecDeque<Entry>, heads: Heads) -> bool
        requires heads { AreHeads (tickets_of entries.now.items) self.now.pairs.items heads }
        ensures { IsFrontLower (tickets_of entries.now.items) self.now.pairs.items heads result }
    {
        let unpaired = entries.len() - self.pairs.len();
        heads.front < unpaired
            && (heads.rank >= self.pairs.len()
                || ticket_at(entries, heads.front) <= self.pairs.get(heads.rank).first)
    }

    /// The entries of the message with this ticket.
    pub(crate) fn own(&self, entries: &VecDeque<Entry>, ticket: u64) -> OwnEntries
        requires { IsOrderOf (tickets_of entries.now.items) self.now }
        ensures { IsOwn ticket (tickets_of entries.now.items) self.now.first self.now.pairs.items result }
    {
        let unpaired = entries.len() - self.pairs.len();
        let from = front_from(entries, unpaired, ticket);
        let front = many_from(entries, from, unpaired, ticket);
        if self.pairs.len() == 0 {
            return OwnEntries {
                from,
                front,
                rank: 0,
                many: front,
            };
        }
        let rank = self.pairs.rank_from(ticket);
        let paired = self.pairs.rank_above(ticket).saturating_sub(rank);
        OwnEntries {
            from,
            front,
            rank,
            many: front + paired,
        }
    }

    /// The offset of one of a message's entries.
    pub(crate) fn own_offset(&self, own: OwnEntries, at: usize) -> usize
        requires within { at < own.many }
        requires ranks { own.rank + own.many ≤ own.front + length self.now.pairs.items }
        requires small { own.from + own.front + length self.now.pairs.items < 2 ^ 64 }
        ensures { result ≡ offset_in self.now.first self.now.pairs.items own at }
    {
        if at < own.front {
            own.from + at
        } else {
            self.offset(own.rank + (at - own.front))
        }
    }
}

/// The ticket of the entry at an offset.
#[inline(always)]
fn ticket_at(entries: &VecDeque<Entry>, at: usize) -> u64
    requires { at < length entries.now.items }
    ensures { slice_get (tickets_of entries.now.items) at ≡ Some result }
{
    let entry = &entries[at];
    entry.message.ticket
}

/// How many of the first entries, so many of which rise by ticket, have a lower ticket than this. Two places are looked at before others: mostly none is
/// lower, or tickets rise by one from entry to entry.
fn front_from(entries: &VecDeque<Entry>, many: usize, ticket: u64) -> usize
    requires within { many ≤ length entries.now.items }
    requires rising { AreRisingTo many (tickets_of entries.now.items) }
    ensures { IsRankTo ticket many (tickets_of entries.now.items) result }
{
    if many == 0 {
        return 0;
    }
    let first = ticket_at(entries, 0);
    if ticket <= first {
        return 0;
    }
    let guess = (ticket - first) as usize;
    if begins_at(entries, many, guess, ticket) {
        return guess;
    }
    search(entries, 0, many, ticket - 1)
}

/// The entries of a ticket begin at an offset, and one of a lower ticket is before them.
fn begins_at(entries: &VecDeque<Entry>, many: usize, at: usize, ticket: u64) -> bool
    requires behind { 0 < at }
    requires within { many ≤ length entries.now.items }
    requires rising { AreRisingTo many (tickets_of entries.now.items) }
    ensures { result ≡ true → IsRankTo ticket many (tickets_of entries.now.items) at }
{
    at < many && ticket_at(entries, at) == ticket && ticket_at(entries, at - 1) < ticket
}

/// How many of the first entries, so many of which rise by ticket, have this ticket, if so many are lower. Two neighbours are looked at before others,
/// since mostly a message has one entry.
fn many_from(entries: &VecDeque<Entry>, from: usize, many: usize, ticket: u64) -> usize
    requires within { many ≤ length entries.now.items }
    requires rising { AreRisingTo many (tickets_of entries.now.items) }
    requires lower { IsRankTo ticket many (tickets_of entries.now.items) from }
    ensures { IsRankTo (ticket + 1) many (tickets_of entries.now.items) (from + result) }
{
    if from >= many || ticket < ticket_at(entries, from) {
        return 0;
    }
    if many - from < 2 || ticket < ticket_at(entries, from + 1) {
        return 1;
    }
    search(entries, from, many, ticket) - from
}

/// How many of the first entries, so many of which rise by ticket, have this ticket or a lower one. The first one is looked at before others, since
/// mostly none has.
fn front_upto(entries: &VecDeque<Entry>, many: usize, last: u64) -> usize
    requires within { many ≤ length entries.now.items }
    requires rising { AreRisingTo many (tickets_of entries.now.items) }
    ensures { IsRankTo (last + 1) many (tickets_of entries.now.items) result }
{
    if many == 0 || last < ticket_at(entries, 0) {
        return 0;
    }
    search(entries, 0, many, last)
}

/// The same by binary search, where those before an offset have such a ticket. A function of its own, so that the tests before it stay small.
#[inline(never)]
fn search(entries: &VecDeque<Entry>, from: usize, many: usize, last: u64) -> usize
    requires order { from ≤ many }
    requires within { many ≤ length entries.now.items }
    requires rising { AreRisingTo many (tickets_of entries.now.items) }
    requires lower { (n t : ℕ) → n < from → slice_get (tickets_of entries.now.items) n ≡ Some t → t ≤ last }
    ensures rank { IsRankTo (last + 1) many (tickets_of entries.now.items) result }
    ensures further { from ≤ result }
{
    let mut low = from;
    let mut high = many;
    while low < high {
        let middle = low + (high - low) / 2;
        if ticket_at(entries, middle) <= last {
            low = middle + 1;
        } else {
            high = middle;
        }
    }
    low
}
