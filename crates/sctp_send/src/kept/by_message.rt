//! The outstanding entries message by message, in the order of their tickets: what is covered, and what is abandoned.

ghost use Rattle.std.specs.Prelude.{◌≡◌, ℕ, ◌<◌, ◌≤◌, true, false, map, length, IfSome, IfNone};
ghost use Rattle.std.specs.VecDeque.{deque_capacity};
ghost use Rattle.sctp_send.specs.OutstandingFields.{item_meaning};
ghost use Rattle.sctp_send.specs.PartsKept.{IsSameRoom, changed_at};
ghost use Rattle.sctp_send.specs.inner.Changes.{as_abandoned, all_abandoned};
ghost use Rattle.sctp_send.specs.inner.Counting.{IsCounted};
ghost use Rattle.sctp_send.specs.inner.Dues.{IsItemUntil};
ghost use Rattle.sctp_send.specs.inner.Wearing.{SaysSpent, NextSpentAnswer};
ghost use Rattle.sctp_send.specs.inner.Walks.{any_item, any_uncovered, is_item_uncovered};

use crate::kept::counts::{Counts, stand_one};
use crate::kept::entry::{Entry, State, unmarked};
use crate::kept::outstanding::Outstanding;
use crate::kept::stretches::forget_stretch;
use crate::kept::wishes::is_spent;
use std::collections::VecDeque;

impl Outstanding {
    /// Some entry of the message with this ticket is not covered.
    pub(crate) fn some_uncovered(&self, ticket: u64) -> bool
        ensures { (size : ℕ) → result ≡ any_uncovered ticket (map (item_meaning size) self.now.items) }
    {
        match self.uncovered_until(ticket) {
            Some(_) => true,
            None => false,
        }
    }

    /// The moment of the message with this ticket, where an entry of it stands above CUM that is not covered.
    pub(crate) fn uncovered_until(&self, ticket: u64) -> Option<Option<u64>>
        ensures some { (size : ℕ) → IfSome result (λ until. IsItemUntil ticket until (map (item_meaning size) self.now.items)) }
        ensures uncovered { (size : ℕ) → IfSome result (λ until. any_uncovered ticket (map (item_meaning size) self.now.items) ≡ true) }
        ensures none { (size : ℕ) → IfNone result (any_uncovered ticket (map (item_meaning size) self.now.items) ≡ false) }
    {
        let own = self.by_ticket.own(&self.entries, ticket);
        for at in 0..own.many {
            let entry = &self.entries[self.by_ticket.own_offset(own, at)];
            if !entry.covered {
                return Some(entry.message.until);
            }
        }
        None
    }

    /// The lowest ticket above `last` of a message an entry of which isn't abandoned and was retransmitted as often as the limit allows.
    pub(crate) fn next_spent(&self, last: u64, partial: bool) -> Option<u64>
        ensures { NextSpentAnswer partial last self.now.items result }
    {
        let mut heads = self.by_ticket.heads_above(&self.entries, last);
        for _passed in heads.front + heads.rank..self.entries.len() {
            let step = self.by_ticket.lower(&self.entries, heads);
            let entry = &self.entries[step.offset];
            if is_at_limit(entry, partial) {
                return Some(entry.message.ticket);
            }
            heads = step.heads;
        }
        None
    }

    /// All entries are of messages with tickets behind this one.
    pub(crate) fn is_past(&self, last: u64) -> bool
        ensures { (size t : ℕ) → result ≡ true → t ≤ last → any_item t (map (item_meaning size) self.now.items) ≡ false }
    {
        let heads = self.by_ticket.heads_above(&self.entries, last);
        heads.front + heads.rank == 0
    }

    /// Each entry of the message with this ticket is abandoned.
    pub(crate) fn abandon(&mut self, ticket: u64)
        ensures items { self.new.items ≡ all_abandoned ticket self.old.items }
        ensures kept { IsSameRoom self.old self.new }
    {
        let own = self.by_ticket.own(&self.entries, ticket);
        for rank in 0..own.many {
            let at = self.by_ticket.own_offset(own, rank);
            forget_stretch(&mut self.stretches, self.by_ticket.index(at));
            abandon_one(&mut self.entries, &mut self.counts, self.size, at, ticket);
        }
    }
}

/// The entry isn't abandoned, and was retransmitted as often as its message's limit allows.
fn is_at_limit(entry: &Entry, partial: bool) -> bool
    ensures { SaysSpent partial entry.now result }
{
    !entry.abandoned && is_spent(entry, partial)
}

/// An entry of the message with this ticket is abandoned; its mark ends.
fn abandon_one(
    entries: &mut VecDeque<Entry>,
    counts: &mut Counts,
    size: u16,
    at: usize,
    ticket: u64,
)
    requires within { at < length entries.old.items }
    requires counted { IsCounted size entries.old.items counts.old }
    ensures items { entries.new.items ≡ changed_at (as_abandoned ticket) at entries.old.items }
    ensures counted { IsCounted size entries.new.items counts.new }
    ensures header { counts.new.header ≡ counts.old.header }
    ensures capacity { deque_capacity entries.new ≡ deque_capacity entries.old }
{
    let entry = &entries[at];
    if entry.message.ticket == ticket {
        let state = State {
            standing: unmarked(entry.standing),
            covered: entry.covered,
            abandoned: true,
            repeats: entry.repeats,
        };
        stand_one(entries, counts, size, at, state);
    }
}
