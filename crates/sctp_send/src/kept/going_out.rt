//! An entry goes out: how it stands then, what is counted of it, and how much is in flight (RFC 9260, 6.1 and 6.3.3).

ghost use Rattle.std.specs.Prelude.{◌≡◌, ◌*◌, ◌%◌, ◌^◌, ◌<◌, ◌≤◌, map, length};
ghost use Rattle.std.specs.VecDeque.{deque_capacity};
ghost use Rattle.sctp_send.specs.OutstandingFields.{item_meaning, was_sent};
ghost use Rattle.sctp_send.specs.PartsKept.{changed_at, changed};
ghost use Rattle.sctp_send.specs.inner.Counting.{IsCounted};
ghost use Rattle.sctp_send.specs.inner.Newcomers.{repeats_after};
ghost use Rattle.sctp_send.specs.inner.Stocking.{went_out};
ghost use Rattle.sctp_send.specs.inner.Wishing.{item_chunks, item_flight};

use crate::kept::counts::{Counts, furthest, stand_one};
use crate::kept::entry::{Entry, Standing, State};
use crate::kept::outstanding::Outstanding;
use crate::kept::stretches::forget_stretch;
use crate::kept::wishes::is_first_sending;
use std::collections::VecDeque;

impl Outstanding {
    /// How many bytes of data are in flight, modulo 2^64.
    pub(crate) fn flight(&self) -> u64
        ensures flight { result ≡ item_flight (map (item_meaning self.now.size) self.now.items) % 2 ^ 64 }
        ensures bound { item_flight (map (item_meaning self.now.size) self.now.items) ≤ length self.now.items * 65535 }
    {
        self.counts.flight
    }

    /// How many bytes the chunks have that are in flight, modulo 2^64.
    pub(crate) fn chunk_flight(&self) -> u64
        ensures flight { result ≡ item_chunks self.now.header (map (item_meaning self.now.size) self.now.items) % 2 ^ 64 }
        ensures bound { item_chunks self.now.header (map (item_meaning self.now.size) self.now.items) ≤ length self.now.items * 131072 }
    {
        self.counts.chunks
    }

    /// The entry at an offset goes out.
    #[inline(always)]
    pub(crate) fn send(&mut self, at: usize)
        requires { at < length self.old.items }
        ensures { self.new ≡ changed went_out at self.old }
    {
        forget_stretch(&mut self.stretches, self.by_ticket.index(at));
        send_one(&mut self.entries, &mut self.counts, self.size, at);
    }
}

/// An entry goes out. The first time it only enters the counts.
#[inline(always)]
fn send_one(entries: &mut VecDeque<Entry>, counts: &mut Counts, size: u16, at: usize)
    requires within { at < length entries.old.items }
    requires counted { IsCounted size entries.old.items counts.old }
    ensures items { entries.new.items ≡ changed_at went_out at entries.old.items }
    ensures counted { IsCounted size entries.new.items counts.new }
    ensures header { counts.new.header ≡ counts.old.header }
    ensures capacity { deque_capacity entries.new ≡ deque_capacity entries.old }
{
    if !is_first_sending(&entries[at]) {
        send_again(entries, counts, size, at);
        return;
    }
    let entry = &mut entries[at];
    entry.standing = Standing::Sent;
    counts.enter_plain(entry, size);
    counts.unsent = furthest(counts.unsent, at, false);
}

/// An entry goes out that did so before, or that the peer doesn't need.
#[inline(never)]
fn send_again(entries: &mut VecDeque<Entry>, counts: &mut Counts, size: u16, at: usize)
    requires within { at < length entries.old.items }
    requires counted { IsCounted size entries.old.items counts.old }
    ensures items { entries.new.items ≡ changed_at went_out at entries.old.items }
    ensures counted { IsCounted size entries.new.items counts.new }
    ensures header { counts.new.header ≡ counts.old.header }
    ensures capacity { deque_capacity entries.new ≡ deque_capacity entries.old }
{
    let entry = &entries[at];
    let state = State {
        standing: Standing::Sent,
        covered: entry.covered,
        abandoned: entry.abandoned,
        repeats: repeats_after(entry),
    };
    stand_one(entries, counts, size, at, state);
}

/// How often an entry was retransmitted, once it goes out; 65,535 at most.
fn repeats_after(entry: &Entry) -> u16
    ensures { result ≡ repeats_after (was_sent entry.now.standing) entry.now.repeats }
{
    match entry.standing {
        Standing::Unsent => entry.repeats,
        Standing::Sent | Standing::Marked => entry.repeats.saturating_add(1),
    }
}
