//! What is counted of the entries above CUM: each count follows an entry that is added, removed or changed.

ghost use Rattle.std.specs.Prelude.{◌≡◌, ℕ, ◌+◌, ◌-◌, ◌%◌, ◌^◌, ◌<◌, ◌≤◌, ◌∷◌, List, min, if◌then◌else◌, map, drop, length, slice_set};
ghost use Rattle.sctp_model.specs.end.Control.{whole};
ghost use Rattle.sctp_send.specs.SenderKept.{Item};
ghost use Rattle.sctp_send.specs.OutstandingFields.{item_meaning};
ghost use Rattle.std.specs.VecDeque.{deque_capacity};
ghost use Rattle.sctp_send.specs.PartsKept.{changed_at};
ghost use Rattle.sctp_send.specs.inner.Changes.{stood};
ghost use Rattle.sctp_send.specs.inner.Counting.{entered, left, lowered, furthest, reached, IsCounted};
ghost use Rattle.sctp_send.specs.inner.Walks.{abandoned_items};
ghost use Rattle.sctp_send.specs.inner.Newcomers.{one_if};

use crate::kept::entry::{Entry, Standing, State};
use crate::kept::wishes::{bytes_in, is_first_sending, is_repeat, is_unsettled, weight, whole};
use std::collections::VecDeque;

/// Counts of entries, by their offsets above CUM. Sums are modulo 2^64.
#[derive(Clone, Copy)]
pub(crate) struct Counts {
    /// The bytes of a chunk before its data; these don't change.
    pub(crate) header: u16,
    /// Before this offset nothing waits to be repeated.
    pub(crate) marked: usize,
    /// Before this offset nothing is to go out for the first time.
    pub(crate) unsent: usize,
    /// The bytes of data in flight.
    pub(crate) flight: u64,
    /// The bytes of the chunks that are in flight.
    pub(crate) chunks: u64,
    /// How many entries went out, and are neither covered nor abandoned.
    pub(crate) unsettled: u64,
    /// So many entries in front are abandoned.
    pub(crate) front: usize,
}

impl Counts {
    /// Those of no entry, where so many bytes of a chunk are before its data.
    pub(crate) fn none(header: u16) -> Counts
        ensures { result ≡ record { header = header; marked = 0; unsent = 0; flight = 0; chunks = 0; unsettled = 0; front = 0 } }
    {
        Counts {
            header,
            marked: 0,
            unsent: 0,
            flight: 0,
            chunks: 0,
            unsettled: 0,
            front: 0,
        }
    }

    /// A chunk with so many bytes of data is in flight.
    #[inline(always)]
    pub(crate) fn fly(&mut self, bytes: u32)
        requires { bytes ≤ 65535 }
        ensures { self.new ≡ record self.old { flight = (self.old.flight + bytes) % 2 ^ 64; chunks = (self.old.chunks + whole self.old.header bytes) % 2 ^ 64 } }
    {
        let chunk = whole(self.header, bytes);
        self.flight = self.flight.wrapping_add(u64::from(bytes));
        self.chunks = self.chunks.wrapping_add(u64::from(chunk));
    }

    /// It is in flight no more.
    #[inline(always)]
    pub(crate) fn land(&mut self, bytes: u32)
        requires { bytes ≤ 65535 }
        ensures { self.new ≡ record self.old { flight = (self.old.flight + (2 ^ 64 - bytes)) % 2 ^ 64; chunks = (self.old.chunks + (2 ^ 64 - whole self.old.header bytes)) % 2 ^ 64 } }
    {
        let chunk = whole(self.header, bytes);
        self.flight = self.flight.wrapping_sub(u64::from(bytes));
        self.chunks = self.chunks.wrapping_sub(u64::from(chunk));
    }

    /// One entry more counts.
    #[inline(always)]
    pub(crate) fn enter(&mut self, entry: &Entry, size: u16)
        requires { 0 < size }
        ensures { self.new ≡ entered (item_meaning size entry.now) self.old }
    {
        self.fly(weight(entry, size));
        self.unsettled = self.unsettled.wrapping_add(one_if(is_unsettled(entry)));
    }

    /// An entry counts no more.
    pub(crate) fn leave(&mut self, entry: &Entry, size: u16)
        requires { 0 < size }
        ensures { self.new ≡ left (item_meaning size entry.now) self.old }
    {
        self.land(weight(entry, size));
        self.unsettled = self.unsettled.wrapping_sub(one_if(is_unsettled(entry)));
    }

    /// An entry comes at an offset, behind all others, and counts: it may have to go out; where it hasn't, a cursor there passes it, and where it
    /// is abandoned, the count in front does.
    #[inline(always)]
    pub(crate) fn add(&mut self, at: usize, entry: &Entry, size: u16)
        requires some { 0 < size }
        requires below { at < 0xffff_ffff_ffff_ffff }
        ensures { self.new ≡ reached at (item_meaning size entry.now) (entered (item_meaning size entry.now) self.old) }
    {
        if entry.standing != Standing::Sent || entry.covered || entry.abandoned {
            self.enter(entry, size);
            self.marked = furthest(self.marked, at, is_repeat(entry));
            self.unsent = furthest(self.unsent, at, is_first_sending(entry));
            self.front = furthest(self.front, at, !entry.abandoned);
            return;
        }
        self.fly(bytes_in(entry, size));
        self.unsettled = self.unsettled.wrapping_add(1);
        if self.marked == at {
            self.marked = at + 1;
        }
        if self.unsent == at {
            self.unsent = at + 1;
        }
    }

    /// What stands at an offset may have to go out.
    pub(crate) fn lower(&mut self, at: usize, entry: &Entry)
        ensures { (size : ℕ) → self.new ≡ lowered at (item_meaning size entry.now) self.old }
    {
        self.marked = lowest(self.marked, at, is_repeat(entry));
        self.unsent = lowest(self.unsent, at, is_first_sending(entry));
    }
}

/// A cursor; or one past an offset that it has reached, where that doesn't count.
pub(crate) fn furthest(cursor: usize, at: usize, counts: bool) -> usize
    requires { at < 0xffff_ffff_ffff_ffff }
    ensures { result ≡ furthest at counts cursor }
{
    if cursor == at && !counts {
        at + 1
    } else {
        cursor
    }
}

/// A cursor; or an offset below it, where that counts.
fn lowest(cursor: usize, at: usize, counts: bool) -> usize
    ensures { result ≡ (if counts then min cursor at else cursor) }
{
    if counts { cursor.min(at) } else { cursor }
}

/// One, where an entry counts.
fn one_if(counts: bool) -> u64
    ensures { result ≡ one_if counts }
{
    if counts { 1 } else { 0 }
}

/// What became of the entry at an offset; its ticket stays.
pub(crate) fn stand_one(
    entries: &mut VecDeque<Entry>,
    counts: &mut Counts,
    size: u16,
    at: usize,
    state: State,
)
    requires within { at < length entries.old.items }
    requires counted { IsCounted size entries.old.items counts.old }
    ensures items { entries.new.items ≡ changed_at (stood state) at entries.old.items }
    ensures counted { IsCounted size entries.new.items counts.new }
    ensures header { counts.new.header ≡ counts.old.header }
    ensures capacity { deque_capacity entries.new ≡ deque_capacity entries.old }
{
    let entry = &mut entries[at];
    counts.leave(entry, size);
    entry.standing = state.standing;
    entry.covered = state.covered;
    entry.abandoned = state.abandoned;
    entry.repeats = state.repeats;
    counts.enter(entry, size);
    counts.lower(at, entry);
    counts.front = front_after(counts.front, at, state.abandoned, entries);
}

/// How many of the first entries are abandoned, where so many were before the one at an offset changed to one that is, or isn't.
fn front_after(front: usize, at: usize, abandoned: bool, entries: &VecDeque<Entry>) -> usize
    requires { front ≤ length entries.now.items }
    ensures { (size : ℕ) (before : List Item) (x : Item) → front ≡ abandoned_items before → at < length before → map (item_meaning size) entries.now.items ≡ slice_set before at x
        → x.abandoned ≡ abandoned → result ≡ abandoned_items (map (item_meaning size) entries.now.items) }
{
    if !abandoned {
        return front.min(at);
    }
    if at != front {
        return front;
    }
    abandoned_from(front, entries)
}

/// How many of the first entries are abandoned, where so many were before the first of all went.
pub(crate) fn front_behind(front: usize, entries: &VecDeque<Entry>) -> usize
    ensures { (size : ℕ) (x : Item) → front ≡ abandoned_items (x ∷ map (item_meaning size) entries.now.items)
        → result ≡ abandoned_items (map (item_meaning size) entries.now.items) }
{
    if front > 0 {
        return front - 1;
    }
    let Some(entry) = entries.front() else {
        return 0;
    };
    if !entry.abandoned {
        return 0;
    }
    abandoned_from(0, entries)
}

/// The first offset, from one on, whose entry isn't abandoned; or the end.
#[inline(never)]
fn abandoned_from(from: usize, entries: &VecDeque<Entry>) -> usize
    requires { from ≤ length entries.now.items }
    ensures { (size : ℕ) → result ≡ from + abandoned_items (drop from (map (item_meaning size) entries.now.items)) }
{
    for at in from..entries.len() {
        let abandoned = entries[at].abandoned;
        if !abandoned {
            return at;
        }
    }
    entries.len()
}
