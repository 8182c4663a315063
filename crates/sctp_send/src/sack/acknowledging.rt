//! Single entries are set acknowledged by a gap block (`covered`), or not any more, and the counts of all entries are kept (RFC 9260, 6.2.1).

ghost use Rattle.std.specs.Prelude.{◌≡◌, ◌+◌, ◌<◌, ◌≤◌, true, false, length};
ghost use Rattle.std.specs.VecDeque.{deque_capacity};
ghost use Rattle.sctp_send.specs.OutstandingFields.{item_meaning};
ghost use Rattle.sctp_send.specs.PartsKept.{changed_at};
ghost use Rattle.sctp_send.specs.inner.Changes.{as_covered, as_uncovered, told, told_where, is_between};
ghost use Rattle.sctp_send.specs.inner.Counting.{left, IsCounted};
ghost use Rattle.sctp_send.specs.inner.Stretching.{IsPlain};

use crate::kept::counts::Counts;
use crate::kept::entry::{Entry, unmarked};
use crate::kept::stretches::is_plain;
use crate::kept::wishes::bytes_in;
use std::collections::VecDeque;

impl Counts {
    /// Subtracts an entry that was sent, and is neither acknowledged nor abandoned nor marked for retransmission.
    fn leave_plain(&mut self, entry: &Entry, size: u16)
        requires some { 0 < size }
        requires plain { IsPlain false entry.now }
        ensures { self.new ≡ left (item_meaning size entry.now) self.old }
    {
        self.land(bytes_in(entry, size));
        self.unsettled = self.unsettled.wrapping_sub(1);
    }
}

/// Sets the entries from one offset up to another, one after the other, and keeps the counts.
#[inline(never)]
pub(crate) fn tell_entries(
    entries: &mut VecDeque<Entry>,
    counts: &mut Counts,
    size: u16,
    covered: bool,
    from: usize,
    to: usize,
)
    requires order { from ≤ to }
    requires within { to ≤ length entries.old.items }
    requires counted { IsCounted size entries.old.items counts.old }
    ensures items { entries.new.items ≡ told_where covered (is_between from to) 1 entries.old.items }
    ensures counted { IsCounted size entries.new.items counts.new }
    ensures header { counts.new.header ≡ counts.old.header }
    ensures capacity { deque_capacity entries.new ≡ deque_capacity entries.old }
{
    for at in from..to {
        tell_one(entries, counts, size, at, covered);
    }
}

/// Sets the entry at an offset acknowledged, so that it isn't retransmitted, or not acknowledged, and keeps the counts.
#[inline(always)]
pub(crate) fn tell_one(
    entries: &mut VecDeque<Entry>,
    counts: &mut Counts,
    size: u16,
    at: usize,
    covered: bool,
)
    requires within { at < length entries.old.items }
    requires counted { IsCounted size entries.old.items counts.old }
    ensures items { entries.new.items ≡ changed_at (told covered) at entries.old.items }
    ensures counted { IsCounted size entries.new.items counts.new }
    ensures header { counts.new.header ≡ counts.old.header }
    ensures capacity { deque_capacity entries.new ≡ deque_capacity entries.old }
{
    if covered {
        cover_one(entries, counts, size, at);
    } else {
        uncover_one(entries, counts, size, at);
    }
}

/// Sets the entry at an offset acknowledged, without its mark for retransmission, and subtracts it from the counts.
fn cover_one(entries: &mut VecDeque<Entry>, counts: &mut Counts, size: u16, at: usize)
    requires within { at < length entries.old.items }
    requires counted { IsCounted size entries.old.items counts.old }
    ensures items { entries.new.items ≡ changed_at as_covered at entries.old.items }
    ensures counted { IsCounted size entries.new.items counts.new }
    ensures header { counts.new.header ≡ counts.old.header }
    ensures capacity { deque_capacity entries.new ≡ deque_capacity entries.old }
{
    let entry = &mut entries[at];
    if is_plain(entry) && !entry.covered {
        counts.leave_plain(entry, size);
        entry.covered = true;
        return;
    }
    counts.leave(entry, size);
    entry.standing = unmarked(entry.standing);
    entry.covered = true;
}

/// Sets the entry at an offset not acknowledged, and adds it to the counts if it was acknowledged.
fn uncover_one(entries: &mut VecDeque<Entry>, counts: &mut Counts, size: u16, at: usize)
    requires within { at < length entries.old.items }
    requires counted { IsCounted size entries.old.items counts.old }
    ensures items { entries.new.items ≡ changed_at as_uncovered at entries.old.items }
    ensures counted { IsCounted size entries.new.items counts.new }
    ensures header { counts.new.header ≡ counts.old.header }
    ensures capacity { deque_capacity entries.new ≡ deque_capacity entries.old }
{
    let entry = &mut entries[at];
    if !entry.covered {
        return;
    }
    entry.covered = false;
    if is_plain(entry) {
        counts.enter_plain(entry, size);
        return;
    }
    counts.enter(entry, size);
    counts.lower(at, entry);
}
