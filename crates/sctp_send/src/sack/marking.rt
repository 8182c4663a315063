//! Entries marked for retransmission (RFC 9260, 6.3.3 and 7.2.4), unless they were retransmitted as often as their messages' limits allow
//! (RFC 7496, 3.1).

ghost use Rattle.std.specs.Prelude.{◌≡◌, ℕ, ◌<◌, ◌-◌, length};
ghost use Rattle.sctp_send.specs.PartsKept.{IsSameRoom, changed};
ghost use Rattle.sctp_send.specs.inner.Marking.{IsCapped, IsCappedAt, AreCapped, is_to_mark, timed_if, all_timed};
ghost use Rattle.sctp_send.specs.inner.Testing.{index_of, passes_between};

use crate::index_test::IndexTest;
use crate::kept::entry::{Entry, Standing, State};
use crate::kept::outstanding::Outstanding;
use crate::kept::wishes::is_spent;

/// Marks each entry at an offset from `from` on, below `to`, whose index passes, that was sent, is neither acknowledged nor abandoned, and may be
/// retransmitted.
pub(crate) fn mark_between<T: IndexTest>(
    outstanding: &mut Outstanding,
    partial: bool,
    cum: u64,
    from: usize,
    to: usize,
    test: &T,
)
    ensures items { (rs : ℕ → ℕ) → AreCapped rs 0 outstanding.old.items → outstanding.new.items ≡ all_timed partial rs (passes_between (T.Says test.now) cum from to) outstanding.old.items }
    ensures kept { IsSameRoom outstanding.old outstanding.new }
{
    let last = to.min(outstanding.len());
    let first = from.min(last);
    for at in first..last {
        mark_one(outstanding, partial, cum, at, test);
    }
}

/// Marks an entry whose index passes, if it was sent, is neither acknowledged nor abandoned, and may be retransmitted.
fn mark_one<T: IndexTest>(
    outstanding: &mut Outstanding,
    partial: bool,
    cum: u64,
    at: usize,
    test: &T,
)
    requires { at < length outstanding.old.items }
    ensures items { (r : ℕ) → IsCappedAt r at outstanding.old.items → outstanding.new ≡ changed (timed_if (T.Says test.now (index_of cum at)) partial r) at outstanding.old }
    ensures long { length outstanding.new.items ≡ length outstanding.old.items }
    ensures kept { IsSameRoom outstanding.old outstanding.new }
{
    let entry = outstanding.get(at);
    if !is_to_mark(entry, partial) {
        return;
    }
    let state = State {
        standing: Standing::Marked,
        covered: entry.covered,
        abandoned: entry.abandoned,
        repeats: entry.repeats,
    };
    if test.passes(index_at(cum, at)) {
        outstanding.stand(at, state);
    }
}

/// The entry was sent and isn't marked, is neither acknowledged nor abandoned, and may be retransmitted.
fn is_to_mark(entry: &Entry, partial: bool) -> bool
    ensures { (r : ℕ) → IsCapped r entry.now → result ≡ is_to_mark partial r entry.now }
{
    match entry.standing {
        Standing::Sent => !entry.covered && !entry.abandoned && !is_spent(entry, partial),
        Standing::Unsent | Standing::Marked => false,
    }
}

/// The offset of an index, 0 for one up to that of the first entry.
pub(crate) fn offset_of(cum: u64, index: u64) -> usize
    ensures { result ≡ index - cum - 1 }
{
    index.saturating_sub(cum).saturating_sub(1) as usize
}

/// The index at an offset above CUM.
pub(crate) fn index_at(cum: u64, at: usize) -> u64
    ensures { result ≡ index_of cum at }
{
    cum.wrapping_add(at as u64).wrapping_add(1)
}
