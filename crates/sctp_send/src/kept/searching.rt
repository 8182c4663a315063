//! Of the entries above CUM, the next one to go out.

ghost use Rattle.std.specs.Prelude.{◌≡◌, ℕ, ◌<◌, ◌≤◌, Some, None, map, take, length, IfSome};
ghost use Rattle.sctp_send.specs.OutstandingFields.{item_meaning};
ghost use Rattle.sctp_send.specs.inner.Wishing.{first_offset, is_item_marked, is_item_unsent, is_item_wanted, some_pending};

use crate::kept::entry::Entry;
use crate::kept::outstanding::Outstanding;
use crate::kept::wishes::{is_first_sending, is_repeat};
use std::collections::VecDeque;

impl Outstanding {
    /// The first entry that waits to be repeated.
    pub(crate) fn first_marked(&mut self) -> Option<usize>
        ensures same { self.new ≡ self.old }
        ensures first { result ≡ first_offset is_item_marked (map (item_meaning self.old.size) self.old.items) }
        ensures within { IfSome result (λ at. at < length self.old.items) }
    {
        let at = first_from(&self.entries, self.counts.marked, true);
        self.counts.marked = at;
        if at < self.entries.len() {
            return Some(at);
        }
        None
    }

    /// The first entry that never went out, and that the peer may need.
    pub(crate) fn first_unsent(&mut self) -> Option<usize>
        ensures same { self.new ≡ self.old }
        ensures first { result ≡ first_offset is_item_unsent (map (item_meaning self.old.size) self.old.items) }
        ensures within { IfSome result (λ at. at < length self.old.items) }
    {
        let at = first_from(&self.entries, self.counts.unsent, false);
        self.counts.unsent = at;
        if at < self.entries.len() {
            return Some(at);
        }
        None
    }

    /// Some entry waits to be repeated, or is to go out for the first time. Mostly the cursors say that none does.
    #[inline(always)]
    pub(crate) fn has_pending(&self) -> bool
        ensures { result ≡ some_pending (map (item_meaning self.now.size) self.now.items) }
    {
        if self.is_all_out() {
            return false;
        }
        self.finds_pending()
    }

    /// `has_pending`, by a search from the cursors on. It is not inlined, so that the tests before it are small.
    #[inline(never)]
    fn finds_pending(&self) -> bool
        ensures { result ≡ some_pending (map (item_meaning self.now.size) self.now.items) }
    {
        if first_from(&self.entries, self.counts.marked, true) < self.entries.len() {
            return true;
        }
        first_from(&self.entries, self.counts.unsent, false) < self.entries.len()
    }
}

/// The offset of the first entry from one on that waits to be repeated, or else that never went out and that the peer may need; behind them all, if
/// there is none.
#[inline(always)]
fn first_from(entries: &VecDeque<Entry>, from: usize, again: bool) -> usize
    ensures within { result ≤ length entries.now.items }
    ensures none { (size : ℕ) → first_offset (is_item_wanted again) (take from (map (item_meaning size) entries.now.items)) ≡ None
        → first_offset (is_item_wanted again) (take result (map (item_meaning size) entries.now.items)) ≡ None }
    ensures found { (size : ℕ) → first_offset (is_item_wanted again) (take from (map (item_meaning size) entries.now.items)) ≡ None
        → result < length entries.now.items → Some result ≡ first_offset (is_item_wanted again) (map (item_meaning size) entries.now.items) }
{
    for at in from..entries.len() {
        if is_wanted(&entries[at], again) {
            return at;
        }
    }
    entries.len()
}

/// An entry waits to be repeated, or else never went out, and the peer may need it.
#[inline(always)]
fn is_wanted(entry: &Entry, again: bool) -> bool
    ensures { (size : ℕ) → result ≡ is_item_wanted again (item_meaning size entry.now) }
{
    if again {
        is_repeat(entry)
    } else {
        is_first_sending(entry)
    }
}
