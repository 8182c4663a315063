//! A SACK's change of runs of entries: they are set acknowledged by gap blocks (`covered`), or not any more, stretch by stretch or one by one
//! (RFC 9260, 6.2.1).

ghost use Rattle.std.specs.Prelude.{◌≡◌, ◌+◌, ◌-◌, ◌<◌, ◌≤◌, ◌%◌, true, false, length};
ghost use Rattle.sctp_send.specs.PartsKept.{changed};
ghost use Rattle.sctp_send.specs.inner.Changes.{told, told_where, is_between};
ghost use Rattle.sctp_send.specs.inner.Stretching.{index_at, told_run};

use crate::kept::by_ticket::ByTicket;
use crate::kept::outstanding::Outstanding;
use crate::kept::stretches::{
    MOST_KNOWN, STRETCH, Stretch, UNKNOWN, look_at_stretch, put_stretch, stretch_of, turn_stretch,
};
use crate::sack::acknowledging::{tell_entries, tell_one};

impl Outstanding {
    /// Sets the entries after `from`, up to `to`, acknowledged, so that they aren't retransmitted, or not acknowledged. A known stretch costs
    /// its flags alone, a whole one that isn't known a look at its entries first, any other entry the update of all counts.
    #[inline(always)]
    pub(crate) fn tell_run(&mut self, covered: bool, from: usize, to: usize)
        requires order { from ≤ to }
        requires within { to ≤ length self.old.items }
        ensures { self.new ≡ record self.old { items = told_where covered (is_between from to) 1 self.old.items } }
    {
        if from >= to {
            return;
        }
        if to - from < STRETCH {
            self.tell_each(covered, from, to);
            return;
        }
        self.tell_long(covered, from, to);
    }

    /// `tell_run` for a run in which a whole stretch may lie. It is not inlined, so that the code for the short runs of most SACKs is small.
    #[inline(never)]
    fn tell_long(&mut self, covered: bool, from: usize, to: usize)
        requires order { from ≤ to }
        requires within { to ≤ length self.old.items }
        ensures { self.new ≡ record self.old { items = told_where covered (is_between from to) 1 self.old.items } }
    {
        let mut at = from;
        while at < to {
            at = self.tell_on(covered, at, to);
        }
    }

    /// `tell_run` for a run that is too short for a stretch: one entry after the other.
    #[inline(always)]
    fn tell_each(&mut self, covered: bool, from: usize, to: usize)
        requires order { from ≤ to }
        requires within { to ≤ length self.old.items }
        ensures { self.new ≡ record self.old { items = told_where covered (is_between from to) 1 self.old.items } }
    {
        for at in from..to {
            self.tell(at, covered);
        }
    }

    /// Sets the next entries of a run: those of a whole stretch at once, if it is known, or known after a look at its entries; otherwise each
    /// one up to the next stretch. It returns the offset after them.
    fn tell_on(&mut self, covered: bool, at: usize, to: usize) -> usize
        requires order { at < to }
        requires within { to ≤ length self.old.items }
        ensures further { at < result }
        ensures upto { result ≤ to }
        ensures told { self.new ≡ record self.old { items = told_where covered (is_between at result) 1 self.old.items } }
    {
        if self.tell_known(covered, at, to) || self.tell_looked(covered, at, to) {
            return at + STRETCH;
        }
        self.tell_part(covered, at, to)
    }

    /// Sets the entries from an offset up to the next stretch, or up to `to`, one by one; their stretch is forgotten. It returns the offset after them.
    fn tell_part(&mut self, covered: bool, at: usize, to: usize) -> usize
        requires order { at < to }
        requires within { to ≤ length self.old.items }
        ensures further { at < result }
        ensures upto { result ≤ to }
        ensures told { self.new ≡ record self.old { items = told_where covered (is_between at result) 1 self.old.items } }
    {
        let end = stretch_end(&self.by_ticket, at, to);
        put_stretch(&mut self.stretches, self.by_ticket.index(at), UNKNOWN);
        tell_entries(
            &mut self.entries,
            &mut self.counts,
            self.size,
            covered,
            at,
            end,
        );
        end
    }

    /// Sets the stretch that begins at an offset, if one begins there, ends in the run and is known; returns whether it did.
    fn tell_known(&mut self, covered: bool, at: usize, to: usize) -> bool
        requires order { at < to }
        requires within { to ≤ length self.old.items }
        ensures upto { result ≡ true → at + 64 ≤ to }
        ensures told { result ≡ true → self.new ≡ record self.old { items = told_run covered at 64 self.old.items } }
        ensures same { result ≡ false → self.new ≡ self.old }
    {
        if to - at < STRETCH {
            return false;
        }
        let index = self.by_ticket.index(at);
        if index % 64 != 0 || self.entries.len() > MOST_KNOWN {
            return false;
        }
        let known = stretch_of(&self.stretches, index);
        if !known.is_known {
            return false;
        }
        if known.covered == covered {
            return true;
        }
        turn_stretch(
            &mut self.entries,
            &mut self.counts,
            self.size,
            at,
            known,
            covered,
        );
        let turned = Stretch { covered, ..known };
        put_stretch(&mut self.stretches, index, turned);
        true
    }

    /// Looks at the stretch that begins at an offset, if one begins there, ends in the run and has a slot, and sets it if it is known then;
    /// returns whether it did. It is not inlined, since a stretch that was looked at is known to the SACKs that follow.
    #[inline(never)]
    fn tell_looked(&mut self, covered: bool, at: usize, to: usize) -> bool
        requires order { at < to }
        requires within { to ≤ length self.old.items }
        ensures upto { result ≡ true → at + 64 ≤ to }
        ensures told { result ≡ true → self.new ≡ record self.old { items = told_run covered at 64 self.old.items } }
        ensures same { result ≡ false → self.new ≡ self.old }
    {
        let left = to - at;
        if left < STRETCH {
            return false;
        }
        self.look(at);
        self.tell_known(covered, at, to)
    }

    /// Looks at the stretch that begins at an offset, if one begins there and has a slot.
    fn look(&mut self, at: usize)
        requires { at + 64 ≤ length self.old.items }
        ensures { self.new ≡ self.old }
    {
        let index = self.by_ticket.index(at);
        if index % 64 != 0 || self.entries.len() > MOST_KNOWN || self.stretches.is_empty() {
            return;
        }
        let known = look_at_stretch(&self.entries, self.size, self.counts.header, at);
        put_stretch(&mut self.stretches, index, known);
    }

    /// Sets the entry at an offset acknowledged, so that it isn't retransmitted, or not acknowledged. Its stretch is forgotten.
    #[inline(never)]
    pub(crate) fn tell(&mut self, at: usize, covered: bool)
        requires { at < length self.old.items }
        ensures { self.new ≡ changed (told covered) at self.old }
    {
        put_stretch(&mut self.stretches, self.by_ticket.index(at), UNKNOWN);
        tell_one(&mut self.entries, &mut self.counts, self.size, at, covered);
    }
}

/// The offset after the stretch of the entry at an offset; or `to`, if that is less.
fn stretch_end(by_ticket: &ByTicket, at: usize, to: usize) -> usize
    requires { at < to }
    ensures further { at < result }
    ensures upto { result ≤ to }
    ensures stretch { index_at by_ticket.now.first at % 64 + (result - at) ≤ 64 }
{
    let more = STRETCH - by_ticket.index(at) as usize % STRETCH;
    at + more.min(to - at)
}
