//! Memory that a burst took is given back when less than an eighth of it is used (`is_roomy` of sctp_sequence). If a smaller block can't be allocated, the
//! larger one stays.

ghost use Rattle.std.specs.Prelude.{◌≡◌, ◌+◌, ◌≤◌, length, min};

use crate::kept::outstanding::Outstanding;
use crate::kept::queue::Queue;
use crate::kept::stretches::forget_all;
use sctp_sequence::{give_back, is_roomy, kept_for};

/// The slots of stretches are freed if no more than so many entries are left: they are allocated again before there are many.
const FEW: usize = 64;

impl Outstanding {
    /// Less than an eighth of the memory is used by the entries and this many to come.
    #[inline(always)]
    pub(crate) fn is_roomy(&self, owed: usize) -> bool {
        is_roomy(self.room, self.entries.len().saturating_add(owed))
    }

    /// Gives memory back, but for the entries and for this many to come.
    pub(crate) fn give_back(&mut self, owed: usize)
        ensures size { self.new.size ≡ self.old.size }
        ensures header { self.new.header ≡ self.old.header }
        ensures items { self.new.items ≡ self.old.items }
        ensures room { length self.old.items + owed ≤ self.old.capacity → length self.new.items + owed ≤ self.new.capacity }
    {
        let used = self.entries.len().saturating_add(owed);
        if is_roomy(self.room, used) {
            self.shrink_to(kept_for(used));
            self.forget_stretches();
        }
    }

    /// Gives memory back, but for so many entries.
    fn shrink_to(&mut self, kept: usize)
        requires { length self.old.items ≤ kept }
        ensures size { self.new.size ≡ self.old.size }
        ensures header { self.new.header ≡ self.old.header }
        ensures items { self.new.items ≡ self.old.items }
        ensures room { min kept self.old.capacity ≤ self.new.capacity }
    {
        self.entries.shrink_to(kept);
        self.by_ticket.pairs.shrink_to(kept);
        self.room = self
            .entries
            .capacity()
            .min(self.by_ticket.pairs.capacity())
            .min(self.room);
    }

    /// Frees the slots of stretches, if few entries are left.
    fn forget_stretches(&mut self)
        ensures { self.new ≡ self.old }
    {
        if self.entries.len() <= FEW {
            forget_all(&mut self.stretches);
        }
    }
}

impl Queue {
    /// Less than an eighth of the memory is used.
    #[inline(always)]
    pub(crate) fn is_roomy(&self) -> bool {
        is_roomy(self.messages.capacity(), self.messages.len())
    }

    /// Gives memory back, but for the messages.
    pub(crate) fn give_back(&mut self)
        ensures size { self.new.size ≡ self.old.size }
        ensures items { self.new.items ≡ self.old.items }
    {
        give_back(&mut self.messages);
        self.seats.give_back();
    }
}
