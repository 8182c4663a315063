//! The outstanding entries, those above the cumulative TSN acknowledged (CUM), with counts of them, so that no call has to look at all.

ghost use Rattle.std.specs.Prelude.{◌≡◌, ℕ, ◌+◌, ◌-◌, ◌<◌, ◌≤◌, ◌++◌, ◌∷◌, [], None, Some, drop, true, false, map, length, slice_get, slice_index_or, OnOk, OnErr};
ghost use Rattle.sctp_send.specs.OutstandingFields.{item_meaning};
ghost use Rattle.sctp_send.specs.PartsKept.{changed};
ghost use Rattle.sctp_send.specs.declared.kept.stretches.Stretch.{Stretch};
ghost use Rattle.sctp_send.specs.inner.Changes.{stood};
ghost use Rattle.sctp_send.specs.inner.Stretching.{index_at, slot_at};
ghost use Rattle.sctp_send.specs.inner.Walks.{abandoned_items, any_unsettled};
ghost use Rattle.sctp_send.specs.inner.Wishing.{first_offset, is_item_marked, is_item_unsent};

use crate::kept::by_ticket::ByTicket;
use crate::kept::counts::{Counts, front_behind, stand_one};
use crate::kept::entry::{CoveredRun, Entry, State};
use crate::kept::growing::grown;
use crate::kept::message::Message;
use crate::kept::stretches::{Stretch, forget_stretch, keep_stretches};
use sctp_values::NoMemory;
use std::alloc::Global;
use std::collections::VecDeque;
use std::marker::Model;
use std::sync::Arc;

/// An entry for each index above CUM, that of CUM + 1 in front, with counts of them and their order by ticket.
#[derive(Drop)]
pub(crate) struct Outstanding {
    // the most bytes of a fragment
    pub(crate) size: u16,
    pub(crate) entries: VecDeque<Entry>,
    pub(crate) counts: Counts,
    pub(crate) by_ticket: ByTicket,
    // how many entries fit without an allocation
    pub(crate) room: usize,
    // the slots of what is known of stretches; none until there are many entries
    pub(crate) stretches: Vec<Stretch>,
    // empty: the memory for a SACK's runs and for the next one's, from the room for the first entry on until a SACK is accepted
    pub(crate) covered: Vec<CoveredRun>,
    pub(crate) spare: Vec<CoveredRun>,
}

impl Model for Outstanding {
    ghost use Rattle.sctp_send.specs.PartsKept.{OutstandingKept};

    ghost Value = { OutstandingKept };

    ghost use Rattle.std.specs.VecDeque.{deque_capacity};
    ghost use Rattle.sctp_send.specs.inner.TicketOrder.{IsInOrder};

    ghost view = { λ w. record { size = w.size; header = w.counts.header; items = w.entries.items; capacity = w.room } };

    ghost invariant = { λ w. IsInOrder w.size w.entries.items (deque_capacity w.entries) w.counts w.by_ticket w.room w.stretches.items };
}

impl Outstanding {
    /// No entries, of fragments with at most `size` bytes, whose chunks have `header` bytes before them.
    pub(crate) fn new(alloc: Global, size: u16, header: u16) -> Outstanding
        requires { 0 < size }
        ensures size { result.size ≡ size }
        ensures header { result.header ≡ header }
        ensures items { result.items ≡ [] }
    {
        Outstanding {
            size,
            entries: VecDeque::new(alloc),
            counts: Counts::none(header),
            by_ticket: ByTicket::new(alloc),
            room: 0,
            stretches: Vec::new(alloc),
            covered: Vec::new(alloc),
            spare: Vec::new(alloc),
        }
    }

    /// How many entries there are.
    pub(crate) fn len(&self) -> usize
        ensures { result ≡ length self.now.items }
    {
        self.entries.len()
    }

    /// The entry at an offset.
    pub(crate) fn get(&self, at: usize) -> &Entry
        requires { at < length self.now.items }
        ensures { result.now ≡ slice_index_or self.now.items at result.now }
    {
        &self.entries[at]
    }

    /// Some entry was sent, and is neither acknowledged nor abandoned.
    pub(crate) fn is_unsettled(&self) -> bool
        ensures { result ≡ any_unsettled (map (item_meaning self.now.size) self.now.items) }
    {
        self.counts.unsettled > 0
    }

    /// No entry waits to be repeated, and none is to go out for the first time. It asks
    /// the cursors alone, so that it may answer false where this is so.
    #[inline(always)]
    pub(crate) fn is_all_out(&self) -> bool
        ensures marked { result ≡ true → first_offset is_item_marked (map (item_meaning self.now.size) self.now.items) ≡ None }
        ensures unsent { result ≡ true → first_offset is_item_unsent (map (item_meaning self.now.size) self.now.items) ≡ None }
    {
        self.counts.marked >= self.entries.len() && self.counts.unsent >= self.entries.len()
    }

    /// How many of the first entries are abandoned.
    pub(crate) fn front(&self) -> usize
        ensures { (size : ℕ) → result ≡ abandoned_items (map (item_meaning size) self.now.items) }
    {
        self.counts.front
    }

    /// There is space for this many further entries.
    #[inline(always)]
    pub(crate) fn has_room(&self, more: usize) -> bool
        ensures room { result ≡ true → length self.now.items + more ≤ self.now.capacity }
        ensures none { result ≡ false → self.now.capacity < length self.now.items + more }
    {
        more <= self.room - self.entries.len()
    }

    /// Reserves space for this many further entries.
    ///
    /// # Errors
    /// `NoMemory`, only if there is no such space yet.
    #[inline(always)]
    pub(crate) fn reserve(&mut self, more: usize) -> Result<(), NoMemory>
        ensures size { self.new.size ≡ self.old.size }
        ensures header { self.new.header ≡ self.old.header }
        ensures items { self.new.items ≡ self.old.items }
        ensures capacity { self.old.capacity ≤ self.new.capacity }
        ensures room { OnOk result (length self.new.items + more ≤ self.new.capacity) }
        ensures had_room { length self.old.items + more ≤ self.old.capacity → self.new ≡ self.old }
        ensures refused { OnErr result (self.old.capacity < length self.old.items + more) }
    {
        if self.has_room(more) {
            return Ok(());
        }
        self.reserve_anew(more)
    }

    /// `reserve` if there is no such space yet. It is not inlined, so that the test before it is small.
    #[inline(never)]
    fn reserve_anew(&mut self, more: usize) -> Result<(), NoMemory>
        requires { self.old.capacity < length self.old.items + more }
        ensures size { self.new.size ≡ self.old.size }
        ensures header { self.new.header ≡ self.old.header }
        ensures items { self.new.items ≡ self.old.items }
        ensures capacity { self.old.capacity ≤ self.new.capacity }
        ensures room { OnOk result (length self.new.items + more ≤ self.new.capacity) }
    {
        self.reserve_runs()?;
        let wide = grown(self.room, self.entries.len(), more);
        self.entries.reserve_exact(wide).map_err(|_| NoMemory)?;
        // `room` counts entries, so those without a pair count beside the pairs.
        let unpaired = self.entries.len() - self.by_ticket.pairs.len();
        self.by_ticket
            .pairs
            .reserve_exact(unpaired.saturating_add(wide))
            .map_err(|_| NoMemory)?;
        self.room = self.entries.capacity().min(self.by_ticket.pairs.capacity());
        self.keep_stretches();
        Ok(())
    }

    /// Allocates the slots of stretches, if many entries are outstanding.
    fn keep_stretches(&mut self)
        ensures { self.new ≡ self.old }
    {
        keep_stretches(&mut self.stretches, self.entries.len());
    }

    /// Adds an entry after the others.
    ///
    /// # Errors
    /// `NoMemory`: the entry isn't added. Only if there is no space for it.
    #[inline(always)]
    pub(crate) fn push(&mut self, entry: Entry) -> Result<(), NoMemory>
        ensures size { self.new.size ≡ self.old.size }
        ensures header { self.new.header ≡ self.old.header }
        ensures items { OnOk result (self.new.items ≡ self.old.items ++ entry ∷ []) }
        ensures unchanged { OnErr result (self.new.items ≡ self.old.items) }
        ensures capacity { self.old.capacity ≤ self.new.capacity }
        ensures had_room { length self.old.items < self.old.capacity → self.new ≡ record self.old { items = self.old.items ++ entry ∷ [] } }
    {
        self.reserve(1)?;
        self.put(entry);
        Ok(())
    }

    /// Adds an entry, for which there is space, after the others.
    #[inline(always)]
    pub(crate) fn put(&mut self, entry: Entry)
        requires { length self.old.items < self.old.capacity }
        ensures { self.new ≡ record self.old { items = self.old.items ++ entry ∷ [] } }
    {
        let others = self.entries.len();
        self.counts.add(others, &entry, self.size);
        forget_added(&mut self.stretches, &self.by_ticket, others);
        self.by_ticket.push(entry.message.ticket, others);
        self.entries.push_back_reserved(entry);
    }

    /// Removes the first entry, if there is one, and returns its message.
    pub(crate) fn pop_front(&mut self) -> Option<Arc<Message>>
        ensures { self.new ≡ record self.old { items = drop 1 self.old.items } }
    {
        if let Some(entry) = self.entries.pop_front() {
            self.by_ticket
                .pop_front(entry.message.ticket, self.entries.len());
            self.counts.leave(&entry, self.size);
            self.counts.marked = self.counts.marked.saturating_sub(1);
            self.counts.unsent = self.counts.unsent.saturating_sub(1);
            self.counts.front = front_behind(self.counts.front, &self.entries);
            let Entry { message, .. } = entry;
            return Some(message);
        }
        None
    }

    /// Sets what became of the entry at an offset.
    pub(crate) fn stand(&mut self, at: usize, state: State)
        requires { at < length self.old.items }
        ensures { self.new ≡ changed (stood state) at self.old }
    {
        forget_stretch(&mut self.stretches, self.by_ticket.index(at));
        stand_one(&mut self.entries, &mut self.counts, self.size, at, state);
    }
}

/// Forgets the stretch to which an entry at this offset is added. If there are no slots that costs one test.
#[inline(always)]
fn forget_added(stretches: &mut Vec<Stretch>, by_ticket: &ByTicket, at: usize)
    ensures here { (s : Stretch) → slice_get stretches.new.items (slot_at (index_at by_ticket.now.first at)) ≡ Some s → s.is_known ≡ false }
    ensures others { (k : ℕ) → (k ≡ slot_at (index_at by_ticket.now.first at) → ⊥) → slice_get stretches.new.items k ≡ slice_get stretches.old.items k }
{
    if !stretches.is_empty() {
        forget_stretch(stretches, by_ticket.index(at));
    }
}
