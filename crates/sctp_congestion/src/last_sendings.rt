//! When each chunk was sent last.

ghost use Rattle.std.specs.Prelude.{◌≡◌, ℕ, ◌+◌, ◌<◌, ◌≤◌, ◌==◌, [], max, drop, length, if◌then◌else◌, List, OnOk};
ghost use Rattle.std.specs.List.{All};
ghost use Rattle.std.specs.VecDeque.{deque_capacity};
ghost use Rattle.sctp_congestion.specs.Went.{went_at, went_again, WentStands, IsLengthened};

use sctp_values::NoMemory;
use std::alloc::Global;
use std::collections::VecDeque;
use std::marker::Model;

/// The largest index of which a number may be kept; no association has as many TSNs.
const LAST_INDEX: u64 = u64::MAX - 1;

/// The highest index that was sent when a chunk was sent last: its own index, but of those that were retransmitted, or that an acknowledgement took back.
/// Memory is taken for these alone, from the cumulative TSN up to the last of them.
#[derive(Drop)]
pub(crate) struct LastSendings {
    /// Nothing is kept of this index and of those before it.
    base: u64,
    /// The numbers of the indexes after `base`, one for each.
    entries: VecDeque<u64>,
    /// Before this index are all whose number is less than themselves: TSNs that were acknowledged, and taken back, before they were sent.
    early_end: u64,
}

impl Model for LastSendings {
    ghost use Rattle.std.specs.Prelude.{◌+◌, min};
    ghost use Rattle.std.specs.VecDeque.{deque_capacity};
    ghost use Rattle.sctp_congestion.specs.Went.{WentKept, last_index};

    ghost Value = { WentKept };

    ghost view = { λ s. record { base = s.base; entries = s.entries.items; room = min (s.base + deque_capacity s.entries) last_index; early_end = s.early_end } };
}

impl LastSendings {
    /// Nothing was sent. Nothing is allocated.
    pub(crate) fn fresh(alloc: Global) -> LastSendings
        ensures base { result.base ≡ 0 }
        ensures entries { result.entries ≡ [] }
        ensures early { result.early_end ≡ 0 }
    {
        LastSendings {
            base: 0,
            entries: VecDeque::new(alloc),
            early_end: 0,
        }
    }

    /// That of an index.
    pub(crate) fn of(&self, index: u64) -> u64
        ensures { result ≡ went_at self.now index }
    {
        if index <= self.base {
            return index;
        }
        let at = (index - self.base - 1) as usize;
        if at < self.entries.len() {
            self.entries[at]
        } else {
            index
        }
    }

    /// Before this index are all whose number is less than themselves.
    pub(crate) fn early_end(&self) -> u64
        ensures { result ≡ self.now.early_end }
    {
        self.early_end
    }

    /// Allocates memory for the numbers up to an index.
    ///
    /// # Errors
    /// Allocation failed; no number changed.
    pub(crate) fn reserve(&mut self, last: u64) -> Result<(), NoMemory>
        ensures same { self.new ≡ record self.old { room = self.new.room } }
        ensures room { OnOk result (last ≤ self.new.room) }
    {
        if last > LAST_INDEX {
            return Err(NoMemory);
        }
        let many = last.saturating_sub(self.base) as usize;
        let more = many.saturating_sub(self.entries.len());
        self.entries.reserve(more).map_err(|_| NoMemory)
    }

    /// An index gets this number, if it is after `base` and there is memory.
    fn set(&mut self, index: u64, number: u64)
        ensures room { self.new.room ≡ self.old.room }
        ensures step { (cum : ℕ) (went : ℕ → ℕ) → WentStands cum self.old went → index ≤ self.old.room
            → WentStands cum self.new (λ i. if index == i then number else went i) }
    {
        if index <= self.base || index > LAST_INDEX {
            return;
        }
        let at = (index - self.base - 1) as usize;
        if at >= self.entries.capacity() {
            return;
        }
        lengthen(&mut self.entries, self.base, at);
        self.entries[at] = number;
        if number < index {
            self.early_end = self.early_end.max(index + 1);
        }
    }

    /// These indexes get this number, as far as there is memory.
    pub(crate) fn set_all(&mut self, indexes: &[u64], number: u64)
        ensures { (cum : ℕ) (went : ℕ → ℕ) → WentStands cum self.old went → All (λ i. i ≤ self.old.room) indexes.now
            → WentStands cum self.new (went_again indexes.now number went) }
    {
        for index in indexes {
            self.set(*index, number);
        }
    }

    /// What is kept of the indexes up to this one is forgotten.
    pub(crate) fn pass(&mut self, cum: u64)
        ensures room { self.old.room ≤ self.new.room }
        ensures stands { (before : ℕ) (went : ℕ → ℕ) → WentStands before self.old went → before ≤ cum → WentStands cum self.new went }
    {
        if cum <= self.base {
            return;
        }
        drop_first(&mut self.entries, (cum - self.base) as usize);
        self.base = cum;
    }

    /// Gives memory back: all of it, if nothing is kept.
    pub(crate) fn trim(&mut self)
        ensures { self.new ≡ record self.old { room = self.new.room } }
    {
        self.entries.shrink_to_fit();
    }
}

/// There are entries up to this position; each that is added is the index of its place.
fn lengthen(entries: &mut VecDeque<u64>, base: u64, at: usize)
    requires room { at < deque_capacity entries.old }
    requires fits { base + at < 18_446_744_073_709_551_615 }
    ensures capacity { deque_capacity entries.new ≡ deque_capacity entries.old }
    ensures items { IsLengthened base at entries.old.items entries.new.items }
{
    for place in entries.len()..at + 1 {
        entries.push_back_reserved(base + place as u64 + 1);
    }
}

/// So many of the first entries go, or all.
fn drop_first(entries: &mut VecDeque<u64>, many: usize)
    ensures items { entries.new.items ≡ drop many entries.old.items }
    ensures capacity { deque_capacity entries.new ≡ deque_capacity entries.old }
{
    for _ in 0..many.min(entries.len()) {
        let _gone = entries.pop_front();
    }
}
