//! What an acknowledgement newly acknowledges: one walk over the entries that CUM passes, and over those in its gap blocks that lie in none of the last
//! SACK's runs. An entry that stays acknowledged costs nothing (RFC 9260, 6.2.1, 7.2.1 and 7.2.4).

ghost use Rattle.std.specs.Prelude.{◌≡◌, ℕ, Bool, ◌+◌, ◌<◌, ◌≤◌, ◌%◌, ◌^◌, max, true, false, nat_le, ◌-◌, ◌||◌, if◌then◌else◌, suc, map};
ghost use Rattle.sctp_model.specs.sender.SackTaken.{some_is_bad, sack_covers};
ghost use Rattle.sctp_send.specs.OutstandingFields.{item_meaning};
ghost use Rattle.sctp_send.specs.inner.Weighing.{is_item_news, is_item_closed, unsettled_chunk, passes_here, AreFlying, IsTally, IsTallied, LieCovered};

use crate::kept::entry::{CoveredRun, Entry, Standing};
use crate::kept::outstanding::Outstanding;
use crate::kept::wishes::{bytes_in, is_unsettled, whole};
use sctp_wire::Blocks;

/// What is newly acknowledged of the first entries above CUM.
#[derive(Clone, Copy)]
pub(crate) struct Tally {
    /// Of so many entries.
    pub(crate) at: usize,
    /// The bytes of the chunks of those that were outstanding, modulo 2^64.
    pub(crate) bytes: u64,
    /// The offset of the last one that was sent, counted from 1; 0 if there is none.
    pub(crate) newest: usize,
    /// The runs before this one end at `at` or before. It only saves looks at them.
    run: usize,
}

impl Tally {
    /// Of no entries.
    pub(crate) fn none() -> Tally
        ensures at { result.at ≡ 0 }
        ensures bytes { result.bytes ≡ 0 }
        ensures newest { result.newest ≡ 0 }
    {
        Tally {
            at: 0,
            bytes: 0,
            newest: 0,
            run: 0,
        }
    }

    /// With the next entry, which is acknowledged now; so many bytes of its chunk are before its data.
    fn with(self, entry: &Entry, size: u16, header: u16) -> Tally
        requires some { 0 < size }
        requires few { self.at < 0xffff_ffff_ffff_ffff }
        ensures at { result.at ≡ suc self.at }
        ensures bytes { result.bytes ≡ (self.bytes + unsettled_chunk header (item_meaning size entry.now)) % 2 ^ 64 }
        ensures newest { result.newest ≡ (if is_item_news (item_meaning size entry.now) then suc self.at else self.newest) }
    {
        let at = self.at + 1;
        Tally {
            at,
            bytes: self
                .bytes
                .wrapping_add(outstanding_bytes(entry, size, header)),
            newest: if is_news(entry) { at } else { self.newest },
            run: self.run,
        }
    }

    /// With the entries up to `to`, of which none is newly acknowledged.
    pub(crate) fn skip(self, to: usize) -> Tally
        ensures at { result.at ≡ max self.at to }
        ensures bytes { result.bytes ≡ self.bytes }
        ensures newest { result.newest ≡ self.newest }
    {
        Tally {
            at: self.at.max(to),
            ..self
        }
    }

    /// With the entries up to `to`, which are all acknowledged now.
    #[inline(never)]
    pub(crate) fn take(self, outstanding: &Outstanding, to: usize) -> Tally
        ensures at { result.at ≡ max self.at to }
        ensures tally { (on : ℕ → Bool) → IsTally outstanding.now.header (map (item_meaning outstanding.now.size) outstanding.now.items) on self → ((j : ℕ) → self.at < j → j ≤ to → on j ≡ true)
            → IsTally outstanding.now.header (map (item_meaning outstanding.now.size) outstanding.now.items) on result }
    {
        let size = outstanding.size;
        let header = outstanding.counts.header;
        let mut tally = self;
        for at in self.at..to.min(outstanding.len()) {
            tally = tally.with(outstanding.get(at), size, header);
        }
        tally.skip(to)
    }

    /// With the entries up to `to`, which are all acknowledged now; those in the runs were before.
    fn take_gaps(self, outstanding: &Outstanding, runs: &[CoveredRun], to: usize) -> Tally
        ensures at { result.at ≡ max self.at to }
        ensures tally { (on : ℕ → Bool) → LieCovered runs.now (map (item_meaning outstanding.now.size) outstanding.now.items) → IsTally outstanding.now.header (map (item_meaning outstanding.now.size) outstanding.now.items) on self
            → ((j : ℕ) → self.at < j → j ≤ to → on j ≡ true) → IsTally outstanding.now.header (map (item_meaning outstanding.now.size) outstanding.now.items) on result }
    {
        let mut tally = self;
        for next in self.run..runs.len() {
            let run = runs[next];
            let end = usize::from(run.to);
            tally = tally
                .take(outstanding, usize::from(run.from).min(to))
                .skip(end.min(to));
            if to < end {
                return Tally { run: next, ..tally };
            }
        }
        let run = runs.len();
        Tally {
            run,
            ..tally.take(outstanding, to)
        }
    }

    /// Of the first entries, up to `to`, which are all acknowledged now. If these are all, it is mostly what is in flight, and costs no walk.
    #[inline(always)]
    fn of_passed(outstanding: &Outstanding, to: usize) -> Tally
        ensures at { result.at ≡ to }
        ensures tally { (on : ℕ → Bool) → ((j : ℕ) → 0 < j → j ≤ to → on j ≡ true) → IsTally outstanding.now.header (map (item_meaning outstanding.now.size) outstanding.now.items) on result }
    {
        if is_in_flight(outstanding, to) {
            return Tally {
                at: to,
                bytes: outstanding.chunk_flight(),
                newest: to,
                run: 0,
            };
        }
        Tally::none().take(outstanding, to)
    }

    /// What a SACK newly acknowledges whose cumulative TSN passes so many entries, and with these gap blocks; the entries in the runs are acknowledged
    /// by gap blocks of the last one. A SACK without blocks costs a test for them.
    #[inline(always)]
    pub(crate) fn of_blocks(
        outstanding: &Outstanding,
        runs: &[CoveredRun],
        passed: u32,
        blocks: &Blocks<'_>,
    ) -> Tally
        ensures { LieCovered runs.now (map (item_meaning outstanding.now.size) outstanding.now.items) → some_is_bad 0 blocks.now ≡ false
            → IsTallied outstanding.now.header (map (item_meaning outstanding.now.size) outstanding.now.items) (sack_covers passed blocks.now) result }
    {
        let tally = Tally::of_passed(outstanding, passed as usize);
        if blocks.len() == 0 {
            return tally;
        }
        tally.take_blocks(outstanding, runs, passed, blocks)
    }

    /// With what these gap blocks newly acknowledge beyond the first entries: a cumulative TSN passes so many, and they are weighed.
    #[inline(never)]
    fn take_blocks(
        self,
        outstanding: &Outstanding,
        runs: &[CoveredRun],
        passed: u32,
        blocks: &Blocks<'_>,
    ) -> Tally
        requires { self.at ≡ passed }
        ensures { LieCovered runs.now (map (item_meaning outstanding.now.size) outstanding.now.items) → some_is_bad 0 blocks.now ≡ false
            → IsTally outstanding.now.header (map (item_meaning outstanding.now.size) outstanding.now.items) (sack_covers passed blocks.now) self
            → IsTallied outstanding.now.header (map (item_meaning outstanding.now.size) outstanding.now.items) (sack_covers passed blocks.now) result }
    {
        let passed = passed as usize;
        let mut tally = self;
        for block in blocks.iter() {
            let before = usize::from(block.start).saturating_sub(1);
            tally = tally
                .skip(passed + before)
                .take_gaps(outstanding, runs, passed + usize::from(block.end));
        }
        tally
    }

    /// What the cumulative TSN of a SHUTDOWN newly acknowledges that passes so many entries; no gap block acknowledges an entry beyond `top`.
    pub(crate) fn of_shutdown(outstanding: &Outstanding, top: usize, passed: u32) -> Tally
        ensures { ((j : ℕ) → top < j → passes_here is_item_closed (map (item_meaning outstanding.now.size) outstanding.now.items) (j - 1) ≡ false)
            → IsTallied outstanding.now.header (map (item_meaning outstanding.now.size) outstanding.now.items) (λ j. nat_le j passed || passes_here is_item_closed (map (item_meaning outstanding.now.size) outstanding.now.items) (j - 1)) result }
    {
        let passed = passed as usize;
        Tally::of_passed(outstanding, passed).skip(last_closed(outstanding, passed, top))
    }
}

/// True only if there are so many entries, nothing of them is marked for retransmission, and the last one was sent, and no gap block acknowledges it:
/// then what is outstanding is in flight.
#[inline(always)]
fn is_in_flight(outstanding: &Outstanding, count: usize) -> bool
    ensures { result ≡ true → AreFlying count (map (item_meaning outstanding.now.size) outstanding.now.items) }
{
    if count == 0 {
        return false;
    }
    if count != outstanding.len() {
        return false;
    }
    if outstanding.first_repeat() < count {
        return false;
    }
    is_news(outstanding.get(count - 1))
}

/// The last offset beyond one, up to another, both counted from 1, that a gap block acknowledges; or the first one.
fn last_closed(outstanding: &Outstanding, from: usize, to: usize) -> usize
    ensures above { from ≤ result }
    ensures here { (size : ℕ) → from < result → passes_here is_item_closed (map (item_meaning size) outstanding.now.items) (result - 1) ≡ true }
    ensures beyond { (size j : ℕ) → result < j → j ≤ to → passes_here is_item_closed (map (item_meaning size) outstanding.now.items) (j - 1) ≡ false }
{
    let end = to.min(outstanding.len());
    for back in from..end {
        let at = end - (back - from);
        if outstanding.get(at - 1).covered {
            return at;
        }
    }
    from
}

/// The bytes of the chunk of an entry that is outstanding; 0 of any other.
fn outstanding_bytes(entry: &Entry, size: u16, header: u16) -> u64
    requires { 0 < size }
    ensures { result ≡ unsettled_chunk header (item_meaning size entry.now) }
{
    if is_unsettled(entry) {
        u64::from(whole(header, bytes_in(entry, size)))
    } else {
        0
    }
}

/// An entry was sent, and no gap block acknowledges it.
fn is_news(entry: &Entry) -> bool
    ensures { (size : ℕ) → result ≡ is_item_news (item_meaning size entry.now) }
{
    entry.standing != Standing::Unsent && !entry.covered
}
