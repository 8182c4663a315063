//! SACKs and SHUTDOWNs from the peer, and the expiry of the data timer (RFC 9260, 6.2.1, 6.3.3 and 9.2).
//!
//! `on_sack` keeps the runs of entries that the last SACK acknowledged by gap blocks, at most 368, as many blocks as a packet of 1,500 bytes has. Their
//! memory is reserved with that for the first entry, so that no SACK allocates, and a sender that had no message has none (`run_room`). It sets only
//! the entries that change: it costs its blocks, the old runs, what CUM passes, and what is newly acknowledged or no longer so, whole stretches of 64
//! entries at once if they are alike, after a look at those that aren't known (`stretches`), else each entry once. If CUM passes all entries, nothing
//! is counted of any as they go (`clear`); if nothing was acknowledged by blocks and no block is in the SACK, no entry is looked at for that. Both
//! lists of runs are in order (`AreInOrder`), so one pass goes over both, and a run that ends before the next block isn't looked at again
//! (`HasPassed`). A SACK with more blocks, which no packet of 1,500 bytes holds, goes over all that is outstanding (`cover`), and so does the next one.

pub mod acknowledging;
pub mod covered;
pub mod entries;
pub mod marking;
pub mod telling;
pub mod waking;

ghost use Rattle.std.specs.Prelude.{◌≡◌, ℕ, ◌-◌, ◌≤◌, Bool, length, None, IfOk};
ghost use Rattle.sctp_model.specs.sender.SenderView.{SenderView};
ghost use Rattle.sctp_model.specs.sender.SackTaken.{some_is_bad, some_ends_past, sack_fault, sack_after, shutdown_fault, shutdown_after};
ghost use Rattle.sctp_model.specs.sender.Abandoning.{timed_out, marking};
ghost use Rattle.sctp_wire.specs.ChunkTree.{sack_meaning};
ghost use Rattle.sctp_send.specs.SenderStands.{StandsFor};
ghost use Rattle.sctp_send.specs.SenderAnswers.{reason_meaning};
ghost use Rattle.sctp_send.specs.PaceAnswers.{AgreeInFlight};
ghost use Rattle.sctp_send.specs.inner.Acknowledging.{PassingAnswer, SackAnswer, block_fault};

use crate::index_test::{EachIndex, IndexTest};
use crate::sack::covered::cover_blocks;
use crate::sack::entries::{forget, move_on};
use crate::sack::marking::{mark_between, offset_of};
use crate::sack::waking::wake_for;
use crate::sender::Sender;
use sctp_framing::Framing;
use sctp_serial::{S32, Serial, tsn_of};
use sctp_wire::{Blocks, Sack};
use thiserror::Error;

/// Why a SACK or a SHUTDOWN is refused: the first reason that applies, in this order.
#[derive(Clone, Copy, Debug, PartialEq, Eq, Error)]
pub enum SackFault {
    /// It is out of date: its cumulative TSN is before CUM (RFC 9260, 6.2.1, D i).
    #[error("it is older than one taken")]
    Stale,
    /// It acknowledges a TSN past the last one assigned, by its cumulative TSN or a gap block.
    #[error("it acknowledges what was not sent")]
    Beyond,
    /// Its gap blocks aren't in order: one begins at 0, ends before it begins, or begins at or before the end of the previous one.
    #[error("its blocks are out of order")]
    BadBlock,
}

#[tactic(auto, unfolding(crate::specs::SenderStands::StandsFor))]
impl<F: Framing> Sender<F> {
    /// Processes a SACK (RFC 9260, 6.2.1): the chunks up to its cumulative TSN are released, and of the others exactly those in its gap blocks are
    /// acknowledged from now on; a chunk that only the last SACK acknowledged is outstanding again. It doesn't allocate.
    ///
    /// # Errors
    /// The first `SackFault` that applies; nothing changes then.
    pub fn on_sack(&mut self, sack: &Sack<'_>) -> Result<(), SackFault>
        ensures answer { (v : SenderView) → StandsFor F.format self.old v → reason_meaning result ≡ sack_fault v (sack_meaning sack.now) }
        ensures step { (v : SenderView) → StandsFor F.format self.old v → StandsFor F.format self.new (sack_after v (sack_meaning sack.now)) }
    {
        let passed = self.passed_by_sack(sack)?;
        let before = self.last_sent_within(passed as usize);
        let is_known = self.told.is_known;
        wake_for(
            &mut self.told.dues,
            &self.parts.outstanding,
            &self.told.covered,
            is_known,
            passed as usize,
            &sack.blocks,
        );
        self.parts
            .outstanding
            .lend_runs(&mut self.told.covered, &mut self.told.spare);
        forget(
            &mut self.parts.outstanding,
            &mut self.told.shells,
            self.told.alloc,
            passed as usize,
        );
        move_on(&mut self.told.covered, passed as usize);
        self.told.is_known = cover_blocks(
            &mut self.parts.outstanding,
            &mut self.told.covered,
            &mut self.told.spare,
            self.told.is_known,
            &sack.blocks,
        );
        self.told.cum = self.told.cum.wrapping_add(u64::from(passed));
        self.told.before = before;
        self.told.rwnd = sack.rwnd;
        Ok(())
    }

    /// Processes the cumulative TSN of a SHUTDOWN (RFC 9260, 9.2): the chunks up to it are released, and what gap blocks acknowledged beyond it stays
    /// acknowledged. It doesn't allocate.
    ///
    /// # Errors
    /// The first `SackFault` that applies; nothing changes then.
    pub fn on_shutdown(&mut self, tsn: u32) -> Result<(), SackFault>
        ensures answer { (v : SenderView) → StandsFor F.format self.old v → reason_meaning result ≡ shutdown_fault v tsn }
        ensures step { (v : SenderView) → StandsFor F.format self.old v → StandsFor F.format self.new (shutdown_after v tsn) }
    {
        let passed = self.passed_by(tsn)?;
        let before = self.last_sent_within(passed as usize);
        forget(
            &mut self.parts.outstanding,
            &mut self.told.shells,
            self.told.alloc,
            passed as usize,
        );
        let gone = passed as usize;
        move_on(&mut self.told.covered, gone);
        self.told.cum = self.told.cum.wrapping_add(u64::from(passed));
        self.told.before = before;
        Ok(())
    }

    /// The data timer expired: every chunk that was sent and is neither acknowledged nor abandoned is marked for retransmission (RFC 9260, 6.3.3), unless
    /// it was retransmitted as often as its message's limit allows (RFC 7496, 3.1). It doesn't allocate.
    pub fn on_timeout(&mut self)
        ensures { (v : SenderView) → StandsFor F.format self.old v → StandsFor F.format self.new (timed_out v) }
    {
        let last = self.parts.outstanding.len();
        mark_between(
            &mut self.parts.outstanding,
            self.told.partial,
            self.told.cum,
            0,
            last,
            &EachIndex,
        );
    }

    /// The chunks with the indexes from `from` on, below `below`, that pass the test are missing at the peer: each that was sent and is neither
    /// acknowledged nor abandoned is marked for retransmission (RFC 9260, 7.2.4), unless it was retransmitted as often as its message's limit allows
    /// (RFC 7496, 3.1). Indexes count TSNs from 1, the initial TSN. It costs a walk over that range, and doesn't allocate.
    pub fn on_missed<T: IndexTest>(&mut self, from: u64, below: u64, test: &T)
        ensures { (v : SenderView) (missed : ℕ → Bool) → StandsFor F.format self.old v → AgreeInFlight v from below (T.Says test.now) missed
            → StandsFor F.format self.new (marking v missed) }
    {
        let cum = self.told.cum;
        mark_between(
            &mut self.parts.outstanding,
            self.told.partial,
            cum,
            offset_of(cum, from),
            offset_of(cum, below),
            test,
        );
    }

    /// How many entries the cumulative TSN of a SACK passes, unless the SACK is refused.
    ///
    /// # Errors
    /// The first `SackFault` that applies.
    pub(crate) fn passed_by_sack(&self, sack: &Sack<'_>) -> Result<u32, SackFault>
        ensures answer { (v : SenderView) → StandsFor F.format self.now v → SackAnswer v (sack_meaning sack.now) result }
        ensures within { IfOk result (λ passed. passed ≤ length self.now.items) }
        ensures blocks { IfOk result (λ passed. block_fault (length self.now.items - passed) sack.now.blocks ≡ None) }
    {
        let passed = self.passed_by(sack.cumulative)?;
        let left = self.parts.outstanding.len() - passed as usize;
        if reach_past(&sack.blocks, left) {
            return Err(SackFault::Beyond);
        }
        if are_disordered(&sack.blocks) {
            return Err(SackFault::BadBlock);
        }
        Ok(passed)
    }

    /// How many entries a cumulative TSN passes.
    pub(crate) fn passed_by(&self, wire: u32) -> Result<u32, SackFault>
        ensures answer { (v : SenderView) → StandsFor F.format self.now v → PassingAnswer v wire result }
        ensures within { IfOk result (λ passed. passed ≤ length self.now.items) }
    {
        let known = S32(tsn_of(self.told.initial, self.told.cum));
        let told = S32(wire);
        if told.before(known) {
            return Err(SackFault::Stale);
        }
        let passed = known.ahead(told);
        if passed as usize > self.parts.outstanding.len() {
            return Err(SackFault::Beyond);
        }
        Ok(passed)
    }
}

/// Some block ends past the last of so many entries.
fn reach_past(blocks: &Blocks<'_>, last: usize) -> bool
    ensures { result ≡ some_ends_past last 0 blocks.now }
{
    for block in blocks.iter() {
        if last < usize::from(block.end) {
            return true;
        }
    }
    false
}

/// Some block starts past its own end, or not past the end of the block before it.
fn are_disordered(blocks: &Blocks<'_>) -> bool
    ensures { result ≡ some_is_bad 0 blocks.now }
{
    let mut end = 0;
    for block in blocks.iter() {
        if block.start <= end || block.end < block.start {
            return true;
        }
        end = block.end;
    }
    false
}
