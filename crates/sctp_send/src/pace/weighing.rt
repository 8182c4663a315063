//! What an acknowledgement does, weighed before it is taken (RFC 9260, 6.3.1 and 7.2).

ghost use Rattle.std.specs.Prelude.{◌≡◌, ℕ, Bool, Option, ◌+◌, ◌-◌, ◌<◌, ◌≤◌, ◌%◌, ◌^◌, ◌||◌, ◌&&◌, not, nat_lt, nat_le, true, false, None, map, length, IfSome};
ghost use Rattle.sctp_model.specs.messages.Framing.{header_of};
ghost use Rattle.sctp_model.specs.sender.SenderView.{SenderView};
ghost use Rattle.sctp_model.specs.sender.Words.{when};
ghost use Rattle.sctp_model.specs.sender.SackTaken.{sack_fault, sack_after, sack_covers, shutdown_fault, shutdown_after};
ghost use Rattle.sctp_model.specs.end.Trips.{was_given_up};
ghost use Rattle.sctp_wire.specs.ChunkTree.{sack_meaning};
ghost use Rattle.sctp_send.specs.OutstandingFields.{item_meaning};
ghost use Rattle.sctp_send.specs.CoveredRuns.{in_runs, AreCovered};
ghost use Rattle.sctp_send.specs.SenderStands.{StandsFor};
ghost use Rattle.sctp_send.specs.PaceAnswers.{IsWeight};
ghost use Rattle.sctp_send.specs.inner.Acknowledging.{IsPassing};
ghost use Rattle.sctp_send.specs.inner.Weighing.{is_item_closed, is_item_given_up, passes_here, index_above, IsTallied, IsAfter};

use crate::kept::entry::CoveredRun;
use crate::kept::outstanding::Outstanding;
use crate::pace::tally::Tally;
use crate::pace::weight::Weight;
use crate::sender::Sender;
use crate::told::Told;
use sctp_framing::Framing;
use sctp_wire::{Blocks, Sack};

#[tactic(auto, unfolding(crate::specs::SenderStands::StandsFor))]
impl<F: Framing> Sender<F> {
    /// What a SACK does that `on_sack` would accept; asked before `on_sack`. `timed` is the index of the chunk that is timed, if there is one. It costs
    /// the SACK's blocks, the runs of the last one, what CUM passes, and what is newly acknowledged; of one that would be refused its blocks alone.
    pub fn weigh(&self, sack: &Sack<'_>, timed: Option<u64>) -> Weight
        ensures { (v : SenderView) → StandsFor F.format self.now v → sack_fault v (sack_meaning sack.now) ≡ None → IsWeight F.format v (sack_after v (sack_meaning sack.now)) timed result }
    {
        let Ok(passed) = self.passed_by_sack(sack) else {
            return Weight::none();
        };
        let tally = Tally::of_blocks(
            &self.parts.outstanding,
            known_runs(&self.told),
            passed,
            &sack.blocks,
        );
        let acked = self.is_acked_by_blocks(timed, passed, &sack.blocks);
        self.weight_of(passed, tally, acked)
    }

    /// What the cumulative TSN of a SHUTDOWN does that `on_shutdown` would accept; asked before `on_shutdown`.
    pub fn weigh_shutdown(&self, tsn: u32, timed: Option<u64>) -> Weight
        ensures { (v : SenderView) → StandsFor F.format self.now v → shutdown_fault v tsn ≡ None → IsWeight F.format v (shutdown_after v tsn) timed result }
    {
        let Ok(passed) = self.passed_by(tsn) else {
            return Weight::none();
        };
        let tally = Tally::of_shutdown(
            &self.parts.outstanding,
            last_known(&self.told, &self.parts.outstanding),
            passed,
        );
        let acked = self.is_acked_by_shutdown(timed, passed);
        self.weight_of(passed, tally, acked)
    }

    /// The weight of an acknowledgement that moves CUM by so many, and acknowledges what is tallied.
    fn weight_of(&self, passed: u32, tally: Tally, acked: bool) -> Weight
        ensures { (v u : SenderView) (on : ℕ → Bool) (timed : Option ℕ) → StandsFor F.format self.now v → IsAfter v u on passed → IsTallied (header_of F.format) self.now.items on tally
            → IfSome timed (λ i. acked ≡ (nat_lt v.cum i && (on (i - v.cum) && not (was_given_up v i)))) → IsWeight F.format v u timed result }
    {
        let newest = self.above_cum(tally.newest);
        Weight {
            moved: passed > 0,
            cum: self.told.cum.wrapping_add(u64::from(passed)),
            newest,
            newest_in_recovery: if passed > 0 {
                self.above_cum(tally.at)
            } else {
                newest
            },
            bytes: tally.bytes,
            acked,
        }
    }

    /// The index at an offset above CUM, counted from 1; 0 for 0.
    fn above_cum(&self, offset: usize) -> u64
        ensures { result ≡ index_above self.now.cum offset % 2 ^ 64 }
    {
        if offset == 0 {
            return 0;
        }
        self.told.cum.wrapping_add(offset as u64)
    }

    /// Whether a SACK whose cumulative TSN passes so many entries acknowledges an index above CUM whose message was not abandoned.
    fn is_acked_by_blocks(&self, timed: Option<u64>, passed: u32, blocks: &Blocks<'_>) -> bool
        ensures { (v : SenderView) → StandsFor F.format self.now v → IfSome timed (λ i. result ≡ (nat_lt v.cum i && (sack_covers passed blocks.now (i - v.cum) && not (was_given_up v i)))) }
    {
        let Some(index) = timed else {
            return false;
        };
        if index <= self.told.cum {
            return false;
        }
        let offset = index - self.told.cum;
        covers(blocks, passed, offset) && !is_given_up(&self.parts.outstanding, offset - 1)
    }

    /// The same of the cumulative TSN of a SHUTDOWN.
    fn is_acked_by_shutdown(&self, timed: Option<u64>, passed: u32) -> bool
        ensures { (v : SenderView) → StandsFor F.format self.now v
            → IfSome timed (λ i. result ≡ (nat_lt v.cum i && ((nat_le (i - v.cum) passed || passes_here is_item_closed self.now.items (i - v.cum - 1)) && not (was_given_up v i)))) }
    {
        let Some(index) = timed else {
            return false;
        };
        if index <= self.told.cum {
            return false;
        }
        let offset = index - self.told.cum;
        is_shut(&self.parts.outstanding, passed, offset)
            && !is_given_up(&self.parts.outstanding, offset - 1)
    }
}

/// The runs of the last SACK, if they are known; else none.
fn known_runs(told: &Told) -> &[CoveredRun]
    ensures { (covered : ℕ → Bool) (cum i : ℕ) → AreCovered (when told.now.is_known told.now.covered.items) covered cum → 0 < i → in_runs result.now i ≡ true → covered (cum + i) ≡ true }
{
    let runs = told.covered.as_slice();
    if told.is_known { runs } else { &runs[0..0] }
}

/// An offset beyond which no gap block of the last SACK acknowledges anything: the end of its last run, or of the entries.
fn last_known(told: &Told, outstanding: &Outstanding) -> usize
    ensures { (covered : ℕ → Bool) (cum i : ℕ) → AreCovered (when told.now.is_known told.now.covered.items) covered cum → result < i → i ≤ length outstanding.now.items → covered (cum + i) ≡ false }
{
    if !told.is_known {
        return outstanding.len();
    }
    match told.covered.last() {
        Some(run) => usize::from(run.to),
        None => 0,
    }
}

/// A SACK whose cumulative TSN passes so many entries acknowledges the entry at an offset, counted from 1.
fn covers(blocks: &Blocks<'_>, passed: u32, offset: u64) -> bool
    ensures { result ≡ sack_covers passed blocks.now offset }
{
    let passed = u64::from(passed);
    if offset <= passed {
        return true;
    }
    for block in blocks.iter() {
        if passed + u64::from(block.start) <= offset && offset <= passed + u64::from(block.end) {
            return true;
        }
    }
    false
}

/// The entry at an offset, counted from 1, is acknowledged once a SHUTDOWN's cumulative TSN passes so many entries.
fn is_shut(outstanding: &Outstanding, passed: u32, offset: u64) -> bool
    requires { 0 < offset }
    ensures { (size : ℕ) → result ≡ (nat_le offset passed || passes_here is_item_closed (map (item_meaning size) outstanding.now.items) (offset - 1)) }
{
    offset <= u64::from(passed) || is_closed(outstanding, offset - 1)
}

/// A gap block of the last SACK acknowledges the entry at an offset, if there is one.
fn is_closed(outstanding: &Outstanding, at: u64) -> bool
    ensures { (size : ℕ) → result ≡ passes_here is_item_closed (map (item_meaning size) outstanding.now.items) at }
{
    at < outstanding.len() as u64 && outstanding.get(at as usize).covered
}

/// The message of the entry at an offset, if there is one, was abandoned.
fn is_given_up(outstanding: &Outstanding, at: u64) -> bool
    ensures { (size : ℕ) → result ≡ passes_here is_item_given_up (map (item_meaning size) outstanding.now.items) at }
{
    at < outstanding.len() as u64 && outstanding.get(at as usize).abandoned
}
