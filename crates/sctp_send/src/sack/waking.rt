//! Deadlines of messages that were passed over because they were acknowledged: they are looked at again once a SACK may take back a gap
//! block (RFC 9260, 6.2.1).

ghost use Rattle.std.specs.Prelude.{◌≡◌, ℕ, ◌<◌, ◌≤◌, true, false, length, slice_index_or};
ghost use Rattle.sctp_wire.specs.ChunkTree.{block_meaning};
ghost use Rattle.sctp_send.specs.CoveredRuns.{in_run, run_behind};
ghost use Rattle.sctp_send.specs.inner.Dues.{due_at, AreWoken, LieIn, is_in_block};
ghost use Rattle.sctp_send.specs.declared.kept.entry.CoveredRun.{CoveredRun as RunFields};

use crate::kept::dues::Dues;
use crate::kept::entry::CoveredRun;
use crate::kept::message::moment_of;
use crate::kept::outstanding::Outstanding;
use crate::sack::entries::run_behind;
use sctp_wire::{Blocks, GapBlock};

/// If the blocks may take back an entry of the runs, whose offsets are from before `passed` entries were removed, each outstanding message is
/// looked at again from its own deadline on.
#[inline(always)]
pub(crate) fn wake_for(
    dues: &mut Dues,
    outstanding: &Outstanding,
    covered: &[CoveredRun],
    is_known: bool,
    passed: usize,
    blocks: &Blocks<'_>,
)
    ensures passed { dues.new.passed ≡ dues.old.passed }
    ensures long { length dues.new.moments ≡ length dues.old.moments }
    ensures each { (t now : ℕ) → now < due_at dues.old.passed dues.new.moments t → now < due_at dues.old.passed dues.old.moments t }
    ensures here { dues.old.asleep ≡ true → dues.new.asleep ≡ false → AreWoken dues.old.passed dues.new.moments outstanding.now.items (length outstanding.now.items) }
    ensures known { dues.new.asleep ≡ true → is_known ≡ true }
    ensures asleep { dues.new.asleep ≡ true → LieIn passed covered.now blocks.now }
{
    if !dues.is_asleep() {
        return;
    }
    if is_known && lie_in(covered, passed, blocks) {
        return;
    }
    wake(dues, outstanding);
}

/// Each outstanding message is looked at from its own deadline on, whether it is acknowledged or not.
#[inline(never)]
fn wake(dues: &mut Dues, outstanding: &Outstanding)
    ensures passed { dues.new.passed ≡ dues.old.passed }
    ensures long { length dues.new.moments ≡ length dues.old.moments }
    ensures each { (t now : ℕ) → now < due_at dues.old.passed dues.new.moments t → now < due_at dues.old.passed dues.old.moments t }
    ensures here { AreWoken dues.old.passed dues.new.moments outstanding.now.items (length outstanding.now.items) }
    ensures asleep { dues.new.asleep ≡ false }
{
    for at in 0..outstanding.len() {
        let entry = outstanding.get(at);
        dues.lower(entry.message.ticket, moment_of(&entry.message));
    }
    dues.awake();
}

/// Each of the runs lies in a block, once `passed` entries in front were removed. The runs and the blocks are in order. It is not inlined, so that other
/// SACKs cost little.
#[inline(never)]
pub(crate) fn lie_in(runs: &[CoveredRun], passed: usize, blocks: &Blocks<'_>) -> bool
    ensures { result ≡ true → LieIn passed runs.now blocks.now }
{
    let mut next = 0;
    for block in blocks.iter() {
        next = first_outside(runs, next, passed, block);
    }
    next >= runs.len()
}

/// The first of the runs from one on that doesn't lie in a block.
fn first_outside(runs: &[CoveredRun], from: usize, passed: usize, block: GapBlock) -> usize
    ensures order { from ≤ result }
    ensures inside { (k i : ℕ) (d : RunFields) → from ≤ k → k < result → k < length runs.now → 0 < i → in_run (run_behind passed (slice_index_or runs.now k d)) i ≡ true → is_in_block (block_meaning block) i ≡ true }
{
    for at in from..runs.len() {
        if !lies_in(run_behind(runs[at], passed), block) {
            return at;
        }
    }
    runs.len().max(from)
}

/// A run lies in a block.
fn lies_in(run: CoveredRun, block: GapBlock) -> bool
    ensures { (i : ℕ) → result ≡ true → 0 < i → in_run run i ≡ true → is_in_block (block_meaning block) i ≡ true }
{
    run.to <= run.from || (block.start.saturating_sub(1) <= run.from && run.to <= block.end)
}
