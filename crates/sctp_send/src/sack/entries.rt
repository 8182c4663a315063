//! The entries above the cumulative TSN acknowledged (CUM), the one of CUM + 1 in front: which of them a SACK acknowledges by gap blocks or
//! cumulatively (RFC 9260, 6.2.1).

ghost use Rattle.std.specs.Prelude.{◌≡◌, true, false, ◌≤◌, ◌-◌, [], length, drop, None};
ghost use Rattle.std.specs.VecDeque.{deque_capacity};
ghost use Rattle.sctp_send.specs.PartsKept.{IsSameRoom};
ghost use Rattle.sctp_model.specs.messages.Acknowledgement.{in_blocks};
ghost use Rattle.sctp_send.specs.inner.Changes.{all_told};
ghost use Rattle.sctp_model.specs.sender.SackTaken.{some_is_bad};
ghost use Rattle.sctp_send.specs.CoveredRuns.{run_behind, runs_behind, HoldsBlocks};
ghost use Rattle.sctp_send.specs.inner.Acknowledging.{block_fault};

use crate::kept::counts::Counts;
use crate::kept::entry::{CoveredRun, Entry, RUNS};
use crate::kept::message::Message;
use crate::kept::outstanding::Outstanding;
use crate::kept::shells::keep_shell;
use sctp_wire::Blocks;
use std::alloc::Global;
use std::collections::VecDeque;
use std::sync::Arc;

/// The entries in the blocks are acknowledged, and no others, whatever an earlier SACK said.
pub(crate) fn cover(outstanding: &mut Outstanding, blocks: &Blocks<'_>)
    requires { block_fault (length outstanding.old.items) blocks.now ≡ None }
    ensures covered { outstanding.new.items ≡ all_told (in_blocks 0 blocks.now) 1 outstanding.old.items }
    ensures kept { IsSameRoom outstanding.old outstanding.new }
{
    let last = outstanding.len();
    outstanding.tell_run(false, 0, last);
    for block in blocks.iter() {
        outstanding.tell_run(true, usize::from(block.start) - 1, usize::from(block.end));
    }
}

/// Removes the first `passed` entries, which are acknowledged cumulatively. The memory of their messages is kept for further messages.
#[inline(always)]
pub(crate) fn forget(
    outstanding: &mut Outstanding,
    shells: &mut Vec<Arc<Message>>,
    alloc: Global,
    passed: usize,
)
    requires { passed ≤ length outstanding.old.items }
    ensures items { outstanding.new.items ≡ drop passed outstanding.old.items }
    ensures kept { IsSameRoom outstanding.old outstanding.new }
{
    if passed == outstanding.len() {
        outstanding.clear(shells, alloc);
        return;
    }
    for _ in 0..passed {
        if let Some(message) = outstanding.pop_front() {
            keep_shell(shells, alloc, message);
        }
    }
}

impl Outstanding {
    /// Removes all entries and resets the counts, without subtracting each entry.
    fn clear(&mut self, shells: &mut Vec<Arc<Message>>, alloc: Global)
        ensures { self.new ≡ record self.old { items = [] } }
    {
        keep_shells(&mut self.entries, shells, alloc);
        self.by_ticket.clear();
        self.counts = Counts::none(self.counts.header);
    }
}

/// Removes all entries. The memory of their messages is kept for further messages.
fn keep_shells(entries: &mut VecDeque<Entry>, shells: &mut Vec<Arc<Message>>, alloc: Global)
    ensures items { entries.new.items ≡ [] }
    ensures capacity { deque_capacity entries.new ≡ deque_capacity entries.old }
{
    for _ in 0..entries.len() {
        if let Some(entry) = entries.pop_front() {
            let Entry { message, .. } = entry;
            keep_shell(shells, alloc, message);
        }
    }
}

/// The runs once `passed` entries in front were removed.
pub(crate) fn move_on(runs: &mut Vec<CoveredRun>, passed: usize)
    ensures { runs.new.items ≡ runs_behind passed runs.old.items }
{
    for at in 0..runs.len() {
        runs[at] = run_behind(runs[at], passed);
    }
}

/// A run once `passed` entries in front were removed.
pub(crate) fn run_behind(run: CoveredRun, passed: usize) -> CoveredRun
    ensures { result ≡ run_behind passed run }
{
    CoveredRun {
        from: less(run.from, passed),
        to: less(run.to, passed),
    }
}

/// An offset less the number of entries that were removed; 0 if they are more.
fn less(offset: u16, passed: usize) -> u16
    ensures { result ≡ offset - passed }
{
    if passed < usize::from(offset) {
        offset - passed as u16
    } else {
        0
    }
}

/// Keeps the runs of the blocks, instead of those that were kept; false if there are too many.
pub(crate) fn remember(runs: &mut Vec<CoveredRun>, blocks: &Blocks<'_>) -> bool
    requires { some_is_bad 0 blocks.now ≡ false }
    ensures { result ≡ true → HoldsBlocks runs.new.items blocks.now }
{
    runs.clear();
    for block in blocks.iter() {
        let run = CoveredRun {
            from: block.start.saturating_sub(1),
            to: block.end,
        };
        if runs.len() >= RUNS || runs.push(run).is_err() {
            return false;
        }
    }
    true
}
