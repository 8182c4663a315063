//! What a SACK changes of what is acknowledged by gap blocks: the runs of the last SACK are compared with its own, so that an entry that
//! stays as it was costs nothing (RFC 9260, 6.2.1).

ghost use Rattle.std.specs.Prelude.{◌≡◌, ℕ, ◌≤◌, true, max, length, None};
ghost use Rattle.sctp_send.specs.PartsKept.{IsSameRoom};
ghost use Rattle.sctp_model.specs.messages.Acknowledgement.{in_blocks};
ghost use Rattle.sctp_send.specs.CoveredRuns.{AreInOrder, HasPassed, HoldsBlocks};
ghost use Rattle.sctp_send.specs.inner.Acknowledging.{block_fault};
ghost use Rattle.sctp_send.specs.inner.Changes.{all_told, told_where, in_gaps, in_alone, IsExact};

use crate::kept::entry::CoveredRun;
use crate::kept::outstanding::Outstanding;
use crate::sack::entries::{cover, remember};
use sctp_wire::Blocks;
use std::mem;

/// The entries in the blocks are acknowledged, and no others; the runs are those of the blocks. False if the blocks are too many to keep.
///
/// It costs the blocks and the runs, each once, and the entries that change; if the runs weren't known, all entries.
#[inline(always)]
pub(crate) fn cover_blocks(
    outstanding: &mut Outstanding,
    covered: &mut Vec<CoveredRun>,
    spare: &mut Vec<CoveredRun>,
    is_known: bool,
    blocks: &Blocks<'_>,
) -> bool
    requires { block_fault (length outstanding.old.items) blocks.now ≡ None }
    ensures told { IsExact is_known covered.old.items outstanding.old.items → outstanding.new.items ≡ all_told (in_blocks 0 blocks.now) 1 outstanding.old.items }
    ensures runs { result ≡ true → HoldsBlocks covered.new.items blocks.now }
    ensures kept { IsSameRoom outstanding.old outstanding.new }
{
    if is_known && covered.is_empty() && blocks.len() == 0 {
        return true;
    }
    let fits = remember(spare, blocks);
    retell(outstanding, covered, spare, is_known && fits, blocks);
    mem::swap(covered, spare);
    fits
}

/// The entries in the blocks are acknowledged, and no others: by what changes, if the old runs and the new ones are known. It is not inlined, so that a
/// SACK without runs or blocks costs little.
#[inline(never)]
fn retell(
    outstanding: &mut Outstanding,
    old: &[CoveredRun],
    new: &[CoveredRun],
    are_known: bool,
    blocks: &Blocks<'_>,
)
    requires { block_fault (length outstanding.old.items) blocks.now ≡ None }
    ensures told { IsExact are_known old.now outstanding.old.items → (are_known ≡ true → HoldsBlocks new.now blocks.now)
        → outstanding.new.items ≡ all_told (in_blocks 0 blocks.now) 1 outstanding.old.items }
    ensures kept { IsSameRoom outstanding.old outstanding.new }
{
    if are_known {
        tell_alone(outstanding, new, old, true);
        tell_alone(outstanding, old, new, false);
        return;
    }
    cover(outstanding, blocks);
}

/// Sets the entries that are in some run, and in none of the others, acknowledged or not: one pass over both lists, side by side.
fn tell_alone(
    outstanding: &mut Outstanding,
    runs: &[CoveredRun],
    others: &[CoveredRun],
    covered: bool,
)
    ensures items { AreInOrder 0 runs.now → AreInOrder 0 others.now → outstanding.new.items ≡ told_where covered (in_alone runs.now others.now) 1 outstanding.old.items }
    ensures kept { IsSameRoom outstanding.old outstanding.new }
{
    let last = outstanding.len();
    // The others before this one end before the next run begins.
    let mut first = 0;
    for run in runs {
        first = tell_gaps(
            outstanding,
            others,
            first,
            covered,
            usize::from(run.from),
            usize::from(run.to).min(last),
        );
    }
}

/// Sets the entries after `from`, up to `to`, that are in none of the runs acknowledged or not. The runs before `first` end before `from`,
/// and aren't looked at. It returns how many end at `to` or before.
fn tell_gaps(
    outstanding: &mut Outstanding,
    runs: &[CoveredRun],
    first: usize,
    covered: bool,
    from: usize,
    to: usize,
) -> usize
    requires { to ≤ length outstanding.old.items }
    ensures items { AreInOrder 0 runs.now → HasPassed runs.now first from → outstanding.new.items ≡ told_where covered (in_gaps runs.now from to) 1 outstanding.old.items }
    ensures passed { HasPassed runs.now first from → HasPassed runs.now result (max from to) }
    ensures long { length outstanding.new.items ≡ length outstanding.old.items }
    ensures kept { IsSameRoom outstanding.old outstanding.new }
{
    let mut at = from;
    for next in first..runs.len() {
        let run = runs[next];
        let end = usize::from(run.to);
        let gap = usize::from(run.from).min(to);
        outstanding.tell_run(covered, at.min(gap), gap);
        at = at.max(end);
        if to < end {
            return next;
        }
    }
    outstanding.tell_run(covered, at.min(to), to);
    runs.len()
}
