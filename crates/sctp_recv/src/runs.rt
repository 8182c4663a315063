//! Runs of indexes in rising order, with an index missing between any two; the cumulative one is kept in `seen.rt`.

ghost use Rattle.std.specs.Prelude.{◌≡◌, ◌<◌, ◌≤◌, ◌-◌, true, nat_le, length, MatchOption, OnSome, OnOk, OnErr, IsOk};
ghost use Rattle.sctp_recv.specs.Runs.{AreSpaced, in_run, in_runs, begins_by, IsPlace, AllBelow, IsReaching, Gain};

use sctp_sequence::Sequence;
use sctp_values::NoMemory;

/// Consecutive indexes that were received, from the first to the last.
#[derive(Clone, Copy)]
pub(crate) struct SeenRun {
    pub(crate) first: u64,
    pub(crate) last: u64,
}

impl SeenRun {
    /// Whether the index is one of these.
    pub(crate) fn has(self, index: u64) -> bool
        ensures { result ≡ in_run self index }
    {
        self.first <= index && index <= self.last
    }
}

/// How many runs are below an index, contain it, or touch it.
#[inline(never)]
pub(crate) fn upto(runs: &Sequence<SeenRun>, index: u64) -> usize
    ensures bound { result ≤ length runs.now.items }
    ensures place { AreSpaced runs.now.items → IsPlace (begins_by index) runs.now.items result }
{
    runs.partition_point(
        |run: &SeenRun| -> bool
            ensures { result ≡ nat_le (run.now.first - 1) index }
        { run.first.saturating_sub(1) <= index },
    )
}

/// The run before a position, unless it is below the index without touching it.
fn reaching(runs: &Sequence<SeenRun>, at: usize, index: u64) -> Option<SeenRun>
    requires { at ≤ length runs.now.items }
    ensures some { OnSome result (0 < at) }
    ensures run { AreSpaced runs.now.items → MatchOption result (AllBelow index runs.now.items at) (IsReaching index runs.now.items at) }
{
    let run = *runs.get(at.checked_sub(1)?);
    if run.last < index.saturating_sub(1) {
        return None;
    }
    Some(run)
}

/// The run from `first` to `last`.
fn run_of(first: u64, last: u64) -> SeenRun
    ensures first { result.first ≡ first }
    ensures last { result.last ≡ last }
{
    SeenRun { first, last }
}

/// Adds an index to the runs: it is a run of its own, extends a run, or joins two. One that is there already changes nothing.
///
/// # Errors
/// Allocation failed, and nothing changed.
pub(crate) fn insert(runs: &mut Sequence<SeenRun>, index: u64) -> Result<(), NoMemory>
    ensures inserted { OnOk result (Gain index runs.old.items runs.new.items) }
    ensures there { OnOk result (AreSpaced runs.old.items → in_runs runs.old.items index ≡ true → runs.new.items ≡ runs.old.items) }
    ensures refused { OnErr result (runs.new.items ≡ runs.old.items) }
    ensures memory { runs.old.room ≡ true → IsOk result }
{
    let next = upto(runs, index);
    let Some(last) = reaching(runs, next, index) else {
        return runs.insert(next, run_of(index, index));
    };
    let at = next - 1;
    if last.has(index) {
        return Ok(());
    }
    if last.first > index {
        if let Some(before) = reaching(runs, at, index) {
            let _ = runs.replace(at - 1, run_of(before.first, last.last));
            let _ = runs.remove(at);
            return Ok(());
        }
    }
    let _ = runs.replace(at, run_of(last.first.min(index), last.last.max(index)));
    Ok(())
}
