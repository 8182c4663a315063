//! Which indexes were received: none is missing up to the cumulative one, and above it there are runs.
//!
//! A new index's position is found by one binary search (how many runs begin by the index after it, `runs.rt`): the last of these runs, and the
//! one before it, say whether the index is there already, is a run of its own, extends a run or joins two. What a move of the cumulative index passes
//! is found by one such search, and dropped.

ghost use Rattle.std.specs.Prelude.{◌≡◌, suc, ◌+◌, ◌≤◌, ◌<◌, ◌%◌, [], true, false, nat_lt, OnOk, OnErr, IsOk, take, map, length};
ghost use Rattle.std.specs.List.{AllByRecursion};
ghost use Rattle.sctp_wire.specs.Items.{blocks_in, IsBlock};
ghost use Rattle.sctp_wire.specs.ChunkTree.{block_meaning};
ghost use Rattle.sctp_recv.specs.Blocks.{block_of_run};
ghost use Rattle.sctp_recv.specs.Runs.{AreSpaced};
ghost use Rattle.sctp_recv.specs.SeenKept.{is_reached, seen_of, AreWithin, IsAdvanced};
ghost use Rattle.sctp_recv.specs.SeenStands.{SeenStands, Records, Jumps};
ghost use Rattle.sctp_model.specs.numbers.Limits.{WINDOW, BLOCK_LIMIT, RUN_LIMIT};

use crate::runs::{SeenRun, insert, upto};
use sctp_sequence::Sequence;
use sctp_values::{BLOCK_LIMIT, NoMemory, WINDOW};
use sctp_wire::{GapBlock, put_block};
use std::alloc::Global;
use std::marker::Model;

/// The indexes recorded.
#[derive(Drop)]
pub(crate) struct Seen {
    cumulative: u64,
    runs: Sequence<SeenRun>,
}

impl Model for Seen {
    ghost use Rattle.sctp_recv.specs.SeenKept.{SeenRoom};

    ghost Value = { SeenRoom };

    ghost use Rattle.sctp_recv.specs.SeenKept.{IsKept, seen_of, with_room};

    ghost view = { λ s. with_room (seen_of s.cumulative s.runs.items) s.runs.room };

    ghost invariant = { λ s. IsKept s.cumulative s.runs.items };
}

impl Seen {
    /// No index was received.
    pub(crate) fn new(alloc: Global) -> Seen
        ensures { SeenStands result.kept (λ _. false) 0 }
    {
        Seen {
            cumulative: 0,
            runs: Sequence::new(alloc),
        }
    }

    /// The cumulative index: all up to it were received or skipped.
    pub(crate) fn cumulative(&self) -> u64
        ensures value { result ≡ self.now.kept.cumulative }
        ensures within { AreWithin (self.now.kept.cumulative + WINDOW) self.now.kept.runs }
    {
        self.cumulative
    }

    /// The number of runs above the cumulative index.
    pub(crate) fn run_count(&self) -> u32
        ensures count { result ≡ length self.now.kept.runs }
        ensures bound { result ≤ RUN_LIMIT }
    {
        self.runs.len() as u32
    }

    /// Whether there is a run above the cumulative index.
    pub(crate) fn has_runs(&self) -> bool
        ensures { result ≡ nat_lt 0 (length self.now.kept.runs) }
    {
        !self.runs.is_empty()
    }

    /// Appends the lowest 64 runs, as gap ack blocks.
    ///
    /// # Errors
    /// Allocation failed.
    #[inline(always)]
    pub(crate) fn put_blocks(&self, list: &mut Vec<u8>) -> Result<(), NoMemory>
        requires { list.old.items ≡ [] }
        ensures blocks { OnOk result (blocks_in list.new.items ≡ map (block_of_run self.now.kept.cumulative) (take BLOCK_LIMIT self.now.kept.runs)) }
        ensures in_range { OnOk result (AllByRecursion IsBlock (blocks_in list.new.items)) }
        ensures few { OnOk result (length (blocks_in list.new.items) ≤ BLOCK_LIMIT) }
        ensures whole { length list.new.items % 4 ≡ 0 }
    {
        if self.runs.is_empty() {
            return Ok(());
        }
        self.put_runs(list)
    }

    /// Appends the lowest 64 runs, as gap ack blocks; called only if there are any.
    ///
    /// # Errors
    /// Allocation failed.
    fn put_runs(&self, list: &mut Vec<u8>) -> Result<(), NoMemory>
        requires { list.old.items ≡ [] }
        ensures blocks { OnOk result (blocks_in list.new.items ≡ map (block_of_run self.now.kept.cumulative) (take BLOCK_LIMIT self.now.kept.runs)) }
        ensures in_range { OnOk result (AllByRecursion IsBlock (blocks_in list.new.items)) }
        ensures few { OnOk result (length (blocks_in list.new.items) ≤ BLOCK_LIMIT) }
        ensures whole { length list.new.items % 4 ≡ 0 }
    {
        let told = self.runs.len().min(BLOCK_LIMIT);
        for i in 0..told {
            put_block(block_above(self.cumulative, *self.runs.get(i)), list)?;
        }
        Ok(())
    }

    /// Whether the index was received, or is at or below the cumulative one. It is inlined: of the next index nothing is looked up.
    #[inline(always)]
    pub(crate) fn is_reached(&self, index: u64) -> bool
        ensures { result ≡ is_reached self.now.kept index }
    {
        if index <= self.cumulative {
            return true;
        }
        if index - self.cumulative == 1 {
            return false;
        }
        match upto(&self.runs, index) {
            0 => false,
            some => self.runs.get(some - 1).has(index),
        }
    }

    /// Allocates memory for one more run, unless the index is the one after the cumulative index.
    ///
    /// # Errors
    /// Allocation failed.
    #[inline(always)]
    pub(crate) fn reserve(&mut self, index: u64) -> Result<(), NoMemory>
        ensures same { self.new.kept ≡ self.old.kept }
        ensures room { OnOk result (suc self.new.kept.cumulative < index → self.new.room ≡ true) }
    {
        if index.saturating_sub(self.cumulative) <= 1 {
            return Ok(());
        }
        self.runs.reserve()
    }

    /// Records an index that wasn't received, at most 32,767 above the cumulative one. Any other changes nothing.
    ///
    /// # Errors
    /// Allocation failed, and nothing changed.
    #[inline(always)]
    pub(crate) fn add(&mut self, index: u64) -> Result<(), NoMemory>
        ensures recorded { OnOk result (is_reached self.old.kept index ≡ false → index ≤ self.old.kept.cumulative + WINDOW
            → Records self.old.kept self.new.kept index) }
        ensures refused { OnErr result (self.new.kept ≡ self.old.kept) }
        ensures memory { self.old.room ≡ true → IsOk result }
        ensures gap { OnErr result (suc self.old.kept.cumulative < index) }
    {
        let above = index.saturating_sub(self.cumulative);
        if above == 1 {
            advance(&mut self.cumulative, &mut self.runs, index);
            return Ok(());
        }
        if above == 0 || above > u64::from(WINDOW) {
            return Ok(());
        }
        insert(&mut self.runs, index)
    }

    /// Gives back the memory of runs, if there are none.
    pub(crate) fn trim(&mut self)
        ensures { self.new.kept ≡ self.old.kept }
    {
        self.runs.trim();
    }

    /// Counts all indexes up to this one as received.
    pub(crate) fn jump(&mut self, index: u64)
        ensures { self.old.kept.cumulative ≤ index → Jumps self.old.kept self.new.kept index }
    {
        if self.cumulative <= index {
            advance(&mut self.cumulative, &mut self.runs, index);
        }
    }
}

/// A run as a gap ack block: the offsets of its first and its last index above the cumulative one.
fn block_above(index: u64, run: SeenRun) -> GapBlock
    requires below { index ≤ run.first }
    requires order { run.first ≤ run.last }
    requires near { run.last ≤ index + WINDOW }
    ensures { block_meaning result ≡ block_of_run index run }
{
    GapBlock {
        start: (run.first - index) as u16,
        end: (run.last - index) as u16,
    }
}

/// Moves the cumulative index up to an index, and on to the last of the run that it then touches or is in. What it passes is dropped.
#[inline(always)]
fn advance(cumulative: &mut u64, runs: &mut Sequence<SeenRun>, index: u64)
    requires { AreSpaced runs.old.items }
    ensures { IsAdvanced index runs.old.items (seen_of cumulative.new runs.new.items) }
{
    if runs.is_empty() {
        *cumulative = index;
        return;
    }
    pass(cumulative, runs, index);
}

/// Moves the cumulative index as `advance` does; called only if there are runs. If none is left, memory is given back.
#[inline(never)]
fn pass(cumulative: &mut u64, runs: &mut Sequence<SeenRun>, index: u64)
    requires { AreSpaced runs.old.items }
    ensures { IsAdvanced index runs.old.items (seen_of cumulative.new runs.new.items) }
{
    let passed = upto(runs, index);
    *cumulative = match passed {
        0 => index,
        some => runs.get(some - 1).last.max(index),
    };
    for _ in 0..passed {
        let _ = runs.pop_front();
    }
    runs.give_back();
}
