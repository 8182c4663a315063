//! Runs a script: each line acts before the next one is read, and the report is last.

ghost use Rattle.std.specs.Prelude.{◌≡◌, ℕ, suc, true, ◌+◌, ◌-◌, ◌^◌, ◌<◌, ◌≤◌, List, [], ◌++◌, length, IfOk, OnOk, ◌⊎◌};
ghost use Rattle.sctp_trace.specs.Stages.{Stage, Unpaired};
ghost use Rattle.sctp_trace.specs.Script.{IsAnswered, failed_reads, failed_writes};
ghost use Rattle.sctp_trace.specs.inner.ScriptSteps.{Stand, IsSetUp, IsWrittenOf, IsGatheredOf, IsPassedOn, IsClosed, LineLeaves, Closes, IsSoFar, RunsOn, EndsAs, fault_of};
ghost use Rattle.sctp_text.specs.TextLines.{MayBegin};
ghost use Rattle.sctp_text.specs.declared.limits.TheConstants.{LONGEST_TEXT};

use crate::gathered::{close, finish, gather_outcome, pass_on};
use crate::script_laws::lines_are_there;
use sctp_cookie::keys_have_seals;
use sctp_pair::{Pair, TwoConfigs};
use sctp_script::{Place, Placed, Preamble, events_at_their_place, read_line_at};
use sctp_text::{LineReader, NextLine, ReadFault, Sink, Source, line_after_line};
use sctp_words::{LineError, LineFault};
use std::alloc::Global;
use thiserror::Error;

/// Why a script ended before its report was written.
#[derive(Clone, Copy, Debug, PartialEq, Eq, Error)]
pub enum ScriptFault {
    /// 1: reading failed.
    #[error("the script can't be read")]
    Read,
    /// 2: writing failed.
    #[error("the outcomes can't be written")]
    Write,
    /// 3: an allocation failed.
    #[error("out of memory")]
    NoMemory,
    /// 4: the first line with a fault, counted from 1, and the fault.
    #[error("line {0}: {1}")]
    Line(u64, LineFault),
}

/// Runs a script line by line and writes the outcome of each line before it waits for more input, and the report at the end. At most one line
/// of the script and one block of its output are held.
///
/// # Errors
/// `Line` at the first line with a fault: the outcomes of the lines before it have been written, and no report. A script in which no line
/// acts or has a fault has one at line 1, since `pair` is missing. `Read` or `Write` if a call of the reader or of the writer failed, and
/// `NoMemory` if an allocation did: a prefix of the output has been written.
pub fn run_script<R: Source, W: Sink>(
    alloc: Global,
    input: &mut R,
    output: &mut W,
) -> Result<(), ScriptFault>
    requires reads { R.failures input.old < 2 ^ 64 - 1 }
    requires writes { W.failures output.old < 2 ^ 64 - 1 }
    ensures answer { (read written : List ℕ) × R.Reads input.old read input.new × W.Writes output.old written output.new
        × IsAnswered (R.IsAtEnd input.new) result read written }
    ensures failed_reads { R.failures input.new ≡ R.failures input.old + failed_reads result }
    ensures failed_writes { W.failures output.new ≡ W.failures output.old + failed_writes result }
{
    // law: what the first lines write is a prefix of what all lines write
    lines_are_there();
    let mut gathered = Vec::new(alloc);
    let ended = run_lines(alloc, input, output, &mut gathered);
    close(ended, &gathered, output)
}

/// Runs all lines of a script. What isn't written yet is in the buffer, the report last.
fn run_lines<R: Source, W: Sink>(
    alloc: Global,
    input: &mut R,
    output: &mut W,
    gathered: &mut Vec<u8>,
) -> Result<(), ScriptFault>
    requires reads { R.failures input.old < 2 ^ 64 - 1 }
    requires writes { W.failures output.old < 2 ^ 64 - 1 }
    requires empty { gathered.old.items ≡ [] }
    ensures answer { (read written : List ℕ) × R.Reads input.old read input.new × W.Writes output.old written output.new
        × EndsAs (R.IsAtEnd input.new) result read (written ++ gathered.new.items) }
    ensures failed_reads { R.failures input.new ≡ R.failures input.old + failed_reads result }
    ensures failed_writes { W.failures output.new ≡ W.failures output.old + failed_writes result }
{
    let mut running = Running::new(alloc);
    let ended = run_all(&mut running, input, output, gathered);
    drop(running);
    ended
}

/// Runs all lines of a script from its beginning.
fn run_all<R: Source, W: Sink>(
    running: &mut Running,
    input: &mut R,
    output: &mut W,
    gathered: &mut Vec<u8>,
) -> Result<(), ScriptFault>
    requires reads { R.failures input.old < 2 ^ 64 - 1 }
    requires writes { W.failures output.old < 2 ^ 64 - 1 }
    requires empty { gathered.old.items ≡ [] }
    requires begins { IsSoFar running.old [] [] [] Unpaired }
    ensures answer { (read written : List ℕ) × R.Reads input.old read input.new × W.Writes output.old written output.new
        × EndsAs (R.IsAtEnd input.new) result read (written ++ gathered.new.items) }
    ensures failed_reads { R.failures input.new ≡ R.failures input.old + failed_reads result }
    ensures failed_writes { W.failures output.new ≡ W.failures output.old + failed_writes result }
{
    while running.run_line(input, output, gathered)? {}
    finish(&running.pair, gathered)
}

/// The state of a run: the reader of the script's lines, the pair once there is one, what was said of its endpoints, and the number of the next
/// line.
#[derive(Drop)]
struct Running {
    alloc: Global,
    lines: LineReader,
    pair: Option<Pair>,
    preamble: Preamble,
    number: u64,
}

impl Running {
    /// The state before the first line.
    fn new(alloc: Global) -> Running
        ensures { IsSoFar result [] [] [] Unpaired }
    {
        Running {
            alloc,
            lines: LineReader::new(alloc),
            pair: None,
            preamble: Preamble::default(),
            number: 1,
        }
    }

    /// Reads the next line, does what it asks for and buffers its outcome. Returns whether the input may go on.
    fn run_line<R: Source, W: Sink>(
        &mut self,
        input: &mut R,
        output: &mut W,
        gathered: &mut Vec<u8>,
    ) -> Result<bool, ScriptFault>
        requires reads { R.failures input.old < 2 ^ 64 - 1 }
        requires writes { W.failures output.old < 2 ^ 64 - 1 }
        requires number { self.old.number ≤ suc self.old.lines.given }
        requires small { self.old.lines.given ≤ LONGEST_TEXT }
        ensures runs { (text done : List ℕ) (lines : List (List ℕ)) (stage : Stage) → IsSoFar self.old text (done ++ gathered.old.items) lines stage
            → (read written : List ℕ) × R.Reads input.old read input.new × W.Writes output.old written output.new
            × RunsOn (R.IsAtEnd input.new) result self.new (text ++ read) ((done ++ written) ++ gathered.new.items) }
        ensures small { IfOk result (λ on. on ≡ true → self.new.lines.given ≤ LONGEST_TEXT) }
        ensures forth { IfOk result (λ on. on ≡ true → self.old.lines.given < self.new.lines.given) }
        ensures failed_reads { R.failures input.new ≡ R.failures input.old + failed_reads result }
        ensures failed_writes { W.failures output.new ≡ W.failures output.old + failed_writes result }
    {
        // law: the lines given are the lines of what was read
        line_after_line();
        pass_on(&self.lines, gathered, output)?;
        match self.lines.next_line(input) {
            Ok(NextLine::Ended(line)) => {
                act(
                    self.alloc,
                    &mut self.pair,
                    &mut self.preamble,
                    self.number,
                    &line,
                    gathered,
                )?;
                self.number += 1;
                Ok(true)
            }
            Ok(NextLine::Last(line)) => {
                act(
                    self.alloc,
                    &mut self.pair,
                    &mut self.preamble,
                    self.number,
                    &line,
                    gathered,
                )?;
                Ok(false)
            }
            Ok(NextLine::TooLong) => Err(ScriptFault::Line(self.number, LineFault::TooLong)),
            Ok(NextLine::End) => Ok(false),
            Err(fault) => Err(read_fault(fault)),
        }
    }
}

/// Does what a line asks for and buffers the line of its outcome.
fn act(
    alloc: Global,
    pair: &mut Option<Pair>,
    preamble: &mut Preamble,
    number: u64,
    line: &[u8],
    gathered: &mut Vec<u8>,
) -> Result<(), ScriptFault>
    ensures leaves { (stage : Stage) → Stand pair.old preamble.old stage
        → (here : List ℕ) × (gathered.new.items ≡ gathered.old.items ++ here) × LineLeaves result number stage line.now here pair.new preamble.new }
    ensures no_calls { (failed_reads result ≡ 0) × (failed_writes result ≡ 0) }
{
    // law: an event is after the `pair` line
    events_at_their_place();
    match read_line_at(alloc, line, Place::of(pair.is_some(), *preamble)) {
        Ok(None) => Ok(()),
        Ok(Some(Placed::Pair(config))) => {
            set_up(alloc, &TwoConfigs::alike(config), false, pair, preamble)
        }
        Ok(Some(Placed::Options(configs))) => set_up(alloc, &configs, true, pair, preamble),
        Ok(Some(Placed::Event(event))) => {
            let Some(pair) = pair else { unreachable!() };
            let outcome = pair.step(&event).map_err(|_| ScriptFault::NoMemory)?;
            preamble.fresh = None;
            gather_outcome(alloc, &event, &outcome, gathered)
        }
        Err(LineError::Fault(fault)) => Err(ScriptFault::Line(number, fault)),
        Err(LineError::NoMemory) => Err(ScriptFault::NoMemory),
    }
}

/// Makes the pair with these configurations, in place of the one that is there. `with_options` says whether a line of options gives them.
fn set_up(
    alloc: Global,
    configs: &TwoConfigs,
    with_options: bool,
    pair: &mut Option<Pair>,
    preamble: &mut Preamble,
) -> Result<(), ScriptFault>
    ensures { IsSetUp result configs.now with_options pair.new preamble.new }
{
    // law: the listener's key has a seal
    keys_have_seals();
    match Pair::of_two(alloc, *configs) {
        Ok(made) => {
            drop(pair.replace(made));
            *preamble = Preamble {
                fresh: Some(*configs),
                with_options,
            };
            Ok(())
        }
        Err(_) => Err(ScriptFault::NoMemory),
    }
}

/// Why no line could be read.
fn read_fault(fault: ReadFault) -> ScriptFault
    ensures { result ≡ fault_of fault }
{
    match fault {
        ReadFault::Failed => ScriptFault::Read,
        ReadFault::NoMemory => ScriptFault::NoMemory,
    }
}
