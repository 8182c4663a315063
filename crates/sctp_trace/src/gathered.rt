//! Buffers the output of a script, and decides when it is written.

ghost use Rattle.std.specs.Prelude.{◌≡◌, ℕ, ◌+◌, ◌-◌, ◌^◌, ◌<◌, List, [], ◌++◌, Option, OnOk, ◌⊎◌};
ghost use Rattle.sctp_model.specs.world.World.{World};
ghost use Rattle.sctp_events.specs.Events.{event_meaning, outcome_meaning};
ghost use Rattle.sctp_script.specs.OutcomeText.{outcome_line};
ghost use Rattle.sctp_text.specs.TextLines.{MayBegin};
ghost use Rattle.sctp_trace.specs.Script.{failed_reads, failed_writes};
ghost use Rattle.sctp_trace.specs.inner.ScriptSteps.{StandsAt, IsWrittenOf, IsGatheredOf, IsPassedOn, IsClosed, Closes};

use crate::script::ScriptFault;
use sctp_pair::{Event, Outcome, Pair};
use sctp_script::put_outcome;
use sctp_text::{Failed, LineReader, Sink, write_all};
use sctp_values::NoMemory;
use sctp_words::LineFault;
use std::alloc::Global;

/// The buffer is written once it has this many bytes, even if the next line is already held.
const ENOUGH: usize = 4_096;

/// Writes the rest of the buffer at the end of a script, unless a call has failed already: the buffer is empty whenever the reader is called.
pub(crate) fn close<W: Sink>(
    ended: Result<(), ScriptFault>,
    gathered: &[u8],
    output: &mut W,
) -> Result<(), ScriptFault>
    requires { failed_writes ended ≡ 0 → W.failures output.old < 2 ^ 64 - 1 }
    ensures closed { (written : List ℕ) × W.Writes output.old written output.new × IsClosed ended result gathered.now written }
    ensures failed_reads { failed_reads result ≡ failed_reads ended }
    ensures failed_writes { W.failures output.new + failed_writes ended ≡ W.failures output.old + failed_writes result }
{
    match ended {
        Err(ScriptFault::Read | ScriptFault::Write) => ended,
        _ => {
            write_bytes(output, gathered)?;
            ended
        }
    }
}

/// Writes the buffer if the next line has to be read, or if enough is buffered.
pub(crate) fn pass_on<W: Sink>(
    lines: &LineReader,
    gathered: &mut Vec<u8>,
    output: &mut W,
) -> Result<(), ScriptFault>
    requires { W.failures output.old < 2 ^ 64 - 1 }
    ensures written { (written : List ℕ) × W.Writes output.old written output.new
        × IsPassedOn result gathered.old.items written gathered.new.items }
    // Nothing stays buffered while the next line is read.
    ensures answered { OnOk result ((gathered.new.items ≡ []) ⊎ (¬ MayBegin lines.now.given lines.now.held)) }
    ensures failed_writes { W.failures output.new ≡ W.failures output.old + failed_writes result }
    ensures no_reads { failed_reads result ≡ 0 }
{
    if lines.is_ready() && gathered.len() < ENOUGH {
        return Ok(());
    }
    let written = write_bytes(output, gathered);
    gathered.clear();
    written
}

/// Buffers the line of an event's outcome.
pub(crate) fn gather_outcome(
    alloc: Global,
    event: &Event,
    outcome: &Outcome,
    gathered: &mut Vec<u8>,
) -> Result<(), ScriptFault>
    ensures gathers { (here : List ℕ) × (gathered.new.items ≡ gathered.old.items ++ here)
        × IsGatheredOf result (outcome_line (event_meaning event.now) (outcome_meaning outcome.now)) here }
    ensures no_calls { (failed_reads result ≡ 0) × (failed_writes result ≡ 0) }
{
    match put_outcome(alloc, event, outcome, gathered) {
        Ok(()) => Ok(()),
        Err(NoMemory) => Err(ScriptFault::NoMemory),
    }
}

/// Buffers the report of the pair, at the end of a script.
pub(crate) fn finish(pair: &Option<Pair>, gathered: &mut Vec<u8>) -> Result<(), ScriptFault>
    ensures closes { (state : Option World) → StandsAt pair.now state
        → (here : List ℕ) × (gathered.new.items ≡ gathered.old.items ++ here) × Closes result state here }
    ensures no_calls { (failed_reads result ≡ 0) × (failed_writes result ≡ 0) }
{
    match pair {
        Some(pair) => {
            let report = pair.report().map_err(|_| ScriptFault::NoMemory)?;
            match gathered.extend_from_slice(&report) {
                Ok(()) => Ok(()),
                Err(_) => Err(ScriptFault::NoMemory),
            }
        }
        None => Err(ScriptFault::Line(1, LineFault::PairOrder)),
    }
}

/// Writes all of the bytes.
fn write_bytes<W: Sink>(output: &mut W, bytes: &[u8]) -> Result<(), ScriptFault>
    requires { W.failures output.old < 2 ^ 64 - 1 }
    ensures written { (written : List ℕ) × W.Writes output.old written output.new × IsWrittenOf result bytes.now written }
    ensures failed_writes { W.failures output.new ≡ W.failures output.old + failed_writes result }
    ensures no_reads { failed_reads result ≡ 0 }
{
    match write_all(output, bytes) {
        Ok(()) => Ok(()),
        Err(Failed) => Err(ScriptFault::Write),
    }
}
