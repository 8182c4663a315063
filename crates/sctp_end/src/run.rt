//! Answers the lines of the input one after another, each before the next one is read.

ghost use Rattle.std.specs.Prelude.{◌≡◌, ℕ, true, ◌+◌, ◌-◌, ◌^◌, ◌<◌, ◌≤◌, List, ◌++◌, IfOk};
ghost use Rattle.sctp_model.specs.end.EndView.{EndView};
ghost use Rattle.sctp_endpoint.specs.EndpointStands.{EndpointStands};
ghost use Rattle.sctp_text.specs.TextLines.{IsTooLong};
ghost use Rattle.sctp_text.specs.declared.limits.TheConstants.{LONGEST_TEXT};
ghost use Rattle.sctp_end.specs.Performing.{Standing};
ghost use Rattle.sctp_end.specs.ReplyText.{reply_line};
ghost use Rattle.sctp_end.specs.SessionStands.{standing};
ghost use Rattle.sctp_end.specs.inner.Running.{failed_reads, failed_writes, IsWritten, LineLeaves, IsSoFar, EndsAs, RunsOn};

use crate::line::read_line;
use crate::reply::Reply;
use crate::reply_line::put_reply;
use crate::session::Session;
use sctp_text::{
    LineReader, NextLine, ReadFault, Sink, SkippedLine, Source, line_after_line, lines_in_one_way,
    skipped_lines_count, write_all,
};
use sctp_values::NoMemory;
use sctp_words::{LineError, LineFault};
use std::alloc::Global;
use thiserror::Error;

/// Why answering stopped before the end of the input.
#[derive(Clone, Copy, Debug, PartialEq, Eq, Error)]
pub enum RunFault {
    /// Reading failed.
    #[error("the lines can't be read")]
    Read,
    /// Writing failed.
    #[error("the answers can't be written")]
    Write,
    /// A line, or the line of an answer, couldn't be allocated.
    #[error("out of memory")]
    NoMemory,
    /// The input has more than 2^40 bytes.
    #[error("the input is too long")]
    TextTooLong,
}

/// Answers all lines of the input.
///
/// # Errors
/// `Read` or `Write` if a call of the reader or of the writer failed, `NoMemory` if a line or the line of an answer couldn't be allocated,
/// `TextTooLong` if the input has more than 2^40 bytes: a prefix of the answers has been written.
pub(crate) fn run_lines<R: Source, W: Sink>(
    session: &mut Session,
    input: &mut R,
    output: &mut W,
) -> Result<(), RunFault>
    requires reads { R.failures input.old < 2 ^ 64 - 1 }
    requires writes { W.failures output.old < 2 ^ 64 - 1 }
    ensures answers { (v : EndView) → EndpointStands session.old.endpoint v
        → (read written : List ℕ) × R.Reads input.old read input.new × W.Writes output.old written output.new
        × EndsAs (R.IsAtEnd input.new) (standing session.old v) result read written }
    ensures failed_reads { R.failures input.new ≡ R.failures input.old + failed_reads result }
    ensures failed_writes { W.failures output.new ≡ W.failures output.old + failed_writes result }
{
    let mut lines = LineReader::new(session.alloc);
    while run_line(session, &mut lines, input, output)? {}
    Ok(())
}

/// Reads the next line and answers it. Returns whether the input may go on.
fn run_line<R: Source, W: Sink>(
    session: &mut Session,
    lines: &mut LineReader,
    input: &mut R,
    output: &mut W,
) -> Result<bool, RunFault>
    requires reads { R.failures input.old < 2 ^ 64 - 1 }
    requires writes { W.failures output.old < 2 ^ 64 - 1 }
    ensures runs { (first : Standing) (text written : List ℕ) (given : List (List ℕ)) → IsSoFar first session.old lines.old text written given
        → (read more : List ℕ) × R.Reads input.old read input.new × W.Writes output.old more output.new
        × RunsOn (R.IsAtEnd input.new) first result session.new lines.new (text ++ read) (written ++ more) }
    ensures small { IfOk result (λ on. on ≡ true → lines.new.given ≤ LONGEST_TEXT) }
    ensures forth { IfOk result (λ on. on ≡ true → lines.old.given < lines.new.given) }
    ensures failed_reads { R.failures input.new ≡ R.failures input.old + failed_reads result }
    ensures failed_writes { W.failures output.new ≡ W.failures output.old + failed_writes result }
{
    // laws: the lines given are the lines of what was read
    line_after_line();
    lines_in_one_way();
    match lines.next_line(input) {
        Ok(NextLine::Ended(line)) => {
            answer(session, &line, output)?;
            Ok(true)
        }
        Ok(NextLine::Last(line)) => {
            answer(session, &line, output)?;
            Ok(false)
        }
        Ok(NextLine::TooLong) => skip(session, lines, input, output),
        Ok(NextLine::End) => Ok(false),
        Err(ReadFault::Failed) => Err(RunFault::Read),
        Err(ReadFault::NoMemory) => Err(RunFault::NoMemory),
    }
}

/// Skips a line that is too long and reports its fault. Returns whether the input may go on.
fn skip<R: Source, W: Sink>(
    session: &mut Session,
    lines: &mut LineReader,
    input: &mut R,
    output: &mut W,
) -> Result<bool, RunFault>
    requires reads { R.failures input.old < 2 ^ 64 - 1 }
    requires writes { W.failures output.old < 2 ^ 64 - 1 }
    requires long { IsTooLong lines.old.given lines.old.held }
    ensures runs { (first : Standing) (text written : List ℕ) (given : List (List ℕ)) → IsSoFar first session.old lines.old text written given
        → (read more : List ℕ) × R.Reads input.old read input.new × W.Writes output.old more output.new
        × RunsOn (R.IsAtEnd input.new) first result session.new lines.new (text ++ read) (written ++ more) }
    ensures small { IfOk result (λ on. on ≡ true → lines.new.given ≤ LONGEST_TEXT) }
    ensures forth { IfOk result (λ on. on ≡ true → lines.old.given < lines.new.given) }
    ensures failed_reads { R.failures input.new ≡ R.failures input.old + failed_reads result }
    ensures failed_writes { W.failures output.new ≡ W.failures output.old + failed_writes result }
{
    // laws: the skipped line counts among the lines of what was read
    skipped_lines_count();
    lines_in_one_way();
    match lines.skip_line(input) {
        Ok(SkippedLine::Ended) => {
            reply_too_long(session.alloc, output)?;
            Ok(true)
        }
        Ok(SkippedLine::Last) => {
            reply_too_long(session.alloc, output)?;
            Ok(false)
        }
        Ok(SkippedLine::TextTooLong) => Err(RunFault::TextTooLong),
        Err(_) => Err(RunFault::Read),
    }
}

/// Does what a line asks for and writes the answer.
fn answer<W: Sink>(session: &mut Session, line: &[u8], output: &mut W) -> Result<(), RunFault>
    requires { W.failures output.old < 2 ^ 64 - 1 }
    ensures answers { (v : EndView) → EndpointStands session.old.endpoint v
        → (written : List ℕ) × W.Writes output.old written output.new × LineLeaves result (standing session.old v) line.now written session.new }
    ensures failed_writes { W.failures output.new ≡ W.failures output.old + failed_writes result }
    ensures no_reads { failed_reads result ≡ 0 }
{
    let alloc = session.alloc;
    match read_line(alloc, line) {
        Ok(None) => Ok(()),
        Ok(Some(call)) => {
            let reply = session.perform(call);
            write_reply(alloc, &reply, output)
        }
        Err(LineError::Fault(fault)) => write_reply(alloc, &Reply::Fault(fault), output),
        Err(LineError::NoMemory) => write_reply(alloc, &Reply::NoMemory, output),
    }
}

/// Writes the answer to a line that is too long.
fn reply_too_long<W: Sink>(alloc: Global, output: &mut W) -> Result<(), RunFault>
    requires { W.failures output.old < 2 ^ 64 - 1 }
    ensures told { (written : List ℕ) × W.Writes output.old written output.new × IsWritten result (reply_line (Reply.Fault LineFault.TooLong)) written }
    ensures failed_writes { W.failures output.new ≡ W.failures output.old + failed_writes result }
    ensures no_reads { failed_reads result ≡ 0 }
{
    write_reply(alloc, &Reply::Fault(LineFault::TooLong), output)
}

/// Writes the line of an answer.
fn write_reply<W: Sink>(alloc: Global, reply: &Reply, output: &mut W) -> Result<(), RunFault>
    requires { W.failures output.old < 2 ^ 64 - 1 }
    ensures told { (written : List ℕ) × W.Writes output.old written output.new × IsWritten result (reply_line reply.now) written }
    ensures failed_writes { W.failures output.new ≡ W.failures output.old + failed_writes result }
    ensures no_reads { failed_reads result ≡ 0 }
{
    let mut line = Vec::new(alloc);
    match put_reply(reply, &mut line) {
        Ok(()) => write_bytes(output, &line),
        Err(NoMemory) => Err(RunFault::NoMemory),
    }
}

/// Writes all of the bytes.
fn write_bytes<W: Sink>(output: &mut W, bytes: &[u8]) -> Result<(), RunFault>
    requires { W.failures output.old < 2 ^ 64 - 1 }
    ensures written { (written : List ℕ) × W.Writes output.old written output.new × IsWritten result bytes.now written }
    ensures failed_writes { W.failures output.new ≡ W.failures output.old + failed_writes result }
    ensures no_reads { failed_reads result ≡ 0 }
{
    match write_all(output, bytes) {
        Ok(()) => Ok(()),
        Err(_) => Err(RunFault::Write),
    }
}
