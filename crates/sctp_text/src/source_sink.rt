//! Input and output streams, one call at a time.

ghost use Rattle.std.specs.Prelude.{◌≡◌, ℕ, List, [], ◌++◌, ◌+◌, ◌-◌, ◌^◌, ◌<◌, ◌≤◌, length, IfOk};
ghost use Rattle.sctp_text.specs.Streams.{moved, failed_calls, reader_below, writer_below};
ghost use Rattle.sctp_text.specs.inner.StdAnswers.{answer_of_read, answer_of_write};

use std::io::{Read, Result as IoResult, Write};
use thiserror::Error;

/// A call of a source or of a sink failed.
#[derive(Clone, Copy, Debug, PartialEq, Eq, Error)]
#[error("a call of the reader or the writer failed")]
pub struct Failed;

/// An input stream.
pub trait Source {
    // From the first state to the second just these bytes were read.
    ghost Reads: { Self → List ℕ → Self → Type 0 };
    // The input is at its end.
    ghost IsAtEnd: { Self → Type 0 };
    // The number of calls that have failed so far.
    ghost failures: { Self → ℕ };

    /// Reads the next bytes into the beginning of the buffer and returns their number; 0 with a non-empty buffer means the end of the
    /// input. The content of the rest of the buffer is unspecified.
    ///
    /// # Errors
    /// `Failed` if the call failed: nothing was read then.
    fn read(&mut self, buffer: &mut [u8]) -> Result<usize, Failed>
        requires { failures self.old < 2 ^ 64 - 1 }
        ensures bound { IfOk result (λ count. count ≤ length buffer.old) }
        ensures bytes { Reads self.old (moved result buffer.new) self.new }
        ensures end { IfOk result (λ count. count ≡ 0 → 0 < length buffer.old → IsAtEnd self.new) }
        ensures failed { failures self.new ≡ failures self.old + failed_calls result };

    /// The number of calls that have failed so far.
    fn failures(&self) -> u64
        ensures { result ≡ failures self.now };

    // Without a call nothing is read, and two reads in a row are one of the bytes joined.
    ghost reads_none: { (s : Self) → Reads s [] s };

    ghost reads_more: { (s t u : Self) (a b : List ℕ) → Reads s a t → Reads t b u → Reads s (a ++ b) u };
}

/// An output stream.
pub trait Sink {
    // From the first state to the second just these bytes were written.
    ghost Writes: { Self → List ℕ → Self → Type 0 };
    // The number of calls that have failed so far.
    ghost failures: { Self → ℕ };

    /// Writes a prefix of the bytes and returns its length, which is 0 only if there are no bytes.
    ///
    /// # Errors
    /// `Failed` if the call failed: nothing was written then.
    fn write(&mut self, bytes: &[u8]) -> Result<usize, Failed>
        requires { failures self.old < 2 ^ 64 - 1 }
        ensures bound { IfOk result (λ count. count ≤ length bytes.now) }
        ensures some { IfOk result (λ count. 0 < length bytes.now → 0 < count) }
        ensures bytes { Writes self.old (moved result bytes.now) self.new }
        ensures failed { failures self.new ≡ failures self.old + failed_calls result };

    /// The number of calls that have failed so far.
    fn failures(&self) -> u64
        ensures { result ≡ failures self.now };

    // Without a call nothing is written, and two writes in a row are one of the bytes joined.
    ghost writes_none: { (s : Self) → Writes s [] s };

    ghost writes_more: { (s t u : Self) (a b : List ℕ) → Writes s a t → Writes t b u → Writes s (a ++ b) u };
}

/// A reader of std as a source. Its contract speaks of bytes as far as that reader's does.
#[derive(Drop)]
pub struct FromRead<R> {
    reader: R,
    failed_reads: u64,
}

impl<R: Read> FromRead<R> {
    /// A source over this reader, with no failed call.
    pub fn new(reader: R) -> FromRead<R>
        ensures below { reader_below result ≡ reader }
        ensures fresh { ⟦<FromRead<R> as Source>⟧.failures result ≡ 0 }
    {
        FromRead {
            reader,
            failed_reads: 0,
        }
    }
}

impl<R: Read> Source for FromRead<R> {
    ghost use Rattle.std.specs.Io.KnownBytes.{Consumes, IsAtEnd as NothingLeft};
    ghost use Rattle.sctp_text.specs.Streams.{reader_below};
    ghost use Rattle.sctp_text.specs.inner.StreamLaws.{consumes_none, consumes_more};

    ghost Reads = { λ s bytes t. Consumes (R.remaining (reader_below s)) (R.remaining (reader_below t)) bytes };

    ghost IsAtEnd = { λ s. NothingLeft (R.remaining (reader_below s)) };

    ghost failures = { λ s. s.failed_reads };

    fn read(&mut self, buffer: &mut [u8]) -> Result<usize, Failed> {
        let answer = read_answer(self.reader.read(buffer));
        if answer.is_err() {
            self.failed_reads += 1;
        }
        answer
    }

    fn failures(&self) -> u64 {
        self.failed_reads
    }

    ghost reads_none = { λ s. consumes_none (R.remaining (reader_below s)) };

    ghost reads_more = { λ s t u a b. consumes_more (R.remaining (reader_below s)) (R.remaining (reader_below t)) (R.remaining (reader_below u)) a b };
}

/// Translates the answer of a reader of std.
fn read_answer(answer: IoResult<usize>) -> Result<usize, Failed>
    ensures { result ≡ answer_of_read answer }
{
    match answer {
        Ok(count) => Ok(count),
        Err(_) => Err(Failed),
    }
}

/// A writer of std as a sink. Its contract speaks of bytes as far as that writer's does.
#[derive(Drop)]
pub struct ToWrite<W> {
    writer: W,
    failed_writes: u64,
}

impl<W: Write> ToWrite<W> {
    /// A sink over this writer, with no failed call.
    pub fn new(writer: W) -> ToWrite<W>
        ensures below { writer_below result ≡ writer }
        ensures fresh { ⟦<ToWrite<W> as Sink>⟧.failures result ≡ 0 }
    {
        ToWrite {
            writer,
            failed_writes: 0,
        }
    }
}

impl<W: Write> Sink for ToWrite<W> {
    ghost use Rattle.std.specs.Io.KnownBytes.{Appends};
    ghost use Rattle.sctp_text.specs.Streams.{writer_below};
    ghost use Rattle.sctp_text.specs.inner.StreamLaws.{appends_none, appends_more};

    ghost Writes = { λ s bytes t. Appends (W.contents (writer_below s)) (W.contents (writer_below t)) bytes };

    ghost failures = { λ s. s.failed_writes };

    fn write(&mut self, bytes: &[u8]) -> Result<usize, Failed> {
        let answer = write_answer(self.writer.write(bytes), bytes.len());
        if answer.is_err() {
            self.failed_writes += 1;
        }
        answer
    }

    fn failures(&self) -> u64 {
        self.failed_writes
    }

    ghost writes_none = { λ s. appends_none (W.contents (writer_below s)) };

    ghost writes_more = { λ s t u a b. appends_more (W.contents (writer_below s)) (W.contents (writer_below t)) (W.contents (writer_below u)) a b };
}

/// Translates the answer of a writer of std to `length` bytes.
fn write_answer(answer: IoResult<usize>, length: usize) -> Result<usize, Failed>
    ensures { result ≡ answer_of_write length answer }
{
    match answer {
        Ok(count) if count > 0 || length == 0 => Ok(count),
        _ => Err(Failed),
    }
}
