//! Slow and failing readers and writers.

use std::alloc::Global;
use std::io::{Error, ErrorKind, Read, Result as IoResult, Write};

/// A script in which one message is sent and received.
pub const TABLE: &str =
    "pair 1500 1400 65536 1 data\nsend A 0 o 0 - 4869\nopen\nsend A 0 o 0 - 4869\nbuild A\ndeliver A 1\ntake B 0\ndeliver A 1\ntake B 0\ndeliver A 2\nbuild A\n";

/// The output of `TABLE`: a line for each outcome, and the report.
pub const TABLE_WRITTEN: &str =
    "refused 7\nok\nticket A 1\nsent A 1 32\ntaken B\nmessage B 0 o 0 0 4869\ntaken B\nempty B 0\nabsent\nquiet A\nend A Established -\nnumbered A 1\nend B Established -\nhanded B 0 o 0\n";

/// A reader that gives a limited number of bytes a call and fails once, at a given call.
#[derive(Drop)]
pub struct SlowReader<'a> {
    rest: &'a [u8],
    step: usize,
    call: usize,
    fails_at: usize,
}

impl<'a> SlowReader<'a> {
    /// A reader of this text. It never fails if `fails_at` is 0.
    pub fn new(text: &'a str, step: usize, fails_at: usize) -> SlowReader<'a> {
        SlowReader {
            rest: text.as_bytes(),
            step,
            call: 0,
            fails_at,
        }
    }
}

impl Read for SlowReader<'_> {
    fn read(&mut self, buffer: &mut [u8]) -> IoResult<usize> {
        self.call = self.call.saturating_add(1);
        if self.call == self.fails_at {
            return Err(Error::from(ErrorKind::BrokenPipe));
        }
        let count = self.step.min(self.rest.len()).min(buffer.len());
        buffer[..count].copy_from_slice(&self.rest[..count]);
        self.rest = &self.rest[count..];
        Ok(count)
    }
}

/// A writer that accepts a limited number of bytes a call and fails once, at a given call.
#[derive(Drop)]
pub struct SlowWriter {
    held: Vec<u8>,
    step: usize,
    call: usize,
    fails_at: usize,
}

impl SlowWriter {
    /// A writer. It never fails if `fails_at` is 0.
    pub fn new(alloc: Global, step: usize, fails_at: usize) -> SlowWriter {
        SlowWriter {
            held: Vec::new(alloc),
            step,
            call: 0,
            fails_at,
        }
    }

    /// What was written.
    pub fn held(&self) -> &[u8] {
        self.held.as_slice()
    }
}

impl Write for SlowWriter {
    fn write(&mut self, bytes: &[u8]) -> IoResult<usize> {
        self.call = self.call.saturating_add(1);
        if self.call == self.fails_at {
            return Err(Error::from(ErrorKind::BrokenPipe));
        }
        let count = self.step.min(bytes.len());
        self.held.extend_from_slice(&bytes[..count])?;
        Ok(count)
    }

    fn flush(&mut self) -> IoResult<()> {
        Ok(())
    }
}
