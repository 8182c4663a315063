//! The reader of a case's script: a line at a time, each shown when it is read.

use crate::line::Line;
use std::cell::Cell;
use std::io::{Read, Result, Write};

/// A reader over the lines of a case.
#[derive(Drop)]
pub struct Script<'a, W> {
    /// Where a line is shown.
    shown: W,
    lines: &'a [Line<'a>],
    /// The number of lines that are read before anything is shown.
    above: usize,
    /// Whether output is hidden now.
    hidden: &'a Cell<bool>,
    /// The number of lines begun, how much of the last of them was read, and how often it is still repeated.
    begun: usize,
    read: usize,
    again: usize,
}

impl<'a, W> Script<'a, W> {
    /// The lines of a case.
    pub fn new(
        shown: W,
        lines: &'a [Line<'a>],
        above: usize,
        hidden: &'a Cell<bool>,
    ) -> Script<'a, W> {
        Script {
            shown,
            lines,
            above,
            hidden,
            begun: 0,
            read: 0,
            again: 0,
        }
    }

    /// The rest of the line that was begun last.
    fn rest(&self) -> &[u8] {
        if self.begun == 0 || self.begun > self.lines.len() {
            return &[];
        }
        let bytes = self.lines[self.begun - 1].bytes.as_slice();
        let start = self.read.min(bytes.len());
        &bytes[start..]
    }
}

impl<W: Write> Script<'_, W> {
    /// Begins the next line. At the end nothing is left.
    fn go_on(&mut self) -> Result<()> {
        if self.again > 0 {
            self.again -= 1;
            self.read = 0;
        } else if self.begun < self.lines.len() {
            let line = &self.lines[self.begun];
            if self.begun >= self.above {
                writeln!(self.shown, "{}", line.shown)?;
            }
            self.again = line.times.saturating_sub(1);
            self.begun += 1;
            self.read = 0;
        }
        self.hidden.set(self.again > 0 || self.begun <= self.above);
        Ok(())
    }
}

impl<W: Write> Read for Script<'_, W> {
    fn read(&mut self, buffer: &mut [u8]) -> Result<usize> {
        if self.rest().is_empty() {
            self.go_on()?;
        }
        let rest = self.rest();
        let count = rest.len().min(buffer.len());
        buffer[..count].copy_from_slice(&rest[..count]);
        self.read = self.read.saturating_add(count);
        Ok(count)
    }
}
