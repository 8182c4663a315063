//! A writer that shows the program's output, or hides it.

use std::cell::Cell;
use std::io::{Result, Write};

/// A writer that passes on what it is given, except while it hides.
#[derive(Drop)]
pub struct Shown<'a, W> {
    below: W,
    hidden: &'a Cell<bool>,
}

impl<'a, W> Shown<'a, W> {
    /// A writer over this one.
    pub fn new(below: W, hidden: &'a Cell<bool>) -> Shown<'a, W> {
        Shown { below, hidden }
    }
}

impl<W: Write> Write for Shown<'_, W> {
    fn write(&mut self, bytes: &[u8]) -> Result<usize> {
        if self.hidden.get() {
            Ok(bytes.len())
        } else {
            self.below.write(bytes)
        }
    }

    fn flush(&mut self) -> Result<()> {
        self.below.flush()
    }
}
