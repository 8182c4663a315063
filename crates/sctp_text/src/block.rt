//! A read buffer: the bytes that one call of a source has read.

ghost use Rattle.std.specs.Prelude.{◌≡◌, [], ◌+◌, ◌-◌, ◌^◌, ◌<◌, ◌≤◌, ◌==◌, length, drop, OnOk};
ghost use Rattle.sctp_text.specs.Streams.{failed_calls};

use crate::source_sink::{Failed, Source};
use std::marker::Model;

/// Capacity of a block in bytes.
pub const BLOCK: usize = 4_096;

/// The bytes of a block that aren't consumed yet.
#[derive(Drop)]
pub struct Block {
    bytes: [u8; BLOCK],
    start: usize,
    end: usize,
}

impl Model for Block {
    ghost use Rattle.std.specs.Prelude.{ℕ, ◌≤◌, List, slice_range};
    ghost use Rattle.sctp_text.specs.declared.block.TheConstants.{BLOCK};

    ghost Value = { List ℕ };

    ghost view = { λ s. slice_range s.bytes s.start s.end };

    ghost invariant = { λ s. (s.start ≤ s.end) × (s.end ≤ BLOCK) };
}

impl Block {
    /// An empty block.
    pub fn new() -> Block
        ensures { result ≡ [] }
    {
        Block {
            bytes: [0; BLOCK],
            start: 0,
            end: 0,
        }
    }

    /// The bytes.
    pub fn bytes(&self) -> &[u8]
        ensures bytes { result.now ≡ self.now }
        ensures bound { length result.now ≤ BLOCK }
    {
        &self.bytes[self.start..self.end]
    }

    /// Whether no byte is left.
    pub fn is_empty(&self) -> bool
        ensures { result ≡ (length self.now == 0) }
    {
        self.bytes().is_empty()
    }

    /// Removes `count` bytes from the front.
    pub fn skip(&mut self, count: usize)
        requires { count ≤ length self.old }
        ensures { self.new ≡ drop count self.old }
    {
        self.start += count;
    }

    /// Refills an empty block by one read. If it is still empty afterwards, the input is at its end.
    ///
    /// # Errors
    /// `Failed` if the call failed: the block is empty then.
    pub fn fill<S: Source>(&mut self, source: &mut S) -> Result<(), Failed>
        requires room { S.failures source.old < 2 ^ 64 - 1 }
        requires used { self.old ≡ [] }
        ensures bytes { S.Reads source.old self.new source.new }
        ensures bound { length self.new ≤ BLOCK }
        ensures end { OnOk result (self.new ≡ [] → S.IsAtEnd source.new) }
        ensures failed { S.failures source.new ≡ S.failures source.old + failed_calls result }
    {
        let count = source.read(&mut self.bytes)?;
        self.start = 0;
        self.end = count;
        Ok(())
    }
}
