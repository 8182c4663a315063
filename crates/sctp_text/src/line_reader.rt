//! Reads lines from a source one at a time, holding at most one line and one block.

ghost use Rattle.std.specs.Prelude.{◌≡◌, ℕ, List, [], ◌++◌, ◌+◌, ◌-◌, ◌^◌, ◌<◌, ◌≤◌, ◌↔◌, IsTrue, length};
ghost use Rattle.std.specs.List.{position};
ghost use Rattle.sctp_text.specs.TextLines.{Reading, MayBegin, IsReadFor, is_line_feed, first_length};
ghost use Rattle.sctp_text.specs.NextLineAnswer.{given_by, IsAnswer, AtTheEnd, failed_reads};
ghost use Rattle.sctp_text.specs.SkippedLines.{Skips, EndsInput};
ghost use Rattle.sctp_text.specs.Streams.{failed_calls};
ghost use Rattle.sctp_text.specs.inner.Gathering.{IsGathered, AtEndOfInput};

use crate::block::{BLOCK, Block};
use crate::limits::{LINE_FEED, LONGEST_LINE, LONGEST_TEXT};
use crate::line_skipping::pass_line;
use crate::source_sink::{Failed, Source};
use std::alloc::{AllocError, Global};
use std::marker::Model;
use std::mem;
use thiserror::Error;

/// What `LineReader::next_line` has found.
#[derive(Debug, Drop)]
pub enum NextLine {
    /// A line, without the line feed that ends it.
    Ended(Vec<u8>),
    /// The bytes after the last line feed, at least one: the input ends here.
    Last(Vec<u8>),
    /// The line has more than `LONGEST_LINE` bytes, or the text up to its end more than `LONGEST_TEXT`.
    TooLong,
    /// No further line: the input has ended.
    End,
}

/// Why no line could be read.
#[derive(Clone, Copy, Debug, PartialEq, Eq, Error)]
pub enum ReadFault {
    /// A call of the source failed during this call.
    #[error("a call of the reader failed")]
    Failed,
    /// An allocation failed.
    #[error("out of memory")]
    NoMemory,
}

/// How far a line was skipped.
#[derive(Clone, Copy, Debug, PartialEq, Eq)]
pub enum SkippedLine {
    /// To its end, with its line feed.
    Ended,
    /// To its end, which is the end of the input.
    Last,
    /// Not to its end: the text would have more than `LONGEST_TEXT` bytes.
    TextTooLong,
}

/// Why reading a line stops before the end of the input.
enum Stop {
    LineFeed,
    TooLong,
}

/// Reads a text line by line. Contracts see the bytes that were read and not given yet, and the number of bytes given, line feeds
/// included.
#[derive(Drop)]
pub struct LineReader {
    alloc: Global,
    line: Vec<u8>,
    block: Block,
    given: u64,
}

impl Model for LineReader {
    ghost use Rattle.std.specs.Prelude.{◌++◌};
    ghost use Rattle.sctp_text.specs.TextLines.{Reading, MayBegin};

    ghost Value = { Reading };

    ghost view = { λ s. record { held = s.line.items ++ s.block; given = s.given } };

    ghost invariant = { λ s. MayBegin s.given s.line.items };
}

impl LineReader {
    /// A reader at the beginning of a text.
    pub fn new(alloc: Global) -> LineReader
        ensures { result ≡ record { held = []; given = 0 } }
    {
        LineReader {
            alloc,
            line: Vec::new(alloc),
            block: Block::new(),
            given: 0,
        }
    }

    /// Whether the bytes held suffice for the next call of `next_line`, which then reads nothing.
    pub fn is_ready(&self) -> bool
        ensures { IsTrue result ↔ ¬ MayBegin self.now.given self.now.held }
    {
        !may_begin(self.given, &self.line, self.block.bytes())
    }

    /// Returns the next line. Nothing is read if the bytes held suffice.
    ///
    /// # Errors
    /// `Failed` if a call of the source failed, `NoMemory` if an allocation did. What was read is kept, and the next call goes on from there.
    pub fn next_line<S: Source>(&mut self, source: &mut S) -> Result<NextLine, ReadFault>
        requires { S.failures source.old < 2 ^ 64 - 1 }
        // The bytes held before and those read are the bytes given and those held after.
        ensures bytes { (bytes : List ℕ) × S.Reads source.old bytes source.new × IsReadFor self.old.given self.old.held bytes
            × (self.old.held ++ bytes ≡ given_by result ++ self.new.held) }
        ensures given { self.new.given ≡ self.old.given + length (given_by result) }
        ensures answer { IsAnswer result self.new }
        ensures end { AtTheEnd result (S.IsAtEnd source.new) }
        ensures failed { S.failures source.new ≡ S.failures source.old + failed_reads result }
        ensures unread { ¬ MayBegin self.old.given self.old.held → source.new ≡ source.old }
        ensures room { length self.new.held ≤ LONGEST_LINE + BLOCK }
    {
        match complete(&mut self.line, &mut self.block, self.given, source)? {
            Some(Stop::LineFeed) => {
                self.block.skip(1);
                self.given += self.line.len() as u64 + 1;
                Ok(NextLine::Ended(emptied(&mut self.line, self.alloc)))
            }
            Some(Stop::TooLong) => Ok(NextLine::TooLong),
            None if self.line.is_empty() => Ok(NextLine::End),
            None => {
                self.given += self.line.len() as u64;
                Ok(NextLine::Last(emptied(&mut self.line, self.alloc)))
            }
        }
    }

    /// Discards a line, up to and including its line feed, and counts its bytes as given. It is meant for a line that `next_line` reported as
    /// `TooLong`: the next call of `next_line` returns the line after it. No more than one block is held meanwhile.
    ///
    /// # Errors
    /// `Failed` if a call of the source failed: what was read of the line is discarded, and the next call discards the rest of it.
    pub fn skip_line<S: Source>(&mut self, source: &mut S) -> Result<SkippedLine, Failed>
        requires { S.failures source.old < 2 ^ 64 - 1 }
        ensures skips { (bytes : List ℕ) × S.Reads source.old bytes source.new × Skips self.old bytes result self.new }
        ensures end { EndsInput result (S.IsAtEnd source.new) }
        ensures failed { S.failures source.new ≡ S.failures source.old + failed_calls result }
    {
        let held = emptied(&mut self.line, self.alloc);
        self.given += held.len() as u64;
        pass_line(&mut self.block, &mut self.given, source)
    }
}

/// Takes the bytes of a line, which is empty afterwards.
fn emptied(line: &mut Vec<u8>, alloc: Global) -> Vec<u8>
    ensures given { result.items ≡ line.old.items }
    ensures empty { line.new.items ≡ [] }
{
    mem::replace(line, Vec::new(alloc))
}

/// Whether, after `given` bytes of the text, these two parts together may still be the beginning of a line that isn't too long.
fn may_begin(given: u64, line: &[u8], rest: &[u8]) -> bool
    requires begun { MayBegin given line.now }
    requires room { length rest.now ≤ BLOCK }
    ensures { IsTrue result ↔ MayBegin given (line.now ++ rest.now) }
{
    if line_length(rest) < rest.len() {
        return false;
    }
    let whole = line.len() + rest.len();
    if whole > LONGEST_LINE {
        return false;
    }
    whole as u64 <= LONGEST_TEXT - given
}

/// Reads until the line is complete or too long, or the input ends (`None`). The line feed stays in the block.
fn complete<S: Source>(
    line: &mut Vec<u8>,
    block: &mut Block,
    given: u64,
    source: &mut S,
) -> Result<Option<Stop>, ReadFault>
    requires room { S.failures source.old < 2 ^ 64 - 1 }
    requires begun { MayBegin given line.old.items }
    ensures begun { MayBegin given line.new.items }
    ensures bytes { (bytes : List ℕ) × S.Reads source.old bytes source.new × IsReadFor given (line.old.items ++ block.old) bytes
        × (line.old.items ++ block.old ++ bytes ≡ line.new.items ++ block.new) }
    ensures room { length block.new ≤ BLOCK }
    ensures stop { IsGathered given result line.new.items block.new }
    ensures end { AtEndOfInput result (S.IsAtEnd source.new) }
    ensures failed { S.failures source.new ≡ S.failures source.old + failed_reads result }
    ensures unread { ¬ MayBegin given (line.old.items ++ block.old) → source.new ≡ source.old }
{
    'reading: loop {
        if let Some(stop) = gather(line, block, given).map_err(|_| ReadFault::NoMemory)? {
            return Ok(Some(stop));
        }
        block.fill(source).map_err(|_| ReadFault::Failed)?;
        if block.is_empty() {
            return Ok(None);
        }
    }
}

/// Moves the bytes up to the first line feed from the block to the line. The line feed stays in the block.
fn gather(line: &mut Vec<u8>, block: &mut Block, given: u64) -> Result<Option<Stop>, AllocError>
    requires { MayBegin given line.old.items }
    ensures begun { MayBegin given line.new.items }
    ensures bytes { line.new.items ++ block.new ≡ line.old.items ++ block.old }
    ensures room { length block.new ≤ BLOCK }
    ensures stop { IsGathered given result line.new.items block.new }
{
    let bytes = block.bytes();
    let count = line_length(bytes);
    let end = bytes.len().min(count + 1);
    if line.len() + count > LONGEST_LINE || (line.len() + end) as u64 > LONGEST_TEXT - given {
        return Ok(Some(Stop::TooLong));
    }
    line.extend_from_slice(&bytes[..count])?;
    block.skip(count);
    Ok(if count < end {
        Some(Stop::LineFeed)
    } else {
        None
    })
}

/// The number of bytes before the first line feed, all of them if there is none.
pub(crate) fn line_length(bytes: &[u8]) -> usize
    ensures exact { result ≡ first_length bytes.now }
    ensures bound { result ≤ length bytes.now }
{
    match first_line_feed(bytes) {
        Some(place) => place,
        None => bytes.len(),
    }
}

/// The position of the first line feed.
fn first_line_feed(bytes: &[u8]) -> Option<usize>
    ensures { result ≡ position is_line_feed bytes.now }
{
    bytes.iter().position(|byte| *byte == LINE_FEED)
}
