//! Discards a line that is too long, block by block.

ghost use Rattle.std.specs.Prelude.{◌≡◌, ℕ, List, ◌+◌, ◌-◌, ◌^◌, ◌<◌, ◌≤◌};
ghost use Rattle.sctp_text.specs.SkippedLines.{Skips, EndsInput};
ghost use Rattle.sctp_text.specs.Streams.{failed_calls};
ghost use Rattle.sctp_text.specs.inner.Gathering.{IsPassed};

use crate::block::Block;
use crate::limits::LONGEST_TEXT;
use crate::line_reader::{SkippedLine, line_length};
use crate::source_sink::{Failed, Source};

/// Discards the rest of a line: what the block holds of it, and what has to be read until it ends.
pub(crate) fn pass_line<S: Source>(
    block: &mut Block,
    given: &mut u64,
    source: &mut S,
) -> Result<SkippedLine, Failed>
    requires room { S.failures source.old < 2 ^ 64 - 1 }
    requires within { given.old ≤ LONGEST_TEXT }
    ensures skips { (bytes : List ℕ) × S.Reads source.old bytes source.new
        × Skips (record { held = block.old; given = given.old }) bytes result (record { held = block.new; given = given.new }) }
    ensures end { EndsInput result (S.IsAtEnd source.new) }
    ensures failed { S.failures source.new ≡ S.failures source.old + failed_calls result }
{
    'skipping: loop {
        if let Some(skipped) = pass_block(block, given) {
            return Ok(skipped);
        }
        block.fill(source)?;
        if block.is_empty() {
            return Ok(SkippedLine::Last);
        }
    }
}

/// Discards what the block holds of a line. None if the line may go on in the next block.
fn pass_block(block: &mut Block, given: &mut u64) -> Option<SkippedLine>
    requires { given.old ≤ LONGEST_TEXT }
    ensures within { given.new ≤ LONGEST_TEXT }
    ensures passed { IsPassed result given.old block.old given.new block.new }
{
    let bytes = block.bytes();
    let count = line_length(bytes);
    let end = bytes.len().min(count + 1);
    if end as u64 > LONGEST_TEXT - *given {
        return Some(SkippedLine::TextTooLong);
    }
    block.skip(end);
    *given += end as u64;
    if count < end {
        Some(SkippedLine::Ended)
    } else {
        None
    }
}
