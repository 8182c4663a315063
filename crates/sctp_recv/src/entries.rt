//! The entries of a FORWARD-TSN or I-FORWARD-TSN, sorted by stream: which numbers they skip (RFC 3758, 3.2; RFC 8260, 2.3.1).
//! An entry has effect if its number is at or past the lowest one of its stream and kind that isn't skipped yet: the lowest after all entries is one
//! past the largest of these. The largest ordered number skipped isn't kept, since it is below the next number.

ghost use Rattle.std.specs.Prelude.{◌≡◌, ℕ, ◌-◌, true, min, nat_lt, nat_le, map, IfOk};
ghost use Rattle.std.specs.List.{Contains};
ghost use Rattle.std.specs.List.Sorted.{IsNonDecreasing, IsPermutation};
ghost use Rattle.sctp_model.specs.numbers.Serial.{COUNTS};
ghost use Rattle.sctp_model.specs.messages.Format.{same_lane};
ghost use Rattle.sctp_model.specs.receiver.ForwardTaken.{names_other_stream};
ghost use Rattle.sctp_model.specs.receiver.Reading.{lane_of};
ghost use Rattle.sctp_wire.specs.ChunkTree.{skip_meaning};
ghost use Rattle.sctp_recv.specs.Fields.{lane_at};
ghost use Rattle.sctp_recv.specs.Resets.{restart_in, resets_in};
ghost use Rattle.sctp_recv.specs.inner.Forwarding.{IsTouched, CountsOn, CountAllOn, skipped_by, lowest_after, AreByStream, AreEntriesOf};

use crate::places::Lows;
use crate::resets::{Resets, restart_of};
use crate::restart::is_largest;
use crate::stream::Stream;
use sctp_framing::Framing;
use sctp_values::{Kind, NoMemory};
use sctp_wire::{Skip, Skips};
use std::alloc::Global;

/// Whether an entry is for a stream that doesn't exist.
pub(crate) fn names_other_stream(streams: usize, skips: &Skips<'_>) -> bool
    ensures { result ≡ names_other_stream streams skips.now.skips }
{
    for skip in skips.iter() {
        if usize::from(skip.stream) >= streams {
            return true;
        }
    }
    false
}

/// The entries in rising order of their streams.
///
/// # Errors
/// Allocation failed.
pub(crate) fn by_stream(alloc: Global, skips: &Skips<'_>) -> Result<Vec<Skip>, NoMemory>
    ensures rising { IfOk result (λ entries. AreByStream entries.items) }
    ensures same { IfOk result (λ entries. IsPermutation skips.now.skips (map skip_meaning entries.items)) }
{
    let mut entries = Vec::new(alloc);
    for skip in skips.iter() {
        entries.push(skip).map_err(|_| NoMemory)?;
    }
    entries.sort_unstable_by_key(
        |skip: &Skip| -> u16
            ensures { result ≡ skip.now.stream }
        { skip.stream },
    );
    Ok(entries)
}

/// The entries of one stream.
pub(crate) fn of_stream(entries: &[Skip], stream: u16) -> &[Skip]
    ensures { AreByStream entries.now → AreEntriesOf stream (map skip_meaning entries.now) (map skip_meaning result.now) }
{
    let from = entries.partition_point(
        |skip: &Skip| -> bool
            ensures { result ≡ nat_lt skip.now.stream stream }
        { skip.stream < stream },
    );
    let rest = &entries[from..];
    let count = rest.partition_point(
        |skip: &Skip| -> bool
            ensures { result ≡ nat_le skip.now.stream stream }
        { skip.stream <= stream },
    );
    &rest[..count]
}

/// The streams that a FORWARD up to an index may change, in rising order: those that it names, and those of which it discards something by the index.
///
/// # Errors
/// Allocation failed.
pub(crate) fn touched_by(
    alloc: Global,
    lows: &Lows,
    jump: u64,
    skips: &Skips<'_>,
) -> Result<Vec<u16>, NoMemory>
    ensures rising { IfOk result (λ streams. IsNonDecreasing streams.items) }
    ensures named { IfOk result (λ streams. (s : ℕ) → IsTouched s lows.now jump skips.now.skips → Contains streams.items s) }
{
    let mut streams = lows.upto(alloc, jump)?;
    for skip in skips.iter() {
        streams.push(skip.stream).map_err(|_| NoMemory)?;
    }
    streams.sort_unstable();
    Ok(streams)
}

/// Whether an entry is for this stream and kind.
fn is_for(skip: Skip, stream: u16, kind: Kind) -> bool
    ensures { result ≡ same_lane (lane_at stream kind) (lane_of skip.stream skip.unordered) }
{
    stream == skip.stream && kind.flag() == skip.unordered
}

/// One past the number that an entry skips of this stream and kind, if `base` is 0 on the wire; 0 if it skips none there, and the largest
/// stands for each that is larger.
fn skipped_by<F: Framing>(skip: Skip, stream: u16, kind: Kind, base: u64, near: u64) -> u64
    ensures { result ≡ min (skipped_by F.format (lane_at stream kind) base near (skip_meaning skip)) (COUNTS - 1) }
{
    if !is_for(skip, stream, kind) {
        return 0;
    }
    match F::number_near(kind, skip.number, near.saturating_sub(base)) {
        Some(number) => base.saturating_add(number).saturating_add(1),
        None => 0,
    }
}

/// The lowest number of this stream and kind that isn't skipped; `lowest` is the lowest one before. Each entry is read near one count, if `base`
/// is 0 on the wire.
pub(crate) fn lowest_after<F: Framing>(
    entries: &[Skip],
    stream: u16,
    kind: Kind,
    base: u64,
    near: u64,
    lowest: u64,
) -> u64
    ensures { result ≡ min (lowest_after F.format (lane_at stream kind) base near lowest (map skip_meaning entries.now)) (COUNTS - 1) }
{
    let mut after = lowest;
    for skip in entries {
        after = after.max(skipped_by::<F>(*skip, stream, kind, base, near));
    }
    after
}

/// Whether the number that an entry skips is a count below the largest, or there is none.
fn skips_count<F: Framing>(
    streams: &Vec<Stream<F>>,
    resets: &Option<Box<Resets>>,
    skip: Skip,
) -> bool
    ensures { result ≡ true → CountsOn F.format (restart_in (resets_in resets.now)) streams.now.items (skip_meaning skip) }
{
    let place = usize::from(skip.stream);
    if place >= streams.len() {
        return true;
    }
    let kind = Kind::of_flag(skip.unordered);
    let base = restart_of(resets, skip.stream).base(kind);
    !is_largest(streams[place].number_near(kind, skip.number, base))
}

/// Whether the numbers that the entries skip are counts below the largest.
pub(crate) fn all_count<F: Framing>(
    streams: &Vec<Stream<F>>,
    resets: &Option<Box<Resets>>,
    entries: &[Skip],
) -> bool
    ensures { result ≡ true → CountAllOn F.format (restart_in (resets_in resets.now)) streams.now.items (map skip_meaning entries.now) }
{
    for skip in entries {
        if !skips_count(streams, resets, *skip) {
            return false;
        }
    }
    true
}
