//! On which streams a message waits: a bit for each, and one for each 64 of them, so that the next one is found without looking at the others.
//! A chunk or a `take` after which a message waits and none did before, or the other way, sets the stream's bit; a FORWARD sets those of the
//! streams that it may change. A search looks at the word of its stream, at those above (one for 4,096 streams) and at one word more.

ghost use Rattle.std.specs.Prelude.{◌≡◌, ◌*◌, ◌<◌, ◌≤◌, ℕ, min, List, length, map, replicate, if◌then◌else◌, IfOk};
ghost use Rattle.sctp_recv.specs.Fields.{stream_of};
ghost use Rattle.sctp_recv.specs.ReceiverKept.{StreamKept, stream_at};
ghost use Rattle.sctp_recv.specs.inner.Bits.{bit_in, NextBit, AreTops, AreShown, IsSameBut};

use crate::bits::{bit_from, next_bit, put_bit};
use crate::stream::Stream;
use sctp_framing::Framing;
use sctp_values::NoMemory;
use std::alloc::Global;

/// The streams on which a message waits.
#[derive(Drop)]
pub(crate) struct Ready {
    /// A bit for each stream.
    words: Vec<u64>,
    /// A bit for each of these words: whether one of the word's bits is set.
    tops: Vec<u64>,
    ghost upper: { AreTops words.items tops.items },
}

impl Ready {
    /// A number of streams, on none of which a message waits.
    ///
    /// # Errors
    /// Allocation failed.
    pub(crate) fn new(alloc: Global, count: u16) -> Result<Ready, NoMemory>
        ensures fits { IfOk result (λ ready. count ≤ length ready.words.items * 64) }
        ensures none { IfOk result (λ ready. (s : ℕ) → bit_in ready.words.items s ≡ 0) }
    {
        let many = usize::from(count) / 64 + 1;
        // 65,535 streams have 1,024 words.
        let words = zeros(alloc, many)?;
        let tops = zeros(alloc, many / 64 + 1)?;
        Ok(Ready { words, tops })
    }

    /// Sets or clears the bit of a stream. A stream that doesn't exist has none.
    #[inline(always)]
    pub(crate) fn mark(&mut self, stream: u16, on: bool)
        ensures size { length self.new.words.items ≡ length self.old.words.items }
        ensures here { stream < length self.old.words.items * 64 → bit_in self.new.words.items stream ≡ (if on then 1 else 0) }
        ensures others { (q : ℕ) → (q ≡ stream → ⊥) → bit_in self.new.words.items q ≡ bit_in self.old.words.items q }
    {
        let number = usize::from(stream);
        let at = number / 64;
        if at >= self.words.len() {
            return;
        }
        put_bit(&mut self.words, number, on);
        let some = self.words[at] != 0;
        put_bit(&mut self.tops, at, some);
    }

    /// The first stream from `from` on whose bit is set.
    pub(crate) fn next(&self, from: u16) -> Option<u16>
        ensures { NextBit self.now.words.items from result }
    {
        let number = usize::from(from);
        let at = number / 64;
        if at >= self.words.len() {
            return None;
        }
        match bit_from(self.words[at], (number % 64) as u32) {
            Some(place) => Some((at * 64 + place as usize) as u16),
            None => self.next_from(at + 1),
        }
    }

    /// The first stream whose bit is set, from a word on.
    fn next_from(&self, at: usize) -> Option<u16>
        ensures { NextBit self.now.words.items (at * 64) result }
    {
        if at >= self.words.len() {
            return None;
        }
        let further = next_bit(&self.tops, at)?;
        let place = self.words[further].trailing_zeros();
        Some((further * 64 + place as usize) as u16)
    }
}

/// Words without a bit set.
fn zeros(alloc: Global, many: usize) -> Result<Vec<u64>, NoMemory>
    ensures { IfOk result (λ words. words.items ≡ replicate many 0) }
{
    let mut words = Vec::with_capacity(alloc, many).map_err(|_| NoMemory)?;
    for _ in 0..many {
        words.push(0).map_err(|_| NoMemory)?;
    }
    Ok(words)
}

/// Sets the bit of a stream if a message waits on it, and else clears it.
pub(crate) fn show<F: Framing>(ready: &mut Ready, streams: &Vec<Stream<F>>, stream: u16)
    ensures { (old : List StreamKept) → AreShown ready.old.words.items old → length old ≡ length streams.now.items → IsSameBut stream old (map stream_of streams.now.items)
        → AreShown ready.new.words.items (map stream_of streams.now.items) }
{
    let at = usize::from(stream);
    if at >= streams.len() {
        return;
    }
    let waits = streams[at].has_message();
    ready.mark(stream, waits);
}

/// Sets or clears the bit of a stream, of which it is known whether a message waits on it.
#[inline(always)]
fn show_as<F: Framing>(ready: &mut Ready, streams: &Vec<Stream<F>>, stream: u16, waits: bool)
    ensures { (old : List StreamKept) → AreShown ready.old.words.items old → length old ≡ length streams.now.items → IsSameBut stream old (map stream_of streams.now.items)
        → min 1 (length (stream_at (map stream_of streams.now.items) stream).waiting) ≡ (if waits then 1 else 0)
        → AreShown ready.new.words.items (map stream_of streams.now.items) }
{
    let at = usize::from(stream);
    if at >= streams.len() {
        return;
    }
    ready.mark(stream, waits);
}

/// Sets or clears the bit of a stream if that changed: it is known whether a message waited before and whether one waits now. At most chunks and
/// messages taken nothing changes.
#[inline(always)]
pub(crate) fn show_change<F: Framing>(
    ready: &mut Ready,
    streams: &Vec<Stream<F>>,
    stream: u16,
    waited: bool,
    waits: bool,
)
    ensures { (old : List StreamKept) → AreShown ready.old.words.items old → length old ≡ length streams.now.items → IsSameBut stream old (map stream_of streams.now.items)
        → min 1 (length (stream_at old stream).waiting) ≡ (if waited then 1 else 0) → min 1 (length (stream_at (map stream_of streams.now.items) stream).waiting) ≡ (if waits then 1 else 0)
        → AreShown ready.new.words.items (map stream_of streams.now.items) }
{
    if waited != waits {
        show_as(ready, streams, stream, waits);
    }
}
