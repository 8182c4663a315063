//! The receiver of an association (RFC 9260, 6.2 and 6.6; RFC 3758, 3.6; RFC 8260, 2.2 and 2.3).

ghost use Rattle.std.specs.Prelude.{◌≡◌, ℕ, ◌<◌, ◌≤◌, ◌-◌, false, IfOk, MatchOption, option_map, is_some, slice_get, List, Option, None, Some, length};
ghost use Rattle.sctp_model.specs.wire.Chunk.{BlockMeaning};
ghost use Rattle.sctp_model.specs.numbers.Limits.{RUN_LIMIT};
ghost use Rattle.sctp_model.specs.numbers.Serial.{tsn};
ghost use Rattle.sctp_model.specs.messages.Format.{Unordered, is_numbered};
ghost use Rattle.sctp_model.specs.receiver.ReceiverView.{ReceiverView, IsCumulative, fresh_receiver, held_bytes};
ghost use Rattle.sctp_model.specs.receiver.SackMade.{AreAllRuns, sack_sent, TakeLeaves};
ghost use Rattle.sctp_model.specs.end.Arriving.{TellsGap};
ghost use Rattle.sctp_recv.specs.HandedOf.{handed_of};
ghost use Rattle.sctp_recv.specs.Readable.{ReadableAnswer, NextReadableAnswer};
ghost use Rattle.sctp_recv.specs.Requests.{reset_there};
ghost use Rattle.sctp_recv.specs.StandsFor.{StandsFor};

use crate::duplicates::Duplicates;
use crate::give::less;
use crate::message::Message;
use crate::places::Lows;
use crate::ready::{Ready, show_change};
use crate::resets::{Resets, count_off};
use crate::seen::Seen;
use crate::stream::{Stream, fresh_streams, take_first};
use sctp_chains::Spare;
use sctp_framing::Framing;
use sctp_serial::tsn_of;
use sctp_values::{Kind, NoMemory};
use std::alloc::Global;

/// The receiver of an association, in one format of user data.
#[derive(Drop)]
pub struct Receiver<F: Framing> {
    pub(crate) alloc: Global,
    pub(crate) initial: u32,
    pub(crate) buffer: u32,
    pub(crate) held: u32,
    pub(crate) seen: Seen,
    pub(crate) streams: Vec<Stream<F>>,
    pub(crate) duplicates: Duplicates,
    /// The resets of the peer's streams, once it made a request.
    pub(crate) resets: Option<Box<Resets>>,
    /// For each stream a bound of the indexes of the unordered chunks kept, if their messages have no number.
    pub(crate) lows: Lows,
    /// On which streams a message waits.
    pub(crate) ready: Ready,
    /// Memory of messages that were returned.
    pub(crate) spare: Spare,
}

/// Of how many of these streams a bound is noted: of none if unordered messages have numbers.
fn noted_streams<F: Framing>(streams: u16) -> u16
    ensures { is_numbered F.format Unordered ≡ false → result ≡ streams }
{
    if F::is_numbered(Kind::Unordered) {
        return 0;
    }
    streams
}

#[tactic(auto, unfolding(crate::specs::StandsFor::StandsFor))]
impl<F: Framing> Receiver<F> {
    /// A receiver that has received nothing, with the peer's initial TSN, the number of streams, and the receive buffer in bytes.
    ///
    /// # Errors
    /// Allocation failed.
    pub fn new(
        alloc: Global,
        initial_tsn: u32,
        streams: u16,
        buffer: u32,
    ) -> Result<Receiver<F>, NoMemory>
        ensures { IfOk result (λ r. StandsFor F.format r (fresh_receiver initial_tsn streams buffer 0)) }
    {
        let lows = Lows::new(alloc, noted_streams::<F>(streams))?;
        let ready = Ready::new(alloc, streams)?;
        let streams = fresh_streams(alloc, streams)?;
        Ok(Receiver {
            alloc,
            initial: initial_tsn,
            buffer,
            held: 0,
            seen: Seen::new(alloc),
            streams,
            duplicates: Duplicates::new(alloc),
            resets: None,
            lows,
            ready,
            spare: Spare::new(alloc),
        })
    }

    /// The data bytes of all chunks kept and all messages not taken yet, at most the receive buffer.
    pub fn held_bytes(&self) -> u32
        ensures held { (v : ReceiverView) → StandsFor F.format self.now v → result ≡ held_bytes v }
        ensures bound { (v : ReceiverView) → StandsFor F.format self.now v → result ≤ v.buffer }
    {
        self.held
    }

    /// The cumulative TSN: all up to it were received, or skipped by a FORWARD-TSN or I-FORWARD-TSN.
    pub fn cumulative(&self) -> u32
        ensures { (v : ReceiverView) → StandsFor F.format self.now v
            → (c : ℕ) × IsCumulative v c × (result ≡ tsn v.initial c) }
    {
        tsn_of(self.initial, self.seen.cumulative())
    }

    /// The number of runs of consecutive TSNs received above the cumulative TSN.
    pub fn run_count(&self) -> u32
        ensures runs { (v : ReceiverView) → StandsFor F.format self.now v
            → (c : ℕ) × (bs : List BlockMeaning) × IsCumulative v c × AreAllRuns v c bs × (result ≡ length bs) }
        ensures bound { result ≤ RUN_LIMIT }
    {
        self.seen.run_count()
    }

    /// Whether a TSN above the cumulative TSN was received, so that one before it is missing (RFC 9260, 6.2).
    pub fn has_gap(&self) -> bool
        ensures { (v : ReceiverView) → StandsFor F.format self.now v → TellsGap result v }
    {
        self.seen.has_runs()
    }

    /// The number of streams.
    pub fn stream_count(&self) -> u16
        ensures { (v : ReceiverView) → StandsFor F.format self.now v → result ≡ v.streams }
    {
        u16::try_from(self.streams.len()).unwrap_or(u16::MAX)
    }

    /// The message that waits at a position on a stream, from 0, without taking it: None if and only if there is none, as on a stream that doesn't exist.
    pub fn waiting(&self, stream: u16, place: usize) -> Option<&Message>
        ensures { (v : ReceiverView) → StandsFor F.format self.now v → MatchOption result (slice_get (v.waiting stream) place ≡ None)
            (λ m. slice_get (v.waiting stream) place ≡ Some (handed_of m.now)) }
    {
        self.streams.get(usize::from(stream))?.message(place)
    }

    /// The first stream from `from` on, on which a message waits to be taken: None if and only if none waits from there on. A caller who goes on
    /// after it, and begins at 0 again after None, goes round all of them. It looks only at some words of 64 streams or of 4,096.
    pub fn readable(&self, from: u16) -> Option<u16>
        ensures { (v : ReceiverView) → StandsFor F.format self.now v → ReadableAnswer v.waiting from result }
    {
        self.ready.next(from)
    }

    /// The first stream from `from` on, on which a message waits to be taken, or else the first of all: None if and only if none waits. For a caller who
    /// goes round all of them it is `readable` with one look at the streams where two may be needed.
    #[inline(always)]
    pub fn next_readable(&self, from: u16) -> Option<u16>
        ensures { (v : ReceiverView) → StandsFor F.format self.now v → NextReadableAnswer v.waiting from result }
    {
        let lowest = self.readable(0)?;
        if from <= lowest {
            return Some(lowest);
        }
        match self.readable(from) {
            Some(stream) => Some(stream),
            None => Some(lowest),
        }
    }

    /// Notes that the SACK was sent: the duplicates that it reported are forgotten.
    pub fn sack_sent(&mut self)
        ensures { (v : ReceiverView) → StandsFor F.format self.old v → StandsFor F.format self.new (sack_sent v) }
    {
        self.duplicates.truncate(0);
    }

    /// Whether `take_reset` has a reset to report.
    #[inline(always)]
    pub fn has_reset(&self) -> bool
        ensures { (v : ReceiverView) → StandsFor F.format self.now v → result ≡ is_some (reset_there v) }
    {
        match &self.resets {
            Some(resets) => resets.told.next(0).is_some(),
            None => false,
        }
    }

    /// Takes the first message that waits on a stream: None if and only if none waits, as on a stream that doesn't exist. It is inlined, since it runs for each
    /// message.
    #[inline(always)]
    pub fn take(&mut self, stream: u16) -> Option<Message>
        ensures { (v : ReceiverView) → StandsFor F.format self.old v
            → (t : ReceiverView) × TakeLeaves v stream (option_map handed_of result) t × StandsFor F.format self.new t }
    {
        let at = usize::from(stream);
        if at >= self.streams.len() {
            return None;
        }
        match take_first(&mut self.streams[at]) {
            Some(message) => {
                self.held = less(self.held, &message);
                self.spare.taken();
                count_off(&mut self.resets, stream);
                let waits = self.streams[at].has_message();
                show_change(&mut self.ready, &self.streams, stream, true, waits);
                Some(message)
            }
            None => None,
        }
    }

    /// Returns a message that was taken, for its memory to be reused for the data of chunks that are received. The receiver keeps the memory of at most
    /// as many messages as waited at once since the first one was returned (those delivered by a FORWARD aren't counted), in blocks of no more bytes
    /// than its buffer, and of half as many where for long few wait. It frees the rest, and a block that the next chunk doesn't fit or would fill by less
    /// than half. Nothing is allocated.
    #[inline(always)]
    pub fn give_back(&mut self, message: Message)
        ensures { (v : ReceiverView) → StandsFor F.format self.old v → StandsFor F.format self.new v }
    {
        self.spare.give_back(message.parts, self.buffer);
    }
}
