//! What is reported to the user next (RFC 8831, 6.4 to 6.7).

ghost use Rattle.std.specs.Prelude.{◌≡◌, List, ◌∷◌, length, option_map, Some, IfOk, OnErr};
ghost use Rattle.sctp_model.specs.receiver.ReceiverView.{Handed};
ghost use Rattle.sctp_model.specs.end.EndView.{EndView};
ghost use Rattle.sctp_recv.specs.HandedOf.{handed_of};
ghost use Rattle.sctp_endpoint.specs.Counted.{counted};
ghost use Rattle.sctp_channels.specs.Streams.{Table, stream_at, first_from};
ghost use Rattle.sctp_channels.specs.Events.{readable_from, turn, reports_taken, reports_message, reports_over, with_freed, next_told};
ghost use Rattle.sctp_channels.specs.Meanings.{event_meaning};
ghost use Rattle.sctp_channels.specs.ChannelsStand.{ChannelsStand, endpoint_of};
ghost use Rattle.sctp_channels.specs.Telling.{Tells};
ghost use Rattle.sctp_channels.specs.Told.{Message as Shows};
ghost use Rattle.sctp_channels.specs.Coming.{tells};
ghost use Rattle.sctp_channels.specs.inner.SaidMeans.{kind_meaning};
ghost use Rattle.sctp_channels.specs.inner.Telling.{IsContentOf, IsEventOf};

use crate::ahead::Ahead;
use crate::channels::Channels;
use crate::coming::{Side, Told, comes};
use crate::event::Event;
use crate::said::{ContentKind, content_told, read_message};
use crate::stream::Stream;
use sctp_endpoint::Message;
use sctp_values::NoMemory;

/// The number of streams that there can be (RFC 9260, 3.3.1).
const STREAMS: u32 = 65_536;

#[tactic(auto, unfolding(crate::specs::ChannelsStand::ChannelsStand, crate::specs::ChannelsStand::endpoint_of, crate::specs::ChannelsStand::table_of))]
impl Channels {
    /// What is reported to the user next; None if there is nothing. Call it after each packet until then. The first of these:
    ///
    /// - a channel that is closed, on the lowest such stream: the peer has reset its half, all that it sent before was reported, and this side's half was
    ///   reset, too (RFC 8831, 6.7);
    /// - a channel whose buffered amount is low, on the lowest such stream: since the threshold was set, or since this was last reported, the amount was above
    ///   it, and it isn't any more;
    /// - the first message that waits on a stream, the streams taking turns. It is taken from the endpoint, and reported by one event. A content on a
    ///   channel whose DATA_CHANNEL_ACK wasn't received shows that the channel is open: this is reported first. Messages that the peer sent after it reset
    ///   a stream wait until the channel before is closed;
    /// - once the association is over, each channel that is left is closed.
    ///
    /// # Errors
    /// `NoMemory` if the allocation for a message of DCEP failed: nothing changed.
    pub fn next_event(&mut self) -> Result<Option<Event>, NoMemory>
        ensures told { (v : EndView) (x : Table) → ChannelsStand self.old v x → IfOk result (λ event. Tells (next_told v x) event self.new) }
        ensures refused { (v : EndView) (x : Table) → ChannelsStand self.old v x → OnErr result (ChannelsStand self.new v x) }
        ensures counts { counted (endpoint_of self.new) ≡ counted (endpoint_of self.old) }
    {
        match self.ahead() {
            Ahead::Closed { stream } => {
                self.leave(stream);
                Ok(Some(Event::Closed { stream }))
            }
            Ahead::Low { stream } => {
                self.is_calm = false;
                let threshold = self.table.threshold(stream);
                self.table.set_threshold(stream, threshold.told_low());
                Ok(Some(Event::BufferedAmountLow { stream }))
            }
            Ahead::Nothing => match self.turn() {
                Some(stream) => self.hear(stream),
                None => Ok(self.end()),
            },
        }
    }

    /// The stream whose turn it is, of those with a message to be reported: the endpoint's next one with a message, unless what waits there first is of the
    /// stream's next channel.
    #[inline(always)]
    pub(crate) fn turn(&self) -> Option<u16>
        ensures { (v : EndView) (x : Table) → ChannelsStand self.now v x → result ≡ turn v x }
    {
        let Some(stream) = self.endpoint.next_readable(self.table.next) else {
            return None;
        };
        if self.table.at(stream).is_drained() {
            return self.turn_by_walk();
        }
        Some(stream)
    }

    /// `turn`, where streams are passed on which a message of the next channel waits.
    #[inline(never)]
    fn turn_by_walk(&self) -> Option<u16>
        ensures { (v : EndView) (x : Table) → ChannelsStand self.now v x → result ≡ turn v x }
    {
        let Some(lowest) = self.readable_from(0) else {
            return None;
        };
        let next = self.table.next;
        if next <= lowest {
            return Some(lowest);
        }
        match self.readable_from(next) {
            Some(stream) => Some(stream),
            None => Some(lowest),
        }
    }

    /// The lowest stream from one on with a message to be reported.
    fn readable_from(&self, from: u16) -> Option<u16>
        ensures { (v : EndView) (x : Table) → ChannelsStand self.now v x → result ≡ readable_from v x from }
    {
        let mut from = from;
        for turn in 0..STREAMS {
            let Some(stream) = self.endpoint.readable(from) else {
                return None;
            };
            if !self.table.at(stream).is_drained() {
                return Some(stream);
            }
            if stream == u16::MAX {
                return None;
            }
            from = stream + 1;
        }
        None
    }

    /// The first message that waits on a stream is reported.
    ///
    /// # Errors
    /// `NoMemory` if an allocation failed: nothing changed.
    fn hear(&mut self, stream: u16) -> Result<Option<Event>, NoMemory>
        ensures told { (v : EndView) (x : Table) → ChannelsStand self.old v x
            → IfOk result (λ event. Tells (with_freed (reports_message stream (v.receiver.waiting stream) v x)) event self.new) }
        ensures refused { (v : EndView) (x : Table) → ChannelsStand self.old v x → OnErr result (ChannelsStand self.new v x) }
        ensures counts { counted (endpoint_of self.new) ≡ counted (endpoint_of self.old) }
    {
        let Some(message) = self.endpoint.waiting(stream, 0) else {
            return Ok(None);
        };
        let kept = self.table.at(stream);
        if let Some(kind) = content_told(kept.state, message.payload_id) {
            return Ok(Some(self.take_content(stream, kept, kind)));
        }
        let said = read_message(self.alloc, message)?;
        let side = Side {
            role: self.table.role,
            outgoing: self.outgoing(),
        };
        let after = comes(side, stream, said, kept);
        self.is_calm = false;
        if !after.taken {
            self.table.set(stream, after.stream);
            return Ok(Some(Event::Opened { stream }));
        }
        let message = self.endpoint.take(stream);
        self.table.set(stream, after.stream.one_taken());
        self.table.turn_past(stream);
        self.free_behind(stream, &after.told);
        Ok(Some(event(stream, after.told, message)))
    }

    /// The first message that waits on a stream is taken, and reported as a content of this kind. Nearly every message is heard so: what `comes` says of
    /// one, with the parameters of a channel in its place, is too much to copy for each.
    fn take_content(&mut self, stream: u16, kept: Stream, kind: ContentKind) -> Event
        ensures step { (v : EndView) (x : Table) (h : Handed) (rest : List Handed) → ChannelsStand self.old v x → v.receiver.waiting stream ≡ h ∷ rest
            → kept ≡ stream_at x stream → Tells (reports_taken stream h rest (tells (Shows (kind_meaning h.bytes kind)) kept) v x) (Some result) self.new }
        ensures counts { counted (endpoint_of self.new) ≡ counted (endpoint_of self.old) }
    {
        let message = self.endpoint.take(stream);
        self.count_taken(stream, kept.resets.is_reset());
        content_event(stream, kind, message)
    }

    /// Once the association is over, a channel that is left is closed.
    fn end(&mut self) -> Option<Event>
        ensures step { (v : EndView) (x : Table) → ChannelsStand self.old v x → Tells (reports_over v x) result self.new }
        ensures counts { counted (endpoint_of self.new) ≡ counted (endpoint_of self.old) }
    {
        if self.endpoint.ended().is_none() {
            return None;
        }
        self.is_calm = false;
        let stream = self.table.first_used()?;
        self.leave(stream);
        Some(Event::Closed { stream })
    }
}

/// The event by which a message that was taken on a stream is reported as a content of this kind.
fn content_event(stream: u16, kind: ContentKind, message: Option<Message>) -> Event
    ensures { IsContentOf stream kind message result }
{
    Event::Message {
        stream,
        text: kind.text,
        message: if kind.empty { None } else { message },
    }
}

/// The event by which this is reported of a message that was taken on a stream, or of one that waits on.
fn event(stream: u16, told: Told, message: Option<Message>) -> Event
    ensures { IsEventOf stream told message result }
{
    match told {
        Told::Incoming(parameters) => Event::Incoming { stream, parameters },
        Told::Opened => Event::Opened { stream },
        Told::Message { text, empty } => Event::Message {
            stream,
            text,
            message: if empty { None } else { message },
        },
        Told::Refused(why) => Event::Refused { stream, why },
        Told::Ignored(why) => Event::Ignored { stream, why },
    }
}
