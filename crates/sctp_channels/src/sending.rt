//! Messages are sent (RFC 8831, 6.6), and the ACKs of channels (RFC 8832, 6).

ghost use Rattle.std.specs.Prelude.{◌≡◌, min, Result, Option, Some, None};
ghost use Rattle.sctp_model.specs.end.EndView.{EndView};
ghost use Rattle.sctp_model.specs.numbers.Limits.{LAST_MOMENT};
ghost use Rattle.sctp_dcep.specs.Meanings.{content_meaning};
ghost use Rattle.sctp_endpoint.specs.Counted.{counted};
ghost use Rattle.sctp_channels.specs.declared.stream.Due.TheVariants.{Acknowledgement};
ghost use Rattle.sctp_association.specs.CallAnswers.{call_with};
ghost use Rattle.sctp_send.specs.SenderAnswers.{lane_for};
ghost use Rattle.sctp_channels.specs.Streams.{Table, stream_at};
ghost use Rattle.sctp_channels.specs.Calling.{ack_call, content_call, until_by, limit_by};
ghost use Rattle.sctp_channels.specs.Answers.{Sends};
ghost use Rattle.sctp_channels.specs.ChannelsStand.{ChannelsStand, endpoint_of};
ghost use Rattle.sctp_channels.specs.inner.Sent.{AcksOn, SendsOn, SendsBehind};

use crate::channels::Channels;
use crate::fault::SendFault;
use crate::limits::{limit_by, until_by};
use crate::stream::{ChannelType, Due, Stream};
use sctp_dcep::{ACKNOWLEDGEMENT, Content, DCEP};
use sctp_endpoint::{Refused, SendFault as Fault, Ticket};

/// What a message is sent with beside its bytes: the stream, whether it is delivered in order, and the payload protocol identifier.
#[derive(Clone, Copy)]
pub(crate) struct Head {
    pub(crate) stream: u16,
    pub(crate) ordered: bool,
    pub(crate) payload_id: u32,
}

#[tactic(auto, unfolding(crate::specs::ChannelsStand::ChannelsStand, crate::specs::ChannelsStand::endpoint_of, crate::specs::ChannelsStand::table_of))]
impl Channels {
    /// Sends a message on a channel: it is copied and queued (RFC 8831, 6.6). `now` is the current time in milliseconds, from which the lifetime of the
    /// messages of a channel with `MaxPacketLifetime` counts; call `on_moment` at its end, too. The ticket identifies the message at the endpoint. A buffered amount above the channel's low threshold is noted.
    ///
    /// # Errors
    /// `SendFault::NoChannel` if there is no channel on the stream, or it is being closed; else `SendFault::Refused` if the endpoint doesn't take the
    /// message, or an allocation failed. If the DATA_CHANNEL_ACK of a channel of the peer's is still due it is queued first, and the message is
    /// refused with it; nothing else changed.
    pub fn send(&mut self, now: u64, stream: u16, content: Content<'_>) -> Result<Ticket, SendFault>
        ensures step { (v : EndView) (x : Table) → ChannelsStand self.old v x → Sends v x now stream (content_meaning content.entry) result self.new }
        ensures counts { counted (endpoint_of self.new) ≡ counted (endpoint_of self.old) }
    {
        let kept = self.table.at(stream);
        if !kept.state.may_send() {
            return Err(SendFault::NoChannel);
        }
        match self.send_behind_ack(now, stream, kept, content) {
            Ok(ticket) => {
                self.look(stream);
                Ok(ticket)
            }
            Err(why) => Err(SendFault::Refused(why)),
        }
    }

    /// Queues a message on the channel of a stream, behind the ACK if that is due.
    ///
    /// # Errors
    /// The endpoint refuses one of them, or an allocation failed: of the ACK it isn't due any more if it was queued.
    fn send_behind_ack(
        &mut self,
        now: u64,
        stream: u16,
        kept: Stream,
        content: Content<'_>,
    ) -> Result<Ticket, Refused>
        ensures step { (v : EndView) (x : Table) → ChannelsStand self.old v x → kept ≡ stream_at x stream
            → SendsBehind v x now stream kept (content_meaning content.entry) result self.new }
        ensures counts { counted (endpoint_of self.new) ≡ counted (endpoint_of self.old) }
    {
        match kept.due {
            Due::Acknowledgement => self.send_after_ack(now, stream, content),
            Due::Nothing => self.send_on(now, stream, kept, content),
            Due::Reset => self.send_on(now, stream, kept, content),
        }
    }

    /// Queues the ACK of the channel of a stream, and a message behind it. It is not inlined: it runs once a channel.
    ///
    /// # Errors
    /// The endpoint refuses one of them, or an allocation failed: of the ACK it isn't due any more if it was queued.
    #[inline(never)]
    fn send_after_ack(
        &mut self,
        now: u64,
        stream: u16,
        content: Content<'_>,
    ) -> Result<Ticket, Refused>
        ensures step { (v : EndView) (x : Table) → ChannelsStand self.old v x → (stream_at x stream).due ≡ Acknowledgement
            → SendsBehind v x now stream (stream_at x stream) (content_meaning content.entry) result self.new }
        ensures counts { counted (endpoint_of self.new) ≡ counted (endpoint_of self.old) }
    {
        let kept = self.table.at(stream);
        match self.acknowledge(stream, kept) {
            Ok(kept) => self.send_on(now, stream, kept, content),
            Err(why) => Err(why),
        }
    }

    /// Queues the ACK of a channel.
    ///
    /// # Errors
    /// The endpoint refuses it, or an allocation failed: nothing changed.
    pub(crate) fn queue_ack(&mut self, stream: u16) -> Result<Ticket, Refused>
        ensures step { (v : EndView) (x : Table) → ChannelsStand self.old v x → SendsOn v x (ack_call stream) result self.new }
        ensures counts { counted (endpoint_of self.new) ≡ counted (endpoint_of self.old) }
    {
        let bytes = Vec::from_slice(self.alloc, &[ACKNOWLEDGEMENT]).map_err(|_| Refused::Fault(
            Fault::NoMemory,
        ))?;
        self.is_calm = false;
        self.endpoint.send(stream, true, DCEP, bytes, None)
    }

    /// Queues the ACK of a channel, which then isn't due any more.
    ///
    /// # Errors
    /// The endpoint refuses it, or an allocation failed: nothing changed.
    #[inline(never)]
    fn acknowledge(&mut self, stream: u16, kept: Stream) -> Result<Stream, Refused>
        ensures step { (v : EndView) (x : Table) → ChannelsStand self.old v x → AcksOn v x stream kept result self.new }
        ensures counts { counted (endpoint_of self.new) ≡ counted (endpoint_of self.old) }
    {
        match self.queue_ack(stream) {
            Ok(_) => {
                let kept = kept.without_due();
                self.is_calm = false;
                self.table.set(stream, kept);
                Ok(kept)
            }
            Err(why) => Err(why),
        }
    }

    /// Queues a message on the channel of a stream. One on a reliable channel goes a way of its own, on which neither the time nor the channel's parameter is
    /// kept over the copy of its bytes.
    ///
    /// # Errors
    /// The endpoint refuses it, or an allocation failed: nothing changed.
    #[inline(always)]
    fn send_on(
        &mut self,
        now: u64,
        stream: u16,
        kept: Stream,
        content: Content<'_>,
    ) -> Result<Ticket, Refused>
        ensures step { (v : EndView) (x : Table) → ChannelsStand self.old v x → SendsOn v x (content_call stream kept now (content_meaning content.entry)) result self.new }
        ensures counts { counted (endpoint_of self.new) ≡ counted (endpoint_of self.old) }
    {
        let head = Head {
            stream,
            ordered: kept.goes_ordered(),
            payload_id: content.payload_id(),
        };
        let bytes = content.user_data();
        match kept.kind {
            ChannelType::Reliable | ChannelType::ReliableUnordered => {
                self.send_reliable(head, bytes)
            }
            ChannelType::Rexmit
            | ChannelType::RexmitUnordered
            | ChannelType::Timed
            | ChannelType::TimedUnordered => self.send_limited(now, kept, head, bytes),
        }
    }

    /// Queues a message of these bytes, without an end of its lifetime or a limit of retransmissions.
    ///
    /// # Errors
    /// The endpoint refuses it, or an allocation failed: nothing changed.
    #[inline(always)]
    fn send_reliable(&mut self, head: Head, bytes: &[u8]) -> Result<Ticket, Refused>
        ensures step { (v : EndView) (x : Table) → ChannelsStand self.old v x
            → SendsOn v x (call_with (lane_for head.stream head.ordered) head.payload_id bytes.now None None) result self.new }
        ensures counts { counted (endpoint_of self.new) ≡ counted (endpoint_of self.old) }
    {
        let Ok(bytes) = self.endpoint.copy_bytes(self.alloc, bytes) else {
            return Err(Refused::Fault(Fault::NoMemory));
        };
        let Head {
            stream,
            ordered,
            payload_id,
        } = head;
        self.is_calm = false;
        self.endpoint.send(stream, ordered, payload_id, bytes, None)
    }

    /// Queues a message of these bytes, with the end of its lifetime or the limit of its retransmissions by the channel of which this is kept. It is not
    /// inlined, so that the code for reliable channels is small.
    ///
    /// # Errors
    /// The endpoint refuses it, or an allocation failed: nothing changed.
    #[inline(never)]
    fn send_limited(
        &mut self,
        now: u64,
        kept: Stream,
        head: Head,
        bytes: &[u8],
    ) -> Result<Ticket, Refused>
        ensures step { (v : EndView) (x : Table) → ChannelsStand self.old v x
            → SendsOn v x (call_with (lane_for head.stream head.ordered) head.payload_id bytes.now (until_by kept.kind kept.parameter now) (limit_by kept.kind kept.parameter)) result self.new }
        ensures counts { counted (endpoint_of self.new) ≡ counted (endpoint_of self.old) }
    {
        let Ok(bytes) = self.endpoint.copy_bytes(self.alloc, bytes) else {
            return Err(Refused::Fault(Fault::NoMemory));
        };
        let Head {
            stream,
            ordered,
            payload_id,
        } = head;
        let until = until_by(kept.kind, kept.parameter, now);
        self.is_calm = false;
        match limit_by(kept.kind, kept.parameter) {
            None => self
                .endpoint
                .send(stream, ordered, payload_id, bytes, until),
            Some(limit) => self
                .endpoint
                .send_with_max_retransmits(stream, ordered, payload_id, bytes, until, limit),
        }
    }
}
