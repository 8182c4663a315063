//! The next message is copied to a buffer, without an event made for it.

ghost use Rattle.std.specs.Prelude.{◌≡◌, true, Some, slice_get};
ghost use Rattle.sctp_model.specs.receiver.ReceiverView.{Handed};
ghost use Rattle.sctp_model.specs.end.EndView.{EndView};
ghost use Rattle.sctp_model.specs.end.UserCalls.{UserTakes};
ghost use Rattle.sctp_recv.specs.HandedOf.{message_bytes};
ghost use Rattle.sctp_endpoint.specs.Counted.{counted};
ghost use Rattle.sctp_channels.specs.Streams.{is_reset, Table, stream_at};
ghost use Rattle.sctp_channels.specs.Events.{reports_message, reports_over, turn, reports_turn, next_report, next_told};
ghost use Rattle.sctp_channels.specs.Writing.{Keeps, Writes};
ghost use Rattle.sctp_channels.specs.ChannelsStand.{ChannelsStand, endpoint_of};
ghost use Rattle.sctp_channels.specs.inner.SaidMeans.{bytes_unless};
ghost use Rattle.sctp_channels.specs.inner.Upcoming.{Comes, PutsAll};

use crate::ahead::Ahead;
use crate::channels::Channels;
use crate::said::{ContentKind, content_told};
use crate::stream::State;
use sctp_endpoint::Message;

/// What `next_message_into` did.
#[derive(Clone, Copy, Debug, PartialEq, Eq)]
pub enum Written {
    /// There is nothing to report: `next_event` would return None.
    Nothing,
    /// The next event was this message, and is reported by it.
    Message {
        /// The stream of the channel.
        stream: u16,
        /// It is text, which should be UTF-8; else binary data.
        text: bool,
        /// How many bytes it has, at the beginning of the buffer.
        length: usize,
    },
    /// The next event, if there is one, is another one, or a message for which the buffer has no space: `next_event` reports it.
    Other,
}

/// What is reported next, as far as that is known before it is.
#[derive(Clone, Copy)]
pub(crate) enum Upcoming {
    /// Nothing.
    Nothing,
    /// What the first message that waits on a stream says, which the peer hasn't reset. It is kept in this state.
    First { stream: u16, state: State },
    /// What the first message that waits on a stream says, which the peer has reset. It is kept in this state.
    Left { stream: u16, state: State },
    /// Something else.
    Other,
}

#[tactic(auto, unfolding(crate::specs::ChannelsStand::ChannelsStand, crate::specs::ChannelsStand::endpoint_of, crate::specs::ChannelsStand::table_of))]
impl Channels {
    /// Reports the next event if that is a message for which the buffer has space: its bytes are copied to the beginning of the buffer, and its memory goes
    /// back to the endpoint. Else nothing changes. It is `next_event` without an event to be made and given back, for those who copy each message.
    pub fn next_message_into(&mut self, buffer: &mut [u8]) -> Written
        ensures did { (v : EndView) (x : Table) → ChannelsStand self.old v x → Writes (next_told v x) v x result self.new buffer.old buffer.new }
        ensures kept { Keeps result buffer.old buffer.new }
        ensures counts { counted (endpoint_of self.new) ≡ counted (endpoint_of self.old) }
    {
        match self.upcoming() {
            Upcoming::Nothing => Written::Nothing,
            Upcoming::First { stream, state } => self.write_first(stream, state, false, buffer),
            Upcoming::Left { stream, state } => self.write_left(stream, state, buffer),
            Upcoming::Other => Written::Other,
        }
    }

    /// What is reported next.
    #[inline(always)]
    fn upcoming(&mut self) -> Upcoming
        ensures comes { (v : EndView) (x : Table) → ChannelsStand self.old v x → Comes (next_report v x) v x result }
        ensures same { (v : EndView) (x : Table) → ChannelsStand self.old v x → ChannelsStand self.new v x }
        ensures counts { counted (endpoint_of self.new) ≡ counted (endpoint_of self.old) }
    {
        match self.ahead() {
            Ahead::Nothing => self.upcoming_turn(),
            Ahead::Closed { stream } => Upcoming::Other,
            Ahead::Low { stream } => Upcoming::Other,
        }
    }

    /// What is reported next if nothing is ahead of messages: what the endpoint's next message says, if the peer hasn't reset its stream.
    #[inline(always)]
    fn upcoming_turn(&self) -> Upcoming
        ensures { (v : EndView) (x : Table) → ChannelsStand self.now v x → Comes (reports_turn (turn v x) v x) v x result }
    {
        let Some(stream) = self.endpoint.next_readable(self.table.next) else {
            return self.upcoming_end();
        };
        let kept = self.table.at(stream);
        if kept.resets.is_reset() {
            return self.upcoming_left();
        }
        Upcoming::First {
            stream,
            state: kept.state,
        }
    }

    /// `upcoming_turn` by the stream whose turn it is, where the peer has reset one.
    #[inline(never)]
    fn upcoming_left(&self) -> Upcoming
        ensures { (v : EndView) (x : Table) → ChannelsStand self.now v x → Comes (reports_turn (turn v x) v x) v x result }
    {
        match self.turn() {
            Some(stream) => self.upcoming_on(stream),
            None => self.upcoming_end(),
        }
    }

    /// What is reported next if it is what the first message that waits on this stream says.
    fn upcoming_on(&self, stream: u16) -> Upcoming
        ensures { (v : EndView) (x : Table) → ChannelsStand self.now v x → Comes (reports_message stream (v.receiver.waiting stream) v x) v x result }
    {
        let kept = self.table.at(stream);
        let state = kept.state;
        if kept.resets.is_reset() {
            Upcoming::Left { stream, state }
        } else {
            Upcoming::First { stream, state }
        }
    }

    /// What is reported next if no message waits.
    fn upcoming_end(&self) -> Upcoming
        ensures { (v : EndView) (x : Table) → ChannelsStand self.now v x → Comes (reports_over v x) v x result }
    {
        if self.endpoint.ended().is_none() {
            Upcoming::Nothing
        } else {
            Upcoming::Other
        }
    }

    /// Reports the first message that waits on a stream if it is a content for which the buffer has space. It is looked up once for that, and once to be
    /// taken. The stream is kept in this state, and the peer has reset it or not.
    #[inline(always)]
    fn write_first(
        &mut self,
        stream: u16,
        state: State,
        is_left: bool,
        buffer: &mut [u8],
    ) -> Written
        ensures did { (v : EndView) (x : Table) → ChannelsStand self.old v x → state ≡ (stream_at x stream).state → is_left ≡ is_reset (stream_at x stream).resets
            → Writes (reports_message stream (v.receiver.waiting stream) v x) v x result self.new buffer.old buffer.new }
        ensures kept { Keeps result buffer.old buffer.new }
        ensures counts { counted (endpoint_of self.new) ≡ counted (endpoint_of self.old) }
    {
        let Some(message) = self.endpoint.waiting(stream, 0) else {
            return Written::Nothing;
        };
        let Some(kind) = content_told(state, message.payload_id) else {
            return Written::Other;
        };
        let Some(length) = copy_content(message, kind, buffer) else {
            return Written::Other;
        };
        self.drop_first(stream);
        self.count_taken(stream, is_left);
        Written::Message {
            stream,
            text: kind.text,
            length,
        }
    }

    /// `write_first` on a stream that the peer has reset. A function of its own, so that others keep nothing of a stream over the copy of a message.
    #[inline(never)]
    fn write_left(&mut self, stream: u16, state: State, buffer: &mut [u8]) -> Written
        ensures did { (v : EndView) (x : Table) → ChannelsStand self.old v x → state ≡ (stream_at x stream).state → true ≡ is_reset (stream_at x stream).resets
            → Writes (reports_message stream (v.receiver.waiting stream) v x) v x result self.new buffer.old buffer.new }
        ensures kept { Keeps result buffer.old buffer.new }
        ensures counts { counted (endpoint_of self.new) ≡ counted (endpoint_of self.old) }
    {
        self.write_first(stream, state, true, buffer)
    }

    /// Takes the first message that waits on a stream, and gives its memory back to the endpoint.
    #[inline(never)]
    fn drop_first(&mut self, stream: u16)
        ensures step { (v : EndView) (x : Table) (h : Handed) → ChannelsStand self.old v x → slice_get (v.receiver.waiting stream) 0 ≡ Some h
            → (t : EndView) × UserTakes v stream (Some h) t × ChannelsStand self.new t x }
        ensures counts { counted (endpoint_of self.new) ≡ counted (endpoint_of self.old) }
    {
        if let Some(message) = self.endpoint.take(stream) {
            self.endpoint.give_back(message);
        }
    }
}

/// Copies a message that is a content of this kind to the beginning of a buffer, and returns how many bytes it has; None if the buffer has no space.
fn copy_content(message: &Message, kind: ContentKind, buffer: &mut [u8]) -> Option<usize>
    ensures { PutsAll (bytes_unless kind.empty (message_bytes message.now)) result buffer.old buffer.new }
{
    if kind.empty {
        return Some(0);
    }
    copy_whole(message, buffer)
}

/// Copies a message to the beginning of a buffer, and returns how many bytes it has; None if the buffer has no space.
fn copy_whole(message: &Message, buffer: &mut [u8]) -> Option<usize>
    ensures { PutsAll (message_bytes message.now) result buffer.old buffer.new }
{
    if let [part] = message.parts() {
        if part.len() <= buffer.len() {
            buffer[..part.len()].copy_from_slice(part);
            return Some(part.len());
        }
    }
    copy_parts(message, buffer)
}

/// `Message::copy_into` as a function of its own: so a message of one fragment saves no registers for it.
#[inline(never)]
fn copy_parts(message: &Message, buffer: &mut [u8]) -> Option<usize>
    ensures { PutsAll (message_bytes message.now) result buffer.old buffer.new }
{
    message.copy_into(buffer).ok()
}
