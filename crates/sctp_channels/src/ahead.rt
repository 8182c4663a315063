//! What is reported ahead of messages: a channel that is closed, a buffered amount that is low. It is looked for once after each change.

ghost use Rattle.std.specs.Prelude.{◌≡◌, length};
ghost use Rattle.sctp_model.specs.end.EndView.{EndView};
ghost use Rattle.sctp_endpoint.specs.Counted.{counted};
ghost use Rattle.sctp_channels.specs.Streams.{is_reset, Table, stream_at, with_stream, first_from};
ghost use Rattle.sctp_channels.specs.Coming.{one_taken};
ghost use Rattle.sctp_channels.specs.Events.{one_on};
ghost use Rattle.sctp_channels.specs.Settling.{is_closed};
ghost use Rattle.sctp_channels.specs.ChannelsStand.{ChannelsStand, endpoint_of};
ghost use Rattle.sctp_channels.specs.inner.Ahead.{IsAhead};

use crate::channels::Channels;
use crate::stream::{Due, State, Stream};

/// What is reported ahead of messages.
#[derive(Clone, Copy)]
pub(crate) enum Ahead {
    /// Nothing.
    Nothing,
    /// The channel of this stream is closed.
    Closed { stream: u16 },
    /// The buffered amount of this stream is low.
    Low { stream: u16 },
}

#[tactic(auto, unfolding(crate::specs::ChannelsStand::ChannelsStand, crate::specs::ChannelsStand::endpoint_of, crate::specs::ChannelsStand::table_of))]
impl Channels {
    /// What is reported ahead of messages. Without a busy stream nothing is.
    #[inline(always)]
    pub(crate) fn ahead(&mut self) -> Ahead
        ensures ahead { (v : EndView) (x : Table) → ChannelsStand self.old v x → IsAhead v x result }
        ensures same { (v : EndView) (x : Table) → ChannelsStand self.old v x → ChannelsStand self.new v x }
        ensures counts { counted (endpoint_of self.new) ≡ counted (endpoint_of self.old) }
    {
        if self.table.busy.high == 0 {
            return Ahead::Nothing;
        }
        self.look_ahead()
    }

    /// What is reported ahead of messages, with busy streams: it is looked for, unless nothing was found and nothing changed since. A function of its own,
    /// so that messages cost little where no stream is busy.
    #[inline(never)]
    fn look_ahead(&mut self) -> Ahead
        ensures ahead { (v : EndView) (x : Table) → ChannelsStand self.old v x → IsAhead v x result }
        ensures same { (v : EndView) (x : Table) → ChannelsStand self.old v x → ChannelsStand self.new v x }
        ensures counts { counted (endpoint_of self.new) ≡ counted (endpoint_of self.old) }
    {
        if self.is_calm {
            return Ahead::Nothing;
        }
        if let Some(stream) = self.first_closed() {
            return Ahead::Closed { stream };
        }
        if let Some(stream) = self.first_low() {
            return Ahead::Low { stream };
        }
        self.is_calm = true;
        Ahead::Nothing
    }

    /// The lowest stream whose channel is closed.
    pub(crate) fn first_closed(&self) -> Option<u16>
        ensures { (v : EndView) (x : Table) → ChannelsStand self.now v x → result ≡ first_from (is_closed v x) 0 (length x.streams) }
    {
        for stream in self.table.busy.low..self.table.busy.high {
            if self.is_closed(stream) {
                return Some(stream);
            }
        }
        None
    }

    /// The channel of the stream is closed (RFC 8831, 6.7).
    #[inline(never)]
    fn is_closed(&self, stream: u16) -> bool
        ensures { (v : EndView) (x : Table) → ChannelsStand self.now v x → result ≡ is_closed v x stream }
    {
        let kept = self.table.at(stream);
        matches!(kept.state, State::Closing)
            && kept.is_drained()
            && !matches!(kept.due, Due::Reset)
            && !self.endpoint.is_resetting(stream)
    }

    /// Counts that a message was taken from a stream, behind which the next one is looked for. The peer has reset it or not: where it hasn't, what is
    /// reported ahead of messages stays as it is.
    #[inline(always)]
    pub(crate) fn count_taken(&mut self, stream: u16, is_left: bool)
        ensures step { (v : EndView) (x : Table) → ChannelsStand self.old v x → is_left ≡ is_reset (stream_at x stream).resets
            → ChannelsStand self.new v (record (with_stream x stream (one_taken (stream_at x stream))) { next = one_on stream }) }
        ensures counts { counted (endpoint_of self.new) ≡ counted (endpoint_of self.old) }
    {
        if !is_left {
            self.table.turn_past(stream);
            return;
        }
        self.is_calm = false;
        let kept = self.table.at(stream);
        self.table.set(stream, kept.one_taken());
        self.table.turn_past(stream);
    }
}
