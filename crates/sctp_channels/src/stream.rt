//! What is kept of one stream (RFC 8831, 6.4 to 6.7; RFC 8832, 5.1 and 6).

ghost use Rattle.std.specs.Prelude.{◌≡◌};
ghost use Rattle.sctp_dcep.specs.Dcep.{value_of};
ghost use Rattle.sctp_dcep.specs.Meanings.{reliability_meaning};
ghost use Rattle.sctp_channels.specs.Streams.{unused, is_unused, has_channel, is_ending, may_send, is_reset, is_reset_again, is_free, is_drained, type_for, is_ordered, with_channel};
ghost use Rattle.sctp_channels.specs.Coming.{half_closed, leaving, left_over, one_taken, peer_resets};
ghost use Rattle.sctp_channels.specs.Calling.{goes_ordered};
ghost use Rattle.sctp_channels.specs.Settling.{without_due};
ghost use Rattle.sctp_channels.specs.inner.Spans.{is_restless};

use sctp_dcep::Reliability;

/// Where the channel of a stream stands.
#[derive(Clone, Copy, Debug, PartialEq, Eq)]
pub(crate) enum State {
    /// There is no channel.
    Unused,
    /// It was opened here, and nothing was received from the peer on it.
    Connecting,
    /// It was opened here, and a message of the peer overtook the ACK.
    Unanswered,
    /// Both sides may send.
    Open,
    /// It was closed here or by the peer: nothing is sent any more.
    Closing,
    /// What the peer sent opened no channel: this side's half is reset, and whatever else the peer sends before it resets its half is ignored.
    Refused,
    /// The peer reset the stream without a channel that was reported: this side's half is reset, too, and nothing is reported.
    Silent,
}

/// The channel type of a DATA_CHANNEL_OPEN (RFC 8832, 5.1).
#[derive(Clone, Copy, Debug, PartialEq, Eq)]
pub(crate) enum ChannelType {
    /// DATA_CHANNEL_RELIABLE
    Reliable,
    /// DATA_CHANNEL_RELIABLE_UNORDERED
    ReliableUnordered,
    /// DATA_CHANNEL_PARTIAL_RELIABLE_REXMIT
    Rexmit,
    /// DATA_CHANNEL_PARTIAL_RELIABLE_REXMIT_UNORDERED
    RexmitUnordered,
    /// DATA_CHANNEL_PARTIAL_RELIABLE_TIMED
    Timed,
    /// DATA_CHANNEL_PARTIAL_RELIABLE_TIMED_UNORDERED
    TimedUnordered,
}

/// What of a stream is still to be passed to the endpoint.
#[derive(Clone, Copy, Debug, PartialEq, Eq)]
pub(crate) enum Due {
    /// Nothing.
    Nothing,
    /// The DATA_CHANNEL_ACK for the peer's OPEN (RFC 8832, 6).
    Acknowledgement,
    /// The reset of this side's half (RFC 8831, 6.7).
    Reset,
}

/// How often the peer reset a stream since its last channel was closed.
#[derive(Clone, Copy, Debug, PartialEq, Eq)]
pub(crate) enum Resets {
    /// It didn't.
    Zero,
    /// Once: that closes the channel.
    One,
    /// Once more before the channel was reported closed: the second reset is of the stream's next channel.
    Two,
}

/// What is kept of one stream: 24 bytes.
#[derive(Clone, Copy, Debug, PartialEq, Eq)]
pub(crate) struct Stream {
    /// If the peer reset the stream: how many of the messages that wait for `take` were sent before, the first ones.
    pub(crate) left: usize,
    /// If the peer reset it twice: how many were sent before the second reset.
    pub(crate) again: usize,
    /// The reliability parameter of the channel.
    pub(crate) parameter: u32,
    /// The channel type.
    pub(crate) kind: ChannelType,
    pub(crate) state: State,
    pub(crate) due: Due,
    /// How often the peer reset the stream since its last channel was closed.
    pub(crate) resets: Resets,
}

impl State {
    /// There is no channel.
    pub(crate) fn is_unused(self) -> bool
        ensures { result ≡ is_unused self }
    {
        matches!(self, State::Unused)
    }

    /// There is a channel that was opened here or reported.
    pub(crate) fn has_channel(self) -> bool
        ensures { result ≡ has_channel self }
    {
        matches!(
            self,
            State::Connecting | State::Unanswered | State::Open | State::Closing
        )
    }

    /// The stream is being closed, with a channel or without one.
    fn is_ending(self) -> bool
        ensures { result ≡ is_ending self }
    {
        matches!(self, State::Closing | State::Silent)
    }

    /// A channel was opened, and isn't being closed.
    pub(crate) fn may_send(self) -> bool
        ensures { result ≡ may_send self }
    {
        matches!(self, State::Connecting | State::Unanswered | State::Open)
    }
}

impl Resets {
    /// The peer reset the stream.
    pub(crate) fn is_reset(self) -> bool
        ensures { result ≡ is_reset self }
    {
        matches!(self, Resets::One | Resets::Two)
    }

    /// It did so twice.
    fn is_reset_again(self) -> bool
        ensures { result ≡ is_reset_again self }
    {
        matches!(self, Resets::Two)
    }
}

impl ChannelType {
    /// The type of a channel with this reliability.
    pub(crate) fn of(ordered: bool, reliability: Reliability) -> ChannelType
        ensures { result ≡ type_for ordered (reliability_meaning reliability) }
    {
        match reliability {
            Reliability::Reliable if ordered => ChannelType::Reliable,
            Reliability::Reliable => ChannelType::ReliableUnordered,
            Reliability::MaxRetransmits(_) if ordered => ChannelType::Rexmit,
            Reliability::MaxRetransmits(_) => ChannelType::RexmitUnordered,
            Reliability::MaxPacketLifetime(_) if ordered => ChannelType::Timed,
            Reliability::MaxPacketLifetime(_) => ChannelType::TimedUnordered,
        }
    }

    /// Its messages are delivered in the order in which they were sent.
    pub(crate) fn is_ordered(self) -> bool
        ensures { result ≡ is_ordered self }
    {
        matches!(
            self,
            ChannelType::Reliable | ChannelType::Rexmit | ChannelType::Timed
        )
    }
}

/// The reliability parameter of a DATA_CHANNEL_OPEN (RFC 8832, 5.1).
pub(crate) fn parameter_of(reliability: Reliability) -> u32
    ensures { result ≡ value_of (reliability_meaning reliability) }
{
    match reliability {
        Reliability::Reliable => 0,
        Reliability::MaxRetransmits(times) => times,
        Reliability::MaxPacketLifetime(milliseconds) => milliseconds,
    }
}

impl Stream {
    /// A stream without a channel.
    pub(crate) fn unused() -> Stream
        ensures { result ≡ unused }
    {
        Stream {
            left: 0,
            again: 0,
            parameter: 0,
            kind: ChannelType::Reliable,
            state: State::Unused,
            due: Due::Nothing,
            resets: Resets::Zero,
        }
    }

    /// A channel may be opened on it.
    pub(crate) fn is_free(self) -> bool
        ensures { result ≡ is_free self }
    {
        self.state.is_unused() && !self.resets.is_reset()
    }

    /// It is being closed, or something of it is due.
    pub(crate) fn is_restless(self) -> bool
        ensures { result ≡ is_restless self }
    {
        self.state.is_ending() || !matches!(self.due, Due::Nothing)
    }

    /// All messages that were sent before the peer's reset were taken.
    pub(crate) fn is_drained(self) -> bool
        ensures { result ≡ is_drained self }
    {
        self.resets.is_reset() && self.left == 0
    }

    /// With a channel of this reliability, in this state.
    pub(crate) fn with_channel(
        self,
        state: State,
        ordered: bool,
        reliability: Reliability,
    ) -> Stream
        ensures { result ≡ with_channel state ordered (reliability_meaning reliability) self }
    {
        Stream {
            state,
            kind: ChannelType::of(ordered, reliability),
            parameter: parameter_of(reliability),
            ..self
        }
    }

    /// Messages are sent in order: on an ordered channel, and before anything was received on it (RFC 8832, 6).
    pub(crate) fn goes_ordered(self) -> bool
        ensures { result ≡ goes_ordered self.state self.kind }
    {
        matches!(self.state, State::Connecting) || self.kind.is_ordered()
    }

    /// Nothing is due any more.
    pub(crate) fn without_due(self) -> Stream
        ensures { result ≡ without_due self }
    {
        Stream {
            due: Due::Nothing,
            ..self
        }
    }

    /// A message was taken: it counts if the peer has reset the stream.
    pub(crate) fn one_taken(self) -> Stream
        ensures { result ≡ one_taken self }
    {
        if !self.resets.is_reset() {
            return self;
        }
        Stream {
            again: self.again.saturating_sub(1),
            ..self
        }
        .leaving(self.left.saturating_sub(1))
    }

    /// The peer has reset the stream, and so many messages that wait were sent before. A further reset is kept for the stream's next channel.
    pub(crate) fn reset_by_peer(self, count: usize) -> Stream
        ensures { result ≡ peer_resets count self }
    {
        if self.resets.is_reset() {
            return Stream {
                again: self.left.max(count),
                resets: Resets::Two,
                ..self
            };
        }
        Stream {
            resets: Resets::One,
            ..self
        }
        .leaving(count)
    }

    /// What is left of the stream once it is closed: the peer has reset it again, or nothing is known of it.
    pub(crate) fn left_over(self) -> Stream
        ensures { result ≡ left_over self }
    {
        if self.resets.is_reset_again() {
            Stream::unused().reset_by_peer(self.again)
        } else {
            Stream::unused()
        }
    }

    /// So many messages that were sent before the peer's reset are left.
    fn leaving(self, left: usize) -> Stream
        ensures { result ≡ leaving left self }
    {
        let stream = Stream { left, ..self };
        if left == 0 {
            stream.half_closed()
        } else {
            stream
        }
    }

    /// The peer's half is closed, so this side's is to be closed, too, unless that was begun (RFC 8831, 6.7).
    fn half_closed(self) -> Stream
        ensures { result ≡ half_closed self.state self }
    {
        match self.state {
            State::Closing | State::Silent => self,
            State::Refused => Stream {
                state: State::Silent,
                ..self
            },
            State::Unused => Stream {
                state: State::Silent,
                due: Due::Reset,
                ..self
            },
            State::Connecting | State::Unanswered | State::Open => Stream {
                state: State::Closing,
                due: Due::Reset,
                ..self
            },
        }
    }
}
