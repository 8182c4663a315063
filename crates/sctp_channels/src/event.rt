//! What is reported to the user (RFC 8831, 6.4 to 6.7; RFC 8832, 6).

use sctp_dcep::{ControlFault, Reliability};
use sctp_endpoint::Message;
use thiserror::Error;

/// The parameters of a channel that the peer opened (RFC 8832, 5.1).
#[derive(Debug, PartialEq, Eq, Drop)]
pub struct Parameters {
    /// Its name, which should be UTF-8.
    pub label: Vec<u8>,
    /// The name of the protocol used on it, which should be UTF-8.
    pub protocol: Vec<u8>,
    /// Its messages are delivered in the order in which they were sent.
    pub ordered: bool,
    /// How long they are retransmitted.
    pub reliability: Reliability,
    /// Its priority (RFC 8831, 6.4).
    pub priority: u16,
}

/// Why the peer's message opens no channel.
#[derive(Clone, Copy, Debug, PartialEq, Eq, Error)]
pub enum Refusal {
    /// It is no DATA_CHANNEL_OPEN.
    #[error("bad DATA_CHANNEL_OPEN: {0}")]
    BadOpening(ControlFault),
    /// The stream is one of those on which this side opens channels (RFC 8832, 6).
    #[error("the stream is one of this side's")]
    WrongHalf,
    /// There is no outgoing stream of this number.
    #[error("there is no outgoing stream of this number")]
    NoWayBack,
}

/// Why a message of the peer is ignored.
#[derive(Clone, Copy, Debug, PartialEq, Eq, Error)]
pub enum Ignored {
    /// There is no channel on the stream.
    #[error("there is no channel on the stream")]
    NoChannel,
    /// A DATA_CHANNEL_OPEN on a stream that has a channel.
    #[error("the stream has a channel")]
    OpenAgain,
    /// A DATA_CHANNEL_ACK for which no channel waits.
    #[error("no channel waits for a DATA_CHANNEL_ACK")]
    StrayAck,
    /// The DATA_CHANNEL_ACK, after a message that overtook it.
    #[error("a message overtook this DATA_CHANNEL_ACK")]
    LateAck,
    /// A message of DCEP with a fault.
    #[error("bad message of DCEP: {0}")]
    BadControl(ControlFault),
    /// A payload protocol identifier that isn't one of data channels, or that of a partial message (RFC 8831, 8).
    #[error("another payload protocol identifier")]
    OtherPayload,
    /// The channel is being closed.
    #[error("the channel is being closed")]
    Closing,
    /// The opening of a channel on the stream was refused.
    #[error("the opening of the channel was refused")]
    Refused,
}

/// What is reported to the user.
#[derive(Debug, PartialEq, Drop)]
pub enum Event {
    /// The peer opened a channel.
    Incoming {
        /// Its stream.
        stream: u16,
        /// What it was opened with.
        parameters: Parameters,
    },
    /// A channel that was opened here is open at the peer, too.
    Opened {
        /// Its stream.
        stream: u16,
    },
    /// A message of the peer.
    Message {
        /// The stream of the channel.
        stream: u16,
        /// It is text, which should be UTF-8; else binary data.
        text: bool,
        /// None: it is empty.
        message: Option<Message>,
    },
    /// A channel that was opened here or reported as incoming is closed in both directions, or the association is over. Another one may be opened on its
    /// stream.
    Closed {
        /// Its stream.
        stream: u16,
    },
    /// The buffered amount of a channel was above the threshold that was set for it, and isn't any more.
    BufferedAmountLow {
        /// Its stream.
        stream: u16,
    },
    /// The peer began what opens no channel. This side's half of the stream is reset (RFC 8832, 6), and what else the peer sends on it is ignored until it
    /// resets its half. Then the stream may be used again; no `Closed` is reported.
    Refused {
        /// The stream.
        stream: u16,
        /// The reason.
        why: Refusal,
    },
    /// A message of the peer is ignored.
    Ignored {
        /// Its stream.
        stream: u16,
        /// The reason.
        why: Ignored,
    },
}
