//! The messages of DCEP (RFC 8832, 5).

use thiserror::Error;

/// How long the messages of a channel are retransmitted (RFC 8832, 5.1).
#[derive(Clone, Copy, Debug, PartialEq, Eq)]
pub enum Reliability {
    /// Until they are acknowledged.
    Reliable,
    /// At most this number of times (RFC 7496).
    MaxRetransmits(u32),
    /// For this number of milliseconds at most (RFC 7496).
    MaxPacketLifetime(u32),
}

/// The parameters of a channel: what a DATA_CHANNEL_OPEN says (RFC 8832, 5.1).
#[derive(Clone, Copy, Debug, PartialEq, Eq)]
pub struct Opening<'a> {
    /// Its name, which should be UTF-8.
    pub label: &'a [u8],
    /// The name of the protocol used on it, which should be UTF-8.
    pub protocol: &'a [u8],
    /// Its messages are delivered in the order in which they were sent.
    pub ordered: bool,
    /// How long they are retransmitted.
    pub reliability: Reliability,
    /// Its priority (RFC 8831, 6.4).
    pub priority: u16,
}

/// A message of DCEP (RFC 8832, 5).
#[derive(Clone, Copy, Debug, PartialEq, Eq)]
pub enum Control<'a> {
    /// DATA_CHANNEL_OPEN (RFC 8832, 5.1).
    Open(Opening<'a>),
    /// DATA_CHANNEL_ACK (RFC 8832, 5.2).
    Acknowledgement,
}

/// What is wrong with a message of DCEP.
#[derive(Clone, Copy, Debug, PartialEq, Eq, Error)]
pub enum ControlFault {
    /// It is neither an OPEN nor an ACK.
    #[error("neither DATA_CHANNEL_OPEN nor DATA_CHANNEL_ACK")]
    UnknownMessage,
    /// An OPEN that lacks a part of its fields or texts.
    #[error("DATA_CHANNEL_OPEN is cut short")]
    OpenCutShort,
    /// An ACK of more than one byte.
    #[error("DATA_CHANNEL_ACK has more than one byte")]
    AckWithMore,
    /// A channel type that isn't one of the six (RFC 8832, 5.1).
    #[error("unknown channel type")]
    UnknownType,
}
