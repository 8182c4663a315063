//! Why a user's call is refused.

use sctp_endpoint::{Refused, ResetFault};
use thiserror::Error;

/// Why no channel is opened: the first of these that applies. Nothing changed.
#[derive(Clone, Copy, Debug, PartialEq, Eq, Error)]
pub enum OpenFault {
    /// Its DATA_CHANNEL_OPEN would have more than 65,536 bytes.
    #[error("label and protocol are too long for a DATA_CHANNEL_OPEN")]
    TooLong,
    /// More than 65,535 retransmissions, or a lifetime of more than 65,535 milliseconds.
    #[error("more than 65,535 retransmissions or milliseconds")]
    OutOfRange,
    /// There is no such stream both ways, as before an association; or, if none was asked for, none is free.
    #[error("there is no such stream, or none is free")]
    NoStream,
    /// The stream is one of those on which the peer opens channels (RFC 8832, 6).
    #[error("the stream is one of the peer's")]
    WrongHalf,
    /// There is a channel on the stream, or one is still being closed.
    #[error("there is a channel on the stream")]
    Used,
    /// The endpoint doesn't take the DATA_CHANNEL_OPEN, or its allocation failed.
    #[error(transparent)]
    Refused(Refused),
}

/// Why a message isn't sent.
#[derive(Clone, Copy, Debug, PartialEq, Eq, Error)]
pub enum SendFault {
    /// There is no channel on the stream, or it is being closed.
    #[error("there is no open channel on the stream")]
    NoChannel,
    /// The endpoint doesn't take it, or its allocation failed.
    #[error(transparent)]
    Refused(Refused),
}

/// Why a channel isn't closed. Nothing changed.
#[derive(Clone, Copy, Debug, PartialEq, Eq, Error)]
pub enum CloseFault {
    /// There is no channel on the stream, or it is being closed already.
    #[error("there is no open channel on the stream")]
    NoChannel,
    /// The endpoint doesn't reset the stream.
    #[error(transparent)]
    Refused(ResetFault),
}

/// Why no low threshold of the buffered amount is set. Nothing changed.
#[derive(Clone, Copy, Debug, PartialEq, Eq, Error)]
pub enum ThresholdFault {
    /// There is no channel on the stream, or it is being closed.
    #[error("there is no open channel on the stream")]
    NoChannel,
    /// An allocation failed.
    #[error("out of memory")]
    NoMemory,
}
