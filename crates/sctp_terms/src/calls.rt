//! Why a call of an endpoint's user is refused. A refused call leaves the endpoint unchanged.

use thiserror::Error;

/// Why `connect` is refused.
#[derive(Clone, Copy, Debug, PartialEq, Eq, Error)]
pub enum ConnectFault {
    /// 1: the endpoint is a listener, or has been used already.
    #[error("the endpoint has been used")]
    State,
}

/// Why `shutdown` is refused.
#[derive(Clone, Copy, Debug, PartialEq, Eq, Error)]
pub enum ShutdownFault {
    /// 1: no association is open: none was opened, it is still being opened, or it is over.
    #[error("there is no open association")]
    NotOpen,
}

/// Why `abort` is refused: the first of these that applies.
#[derive(Clone, Copy, Debug, PartialEq, Eq, Error)]
pub enum AbortFault {
    /// 1: there is no peer to send an ABORT to: the state is Closed, Listen or CookieWait.
    #[error("there is no peer to send an ABORT to")]
    State,
    /// 2: the reason doesn't fit one packet.
    #[error("the reason is too long for one packet")]
    TooLong,
    /// 3: allocation of the packet failed.
    #[error("out of memory")]
    NoMemory,
}

/// Why `reset` is refused: the first of these that applies.
#[derive(Clone, Copy, Debug, PartialEq, Eq, Error)]
pub enum ResetFault {
    /// 1: the state isn't Established, or the peers haven't agreed on the reset of streams (RFC 6525, 5.1).
    #[error("the association is not established, or resets no streams")]
    State,
    /// 2: there is no such outgoing stream.
    #[error("there is no such stream")]
    NoSuchStream,
    /// 3: allocation failed.
    #[error("out of memory")]
    NoMemory,
}
