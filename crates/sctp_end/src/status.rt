//! The status of the endpoint.

use sctp_endpoint::Agreed;
use sctp_terms::{End, State};

/// The state of the endpoint and of its queues.
#[derive(Clone, Copy, Debug, PartialEq, Eq)]
pub struct Status {
    /// Its state (RFC 9260, 4).
    pub state: State,
    /// How its association ended, None if it hasn't.
    pub ended: Option<End>,
    /// When it has to be notified of the time, in milliseconds.
    pub next: Option<u64>,
    /// The streams each way and the extensions that both endpoints agreed on, None before.
    pub agreed: Option<Agreed>,
    /// The TSNs that were assigned and aren't acknowledged, plus the messages sent in part.
    pub outstanding: u32,
    /// The number of messages that have no TSN yet.
    pub queued: usize,
    /// The bytes of the messages that have no TSN yet.
    pub queued_bytes: u64,
    /// The bytes in its receive buffer: received and not taken.
    pub held: u32,
    /// The peer's receiver window, in bytes.
    pub window: u32,
    /// The first stream on which a message waits for `take`, None if none does.
    pub readable: Option<u16>,
}
