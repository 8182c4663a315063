//! The states of an endpoint, and how an association ended.

/// The state of an endpoint (RFC 9260, 4).
#[derive(Clone, Copy, Debug, PartialEq, Eq)]
pub enum State {
    /// There is no association: none was opened yet, or it is over.
    Closed,
    /// It waits for an INIT, and keeps no state of any peer.
    Listen,
    /// INIT was sent, and no INIT ACK received yet.
    CookieWait,
    /// COOKIE ECHO was sent, and no COOKIE ACK received yet.
    CookieEchoed,
    /// The association is open: both users may send.
    Established,
    /// Its user asked for shutdown; messages that are queued or outstanding are still sent.
    ShutdownPending,
    /// All that it sent was acknowledged, and SHUTDOWN was sent.
    ShutdownSent,
    /// SHUTDOWN was received; messages that are queued or outstanding here are still sent.
    ShutdownReceived,
    /// All that was sent here is acknowledged too, and SHUTDOWN ACK was sent.
    ShutdownAckSent,
}

/// How an association ended, as this endpoint saw it.
#[derive(Clone, Copy, Debug, PartialEq, Eq)]
pub enum End {
    /// It was shut down gracefully by both endpoints (RFC 9260, 9.2).
    Completed,
    /// The peer aborted it (RFC 9260, 9.1).
    Aborted,
    /// This endpoint aborted it, at its user's request or because of an error of the peer (RFC 9260, 9.1).
    AbortedHere,
    /// A packet was retransmitted as often as allowed, and not answered (RFC 9260, 8.1).
    TimedOut,
    /// The listener reported that the cookie had expired (RFC 9260, 5.2.6).
    StaleCookie,
}
