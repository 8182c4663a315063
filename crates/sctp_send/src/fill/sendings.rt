//! How many chunks of a packet are sent for the first time, and how many again.

/// Of the DATA or I-DATA chunks that went into a packet, how many were sent for the first time, and how many again.
#[derive(Clone, Copy, Debug, PartialEq, Eq)]
pub struct Sendings {
    /// Sent for the first time.
    pub first: u32,
    /// Retransmitted (RFC 9260, 6.3.3 and 7.2.4).
    pub again: u32,
}
