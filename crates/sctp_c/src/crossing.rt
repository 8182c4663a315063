//! The structs that cross to C and back, beside handles and the status.

/// The configuration of an endpoint.
#[repr(C)]
#[derive(Clone, Copy)]
pub struct SctpConfig {
    /// The endpoint's own port, not 0.
    pub own_port: u16,
    /// The peer's port, not 0.
    pub peer_port: u16,
    /// The bytes of the longest packet that it sends, common header included: 576 to 1,500.
    pub packet_limit: u16,
    /// The bytes of each fragment but a message's last: 4 to 1,400.
    pub fragment: u16,
    /// The bytes of its receive buffer: 65,536 to 16,777,216.
    pub buffer: u32,
    /// The streams that it asks for to the peer: 1 to 1,024.
    pub outbound: u16,
    /// The streams that it allows from the peer: 1 to 1,024.
    pub inbound: u16,
    /// It offers I-DATA (RFC 8260).
    pub interleave: bool,
    /// It offers partial reliability (RFC 3758).
    pub partial: bool,
    /// It delays SACKs for a second packet, 200 ms at most (RFC 9260, 6.2).
    pub delay: bool,
    /// It closes by the RFC's timers (RFC 9260, 9.2).
    pub standard_closing: bool,
    /// The sum of 1 for fast retransmit (RFC 9260, 7.2.4), 2 for congestion control, which brings fast retransmit (RFC 9260, 7.2), and 4 for stream
    /// reset (RFC 6525).
    pub flags: u32,
    /// RTO.Min in milliseconds (RFC 9260, 6.3.1); 0 for 1,000.
    pub rto_min: u32,
    /// 0.
    pub reserved: [u32; 2],
}

/// Two random values: a verification tag, not 0, and a first TSN (RFC 9260, 5.3.1 and 3.3.2).
#[repr(C)]
#[derive(Clone, Copy)]
pub struct SctpDraw {
    /// The tag of packets to this endpoint.
    pub tag: u32,
    /// The first TSN that it sends.
    pub tsn: u32,
    /// 0.
    pub reserved: u64,
}

/// The key that authenticates a listener's state cookies: random and secret (RFC 9260, 5.1.3).
#[repr(C)]
#[derive(Clone, Copy)]
pub struct SctpKey {
    /// Its bytes.
    pub bytes: [u8; 32],
    /// 0.
    pub reserved: [u32; 4],
}

/// What was done with a received packet.
#[repr(C)]
#[derive(Clone, Copy)]
pub struct SctpVerdict {
    /// The bytes of the answer in the buffer, 0 if there is none; or those that the buffer must have.
    pub length: usize,
    /// 0: it was processed. 1: the buffer has the answer. 2: it was ignored.
    pub verdict: u32,
    /// Why it was ignored, 1 to 5; else 0.
    pub reason: u32,
    /// 0.
    pub reserved: u64,
}

/// A packet to send.
#[repr(C)]
#[derive(Clone, Copy)]
pub struct SctpSent {
    /// The bytes of the packet in the buffer, 0 if there is none; or those that the buffer must have.
    pub length: usize,
    /// How many messages have their first fragment in it.
    pub tickets: u64,
    /// 0.
    pub reserved: u64,
}

/// A message that is ready or was taken.
#[repr(C)]
#[derive(Clone, Copy)]
pub struct SctpMessage {
    /// The bytes of the whole message.
    pub length: usize,
    /// Its number, counted from 0 on its stream, ordered and unordered ones apart; 0 if it has none.
    pub number: u64,
    /// The payload protocol identifier.
    pub payload_id: u32,
    /// The stream that it was received on, from 0.
    pub stream: u16,
    /// It was sent as an ordered message.
    pub ordered: bool,
    /// It has a number: every message but an unordered one under DATA.
    pub numbered: bool,
    /// 0.
    pub reserved: [u32; 4],
}
