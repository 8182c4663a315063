//! The structs of channels that cross to C and back.

ghost use Rattle.std.specs.Prelude.{◌≡◌, option_map};
ghost use Rattle.sctp_dcep.specs.Meanings.{reliability_meaning};
ghost use Rattle.sctp_dcep.specs.Dcep.{reliability_of};
ghost use Rattle.sctp_c.specs.Asked.{is_zeroed};
ghost use Rattle.sctp_c.specs.channels.Asked.{stream_asked};

use sctp_channels::Reliability;

/// Number of a reliability: until it is acknowledged (RFC 8832, 5.1).
pub(crate) const RELIABLE: u8 = 0;
/// Number of a reliability: retransmissions are limited.
pub(crate) const MAX_RETRANSMITS: u8 = 1;
/// Number of a reliability: the lifetime is limited.
pub(crate) const MAX_PACKET_LIFETIME: u8 = 2;
/// In place of a stream: the lowest that is free.
pub(crate) const ANY_STREAM: u16 = 65_535;

/// The parameters of a channel, but for its label and its protocol (RFC 8832, 5.1).
#[repr(C)]
#[derive(Clone, Copy)]
pub struct SctpChannelParameters {
    /// Retransmissions or milliseconds: 0 to 65,535.
    pub limit: u32,
    /// The priority, which is sent to the peer.
    pub priority: u16,
    /// 0: reliable. 1: `limit` retransmissions at most. 2: a lifetime of `limit` milliseconds.
    pub reliability: u8,
    /// Messages are delivered in the order in which they were sent.
    pub ordered: bool,
    /// 0.
    pub reserved: [u32; 2],
}

/// What is reported of a channel. Numbers without a meaning for its kind are 0.
#[repr(C)]
#[derive(Clone, Copy)]
pub struct SctpChannelEvent {
    /// The bytes of a message, or of a label and a protocol.
    pub length: usize,
    /// Those of the label.
    pub label_length: usize,
    /// Why the peer was refused or ignored, 1 to 13; else 0.
    pub reason: u32,
    /// Retransmissions or milliseconds of a channel that the peer opened.
    pub limit: u32,
    /// Its priority.
    pub priority: u16,
    /// Its reliability, 0 to 2.
    pub reliability: u8,
    /// Its messages are delivered in the order in which they were sent.
    pub ordered: bool,
    /// The stream of the channel.
    pub stream: u16,
    /// What is reported, 1 to 7.
    pub kind: u8,
    /// The message was sent as text.
    pub text: bool,
    /// 0.
    pub reserved: [u32; 2],
}

/// Whether both reserved numbers are 0.
pub(crate) fn is_zeroed(reserved: &[u32; 2]) -> bool
    ensures { result ≡ is_zeroed reserved.now }
{
    let [first, second] = *reserved;
    first == 0 && second == 0
}

/// The reliability of these numbers, if that number has a meaning.
pub(crate) fn reliability_of(kind: u8, limit: u32) -> Option<Reliability>
    ensures { option_map reliability_meaning result ≡ reliability_of kind limit }
{
    match kind {
        RELIABLE => Some(Reliability::Reliable),
        MAX_RETRANSMITS => Some(Reliability::MaxRetransmits(limit)),
        MAX_PACKET_LIFETIME => Some(Reliability::MaxPacketLifetime(limit)),
        _ => None,
    }
}

/// The stream that C asks for: None for any.
pub(crate) fn stream_of(stream: u16) -> Option<u16>
    ensures { result ≡ stream_asked stream }
{
    if stream == ANY_STREAM {
        None
    } else {
        Some(stream)
    }
}
