//! The numbers that C gets: one table for the results of all calls, and the verdicts on packets.

ghost use Rattle.std.specs.Prelude.{◌≡◌};

/// The call did what it says.
pub(crate) const OK: u32 = 0;
/// The stream isn't below the number of streams agreed on.
pub(crate) const NO_SUCH_STREAM: u32 = 1;
/// The message has no bytes.
pub(crate) const EMPTY: u32 = 2;
/// The message has more than 65,536 bytes, label and protocol of a channel have more than 65,524, or the reason of an ABORT doesn't fit one packet.
pub(crate) const TOO_LONG: u32 = 3;
/// 1,024 messages are queued.
pub(crate) const QUEUE_FULL: u32 = 4;
/// No ticket or no TSN is left.
pub(crate) const SPENT: u32 = 5;
/// Memory allocation failed.
pub(crate) const NO_MEMORY: u32 = 6;
/// The association isn't established; for a shutdown, nor is it being closed; for a channel's opening or closing, it wasn't established yet.
pub(crate) const NOT_OPEN: u32 = 7;
/// The call isn't allowed in the endpoint's state.
pub(crate) const BAD_STATE: u32 = 8;
/// No message is ready, or a packet doesn't have what is asked for.
pub(crate) const NOTHING: u32 = 9;
/// The buffer is too small: the length that is returned is the one that it must have.
pub(crate) const NEEDS_ROOM: u32 = 10;
/// The handle is empty, or, for a call that makes an endpoint, it isn't.
pub(crate) const MISUSE: u32 = 11;
/// A tag is 0.
pub(crate) const BAD_DRAW: u32 = 12;
/// A reserved number isn't 0.
pub(crate) const BAD_RESERVED: u32 = 13;
/// The stream is being reset (RFC 6525, 5.1.2), or the peer refused that.
pub(crate) const RESETTING: u32 = 14;
/// There is no channel on the stream, or it is being closed (RFC 8831, 6.7).
pub(crate) const NO_CHANNEL: u32 = 15;
/// There is no such stream both ways, or none is free.
pub(crate) const NO_STREAM: u32 = 16;
/// The stream is one of those on which the peer opens channels (RFC 8832, 6).
pub(crate) const WRONG_HALF: u32 = 17;
/// There is a channel on the stream.
pub(crate) const USED: u32 = 18;
/// More than 65,535 retransmissions or milliseconds.
pub(crate) const OUT_OF_RANGE: u32 = 19;
/// What the first fault of a configuration is counted from: 21 to 25.
pub(crate) const BAD_CONFIG: u32 = 20;
/// The bytes of a key are all 0.
pub(crate) const ZERO_KEY: u32 = 26;

/// Verdict: the packet was processed.
pub(crate) const TAKEN: u32 = 0;
/// Verdict: the packet has an answer, to be sent at once.
pub(crate) const ANSWER: u32 = 1;
/// Verdict: the packet was ignored.
pub(crate) const DROPPED: u32 = 2;

/// Flag of a configuration: fast retransmission (RFC 9260, 7.2.4).
pub(crate) const FAST_RETRANSMIT: u32 = 1;
/// Flag of a configuration: congestion control, which brings fast retransmission (RFC 9260, 7.2).
pub(crate) const CONGESTION_CONTROL: u32 = 2;

/// Flag of a configuration: stream reset (RFC 6525).
pub(crate) const STREAM_RESET: u32 = 4;

/// Flag of a path: it has an RTO.
pub(crate) const PATH_RTO: u32 = 1;
/// Flag of a path: a round trip was measured.
pub(crate) const PATH_TRIP: u32 = 2;
/// Flag of a path: it has a congestion window.
pub(crate) const PATH_WINDOW: u32 = 4;

// law
/// The numbers of results are those of the C header.
pub fn result_numbers()
    ensures ok { OK ≡ 0 }
    ensures no_such_stream { NO_SUCH_STREAM ≡ 1 }
    ensures empty { EMPTY ≡ 2 }
    ensures too_long { TOO_LONG ≡ 3 }
    ensures queue_full { QUEUE_FULL ≡ 4 }
    ensures spent { SPENT ≡ 5 }
    ensures no_memory { NO_MEMORY ≡ 6 }
    ensures not_open { NOT_OPEN ≡ 7 }
    ensures bad_state { BAD_STATE ≡ 8 }
    ensures nothing { NOTHING ≡ 9 }
    ensures needs_room { NEEDS_ROOM ≡ 10 }
    ensures misuse { MISUSE ≡ 11 }
    ensures bad_draw { BAD_DRAW ≡ 12 }
    ensures bad_reserved { BAD_RESERVED ≡ 13 }
    ensures resetting { RESETTING ≡ 14 }
    ensures no_channel { NO_CHANNEL ≡ 15 }
    ensures no_stream { NO_STREAM ≡ 16 }
    ensures wrong_half { WRONG_HALF ≡ 17 }
    ensures used { USED ≡ 18 }
    ensures out_of_range { OUT_OF_RANGE ≡ 19 }
    ensures bad_config { BAD_CONFIG ≡ 20 }
    ensures zero_key { ZERO_KEY ≡ 26 }
{}

// law
/// The numbers of verdicts are those of the C header.
pub fn verdict_numbers()
    ensures taken { TAKEN ≡ 0 }
    ensures answer { ANSWER ≡ 1 }
    ensures dropped { DROPPED ≡ 2 }
{}

// law
/// The flags are those of the C header.
pub fn flag_numbers()
    ensures fast { FAST_RETRANSMIT ≡ 1 }
    ensures control { CONGESTION_CONTROL ≡ 2 }
    ensures reset { STREAM_RESET ≡ 4 }
    ensures rto { PATH_RTO ≡ 1 }
    ensures trip { PATH_TRIP ≡ 2 }
    ensures window { PATH_WINDOW ≡ 4 }
{}
