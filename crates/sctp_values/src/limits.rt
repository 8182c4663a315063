//! The limits of this profile, under the names that the definitions give them, each in the type in which it is used. Sizes are in bytes.

/// The largest number of streams each way; the smallest is 1.
pub const STREAM_LIMIT: u16 = 1_024;
/// The smallest packet limit for sending, in bytes.
pub const LEAST_PACKET: u16 = 576;
/// The largest packet limit for sending, in bytes.
pub const GREATEST_PACKET: u16 = 1_500;
/// The smallest fragment size, in bytes of data; all fragments of a message but its last have the full size (RFC 9260, 6.9).
pub const LEAST_FRAGMENT: u16 = 4;
/// The largest fragment size, in bytes of data.
pub const GREATEST_FRAGMENT: u16 = 1_400;
/// The bytes of a packet beside one padded fragment: the common header, 12 bytes (RFC 9260, 3.1), and the larger of the two headers of user
/// data, I-DATA's, 20 (RFC 8260, 2.1).
pub const FRAGMENT_OVERHEAD: u16 = 32;
/// The smallest receive buffer, in bytes.
pub const LEAST_BUFFER: u32 = 65_536;
/// The largest receive buffer, in bytes.
pub const GREATEST_BUFFER: u32 = 16_777_216;

/// The longest message, in bytes.
pub const LONGEST_MESSAGE: usize = 65_536;
/// The most messages that wait in the send queue at once: accepted from the user, and not yet given a TSN.
pub const QUEUE_LIMIT: usize = 1_024;
/// The sender's limit of TSNs assigned above the cumulative TSN acknowledged, plus messages of which only some fragments have TSNs. A receiver
/// refuses a TSN that is further than this above its cumulative TSN.
pub const WINDOW: u32 = 32_767;
/// The most TSNs of an association's lifetime, those assigned and those that accepted messages still need: 2^63 - 1.
pub const TSN_LIMIT: u64 = 9_223_372_036_854_775_807;
/// The largest ticket, 2^64 - 1; the first is 1.
pub const TICKET_LIMIT: u64 = u64::MAX;

/// The most gap ack blocks in a SACK that is sent (RFC 9260, 3.3.4).
pub const BLOCK_LIMIT: usize = 64;
/// The most duplicate TSNs in a SACK that is sent (RFC 9260, 3.3.4).
pub const DUPLICATE_LIMIT: usize = 16;
/// The most runs of consecutive TSNs received above the cumulative TSN: each takes at least one TSN of `WINDOW`, and one is missing before it.
pub const RUN_LIMIT: usize = 16_383;

/// The latest time, in milliseconds: 2^64 - 1.
pub const LAST_MOMENT: u64 = u64::MAX;
/// A timer's first timeout, in milliseconds (RTO.Initial of RFC 9260, 16).
pub const FIRST_WAIT: u64 = 1_000;
/// A timer's longest timeout, in milliseconds (RTO.Max of RFC 9260, 16).
pub const LONGEST_WAIT: u64 = 60_000;
/// How often an INIT or a COOKIE ECHO is retransmitted (Max.Init.Retransmits of RFC 9260, 16).
pub const OPENING_REPEATS: u32 = 8;
/// How often everything else is retransmitted without an answer (Association.Max.Retrans of RFC 9260, 16).
pub const REPEATS: u32 = 10;
/// How long a SACK may be delayed, in milliseconds, at an endpoint that delays its SACKs (SACK.Delay of RFC 9260, 16; 6.2).
pub const SACK_DELAY: u64 = 200;
/// The lifetime of a cookie, in milliseconds (Valid.Cookie.Life of RFC 9260, 16).
pub const COOKIE_LIFE: u64 = 60_000;
