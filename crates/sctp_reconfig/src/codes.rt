//! The numbers of RE-CONFIG, its parameters and its results, by name.

/// The type of the chunk RE-CONFIG (RFC 6525, 3.1).
pub const RECONFIG: u8 = 130;

/// The Outgoing SSN Reset Request (RFC 6525, 4.1).
pub(crate) const OUTGOING_RESET: u16 = 13;
/// The Incoming SSN Reset Request (RFC 6525, 4.2).
pub(crate) const INCOMING_RESET: u16 = 14;
/// The SSN/TSN Reset Request (RFC 6525, 4.3).
pub(crate) const TSN_RESET: u16 = 15;
/// The Re-configuration Response (RFC 6525, 4.4).
pub(crate) const RECONFIG_RESPONSE: u16 = 16;
/// The Add Outgoing Streams Request (RFC 6525, 4.5).
pub(crate) const ADD_OUTGOING: u16 = 17;
/// The Add Incoming Streams Request (RFC 6525, 4.6).
pub(crate) const ADD_INCOMING: u16 = 18;

/// The most streams that one request can list: with its header and three numbers of 32 bits its length fits 16 bits (RFC 6525, 4.1).
pub const MOST_STREAMS: usize = 32_759;
