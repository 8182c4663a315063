//! The numbers of the wire formats, by name: chunk types, flags, causes, parameters, lengths.

/// The type of DATA (RFC 9260, 3.3.1).
pub const DATA: u8 = 0;
/// The type of INIT (RFC 9260, 3.3.2).
pub const INIT: u8 = 1;
/// The type of INIT ACK (RFC 9260, 3.3.3).
pub const INIT_ACK: u8 = 2;
/// The type of SACK (RFC 9260, 3.3.4).
pub const SACK: u8 = 3;
/// The type of HEARTBEAT (RFC 9260, 3.3.5).
pub const HEARTBEAT: u8 = 4;
/// The type of HEARTBEAT ACK (RFC 9260, 3.3.6).
pub const HEARTBEAT_ACK: u8 = 5;
/// The type of ABORT (RFC 9260, 3.3.7).
pub const ABORT: u8 = 6;
/// The type of SHUTDOWN (RFC 9260, 3.3.8).
pub const SHUTDOWN: u8 = 7;
/// The type of SHUTDOWN ACK (RFC 9260, 3.3.9).
pub const SHUTDOWN_ACK: u8 = 8;
/// The type of ERROR (RFC 9260, 3.3.10).
pub const ERROR: u8 = 9;
/// The type of COOKIE ECHO (RFC 9260, 3.3.11).
pub const COOKIE_ECHO: u8 = 10;
/// The type of COOKIE ACK (RFC 9260, 3.3.12).
pub const COOKIE_ACK: u8 = 11;
/// The type of SHUTDOWN COMPLETE (RFC 9260, 3.3.13).
pub const SHUTDOWN_COMPLETE: u8 = 14;
/// The type of I-DATA (RFC 8260, 2.1).
pub const I_DATA: u8 = 64;
/// The type of FORWARD-TSN (RFC 3758, 3.2).
pub const FORWARD_TSN: u8 = 192;
/// The type of I-FORWARD-TSN (RFC 8260, 2.3.1).
pub const I_FORWARD_TSN: u8 = 194;

/// The flag I of DATA and I-DATA: the receiver should not delay the SACK (RFC 9260, 3.3.1).
pub const IMMEDIATE: u8 = 8;
/// The flag U of DATA and I-DATA: the message is unordered (RFC 9260, 3.3.1).
pub const UNORDERED: u8 = 4;
/// The flag B of DATA and I-DATA: the first fragment of a message (RFC 9260, 3.3.1).
pub const BEGIN: u8 = 2;
/// The flag E of DATA and I-DATA: the last fragment of a message (RFC 9260, 3.3.1).
pub const END: u8 = 1;
/// The flag T of ABORT and SHUTDOWN COMPLETE: the packet has the verification tag of the packet that it answers, not the peer's
/// (RFC 9260, 3.3.7 and 3.3.13).
pub const REFLECTED: u8 = 1;

/// The cause Invalid Stream Identifier: user data on a stream that doesn't exist (RFC 9260, 3.3.10.1).
pub const INVALID_STREAM: u16 = 1;
/// The cause Missing Mandatory Parameter (RFC 9260, 3.3.10.2).
pub const MISSING_PARAMETER: u16 = 2;
/// The cause Stale Cookie: a cookie was received after its lifetime (RFC 9260, 3.3.10.3).
pub const STALE_COOKIE: u16 = 3;
/// The cause Out of Resource: no buffer space or memory is left (RFC 9260, 3.3.10.4).
pub const OUT_OF_RESOURCE: u16 = 4;
/// The cause Unrecognized Chunk Type (RFC 9260, 3.3.10.6).
pub const UNRECOGNIZED_CHUNK: u16 = 6;
/// The cause Invalid Mandatory Parameter: one with an invalid value (RFC 9260, 3.3.10.7).
pub const INVALID_PARAMETER: u16 = 7;
/// The cause Unrecognized Parameters: parameters of unknown types, in an INIT ACK (RFC 9260, 3.3.10.8).
pub const UNRECOGNIZED_PARAMETERS: u16 = 8;
/// The cause No User Data: a DATA or I-DATA without data (RFC 9260, 3.3.10.9).
pub const NO_USER_DATA: u16 = 9;
/// The cause User-Initiated Abort (RFC 9260, 3.3.10.12).
pub const USER_ABORT: u16 = 12;
/// The cause Protocol Violation (RFC 9260, 3.3.10.13).
pub const PROTOCOL_VIOLATION: u16 = 13;

/// The parameter IPv4 Address, which is passed over (RFC 9260, 3.3.2.1).
pub const IPV4_ADDRESS: u16 = 5;
/// The parameter IPv6 Address, which is passed over (RFC 9260, 3.3.2.1).
pub const IPV6_ADDRESS: u16 = 6;
/// The parameter State Cookie (RFC 9260, 3.3.3.1).
pub const STATE_COOKIE: u16 = 7;
/// The parameter Unrecognized Parameter, which reports one of an unknown type (RFC 9260, 3.3.3.1).
pub const UNRECOGNIZED_PARAMETER: u16 = 8;
/// The parameter Cookie Preservative, which is passed over (RFC 9260, 3.3.2.1).
pub const COOKIE_PRESERVATIVE: u16 = 9;
/// The parameter Host Name Address, which is passed over (RFC 9260, 3.3.2.1).
pub const HOST_NAME: u16 = 11;
/// The parameter Supported Address Types, which is passed over (RFC 9260, 3.3.2.1).
pub const ADDRESS_TYPES: u16 = 12;
/// The parameter Zero Checksum Acceptable: its value is the number of the method that detects errors in place of the checksum (RFC 9653, 4).
pub const ZERO_CHECKSUM: u16 = 0x8001;
/// The parameter Supported Extensions: a byte for each chunk type (RFC 5061, 4.2.7).
pub const SUPPORTED_EXTENSIONS: u16 = 0x8008;
/// The parameter Forward-TSN-Supported (RFC 3758, 3.1).
pub const FORWARD_TSN_SUPPORTED: u16 = 0xc000;

/// The longest chunk, without its padding: the length field has 16 bits (RFC 9260, 3.2).
pub const LONGEST: usize = 65_535;
/// The longest value of a chunk, a parameter or a cause: `LONGEST` less 4 bytes of type and length.
pub const LONGEST_VALUE: usize = 65_531;
/// The bytes of a DATA before its data (RFC 9260, 3.3.1).
pub const DATA_HEADER: usize = 16;
/// The bytes of an I-DATA before its data (RFC 8260, 2.1).
pub const I_DATA_HEADER: usize = 20;
/// The bytes of an INIT or INIT ACK before its parameters (RFC 9260, 3.3.2).
pub const INIT_HEADER: usize = 20;
/// The bytes of a SACK before its lists (RFC 9260, 3.3.4).
pub const SACK_HEADER: usize = 16;
/// The bytes of a FORWARD-TSN or I-FORWARD-TSN before its entries (RFC 3758, 3.2; RFC 8260, 2.3.1).
pub const FORWARD_HEADER: usize = 8;
