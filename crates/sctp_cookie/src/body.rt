//! The body of a cookie and its 40 bytes, without the MAC.
//!
//! | at | size | field |
//! |---|---|---|
//! | 0 | 8 | time of its making, in milliseconds |
//! | 8 | 2 | listener's port |
//! | 10 | 2 | caller's port |
//! | 12 | 4 | listener's tag |
//! | 16 | 4 | caller's tag |
//! | 20 | 4 | listener's initial TSN |
//! | 24 | 4 | caller's initial TSN |
//! | 28 | 4 | caller's a_rwnd |
//! | 32 | 2 | streams to the caller |
//! | 34 | 2 | streams from the caller |
//! | 36 | 1 | options: 1 partial reliability, 2 I-DATA; 4 stream reset and 8 zero checksums, which only a [`CookieContent`] says |
//! | 37 | 3 | zero |
//!
//! Numbers are in network byte order.

ghost use Rattle.std.specs.Prelude.{◌≡◌, true, false, length, MatchOption, if◌then◌else◌};
ghost use Rattle.sctp_model.specs.end.Sealing.{IsInRange};
ghost use Rattle.sctp_cookie.specs.CookieBody.{body_bytes, body_of, has_form, options_byte, says, says_only};
ghost use Rattle.sctp_cookie.specs.CookieTree.{content_meaning};

use byteorder::{BigEndian, ByteOrder};

/// The bytes of a cookie's body.
pub const BODY_LENGTH: usize = 40;

/// The bytes of a cookie: its body and its MAC.
pub const COOKIE_LENGTH: usize = 72;

/// The offset of the options' byte in a body.
const OPTIONS_AT: usize = 36;

/// The option of partial reliability (RFC 3758), in the options' byte.
const PARTIAL_RELIABILITY: u8 = 1;

/// The option of I-DATA (RFC 8260), in the options' byte.
const INTERLEAVING: u8 = 2;

/// The option of stream reset (RFC 6525), in the options' byte.
const STREAM_RESET: u8 = 4;

/// The option of zero checksums (RFC 9653), in the options' byte.
const ZERO_CHECKSUM: u8 = 8;

/// All options, in the options' byte.
const ALL_OPTIONS: u8 = 15;

/// The two ports of an association.
#[derive(Clone, Copy, PartialEq, Eq)]
pub struct Ports {
    /// The port of the endpoint that received the INIT.
    pub listener: u16,
    /// The port of the endpoint that sent the INIT.
    pub caller: u16,
}

/// What a listener must remember from an INIT until the COOKIE ECHO (RFC 9260, 5.1.3).
#[derive(Clone, Copy, Debug, PartialEq, Eq)]
pub struct CookieBody {
    /// The time at which the cookie was made, in milliseconds of the listener's clock.
    pub made: u64,
    /// The port of the endpoint that received the INIT.
    pub listener_port: u16,
    /// The port of the endpoint that sent the INIT.
    pub caller_port: u16,
    /// The initiate tag of the listener's INIT ACK: packets to the listener carry it.
    pub listener_tag: u32,
    /// The initiate tag of the caller's INIT: packets to the caller carry it.
    pub caller_tag: u32,
    /// The listener's initial TSN.
    pub listener_tsn: u32,
    /// The caller's initial TSN.
    pub caller_tsn: u32,
    /// The receive buffer in bytes that the caller advertised in its INIT (a_rwnd).
    pub caller_rwnd: u32,
    /// The number of streams on which the listener sends.
    pub streams_to_caller: u16,
    /// The number of streams on which the caller sends.
    pub streams_from_caller: u16,
    /// Whether both endpoints use partial reliability (RFC 3758).
    pub partial_reliability: bool,
    /// Whether both endpoints use I-DATA (RFC 8260).
    pub interleaving: bool,
}

/// What a listener with stream reset or with zero checksums must remember from an INIT (RFC 9260, 5.1.3; RFC 6525, 5.1; RFC 9653, 5).
#[derive(Clone, Copy, Debug, PartialEq, Eq)]
pub struct CookieContent {
    /// What a listener without them must remember too.
    pub body: CookieBody,
    /// Whether both endpoints use stream reset (RFC 6525).
    pub reset: bool,
    /// Whether both endpoints accept packets with the checksum 0 (RFC 9653).
    pub zero_checksum: bool,
}

/// Which options a listener is set up with, of those that only a [`CookieContent`] says: it takes no cookie that says another.
#[derive(Clone, Copy, Debug, PartialEq, Eq)]
pub struct CookieOptions {
    /// Stream reset (RFC 6525).
    pub reset: bool,
    /// Zero checksums (RFC 9653).
    pub zero_checksum: bool,
}

/// The 40 bytes of a body.
pub(crate) fn body_bytes(content: CookieContent) -> [u8; BODY_LENGTH]
    ensures layout { result ≡ body_bytes (content_meaning content) }
    ensures in_range { IsInRange (content_meaning content) }
{
    let body = content.body;
    let mut bytes = [0; BODY_LENGTH];
    BigEndian::write_u64(&mut bytes, body.made);
    BigEndian::write_u16(&mut bytes[8..], body.listener_port);
    BigEndian::write_u16(&mut bytes[10..], body.caller_port);
    BigEndian::write_u32(&mut bytes[12..], body.listener_tag);
    BigEndian::write_u32(&mut bytes[16..], body.caller_tag);
    BigEndian::write_u32(&mut bytes[20..], body.listener_tsn);
    BigEndian::write_u32(&mut bytes[24..], body.caller_tsn);
    BigEndian::write_u32(&mut bytes[28..], body.caller_rwnd);
    BigEndian::write_u16(&mut bytes[32..], body.streams_to_caller);
    BigEndian::write_u16(&mut bytes[34..], body.streams_from_caller);
    bytes[OPTIONS_AT] = options_byte(&content);
    bytes
}

// The options of a body in one byte.
fn options_byte(content: &CookieContent) -> u8
    ensures { result ≡ options_byte (content_meaning content.now) }
{
    option(content.body.partial_reliability, PARTIAL_RELIABILITY)
        + option(content.body.interleaving, INTERLEAVING)
        + option(content.reset, STREAM_RESET)
        + option(content.zero_checksum, ZERO_CHECKSUM)
}

// An option's bit if it is used.
fn option(used: bool, bit: u8) -> u8
    ensures { result ≡ (if used then bit else 0) }
{
    if used { bit } else { 0 }
}

/// The body in the first 40 bytes of a cookie. None if these aren't 72 bytes of the layout: its
/// options say one that isn't in the layout, or that the listener isn't set up with, or a byte that
/// must be zero isn't.
#[tactic(auto, unfolding(crate::specs::CookieBody::has_form))]
pub(crate) fn read_body(bytes: &[u8], taken: CookieOptions) -> Option<CookieContent>
    ensures { MatchOption result (has_form taken bytes.now ≡ false) (λ content. (has_form taken bytes.now ≡ true) × (content_meaning content ≡ body_of bytes.now)) }
{
    if has_form(bytes, taken) {
        Some(body_of(bytes))
    } else {
        None
    }
}

// Whether these are 72 bytes whose options and zeros are as the layout has them.
#[tactic(auto, unfolding(crate::specs::CookieBody::has_form))]
fn has_form(bytes: &[u8], taken: CookieOptions) -> bool
    ensures { result ≡ has_form taken bytes.now }
{
    bytes.len() == COOKIE_LENGTH
        && says_only(bytes[OPTIONS_AT], taken)
        && bytes[37] == 0
        && bytes[38] == 0
        && bytes[39] == 0
}

// Whether an options' byte says no option but those of every listener, and those of this one.
fn says_only(options: u8, taken: CookieOptions) -> bool
    ensures { result ≡ says_only taken options }
{
    options <= ALL_OPTIONS
        && (taken.reset || !says(options, STREAM_RESET))
        && (taken.zero_checksum || !says(options, ZERO_CHECKSUM))
}

// Whether an options' byte says the option of this bit.
fn says(options: u8, bit: u8) -> bool
    ensures { result ≡ says bit options }
{
    options & bit != 0
}

// The body whose fields are in these bytes.
#[tactic(auto, unfolding(crate::specs::CookieBody::body_of))]
fn body_of(bytes: &[u8]) -> CookieContent
    requires { length bytes.now ≡ 72 }
    ensures { content_meaning result ≡ body_of bytes.now }
{
    let options = bytes[OPTIONS_AT];
    let body = CookieBody {
        made: BigEndian::read_u64(bytes),
        listener_port: BigEndian::read_u16(&bytes[8..]),
        caller_port: BigEndian::read_u16(&bytes[10..]),
        listener_tag: BigEndian::read_u32(&bytes[12..]),
        caller_tag: BigEndian::read_u32(&bytes[16..]),
        listener_tsn: BigEndian::read_u32(&bytes[20..]),
        caller_tsn: BigEndian::read_u32(&bytes[24..]),
        caller_rwnd: BigEndian::read_u32(&bytes[28..]),
        streams_to_caller: BigEndian::read_u16(&bytes[32..]),
        streams_from_caller: BigEndian::read_u16(&bytes[34..]),
        partial_reliability: options & PARTIAL_RELIABILITY != 0,
        interleaving: options & INTERLEAVING != 0,
    };
    CookieContent {
        body,
        reset: options & STREAM_RESET != 0,
        zero_checksum: options & ZERO_CHECKSUM != 0,
    }
}
