//! Chunks, whose data and lists are slices of the bytes that were parsed; the size of each, and how it is written.

ghost use Rattle.std.specs.Prelude.{◌≡◌, ◌+◌, ◌≤◌, ◌<◌, ◌^◌, ◌↔◌, ◌++◌, IsTrue, true, false, length, vec_len, vec_capacity};
ghost use Rattle.sctp_model.specs.wire.Chunk.{kind_of, chunk_length, size_of_chunk};
ghost use Rattle.sctp_wire.specs.ChunkTree.{chunk_meaning, HasZeroReserved};
ghost use Rattle.sctp_wire.specs.Layouts.{flags_of, value_of, Fits};
ghost use Rattle.sctp_wire.specs.Writes.{written};
ghost use Rattle.sctp_wire.specs.inner.AtOnce.{is_at_once};

use crate::chunks::abort::{abort_fits, reflected_flag};
use crate::chunks::cookie_echo::cookie_echo_fits;
use crate::chunks::error::error_fits;
use crate::chunks::forward::{Forward, append_forward};
use crate::chunks::forward_tsn::forward_tsn_fits;
use crate::chunks::heartbeat::heartbeat_fits;
use crate::chunks::i_data::i_data_fits;
use crate::chunks::i_forward_tsn::i_forward_tsn_fits;
use crate::chunks::init::{Init, append_init, init_fits};
use crate::chunks::other::other_fits;
use crate::chunks::piece::{Piece, data_flags};
use crate::chunks::sack::{Sack, sack_fits};
use crate::chunks::shutdown::shutdown_fits;
use crate::chunks::user_data::data_fits;
use crate::codes::{
    ABORT, COOKIE_ACK, COOKIE_ECHO, DATA, DATA_HEADER, ERROR, FORWARD_HEADER, FORWARD_TSN,
    HEARTBEAT, HEARTBEAT_ACK, I_DATA, I_DATA_HEADER, I_FORWARD_TSN, INIT, INIT_ACK, INIT_HEADER,
    SACK, SACK_HEADER, SHUTDOWN, SHUTDOWN_ACK, SHUTDOWN_COMPLETE,
};
use crate::numbers::{append, append_u32, padded};
use crate::skips::SkipForm;
use crate::typed::Causes;

/// A chunk (RFC 9260, 3.2).
#[derive(Drop)]
pub enum Chunk<'a> {
    /// User data (RFC 9260, 3.3.1).
    Data(Piece<'a>),
    /// Asks to open an association (RFC 9260, 3.3.2).
    Init(Init<'a>),
    /// The answer to INIT (RFC 9260, 3.3.3).
    InitAck(Init<'a>),
    /// Which TSNs were received (RFC 9260, 3.3.4).
    Sack(Sack<'a>),
    /// Asks for a HEARTBEAT ACK with the same bytes (RFC 9260, 3.3.5).
    Heartbeat {
        info: &'a [u8],
    },
    /// The answer to HEARTBEAT (RFC 9260, 3.3.6).
    HeartbeatAck {
        info: &'a [u8],
    },
    /// The association is aborted (RFC 9260, 3.3.7). `reflected` is the flag T: the packet has the verification tag of the packet that it
    /// answers.
    Abort {
        reflected: bool,
        causes: Causes<'a>,
    },
    /// The sender has no more data to send, and all TSNs up to `cumulative` were received (RFC 9260, 3.3.8).
    Shutdown {
        cumulative: u32,
    },
    /// The answer to SHUTDOWN (RFC 9260, 3.3.9).
    ShutdownAck,
    /// Reports errors (RFC 9260, 3.3.10).
    Error {
        causes: Causes<'a>,
    },
    /// Returns the cookie of an INIT ACK (RFC 9260, 3.3.11).
    CookieEcho {
        cookie: &'a [u8],
    },
    /// The answer to COOKIE ECHO (RFC 9260, 3.3.12).
    CookieAck,
    /// The answer to SHUTDOWN ACK (RFC 9260, 3.3.13). `reflected` is the flag T, as in ABORT.
    ShutdownComplete {
        reflected: bool,
    },
    /// User data with a message identifier (RFC 8260, 2.1).
    IData(Piece<'a>),
    /// Skips TSNs of abandoned messages in DATA (RFC 3758, 3.2).
    ForwardTsn(Forward<'a>),
    /// Skips TSNs of abandoned messages in I-DATA (RFC 8260, 2.3.1).
    IForwardTsn(Forward<'a>),
    /// A chunk of any other type, with its flags and its value.
    Unknown {
        kind: u8,
        flags: u8,
        value: &'a [u8],
    },
}

impl Chunk<'_> {
    /// Whether the chunk can be written: its length is at most 65,535, its fields are within their bits, its
    /// lists have zero padding and none after the last item, its reserved bits are zero, and an unknown type is
    /// none that has a case of its own. Empty data and lists fit.
    pub fn fits(&self) -> bool
        ensures { IsTrue result ↔ (Fits (chunk_meaning self.now) × HasZeroReserved self.now) }
    {
        match self {
            Chunk::Data(piece) => data_fits(piece),
            Chunk::IData(piece) => i_data_fits(piece),
            Chunk::Init(offer) | Chunk::InitAck(offer) => init_fits(offer),
            Chunk::Sack(sack) => sack_fits(sack),
            Chunk::Heartbeat { info } | Chunk::HeartbeatAck { info } => heartbeat_fits(info),
            Chunk::Abort { reflected, causes } => abort_fits(*reflected, causes),
            Chunk::Error { causes } => error_fits(causes),
            Chunk::CookieEcho { cookie } => cookie_echo_fits(cookie),
            Chunk::Shutdown { cumulative } => shutdown_fits(*cumulative),
            Chunk::ShutdownAck | Chunk::CookieAck | Chunk::ShutdownComplete { .. } => true,
            Chunk::ForwardTsn(point) => forward_tsn_fits(point),
            Chunk::IForwardTsn(point) => i_forward_tsn_fits(point),
            Chunk::Unknown { kind, flags, value } => other_fits(*kind, *flags, value),
        }
    }

    /// How many bytes `write_chunk` appends, padding included: the one size of a chunk.
    pub fn written_length(&self) -> usize
        requires { Fits (chunk_meaning self.now) }
        ensures size { result ≡ size_of_chunk (chunk_meaning self.now) }
        ensures written { result ≡ length (written (chunk_meaning self.now)) }
        ensures small { result ≤ 65536 }
    {
        padded(length_of(self))
    }
}

/// The length of header and value, without padding.
pub(crate) fn length_of(chunk: &Chunk<'_>) -> usize
    requires { Fits (chunk_meaning chunk.now) }
    ensures size { result ≡ chunk_length (chunk_meaning chunk.now) }
    ensures small { result < 2 ^ 16 }
{
    match chunk {
        Chunk::Data(piece) => DATA_HEADER + piece.bytes.len(),
        Chunk::IData(piece) => I_DATA_HEADER + piece.bytes.len(),
        Chunk::Init(offer) | Chunk::InitAck(offer) => INIT_HEADER + offer.parameters.size(),
        Chunk::Sack(sack) => SACK_HEADER + 4 * (sack.blocks.len() + sack.duplicates.len()),
        Chunk::Heartbeat { info } | Chunk::HeartbeatAck { info } => 4 + info.len(),
        Chunk::Abort { causes, .. } | Chunk::Error { causes } => 4 + causes.size(),
        Chunk::CookieEcho { cookie } => 4 + cookie.len(),
        Chunk::Shutdown { .. } => 8,
        Chunk::ShutdownAck | Chunk::CookieAck | Chunk::ShutdownComplete { .. } => 4,
        Chunk::ForwardTsn(point) => FORWARD_HEADER + 4 * point.skips.len(),
        Chunk::IForwardTsn(point) => FORWARD_HEADER + 8 * point.skips.len(),
        Chunk::Unknown { value, .. } => 4 + value.len(),
    }
}

/// The type of a chunk.
pub(crate) fn kind_of(chunk: &Chunk<'_>) -> u8
    ensures { result ≡ kind_of (chunk_meaning chunk.now) }
{
    match chunk {
        Chunk::Data(_) => DATA,
        Chunk::Init(_) => INIT,
        Chunk::InitAck(_) => INIT_ACK,
        Chunk::Sack(_) => SACK,
        Chunk::Heartbeat { .. } => HEARTBEAT,
        Chunk::HeartbeatAck { .. } => HEARTBEAT_ACK,
        Chunk::Abort { .. } => ABORT,
        Chunk::Shutdown { .. } => SHUTDOWN,
        Chunk::ShutdownAck => SHUTDOWN_ACK,
        Chunk::Error { .. } => ERROR,
        Chunk::CookieEcho { .. } => COOKIE_ECHO,
        Chunk::CookieAck => COOKIE_ACK,
        Chunk::ShutdownComplete { .. } => SHUTDOWN_COMPLETE,
        Chunk::IData(_) => I_DATA,
        Chunk::ForwardTsn(_) => FORWARD_TSN,
        Chunk::IForwardTsn(_) => I_FORWARD_TSN,
        Chunk::Unknown { kind, .. } => *kind,
    }
}

/// The flags of a chunk, unused ones zero.
pub(crate) fn flags_of(chunk: &Chunk<'_>) -> u8
    ensures { result ≡ flags_of (chunk_meaning chunk.now) }
{
    match chunk {
        Chunk::Data(piece) | Chunk::IData(piece) => data_flags(piece),
        Chunk::Abort { reflected, .. } | Chunk::ShutdownComplete { reflected } => {
            reflected_flag(*reflected)
        }
        Chunk::Unknown { flags, .. } => *flags,
        _ => 0,
    }
}

/// Appends the value of a chunk other than DATA, I-DATA and SACK, by its layout.
pub(crate) fn append_value(out: &mut Vec<u8>, chunk: &Chunk<'_>)
    requires fits { Fits (chunk_meaning chunk.now) }
    requires other { is_at_once (chunk_meaning chunk.now) ≡ false }
    requires spare { vec_len out.old + chunk_length (chunk_meaning chunk.now) ≤ vec_capacity out.old + 4 }
    ensures items { out.new.items ≡ out.old.items ++ value_of (chunk_meaning chunk.now) }
    ensures len { vec_len out.new + 4 ≡ vec_len out.old + chunk_length (chunk_meaning chunk.now) }
    ensures room { vec_capacity out.old ≤ vec_capacity out.new }
{
    match chunk {
        Chunk::Data(_) | Chunk::IData(_) | Chunk::Sack(_) => unreachable!(),
        Chunk::Init(offer) | Chunk::InitAck(offer) => append_init(out, offer),
        Chunk::Heartbeat { info } | Chunk::HeartbeatAck { info } => append(out, info),
        Chunk::Abort { causes, .. } | Chunk::Error { causes } => append(out, causes.bytes()),
        Chunk::CookieEcho { cookie } => append(out, cookie),
        Chunk::Shutdown { cumulative } => append_u32(out, *cumulative),
        Chunk::ShutdownAck | Chunk::CookieAck | Chunk::ShutdownComplete { .. } => {}
        Chunk::ForwardTsn(point) => append_forward(SkipForm::Narrow, out, point),
        Chunk::IForwardTsn(point) => append_forward(SkipForm::Wide, out, point),
        Chunk::Unknown { value, .. } => append(out, value),
    }
}
