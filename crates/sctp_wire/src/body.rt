//! The value of a chunk, after its header: which layout is whose.

ghost use Rattle.std.specs.Prelude.{◌≡◌, ℕ, true};
ghost use Rattle.sctp_wire.specs.ChunkTree.{chunk_meaning};
ghost use Rattle.sctp_wire.specs.Layouts.{has_layout, has_list};
ghost use Rattle.sctp_wire.specs.Reading.{body_at};

use crate::chunk::Chunk;
use crate::chunks::abort::is_abort_list;
use crate::chunks::cookie_ack::is_cookie_ack;
use crate::chunks::error::is_error_list;
use crate::chunks::flags::is_set;
use crate::chunks::forward_tsn::{is_forward_tsn, read_forward_tsn};
use crate::chunks::i_data::{is_i_data, read_i_data};
use crate::chunks::i_forward_tsn::{is_i_forward_tsn, read_i_forward_tsn};
use crate::chunks::init::{has_parameters, is_init, read_init};
use crate::chunks::sack::{is_sack, read_sack};
use crate::chunks::shutdown::is_shutdown;
use crate::chunks::shutdown_ack::is_shutdown_ack;
use crate::chunks::shutdown_complete::is_shutdown_complete;
use crate::chunks::user_data::{is_data, read_data};
use crate::codes::{
    ABORT, COOKIE_ACK, COOKIE_ECHO, DATA, ERROR, FORWARD_TSN, HEARTBEAT, HEARTBEAT_ACK, I_DATA,
    I_FORWARD_TSN, INIT, INIT_ACK, REFLECTED, SACK, SHUTDOWN, SHUTDOWN_ACK, SHUTDOWN_COMPLETE,
};
use crate::numbers::read_u32;
use crate::typed::Causes;

/// Whether a value has the layout of its type.
pub(crate) fn has_layout(kind: u8, value: &[u8]) -> bool
    ensures { result ≡ has_layout kind value.now }
{
    match kind {
        DATA => is_data(value),
        INIT | INIT_ACK => is_init(value),
        SACK => is_sack(value),
        SHUTDOWN => is_shutdown(value),
        SHUTDOWN_ACK => is_shutdown_ack(value),
        COOKIE_ACK => is_cookie_ack(value),
        SHUTDOWN_COMPLETE => is_shutdown_complete(value),
        I_DATA => is_i_data(value),
        FORWARD_TSN => is_forward_tsn(value),
        I_FORWARD_TSN => is_i_forward_tsn(value),
        _ => true,
    }
}

/// Whether the parameters or causes in a value of the layout are a list of items; true for a type that has none.
pub(crate) fn has_list(kind: u8, value: &[u8]) -> bool
    requires { has_layout kind value.now ≡ true }
    ensures { result ≡ has_list kind value.now }
{
    match kind {
        INIT | INIT_ACK => has_parameters(value),
        ABORT => is_abort_list(value),
        ERROR => is_error_list(value),
        _ => true,
    }
}

/// The SACK in a value of its layout.
#[inline(always)]
#[tactic(auto, unfolding(crate::specs::Reading::body_at))]
pub(crate) fn read_seen(value: &[u8]) -> Chunk<'_>
    requires { has_layout SACK value.now ≡ true }
    ensures { (flags : ℕ) → chunk_meaning result ≡ body_at SACK flags value.now }
{
    Chunk::Sack(read_sack(value))
}

/// The chunk of any other type, with these flags and a value of its layout.
#[inline(never)]
#[tactic(auto, unfolding(crate::specs::Reading::body_at))]
pub(crate) fn read_value(kind: u8, flags: u8, value: &[u8]) -> Chunk<'_>
    requires layout { has_layout kind value.now ≡ true }
    requires list { has_list kind value.now ≡ true }
    requires other { kind ≡ SACK → ⊥ }
    ensures { chunk_meaning result ≡ body_at kind flags value.now }
{
    let reflected = is_set(flags, REFLECTED);
    match kind {
        DATA => Chunk::Data(read_data(flags, value)),
        I_DATA => Chunk::IData(read_i_data(flags, value)),
        INIT => Chunk::Init(read_init(value)),
        INIT_ACK => Chunk::InitAck(read_init(value)),
        HEARTBEAT => Chunk::Heartbeat { info: value },
        HEARTBEAT_ACK => Chunk::HeartbeatAck { info: value },
        ABORT => {
            let causes = Causes::new(value);
            Chunk::Abort { reflected, causes }
        }
        SHUTDOWN => {
            let cumulative = read_u32(value);
            Chunk::Shutdown { cumulative }
        }
        SHUTDOWN_ACK => Chunk::ShutdownAck,
        ERROR => {
            let causes = Causes::new(value);
            Chunk::Error { causes }
        }
        COOKIE_ECHO => Chunk::CookieEcho { cookie: value },
        COOKIE_ACK => Chunk::CookieAck,
        SHUTDOWN_COMPLETE => Chunk::ShutdownComplete { reflected },
        FORWARD_TSN => Chunk::ForwardTsn(read_forward_tsn(value)),
        I_FORWARD_TSN => Chunk::IForwardTsn(read_i_forward_tsn(value)),
        _ => Chunk::Unknown { kind, flags, value },
    }
}
