//! The line of a chunk, by its type.

ghost use Rattle.std.specs.Prelude.{◌≡◌, ◌++◌, OnOk, OnErr};
ghost use Rattle.sctp_wire.specs.ChunkTree.{chunk_meaning};
ghost use Rattle.sctp_print.specs.ChunkLines.{chunk_line};

use crate::control::{
    put_abort, put_complete, put_cookie, put_error, put_info, put_init, put_name, put_shutdown,
    put_unknown,
};
use crate::seen::{put_forward, put_i_forward, put_sack};
use crate::user_data::{put_data, put_i_data};
use sctp_wire::Chunk;
use std::alloc::{AllocError, Global};

/// Appends the line of a chunk, with its line feed.
///
/// # Errors
/// `AllocError` if an allocation failed; `out` is unchanged then.
#[tactic(auto, unfolding(crate::specs::ChunkLines::chunk_line))]
pub fn put_chunk(alloc: Global, chunk: &Chunk<'_>, out: &mut Vec<u8>) -> Result<(), AllocError>
    ensures put { OnOk result (out.new.items ≡ out.old.items ++ chunk_line (chunk_meaning chunk.now)) }
    ensures refused { OnErr result (out.new.items ≡ out.old.items) }
{
    match chunk {
        Chunk::Data(piece) => put_data(alloc, piece, out),
        Chunk::Init(init) => put_init(b"INIT", init, out),
        Chunk::InitAck(init) => put_init(b"INIT-ACK", init, out),
        Chunk::Sack(sack) => put_sack(alloc, sack, out),
        Chunk::Heartbeat { info } => put_info(alloc, b"HEARTBEAT", info, out),
        Chunk::HeartbeatAck { info } => put_info(alloc, b"HEARTBEAT-ACK", info, out),
        Chunk::Abort { reflected, causes } => put_abort(alloc, *reflected, causes, out),
        Chunk::Shutdown { cumulative } => put_shutdown(*cumulative, out),
        Chunk::ShutdownAck => put_name(b"SHUTDOWN-ACK", out),
        Chunk::Error { causes } => put_error(alloc, causes, out),
        Chunk::CookieEcho { cookie } => put_cookie(alloc, cookie, out),
        Chunk::CookieAck => put_name(b"COOKIE-ACK", out),
        Chunk::ShutdownComplete { reflected } => put_complete(*reflected, out),
        Chunk::IData(piece) => put_i_data(alloc, piece, out),
        Chunk::ForwardTsn(forward) => put_forward(alloc, forward, out),
        Chunk::IForwardTsn(forward) => put_i_forward(alloc, forward, out),
        Chunk::Unknown { kind, flags, value } => put_unknown(alloc, *kind, *flags, value, out),
    }
}
