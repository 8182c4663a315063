//! Packets of one chunk, sent in direct reply to another packet (RFC 9260, 3.3.7, 5.1 and 8.4).

ghost use Rattle.std.specs.Prelude.{◌≡◌, ◌≤◌, ◌<◌, ◌+◌, ℕ, nat_le, [], ◌∷◌, length, true, IfOk};
ghost use Rattle.sctp_model.specs.numbers.Numbers.{u32_bytes};
ghost use Rattle.sctp_model.specs.wire.Chunk.{Abort, Error};
ghost use Rattle.sctp_model.specs.wire.Packet.{size_of_packet};
ghost use Rattle.sctp_model.specs.wire.Typed.{AreAsWritten, are_typed};
ghost use Rattle.sctp_model.specs.end.PeerFaults.{packet_to, abort_for};
ghost use Rattle.sctp_model.specs.end.Reports.{item, written};
ghost use Rattle.sctp_wire.specs.ChunkTree.{chunk_meaning};
ghost use Rattle.sctp_wire.specs.Layouts.{Fits};
ghost use Rattle.sctp_packet.specs.PacketBytes.{WritesPacket};
ghost use Rattle.sctp_opening.specs.Room.{size_alone};

use sctp_packet::{HEADER, PacketWriter};
use sctp_terms::Config;
use sctp_wire::codes::STALE_COOKIE;
use sctp_wire::{Causes, Chunk, NoMemory, put_cause, put_word};
use std::alloc::Global;

/// The space in a chunk that is alone in its packet: how many bytes fit after its `fixed` first ones.
pub fn room_behind(config: &Config, fixed: usize) -> usize
    requires { fixed ≤ 500 }
    ensures exact { (n : ℕ) → nat_le (size_alone (fixed + n)) config.now.limit ≡ nat_le n result }
    ensures least { 560 ≤ result + fixed }
    ensures greatest { result < 1500 }
{
    (usize::from(config.limit()) - HEADER) / 4 * 4 - fixed
}

/// A packet of one chunk, between the configured ports and with this verification tag.
///
/// # Errors
/// `NoMemory` if an allocation failed.
pub fn lone_packet(
    alloc: Global,
    config: &Config,
    tag: u32,
    chunk: &Chunk<'_>,
) -> Result<Vec<u8>, NoMemory>
    requires fits { Fits (chunk_meaning chunk.now) }
    requires within { size_of_packet (chunk_meaning chunk.now ∷ []) ≤ config.now.limit }
    ensures packet { IfOk result (λ packet. WritesPacket packet.items (packet_to config.now tag (chunk_meaning chunk.now))) }
    ensures within { IfOk result (λ packet. length packet.items ≤ config.now.limit) }
{
    let limit = config.limit();
    let mut writer = PacketWriter::new(alloc, limit, config.own_port(), config.peer_port(), tag);
    if !writer.try_chunk(chunk)? {
        unreachable!()
    }
    match writer.finish() {
        Some(packet) => Ok(packet),
        None => unreachable!(),
    }
}

/// A packet with an ABORT of one error cause, with this verification tag, which is that of its receiver (RFC 9260, 3.3.7).
///
/// # Errors
/// `NoMemory` if an allocation failed.
pub fn abort_packet(
    alloc: Global,
    config: &Config,
    tag: u32,
    cause: u16,
    value: &[u8],
) -> Result<Vec<u8>, NoMemory>
    requires { size_alone (8 + length value.now) ≤ config.now.limit }
    ensures packet { IfOk result (λ packet. WritesPacket packet.items (packet_to config.now tag (abort_for (item cause value.now)))) }
    ensures within { IfOk result (λ packet. length packet.items ≤ config.now.limit) }
{
    // Its contract bounds the limit, so the length of the cause fits 16 bits.
    let _limit = config.limit();
    let causes = one_cause(alloc, cause, value)?;
    let chunk = Chunk::Abort {
        reflected: false,
        causes: Causes::new(&causes),
    };
    lone_packet(alloc, config, tag, &chunk)
}

/// A packet with an ABORT that has no cause. `reflected` is its T bit: the verification tag is that of the packet it answers (RFC 9260, 3.3.7 and
/// 8.5.1).
pub(crate) fn bare_abort(
    alloc: Global,
    config: &Config,
    tag: u32,
    reflected: bool,
) -> Result<Vec<u8>, NoMemory>
    ensures packet { IfOk result (λ packet. WritesPacket packet.items (packet_to config.now tag (Abort reflected []))) }
    ensures within { IfOk result (λ packet. length packet.items ≤ config.now.limit) }
{
    // Its contract bounds the limit, so the chunk fits a packet.
    let _limit = config.limit();
    let chunk = Chunk::Abort {
        reflected,
        causes: Causes::none(),
    };
    lone_packet(alloc, config, tag, &chunk)
}

/// A packet with the ERROR for a cookie older than its lifetime, by this number of microseconds (RFC 9260, 3.3.10.3 and 5.1.5).
pub(crate) fn stale_cookie_packet(
    alloc: Global,
    config: &Config,
    tag: u32,
    microseconds: u32,
) -> Result<Vec<u8>, NoMemory>
    ensures packet { IfOk result (λ packet. WritesPacket packet.items (packet_to config.now tag (Error (written (item STALE_COOKIE (u32_bytes microseconds) ∷ []))))) }
    ensures within { IfOk result (λ packet. length packet.items ≤ config.now.limit) }
{
    // Its contract bounds the limit, so the cause fits a packet.
    let _limit = config.limit();
    let mut value = Vec::new(alloc);
    put_word(microseconds, &mut value)?;
    let causes = one_cause(alloc, STALE_COOKIE, &value)?;
    let chunk = Chunk::Error {
        causes: Causes::new(&causes),
    };
    lone_packet(alloc, config, tag, &chunk)
}

/// The bytes of a list with one error cause.
fn one_cause(alloc: Global, cause: u16, value: &[u8]) -> Result<Vec<u8>, NoMemory>
    requires { length value.now ≤ 1500 }
    ensures bytes { IfOk result (λ causes. causes.items ≡ written (item cause value.now ∷ [])) }
    ensures list { IfOk result (λ causes. are_typed causes.items ≡ true) }
    ensures plain { IfOk result (λ causes. AreAsWritten causes.items) }
    ensures length { IfOk result (λ causes. length causes.items ≡ 4 + length value.now) }
{
    let mut causes = Vec::new(alloc);
    put_cause(cause, value, &mut causes)?;
    Ok(causes)
}
