//! What a packet says, read from its bytes without an endpoint (RFC 9260, 3.1 and 3.3.7).

ghost use Rattle.std.specs.Prelude.{◌≡◌, ◌<◌, length, Option, option_map};
ghost use Rattle.sctp_model.specs.wire.Packet as meaning;
ghost use Rattle.sctp_model.specs.wire.Packet.{HEADER_ROOM};
ghost use Rattle.sctp_packet.specs.PacketBytes.{ReadsPacket};
ghost use Rattle.sctp_endpoint.specs.Handled.{IsRead};
ghost use Rattle.sctp_endpoint.specs.Packets.{BeginsWith, abort_said, cause_meaning};
ghost use Rattle.sctp_c.specs.Told.{CauseTold};

use crate::buffers::put_bytes;
use crate::codes::{NEEDS_ROOM, NOTHING, OK};
use sctp_endpoint::{AbortCause, abort_cause, peek_packet};

/// Writes the ports and the verification tag of a packet's common header, or returns that it has none: it is shorter than 12 bytes. Nothing else
/// of the packet is checked.
#[unsafe(no_mangle)]
pub extern "C" fn sctp_endpoint_peek_packet(
    packet: &[u8],
    source: &mut u16,
    destination: &mut u16,
    tag: &mut u32,
) -> u32
    ensures short { length packet.now < HEADER_ROOM → result ≡ NOTHING }
    ensures untold { ((result ≡ OK) → ⊥) → (source.new ≡ source.old) × (destination.new ≡ destination.old) × (tag.new ≡ tag.old) }
    ensures header { (result ≡ OK) → BeginsWith packet.now (record { source = source.new; destination = destination.new; tag = tag.new }) }
    ensures packet { (p : meaning.Packet) → ReadsPacket packet.now p
        → (result ≡ OK) × (source.new ≡ p.source) × (destination.new ≡ p.destination) × (tag.new ≡ p.tag) }
{
    match peek_packet(packet) {
        Some(header) => {
            *source = header.source;
            *destination = header.destination;
            *tag = header.tag;
            OK
        }
        None => NOTHING,
    }
}

/// Writes a cause that was found, and its information to the beginning of a buffer that has space for it.
fn tell_cause(
    found: Option<AbortCause<'_>>,
    cause: &mut u16,
    buffer: &mut [u8],
    count: &mut usize,
) -> u32
    ensures { CauseTold (option_map cause_meaning found.entry) result cause.old cause.new count.old count.new buffer.old buffer.new }
{
    let Some(said) = found else {
        return NOTHING;
    };
    *cause = said.code;
    *count = said.info.len();
    if said.info.len() > buffer.len() {
        return NEEDS_ROOM;
    }
    let _ = put_bytes(said.info, buffer);
    OK
}

/// Writes the first cause of the first ABORT in a packet to `cause`, 0 if the ABORT has none, its information, which is the reason of a user's
/// abort, to `buffer`, and how many bytes it has to `count`; or returns that the bytes are no packet with an ABORT. It is what the packet says,
/// whoever sent it.
#[unsafe(no_mangle)]
pub extern "C" fn sctp_endpoint_abort_cause(
    packet: &[u8],
    cause: &mut u16,
    buffer: &mut [u8],
    count: &mut usize,
) -> u32
    ensures { (o : Option meaning.Packet) → IsRead packet.now o
        → CauseTold (abort_said o) result cause.old cause.new count.old count.new buffer.old buffer.new }
{
    tell_cause(abort_cause(packet), cause, buffer, count)
}
