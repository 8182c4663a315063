//! Parsing a packet: length, checksum, then the chunks (RFC 9260, 3 and 6.8).

ghost use Rattle.std.specs.Prelude.{◌≡◌, MatchResult};
ghost use Rattle.sctp_model.specs.wire.Packet as meaning;
ghost use Rattle.sctp_packet.specs.PacketBytes.{ReadsPacket, FaultsPacket};
ghost use Rattle.sctp_packet.specs.PacketTree.{packet_meaning};

use crate::checksum::{HEADER, is_checked};
use crate::fault::PacketFault;
use byteorder::{BigEndian, ByteOrder};
use sctp_wire::{Chunks, one_reading, read_chunks};

/// A packet that was received; its chunks are slices of the bytes.
#[derive(Drop)]
pub struct Packet<'a> {
    /// The source port.
    pub source: u16,
    /// The destination port.
    pub destination: u16,
    /// The verification tag.
    pub tag: u32,
    /// The chunks, at least one.
    pub chunks: Chunks<'a>,
}

/// Parses a packet. It allocates no memory.
///
/// # Errors
/// The first of these that applies: `Short`, `Checksum`, `NoChunk`, and `Wire` with the fault of the chunks, whose offset
/// counts from the packet's first byte.
pub fn read_packet(bytes: &[u8]) -> Result<Packet<'_>, PacketFault>
    // It returns the packet that the bytes are, or their fault.
    ensures exact { MatchResult result (λ packet. ReadsPacket bytes.now (packet_meaning packet)) (λ fault. FaultsPacket bytes.now fault) }
    // If the bytes are a packet, it is this one.
    ensures packet { (p : meaning.Packet) → ReadsPacket bytes.now p
        → MatchResult result (λ packet. packet_meaning packet ≡ p) (λ _. ⊥) }
    // If they have a fault, it is this one.
    ensures fault { (f : PacketFault) → FaultsPacket bytes.now f
        → MatchResult result (λ _. ⊥) (λ fault. fault ≡ f) }
{
    if bytes.len() < HEADER {
        return Err(PacketFault::Short);
    }
    if !is_checked(bytes) {
        return Err(PacketFault::Checksum);
    }
    if bytes.len() == HEADER {
        return Err(PacketFault::NoChunk);
    }
    // The law gives that the chunks, or their fault, are the only ones.
    one_reading();
    match read_chunks(&bytes[HEADER..]) {
        Ok(chunks) => Ok(Packet {
            source: BigEndian::read_u16(bytes),
            destination: BigEndian::read_u16(&bytes[2..]),
            tag: BigEndian::read_u32(&bytes[4..]),
            chunks,
        }),
        Err(fault) => Err(PacketFault::Wire(fault.moved_by(HEADER))),
    }
}
