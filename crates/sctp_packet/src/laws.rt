//! Laws: theorems about all bytes and packets, as the contracts of functions that do nothing.

ghost use Rattle.std.specs.Prelude.{ℕ, List};
ghost use Rattle.sctp_model.specs.wire.Packet.{Packet};
ghost use Rattle.sctp_model.specs.wire.Places.{ArePlaced};
ghost use Rattle.sctp_packet.specs.PacketBytes.{ReadsPacket, WritesPacket};
ghost use Rattle.sctp_packet.specs.PacketLaws.{ReadInOneWay};

use sctp_wire::{one_reading, written_reads};

/// Bytes are at most one packet, or have at most one fault, never both.
pub fn one_packet()
    ensures { (bytes : List ℕ) → ReadInOneWay bytes }
{
    one_reading();
}

/// What is written for a packet whose chunks may be bundled so parses as this packet: its header and its chunks.
pub fn written_packet_reads()
    ensures { (bytes : List ℕ) (p : Packet) → WritesPacket bytes p → ArePlaced p.chunks → ReadsPacket bytes p }
{
    written_reads();
}
