//! Laws of the bytes that endpoints send and receive, for whoever carries packets between them.

ghost use Rattle.std.specs.Prelude.{◌≡◌, ℕ, List};
ghost use Rattle.sctp_model.specs.wire.Packet.{Packet};
ghost use Rattle.sctp_model.specs.wire.Places.{ArePlaced};
ghost use Rattle.sctp_packet.specs.PacketBytes.{ReadsPacket, WritesPacket};
ghost use Rattle.sctp_packet.specs.PacketLaws.{ReadInOneWay};

use sctp_wire::codes::{
    ABORT, COOKIE_ACK, COOKIE_ECHO, DATA, ERROR, FORWARD_TSN, HEARTBEAT, HEARTBEAT_ACK, I_DATA,
    I_FORWARD_TSN, INIT, INIT_ACK, SACK, SHUTDOWN, SHUTDOWN_ACK, SHUTDOWN_COMPLETE,
};

/// The types of chunks are the registered numbers (RFC 9260, 3.2; RFC 3758, 3.2; RFC 8260, 2.1 and 2.3.1).
// law
pub fn chunk_types()
    ensures data { DATA ≡ 0 }
    ensures init { INIT ≡ 1 }
    ensures init_ack { INIT_ACK ≡ 2 }
    ensures sack { SACK ≡ 3 }
    ensures heartbeat { HEARTBEAT ≡ 4 }
    ensures heartbeat_ack { HEARTBEAT_ACK ≡ 5 }
    ensures abort { ABORT ≡ 6 }
    ensures shutdown { SHUTDOWN ≡ 7 }
    ensures shutdown_ack { SHUTDOWN_ACK ≡ 8 }
    ensures error { ERROR ≡ 9 }
    ensures cookie_echo { COOKIE_ECHO ≡ 10 }
    ensures cookie_ack { COOKIE_ACK ≡ 11 }
    ensures shutdown_complete { SHUTDOWN_COMPLETE ≡ 14 }
    ensures i_data { I_DATA ≡ 64 }
    ensures forward { FORWARD_TSN ≡ 192 }
    ensures i_forward { I_FORWARD_TSN ≡ 194 }
{}

/// Bytes that arrive are at most one packet, or have at most one fault, never both; and they are one of the two.
// law
pub fn one_packet()
    ensures { (bytes : List ℕ) → ReadInOneWay bytes }
{
    sctp_packet::one_packet();
}

/// The bytes that an endpoint writes for a packet whose chunks may be bundled so are read by its peer as this packet: its header and its chunks.
// law
pub fn written_packet_reads()
    ensures { (bytes : List ℕ) (p : Packet) → WritesPacket bytes p → ArePlaced p.chunks → ReadsPacket bytes p }
{
    sctp_packet::written_packet_reads();
}
