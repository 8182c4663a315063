//! SCTP packets: the common header with its CRC32c checksum, parsed and written (RFC 9260, 3, 6.8 and appendix A).
//!
//! | word of the contracts | meaning | source |
//! |---|---|---|
//! | `crc32c bytes` | the checksum by long division: the bits of the bytes followed by 32 zeros, the first 32 bits flipped, divided over the field of two elements by x^32 plus 0x1EDC6F41; the remainder flipped, its highest power in the lowest bit | RFC 9260, 6.8 and appendix A |
//! | `IsChecksum bytes sum` | the checksum as a relation: some remainder of that division is sent as this number | |
//! | `IsEntry place byte entry` | a number of a table: its bits are the remainder of the byte followed by 32 zeros and eight for each byte that follows | |
//! | `packet_bytes p body` | ports, tag, and the checksum of all of it (low byte first), and then the chunks' bytes | RFC 9260, 3.1 |
//! | `ReadsPacket`, `WritesPacket` | the bytes are this packet: its header, and bytes that parse as (are written for) its chunks, at least one | RFC 9260, 3 |
//! | `FaultsPacket` | why bytes aren't a packet: `Short`, `Checksum`, `NoChunk`, or `Wire` with the chunks' fault, 12 added to its offset for the header | |
//! | `Draft` | a packet under construction: limit, ports, tag, whether its memory is reserved, chunks so far | |
//!
//! | call | what is promised |
//! |---|---|
//! | [`crc32c`] | `checksum`: `IsChecksum`; `only`: no other number is the checksum; `exact`: `crc32c bytes` |
//! | [`read_packet`] | `exact`: a packet with `ReadsPacket`, or a fault with `FaultsPacket`; `packet`, `fault`: if the bytes are a packet, or have a fault, it is that one. It allocates no memory |
//! | [`PacketWriter::new`], [`PacketWriter::in_room`] | an empty packet with these values, whatever they are, and whatever the buffer contains that is given |
//! | [`PacketWriter::room`] | the limit less header and padded chunks, 0 if they are more |
//! | [`PacketWriter::narrow`] | `narrowed`: at most this number of bytes more fits; `room`: the lesser of this and what was left |
//! | [`PacketWriter::try_chunk`] | `answer`: true if and only if the packet with the chunk stays within the limit; `after`: the chunk is after the others, or nothing changed; `unchanged`, `refused`, `early`: [`NoMemory`] changes nothing, and is returned only if the chunk fits and is the packet's first or second |
//! | [`PacketWriter::reserve`] | `reserved`: memory for all that the limit allows is there; `before`: whether it was reserved already; `unchanged`, `early`: [`NoMemory`] changes nothing, and is returned only before the packet's second chunk |
//! | [`PacketWriter::put`] | the chunk, for which there is space, is after the others, in a packet whose memory is reserved |
//! | [`PacketWriter::put_piece`] | the same for a DATA or I-DATA with the fields of a `Piece` |
//! | [`PacketWriter::try_sack`] | the same as [`PacketWriter::try_chunk`] with a SACK that has this cumulative TSN, this space, and no lists |
//! | [`PacketWriter::restore`] | the packet's memory counts as reserved, or doesn't, as before [`PacketWriter::reserve`] |
//! | [`PacketWriter::finish`], [`PacketWriter::finish_or_room`] | `packet`: None, or the buffer, if and only if there is no chunk, else bytes with `WritesPacket`; `size`, `within`: their length is that of header and padded chunks, at most the limit |
//!
//! | law | what it says |
//! |---|---|
//! | [`one_packet`] | bytes are at most one packet, or have at most one fault, never both; and they are one of the two |
//! | [`written_packet_reads`] | what is written for a packet whose chunks may be bundled so parses as its header and its chunks |
//!
//! # The checksum
//!
//! [`crc32c`] keeps the usual 32-bit register. Sixteen tables of 256 numbers (slicing by 16) take sixteen bytes at a time, twice in each turn of
//! the loop; then sixteen once more, then eight, and the bytes that are left one at a time by the first table. A packet's header is taken as
//! eight bytes followed by four zeros, whatever its checksum field contains (`after_header`), and then what follows it.
//!
//! A run of 384 bytes or more is folded first: x^209 + x^144 + x^54 + x^39 + x^14 + 1 is a multiple of the polynomial, and so is its eighth
//! power, which moves whole bytes; so a byte may be removed if it is added 65, 155, 170, 195 and 209 bytes further on, and 224 bytes are left,
//! which the tables take. A block of 32 bytes is folded at once, since no byte of it reaches another. Nothing reaches the first 64 bytes, and
//! one byte each of the next 64.
//!
//! The proof: `proofs/StepLemmas` (the register is linear, so that eight bytes leave what each leaves alone), `TableLemmas` (all 4,096
//! numbers of the tables are computed once, and each is the remainder of long division), `EightLemmas`, `StepBits` (numbers and bits),
//! `FoldLemmas`, `JoinedLemmas`, `RoomLemmas`, `StartLemmas`, `BlockLemmas`, `PairLemmas`, `LeftLemmas` (folding leaves the register as it was),
//! `RegisterLemmas`, `DivisionLaws` and `ChecksumLaws` (the register is the remainder, and there is no other).
//!
//! # What a body may still get away with
//!
//! That tables are used, that long runs are folded, that a given buffer saves an allocation: no contract says so. `bench/README.md` measures it.
#![tactic(auto)]

mod checksum;
mod fault;
mod folding;
mod lanes;
mod laws;
mod read;
mod reserved;
mod sacks;
mod tables;
mod writer;

pub use checksum::{HEADER, crc32c};
pub use fault::PacketFault;
pub use laws::{one_packet, written_packet_reads};
pub use read::{Packet, read_packet};
pub use sctp_values::NoMemory;
pub use writer::PacketWriter;
