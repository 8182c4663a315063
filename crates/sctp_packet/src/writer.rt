//! Building a packet: its header, and chunks as long as they fit (RFC 9260, 3 and 6.10).

ghost use Rattle.std.specs.Prelude.{◌≡◌, ◌<◌, ◌≤◌, ◌+◌, ◌^◌, ◌++◌, [], true, min, length, take, drop, vec_len, vec_capacity, IfOk, OnOk, OnErr, IfSome, MatchOption, MatchResult};
ghost use Rattle.byteorder.specs.Endian.{little_bytes};
ghost use Rattle.sctp_model.specs.wire.Packet.{size_of_packet};
ghost use Rattle.sctp_wire.specs.ChunkTree.{chunk_meaning};
ghost use Rattle.sctp_wire.specs.Layouts.{Fits};
ghost use Rattle.sctp_wire.specs.Writes.{written};
ghost use Rattle.sctp_packet.specs.PacketBytes.{header_bytes, WritesPacket};
ghost use Rattle.sctp_packet.specs.Draft.{with_header, packet_of, empty_draft, room_in, narrowed, has_room, after_try};

use crate::checksum::{HEADER, SUM_AT, packet_sum};
use byteorder::{ByteOrder, LittleEndian};
use sctp_values::NoMemory;
use sctp_wire::{Chunk, chunks_are_read, write_chunk, written_each_reads};
use std::alloc::Global;
use std::marker::Model;

/// A packet under construction: its size limit, its ports and verification tag, and the chunks put in so far.
///
/// It allocates nothing before its first chunk: then it allocates memory for that one alone, and with the second, once, for a packet of the limit.
/// If it was given a buffer, it allocates what that lacks.
#[derive(Drop)]
pub struct PacketWriter {
    pub(crate) limit: u16,
    pub(crate) source: u16,
    pub(crate) destination: u16,
    // the header is there, and memory for all that the limit allows
    pub(crate) is_reserved: bool,
    pub(crate) tag: u32,
    // nothing, or the header with zero for the checksum, and the chunks after it
    pub(crate) bytes: Vec<u8>,
}

impl Model for PacketWriter {
    ghost use Rattle.std.specs.Prelude.{drop, vec_capacity};
    ghost use Rattle.sctp_model.specs.wire.Packet.{HEADER_ROOM};
    ghost use Rattle.sctp_wire.specs.Reading.{chunks_of};
    ghost use Rattle.sctp_packet.specs.Draft.{Draft, bare, IsKept};

    ghost Value = { Draft };

    ghost view = { λ s. record {
      limit = s.limit;
      source = s.source;
      destination = s.destination;
      tag = s.tag;
      space = s.is_reserved;
      chunks = chunks_of (drop HEADER_ROOM s.bytes.items);
    } };

    ghost invariant = { λ s. IsKept s.limit (bare s.source s.destination s.tag) s.is_reserved s.bytes.items (vec_capacity s.bytes) };
}

impl PacketWriter {
    /// A packet without chunks, of at most `limit` bytes, header and padding included, with these ports and this verification tag.
    pub fn new(alloc: Global, limit: u16, source: u16, destination: u16, tag: u32) -> PacketWriter
        ensures { result ≡ empty_draft limit source destination tag }
    {
        PacketWriter::in_room(Vec::new(alloc), limit, source, destination, tag)
    }

    /// A packet without chunks, as [`PacketWriter::new`] makes it, built in the memory of `room`, a buffer that isn't needed any more: its
    /// contents are dropped.
    pub fn in_room(
        room: Vec<u8>,
        limit: u16,
        source: u16,
        destination: u16,
        tag: u32,
    ) -> PacketWriter
        ensures { result ≡ empty_draft limit source destination tag }
    {
        let mut bytes = room;
        bytes.clear();
        PacketWriter {
            limit,
            source,
            destination,
            is_reserved: false,
            tag,
            bytes,
        }
    }

    /// The bytes that are left for chunks and their padding.
    pub fn room(&self) -> usize
        ensures room { result ≡ room_in self.now }
        ensures small { result < 2 ^ 16 }
    {
        usize::from(self.limit).saturating_sub(self.bytes.len().max(HEADER))
    }

    /// Lowers the limit, so that at most `room` bytes more fit, padding included; if there is no more space than that already, nothing changes.
    pub fn narrow(&mut self, room: u16)
        ensures narrowed { self.new ≡ narrowed self.old room }
        ensures room { room_in self.new ≡ min room (room_in self.old) }
    {
        if usize::from(room) < self.room() {
            self.limit = self.bytes.len().max(HEADER) as u16 + room;
        }
    }

    /// Appends a chunk, which must be one that can be written (`Chunk::fits`). False if and only if the packet, with it and its
    /// padding, would exceed its limit; nothing is appended then.
    ///
    /// # Errors
    /// `NoMemory` if the chunk fits and allocation fails; nothing is appended then. Only the first and the second chunk allocate.
    pub fn try_chunk(&mut self, chunk: &Chunk<'_>) -> Result<bool, NoMemory>
        requires { Fits (chunk_meaning chunk.now) }
        ensures answer { IfOk result (λ put. put ≡ has_room self.old (chunk_meaning chunk.now)) }
        ensures after { IfOk result (λ put. self.new ≡ after_try self.old (chunk_meaning chunk.now) put) }
        ensures unchanged { OnErr result (self.new ≡ self.old) }
        ensures refused { OnErr result (has_room self.old (chunk_meaning chunk.now) ≡ true) }
        ensures early { OnErr result (length self.old.chunks ≤ 1) }
    {
        let size = chunk.written_length();
        if size > self.room() {
            return Ok(false);
        }
        // By these laws the bytes with this chunk read as the chunks with it.
        written_each_reads();
        chunks_are_read();
        let (source, destination, tag) = (self.source, self.destination, self.tag);
        begin(&mut self.bytes, size, self.limit, source, destination, tag)?;
        put(&mut self.bytes, chunk);
        Ok(true)
    }

    /// The packet's bytes: its header with the checksum, and its chunks. None if and only if there is no chunk.
    pub fn finish(self) -> Option<Vec<u8>>
        ensures packet { MatchOption result (self.chunks ≡ []) (λ packet. WritesPacket packet.items (packet_of self)) }
        ensures size { IfSome result (λ packet. length packet.items ≡ size_of_packet self.chunks) }
        ensures within { IfSome result (λ packet. length packet.items ≤ self.limit) }
    {
        match self.finish_or_room() {
            Ok(packet) => Some(packet),
            Err(_) => None,
        }
    }

    /// The packet's bytes, as [`PacketWriter::finish`] returns them; if there is no chunk, the buffer for them is returned as an error, for
    /// further use, with any contents.
    pub fn finish_or_room(self) -> Result<Vec<u8>, Vec<u8>>
        ensures packet { MatchResult result (λ packet. WritesPacket packet.items (packet_of self)) (λ _. self.chunks ≡ []) }
        ensures size { IfOk result (λ packet. length packet.items ≡ size_of_packet self.chunks) }
        ensures within { IfOk result (λ packet. length packet.items ≤ self.limit) }
    {
        let PacketWriter { mut bytes, .. } = self;
        if bytes.len() <= HEADER {
            return Err(bytes);
        }
        let sum = packet_sum(&bytes);
        put_sum(&mut bytes, sum);
        Ok(bytes)
    }
}

/// Reserves capacity for a chunk of `size` bytes. Before the first chunk that is all, and the header is written; after one it is capacity for
/// the whole packet, unless it is there.
pub(crate) fn begin(
    bytes: &mut Vec<u8>,
    size: usize,
    limit: u16,
    source: u16,
    destination: u16,
    tag: u32,
) -> Result<(), NoMemory>
    requires within { length (with_header (header_bytes source destination tag 0) bytes.old.items) + size ≤ limit }
    ensures begun { OnOk result (bytes.new.items ≡ with_header (header_bytes source destination tag 0) bytes.old.items) }
    ensures room { OnOk result (vec_len bytes.new + size ≤ vec_capacity bytes.new) }
    ensures whole { OnOk result (0 < length bytes.old.items → limit ≤ vec_capacity bytes.new) }
    ensures unchanged { OnErr result (bytes.new.items ≡ bytes.old.items) }
    ensures capacity { vec_capacity bytes.old ≤ vec_capacity bytes.new }
    ensures short { OnErr result (vec_capacity bytes.old < limit) }
{
    if !bytes.is_empty() {
        let rest = usize::from(limit) - bytes.len();
        return bytes.reserve_exact(rest).map_err(|_| NoMemory);
    }
    bytes.reserve_exact(HEADER + size).map_err(|_| NoMemory)?;
    let header = header(source, destination, tag);
    bytes.extend_from_slice(&header).map_err(|_| NoMemory)
}

/// Appends a chunk's bytes, for which there is capacity.
pub(crate) fn put(bytes: &mut Vec<u8>, chunk: &Chunk<'_>)
    requires fits { Fits (chunk_meaning chunk.now) }
    requires room { vec_len bytes.old + length (written (chunk_meaning chunk.now)) ≤ vec_capacity bytes.old }
    ensures put { bytes.new.items ≡ bytes.old.items ++ written (chunk_meaning chunk.now) }
    ensures capacity { vec_capacity bytes.old ≤ vec_capacity bytes.new }
{
    if write_chunk(chunk, bytes).is_err() {
        unreachable!()
    }
}

/// Writes the checksum into its field.
fn put_sum(packet: &mut [u8], sum: u32)
    requires { 12 ≤ length packet.old }
    ensures { packet.new ≡ take 8 packet.old ++ (little_bytes 4 sum ++ drop 12 packet.old) }
{
    LittleEndian::write_u32(&mut packet[SUM_AT..], sum);
}

/// The header, with zero for the checksum.
pub(crate) fn header(source: u16, destination: u16, tag: u32) -> [u8; 12]
    ensures { result ≡ header_bytes source destination tag 0 }
{
    let [a, b] = source.to_be_bytes();
    let [c, d] = destination.to_be_bytes();
    let [e, f, g, h] = tag.to_be_bytes();
    [a, b, c, d, e, f, g, h, 0, 0, 0, 0]
}
