//! A packet that has its whole memory: nothing is refused any more.

ghost use Rattle.std.specs.Prelude.{◌≡◌, ◌+◌, ◌<◌, ◌≤◌, ◌^◌, ◌∷◌, ◌++◌, [], true, max, length, vec_len, vec_capacity, IfOk, OnOk, OnErr};
ghost use Rattle.sctp_wire.specs.ChunkTree.{piece_meaning, chunk_meaning};
ghost use Rattle.sctp_wire.specs.Layouts.{Fits};
ghost use Rattle.sctp_wire.specs.Writes.{written};
ghost use Rattle.sctp_packet.specs.PacketBytes.{header_bytes};
ghost use Rattle.sctp_packet.specs.Draft.{has_room, piece_chunk, with_chunks, with_header, with_space};

use crate::checksum::HEADER;
use crate::writer::{PacketWriter, header, put};
use sctp_values::NoMemory;
use sctp_wire::{Chunk, Piece, chunks_are_read, write_data, write_i_data, written_each_reads};

impl PacketWriter {
    /// Takes memory for all that the packet may have: [`PacketWriter::put`] is allowed then, which allocates nothing. Returns whether that was so before.
    ///
    /// # Errors
    /// `NoMemory` if allocation fails; the packet is then as before. Only a packet with at most one chunk allocates.
    #[inline(always)]
    pub fn reserve(&mut self) -> Result<bool, NoMemory>
        ensures before { IfOk result (λ before. before ≡ self.old.space) }
        ensures reserved { OnOk result (self.new ≡ with_space self.old true) }
        ensures unchanged { OnErr result (self.new ≡ self.old) }
        ensures early { OnErr result (length self.old.chunks ≤ 1) }
    {
        let (source, destination, tag) = (self.source, self.destination, self.tag);
        reserve_all(&mut self.bytes, self.limit, source, destination, tag)?;
        let before = self.is_reserved;
        self.is_reserved = true;
        Ok(before)
    }

    /// Ends what [`PacketWriter::reserve`] began, with its answer: the packet's memory counts as reserved if it did before.
    #[inline(always)]
    pub fn restore(&mut self, before: bool)
        requires { self.old.space ≡ true }
        ensures { self.new ≡ with_space self.old before }
    {
        self.is_reserved = before;
    }

    /// Appends a chunk to a packet whose memory is reserved. It must be one that can be written (`Chunk::fits`) and for which, padded, there is space
    /// (`PacketWriter::room`).
    #[inline(always)]
    pub fn put(&mut self, chunk: &Chunk<'_>)
        requires reserved { self.old.space ≡ true }
        requires fits { Fits (chunk_meaning chunk.now) }
        requires room { has_room self.old (chunk_meaning chunk.now) ≡ true }
        ensures { self.new ≡ with_chunks self.old (chunk_meaning chunk.now ∷ []) }
    {
        // By these laws the bytes with this chunk read as the chunks with it.
        written_each_reads();
        chunks_are_read();
        put(&mut self.bytes, chunk);
    }

    /// Appends a chunk with these fields, an I-DATA if `interleaved`, else a DATA, to a packet whose memory is reserved, as [`PacketWriter::put`] does.
    #[inline(always)]
    pub fn put_piece(&mut self, piece: &Piece<'_>, interleaved: bool)
        requires reserved { self.old.space ≡ true }
        requires fits { Fits (piece_chunk interleaved (piece_meaning piece.now)) }
        requires room { has_room self.old (piece_chunk interleaved (piece_meaning piece.now)) ≡ true }
        ensures { self.new ≡ with_chunks self.old (piece_chunk interleaved (piece_meaning piece.now) ∷ []) }
    {
        // By these laws the bytes with this chunk read as the chunks with it.
        written_each_reads();
        chunks_are_read();
        put_piece(&mut self.bytes, piece, interleaved);
    }
}

/// Appends the bytes of an I-DATA or a DATA, for which there is capacity.
#[inline(always)]
fn put_piece(bytes: &mut Vec<u8>, piece: &Piece<'_>, interleaved: bool)
    requires fits { Fits (piece_chunk interleaved (piece_meaning piece.now)) }
    requires room { vec_len bytes.old + length (written (piece_chunk interleaved (piece_meaning piece.now))) ≤ vec_capacity bytes.old }
    ensures put { bytes.new.items ≡ bytes.old.items ++ written (piece_chunk interleaved (piece_meaning piece.now)) }
    ensures capacity { vec_capacity bytes.old ≤ vec_capacity bytes.new }
{
    let put = if interleaved {
        write_i_data(bytes, piece)
    } else {
        write_data(bytes, piece)
    };
    if put.is_err() {
        unreachable!()
    }
}

/// Reserves capacity for a packet of the limit, header included, and writes the header if it isn't there.
#[inline(always)]
fn reserve_all(
    bytes: &mut Vec<u8>,
    limit: u16,
    source: u16,
    destination: u16,
    tag: u32,
) -> Result<(), NoMemory>
    ensures begun { OnOk result (bytes.new.items ≡ with_header (header_bytes source destination tag 0) bytes.old.items) }
    ensures room { OnOk result (limit ≤ vec_capacity bytes.new) }
    ensures unchanged { OnErr result (bytes.new.items ≡ bytes.old.items) }
    ensures capacity { vec_capacity bytes.old ≤ vec_capacity bytes.new }
    ensures short { OnErr result (vec_capacity bytes.old < max limit 12) }
{
    let size = usize::from(limit).max(HEADER);
    bytes
        .reserve_exact(size.saturating_sub(bytes.len()))
        .map_err(|_| NoMemory)?;
    if bytes.is_empty() {
        let header = header(source, destination, tag);
        bytes.extend_from_slice(&header).map_err(|_| NoMemory)?;
    }
    Ok(())
}
