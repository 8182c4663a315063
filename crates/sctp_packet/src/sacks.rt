//! A SACK without lists, put into a packet without a chunk around it (RFC 9260, 3.3.4).

ghost use Rattle.std.specs.Prelude.{◌≡◌, ◌+◌, ◌<◌, ◌≤◌, ◌++◌, true, length, vec_len, vec_capacity, IfOk, OnOk, OnErr};
ghost use Rattle.sctp_wire.specs.Writes.{written};
ghost use Rattle.sctp_packet.specs.PacketBytes.{header_bytes};
ghost use Rattle.sctp_packet.specs.Draft.{has_room, after_try, with_header};
ghost use Rattle.sctp_packet.specs.PlainSack.{plain_sack};

use crate::checksum::HEADER;
use crate::writer::{PacketWriter, begin};
use sctp_values::NoMemory;
use sctp_wire::codes::{SACK, SACK_HEADER};
use sctp_wire::{chunks_are_read, written_each_reads};

impl PacketWriter {
    /// Appends a SACK with this cumulative TSN and this space, and without gap ack blocks and duplicates, as [`PacketWriter::try_chunk`] does: false if and
    /// only if the packet with it would exceed its limit; nothing is appended then.
    ///
    /// # Errors
    /// `NoMemory` if the chunk fits and allocation fails; nothing is appended then. Only the first and the second chunk allocate.
    #[inline(always)]
    pub fn try_sack(&mut self, cumulative: u32, rwnd: u32) -> Result<bool, NoMemory>
        ensures answer { IfOk result (λ put. put ≡ has_room self.old (plain_sack cumulative rwnd)) }
        ensures after { IfOk result (λ put. self.new ≡ after_try self.old (plain_sack cumulative rwnd) put) }
        ensures unchanged { OnErr result (self.new ≡ self.old) }
        ensures refused { OnErr result (has_room self.old (plain_sack cumulative rwnd) ≡ true) }
        ensures early { OnErr result (length self.old.chunks ≤ 1) }
    {
        if SACK_HEADER > self.room() {
            return Ok(false);
        }
        // By these laws the bytes with this chunk read as the chunks with it.
        written_each_reads();
        chunks_are_read();
        let PacketWriter {
            limit,
            source,
            destination,
            tag,
            ..
        } = *self;
        let bytes = &mut self.bytes;
        put_sack(bytes, limit, source, destination, tag, cumulative, rwnd)?;
        Ok(true)
    }
}

/// Appends the bytes of the SACK, behind a header if there is none. A packet that has none yet and memory for both gets them at once.
#[inline(always)]
fn put_sack(
    bytes: &mut Vec<u8>,
    limit: u16,
    source: u16,
    destination: u16,
    tag: u32,
    cumulative: u32,
    rwnd: u32,
) -> Result<(), NoMemory>
    requires within { length (with_header (header_bytes source destination tag 0) bytes.old.items) + 16 ≤ limit }
    ensures put { OnOk result (bytes.new.items ≡ with_header (header_bytes source destination tag 0) bytes.old.items ++ written (plain_sack cumulative rwnd)) }
    ensures whole { OnOk result (0 < length bytes.old.items → limit ≤ vec_capacity bytes.new) }
    ensures unchanged { OnErr result (bytes.new.items ≡ bytes.old.items) }
    ensures capacity { vec_capacity bytes.old ≤ vec_capacity bytes.new }
    ensures short { OnErr result (vec_capacity bytes.old < limit) }
{
    if bytes.is_empty() && bytes.capacity() >= HEADER + SACK_HEADER {
        let alone = sack_alone(source, destination, tag, cumulative, rwnd);
        put_there(bytes, &alone);
        return Ok(());
    }
    begin(bytes, SACK_HEADER, limit, source, destination, tag)?;
    put_there(bytes, &sack_bytes(cumulative, rwnd));
    Ok(())
}

/// Appends bytes for which there is capacity.
#[inline(always)]
fn put_there(bytes: &mut Vec<u8>, more: &[u8])
    requires { vec_len bytes.old + length more.now ≤ vec_capacity bytes.old }
    ensures put { bytes.new.items ≡ bytes.old.items ++ more.now }
    ensures capacity { vec_capacity bytes.old ≤ vec_capacity bytes.new }
{
    if bytes.extend_from_slice(more).is_err() {
        unreachable!()
    }
}

/// The bytes of the SACK.
#[inline(always)]
#[tactic(auto, unfolding(sctp_model::specs::numbers::Numbers::u16_bytes, sctp_model::specs::numbers::Numbers::u32_bytes))]
fn sack_bytes(cumulative: u32, rwnd: u32) -> [u8; 16]
    ensures { result ≡ written (plain_sack cumulative rwnd) }
{
    let [a, b, c, d] = cumulative.to_be_bytes();
    let [e, f, g, h] = rwnd.to_be_bytes();
    [SACK, 0, 0, 16, a, b, c, d, e, f, g, h, 0, 0, 0, 0]
}

/// The bytes of a packet with the SACK alone, its checksum zero.
#[inline(always)]
#[tactic(auto, unfolding(sctp_model::specs::numbers::Numbers::u16_bytes, sctp_model::specs::numbers::Numbers::u32_bytes))]
fn sack_alone(source: u16, destination: u16, tag: u32, cumulative: u32, rwnd: u32) -> [u8; 28]
    ensures { result ≡ header_bytes source destination tag 0 ++ written (plain_sack cumulative rwnd) }
{
    let [a, b] = source.to_be_bytes();
    let [c, d] = destination.to_be_bytes();
    let [e, f, g, h] = tag.to_be_bytes();
    let [i, j, k, l] = cumulative.to_be_bytes();
    let [m, n, o, p] = rwnd.to_be_bytes();
    [
        a, b, c, d, e, f, g, h, 0, 0, 0, 0, SACK, 0, 0, 16, i, j, k, l, m, n, o, p, 0, 0, 0, 0,
    ]
}
