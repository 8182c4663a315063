//! Numbers as bytes in network byte order (RFC 9260, 3), and padded lengths.

ghost use Rattle.std.specs.Prelude.{◌≡◌, ◌+◌, ◌<◌, ◌≤◌, ◌^◌, ◌++◌, IsOk, OnOk, OnErr, length, replicate, vec_len, vec_capacity};
ghost use Rattle.sctp_model.specs.wire.Chunk.{padded, padding_after};
ghost use Rattle.sctp_model.specs.numbers.Numbers.{u16_bytes, u32_bytes, u16_at, u32_at};

use byteorder::{BigEndian, ByteOrder};
use sctp_values::NoMemory;

/// The number in the first two bytes.
#[tactic(auto, unfolding(sctp_model::specs::numbers::Numbers::u16_at))]
pub(crate) fn read_u16(bytes: &[u8]) -> u16
    requires { 2 ≤ length bytes.now }
    ensures { result ≡ u16_at bytes.now }
{
    BigEndian::read_u16(bytes)
}

/// The number in the first four bytes.
#[tactic(auto, unfolding(sctp_model::specs::numbers::Numbers::u32_at))]
pub(crate) fn read_u32(bytes: &[u8]) -> u32
    requires { 4 ≤ length bytes.now }
    ensures { result ≡ u32_at bytes.now }
{
    BigEndian::read_u32(bytes)
}

/// A length rounded up to a multiple of 4, as that of a chunk, a parameter or a cause with its padding (RFC 9260, 3.2).
pub fn padded(size: usize) -> usize
    requires { size + 3 < 2 ^ 64 }
    ensures { result ≡ padded size }
{
    (size + 3) / 4 * 4
}

/// Appends bytes, for which there is capacity.
pub(crate) fn append(out: &mut Vec<u8>, bytes: &[u8])
    requires { vec_len out.old + length bytes.now ≤ vec_capacity out.old }
    ensures items { out.new.items ≡ out.old.items ++ bytes.now }
    ensures len { vec_len out.new ≡ vec_len out.old + length bytes.now }
    ensures room { vec_capacity out.old ≤ vec_capacity out.new }
{
    if out.extend_from_slice(bytes).is_err() {
        unreachable!()
    }
}

/// Appends the bytes of a list, for which there is capacity. Most lists are empty: then nothing is called.
#[inline(always)]
pub(crate) fn append_list(out: &mut Vec<u8>, bytes: &[u8])
    requires { vec_len out.old + length bytes.now ≤ vec_capacity out.old }
    ensures items { out.new.items ≡ out.old.items ++ bytes.now }
    ensures len { vec_len out.new ≡ vec_len out.old + length bytes.now }
    ensures room { vec_capacity out.old ≤ vec_capacity out.new }
{
    if !bytes.is_empty() {
        append(out, bytes);
    }
}

/// Appends a head, the rest, and zeros up to a multiple of 4, with one check of the capacity.
///
/// # Errors
/// `NoMemory` if allocation fails; `out` is then unchanged.
#[inline(always)]
pub(crate) fn write_padded(out: &mut Vec<u8>, head: &[u8], rest: &[u8]) -> Result<(), NoMemory>
    requires { length head.now + length rest.now < 2 ^ 16 }
    ensures written { OnOk result (out.new.items ≡ out.old.items
        ++ (head.now ++ (rest.now ++ replicate (padding_after (length head.now + length rest.now)) 0))) }
    ensures refused { OnErr result (out.new.items ≡ out.old.items) }
    ensures memory { vec_len out.old + padded (length head.now + length rest.now) ≤ vec_capacity out.old
        → IsOk result }
    ensures capacity { vec_capacity out.old ≤ vec_capacity out.new }
{
    let size = head.len() + rest.len();
    let whole = padded(size);
    make_room(out, whole)?;
    append(out, head);
    append(out, rest);
    append_zeros(out, whole - size);
    Ok(())
}

/// Reserves capacity for `size` more bytes, if it isn't there.
///
/// # Errors
/// `NoMemory` if allocation fails.
#[inline(always)]
pub(crate) fn make_room(out: &mut Vec<u8>, size: usize) -> Result<(), NoMemory>
    ensures items { out.new.items ≡ out.old.items }
    ensures len { vec_len out.new ≡ vec_len out.old }
    ensures ok { OnOk result (vec_len out.new + size ≤ vec_capacity out.new) }
    ensures capacity { vec_capacity out.old ≤ vec_capacity out.new }
    ensures succeeds { vec_len out.old + size ≤ vec_capacity out.old → IsOk result }
{
    if size <= out.capacity() - out.len() {
        return Ok(());
    }
    out.reserve(size).map_err(|_| NoMemory)
}

/// Appends a 16-bit number, for which there is capacity.
#[tactic(auto, unfolding(sctp_model::specs::numbers::Numbers::u16_bytes))]
pub(crate) fn append_u16(out: &mut Vec<u8>, number: u16)
    requires { vec_len out.old + 2 ≤ vec_capacity out.old }
    ensures items { out.new.items ≡ out.old.items ++ u16_bytes number }
    ensures len { vec_len out.new ≡ vec_len out.old + 2 }
    ensures room { vec_capacity out.old ≤ vec_capacity out.new }
{
    let mut bytes = [0; 2];
    BigEndian::write_u16(&mut bytes, number);
    append(out, &bytes);
}

/// Appends a 32-bit number, for which there is capacity.
#[tactic(auto, unfolding(sctp_model::specs::numbers::Numbers::u32_bytes))]
pub(crate) fn append_u32(out: &mut Vec<u8>, number: u32)
    requires { vec_len out.old + 4 ≤ vec_capacity out.old }
    ensures items { out.new.items ≡ out.old.items ++ u32_bytes number }
    ensures len { vec_len out.new ≡ vec_len out.old + 4 }
    ensures room { vec_capacity out.old ≤ vec_capacity out.new }
{
    let mut bytes = [0; 4];
    BigEndian::write_u32(&mut bytes, number);
    append(out, &bytes);
}

/// Appends at most three zeros, for which there is capacity.
pub(crate) fn append_zeros(out: &mut Vec<u8>, count: usize)
    requires few { count < 4 }
    requires spare { vec_len out.old + count ≤ vec_capacity out.old }
    ensures items { out.new.items ≡ out.old.items ++ replicate count 0 }
    ensures len { vec_len out.new ≡ vec_len out.old + count }
    ensures room { vec_capacity out.old ≤ vec_capacity out.new }
{
    if count > 0 {
        append(out, &[0, 0, 0][..count]);
    }
}
