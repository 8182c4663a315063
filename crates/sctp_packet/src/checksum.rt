//! CRC32c: a register takes sixteen bytes at a time, twice in each turn of the loop; a long run is folded first.

ghost use Rattle.std.specs.Prelude.{◌≡◌, ◌↔◌, ℕ, ◌+◌, ◌*◌, ◌%◌, ◌<◌, ◌≤◌, ◌++◌, IsTrue, drop, take, length, replicate, bit_xor};
ghost use Rattle.byteorder.specs.Endian.{little_number};
ghost use Rattle.sctp_packet.specs.Checksum.{bits, divisor, message_bits, crc32c, IsChecksum};
ghost use Rattle.sctp_packet.specs.PacketBytes.{IsChecked, without_sum};
ghost use Rattle.sctp_packet.specs.Register.{register_after};
ghost use Rattle.sctp_packet.specs.Tables.{steps, IsEntry};

use crate::folding::{BLOCK, FRONT, LEFT, MOST, ROOM, fold, leave};
use crate::tables::TABLES;
use byteorder::{ByteOrder, LittleEndian};

/// The bytes of a packet's common header (RFC 9260, 3.1).
pub const HEADER: usize = 12;
/// The offset of the checksum in it; it has 4 bytes.
pub(crate) const SUM_AT: usize = 8;
/// The bytes that the register takes at once, a table for each.
const PLACES: usize = 16;
/// The bytes that it takes in a turn of the loop.
const TURN: usize = 32;
/// The bytes that it takes at once if fewer than `PLACES` are left.
const HALF: usize = 8;
/// The shortest run that is folded: for a shorter one folding costs more than it saves.
const LONG: usize = 384;

/// The CRC32c of the bytes: the number in the checksum field of a packet, low byte first, if these are the packet's bytes with that field
/// zero (RFC 9260, 6.8 and appendix A).
pub fn crc32c(bytes: &[u8]) -> u32
    ensures checksum { IsChecksum bytes.now result }
    ensures only { (sum : ℕ) → IsChecksum bytes.now sum → sum ≡ result }
    ensures exact { result ≡ crc32c bytes.now }
{
    !after_all(u32::MAX, bytes)
}

/// The checksum of a packet: that of its bytes with zeros in the checksum field, whatever the field contains (RFC 9260, 6.8).
pub(crate) fn packet_sum(bytes: &[u8]) -> u32
    requires { 12 ≤ length bytes.now }
    ensures { result ≡ crc32c (without_sum bytes.now) }
{
    let (header, chunks) = bytes.split_at(HEADER);
    !after_all(after_header(header), chunks)
}

/// Whether the checksum field of a packet is its checksum.
pub(crate) fn is_checked(bytes: &[u8]) -> bool
    requires { 12 ≤ length bytes.now }
    ensures { IsTrue result ↔ IsChecked bytes.now }
{
    LittleEndian::read_u32(&bytes[SUM_AT..]) == packet_sum(bytes)
}

/// The register after a common header with zeros in its checksum field.
fn after_header(bytes: &[u8]) -> u32
    requires { 8 ≤ length bytes.now }
    ensures { bits 32 result ≡ register_after (drop 1 divisor) (bits 32 4294967295) (message_bits (take 8 bytes.now ++ replicate 4 0)) }
{
    left_by_eight(u32::MAX, bytes, HEADER - SUM_AT)
}

/// The register after the bytes.
#[inline(always)]
fn after_all(register: u32, bytes: &[u8]) -> u32
    ensures { bits 32 result ≡ register_after (drop 1 divisor) (bits 32 register) (message_bits bytes.now) }
{
    if bytes.len() < LONG {
        return after_short(register, bytes);
    }
    after_runs(register, bytes)
}

/// The register after the bytes, of which long runs are folded.
#[inline(never)]
fn after_runs(register: u32, bytes: &[u8]) -> u32
    ensures { bits 32 result ≡ register_after (drop 1 divisor) (bits 32 register) (message_bits bytes.now) }
{
    let mut stepped = register;
    let mut rest = bytes;
    while rest.len() >= LONG {
        let most = rest.len().min(MOST) / BLOCK * BLOCK;
        stepped = after_long(stepped, &rest[..most]);
        rest = &rest[most..];
    }
    after_short(stepped, rest)
}

/// The register after a long run of whole blocks: the same as 0 after what folding leaves of it.
fn after_long(register: u32, bytes: &[u8]) -> u32
    requires blocks { length bytes.now % 32 ≡ 0 }
    requires long { 352 ≤ length bytes.now }
    requires few { length bytes.now ≤ 1_536 }
    ensures { bits 32 result ≡ register_after (drop 1 divisor) (bits 32 register) (message_bits bytes.now) }
{
    let ends = bytes.len() - LEFT;
    let mut room = [0; ROOM];
    fold(register, bytes, ends, &mut room);
    leave(bytes, ends, &mut room);
    after_short(0, &room[FRONT + ends..FRONT + ends + LEFT])
}

/// The register after the bytes, 32 at a time as long as there are that many.
#[inline(always)]
fn after_short(register: u32, bytes: &[u8]) -> u32
    ensures { bits 32 result ≡ register_after (drop 1 divisor) (bits 32 register) (message_bits bytes.now) }
{
    let mut stepped = register;
    let mut rest = bytes;
    while rest.len() >= TURN {
        let half = after_sixteen(stepped, rest);
        stepped = after_sixteen(half, &rest[PLACES..]);
        rest = &rest[TURN..];
    }
    after_few(stepped, rest)
}

/// The register after fewer than 32 bytes: the first sixteen are taken at once, if there are that many.
#[inline(always)]
fn after_few(register: u32, bytes: &[u8]) -> u32
    ensures { bits 32 result ≡ register_after (drop 1 divisor) (bits 32 register) (message_bits bytes.now) }
{
    if bytes.len() < PLACES {
        return after_last(register, bytes);
    }
    after_last(after_sixteen(register, bytes), &bytes[PLACES..])
}

/// The register after fewer than sixteen bytes: mostly there are none.
#[inline(always)]
fn after_last(register: u32, bytes: &[u8]) -> u32
    ensures { bits 32 result ≡ register_after (drop 1 divisor) (bits 32 register) (message_bits bytes.now) }
{
    if bytes.is_empty() {
        return register;
    }
    after_end(register, bytes)
}

/// The register after 1 to 15 bytes: the first eight are taken at once, if there are that many.
#[inline(never)]
fn after_end(register: u32, bytes: &[u8]) -> u32
    ensures { bits 32 result ≡ register_after (drop 1 divisor) (bits 32 register) (message_bits bytes.now) }
{
    if bytes.len() < HALF {
        return after_rest(register, bytes);
    }
    after_rest(after_eight(register, bytes), &bytes[HALF..])
}

/// The register after the bytes, one at a time.
fn after_rest(register: u32, bytes: &[u8]) -> u32
    ensures { bits 32 result ≡ register_after (drop 1 divisor) (bits 32 register) (message_bits bytes.now) }
{
    let mut stepped = register;
    for byte in bytes {
        stepped = after_byte(stepped, *byte);
    }
    stepped
}

/// The register after a byte, its lowest bit first.
fn after_byte(register: u32, byte: u8) -> u32
    ensures { bits 32 result ≡ register_after (drop 1 divisor) (bits 32 register) (bits 8 byte) }
{
    let mixed = register ^ u32::from(byte);
    (mixed >> 8) ^ entry(0, mixed % 256)
}

/// The register after the first sixteen bytes.
#[inline(always)]
fn after_sixteen(register: u32, bytes: &[u8]) -> u32
    requires { 16 ≤ length bytes.now }
    ensures { bits 32 result ≡ register_after (drop 1 divisor) (bits 32 register) (message_bits (take 16 bytes.now)) }
{
    left_by_eight(register, bytes, HALF) ^ left_alone(&bytes[HALF..])
}

/// The register after the first eight bytes.
#[inline(always)]
fn after_eight(register: u32, bytes: &[u8]) -> u32
    requires { 8 ≤ length bytes.now }
    ensures { bits 32 result ≡ register_after (drop 1 divisor) (bits 32 register) (message_bits (take 8 bytes.now)) }
{
    left_by_eight(register, bytes, 0)
}

/// The register after the first eight bytes and `follow` zero bytes: the sum of what each byte leaves, with the register added to the first
/// four.
#[inline(always)]
fn left_by_eight(register: u32, bytes: &[u8], follow: usize) -> u32
    requires bytes { 8 ≤ length bytes.now }
    requires follow { follow ≤ 8 }
    ensures { result ≡ steps (8 * follow + 64) (bit_xor register (little_number 8 bytes.now)) }
{
    let mixed = register ^ LittleEndian::read_u32(bytes);
    entry(follow, u32::from(bytes[7]))
        ^ entry(follow + 1, u32::from(bytes[6]))
        ^ entry(follow + 2, u32::from(bytes[5]))
        ^ entry(follow + 3, u32::from(bytes[4]))
        ^ entry(follow + 4, mixed >> 24)
        ^ entry(follow + 5, (mixed >> 16) % 256)
        ^ entry(follow + 6, (mixed >> 8) % 256)
        ^ entry(follow + 7, mixed % 256)
}

/// The register after the first eight bytes, from 0.
#[inline(always)]
fn left_alone(bytes: &[u8]) -> u32
    requires { 8 ≤ length bytes.now }
    ensures { result ≡ steps 64 (little_number 8 bytes.now) }
{
    entry(0, u32::from(bytes[7]))
        ^ entry(1, u32::from(bytes[6]))
        ^ entry(2, u32::from(bytes[5]))
        ^ entry(3, u32::from(bytes[4]))
        ^ entry(4, u32::from(bytes[3]))
        ^ entry(5, u32::from(bytes[2]))
        ^ entry(6, u32::from(bytes[1]))
        ^ entry(7, u32::from(bytes[0]))
}

/// The number in the tables for a byte that `place` bytes follow.
#[inline(always)]
fn entry(place: usize, byte: u32) -> u32
    requires place { place < 16 }
    requires byte { byte < 256 }
    ensures steps { result ≡ steps (8 * place + 8) byte }
    ensures remainder { IsEntry place byte result }
{
    TABLES[place][byte as usize]
}
