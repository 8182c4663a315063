//! Numbers as bytes in network byte order (RFC 9260, 3).

ghost use Rattle.std.specs.Prelude.{◌≡◌, ◌+◌, ◌*◌, ◌<◌, ◌≤◌, ◌++◌, length, map, replicate, vec_len, vec_capacity};
ghost use Rattle.sctp_model.specs.numbers.Lists.{joined};
ghost use Rattle.sctp_model.specs.numbers.Numbers.{u16_bytes, u32_bytes, u16_at, u32_at};

use byteorder::{BigEndian, ByteOrder};

/// The number in the first two bytes.
#[tactic(auto, unfolding(sctp_model::specs::numbers::Numbers::u16_at))]
pub(crate) fn read_u16(bytes: &[u8]) -> u16
    requires { 2 ≤ length bytes.now }
    ensures { result ≡ u16_at bytes.now }
{
    BigEndian::read_u16(bytes)
}

/// The number in the first four bytes.
#[tactic(auto, unfolding(sctp_model::specs::numbers::Numbers::u32_at))]
pub(crate) fn read_u32(bytes: &[u8]) -> u32
    requires { 4 ≤ length bytes.now }
    ensures { result ≡ u32_at bytes.now }
{
    BigEndian::read_u32(bytes)
}

/// Appends bytes, for which there is capacity.
pub(crate) fn append(out: &mut Vec<u8>, bytes: &[u8])
    requires { vec_len out.old + length bytes.now ≤ vec_capacity out.old }
    ensures items { out.new.items ≡ out.old.items ++ bytes.now }
    ensures len { vec_len out.new ≡ vec_len out.old + length bytes.now }
    ensures room { vec_capacity out.old ≤ vec_capacity out.new }
{
    if out.extend_from_slice(bytes).is_err() {
        unreachable!()
    }
}

/// Appends at most three zeros, for which there is capacity.
pub(crate) fn append_zeros(out: &mut Vec<u8>, count: usize)
    requires few { count < 4 }
    requires spare { vec_len out.old + count ≤ vec_capacity out.old }
    ensures items { out.new.items ≡ out.old.items ++ replicate count 0 }
    ensures len { vec_len out.new ≡ vec_len out.old + count }
    ensures room { vec_capacity out.old ≤ vec_capacity out.new }
{
    if count > 0 {
        append(out, &[0, 0, 0][..count]);
    }
}

/// Appends a 16-bit number, for which there is capacity.
#[tactic(auto, unfolding(sctp_model::specs::numbers::Numbers::u16_bytes))]
pub(crate) fn append_u16(out: &mut Vec<u8>, number: u16)
    requires { vec_len out.old + 2 ≤ vec_capacity out.old }
    ensures items { out.new.items ≡ out.old.items ++ u16_bytes number }
    ensures len { vec_len out.new ≡ vec_len out.old + 2 }
    ensures room { vec_capacity out.old ≤ vec_capacity out.new }
{
    let mut bytes = [0; 2];
    BigEndian::write_u16(&mut bytes, number);
    append(out, &bytes);
}

/// Appends a 32-bit number, for which there is capacity.
#[tactic(auto, unfolding(sctp_model::specs::numbers::Numbers::u32_bytes))]
pub(crate) fn append_u32(out: &mut Vec<u8>, number: u32)
    requires { vec_len out.old + 4 ≤ vec_capacity out.old }
    ensures items { out.new.items ≡ out.old.items ++ u32_bytes number }
    ensures len { vec_len out.new ≡ vec_len out.old + 4 }
    ensures room { vec_capacity out.old ≤ vec_capacity out.new }
{
    let mut bytes = [0; 4];
    BigEndian::write_u32(&mut bytes, number);
    append(out, &bytes);
}

/// Appends 16-bit numbers one after another, for which there is capacity.
pub(crate) fn append_u16s(out: &mut Vec<u8>, numbers: &[u16])
    requires { vec_len out.old + 2 * length numbers.now ≤ vec_capacity out.old }
    ensures items { out.new.items ≡ out.old.items ++ joined (map u16_bytes numbers.now) }
    ensures len { vec_len out.new ≡ vec_len out.old + 2 * length numbers.now }
    ensures room { vec_capacity out.old ≤ vec_capacity out.new }
{
    for number in numbers {
        append_u16(out, *number);
    }
}
