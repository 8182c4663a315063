//! Numbers as bytes in network byte order.

ghost use Rattle.std.specs.Prelude.{◌≡◌, ◌+◌, ◌≤◌, ◌++◌, length, vec_len, vec_capacity};
ghost use Rattle.sctp_model.specs.numbers.Numbers.{u16_bytes, u32_bytes, u16_at, u32_at};

use byteorder::{BigEndian, ByteOrder};

/// The number in the first two bytes.
#[tactic(auto, unfolding(sctp_model::specs::numbers::Numbers::u16_at))]
pub(crate) fn read_u16(bytes: &[u8]) -> u16
    requires { 2 ≤ length bytes.now }
    ensures { result ≡ u16_at bytes.now }
{
    BigEndian::read_u16(bytes)
}

/// The number in the first four bytes.
#[tactic(auto, unfolding(sctp_model::specs::numbers::Numbers::u32_at))]
pub(crate) fn read_u32(bytes: &[u8]) -> u32
    requires { 4 ≤ length bytes.now }
    ensures { result ≡ u32_at bytes.now }
{
    BigEndian::read_u32(bytes)
}

/// A number as two bytes.
#[tactic(auto, unfolding(sctp_model::specs::numbers::Numbers::u16_bytes))]
pub(crate) fn u16_bytes(number: u16) -> [u8; 2]
    ensures { result ≡ u16_bytes number }
{
    number.to_be_bytes()
}

/// A number as four bytes.
#[tactic(auto, unfolding(sctp_model::specs::numbers::Numbers::u32_bytes))]
pub(crate) fn u32_bytes(number: u32) -> [u8; 4]
    ensures { result ≡ u32_bytes number }
{
    number.to_be_bytes()
}

/// Appends bytes, for which there is capacity.
pub(crate) fn append(out: &mut Vec<u8>, bytes: &[u8])
    requires { vec_len out.old + length bytes.now ≤ vec_capacity out.old }
    ensures items { out.new.items ≡ out.old.items ++ bytes.now }
    ensures len { vec_len out.new ≡ vec_len out.old + length bytes.now }
    ensures room { vec_capacity out.old ≤ vec_capacity out.new }
{
    if out.extend_from_slice(bytes).is_err() {
        unreachable!()
    }
}
