//! Sixteen bytes at once.

ghost use Rattle.std.specs.Prelude.{◌≡◌, ℕ, ◌+◌, ◌<◌, ◌≤◌, bit_xor, length, slice_index};

use std::simd::u8x16;

/// The bytes that are taken at once.
pub(crate) const LANES: usize = 16;

/// The sixteen bytes at a position.
#[inline(always)]
pub(crate) fn lanes(bytes: &[u8], at: usize) -> u8x16
    requires { at + 16 ≤ length bytes.now }
    ensures { (k : ℕ) → k < 16 → slice_index result k ≡ slice_index bytes.now (at + k) }
{
    u8x16::from_slice(&bytes[at..])
}

/// Each byte of one added to that of the other without a carry.
#[inline(always)]
pub(crate) fn sum(first: u8x16, second: u8x16) -> u8x16
    ensures { (k : ℕ) → k < 16 → slice_index result k ≡ bit_xor (slice_index first k) (slice_index second k) }
{
    first ^ second
}

/// Writes sixteen bytes at a position.
#[inline(always)]
pub(crate) fn put_lanes(bytes: &mut [u8], at: usize, value: u8x16)
    requires { at + 16 ≤ length bytes.old }
    ensures length { length bytes.new ≡ length bytes.old }
    ensures here { (k : ℕ) → k < 16 → slice_index bytes.new (at + k) ≡ slice_index value k }
    ensures before { (j : ℕ) → j < at → slice_index bytes.new j ≡ slice_index bytes.old j }
    ensures behind { (j : ℕ) → at + 16 ≤ j → slice_index bytes.new j ≡ slice_index bytes.old j }
{
    value.copy_to_slice(&mut bytes[at..]);
}
