//! Lengths as 32-bit numbers.

ghost use Rattle.std.specs.Prelude.{◌≡◌, ◌-◌, ◌^◌, min};

/// A number of bytes as a 32-bit number: 2^32 - 1 if there are more.
pub fn small_len(bytes: usize) -> u32
    ensures { result ≡ min bytes (2 ^ 32 - 1) }
{
    u32::try_from(bytes).unwrap_or(u32::MAX)
}
