//! Numbers in decimal, without sign and without leading zeros.

ghost use Rattle.std.specs.Prelude.{◌≡◌, ◌<◌, ◌^◌, ◌⊎◌, ◌↔◌, ℕ, ◌++◌, length, slice_index, IsTrue, MatchOption, OnOk, OnErr, decimal};
ghost use Rattle.sctp_text.specs.Numerals.{IsDecimal};

use itoa::Buffer;
use std::alloc::AllocError;

/// Appends a number in decimal.
///
/// # Errors
/// `AllocError` if `out` can't grow; it is unchanged then.
pub fn put_decimal(number: u64, out: &mut Vec<u8>) -> Result<(), AllocError>
    ensures put { OnOk result (out.new.items ≡ out.old.items ++ decimal number) }
    ensures refused { OnErr result (out.new.items ≡ out.old.items) }
{
    let mut buffer = Buffer::new();
    let text = buffer.format(number);
    out.extend_from_slice(text.as_bytes())
}

/// Reads a word as a decimal number, 0 to 2^64 - 1. None if the word is no such number.
pub fn read_decimal(word: &[u8]) -> Option<u64>
    ensures { MatchOption result ((n : ℕ) → n < 2 ^ 64 → IsDecimal word.now n → ⊥) (λ n. IsDecimal word.now n) }
{
    if begins_as_no_number(word) {
        return None;
    }
    let text = str::from_utf8(word).ok()?;
    text.parse().ok()
}

/// Whether the word begins in a way that std's parser accepts and this format doesn't: with a sign, or with a zero before other digits.
fn begins_as_no_number(word: &[u8]) -> bool
    ensures { IsTrue result ↔ ((slice_index word.now 0 ≡ 43) ⊎ ((slice_index word.now 0 ≡ 48) × (1 < length word.now))) }
{
    match word.first() {
        Some(b'+') => true,
        Some(b'0') => word.len() > 1,
        _ => false,
    }
}
