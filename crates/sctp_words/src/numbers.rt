//! Reads numbers of 16, 32 and 64 bits.

ghost use Rattle.std.specs.Prelude.{◌≡◌, ℕ, MatchOption};
ghost use Rattle.sctp_words.specs.Fields.{IsNumber};

use sctp_text::read_decimal;

/// Reads a word as a decimal number below 2^16. None if it isn't one.
pub fn read_u16(word: &[u8]) -> Option<u16>
    ensures { MatchOption result ((n : ℕ) → IsNumber 16 word.now n → ⊥) (λ n. IsNumber 16 word.now n) }
{
    u16::try_from(read_decimal(word)?).ok()
}

/// Reads a word as a decimal number below 2^32. None if it isn't one.
pub fn read_u32(word: &[u8]) -> Option<u32>
    ensures { MatchOption result ((n : ℕ) → IsNumber 32 word.now n → ⊥) (λ n. IsNumber 32 word.now n) }
{
    u32::try_from(read_decimal(word)?).ok()
}

/// Reads a word as a decimal number below 2^64. None if it isn't one.
pub fn read_u64(word: &[u8]) -> Option<u64>
    ensures { MatchOption result ((n : ℕ) → IsNumber 64 word.now n → ⊥) (λ n. IsNumber 64 word.now n) }
{
    read_decimal(word)
}
