//! A set of numbers as bits in words of 64, of which the next is found word by word.

ghost use Rattle.std.specs.Prelude.{◌≡◌, ◌/◌, ◌<◌, ◌≤◌, ℕ, length, if◌then◌else◌};
ghost use Rattle.std.specs.Int.{bit_at};
ghost use Rattle.sctp_recv.specs.inner.Bits.{word_at, bit_in, BitFrom, NextBit};

/// The first bit of a word that is set, from a position on.
pub(crate) fn bit_from(word: u64, from: u32) -> Option<u32>
    requires { from < 64 }
    ensures { BitFrom word from result }
{
    let left = word & (u64::MAX << from);
    if left == 0 {
        return None;
    }
    Some(left.trailing_zeros())
}

/// A word with a bit set or cleared.
fn with_bit(word: u64, place: u32, set: bool) -> u64
    requires { place < 64 }
    ensures here { bit_at result place ≡ (if set then 1 else 0) }
    ensures others { (j : ℕ) → j < 64 → (j ≡ place → ⊥) → bit_at result j ≡ bit_at word j }
{
    if set {
        word | (1 << place)
    } else {
        word & !(1 << place)
    }
}

/// Sets or clears the bit of a number.
pub(crate) fn put_bit(words: &mut Vec<u64>, number: usize, set: bool)
    requires { number / 64 < length words.old.items }
    ensures size { length words.new.items ≡ length words.old.items }
    ensures here { bit_in words.new.items number ≡ (if set then 1 else 0) }
    ensures others { (j : ℕ) → (j ≡ number → ⊥) → bit_in words.new.items j ≡ bit_in words.old.items j }
    ensures words { (k : ℕ) → (k ≡ number / 64 → ⊥) → word_at words.new.items k ≡ word_at words.old.items k }
{
    let at = number / 64;
    let place = (number % 64) as u32;
    words[at] = with_bit(words[at], place, set);
}

/// The first number from `from` on whose bit is set.
pub(crate) fn next_bit(words: &Vec<u64>, from: usize) -> Option<usize>
    requires { length words.now.items ≤ 1024 }
    ensures { NextBit words.now.items from result }
{
    let mut number = from;
    while number / 64 < words.len() {
        let at = number / 64;
        if let Some(place) = bit_from(words[at], (number % 64) as u32) {
            return Some(at * 64 + place as usize);
        }
        number = (at + 1) * 64;
    }
    None
}
