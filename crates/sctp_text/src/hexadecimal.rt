//! Bytes in hexadecimal: two lower-case digits each, and `-` for no bytes.

ghost use Rattle.std.specs.Prelude.{◌≡◌, ◌%◌, ◌<◌, ◌↔◌, ℕ, List, ◌++◌, length, slice_index, IsTrue, IfOk, MatchOption, OnOk, OnErr};
ghost use Rattle.hex.specs.Hex.{encode_lower, lower_digits};
ghost use Rattle.std.specs.List.{list_all};
ghost use Rattle.sctp_text.specs.Numerals.{hex_word, is_lower_digit, IsHex};

use crate::bytes::Bytes;
use std::alloc::{AllocError, Global};

/// The sixteen digits, by their values.
const DIGITS: [u8; 16] = *b"0123456789abcdef";

/// Appends bytes in hexadecimal, `-` if there are none.
///
/// # Errors
/// `AllocError` if `out` can't grow; it is unchanged then.
pub fn put_hex(bytes: &[u8], out: &mut Vec<u8>) -> Result<(), AllocError>
    ensures put { OnOk result (out.new.items ≡ out.old.items ++ hex_word bytes.now) }
    ensures refused { OnErr result (out.new.items ≡ out.old.items) }
{
    if bytes.is_empty() {
        out.push(b'-')?;
        return Ok(());
    }
    let before = out.len();
    let put = append_digits(bytes, out);
    if put.is_err() {
        out.truncate(before);
    }
    put
}

/// Appends the digits of bytes; of a prefix of them if an allocation fails.
fn append_digits(bytes: &[u8], out: &mut Vec<u8>) -> Result<(), AllocError>
    ensures put { OnOk result (out.new.items ≡ out.old.items ++ encode_lower bytes.now) }
    ensures part { (part : List ℕ) × (out.new.items ≡ out.old.items ++ part) }
{
    for byte in bytes {
        let pair = [digit(*byte / 16), digit(*byte % 16)];
        out.extend_from_slice(&pair)?;
    }
    Ok(())
}

/// The digit of a value below 16.
fn digit(value: u8) -> u8
    requires { value < 16 }
    ensures { result ≡ slice_index lower_digits value }
{
    DIGITS[usize::from(value)]
}

/// Reads a word as bytes in hexadecimal: two lower-case digits for each byte, or `-` for no bytes. None if the word is neither.
///
/// # Errors
/// `AllocError` if no memory could be allocated for the bytes.
pub fn read_hex(alloc: Global, word: &[u8]) -> Result<Option<Bytes>, AllocError>
    ensures { IfOk result (λ found. MatchOption found
        ((bytes : List ℕ) → IsHex word.now bytes → ⊥) (λ bytes. IsHex word.now bytes)) }
{
    if word == b"-".as_slice() {
        return Ok(Some(Bytes::new(Vec::new(alloc))));
    }
    if !are_digit_pairs(word) {
        return Ok(None);
    }
    let bytes = hex::decode(alloc, word).map_err(|_| AllocError)?;
    Ok(Some(Bytes::new(bytes)))
}

/// Whether the word is one or more pairs of lower-case hexadecimal digits.
fn are_digit_pairs(word: &[u8]) -> bool
    ensures { IsTrue result ↔ ((0 < length word.now) × (length word.now % 2 ≡ 0) × IsTrue (list_all is_lower_digit word.now)) }
{
    !word.is_empty() && word.len() % 2 == 0 && are_lower_digits(word)
}

/// Whether each byte is a lower-case hexadecimal digit.
fn are_lower_digits(word: &[u8]) -> bool
    ensures { result ≡ list_all is_lower_digit word.now }
{
    word.iter()
        .all(|byte| matches!(*byte, b'0'..=b'9' | b'a'..=b'f'))
}
