//! Writes lines: words with one space between them, and a line feed.

ghost use Rattle.std.specs.Prelude.{◌≡◌, ℕ, List, [], ◌∷◌, ◌++◌, map, decimal, OnOk, OnErr};
ghost use Rattle.sctp_text.specs.SpacedWords.{each_behind_space, line_of};
ghost use Rattle.sctp_text.specs.WrittenWords.{text_of};

use crate::decimal::put_decimal;
use crate::hexadecimal::put_hex;
use crate::limits::{LINE_FEED, SPACE};
use std::alloc::AllocError;

/// A word of a line that is written.
#[derive(Clone, Copy, Debug)]
pub enum Word<'a> {
    /// These bytes, unchanged.
    Text(&'a [u8]),
    /// A number in decimal.
    Number(u64),
    /// Bytes in hexadecimal, `-` if there are none.
    Hex(&'a [u8]),
}

/// Appends a line: its first word, further words, then numbers.
///
/// # Errors
/// `AllocError` if `out` can't grow; it is unchanged then.
pub fn put_line(
    first: &[u8],
    words: &[Word<'_>],
    numbers: &[u64],
    out: &mut Vec<u8>,
) -> Result<(), AllocError>
    ensures put { OnOk result (out.new.items ≡ out.old.items
        ++ line_of (first.now ∷ (map text_of words.now ++ map decimal numbers.now))) }
    ensures refused { OnErr result (out.new.items ≡ out.old.items) }
{
    let before = out.len();
    let put = append_line(first, words, numbers, out);
    if put.is_err() {
        out.truncate(before);
    }
    put
}

/// Appends a line; a prefix of it if an allocation fails.
fn append_line(
    first: &[u8],
    words: &[Word<'_>],
    numbers: &[u64],
    out: &mut Vec<u8>,
) -> Result<(), AllocError>
    ensures put { OnOk result (out.new.items ≡ out.old.items
        ++ line_of (first.now ∷ (map text_of words.now ++ map decimal numbers.now))) }
    ensures part { (part : List ℕ) × (out.new.items ≡ out.old.items ++ part) }
{
    append(first, out)?;
    append_words(words, out)?;
    append_numbers(numbers, out)?;
    append(&[LINE_FEED], out)
}

/// Appends each word after a space; a prefix of this if an allocation fails.
fn append_words(words: &[Word<'_>], out: &mut Vec<u8>) -> Result<(), AllocError>
    ensures put { OnOk result (out.new.items ≡ out.old.items ++ each_behind_space (map text_of words.now)) }
    ensures part { (part : List ℕ) × (out.new.items ≡ out.old.items ++ part) }
{
    for word in words {
        append(&[SPACE], out)?;
        append_word(word, out)?;
    }
    Ok(())
}

/// Appends each number after a space; a prefix of this if an allocation fails.
fn append_numbers(numbers: &[u64], out: &mut Vec<u8>) -> Result<(), AllocError>
    ensures put { OnOk result (out.new.items ≡ out.old.items ++ each_behind_space (map decimal numbers.now)) }
    ensures part { (part : List ℕ) × (out.new.items ≡ out.old.items ++ part) }
{
    for number in numbers {
        append(&[SPACE], out)?;
        put_decimal(*number, out)?;
    }
    Ok(())
}

/// Appends a word; nothing if an allocation fails.
fn append_word(word: &Word<'_>, out: &mut Vec<u8>) -> Result<(), AllocError>
    ensures put { OnOk result (out.new.items ≡ out.old.items ++ text_of word.now) }
    ensures refused { OnErr result (out.new.items ≡ out.old.items) }
{
    match word {
        Word::Text(text) => append(text, out),
        Word::Number(number) => put_decimal(*number, out),
        Word::Hex(bytes) => put_hex(bytes, out),
    }
}

/// Appends bytes; nothing if an allocation fails.
fn append(bytes: &[u8], out: &mut Vec<u8>) -> Result<(), AllocError>
    ensures put { OnOk result (out.new.items ≡ out.old.items ++ bytes.now) }
    ensures refused { OnErr result (out.new.items ≡ out.old.items) }
{
    out.extend_from_slice(bytes)
}
