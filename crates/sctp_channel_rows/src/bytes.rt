//! Bytes read and shown.

use crate::words::{Words, unreadable};
use anyhow::Result;
use sctp_packet::crc32c;
use std::alloc::Global;
use std::fmt::Write;

/// The bytes shown of a message.
const START: usize = 16;

/// The next word: digits, two a byte; `-` for no byte; `+N` for N bytes that count up from 0 to 250, and from 0 again.
///
/// # Errors
/// It is none of these, or an allocation failed.
pub fn bytes_of(alloc: Global, words: &mut Words<'_>) -> Result<Vec<u8>> {
    let word = words.word()?;
    if word == "-" {
        return Ok(Vec::new(alloc));
    }
    match word.strip_prefix('+') {
        Some(count) => counting(alloc, count.parse().map_err(|_| unreadable())?),
        None => Ok(hex::decode(alloc, word)?),
    }
}

/// `count` bytes that count up.
fn counting(alloc: Global, count: usize) -> Result<Vec<u8>> {
    let mut bytes = Vec::new(alloc);
    let mut next = 0u8;
    for _ in 0..count {
        bytes.push(next)?;
        next = if next < 250 { next + 1 } else { 0 };
    }
    Ok(bytes)
}

/// All digits of at most 16 bytes, `-` of none; else those of the first 16, the number of bytes and their CRC32c.
pub fn show_bytes(alloc: Global, bytes: &[u8], out: &mut String) -> Result<()> {
    if bytes.is_empty() {
        return Ok(write!(out, " -")?);
    }
    match bytes.get(..START) {
        Some(start) if bytes.len() > START => {
            let sum = crc32c(bytes);
            write!(
                out,
                " {}..{}:{sum:08x}",
                hex::encode(alloc, start)?,
                bytes.len()
            )?;
        }
        _ => write!(out, " {}", hex::encode(alloc, bytes)?)?,
    }
    Ok(())
}
