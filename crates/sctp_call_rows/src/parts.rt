//! Reads bytes, gap blocks and entries of a FORWARD in a call's words.

use anyhow::Result;
use sctp_wire::{GapBlock, Skip, SkipForm, put_block, put_skip};
use std::alloc::Global;

/// Digits, two a byte; `-` for no byte; `+N` for N bytes that count up from 0 to 250, and from 0 again.
pub fn bytes_of(alloc: Global, word: &str) -> Result<Option<Vec<u8>>> {
    if word == "-" {
        return Ok(Some(Vec::new(alloc)));
    }
    match word.strip_prefix('+') {
        Some(count) => match count.parse() {
            Ok(count) => Ok(Some(counting(alloc, count)?)),
            Err(_) => Ok(None),
        },
        None => Ok(hex::decode(alloc, word).ok()),
    }
}

/// `count` bytes that count up.
fn counting(alloc: Global, count: usize) -> Result<Vec<u8>> {
    let mut bytes = Vec::new(alloc);
    let mut next = 0u8;
    for _ in 0..count {
        bytes.push(next)?;
        next = if next < 250 { next + 1 } else { 0 };
    }
    Ok(bytes)
}

/// `count` bytes without a pattern: the high 8 bits of the numbers x, 1,664,525 x + 1,013,904,223, .. modulo 2^32, from x = 1.
pub fn mixed(alloc: Global, count: usize) -> Result<Vec<u8>> {
    let mut bytes = Vec::with_capacity(alloc, count)?;
    let mut x = 1u32;
    for _ in 0..count {
        let [_, _, _, high] = x.to_le_bytes();
        bytes.push(high)?;
        x = x.wrapping_mul(1_664_525).wrapping_add(1_013_904_223);
    }
    Ok(bytes)
}

/// The bytes of gap blocks `START-END START-END ..`, none if there are no words.
pub fn blocks_of(alloc: Global, words: Option<&str>) -> Result<Option<Vec<u8>>> {
    let mut list = Vec::new(alloc);
    let Some(words) = words else {
        return Ok(Some(list));
    };
    for word in words.split(' ') {
        match block_of(word) {
            Some(block) => put_block(block, &mut list)?,
            None => return Ok(None),
        }
    }
    Ok(Some(list))
}

/// A gap block `START-END`.
fn block_of(word: &str) -> Option<GapBlock> {
    let (start, end) = word.split_once('-')?;
    Some(GapBlock {
        start: start.parse().ok()?,
        end: end.parse().ok()?,
    })
}

/// The bytes of entries `STREAM-NUMBER` or `STREAM-NUMBER-u` .., none if there are no words.
pub fn skips_of(alloc: Global, form: SkipForm, words: Option<&str>) -> Result<Option<Vec<u8>>> {
    let mut list = Vec::new(alloc);
    let Some(words) = words else {
        return Ok(Some(list));
    };
    for word in words.split(' ') {
        let put = match form {
            SkipForm::Wide => put_wide(word, &mut list)?,
            SkipForm::Narrow => put_narrow(word, &mut list)?,
        };
        if !put {
            return Ok(None);
        }
    }
    Ok(Some(list))
}

/// Appends an entry of an I-FORWARD-TSN; false if the word isn't one.
fn put_wide(word: &str, list: &mut Vec<u8>) -> Result<bool> {
    let (word, unordered) = match word.strip_suffix("-u") {
        Some(word) => (word, true),
        None => (word, false),
    };
    let Some((stream, number)) = pair_of(word) else {
        return Ok(false);
    };
    let skip = Skip {
        stream,
        unordered,
        number,
    };
    put_skip(SkipForm::Wide, skip, list)?;
    Ok(true)
}

/// Appends an entry of a FORWARD-TSN; false if the word isn't one.
fn put_narrow(word: &str, list: &mut Vec<u8>) -> Result<bool> {
    let Some((stream, number)) = pair_of(word) else {
        return Ok(false);
    };
    let Ok(number) = u16::try_from(number) else {
        return Ok(false);
    };
    let skip = Skip {
        stream,
        unordered: false,
        number: u32::from(number),
    };
    put_skip(SkipForm::Narrow, skip, list)?;
    Ok(true)
}

/// A stream and a number, `STREAM-NUMBER`.
fn pair_of(word: &str) -> Option<(u16, u32)> {
    let (stream, number) = word.split_once('-')?;
    Some((stream.parse().ok()?, number.parse().ok()?))
}
