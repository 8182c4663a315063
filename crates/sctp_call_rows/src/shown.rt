//! How the transcript shows bytes.

use anyhow::Result;
use sctp_packet::{HEADER, read_packet};
use sctp_recv::SackLists;
use sctp_wire::{Chunk, write_chunk};
use std::alloc::Global;
use std::fmt::Write;

/// The most chunks shown of a packet.
const SHOWN_CHUNKS: usize = 4;

/// A chunk of at most this many bytes is shown in full.
const WHOLE_CHUNK: usize = 32;

/// The bytes shown of a longer chunk.
const CHUNK_START: usize = 24;

/// The bytes shown of a message.
const MESSAGE_START: usize = 16;

/// A packet's size, its checksum, and its first chunks.
pub fn show_packet(alloc: Global, packet: &[u8], out: &mut String) -> Result<()> {
    let sum = packet.get(8..HEADER).unwrap_or(&[]);
    write!(out, "{} {}:", packet.len(), hex::encode(alloc, sum)?)?;
    let mut count = 0usize;
    for chunk in read_packet(packet)?.chunks {
        if count < SHOWN_CHUNKS {
            show_chunk(alloc, &chunk, out)?;
        }
        count = count.saturating_add(1);
    }
    if count > SHOWN_CHUNKS {
        write!(out, " ..{count}")?;
    }
    Ok(())
}

/// A chunk, or its first bytes and its size.
fn show_chunk(alloc: Global, chunk: &Chunk<'_>, out: &mut String) -> Result<()> {
    write!(out, " ")?;
    show_bytes(alloc, &bytes_of(alloc, chunk)?, out)
}

/// The bytes of a chunk or of parameters, or the first of them and their number.
pub fn show_bytes(alloc: Global, bytes: &[u8], out: &mut String) -> Result<()> {
    if bytes.len() <= WHOLE_CHUNK {
        write!(out, "{}", hex::encode(alloc, bytes)?)?;
    } else {
        let start = bytes.get(..CHUNK_START).unwrap_or(&[]);
        write!(out, "{}..{}", hex::encode(alloc, start)?, bytes.len())?;
    }
    Ok(())
}

/// A chunk's bytes.
fn bytes_of(alloc: Global, chunk: &Chunk<'_>) -> Result<Vec<u8>> {
    let mut bytes = Vec::new(alloc);
    if chunk.fits() {
        write_chunk(chunk, &mut bytes)?;
    }
    Ok(bytes)
}

/// The digits of a SACK.
pub fn sack_digits(alloc: Global, lists: &SackLists) -> Result<String> {
    let bytes = bytes_of(alloc, &Chunk::Sack(lists.view()))?;
    Ok(hex::encode(alloc, bytes.as_slice())?)
}

/// The start of a message's bytes.
pub fn show_start(alloc: Global, bytes: &[u8], out: &mut String) -> Result<()> {
    match bytes.get(..MESSAGE_START) {
        Some(start) if bytes.len() > MESSAGE_START => {
            write!(out, "{}..", hex::encode(alloc, start)?)?;
        }
        _ => write!(out, "{}", hex::encode(alloc, bytes)?)?,
    }
    Ok(())
}
