//! The calls of chunks and packets as bytes and their answers.

use crate::parts::{bytes_of, mixed};
use anyhow::Result;
use sctp_packet::{PacketWriter, crc32c};
use sctp_wire::{Chunk, Rule, read_chunks, write_chunk};
use std::alloc::Global;
use std::fmt::Write;

/// The number of checksums in a line.
const SUMS_OF_LINE: usize = 8;

/// The checksum of bytes, as a number.
pub fn sum(alloc: Global, bytes: &str, out: &mut String) -> Result<()> {
    if let Some(bytes) = bytes_of(alloc, bytes)? {
        write!(out, "{:08x}", crc32c(&bytes))?;
    }
    Ok(())
}

/// The checksums of the prefixes of a mixed sequence, from none of its bytes up to `count`; eight in a line, after the length of the first
/// of them.
pub fn sums(alloc: Global, count: usize, out: &mut String) -> Result<()> {
    let bytes = mixed(alloc, count)?;
    for length in 0..=bytes.len() {
        if length % SUMS_OF_LINE == 0 {
            let behind = if length == 0 { "" } else { "\n" };
            write!(out, "{behind}{length}:")?;
        }
        write!(out, " {:08x}", crc32c(&bytes[..length]))?;
    }
    Ok(())
}

/// Reads chunks and writes them again one by one, each with its length.
pub fn again(alloc: Global, bytes: &str, out: &mut String) -> Result<()> {
    let Some(bytes) = bytes_of(alloc, bytes)? else {
        return Ok(());
    };
    write!(out, "chunks")?;
    for chunk in read_chunks(&bytes)? {
        write_again(alloc, &chunk, out)?;
    }
    Ok(())
}

/// Writes a chunk again, if it may be written.
fn write_again(alloc: Global, chunk: &Chunk<'_>, out: &mut String) -> Result<()> {
    if !chunk.fits() {
        return Ok(write!(out, " unfit")?);
    }
    let mut copy = Vec::new(alloc);
    write_chunk(chunk, &mut copy)?;
    let length = chunk.written_length();
    Ok(write!(out, " {length}:{}", hex::encode(alloc, copy.as_slice())?)?)
}

/// What is done with an unknown type of a chunk or of a parameter.
pub fn rule(rule: Rule, out: &mut String) -> Result<()> {
    write!(out, "stop {} report {}", rule.stop, rule.report)?;
    Ok(())
}

/// A packet of a given maximum size, with chunks as far as they fit: the bytes left after each, and the packet.
pub fn packed(
    alloc: Global,
    limit: u16,
    source: u16,
    destination: u16,
    tag: u32,
    chunks: &str,
    out: &mut String,
) -> Result<()> {
    let Some(bytes) = bytes_of(alloc, chunks)? else {
        return Ok(());
    };
    let mut packet = PacketWriter::new(alloc, limit, source, destination, tag);
    match put_chunks(&bytes, &mut packet, out) {
        Ok(()) => show_packed(alloc, packet.finish(), out),
        Err(fault) => {
            drop(packet);
            Err(fault)
        }
    }
}

/// Adds chunks to a packet as far as they fit: the bytes left after each.
fn put_chunks(bytes: &[u8], packet: &mut PacketWriter, out: &mut String) -> Result<()> {
    write!(out, "room {}", packet.room())?;
    for chunk in read_chunks(bytes)? {
        let put = chunk.fits() && packet.try_chunk(&chunk)?;
        write!(out, " {put} {}", packet.room())?;
    }
    Ok(())
}

/// The packet of these chunks, or none.
fn show_packed(alloc: Global, packet: Option<Vec<u8>>, out: &mut String) -> Result<()> {
    match packet {
        Some(bytes) => write!(out, ": {}", hex::encode(alloc, bytes.as_slice())?)?,
        None => write!(out, ": none")?,
    }
    Ok(())
}
