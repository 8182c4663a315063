//! Prints bytes, and text that spells bytes in hexadecimal, as a packet or as chunks.

ghost use Rattle.std.specs.Prelude.{◌≡◌, ◌++◌, [], IfOk, OnOk};
ghost use Rattle.sctp_packet.specs.PacketTree.{packet_meaning};
ghost use Rattle.sctp_print.specs.PrintedText.{chunk_lines, header_line, IsChunksText, IsPacketText, IsPacketTextOf, IsChunksTextOf, Adds};

use crate::chunk::put_chunk;
use crate::fault::{put_hex_fault, put_packet_fault, put_wire_fault};
use hex::FromHexError;
use sctp_packet::{Packet, read_packet};
use sctp_text::{Word, put_line};
use sctp_wire::{Chunks, read_chunks};
use std::alloc::{AllocError, Global};

/// Appends the lines of the packet that the text spells in hexadecimal, in either case, or the line of the first fault. Returns whether
/// it was a packet.
///
/// # Errors
/// `AllocError` if an allocation failed; `out` may hold some of the lines then.
pub fn print_packet(alloc: Global, text: &str, out: &mut Vec<u8>) -> Result<bool, AllocError>
    ensures { IfOk result (λ was_read. Adds (IsPacketTextOf text.now) out.old.items out.new.items was_read) }
{
    match hex::decode(alloc, text) {
        Ok(bytes) => put_packet_or_fault(alloc, &bytes, out),
        Err(FromHexError::OutOfMemory) => Err(AllocError),
        Err(_) => {
            put_hex_fault(out)?;
            Ok(false)
        }
    }
}

/// Appends the lines of the chunks that the text spells in hexadecimal, in either case, or the line of the first fault. Returns whether
/// they were chunks.
///
/// # Errors
/// `AllocError` if an allocation failed; `out` may hold some of the lines then.
pub fn print_chunks(alloc: Global, text: &str, out: &mut Vec<u8>) -> Result<bool, AllocError>
    ensures { IfOk result (λ was_read. Adds (IsChunksTextOf text.now) out.old.items out.new.items was_read) }
{
    match hex::decode(alloc, text) {
        Ok(bytes) => put_chunks_or_fault(alloc, &bytes, out),
        Err(FromHexError::OutOfMemory) => Err(AllocError),
        Err(_) => {
            put_hex_fault(out)?;
            Ok(false)
        }
    }
}

/// Appends the lines of the packet that the bytes are, or of their fault.
fn put_packet_or_fault(alloc: Global, bytes: &[u8], out: &mut Vec<u8>) -> Result<bool, AllocError>
    ensures { IfOk result (λ was_read. Adds (IsPacketText bytes.now) out.old.items out.new.items was_read) }
{
    match read_packet(bytes) {
        Ok(packet) => {
            put_packet(alloc, packet, out)?;
            Ok(true)
        }
        Err(fault) => {
            put_packet_fault(fault, out)?;
            Ok(false)
        }
    }
}

/// Appends the lines of the chunks that the bytes are, or of their fault.
fn put_chunks_or_fault(alloc: Global, bytes: &[u8], out: &mut Vec<u8>) -> Result<bool, AllocError>
    ensures { IfOk result (λ was_read. Adds (IsChunksText bytes.now) out.old.items out.new.items was_read) }
{
    match read_chunks(bytes) {
        Ok(chunks) => {
            put_chunks(alloc, chunks, out)?;
            Ok(true)
        }
        Err(fault) => {
            put_wire_fault(fault, out)?;
            Ok(false)
        }
    }
}

/// Appends the line of a packet's header and the lines of its chunks.
fn put_packet(alloc: Global, packet: Packet<'_>, out: &mut Vec<u8>) -> Result<(), AllocError>
    ensures { OnOk result (out.new.items ≡ out.old.items ++ (header_line (packet_meaning packet.entry)
        ++ chunk_lines (packet_meaning packet.entry).chunks)) }
{
    put_header(packet.source, packet.destination, packet.tag, out)?;
    put_chunks(alloc, packet.chunks, out)
}

/// Appends the line of a packet's header.
fn put_header(source: u16, destination: u16, tag: u32, out: &mut Vec<u8>) -> Result<(), AllocError>
    ensures { OnOk result (out.new.items ≡ out.old.items
        ++ header_line (record { source = source; destination = destination; tag = tag; chunks = [] })) }
{
    let tag = tag.to_be_bytes();
    let words = [
        Word::Number(u64::from(source)),
        Word::Number(u64::from(destination)),
        Word::Text(b"tag"),
        Word::Hex(&tag),
    ];
    put_line(b"packet", &words, &[], out)
}

/// Appends the lines of chunks.
fn put_chunks(alloc: Global, chunks: Chunks<'_>, out: &mut Vec<u8>) -> Result<(), AllocError>
    ensures { OnOk result (out.new.items ≡ out.old.items ++ chunk_lines chunks.entry) }
{
    for chunk in chunks {
        put_chunk(alloc, &chunk, out)?;
    }
    Ok(())
}
