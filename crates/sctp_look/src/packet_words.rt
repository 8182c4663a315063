//! A packet's chunks in short words. No byte of a message is shown, and no numbers but those of the chunks' fields.

use crate::reconfig_words::put_reconfig;
use sctp_packet::read_packet;
use sctp_reconfig::RECONFIG;
use sctp_wire::{Blocks, Causes, Chunk, Piece, Sack, Tsns};
use std::alloc::{AllocError, Global};

/// The words of a packet's chunks. Chunks after `enough` letters are left out.
///
/// # Errors
/// An allocation failed.
pub(crate) fn packet_words(
    alloc: Global,
    bytes: &[u8],
    enough: usize,
) -> Result<String, AllocError> {
    let mut words = String::new(alloc);
    let Ok(packet) = read_packet(bytes) else {
        put_unreadable(bytes.len(), &mut words)?;
        return Ok(words);
    };
    for chunk in packet.chunks {
        if words.len() <= enough {
            words.push_str(if words.is_empty() { "" } else { " + " })?;
            put_chunk(&chunk, &mut words)?;
        }
    }
    Ok(words)
}

/// The words for bytes that aren't a packet.
fn put_unreadable(length: usize, words: &mut String) -> Result<(), AllocError> {
    match length {
        1 => words.push_str("unreadable, 1 byte"),
        _ => write!(words, "unreadable, {length} bytes"),
    }
}

/// Appends the words of a chunk.
fn put_chunk(chunk: &Chunk<'_>, words: &mut String) -> Result<(), AllocError> {
    match chunk {
        Chunk::Data(piece) => put_piece("DATA", piece, words),
        Chunk::Init(_) => words.push_str("INIT"),
        Chunk::InitAck(_) => words.push_str("INIT ACK"),
        Chunk::Sack(sack) => put_sack(sack, words),
        Chunk::Heartbeat { .. } => words.push_str("HEARTBEAT"),
        Chunk::HeartbeatAck { .. } => words.push_str("HEARTBEAT ACK"),
        Chunk::Abort { causes, .. } => put_causes("ABORT", causes, words),
        Chunk::Shutdown { cumulative } => put_numbered("SHUTDOWN", *cumulative, words),
        Chunk::ShutdownAck => words.push_str("SHUTDOWN ACK"),
        Chunk::Error { causes } => put_causes("ERROR", causes, words),
        Chunk::CookieEcho { .. } => words.push_str("COOKIE ECHO"),
        Chunk::CookieAck => words.push_str("COOKIE ACK"),
        Chunk::ShutdownComplete { .. } => words.push_str("SHUTDOWN COMPLETE"),
        Chunk::IData(piece) => put_piece("I-DATA", piece, words),
        Chunk::ForwardTsn(forward) => put_numbered("FORWARD", forward.cumulative, words),
        Chunk::IForwardTsn(forward) => put_numbered("I-FORWARD", forward.cumulative, words),
        Chunk::Unknown { kind, value, .. } if *kind == RECONFIG => put_reconfig(value, words),
        Chunk::Unknown { kind, .. } => {
            let kind = *kind;
            write!(words, "type {kind}")
        }
    }
}

/// Appends a chunk shown by one number.
fn put_numbered(name: &str, number: u32, words: &mut String) -> Result<(), AllocError> {
    write!(words, "{name} {number}")
}

/// Appends DATA or I-DATA: TSN, stream and number in it, whether it is unordered, and which fragment it is.
fn put_piece(name: &str, piece: &Piece<'_>, words: &mut String) -> Result<(), AllocError> {
    let (tsn, stream, number) = (piece.tsn, piece.stream, piece.number);
    write!(words, "{name} {tsn} {stream}.{number}")?;
    if piece.unordered {
        words.push_str(" u")?;
    }
    match (piece.begin, piece.end) {
        (true, true) => Ok(()),
        (true, false) => words.push_str(" B"),
        (false, false) => words.push_str(" M"),
        (false, true) => words.push_str(" E"),
    }
}

/// Appends a SACK: its cumulative TSN, its gap blocks and its duplicates.
fn put_sack(sack: &Sack<'_>, words: &mut String) -> Result<(), AllocError> {
    put_numbered("SACK", sack.cumulative, words)?;
    put_blocks(&sack.blocks, words)?;
    put_duplicates(&sack.duplicates, words)
}

/// Appends the gap blocks, as offsets from the cumulative TSN.
fn put_blocks(blocks: &Blocks<'_>, words: &mut String) -> Result<(), AllocError> {
    if blocks.len() == 0 {
        return Ok(());
    }
    let mut is_first = true;
    for block in blocks.iter() {
        let (start, end) = (block.start, block.end);
        words.push_str(if is_first { " [" } else { "," })?;
        write!(words, "{start}-{end}")?;
        is_first = false;
    }
    words.push_str("]")
}

/// Appends the duplicate TSNs.
fn put_duplicates(duplicates: &Tsns<'_>, words: &mut String) -> Result<(), AllocError> {
    let mut is_first = true;
    for tsn in duplicates.iter() {
        words.push_str(if is_first { " dup " } else { "," })?;
        write!(words, "{tsn}")?;
        is_first = false;
    }
    Ok(())
}

/// Appends a chunk shown by its causes.
fn put_causes(name: &str, causes: &Causes<'_>, words: &mut String) -> Result<(), AllocError> {
    words.push_str(name)?;
    let mut is_first = true;
    for cause in causes.iter() {
        let kind = cause.kind;
        words.push_str(if is_first { " " } else { "," })?;
        write!(words, "{kind}")?;
        is_first = false;
    }
    Ok(())
}
