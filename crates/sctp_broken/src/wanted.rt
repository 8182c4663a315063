//! The rules' verdict on a packet: by its bytes, its ports, its tag, and then by the state of the endpoint.

use crate::acts::told_of;
use crate::reading::{Chunk, are_chunks, first_chunk, half_at, word_at};
use crate::taker::Taker;
use crate::told::{COOKIE, FAULT, PORTS, STATE, TAG, Told};
use sctp_endpoint::State;

/// The verdict on these bytes, whose checksum is right. `whole` is the unchanged packet: a cookie is valid in it alone.
pub fn wanted(bytes: &[u8], whole: &[u8], taker: &Taker) -> Told {
    let Some(chunks) = bytes.get(12..) else {
        return FAULT;
    };
    let Some((first, _)) = first_chunk(chunks) else {
        return FAULT;
    };
    if !are_chunks(chunks) {
        return FAULT;
    }
    if half_at(bytes, 0) != Some(taker.peer_port) || half_at(bytes, 2) != Some(taker.port) {
        return PORTS;
    }
    if !passes(word_at(bytes, 4).unwrap_or(0), first, taker) {
        return TAG;
    }
    if first.kind == 10 && bytes == whole && taker.listens {
        return of_whole_cookie(chunks, taker);
    }
    match taker.state {
        State::Listen => of_stray(first, chunks, true),
        State::Closed => of_stray(first, chunks, false),
        _ => told_of(chunks, taker),
    }
}

/// Whether a packet with this tag passes, by its first chunk (RFC 9260, 8.5).
fn passes(tag: u32, first: Chunk<'_>, taker: &Taker) -> bool {
    if first.kind == 1 {
        return tag == 0;
    }
    if matches!(taker.state, State::Listen | State::Closed) {
        return true;
    }
    let turned = matches!(first.kind, 6 | 14) && first.flags & 1 == 1;
    let asked = if turned { taker.peer_tag } else { taker.tag };
    asked == Some(tag)
}

/// A valid cookie: it begins an association, or is acknowledged again if there is one (RFC 9260, 5.1, D, and 5.2.4).
fn of_whole_cookie(chunks: &[u8], taker: &Taker) -> Told {
    match taker.state {
        State::Listen
        | State::Established
        | State::ShutdownPending
        | State::ShutdownSent
        | State::ShutdownReceived => Told::Taken,
        State::Closed => of_stray_cookie(chunks),
        _ => STATE,
    }
}

/// A cookie at an endpoint that has no association and can't begin one: it is answered, unless an ABORT follows.
fn of_stray_cookie(chunks: &[u8]) -> Told {
    if has_abort(chunks) {
        STATE
    } else {
        Told::Answered
    }
}

/// A packet at an endpoint without an association: its first chunk decides (RFC 9260, 8.4).
fn of_stray(first: Chunk<'_>, chunks: &[u8], listens: bool) -> Told {
    if has_abort(chunks) {
        return STATE;
    }
    match first.kind {
        1 if word_at(first.value, 0) == Some(0) => TAG,
        10 if listens => COOKIE,
        2 | 9 | 11 | 14 => STATE,
        0 | 1 | 3 | 4 | 5 | 7 | 8 | 10 | 64 | 192 | 194 => Told::Answered,
        _ => STATE,
    }
}

/// Whether an ABORT is among these chunks.
fn has_abort(chunks: &[u8]) -> bool {
    let mut rest = chunks;
    for _ in 0..chunks.len() {
        let Some((chunk, behind)) = first_chunk(rest) else {
            break;
        };
        if chunk.kind == 6 {
            return true;
        }
        rest = behind;
    }
    false
}
