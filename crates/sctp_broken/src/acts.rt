//! What an endpoint with an association does with a packet, chunk by chunk: the state table as plain rows (RFC 9260, 4 to 9).

use crate::acknowledging::{after_sack, after_shutdown, settle};
use crate::reading::{Chunk, Item, first_chunk, first_item, half_at, word_at};
use crate::taker::Taker;
use crate::told::{COOKIE, STATE, TAG, Told};
use sctp_endpoint::State;

/// What a chunk leaves.
#[derive(Drop)]
pub enum After {
    /// It isn't listed for the state.
    PassedOver,
    /// It was processed.
    Acted,
    /// It was processed, and the rest of the packet is ignored.
    Ended,
    /// The rest of the packet is ignored, and this is the verdict.
    Told(Told),
}

/// The state of an endpoint between two chunks.
#[derive(Drop)]
pub struct Stand {
    /// The state.
    pub state: State,
    /// The cumulative TSN acknowledged by the peer.
    pub acknowledged: u32,
}

/// The verdict on these chunks at an endpoint in the state that `taker` says.
pub fn told_of(chunks: &[u8], taker: &Taker) -> Told {
    let mut stand = Stand {
        state: taker.state,
        acknowledged: taker.acknowledged,
    };
    let mut listed = false;
    let mut rest = chunks;
    for _ in 0..chunks.len() {
        let Some((chunk, behind)) = first_chunk(rest) else {
            break;
        };
        rest = behind;
        match left_by(chunk, taker, &mut stand) {
            After::PassedOver => {}
            After::Acted => listed = true,
            After::Ended => return Told::Taken,
            After::Told(told) => return told,
        }
        settle(taker, &mut stand);
    }
    if listed { Told::Taken } else { STATE }
}

/// What a chunk leaves, by its type.
fn left_by(chunk: Chunk<'_>, taker: &Taker, stand: &mut Stand) -> After {
    match chunk.kind {
        0 | 64 => after_data(chunk, taker, stand.state),
        2 => after_init_ack(chunk.value, stand.state),
        3 => after_sack(chunk.value, taker, stand),
        4 => if_listed(is_open(stand.state)),
        5 => After::Acted,
        6 => After::Ended,
        7 => after_shutdown(chunk.value, taker, stand),
        8 => after_shutdown_ack(stand.state),
        9 => after_error(chunk.value, stand.state),
        10 => after_cookie_echo(taker, stand.state),
        11 => after_cookie_ack(stand),
        14 => after_shutdown_complete(stand.state),
        192 | 194 => after_forward(chunk, taker, stand.state),
        1 => After::PassedOver,
        unknown => after_unknown(unknown),
    }
}

/// A chunk that is processed in some states and not listed in the others.
fn if_listed(listed: bool) -> After {
    if listed {
        After::Acted
    } else {
        After::PassedOver
    }
}

/// A fault of the peer: the endpoint aborts, and the rest of the packet is ignored (RFC 9260, 9.1).
pub fn peer_fault() -> After {
    After::Told(Told::Answered)
}

/// Established, or one of the states of closing.
fn is_open(state: State) -> bool {
    matches!(
        state,
        State::Established
            | State::ShutdownPending
            | State::ShutdownSent
            | State::ShutdownReceived
            | State::ShutdownAckSent
    )
}

/// Whether DATA and FORWARD-TSN are accepted: the peer hasn't sent SHUTDOWN yet (RFC 9260, 9.2).
fn takes_data(state: State) -> bool {
    matches!(
        state,
        State::Established | State::ShutdownPending | State::ShutdownSent
    )
}

/// DATA and I-DATA: a fault without user data or in the other format (RFC 9260, 3.3.10.9; RFC 8260, 2.2.1).
fn after_data(chunk: Chunk<'_>, taker: &Taker, state: State) -> After {
    if !takes_data(state) {
        return After::PassedOver;
    }
    let header = if chunk.kind == 64 { 16 } else { 12 };
    if chunk.value.len() == header || (chunk.kind == 64) != taker.interleaved {
        return peer_fault();
    }
    After::Acted
}

/// FORWARD-TSN and I-FORWARD-TSN: a fault if they weren't agreed on, are too far ahead, or name a stream that doesn't exist.
fn after_forward(chunk: Chunk<'_>, taker: &Taker, state: State) -> After {
    if !takes_data(state) {
        return After::PassedOver;
    }
    if !taker.partial || (chunk.kind == 194) != taker.interleaved {
        return peer_fault();
    }
    let ahead = word_at(chunk.value, 0)
        .unwrap_or(0)
        .wrapping_sub(taker.came);
    if ahead == 0 || ahead >= 0x8000_0000 {
        return After::Acted;
    }
    let size = if chunk.kind == 194 { 8 } else { 4 };
    let entries = chunk.value.get(4..).unwrap_or(&[]);
    let strange = entries.chunks_exact(size).any(|entry| half_at(entry, 0).is_none_or(
        |stream| stream >= taker.inbound,
    ));
    if ahead > 32_767 || strange {
        return peer_fault();
    }
    After::Acted
}

/// INIT ACK: accepted by a caller that waits for one, or answered by an ABORT (RFC 9260, 5.1, 3.3.3).
fn after_init_ack(value: &[u8], state: State) -> After {
    if state != State::CookieWait {
        return After::PassedOver;
    }
    if word_at(value, 0) == Some(0) {
        return After::Told(TAG);
    }
    let without_streams = half_at(value, 8) == Some(0) || half_at(value, 10) == Some(0);
    if without_streams || !has_cookie(value.get(16..).unwrap_or(&[])) {
        return peer_fault();
    }
    After::Ended
}

/// Whether there is a State Cookie among these parameters that can be echoed, and no parameter before it ends the reading (RFC 9260, 3.2.1).
fn has_cookie(parameters: &[u8]) -> bool {
    let mut rest = parameters;
    for _ in 0..parameters.len() {
        let Some((Item { kind, value }, behind)) = first_item(rest) else {
            break;
        };
        rest = behind;
        if kind == 7 {
            return value.len() + 4 <= 1_488;
        }
        if kind < 0x8000 && !matches!(kind, 5 | 6 | 8 | 9 | 11 | 12) {
            break;
        }
    }
    false
}

/// SHUTDOWN ACK: answered by SHUTDOWN COMPLETE, and the association is over (RFC 9260, 9.2).
fn after_shutdown_ack(state: State) -> After {
    match state {
        State::ShutdownSent | State::ShutdownAckSent => After::Told(Told::Answered),
        _ => After::PassedOver,
    }
}

/// SHUTDOWN COMPLETE: the association is over (RFC 9260, 9.2).
fn after_shutdown_complete(state: State) -> After {
    match state {
        State::ShutdownAckSent => After::Ended,
        _ => After::PassedOver,
    }
}

/// ERROR: one that calls the cookie too old ends the caller that echoed it (RFC 9260, 5.2.6).
fn after_error(causes: &[u8], state: State) -> After {
    if state != State::CookieEchoed {
        return After::Acted;
    }
    let mut rest = causes;
    for _ in 0..causes.len() {
        let Some((cause, behind)) = first_item(rest) else {
            break;
        };
        rest = behind;
        if cause.kind == 3 {
            return After::Ended;
        }
    }
    After::Acted
}

/// COOKIE ECHO again, at a listener: a changed packet has no cookie of the listener's (RFC 9260, 5.2.4).
fn after_cookie_echo(taker: &Taker, state: State) -> After {
    let looked_at = takes_data(state) || state == State::ShutdownReceived;
    if taker.listens && looked_at {
        After::Told(COOKIE)
    } else {
        After::PassedOver
    }
}

/// COOKIE ACK: the caller is established (RFC 9260, 5.1, E).
fn after_cookie_ack(stand: &mut Stand) -> After {
    if stand.state != State::CookieEchoed {
        return After::PassedOver;
    }
    stand.state = State::Established;
    After::Acted
}

/// A type that isn't known: below 128 it stops the packet (RFC 9260, 3.2).
fn after_unknown(kind: u8) -> After {
    if kind < 128 {
        After::Ended
    } else {
        After::Acted
    }
}
