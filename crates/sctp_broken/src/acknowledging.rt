//! What a cumulative TSN acknowledges: SACK and SHUTDOWN (RFC 9260, 6.2.1, 9.2).

use crate::acts::{After, Stand, peer_fault};
use crate::reading::{half_at, word_at};
use crate::taker::Taker;
use sctp_endpoint::State;

/// SACK: stale ones change nothing; those beyond what was assigned, or with blocks out of order, are a fault (RFC 9260, 6.2.1).
pub fn after_sack(value: &[u8], taker: &Taker, stand: &mut Stand) -> After {
    if !matches!(
        stand.state,
        State::Established | State::ShutdownPending | State::ShutdownReceived
    ) {
        return After::PassedOver;
    }
    let cumulative = word_at(value, 0).unwrap_or(0);
    let moved = cumulative.wrapping_sub(stand.acknowledged);
    if moved > 0x8000_0000 {
        return After::Acted;
    }
    let flying = taker.assigned.wrapping_sub(cumulative);
    if moved > taker.assigned.wrapping_sub(stand.acknowledged) || !are_blocks(value, flying) {
        return peer_fault();
    }
    stand.acknowledged = cumulative;
    After::Acted
}

/// Whether the gap blocks of a SACK rise, and end at most this far above its cumulative TSN.
fn are_blocks(value: &[u8], flying: u32) -> bool {
    let count = half_at(value, 8).unwrap_or(0);
    let blocks = value.get(12..).unwrap_or(&[]);
    let mut last = 0;
    for block in blocks.chunks_exact(4).take(usize::from(count)) {
        let start = half_at(block, 0).unwrap_or(0);
        let end = half_at(block, 2).unwrap_or(0);
        if start <= last || end < start || u32::from(end) > flying {
            return false;
        }
        last = end;
    }
    true
}

/// SHUTDOWN: the peer has no more to send (RFC 9260, 9.2). A cumulative TSN beyond what was assigned is a fault, if it is looked at.
pub fn after_shutdown(value: &[u8], taker: &Taker, stand: &mut Stand) -> After {
    match stand.state {
        State::Established | State::ShutdownPending | State::ShutdownReceived => {}
        State::ShutdownSent => {
            stand.state = State::ShutdownAckSent;
            return After::Acted;
        }
        State::ShutdownAckSent => return After::Acted,
        _ => return After::PassedOver,
    }
    let cumulative = word_at(value, 0).unwrap_or(0);
    let moved = cumulative.wrapping_sub(stand.acknowledged);
    if moved <= 0x8000_0000 {
        if moved > taker.assigned.wrapping_sub(stand.acknowledged) {
            return peer_fault();
        }
        stand.acknowledged = cumulative;
    }
    stand.state = State::ShutdownReceived;
    After::Acted
}

/// Closing goes on as soon as all is acknowledged, if the user has asked for it (RFC 9260, 9.2).
pub fn settle(taker: &Taker, stand: &mut Stand) {
    if taker.has_more || stand.acknowledged != taker.assigned {
        return;
    }
    if stand.state == State::ShutdownPending {
        stand.state = State::ShutdownSent;
    } else if stand.state == State::ShutdownReceived {
        stand.state = State::ShutdownAckSent;
    }
}
