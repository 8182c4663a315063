//! The packets that are broken, each with the endpoint at which it arrives, in the state that the rules say.

use crate::scripts::{CLOSING, GIVEN_UP, IN_PART};
use crate::step::Side::{self, A, B};
use crate::step::Step;
use crate::taker::Taker;
use sctp_endpoint::State;

/// A packet: the script that builds it, the number of steps before it arrives, whose it is and its place in that endpoint's bag, from 0, and
/// the endpoint at which it arrives.
#[derive(Clone, Copy)]
pub struct Base {
    pub name: &'static str,
    pub script: &'static [Step],
    pub interleave: bool,
    pub partial: bool,
    pub before: usize,
    pub from: Side,
    pub place: usize,
    pub taker: Taker,
}

/// A packet of the closing script.
fn closing(name: &'static str, before: usize, from: Side, place: usize, taker: Taker) -> Base {
    Base {
        name,
        script: &CLOSING,
        interleave: false,
        partial: false,
        before,
        from,
        place,
        taker,
    }
}

/// The caller of the closing script with an association: tag 7, initial TSN 100; 99 means that nothing was sent yet.
fn caller(state: State, acknowledged: u32, assigned: u32) -> Taker {
    Taker {
        port: 5_000,
        peer_port: 5_001,
        state,
        listens: false,
        tag: Some(7),
        peer_tag: Some(9),
        interleaved: false,
        partial: false,
        inbound: 1,
        acknowledged,
        assigned,
        has_more: false,
        came: 499,
    }
}

/// The caller that waits for an answer: it doesn't know its peer's tag.
fn waiting() -> Taker {
    let mut taker = caller(State::CookieWait, 99, 99);
    taker.peer_tag = None;
    taker
}

/// The listener of the closing script with an association: tag 9, initial TSN 500; it sends nothing.
fn listener(state: State, came: u32) -> Taker {
    Taker {
        port: 5_001,
        peer_port: 5_000,
        state,
        listens: true,
        tag: Some(9),
        peer_tag: Some(7),
        interleaved: false,
        partial: false,
        inbound: 1,
        acknowledged: 499,
        assigned: 499,
        has_more: false,
        came,
    }
}

/// The packets of the closing script, in the order of their arrival.
pub fn closing_packets() -> [Base; 19] {
    let established = State::Established;
    let answered = State::ShutdownAckSent;
    [
        closing("closing, A 1 at B", 3, A, 0, listener(State::Listen, 0)),
        closing("closing, B 1 at A", 5, B, 0, waiting()),
        closing("closing, B 2 at A", 5, B, 1, waiting()),
        closing(
            "closing, B 1 again",
            6,
            B,
            0,
            caller(State::CookieEchoed, 99, 99),
        ),
        closing("closing, A 2 at B", 8, A, 1, listener(State::Listen, 0)),
        closing("closing, A 2 again", 9, A, 1, listener(established, 99)),
        closing(
            "closing, B 3 at A",
            11,
            B,
            2,
            caller(State::CookieEchoed, 99, 99),
        ),
        closing("closing, B 3 again", 12, B, 2, caller(established, 99, 99)),
        closing("closing, A 3 at B", 15, A, 2, listener(established, 99)),
        closing("closing, A 3 again", 16, A, 2, listener(established, 100)),
        closing("closing, B 4 at A", 18, B, 3, caller(established, 99, 100)),
        closing(
            "closing, B 4 again",
            19,
            B,
            3,
            caller(established, 100, 100),
        ),
        closing("closing, A 4 at B", 23, A, 3, listener(established, 100)),
        closing("closing, A 4 again", 24, A, 3, listener(answered, 100)),
        closing(
            "closing, B 5 at A",
            26,
            B,
            4,
            caller(State::ShutdownSent, 100, 100),
        ),
        closing(
            "closing, B 5 again",
            27,
            B,
            4,
            caller(State::Closed, 100, 100),
        ),
        closing("closing, A 5 at B", 28, A, 4, listener(answered, 100)),
        closing("closing, A 6 at B", 28, A, 5, listener(answered, 100)),
        closing("closing, A 5 again", 29, A, 4, listener(State::Closed, 100)),
    ]
}

/// A packet of endpoints that were opened without packets, with partial reliability.
fn opened(name: &'static str, before: usize, from: Side, place: usize, taker: Taker) -> Base {
    let interleave = taker.interleaved;
    Base {
        name,
        script: if interleave { &IN_PART } else { &GIVEN_UP },
        interleave,
        partial: true,
        before,
        from,
        place,
        taker,
    }
}

/// Endpoint B of those: tag 2; it sends no data.
fn receiver(interleaved: bool, came: u32) -> Taker {
    Taker {
        port: 5_001,
        peer_port: 5_000,
        state: State::Established,
        listens: false,
        tag: Some(2),
        peer_tag: Some(1),
        interleaved,
        partial: true,
        inbound: 1,
        acknowledged: 0,
        assigned: 0,
        has_more: false,
        came,
    }
}

/// Endpoint A of those: tag 1; nothing was acknowledged and nothing received.
fn sender(interleaved: bool, assigned: u32, has_more: bool) -> Taker {
    Taker {
        port: 5_000,
        peer_port: 5_001,
        state: State::Established,
        listens: false,
        tag: Some(1),
        peer_tag: Some(2),
        interleaved,
        partial: true,
        inbound: 1,
        acknowledged: 0,
        assigned,
        has_more,
        came: 0,
    }
}

/// The packets of the two other scripts, in the order of their arrival.
pub fn opened_packets() -> [Base; 10] {
    [
        opened("given up, A 1 at B", 7, A, 0, receiver(false, 0)),
        opened("given up, A 2 at B", 7, A, 1, receiver(false, 0)),
        opened("given up, A 3 at B", 7, A, 2, receiver(false, 0)),
        opened("given up, A 4 at B", 12, A, 3, receiver(false, 0)),
        opened("given up, B 1 at A", 14, B, 0, sender(false, 3, false)),
        opened("in part, A 1 at B", 4, A, 0, receiver(true, 0)),
        opened("in part, A 2 at B", 5, A, 1, receiver(true, 1)),
        opened("in part, B 1 at A", 7, B, 0, sender(true, 2, true)),
        opened("in part, A 3 at B", 10, A, 2, receiver(true, 2)),
        opened("in part, A 4 at B", 13, A, 3, receiver(true, 3)),
    ]
}
