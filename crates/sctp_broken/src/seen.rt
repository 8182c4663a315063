//! A snapshot of all that an endpoint's readers return.

use crate::ends::NOW;
use sctp_endpoint::{End, Endpoint, State, Ticket};

/// The first tickets of an endpoint.
const TICKETS: [Ticket; 4] = [Ticket(1), Ticket(2), Ticket(3), Ticket(4)];

/// All that an endpoint's readers return, for its first tickets and for the messages that wait first on its stream.
#[derive(Clone, Copy, PartialEq, Eq)]
pub struct Seen {
    state: State,
    ended: Option<End>,
    next_moment: Option<u64>,
    held_bytes: u32,
    tickets: u64,
    outstanding: u32,
    inbound: u16,
    outbound: u16,
    interleaved: bool,
    partial: bool,
    late: bool,
    acknowledged: [bool; 4],
    abandoned: [bool; 4],
    waiting: [Option<usize>; 3],
}

impl Seen {
    /// The snapshot of this endpoint.
    pub fn of(end: &Endpoint) -> Seen {
        Seen {
            state: end.state(),
            ended: end.ended(),
            next_moment: end.next_moment(),
            held_bytes: end.held_bytes(),
            tickets: end.tickets(),
            outstanding: end.outstanding(),
            inbound: end.inbound(),
            outbound: end.outbound(),
            interleaved: end.is_interleaved(),
            partial: end.is_partial(),
            late: end.has_late(NOW),
            acknowledged: TICKETS.map(|ticket| end.acknowledged(ticket)),
            abandoned: TICKETS.map(|ticket| end.abandoned(ticket)),
            waiting: [length_at(end, 0), length_at(end, 1), length_at(end, 2)],
        }
    }
}

/// The bytes of the message at this place among those that wait on stream 0, if there is one.
fn length_at(end: &Endpoint, place: usize) -> Option<usize> {
    Some(end.waiting(0, place)?.len())
}
