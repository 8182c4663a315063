//! What may happen to a pair: one case for each line of a script that acts on it.

use sctp_terms::Draw;
use sctp_values::Ticket;

/// One of the two endpoints: A, which calls, or B, which listens (RFC 9260, 5.1).
#[derive(Clone, Copy, Debug, PartialEq, Eq)]
pub enum Side {
    A,
    B,
}

impl Side {
    ghost use Rattle.std.specs.Prelude.{◌≡◌};
    ghost use Rattle.sctp_model.specs.world.World.{other};
    ghost use Rattle.sctp_events.specs.Events.{side_meaning};

    /// The other endpoint.
    pub fn other(self) -> Side
        ensures { side_meaning result ≡ other (side_meaning self) }
    {
        match self {
            Side::A => Side::B,
            Side::B => Side::A,
        }
    }
}

/// Something that happens to a pair.
#[derive(Debug, PartialEq, Drop)]
pub enum Event {
    /// `open`: both endpoints are put into an association without a packet, each with its own random values (tag and initial TSN).
    Open {
        a: Draw,
        b: Draw,
    },
    /// `later`: an endpoint's clock advances to this time, in milliseconds, and no endpoint is notified. A smaller time leaves the clock.
    Later {
        side: Side,
        moment: u64,
    },
    /// `moment`: an endpoint is notified of the time of its clock: timers run out, and lifetimes end.
    Moment {
        side: Side,
    },
    /// `at`: both clocks advance to this time, in milliseconds, and both endpoints are notified, each of its own clock. A smaller time leaves
    /// a clock.
    At {
        moment: u64,
    },
    /// `draw`: the random values (tag and initial TSN) with which an endpoint answers an INIT from now on.
    Drawing {
        draw: Draw,
    },
    /// `connect`: A calls B, with these random values.
    Connect {
        draw: Draw,
    },
    /// `build`: an endpoint is asked for its next packet, which is added to its bag: the packets that it has given to the network.
    Build {
        side: Side,
    },
    /// `deliver`: a packet of an endpoint's bag, counted from 1, arrives at the other endpoint.
    Deliver {
        side: Side,
        number: u32,
    },
    /// `foreign`: a packet of a third party, any bytes, arrives at an endpoint.
    Foreign {
        side: Side,
        bytes: Vec<u8>,
    },
    /// `send`: an endpoint's user sends a message, ordered within its stream or unordered. Its lifetime ends at `until`, in milliseconds;
    /// None is no end.
    Send {
        side: Side,
        stream: u16,
        ordered: bool,
        payload_id: u32,
        bytes: Vec<u8>,
        until: Option<u64>,
    },
    /// `send` with a limit of retransmissions (RFC 7496, 3.1): as `Send`, and the message is abandoned if a fragment of it, retransmitted
    /// `max_retransmits` times already (0 to 65,535), would be retransmitted once more.
    SendWithMaxRetransmits {
        side: Side,
        stream: u16,
        ordered: bool,
        payload_id: u32,
        bytes: Vec<u8>,
        until: Option<u64>,
        max_retransmits: u16,
    },
    /// `abandon`: an endpoint's user abandons the message with this ticket.
    Abandon {
        side: Side,
        ticket: Ticket,
    },
    /// `take`: an endpoint's user takes the next message that was received on a stream.
    Take {
        side: Side,
        stream: u16,
    },
    /// `reset`: an endpoint's user asks for the reset of an outgoing stream, which takes no further message until the peer has performed it
    /// (RFC 6525, 5.1).
    Reset {
        side: Side,
        stream: u16,
    },
    /// `resets`: an endpoint's user asks which stream the peer has reset, the lowest that wasn't reported (RFC 6525, 5.2.2).
    WasReset {
        side: Side,
    },
    /// `shutdown`: an endpoint's user closes the association gracefully: it has no more to send.
    Shutdown {
        side: Side,
    },
    /// `abort`: an endpoint's user aborts the association; the reason goes to the peer.
    Abort {
        side: Side,
        reason: Vec<u8>,
    },
}
