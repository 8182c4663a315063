//! The rows of a picture, in the order of the run.

use sctp_pair::{Abandoned, Event, Outcome, Pair, Reason, Refusal, Side};
use sctp_terms::{End, State};

/// A row: an event, or the packet with which an endpoint answered it.
#[derive(Clone, Copy)]
pub(crate) struct Row {
    /// The time, in milliseconds, of the clock of the endpoint that acts; of A's if both do.
    pub(crate) moment: u64,
    /// Whether the row before has another time.
    pub(crate) begins: bool,
    pub(crate) at_a: Note,
    pub(crate) at_b: Note,
    pub(crate) arrow: Option<Arrow>,
}

/// What is shown beside an endpoint: what it did or what happened to it, and the state that begins.
#[derive(Clone, Copy)]
pub(crate) struct Note {
    pub(crate) deed: Option<Deed>,
    pub(crate) begun: Option<Standing>,
}

/// The state of an endpoint, and how its association ended.
#[derive(Clone, Copy, PartialEq, Eq)]
pub(crate) struct Standing {
    pub(crate) state: State,
    pub(crate) ended: Option<End>,
}

/// What an endpoint did, or what happened to it.
#[derive(Clone, Copy)]
pub(crate) enum Deed {
    At { moment: u64 },
    Later { moment: u64 },
    /// It was notified of the time of its clock.
    Moment,
    Call(Call),
    Refused { call: Call, refusal: Refusal },
    /// A packet leaves with a SACK that was delayed by this many milliseconds.
    Waited { wait: u64 },
    /// It was asked for a packet and had none.
    Quiet,
    /// A packet was to be delivered that doesn't exist.
    Absent { packet: Packet },
    /// A packet arrived and was dropped.
    Dropped { reason: Reason },
    Abandoned { ticket: u64, fate: Abandoned },
    Taken { stream: u16, message: Option<Taken> },
    /// The stream that the peer has reset, and how many messages wait that were delivered before, if there is one to report.
    Resets { there: Option<(u16, usize)> },
}

impl Deed {
    /// The drop, if the packet that arrived was dropped.
    pub(crate) fn of_drop(outcome: &Outcome) -> Option<Deed> {
        match outcome {
            Outcome::Dropped { reason } => Some(Deed::Dropped { reason: *reason }),
            _ => None,
        }
    }

    /// A call, done or refused.
    pub(crate) fn of_call(call: Call, outcome: &Outcome) -> Deed {
        match outcome {
            Outcome::Refused { refusal } => Deed::Refused {
                call,
                refusal: *refusal,
            },
            _ => Deed::Call(call),
        }
    }
}

/// A call of an endpoint's user that may be refused.
#[derive(Clone, Copy)]
pub(crate) enum Call {
    Open,
    Connect,
    Shutdown,
    Abort,
    Reset {
        stream: u16,
    },
    Send {
        stream: u16,
        ordered: bool,
        length: usize,
        /// How often a fragment may be retransmitted, if the message has a limit.
        max_retransmits: Option<u16>,
        /// The ticket of the accepted message.
        ticket: Option<u64>,
    },
}

impl Call {
    /// The call of an endpoint's user that sends a message, and the endpoint. None for another event.
    pub(crate) fn of_send(event: &Event, outcome: &Outcome) -> Option<(Side, Call)> {
        let (side, stream, ordered, bytes, max_retransmits) = match event {
            Event::Send {
                side,
                stream,
                ordered,
                bytes,
                ..
            } => (*side, *stream, *ordered, bytes, None),
            Event::SendWithMaxRetransmits {
                side,
                stream,
                ordered,
                bytes,
                max_retransmits,
                ..
            } => (*side, *stream, *ordered, bytes, Some(*max_retransmits)),
            _ => return None,
        };
        let ticket = match outcome {
            Outcome::Ticket { ticket } => Some(ticket.0),
            _ => None,
        };
        let call = Call::Send {
            stream,
            ordered,
            length: bytes.len(),
            max_retransmits,
            ticket,
        };
        Some((side, call))
    }
}

/// A message that was taken, without its bytes.
#[derive(Clone, Copy)]
pub(crate) struct Taken {
    pub(crate) ordered: bool,
    pub(crate) number: Option<u64>,
    pub(crate) length: usize,
}

/// A packet of an endpoint, counted from 1.
#[derive(Clone, Copy, PartialEq, Eq)]
pub(crate) struct Packet {
    pub(crate) side: Side,
    pub(crate) number: usize,
}

impl Packet {
    /// Its bytes in this pair, none if there is no such packet.
    pub(crate) fn bytes(self, pair: &Pair) -> &[u8] {
        match u32::try_from(self.number) {
            Ok(number) => pair.packet(self.side, number).unwrap_or(&[]),
            Err(_) => &[],
        }
    }
}

/// What goes between the endpoints.
#[derive(Clone, Copy)]
pub(crate) enum Arrow {
    /// A packet leaves, and arrives later or never.
    Leaves { packet: Packet },
    /// A packet leaves, and arrives at once.
    Crosses { packet: Packet },
    /// A packet that left before arrives, for the `time`-th time.
    Comes { packet: Packet, time: u32 },
    /// A third party's packet, by its number from 0, arrives at an endpoint.
    Strange { to: Side, index: usize },
}

/// What becomes of a packet: the row in which it leaves, counted from 0, and how often it arrives.
#[derive(Clone, Copy)]
pub(crate) struct Life {
    pub(crate) left: usize,
    pub(crate) comings: u32,
}
