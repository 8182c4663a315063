//! What a pair answers to an event: one case for each line that a script's run prints for an event.

use sctp_recv::Message;
use sctp_send::Abandoned;
use sctp_terms::Reason;
use sctp_values::Ticket;

/// Why a call was refused. It has changed nothing.
#[derive(Clone, Copy, Debug, PartialEq, Eq)]
pub enum Refusal {
    /// Not allowed in this state, or, of `reset`, not agreed on. Only `open`, `connect`, `reset`, `shutdown` and `abort` are refused so.
    State,
    /// The reason of `abort` doesn't fit one packet.
    ReasonTooLong,
    /// `reset`: there is no such stream.
    NoSuchReset,
    /// `send`: the association isn't established. This is checked first; of this and those below the first that applies is returned.
    NotOpen,
    /// `send`: there is no such stream.
    NoSuchStream,
    /// `send`: the stream is being reset (RFC 6525, 5.1.2).
    Resetting,
    /// `send`: the message is empty.
    Empty,
    /// `send`: the message has more than 65,536 bytes.
    TooLong,
    /// `send`: 1,024 messages wait for a TSN already.
    QueueFull,
    /// `send`: no ticket or TSN is left in this association.
    Spent,
}

/// What a pair answers to an event. A packet is named by its number in the bag of the endpoint that built it, from 1, with its length
/// in bytes.
#[derive(Debug, PartialEq, Drop)]
pub enum Outcome {
    /// `ok`: done.
    Done,
    /// `refused CODE`: the call was refused.
    Refused { refusal: Refusal },
    /// `sent X N LENGTH`: the endpoint has built its N-th packet.
    Sent { number: usize, length: usize },
    /// `quiet X`: there is nothing to send.
    Quiet,
    /// `taken Y`: the endpoint has processed the packet.
    Taken,
    /// `dropped Y REASON`: the endpoint has dropped the packet.
    Dropped { reason: Reason },
    /// `answer Y N LENGTH`: the endpoint answers with this packet; or the user's `abort` has built it.
    Answer { number: usize, length: usize },
    /// `absent`: there is no packet with this number.
    Absent,
    /// `ticket X K`: the message is accepted, as the K-th of this endpoint.
    Ticket { ticket: Ticket },
    /// `fate X FATE`: what has become of the message to be abandoned.
    Fate { fate: Abandoned },
    /// `message ..`: the message taken.
    Message { message: Message },
    /// `empty X STREAM`: no message is waiting on this stream.
    Empty,
    /// `reset X STREAM COUNT`: the peer has reset this stream. Of its messages that wait for `take` the first COUNT were delivered before.
    ResetThere { stream: u16, count: usize },
    /// `no-reset X`: no reset by the peer is left to report.
    NoReset,
}
