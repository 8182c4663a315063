//! What is answered to a line: one case for each line of an answer.

use crate::status::Status;
use sctp_endpoint::{Counts, Path};
use sctp_send::Abandoned;
use sctp_terms::{End, Reason, State};
use sctp_text::Bytes;
use sctp_values::Kind;
use sctp_words::LineFault;

/// Why a call was refused. For `send` it is the first reason that applies: `NotEstablished`, then those of `send` in this order.
#[derive(Clone, Copy, Debug, PartialEq, Eq)]
pub enum Refusal {
    /// 1 of `connect`: the endpoint isn't new any more.
    NotIdle,
    /// 1 of `send`: there is no such stream.
    NoSuchStream,
    /// 2 of `send`: the message is empty.
    Empty,
    /// 3 of `send`: the message has more than 65,536 bytes.
    TooLong,
    /// 4 of `send`: 1,024 messages wait for a TSN.
    QueueFull,
    /// 5 of `send`: no ticket or TSN is left in this association.
    Spent,
    /// 8 of `send`: the stream is being reset.
    Resetting,
    /// 7 of `send`: the association isn't established.
    NotEstablished,
    /// 1 of `reset`: the association isn't established, or the reset of streams wasn't agreed on.
    NotAgreed,
    /// 2 of `reset`: there is no such stream.
    NoSuchReset,
    /// 1 of `shutdown`: no association is open.
    NotOpen,
    /// 1 of `abort`: there is no peer to notify.
    NoPeer,
    /// 2 of `abort`: the reason doesn't fit one packet.
    ReasonTooLong,
}

/// The answer to a line.
#[derive(Debug, PartialEq, Drop)]
pub enum Reply {
    /// `ok`
    Done,
    /// `refused C`: nothing has changed.
    Refused(Refusal),
    /// `taken`: the packet was processed.
    Taken,
    /// `dropped R`: the packet was dropped.
    Dropped(Reason),
    /// `answer HEX`: this packet is to be sent at once.
    Answer(Bytes),
    /// `sent HEX`: the packet built, to be sent.
    Sent(Bytes),
    /// `quiet`: there is nothing to send.
    Quiet,
    /// `ticket K`: the message is accepted as the K-th.
    Ticket(u64),
    /// `fate C`: what has become of the message.
    Fate(Abandoned),
    /// `yes` or `no`
    Holds(bool),
    /// `message STREAM KIND NUMBER ID HEX`: the message taken, with its number on the stream, None if it has none.
    Message {
        stream: u16,
        kind: Kind,
        number: Option<u64>,
        payload_id: u32,
        bytes: Bytes,
    },
    /// `empty STREAM`: no message waits on this stream.
    Empty {
        stream: u16,
    },
    /// `reset STREAM COUNT`: the peer has reset this stream. Of its messages that wait for `take` the first COUNT were delivered before.
    ResetThere {
        stream: u16,
        count: usize,
    },
    /// `no-reset`: no reset by the peer is left to report.
    NoReset,
    /// `next T` or `next -`
    Next(Option<u64>),
    /// `state STATE WHY`
    Stands {
        state: State,
        ended: Option<End>,
    },
    /// `held N`
    Held(u32),
    /// `reassembly N`
    Reassembly(u32),
    /// `status STATE WHY NEXT OUTBOUND INBOUND FORMATS OUTSTANDING QUEUED BYTES HELD WINDOW READABLE`
    Status(Status),
    /// `path FLIGHT SRTT RTTVAR RTO CWND SSTHRESH`: the bytes in flight, and the path to its peer, None if nothing is measured.
    Path {
        flight: u64,
        path: Option<Path>,
    },
    /// `counts PACKETS_OUT BYTES_OUT PACKETS_IN BYTES_IN FIRST TIMER FAST SACKS_OUT SACKS_IN ABANDONED FAULT PORTS TAG STATE COOKIE`: what it
    /// counted from its start on.
    Counts(Counts),
    /// `fault K`: the line has a fault and has changed nothing.
    Fault(LineFault),
    /// `memory`: an allocation failed.
    NoMemory,
}

impl Refusal {
    ghost use Rattle.std.specs.Prelude.{◌≡◌};
    ghost use Rattle.sctp_end.specs.ReplyText.{refusal_code};

    /// The code C of `refused`, 1 to 8.
    pub fn code(self) -> u8
        ensures { result ≡ refusal_code self }
    {
        match self {
            Refusal::NotIdle => 1,
            Refusal::NoSuchStream => 1,
            Refusal::Empty => 2,
            Refusal::TooLong => 3,
            Refusal::QueueFull => 4,
            Refusal::Spent => 5,
            Refusal::Resetting => 8,
            Refusal::NotEstablished => 7,
            Refusal::NotAgreed => 1,
            Refusal::NoSuchReset => 2,
            Refusal::NotOpen => 1,
            Refusal::NoPeer => 1,
            Refusal::ReasonTooLong => 2,
        }
    }
}
