//! The calls.

use crate::pacing::PaceCall;
use crate::plain::Plain;
use crate::resets::ResetCall;
use sctp_send::Ticket;

/// A call of a sender, of a receiver, of both, or of neither.
#[derive(Clone, Copy)]
pub enum Call<'a> {
    /// A new sender; every packet of the one before it is dropped.
    Sender {
        tsn: u32,
        streams: u16,
        fragment: u16,
        rwnd: u32,
        partial: bool,
    },
    /// A new receiver.
    Receiver {
        tsn: u32,
        streams: u16,
        buffer: u32,
    },
    Queue {
        stream: u16,
        ordered: bool,
        payload_id: u32,
        until: Option<u64>,
        bytes: &'a str,
    },
    /// The same message on each stream below a number, in turn.
    QueueEach {
        streams: u16,
        ordered: bool,
        payload_id: u32,
        until: Option<u64>,
        bytes: &'a str,
    },
    Fill {
        limit: u16,
        /// The buffer of the tickets is returned to the sender.
        recycled: bool,
    },
    /// A FORWARD for packets of a limit, into a packet of a given size.
    Forward {
        room: u16,
        limit: u16,
    },
    Sack {
        tsn: u32,
        rwnd: u32,
        /// Words, if there are any.
        blocks: Option<&'a str>,
    },
    Shutdown {
        tsn: u32,
    },
    Abandon(Ticket),
    Expire {
        now: u64,
    },
    Timeout,
    /// What has become of a message.
    Fate(Ticket),
    /// The readers of the sender.
    Sending,
    /// The sender gives memory back that it doesn't use.
    Trim,
    /// What congestion control asks of the sender.
    Pace(PaceCall<'a>),
    /// A DATA or I-DATA chunk arrives.
    Data {
        tsn: u32,
        stream: u16,
        flags: &'a str,
        number: u32,
        word: u32,
        bytes: &'a str,
    },
    /// Whole messages of one byte arrive, their numbers rising by one and their TSNs by a step.
    Rise {
        count: u32,
        tsn: u32,
        stream: u16,
        number: u32,
        step: u32,
    },
    /// A number of FORWARDs without entries arrive, each as far past the one before as allowed.
    Leap {
        count: u32,
        tsn: u32,
    },
    /// A FORWARD arrives.
    Skip {
        tsn: u32,
        /// Words, if there are any.
        skips: Option<&'a str>,
    },
    /// A packet that the sender has built arrives at the receiver.
    Carry {
        packet: usize,
    },
    Take {
        stream: u16,
    },
    /// The stream from which a message is taken next.
    NextReadable(u16),
    /// The SACK that the receiver sends now.
    Tell,
    /// The SACK that the receiver sends now arrives at the sender.
    Acknowledge,
    /// The readers of the receiver.
    Receiving,
    /// The receiver gives memory back that it doesn't use.
    TrimReceiver,
    /// A call of stream reset.
    Reset(ResetCall<'a>),
    /// A call of numbers, bytes or cookies.
    Plain(Plain<'a>),
}
