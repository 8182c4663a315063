//! What a line asks the endpoint for.

use sctp_terms::Draw;
use sctp_text::Bytes;
use sctp_values::Kind;

/// A call of the endpoint: one case for each command.
#[derive(Debug, PartialEq, Drop)]
pub enum Call {
    /// `connect`: its user calls the peer, with these random values (tag and initial TSN).
    Connect(Draw),
    /// `draw`: the random values for packets that arrive from now on.
    NewDraw(Draw),
    /// `at`: the time, in milliseconds. A smaller one leaves the clock.
    At(u64),
    /// `packet`: these bytes arrive from the network.
    Packet(Bytes),
    /// `build`: it is asked for its next packet.
    Build,
    /// `send`: its user sends a message, whose lifetime ends at `until`, in milliseconds; None is no end.
    Send {
        stream: u16,
        kind: Kind,
        payload_id: u32,
        until: Option<u64>,
        bytes: Bytes,
    },
    /// `send` with a limit of retransmissions (RFC 7496, 3.1): as `Send`, and the message is abandoned if a fragment of it, retransmitted
    /// `max_retransmits` times already (0 to 65,535), would be retransmitted once more.
    SendWithMaxRetransmits {
        stream: u16,
        kind: Kind,
        payload_id: u32,
        until: Option<u64>,
        max_retransmits: u16,
        bytes: Bytes,
    },
    /// `abandon`: its user abandons the message with this ticket.
    Abandon {
        ticket: u64,
    },
    /// `acknowledged`: whether the message with this ticket was acknowledged in full.
    Acknowledged {
        ticket: u64,
    },
    /// `abandoned`: whether the message with this ticket was given TSNs and was abandoned.
    Abandoned {
        ticket: u64,
    },
    /// `take`: its user takes the next message received on a stream.
    Take {
        stream: u16,
    },
    /// `reset`: its user asks for the reset of an outgoing stream (RFC 6525, 5.1).
    Reset {
        stream: u16,
    },
    /// `resets`: its user asks which stream the peer has reset, the lowest that wasn't reported.
    Resets,
    /// `shutdown`: its user closes the association gracefully.
    Shutdown,
    /// `abort`: its user aborts the association, for this reason.
    Abort(Bytes),
    /// `next`: when it has to be notified of the time.
    Next,
    /// `state`: its state, and how its association ended.
    State,
    /// `held`: the bytes in its receive buffer.
    Held,
    /// `reassembly`: of these, the bytes of messages that `take` can't return yet, since a fragment or an earlier message is missing.
    Reassembly,
    /// `status`: next, state and held at once, with what both endpoints agreed on, what is queued, and the first stream on which a message
    /// waits for its user.
    Status,
    /// `path`: the bytes in flight, and what is known of the path to its peer.
    Path,
    /// `counts`: what it counted from its start on.
    Counts,
}
