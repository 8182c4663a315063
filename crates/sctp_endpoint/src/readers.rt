//! What is known of an endpoint. None of these calls changes anything or allocates memory.

ghost use Rattle.std.specs.Prelude.{◌≡◌, ℕ, ◌≤◌, ◌*◌, Some, None, MatchOption, option_map, slice_get, length};
ghost use Rattle.sctp_model.specs.sender.Entries.{in_flight};
ghost use Rattle.sctp_model.specs.sender.Readers.{outstanding, acknowledged, abandoned};
ghost use Rattle.sctp_model.specs.numbers.Limits.{WINDOW, QUEUE_LIMIT, LONGEST_MESSAGE};
ghost use Rattle.sctp_model.specs.sender.Abandoning.{has_late};
ghost use Rattle.sctp_model.specs.receiver.ReceiverView.{held_bytes, size_of_pieces};
ghost use Rattle.sctp_model.specs.end.EndView.{EndView, state_of, ended_of};
ghost use Rattle.sctp_model.specs.end.Moments.{next_moment};
ghost use Rattle.sctp_terms.specs.Meanings.{end_meaning, state_meaning};
ghost use Rattle.sctp_send.specs.SenderAnswers.{next_late, abandoned_messages};
ghost use Rattle.sctp_send.specs.Waiting.{queued_bytes, queued_bytes_on};
ghost use Rattle.sctp_recv.specs.HandedOf.{handed_of};
ghost use Rattle.sctp_recv.specs.Readable.{ReadableAnswer};
ghost use Rattle.sctp_association.specs.Agreeing.{AgreedAnswer};
ghost use Rattle.sctp_association.specs.PathAnswers.{PathAnswer};
ghost use Rattle.sctp_outcomes.specs.Kept.{IsSound};
ghost use Rattle.sctp_endpoint.specs.EndpointStands.{EndpointStands};
ghost use Rattle.sctp_endpoint.specs.Counted.{counted, counts_meaning};

use crate::counts::Counts;
use crate::endpoint::Endpoint;
use sctp_association::{Agreed, Path};
use sctp_recv::Message;
use sctp_terms::{Config, End, State};
use sctp_values::Ticket;

#[tactic(auto, unfolding(crate::specs::EndpointStands::EndpointStands, crate::specs::Counted::counted))]
impl Endpoint {
    /// The state (RFC 9260, 4): `Closed` before `connect`, and again once the association is over.
    pub fn state(&self) -> State
        ensures { (v : EndView) → EndpointStands self.now v → state_meaning result ≡ state_of v.phase }
    {
        self.machine.state()
    }

    /// How the association ended, once it is over: the endpoint then stays closed for good.
    pub fn ended(&self) -> Option<End>
        ensures { (v : EndView) → EndpointStands self.now v → option_map end_meaning result ≡ ended_of v.phase }
    {
        self.machine.ended()
    }

    /// When to call `on_moment` next, in milliseconds: the earliest time at which a running timer expires or a delayed SACK is due; None if there is
    /// neither. The ends of messages' lifetimes (`until` of `send`) don't count: who uses them calls `on_moment` at these times, too.
    pub fn next_moment(&self) -> Option<u64>
        ensures { (v : EndView) → EndpointStands self.now v → result ≡ next_moment v }
    {
        self.machine.next_moment()
    }

    /// Whether the peer has acknowledged the whole message with this ticket, and it wasn't abandoned.
    pub fn acknowledged(&self, ticket: Ticket) -> bool
        ensures { (v : EndView) → EndpointStands self.now v → result ≡ acknowledged v.sender ticket.0 }
    {
        self.machine.acknowledged(ticket)
    }

    /// Whether the message with this ticket was abandoned after it was sent, in part at least (RFC 3758, 3.5).
    pub fn abandoned(&self, ticket: Ticket) -> bool
        ensures { (v : EndView) → EndpointStands self.now v → result ≡ abandoned v.sender ticket.0 }
    {
        self.machine.abandoned(ticket)
    }

    /// The bytes of user data in the receive buffer: received, and not yet returned by `take`. Never more than `Config::buffer`.
    pub fn held_bytes(&self) -> u32
        ensures held { (v : EndView) → EndpointStands self.now v → result ≡ held_bytes v.receiver }
        ensures bound { (v : EndView) → EndpointStands self.now v → result ≤ v.configuration.buffer }
    {
        self.machine.held_bytes()
    }

    /// Of `held_bytes`, those that `take` can't return yet: the user data of messages of which a fragment is missing, and of ordered messages that
    /// follow such a message on their stream. If they fill the receive buffer, `Config::buffer`, no message becomes complete any more: a peer that
    /// has begun more messages on different streams than the buffer can hold whole (RFC 8260) is then stalled for good. If no message waits for
    /// `take` the answer takes a few steps; else some for each stream.
    pub fn reassembly_bytes(&self) -> u32
        ensures { (v : EndView) → EndpointStands self.now v → result ≡ size_of_pieces v.receiver.kept }
    {
        self.machine.reassembly_bytes()
    }

    /// The configuration that it was made with.
    pub fn config(&self) -> &Config
        ensures { (v : EndView) → EndpointStands self.now v → result.now ≡ v.configuration }
    {
        self.machine.config()
    }

    /// How many tickets `send` has returned: they are 1, 2, 3 and so on.
    pub fn tickets(&self) -> u64
        ensures { (v : EndView) → EndpointStands self.now v → result ≡ v.sender.tickets }
    {
        self.machine.tickets()
    }

    /// Of the messages that wait for `take` on a stream, the one at this position, from 0; None past the last.
    pub fn waiting(&self, stream: u16, place: usize) -> Option<&Message>
        ensures { (v : EndView) → EndpointStands self.now v → MatchOption result (slice_get (v.receiver.waiting stream) place ≡ None)
            (λ m. slice_get (v.receiver.waiting stream) place ≡ Some (handed_of m.now)) }
    {
        self.machine.waiting(stream, place)
    }

    /// The number of streams that the peer may send on: 0 before an association (RFC 9260, 5.1.1).
    pub fn inbound(&self) -> u16
        ensures { (v : EndView) → EndpointStands self.now v → result ≡ v.receiver.streams }
    {
        self.machine.inbound()
    }

    /// The number of streams that `send` may use: 0 before an association (RFC 9260, 5.1.1).
    pub fn outbound(&self) -> u16
        ensures { (v : EndView) → EndpointStands self.now v → result ≡ v.terms.outbound }
    {
        self.machine.outbound()
    }

    /// Whether user data is sent as I-DATA: both endpoints support it (RFC 8260, 2.2.1).
    pub fn is_interleaved(&self) -> bool
        ensures { (v : EndView) → EndpointStands self.now v → result ≡ v.terms.interleave }
    {
        self.machine.is_interleaved()
    }

    /// Whether messages may be abandoned after they were sent: both endpoints support partial reliability (RFC 3758, 3.3).
    pub fn is_partial(&self) -> bool
        ensures { (v : EndView) → EndpointStands self.now v → result ≡ v.terms.partial }
    {
        self.machine.is_partial()
    }

    /// Whether the lifetime of a message is over at this time, in milliseconds: `on_moment` would abandon it (RFC 3758, 3.5).
    pub fn has_late(&self, now: u64) -> bool
        ensures { (v : EndView) → EndpointStands self.now v → result ≡ has_late v.sender now }
    {
        self.machine.has_late(now)
    }

    /// Of the messages that may be abandoned and whose lifetime is over at this time, in milliseconds, the lowest ticket above `last`; `Ticket(0)` is
    /// below all. Called again with each result, it lists all that `on_moment` would abandon at that time (RFC 3758, 3.5). It is a binary search in
    /// what is queued and what isn't acknowledged, past groups of tickets whose lifetimes aren't over.
    pub fn next_late(&self, last: Ticket, now: u64) -> Option<Ticket>
        ensures { (v : EndView) → EndpointStands self.now v → option_map (λ t. t.0) result ≡ next_late v.sender last.0 now }
    {
        self.machine.next_late(last, now)
    }

    /// The number of TSNs assigned above the cumulative TSN that the peer acknowledged, plus one for each message of which only a part has TSNs: never
    /// more than 32,767, so that no TSN is ambiguous (RFC 9260, 1.6).
    pub fn outstanding(&self) -> u32
        ensures count { (v : EndView) → EndpointStands self.now v → result ≡ outstanding v.sender }
        ensures bound { (v : EndView) → EndpointStands self.now v → outstanding v.sender ≤ WINDOW }
    {
        self.machine.outstanding()
    }

    /// The number of messages queued: accepted by `send`, and no fragment has a TSN yet (RFC 9260, 6.1). None before an association, and at most
    /// 1,024: `send` then refuses.
    pub fn queued(&self) -> usize
        ensures count { (v : EndView) → EndpointStands self.now v → result ≡ length v.sender.queue }
        ensures bound { (v : EndView) → EndpointStands self.now v → result ≤ QUEUE_LIMIT }
    {
        self.machine.queued()
    }

    /// The bytes of the messages that `queued` counts, at most 65,536 of each.
    pub fn queued_bytes(&self) -> u64
        ensures bytes { (v : EndView) → EndpointStands self.now v → result ≡ queued_bytes v.sender }
        ensures bound { (v : EndView) → EndpointStands self.now v → result ≤ QUEUE_LIMIT * LONGEST_MESSAGE }
    {
        self.machine.queued_bytes()
    }

    /// Of the bytes that `queued_bytes` counts, those of the messages on this stream, ordered or not, with one of these payload protocol identifiers; an
    /// identifier given twice counts once. 0 before an association. Of 51 and 53, in this order, it is the user data that a data channel buffers
    /// (RFC 8831, 8), which is kept as a number of each stream. Of others it is a walk over the queue.
    pub fn queued_bytes_on(&self, stream: u16, payload_ids: &[u32]) -> u64
        ensures bytes { (v : EndView) → EndpointStands self.now v → result ≡ queued_bytes_on stream payload_ids.now v.sender }
        ensures bound { (v : EndView) → EndpointStands self.now v → result ≤ QUEUE_LIMIT * LONGEST_MESSAGE }
    {
        self.machine.queued_bytes_on(stream, payload_ids)
    }

    /// The peer's advertised receiver window (a_rwnd) in bytes, as last received: 0 before an association. Bytes in flight are not subtracted (RFC 9260,
    /// 3.3.2 and 3.3.4).
    pub fn peer_window(&self) -> u32
        ensures { (v : EndView) → EndpointStands self.now v → result ≡ v.sender.rwnd }
    {
        self.machine.peer_window()
    }

    /// The lowest stream, `from` or above, on which a message waits for `take`; None exactly if there is none, as before an association. Called again
    /// with the stream after each result, and from 0 after None, it goes round all streams. It reads a few words of a bit set.
    pub fn readable(&self, from: u16) -> Option<u16>
        ensures { (v : EndView) → EndpointStands self.now v → ReadableAnswer v.receiver.waiting from result }
    {
        self.machine.readable(from)
    }

    /// The number of streams each way and the extensions that both endpoints negotiated, also once the association is over; None exactly if no stream
    /// was negotiated, as before an association (RFC 9260, 5.1.1; RFC 8260, 2.2.1; RFC 3758, 3.3).
    pub fn agreed(&self) -> Option<Agreed>
        ensures { (v : EndView) → EndpointStands self.now v → AgreedAnswer v.terms result }
    {
        self.machine.agreed()
    }

    /// Every view that it stands for is sound (`IsSound` of sctp_outcomes): before an association sender and receiver are as they are made; the
    /// receive buffer is the configured one; and each TSN is of a message that has its number.
    // law
    pub fn sound(&self)
        ensures { (v : EndView) → EndpointStands self.now v → IsSound v }
    {
        self.machine.sound();
    }

    /// The bytes of user data in flight: sent, and neither acknowledged, abandoned nor marked for retransmission; 0 before an association
    /// (RFC 9260, 6.1).
    pub fn in_flight(&self) -> u64
        ensures { (v : EndView) → EndpointStands self.now v → result ≡ in_flight v.sender }
    {
        self.machine.in_flight()
    }

    /// What it knows of the path to its peer: round trips, RTO, congestion window and threshold (RFC 9260, 6.3.1 and 7.2). None exactly if it has no
    /// pace: before an association, and without fast retransmit.
    pub fn path(&self) -> Option<Path>
        ensures { (v : EndView) → EndpointStands self.now v → PathAnswer v result }
    {
        self.machine.path()
    }
    /// What it counted from its start on: packets, bytes, chunks of user data, SACKs, abandoned messages, and what was dropped, each modulo 2^64. The clause `counts` of each call says what
    /// that call adds.
    pub fn counts(&self) -> Counts
        ensures counts { counts_meaning result ≡ counted self.now }
        ensures abandoned { (v : EndView) → EndpointStands self.now v → result.abandoned ≡ abandoned_messages v.sender }
    {
        self.tally.counts(self.machine.abandoned_messages())
    }
}
