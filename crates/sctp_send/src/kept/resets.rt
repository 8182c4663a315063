//! What is kept of the resets of outgoing streams (RFC 6525, 5.1): a table, which the first reset allocates.

ghost use Rattle.std.specs.Prelude.{◌≡◌, ◌&&◌, ℕ, not, is_some, nat_lt, Some, None, MatchOption, slice_get};
ghost use Rattle.sctp_send.specs.OutstandingFields.{lane_of};
ghost use Rattle.sctp_model.specs.numbers.Limits.{REQUEST_LIMIT};
ghost use Rattle.sctp_model.specs.sender.Outgoing as model;
ghost use Rattle.sctp_model.specs.sender.Outgoing.{is_sending, is_later};
ghost use Rattle.sctp_model.specs.sender.Resetting.{numbering_of};
ghost use Rattle.sctp_send.specs.inner.Resetting.{listed_under, takes_next_in};
ghost use Rattle.sctp_send.specs.ResetsKept.{base_by, base_in, base_of, sending_meaning, sending_there, sending_under, is_resetting_in, made_under, numbering_meaning, pending_under, request_meaning};
ghost use Rattle.sctp_values.specs.Meanings.{kind_meaning};

use crate::kept::request::{Numbering, Request, numbering_from, open_request, takes_next, waits};
use sctp_values::Kind;

/// The most sequence numbers of requests, so that they are within half of their space.
pub(crate) const MOST_REQUESTS: u32 = 0x7fff_ffff;

/// Whether a stream takes messages of its user.
#[derive(Clone, Copy)]
pub(crate) enum Sending {
    /// It does.
    Sends,
    /// It doesn't, since its reset was asked for.
    Resets,
    /// It doesn't, since the peer refused to reset it.
    Refuses,
}

/// What is kept of a stream: of each kind of message the number that is 0 on the wire, and whether it takes messages.
#[derive(Clone, Copy)]
pub(crate) struct StreamReset {
    pub(crate) ordered: u64,
    pub(crate) unordered: u64,
    pub(crate) sending: Sending,
}

/// All streams, by number; those that wait for their reset, by rising number; by stream an index at which a look for its entries begins; how many
/// sequence numbers of requests were used; and the last request that was made.
#[derive(Drop)]
pub(crate) struct ResetTable {
    pub(crate) streams: Vec<StreamReset>,
    pub(crate) resetting: Vec<u16>,
    pub(crate) hints: Vec<u64>,
    pub(crate) made: u32,
    pub(crate) last_made: Option<Request>,
}

/// The resets of a sender. Until the first one there is no table, and all numbers count from 0.
#[derive(Drop)]
pub(crate) struct OutgoingResets {
    pub(crate) table: Option<Box<ResetTable>>,
}

impl OutgoingResets {
    /// There was no reset.
    pub(crate) fn none() -> OutgoingResets
        ensures { result ≡ record { table = None } }
    {
        OutgoingResets { table: None }
    }

    /// The number of a stream and a kind that is 0 on the wire.
    #[inline(always)]
    pub(crate) fn base(&self, stream: u16, kind: Kind) -> u64
        ensures { result ≡ base_of self.now (lane_of stream kind) }
    {
        match &self.table {
            Some(table) => base_at(&table.streams, stream, kind),
            None => 0,
        }
    }

    /// Whether a stream takes messages of its user; so does one that isn't there.
    #[inline(always)]
    pub(crate) fn sends(&self, stream: u16) -> bool
        ensures { result ≡ is_sending (sending_under self.now.table stream) }
    {
        match &self.table {
            Some(table) => sends_at(&table.streams, stream),
            None => true,
        }
    }

    /// Whether a stream waits for its reset.
    pub(crate) fn is_resetting(&self, stream: u16) -> bool
        ensures { result ≡ model.is_resetting (sending_under self.now.table stream) }
    {
        match &self.table {
            Some(table) => is_resetting_at(&table.streams, stream),
            None => false,
        }
    }

    /// Whether no request waits, and a sequence number is left for one.
    pub(crate) fn is_free(&self) -> bool
        ensures { result ≡ (not (is_some (pending_under self.now.table)) && nat_lt (made_under self.now.table) REQUEST_LIMIT) }
    {
        match &self.table {
            Some(table) => !waits(&table.last_made) && table.made < MOST_REQUESTS,
            None => true,
        }
    }

    /// The streams below 1,024 that wait for their reset, by rising number.
    pub(crate) fn resetting(&self) -> &[u16]
        ensures { result.now ≡ listed_under self.now.table }
    {
        match &self.table {
            Some(table) => &table.resetting,
            None => &[],
        }
    }

    /// By stream an index at which a look for its entries begins.
    pub(crate) fn hints(&self) -> &[u64] {
        match &self.table {
            Some(table) => &table.hints,
            None => &[],
        }
    }

    /// The request that waits for its response.
    pub(crate) fn pending(&self) -> Option<&Request>
        ensures { MatchOption result (pending_under self.now.table ≡ None) (λ request. pending_under self.now.table ≡ Some (request_meaning request.now)) }
    {
        match &self.table {
            Some(table) => open_request(&table.last_made),
            None => None,
        }
    }

    /// Whether a request waits that is to take the next sequence number when it is retransmitted.
    pub(crate) fn takes_next(&self) -> bool
        ensures { result ≡ takes_next_in (pending_under self.now.table) }
    {
        match &self.table {
            Some(table) => takes_next(&table.last_made),
            None => false,
        }
    }

    /// Whether a request waits whose first sequence number isn't this one.
    pub(crate) fn is_past_first(&self, number: u32) -> bool
        ensures { (q : model.Request) → pending_under self.now.table ≡ Some q → result ≡ is_later (numbering_of q number) }
    {
        match self.pending() {
            Some(request) => request.first != number,
            None => false,
        }
    }

    /// Which number of the request that waits this one is, if it isn't in progress under it.
    pub(crate) fn numbering_of(&self, number: u32) -> Numbering
        ensures { (q : model.Request) → pending_under self.now.table ≡ Some q → numbering_meaning result ≡ numbering_of q number }
    {
        match self.pending() {
            Some(request) => numbering_from(request.first, number),
            None => Numbering::First,
        }
    }

    /// How many sequence numbers of requests were used.
    pub(crate) fn made(&self) -> u32
        ensures { result ≡ made_under self.now.table }
    {
        match &self.table {
            Some(table) => table.made,
            None => 0,
        }
    }
}

/// The number of a stream and a kind that is 0 on the wire, when there is a table.
pub(crate) fn base_at(streams: &[StreamReset], stream: u16, kind: Kind) -> u64
    ensures { result ≡ base_in streams.now (lane_of stream kind) }
{
    match streams.get(usize::from(stream)) {
        Some(reset) => base_by(*reset, kind),
        None => 0,
    }
}

/// Whether a stream takes messages, when there is a table.
fn sends_at(streams: &[StreamReset], stream: u16) -> bool
    ensures { result ≡ is_sending (sending_there (slice_get streams.now stream)) }
{
    match streams.get(usize::from(stream)) {
        Some(reset) => is_sending(reset.sending),
        None => true,
    }
}

/// Whether a stream waits for its reset, when there is a table.
pub(crate) fn is_resetting_at(streams: &[StreamReset], stream: u16) -> bool
    ensures { result ≡ is_resetting_in streams.now stream }
{
    match streams.get(usize::from(stream)) {
        Some(reset) => is_resetting(reset.sending),
        None => false,
    }
}

/// It waits for its reset.
fn is_resetting(sending: Sending) -> bool
    ensures { result ≡ model.is_resetting (sending_meaning sending) }
{
    match sending {
        Sending::Resets => true,
        Sending::Sends | Sending::Refuses => false,
    }
}

/// It takes messages.
fn is_sending(sending: Sending) -> bool
    ensures { result ≡ is_sending (sending_meaning sending) }
{
    match sending {
        Sending::Sends => true,
        Sending::Resets | Sending::Refuses => false,
    }
}

/// The number of a kind that is 0 on the wire.
fn base_by(reset: StreamReset, kind: Kind) -> u64
    ensures { result ≡ base_by (kind_meaning kind) reset }
{
    match kind {
        Kind::Ordered => reset.ordered,
        Kind::Unordered => reset.unordered,
    }
}
