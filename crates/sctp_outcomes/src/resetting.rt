//! Stream reset at each endpoint: no request is forgotten, and what is reported of the peer's resets is so.
//!
//! No function here does anything: each carries laws as its contract.

ghost use Rattle.sctp_outcomes.specs.Resets.{EachCountIsOfARequest, NeverMoreThanWait, NoRequestIsForgotten, ReadyIsAskedFor};

/// In every world of every run, also of one that meets no premise, a request of an established endpoint that waits for its answer is due, or its timer runs
/// (RFC 6525, 5.1.1).
// law
pub fn no_request_is_forgotten()
    ensures { NoRequestIsForgotten }
{}

/// If streams are ready, none of an endpoint's requests waits and a number is left, its next packet asks for them; if there is no space left in it, the
/// request is due still (RFC 6525, 5.1).
// law
pub fn ready_streams_are_asked_for()
    ensures { ReadyIsAskedFor }
{}

/// In every world of every run, also of one that meets no premise, each count that is reported of a reset is of messages that had been delivered when a
/// request in a packet that arrived was performed, taken ones not counted, and never more than wait for `take` (RFC 6525, 5.2.2).
// law
pub fn reported_counts_were_so()
    ensures counts { EachCountIsOfARequest }
    ensures waiting { NeverMoreThanWait }
{}
