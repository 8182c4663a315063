//! The headline in users' words, and the premise on ages in a user's words.
//!
//! No function here does anything: each carries a theorem as its contract.

ghost use Rattle.sctp_outcomes.specs.AgedSinceBuilt.{AgedAsksNoLess, AgedAsksNoMore, PlansOnlyGrow};
ghost use Rattle.sctp_outcomes.specs.Users.{ShortRunsAreFaithful, UsersTakeWhatWasSent};

/// The headline in users' words, by events, answers and the readers of an endpoint, for every run that meets the three premises, on each stream in each
/// direction: each message that was taken or waits for `take` is one that the peer's user passed to `send` and that was accepted, on this stream, of this
/// kind, with its payload protocol identifier and its bytes; none is delivered twice; ordered ones are in the order in which they were sent, and one that
/// was sent before a delivered one was delivered or given up: by `abandon`, which answered so, by its lifetime, or, if partial reliability was agreed on, by
/// a limit of retransmissions that it was given. A message that is reported acknowledged was delivered, or the peer holds all its bytes in chunks of this
/// message alone. Once either endpoint has completed the association, each accepted message was delivered or given up (RFC 9260, 6.5, 6.6 and 9.2;
/// RFC 3758, 3.5).
// law
pub fn users_take_what_was_sent()
    ensures { UsersTakeWhatWasSent }
{}

/// The same of every run in which each endpoint assigns fewer than 2^31 TSNs, half of all that there are, however late packets arrive: it needs two premises
/// alone, FRESH and UNFORGED (RFC 9260, 2.6).
// law
pub fn short_runs_are_faithful()
    ensures { ShortRunsAreFaithful }
{}

/// AGED asks just this: each packet is delivered before either endpoint has assigned 2^31 - 65,536 more TSNs than when it was built. For the number of TSNs
/// that an endpoint has assigned only grows.
// law
pub fn aged_asks_no_more()
    ensures more { AgedAsksNoMore }
    ensures less { AgedAsksNoLess }
    ensures grows { PlansOnlyGrow }
{}
