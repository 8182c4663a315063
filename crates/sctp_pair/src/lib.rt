//! Two endpoints, every packet that either has given to the network, and a log of what their users sent and took: the theorem about two
//! endpoints as a promise of running code.
//!
//! `Pair` is the model's world of two ends (`sctp_model/specs/world`) in code. Every contract speaks of all worlds that a pair stands for
//! (`PairStands`): each endpoint stands for that world's end; the packets in each *bag*, which are those that an endpoint has given to
//! the network, are byte for byte what was written for that world's packets and read as these (`Carries` of `specs/Sides`); and so it is of
//! the logs, the clocks, the random values for INITs that arrive, and whether both endpoints may still be opened without packets.
//!
//! # Promises
//!
//! - `Pair::new` and `Pair::with_key` make a caller A and a listener B, whose cookies are sealed with the key of bytes 0 to 31, or with the
//!   given key.
//! - `Pair::of_two` and `Pair::of_two_with_key` make the same of two endpoints with configurations of their own. `open` between endpoints that
//!   wouldn't agree is refused and changes nothing; `connect` opens them by packets.
//! - `Pair::step` makes one step of the world and returns what that step answers: both endpoints opened without packets, an endpoint's clock
//!   that goes on, an endpoint notified of the time of its clock, both of these at both endpoints, random values, a call, a packet built, one
//!   of a bag delivered, a third party's packet, a message sent, with or without a limit of retransmissions, abandoned or taken, a stream
//!   reset, the peer's resets reported, shutdown, abort. If an allocation fails, an arriving packet has taken effect up to the failing chunk,
//!   and any other event has changed nothing; only events that allocate can fail so (`TakesMemory` of `specs/Memory`), never a clock that goes
//!   on alone, random values, a call, the report of a reset or a shutdown.
//! - Each endpoint has a clock of its own; nothing compares the two. A time before a clock leaves it.
//! - `Pair::run` makes the steps of several events and returns their answers.
//! - **Both promise that the association is safe** (`Promised` of `specs/PairRuns`): if the course of the pair from its start meets the three
//!   premises (FRESH: no third party's packet carries a tag that an endpoint generates in the run, or an INIT that proposes one;
//!   UNFORGED: none has a COOKIE ECHO with a cookie that the listener's key seals; AGED: no packet is delivered after either endpoint has
//!   assigned 2^31 - 65,536 more TSNs than when it was built), then in each world on the way both directions are safe: each message
//!   delivered is one that the peer sent on that stream, whole, at most once, ordered ones in their order; and once an endpoint has
//!   completed its association, no message that was given a TSN is missing.
//! - `premises_are_the_keys` states the first two premises in the words of the listener's key.
//! - `Pair::report` is the report of the world, byte for byte: for A and then for B the state and how the association ended, the tickets that
//!   were given TSNs, those abandoned, and what was delivered on each stream, taken or not.
//! - `Pair::end`, `packet` and `clock` are an endpoint, a packet of a bag, the time of an endpoint's clock.
//!
//! `docs/proofs/sctp_pair.md` has these promises in full, how they are proved, and what a body may still get away with.
#![tactic(auto)]

mod alike;
mod arrivals;
mod clocks;
mod happening;
mod hearing;
mod laws;
mod moments;
mod one_side;
mod pair;
mod reporting;
mod resets;
mod sending;
mod taken;
mod user_calls;

pub use laws::premises_are_the_keys;
pub use pair::Pair;
pub use sctp_endpoint::{
    Abandoned, ConfigFault, Draw, Endpoint, Key, Message, NoMemory, Reason, Ticket,
};
pub use sctp_events::{Event, Outcome, PairConfig, Refusal, Side, TwoConfigs};
pub use sctp_terms::Mode;
