//! The configuration, the events and the outcomes of a pair of endpoints: what a script (sctp_script) and the pair itself (sctp_pair) share,
//! so that neither depends on the other for it.
//!
//! A *pair* is two endpoints, A the caller and B the listener, and the network between them. `Event` has one case for each line of a
//! script that acts on it (`send` has two, since a message may have a limit of retransmissions), `Outcome` one for each line that answers. Their meaning is stated in `specs/Events` in the words of the model
//! (`sctp_model/specs/world/Events`): an event either is one of the model's, or brings the bytes of a third party, whatever they are; an
//! outcome names no endpoint, since the event does.
//!
//! # Promises
//!
//! - `PairConfig::new` makes the configuration of both endpoints, equal but for the ports (5,000 for A, 5,001 for B), asking for the
//!   extensions of the mode, exactly if an endpoint's configuration of these values has no fault; else it returns the first fault.
//! - `PairConfig::with_delay` and `with_standard_closing` set the option of both endpoints, and nothing else: delayed SACKs (RFC 9260, 6.2),
//!   and closing by the RFC's timers (RFC 9260, 9.2). So do `with_fast_retransmit` (6.3.1 and 7.2.4), `with_congestion_control` (7.2), which sets both,
//!   `with_rto_min` and `with_reset` (RFC 6525).
//! - `PairConfig::caller` is A's configuration, `listener` the same with the two ports exchanged.
//! - `TwoConfigs::of` takes the configurations of two endpoints that need not be alike, exactly if the port of each is the port of the other's
//!   peer; `TwoConfigs::alike` those of a pair. `caller` and `listener` are its two.
//! - `Side::other` is the other endpoint.
//!
//! `specs/Setups` says how a pair is set up at the start of the model's runs. `Event`, `Outcome` and `Refusal` are plain data.
#![tactic(auto)]

mod config;
mod event;
mod outcome;
mod two_configs;

pub use config::PairConfig;
pub use event::{Event, Side};
pub use outcome::{Outcome, Refusal};
pub use two_configs::TwoConfigs;
