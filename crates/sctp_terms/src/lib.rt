//! The vocabulary that an endpoint and its users share: its configuration, the random values that it needs, its state and how its association
//! ended, and why a packet or a call is refused.
//!
//! Contracts see a [`Config`] as the definitions' `Configuration` (`sctp_model/specs/end/Settings`), which is within its limits
//! (`IsConfiguration`, `end/Configured`) and asks for none of the options of waits, HEARTBEATs, memory and checksums (`HasPlainOptions`), and a
//! [`Draw`] as their `Draw`, whose tag isn't 0 (`IsDraw`). What the other types mean in the definitions is in `specs/Meanings`.
//!
//! | public function | what is promised |
//! |---|---|
//! | [`Config::new`] | the configuration with just these values, if it has no fault: no extension asked for, a SACK for each packet, closing by this profile's timers, no fast retransmission or congestion control; otherwise the first fault that it has (`configuration_fault`, in the order of the codes) |
//! | [`Config::for_data_channels`] | the configuration for data channels between these ports (`data_channel_configuration`), unless a port is 0 |
//! | [`Config::with_peer_port`] | this configuration with that peer's port, unless it is 0 (`configuration_fault`) |
//! | [`Config::with_partial`], [`Config::with_interleave`] | this configuration, asking also for partial reliability, for I-DATA |
//! | [`Config::with_reset`] | this configuration, asking also for the reset of streams |
//! | [`Config::with_delay`], [`Config::with_standard_closing`] | this configuration, with delayed SACKs; closing by the RFC's timers |
//! | [`Config::with_fast_retransmit`], [`Config::with_congestion_control`], [`Config::with_rto_min`] | this configuration, with fast retransmission; with congestion control and fast retransmission; with another RTO.Min |
//! | [`Config::limit`] and the other readers | the value that it was made with, within its limits |
//! | [`Settings::of`], [`Settings::with_limit`] and the others, [`Settings::checked`] | a configuration's values; the same with other ones; the configuration with these values, None if they have a fault |
//! | [`faultless_is_configured`] (law) | a configuration with ports of 16 bits has no fault if and only if it and its options are within their limits |
//! | [`Draw::new`] | these random values; None if and only if the tag is 0 |
//! | [`Draw::tag`], [`Draw::tsn`] | the value that it was made with; the tag is never 0, and both have 32 bits |
//! | [`Mode::asked`] | this configuration, asking also for what the mode says: for neither extension, for one, or for both |
//! | [`ConfigFault::code`], [`Reason::code`] | the number that is printed, 1 to 5 |
//!
//! [`State`], [`End`] and the refusals [`ConnectFault`], [`ShutdownFault`], [`ResetFault`] and [`AbortFault`] have no calls.
#![tactic(auto)]

mod calls;
mod config;
mod config_fault;
mod configured;
mod data_channels;
mod draw;
mod laws;
mod life;
mod mode;
mod pacing;
mod ports;
mod reason;
mod settings;

pub use calls::{AbortFault, ConnectFault, ResetFault, ShutdownFault};
pub use config::Config;
pub use config_fault::ConfigFault;
pub use draw::Draw;
pub use laws::faultless_is_configured;
pub use life::{End, State};
pub use mode::Mode;
pub use reason::Reason;
pub use settings::Settings;
