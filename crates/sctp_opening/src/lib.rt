//! How an association opens, as far as no endpoint is needed for it: what INIT and INIT ACK say, what the cookie of a COOKIE ECHO says, packets of one
//! chunk, and what is done with a packet that arrives at an endpoint without an association (RFC 9260, 5.1, 5.2.4 and 8.4).
//!
//! A caller puts its INIT into a packet with [`put_init`]. A listener keeps no state: [`Outside::hear`] answers the INIT, and says when a cookie begins
//! an association. The caller takes the cookie of an INIT ACK with [`cookie_of`], or refuses it with [`ack_abort`]; what both endpoints have then
//! negotiated is [`Terms`].
//!
//! # What is promised
//!
//! The contracts speak of the definitions in `sctp_model/specs/end` (`Options`, `Reports`, `Opening`, `Strays`), for every endpoint of that state machine
//! with this configuration and at this time (`IsAt`; without an association `IsOutside`).
//!
//! - [`Outside::hear`]: for a listener, and for a closed endpoint, the content of a valid cookie, or the reason why the packet is dropped, or the packet
//!   that answers it, byte for byte as the state machine has it (clause `answer`; the table is at the head of `outside.rt`). A reply has at most as many
//!   bytes as the packet limit (`within`). Memory is allocated only if the packet is to be answered (`memory`). Nothing is kept: the call can't change what
//!   it reads.
//! - [`read_cookie`]: a cookie is valid, stale or strange exactly as the state machine's listener finds it, whatever the key (`read`); of a stale one the
//!   Measure of Staleness is reported (`late`). [`CookieReading::is_of`]: it is the cookie of the association with these tags, whatever its age.
//! - [`cookie_of`]: the first State Cookie among the parameters that are used, if nothing is wrong with the INIT ACK; else the first of its faults: no
//!   stream, no cookie, a cookie too large for a COOKIE ECHO. [`ack_abort`]: the packet with the ABORT for that fault (`packet`), within the packet limit
//!   (`within`).
//! - [`put_ack_report`]: the causes of the next ERROR are those of the state machine after this INIT ACK: one more, which has those unrecognized parameters
//!   that fit, or none (`step`). If an allocation fails they are unchanged (`refused`).
//! - [`put_init`]: the INIT of the state machine is appended exactly if it fits (`answer`, `after`); if an allocation fails the packet is unchanged
//!   (`unchanged`).
//! - [`Terms::of_init_ack`], [`Terms::of_cookie`], [`Terms::alike`]: the terms of a caller, of a listener, and of an endpoint established without packets.
//! - [`lone_packet`], [`abort_packet`]: the packet of that one chunk, between the configured ports and with that tag (`packet`), within the packet limit
//!   (`within`). [`room_behind`]: a chunk fits a packet of its own exactly if it has at most this many bytes after its fixed ones (`exact`).
//!
//! Unrecognized parameters are reported in order as long as they fit the packet; the RFC doesn't say which of them to leave out. The parameters are gone
//! through once for each type that is used and once for those reported (`parameters.rt`), so no table of them is kept.
//!
//! # What a body may still get away with
//!
//! Returning `NoMemory` although there is memory. That it doesn't is shown by the rows of the programs, in which associations open by packets.
#![tactic(auto)]

mod calling;
mod cookies;
mod listening;
mod lists;
mod options;
mod outside;
mod packets;
mod parameters;
mod terms;

pub use calling::{AckFault, ack_abort, cookie_of, put_ack_report};
pub use cookies::{CookieReading, read_cookie};
pub use options::put_init;
pub use outside::{Outside, Stray};
pub use packets::{abort_packet, lone_packet, room_behind};
pub use terms::Terms;
