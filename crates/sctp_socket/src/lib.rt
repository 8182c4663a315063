//! Many peers at one socket: which packet is for which association, and when a cookie begins one or begins it anew (RFC 9260, 5.2, 8.4 and 8.5; RFC 6458, 3; RFC 6951, 5.4).
//!
//! It is a first part: what a socket decides, what it keeps under numbers and tags, and a socket that calls and handles packets. It doesn't send yet, and no program uses this crate.
//! It knows an endpoint by the trait [`SocketEnd`] alone: its definitions and laws are of the state machine in `sctp_model/specs/end`.
//!
//! # What is promised
//!
//! - [`is_found_by_peer`]: an INIT, a COOKIE ECHO, and an ABORT or a SHUTDOWN COMPLETE with the T bit are for the association with the peer that they are from; all others for the
//!   one whose verification tag they have, if [`Peer::admits`] their host. [`Peer::followed`]: where its packets go then.
//! - [`Place::route`]: a packet is for nobody, for an association's endpoint, or for a listener that is made for it, as the table has it (`specs/Routing`).
//! - [`Place::hear`]: such a listener answers or drops the packet as one would that was kept, and stays as it is (clause `step`); or it says which content a valid cookie has. An
//!   answer is within the packet limit (`within`). Memory is allocated only for an answer (`memory`).
//! - [`reply_to`], [`meets`]: how an INIT is answered, and what a cookie does that opens, by what there is with its peer (`specs/Meeting`).
//! - [`key_for`]: the key of a peer's cookies is HMAC of the master key over a text that stands for the peer; [`Host::new`] takes 1 to 32 bytes.
//! - [`Numbered`]: values under numbers that are never given again. [`Tags`]: the association that each verification tag is of, never two. [`ByPeer`]: the latest
//!   association with each peer. [`Table`]: the associations of a socket, by number and by tag; [`Table::find`] is the one that a packet under its tag is for, exactly if there is one
//!   whose peer admits it. [`Turns`]: who may send, in turn.
//! - [`Socket::connect`]: a call begins an association with the next number, or the first reason that applies refuses it and nothing changes (`specs/Connecting`).
//!   [`Socket::handle_packet`]: a packet has the effect that the tables say, and at the endpoint that it is for the state machine's (`specs/Hearing`). [`Socket::end`], [`Socket::peer`]: an
//!   association's endpoint, and where its packets go.
//! - Laws: [`calls_meet`] (of two sockets that call each other one call wins, as both see it; no tag of one side serves two associations), [`routes_are_narrow`] (which packets reach an
//!   endpoint), [`listeners_are_values`] (nothing is kept of an unverified INIT), [`peers_are_apart`], [`each_is_alone`] (what an endpoint does beside others is what it does alone),
//!   [`each_turn_comes`].
//!
//! That these tables bring two callers together, whatever the network does, isn't proved: `tests/socket/meet.py` walks it.
//!
//! # What a body may still get away with
//!
//! Returning `NoMemory` although there is memory: the tests show that it doesn't.
#![tactic(auto)]

mod arriving;
mod beginning;
mod by_peer;
mod calling;
mod ends;
mod entries;
mod heard;
mod laws;
mod listening;
mod meeting;
mod numbered;
mod peer;
mod routing;
mod socket;
mod table;
mod tags;
#[cfg(test)]
mod tests;
mod turns;

pub use by_peer::ByPeer;
pub use calling::CallFault;
pub use ends::SocketEnd;
pub use heard::{Heard, Origin};
pub use laws::{
    calls_meet, each_is_alone, each_turn_comes, listeners_are_values, peers_are_apart,
    routes_are_narrow,
};
pub use meeting::{Meeting, Reply, Standing, meets, reply_to};
pub use numbered::Numbered;
pub use peer::{Host, Peer, Source, key_for};
pub use routing::{Place, Route, is_found_by_peer};
pub use socket::Socket;
pub use table::{Entry, Table};
pub use tags::Tags;
pub use turns::Turns;
