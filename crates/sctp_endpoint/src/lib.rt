//! One endpoint of an SCTP association: a state machine without sockets, clock or random numbers (RFC 9260, 4 and 11.1).
//!
//! [`Endpoint`] handles received packets chunk by chunk, returns packets to send, runs its timers by the times it is given, and does what its user
//! asks. Its state is that of `sctp_association`; this crate adds which packets are for it, what each chunk does in each state, and what is due after
//! the last chunk of a packet.
//!
//! # What is promised
//!
//! Contracts speak of the state machine in `sctp_model/specs/end`: for each state (`EndView`) that an endpoint represents (`EndpointStands`, hidden from
//! the crates above), its calls return and leave what that state machine does.
//!
//! - New endpoints ([`Endpoint::caller`], [`Endpoint::listener`], [`Endpoint::opened`]) represent the state machine's fresh or established state.
//! - [`Endpoint::handle_packet`]: a packet is dropped for its bytes, its ports, its verification tag or the state, in this order, or its chunks take effect in
//!   order, as the state machine says; the verdict is the state machine's, an answer's bytes are its packet (clause `step`), no longer than the packet limit
//!   (`within`). If an allocation fails, the chunks before the failing one took effect and nothing else; what is dropped for bytes, ports or tag
//!   needs no memory.
//! - [`Endpoint::poll_transmit`]: there is a packet exactly if the state machine's next packet has a chunk; its bytes are that packet, no longer than the
//!   limit; its tickets are those of the messages that got their first TSN (`step`), none returned before (`anew`), 74 at most (`few`). If an allocation
//!   fails nothing changed, not even the time (`refused`).
//! - The user's calls and [`Endpoint::on_moment`]: each returns what the state machine says, an error exactly if its condition is the first that applies
//!   (`answer`), and leaves its next state (`step`). [`Endpoint::recycle`], [`Endpoint::recycle_tickets`],
//!   [`Endpoint::give_back`], [`Endpoint::take_buffer`], [`Endpoint::copy_bytes`] and [`Endpoint::trim`] leave the state as it is.
//! - Resets of streams: [`Endpoint::reset`] begins exactly where the state machine's does (`answer`), and [`Endpoint::take_reset`] reports the
//!   lowest stream that the peer reset, once (RFC 6525, 5).
//! - Readers return what the state says. At most `Config::buffer` bytes are held, at most 32,767 TSNs are outstanding, at most 1,024 streams wait
//!   for their reset (`bound`).
//! - Each call also says what it leaves of the tickets returned, the messages numbered and the messages taken (clause `logs`), of which the theorem on
//!   two endpoints is made.
//! - Each call also says what it counts of packets, bytes, chunks and reasons (clause `counts`); [`Endpoint::counts`] returns these numbers, modulo 2^64.
//! - [`peek_packet`] and [`abort_cause`] read a packet's bytes alone: its ports and tag, without any check, and the first cause of its ABORT.
//! - Laws: [`one_packet`], [`written_packet_reads`], [`chunk_types`]; [`Endpoint::sound`], [`Endpoint::gives_up_alone`],
//!   [`Endpoint::reached`]. A law is the contract of a function that does nothing.
//!
//! `docs/proofs/sctp_endpoint.md` has each promise with its contract, and what a body may still get away with.
#![tactic(auto)]

mod acting;
mod after;
mod arriving;
mod calls;
mod closing;
mod counts;
mod endpoint;
mod forwards;
mod giving_up;
mod laws;
mod noting;
mod opening;
mod packets;
mod passing;
mod pieces;
mod readers;
mod resets;
mod rooms;
mod sacks;
mod shutdowns;
mod small;
mod strays;
mod tag;
mod transmit;

pub use after::Verdict;
pub use counts::{Counts, Dropped};
pub use endpoint::Endpoint;
pub use laws::{chunk_types, one_packet, written_packet_reads};
pub use packets::{AbortCause, PacketHeader, abort_cause, peek_packet};
pub use sctp_association::{Agreed, Path, Refused};
pub use sctp_cookie::Key;
pub use sctp_recv::{Message, Reset};
pub use sctp_send::{Abandoned, SendFault};
pub use sctp_terms::{
    AbortFault, Config, ConfigFault, ConnectFault, Draw, End, Reason, ResetFault, ShutdownFault,
    State,
};
pub use sctp_values::{Kind, NoMemory, Ticket};
pub use transmit::Sent;
