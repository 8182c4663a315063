//! An endpoint, and how it is made.

ghost use Rattle.std.specs.Prelude.{◌≡◌, IfOk};
ghost use Rattle.sctp_model.specs.end.Sealing.{Sealing};
ghost use Rattle.sctp_model.specs.end.EndView as model;
ghost use Rattle.sctp_model.specs.end.EndView.{fresh_end};
ghost use Rattle.sctp_model.specs.end.Opening.{opened};
ghost use Rattle.sctp_cookie.specs.Seals.{IsUnder};
ghost use Rattle.sctp_endpoint.specs.EndpointStands.{EndpointStands};
ghost use Rattle.sctp_endpoint.specs.Counted.{counted, none_counted};

use crate::counts::Tally;
use sctp_association::Machine;
use sctp_cookie::Key;
use sctp_terms::{Config, Draw};
use sctp_values::NoMemory;
use std::alloc::Global;

/// One endpoint of an association (RFC 9260): a state machine without sockets, clock or random numbers of its own.
///
/// Its calls are of five kinds:
///
/// - Input: [`handle_packet`](Endpoint::handle_packet) for a received packet, [`on_moment`](Endpoint::on_moment) for the time, no later than
///   [`next_moment`](Endpoint::next_moment) says.
/// - Requests of the user: [`connect`](Endpoint::connect), [`send`](Endpoint::send), [`take`](Endpoint::take),
///   [`abandon`](Endpoint::abandon), [`reset`](Endpoint::reset), [`take_reset`](Endpoint::take_reset), [`shutdown`](Endpoint::shutdown) and
///   [`abort`](Endpoint::abort).
/// - Output: after each of these calls [`poll_transmit`](Endpoint::poll_transmit), until it returns no further packet. An answer to a packet and the
///   packet of `abort` are returned by these calls themselves.
/// - Buffers that may be reused: [`recycle`](Endpoint::recycle) for a packet that was sent, [`recycle_tickets`](Endpoint::recycle_tickets) for its
///   tickets, [`give_back`](Endpoint::give_back) for a message that was taken; [`take_buffer`](Endpoint::take_buffer) returns one for a message to
///   send, [`copy_bytes`](Endpoint::copy_bytes) one with the message's bytes. [`trim`](Endpoint::trim) gives memory back. No result of another
///   call depends on them.
/// - Readers, which change nothing.
///
/// Times are milliseconds since any start that the user chooses. They never go back: a time before the latest one passed in counts as that one. Any
/// allocation may fail: the call then says so, and its documentation says what it left.
#[derive(Drop)]
pub struct Endpoint {
    pub(crate) machine: Machine,
    /// What it counts. No other result depends on it.
    pub(crate) tally: Tally,
}

#[tactic(auto, unfolding(crate::specs::EndpointStands::EndpointStands, crate::specs::Counted::counted))]
impl Endpoint {
    /// A listener: it waits for a peer, and keeps no state until a valid cookie returns. Cookies are authenticated with this key, which nobody else may
    /// know (RFC 9260, 5.1.3). Memory is allocated from `alloc` later; this call allocates none.
    pub fn listener(alloc: Global, config: Config, key: Key) -> Endpoint
        ensures stands { (s : Sealing) → IsUnder key s → EndpointStands result (fresh_end config (model.Listener s) model.Listening) }
        ensures counts { counted result ≡ none_counted }
    {
        Endpoint {
            machine: Machine::listener(alloc, config, key),
            tally: Tally::none(),
        }
    }

    /// A caller: it begins the association with `connect`. Memory is allocated from `alloc` later; this call allocates none.
    pub fn caller(alloc: Global, config: Config) -> Endpoint
        ensures stands { EndpointStands result (fresh_end config model.Caller model.Idle) }
        ensures counts { counted result ≡ none_counted }
    {
        Endpoint {
            machine: Machine::caller(alloc, config),
            tally: Tally::none(),
        }
    }

    /// An endpoint that is established at once, without packets. Its peer is made by the same call, with `own` and `peer`, the verification tags and
    /// initial TSNs, exchanged, and with the same sizes, streams and extensions.
    ///
    /// # Errors
    /// `NoMemory` if an allocation failed.
    pub fn opened(
        alloc: Global,
        config: Config,
        own: Draw,
        peer: Draw,
    ) -> Result<Endpoint, NoMemory>
        ensures stands { IfOk result (λ e. EndpointStands e (opened config own peer)) }
        ensures counts { IfOk result (λ e. counted e ≡ none_counted) }
    {
        Ok(Endpoint {
            machine: Machine::paired(alloc, config, own, peer)?,
            tally: Tally::none(),
        })
    }
}
