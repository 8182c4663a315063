//! Calls: an association begins with the next number.

ghost use Rattle.std.specs.Prelude.{◌≡◌, ◌<◌, max, IfOk, OnErr};
ghost use Rattle.sctp_model.specs.end.EndView.{Configuration};
ghost use Rattle.sctp_socket.specs.Connecting.{CallAnswers, call_leaves, is_with};
ghost use Rattle.sctp_socket.specs.SocketView.{Slot, SocketView, begun_with, slot_called};
ghost use Rattle.sctp_socket.specs.SocketStands.{IsSlot, SocketStands};

use crate::ends::SocketEnd;
use crate::meeting::Standing;
use crate::peer::Peer;
use crate::socket::Socket;
use crate::table::Entry;
use sctp_terms::{Config, Draw};
use sctp_values::NoMemory;
use std::alloc::Global;
use thiserror::Error;

/// Why a call is refused.
#[derive(Clone, Copy, Debug, PartialEq, Eq, Error)]
pub enum CallFault {
    /// The peer's port of SCTP is 0 (RFC 9260, 3.1).
    #[error("the peer's port is 0")]
    Port,
    /// There is an association with this peer already, or a call.
    #[error("there is an association with this peer")]
    Exists,
    /// The socket has as many associations as it may have.
    #[error("the socket has as many associations as it may have")]
    Full,
    /// The verification tag is of another association: call again with fresh random values.
    #[error("the verification tag is of another association")]
    Tag,
    /// An allocation failed.
    #[error("an allocation failed")]
    NoMemory,
}

// Whether there is an association, or a call.
fn is_with(standing: Standing) -> bool
    ensures { result ≡ is_with standing }
{
    match standing {
        Standing::Apart => false,
        Standing::Called { .. } | Standing::Echoed { .. } | Standing::Joined { .. } => true,
    }
}

// A call to this peer at this time, with these random values; the configuration is of this peer's port.
pub(crate) fn calling_entry<E: SocketEnd + Drop>(
    alloc: Global,
    config: Config,
    peer: Peer,
    now: u64,
    draw: Draw,
) -> Entry<E>
    ensures { (c : Configuration) → config ≡ record c { peer_port = peer.port } → IsSlot E.Stands result (slot_called c peer now draw) }
{
    let mut end = E::caller(alloc, config);
    let _ = end.connect(now, draw);
    Entry {
        peer,
        own: draw.tag(),
        bar: now,
        current: true,
        end,
    }
}

#[tactic(auto, unfolding(crate::specs::SocketStands::SocketStands))]
impl<E: SocketEnd + Drop> Socket<E> {
    /// Calls a peer at the time `now`, in milliseconds (RFC 9260, 5.1, A, and 11.1.2), with fresh random values; returns the number of the association. Its INIT is the next packet
    /// of its endpoint.
    ///
    /// # Errors
    /// The first of these that applies: `Port`, `Exists`, `Full`, `Tag`, `NoMemory`. Nothing changed then, not even the time.
    pub fn connect(&mut self, now: u64, peer: Peer, draw: Draw) -> Result<u64, CallFault>
        ensures answer { (v : SocketView) → SocketStands E.Stands self.old v → CallAnswers v peer draw result }
        ensures step { (v : SocketView) → SocketStands E.Stands self.old v → SocketStands E.Stands self.new (call_leaves v now peer draw result) }
    {
        if peer.port() == 0 {
            return Err(CallFault::Port);
        }
        let Ok(config) = self.config.with_peer_port(peer.port()) else {
            return Err(CallFault::Port);
        };
        if is_with(self.standing_at(self.peers.number_with(&peer))) {
            return Err(CallFault::Exists);
        }
        if self.room == 0 {
            return Err(CallFault::Full);
        }
        if self.table.serves_another(draw.tag(), None) {
            return Err(CallFault::Tag);
        }
        let moment = self.later(now);
        let entry = calling_entry(self.alloc, config, peer, moment, draw);
        match self.enter(entry) {
            Ok(number) => {
                self.moment = moment;
                Ok(number)
            }
            Err(_) => Err(CallFault::NoMemory),
        }
    }

    // The time, if it is given this one.
    pub(crate) fn later(&self, now: u64) -> u64
        ensures { (v : SocketView) → SocketStands E.Stands self.now v → result ≡ max v.moment now }
    {
        if now < self.moment { self.moment } else { now }
    }

    // Begins an association with the next number.
    pub(crate) fn enter(&mut self, entry: Entry<E>) -> Result<u64, NoMemory>
        requires { 0 < self.old.room }
        ensures step { (v : SocketView) (x : Slot) → SocketStands E.Stands self.old v → IsSlot E.Stands entry x
            → IfOk result (λ number. (number ≡ v.next) × SocketStands E.Stands self.new (begun_with x v)) }
        ensures refused { (v : SocketView) → SocketStands E.Stands self.old v → OnErr result (SocketStands E.Stands self.new v) }
    {
        let peer = entry.peer;
        let number = self.table.next();
        self.turns.add(number)?;
        let before = self.peers.number_with(&peer);
        if let Err(fault) = self.peers.put(&peer, number) {
            self.turns.withdraw();
            return Err(fault);
        }
        match self.table.open(entry) {
            Ok(Some(number)) => {
                self.room -= 1;
                Ok(number)
            }
            Ok(None) | Err(_) => {
                self.turns.withdraw();
                self.peers.restore(&peer, before);
                Err(NoMemory)
            }
        }
    }
}
