//! The association with each peer.

ghost use Rattle.std.specs.Prelude.{◌≡◌, None, Some, IsSome, OnErr, OnOk};
ghost use Rattle.sctp_socket.specs.ByPeer.{HasNone, Keeps, Puts, number_with};

use crate::peer::Peer;
use sctp_values::NoMemory;
use std::alloc::Global;
use std::collections::BTreeMap;

/// The number of the latest association with each peer: by it the association of an INIT, of a COOKIE ECHO, and of what has the peer's verification tag is found (RFC 9260, 5.2 and
/// 8.5.1).
#[derive(Drop)]
pub struct ByPeer {
    numbers: BTreeMap<[u8; 37], u64>,
}

impl ByPeer {
    /// No peer.
    pub fn new(alloc: Global) -> ByPeer
        ensures { HasNone result }
    {
        ByPeer {
            numbers: BTreeMap::new(alloc),
        }
    }

    /// Notes the latest association with this peer, in the place of the one before.
    ///
    /// # Errors
    /// `NoMemory` if an allocation failed, which can happen only if there was none: nothing changed.
    pub fn put(&mut self, peer: &Peer, number: u64) -> Result<(), NoMemory>
        ensures step { OnOk result (Puts peer.now (Some number) self.old self.new) }
        ensures refused { OnErr result (Keeps self.old self.new) }
        ensures memory { OnErr result (number_with self.old peer.now ≡ None) }
    {
        match self.numbers.insert(peer.text(), number) {
            Ok(_) => Ok(()),
            Err(_) => Err(NoMemory),
        }
    }

    /// The number of the latest association with this peer.
    pub fn number_with(&self, peer: &Peer) -> Option<u64>
        ensures { result ≡ number_with self.now peer.now }
    {
        let text = peer.text();
        self.numbers.get(&text).copied()
    }

    /// Notes again what was noted of this peer before the latest association was.
    pub(crate) fn restore(&mut self, peer: &Peer, before: Option<u64>)
        ensures { IsSome (number_with self.old peer.now) → Puts peer.now before self.old self.new }
    {
        match before {
            None => self.remove(peer),
            Some(number) => {
                let _ = self.put(peer, number);
            }
        }
    }

    /// Removes this peer, with which there is no association any more.
    pub fn remove(&mut self, peer: &Peer)
        ensures { Puts peer.now None self.old self.new }
    {
        let text = peer.text();
        let _ = self.numbers.remove(&text);
    }
}
