//! Peers by their addresses, and the key of each one's cookies.

ghost use Rattle.std.specs.Prelude.{◌≡◌, MatchOption};
ghost use Rattle.std.specs.Bool.{Decides};
ghost use Rattle.sctp_socket.specs.Peers.{Admits, IsHost, followed, host_of, is_same_host, key_of, text_of};

use sctp_cookie::{Key, hmac_sha256};

/// The bytes of the longest host.
const LONGEST_HOST: usize = 32;

/// The bytes of the text that stands for a peer.
const TEXT_LENGTH: usize = 37;

/// A host, as the layer below reports it: 1 to 32 bytes, as those of an IP address, or of the number of a DTLS connection.
#[derive(Clone, Copy, PartialEq, Eq)]
pub struct Host {
    bytes: [u8; 32],
    size: u8,
}

impl Host {
    /// The host with these bytes; None unless they are 1 to 32.
    pub fn new(bytes: &[u8]) -> Option<Host>
        ensures { MatchOption result (IsHost bytes.now → ⊥) (λ host. IsHost bytes.now × (host ≡ host_of bytes.now)) }
    {
        if bytes.is_empty() || bytes.len() > LONGEST_HOST {
            return None;
        }
        let mut filled = [0; LONGEST_HOST];
        filled[..bytes.len()].copy_from_slice(bytes);
        Some(Host {
            bytes: filled,
            size: bytes.len() as u8,
        })
    }
}

// Whether two hosts are one.
fn is_same_host(one: &Host, other: &Host) -> bool
    ensures { result ≡ is_same_host one.now other.now }
{
    one.bytes.as_slice() == other.bytes.as_slice() && one.size == other.size
}

// The same, as an equation.
fn is_one_host(one: &Host, other: &Host) -> bool
    ensures { Decides result (one.now ≡ other.now) }
{
    is_same_host(one, other)
}

/// What the layer below proves of where a packet is from.
#[derive(Clone, Copy, Debug, PartialEq, Eq)]
pub enum Source {
    /// Nothing, as UDP: its host is what it says.
    Claimed,
    /// That the association's peer has sent it, from whatever host, as DTLS.
    Proved,
}

/// A peer: its host, its UDP port, 0 if no UDP is below, and its port of SCTP.
#[derive(Clone, Copy, PartialEq, Eq)]
pub struct Peer {
    host: Host,
    udp_port: u16,
    port: u16,
}

impl Peer {
    /// The peer at this host, UDP port and port of SCTP.
    pub fn new(host: Host, udp_port: u16, port: u16) -> Peer
        ensures { result ≡ record { host = host; udp_port = udp_port; port = port } }
    {
        Peer {
            host,
            udp_port,
            port,
        }
    }

    /// Its host.
    pub fn host(&self) -> Host
        ensures { result ≡ self.now.host }
    {
        self.host
    }

    /// Its UDP port.
    pub fn udp_port(&self) -> u16
        ensures { result ≡ self.now.udp_port }
    {
        self.udp_port
    }

    /// Its port of SCTP.
    pub fn port(&self) -> u16
        ensures { result ≡ self.now.port }
    {
        self.port
    }

    /// Whether a packet from there, under the verification tag of an association with this peer, is for that association: it is from the peer's host, or the layer below
    /// proves that it is the peer's. One from another host is nobody's (RFC 9260, 8.4).
    pub fn admits(&self, from: &Peer, source: Source) -> bool
        ensures { Decides result (Admits source self.now from.now) }
    {
        match source {
            Source::Claimed => is_one_host(&self.host, &from.host),
            Source::Proved => true,
        }
    }

    /// The peer once a packet from there was taken: its UDP port is that of the packet (RFC 6951, 5.4), and its host, which is the same unless the layer below proves the packet.
    pub fn followed(&self, from: &Peer) -> Peer
        ensures { result ≡ followed self.now from.now }
    {
        Peer {
            host: from.host,
            udp_port: from.udp_port,
            port: self.port,
        }
    }

    // The 37 bytes that stand for it.
    pub(crate) fn text(&self) -> [u8; 37]
        ensures { result ≡ text_of self.now }
    {
        let udp_port = self.udp_port;
        let port = self.port;
        let tail = [
            self.host.size,
            (udp_port / 256) as u8,
            (udp_port % 256) as u8,
            (port / 256) as u8,
            (port % 256) as u8,
        ];
        let mut text = [0; TEXT_LENGTH];
        text[..LONGEST_HOST].copy_from_slice(&self.host.bytes);
        text[LONGEST_HOST..].copy_from_slice(&tail);
        text
    }
}

/// The key under which cookies are sealed for this peer, derived of the socket's master key: who has a cookie for one address has none for another.
pub fn key_for(master: &[u8; 32], peer: &Peer) -> Key
    ensures { result ≡ key_of master.now peer.now }
{
    Key::new(hmac_sha256(master, &peer.text()))
}
