//! Where a packet is from, and what is returned of it.

use crate::peer::{Host, Source};
use sctp_endpoint::Verdict;

/// Where a packet is from, as the layer below reports it.
#[derive(Clone, Copy)]
pub struct Origin {
    /// Its host.
    pub host: Host,
    /// Its UDP port, 0 if no UDP is below (RFC 6951, 5.4).
    pub udp_port: u16,
    /// What the layer below proves of it.
    pub source: Source,
}

/// What is returned of a packet. An answer goes back where the packet is from, at once.
#[derive(Drop)]
pub enum Heard {
    /// It is for no association: it was dropped, or answered by a listener of which nothing is kept (RFC 9260, 5.1 and 8.4).
    Nobody(Verdict),
    /// The endpoint of the association with this number has handled it.
    Of(u64, Verdict),
    /// Its cookie is valid, and the socket has as many associations as it may have: it was dropped.
    Full,
}
