//! What the rules need to know of the endpoint at which a packet arrives: written by hand for each packet, not read from the endpoint.

use sctp_endpoint::State;

/// An endpoint at which a packet arrives.
#[derive(Clone, Copy)]
pub struct Taker {
    /// Its own port and its peer's.
    pub port: u16,
    pub peer_port: u16,
    pub state: State,
    /// Whether it is a listener, which knows the key of the cookies.
    pub listens: bool,
    /// Its verification tag and its peer's, if it has an association; a caller without an answer has only its own.
    pub tag: Option<u32>,
    pub peer_tag: Option<u32>,
    /// What both endpoints agreed on.
    pub interleaved: bool,
    pub partial: bool,
    pub inbound: u16,
    /// The TSN that its peer has acknowledged last, the last that it has assigned, and whether it has more to assign.
    pub acknowledged: u32,
    pub assigned: u32,
    pub has_more: bool,
    /// The cumulative TSN of what it has received.
    pub came: u32,
}
