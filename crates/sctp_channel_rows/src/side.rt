//! One side: data channels over an endpoint, or an endpoint alone.

use sctp_channels::Channels;
use sctp_endpoint::{
    Abandoned, AbortFault, ConnectFault, Draw, Endpoint, NoMemory, Sent, ShutdownFault, Ticket,
    Verdict,
};

/// One side.
#[derive(Drop)]
pub enum Side {
    /// With data channels.
    Channels(Channels),
    /// An endpoint alone, whose user sends anything.
    Bare(Endpoint),
}

impl Side {
    /// Its endpoint.
    pub fn endpoint(&self) -> &Endpoint {
        match self {
            Side::Channels(channels) => channels.endpoint(),
            Side::Bare(endpoint) => endpoint,
        }
    }

    /// Begins the association.
    pub fn connect(&mut self, now: u64, draw: Draw) -> Result<(), ConnectFault> {
        match self {
            Side::Channels(channels) => channels.connect(now, draw),
            Side::Bare(endpoint) => endpoint.connect(now, draw),
        }
    }

    /// The time moves on.
    pub fn on_moment(&mut self, now: u64) {
        match self {
            Side::Channels(channels) => channels.on_moment(now),
            Side::Bare(endpoint) => endpoint.on_moment(now),
        }
    }

    /// A packet is received.
    pub fn handle_packet(
        &mut self,
        now: u64,
        bytes: &[u8],
        draw: Draw,
    ) -> Result<Verdict, NoMemory> {
        match self {
            Side::Channels(channels) => channels.handle_packet(now, bytes, draw),
            Side::Bare(endpoint) => endpoint.handle_packet(now, bytes, draw),
        }
    }

    /// The next packet to send.
    pub fn poll_transmit(&mut self, now: u64) -> Result<Option<Sent>, NoMemory> {
        match self {
            Side::Channels(channels) => channels.poll_transmit(now),
            Side::Bare(endpoint) => endpoint.poll_transmit(now),
        }
    }

    /// Gives up a message.
    pub fn abandon(&mut self, ticket: Ticket) -> Abandoned {
        match self {
            Side::Channels(channels) => channels.abandon(ticket),
            Side::Bare(endpoint) => endpoint.abandon(ticket),
        }
    }

    /// Closes the association gracefully.
    pub fn shutdown(&mut self) -> Result<(), ShutdownFault> {
        match self {
            Side::Channels(channels) => channels.shutdown(),
            Side::Bare(endpoint) => endpoint.shutdown(),
        }
    }

    /// Aborts the association.
    pub fn abort(&mut self, reason: &[u8]) -> Result<Vec<u8>, AbortFault> {
        match self {
            Side::Channels(channels) => channels.abort(reason),
            Side::Bare(endpoint) => endpoint.abort(reason),
        }
    }
}
