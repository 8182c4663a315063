//! Data channels, and how they are made.

ghost use Rattle.std.specs.Prelude.{◌≡◌, max, IfOk};
ghost use Rattle.sctp_model.specs.end.EndView.{EndView};
ghost use Rattle.sctp_endpoint.specs.Counted.{counted};
ghost use Rattle.sctp_endpoint.specs.EndpointStands.{EndpointStands};
ghost use Rattle.sctp_channels.specs.Streams.{fresh_table};
ghost use Rattle.sctp_channels.specs.ChannelsStand.{endpoint_of, ChannelsStand};
ghost use Rattle.sctp_channels.specs.Streams as streams;

use crate::table::{DtlsRole, Table};
use sctp_endpoint::Endpoint;
use sctp_values::NoMemory;
use std::alloc::Global;

/// Data channels over an endpoint (RFC 8831).
#[derive(Drop)]
pub struct Channels {
    pub(crate) alloc: Global,
    pub(crate) endpoint: Endpoint,
    pub(crate) table: Table,
    /// No channel is closed and no buffered amount is low: neither is looked for until something changes.
    pub(crate) is_calm: bool,
}

#[tactic(auto, unfolding(crate::specs::ChannelsStand::ChannelsStand, crate::specs::ChannelsStand::endpoint_of, crate::specs::ChannelsStand::table_of))]
impl Channels {
    /// No channel yet, over an endpoint whose user has neither sent nor taken anything. `role` is this side's in the DTLS handshake. Memory is
    /// allocated from `alloc`: 24 bytes for each stream of the endpoint's configuration, of the direction that has more.
    ///
    /// # Errors
    /// `NoMemory` if an allocation failed: the endpoint is dropped.
    pub fn new(alloc: Global, endpoint: Endpoint, role: DtlsRole) -> Result<Channels, NoMemory>
        ensures stands { (v : EndView) → EndpointStands endpoint v
            → IfOk result (λ c. ChannelsStand c v (fresh_table role (max v.configuration.outbound v.configuration.inbound))) }
        ensures counts { IfOk result (λ c. counted (endpoint_of c) ≡ counted endpoint) }
    {
        let config = endpoint.config();
        let streams = config.outbound().max(config.inbound());
        let table = Table::new(alloc, role, streams)?;
        Ok(Channels {
            alloc,
            endpoint,
            table,
            is_calm: false,
        })
    }

    /// The endpoint.
    pub fn endpoint(&self) -> &Endpoint
        ensures endpoint { result.now ≡ endpoint_of self.now }
        ensures stands { (v : EndView) (x : streams.Table) → ChannelsStand self.now v x → EndpointStands result.now v }
    {
        &self.endpoint
    }

    /// The endpoint, without its channels.
    pub fn into_endpoint(self) -> Endpoint
        ensures { result ≡ endpoint_of self }
    {
        self.endpoint
    }
}
