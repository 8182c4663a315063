//! The configuration of an endpoint.

ghost use Rattle.std.specs.Prelude.{◌≡◌, true, ◌&&◌, Some, None, MatchResult};
ghost use Rattle.sctp_model.specs.end.EndView.{Configuration};
ghost use Rattle.sctp_model.specs.end.Configured.{configuration_fault, plain_configuration, is_between, is_fragment};
ghost use Rattle.sctp_model.specs.numbers.Limits as limits;
ghost use Rattle.sctp_terms.specs.Meanings.{config_fault_meaning};

use crate::config_fault::ConfigFault;
use sctp_values::{
    FRAGMENT_OVERHEAD, GREATEST_BUFFER, GREATEST_FRAGMENT, GREATEST_PACKET, LEAST_BUFFER,
    LEAST_FRAGMENT, LEAST_PACKET, STREAM_LIMIT,
};
use std::marker::Model;

/// RTO.Min in milliseconds, if nothing else is asked for (RFC 9260, 16).
const RTO_MIN: u32 = 1_000;

/// The configuration of an endpoint: both ports, sizes in bytes, streams each way, which extensions it asks for, whether it delays its SACKs,
/// by which timers it closes, and how it detects loss and limits what it sends. Contracts see the definitions' `Configuration`, which is within its
/// limits.
#[derive(Clone, Copy, Debug, PartialEq, Eq)]
pub struct Config {
    pub(crate) own_port: u16,
    pub(crate) peer_port: u16,
    pub(crate) limit: u16,
    pub(crate) fragment: u16,
    pub(crate) buffer: u32,
    pub(crate) outbound: u16,
    pub(crate) inbound: u16,
    pub(crate) interleave: bool,
    pub(crate) partial: bool,
    pub(crate) delay: bool,
    pub(crate) standard_closing: bool,
    pub(crate) fast_retransmit: bool,
    pub(crate) congestion_control: bool,
    /// RTO.Min in milliseconds.
    pub(crate) rto_min: u32,
    pub(crate) reset: bool,
}

impl Model for Config {
    ghost use Rattle.sctp_model.specs.end.EndView.{Configuration};
    ghost use Rattle.sctp_model.specs.end.Configured.{IsConfiguration, plain_configuration};

    ghost Value = { Configuration };

    ghost view = { λ c. record (plain_configuration c.own_port c.peer_port c.limit c.fragment c.buffer c.outbound c.inbound) {
      interleave = c.interleave;
      partial = c.partial;
      delay = c.delay;
      standard_closing = c.standard_closing;
      fast_retransmit = c.fast_retransmit;
      least_wait = c.rto_min;
      congestion_control = c.congestion_control;
      reset = c.reset;
    } };

    ghost inverse = { λ c. record {
      own_port = c.own_port;
      peer_port = c.peer_port;
      limit = c.limit;
      fragment = c.fragment;
      buffer = c.buffer;
      outbound = c.outbound;
      inbound = c.inbound;
      interleave = c.interleave;
      partial = c.partial;
      delay = c.delay;
      standard_closing = c.standard_closing;
      fast_retransmit = c.fast_retransmit;
      congestion_control = c.congestion_control;
      rto_min = c.least_wait;
      reset = c.reset;
    } };

    ghost invariant = { λ c. IsConfiguration (record (plain_configuration c.own_port c.peer_port c.limit c.fragment c.buffer c.outbound c.inbound) {
      interleave = c.interleave;
      partial = c.partial;
      delay = c.delay;
      standard_closing = c.standard_closing;
      fast_retransmit = c.fast_retransmit;
      least_wait = c.rto_min;
      congestion_control = c.congestion_control;
      reset = c.reset;
    }) };
}

impl Config {
    /// The configuration of an endpoint at `own_port` whose peer is at `peer_port`: it sends packets of at most `limit` bytes, cuts messages into
    /// fragments of `fragment` bytes, has a receive buffer of `buffer` bytes, and asks for `outbound` streams to its peer and `inbound` from it.
    /// No extension is asked for, SACKs aren't delayed, it closes by this profile's timers, what is lost waits for the data timer, only the peer's
    /// window limits what is sent, and RTO.Min is 1,000 ms.
    ///
    /// # Errors
    /// Of the faults that these values have, the one with the smallest code.
    pub fn new(
        own_port: u16,
        peer_port: u16,
        limit: u16,
        fragment: u16,
        buffer: u32,
        outbound: u16,
        inbound: u16,
    ) -> Result<Config, ConfigFault>
        ensures exact { let c : Configuration = plain_configuration own_port peer_port limit fragment buffer outbound inbound in
            MatchResult result
            (λ config. (config ≡ c) × (configuration_fault c ≡ None))
            (λ fault. configuration_fault c ≡ Some (config_fault_meaning fault)) }
    {
        if own_port == 0 || peer_port == 0 {
            return Err(ConfigFault::Port);
        }
        if !is_packet_limit(limit) {
            return Err(ConfigFault::PacketLimit);
        }
        if !is_fragment(limit, fragment) {
            return Err(ConfigFault::Fragment);
        }
        if !is_buffer(buffer) {
            return Err(ConfigFault::Buffer);
        }
        if !are_streams(outbound, inbound) {
            return Err(ConfigFault::Streams);
        }
        Ok(Config {
            own_port,
            peer_port,
            limit,
            fragment,
            buffer,
            outbound,
            inbound,
            interleave: false,
            partial: false,
            delay: false,
            standard_closing: false,
            fast_retransmit: false,
            congestion_control: false,
            rto_min: RTO_MIN,
            reset: false,
        })
    }

    /// This configuration, asking for partial reliability (RFC 3758).
    pub fn with_partial(self) -> Config
        ensures { result ≡ record self { partial = true } }
    {
        Config {
            partial: true,
            ..self
        }
    }

    /// This configuration, asking for I-DATA (RFC 8260).
    pub fn with_interleave(self) -> Config
        ensures { result ≡ record self { interleave = true } }
    {
        Config {
            interleave: true,
            ..self
        }
    }

    /// This configuration, with delayed SACKs: a SACK waits for a second packet, or 200 ms at most (RFC 9260, 6.2).
    pub fn with_delay(self) -> Config
        ensures { result ≡ record self { delay = true } }
    {
        Config {
            delay: true,
            ..self
        }
    }

    /// This configuration, closing by the RFC's timers: a SHUTDOWN that acknowledges more restarts the data timer as a SACK does, and user data
    /// received in ShutdownSent restarts the SHUTDOWN's timer and its count of retransmissions. So there is no limit on how long a peer that keeps
    /// sending can delay closing (RFC 9260, 6.3.2, 8.1 and 9.2).
    pub fn with_standard_closing(self) -> Config
        ensures { result ≡ record self { standard_closing = true } }
    {
        Config {
            standard_closing: true,
            ..self
        }
    }

    /// This configuration, asking for the reset of streams: an outgoing stream's numbers may begin anew at 0 (RFC 6525, 5.1).
    pub fn with_reset(self) -> Config
        ensures { result ≡ record self { reset = true } }
    {
        Config {
            reset: true,
            ..self
        }
    }
}

/// Whether this is a permitted packet limit.
fn is_packet_limit(limit: u16) -> bool
    ensures { result ≡ is_between limits.LEAST_PACKET limits.GREATEST_PACKET limit }
{
    LEAST_PACKET <= limit && limit <= GREATEST_PACKET
}

/// Whether this is a permitted size of fragments if packets have this limit.
fn is_fragment(limit: u16, fragment: u16) -> bool
    ensures { result ≡ is_fragment limit fragment }
{
    LEAST_FRAGMENT <= fragment
        && fragment <= GREATEST_FRAGMENT
        && FRAGMENT_OVERHEAD + fragment.div_ceil(4) * 4 <= limit
}

/// Whether this is a permitted size of the receive buffer.
fn is_buffer(buffer: u32) -> bool
    ensures { result ≡ is_between limits.LEAST_BUFFER limits.GREATEST_BUFFER buffer }
{
    LEAST_BUFFER <= buffer && buffer <= GREATEST_BUFFER
}

/// Whether these are permitted numbers of streams each way.
fn are_streams(outbound: u16, inbound: u16) -> bool
    ensures { result ≡ (is_between 1 limits.STREAM_LIMIT outbound && is_between 1 limits.STREAM_LIMIT inbound) }
{
    1 <= outbound && outbound <= STREAM_LIMIT && 1 <= inbound && inbound <= STREAM_LIMIT
}
