//! The configuration of a WebRTC endpoint.

ghost use Rattle.std.specs.Prelude.{◌≡◌, ◌<◌, Some, None, MatchResult, IsOk};
ghost use Rattle.sctp_model.specs.end.Configured.{configuration_fault};
ghost use Rattle.sctp_model.specs.end.EndView.{Configuration};
ghost use Rattle.sctp_terms.specs.DataChannels.{data_channel_configuration};
ghost use Rattle.sctp_terms.specs.Meanings.{config_fault_meaning};

use crate::config::Config;
use crate::config_fault::ConfigFault;

/// The most bytes of a packet.
const CHANNEL_PACKET: u16 = 1_188;

/// The data bytes of a fragment: with its headers it fills such a packet.
const CHANNEL_FRAGMENT: u16 = 1_156;

/// The bytes of the receive buffer.
const CHANNEL_BUFFER: u32 = 1_048_576;

/// The streams each way.
const CHANNEL_STREAMS: u16 = 1_024;

impl Config {
    /// The configuration of a WebRTC endpoint at `own_port` whose peer is at `peer_port`, for data channels over DTLS (RFC 8831, 6): partial reliability,
    /// without I-DATA, and the reset of streams, which closes a channel; congestion control and fast retransmission; 1,024 streams each way; a receive
    /// buffer of 1,048,576 bytes; packets of at most 1,188 bytes, with fragments of 1,156. Chromium sends packets of that size: with 37 bytes of DTLS
    /// and 48 of UDP and IPv6 they fit 1,280, the least MTU of IPv6. All else is as `new` has it; `with_delay` and the others may follow.
    ///
    /// # Errors
    /// `ConfigFault::Port` if a port is 0.
    pub fn for_data_channels(own_port: u16, peer_port: u16) -> Result<Config, ConfigFault>
        ensures exact { let c : Configuration = data_channel_configuration own_port peer_port in
            MatchResult result
            (λ config. (config ≡ c) × (configuration_fault c ≡ None))
            (λ fault. configuration_fault c ≡ Some (config_fault_meaning fault)) }
        ensures accepted { 0 < own_port → 0 < peer_port → IsOk result }
    {
        let config = Config::new(
            own_port,
            peer_port,
            CHANNEL_PACKET,
            CHANNEL_FRAGMENT,
            CHANNEL_BUFFER,
            CHANNEL_STREAMS,
            CHANNEL_STREAMS,
        )?;
        Ok(config.with_partial().with_congestion_control().with_reset())
    }
}
