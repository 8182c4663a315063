//! A configuration between other ports.

ghost use Rattle.std.specs.Prelude.{◌≡◌, ◌<◌, Some, None, MatchResult, IsOk};
ghost use Rattle.sctp_model.specs.end.Configured.{configuration_fault};
ghost use Rattle.sctp_model.specs.end.EndView.{Configuration};
ghost use Rattle.sctp_terms.specs.Meanings.{config_fault_meaning};

use crate::config::Config;
use crate::config_fault::ConfigFault;

impl Config {
    /// This configuration with a peer at `peer_port`: a listener with many peers makes one for each, from the source port of the packet that arrived
    /// (RFC 9260, 3.1). All else is as it was.
    ///
    /// # Errors
    /// `ConfigFault::Port` if `peer_port` is 0.
    pub fn with_peer_port(self, peer_port: u16) -> Result<Config, ConfigFault>
        ensures exact { let c : Configuration = record self { peer_port = peer_port } in
            MatchResult result
            (λ config. (config ≡ c) × (configuration_fault c ≡ None))
            (λ fault. configuration_fault c ≡ Some (config_fault_meaning fault)) }
        ensures accepted { 0 < peer_port → IsOk result }
    {
        if peer_port == 0 {
            return Err(ConfigFault::Port);
        }
        Ok(Config { peer_port, ..self })
    }
}
