//! The configuration of a pair: the sizes that both endpoints share, and the extensions that both ask for.

ghost use Rattle.std.specs.Prelude.{◌≡◌, Some, None, MatchResult};
ghost use Rattle.sctp_model.specs.end.EndView.{Configuration};
ghost use Rattle.sctp_model.specs.end.Configured.{configuration_fault, plain_configuration};
ghost use Rattle.sctp_terms.specs.Meanings.{config_fault_meaning};
ghost use Rattle.sctp_terms.specs.Modes.{asked};
ghost use Rattle.sctp_events.specs.Alike.{turned_round};

use sctp_terms::{Config, ConfigFault, Mode};

/// The port of A, which calls.
const A_PORT: u16 = 5_000;
/// The port of B, which listens.
const B_PORT: u16 = 5_001;

/// The configuration of both endpoints of a pair, which are alike except that their ports are exchanged.
#[derive(Clone, Copy, Debug, PartialEq, Eq)]
pub struct PairConfig {
    a: Config,
    b: Config,
    ghost across: { b ≡ turned_round a },
}

impl PairConfig {
    ghost use Rattle.std.specs.Prelude.{◌≡◌, true, Some, None, MatchResult};
    ghost use Rattle.sctp_model.specs.end.Configured.{configuration_fault, plain_configuration};
    ghost use Rattle.sctp_terms.specs.Meanings.{config_fault_meaning};
    ghost use Rattle.sctp_terms.specs.Modes.{asked};
    ghost use Rattle.sctp_events.specs.Alike.{turned_round};

    /// Both endpoints send packets of at most `limit` bytes (576 to 1,500), cut messages into fragments of `fragment` bytes (4 to 1,400), have
    /// a receive buffer of `buffer` bytes (65,536 to 16,777,216) and ask for `streams` streams each way (1 to 1,024) and for the extensions
    /// of the mode. A has port 5,000, B 5,001.
    ///
    /// # Errors
    /// The fault with the smallest code. It is never `Port`, since the ports are fixed.
    pub fn new(
        limit: u16,
        fragment: u16,
        buffer: u32,
        streams: u16,
        mode: Mode,
    ) -> Result<PairConfig, ConfigFault>
        ensures { let c : Configuration = plain_configuration 5000 5001 limit fragment buffer streams streams in
            MatchResult result
            (λ config. (config.a ≡ asked mode c) × (configuration_fault c ≡ None))
            (λ fault. configuration_fault c ≡ Some (config_fault_meaning fault)) }
    {
        let a = Config::new(A_PORT, B_PORT, limit, fragment, buffer, streams, streams)?;
        let b = Config::new(B_PORT, A_PORT, limit, fragment, buffer, streams, streams)?;
        Ok(PairConfig {
            a: mode.asked(a),
            b: mode.asked(b),
        })
    }

    /// This configuration with delayed SACKs at both endpoints (RFC 9260, 6.2).
    pub fn with_delay(self) -> PairConfig
        ensures { result.a ≡ record self.a { delay = true } }
    {
        PairConfig {
            a: self.a.with_delay(),
            b: self.b.with_delay(),
        }
    }

    /// This configuration with closing by the RFC's timers: both endpoints go on closing as long as the peer acknowledges or sends data
    /// (RFC 9260, 9.2).
    pub fn with_standard_closing(self) -> PairConfig
        ensures { result.a ≡ record self.a { standard_closing = true } }
    {
        PairConfig {
            a: self.a.with_standard_closing(),
            b: self.b.with_standard_closing(),
        }
    }

    /// This configuration with fast retransmission at both endpoints (RFC 9260, 6.3.1 and 7.2.4).
    pub fn with_fast_retransmit(self) -> PairConfig
        ensures { result.a ≡ record self.a { fast_retransmit = true } }
    {
        PairConfig {
            a: self.a.with_fast_retransmit(),
            b: self.b.with_fast_retransmit(),
        }
    }

    /// This configuration with congestion control, and with fast retransmission, which it needs, at both endpoints (RFC 9260, 7.2).
    pub fn with_congestion_control(self) -> PairConfig
        ensures { result.a ≡ record self.a { fast_retransmit = true; congestion_control = true } }
    {
        PairConfig {
            a: self.a.with_congestion_control(),
            b: self.b.with_congestion_control(),
        }
    }

    /// This configuration with another RTO.Min at both endpoints, in milliseconds (RFC 9260, 6.3.1 and 16).
    pub fn with_rto_min(self, milliseconds: u32) -> PairConfig
        ensures { result.a ≡ record self.a { least_wait = milliseconds } }
    {
        PairConfig {
            a: self.a.with_rto_min(milliseconds),
            b: self.b.with_rto_min(milliseconds),
        }
    }

    /// This configuration, asking for the reset of streams at both endpoints (RFC 6525).
    pub fn with_reset(self) -> PairConfig
        ensures { result.a ≡ record self.a { reset = true } }
    {
        PairConfig {
            a: self.a.with_reset(),
            b: self.b.with_reset(),
        }
    }

    /// The configuration of endpoint A, the caller.
    pub fn caller(&self) -> Config
        ensures { result ≡ self.now.a }
    {
        self.a
    }

    /// The configuration of endpoint B, the listener.
    pub fn listener(&self) -> Config
        ensures { result ≡ turned_round self.now.a }
    {
        self.b
    }
}
