//! The values of a configuration while they are changed.

ghost use Rattle.std.specs.Prelude.{◌≡◌, true, false, None, MatchOption};
ghost use Rattle.sctp_model.specs.end.EndView.{Configuration};
ghost use Rattle.sctp_model.specs.end.Configured.{configuration_fault};
ghost use Rattle.sctp_terms.specs.Modes.{asked};

use crate::config::Config;
use crate::mode::Mode;
use std::marker::Model;

/// The values of a configuration, changed one by one: together they may have a fault, until they are checked. Contracts see the definitions'
/// `Configuration`.
#[derive(Clone, Copy, Debug)]
pub struct Settings {
    own_port: u16,
    peer_port: u16,
    limit: u16,
    fragment: u16,
    buffer: u32,
    outbound: u16,
    inbound: u16,
    interleave: bool,
    partial: bool,
    delay: bool,
    standard_closing: bool,
    fast_retransmit: bool,
    congestion_control: bool,
    /// RTO.Min in milliseconds.
    rto_min: u32,
    reset: bool,
}

impl Model for Settings {
    ghost use Rattle.sctp_model.specs.end.EndView.{Configuration};
    ghost use Rattle.sctp_model.specs.end.Configured.{plain_configuration};

    ghost Value = { Configuration };

    ghost view = { λ c. record (plain_configuration c.own_port c.peer_port c.limit c.fragment c.buffer c.outbound c.inbound) {
      interleave = c.interleave;
      partial = c.partial;
      delay = c.delay;
      standard_closing = c.standard_closing;
      fast_retransmit = c.fast_retransmit;
      least_wait = c.rto_min;
      congestion_control = c.congestion_control;
      reset = c.reset;
    } };

    ghost inverse = { λ c. record {
      own_port = c.own_port;
      peer_port = c.peer_port;
      limit = c.limit;
      fragment = c.fragment;
      buffer = c.buffer;
      outbound = c.outbound;
      inbound = c.inbound;
      interleave = c.interleave;
      partial = c.partial;
      delay = c.delay;
      standard_closing = c.standard_closing;
      fast_retransmit = c.fast_retransmit;
      congestion_control = c.congestion_control;
      rto_min = c.least_wait;
      reset = c.reset;
    } };
}

impl Settings {
    /// The values of this configuration.
    pub fn of(config: &Config) -> Settings
        ensures { result ≡ config.now }
    {
        Settings {
            own_port: config.own_port,
            peer_port: config.peer_port,
            limit: config.limit,
            fragment: config.fragment,
            buffer: config.buffer,
            outbound: config.outbound,
            inbound: config.inbound,
            interleave: config.interleave,
            partial: config.partial,
            delay: config.delay,
            standard_closing: config.standard_closing,
            fast_retransmit: config.fast_retransmit,
            congestion_control: config.congestion_control,
            rto_min: config.rto_min,
            reset: config.reset,
        }
    }

    /// These values with another packet limit.
    pub fn with_limit(self, limit: u16) -> Settings
        ensures { result ≡ record self { limit = limit } }
    {
        Settings { limit, ..self }
    }

    /// These values with another fragment size.
    pub fn with_fragment(self, fragment: u16) -> Settings
        ensures { result ≡ record self { fragment = fragment } }
    {
        Settings { fragment, ..self }
    }

    /// These values with another receive buffer.
    pub fn with_buffer(self, buffer: u32) -> Settings
        ensures { result ≡ record self { buffer = buffer } }
    {
        Settings { buffer, ..self }
    }

    /// These values with other numbers of streams, to the peer and from it.
    pub fn with_streams(self, outbound: u16, inbound: u16) -> Settings
        ensures { result ≡ record self { outbound = outbound; inbound = inbound } }
    {
        Settings {
            outbound,
            inbound,
            ..self
        }
    }

    /// These values with the extensions of this mode, and neither of the two that it doesn't name.
    pub fn with_mode(self, mode: Mode) -> Settings
        ensures { result ≡ asked mode (record self { interleave = false; partial = false }) }
    {
        Settings {
            interleave: matches!(mode, Mode::IData | Mode::PartialIData),
            partial: matches!(mode, Mode::PartialData | Mode::PartialIData),
            ..self
        }
    }

    /// These values with delayed SACKs (RFC 9260, 6.2).
    pub fn with_delay(self) -> Settings
        ensures { result ≡ record self { delay = true } }
    {
        Settings {
            delay: true,
            ..self
        }
    }

    /// These values with closing by the RFC's timers (RFC 9260, 9.2).
    pub fn with_standard_closing(self) -> Settings
        ensures { result ≡ record self { standard_closing = true } }
    {
        Settings {
            standard_closing: true,
            ..self
        }
    }

    /// These values with fast retransmission (RFC 9260, 6.3.1 and 7.2.4).
    pub fn with_fast_retransmit(self) -> Settings
        ensures { result ≡ record self { fast_retransmit = true } }
    {
        Settings {
            fast_retransmit: true,
            ..self
        }
    }

    /// These values with congestion control, and with fast retransmission, which it needs (RFC 9260, 7.2).
    pub fn with_congestion_control(self) -> Settings
        ensures { result ≡ record self { fast_retransmit = true; congestion_control = true } }
    {
        Settings {
            fast_retransmit: true,
            congestion_control: true,
            ..self
        }
    }

    /// These values with another RTO.Min, in milliseconds (RFC 9260, 6.3.1 and 16).
    pub fn with_rto_min(self, milliseconds: u32) -> Settings
        ensures { result ≡ record self { least_wait = milliseconds } }
    {
        Settings {
            rto_min: milliseconds,
            ..self
        }
    }

    /// These values, asking for the reset of streams (RFC 6525, 5.1).
    pub fn with_reset(self) -> Settings
        ensures { result ≡ record self { reset = true } }
    {
        Settings {
            reset: true,
            ..self
        }
    }

    /// The configuration with these values. None if they have a fault.
    pub fn checked(self) -> Option<Config>
        ensures { MatchOption result (configuration_fault self ≡ None → ⊥) (λ config. (config ≡ self) × (configuration_fault self ≡ None)) }
    {
        match Config::new(
            self.own_port,
            self.peer_port,
            self.limit,
            self.fragment,
            self.buffer,
            self.outbound,
            self.inbound,
        ) {
            Ok(config) => Some(self.switched(config)),
            Err(_) => None,
        }
    }

    /// A configuration of these values which has the extensions and the options too.
    fn switched(self, config: Config) -> Config
        ensures { result ≡ record config {
          interleave = self.interleave;
          partial = self.partial;
          delay = self.delay;
          standard_closing = self.standard_closing;
          fast_retransmit = self.fast_retransmit;
          congestion_control = self.congestion_control;
          least_wait = self.least_wait;
          reset = self.reset;
        } }
    {
        Config {
            interleave: self.interleave,
            partial: self.partial,
            delay: self.delay,
            standard_closing: self.standard_closing,
            fast_retransmit: self.fast_retransmit,
            congestion_control: self.congestion_control,
            rto_min: self.rto_min,
            reset: self.reset,
            ..config
        }
    }
}
