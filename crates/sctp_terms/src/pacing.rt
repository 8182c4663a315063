//! Fast retransmission, congestion control and RTO.Min, of a configuration.

ghost use Rattle.std.specs.Prelude.{◌≡◌, true};

use crate::config::Config;

impl Config {
    /// This configuration with fast retransmission: what has three miss indications is retransmitted without waiting for the data timer (RFC 9260,
    /// 7.2.4), whose RTO is computed from measured round trips (6.3.1). Alone it limits nothing that is sent, and isn't for the Internet.
    pub fn with_fast_retransmit(self) -> Config
        ensures { result ≡ record self { fast_retransmit = true } }
    {
        Config {
            fast_retransmit: true,
            ..self
        }
    }

    /// This configuration with congestion control, and with fast retransmission, which it needs: a congestion window limits the bytes in flight, by slow
    /// start, congestion avoidance and Fast Recovery, and so do bursts (RFC 9260, 7.2 and 6.1).
    pub fn with_congestion_control(self) -> Config
        ensures { result ≡ record self { fast_retransmit = true; congestion_control = true } }
    {
        Config {
            fast_retransmit: true,
            congestion_control: true,
            ..self
        }
    }

    /// This configuration with another RTO.Min, in milliseconds: the least RTO that is computed from round trips (RFC 9260, 6.3.1, C6, and 16).
    /// Without fast retransmission none is computed. Below the round trip and 200 ms, a peer that delays its SACKs causes retransmissions of what arrived.
    pub fn with_rto_min(self, milliseconds: u32) -> Config
        ensures { result ≡ record self { least_wait = milliseconds } }
    {
        Config {
            rto_min: milliseconds,
            ..self
        }
    }

    /// Whether it retransmits what has three miss indications, and computes the RTO from round trips (RFC 9260, 6.3.1 and 7.2.4).
    pub fn fast_retransmit(&self) -> bool
        ensures { result ≡ self.now.fast_retransmit }
    {
        self.fast_retransmit
    }

    /// Whether a congestion window limits the bytes in flight (RFC 9260, 7.2).
    pub fn congestion_control(&self) -> bool
        ensures { result ≡ self.now.congestion_control }
    {
        self.congestion_control
    }

    /// RTO.Min in milliseconds: the least RTO that is computed from round trips (RFC 9260, 6.3.1, C6).
    pub fn rto_min(&self) -> u32
        ensures { result ≡ self.now.least_wait }
    {
        self.rto_min
    }
}
