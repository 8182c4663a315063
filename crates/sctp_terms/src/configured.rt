//! The readers of a configuration. Each value is within its limits.

ghost use Rattle.std.specs.Prelude.{◌≡◌, ◌≤◌, ◌<◌, ◌+◌};
ghost use Rattle.sctp_model.specs.numbers.Limits.{STREAM_LIMIT, LEAST_PACKET, GREATEST_PACKET, LEAST_FRAGMENT, GREATEST_FRAGMENT, FRAGMENT_OVERHEAD, LEAST_BUFFER, GREATEST_BUFFER};
ghost use Rattle.sctp_model.specs.wire.Chunk.{padded};
ghost use Rattle.sctp_model.specs.end.Configured.{IsConfiguration, HasBoundedOptions};
ghost use Rattle.sctp_terms.specs.PlainOptions.{HasPlainOptions};

use crate::config::Config;

impl Config {
    /// The endpoint's own port, which isn't 0.
    pub fn own_port(&self) -> u16
        ensures exact { result ≡ self.now.own_port }
        ensures some { 0 < result }
    {
        self.own_port
    }

    /// Its peer's port, which isn't 0.
    pub fn peer_port(&self) -> u16
        ensures exact { result ≡ self.now.peer_port }
        ensures some { 0 < result }
    {
        self.peer_port
    }

    /// The bytes of the longest packet that it sends, 576 to 1,500.
    pub fn limit(&self) -> u16
        ensures exact { result ≡ self.now.limit }
        ensures least { LEAST_PACKET ≤ result }
        ensures greatest { result ≤ GREATEST_PACKET }
        // Every configuration is within its limits.
        ensures configured { IsConfiguration self.now }
        // It asks for none of these options, and so each is within its bounds.
        ensures plain { HasPlainOptions self.now }
        ensures bounded { HasBoundedOptions self.now }
    {
        self.limit
    }

    /// The data bytes of every fragment but a message's last, 4 to 1,400.
    pub fn fragment(&self) -> u16
        ensures exact { result ≡ self.now.fragment }
        ensures least { LEAST_FRAGMENT ≤ result }
        ensures greatest { result ≤ GREATEST_FRAGMENT }
        ensures fits { FRAGMENT_OVERHEAD + padded result ≤ self.now.limit }
    {
        self.fragment
    }

    /// The bytes of its receive buffer, 65,536 to 16,777,216.
    pub fn buffer(&self) -> u32
        ensures exact { result ≡ self.now.buffer }
        ensures least { LEAST_BUFFER ≤ result }
        ensures greatest { result ≤ GREATEST_BUFFER }
    {
        self.buffer
    }

    /// The number of streams that it asks for to its peer, 1 to 1,024.
    pub fn outbound(&self) -> u16
        ensures exact { result ≡ self.now.outbound }
        ensures some { 0 < result }
        ensures greatest { result ≤ STREAM_LIMIT }
    {
        self.outbound
    }

    /// The number of streams that it accepts from its peer, 1 to 1,024.
    pub fn inbound(&self) -> u16
        ensures exact { result ≡ self.now.inbound }
        ensures some { 0 < result }
        ensures greatest { result ≤ STREAM_LIMIT }
    {
        self.inbound
    }

    /// Whether it asks for I-DATA.
    pub fn interleave(&self) -> bool
        ensures { result ≡ self.now.interleave }
    {
        self.interleave
    }

    /// Whether it asks for partial reliability.
    pub fn partial(&self) -> bool
        ensures { result ≡ self.now.partial }
    {
        self.partial
    }

    /// Whether it delays its SACKs: one may wait for a second packet, or 200 ms.
    pub fn delay(&self) -> bool
        ensures { result ≡ self.now.delay }
    {
        self.delay
    }

    /// Whether it closes by the RFC's timers, not by this profile's.
    pub fn standard_closing(&self) -> bool
        ensures { result ≡ self.now.standard_closing }
    {
        self.standard_closing
    }

    /// Whether it asks for the reset of streams (RFC 6525).
    pub fn reset(&self) -> bool
        ensures { result ≡ self.now.reset }
    {
        self.reset
    }
}
