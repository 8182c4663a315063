//! One round trip that was measured.

ghost use Rattle.std.specs.Prelude.{◌≡◌, ◌-◌, ◌≤◌, min};
ghost use Rattle.sctp_model.specs.numbers.Limits as limits;

use sctp_values::LONGEST_WAIT;
use std::marker::Model;

/// A measured round trip (RFC 9260, 6.3.1), in milliseconds, 0 to 60,000: a longer one counts as RTO.Max. Contracts see the number.
#[derive(Clone, Copy, Debug, PartialEq, Eq)]
pub struct RoundTrip {
    ms: u32,
}

impl Model for RoundTrip {
    ghost use Rattle.std.specs.Prelude.{ℕ, ◌≤◌};
    ghost use Rattle.sctp_model.specs.numbers.Limits as limits;

    ghost Value = { ℕ };

    ghost view = { λ t. t.ms };

    ghost inverse = { λ n. record { ms = n } };

    ghost invariant = { λ t. t.ms ≤ limits.LONGEST_WAIT };
}

impl RoundTrip {
    /// The time from when a chunk was sent until now, in milliseconds; RTO.Max at most. It is 0 if `sent` is later than `now`.
    pub fn between(sent: u64, now: u64) -> RoundTrip
        ensures { result ≡ min (now - sent) limits.LONGEST_WAIT }
    {
        RoundTrip {
            ms: now.saturating_sub(sent).min(LONGEST_WAIT) as u32,
        }
    }

    /// The round trip in milliseconds, at most RTO.Max.
    pub fn ms(self) -> u32
        ensures exact { result ≡ self }
        ensures most { result ≤ limits.LONGEST_WAIT }
    {
        self.ms
    }
}
