//! SRTT and RTTVAR, and the RTO that they give.

ghost use Rattle.std.specs.Prelude.{◌≡◌, ◌/◌, ◌≤◌, Some, None};
ghost use Rattle.sctp_model.specs.numbers.Limits as limits;
ghost use Rattle.sctp_model.specs.end.Trips.{smoothed_by, wait_of};
ghost use Rattle.sctp_congestion.specs.Waits.{plain_waits};

use crate::round_trip::RoundTrip;
use sctp_values::LONGEST_WAIT;
use std::marker::Model;

/// The granularity of the clock, in milliseconds (G of RFC 9260, 6.3.1).
const TICK: u32 = 1;

/// The smoothed round-trip time and its variation (SRTT and RTTVAR; RFC 9260, 6.3.1): eight times the one and four times the other, so that
/// both are whole numbers of milliseconds. SRTT and RTTVAR are at most RTO.Max. Contracts see the definitions' `Smoothed`.
#[derive(Clone, Copy, Debug, PartialEq, Eq)]
pub struct RttEstimate {
    eight_srtt: u32,
    four_rttvar: u32,
}

impl Model for RttEstimate {
    ghost use Rattle.std.specs.Prelude.{◌*◌, ◌≤◌};
    ghost use Rattle.sctp_model.specs.numbers.Limits as limits;
    ghost use Rattle.sctp_model.specs.end.Trips.{Smoothed};

    ghost Value = { Smoothed };

    ghost view = { λ s. record { eight = s.eight_srtt; four = s.four_rttvar } };

    ghost inverse = { λ s. record { eight_srtt = s.eight; four_rttvar = s.four } };

    ghost invariant = { λ s. (s.eight_srtt ≤ 8 * limits.LONGEST_WAIT) × (s.four_rttvar ≤ 4 * limits.LONGEST_WAIT) };
}

impl RttEstimate {
    /// After the first measurement: SRTT is the round trip, RTTVAR half of it (RFC 9260, 6.3.1, C2).
    pub fn first(trip: RoundTrip) -> RttEstimate
        ensures { result ≡ smoothed_by None trip }
    {
        let trip = trip.ms();
        RttEstimate {
            eight_srtt: 8 * trip,
            four_rttvar: 2 * trip,
        }
    }

    /// After a later measurement: RTTVAR first, by the SRTT before it, then SRTT, with RTO.Beta 1/4 and RTO.Alpha 1/8 (RFC 9260, 6.3.1, C3).
    pub fn smoothed_by(self, trip: RoundTrip) -> RttEstimate
        ensures { result ≡ smoothed_by (Some self) trip }
    {
        let trip = trip.ms();
        let srtt = self.eight_srtt / 8;
        let distance = if srtt < trip {
            trip - srtt
        } else {
            srtt - trip
        };
        RttEstimate {
            eight_srtt: self.eight_srtt - srtt + trip,
            four_rttvar: self.four_rttvar - self.four_rttvar / 4 + distance,
        }
    }

    /// The RTO in milliseconds: SRTT and four times RTTVAR, of which the latter is at least the clock's granularity, 1 ms; at least `rto_min`
    /// (RTO.Min, in milliseconds) and at most RTO.Max, 60,000 (RFC 9260, 6.3.1, C2, C3, C6, C7 and G1).
    pub fn rto(self, rto_min: u32) -> u64
        ensures exact { result ≡ wait_of (plain_waits rto_min) self }
        ensures most { result ≤ limits.LONGEST_WAIT }
    {
        let computed = self.eight_srtt / 8 + self.four_rttvar.max(4 * TICK);
        u64::from(computed.max(rto_min)).min(LONGEST_WAIT)
    }

    /// SRTT in milliseconds, rounded down.
    pub fn srtt(self) -> u32
        ensures { result ≡ self.eight / 8 }
    {
        self.eight_srtt / 8
    }

    /// RTTVAR in milliseconds, rounded down.
    pub fn rttvar(self) -> u32
        ensures { result ≡ self.four / 4 }
    {
        self.four_rttvar / 4
    }
}
