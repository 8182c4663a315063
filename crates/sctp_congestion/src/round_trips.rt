//! Which chunk is timed, and what was measured.

ghost use Rattle.std.specs.Prelude.{◌≡◌, ◌-◌, ◌<◌, ◌≤◌, ◌||◌, min, Some, None, IfSome, option_map, option_and_then};
ghost use Rattle.sctp_model.specs.numbers.Limits as limits;
ghost use Rattle.sctp_model.specs.sender.SenderView.{SenderView};
ghost use Rattle.sctp_model.specs.sender.Words.{when};
ghost use Rattle.sctp_model.specs.end.Trips.{fresh_trips, timed_from, still_timed, trip_told, with_trip};
ghost use Rattle.sctp_model.specs.end.Pacing.{wait_measured};
ghost use Rattle.sctp_congestion.specs.Numbers.{is_measured};
ghost use Rattle.sctp_congestion.specs.Waits.{plain_waits};

use crate::estimate::RttEstimate;
use crate::round_trip::RoundTrip;
use sctp_values::FIRST_WAIT;
use std::marker::Model;

/// The chunk that is timed: its index, from 1 on, and the time in milliseconds at which it was sent. Contracts see the definitions' `Timed`.
#[derive(Clone, Copy, Debug, PartialEq, Eq)]
pub struct TimedChunk {
    index: u64,
    sent: u64,
}

impl Model for TimedChunk {
    ghost use Rattle.std.specs.Prelude.{◌<◌};
    ghost use Rattle.sctp_model.specs.end.Trips.{Timed};

    ghost Value = { Timed };

    ghost view = { λ t. record { index = t.index; moment = t.sent } };

    ghost inverse = { λ t. record { index = t.index; sent = t.moment } };

    ghost invariant = { λ t. 0 < t.index };
}

/// What an endpoint knows of round trips: the chunk that is timed, one at a time (RFC 9260, 6.3.1, C4), and SRTT and RTTVAR once a round trip was
/// measured. Contracts see the definitions' `Trips`.
#[derive(Clone, Copy, Debug)]
pub struct RoundTrips {
    timed: Option<TimedChunk>,
    estimate: Option<RttEstimate>,
}

impl Model for RoundTrips {
    ghost use Rattle.sctp_model.specs.end.Trips.{Trips};

    ghost Value = { Trips };

    ghost view = { λ t. record { timed = t.timed; smoothed = t.estimate } };

    ghost inverse = { λ t. record { timed = t.timed; estimate = t.smoothed } };
}

impl TimedChunk {
    /// The chunk with this index, sent at this time, in milliseconds.
    fn new(index: u64, sent: u64) -> TimedChunk
        requires { 0 < index }
        ensures { result ≡ record { index = index; moment = sent } }
    {
        TimedChunk { index, sent }
    }

    /// Its index: the number of its TSN, without wrapping, which is 1 for the initial TSN.
    pub fn index(self) -> u64
        ensures exact { result ≡ self.index }
        ensures some { 0 < result }
    {
        self.index
    }

    /// The round trip, if its acknowledgement arrives now.
    fn trip(self, now: u64) -> RoundTrip
        ensures { result ≡ min (now - self.moment) limits.LONGEST_WAIT }
    {
        RoundTrip::between(self.sent, now)
    }
}

impl RoundTrips {
    /// Before anything was sent.
    pub fn fresh() -> RoundTrips
        ensures { result ≡ fresh_trips }
    {
        RoundTrips {
            timed: None,
            estimate: None,
        }
    }

    /// The chunk that is timed, if any.
    pub fn timed(&self) -> Option<TimedChunk>
        ensures { result ≡ self.now.timed }
    {
        self.timed
    }

    /// SRTT and RTTVAR; None before the first measurement.
    pub fn estimate(&self) -> Option<RttEstimate>
        ensures { result ≡ self.now.smoothed }
    {
        self.estimate
    }

    /// A packet was sent at the time `now`, in milliseconds: the highest index ever sent was `before`, and is `after`. If nothing is timed, and a
    /// chunk was sent for the first time, the one of that index is timed (RFC 9260, 6.3.1, C4).
    pub fn start_timing(&mut self, now: u64, before: u64, after: u64)
        ensures { self.new ≡ record self.old { timed = timed_from self.old.timed now before after } }
    {
        if self.timed.is_none() && before < after {
            self.timed = Some(TimedChunk::new(after, now));
        }
    }

    /// Stops timing, if the chunk that is timed was acknowledged, or is marked for retransmission (RFC 9260, 6.3.1, C5: Karn's algorithm). `over` is
    /// whether it is so; without a chunk that is timed it is not read.
    pub fn stop_timing(&mut self, over: bool)
        ensures { (u : SenderView) → IfSome self.old.timed (λ t. over ≡ (u.marked t.index || u.covered t.index)) → self.new ≡ record self.old { timed = still_timed u self.old.timed } }
    {
        if over {
            self.timed = None;
        }
    }

    /// Stops timing after an expiry of the data timer: all that was sent is retransmitted (RFC 9260, 6.3.1, C5).
    pub fn clear_timing(&mut self)
        ensures { self.new ≡ record self.old { timed = None } }
    {
        self.timed = None;
    }

    /// The round trip that an acknowledgement measures which arrives at the time `now`, in milliseconds (RFC 9260, 6.3.1). `acked` is whether it
    /// newly acknowledges the chunk that is timed, whose message was not abandoned; without such a chunk it is not read.
    pub fn trip(&self, now: u64, acked: bool) -> Option<RoundTrip>
        ensures { (v u : SenderView) → IfSome self.now.timed (λ t. acked ≡ is_measured v u t.index) → result ≡ trip_told now v u self.now.timed }
    {
        match self.timed {
            Some(timed) if acked => Some(timed.trip(now)),
            _ => None,
        }
    }

    /// Smooths a round trip in, if one was measured (RFC 9260, 6.3.1, C2 and C3).
    pub fn measure(&mut self, trip: Option<RoundTrip>)
        ensures { self.new ≡ record self.old { smoothed = with_trip trip self.old.smoothed } }
    {
        if let Some(trip) = trip {
            self.estimate = Some(match self.estimate {
                Some(estimate) => estimate.smoothed_by(trip),
                None => RttEstimate::first(trip),
            });
        }
    }

    /// The RTO in milliseconds, at most RTO.Max: computed from SRTT and RTTVAR; RTO.Initial, 1,000, before the first measurement (RFC 9260, 6.3.1,
    /// C1 to C3). `rto_min` is RTO.Min in milliseconds.
    pub fn rto(&self, rto_min: u32) -> u64
        ensures exact { result ≡ wait_measured (plain_waits rto_min) self.now.smoothed }
        ensures most { result ≤ limits.LONGEST_WAIT }
    {
        match self.estimate {
            Some(estimate) => estimate.rto(rto_min),
            None => FIRST_WAIT,
        }
    }
}
