//! What an acknowledgement does to round trips, misses and congestion control, in two steps.

ghost use Rattle.std.specs.Prelude.{◌≡◌, ℕ, ◌≤◌, ◌||◌, ◌==◌, suc, is_some, IfSome};
ghost use Rattle.sctp_model.specs.messages.Format.{Format};
ghost use Rattle.sctp_model.specs.sender.SenderView.{SenderView};
ghost use Rattle.sctp_model.specs.sender.Words.{some_passes};
ghost use Rattle.sctp_model.specs.end.Pacing.{Pace, Heard, misses_heard, heard, wait_heard};
ghost use Rattle.sctp_congestion.specs.Highest.{AreHighest, AreTakenBack};
ghost use Rattle.sctp_congestion.specs.Waits.{plain_waits};
ghost use Rattle.sctp_congestion.specs.Weighs.{Weighs};
ghost use Rattle.sctp_congestion.specs.PaceStands.{PaceStands, pace_room};

use crate::control::acknowledge_window;
use crate::misses::Highest;
use crate::news::News;
use crate::pacing::Pacing;
use crate::round_trip::RoundTrip;

/// What the sender says of an acknowledgement, once misses are counted: indexes count TSNs without wrapping from 1 on, and sizes are bytes of whole chunks,
/// with headers and padding.
#[derive(Clone, Copy, Debug)]
pub struct Weighed {
    /// It moved the cumulative TSN.
    pub moved: bool,
    /// The cumulative TSN's index after it.
    pub cum: u64,
    /// Something waited to be sent before the sender took it.
    pub waits: bool,
    /// The lowest index in flight that has its third miss indication by it.
    pub lost: Option<u64>,
    /// The highest index that was sent; without such a lost one this is not read.
    pub last_sent: u64,
    /// The bytes in flight before it.
    pub flight: u64,
    /// The bytes that it newly acknowledges.
    pub bytes: u64,
    /// The bytes in flight after it, once what is lost is marked for retransmission.
    pub left: u64,
    /// It newly acknowledges the chunk that is timed, whose message was not abandoned; without such a chunk this is not read.
    pub acked: bool,
    /// The chunk that is timed is acknowledged, or marked for retransmission; without such a chunk this is not read.
    pub over: bool,
}

/// What follows from an acknowledgement.
#[derive(Clone, Copy, Debug)]
pub struct Reply {
    /// The round trip that it measured, if any.
    pub trip: Option<RoundTrip>,
    /// It moved the cumulative TSN.
    pub moved: bool,
    /// The data timer is restarted (RFC 9260, 6.3.2, R3; 7.2.4, step 4).
    pub restarts: bool,
}

impl Pacing {
    /// Counts misses, as the first step after an acknowledgement that the sender has taken: then [`Pacing::is_missed`] is what is to be marked for
    /// retransmission, and [`Pacing::hear`] is the second step (RFC 9260, 7.2.4). `back` are the indexes that it takes back, for which memory was reserved, and
    /// `last` is the highest index that was sent; if it takes none back, that is not read.
    pub fn notice(&mut self, said: Highest, last: u64, back: &[u64])
        ensures { (f : Format) (cum : ℕ) (v u : SenderView) (p : Pace) → PaceStands f cum self.old p → cum ≤ u.cum → AreHighest v u said
            → AreTakenBack v u (pace_room self.old) last back.now → PaceStands f u.cum self.new (record p { misses = misses_heard v u p.misses }) }
    {
        self.misses.hear(said, last, back);
    }

    /// The second step after an acknowledgement, at the time `now` in milliseconds, once what was missed is marked for retransmission: the round trip is
    /// measured, Fast Recovery may begin, the congestion window grows or shrinks (RFC 9260, 6.3.1, 7.2 and 6.1).
    #[inline(always)]
    pub fn hear(&mut self, now: u64, said: Weighed) -> Reply
        ensures step { (f : Format) (v u : SenderView) (p : Pace) → PaceStands f u.cum self.old (record p { misses = misses_heard v u p.misses }) → Weighs f v u p said
            → PaceStands f u.cum self.new (heard now v u p).pace }
        ensures trip { (f : Format) (v u : SenderView) (p : Pace) → PaceStands f u.cum self.old (record p { misses = misses_heard v u p.misses }) → Weighs f v u p said
            → result.trip ≡ (heard now v u p).trip }
        ensures moved { (f : Format) (v u : SenderView) (p : Pace) → PaceStands f u.cum self.old (record p { misses = misses_heard v u p.misses }) → Weighs f v u p said
            → result.moved ≡ (heard now v u p).moved }
        ensures restarts { (f : Format) (v u : SenderView) (p : Pace) → PaceStands f u.cum self.old (record p { misses = misses_heard v u p.misses }) → Weighs f v u p said
            → result.restarts ≡ (heard now v u p).anew }
    {
        let trip = self.trips.trip(now, said.acked);
        self.trips.stop_timing(said.over);
        self.trips.measure(trip);
        let recovers = self.misses.is_recovering();
        self.misses.begin_recovery(said.lost, said.last_sent);
        acknowledge_window(&mut self.control, said.news(recovers));
        Reply {
            trip,
            moved: said.moved,
            restarts: said.moved || said.is_first_lost(),
        }
    }

    /// The RTO in milliseconds after an acknowledgement with this reply: the one computed, if it measured a round trip or moved the cumulative TSN; else
    /// `rto`, the one before it (RFC 9260, 6.3.1 and 6.3.3). `rto_min` is RTO.Min in milliseconds.
    pub fn rto_after(&self, reply: &Reply, rto_min: u32, rto: u64) -> u64
        ensures { (f : Format) (cum : ℕ) (h : Heard) → PaceStands f cum self.now h.pace → reply.now.trip ≡ h.trip → reply.now.moved ≡ h.moved
            → result ≡ wait_heard (plain_waits rto_min) rto h }
    {
        if reply.trip.is_some() || reply.moved {
            self.trips.rto(rto_min)
        } else {
            rto
        }
    }
}

impl Weighed {
    /// The first outstanding chunk, the one after the cumulative TSN, has its third miss indication.
    fn is_first_lost(&self) -> bool
        ensures { result ≡ some_passes (λ i. i == suc self.now.cum) self.now.lost }
    {
        match self.lost {
            Some(index) => self.cum < index && index - self.cum == 1,
            None => false,
        }
    }

    /// What it says to congestion control; `recovers` is whether Fast Recovery goes on.
    #[inline(always)]
    fn news(&self, recovers: bool) -> News
        ensures { result ≡ record { flight = self.now.flight; left = self.now.left; bytes = self.now.bytes; recovers = recovers; lost = is_some self.now.lost; moved = self.now.moved; waits = self.now.waits } }
    {
        News {
            flight: self.flight,
            left: self.left,
            bytes: self.bytes,
            recovers,
            lost: self.lost.is_some(),
            moved: self.moved,
            waits: self.waits,
        }
    }
}
