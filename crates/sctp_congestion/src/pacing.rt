//! Round trips, misses and congestion control of one association together.

ghost use Rattle.std.specs.Prelude.{◌≡◌, ℕ, ◌<◌, ◌≤◌, suc, false, nat_le, nat_lt, ◌&&◌, List, length, OnOk};
ghost use Rattle.sctp_model.specs.messages.Format.{Format};
ghost use Rattle.sctp_model.specs.messages.Framing.{header_of};
ghost use Rattle.sctp_model.specs.sender.SenderView.{SenderView};
ghost use Rattle.sctp_model.specs.sender.Filling.{Wish, fill};
ghost use Rattle.sctp_model.specs.end.Misses.{is_missed, goes_again, last_sent};
ghost use Rattle.sctp_model.specs.end.Control.{room_of_repeats, chunk_flight};
ghost use Rattle.sctp_model.specs.end.Pacing.{Pace, fresh_pace, pace_begun, wait_begun, is_probe, expired_pace, room_paced, sent_pace};
ghost use Rattle.sctp_congestion.specs.Allowed.{room_allowed};
ghost use Rattle.sctp_congestion.specs.Waits.{plain_waits};
ghost use Rattle.sctp_congestion.specs.Went.{AreThose};
ghost use Rattle.sctp_congestion.specs.PaceStands.{PaceStands, missed_at, pace_room};

use crate::control::{Allowance, CongestionControl, expire_window, fresh_window, send_by_window};
use crate::misses::MissIndications;
use crate::round_trip::RoundTrip;
use crate::round_trips::RoundTrips;
use sctp_values::NoMemory;
use std::alloc::Global;
use std::marker::Model;

/// What an endpoint remembers of round trips, misses and congestion control (RFC 9260, 6.3.1 and 7.2). It stands for the definitions' `Pace`
/// (`specs/PaceStands`).
#[derive(Drop)]
pub struct Pacing {
    pub(crate) trips: RoundTrips,
    pub(crate) misses: MissIndications,
    /// If the endpoint is set up for congestion control.
    pub(crate) control: Option<CongestionControl>,
}

impl Model for Pacing {
    ghost use Rattle.sctp_congestion.specs.PaceStands.{PaceKept};

    ghost Value = { PaceKept };

    ghost view = { λ p. record { trips = p.trips; misses = p.misses; control = p.control } };
}

impl Pacing {
    /// That of a new association, with or without congestion control, for chunks with `header` bytes before their data, packets with `pmdcs` bytes of space
    /// for chunks, and a peer that advertised the receiver window `a_rwnd` (RFC 9260, 6.3.1 and 7.2.1). Nothing is allocated.
    pub fn fresh(alloc: Global, controls: bool, header: u16, pmdcs: u16, a_rwnd: u32) -> Pacing
        ensures { (f : Format) → header ≡ header_of f → PaceStands f 0 result (fresh_pace controls 1 false header pmdcs a_rwnd) }
    {
        Pacing {
            trips: RoundTrips::fresh(),
            misses: MissIndications::fresh(alloc),
            control: fresh_window(controls, header, pmdcs, a_rwnd),
        }
    }

    /// What is known of round trips.
    pub fn trips(&self) -> RoundTrips
        ensures { result ≡ self.now.trips }
    {
        self.trips
    }

    /// The state of congestion control, if the endpoint is set up for it.
    pub fn control(&self) -> Option<CongestionControl>
        ensures { result ≡ self.now.control }
    {
        self.control
    }

    /// The index below which a chunk was sent last, as counted by the highest index sent by then, if it has its third miss indication.
    pub fn missed_below(&self) -> u64
        ensures { (f : Format) (cum : ℕ) (p : Pace) → PaceStands f cum self.now p → result ≡ p.misses.third }
    {
        self.misses.third()
    }

    /// Whether an index has its third miss indication, unless it is acknowledged (RFC 9260, 7.2.4).
    #[inline(always)]
    pub fn is_missed(&self, index: u64) -> bool
        ensures exact { result ≡ missed_at self.now index }
        ensures step { (f : Format) (cum : ℕ) (p : Pace) → PaceStands f cum self.now p → cum < index → result ≡ is_missed p.misses index }
    {
        self.misses.is_missed(index)
    }

    /// An index after those that have their third miss indication: above the cumulative TSN it is these for which [`Pacing::is_missed`] holds, from there, or
    /// from the next index, up to this one.
    pub fn missed_end(&self) -> u64
        ensures { (f : Format) (cum from : ℕ) (p : Pace) → PaceStands f cum self.now p → from ≤ suc cum → (i : ℕ) → cum < i
            → is_missed p.misses i ≡ (nat_le from i && (nat_lt i result && missed_at self.now i)) }
    {
        self.misses.missed_end()
    }

    /// The handshake is over: the round trip that it measured, if any, is the first measurement (RFC 9260, 6.3.1, C2).
    pub fn begin(&mut self, trip: Option<RoundTrip>)
        ensures { (f : Format) (cum : ℕ) (p : Pace) → PaceStands f cum self.old p → PaceStands f cum self.new (pace_begun trip p) }
    {
        self.trips.measure(trip);
    }

    /// The data timer's first RTO in milliseconds: by the handshake's round trip; without one `rto`, that of the handshake, which each expiry doubled
    /// (RFC 9260, 6.3.1, C1 and C2; 6.3.3, E2). `rto_min` is RTO.Min in milliseconds.
    pub fn first_rto(&self, rto_min: u32, rto: u64) -> u64
        ensures { (f : Format) (cum : ℕ) (p : Pace) → PaceStands f cum self.now p → result ≡ wait_begun (plain_waits rto_min) rto p }
    {
        match self.trips.estimate() {
            Some(estimate) => estimate.rto(rto_min),
            None => rto,
        }
    }

    /// The data timer expired: nothing is timed, Fast Recovery is over, and the window is one packet (RFC 9260, 6.3.3 and 7.2.3). That stays if all that is
    /// in flight `probes` a window without space: it is more than the peer has space for, and no more than a fragment has (6.1, rule A).
    pub fn expire(&mut self, probes: bool)
        ensures { (f : Format) (cum : ℕ) (v : SenderView) (p : Pace) → PaceStands f cum self.old p → probes ≡ is_probe v → PaceStands f cum self.new (expired_pace v p) }
    {
        self.trips.clear_timing();
        self.misses.expire();
        expire_window(&mut self.control, probes);
    }

    /// How much of a packet's space fragments may take while `flight` bytes of chunks are in flight; all without congestion control (RFC 9260, 6.1 and
    /// 7.2.4).
    pub fn allowance(&self, flight: u64) -> Allowance
        ensures { (f : Format) (cum room : ℕ) (v : SenderView) (p : Pace) → PaceStands f cum self.now p → flight ≡ chunk_flight (header_of f) v
            → room_paced p.control f room v ≡ room_allowed result room (room_of_repeats f (fill f room v).wishes) }
    {
        match self.control {
            Some(control) => control.allowance(flight),
            None => Allowance::All,
        }
    }

    /// Allocates memory for what goes out again or is taken back, with indexes up to this one: before a packet with retransmissions, so that `sent` has it,
    /// and before an acknowledgement that takes something back, so that `notice` has.
    ///
    /// # Errors
    /// Allocation failed; nothing changed.
    pub fn reserve(&mut self, last: u64) -> Result<(), NoMemory>
        ensures same { (f : Format) (cum : ℕ) (p : Pace) → PaceStands f cum self.old p → PaceStands f cum self.new p }
        ensures room { OnOk result (last ≤ pace_room self.new) }
    {
        self.misses.reserve(last)
    }

    /// A packet with user data was sent at the time `now`, in milliseconds: the highest index that was sent is `after`, and was `before` it; `flight` bytes
    /// of chunks are in flight after it; `again` are the indexes that it retransmitted (RFC 9260, 6.3.1, C4; 7.2.4).
    pub fn sent(&mut self, now: u64, before: u64, after: u64, flight: u64, again: &[u64])
        ensures { (f : Format) (cum : ℕ) (v u : SenderView) (ws : List Wish) (p : Pace) → PaceStands f cum self.old p → before ≡ last_sent v → after ≡ last_sent u
            → flight ≡ chunk_flight (header_of f) u → 0 < length ws → AreThose (goes_again ws) cum (pace_room self.old) again.now
            → PaceStands f cum self.new (sent_pace now v u ws p) }
    {
        self.trips.start_timing(now, before, after);
        self.misses.resend(before, again);
        send_by_window(&mut self.control, flight);
    }

    /// Gives memory back, if no index above the cumulative TSN was retransmitted.
    pub fn trim(&mut self)
        ensures { (f : Format) (cum : ℕ) (p : Pace) → PaceStands f cum self.old p → PaceStands f cum self.new p }
    {
        self.misses.trim();
    }

    // law
    /// What it stands for at a sender, it stands for once the cumulative TSN has moved.
    pub fn stays(&self)
        ensures { (f : Format) (cum later : ℕ) (p : Pace) → PaceStands f cum self.now p → cum ≤ later → PaceStands f later self.now p }
    {}
}
