//! How an acknowledgement changes the congestion window.

ghost use Rattle.std.specs.Prelude.{◌≡◌, ℕ};
ghost use Rattle.sctp_model.specs.end.Control.{widened, is_in_use, started_slowly, avoided, grown, window_after, recovered, unused_burst, allowed, bursting, control_heard};
ghost use Rattle.sctp_model.specs.end.Control as model;
ghost use Rattle.sctp_congestion.specs.Says.{Says};

use crate::control::CongestionControl;

/// How many packets may be sent for one acknowledgement (Max.Burst of RFC 9260, 16).
const MAX_BURST: u64 = 4;

/// The largest window that a peer can advertise (RFC 9260, 3.3.4).
const LARGEST_WINDOW: u64 = u32::MAX as u64;

/// What an acknowledgement says to congestion control. Sizes are in bytes of whole chunks, with headers and padding.
#[derive(Clone, Copy, Debug)]
pub(crate) struct News {
    /// The bytes in flight before it.
    pub(crate) flight: u64,
    /// The bytes in flight after it, once what is lost is marked for retransmission.
    pub(crate) left: u64,
    /// The bytes that it newly acknowledges.
    pub(crate) bytes: u64,
    /// Fast Recovery goes on.
    pub(crate) recovers: bool,
    /// A chunk in flight has its third miss indication.
    pub(crate) lost: bool,
    /// It moved the cumulative TSN.
    pub(crate) moved: bool,
    /// Something waited to be sent when it was received.
    pub(crate) waits: bool,
}

impl CongestionControl {
    /// The congestion window is wider by this number of bytes; 2^32 - 1 at most.
    fn widen(&mut self, bytes: u32)
        ensures { self.new ≡ widened bytes self.old }
    {
        self.cwnd = self.cwnd.saturating_add(bytes);
    }

    /// The window is in use: `flight` bytes in flight fill it; or the last packet filled it and something waits, so that only acknowledgements received
    /// together with this one have lessened what is in flight (RFC 9260, 7.2.1 and 7.2.2).
    fn is_in_use(&self, waits: bool, flight: u64) -> bool
        ensures { result ≡ is_in_use waits flight self.now }
    {
        u64::from(self.cwnd) <= flight || (self.full && waits)
    }

    /// Slow start: if the window was in use, it grows by the `bytes` acknowledged, but by one packet at most (RFC 9260, 7.2.1, with L = 1).
    fn slow_start(&mut self, in_use: bool, bytes: u64)
        ensures { self.new ≡ started_slowly in_use bytes self.old }
    {
        if in_use {
            self.widen(bytes.min(u64::from(self.pmdcs)) as u32);
        }
    }

    /// Congestion avoidance: if the window was in use, it grows by one packet for each window that was acknowledged; the `bytes` acknowledged are counted
    /// for it (RFC 9260, 7.2.2).
    fn avoid_congestion(&mut self, in_use: bool, bytes: u64)
        ensures { self.new ≡ avoided in_use bytes self.old }
    {
        let acked = u64::from(self.partial_bytes_acked).saturating_add(bytes);
        let window = u64::from(self.cwnd);
        if !in_use || acked < window {
            self.partial_bytes_acked = acked.min(window) as u32;
        } else {
            self.partial_bytes_acked = (acked - window).min(LARGEST_WINDOW) as u32;
            self.widen(u32::from(self.pmdcs));
        }
    }

    /// The window grows by slow start up to ssthresh, by congestion avoidance above it (RFC 9260, 7.2.1).
    fn grow(&mut self, in_use: bool, bytes: u64)
        ensures { (now trip : ℕ) → self.new ≡ grown in_use bytes now trip self.old }
    {
        if self.cwnd <= self.ssthresh {
            self.slow_start(in_use, bytes);
        } else {
            self.avoid_congestion(in_use, bytes);
        }
    }

    /// The window grows by what is acknowledged outside Fast Recovery (RFC 9260, 7.2.1 and 7.2.2).
    #[inline(always)]
    fn open_window(&mut self, said: News)
        ensures { (n : model.News) → Says n said → self.new ≡ window_after n self.old }
    {
        if said.bytes != 0 && !said.recovers {
            let in_use = self.is_in_use(said.waits, said.flight);
            self.grow(in_use, said.bytes);
        }
    }

    /// Fast Recovery begins with a loss, unless it is on. One packet of retransmissions may be sent whatever the window is at each Fast Retransmit, and in
    /// Fast Recovery also if the cumulative TSN moved: then what is first outstanding is lost, too (RFC 9260, 7.2.4; RFC 6582, 3.2, step 3).
    #[inline(always)]
    fn recover(&mut self, said: News)
        ensures { (n : model.News) → Says n said → self.new ≡ recovered n self.old }
    {
        if said.lost && !said.recovers {
            self.enter_fast_recovery();
        }
        if said.lost || (said.recovers && said.moved) {
            self.rescue = true;
        }
    }

    /// What earlier acknowledgements allowed, and no packet took, while `flight` bytes are in flight.
    #[inline(always)]
    fn unused_burst(&self, flight: u64) -> u64
        ensures { result ≡ unused_burst flight self.now }
    {
        if self.sent {
            return 0;
        }
        u64::from(self.burst).saturating_sub(flight)
    }

    /// How many bytes may be sent now, 2^32 - 1 at most: Max.Burst packets (RFC 9260, 6.1, rule D); while something waits, and outside Fast Recovery, also
    /// what is acknowledged, and what earlier acknowledgements allowed: a window at most. So acknowledgements that are received together allow what they
    /// would one by one.
    #[inline(always)]
    fn allowed(&self, said: News, unused: u64) -> u64
        ensures { (n : model.News) → Says n said → result ≡ allowed n unused self.now }
    {
        let burst = MAX_BURST * u64::from(self.pmdcs);
        if !said.waits || said.recovers || said.lost {
            return burst;
        }
        let all = burst.saturating_add(said.bytes).saturating_add(unused);
        all.min(burst.max(u64::from(self.cwnd)))
    }

    /// Sets the limit of bursts (RFC 9260, 6.1, rule D). An acknowledgement of no new bytes leaves it. With nothing in flight the count of acknowledged bytes
    /// is 0 (7.2.2).
    #[inline(always)]
    fn set_burst_limit(&mut self, said: News, unused: u64)
        ensures { (n : model.News) → Says n said → self.new ≡ bursting n unused self.old }
    {
        if said.bytes != 0 {
            let burst = said.left.saturating_add(self.allowed(said, unused));
            self.burst = burst.min(LARGEST_WINDOW) as u32;
            self.sent = false;
        }
        if said.left == 0 {
            self.partial_bytes_acked = 0;
        }
    }

    /// All that an acknowledgement does to congestion control (RFC 9260, 7.2 and 6.1): the window grows, Fast Recovery begins, the limit of bursts is set.
    #[inline(always)]
    pub(crate) fn acknowledge(&mut self, said: News)
        ensures { (n : model.News) → Says n said → self.new ≡ control_heard n self.old }
    {
        let unused = self.unused_burst(said.flight);
        self.open_window(said);
        self.recover(said);
        self.set_burst_limit(said, unused);
    }
}
