//! The congestion window, and what a loss or an expiry makes of it.

ghost use Rattle.std.specs.Prelude.{◌≡◌, ℕ, ◌<◌, true, false, if◌then◌else◌, option_map, List, length};
ghost use Rattle.sctp_model.specs.messages.Format.{Format};
ghost use Rattle.sctp_model.specs.sender.SenderView.{SenderView};
ghost use Rattle.sctp_model.specs.sender.Words.{when};
ghost use Rattle.sctp_model.specs.sender.Filling.{Wish, fill};
ghost use Rattle.sctp_model.specs.end.Control.{fresh_control, lessened, recovering, control_expired, with_packet, is_let_in, room_of_repeats, room_controlled, chunk_flight, control_heard};
ghost use Rattle.sctp_model.specs.end.Control as model;
ghost use Rattle.sctp_congestion.specs.Allowed.{room_allowed};
ghost use Rattle.sctp_congestion.specs.Says.{Says};

use crate::news::News;
use std::marker::Model;

/// The initial congestion window in bytes, between two and four packets (RFC 9260, 7.2.1, for IPv4).
const INITIAL_WINDOW: u32 = 4_404;

/// How much of a packet's space fragments may take.
#[derive(Clone, Copy, Debug, PartialEq, Eq)]
pub enum Allowance {
    /// All of it.
    All,
    /// Only that of the retransmissions among what would be sent: one packet of them is exempt from the window (RFC 9260, 7.2.4, step 3).
    Retransmissions,
    /// None.
    Nothing,
}

/// The state of congestion control (RFC 9260, 7.2). What is in flight and what is acknowledged is counted in bytes of whole chunks, with headers and
/// padding. Contracts see the definitions' `Control`, in slow start with L = 1, and without CUBIC.
///
/// Sizes are in bytes, each at most 2^32 - 1, the largest window that a peer can advertise (RFC 9260, 3.3.4).
#[derive(Clone, Copy, Debug)]
pub struct CongestionControl {
    /// The bytes of a chunk before its data, 16 or 20 (RFC 9260, 3.3.1; RFC 8260, 2.1).
    pub(crate) header: u16,
    /// The space that a packet has for chunks, after its common header (PMDCS).
    pub(crate) pmdcs: u16,
    pub(crate) cwnd: u32,
    pub(crate) ssthresh: u32,
    /// The bytes acknowledged that congestion avoidance has counted since the window last grew by it.
    pub(crate) partial_bytes_acked: u32,
    /// The limit of bursts: a packet may be sent while less than this is in flight.
    pub(crate) burst: u32,
    /// One packet of retransmissions may be sent whatever the window is.
    pub(crate) rescue: bool,
    /// A packet with user data was sent since something was newly acknowledged.
    pub(crate) sent: bool,
    /// The last such packet left no less in flight than the congestion window.
    pub(crate) full: bool,
}

impl Model for CongestionControl {
    ghost use Rattle.std.specs.Prelude.{None};
    ghost use Rattle.sctp_model.specs.end.Control.{Control};

    ghost Value = { Control };

    ghost view = { λ k. record {
      header = k.header;
      size = k.pmdcs;
      growth = 1;
      cwnd = k.cwnd;
      ssthresh = k.ssthresh;
      acked = k.partial_bytes_acked;
      burst = k.burst;
      rescue = k.rescue;
      sent = k.sent;
      full = k.full;
      cubic = None;
    } };

    ghost inverse = { λ k. record {
      header = k.header;
      pmdcs = k.size;
      cwnd = k.cwnd;
      ssthresh = k.ssthresh;
      partial_bytes_acked = k.acked;
      burst = k.burst;
      rescue = k.rescue;
      sent = k.sent;
      full = k.full;
    } };
}

impl CongestionControl {
    /// The initial state, for chunks with `header` bytes before their data, packets with `pmdcs` bytes of space for chunks, and a peer that advertised the
    /// receiver window `a_rwnd`, which is the initial ssthresh (RFC 9260, 7.2.1).
    pub(crate) fn fresh(header: u16, pmdcs: u16, a_rwnd: u32) -> CongestionControl
        ensures { result ≡ fresh_control 1 false header pmdcs a_rwnd }
    {
        let packet = u32::from(pmdcs);
        let cwnd = (4 * packet).min((2 * packet).max(INITIAL_WINDOW));
        CongestionControl {
            header,
            pmdcs,
            cwnd,
            ssthresh: a_rwnd,
            partial_bytes_acked: 0,
            burst: cwnd,
            rescue: false,
            sent: false,
            full: false,
        }
    }

    /// The congestion window in bytes.
    pub fn cwnd(&self) -> u32
        ensures { result ≡ self.now.cwnd }
    {
        self.cwnd
    }

    /// The slow-start threshold in bytes: up to it the window grows by slow start, above it by congestion avoidance (RFC 9260, 7.2.1).
    pub fn ssthresh(&self) -> u32
        ensures { result ≡ self.now.ssthresh }
    {
        self.ssthresh
    }

    /// Whether a packet may be filled while `flight` bytes of chunks are in flight: they are fewer than the congestion window and the limit of bursts, so that the
    /// window is exceeded by less than one packet (RFC 9260, 6.1, rules B and D).
    fn is_let_in(&self, flight: u64) -> bool
        ensures { result ≡ is_let_in flight self.now }
    {
        flight < u64::from(self.cwnd.min(self.burst))
    }

    /// How much of a packet's space fragments may take while `flight` bytes of chunks are in flight (RFC 9260, 6.1, rules B and D; 7.2.4, step 3).
    pub(crate) fn allowance(&self, flight: u64) -> Allowance
        ensures { (f : Format) (room : ℕ) (v : SenderView) → flight ≡ chunk_flight self.now.header v → room_controlled self.now f room v ≡ room_allowed result room (room_of_repeats f (fill f room v).wishes) }
    {
        if self.is_let_in(flight) {
            Allowance::All
        } else if self.rescue {
            Allowance::Retransmissions
        } else {
            Allowance::Nothing
        }
    }

    /// A loss was detected: ssthresh is half the congestion window, but four packets at least, and the count of acknowledged bytes is 0
    /// (RFC 9260, 7.2.3).
    fn lower_ssthresh(&mut self)
        ensures { self.new ≡ lessened self.old }
    {
        self.ssthresh = (self.cwnd / 2).max(4 * u32::from(self.pmdcs));
        self.partial_bytes_acked = 0;
    }

    /// Fast Recovery begins: the window is the new ssthresh, and one packet of retransmissions may be sent whatever the window is (RFC 9260, 7.2.4,
    /// steps 2 and 3).
    pub(crate) fn enter_fast_recovery(&mut self)
        ensures { self.new ≡ recovering self.old }
    {
        self.lower_ssthresh();
        self.cwnd = self.ssthresh;
        self.rescue = true;
    }

    /// The data timer expired: the window is one packet, and only one packet is sent before the next acknowledgement (RFC 9260, 7.2.3; 6.3.3, E3).
    pub(crate) fn expire(&mut self)
        ensures { self.new ≡ control_expired self.old }
    {
        self.lower_ssthresh();
        self.cwnd = u32::from(self.pmdcs);
        self.burst = 1;
        self.rescue = false;
        self.full = false;
    }

    /// A packet with user data was sent, after which `flight` bytes are in flight: no further one is exempt from the window (RFC 9260, 7.2.4, step 3).
    pub(crate) fn send_packet(&mut self, flight: u64)
        ensures { (ws : List Wish) → 0 < length ws → self.new ≡ with_packet flight ws self.old }
    {
        self.rescue = false;
        self.sent = true;
        self.full = u64::from(self.cwnd) <= flight;
    }
}

/// The initial state of an endpoint with or without congestion control.
pub(crate) fn fresh_window(
    controls: bool,
    header: u16,
    pmdcs: u16,
    a_rwnd: u32,
) -> Option<CongestionControl>
    ensures { result ≡ when controls (fresh_control 1 false header pmdcs a_rwnd) }
{
    if controls {
        Some(CongestionControl::fresh(header, pmdcs, a_rwnd))
    } else {
        None
    }
}

/// The data timer expired, of an endpoint with or without congestion control; not if what is in flight `probes` a window without space.
pub(crate) fn expire_window(control: &mut Option<CongestionControl>, probes: bool)
    ensures { control.new ≡ option_map (λ k. if probes then k else control_expired k) control.old }
{
    if let Some(control) = control {
        if !probes {
            control.expire();
        }
    }
}

/// An acknowledgement was received by such an endpoint.
#[inline(always)]
pub(crate) fn acknowledge_window(control: &mut Option<CongestionControl>, said: News)
    ensures { (n : model.News) → Says n said → control.new ≡ option_map (control_heard n) control.old }
{
    if let Some(control) = control {
        control.acknowledge(said);
    }
}

/// A packet with user data was sent by such an endpoint.
pub(crate) fn send_by_window(control: &mut Option<CongestionControl>, flight: u64)
    ensures { (ws : List Wish) → 0 < length ws → control.new ≡ option_map (with_packet flight ws) control.old }
{
    if let Some(control) = control {
        control.send_packet(flight);
    }
}
