//! What a user may read of the pace of an endpoint: bytes in flight, round trips, RTO and congestion window (RFC 9260, 6.3.1 and 7.2).

ghost use Rattle.std.specs.Prelude.{◌≡◌, ◌/◌, option_map};
ghost use Rattle.sctp_model.specs.sender.Entries.{in_flight};
ghost use Rattle.sctp_model.specs.end.EndView.{EndView};
ghost use Rattle.sctp_association.specs.MachineStands.{MachineStands};
ghost use Rattle.sctp_association.specs.PathAnswers.{PathAnswer};

use crate::machine::Machine;
use crate::state::life::Life;
use crate::time::timer::Alarm;
use sctp_congestion::Pacing;

/// What an endpoint that is set up for fast retransmit knows of the path to its peer. Times are in milliseconds, sizes in bytes of user data.
#[derive(Clone, Copy, Debug, PartialEq, Eq)]
pub struct Path {
    /// The smoothed round-trip time (SRTT), rounded down; None before the first measurement (RFC 9260, 6.3.1).
    pub srtt: Option<u32>,
    /// The round-trip time variation (RTTVAR), rounded down; None before the first measurement.
    pub rttvar: Option<u32>,
    /// The RTO of the data timer at its next start.
    pub rto: u64,
    /// The congestion window; None without congestion control (RFC 9260, 7.2).
    pub cwnd: Option<u32>,
    /// The slow-start threshold; None without congestion control.
    pub ssthresh: Option<u32>,
}

#[tactic(auto, unfolding(crate::specs::MachineStands::MachineStands))]
impl Machine {
    /// The bytes of user data in flight: sent, and neither acknowledged, abandoned nor marked for retransmission; 0 before an association
    /// (RFC 9260, 6.1).
    pub fn in_flight(&self) -> u64
        ensures { (v : EndView) → MachineStands self.now v → result ≡ in_flight v.sender }
    {
        match &self.life {
            Life::Unjoined(_) => 0,
            Life::Joined(association) => association.traffic.in_flight(),
        }
    }

    /// What it knows of the path to its peer; None exactly if it has no pace: before an association, and without fast retransmit.
    pub fn path(&self) -> Option<Path>
        ensures { (v : EndView) → MachineStands self.now v → PathAnswer v result }
    {
        match &self.pace {
            None => None,
            Some(pace) => Some(Path {
                srtt: srtt(pace),
                rttvar: rttvar(pace),
                rto: self.timers.get(Alarm::Fragments).wait,
                cwnd: cwnd(pace),
                ssthresh: ssthresh(pace),
            }),
        }
    }
}

/// SRTT in milliseconds, once a round trip was measured.
fn srtt(pace: &Pacing) -> Option<u32>
    ensures { result ≡ option_map (λ s. s.eight / 8) pace.now.trips.smoothed }
{
    match pace.trips().estimate() {
        None => None,
        Some(estimate) => Some(estimate.srtt()),
    }
}

/// RTTVAR in milliseconds, once a round trip was measured.
fn rttvar(pace: &Pacing) -> Option<u32>
    ensures { result ≡ option_map (λ s. s.four / 4) pace.now.trips.smoothed }
{
    match pace.trips().estimate() {
        None => None,
        Some(estimate) => Some(estimate.rttvar()),
    }
}

/// The congestion window in bytes, with congestion control.
fn cwnd(pace: &Pacing) -> Option<u32>
    ensures { result ≡ option_map (λ k. k.cwnd) pace.now.control }
{
    match pace.control() {
        None => None,
        Some(control) => Some(control.cwnd()),
    }
}

/// The slow-start threshold in bytes, with congestion control.
fn ssthresh(pace: &Pacing) -> Option<u32>
    ensures { result ≡ option_map (λ k. k.ssthresh) pace.now.control }
{
    match pace.control() {
        None => None,
        Some(control) => Some(control.ssthresh()),
    }
}
