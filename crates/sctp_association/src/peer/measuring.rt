//! The round trip of the handshake, which is the first measurement of a new association (RFC 9260, 6.3.1).

ghost use Rattle.std.specs.Prelude.{◌≡◌, ℕ};
ghost use Rattle.sctp_model.specs.numbers.Limits.{FIRST_WAIT};
ghost use Rattle.sctp_model.specs.end.EndView.{EndView};
ghost use Rattle.sctp_model.specs.end.Clock.{echo_trip, measured};
ghost use Rattle.sctp_association.specs.TimersMean.{timer_meaning};
ghost use Rattle.sctp_association.specs.MachineStands.{MachineStands};

use crate::machine::Machine;
use crate::time::timer::Timer;
use sctp_congestion::RoundTrip;
use sctp_values::FIRST_WAIT;

#[tactic(auto, unfolding(crate::specs::MachineStands::MachineStands))]
impl Machine {
    /// The association begins: with a pace, the round trip of the handshake, if it measured one, is the first measurement, and the data timer's first
    /// RTO is computed from it; without one it is `rto`, that of the handshake, in milliseconds (RFC 9260, 6.3.1, C1 and C2; 6.3.3, E2).
    pub(crate) fn measure(&mut self, trip: Option<RoundTrip>, rto: u64)
        ensures { (v : EndView) → MachineStands self.old v → MachineStands self.new (measured trip rto v) }
    {
        let rto_min = self.config.rto_min();
        match &mut self.pace {
            None => {}
            Some(pace) => {
                pace.begin(trip);
                self.timers.set_data_rto(pace.first_rto(rto_min, rto));
            }
        }
    }
}

impl Timer {
    /// The round trip of a COOKIE ECHO by its timer, at this time: if it was sent once, and the timer runs, the time since that was started
    /// (RFC 9260, 6.3.1, C5).
    pub(crate) fn trip(self, now: u64) -> Option<RoundTrip>
        ensures { result ≡ echo_trip FIRST_WAIT now (timer_meaning self) }
    {
        if self.repeats != 0 {
            return None;
        }
        match self.expiry {
            None => None,
            Some(expiry) => Some(RoundTrip::between(expiry.saturating_sub(FIRST_WAIT), now)),
        }
    }
}
