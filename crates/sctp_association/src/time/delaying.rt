//! Delayed acknowledgement: a packet with user data is acknowledged at once, or by a SACK that is delayed until a second packet arrives or until
//! 200 ms are over (RFC 9260, 6.2 and 9.2).

ghost use Rattle.std.specs.Prelude.{◌≡◌, ◌&&◌, true, if◌then◌else◌};
ghost use Rattle.sctp_model.specs.end.EndView.{EndView};
ghost use Rattle.sctp_model.specs.end.Arriving.{Notes, TellsGap, LeavesGap, owes_sack, is_at_once, acknowledges, delays, kept_going, acknowledges_in};
ghost use Rattle.sctp_model.specs.end.Closing.{is_shutdown_sent};
ghost use Rattle.sctp_association.specs.StageMeans.{stage_meaning};
ghost use Rattle.sctp_association.specs.MachineStands.{MachineStands};

use crate::machine::Machine;
use crate::state::life::Life;
use crate::state::stage::Stage;
use crate::time::timer::Alarm;
use sctp_values::SACK_DELAY;

#[tactic(auto, unfolding(crate::specs::MachineStands::MachineStands))]
impl Machine {
    /// Received TSNs have a gap, at an endpoint that delays its SACKs: such a packet is acknowledged at once. Without delayed SACKs the answer makes
    /// no difference (RFC 9260, 6.2).
    pub fn leaves_gap(&self) -> bool
        ensures { (v : EndView) → MachineStands self.now v → LeavesGap v result }
    {
        if !self.config.delay() {
            return false;
        }
        self.has_gap()
    }

    /// A TSN above the cumulative one was received: one below it is missing (RFC 9260, 6.2).
    fn has_gap(&self) -> bool
        ensures { (v : EndView) → MachineStands self.now v → TellsGap result v.receiver }
    {
        match &self.life {
            Life::Unjoined(_) => false,
            Life::Joined(association) => association.traffic.has_gap(),
        }
    }

    /// A SACK is due: it goes out with the next packet that has space for it (RFC 9260, 6.2).
    #[inline(always)]
    pub fn owes_sack(&self) -> bool
        ensures { (v : EndView) → MachineStands self.now v → result ≡ v.due.sack }
    {
        self.due.sack
    }

    /// Call it at the end of a packet that had something to acknowledge: `at_once` if it may not be delayed, `brings_data` if it held user data. A
    /// SACK is due, and in SHUTDOWN-SENT the SHUTDOWN again; or a SACK is delayed by 200 ms, if the endpoint delays SACKs and none is owed yet. With
    /// standard closing, data in SHUTDOWN-SENT restarts the SHUTDOWN's timer and its count. Nothing if the association isn't open (RFC 9260, 6.2
    /// and 9.2).
    #[inline(always)]
    pub fn acknowledge(&mut self, at_once: bool, brings_data: bool)
        ensures { (v : EndView) (n : Notes) → n.at_once ≡ at_once → n.brings_data ≡ brings_data → MachineStands self.old v
            → MachineStands self.new (acknowledges_in n true v.phase v) }
    {
        let Some(opened) = self.opened() else {
            return;
        };
        self.owe_sack(at_once, opened.stage);
        self.keep_going(brings_data, opened.stage);
    }

    /// A SACK is due, or delayed if it may be (RFC 9260, 6.2).
    #[inline(always)]
    fn owe_sack(&mut self, at_once: bool, stage: Stage)
        ensures { (v : EndView) (n : Notes) → n.at_once ≡ at_once → MachineStands self.old v
            → MachineStands self.new (if is_at_once n (stage_meaning stage) v then acknowledges (stage_meaning stage) v else delays v) }
    {
        if self.is_at_once(at_once, stage) {
            self.due.acknowledge(stage);
            return;
        }
        self.delayed = Some(self.moment.saturating_add(SACK_DELAY));
    }

    /// The SACK may not be delayed: the endpoint doesn't delay SACKs, the packet asks for one at once, it is the second packet, or a SHUTDOWN was sent
    /// (RFC 9260, 6.2 and 9.2).
    fn is_at_once(&self, at_once: bool, stage: Stage) -> bool
        ensures { (v : EndView) (n : Notes) → n.at_once ≡ at_once → MachineStands self.now v → result ≡ is_at_once n (stage_meaning stage) v }
    {
        !self.config.delay() || (at_once || (self.awaits_sack() || stage.is_shutdown_sent()))
    }

    /// A packet was received since the last SACK was sent: a SACK is due or delayed.
    fn awaits_sack(&self) -> bool
        ensures { (v : EndView) → MachineStands self.now v → result ≡ owes_sack v }
    {
        self.owes_sack() || self.delayed.is_some()
    }

    /// With standard closing, user data in SHUTDOWN-SENT clears the count of the SHUTDOWN's timer and restarts it if it runs (RFC 9260, 9.2).
    fn keep_going(&mut self, brings_data: bool, stage: Stage)
        ensures { (v : EndView) → MachineStands self.old v
            → MachineStands self.new (kept_going (v.configuration.standard_closing && (brings_data && is_shutdown_sent (stage_meaning stage))) v) }
    {
        if self.keeps_going(brings_data, stage) {
            self.renew(Alarm::Shutdown, true);
        }
    }

    /// User data restarts the SHUTDOWN's timer: standard closing is configured, and a SHUTDOWN was sent.
    fn keeps_going(&self, brings_data: bool, stage: Stage) -> bool
        ensures { (v : EndView) → MachineStands self.now v
            → result ≡ (v.configuration.standard_closing && (brings_data && is_shutdown_sent (stage_meaning stage))) }
    {
        self.config.standard_closing() && (brings_data && stage.is_shutdown_sent())
    }
}
