//! What acknowledgements missed, and may not be retransmitted again (RFC 9260, 7.2.4; RFC 7496, 3.1).

ghost use Rattle.std.specs.Prelude.{◌≡◌, ℕ, suc, ◌<◌, ◌≤◌, Some, true, false};
ghost use Rattle.sctp_model.specs.messages.Format.{Format};
ghost use Rattle.sctp_model.specs.sender.SenderView.{SenderView};
ghost use Rattle.sctp_model.specs.sender.Reached.{IsReached};
ghost use Rattle.sctp_model.specs.receiver.ReceiverView.{ReceiverView};
ghost use Rattle.sctp_model.specs.sender.Abandoning.{worn};
ghost use Rattle.sctp_model.specs.end.EndView.{EndView};
ghost use Rattle.sctp_model.specs.end.EndView as model;
ghost use Rattle.sctp_model.specs.end.Clock.{settled};
ghost use Rattle.sctp_model.specs.end.Misses.{is_missed};
ghost use Rattle.sctp_model.specs.end.Pacing.{Pace};
ghost use Rattle.sctp_model.specs.end.Wearing.{missed_below, wearing};
ghost use Rattle.sctp_association.specs.StageMeans.{tags_meaning};
ghost use Rattle.sctp_association.specs.PhaseMeans.{phase_in};
ghost use Rattle.sctp_association.specs.TrafficStands.{TrafficStands};
ghost use Rattle.sctp_association.specs.MachineStands.{MachineStands};

use crate::machine::Machine;
use crate::state::life::{Association, Life, Progress};
use crate::state::stage::Stage;
use crate::time::timer::Alarm;
use crate::traffic::missed::Missed;

#[tactic(auto, unfolding(crate::specs::MachineStands::MachineStands))]
impl Machine {
    /// The index below which all user data has three miss indications that was sent once and isn't acknowledged; 0 without a pace.
    #[inline(always)]
    pub fn missed_below(&self) -> u64
        ensures { (v : EndView) → MachineStands self.now v → result ≡ missed_below v.pace }
    {
        match &self.pace {
            None => 0,
            Some(pace) => pace.missed_below(),
        }
    }

    /// Call it at the end of a packet: if `missed_below` has risen from this index, the messages are abandoned of what is missed, and may not be
    /// retransmitted again.
    #[inline(always)]
    pub fn give_up_missed(&mut self, from: u64)
        ensures { (v : EndView) → MachineStands self.old v → MachineStands self.new (wearing from v) }
    {
        if self.missed_below() <= from {
            return;
        }
        if self.spares() {
            return;
        }
        self.give_up_all();
    }

    /// True only if giving up what is missed changes nothing: the association is established, the cumulative TSN passed all of it, the data timer doesn't
    /// run in vain, and no FORWARD-TSN is due.
    #[inline(always)]
    fn spares(&self) -> bool
        ensures { (v : EndView) → MachineStands self.now v → result ≡ true → (from : ℕ) → wearing from v ≡ v }
    {
        if !self.is_settled() {
            return false;
        }
        match &self.life {
            Life::Unjoined(_) => false,
            Life::Joined(association) => association.passed(self.missed_end()),
        }
    }

    /// No user data that isn't acknowledged is missed from this index on; 0 without a pace.
    #[inline(always)]
    fn missed_end(&self) -> u64
        ensures { (v : EndView) (p : Pace) → MachineStands self.now v → v.pace ≡ Some p → (i : ℕ) → v.sender.cum < i → result ≤ i → is_missed p.misses i ≡ false }
    {
        match &self.pace {
            None => 0,
            Some(pace) => pace.missed_end(),
        }
    }

    /// True only if `settle` changes nothing: no FORWARD-TSN is due, and the data timer doesn't run or is wanted.
    #[inline(always)]
    fn is_settled(&self) -> bool
        ensures { (v : EndView) → MachineStands self.now v → result ≡ true → settled v ≡ v }
    {
        if self.due.forward {
            return false;
        }
        match self.timers.get(Alarm::Fragments).expiry {
            None => true,
            Some(_) => self.unsettled(),
        }
    }

    /// The packet missed something for the third time: of all that is missed the messages are abandoned that may not be retransmitted again.
    #[inline(never)]
    fn give_up_all(&mut self)
        ensures { (v : EndView) (from : ℕ) → MachineStands self.old v → from < missed_below v.pace → MachineStands self.new (wearing from v) }
    {
        if !self.is_open() {
            return;
        }
        let before = self.point();
        self.wear_missed();
        self.when_abandoned(before);
    }

    /// Of what is missed the messages are abandoned that may not be retransmitted again (RFC 7496, 3.1). It costs a walk over what is outstanding, as far as
    /// something may be missed.
    fn wear_missed(&mut self)
        ensures { (v : EndView) (p : Pace) → MachineStands self.old v → v.pace ≡ Some p → MachineStands self.new (record v { sender = worn (is_missed p.misses) v.sender }) }
    {
        match &self.pace {
            None => {}
            Some(pace) => match &mut self.life {
                Life::Unjoined(_) => {}
                Life::Joined(association) => {
                    let from = association.traffic.cum();
                    let below = pace.missed_end();
                    association
                        .traffic
                        .wear_between(from, below, &Missed { pace });
                }
            },
        }
    }
}

impl Association {
    /// True only if it is established, and the cumulative TSN passed all before this index.
    #[inline(always)]
    fn passed(&self, end: u64) -> bool
        ensures established { result ≡ true → phase_in self.now.tags self.now.progress ≡ model.Open (tags_meaning self.now.tags) model.Established }
        ensures passed { (f : Format) (s : SenderView) (r : ReceiverView) → TrafficStands self.now.traffic f s r → result ≡ true → IsReached f s × (end ≤ suc s.cum) }
    {
        match &self.progress {
            Progress::Open(Stage::Established) => {
                // law: what the cumulative TSN passed is acknowledged
                self.traffic.reached();
                end.saturating_sub(1) <= self.traffic.cum()
            }
            _ => false,
        }
    }
}
