//! What a time may abandon: messages past their lifetime, and messages at their limit of retransmissions (RFC 3758, 3.5; RFC 7496, 3.1).

ghost use Rattle.std.specs.Prelude.{◌≡◌, ℕ, ◌<◌, false, None, option_map};
ghost use Rattle.sctp_model.specs.sender.Reached.{IsReached};
ghost use Rattle.sctp_model.specs.end.EndView.{EndView, format_of};
ghost use Rattle.sctp_model.specs.end.Clock.{at_moment};
ghost use Rattle.sctp_model.specs.end.Moments.{earlier};
ghost use Rattle.sctp_send.specs.SenderAnswers.{next_at_limit};
ghost use Rattle.sctp_association.specs.GivenUp.{next_to_give_up, GivesUpAlone};
ghost use Rattle.sctp_association.specs.MachineStands.{MachineStands};

use crate::machine::Machine;
use crate::state::life::Life;
use crate::time::timer::Alarm;
use sctp_values::Ticket;

#[tactic(auto, unfolding(crate::specs::MachineStands::MachineStands))]
impl Machine {
    /// The lowest ticket above `last` of a message that `on_moment` may abandon at this time, in milliseconds: it is past its lifetime and may be
    /// abandoned; or the data timer is due, and a fragment was retransmitted as often as the message's limit allows. `Ticket(0)` is below all.
    pub fn next_to_give_up(&self, last: Ticket, now: u64) -> Option<Ticket>
        ensures { (v : EndView) → MachineStands self.now v → option_map (λ t. t.0) result ≡ next_to_give_up (at_moment v now) last.0 }
    {
        let moment = self.moment.max(now);
        let late = self.next_late(last, moment);
        if !self.timers.get(Alarm::Fragments).is_over(moment) {
            return late;
        }
        lower(late, self.next_at_limit(last))
    }

    /// The lowest ticket above `last` of a message that isn't abandoned, with an outstanding fragment that was retransmitted as often as its limit
    /// allows (RFC 7496, 3.1). None before an association.
    pub fn next_at_limit(&self, last: Ticket) -> Option<Ticket>
        ensures { (v : EndView) → MachineStands self.now v → option_map (λ t. t.0) result ≡ next_at_limit v.sender last.0 }
    {
        match &self.life {
            Life::Unjoined(_) => None,
            Life::Joined(association) => association.traffic.next_at_limit(last),
        }
    }

    // law
    /// A time abandons only messages that `next_to_give_up` lists at that time, and it lists none that is abandoned already.
    pub fn gives_up_alone(&self)
        ensures { (v : EndView) → MachineStands self.now v → (now : ℕ) → GivesUpAlone (at_moment v now) }
    {
        match &self.life {
            Life::Unjoined(_) => {}
            Life::Joined(association) => association.traffic.reached(),
        }
    }

    // law
    /// Every view of its sender is one that a sender's calls reach, and its fragments aren't empty; without fast retransmit it has no pace.
    pub fn reached(&self)
        ensures fragment { (v : EndView) → MachineStands self.now v → 0 < v.configuration.fragment }
        ensures sender { (v : EndView) → MachineStands self.now v → IsReached (format_of v) v.sender }
        ensures unpaced { (v : EndView) → MachineStands self.now v → v.configuration.fast_retransmit ≡ false → v.pace ≡ None }
    {
        let _fragment = self.config.fragment();
        match &self.life {
            Life::Unjoined(_) => {}
            Life::Joined(association) => association.traffic.reached(),
        }
    }
}

/// The lower of two tickets, if there are any.
fn lower(one: Option<Ticket>, other: Option<Ticket>) -> Option<Ticket>
    ensures { option_map (λ t. t.0) result ≡ earlier (option_map (λ t. t.0) one) (option_map (λ t. t.0) other) }
{
    match one {
        None => other,
        Some(first) => match other {
            None => Some(first),
            Some(second) => Some(Ticket(first.0.min(second.0))),
        },
    }
}
