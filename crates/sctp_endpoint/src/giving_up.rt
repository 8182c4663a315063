//! Which messages time or an arriving packet may abandon (RFC 3758, 3.5; RFC 7496, 3.1).

ghost use Rattle.std.specs.Prelude.{◌≡◌, ℕ, ◌<◌, false, None, option_map};
ghost use Rattle.sctp_model.specs.sender.Reached.{IsReached};
ghost use Rattle.sctp_model.specs.end.EndView.{EndView, format_of};
ghost use Rattle.sctp_model.specs.end.Clock.{at_moment};
ghost use Rattle.sctp_send.specs.SenderAnswers.{next_at_limit};
ghost use Rattle.sctp_association.specs.GivenUp.{next_to_give_up, GivesUpAlone};
ghost use Rattle.sctp_endpoint.specs.EndpointStands.{EndpointStands};

use crate::endpoint::Endpoint;
use sctp_values::Ticket;

#[tactic(auto, unfolding(crate::specs::EndpointStands::EndpointStands))]
impl Endpoint {
    /// Of the messages that `on_moment` may abandon at this time, in milliseconds, the lowest ticket above `last`; `Ticket(0)` is below all. Called again
    /// with each result, it lists them: those whose lifetime is over, as `next_late`; and if the data timer is due, those with an outstanding
    /// fragment that was retransmitted as often as their limit allows (RFC 7496, 3.1). If the timer isn't due it costs what `next_late` costs;
    /// else it may look at all that is outstanding.
    pub fn next_to_give_up(&self, last: Ticket, now: u64) -> Option<Ticket>
        ensures { (v : EndView) → EndpointStands self.now v → option_map (λ t. t.0) result ≡ next_to_give_up (at_moment v now) last.0 }
    {
        self.machine.next_to_give_up(last, now)
    }

    /// A time abandons only messages that `next_to_give_up` lists at that time, and it lists none that is abandoned already.
    // law
    pub fn gives_up_alone(&self)
        ensures { (v : EndView) → EndpointStands self.now v → (now : ℕ) → GivesUpAlone (at_moment v now) }
    {
        self.machine.gives_up_alone();
    }

    /// The lowest ticket above `last` of a message that isn't abandoned, with an outstanding fragment that was retransmitted as often as its limit
    /// allows (RFC 7496, 3.1); `Ticket(0)` is below all. Called again with each result, it lists them: at an endpoint with fast retransmit a packet
    /// that arrives may abandon such messages, and no others. It may look at all that is outstanding.
    pub fn next_at_limit(&self, last: Ticket) -> Option<Ticket>
        ensures { (v : EndView) → EndpointStands self.now v → option_map (λ t. t.0) result ≡ next_at_limit v.sender last.0 }
    {
        self.machine.next_at_limit(last)
    }

    /// Every view of its sender is one that a sender's calls reach (`IsReached` of sctp_model), and its fragments aren't empty; without fast
    /// retransmit it has no pace.
    // law
    pub fn reached(&self)
        ensures fragment { (v : EndView) → EndpointStands self.now v → 0 < v.configuration.fragment }
        ensures sender { (v : EndView) → EndpointStands self.now v → IsReached (format_of v) v.sender }
        ensures unpaced { (v : EndView) → EndpointStands self.now v → v.configuration.fast_retransmit ≡ false → v.pace ≡ None }
    {
        self.machine.reached();
    }
}
