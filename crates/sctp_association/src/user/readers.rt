//! Readers of an endpoint: its configuration, its state and how it ended, what both endpoints agreed on, issued tickets, expired messages, and
//! messages to be taken (RFC 9260, 4 and 11.1). Beside them laws on every view that an endpoint stands for.

ghost use Rattle.std.specs.Prelude.{◌≡◌, false, Some, None, MatchOption, option_map, slice_get};
ghost use Rattle.sctp_model.specs.sender.Abandoning.{has_late};
ghost use Rattle.sctp_model.specs.end.EndView.{EndView, InStage, state_of, ended_of};
ghost use Rattle.sctp_terms.specs.Meanings.{end_meaning, state_meaning};
ghost use Rattle.sctp_send.specs.SenderAnswers.{next_late, abandoned_messages};
ghost use Rattle.sctp_recv.specs.HandedOf.{handed_of};
ghost use Rattle.sctp_outcomes.specs.Few.{BeginsFew};
ghost use Rattle.sctp_outcomes.specs.Kept.{IsSound, numbered};
ghost use Rattle.sctp_outcomes.specs.ToldOnce.{NoTicketTwice};
ghost use Rattle.sctp_association.specs.StageMeans.{stage_meaning};
ghost use Rattle.sctp_association.specs.PhaseMeans.{phase_in, phase_unjoined};
ghost use Rattle.sctp_association.specs.MachineStands.{MachineStands};

use crate::machine::Machine;
use crate::state::life::{Association, Life, Progress, Unjoined};
use crate::state::stage::Stage;
use sctp_recv::Message;
use sctp_terms::{Config, End, State};
use sctp_values::Ticket;

#[tactic(auto, unfolding(crate::specs::MachineStands::MachineStands))]
impl Machine {
    /// Its configuration.
    pub fn config(&self) -> &Config
        ensures { (v : EndView) → MachineStands self.now v → result.now ≡ v.configuration }
    {
        &self.config
    }

    /// Its state (RFC 9260, 4).
    pub fn state(&self) -> State
        ensures { (v : EndView) → MachineStands self.now v → state_meaning result ≡ state_of v.phase }
    {
        match &self.life {
            Life::Unjoined(unjoined) => unjoined.state(),
            Life::Joined(association) => association.state(),
        }
    }

    /// How it ended, once it is over for good.
    pub fn ended(&self) -> Option<End>
        ensures { (v : EndView) → MachineStands self.now v → option_map end_meaning result ≡ ended_of v.phase }
    {
        match &self.life {
            Life::Unjoined(unjoined) => unjoined.ended(),
            Life::Joined(association) => association.ended(),
        }
    }

    /// The number of outbound streams: 0 before an association.
    pub fn outbound(&self) -> u16
        ensures { (v : EndView) → MachineStands self.now v → result ≡ v.terms.outbound }
    {
        match &self.life {
            Life::Unjoined(_) => 0,
            Life::Joined(association) => association.terms.outbound,
        }
    }

    /// The number of inbound streams: 0 before an association.
    pub fn inbound(&self) -> u16
        ensures { (v : EndView) → MachineStands self.now v → result ≡ v.receiver.streams }
    {
        match &self.life {
            Life::Unjoined(_) => 0,
            Life::Joined(association) => association.traffic.inbound(),
        }
    }

    /// User data is sent as I-DATA, as both endpoints agreed (RFC 8260, 2.2.1).
    pub fn is_interleaved(&self) -> bool
        ensures { (v : EndView) → MachineStands self.now v → result ≡ v.terms.interleave }
    {
        match &self.life {
            Life::Unjoined(_) => false,
            Life::Joined(association) => association.terms.interleave,
        }
    }

    /// Messages that were sent may be abandoned, as both endpoints agreed (RFC 3758, 3.1).
    pub fn is_partial(&self) -> bool
        ensures { (v : EndView) → MachineStands self.now v → result ≡ v.terms.partial }
    {
        match &self.life {
            Life::Unjoined(_) => false,
            Life::Joined(association) => association.terms.partial,
        }
    }

    // law
    /// Every view that it stands for is sound: before an association its sender and receiver are new, its receiver has the configured receive buffer,
    /// and each TSN belongs to a message of its own.
    pub fn sound(&self)
        ensures { (v : EndView) → MachineStands self.now v → IsSound v }
    {
        match &self.life {
            Life::Unjoined(_) => {}
            Life::Joined(association) => association.traffic.reached(),
        }
    }

    // law
    /// In no view that it stands for do two messages with TSNs have the same ticket.
    pub fn tickets_are_apart(&self)
        ensures { (v : EndView) → MachineStands self.now v → NoTicketTwice (numbered v) }
    {
        match &self.life {
            Life::Unjoined(_) => {}
            Life::Joined(association) => association.traffic.reached(),
        }
    }

    // law
    /// A packet that is built from any view that it stands for begins at most one message for each 20 bytes after its header.
    pub fn packets_begin_few(&self)
        ensures { (v : EndView) → MachineStands self.now v → BeginsFew v }
    {
        match &self.life {
            Life::Unjoined(_) => {}
            Life::Joined(association) => association.traffic.reached(),
        }
    }

    /// The number of messages that were assigned TSNs and abandoned, since the start; 0 before an association (RFC 3758, 3.5).
    pub fn abandoned_messages(&self) -> u64
        ensures { (v : EndView) → MachineStands self.now v → result ≡ abandoned_messages v.sender }
    {
        match &self.life {
            Life::Unjoined(_) => 0,
            Life::Joined(association) => association.traffic.abandoned_messages(),
        }
    }

    /// The number of tickets that were issued.
    pub fn tickets(&self) -> u64
        ensures { (v : EndView) → MachineStands self.now v → result ≡ v.sender.tickets }
    {
        match &self.life {
            Life::Unjoined(_) => 0,
            Life::Joined(association) => association.traffic.tickets(),
        }
    }

    /// A message's lifetime is over at this time, in milliseconds, and it may be abandoned (RFC 3758, 3.5).
    pub fn has_late(&self, now: u64) -> bool
        ensures { (v : EndView) → MachineStands self.now v → result ≡ has_late v.sender now }
    {
        match &self.life {
            Life::Unjoined(_) => false,
            Life::Joined(association) => association.traffic.has_late(now),
        }
    }

    /// The lowest ticket above `last` of a message that may be abandoned and whose lifetime is over at this time, in milliseconds; `Ticket(0)` is below
    /// all. None before an association.
    pub fn next_late(&self, last: Ticket, now: u64) -> Option<Ticket>
        ensures { (v : EndView) → MachineStands self.now v → option_map (λ t. t.0) result ≡ next_late v.sender last.0 now }
    {
        match &self.life {
            Life::Unjoined(_) => None,
            Life::Joined(association) => association.traffic.next_late(last, now),
        }
    }

    /// The message at this place, from 0, of those that wait to be taken on a stream; None if there is none.
    pub fn waiting(&self, stream: u16, place: usize) -> Option<&Message>
        ensures { (v : EndView) → MachineStands self.now v → MatchOption result (slice_get (v.receiver.waiting stream) place ≡ None)
            (λ m. slice_get (v.receiver.waiting stream) place ≡ Some (handed_of m.now)) }
    {
        match &self.life {
            Life::Unjoined(_) => None,
            Life::Joined(association) => association.traffic.waiting(stream, place),
        }
    }
}

impl Unjoined {
    /// The state, as the user reads it.
    fn state(&self) -> State
        ensures { state_meaning result ≡ state_of (phase_unjoined self.now) }
    {
        match self {
            Unjoined::Idle => State::Closed,
            Unjoined::Listening => State::Listen,
            Unjoined::Calling(_) => State::CookieWait,
            Unjoined::Failed(_) => State::Closed,
        }
    }

    /// How it ended, once it is over.
    fn ended(&self) -> Option<End>
        ensures { option_map end_meaning result ≡ ended_of (phase_unjoined self.now) }
    {
        match self {
            Unjoined::Idle => None,
            Unjoined::Listening => None,
            Unjoined::Calling(_) => None,
            Unjoined::Failed(why) => Some(*why),
        }
    }
}

impl Association {
    /// The state, as the user reads it.
    fn state(&self) -> State
        ensures { state_meaning result ≡ state_of (phase_in self.now.tags self.now.progress) }
    {
        match &self.progress {
            Progress::Echoing(_) => State::CookieEchoed,
            Progress::Open(stage) => stage.state(),
            Progress::Over(_) => State::Closed,
        }
    }

    /// How it ended, once it is over.
    fn ended(&self) -> Option<End>
        ensures { option_map end_meaning result ≡ ended_of (phase_in self.now.tags self.now.progress) }
    {
        match &self.progress {
            Progress::Echoing(_) => None,
            Progress::Open(_) => None,
            Progress::Over(why) => Some(*why),
        }
    }
}

impl Stage {
    /// The state, as the user reads it.
    fn state(self) -> State
        ensures { state_meaning result ≡ InStage (stage_meaning self) }
    {
        match self {
            Stage::Established => State::Established,
            Stage::ShutdownPending => State::ShutdownPending,
            Stage::ShutdownSent => State::ShutdownSent,
            Stage::ShutdownReceived => State::ShutdownReceived,
            Stage::ShutdownAckSent => State::ShutdownAckSent,
        }
    }
}
