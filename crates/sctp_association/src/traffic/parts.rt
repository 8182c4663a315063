//! An endpoint's sender and receiver in every state: before an association nothing was sent or received.

ghost use Rattle.std.specs.Prelude.{◌≡◌, ℕ, ◌≤◌, option_map, true, false};
ghost use Rattle.sctp_model.specs.numbers.Limits.{WINDOW};
ghost use Rattle.sctp_model.specs.receiver.ReceiverView.{held_bytes, size_of_pieces};
ghost use Rattle.sctp_model.specs.sender.Readers.{point, unsettled, drained, outstanding, acknowledged, abandoned};
ghost use Rattle.sctp_model.specs.sender.Abandoning.{expired, worn, timed_out, abandon_answer, abandon_after};
ghost use Rattle.sctp_model.specs.end.EndView.{EndView, has_association};
ghost use Rattle.sctp_model.specs.end.Clock.{is_point_past};
ghost use Rattle.sctp_model.specs.end.UserCalls.{is_open, UserTakes};
ghost use Rattle.sctp_send.specs.SenderAnswers.{answer_meaning, QueueAnswer, queue_after, lane_for};
ghost use Rattle.sctp_recv.specs.HandedOf.{handed_of};
ghost use Rattle.sctp_association.specs.MachineStands.{MachineStands};

use crate::machine::Machine;
use crate::state::life::{Life, Progress, Unjoined};
use sctp_recv::{Message, resets_stay};
use sctp_send::{Abandoned, SendFault};
use sctp_values::Ticket;

#[tactic(auto, unfolding(crate::specs::MachineStands::MachineStands))]
impl Machine {
    /// It calls, or has an association that isn't over (RFC 9260, 4).
    pub fn has_association(&self) -> bool
        ensures { (v : EndView) → MachineStands self.now v → result ≡ has_association v.phase }
    {
        match &self.life {
            Life::Unjoined(unjoined) => matches!(unjoined, Unjoined::Calling(_)),
            Life::Joined(association) => association.is_alive(),
        }
    }

    /// Its association is open: established, or closing (RFC 9260, 4).
    pub fn is_open(&self) -> bool
        ensures { (v : EndView) → MachineStands self.now v → result ≡ is_open v.phase }
    {
        match &self.life {
            Life::Unjoined(_) => false,
            Life::Joined(association) => matches!(association.progress, Progress::Open(_)),
        }
    }

    /// The index of the cumulative TSN Ack Point, counted from the initial TSN.
    pub(crate) fn cum(&self) -> u64
        ensures { (v : EndView) → MachineStands self.now v → result ≡ v.sender.cum }
    {
        match &self.life {
            Life::Unjoined(_) => 0,
            Life::Joined(association) => association.traffic.cum(),
        }
    }

    /// The index of the Advanced Peer Ack Point, up to which all is acknowledged or abandoned (RFC 3758, 3.5).
    pub(crate) fn point(&self) -> u64
        ensures { (v : EndView) → MachineStands self.now v → result ≡ point v.sender }
    {
        match &self.life {
            Life::Unjoined(_) => 0,
            Life::Joined(association) => association.traffic.point(),
        }
    }

    /// A FORWARD-TSN would skip something: the Advanced Peer Ack Point is past the cumulative TSN Ack Point.
    pub(crate) fn is_point_past(&self) -> bool
        ensures { (v : EndView) → MachineStands self.now v → result ≡ is_point_past v.sender }
    {
        match &self.life {
            Life::Unjoined(_) => false,
            Life::Joined(association) => association.traffic.is_point_past(),
        }
    }

    /// The data timer is wanted: user data or a FORWARD-TSN is outstanding (RFC 9260, 6.3.2).
    pub(crate) fn unsettled(&self) -> bool
        ensures { (v : EndView) → MachineStands self.now v → result ≡ unsettled v.sender }
    {
        match &self.life {
            Life::Unjoined(_) => false,
            Life::Joined(association) => association.traffic.unsettled(),
        }
    }

    /// No message is queued, and all is acknowledged (RFC 9260, 9.2).
    pub(crate) fn is_drained(&self) -> bool
        ensures { (v : EndView) → MachineStands self.now v → result ≡ drained v.sender }
    {
        match &self.life {
            Life::Unjoined(_) => true,
            Life::Joined(association) => association.traffic.drained(),
        }
    }

    /// The message with this ticket is acknowledged in full.
    pub fn acknowledged(&self, ticket: Ticket) -> bool
        ensures { (v : EndView) → MachineStands self.now v → result ≡ acknowledged v.sender ticket.0 }
    {
        match &self.life {
            Life::Unjoined(_) => false,
            Life::Joined(association) => association.traffic.acknowledged(ticket),
        }
    }

    /// The message with this ticket has a TSN and was abandoned.
    pub fn abandoned(&self, ticket: Ticket) -> bool
        ensures { (v : EndView) → MachineStands self.now v → result ≡ abandoned v.sender ticket.0 }
    {
        match &self.life {
            Life::Unjoined(_) => false,
            Life::Joined(association) => association.traffic.abandoned(ticket),
        }
    }

    /// The number of TSNs above the cumulative TSN Ack Point, and of messages that are sent in part. Never more than 32,767, so that the peer distinguishes
    /// each new TSN from an old one (RFC 9260, 1.6).
    pub fn outstanding(&self) -> u32
        ensures count { (v : EndView) → MachineStands self.now v → result ≡ outstanding v.sender }
        ensures bound { (v : EndView) → MachineStands self.now v → outstanding v.sender ≤ WINDOW }
    {
        match &self.life {
            Life::Unjoined(_) => 0,
            Life::Joined(association) => association.traffic.outstanding(),
        }
    }

    /// The bytes of user data that was received and isn't taken yet: never more than the receive buffer.
    pub fn held_bytes(&self) -> u32
        ensures held { (v : EndView) → MachineStands self.now v → result ≡ held_bytes v.receiver }
        ensures bound { (v : EndView) → MachineStands self.now v → result ≤ v.configuration.buffer }
    {
        match &self.life {
            Life::Unjoined(_) => 0,
            Life::Joined(association) => association.traffic.held_bytes(),
        }
    }

    /// Of the bytes held, those of messages that can't be delivered yet: a fragment is missing, or an earlier message of their stream.
    pub fn reassembly_bytes(&self) -> u32
        ensures { (v : EndView) → MachineStands self.now v → result ≡ size_of_pieces v.receiver.kept }
    {
        match &self.life {
            Life::Unjoined(_) => 0,
            Life::Joined(association) => association.traffic.reassembly_bytes(),
        }
    }

    /// What is past its time is abandoned (RFC 3758, 3.5).
    pub(crate) fn expire(&mut self)
        ensures { (v : EndView) → MachineStands self.old v → MachineStands self.new (record v { sender = expired v.sender v.moment }) }
    {
        let now = self.moment;
        match &mut self.life {
            Life::Unjoined(_) => {}
            Life::Joined(association) => association.traffic.expire(now),
        }
    }

    /// What was retransmitted as often as it may be is abandoned (RFC 7496, 3.1).
    pub(crate) fn wear(&mut self)
        ensures { (v : EndView) → MachineStands self.old v → MachineStands self.new (record v { sender = worn (λ i. true) v.sender }) }
    {
        match &mut self.life {
            Life::Unjoined(_) => {}
            Life::Joined(association) => association.traffic.wear(),
        }
    }

    /// Marks all outstanding user data for retransmission (RFC 9260, 6.3.3).
    pub(crate) fn repeat(&mut self)
        ensures { (v : EndView) → MachineStands self.old v → MachineStands self.new (record v { sender = timed_out v.sender }) }
    {
        match &mut self.life {
            Life::Unjoined(_) => {}
            Life::Joined(association) => association.traffic.on_timeout(),
        }
    }

    /// The sender abandons the message with this ticket (RFC 3758, 3.5).
    pub(crate) fn abandon_one(&mut self, ticket: Ticket) -> Abandoned
        ensures answer { (v : EndView) → MachineStands self.old v → answer_meaning result ≡ abandon_answer v.sender ticket.0 }
        ensures step { (v : EndView) → MachineStands self.old v → MachineStands self.new (record v { sender = abandon_after v.sender ticket.0 }) }
    {
        match &mut self.life {
            Life::Unjoined(_) => Abandoned::Unknown,
            Life::Joined(association) => association.traffic.abandon(ticket),
        }
    }

    /// Queues a message at the sender, with a lifetime and a limit of retransmissions, if it has them.
    ///
    /// # Errors
    /// Why it is refused; nothing changed.
    #[inline(always)]
    pub(crate) fn queue(
        &mut self,
        stream: u16,
        ordered: bool,
        payload_id: u32,
        bytes: Vec<u8>,
        until: Option<u64>,
        limit: Option<u16>,
    ) -> Result<Ticket, SendFault>
        ensures answer { (v : EndView) → MachineStands self.old v → QueueAnswer v.sender stream bytes.items result }
        ensures step { (v : EndView) → MachineStands self.old v → MachineStands self.new (record v { sender = queue_after v.sender (lane_for stream ordered) payload_id bytes.items until limit result }) }
    {
        match &mut self.life {
            Life::Unjoined(_) => Err(SendFault::NoSuchStream),
            Life::Joined(association) => association
                .traffic
                .queue(stream, ordered, payload_id, bytes, until, limit),
        }
    }

    /// Takes the next message of a stream; None if there is none (RFC 9260, 11.1.6). It doesn't allocate.
    #[inline(always)]
    pub fn take(&mut self, stream: u16) -> Option<Message>
        ensures { (v : EndView) → MachineStands self.old v → (t : EndView) × UserTakes v stream (option_map handed_of result) t × MachineStands self.new t }
    {
        resets_stay();
        match &mut self.life {
            Life::Unjoined(_) => None,
            Life::Joined(association) => association.traffic.take(stream),
        }
    }
}
