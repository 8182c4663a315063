//! Queued messages, the peer's window, streams with a message to be taken, and what both endpoints agreed on.

ghost use Rattle.std.specs.Prelude.{◌≡◌, ◌≤◌, ◌*◌, ℕ, length};
ghost use Rattle.sctp_model.specs.numbers.Limits.{QUEUE_LIMIT, LONGEST_MESSAGE};
ghost use Rattle.sctp_model.specs.messages.Format.{Format};
ghost use Rattle.sctp_model.specs.sender.SenderView.{SenderView};
ghost use Rattle.sctp_model.specs.receiver.ReceiverView.{ReceiverView};
ghost use Rattle.sctp_model.specs.end.EndView.{EndView};
ghost use Rattle.sctp_send.specs.Waiting.{queued_bytes, queued_bytes_on};
ghost use Rattle.sctp_recv.specs.Readable.{ReadableAnswer, NextReadableAnswer};
ghost use Rattle.sctp_association.specs.Agreeing.{AgreedAnswer};
ghost use Rattle.sctp_association.specs.MachineStands.{MachineStands};
ghost use Rattle.sctp_association.specs.TrafficStands.{TrafficStands};

use crate::machine::Machine;
use crate::state::life::Life;
use crate::traffic::Traffic;
use crate::user::agreed::Agreed;

impl Traffic {
    /// The number of queued messages that have no TSN yet: at most 1,024.
    pub(crate) fn queued(&self) -> usize
        ensures count { (f : Format) (s : SenderView) (r : ReceiverView) → TrafficStands self.now f s r → result ≡ length s.queue }
        ensures bound { (f : Format) (s : SenderView) (r : ReceiverView) → TrafficStands self.now f s r → result ≤ QUEUE_LIMIT }
    {
        match self {
            Traffic::Plain(directions) => directions.sender.queued(),
            Traffic::Interleaved(directions) => directions.sender.queued(),
        }
    }

    /// The bytes of these messages.
    pub(crate) fn queued_bytes(&self) -> u64
        ensures bytes { (f : Format) (s : SenderView) (r : ReceiverView) → TrafficStands self.now f s r → result ≡ queued_bytes s }
        ensures bound { (f : Format) (s : SenderView) (r : ReceiverView) → TrafficStands self.now f s r → result ≤ QUEUE_LIMIT * LONGEST_MESSAGE }
    {
        match self {
            Traffic::Plain(directions) => directions.sender.queued_bytes(),
            Traffic::Interleaved(directions) => directions.sender.queued_bytes(),
        }
    }

    /// Those of the messages on a stream with one of these payload protocol identifiers.
    pub(crate) fn queued_bytes_on(&self, stream: u16, payload_ids: &[u32]) -> u64
        ensures bytes { (f : Format) (s : SenderView) (r : ReceiverView) → TrafficStands self.now f s r → result ≡ queued_bytes_on stream payload_ids.now s }
        ensures bound { (f : Format) (s : SenderView) (r : ReceiverView) → TrafficStands self.now f s r → result ≤ QUEUE_LIMIT * LONGEST_MESSAGE }
    {
        match self {
            Traffic::Plain(directions) => directions.sender.queued_bytes_on(stream, payload_ids),
            Traffic::Interleaved(directions) => directions
                .sender
                .queued_bytes_on(stream, payload_ids),
        }
    }

    /// The peer's receiver window in bytes, as it last advertised it (RFC 9260, 3.3.2 and 3.3.4).
    pub(crate) fn peer_window(&self) -> u32
        ensures { (f : Format) (s : SenderView) (r : ReceiverView) → TrafficStands self.now f s r → result ≡ s.rwnd }
    {
        match self {
            Traffic::Plain(directions) => directions.sender.peer_window(),
            Traffic::Interleaved(directions) => directions.sender.peer_window(),
        }
    }

    /// The first stream, from this one on, with a message to be taken.
    pub(crate) fn readable(&self, from: u16) -> Option<u16>
        ensures { (f : Format) (s : SenderView) (r : ReceiverView) → TrafficStands self.now f s r → ReadableAnswer r.waiting from result }
    {
        match self {
            Traffic::Plain(directions) => directions.receiver.readable(from),
            Traffic::Interleaved(directions) => directions.receiver.readable(from),
        }
    }

    /// The first stream, from this one on, with a message to be taken, or else the first of all.
    #[inline(always)]
    pub(crate) fn next_readable(&self, from: u16) -> Option<u16>
        ensures { (f : Format) (s : SenderView) (r : ReceiverView) → TrafficStands self.now f s r → NextReadableAnswer r.waiting from result }
    {
        match self {
            Traffic::Plain(directions) => directions.receiver.next_readable(from),
            Traffic::Interleaved(directions) => directions.receiver.next_readable(from),
        }
    }
}

#[tactic(auto, unfolding(crate::specs::MachineStands::MachineStands))]
impl Machine {
    /// The number of queued messages that have no TSN yet: at most 1,024, and 0 before an association.
    pub fn queued(&self) -> usize
        ensures count { (v : EndView) → MachineStands self.now v → result ≡ length v.sender.queue }
        ensures bound { (v : EndView) → MachineStands self.now v → result ≤ QUEUE_LIMIT }
    {
        match &self.life {
            Life::Unjoined(_) => 0,
            Life::Joined(association) => association.traffic.queued(),
        }
    }

    /// The bytes of these messages.
    pub fn queued_bytes(&self) -> u64
        ensures bytes { (v : EndView) → MachineStands self.now v → result ≡ queued_bytes v.sender }
        ensures bound { (v : EndView) → MachineStands self.now v → result ≤ QUEUE_LIMIT * LONGEST_MESSAGE }
    {
        match &self.life {
            Life::Unjoined(_) => 0,
            Life::Joined(association) => association.traffic.queued_bytes(),
        }
    }

    /// Those of the messages on a stream, ordered or not, with one of these payload protocol identifiers.
    pub fn queued_bytes_on(&self, stream: u16, payload_ids: &[u32]) -> u64
        ensures bytes { (v : EndView) → MachineStands self.now v → result ≡ queued_bytes_on stream payload_ids.now v.sender }
        ensures bound { (v : EndView) → MachineStands self.now v → result ≤ QUEUE_LIMIT * LONGEST_MESSAGE }
    {
        match &self.life {
            Life::Unjoined(_) => 0,
            Life::Joined(association) => association.traffic.queued_bytes_on(stream, payload_ids),
        }
    }

    /// The peer's receiver window in bytes, as it last advertised it: 0 before an association (RFC 9260, 3.3.2 and 3.3.4).
    pub fn peer_window(&self) -> u32
        ensures { (v : EndView) → MachineStands self.now v → result ≡ v.sender.rwnd }
    {
        match &self.life {
            Life::Unjoined(_) => 0,
            Life::Joined(association) => association.traffic.peer_window(),
        }
    }

    /// The first stream, from this one on, with a message to be taken; None if there is none, as before an association.
    pub fn readable(&self, from: u16) -> Option<u16>
        ensures { (v : EndView) → MachineStands self.now v → ReadableAnswer v.receiver.waiting from result }
    {
        match &self.life {
            Life::Unjoined(_) => None,
            Life::Joined(association) => association.traffic.readable(from),
        }
    }

    /// The first stream, from this one on, with a message to be taken, or else the first of all; None if there is none, as before an association.
    #[inline(always)]
    pub fn next_readable(&self, from: u16) -> Option<u16>
        ensures { (v : EndView) → MachineStands self.now v → NextReadableAnswer v.receiver.waiting from result }
    {
        match &self.life {
            Life::Unjoined(_) => None,
            Life::Joined(association) => association.traffic.next_readable(from),
        }
    }

    /// What both endpoints agreed on, also once the association is over. None before it: exactly if no stream is agreed on.
    pub fn agreed(&self) -> Option<Agreed>
        ensures { (v : EndView) → MachineStands self.now v → AgreedAnswer v.terms result }
    {
        match &self.life {
            Life::Unjoined(_) => None,
            Life::Joined(association) => Agreed::on(association.terms),
        }
    }
}
