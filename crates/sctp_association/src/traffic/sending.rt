//! The sender of an association, in either format (RFC 9260, 6; RFC 3758, 3.5; RFC 8260, 2.2).

ghost use Rattle.std.specs.Prelude.{◌≡◌, ℕ, ◌<◌, ◌≤◌, nat_lt, true, false, option_map};
ghost use Rattle.sctp_model.specs.numbers.Limits.{WINDOW};
ghost use Rattle.sctp_model.specs.messages.Format.{Format};
ghost use Rattle.sctp_model.specs.sender.SenderView.{SenderView};
ghost use Rattle.sctp_model.specs.receiver.ReceiverView.{ReceiverView};
ghost use Rattle.sctp_model.specs.sender.Reached.{IsReached};
ghost use Rattle.sctp_model.specs.sender.Readers.{drained, unsettled, point, outstanding, acknowledged, abandoned};
ghost use Rattle.sctp_model.specs.sender.Abandoning.{has_late, expired, worn, timed_out, abandon_answer, abandon_after};
ghost use Rattle.sctp_model.specs.end.Clock.{is_point_past};
ghost use Rattle.sctp_send.specs.SenderAnswers.{answer_meaning, QueueAnswer, queue_after, lane_for, next_late, next_at_limit, abandoned_messages};
ghost use Rattle.sctp_association.specs.TrafficStands.{TrafficStands};

use crate::traffic::Traffic;
use sctp_send::{Abandoned, SendFault};
use sctp_values::Ticket;

impl Traffic {
    /// The index of the cumulative TSN Ack Point, counted from the initial TSN.
    #[inline(always)]
    pub(crate) fn cum(&self) -> u64
        ensures { (f : Format) (s : SenderView) (r : ReceiverView) → TrafficStands self.now f s r → result ≡ s.cum }
    {
        match self {
            Traffic::Plain(directions) => directions.sender.cum(),
            Traffic::Interleaved(directions) => directions.sender.cum(),
        }
    }

    /// The index of the Advanced Peer Ack Point, up to which all is acknowledged or abandoned (RFC 3758, 3.5).
    pub(crate) fn point(&self) -> u64
        ensures { (f : Format) (s : SenderView) (r : ReceiverView) → TrafficStands self.now f s r → result ≡ point s }
    {
        match self {
            Traffic::Plain(directions) => directions.sender.point(),
            Traffic::Interleaved(directions) => directions.sender.point(),
        }
    }

    // law
    /// Its sender stands only for views that calls reach.
    pub(crate) fn reached(&self)
        ensures { (f : Format) (s : SenderView) (r : ReceiverView) → TrafficStands self.now f s r → IsReached f s }
    {
        match self {
            Traffic::Plain(directions) => directions.sender.reached(),
            Traffic::Interleaved(directions) => directions.sender.reached(),
        }
    }

    /// The Advanced Peer Ack Point is past the cumulative TSN Ack Point: a FORWARD-TSN would skip something (RFC 3758, 3.5).
    pub(crate) fn is_point_past(&self) -> bool
        ensures { (f : Format) (s : SenderView) (r : ReceiverView) → TrafficStands self.now f s r → result ≡ is_point_past s }
    {
        self.cum() < self.point()
    }

    /// The data timer is wanted: user data that was sent is neither acknowledged nor abandoned, or a FORWARD-TSN would skip something (RFC 9260, 6.3.2).
    pub(crate) fn unsettled(&self) -> bool
        ensures { (f : Format) (s : SenderView) (r : ReceiverView) → TrafficStands self.now f s r → result ≡ unsettled s }
    {
        match self {
            Traffic::Plain(directions) => directions.sender.unsettled(),
            Traffic::Interleaved(directions) => directions.sender.unsettled(),
        }
    }

    /// No message is queued, and all is acknowledged (RFC 9260, 9.2).
    #[inline(always)]
    pub(crate) fn drained(&self) -> bool
        ensures { (f : Format) (s : SenderView) (r : ReceiverView) → TrafficStands self.now f s r → result ≡ drained s }
    {
        match self {
            Traffic::Plain(directions) => directions.sender.drained(),
            Traffic::Interleaved(directions) => directions.sender.drained(),
        }
    }

    /// The number of TSNs above the cumulative TSN Ack Point, and of messages that are sent in part: at most 32,767.
    pub(crate) fn outstanding(&self) -> u32
        ensures count { (f : Format) (s : SenderView) (r : ReceiverView) → TrafficStands self.now f s r → result ≡ outstanding s }
        ensures bound { (f : Format) (s : SenderView) (r : ReceiverView) → TrafficStands self.now f s r → result ≤ WINDOW }
    {
        match self {
            Traffic::Plain(directions) => directions.sender.outstanding(),
            Traffic::Interleaved(directions) => directions.sender.outstanding(),
        }
    }

    /// The number of tickets that were issued.
    pub(crate) fn tickets(&self) -> u64
        ensures { (f : Format) (s : SenderView) (r : ReceiverView) → TrafficStands self.now f s r → result ≡ s.tickets }
    {
        match self {
            Traffic::Plain(directions) => directions.sender.tickets(),
            Traffic::Interleaved(directions) => directions.sender.tickets(),
        }
    }

    /// Gives back memory of the sender that a burst took: no view of it changes.
    pub(crate) fn trim_sender(&mut self)
        ensures { (f : Format) (s : SenderView) (r : ReceiverView) → TrafficStands self.old f s r → TrafficStands self.new f s r }
    {
        match self {
            Traffic::Plain(directions) => directions.sender.trim(),
            Traffic::Interleaved(directions) => directions.sender.trim(),
        }
    }

    /// The number of messages that have TSNs and were abandoned.
    pub(crate) fn abandoned_messages(&self) -> u64
        ensures { (f : Format) (s : SenderView) (r : ReceiverView) → TrafficStands self.now f s r → result ≡ abandoned_messages s }
    {
        match self {
            Traffic::Plain(directions) => directions.sender.abandoned_messages(),
            Traffic::Interleaved(directions) => directions.sender.abandoned_messages(),
        }
    }

    /// A message's lifetime is over at this time; if there is none, `expire` changes nothing.
    pub(crate) fn has_late(&self, now: u64) -> bool
        ensures exact { (f : Format) (s : SenderView) (r : ReceiverView) → TrafficStands self.now f s r → result ≡ has_late s now }
        ensures idle { (f : Format) (s : SenderView) (r : ReceiverView) → TrafficStands self.now f s r → result ≡ false → expired s now ≡ s }
    {
        match self {
            Traffic::Plain(directions) => directions.sender.has_late(now),
            Traffic::Interleaved(directions) => directions.sender.has_late(now),
        }
    }

    /// The lowest ticket above `last` of a message that may be abandoned and whose lifetime is over at this time; `Ticket(0)` is below all.
    pub(crate) fn next_late(&self, last: Ticket, now: u64) -> Option<Ticket>
        ensures { (f : Format) (s : SenderView) (r : ReceiverView) → TrafficStands self.now f s r → option_map (λ t. t.0) result ≡ next_late s last.0 now }
    {
        match self {
            Traffic::Plain(directions) => directions.sender.next_late(last, now),
            Traffic::Interleaved(directions) => directions.sender.next_late(last, now),
        }
    }

    /// The message with this ticket is acknowledged in full.
    pub(crate) fn acknowledged(&self, ticket: Ticket) -> bool
        ensures { (f : Format) (s : SenderView) (r : ReceiverView) → TrafficStands self.now f s r → result ≡ acknowledged s ticket.0 }
    {
        match self {
            Traffic::Plain(directions) => directions.sender.acknowledged(ticket),
            Traffic::Interleaved(directions) => directions.sender.acknowledged(ticket),
        }
    }

    /// The message with this ticket has a TSN and was abandoned.
    pub(crate) fn abandoned(&self, ticket: Ticket) -> bool
        ensures { (f : Format) (s : SenderView) (r : ReceiverView) → TrafficStands self.now f s r → result ≡ abandoned s ticket.0 }
    {
        match self {
            Traffic::Plain(directions) => directions.sender.abandoned(ticket),
            Traffic::Interleaved(directions) => directions.sender.abandoned(ticket),
        }
    }

    /// The data timer expired: all outstanding user data is marked for retransmission (RFC 9260, 6.3.3).
    pub(crate) fn on_timeout(&mut self)
        ensures { (f : Format) (s : SenderView) (r : ReceiverView) → TrafficStands self.old f s r → TrafficStands self.new f (timed_out s) r }
    {
        match self {
            Traffic::Plain(directions) => directions.sender.on_timeout(),
            Traffic::Interleaved(directions) => directions.sender.on_timeout(),
        }
    }

    /// Abandons the messages whose lifetime is over at this time (RFC 3758, 3.5).
    pub(crate) fn expire(&mut self, now: u64)
        ensures { (f : Format) (s : SenderView) (r : ReceiverView) → TrafficStands self.old f s r → TrafficStands self.new f (expired s now) r }
    {
        match self {
            Traffic::Plain(directions) => directions.sender.expire(now),
            Traffic::Interleaved(directions) => directions.sender.expire(now),
        }
    }

    /// The data timer expired: abandons the messages of what was retransmitted as often as it may be (RFC 7496, 3.1).
    pub(crate) fn wear(&mut self)
        ensures { (f : Format) (s : SenderView) (r : ReceiverView) → TrafficStands self.old f s r → TrafficStands self.new f (worn (λ i. true) s) r }
    {
        match self {
            Traffic::Plain(directions) => directions.sender.wear(),
            Traffic::Interleaved(directions) => directions.sender.wear(),
        }
    }

    /// The lowest ticket above `last` of a message that isn't abandoned, with an outstanding fragment that was retransmitted as often as its limit
    /// allows (RFC 7496, 3.1); `Ticket(0)` is below all.
    pub(crate) fn next_at_limit(&self, last: Ticket) -> Option<Ticket>
        ensures { (f : Format) (s : SenderView) (r : ReceiverView) → TrafficStands self.now f s r → option_map (λ t. t.0) result ≡ next_at_limit s last.0 }
    {
        match self {
            Traffic::Plain(directions) => directions.sender.next_at_limit(last),
            Traffic::Interleaved(directions) => directions.sender.next_at_limit(last),
        }
    }

    /// Abandons the message with this ticket (RFC 3758, 3.5).
    pub(crate) fn abandon(&mut self, ticket: Ticket) -> Abandoned
        ensures answer { (f : Format) (s : SenderView) (r : ReceiverView) → TrafficStands self.old f s r → answer_meaning result ≡ abandon_answer s ticket.0 }
        ensures step { (f : Format) (s : SenderView) (r : ReceiverView) → TrafficStands self.old f s r → TrafficStands self.new f (abandon_after s ticket.0) r }
    {
        match self {
            Traffic::Plain(directions) => directions.sender.abandon(ticket),
            Traffic::Interleaved(directions) => directions.sender.abandon(ticket),
        }
    }

    /// Queues a message, with a lifetime and a limit of retransmissions, if it has them (RFC 9260, 11.1.5; RFC 7496, 3.1).
    ///
    /// # Errors
    /// Why it is refused; nothing changed.
    #[inline(always)]
    pub(crate) fn queue(
        &mut self,
        stream: u16,
        ordered: bool,
        payload_id: u32,
        bytes: Vec<u8>,
        until: Option<u64>,
        limit: Option<u16>,
    ) -> Result<Ticket, SendFault>
        ensures answer { (f : Format) (s : SenderView) (r : ReceiverView) → TrafficStands self.old f s r → QueueAnswer s stream bytes.items result }
        ensures step { (f : Format) (s : SenderView) (r : ReceiverView) → TrafficStands self.old f s r → TrafficStands self.new f (queue_after s (lane_for stream ordered) payload_id bytes.items until limit result) r }
    {
        match self {
            Traffic::Plain(directions) => directions
                .sender
                .queue_limited(stream, ordered, payload_id, bytes, until, limit),
            Traffic::Interleaved(directions) => directions
                .sender
                .queue_limited(stream, ordered, payload_id, bytes, until, limit),
        }
    }
}
