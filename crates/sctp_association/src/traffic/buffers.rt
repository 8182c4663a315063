//! Buffers of the sender of an association: those that are returned to it, and those that it kept of messages that are over.

ghost use Rattle.std.specs.Prelude.{◌≡◌, ◌≤◌, [], vec_capacity, IfSome};
ghost use Rattle.sctp_model.specs.messages.Format.{Format};
ghost use Rattle.sctp_model.specs.sender.SenderView.{SenderView};
ghost use Rattle.sctp_model.specs.receiver.ReceiverView.{ReceiverView};
ghost use Rattle.sctp_association.specs.TrafficStands.{TrafficStands};

use crate::traffic::Traffic;
use sctp_values::Ticket;

impl Traffic {
    /// Returns the buffer of the tickets that were told with a packet: no view of the sender changes.
    #[inline(always)]
    pub(crate) fn recycle_tickets(&mut self, tickets: Vec<Ticket>)
        ensures { (f : Format) (s : SenderView) (r : ReceiverView) → TrafficStands self.old f s r → TrafficStands self.new f s r }
    {
        match self {
            Traffic::Plain(directions) => directions.sender.recycle_tickets(tickets),
            Traffic::Interleaved(directions) => directions.sender.recycle_tickets(tickets),
        }
    }

    /// Takes the buffer of a message that is over, if one with capacity for `least` bytes is kept: it is empty, and no view of the sender changes.
    #[inline(always)]
    pub(crate) fn take_buffer(&mut self, least: usize) -> Option<Vec<u8>>
        ensures empty { IfSome result (λ buffer. buffer.items ≡ []) }
        ensures room { IfSome result (λ buffer. least ≤ vec_capacity buffer) }
        ensures kept { self.new ≡ self.old }
    {
        match self {
            Traffic::Plain(directions) => directions.sender.take_buffer(least),
            Traffic::Interleaved(directions) => directions.sender.take_buffer(least),
        }
    }
}
