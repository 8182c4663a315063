//! The calls of an endpoint's user that send a message.

ghost use Rattle.sctp_end.specs.declared.call.Call.TheVariants as call;
ghost use Rattle.sctp_end.specs.SessionStands.{Performed};

use crate::replies::send_refused;
use crate::reply::Reply;
use crate::session::Session;
use sctp_text::Bytes;
use sctp_values::Kind;

impl Session {
    /// `send`
    pub(crate) fn send(
        &mut self,
        stream: u16,
        kind: Kind,
        payload_id: u32,
        until: Option<u64>,
        bytes: Bytes,
    ) -> Reply
        ensures { Performed self.old (call.Send stream kind payload_id until bytes) result self.new }
    {
        let ordered = !kind.flag();
        match self
            .endpoint
            .send(stream, ordered, payload_id, bytes.into_vec(), until)
        {
            Ok(ticket) => Reply::Ticket(ticket.0),
            Err(why) => send_refused(why),
        }
    }

    /// `send` with a limit of retransmissions
    pub(crate) fn send_with_max_retransmits(
        &mut self,
        stream: u16,
        kind: Kind,
        payload_id: u32,
        until: Option<u64>,
        max_retransmits: u16,
        bytes: Bytes,
    ) -> Reply
        ensures { Performed self.old (call.SendWithMaxRetransmits stream kind payload_id until max_retransmits bytes) result self.new }
    {
        let sent = self.endpoint.send_with_max_retransmits(
            stream,
            !kind.flag(),
            payload_id,
            bytes.into_vec(),
            until,
            max_retransmits,
        );
        match sent {
            Ok(ticket) => Reply::Ticket(ticket.0),
            Err(why) => send_refused(why),
        }
    }
}
