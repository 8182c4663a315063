//! The calls of an endpoint's user, and timers (RFC 9260, 11.1).

ghost use Rattle.std.specs.Prelude.{◌≡◌, option_map};
ghost use Rattle.sctp_model.specs.end.EndView.{EndView};
ghost use Rattle.sctp_model.specs.end.Moments.{ticked};
ghost use Rattle.sctp_model.specs.end.UserCalls.{connect_answer, abandons, abandoned_at, shutdown_answer, shut, UserTakes};
ghost use Rattle.sctp_send.specs.SenderAnswers.{answer_meaning, lane_for};
ghost use Rattle.sctp_recv.specs.HandedOf.{handed_of};
ghost use Rattle.sctp_recv.specs.Readable.{NextReadableAnswer};
ghost use Rattle.sctp_association.specs.CallAnswers.{connect_meaning, connected, shutdown_meaning, call_of, limited_call_of, SendAnswers, sent_view};
ghost use Rattle.sctp_endpoint.specs.EndpointStands.{EndpointStands};
ghost use Rattle.sctp_endpoint.specs.Counted.{counted};
ghost use Rattle.sctp_endpoint.specs.Logs.{LeavesLogs, GivesLogs, TakesLogs};

use crate::endpoint::Endpoint;
use sctp_association::Refused;
use sctp_recv::Message;
use sctp_send::Abandoned;
use sctp_terms::{ConnectFault, Draw, ShutdownFault};
use sctp_values::Ticket;

#[tactic(auto, unfolding(crate::specs::EndpointStands::EndpointStands, crate::specs::Counted::counted))]
impl Endpoint {
    /// Begins an association: an INIT is due (RFC 9260, 5.1, A, and 11.1.2). `now` is the current time in milliseconds; `draw` is this endpoint's
    /// verification tag and initial TSN, fresh random values. It allocates no memory.
    ///
    /// # Errors
    /// `ConnectFault::State` unless it is a caller that hasn't called yet. Nothing changed then, not even the time.
    pub fn connect(&mut self, now: u64, draw: Draw) -> Result<(), ConnectFault>
        ensures answer { (v : EndView) → EndpointStands self.old v → connect_meaning result ≡ connect_answer v.phase }
        ensures step { (v : EndView) → EndpointStands self.old v → EndpointStands self.new (connected v now draw result) }
        ensures logs { (v : EndView) → EndpointStands self.old v → LeavesLogs v self.new }
        ensures counts { counted self.new ≡ counted self.old }
    {
        // law: it is sound
        self.machine.sound();
        self.machine.connect(now, draw)
    }

    /// Queues a message for the peer on a stream, counted from 0: delivered in the order of sending, or unordered, as soon as it is complete (RFC 9260,
    /// 11.1.5 and 6.6). `payload_id` is the payload protocol identifier, passed on to the peer's user. `until` is the end of its lifetime, in
    /// milliseconds: an `on_moment` at or after it abandons the message (RFC 3758, 3.5). `next_moment` doesn't count lifetimes: call `on_moment` at
    /// `until` too. The ticket identifies the message in `abandon`, `acknowledged` and `abandoned`.
    ///
    /// # Errors
    /// `Refused::NotOpen` unless the association is established, before every other error; then `Refused::Fault` with the first of the sender's
    /// errors that applies: no such stream, a stream that is being reset or whose reset the peer refused, no bytes, more than 65,536 bytes, 1,024
    /// messages queued already, no ticket left, or an allocation that failed. Nothing changed; the bytes are dropped.
    #[inline(always)]
    pub fn send(
        &mut self,
        stream: u16,
        ordered: bool,
        payload_id: u32,
        bytes: Vec<u8>,
        until: Option<u64>,
    ) -> Result<Ticket, Refused>
        ensures answer { (v : EndView) → EndpointStands self.old v → SendAnswers v (call_of (lane_for stream ordered) payload_id bytes.items until) result }
        ensures step { (v : EndView) → EndpointStands self.old v → EndpointStands self.new (sent_view v (call_of (lane_for stream ordered) payload_id bytes.items until) result) }
        ensures logs { (v : EndView) → EndpointStands self.old v → GivesLogs v result self.new }
        ensures counts { counted self.new ≡ counted self.old }
    {
        // law: it is sound
        self.machine.sound();
        self.machine.send(stream, ordered, payload_id, bytes, until)
    }

    /// Queues a message as `send` does, with a limit of retransmissions (RFC 7496, 3.1): if both endpoints support partial reliability, each of its
    /// fragments is retransmitted `max_retransmits` times at most, 0 for never. When the data timer expires and a fragment was retransmitted that
    /// often, the whole message is abandoned (RFC 3758, 3.5). Without partial reliability the limit has no effect. With a lifetime too, the
    /// message is abandoned by whichever ends first.
    ///
    /// # Errors
    /// As `send`.
    #[inline(always)]
    pub fn send_with_max_retransmits(
        &mut self,
        stream: u16,
        ordered: bool,
        payload_id: u32,
        bytes: Vec<u8>,
        until: Option<u64>,
        max_retransmits: u16,
    ) -> Result<Ticket, Refused>
        ensures answer { (v : EndView) → EndpointStands self.old v
            → SendAnswers v (limited_call_of (lane_for stream ordered) payload_id bytes.items until max_retransmits) result }
        ensures step { (v : EndView) → EndpointStands self.old v
            → EndpointStands self.new (sent_view v (limited_call_of (lane_for stream ordered) payload_id bytes.items until max_retransmits) result) }
        ensures logs { (v : EndView) → EndpointStands self.old v → GivesLogs v result self.new }
        ensures counts { counted self.new ≡ counted self.old }
    {
        // law: it is sound
        self.machine.sound();
        self.machine
            .send_with_max_retransmits(stream, ordered, payload_id, bytes, until, max_retransmits)
    }

    /// Returns the first message that waits on a stream (RFC 9260, 11.1.6), and None if none does. Its space in the receive buffer is then free; the peer
    /// learns of it with the next SACK. It allocates no memory.
    #[inline(always)]
    pub fn take(&mut self, stream: u16) -> Option<Message>
        ensures step { (v : EndView) → EndpointStands self.old v → (t : EndView) × UserTakes v stream (option_map handed_of result) t × EndpointStands self.new t }
        ensures logs { (v : EndView) → EndpointStands self.old v → TakesLogs v stream result self.new }
        ensures counts { counted self.new ≡ counted self.old }
    {
        // law: it is sound
        self.machine.sound();
        self.machine.take(stream)
    }

    /// The lowest stream, `from` or above, on which a message waits for `take`, or else the lowest of all; None exactly if no message waits, as before an
    /// association. With the stream after the one that was taken from, the streams take turns.
    #[inline(always)]
    pub fn next_readable(&self, from: u16) -> Option<u16>
        ensures { (v : EndView) → EndpointStands self.now v → NextReadableAnswer v.receiver.waiting from result }
    {
        self.machine.next_readable(from)
    }

    /// Abandons a message: one that is queued is withdrawn; one that was sent, in part at least, is abandoned if both endpoints support partial
    /// reliability (RFC 3758, 3.5). The answer says what was done. It allocates no memory.
    pub fn abandon(&mut self, ticket: Ticket) -> Abandoned
        ensures answer { (v : EndView) → EndpointStands self.old v → answer_meaning result ≡ abandons v ticket.0 }
        ensures step { (v : EndView) → EndpointStands self.old v → EndpointStands self.new (abandoned_at v ticket.0) }
        ensures logs { (v : EndView) → EndpointStands self.old v → LeavesLogs v self.new }
        ensures counts { counted self.new ≡ counted self.old }
    {
        // law: it is sound
        self.machine.sound();
        self.machine.abandon(ticket)
    }

    /// Closes the association gracefully: no further message is accepted, and those accepted are still delivered (RFC 9260, 9.2 and 11.1.3). If the
    /// shutdown has begun already the call changes nothing. It allocates no memory.
    ///
    /// # Errors
    /// `ShutdownFault::NotOpen` if no association is open. Nothing changed.
    pub fn shutdown(&mut self) -> Result<(), ShutdownFault>
        ensures answer { (v : EndView) → EndpointStands self.old v → shutdown_meaning result ≡ shutdown_answer v.phase }
        ensures step { (v : EndView) → EndpointStands self.old v → EndpointStands self.new (shut v) }
        ensures logs { (v : EndView) → EndpointStands self.old v → LeavesLogs v self.new }
        ensures counts { counted self.new ≡ counted self.old }
    {
        // law: it is sound
        self.machine.sound();
        self.machine.shutdown()
    }

    /// Advances the time to `now`, in milliseconds: messages whose lifetime is over are abandoned (RFC 3758, 3.5), and if the data timer is due, those
    /// that may not be retransmitted again (RFC 7496, 3.1); then each timer that is due expires once, and what it retransmits is due again (RFC 9260, 6.3.3); a delayed SACK whose time has come is due, too (RFC 9260, 6.2). A time before
    /// the latest one counts as that one. Call it no later than `next_moment` says, and at the end of each message's lifetime, which `next_moment`
    /// doesn't count; then call `poll_transmit`. It allocates no memory.
    pub fn on_moment(&mut self, now: u64)
        ensures step { (v : EndView) → EndpointStands self.old v → EndpointStands self.new (ticked v now) }
        ensures logs { (v : EndView) → EndpointStands self.old v → LeavesLogs v self.new }
        ensures counts { counted self.new ≡ counted self.old }
    {
        // law: it is sound
        self.machine.sound();
        self.machine.on_moment(now);
    }
}
