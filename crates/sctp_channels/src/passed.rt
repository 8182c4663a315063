//! Calls that are passed on to the endpoint. Its streams stay as they are.

ghost use Rattle.std.specs.Prelude.{◌≡◌, ◌/◌, ◌≤◌, length, IfOk};
ghost use Rattle.sctp_model.specs.end.EndView.{EndView};
ghost use Rattle.sctp_model.specs.end.Moments.{ticked, next_moment};
ghost use Rattle.sctp_model.specs.end.UserCalls.{connect_answer, abandons, abandoned_at, shutdown_answer, shut};
ghost use Rattle.sctp_send.specs.SenderAnswers.{answer_meaning};
ghost use Rattle.sctp_association.specs.AbortAnswers.{AbortAnswers, aborted_view};
ghost use Rattle.sctp_association.specs.CallAnswers.{connect_meaning, connected, shutdown_meaning};
ghost use Rattle.sctp_endpoint.specs.Counted.{counted, aborted_counts};
ghost use Rattle.sctp_channels.specs.Streams.{Table};
ghost use Rattle.sctp_channels.specs.ChannelsStand.{ChannelsStand, endpoint_of};

use crate::channels::Channels;
use sctp_endpoint::{Abandoned, AbortFault, ConnectFault, Draw, Message, ShutdownFault, Ticket};

#[tactic(auto, unfolding(crate::specs::ChannelsStand::ChannelsStand, crate::specs::ChannelsStand::endpoint_of, crate::specs::ChannelsStand::table_of))]
impl Channels {
    /// Begins the association: `Endpoint::connect`.
    ///
    /// # Errors
    /// `ConnectFault::State` unless it is a caller that hasn't called yet. Nothing changed then.
    pub fn connect(&mut self, now: u64, draw: Draw) -> Result<(), ConnectFault>
        ensures answer { (v : EndView) (x : Table) → ChannelsStand self.old v x → connect_meaning result ≡ connect_answer v.phase }
        ensures step { (v : EndView) (x : Table) → ChannelsStand self.old v x → ChannelsStand self.new (connected v now draw result) x }
        ensures counts { counted (endpoint_of self.new) ≡ counted (endpoint_of self.old) }
    {
        self.is_calm = false;
        self.endpoint.connect(now, draw)
    }

    /// Abandons a message: `Endpoint::abandon` (RFC 3758, 3.5). The answer says what was done: one that is queued is withdrawn, and its bytes aren't
    /// buffered any more; one of which a fragment was sent is abandoned if both endpoints support partial reliability.
    pub fn abandon(&mut self, ticket: Ticket) -> Abandoned
        ensures answer { (v : EndView) (x : Table) → ChannelsStand self.old v x → answer_meaning result ≡ abandons v ticket.0 }
        ensures step { (v : EndView) (x : Table) → ChannelsStand self.old v x → ChannelsStand self.new (abandoned_at v ticket.0) x }
        ensures counts { counted (endpoint_of self.new) ≡ counted (endpoint_of self.old) }
    {
        self.is_calm = false;
        self.endpoint.abandon(ticket)
    }

    /// Advances the time to `now`, in milliseconds: `Endpoint::on_moment`.
    pub fn on_moment(&mut self, now: u64)
        ensures step { (v : EndView) (x : Table) → ChannelsStand self.old v x → ChannelsStand self.new (ticked v now) x }
        ensures counts { counted (endpoint_of self.new) ≡ counted (endpoint_of self.old) }
    {
        self.is_calm = false;
        self.endpoint.on_moment(now);
    }

    /// When to call `on_moment` next: `Endpoint::next_moment`. The ends of messages' lifetimes don't count.
    pub fn next_moment(&self) -> Option<u64>
        ensures { (v : EndView) (x : Table) → ChannelsStand self.now v x → result ≡ next_moment v }
    {
        self.endpoint.next_moment()
    }

    /// The longest message, in bytes, to announce to the peer as `max-message-size` (RFC 8841, 6): a quarter of the receive buffer. A message longer than the
    /// buffer never arrives whole, and holds up all that follow it; and with messages nearly as long some peers fill the buffer with later ones, so that a
    /// missing fragment doesn't fit any more.
    pub fn max_message_size(&self) -> u32
        ensures { (v : EndView) (x : Table) → ChannelsStand self.now v x → result ≡ v.configuration.buffer / 4 }
    {
        self.endpoint.config().buffer() / 4
    }

    /// Closes the association gracefully: `Endpoint::shutdown`. Browsers don't report it to their pages: `abort` is what they expect.
    ///
    /// # Errors
    /// `ShutdownFault::NotOpen` if no association is open. Nothing changed.
    pub fn shutdown(&mut self) -> Result<(), ShutdownFault>
        ensures answer { (v : EndView) (x : Table) → ChannelsStand self.old v x → shutdown_meaning result ≡ shutdown_answer v.phase }
        ensures step { (v : EndView) (x : Table) → ChannelsStand self.old v x → ChannelsStand self.new (shut v) x }
        ensures counts { counted (endpoint_of self.new) ≡ counted (endpoint_of self.old) }
    {
        self.is_calm = false;
        self.endpoint.shutdown()
    }

    /// Aborts the association and returns the packet to send: `Endpoint::abort`. Then `next_event` says what was received before, and that each channel
    /// is closed.
    ///
    /// # Errors
    /// As `Endpoint::abort`. Nothing changed.
    pub fn abort(&mut self, reason: &[u8]) -> Result<Vec<u8>, AbortFault>
        ensures answer { (v : EndView) (x : Table) → ChannelsStand self.old v x → AbortAnswers v reason.now result }
        ensures within { (v : EndView) (x : Table) → ChannelsStand self.old v x → IfOk result (λ packet. length packet.items ≤ v.configuration.limit) }
        ensures step { (v : EndView) (x : Table) → ChannelsStand self.old v x → ChannelsStand self.new (aborted_view v reason.now result) x }
        ensures counts { counted (endpoint_of self.new) ≡ aborted_counts result (counted (endpoint_of self.old)) }
    {
        self.is_calm = false;
        self.endpoint.abort(reason)
    }

    /// Returns the buffer of a packet that was sent: `Endpoint::recycle`.
    pub fn recycle(&mut self, packet: Vec<u8>)
        ensures stands { (v : EndView) (x : Table) → ChannelsStand self.old v x → ChannelsStand self.new v x }
        ensures counts { counted (endpoint_of self.new) ≡ counted (endpoint_of self.old) }
    {
        self.endpoint.recycle(packet);
    }

    /// Returns the buffer of the tickets of a packet that was sent: `Endpoint::recycle_tickets`.
    pub fn recycle_tickets(&mut self, tickets: Vec<Ticket>)
        ensures stands { (v : EndView) (x : Table) → ChannelsStand self.old v x → ChannelsStand self.new v x }
        ensures counts { counted (endpoint_of self.new) ≡ counted (endpoint_of self.old) }
    {
        self.endpoint.recycle_tickets(tickets);
    }

    /// Returns the memory of a message that was reported: `Endpoint::give_back`.
    pub fn give_back(&mut self, message: Message)
        ensures stands { (v : EndView) (x : Table) → ChannelsStand self.old v x → ChannelsStand self.new v x }
        ensures counts { counted (endpoint_of self.new) ≡ counted (endpoint_of self.old) }
    {
        self.endpoint.give_back(message);
    }

    /// Gives back memory that a burst of messages took: `Endpoint::trim`.
    pub fn trim(&mut self)
        ensures stands { (v : EndView) (x : Table) → ChannelsStand self.old v x → ChannelsStand self.new v x }
        ensures counts { counted (endpoint_of self.new) ≡ counted (endpoint_of self.old) }
    {
        self.endpoint.trim();
    }
}
