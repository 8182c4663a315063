//! Streams are reset: by the user, and by the peer (RFC 6525, 5.1 and 5.2).

ghost use Rattle.std.specs.Prelude.{◌≡◌, ◌≤◌, ◌&&◌, nat_lt, is_some};
ghost use Rattle.sctp_model.specs.numbers.Limits.{STREAM_LIMIT};
ghost use Rattle.sctp_model.specs.sender.Outgoing.{is_resetting};
ghost use Rattle.sctp_model.specs.end.EndView.{EndView};
ghost use Rattle.sctp_model.specs.end.UserCalls.{reset_there};
ghost use Rattle.sctp_send.specs.ResetAnswers.{resetting_streams};
ghost use Rattle.sctp_association.specs.ResetAnswers.{ResetAnswers, reset_view, ToldAnswers, told_view};
ghost use Rattle.sctp_endpoint.specs.EndpointStands.{EndpointStands};
ghost use Rattle.sctp_endpoint.specs.Counted.{counted};
ghost use Rattle.sctp_endpoint.specs.Logs.{LeavesLogs};

use crate::endpoint::Endpoint;
use sctp_recv::Reset;
use sctp_terms::ResetFault;

#[tactic(auto, unfolding(crate::specs::EndpointStands::EndpointStands, crate::specs::Counted::counted))]
impl Endpoint {
    /// Asks for the reset of an outgoing stream, counted from 0 (RFC 6525, 5.1): from this call on `send` refuses its messages. Once all that was sent on
    /// it is acknowledged the peer is asked to reset it, and once the peer has done that the stream takes messages again, whose numbers begin anew
    /// at 0. `is_resetting` says whether that is still to come. The call changes nothing if the stream is being reset; if the peer refused, the stream
    /// takes no message until a further call has succeeded.
    ///
    /// # Errors
    /// The first of these that applies: `ResetFault::State` unless the association is established and both endpoints support stream reset,
    /// `NoSuchStream`, `NoMemory` if an allocation failed. Nothing changed then.
    pub fn reset(&mut self, stream: u16) -> Result<(), ResetFault>
        ensures answer { (v : EndView) → EndpointStands self.old v → ResetAnswers v stream result }
        ensures step { (v : EndView) → EndpointStands self.old v → EndpointStands self.new (reset_view v stream result) }
        ensures logs { (v : EndView) → EndpointStands self.old v → LeavesLogs v self.new }
        ensures counts { counted self.new ≡ counted self.old }
    {
        // law: it is sound
        self.machine.sound();
        self.machine.reset(stream)
    }

    /// Reports a reset by the peer: the lowest stream that it reset and that wasn't reported since, and how many of the messages that wait for `take`
    /// there were delivered before it, the first ones. None exactly if there is none. Two resets of a stream that weren't reported are reported as
    /// one, the later. It allocates no memory (RFC 6525, 5.2.2).
    pub fn take_reset(&mut self) -> Option<Reset>
        ensures answer { (v : EndView) → EndpointStands self.old v → ToldAnswers v result }
        ensures step { (v : EndView) → EndpointStands self.old v → EndpointStands self.new (told_view v result) }
        ensures logs { (v : EndView) → EndpointStands self.old v → LeavesLogs v self.new }
        ensures counts { counted self.new ≡ counted self.old }
    {
        // law: it is sound
        self.machine.sound();
        self.machine.take_reset()
    }

    /// Whether `take_reset` has a reset by the peer to report.
    #[inline(always)]
    pub fn has_reset(&self) -> bool
        ensures { (v : EndView) → EndpointStands self.now v → result ≡ is_some (reset_there v) }
    {
        self.machine.has_reset()
    }

    /// Whether the reset of an outgoing stream was asked for and isn't done: `send` refuses its messages. False also after the peer refused, and if
    /// there is no such stream, as before an association.
    pub fn is_resetting(&self, stream: u16) -> bool
        ensures { (v : EndView) → EndpointStands self.now v → result ≡ (nat_lt stream v.sender.streams && is_resetting (v.sender.resets.sending stream)) }
    {
        self.machine.is_resetting(stream)
    }

    /// How many of the outgoing streams below 1,024, which are all that a configuration allows, wait for their reset, as `is_resetting` has it; 0 before
    /// an association.
    pub fn resetting_streams(&self) -> usize
        ensures count { (v : EndView) → EndpointStands self.now v → result ≡ resetting_streams v.sender }
        ensures bound { (v : EndView) → EndpointStands self.now v → result ≤ STREAM_LIMIT }
    {
        self.machine.resetting_streams()
    }
}
