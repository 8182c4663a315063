//! Resets of streams, which the user asks for and which are reported to it (RFC 6525).

ghost use Rattle.sctp_end.specs.declared.call.Call.TheVariants as call;
ghost use Rattle.sctp_end.specs.SessionStands.{Performed};

use crate::reply::{Refusal, Reply};
use crate::session::Session;
use sctp_endpoint::ResetFault;

impl Session {
    /// `reset`
    pub(crate) fn reset(&mut self, stream: u16) -> Reply
        ensures { Performed self.old (call.Reset stream) result self.new }
    {
        match self.endpoint.reset(stream) {
            Ok(()) => Reply::Done,
            Err(ResetFault::State) => Reply::Refused(Refusal::NotAgreed),
            Err(ResetFault::NoSuchStream) => Reply::Refused(Refusal::NoSuchReset),
            Err(ResetFault::NoMemory) => Reply::NoMemory,
        }
    }

    /// `resets`
    pub(crate) fn resets(&mut self) -> Reply
        ensures { Performed self.old call.Resets result self.new }
    {
        match self.endpoint.take_reset() {
            Some(reset) => Reply::ResetThere {
                stream: reset.stream,
                count: reset.count,
            },
            None => Reply::NoReset,
        }
    }
}
