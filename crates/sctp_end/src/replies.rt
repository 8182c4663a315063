//! The answers to calls that the endpoint refuses.

ghost use Rattle.std.specs.Prelude.{◌≡◌, List, ℕ, Err};
ghost use Rattle.sctp_model.specs.world.Calls.{Call as Message};
ghost use Rattle.sctp_model.specs.end.EndView.{EndView};
ghost use Rattle.sctp_association.specs.CallAnswers.{SendAnswers};
ghost use Rattle.sctp_association.specs.AbortAnswers.{AbortAnswers};
ghost use Rattle.sctp_association.specs.declared.user.calls.Refused.TheVariants as refused;
ghost use Rattle.sctp_end.specs.inner.Refusing.{SendTold, AbortTold};

use crate::reply::{Refusal, Reply};
use sctp_endpoint::{AbortFault, Refused, SendFault};

/// The answer to a message that isn't accepted.
pub(crate) fn send_refused(why: Refused) -> Reply
    ensures { (v : EndView) (c : Message) → SendAnswers v c (Err why) → SendTold v c result }
{
    match why {
        Refused::NotOpen => Reply::Refused(Refusal::NotEstablished),
        Refused::Fault(fault) => fault_told(fault),
    }
}

/// The answer to a message that the sender refuses.
fn fault_told(fault: SendFault) -> Reply
    ensures { (v : EndView) (c : Message) → SendAnswers v c (Err (refused.Fault fault)) → SendTold v c result }
{
    match fault {
        SendFault::NoSuchStream => Reply::Refused(Refusal::NoSuchStream),
        SendFault::Resetting => Reply::Refused(Refusal::Resetting),
        SendFault::Empty => Reply::Refused(Refusal::Empty),
        SendFault::TooLong => Reply::Refused(Refusal::TooLong),
        SendFault::QueueFull => Reply::Refused(Refusal::QueueFull),
        SendFault::Spent => Reply::Refused(Refusal::Spent),
        SendFault::NoMemory => Reply::NoMemory,
    }
}

/// The answer to an abort that isn't possible.
pub(crate) fn abort_refused(why: AbortFault) -> Reply
    ensures { (v : EndView) (reason : List ℕ) → AbortAnswers v reason (Err why) → AbortTold v reason result }
{
    match why {
        AbortFault::State => Reply::Refused(Refusal::NoPeer),
        AbortFault::TooLong => Reply::Refused(Refusal::ReasonTooLong),
        AbortFault::NoMemory => Reply::NoMemory,
    }
}
