//! What a sender's calls keep, whatever its peer says.

ghost use Rattle.sctp_safety.specs.SenderCalls.{AbandonedOnlyAsked, AbandonsItsOwnAlone, DrainedIsTold, EachPlanHasOneForward, EachViewHasOneFill};
ghost use Rattle.sctp_safety.specs.SenderCalls.{EachViewHasOnePoint, ForwardEndIsGiven, ForwardIsGiven, PlanStaysOrderly, NoneGoesTooOften};

/// The plan of every view that calls reach is orderly, under both formats, whatever SACKs arrived (RFC 9260, 6.6 and 6.9; RFC 8260, 2.2).
pub fn plan_stays_orderly()
    ensures { PlanStaysOrderly }
{}

/// A message is abandoned by a call that names its ticket, if its lifetime is over, or if it was retransmitted as often as it may be, and by nothing else
/// (RFC 3758, 3.5; RFC 7496, 3.1).
pub fn abandoned_only_asked()
    ensures { AbandonedOnlyAsked }
{}

/// A call that abandons abandons the message of its ticket alone, so that of all tickets that one at most is newly abandoned (RFC 3758, 3.5).
pub fn abandons_its_own_alone()
    ensures { AbandonsItsOwnAlone }
{}

/// What is determined by its property is one: what goes into a packet, the point, the FORWARD, and how far it goes; and the functions give it.
pub fn each_call_has_one_result()
    ensures fill { EachViewHasOneFill }
    ensures point { EachViewHasOnePoint }
    ensures forward { EachPlanHasOneForward }
    ensures given { ForwardIsGiven }
    ensures upto { ForwardEndIsGiven }
{}

/// A sender is reported drained just if nothing waits, nothing is in part, and all that has an index is acknowledged (RFC 9260, 9.2).
pub fn drained_is_told()
    ensures { DrainedIsTold }
{}

/// If both endpoints agreed on partial reliability, no fragment of a message with a limit is retransmitted more often than it says (RFC 7496, 3.1).
pub fn none_goes_too_often()
    ensures { NoneGoesTooOften }
{}
