//! Runs that show that the promises over every run aren't empty: each is computed from the definitions, event by event.

ghost use Rattle.sctp_outcomes.specs.Examples.{AMessageArrives, AMessageIsEnded, AMessageIsPassedOver};
ghost use Rattle.sctp_outcomes.specs.Script.{TheScriptRuns};

/// There is a run in which two endpoints open by packets, a message of the one is taken by the other's user as it was sent, and is acknowledged, and both
/// endpoints close, each completed (RFC 9260, 5.1, 6.2 and 9.2).
pub fn a_message_arrives()
    ensures { AMessageArrives }
{}

/// There is a run under DATA in which the packet of a message is lost, the message is abandoned, and a FORWARD-TSN passes it over: the next message is
/// delivered (RFC 3758, 3.5 and 3.6).
pub fn a_message_is_passed_over()
    ensures { AMessageIsPassedOver }
{}

/// There is a run under I-DATA in which a message is abandoned of whose two fragments one arrived: it takes one index more, for its end mark, and the
/// receiver lets the fragment go (RFC 8260, 2.3.1).
pub fn a_message_in_part_is_ended()
    ensures { AMessageIsEnded }
{}

/// A script of 30 events from first to last, in which each packet arrives twice, runs with just these outcomes, to the length of each packet: INIT ACK is
/// answered again, and its second copy dropped for the state; a COOKIE ECHO that arrives again is acknowledged again; a SACK notes the duplicate; and two
/// closed endpoints answer a SHUTDOWN ACK and drop a SHUTDOWN COMPLETE (RFC 9260, 5.1, 5.2.4, 6.2, 8.4 and 9.2).
pub fn the_script_runs()
    ensures { TheScriptRuns }
{}
