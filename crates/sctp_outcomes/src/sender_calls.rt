//! What a sender sends next, which messages it refuses, how it cuts one, and what it makes of a SACK and of a SHUTDOWN is what the relations say, and
//! nothing else.
//!
//! No function here does anything: each carries laws as its contract.

ghost use Rattle.sctp_outcomes.specs.sender.Cuts.{CutIsComputed};
ghost use Rattle.sctp_outcomes.specs.sender.Refusals.{AcceptedHasNoReason, RefusalIsTold};
ghost use Rattle.sctp_outcomes.specs.sender.SackLaws.{FaultyIsDropped, FaultyShutdownIsDropped, SackFaultIsTold, SackIsTaken, ShutdownFaultIsTold};
ghost use Rattle.sctp_outcomes.specs.sender.SackLaws.{ShutdownIsTaken, TakenHasNoFault};
ghost use Rattle.sctp_outcomes.specs.sender.WishLaws.{NextIndexIsComputed, NextWishIsComputed, TurnIsComputed};

/// The next wish of every view: the lowest index to be repeated, else the lowest that is to go, else what takes the next index (RFC 9260, 6.1 and 6.3.3;
/// RFC 8260, 2.2.2 and 3.2).
pub fn next_wishes_are_computed()
    ensures turn { TurnIsComputed }
    ensures index { NextIndexIsComputed }
    ensures wish { NextWishIsComputed }
{}

/// A SACK's first fault is reported, and one without a fault is taken (RFC 9260, 3.3.4 and 6.2.1).
pub fn sacks_are_taken()
    ensures faults { SackFaultIsTold }
    ensures dropped { FaultyIsDropped }
    ensures taken { SackIsTaken }
    ensures only { TakenHasNoFault }
{}

/// The same of the cumulative TSN of a SHUTDOWN (RFC 9260, 9.2).
pub fn shutdowns_are_taken()
    ensures faults { ShutdownFaultIsTold }
    ensures dropped { FaultyShutdownIsDropped }
    ensures taken { ShutdownIsTaken }
{}

/// A message is cut into fragments of the full size, but for the last one, in the one way that there is (RFC 9260, 6.9).
pub fn messages_are_cut()
    ensures { CutIsComputed }
{}

/// A message is refused for the first of five reasons that holds, in the order in which `queue` looks at them, and else accepted: the TSNs that it
/// would take are those of the fragments that it is cut into, and one for an end mark (RFC 9260, 6.9).
pub fn refusals_are_told()
    ensures told { RefusalIsTold }
    ensures accepted { AcceptedHasNoReason }
{}
