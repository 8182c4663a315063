//! A receiver's steps, computed by functions of `specs/receiver`: they are the steps that the definitions say, and the only ones.
//!
//! No function here does anything: each carries a law as its contract.

ghost use Rattle.sctp_outcomes.specs.receiver.StepLaws.{CumulativeIsComputed, DueIsComputed, DueIsOne, ForwardsAreTaken, ForwardsAreTakenSo};
ghost use Rattle.sctp_outcomes.specs.receiver.StepLaws.{NumberIsComputed, NumberIsOne, PiecesAreTaken, PiecesAreTakenSo, RunsAreComputed, SackIsOne};
ghost use Rattle.sctp_outcomes.specs.receiver.StepLaws.{WholesAreAll, WithIsComputed, WithIsOne};

/// The whole messages among kept chunks are the lists that are computed; so is that of a lane (a stream's ordered or unordered messages) and number, of
/// several the lowest, and that of a chunk, or that there is none (RFC 9260, 6.9; RFC 8260, 2.2).
pub fn wholes_are_computed()
    ensures all { WholesAreAll }
    ensures number { NumberIsComputed }
    ensures only_number { NumberIsOne }
    ensures chunk { WithIsComputed }
    ensures only_chunk { WithIsOne }
{}

/// What is due on a stream is computed (RFC 9260, 6.6; RFC 3758, 3.6; RFC 8260, 2.2).
pub fn what_is_due_is_computed()
    ensures is { DueIsComputed }
    ensures only { DueIsOne }
{}

/// The cumulative index is computed (RFC 9260, 6.2; RFC 3758, 3.6).
pub fn the_cumulative_index_is_computed()
    ensures { CumulativeIsComputed }
{}

/// From every view each chunk has an answer and a view after it, those that are computed (RFC 9260, 6.2 and 6.6).
pub fn pieces_are_computed()
    ensures taken { PiecesAreTaken }
    ensures only { PiecesAreTakenSo }
{}

/// From every view each FORWARD has an answer and a view after it, those that are computed (RFC 3758, 3.6; RFC 8260, 2.3).
pub fn forwards_are_computed()
    ensures taken { ForwardsAreTaken }
    ensures only { ForwardsAreTakenSo }
{}

/// The blocks of a SACK are computed, and a view has one SACK (RFC 9260, 3.3.4).
pub fn runs_are_computed()
    ensures computed { RunsAreComputed }
    ensures one { SackIsOne }
{}
