//! What the two endpoints really build and take are things that the moves allow.

ghost use Rattle.sctp_safety.specs.Exact.{ForwardIsAllowed, ForwardIsMoves, PassingIsMoves, SackIsAllowed, ShutdownIsAllowed, TakingIsMoves};
ghost use Rattle.sctp_safety.specs.ReceiverLaws.{ForwardTakenIsMoves, PieceTakenIsMoves, SackMadeIsMoves, TakeIsMoves};
ghost use Rattle.sctp_safety.specs.SenderLaws.{AbandonIsMoves, ExpireIsMoves, FillIsMoves, QueueIsMoves, SackIsMoves, ShutdownIsMoves, MarkingIsMoves};

/// A FORWARD up to any index from CUM to the point, with the largest number of each stream and kind there, may be built (RFC 3758, 3.5).
pub fn forward_is_allowed()
    ensures { ForwardIsAllowed }
{}

/// A SACK of the cumulative index and any of the runs above it may be built (RFC 9260, 6.2).
pub fn sack_is_allowed()
    ensures { SackIsAllowed }
{}

/// A SHUTDOWN of the cumulative index may be built (RFC 9260, 9.2).
pub fn shutdown_is_allowed()
    ensures { ShutdownIsAllowed }
{}

/// A chunk that is passed, or of a stream that isn't there, is recorded by moves.
pub fn passing_is_moves()
    ensures { PassingIsMoves }
{}

/// A chunk that is taken, with what is then due, is a list of moves.
pub fn taking_is_moves()
    ensures { TakingIsMoves }
{}

/// A FORWARD that counts, with what is then due, is a list of moves.
pub fn forward_is_moves()
    ensures { ForwardIsMoves }
{}

/// What a packet is filled with goes out by moves, under both formats: each fragment takes its number and its index, and its chunk is put between the
/// endpoints (RFC 9260, 6.1 and 6.9; RFC 8260, 2.2).
pub fn fill_is_moves()
    ensures { FillIsMoves }
{}

/// A message that `send` accepts is one move, and no ticket is given twice.
pub fn queue_is_moves()
    ensures { QueueIsMoves }
{}

/// Abandoning by ticket is moves: the message is withdrawn, or given up with its end mark if it is in part (RFC 3758, 3.5; RFC 8260, 2.3.1).
pub fn abandon_is_moves()
    ensures { AbandonIsMoves }
{}

/// What is past its time is given up by moves, at a time that the clock has reached.
pub fn expire_is_moves()
    ensures { ExpireIsMoves }
{}

/// Only fragments are marked for retransmission, and marking them is a move, when the data timer expires and when they were missed (RFC 9260, 6.3.3 and 7.2.4).
pub fn marking_is_moves()
    ensures { MarkingIsMoves }
{}

/// A SACK that lies between the endpoints, and is taken, is moves, as long as its index lies less than half the space from CUM (RFC 9260, 6.2.1).
pub fn sack_is_moves()
    ensures { SackIsMoves }
{}

/// And so is the cumulative TSN of a SHUTDOWN (RFC 9260, 9.2).
pub fn shutdown_is_moves()
    ensures { ShutdownIsMoves }
{}

/// A data chunk that lies between the endpoints is taken by moves, whatever is answered to it, and nothing is due afterwards: its TSN and its SSN or MID
/// are read as they were written, as long as the indexes past CUM lie within the window, and this one and its MID within half their space of what the
/// receiver waits for (RFC 9260, 6.2 and 6.6; RFC 8260, 2.2).
pub fn piece_taken_is_moves()
    ensures { PieceTakenIsMoves }
{}

/// And so is a FORWARD, with each number that it lists (RFC 3758, 3.6; RFC 8260, 2.3).
pub fn forward_taken_is_moves()
    ensures { ForwardTakenIsMoves }
{}

/// The SACK that a receiver makes may be put between the endpoints (RFC 9260, 6.2).
pub fn sack_made_is_moves()
    ensures { SackMadeIsMoves }
{}

/// A message that the user takes is a move.
pub fn take_is_moves()
    ensures { TakeIsMoves }
{}
