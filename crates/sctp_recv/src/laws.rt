//! Laws of the receiver's steps, as contracts of functions that do nothing: each step has one result, and what is due is what the definition in
//! words says; and of the views that receivers represent. The first seven speak of the definitions alone (the proofs of six are in
//! `sctp_model/proofs/receiver`); the last two say of `StandsFor`, which crates above don't unfold, what they need of it.

ghost use Rattle.sctp_recv.specs.Laws.{CumulativeIsOne, PieceIsOne, ForwardIsOne, DueIsInWords, WordsAreOne, NothingIsGiven, ResetsStay, StandForOrdinary, StandForBounded};

use sctp_framing::Framing;

/// A view has one cumulative index.
pub fn cumulative_is_one()
    ensures { CumulativeIsOne }
{}

/// A chunk that is handled has one answer and leaves one view, if no two of the chunks kept have one place and their indexes are recorded.
pub fn piece_is_one()
    ensures { PieceIsOne }
{}

/// A FORWARD that is handled has one answer and leaves one view, if no two of the chunks kept have one place.
pub fn forward_is_one()
    ensures { ForwardIsOne }
{}

/// Which messages are due on a stream: the smallest number, from the next one on, that isn't skipped and isn't complete is waited
/// for, and the complete messages below it are delivered in rising number (RFC 9260, 6.6; RFC 3758, 3.6).
pub fn due_is_in_words()
    ensures { DueIsInWords }
{}

/// That definition holds of one list of messages and one number to wait for.
pub fn words_are_one()
    ensures { WordsAreOne }
{}

/// If nothing is due, and no ordered chunk is kept below the next number, delivering what is due on any number of streams changes
/// nothing.
pub fn nothing_is_given()
    ensures { NothingIsGiven }
{}

/// A chunk with data, a FORWARD, and a message that the user takes leave what a view knows of resets as it was.
pub fn resets_stay()
    ensures { ResetsStay }
{}

/// A receiver represents a view only if each place is filled once, by a chunk whose index was recorded.
pub fn stands_for_ordinary<F: Framing>()
    ensures { StandForOrdinary F F.format }
{}

/// A receiver represents a view only if each recorded index is a count below the largest.
pub fn stands_for_bounded<F: Framing>()
    ensures { StandForBounded F F.format }
{}
