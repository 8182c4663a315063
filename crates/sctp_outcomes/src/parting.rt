//! What resets of streams keep apart, in an application's words.
//!
//! No function here does anything: it carries a law as its contract.

ghost use Rattle.sctp_outcomes.specs.AllReported.{AResetLiesBetween, ResetsAreAllReported, ResetsHavePlaces};
ghost use Rattle.sctp_outcomes.specs.Parted.{ResetsAreReportedOnce, ResetsPartMessages, TwoResetsAreReported};

// law
/// In every run that meets the three assumptions, the messages that an application took from a stream, and those that wait, are matched with messages that
/// its peer's user passed to `send`, and each reset of the stream that was reported to it parts them: what is delivered after the reset was accepted after
/// the peer's user had reset the stream; what was delivered before it was accepted before, if some of that waited, or if messages are taken with all resets
/// reported (RFC 6525, 5.1 and 5.2; RFC 8831, 6.7).
pub fn resets_part_messages()
    ensures { ResetsPartMessages }
{}

// law
/// In every run that meets the three assumptions, no more resets of a stream are reported to an application than its peer's user asked for: a request that
/// its peer sends again, or under another number since it was in progress, is reported once (RFC 6525, 5.2.1 and 5.2.7). And there is a run that meets the
/// assumptions in which a stream is reset twice, with nothing sent between, and both resets are reported.
pub fn resets_are_reported_once()
    ensures once { ResetsAreReportedOnce }
    ensures twice { TwoResetsAreReported }
{}

// law
/// And in every run that meets the three assumptions, in which an application asks for the resets of a stream before the next packet arrives, each is reported to it: of those that
/// its peer's user began all but one that is to be reported, and one that isn't done. If it takes messages, too, with all resets reported, then wherever a reset of its
/// peer's user lies between two messages that are delivered, one is reported, or is to be, whose place does (RFC 6525, 5.2.2; RFC 8831, 6.7). And there is a run that meets
/// all this in which a reset lies between two messages, and is reported.
pub fn resets_are_all_reported()
    ensures counts { ResetsAreAllReported }
    ensures places { ResetsHavePlaces }
    ensures between { AResetLiesBetween }
{}
