//! A receiver's view at rest: every call leaves it, within the buffer, and from it the short forms of the definitions are the full ones.

ghost use Rattle.sctp_safety.specs.RestLaws.{FilterIsWords, ForwardFits, ForwardLeavesRest, NewFits, NewIsAtRest, NothingMoreIsDue, PieceFits};
ghost use Rattle.sctp_safety.specs.RestLaws.{PieceLeavesRest, SentFits, SentLeavesRest, TakeFits, TakeLeavesRest};

/// Whatever arrives, and whatever its user does, a receiver's view is at rest after each call: no place is filled twice, nothing is to be delivered, and no
/// chunk is kept that was passed over (RFC 9260, 6.6 and 6.9; RFC 3758, 3.6; RFC 8260, 2.2).
pub fn every_call_leaves_rest()
    ensures begins { NewIsAtRest }
    ensures piece { PieceLeavesRest }
    ensures forward { ForwardLeavesRest }
    ensures take { TakeLeavesRest }
    ensures sent { SentLeavesRest }
{}

/// What a receiver holds never passes its buffer, whatever arrives and whatever its user does (RFC 9260, 6.2).
pub fn no_call_passes_the_buffer()
    ensures begins { NewFits }
    ensures piece { PieceFits }
    ensures forward { ForwardFits }
    ensures take { TakeFits }
    ensures sent { SentFits }
{}

/// So after a chunk nothing more is due on any stream, whatever was answered.
pub fn nothing_more_is_due()
    ensures { NothingMoreIsDue }
{}

/// And what a FORWARD lets go is just what isn't whole of what it passes.
pub fn nothing_whole_is_let_go()
    ensures { FilterIsWords }
{}
