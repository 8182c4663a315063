//! What a sender reports of a message by its ticket, and what a call that abandons it leaves.

ghost use Rattle.sctp_safety.specs.Abandoned.{AbandonIsTaken, NoneIsLeftToExpire};
ghost use Rattle.sctp_safety.specs.Told.{AbandonedIsTold, AcknowledgedIsTold, AnswerIsTold};

/// A sender that its calls reach reports a message acknowledged exactly if all its fragments have indexes, each acknowledged by the last SACK taken, and it
/// wasn't abandoned; and abandoned exactly if it was, also once the cumulative index has passed it; and so it answers a call that abandons (RFC 9260,
/// 6.2.1; RFC 3758, 3.5).
pub fn a_message_is_told_by_its_ticket()
    ensures acknowledged { AcknowledgedIsTold }
    ensures abandoned { AbandonedIsTold }
    ensures answer { AnswerIsTold }
{}

/// A call that abandons withdraws a message without a number, gives up one with a number that neither was given up nor is acknowledged, as far as that is
/// allowed, and changes nothing else; a message in part takes one index more, for its end mark (RFC 3758, 3.5; RFC 8260, 2.3.1).
pub fn a_message_is_abandoned_by_its_ticket()
    ensures { AbandonIsTaken }
{}

/// When what is past its time has expired, nothing is left to expire (RFC 3758, 3.5).
pub fn nothing_is_left_to_expire()
    ensures { NoneIsLeftToExpire }
{}
