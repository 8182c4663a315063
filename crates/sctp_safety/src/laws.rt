//! What whole messages and skipped messages are, by the plan of an honest sender.

ghost use Rattle.sctp_model.specs.messages.Format.{Format};
ghost use Rattle.sctp_model.specs.messages.FormatLaws.{SkipLaw, WholeLaw};

/// Under both formats, chunks of a sender are a whole message exactly if they are, in order, all fragments of one message (RFC 9260, 6.9; RFC 8260, 2.2.3).
pub fn whole_law()
    ensures { (f : Format) → WholeLaw f }
{}

/// Under both formats, what a FORWARD makes go is of an abandoned message, or of a message that is whole (RFC 3758, 3.6; RFC 8260, 2.3.1).
pub fn skip_law()
    ensures { (f : Format) → SkipLaw f }
{}
