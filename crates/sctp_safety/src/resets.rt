//! What resets of streams keep apart.

ghost use Rattle.sctp_safety.specs.Parted.{RequestsPartMessages};

/// In every run that meets the premises, once a request for the reset of a stream waits for its answer, all that is delivered on the stream is messages
/// that are accepted after that: no message that was accepted before is delivered any more, whether it was delivered, abandoned or withdrawn (RFC 6525, 5.1
/// and 5.2).
pub fn requests_part_messages()
    ensures { RequestsPartMessages }
{}
