//! The theorem over every list of moves.

ghost use Rattle.sctp_safety.specs.Always.{OrderlyAlways, SafeAlways};
ghost use Rattle.sctp_safety.specs.Placed.{PlacedAlways};
ghost use Rattle.sctp_safety.specs.Unlimited.{SafeWithoutLimits};

/// Whatever is sent, lost, repeated, reordered, acknowledged and abandoned in one direction, in every world from a start: ordered messages are delivered in
/// rising number, unordered ones once, each whole and as it was sent; what was passed over was abandoned; what is acknowledged whole and not abandoned is
/// held whole or was delivered; and the plan is what was asked for.
pub fn safe_over_every_run()
    ensures { SafeAlways }
{}

/// In every such world the sender's plan is orderly (RFC 9260, 6.6 and 6.9; RFC 8260, 2.2).
pub fn orderly_over_every_run()
    ensures { OrderlyAlways }
{}

/// In every such world no accepted message is lost in the sender: it waits for its number, or it has one, or its user gave it up before it had one, by its
/// ticket or by its lifetime.
// law
pub fn each_message_is_placed()
    ensures { PlacedAlways }
{}

/// If no message has a limit of retransmissions, the promises are those of an endpoint without such limits: a message is abandoned only if its user named
/// it, or if its lifetime is over (RFC 3758, 3.5).
pub fn safe_without_limits()
    ensures { SafeWithoutLimits }
{}
