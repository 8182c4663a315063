//! SHUTDOWN ACK: the answer to SHUTDOWN (RFC 9260, 3.3.9). It has no value.

ghost use Rattle.std.specs.Prelude.{◌≡◌};
ghost use Rattle.sctp_wire.specs.chunks.ShutdownAck.{is_shutdown_ack_value};

/// Whether this is the value of a SHUTDOWN ACK: it is empty.
pub(crate) fn is_shutdown_ack(value: &[u8]) -> bool
    ensures { result ≡ is_shutdown_ack_value value.now }
{
    value.is_empty()
}
