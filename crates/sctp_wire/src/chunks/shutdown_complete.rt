//! SHUTDOWN COMPLETE: the answer to SHUTDOWN ACK, with the flag T as ABORT has it (RFC 9260, 3.3.13). It has no value.

ghost use Rattle.std.specs.Prelude.{◌≡◌};
ghost use Rattle.sctp_wire.specs.chunks.ShutdownComplete.{is_shutdown_complete_value};

/// Whether this is the value of a SHUTDOWN COMPLETE: it is empty.
pub(crate) fn is_shutdown_complete(value: &[u8]) -> bool
    ensures { result ≡ is_shutdown_complete_value value.now }
{
    value.is_empty()
}
