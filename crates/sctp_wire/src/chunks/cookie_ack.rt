//! COOKIE ACK: the answer to COOKIE ECHO (RFC 9260, 3.3.12). It has no value.

ghost use Rattle.std.specs.Prelude.{◌≡◌};
ghost use Rattle.sctp_wire.specs.chunks.CookieAck.{is_cookie_ack_value};

/// Whether this is the value of a COOKIE ACK: it is empty.
pub(crate) fn is_cookie_ack(value: &[u8]) -> bool
    ensures { result ≡ is_cookie_ack_value value.now }
{
    value.is_empty()
}
