//! Which counts are numbers of messages.

ghost use Rattle.std.specs.Prelude.{◌≡◌};
ghost use Rattle.sctp_model.specs.messages.Framing.{as_number};

/// The count as the number of a message; 2^64 - 1 isn't one.
pub(crate) fn as_number(count: Option<u64>) -> Option<u64>
    ensures { result ≡ as_number count }
{
    match count {
        Some(number) if number < u64::MAX => Some(number),
        _ => None,
    }
}
