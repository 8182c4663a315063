//! Whether the bytes of parameters or causes are those that are written for them (RFC 9260, 3.2.1).

ghost use Rattle.std.specs.Prelude.{◌≡◌, ◌↔◌, true, IsTrue, EachIndex, slice_index};
ghost use Rattle.sctp_model.specs.numbers.Numbers.{AreBytes};
ghost use Rattle.sctp_model.specs.wire.Typed.{starts_typed, are_typed, AreAsWritten};
ghost use Rattle.sctp_wire.specs.inner.FirstAsWritten.{IsFirstAsWritten};

use crate::numbers::padded;
use crate::typed::{length_field, split_first, starts_typed};

/// Whether the bytes of a list are those that are written for its items.
pub(crate) fn are_as_written(bytes: &[u8]) -> bool
    requires list { are_typed bytes.now ≡ true }
    requires bytes { AreBytes bytes.now }
    ensures { IsTrue result ↔ AreAsWritten bytes.now }
{
    let mut rest = bytes;
    while starts_typed(rest) {
        if !is_first_as_written(rest) {
            return false;
        }
        rest = split_first(rest).1;
    }
    true
}

/// Whether the first item ends the list without padding, or has zero padding and another item follows.
fn is_first_as_written(bytes: &[u8]) -> bool
    requires { starts_typed bytes.now ≡ true }
    ensures { IsTrue result ↔ IsFirstAsWritten bytes.now }
{
    let size = length_field(bytes);
    if size == bytes.len() {
        return true;
    }
    padded(size) < bytes.len() && are_zeros(&bytes[size..padded(size)])
}

/// Whether all bytes are zero.
fn are_zeros(bytes: &[u8]) -> bool
    ensures { IsTrue result ↔ EachIndex bytes.now (λ k. slice_index bytes.now k ≡ 0) }
{
    bytes.iter().all(|byte| *byte == 0)
}
