//! A chunk of a type that has no case of its own (RFC 9260, 3.2).
//!
//! | at | size | field |
//! |---|---|---|
//! | 0 | any | value, which isn't looked into |

ghost use Rattle.std.specs.Prelude.{◌≡◌, ◌↔◌, IsTrue};
ghost use Rattle.sctp_model.specs.wire.Chunk as meaning;
ghost use Rattle.sctp_wire.specs.Layouts.{Fits};
ghost use Rattle.sctp_wire.specs.chunks.Other.{is_known};

use crate::codes::{
    COOKIE_ACK, FORWARD_TSN, I_DATA, I_FORWARD_TSN, LONGEST_VALUE, SHUTDOWN_COMPLETE,
};

/// Whether a type has no case of its own, and the length fits 16 bits.
pub(crate) fn other_fits(kind: u8, flags: u8, value: &[u8]) -> bool
    ensures { IsTrue result ↔ Fits (meaning.Unknown kind flags value.now) }
{
    !is_known(kind) && value.len() <= LONGEST_VALUE
}

/// Whether a type has a case of its own.
fn is_known(kind: u8) -> bool
    ensures { result ≡ is_known kind }
{
    kind <= COOKIE_ACK
        || kind == SHUTDOWN_COMPLETE
        || kind == I_DATA
        || kind == FORWARD_TSN
        || kind == I_FORWARD_TSN
}
