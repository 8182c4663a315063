//! Which chunks may be bundled, and which must be first in a packet (RFC 9260, 5.1 and 6.10).

ghost use Rattle.std.specs.Prelude.{◌≡◌};
ghost use Rattle.sctp_wire.specs.inner.Standing.{is_alone, is_misplaced, found_with};

use crate::codes::{COOKIE_ECHO, INIT, INIT_ACK, SHUTDOWN_COMPLETE};

/// The offset of the first misplaced chunk, after one more chunk was looked at: of this type, with `before` bytes of the packet's chunks
/// before it and `behind` bytes after it. `found` is that of the chunks before.
pub(crate) fn found_by(
    found: Option<usize>,
    kind: u8,
    before: usize,
    behind: usize,
) -> Option<usize>
    ensures { result ≡ found_with found kind before behind }
{
    match found {
        Some(offset) => Some(offset),
        None if is_misplaced(kind, before, behind) => Some(before),
        None => None,
    }
}

/// Whether a chunk of this type is misplaced: one that must be alone in a packet and isn't, or one that must be first and isn't.
fn is_misplaced(kind: u8, before: usize, behind: usize) -> bool
    ensures { result ≡ is_misplaced kind before behind }
{
    stands_alone(kind) && (before > 0 || behind > 0) || kind == COOKIE_ECHO && before > 0
}

/// Whether a chunk of this type must be alone in its packet.
fn stands_alone(kind: u8) -> bool
    ensures { result ≡ is_alone kind }
{
    matches!(kind, INIT | INIT_ACK | SHUTDOWN_COMPLETE)
}
