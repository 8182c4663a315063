//! ABORT: the association is aborted (RFC 9260, 3.3.7).
//!
//! | at | size | field |
//! |---|---|---|
//! | 0 | any | causes |

ghost use Rattle.std.specs.Prelude.{◌≡◌, ◌↔◌, IsTrue};
ghost use Rattle.sctp_model.specs.wire.Chunk as meaning;
ghost use Rattle.sctp_wire.specs.Layouts.{Fits};
ghost use Rattle.sctp_wire.specs.chunks.Abort.{has_abort_list};
ghost use Rattle.sctp_wire.specs.chunks.Flags.{flag};

use crate::chunks::flags::flag;
use crate::codes::{LONGEST_VALUE, REFLECTED};
use crate::typed::{Causes, is_typed_list};

/// Whether the length fits 16 bits, and the causes are the bytes that are written for them.
pub(crate) fn abort_fits(reflected: bool, causes: &Causes<'_>) -> bool
    ensures { IsTrue result ↔ Fits (meaning.Abort reflected causes.now) }
{
    causes.size() <= LONGEST_VALUE && causes.is_plain()
}

/// The flags: T, and the unused ones zero.
pub(crate) fn reflected_flag(reflected: bool) -> u8
    ensures { result ≡ flag REFLECTED reflected }
{
    flag(REFLECTED, reflected)
}

/// Whether a value is a list of causes.
pub(crate) fn is_abort_list(value: &[u8]) -> bool
    ensures { result ≡ has_abort_list value.now }
{
    is_typed_list(value)
}
