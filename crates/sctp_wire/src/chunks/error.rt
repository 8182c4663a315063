//! ERROR: reports errors of the peer (RFC 9260, 3.3.10).
//!
//! | at | size | field |
//! |---|---|---|
//! | 0 | any | causes |

ghost use Rattle.std.specs.Prelude.{◌≡◌, ◌↔◌, IsTrue};
ghost use Rattle.sctp_model.specs.wire.Chunk as meaning;
ghost use Rattle.sctp_wire.specs.Layouts.{Fits};
ghost use Rattle.sctp_wire.specs.chunks.Error.{has_error_list};

use crate::codes::LONGEST_VALUE;
use crate::typed::{Causes, is_typed_list};

/// Whether the length fits 16 bits, and the causes are the bytes that are written for them.
pub(crate) fn error_fits(causes: &Causes<'_>) -> bool
    ensures { IsTrue result ↔ Fits (meaning.Error causes.now) }
{
    causes.size() <= LONGEST_VALUE && causes.is_plain()
}

/// Whether a value is a list of causes.
pub(crate) fn is_error_list(value: &[u8]) -> bool
    ensures { result ≡ has_error_list value.now }
{
    is_typed_list(value)
}
