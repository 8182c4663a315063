//! I-FORWARD-TSN: skips TSNs of abandoned messages in I-DATA (RFC 8260, 2.3.1).
//!
//! | at | size | field |
//! |---|---|---|
//! | 0 | 4 | new cumulative TSN |
//! | 4 | 8 each | entries: stream 2, reserved 15 bits and U 1 bit, message identifier 4 |

ghost use Rattle.std.specs.Prelude.{◌≡◌, ◌↔◌, true, IsTrue};
ghost use Rattle.sctp_wire.specs.ChunkTree.{forward_meaning};
ghost use Rattle.sctp_wire.specs.chunks.Forward.{FitsForward};
ghost use Rattle.sctp_wire.specs.chunks.IForwardTsn.{i_forward_tsn_at, is_i_forward_tsn_value};

use crate::chunks::forward::{Forward, forward_fits, is_forward, read_forward};
use crate::skips::SkipForm;

/// Whether the length fits 16 bits, and the entries are within their bits and the reserved ones zero.
pub(crate) fn i_forward_tsn_fits(point: &Forward<'_>) -> bool
    ensures { IsTrue result ↔ (FitsForward SkipForm.Wide (forward_meaning point.now) × (point.now.skips.plain ≡ true)) }
{
    forward_fits(SkipForm::Wide, point)
}

/// Whether a value is a TSN and whole entries.
pub(crate) fn is_i_forward_tsn(value: &[u8]) -> bool
    ensures { result ≡ is_i_forward_tsn_value value.now }
{
    is_forward(SkipForm::Wide, value)
}

/// The I-FORWARD-TSN of a value.
pub(crate) fn read_i_forward_tsn(value: &[u8]) -> Forward<'_>
    requires { is_i_forward_tsn_value value.now ≡ true }
    ensures { forward_meaning result ≡ i_forward_tsn_at value.now }
{
    read_forward(SkipForm::Wide, value)
}
