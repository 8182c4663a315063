//! FORWARD-TSN: skips TSNs of abandoned messages in DATA (RFC 3758, 3.2).
//!
//! | at | size | field |
//! |---|---|---|
//! | 0 | 4 | new cumulative TSN |
//! | 4 | 4 each | entries: stream 2, stream sequence number 2 |

ghost use Rattle.std.specs.Prelude.{◌≡◌, ◌↔◌, true, IsTrue};
ghost use Rattle.sctp_wire.specs.ChunkTree.{forward_meaning};
ghost use Rattle.sctp_wire.specs.chunks.Forward.{FitsForward};
ghost use Rattle.sctp_wire.specs.chunks.ForwardTsn.{forward_tsn_at, is_forward_tsn_value};

use crate::chunks::forward::{Forward, forward_fits, is_forward, read_forward};
use crate::skips::SkipForm;

/// Whether the length fits 16 bits, and the entries are within their bits, none of unordered messages.
pub(crate) fn forward_tsn_fits(point: &Forward<'_>) -> bool
    ensures { IsTrue result ↔ (FitsForward SkipForm.Narrow (forward_meaning point.now) × (point.now.skips.plain ≡ true)) }
{
    forward_fits(SkipForm::Narrow, point)
}

/// Whether a value is a TSN and whole entries.
pub(crate) fn is_forward_tsn(value: &[u8]) -> bool
    ensures { result ≡ is_forward_tsn_value value.now }
{
    is_forward(SkipForm::Narrow, value)
}

/// The FORWARD-TSN of a value.
pub(crate) fn read_forward_tsn(value: &[u8]) -> Forward<'_>
    requires { is_forward_tsn_value value.now ≡ true }
    ensures { forward_meaning result ≡ forward_tsn_at value.now }
{
    read_forward(SkipForm::Narrow, value)
}
