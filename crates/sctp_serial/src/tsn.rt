//! TSNs and their indexes, which count them without wrapping: the initial TSN of an association has index 1 (RFC 9260, 2.6 and 3.3.2).

ghost use Rattle.std.specs.Prelude.{◌≡◌, ◌+◌};
ghost use Rattle.sctp_model.specs.numbers.Serial.{tsn, ahead, as_count};

use crate::counts::Serial;
use crate::widths::S32;

/// The TSN of an index; `initial` is the TSN of index 1. Index 0 is that of the TSN before it.
pub fn tsn_of(initial: u32, index: u64) -> u32
    ensures { result ≡ tsn initial index }
{
    let steps = S32::of_count(index).0;
    initial.wrapping_add(steps).wrapping_sub(1)
}

/// The index of a TSN: as far ahead of the index `known` as the TSN `wire` is ahead of the TSN of `known`.
///
/// None if that index would be 2^64 or more. A TSN before that of the known index is taken as one far ahead of it: use
/// [`Serial::before`] first.
pub fn index_ahead(initial: u32, known: u64, wire: u32) -> Option<u64>
    ensures { result ≡ as_count (known + ahead 32 (tsn initial known) wire) }
{
    let ahead = S32(tsn_of(initial, known)).ahead(S32(wire));
    known.checked_add(u64::from(ahead))
}
