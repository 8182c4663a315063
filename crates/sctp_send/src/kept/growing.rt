//! How much memory for entries is allocated at once.

ghost use Rattle.std.specs.Prelude.{◌≤◌};

use sctp_values::{QUEUE_LIMIT, WINDOW};

/// Entries of a full window, and for each message that may wait one of its fragment and one of its end mark.
const FULL: usize = WINDOW as usize + 2 * QUEUE_LIMIT;

/// For how many further entries memory is allocated, if it is wanted for so many: for twice as many as there was, but up to a full window for no more than
/// that.
pub(crate) fn grown(room: usize, entries: usize, more: usize) -> usize
    ensures { more ≤ result }
{
    let doubled = room.saturating_mul(2);
    let wanted = if entries.saturating_add(more) <= FULL {
        doubled.min(FULL)
    } else {
        doubled
    };
    more.max(wanted.saturating_sub(entries))
}
