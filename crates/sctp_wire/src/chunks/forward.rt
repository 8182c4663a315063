//! What FORWARD-TSN and I-FORWARD-TSN have in common: the new cumulative TSN, and entries (RFC 3758, 3.2; RFC 8260, 2.3.1).

ghost use Rattle.std.specs.Prelude.{◌≡◌, ◌↔◌, ◌+◌, ◌*◌, ◌≤◌, true, ◌++◌, IsTrue, length, vec_len, vec_capacity};
ghost use Rattle.std.specs.List.{AllByRecursion};
ghost use Rattle.sctp_wire.specs.ChunkTree.{forward_meaning};
ghost use Rattle.sctp_wire.specs.Skips.{IsSkip, skip_size};
ghost use Rattle.sctp_wire.specs.chunks.Forward.{forward_value, is_forward_value, forward_at, FitsForward};

use crate::codes::LONGEST;
use crate::numbers::{append_u32, read_u32};
use crate::skips::{SkipForm, Skips, append_skips, are_in_range};

/// A FORWARD-TSN or I-FORWARD-TSN: which TSNs and messages the sender skips, since it has abandoned them.
#[derive(Drop)]
pub struct Forward<'a> {
    /// The new cumulative TSN: the receiver counts all TSNs up to it as received.
    pub cumulative: u32,
    /// For each stream, and kind of message, the largest number skipped.
    pub skips: Skips<'a>,
}

/// Whether there is a cumulative TSN, and whole entries after it.
pub(crate) fn is_forward(form: SkipForm, value: &[u8]) -> bool
    ensures { result ≡ is_forward_value form value.now }
{
    value.len() >= 4 && (value.len() - 4) % form.size() == 0
}

/// Whether the length fits 16 bits, the entries are within their bits and the reserved bits zero.
pub(crate) fn forward_fits(form: SkipForm, forward: &Forward<'_>) -> bool
    ensures { IsTrue result ↔ (FitsForward form (forward_meaning forward.now) × (forward.now.skips.plain ≡ true)) }
{
    let _cumulative = forward.cumulative;
    let few = forward.skips.len() <= (LONGEST - 8) / form.size();
    few && forward.skips.is_plain() && are_in_range(form, &forward.skips)
}

/// The value of FORWARD-TSN and of I-FORWARD-TSN (RFC 3758, 3.2; RFC 8260, 2.3.1).
///
/// | at | size | field |
/// |---|---|---|
/// | 0 | 4 | new cumulative TSN |
/// | 4 | 4 or 8 each | entries: see `SkipForm` |
#[tactic(auto, unfolding(crate::specs::chunks::Forward::forward_at))]
pub(crate) fn read_forward(form: SkipForm, value: &[u8]) -> Forward<'_>
    requires { is_forward_value form value.now ≡ true }
    ensures { forward_meaning result ≡ forward_at form value.now }
{
    Forward {
        cumulative: read_u32(value),
        skips: Skips::new(form, &value[4..]),
    }
}

/// Appends the value, its reserved bits zero.
pub(crate) fn append_forward(form: SkipForm, out: &mut Vec<u8>, forward: &Forward<'_>)
    requires in_range { AllByRecursion (IsSkip form) forward.now.skips.skips }
    requires spare { vec_len out.old + 4 + skip_size form * length forward.now.skips.skips ≤ vec_capacity out.old }
    ensures items { out.new.items ≡ out.old.items ++ forward_value form (forward_meaning forward.now) }
    ensures len { vec_len out.new ≡ vec_len out.old + 4 + skip_size form * length forward.now.skips.skips }
    ensures room { vec_capacity out.old ≤ vec_capacity out.new }
{
    append_u32(out, forward.cumulative);
    append_skips(form, out, &forward.skips);
}
