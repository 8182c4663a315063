//! A list of parameters or causes with a limit on its size.

ghost use Rattle.std.specs.Prelude.{◌≡◌, ◌≤◌, ◌+◌, nat_le, OnOk};
ghost use Rattle.sctp_model.specs.wire.Chunk.{padded};
ghost use Rattle.sctp_model.specs.end.Reports.{item};
ghost use Rattle.sctp_opening.specs.inner.Fitting.{IsList, appended_within};

use sctp_wire::{NoMemory, padded, put_parameter};

/// Appends a parameter or a cause if the list then has at most `most` bytes.
pub(crate) fn put_within(
    kind: u16,
    value: &[u8],
    most: usize,
    list: &mut Vec<u8>,
) -> Result<(), NoMemory>
    requires { most ≤ 1500 }
    ensures bytes { OnOk result (list.new.items ≡ appended_within most list.old.items (item kind value.now)) }
    ensures list { IsList list.old.items → OnOk result (IsList list.new.items) }
{
    if !has_room(list.len(), value.len(), most) {
        return Ok(());
    }
    put_parameter(kind, value, list)
}

/// Whether a list of `used` bytes has at most `most` once an item with a value of `size` bytes follows: the padding before it, and four bytes of
/// header.
fn has_room(used: usize, size: usize, most: usize) -> bool
    requires { most ≤ 1500 }
    ensures { result ≡ nat_le (padded used + 4 + size) most }
{
    used <= most && size <= most && padded(used) + 4 + size <= most
}
