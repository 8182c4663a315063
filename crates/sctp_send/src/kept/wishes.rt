//! Wishes: what is to go out next, among what has an index (RFC 9260, 6.1 and 6.3.3).

ghost use Rattle.std.specs.Prelude.{◌≡◌, ℕ, ◌<◌, ◌≤◌};
ghost use Rattle.sctp_model.specs.end.Control.{whole};
ghost use Rattle.sctp_send.specs.OutstandingFields.{item_meaning};
ghost use Rattle.sctp_send.specs.inner.Wishing.{is_item_marked, is_item_unsent, item_weight};
ghost use Rattle.sctp_send.specs.inner.Marking.{IsCapped, is_spent};
ghost use Rattle.sctp_send.specs.inner.Stretching.{entry_bytes};
ghost use Rattle.sctp_send.specs.inner.Walks.{is_item_unsettled};

use crate::kept::entry::{Entry, Standing};
use crate::kept::pieces::bytes_of;
use sctp_wire::padded;

/// An entry waits to be repeated.
pub(crate) fn is_repeat(entry: &Entry) -> bool
    ensures { (size : ℕ) → result ≡ is_item_marked (item_meaning size entry.now) }
{
    entry.standing == Standing::Marked
}

/// An entry never went out, and the peer may need it.
pub(crate) fn is_first_sending(entry: &Entry) -> bool
    ensures { (size : ℕ) → result ≡ is_item_unsent (item_meaning size entry.now) }
{
    entry.standing == Standing::Unsent && !entry.covered && !entry.abandoned
}

/// The bytes of data of an entry.
#[inline(always)]
pub(crate) fn bytes_in(entry: &Entry, size: u16) -> u32
    requires { 0 < size }
    ensures bytes { result ≡ entry_bytes size entry.now }
    ensures short { result ≤ 65535 }
{
    bytes_of(&entry.message, entry.content, size).len() as u32
}

/// The same, where it is in flight.
#[inline(always)]
pub(crate) fn weight(entry: &Entry, size: u16) -> u32
    requires { 0 < size }
    ensures bytes { result ≡ item_weight (item_meaning size entry.now) }
    ensures short { result ≤ 65535 }
{
    if entry.standing == Standing::Sent && !entry.covered && !entry.abandoned {
        bytes_in(entry, size)
    } else {
        0
    }
}

/// The bytes of a chunk with so many before its data and so many of data, padded; 0 without data (RFC 9260, 7.2).
#[inline(always)]
pub(crate) fn whole(header: u16, bytes: u32) -> u32
    requires { bytes ≤ 65535 }
    ensures bytes { result ≡ whole header bytes }
    ensures short { result ≤ 131072 }
{
    if bytes == 0 {
        return 0;
    }
    padded(usize::from(header) + bytes as usize) as u32
}

/// An entry went out, and is neither covered nor abandoned.
pub(crate) fn is_unsettled(entry: &Entry) -> bool
    ensures { (size : ℕ) → result ≡ is_item_unsettled (item_meaning size entry.now) }
{
    entry.standing != Standing::Unsent && !entry.covered && !entry.abandoned
}

/// The entry was retransmitted as often as its message's limit allows. Only if messages may be abandoned does a limit count.
pub(crate) fn is_spent(entry: &Entry, partial: bool) -> bool
    ensures { (r : ℕ) → IsCapped r entry.now → result ≡ is_spent partial r entry.now }
{
    if !partial {
        return false;
    }
    match entry.message.limit {
        Some(limit) => limit <= entry.repeats,
        None => false,
    }
}
