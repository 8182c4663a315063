//! Single entries by their offsets: the first one in flight, and whether one needs no retransmission timer any more (RFC 9260, 6.3.1 and 7.2.4).

ghost use Rattle.std.specs.Prelude.{◌≡◌, ℕ, ◌<◌, map, length};
ghost use Rattle.sctp_send.specs.OutstandingFields.{item_meaning};
ghost use Rattle.sctp_send.specs.inner.Weighing.{is_item_flying, is_item_done, passes_here, flies_and_passes, FirstAnswer};

use crate::index_test::IndexTest;
use crate::kept::entry::{Entry, Standing};
use crate::kept::outstanding::Outstanding;
use crate::kept::wishes::is_repeat;
use crate::sack::marking::index_at;

/// The first offset in flight from one on, below another, whose index passes.
pub(crate) fn first_flying<T: IndexTest>(
    outstanding: &Outstanding,
    cum: u64,
    from: usize,
    to: usize,
    test: &T,
) -> Option<usize>
    ensures { (size : ℕ) → FirstAnswer (flies_and_passes (T.Says test.now) cum (map (item_meaning size) outstanding.now.items)) from to result }
{
    for at in from..to.min(outstanding.len()) {
        if is_lost(outstanding, cum, at, test) {
            return Some(at);
        }
    }
    None
}

/// The entry at an offset is in flight, and its index passes.
fn is_lost<T: IndexTest>(outstanding: &Outstanding, cum: u64, at: usize, test: &T) -> bool
    requires { at < length outstanding.now.items }
    ensures { (size : ℕ) → result ≡ flies_and_passes (T.Says test.now) cum (map (item_meaning size) outstanding.now.items) at }
{
    if !is_flying(outstanding.get(at)) {
        return false;
    }
    test.passes(index_at(cum, at))
}

/// The entry at an offset, if there is one, is marked for retransmission or acknowledged by a gap block.
pub(crate) fn is_done(outstanding: &Outstanding, at: usize) -> bool
    ensures { (size : ℕ) → result ≡ passes_here is_item_done (map (item_meaning size) outstanding.now.items) at }
{
    if at >= outstanding.len() {
        return false;
    }
    let entry = outstanding.get(at);
    is_repeat(entry) || entry.covered
}

/// An entry was sent, and is neither acknowledged nor abandoned nor marked for retransmission.
fn is_flying(entry: &Entry) -> bool
    ensures { (size : ℕ) → result ≡ is_item_flying (item_meaning size entry.now) }
{
    entry.standing == Standing::Sent && !entry.covered && !entry.abandoned
}
