//! Whether nothing of a stream waits, is in part, or is outstanding: then its reset may be requested (RFC 6525, 5.1.2).

ghost use Rattle.std.specs.Prelude.{◌≡◌, ℕ, true, map, filter, take, IfOk, OnOk};
ghost use Rattle.std.specs.List.{list_any, AllByRecursion};
ghost use Rattle.sctp_model.specs.numbers.Limits.{RESETS_AT_ONCE};
ghost use Rattle.sctp_model.specs.sender.Assigning.{is_on};
ghost use Rattle.sctp_send.specs.OutstandingFields.{item_meaning};
ghost use Rattle.sctp_send.specs.SenderFields.{queued_by};
ghost use Rattle.sctp_send.specs.inner.Resetting.{is_item_on, is_still_in, is_low, named_with};

use crate::kept::looking::goes_on_at;
use crate::kept::outstanding::Outstanding;
use crate::kept::queue::Queue;
use crate::stock::Stock;
use sctp_values::NoMemory;
use std::alloc::Global;

/// The most streams that one request names.
const AT_ONCE: usize = 256;

/// The offset above CUM of the index noted for a stream, at which a look for its entries begins; behind all of them, if there is no such index.
fn offset_noted(hints: &[u64], cum: u64, stream: u16) -> usize {
    match hints.get(usize::from(stream)) {
        Some(index) => index.wrapping_sub(cum).wrapping_sub(1) as usize,
        None => usize::MAX,
    }
}

/// Whether one of these streams is still.
pub(crate) fn any_still(stock: &Stock, cum: u64, hints: &[u64], streams: &[u16]) -> bool
    ensures { (size : ℕ) → AllByRecursion is_low streams.now → result ≡ list_any (is_still_in size stock.now) streams.now }
{
    for at in 0..streams.len() {
        let stream = streams[at];
        if is_still(stock, offset_noted(hints, cum, stream), stream) {
            return true;
        }
    }
    false
}

/// The first of these streams that are still, 256 at most.
///
/// # Errors
/// `NoMemory`.
pub(crate) fn still_of(
    alloc: Global,
    stock: &Stock,
    cum: u64,
    hints: &[u64],
    streams: &[u16],
) -> Result<Vec<u16>, NoMemory>
    ensures { (size : ℕ) → AllByRecursion is_low streams.now → IfOk result (λ found. found.items ≡ take RESETS_AT_ONCE (filter (is_still_in size stock.now) streams.now)) }
{
    let mut found = Vec::new(alloc);
    for at in 0..streams.len() {
        let stream = streams[at];
        name_one(stock, offset_noted(hints, cum, stream), stream, &mut found)?;
    }
    Ok(found)
}

/// A stream joins those that a request names, if it is still and they aren't 256.
///
/// # Errors
/// `NoMemory`.
fn name_one(stock: &Stock, hint: usize, stream: u16, found: &mut Vec<u16>) -> Result<(), NoMemory>
    ensures { (size : ℕ) → is_low stream → OnOk result (found.new.items ≡ named_with (is_still_in size stock.now stream) stream found.old.items) }
{
    if found.len() >= AT_ONCE {
        return Ok(());
    }
    if !is_still(stock, hint, stream) {
        return Ok(());
    }
    found.push(stream).map_err(|_| NoMemory)
}

/// Nothing of a stream waits, is in part, or is outstanding. The entry at the offset `hint` is looked at first.
fn is_still(stock: &Stock, hint: usize, stream: u16) -> bool
    ensures { (size : ℕ) → is_low stream → result ≡ is_still_in size stock.now stream }
{
    if is_out_at(&stock.outstanding, hint, stream) {
        return false;
    }
    !waits_on(&stock.queue, stream)
        && !goes_on_at(stock.streams.tracks(), stream)
        && !is_out_on(&stock.outstanding, stream)
}

/// A message waits on a stream.
fn waits_on(queue: &Queue, stream: u16) -> bool
    ensures { (size : ℕ) → is_low stream → result ≡ list_any (is_on stream) (map (queued_by size) queue.now.items) }
{
    queue.next_on(stream, stream.saturating_add(1)).is_some()
}

/// The entry at an offset is of this stream.
fn is_out_at(outstanding: &Outstanding, at: usize, stream: u16) -> bool
    ensures { (size : ℕ) → result ≡ true → list_any (is_item_on stream) (map (item_meaning size) outstanding.now.items) ≡ true }
{
    if at >= outstanding.len() {
        return false;
    }
    outstanding.get(at).message.stream == stream
}

/// The offset of the last entry of a stream; behind all entries, if there is none.
pub(crate) fn last_out_on(outstanding: &Outstanding, stream: u16) -> usize {
    for at in (0..outstanding.len()).rev() {
        if outstanding.get(at).message.stream == stream {
            return at;
        }
    }
    outstanding.len()
}

/// A stream has an index above CUM.
fn is_out_on(outstanding: &Outstanding, stream: u16) -> bool
    ensures { (size : ℕ) → result ≡ list_any (is_item_on stream) (map (item_meaning size) outstanding.now.items) }
{
    for at in 0..outstanding.len() {
        if outstanding.get(at).message.stream == stream {
            return true;
        }
    }
    false
}
