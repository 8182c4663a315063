//! What a request names, so that it differs from the last one (RFC 6525, 5.2.7).

ghost use Rattle.std.specs.Prelude.{◌≡◌, IfOk, OnOk};
ghost use Rattle.sctp_model.specs.sender.Outgoing.{are_listed};
ghost use Rattle.sctp_model.specs.sender.Resetting.{first_twice};
ghost use Rattle.sctp_send.specs.ResetsKept.{last_meaning, last_under};
ghost use Rattle.sctp_send.specs.inner.Resetting.{says_same, named_after};

use crate::kept::request::Request;
use crate::kept::resets::OutgoingResets;
use sctp_serial::tsn_of;
use sctp_values::NoMemory;

/// The streams of a request beside the one that comes twice: 256 in all.
const BESIDE_FIRST: usize = 255;

/// What a request names, if these streams are ready and this is the last index that was assigned: they, the first of them twice if the last request said the
/// same.
///
/// # Errors
/// `NoMemory`.
pub(crate) fn named_after(
    resets: &OutgoingResets,
    initial: u32,
    last: u64,
    streams: Vec<u16>,
) -> Result<Vec<u16>, NoMemory>
    ensures { IfOk result (λ named. named.items ≡ named_after initial last (last_under resets.now.table) streams.items) }
{
    let mut named = streams;
    if was_said(resets, initial, last, &named) {
        name_first_twice(&mut named)?;
    }
    Ok(named)
}

/// Whether the last request said the same as one for these streams.
fn was_said(resets: &OutgoingResets, initial: u32, last: u64, streams: &[u16]) -> bool
    ensures { result ≡ says_same initial last streams.now (last_under resets.now.table) }
{
    match &resets.table {
        Some(table) => says_same(&table.last_made, initial, last, streams),
        None => false,
    }
}

/// Whether this request, if there is one, does.
fn says_same(request: &Option<Request>, initial: u32, last: u64, streams: &[u16]) -> bool
    ensures { result ≡ says_same initial last streams.now (last_meaning request.now) }
{
    match request {
        Some(request) => {
            tsn_of(initial, request.last) == tsn_of(initial, last)
                && are_listed(&request.streams, streams)
        }
        None => false,
    }
}

/// Both are the same streams, in the same order.
fn are_listed(streams: &[u16], others: &[u16]) -> bool
    ensures { result ≡ are_listed streams.now others.now }
{
    let mut left = others.iter();
    for stream in streams {
        match left.next() {
            Some(other) => {
                if other != stream {
                    return false;
                }
            }
            None => return false,
        }
    }
    left.next().is_none()
}

/// The first of these streams comes twice, and those that are too many then go.
///
/// # Errors
/// `NoMemory`.
fn name_first_twice(streams: &mut Vec<u16>) -> Result<(), NoMemory>
    ensures { OnOk result (streams.new.items ≡ first_twice streams.old.items) }
{
    if streams.is_empty() {
        return Ok(());
    }
    let first = streams[0];
    streams.truncate(BESIDE_FIRST);
    streams.insert(0, first).map_err(|_| NoMemory)
}
