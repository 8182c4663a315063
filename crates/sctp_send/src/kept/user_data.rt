//! How many bytes of user data wait on each stream: what its data channel buffers (RFC 8831, 8). They are counted as messages are queued and leave the queue,
//! so that none is looked at when that is asked.

ghost use Rattle.std.specs.Prelude.{◌≡◌, ℕ, ◌<◌, ◌≤◌, ◌%◌, ◌^◌, true, length, slice_index_or, OnOk, OnErr};
ghost use Rattle.sctp_send.specs.inner.UserData.{user_data, has_user_data, IsCounted, with_bytes, without_bytes};

use crate::kept::message::Message;
use sctp_values::NoMemory;

/// The payload protocol identifier of text that isn't empty (RFC 8831, 8).
const STRING: u32 = 51;

/// The payload protocol identifier of binary data that isn't empty (RFC 8831, 8).
const BINARY: u32 = 53;

/// These are the payload protocol identifiers of user data, in this order.
#[inline(always)]
pub(crate) fn are_of_user_data(payload_ids: &[u32]) -> bool
    ensures { result ≡ true → payload_ids.now ≡ user_data }
{
    payload_ids.len() == 2 && payload_ids[0] == STRING && payload_ids[1] == BINARY
}

/// A message has user data of a data channel.
#[inline(always)]
fn has_user_data(message: &Message) -> bool
    ensures { result ≡ has_user_data message.now }
{
    message.payload_id == STRING || message.payload_id == BINARY
}

/// How many bytes a message has, modulo 2^32.
#[inline(always)]
fn bytes_in(message: &Message) -> u32
    ensures { result ≡ length message.now.bytes.items % 2 ^ 32 }
{
    (message.bytes.len() % 0x1_0000_0000) as u32
}

/// A message is queued: its bytes are counted, if it has user data.
///
/// # Errors
/// `NoMemory`: nothing changes.
#[inline(always)]
pub(crate) fn add_bytes(counts: &mut Vec<u32>, message: &Message) -> Result<(), NoMemory>
    ensures counted { OnOk result (IsCounted message.now counts.old.items counts.new.items) }
    ensures refused { OnErr result (counts.new.items ≡ counts.old.items) }
{
    if has_user_data(message) {
        return add_user_bytes(counts, message);
    }
    Ok(())
}

/// A message of user data is queued: its bytes are counted.
///
/// # Errors
/// `NoMemory`: nothing changes.
#[inline(always)]
fn add_user_bytes(counts: &mut Vec<u32>, message: &Message) -> Result<(), NoMemory>
    requires { has_user_data message.now ≡ true }
    ensures counted { OnOk result (IsCounted message.now counts.old.items counts.new.items) }
    ensures refused { OnErr result (counts.new.items ≡ counts.old.items) }
{
    if usize::from(message.stream) >= counts.len() {
        return add_first_bytes(counts, message);
    }
    add_there(counts, message);
    Ok(())
}

/// A message of user data is queued on a stream that has no count yet: its bytes are counted. It is not inlined: it runs once a stream.
///
/// # Errors
/// `NoMemory`: nothing changes.
#[inline(never)]
fn add_first_bytes(counts: &mut Vec<u32>, message: &Message) -> Result<(), NoMemory>
    requires { has_user_data message.now ≡ true }
    ensures counted { OnOk result (IsCounted message.now counts.old.items counts.new.items) }
    ensures refused { OnErr result (counts.new.items ≡ counts.old.items) }
{
    make_count(counts, message.stream)?;
    add_there(counts, message);
    Ok(())
}

/// There is a count for a stream. One that wasn't there is 0.
///
/// # Errors
/// `NoMemory`: nothing changes.
fn make_count(counts: &mut Vec<u32>, stream: u16) -> Result<(), NoMemory>
    ensures same { (s : ℕ) → slice_index_or counts.new.items s 0 ≡ slice_index_or counts.old.items s 0 }
    ensures longer { length counts.old.items ≤ length counts.new.items }
    ensures made { OnOk result (stream < length counts.new.items) }
    ensures refused { OnErr result (counts.new.items ≡ counts.old.items) }
{
    let streams = usize::from(stream) + 1;
    if streams <= counts.len() {
        return Ok(());
    }
    counts.resize(streams, 0).map_err(|_| NoMemory)
}

/// The bytes of a message of user data are added to the count of its stream.
#[inline(always)]
fn add_there(counts: &mut Vec<u32>, message: &Message)
    requires user { has_user_data message.now ≡ true }
    requires there { message.now.stream < length counts.old.items }
    ensures { counts.new.items ≡ with_bytes message.now counts.old.items }
{
    let stream = usize::from(message.stream);
    counts[stream] = counts[stream].wrapping_add(bytes_in(message));
}

/// A message leaves the queue: its bytes count no more, if it has user data.
#[inline(always)]
pub(crate) fn take_bytes(counts: &mut Vec<u32>, message: &Message)
    requires { has_user_data message.now ≡ true → message.now.stream < length counts.old.items }
    ensures { counts.new.items ≡ without_bytes message.now counts.old.items }
{
    if has_user_data(message) {
        take_user_bytes(counts, message);
    }
}

/// A message of user data leaves the queue: its bytes count no more.
#[inline(always)]
fn take_user_bytes(counts: &mut Vec<u32>, message: &Message)
    requires user { has_user_data message.now ≡ true }
    requires there { message.now.stream < length counts.old.items }
    ensures { counts.new.items ≡ without_bytes message.now counts.old.items }
{
    let stream = usize::from(message.stream);
    counts[stream] = counts[stream].wrapping_sub(bytes_in(message));
}

/// The count of a stream.
#[inline(always)]
pub(crate) fn count_of(counts: &[u32], stream: u16) -> u32
    ensures { result ≡ slice_index_or counts.now stream 0 }
{
    match counts.get(usize::from(stream)) {
        Some(count) => *count,
        None => 0,
    }
}
