//! The bytes that wait on one stream, with given payload protocol identifiers.

ghost use Rattle.std.specs.Prelude.{◌≡◌, ℕ, ◌<◌, ◌%◌, ◌^◌, map, length, filter, if◌then◌else◌};
ghost use Rattle.sctp_send.specs.OutstandingFields.{queued_meaning};
ghost use Rattle.sctp_send.specs.SenderFields.{queued_by};
ghost use Rattle.sctp_send.specs.Waiting.{waiting_bytes, is_on_with};
ghost use Rattle.sctp_send.specs.inner.UserData.{user_data};

use crate::kept::message::{Message, bytes_of};
use crate::kept::queue::Queue;
use crate::kept::user_data::count_of;

impl Queue {
    /// The bytes of user data that wait on this stream, modulo 2^32: they are counted as messages are queued and leave the queue.
    #[inline(always)]
    pub(crate) fn user_bytes_on(&self, stream: u16) -> u64
        ensures { result ≡ waiting_bytes (filter (is_on_with stream user_data) (map (queued_by self.now.size) self.now.items)) % 2 ^ 32 }
    {
        u64::from(count_of(&self.user_bytes, stream))
    }
}

/// The bytes of the messages that wait on this stream with one of these identifiers, modulo 2^64.
pub(crate) fn bytes_on(queue: &Queue, stream: u16, payload_ids: &[u32]) -> u64
    ensures { 0 < queue.now.size → result ≡ waiting_bytes (filter (is_on_with stream payload_ids.now) (map (queued_by queue.now.size) queue.now.items)) % 2 ^ 64 }
{
    let mut bytes = 0_u64;
    for at in 0..queue.len() {
        bytes = bytes.wrapping_add(bytes_if_on(queue.get(at), stream, payload_ids));
    }
    bytes
}

/// The bytes of a message, if it is on this stream with one of these identifiers; otherwise 0.
fn bytes_if_on(message: &Message, stream: u16, payload_ids: &[u32]) -> u64
    ensures { (size : ℕ) → result ≡ (if is_on_with stream payload_ids.now (queued_meaning size message.now) then length message.now.bytes.items else 0) }
{
    if message.stream == stream && payload_ids.contains(&message.payload_id) {
        bytes_of(message)
    } else {
        0
    }
}
