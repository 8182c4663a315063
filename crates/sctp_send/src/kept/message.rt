//! A message as it was handed in, and what became of it.

ghost use Rattle.std.specs.Prelude.{◌≡◌, ℕ, Some, IfOk, length, unwrap_or};
ghost use Rattle.sctp_model.specs.numbers.Limits.{LAST_MOMENT};
ghost use Rattle.sctp_send.specs.OutstandingFields.{message_meaning};
ghost use Rattle.sctp_send.specs.inner.Counting.{moment_from};

use sctp_values::{Kind, NoMemory};
use std::sync::Arc;

/// What `queue` was given for a message. Its bytes are kept once: fragments are ranges of them.
#[derive(Drop)]
pub(crate) struct Message {
    pub(crate) ticket: u64,
    pub(crate) stream: u16,
    pub(crate) kind: Kind,
    pub(crate) payload_id: u32,
    /// The moment from which it is worthless, in milliseconds.
    pub(crate) until: Option<u64>,
    /// How often each of its fragments may be retransmitted (RFC 7496, 3.1), if not without limit.
    pub(crate) limit: Option<u16>,
    pub(crate) bytes: Vec<u8>,
}

/// The moment from which a message is worthless; the last moment, where it has none.
pub(crate) fn moment_of(message: &Message) -> u64
    ensures { (size : ℕ) → result ≡ moment_from (Some (message_meaning size message.now)) }
{
    moment_in(message.until)
}

/// The moment that is given; the last one, if none is.
pub(crate) fn moment_in(until: Option<u64>) -> u64
    ensures { result ≡ unwrap_or until LAST_MOMENT }
{
    match until {
        Some(moment) => moment,
        None => u64::MAX,
    }
}

/// What became of an accepted message.
#[derive(Clone, Copy, PartialEq, Eq)]
pub(crate) enum Fate {
    /// It waits for its number.
    Queued,
    /// It has a number.
    Numbered,
    /// It was withdrawn before it had one.
    Withdrawn,
    /// It has a number and was abandoned.
    Abandoned,
}

/// One more owner of a message.
pub(crate) fn shared(message: &Arc<Message>) -> Result<Arc<Message>, NoMemory>
    ensures { IfOk result (λ copy. copy.value ≡ message.now.value) }
{
    Arc::try_clone(message).map_err(|_| NoMemory)
}

/// How many bytes a message has.
pub(crate) fn bytes_of(message: &Message) -> u64
    ensures { result ≡ length message.now.bytes.items }
{
    message.bytes.len() as u64
}
