//! The shells of messages that are gone, for messages to come.

ghost use Rattle.std.specs.Prelude.{◌≡◌, [], IfOk, IfSome, ◌≤◌, vec_capacity};

use crate::kept::message::Message;
use sctp_values::NoMemory;
use std::alloc::Global;
use std::mem::replace;
use std::sync::Arc;

/// The most shells that are kept. A shell is the memory of a message that is gone, for a message to come; with the buffer of its bytes, if that is
/// small.
pub(crate) const MOST_SHELLS: usize = 64;

/// The most bytes of a buffer that a shell keeps.
pub(crate) const LONGEST_BUFFER: usize = 128;

/// Keeps the shell of a message, where nothing else has it and there is room. What is kept shows in no answer, so that its contract says
/// nothing.
#[inline(always)]
pub(crate) fn keep_shell(shells: &mut Vec<Arc<Message>>, alloc: Global, message: Arc<Message>) {
    if shells.len() >= shells.capacity() {
        return;
    }
    let mut shell = message;
    match Arc::get_mut(&mut shell) {
        Some(gone) => {
            if gone.bytes.capacity() > LONGEST_BUFFER {
                gone.bytes = Vec::new(alloc);
            }
        }
        None => return,
    }
    shells.push_reserved(shell);
}

/// The buffer of the shell that the next message takes, empty, if it has capacity for `least` bytes. The shell is then without one.
#[inline(always)]
pub(crate) fn buffer_of(
    shells: &mut Vec<Arc<Message>>,
    alloc: Global,
    least: usize,
) -> Option<Vec<u8>>
    ensures empty { IfSome result (λ buffer. buffer.items ≡ []) }
    ensures room { IfSome result (λ buffer. least ≤ vec_capacity buffer) }
{
    let shell = shells.last_mut()?;
    let gone = Arc::get_mut(shell)?;
    if gone.bytes.capacity() < least {
        return None;
    }
    let mut buffer = replace(&mut gone.bytes, Vec::new(alloc));
    buffer.clear();
    Some(buffer)
}

/// A message takes a shell that was kept, or else new memory.
///
/// # Errors
/// `NoMemory`.
#[inline(always)]
pub(crate) fn in_shell(
    shells: &mut Vec<Arc<Message>>,
    alloc: Global,
    message: Message,
) -> Result<Arc<Message>, NoMemory>
    ensures { IfOk result (λ shared. shared.value ≡ message) }
{
    if let Some(mut shell) = shells.pop() {
        if let Some(gone) = Arc::get_mut(&mut shell) {
            let Message {
                ticket,
                stream,
                kind,
                payload_id,
                until,
                limit,
                bytes,
            } = message;
            gone.ticket = ticket;
            gone.stream = stream;
            gone.kind = kind;
            gone.payload_id = payload_id;
            gone.until = until;
            gone.limit = limit;
            gone.bytes = bytes;
            return Ok(shell);
        }
    }
    in_new_shell(alloc, message)
}

/// A message takes new memory.
///
/// # Errors
/// `NoMemory`.
#[inline(never)]
fn in_new_shell(alloc: Global, message: Message) -> Result<Arc<Message>, NoMemory>
    ensures { IfOk result (λ shared. shared.value ≡ message) }
{
    Arc::new(alloc, message).map_err(|_| NoMemory)
}
