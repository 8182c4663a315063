//! A message that waits, with the owners that its fragments will have.

ghost use Rattle.std.specs.Prelude.{◌≡◌, ℕ, [], length, OnOk};
ghost use Rattle.sctp_model.specs.sender.Queueing.{cut};
ghost use Rattle.sctp_send.specs.inner.Owning.{AreOf, IsOwned};

use crate::kept::message::{Message, shared};
use sctp_values::NoMemory;
use std::sync::Arc;

/// A message that waits for its number, and an owner of it for each fragment behind the first one. Each entry owns its message; the owners are taken when
/// the message is queued, so that none can be refused while a packet is filled.
#[derive(Drop)]
pub(crate) struct Waiting {
    pub(crate) message: Arc<Message>,
    pub(crate) others: Vec<Arc<Message>>,
}

impl Waiting {
    /// How many fragments it makes: each has its owner.
    #[inline(always)]
    pub(crate) fn fragments(&self) -> usize
        ensures { (size : ℕ) → IsOwned size 0 self.now.message self.now.others.items → result ≡ length (cut size self.now.message.value.bytes.items) }
    {
        self.others.len().wrapping_add(1)
    }
}

/// Takes so many more owners of a message. One with a single fragment takes no memory.
///
/// # Errors
/// `NoMemory`: fewer were taken.
#[inline(always)]
pub(crate) fn take_others(
    others: &mut Vec<Arc<Message>>,
    message: &Arc<Message>,
    many: usize,
) -> Result<(), NoMemory>
    requires { others.old.items ≡ [] }
    ensures { OnOk result (AreOf message.now.value others.new.items × (length others.new.items ≡ many)) }
{
    if many == 0 {
        return Ok(());
    }
    take_owners(others, message, many)
}

/// Takes them, one after the other. A function of its own, since most messages have a single fragment.
#[inline(never)]
fn take_owners(
    others: &mut Vec<Arc<Message>>,
    message: &Arc<Message>,
    many: usize,
) -> Result<(), NoMemory>
    requires { others.old.items ≡ [] }
    ensures { OnOk result (AreOf message.now.value others.new.items × (length others.new.items ≡ many)) }
{
    others.reserve_exact(many).map_err(|_| NoMemory)?;
    for _ in 0..many {
        let owner = shared(message)?;
        match others.push(owner) {
            Ok(()) => {}
            Err(_) => return Err(NoMemory),
        }
    }
    Ok(())
}
