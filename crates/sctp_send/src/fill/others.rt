//! Fragments take the next indexes: there is memory for their entries, and each has its owner.

ghost use Rattle.std.specs.Prelude.{◌≡◌, ◌+◌, ◌<◌, ◌≤◌, ◌^◌, ◌∷◌, [], ◌++◌, false, map, length};
ghost use Rattle.sctp_send.specs.SenderFields.{track_meaning};
ghost use Rattle.sctp_send.specs.inner.Newcomers.{has_rest, rest_at};
ghost use Rattle.sctp_send.specs.inner.Owning.{IsOwned};
ghost use Rattle.sctp_send.specs.inner.Entering.{fragment_entry, HaveEntered};

use crate::kept::entry::{Content, Entry, Standing};
use crate::kept::message::Message;
use crate::kept::outstanding::Outstanding;
use crate::kept::track::Rest;
use crate::stock::Stock;
use std::alloc::Global;
use std::sync::Arc;

/// A fragment takes the next index: its entry is one more owner of its message. There is room for it.
#[inline(always)]
pub(crate) fn push_fragment(
    outstanding: &mut Outstanding,
    message: Arc<Message>,
    number: u64,
    fragment: u32,
    standing: Standing,
)
    requires { length outstanding.old.items < outstanding.old.capacity }
    ensures { outstanding.new ≡ record outstanding.old { items = outstanding.old.items ++ fragment_entry message number fragment standing ∷ [] } }
{
    outstanding.put(Entry {
        message,
        number,
        content: Content::Fragment(fragment),
        standing,
        covered: false,
        abandoned: false,
        repeats: 0,
    });
}

/// Of a message whose first fragment has the latest index, the further ones of the first so many take the next indexes; what is left then waits on its
/// stream. Each takes one of the message's owners.
#[inline(never)]
pub(crate) fn enter_others(
    stock: &mut Stock,
    others: Vec<Arc<Message>>,
    stream: u16,
    number: u64,
    count: usize,
)
    requires some { 0 < count }
    requires few { count < 2 ^ 32 }
    requires room { length stock.old.outstanding.items + count ≤ stock.old.outstanding.capacity + 1 }
    requires owners { count ≤ length others.items + 1 }
    requires stream { stream < length stock.old.streams.items }
    requires idle { has_rest (rest_at (map (track_meaning stock.old.streams.size) stock.old.streams.items) stream) ≡ false }
    requires owned { (m : Arc Message Global) × IsOwned stock.old.streams.size 0 m others.items }
    ensures { (m : Arc Message Global) → IsOwned stock.old.streams.size 0 m others.items → HaveEntered stock.old.streams.size m.value stream number count stock.old stock.new }
{
    let mut owners = others;
    for fragment in 1..count {
        if let Some(message) = owners.pop() {
            let at = fragment as u32;
            push_fragment(
                &mut stock.outstanding,
                message,
                number,
                at,
                Standing::Unsent,
            );
        }
    }
    let Some(message) = owners.pop() else {
        return;
    };
    let rest = Rest {
        message,
        fragment: count as u32,
        others: owners,
    };
    let _idle = stock.streams.leave(usize::from(stream), Some(rest));
}
