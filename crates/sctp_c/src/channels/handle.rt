//! C's handle of channels, and how channels are put into it and taken out.

ghost use Rattle.std.specs.Prelude.{◌≡◌, nat_lt, Some, None, MatchOption};
ghost use Rattle.sctp_c.specs.Slot.{is_full};

use crate::channels::held::Held;
use crate::channels::slot::ChannelsSlot;
use std::alloc::Global;

/// C's handle of channels, in C's memory: zeroed, or as a call left it.
#[repr(C)]
#[derive(Drop)]
pub struct SctpChannels {
    full: usize,
    pub(crate) slot: ChannelsSlot,
    ghost tells: { nat_lt 0 full ≡ is_full slot.held },
}

impl SctpChannels {
    /// A handle with nothing in it.
    fn empty(alloc: Global) -> SctpChannels
        ensures { result.slot.held ≡ None }
    {
        SctpChannels {
            full: 0,
            slot: ChannelsSlot::empty(alloc),
        }
    }

    /// It isn't empty.
    pub(crate) fn is_full(&self) -> bool
        ensures { result ≡ is_full self.now.slot.held }
    {
        self.full > 0
    }

    /// Puts channels into an empty handle.
    pub(crate) fn put(&mut self, held: Box<Held>)
        requires { self.old.slot.held ≡ None }
        ensures { self.new.slot.held ≡ Some held.value }
    {
        *self = SctpChannels {
            full: 1,
            slot: ChannelsSlot::of_box(held),
        };
    }

    /// Takes its channels, if it has some, and leaves it empty.
    pub(crate) fn take(&mut self, alloc: Global) -> Option<Box<Held>>
        ensures taken { MatchOption result (self.old.slot.held ≡ None) (λ held. self.old.slot.held ≡ Some held.value) }
        ensures left { self.new.slot.held ≡ None }
    {
        if self.full == 0 {
            return None;
        }
        let SctpChannels { slot, .. } = std::mem::replace(self, SctpChannels::empty(alloc));
        Some(slot.into_box())
    }
}

/// Can be called for a type only if its values may go to another thread.
fn may_go_to_another_thread<T: Send>() {}

// law
/// A handle may go to another thread: that this is proved says so.
pub fn channels_may_go_to_another_thread() {
    may_go_to_another_thread::<SctpChannels>();
}
