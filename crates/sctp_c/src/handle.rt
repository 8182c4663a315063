//! C's handle of an endpoint, and how an endpoint is put into it and taken out.

ghost use Rattle.std.specs.Prelude.{◌≡◌, nat_lt, Some, None, MatchOption};
ghost use Rattle.sctp_c.specs.Slot.{is_full};

use crate::slot::Slot;
use sctp_endpoint::Endpoint;
use std::alloc::Global;

/// C's handle of an endpoint, in C's memory: zeroed, or as a call left it.
#[repr(C)]
#[derive(Drop)]
pub struct SctpEndpoint {
    full: usize,
    pub(crate) slot: Slot,
    ghost tells: { nat_lt 0 full ≡ is_full slot.endpoint },
}

impl SctpEndpoint {
    /// A handle with nothing in it.
    fn empty(alloc: Global) -> SctpEndpoint
        ensures { result.slot.endpoint ≡ None }
    {
        SctpEndpoint {
            full: 0,
            slot: Slot::empty(alloc),
        }
    }

    /// It isn't empty.
    pub(crate) fn is_full(&self) -> bool
        ensures { result ≡ is_full self.now.slot.endpoint }
    {
        self.full > 0
    }

    /// Puts an endpoint into an empty handle.
    pub(crate) fn put(&mut self, endpoint: Box<Endpoint>)
        requires { self.old.slot.endpoint ≡ None }
        ensures { self.new.slot.endpoint ≡ Some endpoint.value }
    {
        *self = SctpEndpoint {
            full: 1,
            slot: Slot::of_box(endpoint),
        };
    }

    /// Takes its endpoint, if it has one, and leaves it empty.
    pub(crate) fn take(&mut self, alloc: Global) -> Option<Box<Endpoint>>
        ensures taken { MatchOption result (self.old.slot.endpoint ≡ None) (λ endpoint. self.old.slot.endpoint ≡ Some endpoint.value) }
        ensures left { self.new.slot.endpoint ≡ None }
    {
        if self.full == 0 {
            return None;
        }
        let SctpEndpoint { slot, .. } = std::mem::replace(self, SctpEndpoint::empty(alloc));
        Some(slot.into_box())
    }
}

/// Can be called for a type only if its values may go to another thread.
fn may_go_to_another_thread<T: Send>() {}

// law
/// A handle may go to another thread: that this is proved says so.
pub fn handles_may_go_to_another_thread() {
    may_go_to_another_thread::<SctpEndpoint>();
}
