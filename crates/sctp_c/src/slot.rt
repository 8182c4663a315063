//! The memory of an endpoint in a handle.

ghost use Rattle.std.specs.Prelude.{◌≡◌, Option, Some, None};
ghost use Rattle.sctp_endpoint.specs.declared.endpoint.Endpoint.{Endpoint};
ghost use Rattle.sctp_c.specs.Slot.{slot_owns, IsFull};

use crate::block::Block;
use sctp_endpoint::Endpoint;
use std::alloc::Global;
use std::marker::Model;

/// The memory block of an endpoint, or none. If it is dropped with an endpoint in it, that leaks: only a handle has one, and never drops it so.
#[repr(C)]
#[derive(Drop)]
pub struct Slot {
    at: *mut u8,
    alloc: Global,
    pub ghost endpoint: { Option Endpoint },
}

impl Model for Slot {
    ghost also_owns = { λ s. slot_owns s.alloc s.at s.endpoint };
}

// Its endpoint is reached through it alone, and may go to another thread.
unsafe impl Send for Slot {}

impl Slot {
    ghost use Rattle.std.specs.Borrow.{sem};
    ghost use Rattle.sctp_c.specs.Lending.{LendsEndpoint};

    /// A slot with nothing in it.
    pub(crate) fn empty(alloc: Global) -> Slot
        ensures { result.endpoint ≡ None }
    {
        Slot {
            at: std::ptr::null_mut(),
            alloc,
        }
    }

    /// The slot of an endpoint.
    pub(crate) fn of_box(endpoint: Box<Endpoint>) -> Slot
        ensures { result.endpoint ≡ Some endpoint.value }
    {
        Slot::of_block(Block::of_box(endpoint))
    }

    /// The slot of a block.
    fn of_block(block: Block<Endpoint, Global>) -> Slot
        ensures { result.endpoint ≡ Some block.value }
    {
        let Block { at, alloc } = block;
        Slot {
            at: at as *mut u8,
            alloc,
        }
    }

    /// The endpoint of a slot that has one.
    pub(crate) fn into_box(self) -> Box<Endpoint>
        requires { IsFull self.endpoint }
        ensures { self.endpoint ≡ Some result.value }
    {
        self.into_block().into_box()
    }

    /// Borrows the endpoint of a slot that has one: a call works on it in place.
    pub(crate) fn lend(&mut self) -> &mut Endpoint
        requires { IsFull self.old.endpoint }
        ensures* writes_back { sem 𝓛 (LendsEndpoint self.entry result) }
        ensures value { self.old.endpoint ≡ Some result.now }
    {
        let at = self.at as *mut Endpoint;
        unsafe { &mut *at }
    }

    /// The block of a slot that has one.
    fn into_block(self) -> Block<Endpoint, Global>
        requires { IsFull self.endpoint }
        ensures { self.endpoint ≡ Some result.value }
    {
        let Slot { at, alloc } = self;
        Block {
            at: at as *mut Endpoint,
            alloc,
        }
    }
}
