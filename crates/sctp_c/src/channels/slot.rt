//! The memory of channels in a handle.

ghost use Rattle.std.specs.Prelude.{◌≡◌, Option, Some, None};
ghost use Rattle.sctp_c.specs.declared.channels.held.Held.{Held};
ghost use Rattle.sctp_c.specs.Slot.{IsFull};
ghost use Rattle.sctp_c.specs.channels.Slot.{slot_owns};

use crate::block::Block;
use crate::channels::held::Held;
use std::alloc::Global;
use std::marker::Model;

/// The memory block of channels, or none. If it is dropped with channels in it, that leaks: only a handle has one, and never drops it so.
#[repr(C)]
#[derive(Drop)]
pub struct ChannelsSlot {
    at: *mut u8,
    alloc: Global,
    pub ghost held: { Option Held },
}

impl Model for ChannelsSlot {
    ghost also_owns = { λ s. slot_owns s.alloc s.at s.held };
}

// Its channels are reached through it alone, and may go to another thread.
unsafe impl Send for ChannelsSlot {}

impl ChannelsSlot {
    ghost use Rattle.std.specs.Borrow.{sem};
    ghost use Rattle.sctp_c.specs.channels.Lending.{LendsHeld};

    /// A slot with nothing in it.
    pub(crate) fn empty(alloc: Global) -> ChannelsSlot
        ensures { result.held ≡ None }
    {
        ChannelsSlot {
            at: std::ptr::null_mut(),
            alloc,
        }
    }

    /// The slot of channels.
    pub(crate) fn of_box(held: Box<Held>) -> ChannelsSlot
        ensures { result.held ≡ Some held.value }
    {
        ChannelsSlot::of_block(Block::of_box(held))
    }

    /// The slot of a block.
    fn of_block(block: Block<Held, Global>) -> ChannelsSlot
        ensures { result.held ≡ Some block.value }
    {
        let Block { at, alloc } = block;
        ChannelsSlot {
            at: at as *mut u8,
            alloc,
        }
    }

    /// The channels of a slot that has some.
    pub(crate) fn into_box(self) -> Box<Held>
        requires { IsFull self.held }
        ensures { self.held ≡ Some result.value }
    {
        self.into_block().into_box()
    }

    /// Borrows the channels of a slot that has some: a call works on them in place.
    pub(crate) fn lend(&mut self) -> &mut Held
        requires { IsFull self.old.held }
        ensures* writes_back { sem 𝓛 (LendsHeld self.entry result) }
        ensures value { self.old.held ≡ Some result.now }
    {
        let at = self.at as *mut Held;
        unsafe { &mut *at }
    }

    /// The block of a slot that has one.
    fn into_block(self) -> Block<Held, Global>
        requires { IsFull self.held }
        ensures { self.held ≡ Some result.value }
    {
        let ChannelsSlot { at, alloc } = self;
        Block {
            at: at as *mut Held,
            alloc,
        }
    }
}
