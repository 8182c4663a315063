//! Buffers that the user returns for reuse, or not.

ghost use Rattle.std.specs.Prelude.{◌≡◌, ◌≤◌, [], vec_capacity, IfOk, IfSome};
ghost use Rattle.sctp_model.specs.end.EndView.{EndView};
ghost use Rattle.sctp_association.specs.KeptRoom.{kept_of};
ghost use Rattle.sctp_endpoint.specs.EndpointStands.{EndpointStands};
ghost use Rattle.sctp_endpoint.specs.Counted.{counted};
ghost use Rattle.sctp_endpoint.specs.KeptBuffer.{kept_capacity};

use crate::endpoint::Endpoint;
use sctp_recv::Message;
use sctp_values::{NoMemory, Ticket};
use std::alloc::Global;

#[tactic(auto, unfolding(crate::specs::EndpointStands::EndpointStands, crate::specs::Counted::counted))]
impl Endpoint {
    /// Returns the buffer of a packet that was sent: its bytes are dropped, and the next packet is made in it in place of a new allocation. One buffer
    /// is kept, the larger one of two, and none larger than the packet limit. Calling it is optional, and no other result depends on it. It allocates no
    /// memory.
    pub fn recycle(&mut self, packet: Vec<u8>)
        ensures stands { (v : EndView) → EndpointStands self.old v → EndpointStands self.new v }
        ensures kept { (v : EndView) → EndpointStands self.old v
            → kept_capacity self.new ≡ kept_of v.configuration.limit (vec_capacity packet) (kept_capacity self.old) }
        ensures within { (v : EndView) → EndpointStands self.old v → kept_capacity self.new ≤ v.configuration.limit }
        ensures counts { counted self.new ≡ counted self.old }
    {
        self.machine.recycle(packet);
    }

    /// Returns the buffer of the tickets of a packet that was sent: they are dropped, and those of the next packet are written to it in place of a new
    /// allocation. One buffer is kept, the larger one of two, and none for more than 128 tickets. Calling it is optional, and no other result depends on
    /// it. It allocates no memory.
    #[inline(always)]
    pub fn recycle_tickets(&mut self, tickets: Vec<Ticket>)
        ensures stands { (v : EndView) → EndpointStands self.old v → EndpointStands self.new v }
        ensures counts { counted self.new ≡ counted self.old }
    {
        if tickets.capacity() > 0 {
            self.machine.recycle_tickets(tickets);
        }
    }

    /// Takes a buffer for the bytes of a message to send: it is empty, and has capacity for `least` bytes or more. It was the buffer of a message that was
    /// sent and acknowledged; of 64 of these at most it is kept, if it has 128 bytes at most. None if none is kept, or it has less capacity. Calling it
    /// is optional, and no other result depends on it. It allocates no memory.
    #[inline(always)]
    pub fn take_buffer(&mut self, least: usize) -> Option<Vec<u8>>
        ensures empty { IfSome result (λ buffer. buffer.items ≡ []) }
        ensures room { IfSome result (λ buffer. least ≤ vec_capacity buffer) }
        ensures kept { self.new ≡ self.old }
    {
        self.machine.take_buffer(least)
    }

    /// A copy of the bytes of a message to send, in a buffer as `take_buffer` returns it, or in a new one if none is kept that has capacity for them. The
    /// endpoint is as before.
    ///
    /// # Errors
    /// `NoMemory` if an allocation failed.
    #[inline(always)]
    pub fn copy_bytes(&mut self, alloc: Global, bytes: &[u8]) -> Result<Vec<u8>, NoMemory>
        ensures copied { IfOk result (λ copy. copy.items ≡ bytes.now) }
        ensures kept { self.new ≡ self.old }
    {
        match self.take_buffer(bytes.len()) {
            Some(mut buffer) => match buffer.extend_from_slice(bytes) {
                Ok(()) => Ok(buffer),
                Err(_) => Err(NoMemory),
            },
            None => Vec::from_slice(alloc, bytes).map_err(|_| NoMemory),
        }
    }

    /// Returns the memory of a message that was taken: its bytes are dropped, and user data received later may be kept in its blocks in place of new
    /// allocations. `sctp_recv::Receiver::give_back` says how many blocks are kept. Calling it is optional, and no other result depends on it. It
    /// allocates no memory.
    #[inline(always)]
    pub fn give_back(&mut self, message: Message)
        ensures stands { (v : EndView) → EndpointStands self.old v → EndpointStands self.new v }
        ensures counts { counted self.new ≡ counted self.old }
    {
        self.machine.give_back(message);
    }

    /// Gives back memory that a burst of messages took: of sent ones where less than an eighth is used, of received ones all that isn't. It is for an endpoint
    /// that is idle: of one that has such bursts again and again each would allocate anew. Calling it is optional, and no other result depends on it. It
    /// allocates smaller blocks in place of larger ones; one that can't be allocated leaves the larger one.
    pub fn trim(&mut self)
        ensures stands { (v : EndView) → EndpointStands self.old v → EndpointStands self.new v }
        ensures counts { counted self.new ≡ counted self.old }
    {
        self.machine.trim();
    }
}
