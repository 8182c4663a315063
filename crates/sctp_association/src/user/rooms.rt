//! Buffers that the user hands back, to be used again in place of new memory. No view and no answer of an endpoint depends on them.

ghost use Rattle.std.specs.Prelude.{◌≡◌, ◌≤◌, ℕ, [], Option, vec_capacity, IfSome};
ghost use Rattle.sctp_model.specs.messages.Format.{Format};
ghost use Rattle.sctp_model.specs.end.Pacing.{Pace};
ghost use Rattle.sctp_model.specs.end.EndView.{EndView};
ghost use Rattle.sctp_congestion.specs.PaceStands.{PacesStand};
ghost use Rattle.sctp_association.specs.MachineStands.{MachineStands};
ghost use Rattle.sctp_association.specs.KeptRoom.{kept_capacity, kept_of};

use crate::machine::Machine;
use crate::state::life::Life;
use sctp_congestion::Pacing;
use sctp_recv::Message;
use sctp_values::Ticket;
use std::mem::replace;

#[tactic(auto, unfolding(crate::specs::MachineStands::MachineStands))]
impl Machine {
    /// Hands back a packet that was sent: its bytes are forgotten, and the next packet is made in its buffer in place of new memory. One buffer is
    /// kept: the larger one, and none that is larger than a packet may be. It doesn't allocate.
    pub fn recycle(&mut self, packet: Vec<u8>)
        ensures stands { (v : EndView) → MachineStands self.old v → MachineStands self.new v }
        ensures kept { (v : EndView) → MachineStands self.old v → kept_capacity self.new ≡ kept_of v.configuration.limit (vec_capacity packet) (kept_capacity self.old) }
        ensures within { (v : EndView) → MachineStands self.old v → kept_capacity self.new ≤ v.configuration.limit }
    {
        let size = packet.capacity();
        if size > usize::from(self.config.limit()) {
            return;
        }
        if size <= self.room.capacity() {
            return;
        }
        self.room = packet;
    }

    /// Returns the buffer of the tickets that were returned with a packet: they are dropped, and the tickets of the next packet are written to it in place
    /// of a new allocation. One buffer is kept, the larger one of two. It doesn't allocate.
    #[inline(always)]
    pub fn recycle_tickets(&mut self, tickets: Vec<Ticket>)
        ensures { (v : EndView) → MachineStands self.old v → MachineStands self.new v }
    {
        match &mut self.life {
            Life::Unjoined(_) => {}
            Life::Joined(association) => association.traffic.recycle_tickets(tickets),
        }
    }

    /// Takes the buffer of a message that is over, for the bytes of one to come: it is empty, and has capacity for `least` bytes. None if none is kept,
    /// or it has less. It doesn't allocate.
    #[inline(always)]
    pub fn take_buffer(&mut self, least: usize) -> Option<Vec<u8>>
        ensures empty { IfSome result (λ buffer. buffer.items ≡ []) }
        ensures room { IfSome result (λ buffer. least ≤ vec_capacity buffer) }
        ensures kept { self.new ≡ self.old }
    {
        match &mut self.life {
            Life::Unjoined(_) => None,
            Life::Joined(association) => association.traffic.take_buffer(least),
        }
    }

    /// Hands back a message that was taken: its bytes are forgotten, and its memory may be used for the next received data. It doesn't allocate.
    #[inline(always)]
    pub fn give_back(&mut self, message: Message)
        ensures { (v : EndView) → MachineStands self.old v → MachineStands self.new v }
    {
        match &mut self.life {
            Life::Unjoined(_) => {}
            Life::Joined(association) => association.traffic.give_back(message),
        }
    }

    /// Gives back memory that a burst of messages took: see `sctp_send::Sender::trim`, `sctp_recv::Receiver::trim` and `sctp_congestion::Pacing::trim`.
    pub fn trim(&mut self)
        ensures { (v : EndView) → MachineStands self.old v → MachineStands self.new v }
    {
        trim_pace(&mut self.pace);
        match &mut self.life {
            Life::Unjoined(_) => {}
            Life::Joined(association) => {
                association.traffic.trim_sender();
                association.traffic.trim_receiver();
            }
        }
    }

    /// Takes the buffer that is kept, for the next packet: none is kept any more.
    pub(crate) fn take_room(&mut self) -> Vec<u8>
        ensures stands { (v : EndView) → MachineStands self.old v → MachineStands self.new v }
        ensures due { self.new.due ≡ self.old.due }
    {
        replace(&mut self.room, Vec::new(self.alloc))
    }
}

/// Gives back memory of a pace.
fn trim_pace(pace: &mut Option<Pacing>)
    ensures { (f : Format) (cum : ℕ) (o : Option Pace) → PacesStand f cum pace.old o → PacesStand f cum pace.new o }
{
    match pace {
        None => {}
        Some(pace) => pace.trim(),
    }
}
