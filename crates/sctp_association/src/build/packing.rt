//! A packet under construction, and what it changes at its endpoint (RFC 9260, 6.10). Nothing of the endpoint changes before the packet is complete,
//! so there is nothing to undo if an allocation fails.

ghost use Rattle.std.specs.Prelude.{◌≡◌, ◌≤◌, ℕ, List, [], length, option_map, IfSome, MatchOption};
ghost use Rattle.sctp_model.specs.wire.Typed.{Typed, WritesTyped};
ghost use Rattle.sctp_model.specs.wire.Packet.{size_of_packet};
ghost use Rattle.sctp_model.specs.receiver.SackMade.{sack_sent};
ghost use Rattle.sctp_model.specs.end.EndView as model;
ghost use Rattle.sctp_model.specs.end.EndView.{EndView};
ghost use Rattle.sctp_packet.specs.Draft.{packet_of};
ghost use Rattle.sctp_packet.specs.PacketBytes.{WritesPacket};
ghost use Rattle.sctp_association.specs.DueStands.{DueStands, info_bytes};
ghost use Rattle.sctp_association.specs.Drafted.{value_left, causes_left, receiver_left, answers_left, offered_left, delayed_left, due_left, drafted, IsFresh, IsEmpty};
ghost use Rattle.sctp_association.specs.MachineStands.{MachineStands};

use crate::build::Built;
use crate::build::sendings::Filled;
use crate::machine::Machine;
use crate::state::carried::{HeartbeatInfo, WaitingCauses};
use crate::state::due::Due;
use crate::state::life::Life;
use crate::time::starts::Starts;
use sctp_packet::PacketWriter;
use std::alloc::Global;

/// What a packet changes at its endpoint, besides sender and receiver: the chunks that are still due, and the timers that start.
#[derive(Clone, Copy)]
pub(crate) struct Marks {
    pub(crate) init: bool,
    pub(crate) cookie_echo: bool,
    pub(crate) cookie_ack: bool,
    /// The value of a HEARTBEAT is still due, if there is one.
    pub(crate) heartbeat: bool,
    /// The causes of an ERROR are still due, if there are any.
    pub(crate) causes: bool,
    pub(crate) sack: bool,
    pub(crate) forward: bool,
    /// The responses of a RE-CONFIG are still due, if there are any.
    pub(crate) answers: bool,
    /// A request to reset streams is still due.
    pub(crate) request: bool,
    pub(crate) shutdown: bool,
    pub(crate) shutdown_ack: bool,
    pub(crate) starts: Starts,
}

/// A packet under construction, and what it changes.
#[derive(Drop)]
pub(crate) struct Packing {
    pub(crate) writer: PacketWriter,
    pub(crate) marks: Marks,
}

#[tactic(auto, unfolding(crate::specs::MachineStands::MachineStands))]
impl Machine {
    /// An empty packet of this endpoint, in the buffer that it keeps, with all that is due.
    pub(crate) fn packing(&mut self) -> Packing
        ensures empty { (v : EndView) (moment : ℕ) → MachineStands self.old v → IsEmpty (record v { moment = moment }) result }
        ensures keeps { (v : EndView) → MachineStands self.old v → MachineStands self.new v }
    {
        let writer = self.empty_packet();
        Packing {
            writer,
            marks: Marks::of(&self.due),
        }
    }

    /// An empty packet of this endpoint, in the buffer that it keeps.
    #[inline(always)]
    pub(crate) fn empty_packet(&mut self) -> PacketWriter
        ensures empty { (v : EndView) → MachineStands self.old v → IsFresh v result }
        ensures keeps { (v : EndView) → MachineStands self.old v → MachineStands self.new v }
        ensures kept { self.new.due ≡ self.old.due }
    {
        let room = self.take_room();
        let config = &self.config;
        let tag = self.peer_tag().unwrap_or(0);
        PacketWriter::in_room(
            room,
            config.limit(),
            config.own_port(),
            config.peer_port(),
            tag,
        )
    }

    /// If a FORWARD-TSN is due, has it ready for this packet: one that was built for the same point is used again (`Sender::keep_forward`), so that
    /// a SACK which changes nothing costs no walk over the TSNs that it skips. It may allocate, and does without where memory is refused.
    pub(crate) fn keep_forward(&mut self)
        ensures { (v : EndView) → MachineStands self.old v → MachineStands self.new v }
    {
        if !self.due.forward {
            return;
        }
        let limit = self.config.limit();
        match &mut self.life {
            Life::Unjoined(_) => {}
            Life::Joined(association) => association.traffic.keep_forward(limit),
        }
    }

    /// The packet goes out, if it has a chunk: its chunks are no longer due, and their timers start.
    pub(crate) fn sent(&mut self, moment: u64, packing: Packing, filled: Filled) -> Option<Built>
        ensures stands { (v : EndView) → MachineStands self.old v → MachineStands self.new (drafted packing.marks (record v { moment = moment })) }
        ensures packet { MatchOption result (packing.writer.chunks ≡ []) (λ b. WritesPacket b.packet.items (packet_of packing.writer)) }
        ensures size { IfSome result (λ b. length b.packet.items ≡ size_of_packet packing.writer.chunks) }
        ensures within { IfSome result (λ b. length b.packet.items ≤ packing.writer.limit) }
        ensures tickets { IfSome result (λ b. b.tickets ≡ filled.tickets) }
        ensures sendings { IfSome result (λ b. b.sendings ≡ filled.sendings) }
    {
        self.moment = moment;
        self.when_sack_sent(self.due.sack, packing.marks.sack);
        self.when_answers_sent(packing.marks.answers);
        self.timers.start_all(packing.marks.starts, moment);
        self.due.leave(self.alloc, packing.marks);
        self.finished(packing.writer, filled)
    }

    /// The packet is ready if it has a chunk; else its buffer is kept.
    #[inline(always)]
    pub(crate) fn finished(&mut self, writer: PacketWriter, filled: Filled) -> Option<Built>
        ensures stands { (v : EndView) → MachineStands self.old v → MachineStands self.new v }
        ensures packet { MatchOption result (writer.chunks ≡ []) (λ b. WritesPacket b.packet.items (packet_of writer)) }
        ensures size { IfSome result (λ b. length b.packet.items ≡ size_of_packet writer.chunks) }
        ensures within { IfSome result (λ b. length b.packet.items ≤ writer.limit) }
        ensures tickets { IfSome result (λ b. b.tickets ≡ filled.tickets) }
        ensures sendings { IfSome result (λ b. b.sendings ≡ filled.sendings) }
    {
        match writer.finish_or_room() {
            Ok(packet) => Some(Built {
                packet,
                tickets: filled.tickets,
                sendings: filled.sendings,
            }),
            Err(room) => {
                self.recycle(room);
                None
            }
        }
    }

    /// If a SACK that was due went out, the duplicates that it reported are forgotten, and no SACK is delayed any more (RFC 9260, 6.2).
    pub(crate) fn when_sack_sent(&mut self, was_due: bool, is_due: bool)
        ensures { (v : EndView) → MachineStands self.old v
            → MachineStands self.new (record v {
              delayed = delayed_left was_due is_due v.delayed;
              offered = offered_left was_due is_due v.receiver v.offered;
              receiver = receiver_left was_due is_due v.receiver;
            }) }
    {
        if !was_due {
            return;
        }
        if is_due {
            return;
        }
        self.delayed = None;
        self.sack_sent();
    }

    /// If responses of a RE-CONFIG went out, none waits any more (RFC 6525, 5.2).
    pub(crate) fn when_answers_sent(&mut self, are_due: bool)
        ensures { (v : EndView) → MachineStands self.old v → MachineStands self.new (record v { receiver = answers_left are_due v.receiver }) }
    {
        if are_due {
            return;
        }
        match &mut self.life {
            Life::Unjoined(_) => {}
            Life::Joined(association) => association.traffic.answers_sent(),
        }
    }

    /// A SACK went out: the duplicates that it reported are forgotten.
    fn sack_sent(&mut self)
        ensures { (v : EndView) → MachineStands self.old v → MachineStands self.new (record v { receiver = sack_sent v.receiver }) }
    {
        match &mut self.life {
            Life::Unjoined(_) => {}
            Life::Joined(association) => association.traffic.sack_sent(),
        }
    }
}

impl Marks {
    /// All that is due stays due, and no timer starts.
    pub(crate) fn of(due: &Due) -> Marks
        ensures same { (v : EndView) → DueStands due.now v.due → drafted result v ≡ v }
        ensures sack { result.sack ≡ due.now.sack }
    {
        Marks {
            init: due.init,
            cookie_echo: due.cookie_echo,
            cookie_ack: due.cookie_ack,
            heartbeat: true,
            causes: true,
            sack: due.sack,
            forward: due.forward,
            answers: true,
            request: due.request,
            shutdown: due.shutdown,
            shutdown_ack: due.shutdown_ack,
            starts: Starts::none(),
        }
    }
}

impl Due {
    /// What went out is no longer due.
    pub(crate) fn leave(&mut self, alloc: Global, marks: Marks)
        ensures { (d : model.Due) → DueStands self.old d → DueStands self.new (due_left marks d) }
    {
        self.init = marks.init;
        self.cookie_echo = marks.cookie_echo;
        self.cookie_ack = marks.cookie_ack;
        leave_info(&mut self.heartbeat, marks.heartbeat);
        leave_causes(alloc, &mut self.causes, marks.causes);
        self.sack = marks.sack;
        self.forward = marks.forward;
        self.request = marks.request;
        self.shutdown = marks.shutdown;
        self.shutdown_ack = marks.shutdown_ack;
    }
}

/// The value of a HEARTBEAT, unless it went out.
fn leave_info(heartbeat: &mut Option<HeartbeatInfo>, stays: bool)
    ensures { option_map info_bytes heartbeat.new ≡ value_left stays (option_map info_bytes heartbeat.old) }
{
    if stays {
        return;
    }
    *heartbeat = None;
}

/// The causes, unless they went out.
fn leave_causes(alloc: Global, causes: &mut WaitingCauses, stay: bool)
    ensures { (xs : List Typed) → WritesTyped causes.old.bytes.items xs → WritesTyped causes.new.bytes.items (causes_left stay xs) }
{
    if stay {
        return;
    }
    *causes = WaitingCauses::none(alloc);
}
