//! What an endpoint answers to its peer, at once or in its next packets (RFC 9260, 8.3, 9.1 and 9.2). All memory is allocated before anything
//! changes.

ghost use Rattle.std.specs.Prelude.{◌≡◌, ◌≤◌, true, false, length, IfOk, OnOk, OnErr};
ghost use Rattle.sctp_model.specs.wire.Chunk.{ShutdownComplete};
ghost use Rattle.sctp_model.specs.end.EndView.{EndView};
ghost use Rattle.sctp_model.specs.end.EndView as model;
ghost use Rattle.sctp_model.specs.end.Clock.{closed};
ghost use Rattle.sctp_model.specs.end.Closing.{with_due, answers_shutdown};
ghost use Rattle.sctp_model.specs.end.Reports.{item};
ghost use Rattle.sctp_model.specs.end.PeerFaults.{packet_to, abort_for};
ghost use Rattle.sctp_model.specs.end.Acting.{heartbeat_heard};
ghost use Rattle.sctp_model.specs.end.Beating.{beat_heard};
ghost use Rattle.sctp_packet.specs.PacketBytes.{WritesPacket};
ghost use Rattle.sctp_association.specs.MachineStands.{MachineStands};

use crate::machine::Machine;
use crate::state::carried::HeartbeatInfo;
use crate::state::stage::Stage;
use sctp_opening::{abort_packet, lone_packet, room_behind};
use sctp_terms::End;
use sctp_values::NoMemory;
use sctp_wire::Chunk;

#[tactic(auto, unfolding(crate::specs::MachineStands::MachineStands))]
impl Machine {
    /// Processes a HEARTBEAT: a HEARTBEAT ACK with its value is due, if that fits a packet, in place of an older one that is still due (RFC 9260, 8.3).
    ///
    /// # Errors
    /// `NoMemory` if an allocation was refused; nothing changed then.
    pub fn hear_heartbeat(&mut self, info: &[u8]) -> Result<(), NoMemory>
        ensures step { (v : EndView) → MachineStands self.old v → OnOk result (MachineStands self.new (heartbeat_heard v info.now)) }
        ensures refused { (v : EndView) → MachineStands self.old v → OnErr result (MachineStands self.new v) }
    {
        if info.len() > room_behind(&self.config, 4) {
            return Ok(());
        }
        let copied = HeartbeatInfo::copied(self.alloc, info)?;
        self.due.bring_back(copied);
        Ok(())
    }

    /// Processes a HEARTBEAT ACK. The endpoint sends no HEARTBEATs, so it answers none, and nothing changes (RFC 9260, 8.3).
    pub fn hear_heartbeat_ack(&mut self, info: &[u8])
        ensures { (v : EndView) → MachineStands self.old v → MachineStands self.new (beat_heard v info.now) }
    {
        let _info = info;
    }

    /// Closes the endpoint. The packet is an ABORT with this cause, of at most 4 bytes, under the peer's tag (RFC 9260, 9.1).
    ///
    /// # Errors
    /// `NoMemory` if an allocation was refused; nothing changed then.
    pub fn abort_with(&mut self, tag: u32, cause: u16, value: &[u8]) -> Result<Vec<u8>, NoMemory>
        requires { length value.now ≤ 4 }
        ensures step { (v : EndView) → MachineStands self.old v
            → IfOk result (λ packet. WritesPacket packet.items (packet_to v.configuration tag (abort_for (item cause value.now))) × MachineStands self.new (closed model.AbortedHere v)) }
        ensures within { (v : EndView) → MachineStands self.old v → IfOk result (λ packet. length packet.items ≤ v.configuration.limit) }
        ensures refused { (v : EndView) → MachineStands self.old v → OnErr result (MachineStands self.new v) }
    {
        // By the clause of `limit` a packet has space for the cause.
        let _limit = self.config.limit();
        let packet = abort_packet(self.alloc, &self.config, tag, cause, value)?;
        self.close(End::AbortedHere);
        Ok(packet)
    }

    /// Closes the endpoint gracefully. The packet is a SHUTDOWN COMPLETE under the peer's tag (RFC 9260, 9.2).
    ///
    /// # Errors
    /// `NoMemory` if an allocation was refused; nothing changed then.
    pub fn complete(&mut self, tag: u32) -> Result<Vec<u8>, NoMemory>
        ensures step { (v : EndView) → MachineStands self.old v
            → IfOk result (λ packet. WritesPacket packet.items (packet_to v.configuration tag (ShutdownComplete false)) × MachineStands self.new (closed model.Completed v)) }
        ensures within { (v : EndView) → MachineStands self.old v → IfOk result (λ packet. length packet.items ≤ v.configuration.limit) }
        ensures refused { (v : EndView) → MachineStands self.old v → OnErr result (MachineStands self.new v) }
    {
        // By the clause of `limit` a packet has space for it.
        let _limit = self.config.limit();
        let chunk = Chunk::ShutdownComplete { reflected: false };
        let packet = lone_packet(self.alloc, &self.config, tag, &chunk)?;
        self.close(End::Completed);
        Ok(packet)
    }

    /// An open association answers the peer's SHUTDOWN: it enters SHUTDOWN-ACK-SENT, and a SHUTDOWN ACK is due (RFC 9260, 9.2).
    pub fn answer_shutdown(&mut self)
        ensures { (v : EndView) (t : model.Tags) (g : model.Stage) → MachineStands self.old v → v.phase ≡ model.Open t g → MachineStands self.new (answers_shutdown t v) }
    {
        self.turn(Stage::ShutdownAckSent);
        self.due.owe_shutdown_ack();
    }

    /// The SHUTDOWN ACK is due again: the peer repeated its SHUTDOWN (RFC 9260, 9.2).
    pub fn repeat_shutdown_ack(&mut self)
        ensures { (v : EndView) → MachineStands self.old v → MachineStands self.new (with_due (record v.due { shutdown_ack = true }) v) }
    {
        self.due.owe_shutdown_ack();
    }
}
