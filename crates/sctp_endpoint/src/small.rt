//! HEARTBEAT chunks, and chunks of an unrecognized type (RFC 9260, 3.2 and 8.3).

ghost use Rattle.std.specs.Prelude.{◌≡◌, ℕ, Bool, ◌&&◌, if◌then◌else◌, IfOk, OnOk, OnErr};
ghost use Rattle.sctp_model.specs.wire.Chunk.{HeartbeatAck, Unknown};
ghost use Rattle.sctp_model.specs.end.EndView.{EndView};
ghost use Rattle.sctp_model.specs.end.Reports.{causes_with, with_causes};
ghost use Rattle.sctp_model.specs.end.Acting.{Acts, HeartbeatActs, may_report, unknown_item};
ghost use Rattle.sctp_association.specs.MachineStands.{MachineStands};
ghost use Rattle.sctp_endpoint.specs.Left.{Left};

use crate::after::After;
use sctp_association::Machine;
use sctp_values::NoMemory;
use sctp_wire::unknown_chunk;

/// A HEARTBEAT is received: if an association is open, a HEARTBEAT ACK with its value is due (RFC 9260, 8.3).
///
/// # Errors
/// `NoMemory` if the allocation for the value failed; nothing changed then.
pub(crate) fn on_heartbeat(machine: &mut Machine, info: &[u8]) -> Result<After, NoMemory>
    ensures step { (v : EndView) → MachineStands machine.old v → IfOk result (λ a. Left a v (HeartbeatActs v info.now) machine.new) }
    ensures refused { (v : EndView) → MachineStands machine.old v → OnErr result (MachineStands machine.new v) }
{
    if !machine.is_open() {
        return Ok(After::PassedOver);
    }
    machine.hear_heartbeat(info)?;
    Ok(After::GoesOn)
}

/// A HEARTBEAT ACK is received: it goes on (RFC 9260, 8.3).
pub(crate) fn on_heartbeat_ack(machine: &mut Machine, info: &[u8]) -> After
    ensures { (v : EndView) (tag : ℕ) → MachineStands machine.old v → Left result v (Acts v tag (HeartbeatAck info.now)) machine.new }
{
    machine.hear_heartbeat_ack(info);
    After::GoesOn
}

/// A chunk of a type without a case of its own: a RE-CONFIG acts by its parameters if that was agreed on (RFC 6525, 5.2). Any other type is
/// unrecognized: its two highest bits say whether it is reported to the peer, and whether the chunks after it are handled (RFC 9260, 3.2).
///
/// # Errors
/// `NoMemory` if the allocation for the report failed; nothing changed then.
pub(crate) fn on_unknown(
    machine: &mut Machine,
    kind: u8,
    flags: u8,
    value: &[u8],
) -> Result<After, NoMemory>
    ensures step { (v : EndView) (tag : ℕ) → MachineStands machine.old v → IfOk result (λ a. Left a v (Acts v tag (Unknown kind flags value.now)) machine.new) }
    ensures refused { (v : EndView) → MachineStands machine.old v → OnErr result (MachineStands machine.new v) }
{
    if machine.takes_reconfig(kind) {
        machine.hear_reconfig(value)?;
        return Ok(After::GoesOn);
    }
    let rule = unknown_chunk(kind);
    report(machine, rule.report, kind, flags, value)?;
    if rule.stop {
        Ok(After::Ends)
    } else {
        Ok(After::GoesOn)
    }
}

/// Reports a chunk to the peer if its type asks for that and there is a peer (RFC 9260, 3.3.10.6).
///
/// # Errors
/// `NoMemory` if an allocation failed; nothing changed then.
fn report(
    machine: &mut Machine,
    asked: bool,
    kind: u8,
    flags: u8,
    value: &[u8],
) -> Result<(), NoMemory>
    ensures step { (v : EndView) → MachineStands machine.old v → OnOk result (MachineStands machine.new
        (with_causes (if asked && may_report v.phase then causes_with v (unknown_item kind flags value.now) else v.due.causes) v)) }
    ensures refused { (v : EndView) → MachineStands machine.old v → OnErr result (MachineStands machine.new v) }
{
    if !asked {
        return Ok(());
    }
    if !machine.may_report() {
        return Ok(());
    }
    machine.report_chunk(kind, flags, value)
}
