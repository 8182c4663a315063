//! What a SHUTDOWN chunk does (RFC 9260, 3.3.8 and 9.2).

ghost use Rattle.std.specs.Prelude.{◌≡◌, true, IfOk, OnErr};
ghost use Rattle.sctp_model.specs.end.EndView.{EndView};
ghost use Rattle.sctp_model.specs.end.EndView as model;
ghost use Rattle.sctp_model.specs.end.Closing.{takes_acknowledgements};
ghost use Rattle.sctp_model.specs.end.Acting.{ShutdownActs};
ghost use Rattle.sctp_association.specs.StageMeans.{stage_meaning, tags_meaning};
ghost use Rattle.sctp_association.specs.MachineStands.{MachineStands};
ghost use Rattle.sctp_endpoint.specs.Left.{Left};

use crate::after::After;
use sctp_association::{Machine, Opened, Stage};
use sctp_send::SackFault;
use sctp_values::NoMemory;
use sctp_wire::codes::PROTOCOL_VIOLATION;

/// A SHUTDOWN is received: the peer sends no further messages. It is answered at once if this endpoint sends none either.
///
/// # Errors
/// `NoMemory` if an allocation failed; nothing changed then.
pub(crate) fn on_shutdown(machine: &mut Machine, tsn: u32) -> Result<After, NoMemory>
    ensures step { (v : EndView) → MachineStands machine.old v → IfOk result (λ a. Left a v (ShutdownActs v tsn) machine.new) }
    ensures refused { (v : EndView) → MachineStands machine.old v → OnErr result (MachineStands machine.new v) }
{
    let Some(opened) = machine.opened() else {
        return Ok(After::PassedOver);
    };
    if opened.stage.takes_acknowledgements() {
        return on_counting(machine, opened, tsn);
    }
    if opened.stage.is_shutdown_sent() {
        machine.answer_shutdown();
        return Ok(After::GoesOn);
    }
    machine.repeat_shutdown_ack();
    Ok(After::GoesOn)
}

/// A SHUTDOWN is received in a state that takes acknowledgements: its cumulative TSN counts as that of a SACK unless it is older than an earlier one;
/// one that acknowledges a TSN that wasn't sent aborts the association.
///
/// # Errors
/// `NoMemory` if an allocation failed; nothing changed then.
fn on_counting(machine: &mut Machine, opened: Opened, tsn: u32) -> Result<After, NoMemory>
    ensures step { (v : EndView) → MachineStands machine.old v → v.phase ≡ model.Open (tags_meaning opened.tags) (stage_meaning opened.stage)
        → takes_acknowledgements (stage_meaning opened.stage) ≡ true → IfOk result (λ a. Left a v (ShutdownActs v tsn) machine.new) }
    ensures refused { (v : EndView) → MachineStands machine.old v → v.phase ≡ model.Open (tags_meaning opened.tags) (stage_meaning opened.stage)
        → OnErr result (MachineStands machine.new v) }
{
    let peer = opened.tags.peer;
    match machine.hear_shutdown(tsn) {
        Ok(()) => {
            machine.turn(Stage::ShutdownReceived);
            Ok(After::GoesOn)
        }
        Err(SackFault::Stale) => {
            machine.turn(Stage::ShutdownReceived);
            Ok(After::GoesOn)
        }
        Err(SackFault::Beyond) => {
            Ok(After::Replies(machine.abort_with(peer, PROTOCOL_VIOLATION, &[])?))
        }
        Err(SackFault::BadBlock) => {
            Ok(After::Replies(machine.abort_with(peer, PROTOCOL_VIOLATION, &[])?))
        }
    }
}
