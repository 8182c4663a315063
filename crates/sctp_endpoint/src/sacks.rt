//! What a SACK does (RFC 9260, 6.2.1).

ghost use Rattle.std.specs.Prelude.{◌≡◌, true, false, IfOk, OnErr};
ghost use Rattle.sctp_model.specs.end.EndView.{EndView};
ghost use Rattle.sctp_model.specs.end.PeerFaults.{Unnoted, GoesOn};
ghost use Rattle.sctp_model.specs.end.Acting.{SackActs};
ghost use Rattle.sctp_wire.specs.ChunkTree.{sack_meaning};
ghost use Rattle.sctp_association.specs.MachineStands.{MachineStands};
ghost use Rattle.sctp_endpoint.specs.Left.{Left};

use crate::after::After;
use crate::pieces::is_established;
use sctp_association::Machine;
use sctp_send::SackFault;
use sctp_values::NoMemory;
use sctp_wire::Sack;
use sctp_wire::codes::PROTOCOL_VIOLATION;

/// A SACK is received: true only if it counts, or is older than an earlier one and does nothing. Else nothing changed.
///
/// # Errors
/// `NoMemory` if an allocation failed; nothing changed then.
#[inline(always)]
pub(crate) fn counts(machine: &mut Machine, sack: &Sack<'_>) -> Result<bool, NoMemory>
    ensures heard { (v : EndView) → MachineStands machine.old v → IfOk result (λ counts. counts ≡ true
        → (w : EndView) × SackActs v (sack_meaning sack.now) (GoesOn Unnoted w) × MachineStands machine.new w) }
    ensures left { (v : EndView) → MachineStands machine.old v → IfOk result (λ counts. counts ≡ false → MachineStands machine.new v) }
    ensures refused { (v : EndView) → MachineStands machine.old v → OnErr result (MachineStands machine.new v) }
{
    let Some(opened) = machine.opened() else {
        return Ok(false);
    };
    if !is_established(opened.stage) {
        return Ok(false);
    }
    match machine.hear_sack(sack)? {
        Ok(()) => Ok(true),
        Err(SackFault::Stale) => Ok(true),
        Err(_) => Ok(false),
    }
}

/// A SACK is received. One that is older than an earlier one does nothing; one that acknowledges a TSN that wasn't sent, or has invalid gap blocks,
/// aborts the association.
///
/// # Errors
/// `NoMemory` if an allocation failed; nothing changed then.
pub(crate) fn on_sack(machine: &mut Machine, sack: &Sack<'_>) -> Result<After, NoMemory>
    ensures step { (v : EndView) → MachineStands machine.old v → IfOk result (λ a. Left a v (SackActs v (sack_meaning sack.now)) machine.new) }
    ensures refused { (v : EndView) → MachineStands machine.old v → OnErr result (MachineStands machine.new v) }
{
    let Some(opened) = machine.opened() else {
        return Ok(After::PassedOver);
    };
    if !opened.stage.takes_acknowledgements() {
        return Ok(After::PassedOver);
    }
    let peer = opened.tags.peer;
    match machine.hear_sack(sack)? {
        Ok(()) => Ok(After::GoesOn),
        Err(SackFault::Stale) => Ok(After::GoesOn),
        Err(SackFault::Beyond) => {
            Ok(After::Replies(machine.abort_with(peer, PROTOCOL_VIOLATION, &[])?))
        }
        Err(SackFault::BadBlock) => {
            Ok(After::Replies(machine.abort_with(peer, PROTOCOL_VIOLATION, &[])?))
        }
    }
}
