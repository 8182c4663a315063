//! Chunks that end an association: ABORT, an ERROR for a stale cookie, SHUTDOWN ACK and SHUTDOWN COMPLETE (RFC 9260, 5.2.6, 9.1 and 9.2).

ghost use Rattle.std.specs.Prelude.{◌≡◌, Bool, List, ℕ, IfOk, OnErr};
ghost use Rattle.sctp_model.specs.wire.Typed.{typed_in};
ghost use Rattle.sctp_model.specs.end.EndView.{EndView};
ghost use Rattle.sctp_model.specs.end.Reports as reports;
ghost use Rattle.sctp_model.specs.end.Acting.{Acts, ErrorActs, ShutdownAckActs, CompleteActs, has_cause};
ghost use Rattle.sctp_model.specs.wire.Chunk.{Abort};
ghost use Rattle.sctp_association.specs.MachineStands.{MachineStands};
ghost use Rattle.sctp_endpoint.specs.Left.{Left};

use crate::after::After;
use sctp_association::Machine;
use sctp_terms::End;
use sctp_values::NoMemory;
use sctp_wire::Causes;
use sctp_wire::codes::STALE_COOKIE;

/// An ABORT ends the association (RFC 9260, 9.1).
pub(crate) fn on_abort(machine: &mut Machine) -> After
    ensures { (v : EndView) (tag : ℕ) (reflected : Bool) (causes : List ℕ) → MachineStands machine.old v
        → Left result v (Acts v tag (Abort reflected causes)) machine.new }
{
    machine.close(End::Aborted);
    After::Ends
}

/// An ERROR has no effect but at a caller whose cookie was stale (RFC 9260, 3.3.10 and 5.2.6).
pub(crate) fn on_error(machine: &mut Machine, causes: &Causes<'_>) -> After
    ensures { (v : EndView) → MachineStands machine.old v → Left result v (ErrorActs v causes.now) machine.new }
{
    if !machine.is_echoing() {
        return After::GoesOn;
    }
    if !has_stale_cookie(causes) {
        return After::GoesOn;
    }
    machine.close(End::StaleCookie);
    After::Ends
}

/// Whether one of the causes is a Stale Cookie (RFC 9260, 3.3.10.3).
fn has_stale_cookie(causes: &Causes<'_>) -> bool
    ensures { result ≡ has_cause reports.STALE_COOKIE (typed_in causes.now) }
{
    for cause in causes.iter() {
        if cause.kind == STALE_COOKIE {
            return true;
        }
    }
    false
}

/// A SHUTDOWN ACK that is awaited completes the association, and is answered by SHUTDOWN COMPLETE (RFC 9260, 9.2).
///
/// # Errors
/// `NoMemory` if the allocation of the answer failed; nothing changed then.
pub(crate) fn on_shutdown_ack(machine: &mut Machine) -> Result<After, NoMemory>
    ensures step { (v : EndView) → MachineStands machine.old v → IfOk result (λ a. Left a v (ShutdownAckActs v) machine.new) }
    ensures refused { (v : EndView) → MachineStands machine.old v → OnErr result (MachineStands machine.new v) }
{
    let Some(opened) = machine.opened() else {
        return Ok(After::PassedOver);
    };
    if !opened.stage.awaits_shutdown_ack() {
        return Ok(After::PassedOver);
    }
    Ok(After::Replies(machine.complete(opened.tags.peer)?))
}

/// A SHUTDOWN COMPLETE that is awaited completes the association (RFC 9260, 9.2).
pub(crate) fn on_complete(machine: &mut Machine) -> After
    ensures { (v : EndView) → MachineStands machine.old v → Left result v (CompleteActs v) machine.new }
{
    let Some(opened) = machine.opened() else {
        return After::PassedOver;
    };
    if !opened.stage.awaits_shutdown_complete() {
        return After::PassedOver;
    }
    machine.close(End::Completed);
    After::Ends
}
