//! What a FORWARD-TSN or an I-FORWARD-TSN chunk does (RFC 3758, 3.6; RFC 8260, 2.3.1).

ghost use Rattle.std.specs.Prelude.{◌≡◌, true, false, IfOk, OnErr};
ghost use Rattle.sctp_model.specs.end.EndView.{EndView, format_for};
ghost use Rattle.sctp_model.specs.end.Acting.{ForwardActs, may_forward};
ghost use Rattle.sctp_wire.specs.ChunkTree.{forward_meaning};
ghost use Rattle.sctp_association.specs.MachineStands.{MachineStands};
ghost use Rattle.sctp_endpoint.specs.declared.after.After.TheVariants.{Acknowledges};
ghost use Rattle.sctp_endpoint.specs.Left.{Left};

use crate::after::After;
use sctp_association::Machine;
use sctp_recv::ForwardAnswer;
use sctp_values::NoMemory;
use sctp_wire::Forward;
use sctp_wire::codes::PROTOCOL_VIOLATION;

/// A FORWARD-TSN or I-FORWARD-TSN is received. One that isn't supported here, or is invalid, aborts the association.
///
/// # Errors
/// `NoMemory` if an allocation failed; nothing changed then.
pub(crate) fn on_forward(
    machine: &mut Machine,
    interleaved: bool,
    forward: &Forward<'_>,
) -> Result<After, NoMemory>
    ensures step { (v : EndView) → MachineStands machine.old v → IfOk result (λ a. Left a v (ForwardActs (format_for interleaved) v (forward_meaning forward.now)) machine.new) }
    ensures refused { (v : EndView) → MachineStands machine.old v → OnErr result (MachineStands machine.new v) }
{
    let Some(opened) = machine.opened() else {
        return Ok(After::PassedOver);
    };
    if !opened.stage.takes_data() {
        return Ok(After::PassedOver);
    }
    let peer = opened.tags.peer;
    if !may_forward(machine, interleaved) {
        return Ok(After::Replies(machine.abort_with(peer, PROTOCOL_VIOLATION, &[])?));
    }
    match machine.hear_forward(forward)? {
        ForwardAnswer::Bad => {
            Ok(After::Replies(machine.abort_with(peer, PROTOCOL_VIOLATION, &[])?))
        }
        ForwardAnswer::OutOfDate => Ok(acted()),
        ForwardAnswer::Moved => Ok(acted()),
    }
}

/// A FORWARD-TSN was handled: it has no user data, and is acknowledged at once (RFC 3758, 3.6).
fn acted() -> After
    ensures { result ≡ Acknowledges false true }
{
    After::Acknowledges {
        is_data: false,
        at_once: true,
    }
}

/// Whether the peer may send a FORWARD-TSN of this format: the association uses the format, and partial reliability.
fn may_forward(machine: &Machine, interleaved: bool) -> bool
    ensures { (v : EndView) → MachineStands machine.now v → result ≡ may_forward (format_for interleaved) v }
{
    machine.is_interleaved() == interleaved && machine.is_partial()
}
