//! The chunks that set up an association, at an endpoint that has begun one: INIT ACK, COOKIE ECHO, COOKIE ACK (RFC 9260, 5.1 and 5.2).

ghost use Rattle.std.specs.Prelude.{◌<◌, IfOk, OnErr};
ghost use Rattle.sctp_model.specs.end.EndView.{EndView};
ghost use Rattle.sctp_model.specs.end.Opening.{InitAckActs, EchoActs, CookieAckActs};
ghost use Rattle.sctp_wire.specs.ChunkTree.{init_meaning};
ghost use Rattle.sctp_association.specs.MachineStands.{MachineStands};
ghost use Rattle.sctp_endpoint.specs.Left.{Left};

use crate::after::After;
use sctp_association::Machine;
use sctp_terms::Reason;
use sctp_values::NoMemory;
use sctp_wire::Init;

/// An INIT ACK is received: a caller takes the first one, and ignores all later ones (RFC 9260, 5.1, C and 5.2.3).
///
/// # Errors
/// `NoMemory` if an allocation failed; nothing changed then.
pub(crate) fn on_init_ack(machine: &mut Machine, offer: &Init<'_>) -> Result<After, NoMemory>
    ensures step { (v : EndView) → MachineStands machine.old v → IfOk result (λ a. Left a v (InitAckActs v (init_meaning offer.now)) machine.new) }
    ensures refused { (v : EndView) → MachineStands machine.old v → OnErr result (MachineStands machine.new v) }
    // One that is dropped for its tag needs no memory.
    ensures tagged { OnErr result (0 < offer.now.tag) }
{
    let Some(draw) = machine.calling() else {
        return Ok(After::PassedOver);
    };
    if offer.tag == 0 {
        return Ok(After::Drops(Reason::Tag));
    }
    match machine.cookie_in(offer) {
        Ok(cookie) => {
            machine.echo(draw, offer, cookie)?;
            Ok(After::GoesOn)
        }
        Err(fault) => Ok(After::Replies(machine.refuse_ack(offer.tag, fault)?)),
    }
}

/// A COOKIE ECHO is received again, with this verification tag: its COOKIE ACK may have been lost, so it is sent again (RFC 9260, 5.2.4). It allocates
/// no memory.
pub(crate) fn on_cookie_echo(machine: &mut Machine, tag: u32, cookie: &[u8]) -> After
    ensures { (v : EndView) → MachineStands machine.old v → Left result v (EchoActs v tag cookie.now) machine.new }
{
    let Some(opened) = machine.opened() else {
        return After::PassedOver;
    };
    if !opened.stage.takes_cookies() {
        return After::PassedOver;
    }
    let Some(reading) = machine.read_cookie(tag, cookie) else {
        return After::PassedOver;
    };
    if !reading.is_of(opened.tags.own, opened.tags.peer) {
        return After::Drops(Reason::Cookie);
    }
    machine.acknowledge_cookie();
    After::GoesOn
}

/// A COOKIE ACK is received: the association of a caller is established (RFC 9260, 5.1, E). It allocates no memory.
pub(crate) fn on_cookie_ack(machine: &mut Machine) -> After
    ensures { (v : EndView) → MachineStands machine.old v → Left result v (CookieAckActs v) machine.new }
{
    if !machine.is_echoing() {
        return After::PassedOver;
    }
    machine.establish();
    After::GoesOn
}
