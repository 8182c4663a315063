//! The chunks that answer the peer go into a packet: COOKIE ACK, HEARTBEAT ACK, ERROR (RFC 9260, 5.1, 8.3, 3.3.10 and 6.10).

ghost use Rattle.std.specs.Prelude.{◌≡◌, [], ◌∷◌, true, Some, IfOk};
ghost use Rattle.sctp_model.specs.end.EndView.{EndView};
ghost use Rattle.sctp_model.specs.end.Building.{CookieAckSlot, HeartbeatSlot, BeatSlot, ErrorSlot, has_causes};
ghost use Rattle.sctp_model.specs.end.Reports.{written};
ghost use Rattle.sctp_association.specs.DueStands.{DueStands};
ghost use Rattle.sctp_association.specs.Drafted.{PutsAt, IsOf};

use crate::build::packing::Packing;
use crate::state::carried::{HeartbeatInfo, WaitingCauses};
use crate::state::due::Due;
use sctp_values::NoMemory;
use sctp_wire::{Causes, Chunk};

/// COOKIE ACK, HEARTBEAT ACK and ERROR, as they are due; no HEARTBEAT is. False if one of them is due and doesn't fit.
///
/// # Errors
/// `NoMemory` if an allocation was refused.
pub(crate) fn put_answers(due: &Due, packing: &mut Packing) -> Result<bool, NoMemory>
    ensures { (e : EndView) → DueStands due.now e.due → IsOf e packing.old
        → IfOk result (λ room. PutsAt (CookieAckSlot ∷ HeartbeatSlot ∷ BeatSlot ∷ ErrorSlot ∷ []) e packing.old packing.new room) }
{
    if !put_cookie_ack(packing)? {
        return Ok(false);
    }
    if !put_heartbeat(due, packing)? {
        return Ok(false);
    }
    put_error(due, packing)
}

/// COOKIE ACK (RFC 9260, 5.1, D).
fn put_cookie_ack(packing: &mut Packing) -> Result<bool, NoMemory>
    ensures { (e : EndView) → IsOf e packing.old → IfOk result (λ room. PutsAt (CookieAckSlot ∷ []) e packing.old packing.new room) }
{
    if !packing.marks.cookie_ack {
        return Ok(true);
    }
    if !packing.writer.try_chunk(&Chunk::CookieAck)? {
        return Ok(false);
    }
    packing.marks.cookie_ack = false;
    Ok(true)
}

/// HEARTBEAT ACK (RFC 9260, 8.3), if a HEARTBEAT is to be answered.
fn put_heartbeat(due: &Due, packing: &mut Packing) -> Result<bool, NoMemory>
    ensures { (e : EndView) → DueStands due.now e.due → IsOf e packing.old → IfOk result (λ room. PutsAt (HeartbeatSlot ∷ []) e packing.old packing.new room) }
{
    match &due.heartbeat {
        None => Ok(true),
        Some(info) => put_info(info, packing),
    }
}

/// HEARTBEAT ACK with this value, unless it is in already.
fn put_info(info: &HeartbeatInfo, packing: &mut Packing) -> Result<bool, NoMemory>
    ensures { (e : EndView) → e.due.heartbeat ≡ Some info.now.bytes.items → IsOf e packing.old → IfOk result (λ room. PutsAt (HeartbeatSlot ∷ []) e packing.old packing.new room) }
{
    if !packing.marks.heartbeat {
        return Ok(true);
    }
    let chunk = Chunk::HeartbeatAck { info: &info.bytes };
    if !packing.writer.try_chunk(&chunk)? {
        return Ok(false);
    }
    packing.marks.heartbeat = false;
    Ok(true)
}

/// ERROR (RFC 9260, 3.3.10), if there are causes.
pub(crate) fn put_error(due: &Due, packing: &mut Packing) -> Result<bool, NoMemory>
    ensures { (e : EndView) → DueStands due.now e.due → IsOf e packing.old → IfOk result (λ room. PutsAt (ErrorSlot ∷ []) e packing.old packing.new room) }
{
    if due.causes.bytes.is_empty() {
        return Ok(true);
    }
    put_causes(&due.causes, packing)
}

/// ERROR with these causes, unless it is in already.
fn put_causes(causes: &WaitingCauses, packing: &mut Packing) -> Result<bool, NoMemory>
    ensures { (e : EndView) → causes.now.bytes.items ≡ written e.due.causes → has_causes e.due.causes ≡ true → IsOf e packing.old
        → IfOk result (λ room. PutsAt (ErrorSlot ∷ []) e packing.old packing.new room) }
{
    if !packing.marks.causes {
        return Ok(true);
    }
    let chunk = Chunk::Error {
        causes: Causes::new(&causes.bytes),
    };
    if !packing.writer.try_chunk(&chunk)? {
        return Ok(false);
    }
    packing.marks.causes = false;
    Ok(true)
}
