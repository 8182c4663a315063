//! RE-CONFIG goes into a packet: the responses that wait, and the request that is due, each as a chunk of its own (RFC 6525, 3.1 and 5).

ghost use Rattle.std.specs.Prelude.{◌≡◌, true, [], ◌∷◌, map, IfOk};
ghost use Rattle.sctp_model.specs.receiver.ResetTaken.{last_finished};
ghost use Rattle.sctp_model.specs.wire.Chunk.{Unknown};
ghost use Rattle.sctp_model.specs.wire.Typed.{WritesTyped};
ghost use Rattle.sctp_model.specs.wire.Reconfig as model;
ghost use Rattle.sctp_model.specs.end.EndView.{EndView, format_of};
ghost use Rattle.sctp_model.specs.end.Building.{AnswerSlot, RequestSlot};
ghost use Rattle.sctp_packet.specs.Draft.{has_room, after_try};
ghost use Rattle.sctp_send.specs.ResetAnswers.{IsRequest};
ghost use Rattle.sctp_recv.specs.Resets.{response_of};
ghost use Rattle.sctp_association.specs.Asks.{request_chunk};
ghost use Rattle.sctp_association.specs.TrafficStands.{TrafficStands};
ghost use Rattle.sctp_association.specs.Drafted.{PutsAt, IsOf};

use crate::build::packing::Packing;
use crate::time::timer::Alarm;
use crate::traffic::Traffic;
use sctp_packet::PacketWriter;
use sctp_reconfig::{OwnReset, RECONFIG, put_reset, put_response};
use sctp_recv::ResetResponse;
use sctp_send::ResetRequest;
use sctp_values::NoMemory;
use sctp_wire::Chunk;
use std::alloc::Global;

/// The bytes of a chunk before its value (RFC 9260, 3.2).
const HEADER: usize = 4;
/// The bytes of a RE-CONFIG with a request before its streams (RFC 6525, 3.1 and 4.1).
const BEFORE_STREAMS: usize = 20;

/// The responses that wait, and then the request that is due. False if one of the two chunks doesn't fit.
///
/// # Errors
/// `NoMemory` if an allocation was refused.
pub(crate) fn put_reconfigs(
    alloc: Global,
    traffic: &Traffic,
    packing: &mut Packing,
) -> Result<bool, NoMemory>
    ensures { (e : EndView) → TrafficStands traffic.now (format_of e) e.sender e.receiver → IsOf e packing.old
        → IfOk result (λ room. PutsAt (AnswerSlot ∷ RequestSlot ∷ []) e packing.old packing.new room) }
{
    if !put_responses(alloc, traffic, packing)? {
        return Ok(false);
    }
    put_request(alloc, traffic, packing)
}

/// RE-CONFIG with all responses that wait, if there are any (RFC 6525, 4.4).
fn put_responses(alloc: Global, traffic: &Traffic, packing: &mut Packing) -> Result<bool, NoMemory>
    ensures { (e : EndView) → TrafficStands traffic.now (format_of e) e.sender e.receiver → IsOf e packing.old
        → IfOk result (λ room. PutsAt (AnswerSlot ∷ []) e packing.old packing.new room) }
{
    if !packing.marks.answers {
        return Ok(true);
    }
    let answers = traffic.answers();
    if answers.is_empty() {
        return Ok(true);
    }
    let value = responses(alloc, answers)?;
    if !put_reconfig(&value, &mut packing.writer)? {
        return Ok(false);
    }
    packing.marks.answers = false;
    Ok(true)
}

/// The value of a RE-CONFIG with these responses.
///
/// # Errors
/// `NoMemory` if an allocation was refused.
fn responses(alloc: Global, answers: &[ResetResponse]) -> Result<Vec<u8>, NoMemory>
    ensures { IfOk result (λ value. WritesTyped value.items (map response_of answers.now)) }
{
    let mut value = Vec::new(alloc);
    for answer in answers {
        put_response(&mut value, answer.number, answer.result)?;
    }
    Ok(value)
}

/// RE-CONFIG with the request that waits for its response, if it is due (RFC 6525, 4.1).
fn put_request(alloc: Global, traffic: &Traffic, packing: &mut Packing) -> Result<bool, NoMemory>
    ensures { (e : EndView) → TrafficStands traffic.now (format_of e) e.sender e.receiver → IsOf e packing.old
        → IfOk result (λ room. PutsAt (RequestSlot ∷ []) e packing.old packing.new room) }
{
    if !packing.marks.request {
        return Ok(true);
    }
    match traffic.request() {
        None => Ok(true),
        Some(request) => put_due_request(alloc, traffic.last_finished_request(), request, packing),
    }
}

/// RE-CONFIG with this request, which is due; `answered` is the sequence number of the peer's last one that is finished.
///
/// # Errors
/// `NoMemory` if an allocation was refused.
fn put_due_request(
    alloc: Global,
    answered: u32,
    request: ResetRequest<'_>,
    packing: &mut Packing,
) -> Result<bool, NoMemory>
    ensures { (e : EndView) → answered ≡ last_finished e.receiver
        → IsRequest e.sender request.entry.number request.entry.last request.entry.streams.now → packing.old.marks.request ≡ true → IsOf e packing.old
        → IfOk result (λ room. PutsAt (RequestSlot ∷ []) e packing.old packing.new room) }
{
    if !put_own_request(alloc, answered, request, &mut packing.writer)? {
        return Ok(false);
    }
    packing.marks.request = false;
    packing.marks.starts.add(Alarm::Reset);
    Ok(true)
}

/// RE-CONFIG with this request. One that doesn't fit isn't written: it may have more streams than a parameter can list.
///
/// # Errors
/// `NoMemory` if an allocation was refused.
fn put_own_request(
    alloc: Global,
    answered: u32,
    request: ResetRequest<'_>,
    writer: &mut PacketWriter,
) -> Result<bool, NoMemory>
    ensures answer { IfOk result (λ put. put ≡ has_room writer.old (request_chunk answered request.entry)) }
    ensures after { IfOk result (λ put. writer.new ≡ after_try writer.old (request_chunk answered request.entry) put) }
{
    let most = writer.room().saturating_sub(BEFORE_STREAMS) / 2;
    if most < request.streams.len() {
        return Ok(false);
    }
    let own = OwnReset {
        number: request.number,
        last: request.last,
        streams: request.streams,
    };
    let mut value = Vec::new(alloc);
    put_reset(&mut value, answered, &own)?;
    put_reconfig(&value, writer)
}

/// RE-CONFIG with this value.
///
/// # Errors
/// `NoMemory` if an allocation was refused.
fn put_reconfig(value: &[u8], writer: &mut PacketWriter) -> Result<bool, NoMemory>
    ensures answer { IfOk result (λ put. put ≡ has_room writer.old (Unknown model.RECONFIG 0 value.now)) }
    ensures after { IfOk result (λ put. writer.new ≡ after_try writer.old (Unknown model.RECONFIG 0 value.now) put) }
{
    // The length of one that fits has 16 bits.
    let most = writer.room().saturating_sub(HEADER);
    if most < value.len() {
        return Ok(false);
    }
    writer.try_chunk(&Chunk::Unknown {
        kind: RECONFIG,
        flags: 0,
        value,
    })
}
