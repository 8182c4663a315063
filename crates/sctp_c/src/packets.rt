//! Received packets, packets to send, and the ABORT (RFC 9260, 6.10, 8.4 and 9.1).

ghost use Rattle.std.specs.Prelude.{◌≡◌, ℕ, ◌<◌, ◌≤◌, length, take, true, None, Some, Option, Result, Ok, Err, IfOk, IfSome};
ghost use Rattle.sctp_model.specs.wire.Packet as meaning;
ghost use Rattle.sctp_model.specs.end.EndView.{EndView};
ghost use Rattle.sctp_endpoint.specs.EndpointStands.{EndpointStands};
ghost use Rattle.sctp_endpoint.specs.Transmitted.{TellsFew, MOST_TICKETS};
ghost use Rattle.sctp_endpoint.specs.Handled.{IsRead, IsAnsweredWithin};
ghost use Rattle.sctp_c.specs.Asked.{drawn, IsDraw};
ghost use Rattle.sctp_c.specs.Slot.{is_full};
ghost use Rattle.sctp_endpoint.specs.Counted.{counted};
ghost use Rattle.sctp_c.specs.Counts.{counted_in};
ghost use Rattle.sctp_c.specs.Holds.{Holds, KeepsNotes};
ghost use Rattle.sctp_c.specs.Told.{IsPut, AreTold, PollTold, Polled, HeardTold, Heard, AbortTold, Aborted};

use crate::buffers::{put_answer, put_bytes, put_tickets};
use crate::codes::{
    ANSWER, BAD_DRAW, BAD_RESERVED, BAD_STATE, DROPPED, MISUSE, NEEDS_ROOM, NO_MEMORY, OK, TAKEN,
    TOO_LONG,
};
use crate::crossing::{SctpDraw, SctpSent, SctpVerdict};
use crate::handle::SctpEndpoint;
use sctp_endpoint::{AbortFault, Draw, Endpoint, NoMemory, Sent, Verdict};

/// The bytes of the longest packet that this endpoint sends.
pub(crate) fn limit_of(end: &Endpoint) -> usize
    ensures { (v : EndView) → EndpointStands end.now v → result ≡ v.configuration.limit }
{
    usize::from(end.config().limit())
}

/// What C gets if there is no packet: so many bytes that its buffer must have, or 0.
pub(crate) fn no_packet(length: usize) -> SctpSent
    ensures { (result.length ≡ length) × (result.tickets ≡ 0) × (result.reserved ≡ 0) }
{
    SctpSent {
        length,
        tickets: 0,
        reserved: 0,
    }
}

/// Writes the next packet, or that there is none, for C. Once its bytes are copied, the packet's own memory goes back to the endpoint.
fn tell_poll(
    end: &mut Endpoint,
    answer: Result<Option<Sent>, NoMemory>,
    buffer: &mut [u8],
    tickets: &mut [u64],
    sent: &mut SctpSent,
) -> u32
    ensures told { IfOk answer (λ o. IfSome o (λ s. length s.packet.items ≤ length buffer.old)) → PollTold answer result sent.new buffer.old buffer.new tickets.old tickets.new }
    ensures untold { ((result ≡ OK) → ⊥) → (buffer.new ≡ buffer.old) × (tickets.new ≡ tickets.old) }
    ensures few { IfOk answer (λ sent. TellsFew sent) → sent.new.tickets ≤ MOST_TICKETS }
    ensures reserved { sent.new.reserved ≡ 0 }
    ensures keeps { (v : EndView) → EndpointStands end.old v → EndpointStands end.new v }
    ensures counts { counted end.new ≡ counted end.old }
{
    let Ok(next) = answer else {
        *sent = no_packet(0);
        return NO_MEMORY;
    };
    let Some(next) = next else {
        *sent = no_packet(0);
        return OK;
    };
    let Sent {
        packet,
        tickets: begun,
    } = next;
    *sent = SctpSent {
        length: packet.len(),
        tickets: put_tickets(&begun, tickets),
        reserved: 0,
    };
    // Before the copy, which is a call: so nothing of them has to outlive it.
    end.recycle_tickets(begun);
    let _ = put_bytes(&packet, buffer);
    end.recycle(packet);
    OK
}

/// Writes the next packet to send to `buffer`, the tickets of the messages whose first fragments it carries to `tickets`, and how many bytes and
/// tickets these are to `sent`: no bytes if there is no packet. If the buffer has less than the endpoint's packet limit, nothing is done.
#[unsafe(no_mangle)]
pub extern "C" fn sctp_endpoint_poll_transmit(
    handle: &mut SctpEndpoint,
    now: u64,
    buffer: &mut [u8],
    tickets: &mut [u64],
    sent: &mut SctpSent,
) -> u32
    ensures misuse { handle.old.slot.endpoint ≡ None → (result ≡ MISUSE) × (handle.new.slot.endpoint ≡ None) × (sent.new ≡ sent.old) }
    ensures narrow { (v : EndView) → Holds handle.old.slot.endpoint v → length buffer.old < v.configuration.limit
        → (result ≡ NEEDS_ROOM) × (sent.new.length ≡ v.configuration.limit) × (sent.new.tickets ≡ 0) × (handle.new.slot.endpoint ≡ handle.old.slot.endpoint) }
    ensures untold { ((result ≡ OK) → ⊥) → (buffer.new ≡ buffer.old) × (tickets.new ≡ tickets.old) }
    ensures few { (v : EndView) → Holds handle.old.slot.endpoint v → sent.new.tickets ≤ MOST_TICKETS }
    ensures reserved { (v : EndView) → Holds handle.old.slot.endpoint v → sent.new.reserved ≡ 0 }
    ensures did { (v : EndView) → Holds handle.old.slot.endpoint v → v.configuration.limit ≤ length buffer.old
        → Polled v now (counted_in handle.old.slot.endpoint) handle.new.slot.endpoint result sent.new buffer.old buffer.new tickets.old tickets.new }
{
    if !handle.is_full() {
        return MISUSE;
    }
    let end = handle.slot.lend();
    let limit = limit_of(end);
    if buffer.len() < limit {
        *sent = no_packet(limit);
        return NEEDS_ROOM;
    }
    let answer = end.poll_transmit(now);
    let told = tell_poll(end, answer, buffer, tickets, sent);
    told
}

/// The verdict of a packet without answer or reason: so many bytes that the buffer must have, or 0.
pub(crate) fn no_verdict(length: usize) -> SctpVerdict
    ensures { (result.length ≡ length) × (result.verdict ≡ 0) × (result.reason ≡ 0) × (result.reserved ≡ 0) }
{
    SctpVerdict {
        length,
        verdict: TAKEN,
        reason: 0,
        reserved: 0,
    }
}

/// Writes the verdict on a received packet, and its answer, for C.
pub(crate) fn tell_heard(
    answer: Result<Verdict, NoMemory>,
    buffer: &mut [u8],
    verdict: &mut SctpVerdict,
) -> u32
    ensures told { IfOk answer (λ heard. IsAnsweredWithin (length buffer.old) heard) → HeardTold answer result verdict.new buffer.old buffer.new }
    ensures untold { ((result ≡ OK) → ⊥) → buffer.new ≡ buffer.old }
    ensures reserved { verdict.new.reserved ≡ 0 }
{
    *verdict = no_verdict(0);
    match answer {
        Err(_) => NO_MEMORY,
        Ok(Verdict::Taken) => OK,
        Ok(Verdict::Dropped(reason)) => {
            verdict.verdict = DROPPED;
            verdict.reason = u32::from(reason.code());
            OK
        }
        Ok(Verdict::Answer(packet)) => {
            verdict.verdict = ANSWER;
            verdict.length = put_answer(&packet, buffer);
            OK
        }
    }
}

/// Processes a received packet: what was done with it is written to `verdict`, and its answer, a packet to send at once, to `buffer`. The draw is
/// used only if it is an INIT to a listener; a new one is passed each time. If the buffer has less than the packet limit, nothing is done.
#[unsafe(no_mangle)]
pub extern "C" fn sctp_endpoint_handle_packet(
    handle: &mut SctpEndpoint,
    now: u64,
    packet: &[u8],
    draw: &SctpDraw,
    buffer: &mut [u8],
    verdict: &mut SctpVerdict,
) -> u32
    ensures undrawn { draw.now.tag ≡ 0 → (result ≡ BAD_DRAW) × (handle.new ≡ handle.old) × (verdict.new ≡ verdict.old) }
    ensures misuse { 0 < draw.now.tag → handle.old.slot.endpoint ≡ None
        → (result ≡ MISUSE) × (handle.new.slot.endpoint ≡ None) × (verdict.new ≡ verdict.old) }
    ensures unzeroed { 0 < draw.now.tag → is_full handle.old.slot.endpoint ≡ true → 0 < draw.now.reserved
        → (result ≡ BAD_RESERVED) × (handle.new ≡ handle.old) × (verdict.new ≡ verdict.old) }
    ensures untold { ((result ≡ OK) → ⊥) → buffer.new ≡ buffer.old }
    ensures narrow { (v : EndView) → Holds handle.old.slot.endpoint v → IsDraw draw.now → length buffer.old < v.configuration.limit
        → (result ≡ NEEDS_ROOM) × (verdict.new.length ≡ v.configuration.limit) × (verdict.new.verdict ≡ 0) × (verdict.new.reason ≡ 0)
        × (handle.new.slot.endpoint ≡ handle.old.slot.endpoint) }
    ensures reserved { (v : EndView) → Holds handle.old.slot.endpoint v → IsDraw draw.now → verdict.new.reserved ≡ 0 }
    ensures did { (v : EndView) (o : Option meaning.Packet) → Holds handle.old.slot.endpoint v → IsDraw draw.now → v.configuration.limit ≤ length buffer.old
        → IsRead packet.now o
        → Heard v now (drawn draw.now) (length packet.now) o (counted_in handle.old.slot.endpoint) handle.new.slot.endpoint result verdict.new buffer.old buffer.new }
    ensures notes { (v : EndView) → Holds handle.old.slot.endpoint v → IsDraw draw.now → v.configuration.limit ≤ length buffer.old
        → KeepsNotes v handle.new.slot.endpoint }
{
    let SctpDraw { tag, tsn, reserved } = *draw;
    let Some(draw) = Draw::new(tag, tsn) else {
        return BAD_DRAW;
    };
    if !handle.is_full() {
        return MISUSE;
    }
    if reserved > 0 {
        return BAD_RESERVED;
    }
    let end = handle.slot.lend();
    let limit = limit_of(end);
    if buffer.len() < limit {
        *verdict = no_verdict(limit);
        return NEEDS_ROOM;
    }
    let answer = end.handle_packet(now, packet, draw);
    tell_heard(answer, buffer, verdict)
}

/// Writes the ABORT, or that there is none, for C.
pub(crate) fn tell_abort(
    answer: Result<Vec<u8>, AbortFault>,
    buffer: &mut [u8],
    count: &mut usize,
) -> u32
    ensures told { IfOk answer (λ bytes. length bytes.items ≤ length buffer.old) → AbortTold answer result count.new buffer.old buffer.new }
    ensures untold { ((result ≡ OK) → ⊥) → buffer.new ≡ buffer.old }
{
    *count = 0;
    match answer {
        Ok(packet) => {
            *count = put_bytes(&packet, buffer);
            OK
        }
        Err(AbortFault::State) => BAD_STATE,
        Err(AbortFault::TooLong) => TOO_LONG,
        Err(AbortFault::NoMemory) => NO_MEMORY,
    }
}

/// Ends the association at once: the ABORT with this reason, a packet to send, is written to `buffer`, and how many bytes it has to `count`. If the
/// buffer has less than the endpoint's packet limit, nothing is done.
#[unsafe(no_mangle)]
pub extern "C" fn sctp_endpoint_abort(
    handle: &mut SctpEndpoint,
    reason: &[u8],
    buffer: &mut [u8],
    count: &mut usize,
) -> u32
    ensures misuse { handle.old.slot.endpoint ≡ None → (result ≡ MISUSE) × (handle.new.slot.endpoint ≡ None) × (count.new ≡ count.old) }
    ensures untold { ((result ≡ OK) → ⊥) → buffer.new ≡ buffer.old }
    ensures narrow { (v : EndView) → Holds handle.old.slot.endpoint v → length buffer.old < v.configuration.limit
        → (result ≡ NEEDS_ROOM) × (count.new ≡ v.configuration.limit) × (handle.new.slot.endpoint ≡ handle.old.slot.endpoint) }
    ensures did { (v : EndView) → Holds handle.old.slot.endpoint v → v.configuration.limit ≤ length buffer.old
        → Aborted v reason.now (counted_in handle.old.slot.endpoint) handle.new.slot.endpoint result count.new buffer.old buffer.new }
    ensures notes { (v : EndView) → Holds handle.old.slot.endpoint v → v.configuration.limit ≤ length buffer.old → KeepsNotes v handle.new.slot.endpoint }
{
    if !handle.is_full() {
        return MISUSE;
    }
    let end = handle.slot.lend();
    let limit = limit_of(end);
    if buffer.len() < limit {
        *count = limit;
        return NEEDS_ROOM;
    }
    let answer = end.abort(reason);
    tell_abort(answer, buffer, count)
}
