//! Messages that C sends (RFC 9260, 11.1.5).

ghost use Rattle.std.specs.Prelude.{◌≡◌, ◌⊎◌, None, take};
ghost use Rattle.sctp_model.specs.end.EndView.{EndView};
ghost use Rattle.sctp_send.specs.SenderAnswers.{lane_for};
ghost use Rattle.sctp_association.specs.CallAnswers.{call_of, limited_call_of};
ghost use Rattle.sctp_c.specs.Holds.{Holds};
ghost use Rattle.sctp_c.specs.Counts.{counted_in};
ghost use Rattle.sctp_c.specs.Codes.{moment_of, refused_code};
ghost use Rattle.sctp_c.specs.Told.{SendTold, Sends};

use crate::codes::{
    EMPTY, MISUSE, NO_MEMORY, NO_SUCH_STREAM, NOT_OPEN, OK, QUEUE_FULL, RESETTING, SPENT, TOO_LONG,
};
use crate::handle::SctpEndpoint;
use sctp_endpoint::{Refused, SendFault, Ticket};
use std::alloc::Global;

/// So many bytes of a message show that it is too long: no more are copied.
const LONGEST_LOOK: usize = 65_537;

/// The deadline that C passes in: None for `SCTP_EP_NEVER`.
fn until_of(moment: u64) -> Option<u64>
    ensures { result ≡ moment_of moment }
{
    if moment == u64::MAX {
        None
    } else {
        Some(moment)
    }
}

/// The result for a refusal.
pub(crate) fn send_code(why: Refused) -> u32
    ensures { result ≡ refused_code why }
{
    match why {
        Refused::NotOpen => NOT_OPEN,
        Refused::Fault(SendFault::NoSuchStream) => NO_SUCH_STREAM,
        Refused::Fault(SendFault::Resetting) => RESETTING,
        Refused::Fault(SendFault::Empty) => EMPTY,
        Refused::Fault(SendFault::TooLong) => TOO_LONG,
        Refused::Fault(SendFault::QueueFull) => QUEUE_FULL,
        Refused::Fault(SendFault::Spent) => SPENT,
        Refused::Fault(SendFault::NoMemory) => NO_MEMORY,
    }
}

/// Writes the ticket of an accepted message for C.
fn tell_send(answer: Result<Ticket, Refused>, ticket: &mut u64) -> u32
    ensures told { SendTold answer result ticket.new }
    ensures untold { ((result ≡ OK) → ⊥) → ticket.new ≡ ticket.old }
{
    match answer {
        Ok(given) => {
            *ticket = given.0;
            OK
        }
        Err(why) => send_code(why),
    }
}

/// Queues a message for the peer: its bytes are copied, the first 65,537 of them at most, which show that it is too long. Its lifetime ends at
/// `until`, 2^64 - 1 for never: it is abandoned by the first `sctp_endpoint_on_moment` from then on. Its ticket is written to `ticket`.
#[unsafe(no_mangle)]
pub extern "C" fn sctp_endpoint_send(
    alloc: Global,
    handle: &mut SctpEndpoint,
    stream: u16,
    ordered: bool,
    payload_id: u32,
    bytes: &[u8],
    until: u64,
    ticket: &mut u64,
) -> u32
    ensures misuse { handle.old.slot.endpoint ≡ None → (result ≡ MISUSE) × (handle.new.slot.endpoint ≡ None) }
    ensures untold { ((result ≡ OK) → ⊥) → ticket.new ≡ ticket.old }
    ensures did { (v : EndView) → Holds handle.old.slot.endpoint v
        → Sends v (call_of (lane_for stream ordered) payload_id (take 65537 bytes.now) (moment_of until)) handle.new.slot.endpoint result ticket.new
        ⊎ (result ≡ NO_MEMORY) × (handle.new.slot.endpoint ≡ handle.old.slot.endpoint) }
    ensures counts { counted_in handle.new.slot.endpoint ≡ counted_in handle.old.slot.endpoint }
{
    if !handle.is_full() {
        return MISUSE;
    }
    let end = handle.slot.lend();
    let count = LONGEST_LOOK.min(bytes.len());
    let Ok(bytes) = end.copy_bytes(alloc, &bytes[..count]) else {
        return NO_MEMORY;
    };
    let answer = end.send(stream, ordered, payload_id, bytes, until_of(until));
    tell_send(answer, ticket)
}

/// Queues a message as `sctp_endpoint_send`, with a limit of retransmissions (RFC 7496, 3.1): the message is abandoned if a fragment of it,
/// retransmitted `max_retransmits` times already, would be retransmitted once more. Its ticket is written to `ticket`.
#[unsafe(no_mangle)]
pub extern "C" fn sctp_endpoint_send_with_max_retransmits(
    alloc: Global,
    handle: &mut SctpEndpoint,
    stream: u16,
    ordered: bool,
    payload_id: u32,
    bytes: &[u8],
    until: u64,
    max_retransmits: u16,
    ticket: &mut u64,
) -> u32
    ensures misuse { handle.old.slot.endpoint ≡ None → (result ≡ MISUSE) × (handle.new.slot.endpoint ≡ None) }
    ensures untold { ((result ≡ OK) → ⊥) → ticket.new ≡ ticket.old }
    ensures did { (v : EndView) → Holds handle.old.slot.endpoint v
        → Sends v (limited_call_of (lane_for stream ordered) payload_id (take 65537 bytes.now) (moment_of until) max_retransmits) handle.new.slot.endpoint result
        ticket.new
        ⊎ (result ≡ NO_MEMORY) × (handle.new.slot.endpoint ≡ handle.old.slot.endpoint) }
    ensures counts { counted_in handle.new.slot.endpoint ≡ counted_in handle.old.slot.endpoint }
{
    if !handle.is_full() {
        return MISUSE;
    }
    let end = handle.slot.lend();
    let count = LONGEST_LOOK.min(bytes.len());
    let Ok(bytes) = end.copy_bytes(alloc, &bytes[..count]) else {
        return NO_MEMORY;
    };
    let until = until_of(until);
    let answer = end.send_with_max_retransmits(
        stream,
        ordered,
        payload_id,
        bytes,
        until,
        max_retransmits,
    );
    tell_send(answer, ticket)
}
