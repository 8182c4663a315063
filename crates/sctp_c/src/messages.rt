//! Messages that are ready, and how C takes them (RFC 9260, 11.1.6).

ghost use Rattle.std.specs.Prelude.{◌≡◌, ◌-◌, ◌^◌, ◌<◌, ◌≤◌, ◌⊎◌, ◌++◌, min, length, drop, None, Some, MatchOption, IfOk, IfErr, OnErr, slice_get};
ghost use Rattle.sctp_model.specs.receiver.ReceiverView.{Handed};
ghost use Rattle.sctp_model.specs.end.EndView.{EndView};
ghost use Rattle.sctp_model.specs.end.UserCalls.{UserTakes};
ghost use Rattle.sctp_outcomes.specs.Kept.{AddsTaken};
ghost use Rattle.sctp_recv.specs.HandedOf.{handed_of, message_bytes};
ghost use Rattle.sctp_recv.specs.Readable.{ReadableAnswer};
ghost use Rattle.sctp_endpoint.specs.EndpointStands.{EndpointStands};
ghost use Rattle.sctp_endpoint.specs.Counted.{counted};
ghost use Rattle.sctp_c.specs.Counts.{counted_in};
ghost use Rattle.sctp_c.specs.Holds.{Holds};
ghost use Rattle.sctp_c.specs.Told.{IsHead, IsTold, Takes};

use crate::buffers::put_bytes;
use crate::codes::{MISUSE, NEEDS_ROOM, NOTHING, OK};
use crate::crossing::SctpMessage;
use crate::handle::SctpEndpoint;
use sctp_endpoint::{Endpoint, Message};

/// A message as C gets it, but for its bytes, of which there are so many.
fn head_of(message: &Message, many: usize) -> SctpMessage
    ensures { many ≡ min (length (message_bytes message.now)) (2 ^ 64 - 1) → IsHead result (handed_of message.now) }
{
    SctpMessage {
        length: many,
        number: message.number.unwrap_or(0),
        payload_id: message.payload_id,
        stream: message.stream,
        ordered: message.ordered,
        numbered: message.number.is_some(),
        reserved: [0; 4],
    }
}

/// The message that is taken next from a stream as C gets it, but for its bytes.
fn next_head(end: &Endpoint, stream: u16) -> Option<SctpMessage>
    ensures { (v : EndView) → EndpointStands end.now v → MatchOption result (slice_get (v.receiver.waiting stream) 0 ≡ None)
        (λ m. (h : Handed) × (slice_get (v.receiver.waiting stream) 0 ≡ Some h) × IsHead m h) }
{
    match end.waiting(stream, 0) {
        Some(message) => Some(head_of(message, message.len())),
        None => None,
    }
}

/// Writes a message for C, but for its bytes, or returns that none is ready.
fn tell_head(head: Option<SctpMessage>, message: &mut SctpMessage) -> u32
    ensures { MatchOption head ((result ≡ NOTHING) × (message.new ≡ message.old)) (λ m. (result ≡ OK) × (message.new ≡ m)) }
{
    match head {
        Some(head) => {
            *message = head;
            OK
        }
        None => NOTHING,
    }
}

/// `Message::copy_into` as a function of its own: so a message of one fragment saves no registers for it.
#[inline(never)]
fn copy_parts(whole: &Message, buffer: &mut [u8]) -> Result<usize, usize>
    ensures copied { IfOk result (λ many. (many ≡ length (message_bytes whole.now)) × (buffer.new ≡ message_bytes whole.now ++ drop many buffer.old)) }
    ensures wanted { IfErr result (λ many. (many ≡ min (length (message_bytes whole.now)) (2 ^ 64 - 1)) × (length buffer.old < many)) }
    ensures refused { OnErr result (buffer.new ≡ buffer.old) }
{
    whole.copy_into(buffer)
}

/// Copies a message to the beginning of a buffer that has space for it, by `Message::copy_into` if it has several fragments.
pub(crate) fn copy_whole(whole: &Message, buffer: &mut [u8]) -> Result<usize, usize>
    ensures copied { IfOk result (λ many. (many ≡ length (message_bytes whole.now)) × (buffer.new ≡ message_bytes whole.now ++ drop many buffer.old)) }
    ensures wanted { IfErr result (λ many. (many ≡ min (length (message_bytes whole.now)) (2 ^ 64 - 1)) × (length buffer.old < many)) }
    ensures refused { OnErr result (buffer.new ≡ buffer.old) }
{
    if let [part] = whole.parts() {
        if part.len() <= buffer.len() {
            return Ok(put_bytes(part, buffer));
        }
    }
    copy_parts(whole, buffer)
}

/// Copies a message to the beginning of a buffer that has space for it, and writes the rest of what C gets to `message`.
fn tell_whole(whole: &Message, message: &mut SctpMessage, buffer: &mut [u8]) -> u32
    ensures head { IsHead message.new (handed_of whole.now) }
    ensures answer { (result ≡ OK) ⊎ (result ≡ NEEDS_ROOM) }
    ensures narrow { length buffer.old < length (message_bytes whole.now) → result ≡ NEEDS_ROOM }
    ensures put { length (message_bytes whole.now) ≤ length buffer.old
        → (result ≡ OK) × (buffer.new ≡ message_bytes whole.now ++ drop (length (message_bytes whole.now)) buffer.old) }
    ensures untold { ((result ≡ OK) → ⊥) → buffer.new ≡ buffer.old }
{
    match copy_whole(whole, buffer) {
        Ok(many) => {
            *message = head_of(whole, many);
            OK
        }
        Err(many) => {
            *message = head_of(whole, many);
            NEEDS_ROOM
        }
    }
}

/// Copies the message that is ready first on a stream for C, and leaves it there.
fn tell_next(end: &Endpoint, stream: u16, message: &mut SctpMessage, buffer: &mut [u8]) -> u32
    ensures untold { ((result ≡ OK) → ⊥) → buffer.new ≡ buffer.old }
    ensures unheaded { ((result ≡ OK) → ⊥) → ((result ≡ NEEDS_ROOM) → ⊥) → message.new ≡ message.old }
    ensures none { (v : EndView) → EndpointStands end.now v → slice_get (v.receiver.waiting stream) 0 ≡ None → result ≡ NOTHING }
    ensures narrow { (v : EndView) (h : Handed) → EndpointStands end.now v → slice_get (v.receiver.waiting stream) 0 ≡ Some h
        → length buffer.old < length h.bytes → (result ≡ NEEDS_ROOM) × IsHead message.new h }
    ensures told { (v : EndView) (h : Handed) → EndpointStands end.now v → slice_get (v.receiver.waiting stream) 0 ≡ Some h
        → length h.bytes ≤ length buffer.old → (result ≡ OK) × IsTold message.new buffer.old buffer.new h }
{
    match end.waiting(stream, 0) {
        Some(whole) => tell_whole(whole, message, buffer),
        None => NOTHING,
    }
}

/// Takes the message that is ready first on a stream, and gives its memory back to the endpoint.
fn drop_next(end: &mut Endpoint, stream: u16)
    ensures step { (v : EndView) (h : Handed) → EndpointStands end.old v → slice_get (v.receiver.waiting stream) 0 ≡ Some h
        → (t : EndView) × UserTakes v stream (Some h) t × EndpointStands end.new t }
    ensures notes { (v : EndView) (h : Handed) → EndpointStands end.old v → slice_get (v.receiver.waiting stream) 0 ≡ Some h
        → (t : EndView) × AddsTaken v stream h t × EndpointStands end.new t }
    ensures counts { counted end.new ≡ counted end.old }
{
    if let Some(message) = end.take(stream) {
        end.give_back(message);
    }
}

/// Writes the first stream, from `from` on, on which a message is ready to `stream`. Called with the last stream plus 1, and with 0 after
/// `NOTHING`, it visits all streams in turn.
#[unsafe(no_mangle)]
pub extern "C" fn sctp_endpoint_readable(
    handle: &mut SctpEndpoint,
    from: u16,
    stream: &mut u16,
) -> u32
    ensures misuse { handle.old.slot.endpoint ≡ None → result ≡ MISUSE }
    ensures untold { ((result ≡ OK) → ⊥) → stream.new ≡ stream.old }
    ensures answer { (v : EndView) → Holds handle.old.slot.endpoint v → (result ≡ OK) ⊎ (result ≡ NOTHING) }
    ensures some { (v : EndView) → Holds handle.old.slot.endpoint v → result ≡ OK → ReadableAnswer v.receiver.waiting from (Some stream.new) }
    ensures none { (v : EndView) → Holds handle.old.slot.endpoint v → result ≡ NOTHING → ReadableAnswer v.receiver.waiting from None }
    ensures kept { handle.new.slot.endpoint ≡ handle.old.slot.endpoint }
{
    if !handle.is_full() {
        return MISUSE;
    }
    let end = handle.slot.lend();
    let found = end.readable(from);
    match found {
        Some(number) => {
            *stream = number;
            OK
        }
        None => NOTHING,
    }
}

/// Describes the message that is ready first on a stream, and leaves it there.
#[unsafe(no_mangle)]
pub extern "C" fn sctp_endpoint_peek(
    handle: &mut SctpEndpoint,
    stream: u16,
    message: &mut SctpMessage,
) -> u32
    ensures misuse { handle.old.slot.endpoint ≡ None → result ≡ MISUSE }
    ensures untold { ((result ≡ OK) → ⊥) → message.new ≡ message.old }
    ensures none { (v : EndView) → Holds handle.old.slot.endpoint v → slice_get (v.receiver.waiting stream) 0 ≡ None → result ≡ NOTHING }
    ensures some { (v : EndView) (h : Handed) → Holds handle.old.slot.endpoint v → slice_get (v.receiver.waiting stream) 0 ≡ Some h
        → (result ≡ OK) × IsHead message.new h }
    ensures kept { handle.new.slot.endpoint ≡ handle.old.slot.endpoint }
{
    if !handle.is_full() {
        return MISUSE;
    }
    let end = handle.slot.lend();
    let head = next_head(end, stream);
    tell_head(head, message)
}

/// Takes the message that is ready first on a stream: its bytes are copied to `buffer`. If that is too small the message stays, and `message` says
/// its length.
#[unsafe(no_mangle)]
pub extern "C" fn sctp_endpoint_take(
    handle: &mut SctpEndpoint,
    stream: u16,
    message: &mut SctpMessage,
    buffer: &mut [u8],
) -> u32
    ensures misuse { handle.old.slot.endpoint ≡ None → (result ≡ MISUSE) × (handle.new.slot.endpoint ≡ None) }
    ensures untold { ((result ≡ OK) → ⊥) → buffer.new ≡ buffer.old }
    ensures unheaded { ((result ≡ OK) → ⊥) → ((result ≡ NEEDS_ROOM) → ⊥) → message.new ≡ message.old }
    ensures none { (v : EndView) → Holds handle.old.slot.endpoint v → slice_get (v.receiver.waiting stream) 0 ≡ None
        → (result ≡ NOTHING) × Holds handle.new.slot.endpoint v }
    ensures narrow { (v : EndView) (h : Handed) → Holds handle.old.slot.endpoint v → slice_get (v.receiver.waiting stream) 0 ≡ Some h
        → length buffer.old < length h.bytes → (result ≡ NEEDS_ROOM) × IsHead message.new h × Holds handle.new.slot.endpoint v }
    ensures taken { (v : EndView) (h : Handed) → Holds handle.old.slot.endpoint v → slice_get (v.receiver.waiting stream) 0 ≡ Some h
        → length h.bytes ≤ length buffer.old → (result ≡ OK) × Takes v stream h handle.new.slot.endpoint message.new buffer.old buffer.new }
    ensures counts { counted_in handle.new.slot.endpoint ≡ counted_in handle.old.slot.endpoint }
{
    if !handle.is_full() {
        return MISUSE;
    }
    let end = handle.slot.lend();
    let answer = tell_next(end, stream, message, buffer);
    if answer != OK {
        return answer;
    }
    drop_next(end, stream);
    OK
}
