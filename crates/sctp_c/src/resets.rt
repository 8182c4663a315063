//! Streams are reset: by C's user, and by the peer (RFC 6525, 5.1 and 5.2).

ghost use Rattle.std.specs.Prelude.{◌≡◌, ◌&&◌, nat_lt, None};
ghost use Rattle.sctp_model.specs.sender.Outgoing.{is_resetting};
ghost use Rattle.sctp_model.specs.end.EndView.{EndView};
ghost use Rattle.sctp_c.specs.Holds.{Holds, KeepsNotes};
ghost use Rattle.sctp_c.specs.Counts.{counted_in};
ghost use Rattle.sctp_c.specs.Codes.{reset_code};
ghost use Rattle.sctp_c.specs.Told.{Resets, ResetTold, TakesReset};

use crate::codes::{BAD_STATE, MISUSE, NO_MEMORY, NO_SUCH_STREAM, NOTHING, OK};
use crate::handle::SctpEndpoint;
use sctp_endpoint::{Reset, ResetFault};

/// The result of a request for a reset.
pub(crate) fn code_of(answer: Result<(), ResetFault>) -> u32
    ensures { result ≡ reset_code answer }
{
    match answer {
        Ok(()) => OK,
        Err(ResetFault::State) => BAD_STATE,
        Err(ResetFault::NoSuchStream) => NO_SUCH_STREAM,
        Err(ResetFault::NoMemory) => NO_MEMORY,
    }
}

/// Asks for the reset of an outgoing stream: it takes no message until the peer has done that, once all that was sent on it is acknowledged.
#[unsafe(no_mangle)]
pub extern "C" fn sctp_endpoint_reset(handle: &mut SctpEndpoint, stream: u16) -> u32
    ensures misuse { handle.old.slot.endpoint ≡ None → (result ≡ MISUSE) × (handle.new.slot.endpoint ≡ None) }
    ensures did { (v : EndView) → Holds handle.old.slot.endpoint v → Resets v stream handle.new.slot.endpoint result }
    ensures notes { (v : EndView) → Holds handle.old.slot.endpoint v → KeepsNotes v handle.new.slot.endpoint }
    ensures counts { counted_in handle.new.slot.endpoint ≡ counted_in handle.old.slot.endpoint }
{
    if !handle.is_full() {
        return MISUSE;
    }
    let end = handle.slot.lend();
    let answer = end.reset(stream);
    code_of(answer)
}

/// Writes a reset by the peer, if there is one.
fn tell_reset(found: Option<Reset>, stream: &mut u16, earlier: &mut u64) -> u32
    ensures told { ResetTold found result stream.old stream.new earlier.old earlier.new }
    ensures untold { ((result ≡ OK) → ⊥) → (stream.new ≡ stream.old) × (earlier.new ≡ earlier.old) }
{
    match found {
        Some(reset) => {
            *stream = reset.stream;
            *earlier = reset.count as u64;
            OK
        }
        None => NOTHING,
    }
}

/// Writes the lowest stream that the peer reset and that wasn't reported since to `stream`, and to `earlier` how many of the messages that are ready
/// there were delivered before: the first ones.
#[unsafe(no_mangle)]
pub extern "C" fn sctp_endpoint_take_reset(
    handle: &mut SctpEndpoint,
    stream: &mut u16,
    earlier: &mut u64,
) -> u32
    ensures misuse { handle.old.slot.endpoint ≡ None → (result ≡ MISUSE) × (handle.new.slot.endpoint ≡ None) }
    ensures untold { ((result ≡ OK) → ⊥) → (stream.new ≡ stream.old) × (earlier.new ≡ earlier.old) }
    ensures did { (v : EndView) → Holds handle.old.slot.endpoint v
        → TakesReset v handle.new.slot.endpoint result stream.old stream.new earlier.old earlier.new }
    ensures notes { (v : EndView) → Holds handle.old.slot.endpoint v → KeepsNotes v handle.new.slot.endpoint }
    ensures counts { counted_in handle.new.slot.endpoint ≡ counted_in handle.old.slot.endpoint }
{
    if !handle.is_full() {
        return MISUSE;
    }
    let end = handle.slot.lend();
    let found = end.take_reset();
    tell_reset(found, stream, earlier)
}

/// Writes to `is` whether the reset of an outgoing stream was asked for and isn't done.
#[unsafe(no_mangle)]
pub extern "C" fn sctp_endpoint_resetting(
    handle: &mut SctpEndpoint,
    stream: u16,
    is: &mut bool,
) -> u32
    ensures misuse { handle.old.slot.endpoint ≡ None → result ≡ MISUSE }
    ensures untold { ((result ≡ OK) → ⊥) → is.new ≡ is.old }
    ensures answer { (v : EndView) → Holds handle.old.slot.endpoint v
        → (result ≡ OK) × (is.new ≡ (nat_lt stream v.sender.streams && is_resetting (v.sender.resets.sending stream))) }
    ensures kept { handle.new.slot.endpoint ≡ handle.old.slot.endpoint }
{
    if !handle.is_full() {
        return MISUSE;
    }
    let end = handle.slot.lend();
    *is = end.is_resetting(stream);
    OK
}
