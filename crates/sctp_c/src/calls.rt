//! What C's user calls: connect, shutdown, abandon, trim; and the current time (RFC 9260, 11.1).

ghost use Rattle.std.specs.Prelude.{◌≡◌, ◌<◌, true, None, take};
ghost use Rattle.sctp_model.specs.end.EndView.{EndView};
ghost use Rattle.sctp_model.specs.end.Clock.{at_moment};
ghost use Rattle.sctp_model.specs.end.Moments.{ticked};
ghost use Rattle.sctp_model.specs.end.UserCalls.{connect_answer, called, abandons, abandoned_at, shutdown_answer, shut};
ghost use Rattle.sctp_c.specs.Asked.{drawn, IsDraw};
ghost use Rattle.sctp_c.specs.Slot.{is_full};
ghost use Rattle.sctp_c.specs.Holds.{Holds, KeepsNotes};
ghost use Rattle.sctp_c.specs.Counts.{counted_in};
ghost use Rattle.sctp_c.specs.Codes.{connect_code, shutdown_code, fate_number};

use crate::codes::{BAD_DRAW, BAD_RESERVED, BAD_STATE, MISUSE, NOT_OPEN, OK};
use crate::crossing::SctpDraw;
use crate::handle::SctpEndpoint;
use sctp_endpoint::{Draw, Ticket};

/// Opens the association: the next packet is an INIT.
#[unsafe(no_mangle)]
pub extern "C" fn sctp_endpoint_connect(handle: &mut SctpEndpoint, now: u64, draw: &SctpDraw) -> u32
    ensures undrawn { draw.now.tag ≡ 0 → (result ≡ BAD_DRAW) × (handle.new ≡ handle.old) }
    ensures misuse { 0 < draw.now.tag → handle.old.slot.endpoint ≡ None → (result ≡ MISUSE) × (handle.new.slot.endpoint ≡ None) }
    ensures unzeroed { 0 < draw.now.tag → is_full handle.old.slot.endpoint ≡ true → 0 < draw.now.reserved
        → (result ≡ BAD_RESERVED) × (handle.new ≡ handle.old) }
    ensures answer { (v : EndView) → Holds handle.old.slot.endpoint v → IsDraw draw.now → result ≡ connect_code (connect_answer v.phase) }
    ensures step { (v : EndView) → Holds handle.old.slot.endpoint v → (result ≡ OK) → Holds handle.new.slot.endpoint (called (at_moment v now) (drawn draw.now)) }
    ensures kept { (v : EndView) → Holds handle.old.slot.endpoint v → ((result ≡ OK) → ⊥) → Holds handle.new.slot.endpoint v }
    ensures notes { (v : EndView) → Holds handle.old.slot.endpoint v → IsDraw draw.now → KeepsNotes v handle.new.slot.endpoint }
    ensures counts { counted_in handle.new.slot.endpoint ≡ counted_in handle.old.slot.endpoint }
{
    let SctpDraw { tag, tsn, reserved } = *draw;
    let Some(draw) = Draw::new(tag, tsn) else {
        return BAD_DRAW;
    };
    if !handle.is_full() {
        return MISUSE;
    }
    if reserved > 0 {
        return BAD_RESERVED;
    }
    let end = handle.slot.lend();
    let answer = end.connect(now, draw);
    match answer {
        Ok(()) => OK,
        Err(_) => BAD_STATE,
    }
}

/// Closes the association gracefully: no more messages are accepted, those that were are still delivered.
#[unsafe(no_mangle)]
pub extern "C" fn sctp_endpoint_shutdown(handle: &mut SctpEndpoint) -> u32
    ensures misuse { handle.old.slot.endpoint ≡ None → (result ≡ MISUSE) × (handle.new.slot.endpoint ≡ None) }
    ensures answer { (v : EndView) → Holds handle.old.slot.endpoint v → result ≡ shutdown_code (shutdown_answer v.phase) }
    ensures step { (v : EndView) → Holds handle.old.slot.endpoint v → Holds handle.new.slot.endpoint (shut v) }
    ensures notes { (v : EndView) → Holds handle.old.slot.endpoint v → KeepsNotes v handle.new.slot.endpoint }
    ensures counts { counted_in handle.new.slot.endpoint ≡ counted_in handle.old.slot.endpoint }
{
    if !handle.is_full() {
        return MISUSE;
    }
    let end = handle.slot.lend();
    let answer = end.shutdown();
    match answer {
        Ok(()) => OK,
        Err(_) => NOT_OPEN,
    }
}

/// The current time, in milliseconds: timers that are due expire, a delayed SACK becomes due, and messages whose lifetime is over are abandoned.
#[unsafe(no_mangle)]
pub extern "C" fn sctp_endpoint_on_moment(handle: &mut SctpEndpoint, now: u64) -> u32
    ensures misuse { handle.old.slot.endpoint ≡ None → (result ≡ MISUSE) × (handle.new.slot.endpoint ≡ None) }
    ensures step { (v : EndView) → Holds handle.old.slot.endpoint v → (result ≡ OK) × Holds handle.new.slot.endpoint (ticked v now) }
    ensures notes { (v : EndView) → Holds handle.old.slot.endpoint v → KeepsNotes v handle.new.slot.endpoint }
    ensures counts { counted_in handle.new.slot.endpoint ≡ counted_in handle.old.slot.endpoint }
{
    if !handle.is_full() {
        return MISUSE;
    }
    let end = handle.slot.lend();
    end.on_moment(now);
    OK
}

/// Gives back memory that a burst of messages took and that isn't used. It is for an endpoint that is idle.
#[unsafe(no_mangle)]
pub extern "C" fn sctp_endpoint_trim(handle: &mut SctpEndpoint) -> u32
    ensures misuse { handle.old.slot.endpoint ≡ None → (result ≡ MISUSE) × (handle.new.slot.endpoint ≡ None) }
    ensures step { (v : EndView) → Holds handle.old.slot.endpoint v → (result ≡ OK) × Holds handle.new.slot.endpoint v }
    ensures counts { counted_in handle.new.slot.endpoint ≡ counted_in handle.old.slot.endpoint }
{
    if !handle.is_full() {
        return MISUSE;
    }
    let end = handle.slot.lend();
    end.trim();
    OK
}

/// Abandons a message; what has become of it, 1 to 5, is written to `fate`.
#[unsafe(no_mangle)]
pub extern "C" fn sctp_endpoint_abandon(
    handle: &mut SctpEndpoint,
    ticket: u64,
    fate: &mut u32,
) -> u32
    ensures misuse { handle.old.slot.endpoint ≡ None → (result ≡ MISUSE) × (handle.new.slot.endpoint ≡ None) }
    ensures untold { ((result ≡ OK) → ⊥) → fate.new ≡ fate.old }
    ensures answer { (v : EndView) → Holds handle.old.slot.endpoint v → (result ≡ OK) × (fate.new ≡ fate_number (abandons v ticket)) }
    ensures step { (v : EndView) → Holds handle.old.slot.endpoint v → Holds handle.new.slot.endpoint (abandoned_at v ticket) }
    ensures notes { (v : EndView) → Holds handle.old.slot.endpoint v → KeepsNotes v handle.new.slot.endpoint }
    ensures counts { counted_in handle.new.slot.endpoint ≡ counted_in handle.old.slot.endpoint }
{
    if !handle.is_full() {
        return MISUSE;
    }
    let end = handle.slot.lend();
    let answer = end.abandon(Ticket(ticket));
    *fate = u32::from(answer.code());
    OK
}
