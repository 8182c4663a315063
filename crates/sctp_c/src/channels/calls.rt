//! What C's user calls of an association with channels: connect, shutdown, trim; and the current time (RFC 9260, 11.1).

ghost use Rattle.std.specs.Prelude.{◌≡◌, ◌<◌, true, None};
ghost use Rattle.sctp_model.specs.end.EndView.{EndView};
ghost use Rattle.sctp_model.specs.end.Clock.{at_moment};
ghost use Rattle.sctp_model.specs.end.Moments.{ticked};
ghost use Rattle.sctp_model.specs.end.UserCalls.{connect_answer, called, shutdown_answer, shut};
ghost use Rattle.sctp_channels.specs.Streams.{Table};
ghost use Rattle.sctp_c.specs.Asked.{drawn, IsDraw};
ghost use Rattle.sctp_c.specs.Slot.{is_full};
ghost use Rattle.sctp_c.specs.Codes.{connect_code, shutdown_code};
ghost use Rattle.sctp_c.specs.channels.Holds.{HoldsChannels, waiting_in};

use crate::channels::handle::SctpChannels;
use crate::codes::{BAD_DRAW, BAD_RESERVED, BAD_STATE, MISUSE, NOT_OPEN, OK};
use crate::crossing::SctpDraw;
use sctp_endpoint::Draw;

/// Opens the association: the next packet is an INIT.
#[unsafe(no_mangle)]
pub extern "C" fn sctp_channels_connect(
    channels: &mut SctpChannels,
    now: u64,
    draw: &SctpDraw,
) -> u32
    ensures undrawn { draw.now.tag ≡ 0 → (result ≡ BAD_DRAW) × (channels.new ≡ channels.old) }
    ensures misuse { 0 < draw.now.tag → channels.old.slot.held ≡ None → (result ≡ MISUSE) × (channels.new.slot.held ≡ None) }
    ensures unzeroed { 0 < draw.now.tag → is_full channels.old.slot.held ≡ true → 0 < draw.now.reserved
        → (result ≡ BAD_RESERVED) × (channels.new ≡ channels.old) }
    ensures answer { (v : EndView) (x : Table) → HoldsChannels channels.old.slot.held v x → IsDraw draw.now → result ≡ connect_code (connect_answer v.phase) }
    ensures step { (v : EndView) (x : Table) → HoldsChannels channels.old.slot.held v x → (result ≡ OK)
        → HoldsChannels channels.new.slot.held (called (at_moment v now) (drawn draw.now)) x }
    ensures kept { (v : EndView) (x : Table) → HoldsChannels channels.old.slot.held v x → ((result ≡ OK) → ⊥) → HoldsChannels channels.new.slot.held v x }
    ensures waits { waiting_in channels.new.slot.held ≡ waiting_in channels.old.slot.held }
{
    let SctpDraw { tag, tsn, reserved } = *draw;
    let Some(draw) = Draw::new(tag, tsn) else {
        return BAD_DRAW;
    };
    if !channels.is_full() {
        return MISUSE;
    }
    if reserved > 0 {
        return BAD_RESERVED;
    }
    let held = channels.slot.lend();
    let answer = held.channels.connect(now, draw);
    match answer {
        Ok(()) => OK,
        Err(_) => BAD_STATE,
    }
}

/// Closes the association gracefully: no more messages are accepted, those that were are still delivered.
#[unsafe(no_mangle)]
pub extern "C" fn sctp_channels_shutdown(channels: &mut SctpChannels) -> u32
    ensures misuse { channels.old.slot.held ≡ None → (result ≡ MISUSE) × (channels.new.slot.held ≡ None) }
    ensures answer { (v : EndView) (x : Table) → HoldsChannels channels.old.slot.held v x → result ≡ shutdown_code (shutdown_answer v.phase) }
    ensures step { (v : EndView) (x : Table) → HoldsChannels channels.old.slot.held v x → HoldsChannels channels.new.slot.held (shut v) x }
    ensures waits { waiting_in channels.new.slot.held ≡ waiting_in channels.old.slot.held }
{
    if !channels.is_full() {
        return MISUSE;
    }
    let held = channels.slot.lend();
    let answer = held.channels.shutdown();
    match answer {
        Ok(()) => OK,
        Err(_) => NOT_OPEN,
    }
}

/// The current time, in milliseconds: timers that are due expire, a delayed SACK becomes due, and messages whose lifetime is over are abandoned.
#[unsafe(no_mangle)]
pub extern "C" fn sctp_channels_on_moment(channels: &mut SctpChannels, now: u64) -> u32
    ensures misuse { channels.old.slot.held ≡ None → (result ≡ MISUSE) × (channels.new.slot.held ≡ None) }
    ensures step { (v : EndView) (x : Table) → HoldsChannels channels.old.slot.held v x → (result ≡ OK) × HoldsChannels channels.new.slot.held (ticked v now) x }
    ensures waits { waiting_in channels.new.slot.held ≡ waiting_in channels.old.slot.held }
{
    if !channels.is_full() {
        return MISUSE;
    }
    let held = channels.slot.lend();
    held.channels.on_moment(now);
    OK
}

/// Gives back memory that a burst of messages took, as `sctp_endpoint_trim` does.
#[unsafe(no_mangle)]
pub extern "C" fn sctp_channels_trim(channels: &mut SctpChannels) -> u32
    ensures misuse { channels.old.slot.held ≡ None → (result ≡ MISUSE) × (channels.new.slot.held ≡ None) }
    ensures step { (v : EndView) (x : Table) → HoldsChannels channels.old.slot.held v x → (result ≡ OK) × HoldsChannels channels.new.slot.held v x }
    ensures waits { waiting_in channels.new.slot.held ≡ waiting_in channels.old.slot.held }
{
    if !channels.is_full() {
        return MISUSE;
    }
    let held = channels.slot.lend();
    held.channels.trim();
    OK
}
