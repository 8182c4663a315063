//! What is buffered of what C sent on a channel, and what it takes back; the longest message that the peer should send.

ghost use Rattle.std.specs.Prelude.{◌≡◌, ◌/◌, None};
ghost use Rattle.sctp_model.specs.end.EndView.{EndView};
ghost use Rattle.sctp_model.specs.end.UserCalls.{abandons, abandoned_at};
ghost use Rattle.sctp_channels.specs.Streams.{Table};
ghost use Rattle.sctp_channels.specs.Buffered.{buffered};
ghost use Rattle.sctp_c.specs.Codes.{fate_number};
ghost use Rattle.sctp_c.specs.channels.Buffered.{set_code, SetsFor};
ghost use Rattle.sctp_c.specs.channels.Holds.{HoldsChannels, waiting_in};

use crate::channels::handle::SctpChannels;
use crate::codes::{MISUSE, NO_CHANNEL, NO_MEMORY, OK};
use sctp_channels::ThresholdFault;
use sctp_endpoint::Ticket;

/// Abandons a message; what has become of it, 1 to 5, is written to `fate`.
#[unsafe(no_mangle)]
pub extern "C" fn sctp_channels_abandon(
    channels: &mut SctpChannels,
    ticket: u64,
    fate: &mut u32,
) -> u32
    ensures misuse { channels.old.slot.held ≡ None → (result ≡ MISUSE) × (channels.new.slot.held ≡ None) }
    ensures untold { ((result ≡ OK) → ⊥) → fate.new ≡ fate.old }
    ensures answer { (v : EndView) (x : Table) → HoldsChannels channels.old.slot.held v x → (result ≡ OK) × (fate.new ≡ fate_number (abandons v ticket)) }
    ensures step { (v : EndView) (x : Table) → HoldsChannels channels.old.slot.held v x → HoldsChannels channels.new.slot.held (abandoned_at v ticket) x }
    ensures waits { waiting_in channels.new.slot.held ≡ waiting_in channels.old.slot.held }
{
    if !channels.is_full() {
        return MISUSE;
    }
    let held = channels.slot.lend();
    let answer = held.channels.abandon(Ticket(ticket));
    *fate = u32::from(answer.code());
    OK
}

/// Writes the bytes of user data that are queued on a stream to `bytes`.
#[unsafe(no_mangle)]
pub extern "C" fn sctp_channels_buffered_amount(
    channels: &mut SctpChannels,
    stream: u16,
    bytes: &mut u64,
) -> u32
    ensures misuse { channels.old.slot.held ≡ None → result ≡ MISUSE }
    ensures untold { ((result ≡ OK) → ⊥) → bytes.new ≡ bytes.old }
    ensures answer { (v : EndView) (x : Table) → HoldsChannels channels.old.slot.held v x → (result ≡ OK) × (bytes.new ≡ buffered v stream) }
    ensures kept { channels.new.slot.held ≡ channels.old.slot.held }
{
    if !channels.is_full() {
        return MISUSE;
    }
    let held = channels.slot.lend();
    *bytes = held.channels.buffered_amount(stream);
    OK
}

/// The result of setting a threshold.
fn set_code(answer: Result<(), ThresholdFault>) -> u32
    ensures { result ≡ set_code answer }
{
    match answer {
        Ok(()) => OK,
        Err(ThresholdFault::NoChannel) => NO_CHANNEL,
        Err(ThresholdFault::NoMemory) => NO_MEMORY,
    }
}

/// Sets the low threshold of a channel's buffered amount.
#[unsafe(no_mangle)]
pub extern "C" fn sctp_channels_set_buffered_amount_low_threshold(
    channels: &mut SctpChannels,
    stream: u16,
    bytes: u32,
) -> u32
    ensures misuse { channels.old.slot.held ≡ None → (result ≡ MISUSE) × (channels.new.slot.held ≡ None) }
    ensures did { (v : EndView) (x : Table) → HoldsChannels channels.old.slot.held v x → SetsFor v x stream bytes channels.new.slot.held result }
    ensures waits { waiting_in channels.new.slot.held ≡ waiting_in channels.old.slot.held }
{
    if !channels.is_full() {
        return MISUSE;
    }
    let held = channels.slot.lend();
    let answer = held
        .channels
        .set_buffered_amount_low_threshold(stream, bytes);
    set_code(answer)
}

/// Writes the longest message that the peer should send, in bytes.
#[unsafe(no_mangle)]
pub extern "C" fn sctp_channels_max_message_size(
    channels: &mut SctpChannels,
    bytes: &mut u32,
) -> u32
    ensures misuse { channels.old.slot.held ≡ None → result ≡ MISUSE }
    ensures untold { ((result ≡ OK) → ⊥) → bytes.new ≡ bytes.old }
    ensures answer { (v : EndView) (x : Table) → HoldsChannels channels.old.slot.held v x → (result ≡ OK) × (bytes.new ≡ v.configuration.buffer / 4) }
    ensures kept { channels.new.slot.held ≡ channels.old.slot.held }
{
    if !channels.is_full() {
        return MISUSE;
    }
    let held = channels.slot.lend();
    *bytes = held.channels.max_message_size();
    OK
}
