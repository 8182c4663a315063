//! Channels are opened and closed by C (RFC 8831, 6.4, 6.5 and 6.7).

ghost use Rattle.std.specs.Prelude.{◌≡◌, true, false, None, Some, option_map};
ghost use Rattle.sctp_model.specs.end.EndView.{EndView};
ghost use Rattle.sctp_dcep.specs.Dcep as dcep;
ghost use Rattle.sctp_dcep.specs.Meanings.{reliability_meaning};
ghost use Rattle.sctp_channels.specs.Streams.{Table};
ghost use Rattle.sctp_c.specs.Slot.{is_full};
ghost use Rattle.sctp_c.specs.channels.Asked.{asked_reliability, asked_parameters, stream_asked};
ghost use Rattle.sctp_c.specs.channels.Early.{is_early, is_unjoined};
ghost use Rattle.sctp_c.specs.channels.Holds.{HoldsChannels, waiting_in};
ghost use Rattle.sctp_c.specs.channels.Told.{OpenTold, OpensFor, NegotiatesFor, ClosesFor};
ghost use Rattle.sctp_c.specs.channels.Codes.{negotiate_code, closing_code};

use crate::channels::codes::{close_code, open_code};
use crate::channels::crossing::{SctpChannelParameters, is_zeroed, reliability_of, stream_of};
use crate::channels::early::{is_early, is_unjoined};
use crate::channels::handle::SctpChannels;
use crate::codes::{BAD_RESERVED, MISUSE, NOT_OPEN, OK};
use sctp_channels::{CloseFault, OpenFault, Opening, Reliability};

/// The reliability that C asks for; None if its number has no meaning, or a reserved number isn't 0.
fn asked_reliability(parameters: &SctpChannelParameters) -> Option<Reliability>
    ensures { option_map reliability_meaning result ≡ asked_reliability parameters.now }
{
    if is_zeroed(&parameters.reserved) {
        reliability_of(parameters.reliability, parameters.limit)
    } else {
        None
    }
}

/// Writes the stream of a channel that was opened.
fn tell_open(answer: Result<u16, OpenFault>, opened: &mut u16) -> u32
    ensures told { OpenTold answer result opened.new }
    ensures untold { ((result ≡ OK) → ⊥) → opened.new ≡ opened.old }
{
    match answer {
        Ok(stream) => {
            *opened = stream;
            OK
        }
        Err(why) => open_code(why),
    }
}

/// Opens a channel with these parameters, on this stream, or for 65,535 on the lowest that is free of this side's, and writes its stream to `opened`.
#[unsafe(no_mangle)]
pub extern "C" fn sctp_channels_open(
    channels: &mut SctpChannels,
    parameters: &SctpChannelParameters,
    label: &[u8],
    protocol: &[u8],
    stream: u16,
    opened: &mut u16,
) -> u32
    ensures misuse { channels.old.slot.held ≡ None → (result ≡ MISUSE) × (channels.new.slot.held ≡ None) }
    ensures unasked { is_full channels.old.slot.held ≡ true → asked_reliability parameters.now ≡ None → (result ≡ BAD_RESERVED) × (channels.new ≡ channels.old) }
    ensures untold { ((result ≡ OK) → ⊥) → opened.new ≡ opened.old }
    ensures early { (v : EndView) (x : Table) (r : dcep.Reliability) → HoldsChannels channels.old.slot.held v x → asked_reliability parameters.now ≡ Some r
        → is_early v.phase ≡ true → (result ≡ NOT_OPEN) × (channels.new.slot.held ≡ channels.old.slot.held) }
    ensures did { (v : EndView) (x : Table) (r : dcep.Reliability) → HoldsChannels channels.old.slot.held v x → asked_reliability parameters.now ≡ Some r
        → is_early v.phase ≡ false → OpensFor v x (asked_parameters parameters.now r label.now protocol.now) (stream_asked stream) channels.new.slot.held result opened.new }
    ensures waits { waiting_in channels.new.slot.held ≡ waiting_in channels.old.slot.held }
{
    if !channels.is_full() {
        return MISUSE;
    }
    let Some(reliability) = asked_reliability(parameters) else {
        return BAD_RESERVED;
    };
    let opening = Opening {
        label,
        protocol,
        ordered: parameters.ordered,
        reliability,
        priority: parameters.priority,
    };
    let held = channels.slot.lend();
    if is_early(held) {
        return NOT_OPEN;
    }
    let answer = held.channels.open(&opening, stream_of(stream));
    tell_open(answer, opened)
}

/// The result of opening a channel that both applications agreed on.
fn negotiate_code(answer: Result<(), OpenFault>) -> u32
    ensures { result ≡ negotiate_code answer }
{
    match answer {
        Ok(()) => OK,
        Err(why) => open_code(why),
    }
}

/// Opens a channel that both applications agreed on, on this stream.
#[unsafe(no_mangle)]
pub extern "C" fn sctp_channels_open_negotiated(
    channels: &mut SctpChannels,
    parameters: &SctpChannelParameters,
    stream: u16,
) -> u32
    ensures misuse { channels.old.slot.held ≡ None → (result ≡ MISUSE) × (channels.new.slot.held ≡ None) }
    ensures unasked { is_full channels.old.slot.held ≡ true → asked_reliability parameters.now ≡ None → (result ≡ BAD_RESERVED) × (channels.new ≡ channels.old) }
    ensures early { (v : EndView) (x : Table) (r : dcep.Reliability) → HoldsChannels channels.old.slot.held v x → asked_reliability parameters.now ≡ Some r
        → is_unjoined v.phase ≡ true → (result ≡ NOT_OPEN) × (channels.new.slot.held ≡ channels.old.slot.held) }
    ensures did { (v : EndView) (x : Table) (r : dcep.Reliability) → HoldsChannels channels.old.slot.held v x → asked_reliability parameters.now ≡ Some r
        → is_unjoined v.phase ≡ false → NegotiatesFor v x parameters.now.ordered r stream channels.new.slot.held result }
    ensures waits { waiting_in channels.new.slot.held ≡ waiting_in channels.old.slot.held }
{
    if !channels.is_full() {
        return MISUSE;
    }
    let Some(reliability) = asked_reliability(parameters) else {
        return BAD_RESERVED;
    };
    let held = channels.slot.lend();
    if is_unjoined(held) {
        return NOT_OPEN;
    }
    let answer = held
        .channels
        .open_negotiated(stream, parameters.ordered, reliability);
    negotiate_code(answer)
}

/// The result of closing a channel.
fn closing_code(answer: Result<(), CloseFault>) -> u32
    ensures { result ≡ closing_code answer }
{
    match answer {
        Ok(()) => OK,
        Err(why) => close_code(why),
    }
}

/// Closes a channel.
#[unsafe(no_mangle)]
pub extern "C" fn sctp_channels_close(channels: &mut SctpChannels, stream: u16) -> u32
    ensures misuse { channels.old.slot.held ≡ None → (result ≡ MISUSE) × (channels.new.slot.held ≡ None) }
    ensures early { (v : EndView) (x : Table) → HoldsChannels channels.old.slot.held v x → is_early v.phase ≡ true
        → (result ≡ NOT_OPEN) × (channels.new.slot.held ≡ channels.old.slot.held) }
    ensures did { (v : EndView) (x : Table) → HoldsChannels channels.old.slot.held v x → is_early v.phase ≡ false → ClosesFor v x stream channels.new.slot.held result }
    ensures waits { waiting_in channels.new.slot.held ≡ waiting_in channels.old.slot.held }
{
    if !channels.is_full() {
        return MISUSE;
    }
    let held = channels.slot.lend();
    if is_early(held) {
        return NOT_OPEN;
    }
    let answer = held.channels.close(stream);
    closing_code(answer)
}
