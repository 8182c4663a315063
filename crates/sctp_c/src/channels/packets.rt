//! Packets of an association with channels, received and to send, and the ABORT (RFC 9260, 6.10, 8.4 and 9.1).

ghost use Rattle.std.specs.Prelude.{◌≡◌, ◌<◌, ◌≤◌, length, true, None, Option, IfOk, IfSome};
ghost use Rattle.sctp_model.specs.wire.Packet as meaning;
ghost use Rattle.sctp_model.specs.end.EndView.{EndView};
ghost use Rattle.sctp_endpoint.specs.Transmitted.{TellsFew, MOST_TICKETS};
ghost use Rattle.sctp_endpoint.specs.Handled.{IsRead};
ghost use Rattle.sctp_channels.specs.Streams.{Table};
ghost use Rattle.sctp_channels.specs.ChannelsStand.{ChannelsStand};
ghost use Rattle.sctp_c.specs.Asked.{drawn, IsDraw};
ghost use Rattle.sctp_c.specs.Slot.{is_full};
ghost use Rattle.sctp_c.specs.Told.{PollTold};
ghost use Rattle.sctp_c.specs.channels.Holds.{HoldsChannels, waiting_in};
ghost use Rattle.sctp_c.specs.channels.Told.{PolledFor, HeardFor, AbortedFor};

use crate::buffers::{put_bytes, put_tickets};
use crate::channels::handle::SctpChannels;
use crate::codes::{BAD_DRAW, BAD_RESERVED, MISUSE, NEEDS_ROOM, NO_MEMORY, OK};
use crate::crossing::{SctpDraw, SctpSent, SctpVerdict};
use crate::packets::{limit_of, no_packet, no_verdict, tell_abort, tell_heard};
use sctp_channels::Channels;
use sctp_endpoint::{Draw, NoMemory, Sent};

/// Writes the next packet, or that there is none, for C. Once its bytes are copied, the packet's own memory goes back to the endpoint.
fn tell_poll(
    channels: &mut Channels,
    answer: Result<Option<Sent>, NoMemory>,
    buffer: &mut [u8],
    tickets: &mut [u64],
    sent: &mut SctpSent,
) -> u32
    ensures told { IfOk answer (λ o. IfSome o (λ s. length s.packet.items ≤ length buffer.old)) → PollTold answer result sent.new buffer.old buffer.new tickets.old tickets.new }
    ensures untold { ((result ≡ OK) → ⊥) → (buffer.new ≡ buffer.old) × (tickets.new ≡ tickets.old) }
    ensures few { IfOk answer (λ sent. TellsFew sent) → sent.new.tickets ≤ MOST_TICKETS }
    ensures reserved { sent.new.reserved ≡ 0 }
    ensures keeps { (v : EndView) (x : Table) → ChannelsStand channels.old v x → ChannelsStand channels.new v x }
{
    let Ok(next) = answer else {
        *sent = no_packet(0);
        return NO_MEMORY;
    };
    let Some(next) = next else {
        *sent = no_packet(0);
        return OK;
    };
    let Sent {
        packet,
        tickets: begun,
    } = next;
    *sent = SctpSent {
        length: packet.len(),
        tickets: put_tickets(&begun, tickets),
        reserved: 0,
    };
    channels.recycle_tickets(begun);
    let _ = put_bytes(&packet, buffer);
    channels.recycle(packet);
    OK
}

/// Writes the next packet to send, as `sctp_endpoint_poll_transmit` does. What is due of the channels is queued before.
#[unsafe(no_mangle)]
pub extern "C" fn sctp_channels_poll_transmit(
    channels: &mut SctpChannels,
    now: u64,
    buffer: &mut [u8],
    tickets: &mut [u64],
    sent: &mut SctpSent,
) -> u32
    ensures misuse { channels.old.slot.held ≡ None → (result ≡ MISUSE) × (channels.new.slot.held ≡ None) × (sent.new ≡ sent.old) }
    ensures narrow { (v : EndView) (x : Table) → HoldsChannels channels.old.slot.held v x → length buffer.old < v.configuration.limit
        → (result ≡ NEEDS_ROOM) × (sent.new.length ≡ v.configuration.limit) × (sent.new.tickets ≡ 0) × (channels.new.slot.held ≡ channels.old.slot.held) }
    ensures untold { ((result ≡ OK) → ⊥) → (buffer.new ≡ buffer.old) × (tickets.new ≡ tickets.old) }
    ensures few { (v : EndView) (x : Table) → HoldsChannels channels.old.slot.held v x → sent.new.tickets ≤ MOST_TICKETS }
    ensures reserved { (v : EndView) (x : Table) → HoldsChannels channels.old.slot.held v x → sent.new.reserved ≡ 0 }
    ensures did { (v : EndView) (x : Table) → HoldsChannels channels.old.slot.held v x → v.configuration.limit ≤ length buffer.old
        → PolledFor v x now channels.new.slot.held result sent.new buffer.old buffer.new tickets.old tickets.new }
    ensures waits { waiting_in channels.new.slot.held ≡ waiting_in channels.old.slot.held }
{
    if !channels.is_full() {
        return MISUSE;
    }
    let held = channels.slot.lend();
    let limit = limit_of(held.channels.endpoint());
    if buffer.len() < limit {
        *sent = no_packet(limit);
        return NEEDS_ROOM;
    }
    let answer = held.channels.poll_transmit(now);
    let told = tell_poll(&mut held.channels, answer, buffer, tickets, sent);
    told
}

/// Processes a received packet, as `sctp_endpoint_handle_packet` does; then each reset of a stream by the peer is noted.
#[unsafe(no_mangle)]
pub extern "C" fn sctp_channels_handle_packet(
    channels: &mut SctpChannels,
    now: u64,
    packet: &[u8],
    draw: &SctpDraw,
    buffer: &mut [u8],
    verdict: &mut SctpVerdict,
) -> u32
    ensures undrawn { draw.now.tag ≡ 0 → (result ≡ BAD_DRAW) × (channels.new ≡ channels.old) × (verdict.new ≡ verdict.old) }
    ensures misuse { 0 < draw.now.tag → channels.old.slot.held ≡ None
        → (result ≡ MISUSE) × (channels.new.slot.held ≡ None) × (verdict.new ≡ verdict.old) }
    ensures unzeroed { 0 < draw.now.tag → is_full channels.old.slot.held ≡ true → 0 < draw.now.reserved
        → (result ≡ BAD_RESERVED) × (channels.new ≡ channels.old) × (verdict.new ≡ verdict.old) }
    ensures untold { ((result ≡ OK) → ⊥) → buffer.new ≡ buffer.old }
    ensures narrow { (v : EndView) (x : Table) → HoldsChannels channels.old.slot.held v x → IsDraw draw.now → length buffer.old < v.configuration.limit
        → (result ≡ NEEDS_ROOM) × (verdict.new.length ≡ v.configuration.limit) × (verdict.new.verdict ≡ 0) × (verdict.new.reason ≡ 0)
        × (channels.new.slot.held ≡ channels.old.slot.held) }
    ensures reserved { (v : EndView) (x : Table) → HoldsChannels channels.old.slot.held v x → IsDraw draw.now → verdict.new.reserved ≡ 0 }
    ensures did { (v : EndView) (x : Table) (o : Option meaning.Packet) → HoldsChannels channels.old.slot.held v x → IsDraw draw.now
        → v.configuration.limit ≤ length buffer.old → IsRead packet.now o
        → HeardFor v x now (drawn draw.now) o channels.new.slot.held result verdict.new buffer.old buffer.new }
    ensures waits { waiting_in channels.new.slot.held ≡ waiting_in channels.old.slot.held }
{
    let SctpDraw { tag, tsn, reserved } = *draw;
    let Some(draw) = Draw::new(tag, tsn) else {
        return BAD_DRAW;
    };
    if !channels.is_full() {
        return MISUSE;
    }
    if reserved > 0 {
        return BAD_RESERVED;
    }
    let held = channels.slot.lend();
    let limit = limit_of(held.channels.endpoint());
    if buffer.len() < limit {
        *verdict = no_verdict(limit);
        return NEEDS_ROOM;
    }
    let answer = held.channels.handle_packet(now, packet, draw);
    tell_heard(answer, buffer, verdict)
}

/// Ends the association at once, as `sctp_endpoint_abort` does.
#[unsafe(no_mangle)]
pub extern "C" fn sctp_channels_abort(
    channels: &mut SctpChannels,
    reason: &[u8],
    buffer: &mut [u8],
    count: &mut usize,
) -> u32
    ensures misuse { channels.old.slot.held ≡ None → (result ≡ MISUSE) × (channels.new.slot.held ≡ None) × (count.new ≡ count.old) }
    ensures untold { ((result ≡ OK) → ⊥) → buffer.new ≡ buffer.old }
    ensures narrow { (v : EndView) (x : Table) → HoldsChannels channels.old.slot.held v x → length buffer.old < v.configuration.limit
        → (result ≡ NEEDS_ROOM) × (count.new ≡ v.configuration.limit) × (channels.new.slot.held ≡ channels.old.slot.held) }
    ensures did { (v : EndView) (x : Table) → HoldsChannels channels.old.slot.held v x → v.configuration.limit ≤ length buffer.old
        → AbortedFor v x reason.now channels.new.slot.held result count.new buffer.old buffer.new }
    ensures waits { waiting_in channels.new.slot.held ≡ waiting_in channels.old.slot.held }
{
    if !channels.is_full() {
        return MISUSE;
    }
    let held = channels.slot.lend();
    let limit = limit_of(held.channels.endpoint());
    if buffer.len() < limit {
        *count = limit;
        return NEEDS_ROOM;
    }
    let answer = held.channels.abort(reason);
    tell_abort(answer, buffer, count)
}
