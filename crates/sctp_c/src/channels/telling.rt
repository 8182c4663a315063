//! An event as C gets it.

ghost use Rattle.std.specs.Prelude.{◌≡◌, ◌<◌, ◌^◌, ◌++◌};
ghost use Rattle.sctp_dcep.specs.Dcep.{type_of, value_of};
ghost use Rattle.sctp_dcep.specs.Meanings.{reliability_meaning};
ghost use Rattle.sctp_recv.specs.HandedOf.{message_bytes};
ghost use Rattle.sctp_channels.specs.Meanings.{event_meaning, parameters_meaning, content_bytes};
ghost use Rattle.sctp_c.specs.channels.Events.{capped, plain_event, incoming_numbers, event_numbers, event_bytes, PutsAll};

use crate::channels::codes::{ignored_number, refusal_number};
use crate::channels::crossing::{MAX_PACKET_LIFETIME, MAX_RETRANSMITS, RELIABLE, SctpChannelEvent};
use crate::messages::copy_whole;
use sctp_channels::{Event, Parameters, Reliability};
use sctp_endpoint::Message;

/// An event of this kind on this stream, with no other number.
fn plain_event(stream: u16, kind: u8) -> SctpChannelEvent
    ensures { result ≡ plain_event stream kind }
{
    SctpChannelEvent {
        length: 0,
        label_length: 0,
        reason: 0,
        limit: 0,
        priority: 0,
        reliability: 0,
        ordered: false,
        stream,
        kind,
        text: false,
        reserved: [0; 2],
    }
}

/// The number of a reliability.
fn reliability_number(reliability: Reliability) -> u8
    ensures { result ≡ type_of (reliability_meaning reliability) }
{
    match reliability {
        Reliability::Reliable => RELIABLE,
        Reliability::MaxRetransmits(_) => MAX_RETRANSMITS,
        Reliability::MaxPacketLifetime(_) => MAX_PACKET_LIFETIME,
    }
}

/// The limit of a reliability: retransmissions or milliseconds.
fn limit_of(reliability: Reliability) -> u32
    ensures { result ≡ value_of (reliability_meaning reliability) }
{
    match reliability {
        Reliability::Reliable => 0,
        Reliability::MaxRetransmits(times) => times,
        Reliability::MaxPacketLifetime(milliseconds) => milliseconds,
    }
}

/// How many bytes a content has.
pub(crate) fn content_length(message: &Option<Message>) -> usize
    ensures { result ≡ capped (content_bytes message.now) }
{
    match message {
        Some(message) => message.len(),
        None => 0,
    }
}

/// The numbers of an event.
pub(crate) fn event_numbers(event: &Event) -> SctpChannelEvent
    ensures { result ≡ event_numbers (event_meaning event.now) }
{
    match event {
        Event::Incoming { stream, parameters } => incoming_numbers(*stream, parameters),
        Event::Opened { stream } => plain_event(*stream, 2),
        Event::Message {
            stream,
            text,
            message,
        } => message_numbers(*stream, *text, content_length(message)),
        Event::Closed { stream } => plain_event(*stream, 4),
        Event::Refused { stream, why } => SctpChannelEvent {
            reason: refusal_number(*why),
            ..plain_event(*stream, 5)
        },
        Event::Ignored { stream, why } => SctpChannelEvent {
            reason: ignored_number(*why),
            ..plain_event(*stream, 6)
        },
        Event::BufferedAmountLow { stream } => plain_event(*stream, 7),
    }
}

/// The numbers of a message.
pub(crate) fn message_numbers(stream: u16, text: bool, length: usize) -> SctpChannelEvent
    ensures numbers { result ≡ record (plain_event stream 3) { length = length; text = text } }
    ensures small { length < 2 ^ 64 }
{
    SctpChannelEvent {
        length,
        text,
        ..plain_event(stream, 3)
    }
}

/// The numbers of a channel that the peer opened.
fn incoming_numbers(stream: u16, parameters: &Parameters) -> SctpChannelEvent
    ensures { result ≡ incoming_numbers stream (parameters_meaning parameters.now) }
{
    let label_length = parameters.label.len();
    SctpChannelEvent {
        length: label_length.saturating_add(parameters.protocol.len()),
        label_length,
        limit: limit_of(parameters.reliability),
        priority: parameters.priority,
        reliability: reliability_number(parameters.reliability),
        ordered: parameters.ordered,
        ..plain_event(stream, 1)
    }
}

/// Copies the bytes of an event to the beginning of a buffer, and returns whether it has space for them: else it stays as it is.
pub(crate) fn put_event(event: &Event, buffer: &mut [u8]) -> bool
    ensures { PutsAll (event_bytes (event_meaning event.now)) result buffer.old buffer.new }
{
    match event {
        Event::Incoming { parameters, .. } => {
            put_both(&parameters.label, &parameters.protocol, buffer)
        }
        Event::Message { message, .. } => put_content(message, buffer),
        _ => true,
    }
}

/// Copies the bytes of a message to the beginning of a buffer, and returns whether it has space for them.
pub(crate) fn put_content(message: &Option<Message>, buffer: &mut [u8]) -> bool
    ensures { PutsAll (content_bytes message.now) result buffer.old buffer.new }
{
    match message {
        Some(message) => copy_whole(message, buffer).is_ok(),
        None => true,
    }
}

/// Copies two texts, one behind the other, to the beginning of a buffer, and returns whether it has space for them.
fn put_both(first: &[u8], second: &[u8], buffer: &mut [u8]) -> bool
    ensures { PutsAll (first.now ++ second.now) result buffer.old buffer.new }
{
    let Some(room) = buffer.len().checked_sub(first.len()) else {
        return false;
    };
    if room < second.len() {
        return false;
    }
    let (head, rest) = buffer.split_at_mut(first.len());
    head.copy_from_slice(first);
    rest[..second.len()].copy_from_slice(second);
    true
}
