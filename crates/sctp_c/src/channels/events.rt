//! The next event is reported to C.

ghost use Rattle.std.specs.Prelude.{◌≡◌, Some, None, Ok};
ghost use Rattle.sctp_model.specs.end.EndView.{EndView};
ghost use Rattle.sctp_channels.specs.Streams.{Table};
ghost use Rattle.sctp_channels.specs.ChannelsStand.{ChannelsStand};
ghost use Rattle.sctp_channels.specs.Writing.{Keeps};
ghost use Rattle.sctp_channels.specs.declared.event.Event.TheVariants as kind;
ghost use Rattle.sctp_c.specs.channels.Holds.{HoldsChannels};
ghost use Rattle.sctp_c.specs.channels.Events.{EventTold, waits_after, WritesNext, TellsNext};

use crate::channels::crossing::SctpChannelEvent;
use crate::channels::handle::SctpChannels;
use crate::channels::held::Held;
use crate::channels::telling::{
    content_length, event_numbers, message_numbers, put_content, put_event,
};
use crate::codes::{MISUSE, NEEDS_ROOM, NO_MEMORY, NOTHING, OK};
use sctp_channels::{Event, Written};
use sctp_endpoint::Message;
use sctp_values::NoMemory;

impl Held {
    /// Copies the channels' next event to the buffer if no event waits, and it is a message for which the buffer has space.
    fn write(&mut self, buffer: &mut [u8]) -> Written
        ensures did { (v : EndView) (x : Table) → ChannelsStand self.old.channels v x
            → WritesNext v x self.old.waiting result self.new.channels buffer.old buffer.new }
        ensures kept { Keeps result buffer.old buffer.new }
        ensures waits { self.new.waiting ≡ self.old.waiting }
    {
        match &self.waiting {
            None => self.channels.next_message_into(buffer),
            Some(_) => Written::Other,
        }
    }

    /// Takes the next event, whatever it is, and writes it for C.
    #[inline(never)]
    fn tell_next(&mut self, event: &mut SctpChannelEvent, buffer: &mut [u8]) -> u32
        ensures untold { ((result ≡ OK) → ⊥) → buffer.new ≡ buffer.old }
        ensures did { (v : EndView) (x : Table) → ChannelsStand self.old.channels v x
            → TellsNext v x (Some self.old) (Some self.new) result event.old event.new buffer.old buffer.new }
    {
        let answer = self.next();
        self.tell(answer, event, buffer)
    }

    /// Writes an event for C, or that there is none. It waits if the buffer has no space for its bytes; else its memory goes back to the endpoint.
    fn tell(
        &mut self,
        answer: Result<Option<Event>, NoMemory>,
        event: &mut SctpChannelEvent,
        buffer: &mut [u8],
    ) -> u32
        ensures told { EventTold answer result event.old event.new buffer.old buffer.new }
        ensures waits { self.new.waiting ≡ waits_after answer result self.old.waiting }
        ensures keeps { (v : EndView) (x : Table) → ChannelsStand self.old.channels v x → ChannelsStand self.new.channels v x }
    {
        match answer {
            Ok(
                Some(
                    Event::Message {
                        stream,
                        text,
                        message,
                    },
                ),
            ) => self.tell_message(stream, text, message, event, buffer),
            Ok(Some(next)) => self.tell_event(next, event, buffer),
            Ok(None) => NOTHING,
            Err(NoMemory) => NO_MEMORY,
        }
    }

    /// Writes a message for C. It waits if the buffer has no space for it; else its memory goes back to the endpoint. An event is large, for the
    /// parameters that one may have, and isn't made again of a message that is told.
    fn tell_message(
        &mut self,
        stream: u16,
        text: bool,
        message: Option<Message>,
        event: &mut SctpChannelEvent,
        buffer: &mut [u8],
    ) -> u32
        ensures told { EventTold (Ok (Some (kind.Message stream text message))) result event.old event.new buffer.old buffer.new }
        ensures waits { self.new.waiting ≡ waits_after (Ok (Some (kind.Message stream text message))) result self.old.waiting }
        ensures keeps { (v : EndView) (x : Table) → ChannelsStand self.old.channels v x → ChannelsStand self.new.channels v x }
    {
        *event = message_numbers(stream, text, content_length(&message));
        if put_content(&message, buffer) {
            self.give_back(message);
            return OK;
        }
        self.waiting = Some(Event::Message {
            stream,
            text,
            message,
        });
        NEEDS_ROOM
    }

    /// Writes another event for C. It waits if the buffer has no space for its bytes.
    fn tell_event(&mut self, next: Event, event: &mut SctpChannelEvent, buffer: &mut [u8]) -> u32
        ensures told { EventTold (Ok (Some next)) result event.old event.new buffer.old buffer.new }
        ensures waits { self.new.waiting ≡ waits_after (Ok (Some next)) result self.old.waiting }
        ensures keeps { (v : EndView) (x : Table) → ChannelsStand self.old.channels v x → ChannelsStand self.new.channels v x }
    {
        *event = event_numbers(&next);
        if put_event(&next, buffer) {
            return OK;
        }
        self.waiting = Some(next);
        NEEDS_ROOM
    }

    /// Gives the memory of a message that was reported back to the endpoint.
    fn give_back(&mut self, message: Option<Message>)
        ensures waits { self.new.waiting ≡ self.old.waiting }
        ensures keeps { (v : EndView) (x : Table) → ChannelsStand self.old.channels v x → ChannelsStand self.new.channels v x }
    {
        if let Some(message) = message {
            self.channels.give_back(message);
        }
    }
}

/// Takes the next event: its numbers are written to `event`, its bytes to `buffer`. If that is too small the event is the next one again, and `event`
/// says how many bytes they are.
#[unsafe(no_mangle)]
pub extern "C" fn sctp_channels_next_event(
    channels: &mut SctpChannels,
    event: &mut SctpChannelEvent,
    buffer: &mut [u8],
) -> u32
    ensures misuse { channels.old.slot.held ≡ None → (result ≡ MISUSE) × (channels.new.slot.held ≡ None) × (event.new ≡ event.old) }
    ensures untold { ((result ≡ OK) → ⊥) → buffer.new ≡ buffer.old }
    ensures did { (v : EndView) (x : Table) → HoldsChannels channels.old.slot.held v x
        → TellsNext v x channels.old.slot.held channels.new.slot.held result event.old event.new buffer.old buffer.new }
{
    if !channels.is_full() {
        return MISUSE;
    }
    let held = channels.slot.lend();
    match held.write(buffer) {
        Written::Message {
            stream,
            text,
            length,
        } => {
            *event = message_numbers(stream, text, length);
            OK
        }
        Written::Nothing => NOTHING,
        Written::Other => held.tell_next(event, buffer),
    }
}
