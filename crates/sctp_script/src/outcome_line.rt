//! Writes the line of an outcome.

ghost use Rattle.std.specs.Prelude.{◌≡◌, ℕ, [], ◌∷◌, ◌++◌, map, codes, decimal, OnOk, OnErr};
ghost use Rattle.sctp_model.specs.world.World as world;
ghost use Rattle.sctp_model.specs.world.Events as meaning;
ghost use Rattle.sctp_recv.specs.HandedOf.{handed_of};
ghost use Rattle.sctp_events.specs.Events.{side_meaning, event_meaning, refusal_meaning, outcome_meaning};
ghost use Rattle.sctp_text.specs.SpacedWords.{line_of};
ghost use Rattle.sctp_script.specs.OutcomeText.{side_word, end_named, stream_named, outcome_words, outcome_line};

use crate::side_word::side_name;
use sctp_events::{Event, Outcome, Refusal, Side};
use sctp_recv::Message;
use sctp_text::Word;
use sctp_values::{Kind, NoMemory};
use sctp_words::{kind_word, number_word, put_line};
use std::alloc::Global;

/// Appends the line of an outcome, with its line feed. `event` is the event that it answers.
///
/// # Errors
/// `NoMemory` if an allocation failed; `out` is unchanged then.
pub fn put_outcome(
    alloc: Global,
    event: &Event,
    outcome: &Outcome,
    out: &mut Vec<u8>,
) -> Result<(), NoMemory>
    ensures put { OnOk result (out.new.items ≡ out.old.items ++ outcome_line (event_meaning event.now) (outcome_meaning outcome.now)) }
    ensures refused { OnErr result (out.new.items ≡ out.old.items) }
{
    let side = side_named(event);
    match outcome {
        Outcome::Done => put_line(b"ok", &[], &[], out),
        Outcome::Refused { refusal } => put_line(b"refused", &[], &[refusal_code(*refusal)], out),
        Outcome::Sent { number, length } => put_packet(b"sent", side, *number, *length, out),
        Outcome::Quiet => put_side(b"quiet", side, &[], out),
        Outcome::Taken => put_side(b"taken", side, &[], out),
        Outcome::Dropped { reason } => {
            put_side(b"dropped", side, &[u64::from(reason.code())], out)
        }
        Outcome::Answer { number, length } => put_packet(b"answer", side, *number, *length, out),
        Outcome::Absent => put_line(b"absent", &[], &[], out),
        Outcome::Ticket { ticket } => put_side(b"ticket", side, &[ticket.0], out),
        Outcome::Fate { fate } => put_side(b"fate", side, &[u64::from(fate.code())], out),
        Outcome::Message { message } => put_message(alloc, side, stream_named(event), message, out),
        Outcome::Empty => put_side(b"empty", side, &[u64::from(stream_named(event))], out),
        Outcome::ResetThere { stream, count } => {
            put_side(b"reset", side, &[u64::from(*stream), *count as u64], out)
        }
        Outcome::NoReset => put_side(b"no-reset", side, &[], out),
    }
}

/// The endpoint that is named in the line of an event's outcome.
fn side_named(event: &Event) -> Side
    ensures { side_meaning result ≡ end_named (event_meaning event.now) }
{
    match event {
        Event::Open { .. } | Event::At { .. } | Event::Drawing { .. } | Event::Connect { .. } => {
            Side::A
        }
        Event::Deliver { side, .. } => side.other(),
        Event::Later { side, .. } => *side,
        Event::Moment { side } => *side,
        Event::Build { side } => *side,
        Event::Foreign { side, .. } => *side,
        Event::Send { side, .. } => *side,
        Event::SendWithMaxRetransmits { side, .. } => *side,
        Event::Abandon { side, .. } => *side,
        Event::Take { side, .. } => *side,
        Event::Reset { side, .. } => *side,
        Event::WasReset { side } => *side,
        Event::Shutdown { side } => *side,
        Event::Abort { side, .. } => *side,
    }
}

/// The stream that is named in the line of an event's outcome.
fn stream_named(event: &Event) -> u16
    ensures { result ≡ stream_named (event_meaning event.now) }
{
    match event {
        Event::Take { stream, .. } => *stream,
        _ => 0,
    }
}

/// The code of a refusal, 1 to 8.
fn refusal_code(refusal: Refusal) -> u64
    ensures { (x : world.Side) (s : ℕ) → outcome_words x s (refusal_meaning refusal) ≡ codes "refused" ∷ decimal result ∷ [] }
{
    match refusal {
        Refusal::State | Refusal::NoSuchStream => 1,
        Refusal::ReasonTooLong | Refusal::NoSuchReset | Refusal::Empty => 2,
        Refusal::TooLong => 3,
        Refusal::QueueFull => 4,
        Refusal::Spent => 5,
        Refusal::NotOpen => 7,
        Refusal::Resetting => 8,
    }
}

/// Appends a line of a word, an endpoint and numbers; nothing if an allocation fails.
fn put_side(first: &[u8], side: Side, numbers: &[u64], out: &mut Vec<u8>) -> Result<(), NoMemory>
    ensures put { OnOk result (out.new.items ≡ out.old.items
        ++ line_of (first.now ∷ side_word (side_meaning side) ∷ map decimal numbers.now)) }
    ensures refused { OnErr result (out.new.items ≡ out.old.items) }
{
    put_line(first, &[Word::Text(side_name(side))], numbers, out)
}

/// Appends a line of a word, an endpoint, and a packet's number and length; nothing if an allocation fails.
fn put_packet(
    first: &[u8],
    side: Side,
    number: usize,
    length: usize,
    out: &mut Vec<u8>,
) -> Result<(), NoMemory>
    ensures put { OnOk result (out.new.items ≡ out.old.items
        ++ line_of (first.now ∷ side_word (side_meaning side) ∷ decimal number ∷ decimal length ∷ [])) }
    ensures refused { OnErr result (out.new.items ≡ out.old.items) }
{
    let words = [
        Word::Text(side_name(side)),
        Word::Number(number as u64),
        Word::Number(length as u64),
    ];
    put_line(first, &words, &[], out)
}

/// Appends `message X STREAM KIND NUMBER ID HEX`; nothing if an allocation fails.
fn put_message(
    alloc: Global,
    side: Side,
    stream: u16,
    message: &Message,
    out: &mut Vec<u8>,
) -> Result<(), NoMemory>
    ensures put { OnOk result (out.new.items ≡ out.old.items
        ++ line_of (outcome_words (side_meaning side) stream (meaning.Message (handed_of message.now)))) }
    ensures refused { OnErr result (out.new.items ≡ out.old.items) }
{
    let mut bytes = Vec::new(alloc);
    message.copy_to(&mut bytes)?;
    let words = [
        Word::Text(side_name(side)),
        Word::Number(u64::from(stream)),
        kind_word(Kind::of_flag(!message.ordered)),
        number_word(message.number),
        Word::Number(u64::from(message.payload_id)),
        Word::Hex(&bytes),
    ];
    put_line(b"message", &words, &[], out)
}
